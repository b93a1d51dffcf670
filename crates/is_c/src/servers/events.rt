//! Events of the clients of servers.

ghost use Rattle.std.specs.Prelude.{◌≡◌, None};
ghost use Rattle.is_c.specs.ServersHeld.{AtClients, clients_held, clients_of};
ghost use Rattle.is_c.specs.ServersEvents.{why_number, code_number, portless, mapped_over, IsAllocated, SaysWhat, IsOf, IsServerEvent, PutsNext, ReturnsNext};

use crate::address::address_of;
use crate::codes;
use crate::servers::ends::number_of;
use crate::servers::held::HeldServers;
use crate::servers::slot::ServersSlot;
use is_c_calls::Address;
use is_servers::{Happened, ServerEvent, Transport};
use is_turn::Why;
use std::alloc::Global;
use std::net::{IpAddr, SocketAddr, SocketAddrV4, SocketAddrV6};

/// Something that happened to a client: 1 mapped, 2 allocated, 3 a peer is not permitted, 4 ended.
#[repr(C)]
#[derive(Clone, Copy)]
pub struct Event {
    /// The client's socket or connection.
    pub local: Address,
    pub server: Address,
    /// The relayed address, of kind 2.
    pub relayed: Address,
    /// The mapped address, of kind 1, and of kind 2 if `has_mapped` is set.
    pub mapped: Address,
    /// The IP address of the peer that is not permitted, of kind 3.
    pub peer: Address,
    pub kind: i32,
    /// Why the client ended, of kind 4: 0 failed, 1 lost, 2 closed.
    pub why: i32,
    /// The code of the server's error response, of kinds 3 and 4, or 0.
    pub code: u16,
    /// The code of a response that nobody signed, of kind 4, or 0.
    pub unverified: u16,
    pub protocol: u8,
    /// Whether there is a mapped address, of kind 2.
    pub has_mapped: bool,
}

fn why_number(why: Why) -> i32
    ensures { result ≡ why_number why }
{
    match why {
        Why::Failed => 0,
        Why::Lost => 1,
        Why::Closed => 2,
    }
}

/// The code of a response as a number. 0: there was no response.
fn code_number(code: Option<u16>) -> u16
    ensures { result ≡ code_number code }
{
    code.unwrap_or(0)
}

/// An IP address with port 0.
fn portless(ip: IpAddr) -> SocketAddr
    ensures { result ≡ portless ip }
{
    match ip {
        IpAddr::V4(ip) => SocketAddr::V4(SocketAddrV4::new(ip, 0)),
        IpAddr::V6(ip) => SocketAddr::V6(SocketAddrV6::new(ip, 0, 0, 0)),
    }
}

/// Over TCP the server sees a connection, whose address no candidate has.
fn mapped_over(transport: Transport, mapped: Option<SocketAddr>) -> Option<SocketAddr>
    ensures { result ≡ mapped_over transport mapped }
{
    match transport {
        Transport::Udp => mapped,
        Transport::Tcp => None,
    }
}

fn put_allocation(mapped: Option<SocketAddr>, relayed: SocketAddr, event: &mut Event)
    ensures { IsAllocated mapped relayed event.old event.new }
{
    event.kind = 2;
    event.relayed = address_of(relayed);
    match mapped {
        Some(mapped) => {
            event.mapped = address_of(mapped);
            event.has_mapped = true;
        }
        None => event.has_mapped = false,
    }
}

fn put_what(transport: Transport, what: Happened, event: &mut Event)
    ensures { SaysWhat transport what event.old event.new }
{
    match what {
        Happened::Mapped(mapped) => {
            event.kind = 1;
            event.mapped = address_of(mapped);
        }
        Happened::Allocated(made) => put_allocation(
            mapped_over(transport, made.mapped),
            made.relayed,
            event,
        ),
        Happened::NotPermitted(ip, code) => {
            event.kind = 3;
            event.peer = address_of(portless(ip));
            event.code = code_number(code);
        }
        Happened::Ended(ending) => {
            event.kind = 4;
            event.why = why_number(ending.why);
            event.code = code_number(ending.code);
            event.unverified = code_number(ending.unverified);
        }
    }
}

/// Writes of which client the event is.
fn put_client(given: &ServerEvent, event: &mut Event)
    ensures { IsOf given.now event.old event.new }
{
    event.protocol = number_of(given.transport);
    event.local = address_of(given.local);
    event.server = address_of(given.server);
}

/// Writes what C gets of an event. What its kind does not have is left as it was.
fn put_event(given: ServerEvent, event: &mut Event)
    ensures { IsServerEvent given event.old event.new }
{
    put_client(&given, event);
    put_what(given.transport, given.what, event);
}

fn put_next(given: Option<ServerEvent>, event: &mut Event) -> i32
    ensures { PutsNext given event.old event.new result }
{
    match given {
        Some(given) => {
            put_event(given, event);
            codes::OK
        }
        None => codes::NOTHING,
    }
}

fn next_event(held: &mut HeldServers, event: &mut Event) -> i32
    ensures { ReturnsNext event.old event.new (clients_of held.old) result (clients_of held.new) }
{
    put_next(held.servers.poll_event(), event)
}

/// The next event of a client. What its kind does not have is left as it was.
#[unsafe(no_mangle)]
pub extern "C" fn is_ice_servers_poll_event(
    alloc: Global,
    slot: &mut ServersSlot,
    event: &mut Event,
) -> i32
    ensures polled { AtClients (ReturnsNext event.old event.new) (clients_held slot.old) result (clients_held slot.new) }
    ensures without { clients_held slot.old ≡ None → event.new ≡ event.old }
{
    let Some(held) = slot.held() else {
        return codes::NO_SERVERS;
    };
    next_event(held, event)
}
