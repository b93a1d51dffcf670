//! What the caller says to all clients of servers, the clock, and questions.

ghost use Rattle.std.specs.Prelude.{◌≡◌, None};
ghost use Rattle.is_c.specs.ServersHeld.{AtClients, With, clients_held, clients_of, end_of};
ghost use Rattle.is_c.specs.ServersCalls.{PermitsAt, ProbesAt, ClosesAt, LosesEnd, TimesOutAt, ReturnsNextTime, ReturnsGathering};
ghost use Rattle.is_c_calls.specs.Addresses.{socket_of};

use crate::address::socket_of;
use crate::codes;
use crate::random::Given;
use crate::servers::ends::end_of;
use crate::servers::held::HeldServers;
use crate::servers::packets::NEEDED;
use crate::servers::slot::ServersSlot;
use is_c_calls::Address;
use is_proto::Instant;
use is_servers::Transport;
use std::alloc::Global;
use std::net::SocketAddr;

fn permit(held: &mut HeldServers, now: u64, peer: Option<SocketAddr>) -> i32
    ensures { With peer (PermitsAt now) (clients_of held.old) result (clients_of held.new) }
{
    let Some(peer) = peer else {
        return codes::BAD_ADDRESS;
    };
    held.servers.permit(Instant(now), peer);
    codes::OK
}

/// Requests the permission of a peer at each TURN client.
#[unsafe(no_mangle)]
pub extern "C" fn is_ice_servers_permit(
    alloc: Global,
    slot: &mut ServersSlot,
    now: u64,
    peer: &Address,
) -> i32
    ensures { AtClients (With (socket_of peer.now) (PermitsAt now)) (clients_held slot.old) result (clients_held slot.new) }
{
    let Some(held) = slot.held() else {
        return codes::NO_SERVERS;
    };
    permit(held, now, socket_of(peer))
}

fn probe(held: &mut HeldServers, now: u64) -> i32
    ensures { ProbesAt now (clients_of held.old) result (clients_of held.new) }
{
    held.servers.probe(Instant(now));
    codes::OK
}

/// Each TURN client asks its server now whether it has the allocation.
#[unsafe(no_mangle)]
pub extern "C" fn is_ice_servers_probe(alloc: Global, slot: &mut ServersSlot, now: u64) -> i32
    ensures { AtClients (ProbesAt now) (clients_held slot.old) result (clients_held slot.new) }
{
    let Some(held) = slot.held() else {
        return codes::NO_SERVERS;
    };
    probe(held, now)
}

fn close(held: &mut HeldServers, now: u64) -> i32
    ensures { ClosesAt now (clients_of held.old) result (clients_of held.new) }
{
    held.servers.close(Instant(now));
    codes::OK
}

/// Each client ends: a TURN client frees its allocation.
#[unsafe(no_mangle)]
pub extern "C" fn is_ice_servers_close(alloc: Global, slot: &mut ServersSlot, now: u64) -> i32
    ensures { AtClients (ClosesAt now) (clients_held slot.old) result (clients_held slot.new) }
{
    let Some(held) = slot.held() else {
        return codes::NO_SERVERS;
    };
    close(held, now)
}

fn lose(held: &mut HeldServers, end: Option<(Transport, SocketAddr)>) -> i32
    ensures { With end LosesEnd (clients_of held.old) result (clients_of held.new) }
{
    let Some((transport, local)) = end else {
        return codes::BAD_ADDRESS;
    };
    held.servers.lose(transport, local);
    codes::OK
}

/// A socket or connection is gone: its clients end at once.
#[unsafe(no_mangle)]
pub extern "C" fn is_ice_servers_lose(
    alloc: Global,
    slot: &mut ServersSlot,
    protocol: u8,
    local: &Address,
) -> i32
    ensures { AtClients (With (end_of protocol local.now) LosesEnd) (clients_held slot.old) result (clients_held slot.new) }
{
    let Some(held) = slot.held() else {
        return codes::NO_SERVERS;
    };
    lose(held, end_of(protocol, local))
}

// ---- the clock

fn time_out(held: &mut HeldServers, now: u64, random: &[u8]) -> i32
    ensures { TimesOutAt now random.now (clients_of held.old) result (clients_of held.new) }
{
    if random.len() < NEEDED {
        return codes::TOO_FEW_RANDOM_BYTES;
    }
    let mut given = Given { rest: random };
    held.servers.handle_timeout(Instant(now), &mut given);
    codes::OK
}

/// Does what is due of the client whose time comes first.
#[unsafe(no_mangle)]
pub extern "C" fn is_ice_servers_handle_timeout(
    alloc: Global,
    slot: &mut ServersSlot,
    now: u64,
    random: &[u8],
) -> i32
    ensures { AtClients (TimesOutAt now random.now) (clients_held slot.old) result (clients_held slot.new) }
{
    let Some(held) = slot.held() else {
        return codes::NO_SERVERS;
    };
    time_out(held, now, random)
}

// ---- questions

fn put_next_time(held: &mut HeldServers, at: &mut u64) -> i32
    ensures { ReturnsNextTime at.old at.new (clients_of held.old) result (clients_of held.new) }
{
    match held.servers.poll_timeout() {
        Some(time) => {
            *at = time.0;
            codes::OK
        }
        None => codes::NOTHING,
    }
}

/// The time of the next `is_ice_servers_handle_timeout` call.
#[unsafe(no_mangle)]
pub extern "C" fn is_ice_servers_poll_timeout(
    alloc: Global,
    slot: &mut ServersSlot,
    at: &mut u64,
) -> i32
    ensures polled { AtClients (ReturnsNextTime at.old at.new) (clients_held slot.old) result (clients_held slot.new) }
    ensures without { clients_held slot.old ≡ None → at.new ≡ at.old }
{
    let Some(held) = slot.held() else {
        return codes::NO_SERVERS;
    };
    put_next_time(held, at)
}

fn gathering(held: &mut HeldServers) -> i32
    ensures { ReturnsGathering (clients_of held.old) result (clients_of held.new) }
{
    codes::found_code(held.servers.is_gathering())
}

/// Whether a client waits for its first answer.
#[unsafe(no_mangle)]
pub extern "C" fn is_ice_servers_gathering(alloc: Global, slot: &mut ServersSlot) -> i32
    ensures { AtClients ReturnsGathering (clients_held slot.old) result (clients_held slot.new) }
{
    let Some(held) = slot.held() else {
        return codes::NO_SERVERS;
    };
    gathering(held)
}
