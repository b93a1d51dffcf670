//! Datagrams and packets of the clients of servers.

ghost use Rattle.std.specs.Prelude.{◌≡◌, ◌≤◌, None, length};
ghost use Rattle.std.specs.Option.{option_map};
ghost use Rattle.is_turn.specs.OneRelay.{arrived_view};
ghost use Rattle.is_c.specs.ServersHeld.{AtClients, clients_held, clients_of, ends_of, pair_of};
ghost use Rattle.is_c.specs.ServersPackets.{IsArrival, PutsArrival, TakesArrival, TakesWith, IsSent, PutsOutgoing, id_in, GoesOut, GoesOutWith, GoesOutAt, PutsPolled, GivesNext};

use crate::address::address_of;
use crate::codes;
use crate::servers::ends::{Ends, ends_of, number_of, pair_of};
use crate::servers::held::HeldServers;
use crate::servers::places::offset_of;
use crate::servers::slot::ServersSlot;
use crate::stun_write::write_code;
use is_c_calls::{Address, Packet};
use is_proto::{DefaultSha1HmacProvider, Instant, Sha1HmacProvider, StunError};
use is_servers::{Datagram, ServerOutgoing, ServerPacket};
use is_stun::stun::TransId;
use std::alloc::Global;
use std::net::SocketAddr;

// ---- received datagrams

/// A datagram that arrived, as the agent takes it: a part of the bytes that the caller passed.
#[repr(C)]
#[derive(Clone, Copy)]
pub struct Arrival {
    pub source: Address,
    pub destination: Address,
    /// The index of the datagram's first byte in the bytes that the caller passed.
    pub offset: usize,
    pub length: usize,
}

fn arrival_at(datagram: &Datagram<'_>, offset: usize) -> Arrival
    ensures { IsArrival (arrived_view datagram.now) offset result }
{
    Arrival {
        source: address_of(datagram.source),
        destination: address_of(datagram.destination),
        offset,
        length: datagram.contents.len(),
    }
}

/// Writes what arrived, if something did.
fn put_arrival(bytes: &[u8], arrived: Option<Datagram<'_>>, arrival: &mut Arrival) -> i32
    ensures { PutsArrival bytes.now (option_map arrived_view arrived.entry) arrival.old arrival.new result }
{
    let Some(datagram) = arrived else {
        return codes::NOTHING;
    };
    match offset_of(bytes, datagram.contents) {
        Some(offset) => {
            *arrival = arrival_at(&datagram, offset);
            codes::OK
        }
        None => codes::NOTHING,
    }
}

fn take_arrival(
    held: &mut HeldServers,
    now: u64,
    ends: Ends,
    bytes: &[u8],
    arrival: &mut Arrival,
) -> i32
    ensures { TakesArrival ⟦<DefaultSha1HmacProvider as Sha1HmacProvider>⟧.mac now bytes.now arrival.old arrival.new ends (clients_of held.old)
        result (clients_of held.new) }
{
    let arrived = held.servers.receive(
        Instant(now),
        ends.transport,
        ends.local,
        ends.remote,
        bytes,
    );
    put_arrival(bytes, arrived, arrival)
}

fn take_with(
    held: &mut HeldServers,
    now: u64,
    ends: Option<Ends>,
    bytes: &[u8],
    arrival: &mut Arrival,
) -> i32
    ensures { TakesWith ⟦<DefaultSha1HmacProvider as Sha1HmacProvider>⟧.mac now ends bytes.now arrival.old arrival.new (clients_of held.old)
        result (clients_of held.new) }
{
    match ends {
        Some(ends) => take_arrival(held, now, ends, bytes, arrival),
        None => codes::BAD_ADDRESS,
    }
}

/// Takes a datagram, or a frame of a stream, that arrived at this time. NOTHING: it was for a client, or for nobody.
#[unsafe(no_mangle)]
pub extern "C" fn is_ice_servers_receive(
    alloc: Global,
    slot: &mut ServersSlot,
    now: u64,
    protocol: u8,
    source: &Address,
    destination: &Address,
    bytes: &[u8],
    arrival: &mut Arrival,
) -> i32
    ensures taken { AtClients (TakesWith ⟦<DefaultSha1HmacProvider as Sha1HmacProvider>⟧.mac now (ends_of protocol destination.now source.now)
        bytes.now arrival.old arrival.new) (clients_held slot.old) result (clients_held slot.new) }
    ensures without { clients_held slot.old ≡ None → arrival.new ≡ arrival.old }
{
    let Some(held) = slot.held() else {
        return codes::NO_SERVERS;
    };
    take_with(
        held,
        now,
        ends_of(protocol, destination, source),
        bytes,
        arrival,
    )
}

// ---- packets to send

/// How many random bytes a call uses at most: a transaction ID.
pub(crate) const NEEDED: usize = 12;

fn reported(sent: &ServerPacket) -> Packet
    ensures { IsSent sent.now result }
{
    Packet {
        source: address_of(sent.local),
        destination: address_of(sent.server),
        length: sent.len,
        protocol: number_of(sent.transport),
    }
}

/// The first twelve bytes as a transaction ID.
fn id_in(random: &[u8]) -> TransId
    requires { 12 ≤ length random.now }
    ensures { result ≡ id_in random.now }
{
    let mut id = [0; NEEDED];
    id.copy_from_slice(&random[..NEEDED]);
    TransId(id)
}

fn put_outgoing(outcome: Result<ServerOutgoing, StunError>, packet: &mut Packet) -> i32
    ensures { PutsOutgoing outcome packet.old packet.new result }
{
    match outcome {
        Ok(ServerOutgoing::AsItIs) => codes::NOTHING,
        Ok(ServerOutgoing::Nowhere) => codes::NO_RELAY,
        Ok(ServerOutgoing::Through(sent)) => {
            *packet = reported(&sent);
            codes::OK
        }
        Err(error) => write_code(error),
    }
}

fn go_out(
    held: &mut HeldServers,
    now: u64,
    pair: (SocketAddr, SocketAddr),
    bytes: &[u8],
    random: &[u8],
    buffer: &mut [u8],
    packet: &mut Packet,
) -> i32
    requires { 12 ≤ length random.now }
    ensures { GoesOut now bytes.now random.now buffer.old buffer.new packet.old packet.new pair (clients_of held.old) result (clients_of held.new) }
{
    let id = id_in(random);
    let outcome = held
        .servers
        .outgoing(Instant(now), pair.0, pair.1, bytes, &id, buffer);
    put_outgoing(outcome, packet)
}

fn go_out_with(
    held: &mut HeldServers,
    now: u64,
    pair: Option<(SocketAddr, SocketAddr)>,
    bytes: &[u8],
    random: &[u8],
    buffer: &mut [u8],
    packet: &mut Packet,
) -> i32
    ensures { GoesOutAt now pair bytes.now random.now buffer.old buffer.new packet.old packet.new (clients_of held.old) result (clients_of held.new) }
{
    if random.len() < NEEDED {
        return codes::TOO_FEW_RANDOM_BYTES;
    }
    match pair {
        Some(pair) => go_out(held, now, pair, bytes, random, buffer, packet),
        None => codes::BAD_ADDRESS,
    }
}

/// Writes a packet as it goes out from a relayed address. NOTHING: its source is none, and it goes as it is.
#[unsafe(no_mangle)]
pub extern "C" fn is_ice_servers_outgoing(
    alloc: Global,
    slot: &mut ServersSlot,
    now: u64,
    source: &Address,
    destination: &Address,
    bytes: &[u8],
    random: &[u8],
    buffer: &mut [u8],
    packet: &mut Packet,
) -> i32
    ensures sent { AtClients (GoesOutAt now (pair_of source.now destination.now) bytes.now random.now buffer.old buffer.new packet.old packet.new)
        (clients_held slot.old) result (clients_held slot.new) }
    ensures without { clients_held slot.old ≡ None → (buffer.new ≡ buffer.old) × (packet.new ≡ packet.old) }
{
    let Some(held) = slot.held() else {
        return codes::NO_SERVERS;
    };
    go_out_with(
        held,
        now,
        pair_of(source, destination),
        bytes,
        random,
        buffer,
        packet,
    )
}

fn put_polled(outcome: Result<Option<ServerPacket>, StunError>, packet: &mut Packet) -> i32
    ensures { PutsPolled outcome packet.old packet.new result }
{
    match outcome {
        Ok(Some(sent)) => {
            *packet = reported(&sent);
            codes::OK
        }
        Ok(None) => codes::NOTHING,
        Err(error) => write_code(error),
    }
}

fn give_next(held: &mut HeldServers, buffer: &mut [u8], packet: &mut Packet) -> i32
    ensures { GivesNext ⟦<DefaultSha1HmacProvider as Sha1HmacProvider>⟧.mac buffer.old buffer.new packet.old packet.new (clients_of held.old) result
        (clients_of held.new) }
{
    put_polled(held.servers.poll_transmit(buffer), packet)
}

/// The next packet of a client: its bytes are written to the front of the buffer. One that is longer than the buffer stays.
#[unsafe(no_mangle)]
pub extern "C" fn is_ice_servers_poll_transmit(
    alloc: Global,
    slot: &mut ServersSlot,
    buffer: &mut [u8],
    packet: &mut Packet,
) -> i32
    ensures polled { AtClients (GivesNext ⟦<DefaultSha1HmacProvider as Sha1HmacProvider>⟧.mac buffer.old buffer.new packet.old packet.new)
        (clients_held slot.old) result (clients_held slot.new) }
    ensures without { clients_held slot.old ≡ None → (buffer.new ≡ buffer.old) × (packet.new ≡ packet.old) }
{
    let Some(held) = slot.held() else {
        return codes::NO_SERVERS;
    };
    give_next(held, buffer, packet)
}
