//! Received packets, `handle_timeout` calls, and packets to send.

ghost use Rattle.std.specs.Prelude.{◌≡◌, None, option_map};
ghost use Rattle.is_proto.specs.Packets.{packet_of};
ghost use Rattle.is_c.specs.Slots.{held_record, held_by};
ghost use Rattle.is_c_calls.specs.Held.{At};
ghost use Rattle.is_c_calls.specs.Monitoring.{monitor_received, monitor_timed};
ghost use Rattle.is_c_calls.specs.Packets.{packet_path, HandlesDatagram, IsHandled, WritesTime, next_call_of};
ghost use Rattle.is_c_calls.specs.Packets.{TakesNext, IsReported, GivesFirst, Gives};
ghost use Rattle.is_c_calls.specs.Packets.{RunsTimers, TimesOutBy, PollsAgent, ReturnsTimeout, unless_done};
ghost use Rattle.is_c_calls.specs.Following.{Followed, if_served, unless_settled};
ghost use Rattle.is_c_calls.specs.Uses.{Does, HandlePacket, HandleTimeout, PollTransmit, PollTimeout};

use crate::address::{address_of, number_of, protocol_of, socket_of};
use crate::clock::{agent_time, caller_time};
use crate::codes;
use crate::deadlines::followed;
use crate::held::HeldAgent;
use crate::random::Given;
use crate::slot::Slot;
use is_c_calls::{Address, Packet};
use is_proto::{DefaultSha1HmacProvider, IceError, Instant, Sha1HmacProvider, Transmit};
use is_rules::emitted::Path;
use is_stun::stun::{StunMessage, StunPacket};
use std::alloc::Global;

// ---- received packets

/// The path of a packet: its source and its destination, as C passes them.
pub(crate) fn packet_path(protocol: u8, source: &Address, destination: &Address) -> Option<Path>
    ensures { result ≡ packet_path protocol source.now destination.now }
{
    Some(Path {
        proto: protocol_of(protocol)?,
        source: socket_of(source)?,
        destination: socket_of(destination)?,
    })
}

/// The monitor sees the agent, if it accepted the packet.
fn see_packet(held: &mut HeldAgent, outcome: &Result<bool, IceError>, now: Instant)
    ensures { held_record held.new ≡ record (held_record held.old) {
      monitor = monitor_received outcome.now now.0 (held_record held.old).agent (held_record held.old).monitor;
    } }
{
    if matches!(outcome, Ok(true)) {
        held.monitor.observe(&held.agent, now);
    }
}

fn receive(
    held: &mut HeldAgent,
    now: u64,
    protocol: u8,
    source: &Address,
    destination: &Address,
    bytes: &[u8],
) -> i32
    ensures step { HandlesDatagram ⟦<DefaultSha1HmacProvider as Sha1HmacProvider>⟧.mac now (packet_path protocol source.now destination.now) bytes.now
        (held_record held.old) result (held_record held.new) }
    ensures settled { IsHandled ⟦<DefaultSha1HmacProvider as Sha1HmacProvider>⟧.mac (packet_path protocol source.now destination.now) bytes.now
        (held_record held.old) result (held_record held.new) }
{
    let Some(path) = packet_path(protocol, source, destination) else {
        return codes::BAD_ADDRESS;
    };
    match StunMessage::parse(bytes) {
        Ok(message) => {
            let packet = StunPacket {
                proto: path.proto,
                source: path.source,
                destination: path.destination,
                message,
            };
            let now = agent_time(now);
            let outcome = held.agent.handle_packet(now, packet);
            see_packet(held, &outcome, now);
            codes::flag_code(outcome)
        }
        Err(_) => codes::UNPARSED,
    }
}

/// Handles a datagram that was received at time `now`.
#[unsafe(no_mangle)]
pub extern "C" fn is_ice_handle_packet(
    alloc: Global,
    slot: &mut Slot,
    now: u64,
    protocol: u8,
    source: &Address,
    destination: &Address,
    bytes: &[u8],
) -> i32
    ensures step { At (Followed unless_settled (HandlePacket now protocol source.now destination.now bytes.now)) (held_by slot.old) result (held_by slot.new) }
    ensures settled { At (IsHandled ⟦<DefaultSha1HmacProvider as Sha1HmacProvider>⟧.mac (packet_path protocol source.now destination.now)
        bytes.now) (held_by slot.old) result (held_by slot.new) }
{
    let Some(held) = slot.held() else {
        return codes::NO_AGENT;
    };
    let code = receive(held, now, protocol, source, destination, bytes);
    let soon = !held.agent.is_settled();
    followed(held, soon, code)
}

// ---- timeouts

/// How many random bytes a `handle_timeout` call uses at most.
const NEEDED: usize = 12;

/// The monitor sees the agent, if its call succeeded, and the deadline has passed.
fn see_timeout(held: &mut HeldAgent, outcome: &Result<(), IceError>, now: Instant)
    ensures { held_record held.new ≡ record (held_record held.old) {
      monitor = monitor_timed outcome.now now.0 (held_record held.old).agent (held_record held.old).monitor;
      deadline = unless_done outcome.now (held_record held.old).deadline;
    } }
{
    if outcome.is_ok() {
        held.monitor.observe(&held.agent, now);
        held.deadline = None;
    }
}

fn run_timers(held: &mut HeldAgent, now: u64, random: &[u8]) -> i32
    ensures { RunsTimers ⟦<DefaultSha1HmacProvider as Sha1HmacProvider>⟧.mac now random.now (held_record held.old) result (held_record held.new) }
{
    let mut given = Given { rest: random };
    let now = agent_time(now);
    let outcome = held.agent.handle_timeout(now, &mut given);
    see_timeout(held, &outcome, now);
    codes::done_code(outcome)
}

fn time_out(held: &mut HeldAgent, now: u64, random: &[u8]) -> i32
    ensures { TimesOutBy ⟦<DefaultSha1HmacProvider as Sha1HmacProvider>⟧.mac now random.now (held_record held.old) result (held_record held.new) }
{
    if random.len() < NEEDED {
        return codes::TOO_FEW_RANDOM_BYTES;
    }
    run_timers(held, now, random)
}

/// Runs the agent's timers at time `now`, with 12 random bytes for the check that it may send.
#[unsafe(no_mangle)]
pub extern "C" fn is_ice_handle_timeout(
    alloc: Global,
    slot: &mut Slot,
    now: u64,
    random: &[u8],
) -> i32
    ensures { At (Followed if_served (HandleTimeout now random.now)) (held_by slot.old) result (held_by slot.new) }
{
    let Some(held) = slot.held() else {
        return codes::NO_AGENT;
    };
    let early = held.agent.early_request_count();
    let code = time_out(held, now, random);
    let soon = held.agent.early_request_count() < early;
    followed(held, soon, code)
}

/// Writes the time, if there is one.
pub(crate) fn write_time(time: Option<Instant>, at: &mut u64) -> i32
    ensures { WritesTime (option_map (λ time. time.0) time) at.old at.new result }
{
    match time {
        Some(time) => {
            *at = caller_time(time);
            codes::OK
        }
        None => codes::NOTHING,
    }
}

/// The time at which the agent is to be called, or the monitor reports silence, if that is sooner.
fn next_call(held: &HeldAgent, time: Option<Instant>) -> Option<Instant>
    ensures { option_map (λ time. time.0) result ≡ next_call_of (held_record held.now) (option_map (λ time. time.0) time) }
{
    let advance = held.agent.settings().timing_advance;
    Some(held.monitor.next_call(advance, time?))
}

/// Polls the agent for the next timeout, with the profile `Original`.
fn poll_agent(held: &mut HeldAgent, at: &mut u64) -> i32
    ensures { PollsAgent at.old at.new (held_record held.old) result (held_record held.new) }
{
    let time = held.agent.poll_timeout();
    write_time(next_call(held, time), at)
}

/// Writes the next timeout. With `Modern` the stored deadline is only read.
fn next_time(held: &mut HeldAgent, at: &mut u64) -> i32
    ensures { ReturnsTimeout at.old at.new (held_record held.old) result (held_record held.new) }
{
    if held.agent.profile().is_modern() {
        write_time(next_call(held, held.deadline), at)
    } else {
        poll_agent(held, at)
    }
}

/// The time of the next `is_ice_handle_timeout` call. With the profile `Modern` it is a query.
#[unsafe(no_mangle)]
pub extern "C" fn is_ice_poll_timeout(alloc: Global, slot: &mut Slot, at: &mut u64) -> i32
    ensures polled { At (Does (PollTimeout at.old at.new)) (held_by slot.old) result (held_by slot.new) }
    ensures without { held_by slot.old ≡ None → at.new ≡ at.old }
{
    let Some(held) = slot.held() else {
        return codes::NO_AGENT;
    };
    next_time(held, at)
}

// ---- packets to send

/// The first packet to send: the one that waits for a longer buffer, or the agent's first.
fn next_packet(held: &mut HeldAgent) -> Option<Transmit>
    ensures first { TakesNext (held_record held.old).waiting (held_record held.old).agent (option_map packet_of result) (held_record held.new).agent }
    ensures nothing_waits { held.new.waiting ≡ None }
    ensures deadline { (held_record held.new).deadline ≡ (held_record held.old).deadline }
    ensures monitor { (held_record held.new).monitor ≡ (held_record held.old).monitor }
    ensures failures { (held_record held.new).failures ≡ (held_record held.old).failures }
{
    match held.waiting.take() {
        Some(waiting) => Some(waiting),
        None => held.agent.poll_transmit(),
    }
}

fn reported(next: &Transmit) -> Packet
    ensures { IsReported (packet_of next.now) result }
{
    Packet {
        source: address_of(next.source),
        destination: address_of(next.destination),
        length: next.contents.len(),
        protocol: number_of(next.proto),
    }
}

/// The packet is written to the front of the buffer. If the buffer is too short, the packet waits.
fn hand_over(held: &mut HeldAgent, next: Transmit, buffer: &mut [u8]) -> i32
    requires { held.old.waiting ≡ None }
    ensures given { GivesFirst buffer.old buffer.new (packet_of next) result (held_record held.new).waiting }
    ensures agent { (held_record held.new).agent ≡ (held_record held.old).agent }
    ensures deadline { (held_record held.new).deadline ≡ (held_record held.old).deadline }
    ensures monitor { (held_record held.new).monitor ≡ (held_record held.old).monitor }
    ensures failures { (held_record held.new).failures ≡ (held_record held.old).failures }
{
    let length = next.contents.len();
    if length > buffer.len() {
        held.waiting = Some(next);
        return codes::BUFFER_TOO_SHORT;
    }
    buffer[..length].copy_from_slice(&next.contents);
    codes::OK
}

fn transmit(held: &mut HeldAgent, buffer: &mut [u8], packet: &mut Packet) -> i32
    ensures { Gives buffer.old buffer.new packet.old packet.new (held_record held.old) result (held_record held.new) }
{
    let Some(next) = next_packet(held) else {
        return codes::NOTHING;
    };
    *packet = reported(&next);
    hand_over(held, next, buffer)
}

/// The next packet to send: its bytes are written to the front of the buffer. One that is longer than the buffer stays.
#[unsafe(no_mangle)]
pub extern "C" fn is_ice_poll_transmit(
    alloc: Global,
    slot: &mut Slot,
    buffer: &mut [u8],
    packet: &mut Packet,
) -> i32
    ensures polled { At (Does (PollTransmit buffer.old buffer.new packet.old packet.new)) (held_by slot.old) result (held_by slot.new) }
    ensures without { held_by slot.old ≡ None → (buffer.new ≡ buffer.old) × (packet.new ≡ packet.old) }
{
    let Some(held) = slot.held() else {
        return codes::NO_AGENT;
    };
    transmit(held, buffer, packet)
}
