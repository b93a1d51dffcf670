//! The lines of a session's log, for C: of an event, of a removed pair, and of a datagram that nobody took.

ghost use Rattle.std.specs.Prelude.{◌≡◌, None, codes, option_map};
ghost use Rattle.is_stun.specs.MessageView.{message_view};
ghost use Rattle.is_agent.specs.View.{record_of};
ghost use Rattle.is_c.specs.LogLines.{PutsSaid, state_of, event_said, PutsEvent, LogsEvent, PutsRemoved, LogsRemoved};
ghost use Rattle.is_c.specs.LogLines.{kind_of, IsKind, reason_of, IsReason, PutsKind, PutsPacket, LogsPacket, NamesPacket};
ghost use Rattle.is_c.specs.Removed.{removed_by};
ghost use Rattle.is_c.specs.Slots.{held_by};
ghost use Rattle.is_c_calls.specs.Held.{At};
ghost use Rattle.is_c_calls.specs.Packets.{packet_path};

use crate::address::socket_of;
use crate::codes;
use crate::held::HeldAgent;
use crate::log_texts::{Kind, Reason, Said, kind_line, line};
use crate::packets::packet_path;
use crate::slot::Slot;
use crate::text::put;
use is_agent::removed::RemovedPair;
use is_agent::{IceConnectionState, Rejection, Unserved};
use is_c_calls::{Address, Event};
use is_proto::{DefaultSha1HmacProvider, Sha1HmacProvider};
use is_rules::emitted::Path;
use is_stun::stun::{StunMessage, StunPacket};
use std::alloc::Global;

fn put_said(
    alloc: Global,
    held: &HeldAgent,
    said: &Said,
    buffer: &mut [u8],
    length: &mut usize,
) -> i32
    ensures { PutsSaid (record_of held.now.agent).local_creds.ufrag said.now buffer.old length.old result buffer.new length.new }
{
    match line(alloc, held, said) {
        Ok(text) => put(text.as_bytes(), buffer, length),
        Err(_) => codes::OUT_OF_MEMORY,
    }
}

// ---- events

fn state_of(number: i32) -> Option<IceConnectionState>
    ensures { result ≡ state_of number }
{
    match number {
        0 => Some(IceConnectionState::New),
        1 => Some(IceConnectionState::Checking),
        2 => Some(IceConnectionState::Connected),
        3 => Some(IceConnectionState::Completed),
        4 => Some(IceConnectionState::Disconnected),
        _ => None,
    }
}

/// What the line of an event says. None: C passed no event.
fn event_said(event: &Event) -> Option<Said>
    ensures { result ≡ event_said event.now }
{
    match event.kind {
        1 => Some(Said::Begins),
        2 => Some(Said::Enters(state_of(event.state)?)),
        3 => Some(Said::Discovers(socket_of(&event.source)?)),
        4 => Some(Said::Selects(socket_of(&event.source)?, socket_of(&event.destination)?)),
        5 => Some(Said::Silent(socket_of(&event.source)?, socket_of(&event.destination)?)),
        6 => Some(Said::Heard(socket_of(&event.source)?, socket_of(&event.destination)?)),
        _ => None,
    }
}

/// Writes the line of an event.
#[unsafe(no_mangle)]
pub extern "C" fn is_ice_event_line(
    alloc: Global,
    slot: &mut Slot,
    event: &Event,
    buffer: &mut [u8],
    length: &mut usize,
) -> i32
    ensures logged { At (LogsEvent event.now buffer.old length.old buffer.new length.new) (held_by slot.old) result (held_by slot.new) }
    ensures stays { held_by slot.new ≡ held_by slot.old }
    ensures without { held_by slot.old ≡ None → (buffer.new ≡ buffer.old) × (length.new ≡ length.old) }
{
    let Some(held) = slot.held() else {
        return codes::NO_AGENT;
    };
    match event_said(event) {
        Some(said) => put_said(alloc, held, &said, buffer, length),
        None => codes::BAD_ADDRESS,
    }
}

// ---- removed pairs

fn put_removed(
    alloc: Global,
    held: &HeldAgent,
    found: Option<RemovedPair>,
    buffer: &mut [u8],
    length: &mut usize,
) -> i32
    ensures { PutsRemoved (record_of held.now.agent) found buffer.old length.old result buffer.new length.new }
{
    match found {
        Some(pair) => {
            let said = Said::Loses(pair, held.agent.removed_pair_path(&pair));
            put_said(alloc, held, &said, buffer, length)
        }
        None => codes::NOTHING,
    }
}

/// Writes the line of the removed pair with this index, as `is_ice_removed_at` counts them.
#[unsafe(no_mangle)]
pub extern "C" fn is_ice_removed_line(
    alloc: Global,
    slot: &mut Slot,
    index: usize,
    buffer: &mut [u8],
    length: &mut usize,
) -> i32
    ensures logged { At (LogsRemoved (removed_by slot.old) index buffer.old length.old buffer.new length.new) (held_by slot.old) result
        (held_by slot.new) }
    ensures stays { held_by slot.new ≡ held_by slot.old }
    ensures kept { removed_by slot.new ≡ removed_by slot.old }
    ensures without { held_by slot.old ≡ None → (buffer.new ≡ buffer.old) × (length.new ≡ length.old) }
{
    let Some(held) = slot.held() else {
        return codes::NO_AGENT;
    };
    put_removed(alloc, held, held.agent.removed_pair(index), buffer, length)
}

// ---- datagrams

fn error_of(message: &StunMessage<'_>) -> Option<u16>
    ensures { result ≡ option_map (λ e. e.0) (message_view message.now).attributes.error_code }
{
    Some(message.error_code()?.0)
}

/// What kind of message the bytes are. None: they are no message.
fn kind_of(bytes: &[u8]) -> Option<Kind>
    ensures { IsKind bytes.now result }
{
    match StunMessage::parse_any(bytes) {
        Ok(message) => Some(Kind {
            method: message.method(),
            class: message.class(),
            error: error_of(&message),
        }),
        Err(_) => None,
    }
}

fn reason_of(rejected: Option<Rejection>, left: Option<Unserved>) -> Option<Reason>
    ensures { result ≡ reason_of rejected left }
{
    match rejected {
        Some(why) => Some(Reason::Rejected(why)),
        None => Some(Reason::Unanswered(left?)),
    }
}

/// Why the agent would not accept the datagram, or would send no response to it.
fn reason_in(held: &HeldAgent, path: Path, bytes: &[u8]) -> Option<Reason>
    ensures { IsReason ⟦<DefaultSha1HmacProvider as Sha1HmacProvider>⟧.mac (record_of held.now.agent) path bytes.now result }
{
    match StunMessage::parse(bytes) {
        Ok(message) => {
            let packet = StunPacket {
                proto: path.proto,
                source: path.source,
                destination: path.destination,
                message,
            };
            reason_of(held.agent.rejection(&packet), held.agent.unserved(&packet))
        }
        Err(_) => None,
    }
}

fn put_packet(
    alloc: Global,
    held: &HeldAgent,
    path: Option<Path>,
    bytes: &[u8],
    buffer: &mut [u8],
    length: &mut usize,
) -> i32
    ensures { PutsPacket ⟦<DefaultSha1HmacProvider as Sha1HmacProvider>⟧.mac (record_of held.now.agent) path bytes.now buffer.old length.old result
        buffer.new length.new }
{
    match path {
        Some(path) => {
            let said = Said::Leaves(kind_of(bytes), reason_in(held, path, bytes), path);
            put_said(alloc, held, &said, buffer, length)
        }
        None => codes::BAD_ADDRESS,
    }
}

/// Writes the line of a datagram that the agent does not accept, or to which it sends no response.
#[unsafe(no_mangle)]
pub extern "C" fn is_ice_packet_line(
    alloc: Global,
    slot: &mut Slot,
    protocol: u8,
    source: &Address,
    destination: &Address,
    bytes: &[u8],
    buffer: &mut [u8],
    length: &mut usize,
) -> i32
    ensures logged { At (LogsPacket ⟦<DefaultSha1HmacProvider as Sha1HmacProvider>⟧.mac (packet_path protocol source.now destination.now) bytes.now
        buffer.old length.old buffer.new length.new) (held_by slot.old) result (held_by slot.new) }
    ensures stays { held_by slot.new ≡ held_by slot.old }
    ensures without { held_by slot.old ≡ None → (buffer.new ≡ buffer.old) × (length.new ≡ length.old) }
{
    let Some(held) = slot.held() else {
        return codes::NO_AGENT;
    };
    put_packet(
        alloc,
        held,
        packet_path(protocol, source, destination),
        bytes,
        buffer,
        length,
    )
}

fn put_kind(
    alloc: Global,
    held: &HeldAgent,
    path: Option<Path>,
    bytes: &[u8],
    buffer: &mut [u8],
    length: &mut usize,
) -> i32
    ensures { PutsKind ⟦<DefaultSha1HmacProvider as Sha1HmacProvider>⟧.mac (record_of held.now.agent) path bytes.now buffer.old length.old result
        buffer.new length.new }
{
    match path {
        Some(path) => match kind_line(alloc, kind_of(bytes), reason_in(held, path, bytes)) {
            Ok(text) => put(text.as_bytes(), buffer, length),
            Err(_) => codes::OUT_OF_MEMORY,
        },
        None => codes::BAD_ADDRESS,
    }
}

/// Writes the kind of message and the reason, as `is_ice_packet_line` has them: under this text a program counts datagrams.
#[unsafe(no_mangle)]
pub extern "C" fn is_ice_packet_kind(
    alloc: Global,
    slot: &mut Slot,
    protocol: u8,
    source: &Address,
    destination: &Address,
    bytes: &[u8],
    buffer: &mut [u8],
    length: &mut usize,
) -> i32
    ensures named { At (NamesPacket ⟦<DefaultSha1HmacProvider as Sha1HmacProvider>⟧.mac (packet_path protocol source.now destination.now) bytes.now
        buffer.old length.old buffer.new length.new) (held_by slot.old) result (held_by slot.new) }
    ensures stays { held_by slot.new ≡ held_by slot.old }
    ensures without { held_by slot.old ≡ None → (buffer.new ≡ buffer.old) × (length.new ≡ length.old) }
{
    let Some(held) = slot.held() else {
        return codes::NO_AGENT;
    };
    put_kind(
        alloc,
        held,
        packet_path(protocol, source, destination),
        bytes,
        buffer,
        length,
    )
}
