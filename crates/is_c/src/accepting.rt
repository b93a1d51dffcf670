//! Which datagrams are for an agent, and why one is not: queried before one is passed in, for example if several agents share
//! a socket.
ghost use Rattle.std.specs.Prelude.{◌≡◌};
ghost use Rattle.is_rules.specs.Accepting.{IsAcceptedOn};
ghost use Rattle.is_agent.specs.View.{record_of};
ghost use Rattle.is_c.specs.Accepting.{ReturnsWhether, AsksWay, AsksMessage, ReturnsReason, AsksReason};
ghost use Rattle.is_c.specs.Slots.{held_by};
ghost use Rattle.is_c_calls.specs.Held.{At};
ghost use Rattle.is_c_calls.specs.Packets.{packet_path};

use crate::codes;
use crate::held::HeldAgent;
use crate::packets::packet_path;
use crate::slot::Slot;
use is_c_calls::Address;
use is_proto::{DefaultSha1HmacProvider, Sha1HmacProvider};
use is_rules::emitted::Path;
use is_stun::stun::{StunMessage, StunPacket};
use std::alloc::Global;

fn accepts_bytes(held: &HeldAgent, path: Path, bytes: &[u8]) -> i32
    ensures { ReturnsWhether (IsAcceptedOn ⟦<DefaultSha1HmacProvider as Sha1HmacProvider>⟧.mac (record_of held.now.agent) path) bytes.now result }
{
    match StunMessage::parse(bytes) {
        Ok(message) => {
            let packet = StunPacket {
                proto: path.proto,
                source: path.source,
                destination: path.destination,
                message,
            };
            codes::found_code(held.agent.accepts_packet(&packet))
        }
        Err(_) => codes::UNPARSED,
    }
}

/// Whether `is_ice_handle_packet` would accept the datagram. The agent is unchanged.
#[unsafe(no_mangle)]
pub extern "C" fn is_ice_accepts_packet(
    alloc: Global,
    slot: &mut Slot,
    protocol: u8,
    source: &Address,
    destination: &Address,
    bytes: &[u8],
) -> i32
    ensures returned { At (AsksWay ⟦<DefaultSha1HmacProvider as Sha1HmacProvider>⟧.mac (packet_path protocol source.now destination.now) bytes.now)
        (held_by slot.old) result (held_by slot.new) }
    ensures stays { held_by slot.new ≡ held_by slot.old }
{
    let Some(held) = slot.held() else {
        return codes::NO_AGENT;
    };
    match packet_path(protocol, source, destination) {
        Some(path) => accepts_bytes(held, path, bytes),
        None => codes::BAD_ADDRESS,
    }
}

/// Whether the message is for this agent, whatever its source. The agent is unchanged.
#[unsafe(no_mangle)]
pub extern "C" fn is_ice_accepts_message(alloc: Global, slot: &mut Slot, bytes: &[u8]) -> i32
    ensures returned { At (AsksMessage ⟦<DefaultSha1HmacProvider as Sha1HmacProvider>⟧.mac bytes.now) (held_by slot.old) result (held_by slot.new) }
    ensures stays { held_by slot.new ≡ held_by slot.old }
{
    let Some(held) = slot.held() else {
        return codes::NO_AGENT;
    };
    match StunMessage::parse(bytes) {
        Ok(message) => codes::found_code(held.agent.accepts_message(&message)),
        Err(_) => codes::UNPARSED,
    }
}

fn bytes_rejection(held: &HeldAgent, path: Path, bytes: &[u8]) -> i32
    ensures { ReturnsReason ⟦<DefaultSha1HmacProvider as Sha1HmacProvider>⟧.mac (record_of held.now.agent) path bytes.now result }
{
    match StunMessage::parse(bytes) {
        Ok(message) => {
            let packet = StunPacket {
                proto: path.proto,
                source: path.source,
                destination: path.destination,
                message,
            };
            codes::rejection_code(held.agent.rejection(&packet))
        }
        Err(_) => codes::UNPARSED,
    }
}

/// Why `is_ice_handle_packet` would not accept the datagram. The agent is unchanged.
#[unsafe(no_mangle)]
pub extern "C" fn is_ice_rejection(
    alloc: Global,
    slot: &mut Slot,
    protocol: u8,
    source: &Address,
    destination: &Address,
    bytes: &[u8],
) -> i32
    ensures returned { At (AsksReason ⟦<DefaultSha1HmacProvider as Sha1HmacProvider>⟧.mac (packet_path protocol source.now destination.now) bytes.now)
        (held_by slot.old) result (held_by slot.new) }
    ensures stays { held_by slot.new ≡ held_by slot.old }
{
    let Some(held) = slot.held() else {
        return codes::NO_AGENT;
    };
    match packet_path(protocol, source, destination) {
        Some(path) => bytes_rejection(held, path, bytes),
        None => codes::BAD_ADDRESS,
    }
}
