//! Why an accepted request gets no response.
ghost use Rattle.std.specs.Prelude.{◌≡◌};
ghost use Rattle.is_agent.specs.View.{record_of};
ghost use Rattle.is_c.specs.Slots.{held_by};
ghost use Rattle.is_c.specs.Unserved.{unserved_code, ReturnsUnserved, AsksUnservedOn, AsksUnserved};
ghost use Rattle.is_c_calls.specs.Held.{At};
ghost use Rattle.is_c_calls.specs.Packets.{packet_path};

use crate::codes;
use crate::held::HeldAgent;
use crate::packets::packet_path;
use crate::slot::Slot;
use is_agent::Unserved;
use is_c_calls::Address;
use is_proto::{DefaultSha1HmacProvider, Sha1HmacProvider};
use is_rules::emitted::Path;
use is_stun::stun::{StunMessage, StunPacket};
use std::alloc::Global;

fn unserved_code(why: Option<Unserved>) -> i32
    ensures { result ≡ unserved_code why }
{
    match why {
        None => codes::OK,
        Some(Unserved::Early) => codes::UNSERVED_EARLY,
        Some(Unserved::OtherDestination) => codes::UNSERVED_DESTINATION,
        Some(Unserved::UseCandidate) => codes::UNSERVED_USE_CANDIDATE,
        Some(Unserved::SenderInvalidated) => codes::UNSERVED_SENDER,
        Some(Unserved::SendersAtLimit) => codes::UNSERVED_LIMIT,
        Some(Unserved::LocalInvalidated) => codes::UNSERVED_LOCAL,
    }
}

fn bytes_unserved(held: &HeldAgent, path: Path, bytes: &[u8]) -> i32
    ensures { ReturnsUnserved ⟦<DefaultSha1HmacProvider as Sha1HmacProvider>⟧.mac (record_of held.now.agent) path bytes.now result }
{
    match StunMessage::parse(bytes) {
        Ok(message) => {
            let packet = StunPacket {
                proto: path.proto,
                source: path.source,
                destination: path.destination,
                message,
            };
            unserved_code(held.agent.unserved(&packet))
        }
        Err(_) => codes::UNPARSED,
    }
}

/// Why `is_ice_handle_packet` would accept the datagram, a request, and send no response. The agent is unchanged.
#[unsafe(no_mangle)]
pub extern "C" fn is_ice_unserved(
    alloc: Global,
    slot: &mut Slot,
    protocol: u8,
    source: &Address,
    destination: &Address,
    bytes: &[u8],
) -> i32
    ensures returned { At (AsksUnserved ⟦<DefaultSha1HmacProvider as Sha1HmacProvider>⟧.mac (packet_path protocol source.now destination.now) bytes.now)
        (held_by slot.old) result (held_by slot.new) }
    ensures stays { held_by slot.new ≡ held_by slot.old }
{
    let Some(held) = slot.held() else {
        return codes::NO_AGENT;
    };
    match packet_path(protocol, source, destination) {
        Some(path) => bytes_unserved(held, path, bytes),
        None => codes::BAD_ADDRESS,
    }
}
