//! A path for media before one is selected.

ghost use Rattle.std.specs.Prelude.{◌≡◌, None};
ghost use Rattle.is_c.specs.Slots.{held_by};
ghost use Rattle.is_c_calls.specs.Held.{At};
ghost use Rattle.is_c.specs.Paths.{IsMediaPath, ReturnsValidPath};

use crate::address::{address_of, number_of};
use crate::codes;
use crate::slot::Slot;
use is_c_calls::Address;
use is_rules::emitted::Path;
use std::alloc::Global;

/// A path for media.
#[repr(C)]
#[derive(Clone, Copy)]
pub struct MediaPath {
    /// The address from which media is sent.
    pub source: Address,
    /// The address to which media is sent.
    pub destination: Address,
    /// The protocol over which media is sent.
    pub protocol: u8,
}

pub(crate) fn reported_path(path: Path) -> MediaPath
    ensures { IsMediaPath path result }
{
    MediaPath {
        source: address_of(path.source),
        destination: address_of(path.destination),
        protocol: number_of(path.proto),
    }
}

/// Writes the path of a valid pair, one of the greatest priority: media may go there before a path is selected (RFC 8445,
/// section 12.1).
#[unsafe(no_mangle)]
pub extern "C" fn is_ice_valid_path(alloc: Global, slot: &mut Slot, path: &mut MediaPath) -> i32
    ensures returned { At (ReturnsValidPath path.old path.new) (held_by slot.old) result (held_by slot.new) }
    ensures stays { held_by slot.new ≡ held_by slot.old }
    ensures without { held_by slot.old ≡ None → path.new ≡ path.old }
{
    let Some(held) = slot.held() else {
        return codes::NO_AGENT;
    };
    match held.agent.valid_path() {
        Some(found) => {
            *path = reported_path(found);
            codes::OK
        }
        None => codes::NOTHING,
    }
}
