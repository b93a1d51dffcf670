//! Pairs that were removed, listed: why a session failed, or lost a path.

ghost use Rattle.std.specs.Prelude.{◌≡◌, None};
ghost use Rattle.is_agent.specs.View.{record_of};
ghost use Rattle.is_c.specs.Slots.{held_by};
ghost use Rattle.is_c_calls.specs.Held.{At};
ghost use Rattle.is_c.specs.Removed.{error_number, removal_number, removed_by, IsRemoved, ReturnsOfRemoved, ReturnsRemoved, ReportsRemoved};

use crate::codes;
use crate::held::HeldAgent;
use crate::pairs::check_number;
use crate::paths::{MediaPath, reported_path};
use crate::slot::Slot;
use is_agent::removed::{Removal, RemovedPair};
use std::alloc::Global;

/// A pair that was removed, as it was then.
#[repr(C)]
#[derive(Clone, Copy)]
pub struct Removed {
    pub priority: u64,
    /// The number of checks that were sent on the pair, and of the success responses that arrived.
    pub checks_sent: u64,
    pub responses: u64,
    /// The path of the pair, if `has_path`.
    pub path: MediaPath,
    /// The last state of the pair, as in `Pair`.
    pub state: i32,
    /// 1 no response, 2 consent lost, 3 no check of the other agent, 4 evicted, 5 replaced, 6 invalidated.
    pub reason: i32,
    /// The code of the last error response, or 0.
    pub error: i32,
    pub has_path: bool,
}

fn removal_number(why: Removal) -> i32
    ensures { result ≡ removal_number why }
{
    match why {
        Removal::NoResponse => 1,
        Removal::ConsentLost => 2,
        Removal::PeerSilent => 3,
        Removal::Evicted => 4,
        Removal::Replaced => 5,
        Removal::Invalidated => 6,
    }
}

fn error_number(error: Option<u16>) -> i32
    ensures { result ≡ error_number error }
{
    match error {
        Some(code) => i32::from(code),
        None => 0,
    }
}

fn reported_removed(held: &HeldAgent, pair: &RemovedPair, before: MediaPath) -> Removed
    ensures { IsRemoved (record_of held.now.agent) pair.now before result }
{
    let path = held.agent.removed_pair_path(pair);
    Removed {
        priority: pair.priority,
        checks_sent: pair.checks_sent,
        responses: pair.responses_received,
        path: match path {
            Some(path) => reported_path(path),
            None => before,
        },
        state: check_number(pair.state),
        reason: removal_number(pair.why),
        error: error_number(pair.error),
        has_path: path.is_some(),
    }
}

fn return_removed(held: &HeldAgent, found: Option<RemovedPair>, removed: &mut Removed) -> i32
    ensures { ReturnsOfRemoved (record_of held.now.agent) found removed.old removed.new result }
{
    match found {
        Some(found) => {
            *removed = reported_removed(held, &found, removed.path);
            codes::OK
        }
        None => codes::NOTHING,
    }
}

/// Writes the removed pair with this index. The one that was removed first has index 0. Those of the last restart on are kept, the last 32 at
/// most.
#[unsafe(no_mangle)]
pub extern "C" fn is_ice_removed_at(
    alloc: Global,
    slot: &mut Slot,
    index: usize,
    removed: &mut Removed,
) -> i32
    ensures returned { At (ReturnsRemoved (removed_by slot.old) index removed.old removed.new) (held_by slot.old) result (held_by slot.new) }
    ensures stays { held_by slot.new ≡ held_by slot.old }
    ensures kept { removed_by slot.new ≡ removed_by slot.old }
    ensures without { held_by slot.old ≡ None → removed.new ≡ removed.old }
{
    let Some(held) = slot.held() else {
        return codes::NO_AGENT;
    };
    return_removed(held, held.agent.removed_pair(index), removed)
}

/// Writes how many removed pairs are kept.
#[unsafe(no_mangle)]
pub extern "C" fn is_ice_removed_count(alloc: Global, slot: &mut Slot, count: &mut usize) -> i32
    ensures returned { At (ReportsRemoved (removed_by slot.old) count.new) (held_by slot.old) result (held_by slot.new) }
    ensures stays { held_by slot.new ≡ held_by slot.old }
    ensures kept { removed_by slot.new ≡ removed_by slot.old }
    ensures without { held_by slot.old ≡ None → count.new ≡ count.old }
{
    let Some(held) = slot.held() else {
        return codes::NO_AGENT;
    };
    *count = held.agent.removed_pair_count();
    codes::OK
}
