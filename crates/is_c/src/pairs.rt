//! Candidate pairs, listed.

ghost use Rattle.std.specs.Prelude.{◌≡◌, None};
ghost use Rattle.std.specs.Option.{option_copied};
ghost use Rattle.is_agent.specs.View.{record_of};
ghost use Rattle.is_c.specs.Slots.{held_by};
ghost use Rattle.is_c_calls.specs.Held.{At};
ghost use Rattle.is_c.specs.Pairs.{check_number, IsPair, ReturnsOfPair, ReturnsPair, ReportsCount, ReturnsFound};

use crate::candidate::line_candidate;
use crate::clock::caller_time;
use crate::codes;
use crate::held::HeldAgent;
use crate::slot::Slot;
use is_pair::pair::{CandidatePair, CheckState};
use std::alloc::Global;

/// A candidate pair. Times and durations are in nanoseconds.
#[repr(C)]
#[derive(Clone, Copy)]
pub struct Pair {
    /// The index of the local candidate, as `is_ice_local_candidate` has it.
    pub local: usize,
    pub remote: usize,
    pub priority: u64,
    /// The number of checks that were sent on the pair, and of checks of the other agent that arrived on it.
    pub checks_sent: u64,
    pub requests_received: u64,
    /// The number of responses to the pair's checks.
    pub responses: u64,
    /// The sum of the round-trip times of the pair's checks.
    pub total_rtt: u64,
    /// The last round-trip time.
    pub rtt: u64,
    /// When the last check of the other agent arrived.
    pub last_request: u64,
    /// When the pair's next check is due.
    pub due: u64,
    /// 0 Waiting, 1 InProgress, 2 Succeeded.
    pub state: i32,
    pub nominated: bool,
    /// Whether the pair is that of the last `NominatedSend`.
    pub selected: bool,
    pub has_rtt: bool,
    pub has_request: bool,
    pub has_due: bool,
}

pub(crate) fn check_number(state: CheckState) -> i32
    ensures { result ≡ check_number state }
{
    match state {
        CheckState::Waiting => 0,
        CheckState::InProgress => 1,
        CheckState::Succeeded => 2,
    }
}

fn reported_pair(held: &HeldAgent, pair: &CandidatePair) -> Pair
    ensures { IsPair (record_of held.now.agent) pair.now result }
{
    let agent = &held.agent;
    let rtt = pair.last_successful_rtt();
    let request = pair.remote_binding_request_time();
    let due = agent.next_check_due(pair);
    Pair {
        local: agent.local_candidate_index(pair),
        remote: agent.remote_candidate_index(pair),
        priority: pair.prio(),
        checks_sent: pair.checks_sent(),
        requests_received: pair.remote_binding_requests(),
        responses: pair.responses_received(),
        total_rtt: pair.total_round_trip_time().0,
        rtt: match rtt {
            Some(time) => time.0,
            None => 0,
        },
        last_request: match request {
            Some(arrived) => caller_time(arrived),
            None => 0,
        },
        due: match due {
            Some(at) => caller_time(at),
            None => 0,
        },
        state: check_number(pair.state()),
        nominated: pair.is_nominated(),
        selected: agent.is_selected_pair(pair),
        has_rtt: rtt.is_some(),
        has_request: request.is_some(),
        has_due: due.is_some(),
    }
}

fn return_pair(held: &HeldAgent, found: Option<&CandidatePair>, pair: &mut Pair) -> i32
    ensures { ReturnsOfPair (record_of held.now.agent) (option_copied found.entry) pair.old pair.new result }
{
    match found {
        Some(found) => {
            *pair = reported_pair(held, found);
            codes::OK
        }
        None => codes::NOTHING,
    }
}

/// Writes the pair with this index. Pairs are counted from 0, in the order in which they were formed.
#[unsafe(no_mangle)]
pub extern "C" fn is_ice_pair_at(
    alloc: Global,
    slot: &mut Slot,
    index: usize,
    pair: &mut Pair,
) -> i32
    ensures returned { At (ReturnsPair index pair.old pair.new) (held_by slot.old) result (held_by slot.new) }
    ensures stays { held_by slot.new ≡ held_by slot.old }
    ensures without { held_by slot.old ≡ None → pair.new ≡ pair.old }
{
    let Some(held) = slot.held() else {
        return codes::NO_AGENT;
    };
    return_pair(held, held.agent.candidate_pair(index), pair)
}

/// Writes how many pairs there are.
#[unsafe(no_mangle)]
pub extern "C" fn is_ice_pair_count(alloc: Global, slot: &mut Slot, count: &mut usize) -> i32
    ensures returned { At (ReportsCount count.new) (held_by slot.old) result (held_by slot.new) }
    ensures stays { held_by slot.new ≡ held_by slot.old }
    ensures without { held_by slot.old ≡ None → count.new ≡ count.old }
{
    let Some(held) = slot.held() else {
        return codes::NO_AGENT;
    };
    *count = held.agent.candidate_pair_count();
    codes::OK
}

/// Writes a pair whose remote candidate equals the one of the candidate attribute: one of the greatest priority.
#[unsafe(no_mangle)]
pub extern "C" fn is_ice_find_pair(
    alloc: Global,
    slot: &mut Slot,
    line: &[u8],
    pair: &mut Pair,
) -> i32
    ensures found { At (ReturnsFound line.now pair.old pair.new) (held_by slot.old) result (held_by slot.new) }
    ensures stays { held_by slot.new ≡ held_by slot.old }
    ensures without { held_by slot.old ≡ None → pair.new ≡ pair.old }
{
    let Some(held) = slot.held() else {
        return codes::NO_AGENT;
    };
    match line_candidate(alloc, line) {
        Some(Ok(candidate)) => {
            let found = held
                .agent
                .find_pair_for_equivalent_remote_candidate(&candidate);
            return_pair(held, found, pair)
        }
        Some(Err(error)) => codes::code_of(&error),
        None => codes::NOT_UTF8,
    }
}
