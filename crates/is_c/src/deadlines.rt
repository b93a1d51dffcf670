//! The deadline that a slot keeps with the profile `Modern`: the time at which `is_ice_handle_timeout` is to be called.
//!
//! Each call that may make something due is followed by a transition of the agent that fixes the due times of its pairs. So
//! `is_ice_poll_timeout` is a query, and no order of calls matters.

ghost use Rattle.std.specs.Prelude.{◌≡◌, ◌≢◌, option_map};
ghost use Rattle.is_agent.specs.View.{record_of};
ghost use Rattle.is_c_calls.specs.Codes.{OK};
ghost use Rattle.is_c_calls.specs.Deadlines.{time_to_call, earlier, moved, FixesTimes};
ghost use Rattle.is_c_calls.specs.Following.{Follows};
ghost use Rattle.is_c.specs.Slots.{held_record};

use crate::codes;
use crate::held::HeldAgent;
use is_proto::Instant;

/// When the agent has something to do next; soon: with credit 5 ms after its last call at the latest.
fn time_to_call(held: &HeldAgent, soon: bool) -> Option<Instant>
    ensures { option_map (λ at. at.0) result ≡ time_to_call soon (record_of held.now.agent) }
{
    if soon {
        held.agent.next_call_soon()
    } else {
        held.agent.next_call()
    }
}

/// The earlier one of the deadline and a new time; without one there is nothing to do.
fn earlier(kept: Option<Instant>, next: Option<Instant>) -> Option<Instant>
    ensures { option_map (λ at. at.0) result ≡ earlier (option_map (λ at. at.0) kept) (option_map (λ at. at.0) next) }
{
    match (kept, next) {
        (Some(kept), Some(next)) => Some(kept.min(next)),
        (_, next) => next,
    }
}

/// Moves the deadline up: that of a settled agent also back, so that no call follows a response that came in time.
fn moved(settled: bool, kept: Option<Instant>, next: Option<Instant>) -> Option<Instant>
    ensures { option_map (λ at. at.0) result ≡ moved settled (option_map (λ at. at.0) kept) (option_map (λ at. at.0) next) }
{
    if settled { next } else { earlier(kept, next) }
}

/// Fixes the due times, and moves the deadline.
fn fix_times(held: &mut HeldAgent, soon: bool)
    ensures { FixesTimes soon (held_record held.old) OK (held_record held.new) }
{
    let next = time_to_call(held, soon);
    let settled = held.agent.is_settled();
    held.agent.poll_timeout();
    held.deadline = moved(settled, held.deadline, next);
}

/// With the profile `Modern`, fixes the due times after a call that returned OK. Returns the code of that call.
pub(crate) fn followed(held: &mut HeldAgent, soon: bool, code: i32) -> i32
    ensures code { result ≡ code }
    ensures fixed { Follows soon code (held_record held.old) (held_record held.new) }
    ensures others { result ≢ OK → held_record held.new ≡ held_record held.old }
{
    if code == codes::OK && held.agent.profile().is_modern() {
        fix_times(held, soon);
    }
    code
}
