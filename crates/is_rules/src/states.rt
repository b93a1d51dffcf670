//! The connection state: how it follows from the pairs, and its events; the agent's part: `is_agent::states`.

ghost use Rattle.std.specs.Prelude.{◌≡◌, ◌<◌, ◌≤◌, ◌+◌, ◌++◌, ◌∷◌, [], if◌then◌else◌};
ghost use Rattle.std.specs.VecDeque.{deque_len, deque_capacity};
ghost use Rattle.is_rules.specs.declared.event.IceAgentEvent.TheVariants.{IceConnectionStateChange};
ghost use Rattle.is_rules.specs.States.{same_state, next_state, is_nominated_and_valid, is_other_possible};

use crate::event::{IceAgentEvent, IceConnectionState};
use is_pair::checklist::PairTest;
use is_pair::pair::{CandidatePair, CheckState};
use is_proto::Instant;
use is_stun::stun::StunTiming;
use std::collections::VecDeque;

/// Two states are equal.
pub fn same_state(a: IceConnectionState, b: IceConnectionState) -> bool
    ensures { result ≡ same_state a b }
{
    a == b
}

/// Sets the state, and emits an event if it changes.
pub fn emit_state(
    state: &mut IceConnectionState,
    events: &mut VecDeque<IceAgentEvent>,
    next: IceConnectionState,
)
    requires room { deque_len events.old < deque_capacity events.old }
    ensures state { state.new ≡ next }
    ensures events { events.new.items ≡ (if same_state state.old next then events.old.items else events.old.items
        ++ IceConnectionStateChange next ∷ []) }
    ensures len { deque_len events.new ≤ deque_len events.old + 1 }
    ensures capacity { deque_capacity events.new ≡ deque_capacity events.old }
{
    if !same_state(*state, next) {
        events.push_back_reserved(IceAgentEvent::IceConnectionStateChange(next));
    }
    *state = next;
}

/// A pair on which media can be sent.
fn is_nominated_and_valid(pair: &CandidatePair) -> bool
    ensures { result ≡ is_nominated_and_valid pair.now }
{
    pair.state() == CheckState::Succeeded && pair.is_nominated()
}

/// Whether media can be sent on a pair.
#[derive(Clone, Copy)]
pub struct Usable;

impl PairTest for Usable {
    ghost use Rattle.is_rules.specs.States.{is_nominated_and_valid};

    ghost passes = { λ t p. is_nominated_and_valid p };

    fn passes(&self, pair: &CandidatePair) -> bool {
        is_nominated_and_valid(pair)
    }
}

/// Whether a pair is still possible, and not selected.
#[derive(Clone, Copy)]
pub struct OtherPossible<'a> {
    /// The time at which this is evaluated.
    pub now: Instant,
    /// The timing of checks.
    pub timing: &'a StunTiming,
    ghost is_checked: { 0 < timing.now.max_retransmits },
}

impl PairTest for OtherPossible<'_> {
    ghost use Rattle.is_rules.specs.States.{is_other_possible};

    ghost passes = { λ t p. is_other_possible t.now.0 t.timing.now p };

    fn passes(&self, pair: &CandidatePair) -> bool {
        !is_nominated_and_valid(pair) && pair.is_still_possible(self.now, self.timing)
    }
}

/// The next state, by the current state, whether a pair is selected, whether another one is still possible, and lite.
pub fn next_state(
    state: IceConnectionState,
    selected: bool,
    possible: bool,
    lite: bool,
) -> IceConnectionState
    ensures { result ≡ next_state state selected possible lite }
{
    match state {
        IceConnectionState::New => IceConnectionState::Checking,
        _ => {
            if !selected {
                if possible {
                    IceConnectionState::Checking
                } else {
                    IceConnectionState::Disconnected
                }
            } else if possible && (!lite || same_state(state, IceConnectionState::Connected)) {
                IceConnectionState::Connected
            } else {
                IceConnectionState::Completed
            }
        }
    }
}
