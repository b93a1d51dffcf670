//! The pairs that are checked for the first time, or were less than half a second ago; and urgent pairs that are due soon.

use super::PairTest;
use crate::pair::CandidatePair;
use crate::{due_time_of, is_urgent};
use is_proto::Instant;
use is_stun::stun::StunTiming;

/// A test for pairs at their beginning: the first check was sent less than half a second before `now`, or is still to be sent.
#[derive(Clone, Copy)]
pub struct Beginning {
    pub now: Instant,
}

impl PairTest for Beginning {
    ghost use Rattle.is_pair.specs.Due.{is_beginning};

    ghost passes = { λ t p. is_beginning t.now.0 p };

    fn passes(&self, pair: &CandidatePair) -> bool {
        pair.is_beginning(self.now)
    }
}

/// A test for urgent pairs that are due by a time. A due time that is not fixed is computed at `now`.
#[derive(Clone, Copy)]
pub struct UrgentBy<'a> {
    pub now: Instant,
    pub by: Instant,
    pub timing: &'a StunTiming,
}

impl PairTest for UrgentBy<'_> {
    ghost use Rattle.is_pair.specs.Due.{is_urgent_by};

    ghost passes = { λ t p. is_urgent_by t.now.0 t.by.0 t.timing.now p };

    fn passes(&self, pair: &CandidatePair) -> bool {
        is_urgent(pair) && due_time_of(pair, self.now, self.timing) <= self.by
    }
}
