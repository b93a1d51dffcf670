//! A pair as the agent uses it: its priority, its checks and responses, and when it is due.

ghost use Rattle.std.specs.Prelude.{◌≡◌, ◌<◌};
ghost use Rattle.is_pair.specs.Checks.{is_kept};
ghost use Rattle.is_pair.specs.Pairs.{new_pair};

mod checklist;
mod checks;
mod consent;
mod due;
mod early;
mod order;
mod triggered;

use is_candidate::CandidateKind;
use is_pair::pair::{CandidatePair, PairId};
use is_proto::{Duration, Instant};
use is_stun::stun::{StunTiming, TransId};
use rand_core::SeedableRng;
use rand_pcg::Pcg32;
use std::alloc::Global;

/// So many milliseconds after the beginning.
fn at(millis: u64) -> Instant {
    Instant(0) + Duration::from_millis(millis)
}

/// A pair of two host candidates, the first of their lists.
fn host_pair(alloc: Global, prio: u64) -> CandidatePair {
    pair_at(alloc, 0, 0, prio)
}

/// A pair of the host candidates with these indices.
fn pair_at(alloc: Global, local: usize, remote: usize, prio: u64) -> CandidatePair
    ensures { result ≡ new_pair 7 local remote prio }
{
    CandidatePair::new(
        alloc,
        PairId(7),
        local,
        CandidateKind::Host,
        remote,
        CandidateKind::Host,
        prio,
    )
}

/// The timing from which the times in these tests follow, whatever a new agent has: an RTO of 250 ms doubles up to 3 s.
fn timing_of(max_retransmits: usize) -> StunTiming
    ensures { result.max_retransmits ≡ max_retransmits }
{
    StunTiming {
        initial_rto: Duration::from_millis(250),
        max_retransmits,
        max_rto: Duration::from_millis(3000),
        ..StunTiming::default()
    }
}

/// A pair that is checked, with its timing and its random source.
#[derive(Drop)]
struct Path {
    pair: CandidatePair,
    timing: StunTiming,
    rng: Pcg32,
    ghost is_checked: { 0 < timing.max_retransmits },
}

impl Path {
    /// With up to nine checks without a response.
    fn new(alloc: Global) -> Path {
        Path {
            pair: host_pair(alloc, 1),
            timing: timing_of(9),
            rng: Pcg32::seed_from_u64(1),
        }
    }

    /// With one retransmission.
    fn impatient(alloc: Global) -> Path {
        Path {
            pair: host_pair(alloc, 1),
            timing: timing_of(1),
            rng: Pcg32::seed_from_u64(1),
        }
    }

    /// Sends a check.
    fn check(&mut self, now: Instant) -> Option<TransId> {
        self.pair
            .new_attempt(now, &self.timing, true, &mut self.rng)
            .ok()
    }

    /// Whether a check is sent.
    fn checks(&mut self, now: Instant) -> bool {
        self.check(now).is_some()
    }

    /// Whether the response to this check is taken.
    fn takes(&mut self, now: Instant, id: Option<TransId>) -> bool {
        let Some(id) = id else {
            return false;
        };
        if !self.keeps(id) {
            return false;
        }
        self.pair.record_binding_response(now, id, 0);
        true
    }

    /// Whether a check is sent, and its response taken.
    fn is_answered(&mut self, sent: u64, received: u64) -> bool {
        let id = self.check(at(sent));
        self.takes(at(received), id)
    }

    /// Whether a copy takes the place of the pair.
    fn is_copied(&mut self) -> bool {
        match self.pair.try_clone() {
            Ok(copy) => {
                self.pair = copy;
                true
            }
            Err(_) => false,
        }
    }

    fn keeps(&self, id: TransId) -> bool
        ensures { result ≡ is_kept id.0 self.now.pair.checks }
    {
        self.pair.binding_attempt(id).is_some()
    }

    /// Whether the pair is nominated now, and was not before.
    fn is_nominated_now(&mut self, force: bool) -> bool {
        if self.pair.is_nominated() {
            return false;
        }
        self.pair.nominate(force);
        true
    }

    fn due(&mut self, now: Instant) -> Instant {
        self.pair.next_binding_attempt(now, &self.timing)
    }

    fn is_possible(&self, now: Instant) -> bool {
        self.pair.is_still_possible(now, &self.timing)
    }
}
