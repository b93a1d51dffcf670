//! Queries over the pairs.

ghost use Rattle.std.specs.Prelude.{◌≡◌, ◌<◌, true, IfSome, find, fold, map, max, min};
ghost use Rattle.std.specs.List.{list_any};
ghost use Rattle.std.specs.Option.{option_copied};
ghost use Rattle.is_proto.specs.Times.{MAX};
ghost use Rattle.is_stun.specs.Timing.{consent_of};
ghost use Rattle.is_pair.specs.Multiset.{has_number, passes_at, IsGreatest};
ghost use Rattle.is_pair.specs.Due.{call_time_of, IsNextDue};
ghost use Rattle.is_pair.specs.Checklists.{multiset_of};

use super::{Checklist, PairTest, listed};
use crate::pair::CandidatePair;
use is_proto::Instant;
use is_stun::stun::{Consent, StunTiming};

impl Checklist {
    /// Returns the pairs, in the order of their numbers.
    pub fn as_slice(&self) -> &[CandidatePair]
        ensures { result.now ≡ multiset_of self.now }
    {
        &self.pairs
    }

    /// Whether any pair passes the test.
    pub fn any<T: PairTest>(&self, test: &T) -> bool
        ensures { result ≡ list_any (T.passes test.now) (multiset_of self.now) }
    {
        listed::any(&self.pairs, test)
    }

    /// Whether there is a pair with the number, and it passes the test.
    pub fn passes<T: PairTest>(&self, number: u64, test: &T) -> bool
        ensures { result ≡ list_any (passes_at number (T.passes test.now)) (multiset_of self.now) }
    {
        listed::passes(&self.pairs, number, test)
    }

    /// Returns the pair with the smallest number among those that pass the test.
    pub fn first<T: PairTest>(&self, test: &T) -> Option<&CandidatePair>
        ensures { option_copied result ≡ find (T.passes test.now) (multiset_of self.now) }
    {
        listed::first(&self.pairs, test)
    }

    /// Returns a pair of greatest priority among those that pass the test.
    pub fn greatest<T: PairTest>(&self, test: &T) -> Option<&CandidatePair>
        ensures { IsGreatest (T.passes test.now) (multiset_of self.now) (option_copied result) }
    {
        listed::greatest(&self.pairs, test)
    }

    /// Returns the pair to check now, if one is due: the one with the earliest due time, and among several of those one
    /// of greatest priority (RFC 8445, section 6.1.4.2).
    pub fn next_due(&self, now: Instant, timing: &StunTiming) -> Option<&CandidatePair>
        ensures next { IsNextDue now.0 timing.now (multiset_of self.now) (option_copied result) }
        ensures has { IfSome (option_copied result) (λ p. has_number p.number (multiset_of self.now) ≡ true) }
    {
        let first = listed::earliest(&self.pairs, now, timing)?;
        if first.due_time_of(now, timing) <= now {
            Some(first)
        } else {
            None
        }
    }

    /// Returns the earliest time at which a pair is due for its next check, or its consent ends, or the last `Instant` if there is no
    /// pair.
    pub fn earliest_call(&self, now: Instant, timing: &StunTiming) -> Instant
        ensures { result.0 ≡ fold min MAX (map (call_time_of now.0 timing.now) (multiset_of self.now)) }
    {
        self.earliest_call_with(now, timing, timing.consent())
    }

    /// Returns the earliest time at which a pair is due or its consent ends, for a caller that keeps what the timing says of consent.
    pub fn earliest_call_with(
        &self,
        now: Instant,
        timing: &StunTiming,
        consent: Option<Consent>,
    ) -> Instant
        requires { consent ≡ consent_of timing.now }
        ensures { result.0 ≡ fold min MAX (map (call_time_of now.0 timing.now) (multiset_of self.now)) }
    {
        listed::earliest_call_with(&self.pairs, now, timing, consent)
    }

    /// Returns the earliest time at which a pair is due or its consent ends, or the time `from` if that is later. With many pairs one is
    /// mostly due by then, and the others are not looked at.
    pub fn earliest_call_from(
        &self,
        now: Instant,
        timing: &StunTiming,
        consent: Option<Consent>,
        from: Instant,
    ) -> Instant
        requires { consent ≡ consent_of timing.now }
        ensures { result.0 ≡ max (fold min MAX (map (call_time_of now.0 timing.now) (multiset_of self.now))) from.0 }
    {
        listed::earliest_call_from(&self.pairs, now, timing, consent, from)
    }
}
