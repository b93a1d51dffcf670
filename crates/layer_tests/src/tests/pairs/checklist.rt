//! The checklist: index and order follow the pairs.

ghost use Rattle.std.specs.Prelude.{◌≡◌, ◌<◌, true};
ghost use Rattle.is_pair.specs.Multiset.{are_below};
ghost use Rattle.is_pair.specs.Checklists.{multiset_of};

use super::{at, timing_of};
use is_candidate::CandidateKind;
use is_pair::checklist::{Checklist, PairPriority, PairTest, Removal};
use is_pair::pair::{CandidatePair, PairId};
use is_proto::{Duration, Instant};
use is_stun::stun::{ConsentSetting, Profile, StunTiming, TransId};
use rand_core::SeedableRng;
use rand_pcg::Pcg32;
use std::alloc::Global;

#[derive(Clone, Copy)]
struct Any;

impl PairTest for Any {
    ghost use Rattle.std.specs.Prelude.{true};

    ghost passes = { λ t p. true };

    fn passes(&self, _pair: &CandidatePair) -> bool {
        true
    }
}

#[derive(Clone, Copy)]
struct Numbered(u64);

impl PairTest for Numbered {
    ghost use Rattle.is_pair.specs.Multiset.{is_numbered};

    ghost passes = { λ t p. is_numbered t.0 p };

    fn passes(&self, pair: &CandidatePair) -> bool {
        pair.id().0 == self.0
    }
}

#[derive(Clone, Copy)]
struct ByNumber;

impl PairPriority for ByNumber {
    ghost gives = { λ r p. p.number };

    fn priority(&self, pair: &CandidatePair) -> u64 {
        pair.id().0
    }
}

/// A checklist whose pairs have the numbers from 0 on, and are checked with the timing.
#[derive(Drop)]
struct Paths {
    list: Checklist,
    next: u64,
    timing: StunTiming,
    ghost below: { are_below next (multiset_of list) ≡ true },
    ghost is_checked: { 0 < timing.max_retransmits },
}

impl Paths {
    fn new(alloc: Global, max_retransmits: usize) -> Paths
        requires { 0 < max_retransmits }
    {
        Paths {
            list: Checklist::new(alloc),
            next: 0,
            timing: timing_of(max_retransmits),
        }
    }

    /// Whether one more pair is added; if not, there is none.
    fn adds(&mut self, alloc: Global, prio: u64) -> bool {
        let Some(next) = self.next.checked_add(1) else {
            return false;
        };
        if self.list.reserve(1).is_err() {
            return false;
        }
        let id = PairId(self.next);
        let host = CandidateKind::Host;
        let pair = CandidatePair::new(alloc, id, 0, host, 0, host, prio);
        self.list.add(pair);
        self.next = next;
        true
    }

    /// Whether pairs with these priorities are added.
    fn adds_all(&mut self, alloc: Global, prios: &[u64]) -> bool {
        for prio in prios {
            if !self.adds(alloc, *prio) {
                return false;
            }
        }
        true
    }

    /// Sends a check of the pair with the number. Its id is the one that a generator with this seed gives. If that
    /// fails, there is no check.
    fn check(&mut self, number: u64, millis: u64, seed: u64) -> Option<TransId> {
        if self
            .list
            .reserve_check(self.timing.max_retransmits)
            .is_err()
        {
            return None;
        }
        if self.list.get(number).is_none() {
            return None;
        }
        let mut rng = Pcg32::seed_from_u64(seed);
        let now = at(millis);
        Some(
            self.list
                .new_attempt(number, now, &self.timing, true, &mut rng),
        )
    }

    /// Whether a check is sent.
    fn checks(&mut self, number: u64, millis: u64, seed: u64) -> bool {
        self.check(number, millis, seed).is_some()
    }

    /// Whether the response to the check with this id is taken.
    fn takes(&mut self, id: Option<TransId>, millis: u64) -> bool {
        let Some(id) = id else {
            return false;
        };
        let Some(pair) = self.list.awaiting(id, &Any) else {
            return false;
        };
        let number = pair.id().0;
        self.list.record_binding_response(number, at(millis), id);
        true
    }

    /// The earliest time at which a pair is due, or its consent ends.
    fn next_call(&self, millis: u64) -> Instant {
        self.list.earliest_call(at(millis), &self.timing)
    }

    fn remove(&mut self, number: u64) {
        self.list.remove(number, Removal::Replaced);
    }

    fn awaiting(&self, id: Option<TransId>) -> Option<u64> {
        self.list.awaiting(id?, &Any).map(|pair| pair.id().0)
    }

    /// Whether the id is pending on the pair with the number.
    fn keeps(&self, id: Option<TransId>, number: u64) -> bool {
        match id {
            Some(id) => self.list.has_awaiting(id, &Numbered(number)),
            None => false,
        }
    }

    fn greatest(&self) -> Option<u64> {
        self.list.greatest(&Any).map(|pair| pair.id().0)
    }

    fn least(&self) -> Option<u64> {
        self.list.least().map(|pair| pair.id().0)
    }
}

#[test]
fn an_id_of_two_pairs_names_both(rt: HostRuntime) {
    let mut paths = Paths::new(rt.alloc(), 9);
    assert!(rt; paths.adds_all(rt.alloc(), &[50, 60]));
    let id = paths.check(0, 0, 1);
    assert!(rt; paths.check(1, 50, 1) == id && paths.keeps(id, 0) && paths.keeps(id, 1));
    paths.remove(0);
    assert!(rt; paths.awaiting(id) == Some(1));
    paths.remove(1);
    assert!(rt; paths.awaiting(id).is_none());
}

#[test]
fn an_id_that_was_cut_is_found_no_more(rt: HostRuntime) {
    let mut paths = Paths::new(rt.alloc(), 1);
    assert!(rt; paths.adds_all(rt.alloc(), &[50, 60]));
    let first = paths.check(0, 0, 1);
    assert!(rt; paths.awaiting(first) == Some(0));
    let second = paths.check(0, 250, 2);
    assert!(rt; paths.awaiting(first).is_none() && paths.awaiting(second) == Some(0));
}

/// Whether one of the pairs 1 and 2 is the greatest, and without it the other one.
fn are_greatest(paths: &mut Paths) -> bool {
    match paths.greatest() {
        Some(1) => {
            paths.remove(1);
            paths.greatest() == Some(2)
        }
        Some(2) => {
            paths.remove(2);
            paths.greatest() == Some(1)
        }
        _ => false,
    }
}

#[test]
fn the_order_follows_the_priorities(rt: HostRuntime) {
    let mut paths = Paths::new(rt.alloc(), 9);
    assert!(rt;
        paths.adds_all(rt.alloc(), &[50, 70, 70, 60])
            && paths.least() == Some(0)
            && are_greatest(&mut paths)
    );
    paths.list.set_priorities(&ByNumber);
    assert!(rt; paths.greatest() == Some(3) && paths.least() == Some(0));
    paths.list.evict(1);
    assert!(rt; paths.least() == Some(3));
}

/// The first pair has a response to its check at 0 s, and is due at 250 ms. The second pair has none: it is due at 100, 200 and 400 ms.
#[test]
fn the_end_of_consent_is_an_earliest_time(rt: HostRuntime) {
    let mut paths = Paths::new(rt.alloc(), 9);
    assert!(rt; paths.adds_all(rt.alloc(), &[50, 60]));
    paths.timing.profile = Profile::Modern;
    paths.timing.consent = ConsentSetting {
        timeout: Some(Duration::from_millis(230)),
        strict: true,
    };
    let first = paths.check(0, 0, 1);
    assert!(rt;
        paths.takes(first, 50)
            && paths.checks(1, 0, 2)
            && paths.next_call(50) == at(100)
            && paths.checks(1, 100, 3)
            && paths.checks(1, 200, 4)
            && paths.next_call(200) == at(230)
    );
    paths.timing.profile = Profile::Original;
    assert!(rt; paths.next_call(200) == at(250));
}

/// Run with each allocation failing in turn: a call that failed can be repeated.
#[test]
fn a_failed_allocation_leaves_the_pairs(rt: HostRuntime) {
    let mut paths = Paths::new(rt.alloc(), 9);
    if !paths.adds(rt.alloc(), 50) {
        assert!(rt;
            paths.list.is_empty() && paths.greatest().is_none() && paths.adds(rt.alloc(), 50)
        );
    }
    for seed in 0..6 {
        assert!(rt; paths.checks(0, 50, seed) || paths.checks(0, 50, seed));
    }
    let id = TransId::new(&mut Pcg32::seed_from_u64(3));
    assert!(rt; paths.keeps(Some(id), 0) && paths.greatest() == Some(0));
}
