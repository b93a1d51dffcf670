//! Changes of pairs that stay in the checklist.

ghost use Rattle.std.specs.Prelude.{◌≡◌, ◌<◌, ℕ, true, map};
ghost use Rattle.is_pair.specs.Multiset.{are_below, change_pair, with_priority, KeepsKeys};
ghost use Rattle.is_pair.specs.Pairs.{heard, undue, with_error};
ghost use Rattle.is_pair.specs.Due.{scheduled};
ghost use Rattle.is_pair.specs.Checklists.{multiset_of, HasRoom, HasCheckRoom, removed_of};

use super::{Checklist, PairChange, PairPriority, listed, ranks};
use crate::pair::CandidatePair;
use crate::reset_next_binding_attempt;
use is_proto::Instant;
use is_stun::stun::StunTiming;

/// If the pair has received no check from the peer, counts one as received now.
#[derive(Clone, Copy)]
struct Heard {
    now: Instant,
}

impl PairChange for Heard {
    ghost use Rattle.is_pair.specs.Pairs.{heard};

    ghost makes = { λ t p. heard t.now.0 p };

    fn change(&self, pair: &mut CandidatePair) {
        if pair.remote_binding_request_time().is_none() {
            pair.increase_remote_binding_requests(self.now);
        }
    }
}

/// Forgets the fixed due time of the next check, so that it is computed again.
#[derive(Clone, Copy)]
struct Undue;

impl PairChange for Undue {
    ghost use Rattle.is_pair.specs.Pairs.{undue};

    ghost makes = { λ t p. undue p };

    fn change(&self, pair: &mut CandidatePair) {
        reset_next_binding_attempt(pair);
    }
}

/// Computes the due time of the next check, and fixes it.
#[derive(Clone, Copy)]
struct Scheduled<'a> {
    now: Instant,
    timing: &'a StunTiming,
}

impl PairChange for Scheduled<'_> {
    ghost use Rattle.is_pair.specs.Due.{scheduled};

    ghost makes = { λ t p. scheduled t.now.0 t.timing.now p };

    fn change(&self, pair: &mut CandidatePair) {
        pair.fix_due_time(self.now, self.timing);
    }
}

/// Notes the code of an error response to a check of the pair.
#[derive(Clone, Copy)]
struct Errored {
    code: u16,
}

impl PairChange for Errored {
    ghost use Rattle.is_pair.specs.Pairs.{with_error};

    ghost makes = { λ t p. with_error t.code p };

    fn change(&self, pair: &mut CandidatePair) {
        pair.note_error(self.code);
    }
}

impl Checklist {
    /// Changes the pair with the number, if there is one.
    pub fn change<C: PairChange>(&mut self, number: u64, change: &C)
        requires keys { KeepsKeys (C.makes change.now) }
        ensures changed { multiset_of self.new ≡ change_pair number (C.makes change.now) (multiset_of self.old) }
        ensures room { (n : ℕ) → HasRoom n self.old → HasRoom n self.new }
        ensures check_room { (n : ℕ) → HasCheckRoom n self.old → HasCheckRoom n self.new }
        ensures below { (n : ℕ) → are_below n (multiset_of self.old) ≡ true → are_below n (multiset_of self.new) ≡ true }
        ensures removed { removed_of self.new ≡ removed_of self.old }
    {
        listed::change(&mut self.pairs, number, change);
    }

    /// Notes the code of an error response to a check of the pair with the number, if there is one.
    pub fn note_error(&mut self, number: u64, code: u16)
        ensures noted { multiset_of self.new ≡ change_pair number (with_error code) (multiset_of self.old) }
        ensures room { (n : ℕ) → HasRoom n self.old → HasRoom n self.new }
        ensures check_room { (n : ℕ) → HasCheckRoom n self.old → HasCheckRoom n self.new }
        ensures below { (n : ℕ) → are_below n (multiset_of self.old) ≡ true → are_below n (multiset_of self.new) ≡ true }
        ensures removed { removed_of self.new ≡ removed_of self.old }
    {
        self.change(number, &Errored { code });
    }

    /// Changes all pairs.
    pub fn change_all<C: PairChange>(&mut self, change: &C)
        requires keys { KeepsKeys (C.makes change.now) }
        ensures changed { multiset_of self.new ≡ map (C.makes change.now) (multiset_of self.old) }
        ensures room { (n : ℕ) → HasRoom n self.old → HasRoom n self.new }
        ensures check_room { (n : ℕ) → HasCheckRoom n self.old → HasCheckRoom n self.new }
        ensures below { (n : ℕ) → are_below n (multiset_of self.old) ≡ true → are_below n (multiset_of self.new) ≡ true }
        ensures removed { removed_of self.new ≡ removed_of self.old }
    {
        listed::change_all(&mut self.pairs, change);
    }

    /// Computes the due times of the next checks of all pairs, and fixes them.
    pub fn fix_due_times(&mut self, now: Instant, timing: &StunTiming)
        ensures scheduled { multiset_of self.new ≡ map (scheduled now.0 timing.now) (multiset_of self.old) }
        ensures room { (n : ℕ) → HasRoom n self.old → HasRoom n self.new }
        ensures check_room { (n : ℕ) → HasCheckRoom n self.old → HasCheckRoom n self.new }
        ensures below { (n : ℕ) → are_below n (multiset_of self.old) ≡ true → are_below n (multiset_of self.new) ≡ true }
        ensures removed { removed_of self.new ≡ removed_of self.old }
    {
        self.change_all(&Scheduled { now, timing });
    }

    /// Forgets the fixed due times of all pairs, so that they are computed again, as when the timing changes.
    pub fn reset_next_binding_attempts(&mut self)
        ensures reset { multiset_of self.new ≡ map undue (multiset_of self.old) }
        ensures room { (n : ℕ) → HasRoom n self.old → HasRoom n self.new }
        ensures check_room { (n : ℕ) → HasCheckRoom n self.old → HasCheckRoom n self.new }
        ensures below { (n : ℕ) → are_below n (multiset_of self.old) ≡ true → are_below n (multiset_of self.new) ≡ true }
        ensures removed { removed_of self.new ≡ removed_of self.old }
    {
        self.change_all(&Undue);
    }

    /// On each pair that has received no check from the peer, counts one as received now. An ICE-lite agent does this,
    /// because it removes the pairs on which the peer's checks stop.
    pub fn hear_all(&mut self, now: Instant)
        ensures heard { multiset_of self.new ≡ map (heard now.0) (multiset_of self.old) }
        ensures room { (n : ℕ) → HasRoom n self.old → HasRoom n self.new }
        ensures check_room { (n : ℕ) → HasCheckRoom n self.old → HasCheckRoom n self.new }
        ensures below { (n : ℕ) → are_below n (multiset_of self.old) ≡ true → are_below n (multiset_of self.new) ≡ true }
        ensures removed { removed_of self.new ≡ removed_of self.old }
    {
        self.change_all(&Heard { now });
    }

    /// Sets the priorities of all pairs by a rule, as when the agents switch their roles.
    pub fn set_priorities<R: PairPriority>(&mut self, rule: &R)
        ensures set { multiset_of self.new ≡ map (with_priority (R.gives rule.now)) (multiset_of self.old) }
        ensures room { (n : ℕ) → HasRoom n self.old → HasRoom n self.new }
        ensures check_room { (n : ℕ) → HasCheckRoom n self.old → HasCheckRoom n self.new }
        ensures below { (n : ℕ) → are_below n (multiset_of self.old) ≡ true → are_below n (multiset_of self.new) ≡ true }
        ensures removed { removed_of self.new ≡ removed_of self.old }
    {
        listed::set_priorities(&mut self.pairs, rule);
        ranks::rebuild_order(&mut self.ranks, &self.pairs);
    }
}
