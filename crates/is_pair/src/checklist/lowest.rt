//! Pairs of lowest priority that are removed at once, when the limit removes many (RFC 8445, section 6.1.2.5).

ghost use Rattle.std.specs.Prelude.{◌≡◌, ℕ, true, count_by, slice_get};
ghost use Rattle.std.specs.Option.{option_copied};
ghost use Rattle.is_pair.specs.Multiset.{are_below};
ghost use Rattle.is_pair.specs.Lowest.{ranked_of, AreRanked, EvictsSome};
ghost use Rattle.is_pair.specs.Checklists.{multiset_of, HasRoom, HasCheckRoom, removed_of};

use super::{Checklist, PairRemoval, PairTest, Removal, listed, ranks};
use crate::pair::CandidatePair;

/// Fewer pairs than these are removed one after another.
const FEW: usize = 3;

/// A test for the pairs of a lower priority, and those of the same priority and no greater number.
#[derive(Clone, Copy)]
struct Lowest {
    priority: u64,
    number: u64,
}

impl PairTest for Lowest {
    ghost use Rattle.is_pair.specs.Lowest.{is_low};

    ghost passes = { λ t p. is_low t.priority t.number p };

    fn passes(&self, pair: &CandidatePair) -> bool {
        pair.prio() < self.priority || (pair.prio() == self.priority && pair.id().0 <= self.number)
    }
}

impl PairRemoval for Lowest {
    ghost use Rattle.is_pair.specs.declared.checklist.removed.Removal.TheVariants.{Evicted};

    ghost reason = { λ t p. Evicted };

    fn removal(&self, _pair: &CandidatePair) -> Removal {
        Removal::Evicted
    }
}

/// Returns how many pairs pass the test.
fn count<T: PairTest>(pairs: &[CandidatePair], test: &T) -> usize
    ensures { result ≡ count_by (T.passes test.now) pairs.now }
{
    pairs.iter().filter(|pair| test.passes(pair)).count()
}

impl Checklist {
    /// Returns the pair at a place in the order by priority, the least first.
    pub fn ranked(&self, place: usize) -> Option<&CandidatePair>
        ensures { option_copied result ≡ slice_get (ranked_of self.now) place }
    {
        match ranks::at(&self.ranks, place) {
            Some(rank) => listed::get(&self.pairs, rank.number),
            None => None,
        }
    }

    /// The pairs in the order by priority are all pairs, each once. Does nothing; code whose proof needs this calls it.
    pub fn ranks_rise(&self)
        ensures { AreRanked (multiset_of self.now) (ranked_of self.now) }
    {}

    /// A test that the pairs up to this place in the order by priority pass, if those of one priority are in the order of their numbers.
    fn lowest(&self, place: usize) -> Option<Lowest> {
        let rank = ranks::at(&self.ranks, place)?;
        Some(Lowest {
            priority: rank.priority,
            number: rank.number,
        })
    }

    /// Removes pairs of lowest priority at once, no more than there are over the limit. It may leave some of those to be removed.
    pub(super) fn evict_block(&mut self, limit: usize)
        ensures evicted { EvictsSome limit (multiset_of self.old) (multiset_of self.new) (removed_of self.old) (removed_of self.new) }
        ensures room { (n : ℕ) → HasRoom n self.old → HasRoom n self.new }
        ensures check_room { (n : ℕ) → HasCheckRoom n self.old → HasCheckRoom n self.new }
        ensures below { (n : ℕ) → are_below n (multiset_of self.old) ≡ true → are_below n (multiset_of self.new) ≡ true }
    {
        let excess = self.pairs.len().saturating_sub(limit);
        if excess < FEW {
            return;
        }
        let Some(lowest) = self.lowest(excess - 1) else {
            return;
        };
        if count(&self.pairs, &lowest) > excess {
            return;
        }
        self.remove_by_priority(&lowest);
    }
}
