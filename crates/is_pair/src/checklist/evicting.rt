//! The limit on the number of pairs (RFC 8445, section 6.1.2.5).

ghost use Rattle.std.specs.Prelude.{◌≡◌, ℕ, true};
ghost use Rattle.std.specs.Option.{option_copied};
ghost use Rattle.is_pair.specs.Lowest.{EvictsAll};
ghost use Rattle.is_pair.specs.Multiset.{are_below, Evicts, IsLeastPassing, IsLowest};
ghost use Rattle.is_pair.specs.Checklists.{multiset_of, HasRoom, HasCheckRoom, removed_of};

use super::{Checklist, PairTest, Removal, listed, ranks};
use crate::pair::CandidatePair;

impl Checklist {
    /// Returns a pair of lowest priority, if there is one.
    pub fn least(&self) -> Option<&CandidatePair>
        ensures { IsLowest (multiset_of self.now) (option_copied result) }
    {
        match ranks::at(&self.ranks, 0) {
            Some(rank) => listed::get(&self.pairs, rank.number),
            None => None,
        }
    }

    /// Returns a pair of lowest priority among those that pass the test.
    pub fn least_passing<T: PairTest>(&self, test: &T) -> Option<&CandidatePair>
        ensures { IsLeastPassing (T.passes test.now) (multiset_of self.now) (option_copied result) }
    {
        match ranks::first_passing(&self.ranks, &self.pairs, test) {
            Some(rank) => listed::get(&self.pairs, rank.number),
            None => None,
        }
    }

    /// Removes pairs of lowest priority, one after another, until there are no more than the limit.
    fn evict_each(&mut self, limit: usize)
        ensures evicted { Evicts limit (multiset_of self.old) (multiset_of self.new) }
        ensures room { (n : ℕ) → HasRoom n self.old → HasRoom n self.new }
        ensures check_room { (n : ℕ) → HasCheckRoom n self.old → HasCheckRoom n self.new }
        ensures below { (n : ℕ) → are_below n (multiset_of self.old) ≡ true → are_below n (multiset_of self.new) ≡ true }
        ensures removed { EvictsAll limit (multiset_of self.old) (multiset_of self.new) (removed_of self.old) (removed_of self.new) }
    {
        while self.len() > limit {
            match self.least() {
                None => return,
                Some(least) => {
                    let number = least.id().0;
                    self.remove(number, Removal::Evicted);
                }
            }
        }
    }

    /// Removes pairs of lowest priority until there are no more than the limit.
    pub fn evict(&mut self, limit: usize)
        ensures evicted { Evicts limit (multiset_of self.old) (multiset_of self.new) }
        ensures room { (n : ℕ) → HasRoom n self.old → HasRoom n self.new }
        ensures check_room { (n : ℕ) → HasCheckRoom n self.old → HasCheckRoom n self.new }
        ensures below { (n : ℕ) → are_below n (multiset_of self.old) ≡ true → are_below n (multiset_of self.new) ≡ true }
        ensures removed { EvictsAll limit (multiset_of self.old) (multiset_of self.new) (removed_of self.old) (removed_of self.new) }
    {
        self.evict_block(limit);
        self.evict_each(limit);
    }
}
