//! The checklist (RFC 8445, section 6.1.2): the pairs by their numbers, an index of the transaction IDs of their stored
//! checks, and their order by priority.

ghost use Rattle.std.specs.Prelude.{◌≡◌, true, vec_len};
ghost use Rattle.is_pair.specs.Entries.{are_ordered, are_single, ids_rise, IsIndex, IsRanking};
ghost use Rattle.is_pair.specs.Multiset.{rises};
ghost use Rattle.is_pair.specs.Records.{RecordsFit};

mod beginning;
mod changes;
mod checks;
mod entries;
mod evicting;
mod expired;
mod giving_back;
mod index;
mod listed;
mod lowest;
mod pair_change;
mod pair_test;
mod ranks;
mod reading;
mod records;
mod removed;
mod rule;

use crate::pair::{BindingAttempt, CandidatePair};
pub use beginning::{Beginning, UrgentBy};
use entries::{Kept, Rank};
pub use expired::Expired;
use is_proto::reserve_few;
pub use listed::goes_before;
pub use pair_change::PairChange;
pub use pair_test::PairTest;
use records::Records;
pub use removed::{PairRemoval, Removal, RemovedPair};
pub use rule::PairPriority;
use std::alloc::{AllocError, Global};
use std::collections::VecDeque;

/// The pairs of an agent.
#[derive(Drop)]
pub struct Checklist {
    /// The pairs, in the order of their numbers.
    pairs: Vec<CandidatePair>,
    /// Which pairs store checks with which transaction IDs, sorted by ID.
    index: Vec<Kept>,
    /// The priority of each pair, sorted by priority.
    ranks: Vec<Rank>,
    /// Receives the checks of a pair whose queue is full.
    spare: VecDeque<BindingAttempt>,
    /// The pairs that were removed last, the oldest first. It has capacity for those that are still to be removed.
    removed: Records,
    ghost rising: { rises pairs.items ≡ true },
    ghost by_id: { ids_rise index.items ≡ true },
    ghost indexed: { IsIndex index.items pairs.items },
    ghost ordered: { are_ordered ranks.items ≡ true },
    ghost ranked: { IsRanking ranks.items pairs.items },
    ghost single: { are_single ranks.items ≡ true },
    ghost fit: { RecordsFit (vec_len pairs) removed },
}

impl Checklist {
    ghost use Rattle.std.specs.Prelude.{◌<◌, ◌+◌, ◌↔◌, ℕ, IsTrue, is_some, length, OnOk, [], ◌++◌, ◌∷◌};
    ghost use Rattle.std.specs.Option.{option_copied};
    ghost use Rattle.is_pair.specs.Multiset.{is_numbered, has_number, pair_numbered, are_below, without};
    ghost use Rattle.is_pair.specs.Checklists.{multiset_of, HasRoom, HasCheckRoom, removed_of};
    ghost use Rattle.is_pair.specs.Lowest.{order_of, ranked_of};
    ghost use Rattle.is_pair.specs.Removed.{removed_passing};

    /// Makes a checklist without pairs.
    pub fn new(alloc: Global) -> Checklist
        ensures { multiset_of result ≡ [] }
    {
        Checklist {
            pairs: Vec::new(alloc),
            index: Vec::new(alloc),
            ranks: Vec::new(alloc),
            spare: VecDeque::new(alloc),
            removed: Records::new(alloc),
        }
    }

    /// No two pairs have the same number, and the pairs are in the order of their numbers. Does nothing; code whose
    /// proof needs this calls it.
    pub fn numbers_rise(&self)
        ensures { rises (multiset_of self.now) ≡ true }
    {}

    /// Returns how many pairs there are.
    pub fn len(&self) -> usize
        ensures { result ≡ length (multiset_of self.now) }
    {
        self.pairs.len()
    }

    /// Whether there are no pairs.
    pub fn is_empty(&self) -> bool
        ensures { IsTrue result ↔ (multiset_of self.now ≡ []) }
    {
        self.pairs.is_empty()
    }

    /// Returns the pair with the number, if there is one.
    pub fn get(&self, number: u64) -> Option<&CandidatePair>
        ensures found { option_copied result ≡ pair_numbered number (multiset_of self.now) }
        ensures has { is_some result ≡ has_number number (multiset_of self.now) }
    {
        listed::get(&self.pairs, number)
    }

    /// Reserves capacity for n more pairs, and to list them once they are removed.
    ///
    /// If the allocation fails, the pairs are unchanged.
    pub fn reserve(&mut self, n: usize) -> Result<(), AllocError>
        ensures multiset { multiset_of self.new ≡ multiset_of self.old }
        ensures reserved { OnOk result (HasRoom n self.new) }
        ensures room { (n : ℕ) → HasRoom n self.old → HasRoom n self.new }
        ensures check_room { (n : ℕ) → HasCheckRoom n self.old → HasCheckRoom n self.new }
        ensures removed { removed_of self.new ≡ removed_of self.old }
    {
        removed::reserve(&mut self.removed, self.pairs.len(), n)?;
        reserve_few(&mut self.pairs, n)?;
        reserve_few(&mut self.ranks, n)
    }

    /// Adds a newly created pair, whose number is above all others.
    pub fn add(&mut self, pair: CandidatePair)
        requires room { HasRoom 1 self.old }
        requires last { are_below pair.number (multiset_of self.old) ≡ true }
        requires unchecked { pair.checks ≡ [] }
        ensures added { multiset_of self.new ≡ multiset_of self.old ++ pair ∷ [] }
        ensures room { (n : ℕ) → HasRoom (n + 1) self.old → HasRoom n self.new }
        ensures check_room { (n : ℕ) → HasCheckRoom n self.old → HasCheckRoom n self.new }
        ensures below { are_below (pair.number + 1) (multiset_of self.new) ≡ true }
        ensures removed { removed_of self.new ≡ removed_of self.old }
    {
        let rank = Rank {
            priority: pair.prio(),
            number: pair.id().0,
        };
        listed::put(&mut self.pairs, pair);
        ranks::put(&mut self.ranks, rank);
    }

    /// Removes the pairs that pass the test, and lists them by priority or by number.
    fn remove_passing<T: PairRemoval>(&mut self, test: &T, by_priority: bool)
        ensures left { multiset_of self.new ≡ without (T.passes test.now) (multiset_of self.old) }
        ensures room { (n : ℕ) → HasRoom n self.old → HasRoom n self.new }
        ensures check_room { (n : ℕ) → HasCheckRoom n self.old → HasCheckRoom n self.new }
        ensures below { (n : ℕ) → are_below n (multiset_of self.old) ≡ true → are_below n (multiset_of self.new) ≡ true }
        ensures removed { removed_of self.new
            ≡ removed_passing (T.passes test.now) (T.reason test.now) (order_of by_priority self.old) (removed_of self.old) }
    {
        listed::len_is(&self.pairs);
        removed::keep_passing(
            &mut self.removed,
            &self.pairs,
            &self.ranks,
            test,
            by_priority,
        );
        listed::drop_passing(&mut self.pairs, test);
        listed::len_is(&self.pairs);
        index::keep_known(&mut self.index, &self.pairs);
        ranks::keep_known(&mut self.ranks, &self.pairs);
    }

    /// Removes the pairs that pass the test, and lists them by number.
    pub fn remove_where<T: PairRemoval>(&mut self, test: &T)
        ensures left { multiset_of self.new ≡ without (T.passes test.now) (multiset_of self.old) }
        ensures room { (n : ℕ) → HasRoom n self.old → HasRoom n self.new }
        ensures check_room { (n : ℕ) → HasCheckRoom n self.old → HasCheckRoom n self.new }
        ensures below { (n : ℕ) → are_below n (multiset_of self.old) ≡ true → are_below n (multiset_of self.new) ≡ true }
        ensures removed { removed_of self.new ≡ removed_passing (T.passes test.now) (T.reason test.now) (multiset_of self.old) (removed_of self.old) }
    {
        self.remove_passing(test, false);
    }

    /// Removes the pairs that pass the test. They are listed by priority, so those of greatest priority are the last ones.
    pub fn remove_by_priority<T: PairRemoval>(&mut self, test: &T)
        ensures left { multiset_of self.new ≡ without (T.passes test.now) (multiset_of self.old) }
        ensures room { (n : ℕ) → HasRoom n self.old → HasRoom n self.new }
        ensures check_room { (n : ℕ) → HasCheckRoom n self.old → HasCheckRoom n self.new }
        ensures below { (n : ℕ) → are_below n (multiset_of self.old) ≡ true → are_below n (multiset_of self.new) ≡ true }
        ensures removed { removed_of self.new ≡ removed_passing (T.passes test.now) (T.reason test.now) (ranked_of self.old) (removed_of self.old) }
    {
        self.remove_passing(test, true);
    }

    /// Removes the pair with the number, if there is one, for this reason.
    pub fn remove(&mut self, number: u64, why: Removal)
        ensures left { multiset_of self.new ≡ without (is_numbered number) (multiset_of self.old) }
        ensures room { (n : ℕ) → HasRoom n self.old → HasRoom n self.new }
        ensures check_room { (n : ℕ) → HasCheckRoom n self.old → HasCheckRoom n self.new }
        ensures below { (n : ℕ) → are_below n (multiset_of self.old) ≡ true → are_below n (multiset_of self.new) ≡ true }
        ensures removed { removed_of self.new ≡ removed_passing (is_numbered number) (λ p. why) (multiset_of self.old) (removed_of self.old) }
    {
        listed::len_is(&self.pairs);
        removed::keep_numbered(&mut self.removed, &self.pairs, number, why);
        listed::take_out(&mut self.pairs, number);
        listed::len_is(&self.pairs);
        index::drop_number(&mut self.index, number);
        ranks::drop_number(&mut self.ranks, number);
    }

    /// Removes all pairs; the capacity stays.
    pub fn clear(&mut self)
        ensures cleared { multiset_of self.new ≡ [] }
        ensures room { (n : ℕ) → HasRoom n self.old → HasRoom n self.new }
        ensures check_room { (n : ℕ) → HasCheckRoom n self.old → HasCheckRoom n self.new }
        ensures removed { removed_of self.new ≡ removed_of self.old }
    {
        self.pairs.clear();
        self.index.clear();
        self.ranks.clear();
    }
}
