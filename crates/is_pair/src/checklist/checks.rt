//! The checks of the pairs, and their responses (RFC 8445, section 7.2).

ghost use Rattle.std.specs.Prelude.{◌≡◌, ◌<◌, ℕ, true, IfSome, OnOk};
ghost use Rattle.std.specs.List.{list_any};
ghost use Rattle.std.specs.Option.{option_copied};
ghost use Rattle.rand_core.specs.Stream.{fill_bytes};
ghost use Rattle.is_pair.specs.Multiset.{are_below, change_pair, has_number, is_awaiting, keeps, IsAwaiting, RecordsAnswer};
ghost use Rattle.is_pair.specs.Pairs.{checked};
ghost use Rattle.is_pair.specs.Checklists.{multiset_of, HasRoom, HasCheckRoom, removed_of};

use super::{Checklist, PairTest, index, listed};
use crate::pair::CandidatePair;
use is_proto::Instant;
use is_stun::stun::{StunTiming, TransId};
use rand_core::Rng;
use std::alloc::AllocError;

impl Checklist {
    /// Reserves capacity for one more check, on any pair, if each stores at most the last `limit` of its checks.
    ///
    /// If the allocation fails, the pairs are unchanged.
    pub fn reserve_check(&mut self, limit: usize) -> Result<(), AllocError>
        ensures multiset { multiset_of self.new ≡ multiset_of self.old }
        ensures reserved { OnOk result (HasCheckRoom limit self.new) }
        ensures room { (n : ℕ) → HasRoom n self.old → HasRoom n self.new }
        ensures removed { removed_of self.new ≡ removed_of self.old }
    {
        index::reserve_entry(&mut self.index)?;
        listed::reserve_beyond_all(&mut self.spare, &self.pairs, limit)
    }

    /// Sends a check on the pair with the number, which must be in the checklist: stores the check, and returns its
    /// transaction ID. Uses the reserved capacity of one check.
    pub fn new_attempt<R: Rng>(
        &mut self,
        number: u64,
        now: Instant,
        timing_config: &StunTiming,
        controlling: bool,
        rng: &mut R,
    ) -> TransId
        requires retransmits { 0 < timing_config.now.max_retransmits }
        requires room { HasCheckRoom timing_config.now.max_retransmits self.old }
        requires has { has_number number (multiset_of self.old) ≡ true }
        ensures sent { multiset_of self.new ≡ change_pair number (checked now.0 timing_config.now controlling result.0) (multiset_of self.old) }
        ensures drawn { (result.0, R.stream rng.new) ≡ fill_bytes 12 (R.stream rng.old) }
        ensures room { (n : ℕ) → HasRoom n self.old → HasRoom n self.new }
        ensures below { (n : ℕ) → are_below n (multiset_of self.old) ≡ true → are_below n (multiset_of self.new) ≡ true }
        ensures removed { removed_of self.new ≡ removed_of self.old }
    {
        match listed::place_of(&self.pairs, number) {
            Some(place) => {
                let pair = &mut self.pairs[place];
                let cut = pair.cut_by_next(timing_config);
                let id = pair.new_attempt_reserved(
                    now,
                    timing_config,
                    controlling,
                    rng,
                    &mut self.spare,
                );
                index::follow(&mut self.index, pair, id, cut);
                id
            }
            None => unreachable!(),
        }
    }

    /// Returns a pair that has a pending transaction with the ID and passes the test.
    pub fn awaiting<T: PairTest>(&self, trans_id: TransId, test: &T) -> Option<&CandidatePair>
        ensures awaiting { IsAwaiting trans_id.0 (T.passes test.now) (multiset_of self.now) (option_copied result) }
        ensures kept { IfSome (option_copied result) (λ p. keeps trans_id.0 p.number (multiset_of self.now) ≡ true) }
    {
        match index::awaiting(&self.index, &self.pairs, trans_id, test) {
            Some(kept) => listed::get(&self.pairs, kept.number),
            None => None,
        }
    }

    /// Whether a pair has a pending transaction with the ID and passes the test.
    pub fn has_awaiting<T: PairTest>(&self, trans_id: TransId, test: &T) -> bool
        ensures { result ≡ list_any (is_awaiting trans_id.0 (T.passes test.now)) (multiset_of self.now) }
    {
        self.awaiting(trans_id, test).is_some()
    }

    /// Records the response on the pair with the number, which has a pending transaction with the ID.
    pub fn record_binding_response(&mut self, number: u64, now: Instant, trans_id: TransId)
        requires kept { keeps trans_id.0 number (multiset_of self.old) ≡ true }
        ensures answered { RecordsAnswer number now.0 trans_id.0 (multiset_of self.old) (multiset_of self.new) }
        ensures room { (n : ℕ) → HasRoom n self.old → HasRoom n self.new }
        ensures check_room { (n : ℕ) → HasCheckRoom n self.old → HasCheckRoom n self.new }
        ensures below { (n : ℕ) → are_below n (multiset_of self.old) ≡ true → are_below n (multiset_of self.new) ≡ true }
        ensures removed { removed_of self.new ≡ removed_of self.old }
    {
        match listed::place_of(&self.pairs, number) {
            Some(place) => self.pairs[place].record_binding_response(now, trans_id, 0),
            None => unreachable!(),
        }
    }
}
