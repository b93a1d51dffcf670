//! The pairs that were removed last, and why: for callers that ask why a session failed. Nothing is decided by them.

ghost use Rattle.std.specs.Prelude.{◌≡◌, ◌≤◌, ◌+◌, ◌==◌, ℕ, not, true, [], filter, length, reverse, slice_get, OnOk};
ghost use Rattle.std.specs.Option.{option_to_list};
ghost use Rattle.is_pair.specs.Multiset.{is_numbered, pair_numbered, rises};
ghost use Rattle.is_pair.specs.Lowest.{listed_by, pairs_of};
ghost use Rattle.is_pair.specs.Checklists.{multiset_of, HasRoom, HasCheckRoom, removed_of};
ghost use Rattle.is_pair.specs.Removed.{REMOVED_LIMIT, kept_as, removed_passing};
ghost use Rattle.is_pair.specs.Records.{records_of, RecordsFit};

use super::entries::Rank;
use super::records::Records;
use super::{Checklist, PairTest, listed, ranks};
use crate::pair::{CandidatePair, CheckState};
use std::alloc::AllocError;

/// Why a pair was removed.
#[derive(Clone, Copy, Debug, PartialEq, Eq)]
pub enum Removal {
    /// No response arrived to any of its checks.
    NoResponse,
    /// A response arrived once, and then consent ended (RFC 7675, section 5.1); or it was the selected pair, and none of its last checks
    /// had a response while another pair had one.
    ConsentLost,
    /// The agent is an ICE-lite agent, and the peer's checks stopped.
    PeerSilent,
    /// There were more pairs than the limit (RFC 8445, section 6.1.2.5).
    Evicted,
    /// A pair of greater priority on the same path replaced it (RFC 8445, section 6.1.2.4).
    Replaced,
    /// Its local or its remote candidate was invalidated.
    Invalidated,
}

/// A pair that was removed, as it was then.
#[derive(Clone, Copy, Debug, PartialEq, Eq)]
pub struct RemovedPair {
    /// The number of the pair.
    pub number: u64,
    /// The index of the local candidate in its list.
    pub local: usize,
    /// The index of the remote candidate in its list.
    pub remote: usize,
    /// The priority of the pair.
    pub priority: u64,
    /// How many checks were sent.
    pub checks_sent: u64,
    /// How many success responses arrived, including repeated ones.
    pub responses_received: u64,
    /// The code of the last error response, if one arrived.
    pub error: Option<u16>,
    /// Its last state.
    pub state: CheckState,
    /// Why it was removed.
    pub why: Removal,
}

/// A test for pairs that are to be removed, and the reason by which contracts state why.
pub trait PairRemoval: PairTest {
    ghost use Rattle.std.specs.Prelude.{◌≡◌};
    ghost use Rattle.is_pair.specs.Pairs.{PairRecord};
    ghost use Rattle.is_pair.specs.declared.checklist.removed.Removal.{Removal};

    ghost reason: { Self → PairRecord → Removal };

    /// Why a pair that passes the test is removed.
    fn removal(&self, pair: &CandidatePair) -> Removal
        ensures { result ≡ reason self.now pair.now };
}

impl RemovedPair {
    fn of(pair: &CandidatePair, why: Removal) -> RemovedPair
        ensures { result ≡ kept_as why pair.now }
    {
        RemovedPair {
            number: pair.id().0,
            local: pair.local_idx(),
            remote: pair.remote_idx(),
            priority: pair.prio(),
            checks_sent: pair.checks_sent(),
            responses_received: pair.responses_received(),
            error: pair.last_error(),
            state: pair.state(),
            why,
        }
    }
}

/// Reserves capacity to list n more pairs and this many others, or as many as are listed at most.
pub(super) fn reserve(records: &mut Records, pairs: usize, n: usize) -> Result<(), AllocError>
    ensures records { records_of records.new ≡ records_of records.old }
    ensures reserved { OnOk result (RecordsFit (pairs + n) records.new) }
    ensures room { (m : ℕ) → RecordsFit m records.old → RecordsFit m records.new }
{
    records.reserve(pairs.saturating_add(n))
}

/// Lists the pair with the number, if there is one.
pub(super) fn keep_numbered(
    records: &mut Records,
    pairs: &[CandidatePair],
    number: u64,
    why: Removal,
)
    requires rising { rises pairs.now ≡ true }
    requires room { RecordsFit (length pairs.now) records.old }
    ensures removed { records_of records.new ≡ removed_passing (is_numbered number) (λ p. why) pairs.now (records_of records.old) }
    ensures room { (n : ℕ) → RecordsFit (length (filter (is_numbered number) pairs.now) + n) records.old → RecordsFit n records.new }
{
    match listed::get(pairs, number) {
        Some(pair) => records.push(RemovedPair::of(pair, why)),
        None => {}
    }
}

/// Lists the pairs that pass the test, in the order of their numbers.
fn keep_by_number<T: PairRemoval>(records: &mut Records, pairs: &[CandidatePair], test: &T)
    requires room { RecordsFit (length pairs.now) records.old }
    ensures removed { records_of records.new ≡ removed_passing (T.passes test.now) (T.reason test.now) pairs.now (records_of records.old) }
    ensures room { (n : ℕ) → RecordsFit (length (filter (T.passes test.now) pairs.now) + n) records.old → RecordsFit n records.new }
{
    for pair in pairs {
        if test.passes(pair) {
            records.push(RemovedPair::of(pair, test.removal(pair)));
        }
    }
}

/// Lists the pair with the number if it passes the test.
fn keep_if<T: PairRemoval>(records: &mut Records, pairs: &[CandidatePair], number: u64, test: &T)
    requires rising { rises pairs.now ≡ true }
    requires room { RecordsFit (length (filter (T.passes test.now)
        (option_to_list (pair_numbered number pairs.now)))) records.old }
    ensures removed { records_of records.new ≡ removed_passing (T.passes test.now) (T.reason test.now) (option_to_list (pair_numbered number pairs.now))
        (records_of records.old) }
    ensures room { (n : ℕ) → RecordsFit (length (filter (T.passes test.now) (option_to_list (pair_numbered number pairs.now))) + n) records.old → RecordsFit n records.new }
{
    if let Some(pair) = listed::get(pairs, number) {
        if test.passes(pair) {
            records.push(RemovedPair::of(pair, test.removal(pair)));
        }
    }
}

/// Lists the pairs that pass the test, in the order by priority, the least first.
fn keep_ranked<T: PairRemoval>(
    records: &mut Records,
    pairs: &[CandidatePair],
    ranks: &[Rank],
    test: &T,
)
    requires rising { rises pairs.now ≡ true }
    requires room { RecordsFit (length (filter (T.passes test.now) (pairs_of (reverse ranks.now) pairs.now))) records.old }
    ensures removed { records_of records.new ≡ removed_passing (T.passes test.now) (T.reason test.now) (pairs_of (reverse ranks.now) pairs.now) (records_of records.old) }
    ensures room { (n : ℕ) → RecordsFit (length (filter (T.passes test.now) (pairs_of (reverse ranks.now) pairs.now)) + n) records.old → RecordsFit n records.new }
{
    for place in 0..ranks.len() {
        if let Some(rank) = ranks::at(ranks, place) {
            keep_if(records, pairs, rank.number, test);
        }
    }
}

/// Lists the pairs that pass the test, by priority or by number.
pub(super) fn keep_passing<T: PairRemoval>(
    records: &mut Records,
    pairs: &[CandidatePair],
    ranks: &[Rank],
    test: &T,
    by_priority: bool,
)
    requires rising { rises pairs.now ≡ true }
    requires room { RecordsFit (length pairs.now) records.old }
    requires ranked { length (filter (T.passes test.now) (pairs_of (reverse ranks.now) pairs.now)) ≤ length pairs.now }
    ensures removed { records_of records.new
        ≡ removed_passing (T.passes test.now) (T.reason test.now) (listed_by by_priority ranks.now pairs.now) (records_of records.old) }
    ensures room { (n : ℕ) → RecordsFit (length (filter (T.passes test.now) (listed_by by_priority ranks.now pairs.now)) + n) records.old → RecordsFit n records.new }
{
    if by_priority {
        keep_ranked(records, pairs, ranks, test);
    } else {
        keep_by_number(records, pairs, test);
    }
}

impl Checklist {
    /// Returns the removed pair with this index, the one that was removed first before the others. The last 32 are kept.
    pub fn removed(&self, index: usize) -> Option<RemovedPair>
        ensures { result ≡ slice_get (removed_of self.now) index }
    {
        self.removed.get(index)
    }

    /// Returns how many removed pairs are kept.
    pub fn removed_count(&self) -> usize
        ensures count { result ≡ length (removed_of self.now) }
        ensures few { result ≤ REMOVED_LIMIT }
    {
        self.removed.len()
    }

    /// Forgets all removed pairs: their candidates are no longer at their indices.
    pub fn forget_all_removed(&mut self)
        ensures multiset { multiset_of self.new ≡ multiset_of self.old }
        ensures room { (n : ℕ) → HasRoom n self.old → HasRoom n self.new }
        ensures check_room { (n : ℕ) → HasCheckRoom n self.old → HasCheckRoom n self.new }
        ensures removed { removed_of self.new ≡ [] }
    {
        self.removed.clear();
    }

    /// Forgets the removed pairs of the remote candidate at an index, which another candidate gets.
    pub fn forget_removed(&mut self, remote: usize)
        ensures multiset { multiset_of self.new ≡ multiset_of self.old }
        ensures room { (n : ℕ) → HasRoom n self.old → HasRoom n self.new }
        ensures check_room { (n : ℕ) → HasCheckRoom n self.old → HasCheckRoom n self.new }
        ensures removed { removed_of self.new ≡ filter (λ r. not (r.remote == remote)) (removed_of self.old) }
    {
        self.removed.drop_of_remote(remote);
    }
}
