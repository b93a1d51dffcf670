//! The pairs of a checklist in the order of their priorities. The greatest comes first, since most pairs are formed in this order: a new entry
//! then moves few others.

ghost use Rattle.std.specs.Prelude.{◌≡◌, ◌<◌, ◌≤◌, ◌==◌, ◌+◌, not, true, false, Bool, ◌||◌, filter, find, map, reverse, slice_get, vec_len, vec_capacity};
ghost use Rattle.std.specs.List.{list_any};
ghost use Rattle.is_pair.specs.Multiset.{has_number, rises};
ghost use Rattle.is_pair.specs.Entries.{are_ordered, are_single, has_passing, rank_now};
ghost use Rattle.is_pair.specs.declared.checklist.entries.Rank.{Rank};

use super::entries::Rank;
use super::listed;
use super::pair_test::PairTest;
use crate::pair::CandidatePair;

/// Inserts one more entry, after those of greater priority.
pub(crate) fn put(ranks: &mut Vec<Rank>, rank: Rank)
    requires room { vec_len ranks.old < vec_capacity ranks.old }
    requires ordered { are_ordered ranks.old.items ≡ true }
    requires single { are_single ranks.old.items ≡ true }
    requires other { list_any (λ r. r.number == rank.number) ranks.old.items ≡ false }
    ensures any { (test : Rank → Bool) → list_any test ranks.new.items ≡ (test rank || list_any test ranks.old.items) }
    ensures ordered { are_ordered ranks.new.items ≡ true }
    ensures single { are_single ranks.new.items ≡ true }
    ensures len { vec_len ranks.new ≡ vec_len ranks.old + 1 }
    ensures capacity { vec_capacity ranks.new ≡ vec_capacity ranks.old }
{
    let place = ranks.partition_point(|other| other.priority > rank.priority);
    if ranks.insert(place, rank).is_err() {
        unreachable!()
    }
}

/// Returns the entry at a place in the order by priority, the least first.
pub(crate) fn at(ranks: &[Rank], place: usize) -> Option<Rank>
    ensures { result ≡ slice_get (reverse ranks.now) place }
{
    if place >= ranks.len() {
        return None;
    }
    Some(ranks[ranks.len() - 1 - place])
}

/// Removes the entries of pairs that no longer exist.
pub(crate) fn keep_known(ranks: &mut Vec<Rank>, pairs: &[CandidatePair])
    requires rising { rises pairs.now ≡ true }
    ensures items { ranks.new.items ≡ filter (λ r. has_number r.number pairs.now) ranks.old.items }
    ensures within { vec_len ranks.new ≤ vec_len ranks.old }
    ensures capacity { vec_capacity ranks.new ≡ vec_capacity ranks.old }
{
    ranks.retain(|rank| listed::has(pairs, rank.number));
}

/// Removes the entries of the number.
pub(crate) fn drop_number(ranks: &mut Vec<Rank>, number: u64)
    ensures items { ranks.new.items ≡ filter (λ r. not (r.number == number)) ranks.old.items }
    ensures within { vec_len ranks.new ≤ vec_len ranks.old }
    ensures capacity { vec_capacity ranks.new ≡ vec_capacity ranks.old }
{
    ranks.retain(|rank| rank.number != number);
}

/// Returns an entry of least priority among those whose pairs pass the test.
pub(crate) fn first_passing<T: PairTest>(
    ranks: &[Rank],
    pairs: &[CandidatePair],
    test: &T,
) -> Option<Rank>
    requires rising { rises pairs.now ≡ true }
    ensures { result ≡ find (has_passing (T.passes test.now) pairs.now) (reverse ranks.now) }
{
    ranks
        .iter()
        .rev()
        .find(|rank| listed::passes(pairs, rank.number, test))
        .copied()
}

/// Gives each entry the current priority of its pair.
fn follow_each(ranks: &mut [Rank], pairs: &[CandidatePair])
    requires rising { rises pairs.now ≡ true }
    ensures { ranks.new ≡ map (rank_now pairs.now) ranks.old }
{
    for place in 0..ranks.len() {
        ranks[place] = rank_now(ranks[place], pairs);
    }
}

fn follow_pairs(ranks: &mut Vec<Rank>, pairs: &[CandidatePair])
    requires rising { rises pairs.now ≡ true }
    ensures items { ranks.new.items ≡ map (rank_now pairs.now) ranks.old.items }
    ensures len { vec_len ranks.new ≡ vec_len ranks.old }
    ensures capacity { vec_capacity ranks.new ≡ vec_capacity ranks.old }
{
    follow_each(ranks, pairs);
}

fn rank_now(rank: Rank, pairs: &[CandidatePair]) -> Rank
    requires rising { rises pairs.now ≡ true }
    ensures { result ≡ rank_now pairs.now rank }
{
    match listed::get(pairs, rank.number) {
        Some(pair) => Rank {
            priority: pair.prio(),
            ..rank
        },
        None => rank,
    }
}

/// Sorts the entries by the current priorities of their pairs.
pub(crate) fn rebuild_order(ranks: &mut Vec<Rank>, pairs: &[CandidatePair])
    requires rising { rises pairs.now ≡ true }
    requires single { are_single ranks.old.items ≡ true }
    ensures any { (test : Rank → Bool) → list_any test ranks.new.items ≡ list_any test (map (rank_now pairs.now) ranks.old.items) }
    ensures ordered { are_ordered ranks.new.items ≡ true }
    ensures single { are_single ranks.new.items ≡ true }
    ensures len { vec_len ranks.new ≡ vec_len ranks.old }
    ensures capacity { vec_capacity ranks.new ≡ vec_capacity ranks.old }
{
    follow_pairs(ranks, pairs);
    ranks.sort_unstable_by_key(|rank| rank.priority);
    ranks.reverse();
}
