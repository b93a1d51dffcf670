//! The pairs that the limit removes with kinds in turn, all at once: the lowest ones of each kind.
//!
//! How many pairs of each kind stay follows from the counts. Which pairs go is then looked up in the order by priority. That is only
//! a guess: the pairs are removed if exactly as many of each kind pass.

ghost use Rattle.std.specs.Prelude.{◌≡◌, ◌<◌, ◌≤◌, ℕ, true, filter, slice_index};
ghost use Rattle.is_pair.specs.Multiset.{are_below};
ghost use Rattle.is_pair.specs.Lowest.{is_low};
ghost use Rattle.is_pair.specs.Checklists.{multiset_of};
ghost use Rattle.is_rules.specs.Kept.{are_placed};
ghost use Rattle.is_rules.specs.Kinds.{kind_of, KINDS};
ghost use Rattle.is_rules.specs.Evicting.{AreCounted};
ghost use Rattle.is_rules.specs.Shares.{is_low_of_kind, AreSums, EvictsSomeOfMost, Takes};

use crate::evicting::most_numerous;
use crate::kind_table::KindTable;
use is_pair::checklist::{Checklist, PairRemoval, PairTest, Removal};
use is_pair::pair::CandidatePair;

/// Fewer pairs than these are removed one after another.
const FEW: usize = 3;

/// The last pair of each kind that goes.
#[derive(Clone, Copy)]
struct Last {
    priorities: [u64; 9],
    numbers: [u64; 9],
}

/// A test for the pairs that go: of each kind, those up to the last one.
#[derive(Clone, Copy)]
struct Going<'a> {
    kinds: &'a KindTable<'a>,
    last: &'a Last,
}

impl PairTest for Going<'_> {
    ghost use Rattle.is_rules.specs.Shares.{is_low_of_kind};

    ghost passes = { λ t p. is_low_of_kind t.kinds.now.local.now t.kinds.now.remote.now t.last.now.priorities t.last.now.numbers p };

    fn passes(&self, pair: &CandidatePair) -> bool {
        self.kinds.has(pair) && is_up_to(self.last, self.kinds.kind_of(pair), pair)
    }
}

impl PairRemoval for Going<'_> {
    ghost use Rattle.is_pair.specs.declared.checklist.removed.Removal.TheVariants.{Evicted};

    ghost reason = { λ t p. Evicted };

    fn removal(&self, _pair: &CandidatePair) -> Removal {
        Removal::Evicted
    }
}

/// The pair has a lower priority than the last one of its kind, or the same and no greater number.
fn is_up_to(last: &Last, kind: u8, pair: &CandidatePair) -> bool
    requires within { kind < KINDS }
    ensures { result ≡ is_low (slice_index last.now.priorities kind) (slice_index last.now.numbers kind) pair.now }
{
    let priority = last.priorities[kind as usize];
    pair.prio() < priority
        || (pair.prio() == priority && pair.id().0 <= last.numbers[kind as usize])
}

/// How many pairs of each kind stay: one is taken from the greatest count, until there are no more than the limit.
fn counts_that_stay(counts: &[usize; 9], pairs: usize, limit: usize) -> [usize; 9]
    ensures { Takes limit pairs counts.now result }
{
    let mut stays = *counts;
    let mut left = pairs;
    while left > limit {
        let kind = most_numerous(&stays);
        if stays[kind as usize] == 0 {
            return stays;
        }
        stays[kind as usize] -= 1;
        left -= 1;
    }
    stays
}

/// The last pair of each kind that goes, as the order by priority has them, if so many pairs go.
fn last_of_each(
    pairs: &Checklist,
    kinds: &KindTable<'_>,
    counts: &[usize; 9],
    stays: &[usize; 9],
    many: usize,
) -> Last {
    let mut left = *counts;
    let mut going = 0usize;
    let mut last = Last {
        priorities: [0; 9],
        numbers: [0; 9],
    };
    for place in 0..pairs.len() {
        if going >= many {
            return last;
        }
        if let Some(pair) = pairs.ranked(place) {
            if kinds.has(pair) {
                let kind = kinds.kind_of(pair);
                going += go_on(&mut last, &mut left, stays, kind, pair);
            }
        }
    }
    last
}

/// The pair is the next one of its kind: it is the last one to go so far, if more are left than stay. Returns how many go: 1 or 0.
fn go_on(
    last: &mut Last,
    left: &mut [usize; 9],
    stays: &[usize; 9],
    kind: u8,
    pair: &CandidatePair,
) -> usize
    requires within { kind < KINDS }
    ensures few { result ≤ 1 }
{
    let kind = kind as usize;
    if left[kind] <= stays[kind] {
        return 0;
    }
    left[kind] -= 1;
    last.priorities[kind] = pair.prio();
    last.numbers[kind] = pair.id().0;
    1
}

/// How many pairs of each kind pass the test.
fn going_counts(pairs: &Checklist, going: &Going<'_>) -> [usize; 9]
    requires placed { are_placed going.now.kinds.now.local.now going.now.kinds.now.remote.now (multiset_of pairs.now) ≡ true }
    ensures { AreCounted (kind_of going.now.kinds.now.local.now going.now.kinds.now.remote.now)
        (filter (is_low_of_kind going.now.kinds.now.local.now going.now.kinds.now.remote.now going.now.last.now.priorities
        going.now.last.now.numbers) (multiset_of pairs.now)) result }
{
    let mut counts = [0; 9];
    for pair in pairs.as_slice() {
        if going.passes(pair) {
            counts[going.kinds.kind_of(pair) as usize] += 1;
        }
    }
    counts
}

/// Of each kind, the pairs that go and those that stay are as many as there are.
fn are_sums(gone: &[usize; 9], stays: &[usize; 9], counts: &[usize; 9]) -> bool
    ensures { result ≡ true → AreSums gone.now stays.now counts.now }
{
    for kind in 0..9 {
        if stays[kind] > counts[kind] || gone[kind] != counts[kind] - stays[kind] {
            return false;
        }
    }
    true
}

/// Removes the lowest pairs of each kind at once, no more than the limit removes.
fn evict_together(pairs: &mut Checklist, counts: &[usize; 9], limit: usize, kinds: &KindTable<'_>)
    requires placed { are_placed kinds.now.local.now kinds.now.remote.now (multiset_of pairs.old) ≡ true }
    requires counted { AreCounted (kind_of kinds.now.local.now kinds.now.remote.now) (multiset_of pairs.old) counts.now }
    ensures evicted { EvictsSomeOfMost (kind_of kinds.now.local.now kinds.now.remote.now) limit (multiset_of pairs.old) (multiset_of pairs.new) }
    ensures placed { are_placed kinds.now.local.now kinds.now.remote.now (multiset_of pairs.new) ≡ true }
    ensures below { (n : ℕ) → are_below n (multiset_of pairs.old) ≡ true → are_below n (multiset_of pairs.new) ≡ true }
{
    pairs.numbers_rise();
    let stays = counts_that_stay(counts, pairs.len(), limit);
    let many = pairs.len().saturating_sub(limit);
    let last = last_of_each(pairs, kinds, counts, &stays, many);
    let going = Going { kinds, last: &last };
    let gone = going_counts(pairs, &going);
    if !are_sums(&gone, &stays, counts) {
        return;
    }
    pairs.remove_by_priority(&going);
}

/// Removes the pairs that go at once, if they are many: then no more than a few are left to go.
pub(crate) fn evict_many(
    pairs: &mut Checklist,
    counts: &[usize; 9],
    limit: usize,
    kinds: &KindTable<'_>,
)
    requires placed { are_placed kinds.now.local.now kinds.now.remote.now (multiset_of pairs.old) ≡ true }
    requires counted { AreCounted (kind_of kinds.now.local.now kinds.now.remote.now) (multiset_of pairs.old) counts.now }
    ensures evicted { EvictsSomeOfMost (kind_of kinds.now.local.now kinds.now.remote.now) limit (multiset_of pairs.old) (multiset_of pairs.new) }
    ensures placed { are_placed kinds.now.local.now kinds.now.remote.now (multiset_of pairs.new) ≡ true }
    ensures below { (n : ℕ) → are_below n (multiset_of pairs.old) ≡ true → are_below n (multiset_of pairs.new) ≡ true }
{
    if pairs.len().saturating_sub(limit) < FEW {
        return;
    }
    evict_together(pairs, counts, limit, kinds);
}
