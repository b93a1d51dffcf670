//! The limit on the number of pairs with kinds in turn (RFC 8445, section 6.1.2.5). A kind with few pairs keeps them, however many
//! pairs of greater priority there are.

ghost use Rattle.std.specs.Prelude.{◌≡◌, ◌≤◌, ◌<◌, [], ℕ, true, false, slice_index};
ghost use Rattle.std.specs.Option.{option_copied};
ghost use Rattle.is_pair.specs.Multiset.{are_below, is_numbered, without};
ghost use Rattle.is_pair.specs.Checklists.{multiset_of};
ghost use Rattle.is_pair.specs.Pairs.{PairRecord};
ghost use Rattle.is_rules.specs.Kept.{is_placed, are_placed};
ghost use Rattle.is_rules.specs.Kinds.{kind_of, KINDS};
ghost use Rattle.is_rules.specs.Evicting.{AreCounted, AreOfOneKind, IsLeastOfKind, IsLeastOfMost, EvictsOfMost};
ghost use Rattle.is_rules.specs.Forming.{EvictsFor};
ghost use Rattle.is_rules.specs.FormingView.{sides_view};
ghost use Rattle.is_rules.specs.Cuts.{KindsStay};

use crate::kind_table::KindTable;
use crate::lowest::evict_many;
use crate::sides::Sides;
use is_candidate::Candidate;
use is_pair::checklist::{Checklist, PairTest, Removal};
use is_pair::pair::CandidatePair;

/// How many pairs each kind has.
pub(crate) fn kind_counts(pairs: &Checklist, kinds: &KindTable<'_>) -> [usize; 9]
    requires placed { are_placed kinds.now.local.now kinds.now.remote.now (multiset_of pairs.now) ≡ true }
    ensures { AreCounted (kind_of kinds.now.local.now kinds.now.remote.now) (multiset_of pairs.now) result }
{
    let mut counts = [0; 9];
    for pair in pairs.as_slice() {
        counts[kinds.kind_of(pair) as usize] += 1;
    }
    counts
}

/// The kind with the most pairs.
pub(crate) fn most_numerous(counts: &[usize; 9]) -> u8
    ensures within { result < KINDS }
    ensures most { (kind : ℕ) → kind < KINDS → slice_index counts.now kind ≤ slice_index counts.now result }
{
    let mut most = 0;
    for kind in 1..9u8 {
        if counts[kind as usize] > counts[most as usize] {
            most = kind;
        }
    }
    most
}

/// A test for the pairs of a kind.
#[derive(Clone, Copy)]
struct OfKind<'a> {
    kinds: &'a KindTable<'a>,
    kind: u8,
}

impl PairTest for OfKind<'_> {
    ghost use Rattle.is_rules.specs.Evicting.{is_placed_of_kind};

    ghost passes = { λ t p. is_placed_of_kind t.kinds.now.local.now t.kinds.now.remote.now t.kind p };

    fn passes(&self, pair: &CandidatePair) -> bool {
        self.kinds.has(pair) && self.kinds.kind_of(pair) == self.kind
    }
}

/// A pair of lowest priority of a kind, if it has one.
fn least_of_kind<'a>(
    pairs: &'a Checklist,
    kinds: &KindTable<'_>,
    kind: u8,
) -> Option<&'a CandidatePair>
    requires placed { are_placed kinds.now.local.now kinds.now.remote.now (multiset_of pairs.now) ≡ true }
    ensures { IsLeastOfKind (kind_of kinds.now.local.now kinds.now.remote.now) kind (multiset_of pairs.now) (option_copied result) }
{
    pairs.least_passing(&OfKind { kinds, kind })
}

/// Removes a pair of lowest priority of the kind with the most pairs, and counts it off. Returns whether there was a pair.
fn evict_one(pairs: &mut Checklist, counts: &mut [usize; 9], kinds: &KindTable<'_>) -> bool
    requires placed { are_placed kinds.now.local.now kinds.now.remote.now (multiset_of pairs.old) ≡ true }
    requires counted { AreCounted (kind_of kinds.now.local.now kinds.now.remote.now) (multiset_of pairs.old) counts.old }
    ensures one { result ≡ true → (p : PairRecord) × IsLeastOfMost (kind_of kinds.now.local.now kinds.now.remote.now) (multiset_of pairs.old) p
        × (multiset_of pairs.new ≡ without (is_numbered p.number) (multiset_of pairs.old)) }
    ensures none { result ≡ false → (multiset_of pairs.old ≡ []) × (multiset_of pairs.new ≡ []) }
    ensures counted { AreCounted (kind_of kinds.now.local.now kinds.now.remote.now) (multiset_of pairs.new) counts.new }
    ensures below { (n : ℕ) → are_below n (multiset_of pairs.old) ≡ true → are_below n (multiset_of pairs.new) ≡ true }
{
    pairs.numbers_rise();
    let kind = most_numerous(counts);
    match least_of_kind(pairs, kinds, kind) {
        None => false,
        Some(least) => {
            let number = least.id().0;
            counts[kind as usize] -= 1;
            pairs.remove(number, Removal::Evicted);
            true
        }
    }
}

/// Removes pairs of the kind with the most pairs, one after another, until there are no more than the limit.
fn evict_each_by_kind(pairs: &mut Checklist, limit: usize, kinds: &KindTable<'_>)
    requires placed { are_placed kinds.now.local.now kinds.now.remote.now (multiset_of pairs.old) ≡ true }
    ensures evicted { EvictsOfMost (kind_of kinds.now.local.now kinds.now.remote.now) limit (multiset_of pairs.old) (multiset_of pairs.new) }
    ensures below { (n : ℕ) → are_below n (multiset_of pairs.old) ≡ true → are_below n (multiset_of pairs.new) ≡ true }
{
    if pairs.len() <= limit {
        return;
    }
    let mut counts = kind_counts(pairs, kinds);
    while pairs.len() > limit {
        if !evict_one(pairs, &mut counts, kinds) {
            return;
        }
    }
}

/// All pairs are of one kind.
fn are_of_one_kind(pairs: &Checklist, counts: &[usize; 9], kinds: &KindTable<'_>) -> bool
    requires counted { AreCounted (kind_of kinds.now.local.now kinds.now.remote.now) (multiset_of pairs.now) counts.now }
    ensures { result ≡ true → AreOfOneKind (kind_of kinds.now.local.now kinds.now.remote.now) (multiset_of pairs.now) }
{
    counts[most_numerous(counts) as usize] == pairs.len()
}

/// Removes pairs of the kind with the most pairs until there are no more than the limit. If all are of one kind, as among hosts of one network,
/// these are those of lowest priority.
fn evict_by_kind(pairs: &mut Checklist, limit: usize, kinds: &KindTable<'_>)
    requires placed { are_placed kinds.now.local.now kinds.now.remote.now (multiset_of pairs.old) ≡ true }
    ensures evicted { EvictsOfMost (kind_of kinds.now.local.now kinds.now.remote.now) limit (multiset_of pairs.old) (multiset_of pairs.new) }
    ensures below { (n : ℕ) → are_below n (multiset_of pairs.old) ≡ true → are_below n (multiset_of pairs.new) ≡ true }
{
    let counts = kind_counts(pairs, kinds);
    if are_of_one_kind(pairs, &counts, kinds) {
        pairs.evict(limit);
        return;
    }
    evict_many(pairs, &counts, limit, kinds);
    evict_each_by_kind(pairs, limit, kinds);
}

/// If there are more pairs than the limit, makes a table of the kinds and removes pairs of the kind with the most pairs down to the limit.
fn evict_of_most(pairs: &mut Checklist, limit: usize, local: &[Candidate], remote: &[Candidate])
    requires placed { are_placed local.now remote.now (multiset_of pairs.old) ≡ true }
    ensures evicted { EvictsOfMost (kind_of local.now remote.now) limit (multiset_of pairs.old) (multiset_of pairs.new) }
    ensures below { (n : ℕ) → are_below n (multiset_of pairs.old) ≡ true → are_below n (multiset_of pairs.new) ≡ true }
{
    if pairs.len() <= limit {
        return;
    }
    let kinds = KindTable::new(local, remote, pairs.len());
    evict_by_kind(pairs, limit, &kinds);
}

/// Removes pairs until there are no more than the limit: those of lowest priority, with kinds in turn those of the kind with the
/// most pairs.
pub(crate) fn evict(sides: Sides<'_>, limit: usize, pairs: &mut Checklist)
    requires placed { are_placed sides.local.now sides.remote.now (multiset_of pairs.old) ≡ true }
    ensures evicted { EvictsFor (sides_view sides.entry) limit (multiset_of pairs.old) (multiset_of pairs.new) }
    ensures below { (n : ℕ) → are_below n (multiset_of pairs.old) ≡ true → are_below n (multiset_of pairs.new) ≡ true }
{
    if sides.modern {
        evict_of_most(pairs, limit, sides.local, sides.remote);
    } else {
        pairs.evict(limit);
    }
}

/// As many pairs stay as the limit allows. Each kind loses its pairs of lowest priority, and none that had a pair loses its last
/// one while another keeps more than one.
pub fn kinds_stay()
    ensures { KindsStay }
{}
