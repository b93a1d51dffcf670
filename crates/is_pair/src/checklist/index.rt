//! The index of a checklist: which pairs store checks with which transaction IDs.

ghost use Rattle.std.specs.Prelude.{◌≡◌, ◌<◌, ◌≤◌, ◌==◌, true, false, not, ℕ, List, Bool, ◌||◌, filter, find, get_or, if◌then◌else◌};
ghost use Rattle.std.specs.Prelude.{OnOk, length, remove, vec_len, vec_capacity};
ghost use Rattle.std.specs.List.{list_any};
ghost use Rattle.std.specs.List.Sorted.{IsPartitionPoint};
ghost use Rattle.is_pair.specs.Multiset.{has_number, rises};
ghost use Rattle.is_pair.specs.Entries.{is_before, ids_rise, names_passing, is_named, is_current, named_after};
ghost use Rattle.is_pair.specs.Cutting.{LeavesCurrent};
ghost use Rattle.is_pair.specs.declared.checklist.entries.Kept.{Kept};
ghost use Rattle.is_pair.specs.declared.pair.cut.Cut.TheVariants.{Oldest};

use super::entries::Kept;
use super::listed;
use super::pair_test::PairTest;
use crate::pair::CandidatePair;
use crate::pair::cut::Cut;
use is_stun::stun::TransId;
use std::alloc::AllocError;

/// An index with fewer entries is short.
const SHORT: usize = 16;

/// Reserves capacity for one more entry. A short index gets exactly one place more, since most agents have few pairs.
pub(super) fn reserve_entry(index: &mut Vec<Kept>) -> Result<(), AllocError>
    ensures items { index.new.items ≡ index.old.items }
    ensures reserved { OnOk result (vec_len index.new < vec_capacity index.new) }
{
    if index.len() < SHORT {
        return index.reserve_exact(1);
    }
    index.reserve(1)
}

/// Whether an entry names a pair other than this one, or a transaction ID that this one stores.
fn is_current(kept: Kept, pair: &CandidatePair) -> bool
    ensures { result ≡ is_current pair.now kept }
{
    kept.number != pair.id().0 || pair.binding_attempt(kept.id).is_some()
}

fn is_before(kept: Kept, id: TransId) -> bool
    ensures { result ≡ is_before kept.id.0 id.0 }
{
    kept.id.cmp(&id).is_lt()
}

/// Returns how many entries come before those of the ID.
fn count_before(index: &[Kept], id: TransId) -> usize
    requires rising { ids_rise index.now ≡ true }
    ensures within { result ≤ length index.now }
    ensures point { IsPartitionPoint (λ k. is_before k.id.0 id.0 ≡ true) (λ k. is_before k.id.0 id.0 ≡ false) index.now result }
{
    index.partition_point(|kept| is_before(*kept, id))
}

fn is_after(kept: Kept, id: TransId) -> bool
    ensures { result ≡ is_before id.0 kept.id.0 }
{
    id.cmp(&kept.id).is_lt()
}

/// Returns how many entries come before those after the ID.
fn count_through(index: &[Kept], id: TransId) -> usize
    requires rising { ids_rise index.now ≡ true }
    ensures within { result ≤ length index.now }
    ensures point { IsPartitionPoint (λ k. not (is_before id.0 k.id.0) ≡ true) (λ k. not (is_before id.0 k.id.0) ≡ false) index.now result }
{
    index.partition_point(|kept| !is_after(*kept, id))
}

/// Removes the entries of IDs that the pair no longer stores.
fn forget_all(index: &mut Vec<Kept>, pair: &CandidatePair)
    ensures items { index.new.items ≡ filter (is_current pair.now) index.old.items }
    ensures within { vec_len index.new ≤ vec_len index.old }
    ensures capacity { vec_capacity index.new ≡ vec_capacity index.old }
{
    index.retain(|kept| is_current(*kept, pair));
}

/// Removes the entry at the index if the pair no longer stores its ID.
fn forget_at(index: &mut Vec<Kept>, pair: &CandidatePair, place: usize)
    requires within { place < length index.old.items }
    ensures items { (d : Kept) → index.new.items ≡ (if is_current pair.now (get_or index.old.items place d) then index.old.items
        else remove index.old.items place) }
    ensures within { vec_len index.new ≤ vec_len index.old }
    ensures capacity { vec_capacity index.new ≡ vec_capacity index.old }
{
    if !is_current(index[place], pair) {
        index.remove(place);
    }
}

/// Removes the entries of IDs that the pair no longer stores, if this is the only such ID. Usually one entry has it.
fn forget_id(index: &mut Vec<Kept>, pair: &CandidatePair, id: TransId)
    requires rising { ids_rise index.old.items ≡ true }
    requires left { LeavesCurrent pair.now index.old.items (Oldest id) }
    ensures items { index.new.items ≡ filter (is_current pair.now) index.old.items }
    ensures within { vec_len index.new ≤ vec_len index.old }
    ensures capacity { vec_capacity index.new ≡ vec_capacity index.old }
{
    let place = count_before(index, id);
    if count_through(&index[place..], id) == 1 {
        forget_at(index, pair, place);
    } else {
        forget_all(index, pair);
    }
}

/// Removes the entries of IDs that the pair no longer stores, by which of its checks were dropped.
fn forget(index: &mut Vec<Kept>, pair: &CandidatePair, cut: Cut)
    requires rising { ids_rise index.old.items ≡ true }
    requires left { LeavesCurrent pair.now index.old.items cut }
    ensures items { index.new.items ≡ filter (is_current pair.now) index.old.items }
    ensures within { vec_len index.new ≤ vec_len index.old }
    ensures capacity { vec_capacity index.new ≡ vec_capacity index.old }
{
    match cut {
        Cut::Nothing => {}
        Cut::Oldest(id) => forget_id(index, pair, id),
        Cut::Several => forget_all(index, pair),
    }
}

/// Inserts one more entry at its position.
fn put(index: &mut Vec<Kept>, kept: Kept)
    requires room { vec_len index.old < vec_capacity index.old }
    requires rising { ids_rise index.old.items ≡ true }
    ensures any { (test : Kept → Bool) → list_any test index.new.items ≡ (test kept || list_any test index.old.items) }
    ensures rising { ids_rise index.new.items ≡ true }
{
    let place = count_before(index, kept.id);
    if index.insert(place, kept).is_err() {
        unreachable!()
    }
}

/// Returns the first entry of the ID whose pair passes the test.
pub(crate) fn awaiting<T: PairTest>(
    index: &[Kept],
    pairs: &[CandidatePair],
    id: TransId,
    test: &T,
) -> Option<Kept>
    requires rising { ids_rise index.now ≡ true }
    requires numbers { rises pairs.now ≡ true }
    ensures { result ≡ find (names_passing id.0 (T.passes test.now) pairs.now) index.now }
{
    let following = &index[count_before(index, id)..];
    let many = count_through(following, id);
    first_awaiting(&following[..many], pairs, id, test)
}

fn names_passing<T: PairTest>(kept: Kept, pairs: &[CandidatePair], id: TransId, test: &T) -> bool
    requires numbers { rises pairs.now ≡ true }
    ensures { result ≡ names_passing id.0 (T.passes test.now) pairs.now kept }
{
    kept.id == id && listed::passes(pairs, kept.number, test)
}

fn first_awaiting<T: PairTest>(
    index: &[Kept],
    pairs: &[CandidatePair],
    id: TransId,
    test: &T,
) -> Option<Kept>
    requires numbers { rises pairs.now ≡ true }
    ensures { result ≡ find (names_passing id.0 (T.passes test.now) pairs.now) index.now }
{
    index
        .iter()
        .find(|kept| names_passing(**kept, pairs, id, test))
        .copied()
}

/// Updates the index after the pair sent a check with the ID and dropped the checks of the cut.
pub(crate) fn follow(index: &mut Vec<Kept>, pair: &CandidatePair, id: TransId, cut: Cut)
    requires left { LeavesCurrent pair.now index.old.items cut }
    requires room { vec_len index.old < vec_capacity index.old }
    requires rising { ids_rise index.old.items ≡ true }
    ensures rising { ids_rise index.new.items ≡ true }
    ensures named { (i : List ℕ) (number : ℕ) → is_named i number index.new.items ≡ named_after pair.now id.0 i number index.old.items }
{
    forget(index, pair, cut);
    let number = pair.id().0;
    put(index, Kept { id, number });
}

/// Removes the entries of pairs that no longer exist.
pub(crate) fn keep_known(index: &mut Vec<Kept>, pairs: &[CandidatePair])
    requires numbers { rises pairs.now ≡ true }
    ensures within { vec_len index.new ≤ vec_len index.old }
    ensures capacity { vec_capacity index.new ≡ vec_capacity index.old }
    ensures items { index.new.items ≡ filter (λ k. has_number k.number pairs.now) index.old.items }
{
    index.retain(|kept| listed::has(pairs, kept.number));
}

/// Removes the entries of the number.
pub(crate) fn drop_number(index: &mut Vec<Kept>, number: u64)
    ensures items { index.new.items ≡ filter (λ k. not (k.number == number)) index.old.items }
    ensures within { vec_len index.new ≤ vec_len index.old }
    ensures capacity { vec_capacity index.new ≡ vec_capacity index.old }
{
    index.retain(|kept| kept.number != number);
}
