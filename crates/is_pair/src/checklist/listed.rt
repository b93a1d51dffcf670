//! The pairs of a checklist, in the order of their numbers.

ghost use Rattle.std.specs.Prelude.{◌≡◌, ◌<◌, ◌≤◌, ◌+◌, ◌-◌, ◌++◌, ◌∷◌, [], List, true, false, IfSome, OnOk, Some, find, fold, length, map, max, min};
ghost use Rattle.std.specs.Prelude.{is_some, position, slice_get, vec_len, vec_capacity};
ghost use Rattle.std.specs.List.{list_any};
ghost use Rattle.std.specs.Option.{option_copied};
ghost use Rattle.std.specs.VecDeque.{deque_capacity};
ghost use Rattle.is_proto.specs.Times.{MAX};
ghost use Rattle.is_stun.specs.Timing.{consent_of};
ghost use Rattle.is_pair.specs.Pairs.{PairRecord};
ghost use Rattle.is_pair.specs.Due.{call_time_of, GoesBefore, IsEarliest};
ghost use Rattle.is_pair.specs.Multiset.{is_numbered, has_number, pair_numbered, passes_at, rises, change_pair, with_priority, without, keep_fewer, IsGreatest};

use super::pair_change::PairChange;
use super::pair_test::PairTest;
use super::rule::PairPriority;
use crate::pair::attempts::reserve_beyond;
use crate::pair::{BindingAttempt, CandidatePair};
use is_proto::Instant;
use is_stun::stun::{Consent, StunTiming};
use std::alloc::AllocError;
use std::collections::VecDeque;

/// Returns the index that the pair with the number has if no pair after the first one was removed.
fn place_without_gaps(pairs: &[CandidatePair], number: u64) -> usize
    ensures { (first : PairRecord) → slice_get pairs.now 0 ≡ Some first → result ≡ number - first.number }
{
    match pairs.first() {
        Some(first) => number.saturating_sub(first.id().0) as usize,
        None => 0,
    }
}

/// Searches a sorted list for the pair with the number.
fn search(pairs: &[CandidatePair], number: u64) -> Option<usize>
    requires rising { rises pairs.now ≡ true }
    ensures place { result ≡ position (is_numbered number) pairs.now }
    ensures within { IfSome result (λ place. place < length pairs.now) }
    ensures has { is_some result ≡ has_number number pairs.now }
{
    let place = pairs.partition_point(|pair| pair.id().0 < number);
    if place < pairs.len() && pairs[place].id().0 == number {
        Some(place)
    } else {
        None
    }
}

/// Returns the index of the pair with the number, if there is one.
pub(super) fn place_of(pairs: &[CandidatePair], number: u64) -> Option<usize>
    requires rising { rises pairs.now ≡ true }
    ensures place { result ≡ position (is_numbered number) pairs.now }
    ensures within { IfSome result (λ place. place < length pairs.now) }
    ensures has { is_some result ≡ has_number number pairs.now }
{
    let place = place_without_gaps(pairs, number);
    if place < pairs.len() && pairs[place].id().0 == number {
        return Some(place);
    }
    search(pairs, number)
}

/// Returns the pair with the number, if there is one.
pub(super) fn get(pairs: &[CandidatePair], number: u64) -> Option<&CandidatePair>
    requires rising { rises pairs.now ≡ true }
    ensures found { option_copied result ≡ pair_numbered number pairs.now }
    ensures has { is_some result ≡ has_number number pairs.now }
{
    match place_of(pairs, number) {
        Some(place) => Some(&pairs[place]),
        None => None,
    }
}

/// Whether a pair has the number.
pub(super) fn has(pairs: &[CandidatePair], number: u64) -> bool
    requires rising { rises pairs.now ≡ true }
    ensures { result ≡ has_number number pairs.now }
{
    place_of(pairs, number).is_some()
}

/// Whether the pair with the number passes the test.
pub(super) fn passes<T: PairTest>(pairs: &[CandidatePair], number: u64, test: &T) -> bool
    requires rising { rises pairs.now ≡ true }
    ensures { result ≡ list_any (passes_at number (T.passes test.now)) pairs.now }
{
    match get(pairs, number) {
        Some(pair) => test.passes(pair),
        None => false,
    }
}

// ---- changes

/// Changes the pair with the number, if there is one.
pub(super) fn change<C: PairChange>(pairs: &mut Vec<CandidatePair>, number: u64, change: &C)
    requires rising { rises pairs.old.items ≡ true }
    ensures changed { pairs.new.items ≡ change_pair number (C.makes change.now) pairs.old.items }
    ensures len { vec_len pairs.new ≡ vec_len pairs.old }
    ensures capacity { vec_capacity pairs.new ≡ vec_capacity pairs.old }
{
    if let Some(place) = place_of(pairs, number) {
        change.change(&mut pairs[place]);
    }
}

/// Changes all pairs.
pub(super) fn change_all<C: PairChange>(pairs: &mut Vec<CandidatePair>, change: &C)
    ensures changed { pairs.new.items ≡ map (C.makes change.now) pairs.old.items }
    ensures len { vec_len pairs.new ≡ vec_len pairs.old }
    ensures capacity { vec_capacity pairs.new ≡ vec_capacity pairs.old }
{
    for place in 0..pairs.len() {
        change.change(&mut pairs[place]);
    }
}

fn set_priority<R: PairPriority>(pair: &mut CandidatePair, rule: &R)
    ensures { pair.new ≡ with_priority (R.gives rule.now) pair.old }
{
    let priority = rule.priority(pair);
    pair.set_prio(priority);
}

/// Sets all priorities by a rule.
pub(super) fn set_priorities<R: PairPriority>(pairs: &mut Vec<CandidatePair>, rule: &R)
    ensures set { pairs.new.items ≡ map (with_priority (R.gives rule.now)) pairs.old.items }
    ensures len { vec_len pairs.new ≡ vec_len pairs.old }
    ensures capacity { vec_capacity pairs.new ≡ vec_capacity pairs.old }
{
    for place in 0..pairs.len() {
        set_priority(&mut pairs[place], rule);
    }
}

/// Adds a pair whose number is above all others.
pub(super) fn put(pairs: &mut Vec<CandidatePair>, pair: CandidatePair)
    requires room { vec_len pairs.old < vec_capacity pairs.old }
    ensures put { pairs.new.items ≡ pairs.old.items ++ pair ∷ [] }
    ensures len { vec_len pairs.new ≡ vec_len pairs.old + 1 }
    ensures capacity { vec_capacity pairs.new ≡ vec_capacity pairs.old }
{
    pairs.push_reserved(pair);
}

/// Removes the pairs that pass the test.
pub(super) fn drop_passing<T: PairTest>(pairs: &mut Vec<CandidatePair>, test: &T)
    ensures left { pairs.new.items ≡ without (T.passes test.now) pairs.old.items }
    ensures within { vec_len pairs.new ≤ vec_len pairs.old }
    ensures capacity { vec_capacity pairs.new ≡ vec_capacity pairs.old }
{
    pairs.retain(|pair| !test.passes(pair));
}

/// Removes the pair with the number.
pub(super) fn take_out(pairs: &mut Vec<CandidatePair>, number: u64)
    ensures left { pairs.new.items ≡ without (is_numbered number) pairs.old.items }
    ensures within { vec_len pairs.new ≤ vec_len pairs.old }
    ensures capacity { vec_capacity pairs.new ≡ vec_capacity pairs.old }
{
    pairs.retain(|pair| pair.id().0 != number);
}

/// The length of the list is that of its items. Does nothing; code whose proof needs this calls it.
pub(super) fn len_is(pairs: &Vec<CandidatePair>)
    ensures { vec_len pairs.now ≡ length pairs.now.items }
{}

// ---- queries over all pairs

/// Whether any pair passes the test.
pub(super) fn any<T: PairTest>(pairs: &[CandidatePair], test: &T) -> bool
    ensures { result ≡ list_any (T.passes test.now) pairs.now }
{
    pairs.iter().any(|pair| test.passes(pair))
}

/// Returns the first pair that passes the test.
pub(super) fn first<'a, T: PairTest>(
    pairs: &'a [CandidatePair],
    test: &T,
) -> Option<&'a CandidatePair>
    ensures { option_copied result ≡ find (T.passes test.now) pairs.now }
{
    pairs.iter().find(|pair| test.passes(pair))
}

/// Returns the greatest so far, or one more pair if it passes the test and has a greater priority.
fn greater<'a, T: PairTest>(
    top: Option<&'a CandidatePair>,
    pair: &'a CandidatePair,
    test: &T,
) -> Option<&'a CandidatePair>
    ensures { (done : List PairRecord) → IsGreatest (T.passes test.now) done (option_copied top.entry)
        → IsGreatest (T.passes test.now) (pair.now ∷ done) (option_copied result) }
{
    if !test.passes(pair) {
        return top;
    }
    match top {
        Some(top) if top.prio() >= pair.prio() => Some(top),
        _ => Some(pair),
    }
}

/// Returns a pair of greatest priority among those that pass the test.
pub(super) fn greatest<'a, T: PairTest>(
    pairs: &'a [CandidatePair],
    test: &T,
) -> Option<&'a CandidatePair>
    ensures { IsGreatest (T.passes test.now) pairs.now (option_copied result) }
{
    let mut top = None;
    for pair in pairs {
        top = greater(top, pair, test);
    }
    top
}

/// Returns the earliest time at which a pair is due, or its consent ends, by what the timing says of consent.
pub(super) fn earliest_call_with(
    pairs: &[CandidatePair],
    now: Instant,
    timing: &StunTiming,
    consent: Option<Consent>,
) -> Instant
    requires { consent ≡ consent_of timing.now }
    ensures { result.0 ≡ fold min MAX (map (call_time_of now.0 timing.now) pairs.now) }
{
    let mut first = Instant(u64::MAX);
    for pair in pairs {
        first = first.min(pair.call_time_of(now, timing, consent));
    }
    first
}

/// Returns the earliest time at which a pair is due, or its consent ends, or the time `from` if that is later. It looks at the pairs until
/// one is due, or its consent ends, by this time.
pub(super) fn earliest_call_from(
    pairs: &[CandidatePair],
    now: Instant,
    timing: &StunTiming,
    consent: Option<Consent>,
    from: Instant,
) -> Instant
    requires { consent ≡ consent_of timing.now }
    ensures { result.0 ≡ max (fold min MAX (map (call_time_of now.0 timing.now) pairs.now)) from.0 }
{
    let mut first = Instant(u64::MAX);
    for pair in pairs {
        first = first.min(pair.call_time_of(now, timing, consent));
        if first <= from {
            return from;
        }
    }
    first.max(from)
}

/// Whether a pair is due earlier, or at the same time with no smaller priority.
pub fn goes_before(p: &CandidatePair, q: &CandidatePair, now: Instant, timing: &StunTiming) -> bool
    ensures before { result ≡ true → GoesBefore now.0 timing.now p.now q.now }
    ensures following { result ≡ false → GoesBefore now.0 timing.now q.now p.now }
{
    let ours = p.due_time_of(now, timing).0;
    let theirs = q.due_time_of(now, timing).0;
    ours < theirs || (ours == theirs && p.prio() >= q.prio())
}

/// Returns the earlier of the earliest so far and one more pair.
fn earlier<'a>(
    first: Option<&'a CandidatePair>,
    pair: &'a CandidatePair,
    now: Instant,
    timing: &StunTiming,
) -> Option<&'a CandidatePair>
    ensures { (done : List PairRecord) → IsEarliest now.0 timing.now done (option_copied first.entry)
        → IsEarliest now.0 timing.now (pair.now ∷ done) (option_copied result) }
{
    match first {
        Some(first) if goes_before(first, pair, now, timing) => Some(first),
        _ => Some(pair),
    }
}

/// Returns a pair that is due before all others, or at the same time with no smaller priority.
pub(super) fn earliest<'a>(
    pairs: &'a [CandidatePair],
    now: Instant,
    timing: &StunTiming,
) -> Option<&'a CandidatePair>
    ensures { IsEarliest now.0 timing.now pairs.now (option_copied result) }
{
    let mut first = None;
    for pair in pairs {
        first = earlier(first, pair, now, timing);
    }
    first
}

/// Gives the spare queue more capacity than any pair stores checks, of those that store fewer than the limit.
pub(super) fn reserve_beyond_all(
    spare: &mut VecDeque<BindingAttempt>,
    pairs: &[CandidatePair],
    limit: usize,
) -> Result<(), AllocError>
    ensures some { OnOk result (0 < deque_capacity spare.new) }
    ensures fewer { OnOk result (keep_fewer limit (deque_capacity spare.new) pairs.now ≡ true) }
{
    let mut most = 0;
    for pair in pairs {
        let count = pair.kept_count();
        if count < limit {
            most = count.max(most);
        }
    }
    reserve_beyond(spare, most)
}
