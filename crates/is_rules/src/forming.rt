//! Forming candidate pairs (RFC 8445, section 6.1.2).
//!
//! The combinations are counted and listed, and capacity for as many pairs is reserved. What follows can't fail.

ghost use Rattle.std.specs.Prelude.{◌≡◌, ℕ, ◌≤◌, ◌<◌, ◌+◌, ◌++◌, ◌∷◌, [], ◌↔◌, true, IsTrue, IfOk, filter, length, map};
ghost use Rattle.std.specs.Option.{option_copied};
ghost use Rattle.std.specs.List.{flat_map};
ghost use Rattle.is_proto.specs.Times.{MAX};
ghost use Rattle.is_candidate.specs.Candidates.{candidate_at};
ghost use Rattle.is_pair.specs.Multiset.{are_below, IsGreatest};
ghost use Rattle.is_pair.specs.Checklists.{multiset_of, HasRoom};
ghost use Rattle.is_rules.specs.Each.{Each};
ghost use Rattle.is_rules.specs.Kept.{is_placed, are_placed};
ghost use Rattle.is_rules.specs.Forming.{is_alive, is_alive_at, is_partner, is_partner_at, partners, remote_combinations};
ghost use Rattle.is_rules.specs.Forming.{local_combinations, live_row, live_combinations, is_redundant, combined_priority, pair_of};
ghost use Rattle.is_rules.specs.Forming.{formed_as, AreIn, Tries, FormsEach, HasNumbers};
ghost use Rattle.is_rules.specs.FormingView.{sides_view};
ghost use Rattle.is_rules.specs.Slots.{AreHeld};
ghost use Rattle.is_rules.specs.Cuts.{EvictionCuts};

use crate::evicting::evict;
use crate::places::{address_at, base_at, candidate_at, kind_at, priority_at, proto_at};
use crate::sides::Sides;
use crate::slots::{find_redundant, hold_at, slots_of};
use is_candidate::Candidate;
use is_candidate::candidate::address::{same_address, same_protocol, same_version};
use is_candidate::candidate::internals::is_discarded;
use is_pair::checklist::{Checklist, PairTest, Removal};
use is_pair::pair::{CandidatePair, PairId};
use is_pair::take_over;
use std::alloc::{AllocError, Global};

// ---- one combination

/// A pair has the same path as a combination.
pub(crate) fn is_redundant(sides: Sides<'_>, at: (usize, usize), pair: &CandidatePair) -> bool
    requires placed { is_placed sides.local.now sides.remote.now pair.now ≡ true }
    requires local { at.0 < length sides.local.now }
    requires remote { at.1 < length sides.remote.now }
    ensures { result ≡ is_redundant (sides_view sides.entry) at pair.now }
{
    let Sides { local, remote, .. } = sides;
    let (l, r) = at;
    same_address(base_at(local, pair.local_idx()), base_at(local, l))
        && same_protocol(proto_at(local, pair.local_idx()), proto_at(local, l))
        && same_address(address_at(remote, pair.remote_idx()), address_at(remote, r))
        && same_protocol(proto_at(remote, pair.remote_idx()), proto_at(remote, r))
}

/// Whether a pair has the same path as a combination.
#[derive(Clone, Copy)]
struct Redundant<'a> {
    sides: Sides<'a>,
    at: (usize, usize),
    ghost local: { at.0 < length sides.local.now },
    ghost remote: { at.1 < length sides.remote.now },
}

impl PairTest for Redundant<'_> {
    ghost use Rattle.std.specs.Prelude.{◌&&◌};
    ghost use Rattle.is_rules.specs.Kept.{is_placed};
    ghost use Rattle.is_rules.specs.Forming.{is_redundant};
    ghost use Rattle.is_rules.specs.FormingView.{sides_view};

    ghost passes = { λ t p. is_placed t.sides.local.now t.sides.remote.now p && is_redundant (sides_view t.sides) t.at p };

    fn passes(&self, pair: &CandidatePair) -> bool {
        self.sides.has(pair) && is_redundant(self.sides, self.at, pair)
    }
}

/// The redundant pair of greatest priority, searched among all pairs.
pub(crate) fn top_redundant<'a>(
    pairs: &'a Checklist,
    sides: Sides<'_>,
    at: (usize, usize),
) -> Option<&'a CandidatePair>
    requires placed { are_placed sides.local.now sides.remote.now (multiset_of pairs.now) ≡ true }
    requires local { at.0 < length sides.local.now }
    requires remote { at.1 < length sides.remote.now }
    ensures { IsGreatest (is_redundant (sides_view sides.entry) at) (multiset_of pairs.now) (option_copied result) }
{
    pairs.greatest(&Redundant { sides, at })
}

/// The priority of the pair of a combination.
pub(crate) fn combined_priority(sides: Sides<'_>, at: (usize, usize)) -> u64
    requires local { at.0 < length sides.local.now }
    requires remote { at.1 < length sides.remote.now }
    ensures { result ≡ combined_priority (sides_view sides.entry) at }
{
    let remote = priority_at(sides.remote, at.1);
    let local = priority_at(sides.local, at.0);
    CandidatePair::calculate_prio(sides.controlling, remote, local)
}

/// The pair of a combination.
pub fn pair_of(alloc: Global, sides: Sides<'_>, at: (usize, usize), number: u64) -> CandidatePair
    requires local { at.0 < length sides.local.now }
    requires remote { at.1 < length sides.remote.now }
    ensures { result ≡ pair_of (sides_view sides.entry) at number }
{
    CandidatePair::new(
        alloc,
        PairId(number),
        at.0,
        kind_at(sides.local, at.0),
        at.1,
        kind_at(sides.remote, at.1),
        combined_priority(sides, at),
    )
}

/// Adds the pair with the next number, within the reserved capacity.
fn add(pairs: &mut Checklist, next_number: &mut u64, pair: CandidatePair)
    requires room { HasRoom 1 pairs.old }
    requires number { next_number.old < MAX }
    requires its { pair.number ≡ next_number.old }
    requires last { are_below next_number.old (multiset_of pairs.old) ≡ true }
    requires unchecked { pair.checks ≡ [] }
    ensures added { multiset_of pairs.new ≡ multiset_of pairs.old ++ pair ∷ [] }
    ensures room { (n : ℕ) → HasRoom (n + 1) pairs.old → HasRoom n pairs.new }
    ensures next { next_number.new ≡ next_number.old + 1 }
    ensures below { are_below next_number.new (multiset_of pairs.new) ≡ true }
{
    pairs.add(pair);
    *next_number += 1;
}

/// A combination becomes a pair, if no redundant pair has at least its priority. It replaces the redundant pair of greatest
/// priority.
fn try_one(
    alloc: Global,
    sides: Sides<'_>,
    at: (usize, usize),
    pairs: &mut Checklist,
    next_number: &mut u64,
    held: &[u64],
)
    requires local { at.0 < length sides.local.now }
    requires remote { at.1 < length sides.remote.now }
    requires placed { are_placed sides.local.now sides.remote.now (multiset_of pairs.old) ≡ true }
    requires held { AreHeld (sides_view sides) held.now (multiset_of pairs.old) }
    requires room { HasRoom 1 pairs.old }
    requires number { next_number.old < MAX }
    requires last { are_below next_number.old (multiset_of pairs.old) ≡ true }
    ensures placed { are_placed sides.entry.local.now sides.entry.remote.now (multiset_of pairs.new) ≡ true }
    ensures tries { Tries (sides_view sides.entry) at (formed_as (multiset_of pairs.old) next_number.old)
        (formed_as (multiset_of pairs.new) next_number.new) }
    ensures room { (n : ℕ) → HasRoom (n + 1) pairs.old → HasRoom n pairs.new }
    ensures next { next_number.new ≤ next_number.old + 1 }
    ensures below { are_below next_number.new (multiset_of pairs.new) ≡ true }
{
    let mut pair = pair_of(alloc, sides, at, *next_number);
    match find_redundant(held, pairs, sides, at) {
        None => add(pairs, next_number, pair),
        Some(found) => {
            if found.prio() >= pair.prio() {
                return;
            }
            let number = found.id().0;
            take_over(&mut pair, found, sides.lite);
            pairs.remove(number, Removal::Replaced);
            add(pairs, next_number, pair)
        }
    }
}

/// A combination becomes a pair as in `try_one`. If there is a new pair, the combination's slot holds it.
fn try_next(
    alloc: Global,
    sides: Sides<'_>,
    at: (usize, usize),
    pairs: &mut Checklist,
    next_number: &mut u64,
    held: &mut [u64],
)
    requires local { at.0 < length sides.local.now }
    requires remote { at.1 < length sides.remote.now }
    requires placed { are_placed sides.local.now sides.remote.now (multiset_of pairs.old) ≡ true }
    requires held { AreHeld (sides_view sides) held.old (multiset_of pairs.old) }
    requires room { HasRoom 1 pairs.old }
    requires number { next_number.old < MAX }
    requires last { are_below next_number.old (multiset_of pairs.old) ≡ true }
    ensures placed { are_placed sides.entry.local.now sides.entry.remote.now (multiset_of pairs.new) ≡ true }
    ensures held { AreHeld (sides_view sides.entry) held.new (multiset_of pairs.new) }
    ensures tries { Tries (sides_view sides.entry) at (formed_as (multiset_of pairs.old) next_number.old)
        (formed_as (multiset_of pairs.new) next_number.new) }
    ensures room { (n : ℕ) → HasRoom (n + 1) pairs.old → HasRoom n pairs.new }
    ensures next { next_number.new ≤ next_number.old + 1 }
    ensures below { are_below next_number.new (multiset_of pairs.new) ≡ true }
{
    let number = *next_number;
    try_one(alloc, sides, at, pairs, next_number, held);
    if *next_number == number {
        return;
    }
    hold_at(held, sides, at, number);
}

/// Tries each combination in turn, with slots.
fn try_all(
    alloc: Global,
    sides: Sides<'_>,
    all: &[(usize, usize)],
    pairs: &mut Checklist,
    next_number: &mut u64,
    held: &mut [u64],
)
    requires within { AreIn (length sides.local.now) (length sides.remote.now) all.now }
    requires placed { are_placed sides.local.now sides.remote.now (multiset_of pairs.old) ≡ true }
    requires held { AreHeld (sides_view sides) held.old (multiset_of pairs.old) }
    requires room { HasRoom (length all.now) pairs.old }
    requires numbers { HasNumbers next_number.old (length all.now) }
    requires last { are_below next_number.old (multiset_of pairs.old) ≡ true }
    ensures placed { are_placed sides.entry.local.now sides.entry.remote.now (multiset_of pairs.new) ≡ true }
    ensures forms { Each (Tries (sides_view sides.entry)) all.now (formed_as (multiset_of pairs.old) next_number.old)
        (formed_as (multiset_of pairs.new) next_number.new) }
    ensures below { are_below next_number.new (multiset_of pairs.new) ≡ true }
{
    for at in all {
        try_next(alloc, sides, *at, pairs, next_number, held);
    }
}

/// Tries each combination in turn.
fn try_each(
    alloc: Global,
    sides: Sides<'_>,
    all: &[(usize, usize)],
    pairs: &mut Checklist,
    next_number: &mut u64,
)
    requires within { AreIn (length sides.local.now) (length sides.remote.now) all.now }
    requires placed { are_placed sides.local.now sides.remote.now (multiset_of pairs.old) ≡ true }
    requires room { HasRoom (length all.now) pairs.old }
    requires numbers { HasNumbers next_number.old (length all.now) }
    requires last { are_below next_number.old (multiset_of pairs.old) ≡ true }
    ensures placed { are_placed sides.entry.local.now sides.entry.remote.now (multiset_of pairs.new) ≡ true }
    ensures forms { Each (Tries (sides_view sides.entry)) all.now (formed_as (multiset_of pairs.old) next_number.old)
        (formed_as (multiset_of pairs.new) next_number.new) }
    ensures below { are_below next_number.new (multiset_of pairs.new) ≡ true }
{
    let mut held = slots_of(alloc, sides, pairs, all.len());
    try_all(alloc, sides, all, pairs, next_number, &mut held);
}

/// As many pairs stay as the limit allows, and no removed pair has a higher priority than one that stays.
pub fn eviction_cuts()
    ensures { EvictionCuts }
{}

/// The combinations become pairs, and then the limit is applied.
pub fn form_each(
    alloc: Global,
    sides: Sides<'_>,
    limit: usize,
    all: &[(usize, usize)],
    pairs: &mut Checklist,
    next_number: &mut u64,
)
    requires within { AreIn (length sides.local.now) (length sides.remote.now) all.now }
    requires placed { are_placed sides.local.now sides.remote.now (multiset_of pairs.old) ≡ true }
    requires room { HasRoom (length all.now) pairs.old }
    requires numbers { HasNumbers next_number.old (length all.now) }
    requires last { are_below next_number.old (multiset_of pairs.old) ≡ true }
    ensures placed { are_placed sides.entry.local.now sides.entry.remote.now (multiset_of pairs.new) ≡ true }
    ensures forms { FormsEach (sides_view sides.entry) limit all.now (formed_as (multiset_of pairs.old) next_number.old)
        (formed_as (multiset_of pairs.new) next_number.new) }
    ensures below { are_below next_number.new (multiset_of pairs.new) ≡ true }
{
    try_each(alloc, sides, all, pairs, next_number);
    evict(sides, limit, pairs);
}

// ---- combinations

pub(crate) fn is_alive(c: &Candidate) -> bool
    ensures { result ≡ is_alive c.now }
{
    !is_discarded(c)
}

// ---- the combinations of one candidate

pub(crate) fn is_partner(candidate: &Candidate, other: &Candidate) -> bool
    ensures { result ≡ is_partner candidate.now other.now }
{
    !is_discarded(other)
        && same_protocol(other.proto(), candidate.proto())
        && same_version(other.addr(), candidate.addr())
}

/// The number of live candidates that may be paired with this one.
fn count_partners(candidate: &Candidate, others: &[Candidate]) -> usize
    ensures { result ≡ length (partners candidate.now others.now) }
{
    let mut count = 0;
    for place in 0..others.len() {
        if is_partner(candidate, candidate_at(others, place)) {
            count += 1;
        }
    }
    count
}

/// There is a number for each pair of the candidate.
pub fn has_numbers_for(next_number: u64, candidate: &Candidate, others: &[Candidate]) -> bool
    ensures { IsTrue result ↔ HasNumbers next_number (length (partners candidate.now others.now)) }
{
    count_partners(candidate, others) as u64 <= u64::MAX - next_number
}

fn push_partner(
    all: &mut Vec<(usize, usize)>,
    candidate: &Candidate,
    local: &[Candidate],
    l: usize,
    place: usize,
) -> Result<(), AllocError>
    requires { l < length local.now }
    ensures { IfOk result (λ _. all.new.items ≡ all.old.items ++ map (λ x. (x, place)) (filter (is_partner_at candidate.now local.now) (l ∷ []))) }
{
    if is_partner(candidate, candidate_at(local, l)) {
        all.push((l, place))?;
    }
    Ok(())
}

/// The combinations of a remote candidate that is to be stored at this index.
pub fn remote_combinations(
    alloc: Global,
    candidate: &Candidate,
    place: usize,
    local: &[Candidate],
) -> Result<Vec<(usize, usize)>, AllocError>
    ensures { IfOk result (λ all. all.items ≡ remote_combinations candidate.now place local.now) }
{
    let mut all = Vec::new(alloc);
    for l in 0..local.len() {
        push_partner(&mut all, candidate, local, l, place)?;
    }
    Ok(all)
}

fn push_own_partner(
    all: &mut Vec<(usize, usize)>,
    candidate: &Candidate,
    remote: &[Candidate],
    r: usize,
    place: usize,
) -> Result<(), AllocError>
    requires { r < length remote.now }
    ensures { IfOk result (λ _. all.new.items ≡ all.old.items ++ map (λ x. (place, x)) (filter (is_partner_at candidate.now remote.now) (r ∷ []))) }
{
    if is_partner(candidate, candidate_at(remote, r)) {
        all.push((place, r))?;
    }
    Ok(())
}

fn push_own_row(
    all: &mut Vec<(usize, usize)>,
    candidate: &Candidate,
    place: usize,
    remote: &[Candidate],
) -> Result<(), AllocError>
    ensures { IfOk result (λ _. all.new.items ≡ all.old.items ++ local_combinations candidate.now place remote.now) }
{
    for r in 0..remote.len() {
        push_own_partner(all, candidate, remote, r, place)?;
    }
    Ok(())
}

/// The combinations of a local candidate that is to be stored at this index.
pub fn local_combinations(
    alloc: Global,
    candidate: &Candidate,
    place: usize,
    remote: &[Candidate],
) -> Result<Vec<(usize, usize)>, AllocError>
    ensures { IfOk result (λ all. all.items ≡ local_combinations candidate.now place remote.now) }
{
    let mut all = Vec::new(alloc);
    push_own_row(&mut all, candidate, place, remote)?;
    Ok(all)
}

// ---- the combinations of all candidates

fn push_live_row(
    all: &mut Vec<(usize, usize)>,
    local: &[Candidate],
    remote: &[Candidate],
    l: usize,
) -> Result<(), AllocError>
    requires { l < length local.now }
    ensures { IfOk result (λ _. all.new.items ≡ all.old.items ++ flat_map (live_row local.now remote.now) (filter (is_alive_at local.now) (l ∷ []))) }
{
    let candidate = candidate_at(local, l);
    if is_alive(candidate) {
        return push_own_row(all, candidate, l, remote);
    }
    Ok(())
}

/// The combinations of all live candidates, by local index first.
pub fn live_combinations(
    alloc: Global,
    local: &[Candidate],
    remote: &[Candidate],
) -> Result<Vec<(usize, usize)>, AllocError>
    ensures { IfOk result (λ all. all.items ≡ live_combinations local.now remote.now) }
{
    let mut all = Vec::new(alloc);
    for l in 0..local.len() {
        push_live_row(&mut all, local, remote, l)?;
    }
    Ok(all)
}

/// The number of combinations of the local candidate at this index.
fn count_live_row(local: &[Candidate], remote: &[Candidate], l: usize) -> usize
    requires { l < length local.now }
    ensures { result ≡ length (flat_map (live_row local.now remote.now) (filter (is_alive_at local.now) (l ∷ []))) }
{
    let candidate = candidate_at(local, l);
    if is_alive(candidate) {
        count_partners(candidate, remote)
    } else {
        0
    }
}

/// There is a number for each combination of live candidates. Does not allocate.
pub fn has_numbers_for_all(next_number: u64, local: &[Candidate], remote: &[Candidate]) -> bool
    ensures { IsTrue result ↔ HasNumbers next_number (length (live_combinations local.now remote.now)) }
{
    let mut left = u64::MAX - next_number;
    for l in 0..local.len() {
        let many = count_live_row(local, remote, l) as u64;
        if left < many {
            return false;
        }
        left -= many;
    }
    true
}
