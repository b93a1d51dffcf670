//! The slots by which a combination finds the pairs that may be redundant, when there are many.
//!
//! Pairs of the same path have the same slot, so a combination whose slot is empty has no redundant pair. The slots are only a shortcut:
//! without memory for them, and with few combinations, all pairs are searched.

ghost use Rattle.std.specs.Prelude.{◌≡◌, ◌<◌, ◌+◌, ◌^◌, ◌⊎◌, ℕ, true, length};
ghost use Rattle.is_proto.specs.Times.{MAX};
ghost use Rattle.std.specs.Option.{option_copied};
ghost use Rattle.is_pair.specs.Checklists.{multiset_of};
ghost use Rattle.is_proto.specs.Lists.{Has};
ghost use Rattle.is_pair.specs.Pairs.{PairRecord};
ghost use Rattle.is_pair.specs.Multiset.{rises, IsGreatest};
ghost use Rattle.is_rules.specs.Kept.{are_placed};
ghost use Rattle.is_rules.specs.Forming.{is_redundant};
ghost use Rattle.is_rules.specs.FormingView.{sides_view};
ghost use Rattle.is_rules.specs.Slots.{address_number, slot_of, IsHeld, AreHeld};

use crate::forming::{is_redundant, top_redundant};
use crate::places::{address_at, base_at};
use crate::sides::Sides;
use is_pair::checklist::Checklist;
use is_pair::pair::CandidatePair;
use std::alloc::Global;
use std::net::SocketAddr;

/// With fewer combinations there are no slots.
const FEW: usize = 8;

/// So many slots for each pair and combination: few paths share one.
const SPARE: usize = 4;

/// What a slot holds if there may be several pairs.
const SEVERAL: u64 = u64::MAX;

/// The number of an address.
pub(crate) fn address_number(address: SocketAddr) -> u64
    ensures number { result ≡ address_number address }
    ensures within { result < 2 ^ 48 }
{
    match address {
        SocketAddr::V4(v4) => u64::from(v4.ip().to_bits()) * 0x1_0000 + u64::from(v4.port()),
        SocketAddr::V6(v6) => {
            let segments = v6.ip().segments();
            let high = u64::from(segments[3]) * 0x1_0000 + u64::from(segments[7]);
            high * 0x1_0000 + u64::from(v6.port())
        }
    }
}

/// The slot of a combination.
fn slot_of(sides: Sides<'_>, many: usize, at: (usize, usize)) -> usize
    requires some { 0 < many }
    requires local { at.0 < length sides.local.now }
    requires remote { at.1 < length sides.remote.now }
    ensures slot { result ≡ slot_of (sides_view sides.entry) many at }
    ensures within { result < many }
{
    let base = address_number(base_at(sides.local, at.0));
    let address = address_number(address_at(sides.remote, at.1));
    ((base * 65521 + address) % many as u64) as usize
}

/// What a slot holds after one more pair.
fn held_after(was: u64, number: u64) -> u64
    ensures first { was ≡ 0 → (result ≡ number + 1) ⊎ (result ≡ MAX) }
    ensures more { 0 < was → result ≡ MAX }
{
    if was == 0 {
        number.saturating_add(1)
    } else {
        SEVERAL
    }
}

/// The slot holds one more pair.
fn hold(held: &mut [u64], slot: usize, number: u64)
    requires within { slot < length held.old }
    ensures here { IsHeld held.new slot number }
    ensures others { (other n : ℕ) → IsHeld held.old other n → IsHeld held.new other n }
    ensures len { length held.new ≡ length held.old }
{
    held[slot] = held_after(held[slot], number);
}

/// The slot of the combination holds one more pair, if there are slots.
pub(crate) fn hold_at(held: &mut [u64], sides: Sides<'_>, at: (usize, usize), number: u64)
    requires local { at.0 < length sides.local.now }
    requires remote { at.1 < length sides.remote.now }
    ensures here { 0 < length held.new → IsHeld held.new (slot_of (sides_view sides.entry) (length held.new) at) number }
    ensures others { (other n : ℕ) → IsHeld held.old other n → IsHeld held.new other n }
    ensures len { length held.new ≡ length held.old }
{
    if held.is_empty() {
        return;
    }
    let slot = slot_of(sides, held.len(), at);
    hold(held, slot, number);
}

/// The slots hold all pairs.
fn hold_all(held: &mut [u64], sides: Sides<'_>, pairs: &Checklist)
    requires placed { are_placed sides.local.now sides.remote.now (multiset_of pairs.now) ≡ true }
    ensures { AreHeld (sides_view sides.entry) held.new (multiset_of pairs.now) }
{
    for pair in pairs.as_slice() {
        hold_at(
            held,
            sides,
            (pair.local_idx(), pair.remote_idx()),
            pair.id().0,
        );
    }
}

/// The slots, empty: none if so many combinations are few, or without memory.
fn empty_slots(alloc: Global, pairs: usize, combinations: usize) -> Vec<u64> {
    let mut held = Vec::new(alloc);
    if combinations < FEW {
        return held;
    }
    // an odd number, so that addresses that differ by powers of two have different slots
    let many = pairs.saturating_add(combinations).saturating_mul(SPARE) | 1;
    if held.resize(many, 0).is_err() {
        held.clear();
    }
    held
}

/// The slots of the pairs, for so many combinations more.
pub(crate) fn slots_of(
    alloc: Global,
    sides: Sides<'_>,
    pairs: &Checklist,
    combinations: usize,
) -> Vec<u64>
    requires placed { are_placed sides.local.now sides.remote.now (multiset_of pairs.now) ≡ true }
    ensures { AreHeld (sides_view sides.entry) result.items (multiset_of pairs.now) }
{
    let mut held = empty_slots(alloc, pairs.len(), combinations);
    hold_all(&mut held, sides, pairs);
    held
}

/// The redundant pair, if no other than the one with the number can be.
fn redundant_numbered<'a>(
    pairs: &'a Checklist,
    sides: Sides<'_>,
    at: (usize, usize),
    number: u64,
) -> Option<&'a CandidatePair>
    requires rising { rises (multiset_of pairs.now) ≡ true }
    requires only { (q : PairRecord) → Has (multiset_of pairs.now) q → is_redundant (sides_view sides) at q ≡ true → q.number ≡ number }
    requires placed { are_placed sides.local.now sides.remote.now (multiset_of pairs.now) ≡ true }
    requires local { at.0 < length sides.local.now }
    requires remote { at.1 < length sides.remote.now }
    ensures { IsGreatest (is_redundant (sides_view sides.entry) at) (multiset_of pairs.now) (option_copied result) }
{
    match pairs.get(number) {
        None => None,
        Some(pair) => {
            if is_redundant(sides, at, pair) {
                Some(pair)
            } else {
                None
            }
        }
    }
}

/// The redundant pair of greatest priority.
pub(crate) fn find_redundant<'a>(
    held: &[u64],
    pairs: &'a Checklist,
    sides: Sides<'_>,
    at: (usize, usize),
) -> Option<&'a CandidatePair>
    requires held { AreHeld (sides_view sides) held.now (multiset_of pairs.now) }
    requires placed { are_placed sides.local.now sides.remote.now (multiset_of pairs.now) ≡ true }
    requires local { at.0 < length sides.local.now }
    requires remote { at.1 < length sides.remote.now }
    ensures { IsGreatest (is_redundant (sides_view sides.entry) at) (multiset_of pairs.now) (option_copied result) }
{
    if held.is_empty() {
        return top_redundant(pairs, sides, at);
    }
    pairs.numbers_rise();
    let next = held[slot_of(sides, held.len(), at)];
    if next == 0 {
        return None;
    }
    if next < SEVERAL {
        return redundant_numbered(pairs, sides, at, next - 1);
    }
    top_redundant(pairs, sides, at)
}
