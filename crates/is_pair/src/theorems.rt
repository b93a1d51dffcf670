//! Lemmas: what holds of all pairs. Each lemma is the contract of a function that does nothing; code whose proof needs
//! a lemma calls its function.

ghost use Rattle.std.specs.Prelude.{◌≡◌, ◌↔◌, ◌<◌, ◌^◌, ℕ, IsTrue, true, false};
ghost use Rattle.std.specs.Cmp.{IsTotalOrder};
ghost use Rattle.std.specs.Ordering.{is_eq};
ghost use Rattle.is_pair.specs.Order.{pair_cmp};
ghost use Rattle.is_pair.specs.Pairs.{PairRecord};
ghost use Rattle.is_pair.specs.Priorities.{combined, pair_priority};
ghost use Rattle.is_pair.specs.Turns.{CheckedIsLater, FewerAreAhead};

use crate::pair::{CandidatePair, CheckState, NominationState, PairId};

/// Both agents compute the same priority.
pub fn priorities_are_symmetric()
    ensures { (remote local : ℕ) → pair_priority true remote local ≡ pair_priority false local remote }
{}

/// If candidate priorities are below 2^31, as RFC 8445, section 5.1.2, has them, a pair's priority determines the
/// priorities of both its candidates.
pub fn priorities_determine_both_candidates()
    ensures { (g d g2 d2 : ℕ) → g < 2 ^ 31 → d < 2 ^ 31 → g2 < 2 ^ 31 → d2 < 2 ^ 31
        → combined g d ≡ combined g2 d2 → (g ≡ g2) × (d ≡ d2) }
{}

/// Two pairs are equal exactly if both candidate indices and the priority are equal, which is also when they compare as
/// equal; and the order is total.
pub fn pairs_are_ordered()
    ensures equal { (a b : PairRecord) → IsTrue (⟦<CandidatePair as PartialEq>⟧.eq a b)
        ↔ ((a.priority ≡ b.priority) × (a.local ≡ b.local) × (a.remote ≡ b.remote)) }
    ensures agrees { (a b : PairRecord) → ⟦<CandidatePair as PartialEq>⟧.eq a b
        ≡ is_eq (⟦<CandidatePair as Ord>⟧.cmp a b) }
    ensures by_rule { (a b : PairRecord) → ⟦<CandidatePair as Ord>⟧.cmp a b ≡ pair_cmp a b }
    ensures total { IsTotalOrder ⟦<CandidatePair as Ord>⟧.cmp }
{}

/// Two pair numbers are equal (`==`) exactly if they are the same, and so are two states.
pub fn states_are_compared()
    ensures of_numbers { (a b : PairId) → IsTrue (⟦<PairId as PartialEq>⟧.eq a b) ↔ (a ≡ b) }
    ensures of_checks { (a b : CheckState) → IsTrue (⟦<CheckState as PartialEq>⟧.eq a b) ↔ (a ≡ b) }
    ensures of_nomination { (a b : NominationState) → IsTrue (⟦<NominationState as PartialEq>⟧.eq a b) ↔ (a ≡ b) }
{}

/// If the timing keeps checks apart (`IsPaced`), the next due time of a checked pair is after the time of that check,
/// whenever it is computed from then on.
pub fn checked_is_later()
    ensures { CheckedIsLater }
{}

/// So if a pair that is due by some time is checked, fewer pairs are due by that time.
pub fn fewer_are_ahead()
    ensures { FewerAreAhead }
{}
