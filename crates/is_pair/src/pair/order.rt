//! Which pairs are equal, and which come first.

ghost use Rattle.std.specs.Prelude.{◌==◌};
ghost use Rattle.std.proofs.Common.{rules};
ghost use Rattle.std.specs.Cmp.{partial_order_from_own_ties};
ghost use Rattle.std.specs.Cmp.Rules.{comparing};
ghost use Rattle.std.specs.Ordering.{as_partial_cmp};
ghost use Rattle.is_pair.specs.Order.{are_equal_pairs, pair_cmp};

use super::CandidatePair;
use std::cmp::Ordering;

/// Two pairs are equal if both candidate indices and the priority are equal.
impl PartialEq for CandidatePair {
    ghost eq = { are_equal_pairs };

    ghost laws = { Prim.search (comparing, rules) };

    fn eq(&self, other: &CandidatePair) -> bool {
        self.prio == other.prio
            && self.local_idx == other.local_idx
            && self.remote_idx == other.remote_idx
    }
}

impl Eq for CandidatePair {
    ghost laws = { Prim.search (comparing, rules) };
}

/// The greater priority comes first, then the smaller local index, then the smaller remote index.
impl Ord for CandidatePair {
    ghost cmp = { pair_cmp };

    ghost total = { Prim.search (comparing, rules) };

    ghost matches_partial_cmp = { Prim.search (comparing, rules) };

    ghost matches_eq = { Prim.search (comparing, rules) };

    fn cmp(&self, other: &CandidatePair) -> Ordering {
        other
            .prio
            .cmp(&self.prio)
            .then(self.local_idx.cmp(&other.local_idx))
            .then(self.remote_idx.cmp(&other.remote_idx))
    }
}

impl PartialOrd for CandidatePair {
    ghost partial_cmp = { as_partial_cmp pair_cmp };

    ghost laws = { partial_order_from_own_ties (Prim.search (comparing, rules)) (Prim.search (comparing, rules)) };

    fn partial_cmp(&self, other: &CandidatePair) -> Option<Ordering> {
        Some(self.cmp(other))
    }
}
