//! Changes of pairs.

use crate::pair::CandidatePair;

/// A change of pairs, and the function by which contracts state it.
pub trait PairChange {
    ghost use Rattle.std.specs.Prelude.{◌≡◌};
    ghost use Rattle.is_pair.specs.Pairs.{PairRecord};

    ghost makes: { Self → PairRecord → PairRecord };

    /// Changes the pair.
    fn change(&self, pair: &mut CandidatePair)
        ensures { pair.new ≡ makes self.now pair.old };
}
