//! Two agents that send on the same path by their priorities.

ghost use Rattle.is_theorems.specs.Matching.{SelectedPathsAreSeen, PairsMayMatch};
ghost use Rattle.is_theorems.specs.SamePath.{TopPathsMatch, DisputesSplit, RanksSettle, SelectedPairsMatch, SelectedPathsMatch, SelectedPathsAreReversed};

use crate::selecting::points_are_top;
use is_candidate::LocalPreference;
use is_pair::theorems::priorities_are_symmetric;
use is_proto::Sha1HmacProvider;

/// Two agents whose selected pairs are both eligible at both ends send on the same path, unless they dispute which of two is
/// better.
pub fn top_paths_match<H: Sha1HmacProvider, P: LocalPreference>()
    ensures { TopPathsMatch H P }
{}

/// Agents that dispute which of two paths is better may select different ones.
pub fn disputes_split<H: Sha1HmacProvider, P: LocalPreference>()
    ensures { DisputesSplit H P }
{}

/// Agents whose pairs have the same candidate priorities at both ends, with no ties, have no dispute.
pub fn ranks_settle<H: Sha1HmacProvider, P: LocalPreference>()
    ensures { RanksSettle H P }
{
    priorities_are_symmetric();
}

/// Agents whose pairs have the same candidate priorities at both ends, with no ties, send on the same path, if each has an eligible
/// counterpart of the pair that the other selected last.
pub fn selected_match<H: Sha1HmacProvider, P: LocalPreference>()
    ensures pairs { SelectedPairsMatch H P }
    ensures paths { SelectedPathsMatch H.mac P.answers }
    ensures reversed { SelectedPathsAreReversed H.mac P.answers }
{
    top_paths_match::<H, P>();
    ranks_settle::<H, P>();
    points_are_top::<H, P>();
}

/// Agents whose pairs have the same candidate priorities at both ends, with no ties, send on the same path through any NATs, if each
/// has an eligible pair on the path that the other selected last.
pub fn selected_are_seen<H: Sha1HmacProvider, P: LocalPreference>()
    ensures { SelectedPathsAreSeen H.mac P.answers }
{
    selected_match::<H, P>();
    points_are_top::<H, P>();
}

/// The preconditions of `selected_match` on two such agents can hold at once.
pub fn pairs_may_match<H: Sha1HmacProvider, P: LocalPreference>()
    ensures { PairsMayMatch H P }
{}
