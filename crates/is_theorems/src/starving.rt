//! Progress: each timeout is of use; starvation freedom, whatever the agent receives.

ghost use Rattle.is_theorems.specs.NotStarved.{PacketsAddFew, NoneIsStarved};
ghost use Rattle.is_theorems.specs.Progress.{TimeoutsAreOfUse, NoPairIsStarved};
ghost use Rattle.is_theorems.specs.Rounds.{CyclesAreOfUse};

use crate::reaching::pairs_are_reached;
use is_candidate::LocalPreference;
use is_proto::Sha1HmacProvider;

/// Every timeout of an agent that has a pair to check makes progress: a check is sent, a pair is removed, or there are fewer
/// early requests.
pub fn timeouts_are_of_use<H: Sha1HmacProvider, P: LocalPreference>()
    ensures { TimeoutsAreOfUse P H.mac }
{}

/// From a newly created agent: if `poll_timeout` is called while no packet is queued, a `handle_timeout` call at the time that it
/// returns, or later, makes progress: a check is sent, a pair is removed, or there are fewer early requests. Any polls may come
/// between.
pub fn cycles_are_of_use<H: Sha1HmacProvider, P: LocalPreference>()
    ensures { CyclesAreOfUse H.mac P.answers }
{}

/// Starvation freedom: a pair is checked, or removed after timeout, within as many polling cycles as there are pairs that are due
/// no later than it, or within twice as many if checks may go ahead of pairs that are due earlier (`Profile`).
pub fn no_pair_is_starved<H: Sha1HmacProvider, P: LocalPreference>()
    ensures { NoPairIsStarved P H.mac }
{}

/// From a newly created agent that is not lite: in a segment with k `handle_timeout` calls, in which the caller adds no candidate and
/// removes no pair, packets add at most k / m pairs, and one for each pair that exists afterwards. Here m is the number of
/// retransmits. With the profile `Modern` the stored pairs have consent at each of these calls.
pub fn packets_add_few<H: Sha1HmacProvider, P: LocalPreference>()
    ensures { PacketsAddFew H.mac P.answers }
{}

/// With limits on pairs and on what packets bring, n pairs at most, of which p are there when the rounds begin: a check is sent on the path
/// of a pair that is due in one of (2p + n - 1) * m / (m - 1) rounds, whatever the agent receives in them and received before, unless a
/// success response is received on the path in one of them. No candidate is added in the rounds. If checks may go ahead, it is
/// (4p + 2n - 1) * m / (m - 2) rounds. If s nominations may be sent at once (`nominations_ahead`), read n + s for n. With the profile `Modern`
/// the stored pairs have consent at each timeout of the rounds.
pub fn none_is_starved<H: Sha1HmacProvider, P: LocalPreference>()
    ensures { NoneIsStarved H.mac P.answers }
{
    pairs_are_reached::<H, P>();
}
