//! How soon a pair is checked, also if candidates are added meanwhile, or if it is due at the first timeout. The numbers of rounds are
//! those if checks may not go ahead of pairs that are due earlier (`Profile`). If they may, 2n - 1 becomes 4n - 1, with two more for each
//! pair that is added, and n becomes 2n, since every second check may be of another pair. A single pair still needs one round.
//!
//! If nominations have numbers, each path that is selected is checked at once. So in either role each call of the rounds that selects a path
//! counts like a pair that is added, and so does a path that was selected before them and not checked since (`nominations_ahead`).
//!
//! With the profile `Modern` a pair that is valid when the rounds begin also has to keep consent in them: at each of their timeouts its last
//! check that got a response before them is recent enough (`IsLasting`). Otherwise it may be removed before its check.

ghost use Rattle.is_theorems.specs.BoundedRounds.{LimitsReach};
ghost use Rattle.is_theorems.specs.FirstChecks.{ExecutionsCheckFromDue};
ghost use Rattle.is_theorems.specs.FirstTimeouts.{OpenExecutionsReach, PairsAreReachedFromDue, ExecutionsReachFromDue, ExecutionsReachUnanswered};
ghost use Rattle.is_theorems.specs.KindsInTurn.{KindsAreReachedInTurn};
ghost use Rattle.is_theorems.specs.OwnKind.{PairsAreReachedInKind};
ghost use Rattle.is_theorems.specs.Reached.{PairsAreReached};
ghost use Rattle.is_theorems.specs.ReachedExecutions.{ExecutionsReach, ExecutionsCheck};
ghost use Rattle.is_theorems.specs.ServedSoon.{ExecutionsReachServed, ServedAreCheckedSoon, ServedExecutionsReach};
ghost use Rattle.is_theorems.specs.UrgentFirst.{UrgentPairsAreReached};

use crate::selecting::successes_select;
use is_candidate::LocalPreference;
use is_proto::Sha1HmacProvider;

/// From a newly created agent: one of n pairs is due. Then a check is sent on its path in one of 2n - 1 rounds, and one more for
/// each pair that is added in them, unless a success response is received on the path in one of them, or a candidate that is added in
/// them may remove a pair of the path. Any candidates may be added in the rounds. This holds in either role,
/// whatever the agent receives and nominates.
pub fn pairs_are_reached<H: Sha1HmacProvider, P: LocalPreference>()
    ensures { PairsAreReached H.mac P.answers }
{}

/// With limits on pairs and on what packets bring, n pairs at most: a check is sent on the path of a pair that is due in one of
/// 2n - 1 rounds, and one more for each pair that is added in them, whatever the agent receives and received before.
pub fn limits_reach<H: Sha1HmacProvider, P: LocalPreference>()
    ensures { LimitsReach H.mac P.answers }
{
    pairs_are_reached::<H, P>();
}

/// From a newly created agent, which may share its random source: one of n pairs is due. Only packets and polls come between the
/// `handle_timeout` calls of the rounds. Then a check is sent on its path in one of 2n - 1 rounds, and one more for each pair that is
/// added in them. The exception is a success response on the path in one of them.
pub fn executions_reach<H: Sha1HmacProvider, P: LocalPreference>()
    ensures { ExecutionsReach H.mac P.answers }
{}

/// A controlling agent, which may share its random source, has no valid pair, and n pairs are due. Then a check is sent on the path
/// of each of them in one of n rounds, unless a path is selected in one of them.
pub fn executions_check<H: Sha1HmacProvider, P: LocalPreference>()
    ensures { ExecutionsCheck H.mac P.answers }
{}

/// From a newly created agent, which may share its random source: one of n pairs is due. Then a check is sent on its path in one of
/// 2n - 1 rounds, and one more for each pair that is added in them, unless a success response is received on the path in one of
/// them, or a candidate that is added in them may remove a pair of the path.
pub fn open_executions_reach<H: Sha1HmacProvider, P: LocalPreference>()
    ensures { OpenExecutionsReach H.mac P.answers }
{}

/// From a newly created agent: a pair is due by a `handle_timeout` call. Then a check is sent on its path in this call's round, or in
/// one of 2m - 1 later ones, and one more for each pair that is added in these. If the pair is the only one, the call's round
/// suffices. The exceptions are that a success response is received on the path in one of these rounds, or that a candidate that is
/// added in them may remove a pair of the path. Here m is the number of pairs when the second call comes.
pub fn reached_from_due<H: Sha1HmacProvider, P: LocalPreference>()
    ensures { PairsAreReachedFromDue H.mac P.answers }
{}

/// From a newly created agent, which may share its random source: a pair is due by a `handle_timeout` call. Then a check is sent on its
/// path in the rounds of `reached_from_due`, with its exceptions. If the pair is due before the first call, 2n - 1 rounds suffice, the
/// first included, and one more for each pair that is added in them. Here n is the number of pairs when the first call comes.
pub fn executions_reach_from_due<H: Sha1HmacProvider, P: LocalPreference>()
    ensures { ExecutionsReachFromDue H.mac P.answers }
{}

/// A controlling agent, which may share its random source, has no valid pair, and one is due by a `handle_timeout` call. Then a check is
/// sent on its path in the rounds of `executions_reach_from_due`, also if its nominations have numbers and renomination is on, unless a
/// success response is accepted in them. The exceptions of that theorem remain.
pub fn executions_reach_unanswered<H: Sha1HmacProvider, P: LocalPreference>()
    ensures { ExecutionsReachUnanswered H.mac P.answers }
{}

/// A controlling agent, which may share its random source, has no valid pair, and one is due by a `handle_timeout` call. Then a check
/// is sent on its path in one of n rounds, unless a path is selected in one of them. Here n is the number of pairs that are due by
/// then, if the call is later. If it is not, n is 1 for a single pair, and otherwise one more than the number of pairs that are due
/// by then when the second call comes.
pub fn executions_check_from_due<H: Sha1HmacProvider, P: LocalPreference>()
    ensures { ExecutionsCheckFromDue H.mac P.answers }
{
    executions_check::<H, P>();
    successes_select::<H, P>();
}

/// From a newly created agent: kinds of pairs take turns in some rounds, and pairs have k kinds. Then in 2 * k * m rounds a check is sent
/// on the path of a pair that is due, or m of the rounds check another pair that goes before all kinds, or one of the pair's kind that goes
/// before it, or a path is selected in them. This holds whatever the agent receives and adds in the rounds, as long as the
/// pair keeps its kind; the exceptions are a success response on the path, and a candidate that may remove a pair of the path.
pub fn reached_in_turn<H: Sha1HmacProvider, P: LocalPreference>()
    ensures { KindsAreReachedInTurn H.mac P.answers }
{}

/// From a newly created agent: kinds of pairs take turns in some rounds and urgent pairs go first, and pairs have k kinds. When the rounds
/// begin, n other pairs exist that have the kind of a pair that is due. Then in 2 * k * (n + m) rounds a check is sent on its path, or m of
/// the rounds check another pair that goes before all kinds, or a path is selected in them. So each of the n pairs goes before it
/// only once, and pairs that are formed in the rounds never do. The exceptions are those of `reached_in_turn`.
pub fn reached_in_kind<H: Sha1HmacProvider, P: LocalPreference>()
    ensures { PairsAreReachedInKind H.mac P.answers }
{}

/// From a newly created agent with the profile `Modern`: a pair that is due is urgent in some rounds, since a request was served on it
/// and it is not valid yet. Then in 2 * m rounds a check is sent on its path, or m of the rounds check the selected pair or urgent pairs whose
/// turn comes before, however many pairs there are. So one that comes first is checked in two rounds. This holds in either role, whatever
/// the agent receives and adds in the rounds, as long as no `handle_timeout` selects a path; the exceptions are a success response on
/// the path, and a candidate that may remove a pair of the path.
pub fn urgent_are_reached<H: Sha1HmacProvider, P: LocalPreference>()
    ensures { UrgentPairsAreReached H.mac P.answers }
{}

/// From a newly created agent with the profile `Modern`: a request was served on a pair that is due, and no pair on its path is valid.
/// Then in 2 * m rounds a check is sent on the path, or m of the rounds check the selected pair or urgent pairs whose turn comes before,
/// however many pairs there are. This holds in either role, whatever the agent receives and adds in the rounds, as long as no
/// `handle_timeout` of them selects a path; the exceptions are a success response on the path, and a candidate that may remove a pair of it.
pub fn served_are_checked_soon<H: Sha1HmacProvider, P: LocalPreference>()
    ensures { ServedAreCheckedSoon H.mac P.answers }
{}

/// From a newly created agent with the profile `Modern`, which may share its random source: a request was served on a pair that is due,
/// and no pair on its path is valid. Then in 2 * m rounds a check is sent on the path, or m of the rounds check other pairs before it,
/// with the preconditions and exceptions of `served_are_checked_soon`.
pub fn served_executions_reach<H: Sha1HmacProvider, P: LocalPreference>()
    ensures { ServedExecutionsReach H.mac P.answers }
{
    served_are_checked_soon::<H, P>();
}

/// A controlling agent with the profile `Modern`, which may share its random source, has no valid pair. A request was served on a pair
/// that is due by the first of its rounds, and 2 * m rounds follow, fewer than m of which check other pairs before it. Then its path is
/// reached, unless a success response is accepted in the rounds.
pub fn executions_reach_served<H: Sha1HmacProvider, P: LocalPreference>()
    ensures { ExecutionsReachServed H.mac P.answers }
{
    served_are_checked_soon::<H, P>();
}
