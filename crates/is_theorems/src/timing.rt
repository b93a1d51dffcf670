//! How soon a pair is checked in nanoseconds, and a path selected, if the caller is punctual. The numbers of rounds are those of
//! `reaching`, if checks may not go ahead.

ghost use Rattle.is_theorems.specs.InTime.{ExecutionsCheckInTime, ExecutionsReachInTime, NextComesInTime, RoundsComeInTime};
ghost use Rattle.is_theorems.specs.SelectedInTime.{ExecutionsSelectInTime};
ghost use Rattle.is_theorems.specs.ServedSoon.{ServedExecutionsReachInTime};
ghost use Rattle.is_theorems.specs.Pacing.{PacingIsSet};
ghost use Rattle.is_theorems.specs.TimedRounds.{PairsAreReachedInTime};
ghost use Rattle.is_theorems.specs.TimedSelections.{PathsAreSelectedInTime};
ghost use Rattle.is_theorems.specs.TimedSteadyRounds.{NoneIsStarvedInTime};

use crate::reaching::{
    executions_check_from_due, executions_reach_from_due, executions_reach_served,
    executions_reach_unanswered, served_executions_reach,
};
use crate::selecting::successes_select;
use is_candidate::LocalPreference;
use is_proto::Sha1HmacProvider;

/// Whatever is called and received, only `set_timing_advance` changes the pacing interval.
pub fn pacing_is_set<H: Sha1HmacProvider, P: LocalPreference>()
    ensures { PacingIsSet H.mac P.answers }
{}

/// From a newly created agent, which may share its random source: a pair is due by a `handle_timeout` call, and the caller is punctual:
/// it makes the next one at most δ after a time that `poll_timeout` returned between them. Then this comes at most one pacing interval
/// and δ after the first, unless this one sends a check on the pair's path, a success response is received on the path between them,
/// or a candidate that is added between them may remove a pair of the path.
pub fn next_comes_in_time<H: Sha1HmacProvider, P: LocalPreference>()
    ensures { NextComesInTime H.mac P.answers }
{}

/// From a newly created agent, which may share its random source: a pair is due by the first of the rounds of a punctual caller. Then the
/// kth one after it begins at most k times one pacing interval and δ later, or the pair's path is reached.
pub fn rounds_come_in_time<H: Sha1HmacProvider, P: LocalPreference>()
    ensures { RoundsComeInTime H.mac P.answers }
{}

/// If k rounds after the first suffice as in `executions_reach_from_due`, a check is sent on the pair's path at most k times one pacing
/// interval and δ after the first `handle_timeout` call, with the exceptions of that theorem. So k is 0 for a single pair, and 2m - 1 for m
/// pairs when the second call comes, and one more for each pair that is added after it.
pub fn executions_reach_in_time<H: Sha1HmacProvider, P: LocalPreference>()
    ensures { ExecutionsReachInTime H.mac P.answers }
{
    executions_reach_from_due::<H, P>();
}

/// In the rounds of a log: let k rounds after the first suffice for a pair that is due by it. Then the pair's path is reached at most k
/// times one pacing interval and δ after the first `handle_timeout` call, as in `executions_reach_in_time`.
pub fn reached_in_time<H: Sha1HmacProvider, P: LocalPreference>()
    ensures { PairsAreReachedInTime H.mac P.answers }
{
    executions_reach_in_time::<H, P>();
}

/// Starvation freedom in time: with limits on pairs and on what packets bring, and a caller at most δ late. If k rounds after the first are
/// enough for a pair that is due by it (`AreEnoughLater`), a check is sent on the pair's path at most k times one pacing interval and δ after
/// the first `handle_timeout` call, whatever the agent receives, unless a success response is received on the path in one of the rounds. So
/// it is once k of them came, or one begins later than that.
pub fn none_is_starved_in_time<H: Sha1HmacProvider, P: LocalPreference>()
    ensures { NoneIsStarvedInTime H.mac P.answers }
{
    reached_in_time::<H, P>();
    rounds_come_in_time::<H, P>();
}

/// With a caller at most δ late: a request was served on a pair that is due before the first of 2 * m rounds, in which no `handle_timeout`
/// selects a path. Then its path is reached by the time of the last one, or m of them check other pairs before it, as in
/// `served_are_checked_soon`.
pub fn served_reach_in_time<H: Sha1HmacProvider, P: LocalPreference>()
    ensures { ServedExecutionsReachInTime H.mac P.answers }
{
    served_executions_reach::<H, P>();
    rounds_come_in_time::<H, P>();
}

/// A controlling agent, which may share its random source, has no valid pair, and a pair is due. Let k rounds after the first one suffice
/// for it as in `executions_check_from_due`: for n due pairs n - 1, or n if it is due at the first call and not before it. With a punctual
/// caller a check is sent on its path by the time of the last of them, unless a path is selected in one of the rounds.
pub fn executions_check_in_time<H: Sha1HmacProvider, P: LocalPreference>()
    ensures { ExecutionsCheckInTime H.mac P.answers }
{
    executions_check_from_due::<H, P>();
    successes_select::<H, P>();
}

/// A controlling agent, which may share its random source, has no valid pair, and one is due. A success response is accepted in a round
/// that begins at most one round trip after a check on this pair's path; it may come several rounds after its check. Then a path is
/// selected in a round that begins at most k times one pacing interval and δ, and one round trip, after the first. Here k is that of
/// `executions_check_in_time`. If candidates are added between the `handle_timeout` calls, it is that of `executions_reach_unanswered`, or
/// 2 * m as in `executions_reach_served` if a request was served on the pair. The exception is that such a candidate may remove a pair of
/// the path.
pub fn executions_select_in_time<H: Sha1HmacProvider, P: LocalPreference>()
    ensures { ExecutionsSelectInTime H.mac P.answers }
{
    executions_check_from_due::<H, P>();
    executions_reach_unanswered::<H, P>();
    executions_reach_served::<H, P>();
    successes_select::<H, P>();
}

/// In the rounds of a log a controlling agent without a valid pair selects a path in time, as in `executions_select_in_time`.
pub fn selected_in_time<H: Sha1HmacProvider, P: LocalPreference>()
    ensures { PathsAreSelectedInTime H.mac P.answers }
{
    executions_select_in_time::<H, P>();
}
