//! The theorems of each execution of the two-agent network model. Each is the contract of a function that does nothing.

ghost use Rattle.is.specs.WorldTheorems.{KeepsTheorem, SwitchesOnceTheorem, DiffersTheorem, TracedTheorem, DeliveriesTheorem, AcceptedNominationsTheorem, ConnectionsTheorem, ConnectsTheorem, InTimeTheorem, SelectionsInTimeTheorem, MeetingsTheorem, MirrorsTheorem, RenominationsTheorem, NumbersTheorem};

use is_candidate::LocalPreference;
use is_proto::Sha1HmacProvider;
use is_theorems::exchanging::{checks_ask, exchanges_succeed_later};
use is_theorems::reaching::{
    executions_check_from_due, executions_reach_from_due, executions_reach_served,
    executions_reach_unanswered, served_executions_reach,
};
use is_theorems::renominating::{
    greatest_are_last, last_accepted_nominations_are_last, nominated_are_last,
};
use is_theorems::roles::conflicts_resolve;
use is_theorems::selecting::{accepted_nominations_are_selected, successes_select};
use is_theorems::timing::{
    executions_reach_in_time, executions_select_in_time, served_reach_in_time,
};
use is_theorems::transitions::{fresh_is_sound, path_effect, role_effect};

/// Of two agents over any network, the one with the greater tie-breaker keeps its role.
pub(crate) fn greater_keeps<H: Sha1HmacProvider, P: LocalPreference>()
    ensures { KeepsTheorem H.mac P.answers }
{
    path_effect::<H, P>();
    role_effect::<H, P>();
    fresh_is_sound::<H, P>();
}

/// Of two agents over any network, the one with the smaller tie-breaker switches its role at most once.
pub(crate) fn lesser_switches_once<H: Sha1HmacProvider, P: LocalPreference>()
    ensures { SwitchesOnceTheorem H.mac P.answers }
{
    path_effect::<H, P>();
    role_effect::<H, P>();
    fresh_is_sound::<H, P>();
}

/// Once the agent with the smaller tie-breaker has met the other one's role, the roles are different.
pub(crate) fn roles_differ_once_met<H: Sha1HmacProvider, P: LocalPreference>()
    ensures { DiffersTheorem H.mac P.answers }
{
    path_effect::<H, P>();
    role_effect::<H, P>();
    fresh_is_sound::<H, P>();
}

/// If an agent is never lite, each path that it selects was answered by the other agent.
pub(crate) fn selected_are_traced<H: Sha1HmacProvider, P: LocalPreference>()
    ensures { TracedTheorem H.mac P.answers }
{
    path_effect::<H, P>();
    role_effect::<H, P>();
    fresh_is_sound::<H, P>();
}

/// A controlling agent sends a check on the path of one of its pairs, or selects a path, within as many rounds as there are pairs that
/// are due no later, or, if candidates are added in the rounds, 2n - 1 and one more for each pair that is added. If checks may go ahead, it
/// is twice as many, or 4n - 1 and two more. It is 2 * m after the first if a request was served on the pair, and fewer than m of them check
/// other pairs before it. If the check is answered while it is pending, the agent selects a path, unless an added candidate may remove the
/// pair.
pub(crate) fn delivered_rounds_select<H: Sha1HmacProvider, P: LocalPreference>()
    ensures { DeliveriesTheorem H.mac P.answers }
{
    path_effect::<H, P>();
    fresh_is_sound::<H, P>();
    exchanges_succeed_later::<H, P>();
    executions_check_from_due::<H, P>();
    executions_reach_unanswered::<H, P>();
    executions_reach_served::<H, P>();
    successes_select::<H, P>();
}

/// If the peer nominates a path to the controlled agent, and the agent's own check on it is answered, a path is selected by its
/// next `handle_timeout` call that serves no early request, and the last one is that of an eligible pair of greatest priority,
/// unless a pair of the path may have been removed.
pub(crate) fn accepted_nominations_select<H: Sha1HmacProvider, P: LocalPreference>()
    ensures { AcceptedNominationsTheorem H.mac P.answers }
{
    path_effect::<H, P>();
    fresh_is_sound::<H, P>();
    exchanges_succeed_later::<H, P>();
    checks_ask::<H, P>();
    accepted_nominations_are_selected::<H, P>();
}

/// If each of two agents, one of them controlling, has rounds that suffice for a pair on the path, and the network delivers in
/// them, the controlled agent selects a path, too.
pub(crate) fn both_connect<H: Sha1HmacProvider, P: LocalPreference>()
    ensures { ConnectionsTheorem H.mac P.answers }
{
    path_effect::<H, P>();
    fresh_is_sound::<H, P>();
    exchanges_succeed_later::<H, P>();
    checks_ask::<H, P>();
    accepted_nominations_are_selected::<H, P>();
    executions_reach_from_due::<H, P>();
    served_executions_reach::<H, P>();
}

/// If the caller of one of two agents is punctual, and k rounds after the first suffice for a pair on the path, it checks the path at most
/// k times one pacing interval and the caller's delay after the first round begins, unless the path is answered earlier.
pub(crate) fn checks_come_in_time<H: Sha1HmacProvider, P: LocalPreference>()
    ensures { InTimeTheorem H.mac P.answers }
{
    executions_reach_in_time::<H, P>();
    served_reach_in_time::<H, P>();
}

/// If the caller of a controlling agent without a valid pair is punctual, and k rounds after the first suffice for a pair whose check is
/// answered within a round trip, the agent selects a path in a round that begins at most k times one pacing interval and the caller's
/// delay, and the round trip, after the first. It may add candidates, and the other agent may begin in its role.
pub(crate) fn selections_come_in_time<H: Sha1HmacProvider, P: LocalPreference>()
    ensures { SelectionsInTimeTheorem H.mac P.answers }
{
    path_effect::<H, P>();
    fresh_is_sound::<H, P>();
    exchanges_succeed_later::<H, P>();
    successes_select::<H, P>();
    executions_select_in_time::<H, P>();
}

/// In whatever roles two new agents begin, if the network delivers on one path of each: the controlling one selects a path once its
/// check is answered, and the controlled one by its next `handle_timeout` call after a check of each was delivered.
pub(crate) fn both_select<H: Sha1HmacProvider, P: LocalPreference>()
    ensures { ConnectsTheorem H.mac P.answers }
{
    path_effect::<H, P>();
    role_effect::<H, P>();
    fresh_is_sound::<H, P>();
    conflicts_resolve::<H, P>();
    checks_ask::<H, P>();
    exchanges_succeed_later::<H, P>();
    accepted_nominations_are_selected::<H, P>();
    executions_check_from_due::<H, P>();
    executions_reach_from_due::<H, P>();
    served_executions_reach::<H, P>();
    executions_reach_unanswered::<H, P>();
    executions_reach_served::<H, P>();
    successes_select::<H, P>();
}

/// One delivered check, and its 487 if it gets one, makes the roles different.
pub(crate) fn roles_meet<H: Sha1HmacProvider, P: LocalPreference>()
    ensures { MeetingsTheorem H.mac P.answers }
{
    path_effect::<H, P>();
    role_effect::<H, P>();
    fresh_is_sound::<H, P>();
    conflicts_resolve::<H, P>();
}

/// If all pairs of one agent stay on a path, and all pairs of the other on the reverse path, any two paths that they select are
/// the reverse of each other.
pub(crate) fn lone_paths_mirror<H: Sha1HmacProvider, P: LocalPreference>()
    ensures { MirrorsTheorem H.mac P.answers }
{
    path_effect::<H, P>();
    fresh_is_sound::<H, P>();
}

/// With renomination at both agents: if the controlling one nominates a path last, and the controlled one's own check on it is
/// answered, both selected this path last, unless a pair of the path may have been removed.
pub(crate) fn one_path_is_selected<H: Sha1HmacProvider, P: LocalPreference>()
    ensures { RenominationsTheorem H.mac P.answers }
{
    path_effect::<H, P>();
    fresh_is_sound::<H, P>();
    checks_ask::<H, P>();
    exchanges_succeed_later::<H, P>();
    nominated_are_last::<H, P>();
    last_accepted_nominations_are_last::<H, P>();
}

/// With numbered nominations at both agents: if the controlling one nominates a path, and a pair on it was nominated by the greatest number
/// at the controlled one, both selected this path last.
pub(crate) fn leading_path_is_selected<H: Sha1HmacProvider, P: LocalPreference>()
    ensures { NumbersTheorem H.mac P.answers }
{
    path_effect::<H, P>();
    fresh_is_sound::<H, P>();
    checks_ask::<H, P>();
    nominated_are_last::<H, P>();
    last_accepted_nominations_are_last::<H, P>();
    greatest_are_last::<H, P>();
}
