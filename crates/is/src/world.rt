//! The two-agent network model: two agents and the in-flight packets between them. The caller decides which packets arrive, when,
//! how often and from where.

ghost use Rattle.is_agent.specs.View.{made};
ghost use Rattle.is.specs.World.{sources, world_of, MakesMember, MakesWorld, made_world, logged, IsWorldLog};
ghost use Rattle.is.specs.WorldRoles.{GreaterKeeps, LesserSwitchesOnce, RolesDifferOnceMet};
ghost use Rattle.is.specs.Headline.{RolesHeadline};
ghost use Rattle.is.specs.Traces.{SelectedAreTraced};
ghost use Rattle.is.specs.Selections.{DeliveredRoundsSelect};
ghost use Rattle.is.specs.Connections.{BothConnect};
ghost use Rattle.is.specs.AcceptedNominations.{AcceptedNominationsSelect};
ghost use Rattle.is.specs.Connects.{BothSelect};
ghost use Rattle.is.specs.Punctual.{ChecksComeInTime};
ghost use Rattle.is.specs.PunctualSelections.{SelectionsComeInTime};
ghost use Rattle.is.specs.Meetings.{RolesMeet};
ghost use Rattle.is.specs.Mirrors.{LonePathsMirror};
ghost use Rattle.is.specs.Renominations.{LeadingPathIsSelected, OnePathIsSelected};
ghost use Rattle.is.specs.Floods.{BothAreBounded, BothHaveFewPairs, BothAreShort, BothDiscoverFew};
ghost use Rattle.is.specs.Reported.{BothReportSelected, BothReportAnswered, BothKeepSettings};

use crate::world_events::{InFlight, TwoAgentsEvent, WorldLog};
use crate::world_theorems::{
    accepted_nominations_select, both_connect, both_select, checks_come_in_time,
    delivered_rounds_select, greater_keeps, leading_path_is_selected, lesser_switches_once,
    lone_paths_mirror, one_path_is_selected, roles_differ_once_met, roles_meet,
    selected_are_traced, selections_come_in_time,
};
use is_agent::{Agent, IceCreds};
use is_candidate::LocalPreference;
use is_proto::{IceError, Sha1HmacProvider};
use is_theorems::flooding::{
    discoveries_stay_few, lists_stay_bounded, pairs_stay_few, queues_are_short,
};
use is_theorems::selecting::{waiting_are_answered, waiting_are_selected};
use is_theorems::transitions::settings_are_set;
use rand_core::Rng;
use std::alloc::Global;

/// Two agents whose local preferences may come from boxed objects.
pub type World<H> = TwoAgents<H, Box<dyn LocalPreference>>;

/// Two agents that sign with `H`, and their in-flight packets.
#[derive(Drop)]
pub struct TwoAgents<H, P> {
    pub(crate) a: Agent<H, P>,
    pub(crate) b: Agent<H, P>,
    pub(crate) network: Vec<InFlight>,
}

/// The parameters of an agent of the network model.
#[derive(Drop)]
pub struct AgentSpec<H> {
    /// The local credentials of the agent.
    pub creds: IceCreds,
    /// The HMAC provider with which it signs.
    pub provider: H,
    /// The tie-breaker of role conflicts (RFC 8445, section 7.3.1.1).
    pub tie_breaker: u64,
    /// Whether the agent starts as the controlling one.
    pub controlling: bool,
}

/// A newly created agent, in its role.
fn member<H: Sha1HmacProvider + Drop, P: LocalPreference>(
    alloc: Global,
    spec: AgentSpec<H>,
) -> Result<Agent<H, P>, IceError>
    ensures { MakesMember spec (made result) }
{
    let mut agent = Agent::with_hmac(alloc, spec.creds, spec.provider, spec.tie_breaker)?;
    agent.set_controlling(spec.controlling);
    Ok(agent)
}

impl<H: Sha1HmacProvider + Drop, P: LocalPreference> TwoAgents<H, P> {
    /// Two newly created agents, without in-flight packets.
    ///
    /// Fails with `CredentialsTooLong` if the username fragment of one is too long.
    pub fn new(alloc: Global, a: AgentSpec<H>, b: AgentSpec<H>) -> Result<Self, IceError>
        ensures { MakesWorld a b (made_world result) }
    {
        let a = member(alloc, a)?;
        let b = member(alloc, b)?;
        Ok(TwoAgents {
            a,
            b,
            network: Vec::new(alloc),
        })
    }

    /// Memory for all entries is allocated before the first event.
    fn run_events<R: Rng, S: Rng>(
        &mut self,
        events: Vec<TwoAgentsEvent<P>>,
        rng_a: &mut R,
        rng_b: &mut S,
    ) -> WorldLog
        ensures { IsWorldLog H.mac P.answers (world_of self.old) (sources (R.stream rng_a.old) (S.stream rng_b.old)) events.items result
            (world_of self.new) (sources (R.stream rng_a.new) (S.stream rng_b.new)) }
    {
        let alloc = *events.allocator();
        let Ok(mut entries) = Vec::with_capacity(alloc, events.len()) else {
            return WorldLog {
                entries: Vec::new(alloc),
                stopped: true,
            };
        };
        for event in events {
            let entry = self.happen(entries.len(), event, rng_a, rng_b);
            entries.push_reserved(entry);
        }
        WorldLog {
            entries,
            stopped: false,
        }
    }

    /// Lets the events happen in order, and logs the result of each. The guarantees on roles and causal chains hold for two
    /// agents as `new` creates them.
    ///
    /// Memory for all entries is allocated first. If that fails nothing is done, and the log says so.
    pub fn run<R: Rng, S: Rng>(
        &mut self,
        events: Vec<TwoAgentsEvent<P>>,
        rng_a: &mut R,
        rng_b: &mut S,
    ) -> WorldLog
        // The log is an execution of both agents' transitions: one entry for each event, in order, or nothing was done.
        ensures log { IsWorldLog H.mac P.answers (world_of self.old) (sources (R.stream rng_a.old) (S.stream rng_b.old)) events.items result
            (world_of self.new) (sources (R.stream rng_a.new) (S.stream rng_b.new)) }

        // The headline, of two agents that keep the profile `Original` and have different tie-breakers. The agent with the greater one keeps
        // its role, the role of the other one changes in at most one event, and once this one has met the role of the first (`Meets`), the
        // roles are different. The next three clauses say the same of any two agents of which none is a lite one with the profile `Modern`.
        ensures headline { RolesHeadline H.mac P.answers (world_of self.old) (sources (R.stream rng_a.old) (S.stream rng_b.old)) (logged events.items result.entries.items) }

        // The agent with the greater tie-breaker keeps its role.
        ensures keeps { GreaterKeeps (world_of self.old) (logged events.items result.entries.items) }

        // The other agent switches its role at most once.
        ensures switches_role { LesserSwitchesOnce (world_of self.old) (logged events.items result.entries.items) }

        // Once this other agent has met the role of the first (`Meets`), the roles are different.
        ensures differ { RolesDifferOnceMet H.mac P.answers (world_of self.old) (sources (R.stream rng_a.old) (S.stream rng_b.old)) (logged events.items result.entries.items) }

        // Whatever roles they start with: if a check of either is delivered, at any time and through any NATs, and so is its 487 if
        // it gets one, the roles are different from then on. Precondition: the 487 comes while the check is pending, and none of
        // its sender's calls may have removed the pair.
        ensures meet { RolesMeet H.mac P.answers (world_of self.old) (sources (R.stream rng_a.old) (S.stream rng_b.old)) (logged events.items result.entries.items) }

        // If an agent is never lite, each path that it selected was answered by the other agent, and the response was received on
        // its reverse path. The other one may be lite, with any profile; nothing is required of roles and tie-breakers.
        ensures traced { SelectedAreTraced (world_of self.old) (logged events.items result.entries.items) result.entries.items }

        // What the callers see of this: after each event, each `NominatedSend` that waits in a side reports a path that a call of the side
        // selected since its last ICE restart, with `Modern` since its last clear. If the side was never lite, the path had got an
        // authentic success response by then.
        ensures events { BothReportSelected H.mac P.answers (world_of self.old) (sources (R.stream rng_a.old) (S.stream rng_b.old)) (logged events.items result.entries.items) }
        ensures events_answered { BothReportAnswered H.mac P.answers (world_of self.old) (sources (R.stream rng_a.old) (S.stream rng_b.old)) (logged events.items result.entries.items) }

        // Progress of the controlling agent: n of its pairs are due by an earlier time at a `handle_timeout` call. If it sends a
        // check on the path of one of these pairs in the n rounds from this call on, the network delivers such a check, and its
        // success response at any time while the check is pending, also through NATs. Both agents know each other, their roles
        // differ, and the check reaches the other agent. Then the controlling agent selects a path by then, whatever else happens.
        // Candidates may be added in the rounds, if there are 2n - 1 for n pairs in all, and one more for each pair that is added,
        // unless an added candidate may remove a pair of the path. If checks may go ahead, it is 2n rounds, or 4n - 1 and two more. With the
        // profile `Modern` it is 2 * m after the first, however many pairs there are, if a request was served on the pair, and fewer
        // than m of them check the selected pair or urgent pairs before it.
        ensures rounds { DeliveredRoundsSelect H.mac P.answers (world_of self.old) (sources (R.stream rng_a.old) (S.stream rng_b.old)) (logged events.items result.entries.items) }

        // Progress of the controlled agent: the controlling agent checks a path whose pairs it nominated, and the check arrives on
        // the reverse of a path that the controlled agent checks. The network delivers the first check, the second, and its success
        // response, at any time while the second is pending, and through any NATs. Then the controlled agent selected a path by its
        // next `handle_timeout` call that serves no early request, and the path that it selected last is that of an eligible pair of
        // greatest priority. Precondition: only one of its pairs uses the path's addresses, and none of its calls may have removed
        // such a pair.
        ensures nomination_accepted { AcceptedNominationsSelect H.mac P.answers (world_of self.old) (sources (R.stream rng_a.old) (S.stream rng_b.old)) (logged events.items result.entries.items) }

        // Progress of both: the controlling agent has a nominated pair, and the controlled agent a pair. Each has rounds that
        // suffice: 2n - 1 if it has n pairs, and one more for each pair that is added, or 4n - 1 and two more if checks may go ahead. If
        // nominations have numbers, each path that it selects in them, or selected before and has not checked since, counts like a pair
        // that is added. It is 2 * m rounds, however many pairs there are, if a request was served on the pair, and fewer than m of them
        // check other pairs before it. If checks are sent on the two paths in these rounds, one of each agent is delivered, and so is the success
        // response to the controlled agent. Then the controlled agent selected a path by its next `handle_timeout` call, as in
        // `nomination_accepted`.
        ensures connect { BothConnect H.mac P.answers (world_of self.old) (sources (R.stream rng_a.old) (S.stream rng_b.old)) (logged events.items result.entries.items) }

        // In nanoseconds: a side has rounds as in `connect`, k after the first, and its caller is punctual: it calls `handle_timeout` at most
        // `delay` after a time that `poll_timeout` returned. Then a check is sent on the path at most k times `pace + delay` after the
        // first round begins, for a pacing interval of at most `pace`, unless the path is answered earlier.
        ensures in_time { ChecksComeInTime H.mac P.answers (world_of self.old) (sources (R.stream rng_a.old) (S.stream rng_b.old)) (logged events.items result.entries.items) }

        // In nanoseconds: no pair of the controlling agent is valid, and it has rounds that suffice as in `rounds`, k after the first, with a
        // punctual caller as in `in_time`. The other agent may begin in the same role. If each check on the path of the pair is answered in
        // a round that begins at most `trip` later, it selects a path in a round that begins at most k times `pace + delay`, and `trip`,
        // after the first, unless a candidate that it adds may remove a pair of the path.
        ensures selects_in_time { SelectionsComeInTime H.mac P.answers (world_of self.old) (sources (R.stream rng_a.old) (S.stream rng_b.old)) (logged events.items result.entries.items) }

        // Together, for two new agents with different tie-breakers, in whatever roles they begin: one check of either is delivered,
        // and its 487 if it gets one. If then the network delivers on one path of each, in both directions and while checks are
        // pending, the controlling agent selects a path once a check is answered, as in `rounds`, if it selected none before. If its
        // pairs on this path are nominated from then on, the controlled agent selects one by its next `handle_timeout` call after its
        // rounds, as in `connect`, or after a check of each was delivered with its response, in however few rounds.
        ensures both { BothSelect H.mac P.answers (world_of self.old) (sources (R.stream rng_a.old) (S.stream rng_b.old)) (logged events.items result.entries.items) }

        // On the same path: while neither agent is lite, all pairs of one are on a path, and all pairs of the other on the reverse
        // path, any two paths that they selected are the reverse of each other.
        ensures mirror { LonePathsMirror H.mac P.answers (world_of self.old) (sources (R.stream rng_a.old) (S.stream rng_b.old)) (logged events.items result.entries.items) }

        // On the same path, with several paths and through any NATs: both agents have renomination, and the controlling agent nominates a
        // path last. This check is delivered, no nomination of another path comes after it, and the controlled agent's own check on the
        // path is answered. Then each selected this path last, as it sees it, from the controlled agent's next `handle_timeout` call
        // on that serves no early request. Preconditions on its pairs of the path are those of `nomination_accepted`.
        ensures one_path { OnePathIsSelected H.mac P.answers (world_of self.old) (sources (R.stream rng_a.old) (S.stream rng_b.old)) (logged events.items result.entries.items) }

        // On the same path, with numbered nominations: the controlling agent nominates a path, and this check is delivered. At the end the
        // controlled agent goes by numbers, and a pair on the path is eligible and was nominated by a greater number than all others. Then
        // each selected this path last, whatever other nominations are delivered, late or repeatedly.
        ensures by_number { LeadingPathIsSelected H.mac P.answers (world_of self.old) (sources (R.stream rng_a.old) (S.stream rng_b.old)) (logged events.items result.entries.items) }

        // Each agent stores what `run` bounds, whatever the network delivers. With a limit on what packets bring, whenever it receives
        // one or a timeout comes: at most as many local candidates as the limit and its own `add_local_candidate` calls together, as
        // many remote ones as the limit and its `add_remote_candidate` calls, and as many sources as the limit.
        ensures bounded { BothAreBounded H.mac P.answers (world_of self.old) (sources (R.stream rng_a.old) (S.stream rng_b.old)) (logged events.items result.entries.items) }

        // Each agent stores at most as many pairs as the greatest limit on pairs that was in force when it added a candidate, plus its
        // local candidates times its remote ones.
        ensures few { BothHaveFewPairs H.mac P.answers (world_of self.old) (sources (R.stream rng_a.old) (S.stream rng_b.old)) (logged events.items result.entries.items) }

        // Packets, events and early requests wait in each agent as `run` says, and with a limit on what packets bring at most as many
        // `DiscoveredRecv` events.
        ensures waiting { BothAreShort H.mac P.answers (world_of self.old) (sources (R.stream rng_a.old) (S.stream rng_b.old)) (logged events.items result.entries.items) }
        ensures discovered { BothDiscoverFew H.mac P.answers (world_of self.old) (sources (R.stream rng_a.old) (S.stream rng_b.old)) (logged events.items result.entries.items) }

        // The settings of each agent are those that its calls set last.
        ensures settings { BothKeepSettings H.mac P.answers (world_of self.old) (sources (R.stream rng_a.old) (S.stream rng_b.old)) (logged events.items result.entries.items) }
    {
        greater_keeps::<H, P>();
        lesser_switches_once::<H, P>();
        roles_differ_once_met::<H, P>();
        selected_are_traced::<H, P>();
        delivered_rounds_select::<H, P>();
        accepted_nominations_select::<H, P>();
        both_connect::<H, P>();
        checks_come_in_time::<H, P>();
        selections_come_in_time::<H, P>();
        both_select::<H, P>();
        lone_paths_mirror::<H, P>();
        one_path_is_selected::<H, P>();
        leading_path_is_selected::<H, P>();
        roles_meet::<H, P>();
        lists_stay_bounded::<H, P>();
        pairs_stay_few::<H, P>();
        queues_are_short::<H, P>();
        discoveries_stay_few::<H, P>();
        waiting_are_selected::<H, P>();
        waiting_are_answered::<H, P>();
        settings_are_set::<H, P>();
        self.run_events(events, rng_a, rng_b)
    }
}
