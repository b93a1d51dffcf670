//! Executions: calls on an agent, with a log of their results.
ghost use Rattle.is_agent.specs.View.{record_of};
ghost use Rattle.is_theorems.specs.Logs.{NeverLite, replies, requests};
ghost use Rattle.is_theorems.specs.Bounds.{ListsAreBounded, PairsAreBounded, PairsAreFew};
ghost use Rattle.is_rules.specs.Owed.{AreAmong};
ghost use Rattle.is_theorems.specs.Runs.{IsFresh, PathsAreAnswered, PathsAreNominatedByPeer, LastPathsAreTop, SuccessesMakeValid, RequestsNominate};
ghost use Rattle.is_theorems.specs.GivingWay.{LeftAreReplaced};
ghost use Rattle.is_theorems.specs.Progress.{SuccessesSelectPaths, NominationsSelect};
ghost use Rattle.is_theorems.specs.ConsentLogs.{PathsAreAlive, PathsHaveConsent};
ghost use Rattle.is_theorems.specs.Rounds.{LoggedTimeoutsAreOfUse, PartsPersist};
ghost use Rattle.is_theorems.specs.DueRounds.{DueRoundsSelect};
ghost use Rattle.is_theorems.specs.TimedRounds.{RoundsReachInTime};
ghost use Rattle.is_theorems.specs.TimedSelections.{RoundsSelectInTime};
ghost use Rattle.is_theorems.specs.TimedSteadyRounds.{SteadyRoundsReachInTime};
ghost use Rattle.is_theorems.specs.OpenRounds.{OpenRoundsSelect};
ghost use Rattle.is.specs.Log.{IsRunLog, log_of, EntriesPersist};
ghost use Rattle.is.specs.Accepted.{PacketsAreHandled};
ghost use Rattle.is.specs.Queues.{OthersIssueNone, QueuesAreKept};
ghost use Rattle.is.specs.Floods.{QueuesStayShort, DiscoveriesAreFew};
ghost use Rattle.is.specs.Headline.{StaysPlain, Headline};
ghost use Rattle.is.specs.CheckBounds.{AskedPairsStayFew, ChecksStayPaced, SecondsStayShort, SilentPairsStayFew};
ghost use Rattle.is.specs.Reported.{QueuedAreSelected, PolledAreSelected, PolledAreAnswered, PolledAreNominatedByPeer, SettingsAreThoseSet};

use crate::calls::{AgentCall, Entry};
use crate::steps::step;
use is_agent::Agent;
use is_candidate::LocalPreference;
use is_proto::Sha1HmacProvider;
use is_theorems::consent::{selected_are_alive, selected_have_consent};
use is_theorems::counting::{checks_are_paced, silent_pairs_get_few};
use is_theorems::flooding::{discoveries_stay_few, limits_bound, limits_pairs, queues_are_short};
use is_theorems::logs::{entries_are_points, parts_are_runs, queues_are_kept, replies_are_among};
use is_theorems::rounds_to_select::{due_rounds_select, open_rounds_select};
use is_theorems::selecting::{
    answers_select, asked_are_nominated, paths_are_replaced, points_are_top, selected_are_answered,
    selected_are_nominated_by_peer, takers_are_valid, timeouts_select, waiting_are_answered,
    waiting_are_nominated_by_peer, waiting_are_selected,
};
use is_theorems::starving::cycles_are_of_use;
use is_theorems::timing::{none_is_starved_in_time, reached_in_time, selected_in_time};
use is_theorems::transitions::{events_are_selected, settings_are_set};
use rand_core::Rng;

/// The results of the calls of an execution.
#[derive(Debug, PartialEq, Eq, Drop)]
pub struct RunLog {
    /// One entry for each call, in the order of the calls.
    pub entries: Vec<Entry>,
    /// The allocation of the entries failed: no call was made, and there is no entry.
    pub stopped: bool,
}

/// Memory for all entries is allocated before the first call.
fn run_calls<H: Sha1HmacProvider + Drop, P: LocalPreference, R: Rng>(
    agent: &mut Agent<H, P>,
    calls: Vec<AgentCall<P>>,
    rng: &mut R,
) -> RunLog
    ensures { IsRunLog H.mac P.answers (record_of agent.old) (R.stream rng.old) calls.items result (record_of agent.new) (R.stream rng.new) }
{
    let alloc = *calls.allocator();
    let Ok(mut entries) = Vec::with_capacity(alloc, calls.len()) else {
        return RunLog {
            entries: Vec::new(alloc),
            stopped: true,
        };
    };
    for call in calls {
        let entry = step(agent, entries.len(), call, rng);
        entries.push_reserved(entry);
    }
    RunLog {
        entries,
        stopped: false,
    }
}

/// Makes the calls in order, and logs the result of each. Packets are passed as raw bytes. A call that fails has its entry like
/// any other, and the execution goes on.
///
/// Memory for all entries is allocated first. If that fails nothing is done, and the log says so.
pub fn run<H: Sha1HmacProvider + Drop, P: LocalPreference, R: Rng>(
    agent: &mut Agent<H, P>,
    calls: Vec<AgentCall<P>>,
    rng: &mut R,
) -> RunLog
    // The log is an execution of the agent's transitions: one entry for each call, in order, or nothing was done.
    ensures log { IsRunLog H.mac P.answers (record_of agent.old) (R.stream rng.old) calls.items result (record_of agent.new) (R.stream rng.new) }

    // Each entry is between two states of the execution, to which the clauses below refer.
    ensures entries { EntriesPersist H.mac P.answers (record_of agent.old) (R.stream rng.old) (log_of calls.items result) }

    // The headline, of an agent that is never lite, and keeps the profile `Original` without renomination (`LeavesPlain`). Bytes that it does
    // not accept change nothing. Each path that it selects got an authentic success response to a check that was sent since the last clear.
    // After each accepted success response, and each `handle_timeout` call that served no early request, if a pair is eligible, the path that
    // was selected last is that of one with the greatest stored priority. And while the agent was controlled since the last clear, the peer
    // nominated each selected path by USE-CANDIDATE. The next four clauses say the same of any agent.
    ensures headline { IsFresh (record_of agent.old) → StaysPlain (log_of calls.items result)
        → Headline H.mac P.answers (record_of agent.old) (R.stream rng.old) (log_of calls.items result) }

    // Bytes that the agent does not accept, on the path on which they were received, change nothing, issue nothing and select no
    // path.
    ensures unaccepted { PacketsAreHandled H.mac P.answers (record_of agent.old) (R.stream rng.old) (log_of calls.items result) }

    // Never lite: each selected path got an authentic success response, on its reverse path, to a check that was sent since the
    // last clear.
    ensures answered { IsFresh (record_of agent.old) → NeverLite (log_of calls.items result)
        → PathsAreAnswered H.mac P.answers (record_of agent.old) (R.stream rng.old) (log_of calls.items result) }

    // Never lite: each path that was selected while the agent was controlled since the last clear was nominated by an accepted
    // request: by USE-CANDIDATE, or by a NOMINATION above 0 if nominations have numbers.
    ensures peer_nominated { IsFresh (record_of agent.old) → NeverLite (log_of calls.items result)
        → PathsAreNominatedByPeer H.mac P.answers (record_of agent.old) (R.stream rng.old) (log_of calls.items result) }

    // Nomination points are accepted success responses, and `handle_timeout` calls that served no early request. After each of
    // them, if a pair is eligible, the path that was selected last since the last clear is that of an eligible pair with the
    // greatest stored priority. A controlled agent with renomination selects the pair that it follows instead (`IsChosen`).
    ensures nomination { IsFresh (record_of agent.old)
        → LastPathsAreTop H.mac P.answers (record_of agent.old) (R.stream rng.old) (log_of calls.items result) }

    // What the caller sees of this: each path in a `NominatedSend` that `poll_event` returned was selected by a call since the last ICE
    // restart, with `Modern` since the last clear, and so all that the clauses above say of selected paths holds of it. No event reports
    // another path.
    ensures polled { IsFresh (record_of agent.old)
        → PolledAreSelected H.mac P.answers (record_of agent.old) (R.stream rng.old) (log_of calls.items result) }

    // Never lite: each path in a `NominatedSend` that was polled had got an authentic success response when it was selected, as in
    // `answered`.
    ensures polled_answered { IsFresh (record_of agent.old) → NeverLite (log_of calls.items result)
        → PolledAreAnswered H.mac P.answers (record_of agent.old) (R.stream rng.old) (log_of calls.items result) }

    // Never lite: if the agent was controlled since the last ICE restart, each path in a `NominatedSend` that was polled was nominated by
    // the peer, as in `peer_nominated`.
    ensures polled_nominated { IsFresh (record_of agent.old) → NeverLite (log_of calls.items result)
        → PolledAreNominatedByPeer H.mac P.answers (record_of agent.old) (R.stream rng.old) (log_of calls.items result) }

    // A controlling agent has selected a path after each accepted success response, and an agent with a valid and nominated
    // pair after each `handle_timeout` call that served no early request.
    ensures successes { IsFresh (record_of agent.old)
        → SuccessesSelectPaths H.mac P.answers (record_of agent.old) (R.stream rng.old) (log_of calls.items result) }
    ensures nominations { IsFresh (record_of agent.old)
        → NominationsSelect H.mac P.answers (record_of agent.old) (R.stream rng.old) (log_of calls.items result) }

    // Consent: a full agent is Connected or Completed after a `handle_timeout` call that served no early request. Then the path that was
    // selected last since the last clear is that of an eligible pair that has consent at the time of the call, whatever profile is set.
    ensures connected { IsFresh (record_of agent.old)
        → PathsHaveConsent H.mac P.answers (record_of agent.old) (R.stream rng.old) (log_of calls.items result) }

    // As in `connected`, never lite before the call, and with the profile `Modern`. Then a check of the path's pair got a response, and
    // the last such check was sent less than the timeout before the call. Or, if consent is not strict, a check of the peer arrived less
    // than 15 s before it.
    ensures connected_answered { IsFresh (record_of agent.old)
        → PathsAreAlive H.mac P.answers (record_of agent.old) (R.stream rng.old) (log_of calls.items result) }

    // With the profile `Modern` a silent path is left only for another one: if a `handle_timeout` call that served no early request removed
    // a pair that did not expire, another one that may be selected is there, which had a response since the pair fell silent.
    ensures replaced { IsFresh (record_of agent.old)
        → LeftAreReplaced H.mac P.answers (record_of agent.old) (R.stream rng.old) (log_of calls.items result) }

    // Each segment of the log leads from one state to another, to which the two next clauses refer.
    ensures parts { PartsPersist H.mac P.answers (record_of agent.old) (R.stream rng.old) (log_of calls.items result) }

    // Progress: a `handle_timeout` call at the time that `poll_timeout` returned, or later, makes progress: a check is sent, a
    // pair is removed, or there are fewer early requests. Precondition: no packet was queued when `poll_timeout` was called, only
    // polls came after it, and the agent is not lite, knows the peer and has a pair.
    ensures of_use { IsFresh (record_of agent.old)
        → LoggedTimeoutsAreOfUse H.mac P.answers (record_of agent.old) (R.stream rng.old) (log_of calls.items result) }

    // Progress: n pairs are due by an earlier time at a `handle_timeout` call. In each of the n rounds from this call on in which
    // a check is sent on the path of one of these pairs, an accepted success response is received. Then a controlling agent
    // selects a path in one of the rounds. This holds whatever else is received, and whether or not `poll_timeout` is called.
    // Candidates may be added between the `handle_timeout` calls, if there are 2n - 1 rounds for n pairs in all, and one more for
    // each pair that is added, unless an added candidate may remove a pair of the path. If checks may go ahead, it is 2n rounds, or
    // 4n - 1 and two more for each added pair.
    ensures rounds { IsFresh (record_of agent.old)
        → OpenRoundsSelect H.mac P.answers (record_of agent.old) (R.stream rng.old) (log_of calls.items result) }

    // Progress from the first timeout on: as in `rounds`, for a pair that is due by the first `handle_timeout` call of the rounds, maybe
    // not before it. For a single pair one round suffices. Otherwise 2m - 1 rounds after it do, for m pairs when the second call comes,
    // and one more for each pair that is added in these. If checks may go ahead, it is 4m - 1, and two more.
    ensures due_rounds { IsFresh (record_of agent.old)
        → DueRoundsSelect H.mac P.answers (record_of agent.old) (R.stream rng.old) (log_of calls.items result) }

    // In time: the caller makes each `handle_timeout` call after the first at most δ after a time that `poll_timeout` returned since the
    // one before. If k rounds after the first suffice for a pair that is due by it, a check is sent on the pair's path at most k pacing
    // intervals and k times δ after the first, unless a success response is received on the path in the rounds, or a candidate that
    // is added in them may remove a pair of the path. k is as in `due_rounds`, and one or two more for each nomination that may be
    // sent at once. This holds in either role, whatever else is received.
    ensures in_time { IsFresh (record_of agent.old)
        → RoundsReachInTime H.mac P.answers (record_of agent.old) (R.stream rng.old) (log_of calls.items result) }

    // A path in time: a controlling agent without a valid pair selects its first path in a round that begins at most k pacing intervals, k
    // times δ and one round trip after the first, with the same caller, unless a candidate that is added in the rounds may remove a pair of
    // the path. Precondition: k rounds after the first suffice for the check of a pair that is due by it, and each check on the pair's path
    // is answered within a round trip. If only packets and polls come in the rounds, k is as in `rounds`, otherwise as in `due_rounds`. With
    // the profile `Modern` k is 2 * m, however many pairs there are, if a request was served on the pair, and fewer than m of the k rounds
    // check the selected pair or urgent pairs before it.
    ensures selects_in_time { IsFresh (record_of agent.old)
        → RoundsSelectInTime H.mac P.answers (record_of agent.old) (R.stream rng.old) (log_of calls.items result) }

    // Starvation freedom in time: with limits on pairs and on what packets bring, and the same caller, a check is sent on the path of a pair
    // that is due before the first round at most k - 1 pacing intervals and k - 1 times δ after it, once a round begins later than that, or
    // k came. The exception is a success response that is received on the path in the rounds. No candidate is added in them. For p pairs
    // when they begin, at most n later, m retransmits and s nominations that may be sent at once, k is (2p + n + s - 1) * m / (m - 1). If
    // checks may go ahead, it is (4p + 2n + 2s - 1) * m / (m - 2). No packet in the rounds makes it greater, if s is 0. If the pair is due
    // by the first round and maybe not before it, read n for p, and k for k - 1.
    ensures none_starved_in_time { IsFresh (record_of agent.old)
        → SteadyRoundsReachInTime H.mac P.answers (record_of agent.old) (R.stream rng.old) (log_of calls.items result) }

    // After an accepted success response a pair with its pending transaction, on its path, is valid.
    ensures takers { IsFresh (record_of agent.old)
        → SuccessesMakeValid H.mac P.answers (record_of agent.old) (R.stream rng.old) (log_of calls.items result) }

    // If a request that nominates its pair gets a success response, and the agent is controlled afterwards, a pair on the response's
    // path is nominated. Requests nominate by USE-CANDIDATE, or if nominations have numbers, by NOMINATION.
    ensures nominated { IsFresh (record_of agent.old)
        → RequestsNominate H.mac P.answers (record_of agent.old) (R.stream rng.old) (log_of calls.items result) }

    // A received packet and a `handle_timeout` call issue at most one packet each, and no other call issues any.
    ensures issues { OthersIssueNone H.mac P.answers (record_of agent.old) (R.stream rng.old) (log_of calls.items result) }

    // The responses are, as a multiset, among the accepted Binding requests, each with its ID and on its reverse path.
    ensures replies { IsFresh (record_of agent.old) → AreAmong (replies (log_of calls.items result)) (requests (log_of calls.items result)) }

    // With a limit on what packets bring, whenever a packet or a timeout comes: after each call there are at most as many local
    // candidates as the limit and the caller's `add_local_candidate` calls together, as many remote ones as the limit and its
    // `add_remote_candidate` calls, and as many remembered sources as the limit, whatever was received.
    ensures bounded { IsFresh (record_of agent.old)
        → ListsAreBounded H.mac P.answers (record_of agent.old) (R.stream rng.old) (log_of calls.items result) }

    // After each call there are at most as many pairs as the greatest limit on pairs that was in force when a candidate was added or
    // the pairs were re-created, plus the local candidates times the remote ones, whatever was received.
    ensures few { IsFresh (record_of agent.old)
        → PairsAreFew H.mac P.answers (record_of agent.old) (R.stream rng.old) (log_of calls.items result) }

    // With both limits, a bound on the pairs that depends on the caller's settings and `add_*` calls only, whatever was received.
    ensures limited { IsFresh (record_of agent.old)
        → PairsAreBounded H.mac P.answers (record_of agent.old) (R.stream rng.old) (log_of calls.items result) }

    // After each call, whatever was received: at most as many packets wait to be polled as packets were accepted and
    // `handle_timeout` was called since `poll_transmit` returned None or the agent was restarted. Events wait likewise since
    // `poll_event` returned None, `DiscoveredRecv` aside: at most two for each of these packets, five for each of these calls, and
    // those of a clear, and with `Modern` two for each candidate that was added or invalidated. At most 100 early requests wait.
    ensures waiting { IsFresh (record_of agent.old)
        → QueuesStayShort H.mac P.answers (record_of agent.old) (R.stream rng.old) (log_of calls.items result) }

    // With a limit on what packets bring, whenever a packet or a timeout comes: after each call at most as many `DiscoveredRecv`
    // events wait, whatever was received, and however seldom events are polled.
    ensures discovered { IsFresh (record_of agent.old)
        → DiscoveriesAreFew H.mac P.answers (record_of agent.old) (R.stream rng.old) (log_of calls.items result) }

    // Up to each call: in any span of time in which `handle_timeout` was called no sooner than the time that `poll_timeout` returned, at most as
    // many checks were sent as pacing intervals begin in it, whatever was received. With the default interval that is 20 in a second, and 49
    // early on.
    ensures paced { IsFresh (record_of agent.old)
        → ChecksStayPaced H.mac P.answers (record_of agent.old) (R.stream rng.old) (log_of calls.items result) }
    ensures seconds { IsFresh (record_of agent.old)
        → SecondsStayShort H.mac P.answers (record_of agent.old) (R.stream rng.old) (log_of calls.items result) }

    // After each call a pair from which nothing arrived got at most n checks, for timing settings after whose nth check none follows: 9 with
    // those of `Original`, 18 with those of `Modern`. Precondition: they stay, and time does not run back.
    ensures silent { IsFresh (record_of agent.old)
        → SilentPairsStayFew H.mac P.answers (record_of agent.old) (R.stream rng.old) (log_of calls.items result) }

    // Along each part of the log, a pair whose first check followed a request gets at most n checks while no further request and no
    // response arrives on it: 11 with the settings of `Modern`. So an address to which a captured request is replayed gets few.
    // Precondition: as in `silent`.
    ensures asked { IsFresh (record_of agent.old)
        → AskedPairsStayFew H.mac P.answers (record_of agent.old) (R.stream rng.old) (log_of calls.items result) }

    // Packets and events are polled in the order in which they were issued, and an ICE restart empties both queues before its own
    // events. With `Modern`, `recreate_candidate_pairs` removes each `NominatedSend` that waits; with `Original` it removes nothing.
    ensures order { QueuesAreKept H.mac P.answers (record_of agent.old) (R.stream rng.old) (log_of calls.items result) }

    // A `NominatedSend` that waits after a call waited before it, or reports a path that the call selects.
    ensures events { QueuedAreSelected H.mac P.answers (record_of agent.old) (R.stream rng.old) (log_of calls.items result) }

    // The settings are those that the calls set last, whatever was received.
    ensures settings { SettingsAreThoseSet H.mac P.answers (record_of agent.old) (R.stream rng.old) (log_of calls.items result) }
{
    // the lemmas on which the clauses after the first one rest
    entries_are_points::<H, P>();
    selected_are_answered::<H, P>();
    selected_are_nominated_by_peer::<H, P>();
    points_are_top::<H, P>();
    limits_bound::<H, P>();
    limits_pairs::<H, P>();
    queues_are_short::<H, P>();
    discoveries_stay_few::<H, P>();
    checks_are_paced::<H, P>();
    silent_pairs_get_few::<H, P>();
    answers_select::<H, P>();
    timeouts_select::<H, P>();
    paths_are_replaced::<H, P>();
    selected_have_consent::<H, P>();
    selected_are_alive::<H, P>();
    parts_are_runs::<H, P>();
    cycles_are_of_use::<H, P>();
    open_rounds_select::<H, P>();
    due_rounds_select::<H, P>();
    reached_in_time::<H, P>();
    selected_in_time::<H, P>();
    none_is_starved_in_time::<H, P>();
    takers_are_valid::<H, P>();
    asked_are_nominated::<H, P>();
    replies_are_among::<H, P>();
    queues_are_kept::<H, P>();
    waiting_are_selected::<H, P>();
    waiting_are_answered::<H, P>();
    waiting_are_nominated_by_peer::<H, P>();
    events_are_selected::<H, P>();
    settings_are_set::<H, P>();
    run_calls(agent, calls, rng)
}
