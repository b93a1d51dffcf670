//! Executions: their logs, segments, states, packets and queues.

ghost use Rattle.is_theorems.specs.Reporting.{QueuesTheorem};
ghost use Rattle.is_theorems.specs.Rounds.{PartsAreRuns};
ghost use Rattle.is_theorems.specs.Runs.{RunsAreSound, EntriesArePoints, RepliesAreAmong, UnacceptedChangeNothing};

use is_candidate::LocalPreference;
use is_proto::Sha1HmacProvider;

/// An execution from a newly created agent ends in a state that satisfies the invariant.
pub fn runs_are_sound<H: Sha1HmacProvider, P: LocalPreference>()
    ensures { RunsAreSound H.mac P.answers }
{}

/// Each entry of an execution's log is between two states, so what holds at each entry says something of each.
pub fn entries_are_points<H: Sha1HmacProvider, P: LocalPreference>()
    ensures { EntriesArePoints H.mac P.answers }
{}

/// Each segment of an execution's log leads from one state to another.
pub fn parts_are_runs<H: Sha1HmacProvider, P: LocalPreference>()
    ensures { PartsAreRuns H.mac P.answers }
{}

/// From a newly created agent, the responses are, as a multiset, among the accepted Binding requests.
pub fn replies_are_among<H: Sha1HmacProvider, P: LocalPreference>()
    ensures { RepliesAreAmong H.mac P.answers }
{}

/// Bytes that do not encode an accepted message change nothing and emit nothing. The call returns false or the parse fault.
pub fn unaccepted_change_nothing<H: Sha1HmacProvider, P: LocalPreference>()
    ensures { UnacceptedChangeNothing H.mac P.answers }
{}

/// Packets and events are polled in the order in which they were issued, and an ICE restart leaves only its own events. With `Modern`,
/// `recreate_candidate_pairs` removes each `NominatedSend` that waits; with `Original` it removes nothing.
pub fn queues_are_kept<H: Sha1HmacProvider, P: LocalPreference>()
    ensures { QueuesTheorem H.mac P.answers }
{}
