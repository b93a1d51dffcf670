//! Which path is selected, and after what.

ghost use Rattle.is_theorems.specs.Asked.{AskedAreSelected};
ghost use Rattle.is_theorems.specs.AskedExecutions.{SuccessesSelect, AcceptedNominationsAreSelected};
ghost use Rattle.is_theorems.specs.AtOnce.{RequestsSelect, NominationsSelectAtOnce};
ghost use Rattle.is_theorems.specs.AtOnceExecutions.{CompletedNominationsAreSelected};
ghost use Rattle.is_theorems.specs.GivingWay.{PathsAreReplaced};
ghost use Rattle.is_theorems.specs.Polled.{WaitingAreSelected, WaitingAreAnswered, WaitingAreNominatedByPeer, WaitingAreNominatedSince, SelectionsAreNominatedSince};
ghost use Rattle.is_theorems.specs.Progress.{AnswersSelect, TimeoutsSelect};
ghost use Rattle.is_theorems.specs.Runs.{SelectedAreAnswered, SelectedAreNominatedByPeer, PointsAreTop, TakersAreValid, AskedAreNominated};
ghost use Rattle.is_theorems.specs.Shared.{SelectionsAreAnswered, SelectionsAreNominatedByPeer, SelectionsAreTop};

use is_candidate::LocalPreference;
use is_proto::Sha1HmacProvider;

/// From a newly created agent that was never lite, whatever random words it got: each path that a call selects got an authentic success
/// response to a check that was sent since the last clear.
pub fn selections_are_answered<H: Sha1HmacProvider, P: LocalPreference>()
    ensures { SelectionsAreAnswered H.mac P.answers }
{}

/// Each path that a call selects while the agent was controlled since the last clear was nominated by an accepted request: by
/// USE-CANDIDATE, or by NOMINATION if nominations have numbers.
pub fn selections_are_nominated_by_peer<H: Sha1HmacProvider, P: LocalPreference>()
    ensures { SelectionsAreNominatedByPeer H.mac P.answers }
{}

/// After each nomination point at which a pair is eligible, the path that was selected last is that of a first choice, as in
/// `points_are_top`.
pub fn selections_are_top<H: Sha1HmacProvider, P: LocalPreference>()
    ensures { SelectionsAreTop H.mac P.answers }
{}

/// From a newly created agent: each `NominatedSend` that waits reports a path that a call selected since the last ICE restart, with `Modern`
/// since the last clear.
pub fn waiting_are_selected<H: Sha1HmacProvider, P: LocalPreference>()
    ensures { WaitingAreSelected H.mac P.answers }
{}

/// From a newly created agent that was never lite: the path of each `NominatedSend` that waits was answered when it was selected.
pub fn waiting_are_answered<H: Sha1HmacProvider, P: LocalPreference>()
    ensures { WaitingAreAnswered H.mac P.answers }
{}

/// From a newly created agent that was never lite, and is controlled since the last ICE restart: the peer nominated the path of each
/// `NominatedSend` that waits.
pub fn waiting_are_nominated_by_peer<H: Sha1HmacProvider, P: LocalPreference>()
    ensures { WaitingAreNominatedByPeer H.mac P.answers }
{}

/// A newly created agent was never lite, and is controlled since the last ICE restart. If the profile was `Modern` at that restart, or
/// there was none, the peer nominated the path of each `NominatedSend` that waits since then. The restart left no early request.
pub fn waiting_are_nominated_since<H: Sha1HmacProvider, P: LocalPreference>()
    ensures { WaitingAreNominatedSince H.mac P.answers }
{}

/// A newly created agent was never lite. If the profile was `Modern` at the last ICE restart, or there was none, the peer nominated since
/// then each path that a call selects while the agent was controlled since the last clear.
pub fn selections_are_nominated_since<H: Sha1HmacProvider, P: LocalPreference>()
    ensures { SelectionsAreNominatedSince H.mac P.answers }
{}

/// From a newly created agent that is never lite, with one random source: each selected path got an authentic success response to a check
/// that was sent since the last clear.
pub fn selected_are_answered<H: Sha1HmacProvider, P: LocalPreference>()
    ensures { SelectedAreAnswered H.mac P.answers }
{}

/// A newly created agent is never lite, and has one random source. Each path that was selected while the agent was controlled since the
/// last clear was nominated by an accepted request: by USE-CANDIDATE, or by NOMINATION if nominations have numbers.
pub fn selected_are_nominated_by_peer<H: Sha1HmacProvider, P: LocalPreference>()
    ensures { SelectedAreNominatedByPeer H.mac P.answers }
{}

/// At each nomination point at which a pair is eligible, the path that was selected last is that of one with the greatest stored
/// priority. With renomination a controlled agent selects the pair that was nominated last instead, once it is eligible.
pub fn points_are_top<H: Sha1HmacProvider, P: LocalPreference>()
    ensures { PointsAreTop H.mac P.answers }
{}

/// After an accepted success response a pair with its pending transaction, on its path, is valid.
pub fn takers_are_valid<H: Sha1HmacProvider, P: LocalPreference>()
    ensures { TakersAreValid H.mac P.answers }
{}

/// If a request that nominates its pair gets a success response, and the agent is controlled, a pair on the response's path is
/// nominated.
pub fn asked_are_nominated<H: Sha1HmacProvider, P: LocalPreference>()
    ensures { AskedAreNominated H.mac P.answers }
{}

/// With selection at once: a request gets a success response on a path whose pairs were valid. Then the path that was selected last is
/// that of an eligible pair of greatest priority, if a pair is eligible. With renomination it is as in `points_are_top`.
pub fn requests_select<H: Sha1HmacProvider, P: LocalPreference>()
    ensures { RequestsSelect H.mac P.answers }
{}

/// With selection at once: a request with USE-CANDIDATE gets a success response on a path whose pairs were valid, and the agent is
/// controlled. Then a path is selected at once, as in `requests_select`, without a `handle_timeout` call.
pub fn nominations_select_at_once<H: Sha1HmacProvider, P: LocalPreference>()
    ensures { NominationsSelectAtOnce H.mac P.answers }
{}

/// After an accepted success response a controlling agent has selected a path.
pub fn answers_select<H: Sha1HmacProvider, P: LocalPreference>()
    ensures { AnswersSelect H.mac P.answers }
{}

/// After each `handle_timeout` call that serves no early request, a path is selected if a pair is valid and nominated.
pub fn timeouts_select<H: Sha1HmacProvider, P: LocalPreference>()
    ensures { TimeoutsSelect H.mac P.answers }
{}

/// A controlling agent, which may share its random source, selects a path by its first accepted success response, and the one that it
/// selected last is that of an eligible pair of greatest priority.
pub fn successes_select<H: Sha1HmacProvider, P: LocalPreference>()
    ensures { SuccessesSelect H.mac P.answers }
{}

/// From a newly created agent: the peer nominated a path to a controlled agent, and a success response was received on it, in
/// either order. Then a path is selected by the end of the next `handle_timeout` call that serves no early request, if only one
/// pair uses this path's addresses and no pair that does may have been removed.
pub fn asked_are_selected<H: Sha1HmacProvider, P: LocalPreference>()
    ensures { AskedAreSelected H.mac P.answers }
{}

/// A controlled agent, which may share its random source, accepted the nomination of a path and received a success response on
/// it. Then a path is selected by the end of the next `handle_timeout` call that serves no early request, and the one that was
/// selected last is that of an eligible pair of greatest priority, if only one pair uses this path's addresses and no pair that does
/// may have been removed.
pub fn accepted_nominations_are_selected<H: Sha1HmacProvider, P: LocalPreference>()
    ensures { AcceptedNominationsAreSelected H.mac P.answers }
{}

/// A controlled agent, which may share its random source, selects in the call in which the second of the two arrives: the peer's
/// nomination of a path and a success response on it, in either order. The path that was selected last is then that of an eligible
/// pair of greatest priority, if only one pair uses the path's addresses and no pair that does may have been removed. If the nomination
/// comes second, the profile `Modern` is a precondition.
pub fn completed_nominations_are_selected<H: Sha1HmacProvider, P: LocalPreference>()
    ensures { CompletedNominationsAreSelected H.mac P.answers }
{}

/// From a newly created agent: if a `handle_timeout` call that serves no early request removes a pair that did not expire, it was the selected
/// one, and none of its last `max_retransmits` checks had a response. Another pair had a response to a check that was sent after one of these;
/// it is still there, and may be selected. So the agent has a selected path then.
pub fn paths_are_replaced<H: Sha1HmacProvider, P: LocalPreference>()
    ensures { PathsAreReplaced H.mac P.answers }
{}
