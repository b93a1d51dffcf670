//! Consent to send (RFC 7675), with the profile `Modern`: each pair that is kept has it, and its end is noticed in time.

ghost use Rattle.is_theorems.specs.Consent.{ConsentHolds, ConsentEndsInTime};
ghost use Rattle.is_theorems.specs.ConsentExecutions.{ConnectedAreAnswered, ConnectedHaveConsent, ValidHaveConsented};
ghost use Rattle.is_theorems.specs.ConsentLogs.{SelectedAreAlive, SelectedHaveConsent};
ghost use Rattle.is_theorems.specs.LeftInTime.{LeavesInTime};

use is_candidate::LocalPreference;
use is_proto::Sha1HmacProvider;

/// After each `handle_timeout` call of a full agent that serves no early request, each pair has consent: the last check that got a
/// response was sent recently enough, or, unless consent is strict, the peer's last check arrived recently enough. This holds whatever
/// the agent received, and however many pairs there are.
pub fn consent_holds<H: Sha1HmacProvider, P: LocalPreference>()
    ensures { ConsentHolds P H.mac }
{}

/// The caller is punctual: it calls `poll_timeout` after such a call, and calls `handle_timeout` again at most δ after the time that this
/// returned. Then that call comes at most δ after the end of the consent of each pair that was stored at `poll_timeout`, or at most
/// one pacing interval and δ after the call before. So a pair without consent is removed by then.
pub fn consent_ends_in_time<H: Sha1HmacProvider, P: LocalPreference>()
    ensures { ConsentEndsInTime H.mac P.answers }
{}

/// From a newly created agent: if a full agent is Connected or Completed after a `handle_timeout` call that serves no early request,
/// the path that it selected last is that of an eligible pair that has consent then. This holds whatever profile is set, and whatever
/// it received.
pub fn connected_have_consent<H: Sha1HmacProvider, P: LocalPreference>()
    ensures { ConnectedHaveConsent H.mac P.answers }
{}

/// From a newly created agent that is never lite: each valid pair got a response to a check of its own, or of a pair that it replaces,
/// and the time at which the last such check was sent is stored.
pub fn valid_have_consented<H: Sha1HmacProvider, P: LocalPreference>()
    ensures { ValidHaveConsented H.mac P.answers }
{}

/// From a newly created agent that is never lite, with the profile `Modern`: if the agent is Connected or Completed after a `handle_timeout`
/// call that serves no early request, a check on the path that it selected last got a response. The last such check was sent less
/// than the timeout before this call; or, unless consent is strict, a check of the peer arrived there less than 15 s before.
pub fn connected_are_answered<H: Sha1HmacProvider, P: LocalPreference>()
    ensures { ConnectedAreAnswered H.mac P.answers }
{}

/// A log has a `handle_timeout` call that serves no early request, and a full agent is Connected or Completed after it. Then the path that
/// it selected last is that of an eligible pair that has consent then, as in `connected_have_consent`.
pub fn selected_have_consent<H: Sha1HmacProvider, P: LocalPreference>()
    ensures { SelectedHaveConsent H.mac P.answers }
{
    connected_have_consent::<H, P>();
}

/// A log has a `handle_timeout` call that serves no early request, after which an agent with the profile `Modern`, which was never lite
/// before, is Connected or Completed. Then the path that it selected last is alive, as in `connected_are_answered`.
pub fn selected_are_alive<H: Sha1HmacProvider, P: LocalPreference>()
    ensures { SelectedAreAlive H.mac P.answers }
{
    connected_are_answered::<H, P>();
}

/// A punctual caller leaves a path in time. From a newly created agent that is never lite, with the profile `Modern`: let the last check on
/// a path that got a response be sent at time t, and the peer's last check on it arrive at time u. Nothing keeps consent on it from then
/// on. Then consent ends at t and the timeout, or unless it is strict, at u + 15 s if that is later. While the agent is connected on
/// this path, the next `handle_timeout` call comes at most a pacing interval and δ after this end. After each call from then on the agent is
/// not connected on this path.
pub fn leaves_in_time<H: Sha1HmacProvider, P: LocalPreference>()
    ensures { LeavesInTime H.mac P.answers }
{}
