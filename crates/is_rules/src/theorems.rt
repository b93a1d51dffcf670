//! The lemmas and theorems of each transition of an agent. Each is the contract of a function that does nothing. Those of
//! executions are in `is_theorems`.

ghost use Rattle.is_rules.specs.TimeoutTimes.{TimeoutIsAhead, TimeoutIsInTime, TimeoutIsSoon, TimeoutIsGiven, TimeoutKeepsCredit};
ghost use Rattle.is_rules.specs.TimeoutTimes.{CallsAreNoted, CallsAreFollowed, NominationsAreSent};

use is_candidate::LocalPreference;
use is_proto::Sha1HmacProvider;

/// Each next timeout is later than the last `handle_timeout` call.
pub fn timeout_is_ahead<H: Sha1HmacProvider, P: LocalPreference>()
    ensures { TimeoutIsAhead H P }
{}

/// No timeout is later than the time at which a pair is due or its consent ends, except for pacing.
pub fn timeout_is_in_time<H: Sha1HmacProvider, P: LocalPreference>()
    ensures { TimeoutIsInTime H P }
{}

/// By numbered nominations: while a selected path is still to be nominated, or its pair is gone and another one may be selected, the next
/// timeout is one pacing interval after the last `handle_timeout` call.
pub fn timeout_is_soon<H: Sha1HmacProvider, P: LocalPreference>()
    ensures { TimeoutIsSoon H P }
{}

/// By numbered nominations: after a `handle_timeout` call of a full agent that knows the peer and serves no early request, no path is left to
/// be selected, and the nomination of the selected one was sent.
pub fn nominations_are_sent<H: Sha1HmacProvider, P: LocalPreference>()
    ensures { NominationsAreSent P H.mac }
{}

/// There is a next timeout if there was a last `handle_timeout` call.
pub fn timeout_is_given<H: Sha1HmacProvider, P: LocalPreference>()
    ensures { TimeoutIsGiven H P }
{}

/// With a pacing interval of at least 25 ms, the next timeout is 25 ms after the last `handle_timeout` call, or the charges for checks are at
/// most 225 ms ahead of it.
pub fn timeout_keeps_credit<H: Sha1HmacProvider, P: LocalPreference>()
    ensures { TimeoutKeepsCredit H P }
{}

/// With the profile `Modern` there is a last call after each successful `handle_timeout` call. So `poll_timeout` returns a
/// time after it. If it served no early request, that is at least one pacing interval later, or 3 s if there is nothing to check.
pub fn calls_are_noted<H: Sha1HmacProvider, P: LocalPreference>()
    ensures noted { CallsAreNoted P H.mac }
    ensures followed { CallsAreFollowed P H.mac }
{}
