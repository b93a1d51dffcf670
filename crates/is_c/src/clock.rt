//! The agent's clock is a minute ahead of the caller's, so that the caller's may start at any time.
//!
//! The agent makes a newly nominated pair due 60 s before now, so that it is checked before all others. No time is below 0, so
//! without the minute a clock that starts at 0 would have no such time.

ghost use Rattle.std.specs.Prelude.{◌≡◌};
ghost use Rattle.is_c_calls.specs.Clock.{agent_time, caller_time};

use is_proto::{Duration, Instant};

/// How far the agent's clock is ahead.
const AHEAD: Duration = Duration(60_000_000_000);

/// The agent's time at this time of the caller.
pub(crate) fn agent_time(now: u64) -> Instant
    ensures { result.0 ≡ agent_time now }
{
    Instant(now).saturating_add(AHEAD)
}

/// The caller's time at this time of the agent: 0 if it is before the caller's clock starts.
pub(crate) fn caller_time(at: Instant) -> u64
    ensures { result ≡ caller_time at.0 }
{
    at.0.saturating_sub(AHEAD.0)
}
