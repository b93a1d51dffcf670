//! The peer's checks on a pair.

ghost use Rattle.std.specs.Prelude.{◌≡◌};
ghost use Rattle.is_pair.specs.Pairs.{with_request, is_lite_alive, validated};

use super::CandidatePair;
use super::states::CheckState;
use is_proto::{Duration, Instant};
use is_stun::stun::StunTiming;

impl CandidatePair {
    /// Counts a check from the peer that arrived at `now`.
    pub fn increase_remote_binding_requests(&mut self, now: Instant)
        ensures { self.new ≡ with_request now.0 self.old }
    {
        self.remote_binding_requests = self.remote_binding_requests.saturating_add(1);
        self.remote_binding_request_time = Some(now);
    }

    /// Makes the pair valid without a check of its own, as an ICE-lite agent does when it responds to a check from the
    /// peer.
    pub fn record_remote_binding_request_success(&mut self)
        ensures { self.new ≡ validated self.old }
    {
        self.state = CheckState::Succeeded;
    }

    /// Whether the peer of an ICE-lite agent, which sends no checks, is still active: no check from the peer arrived
    /// yet, or the last one arrived less than `lite_timeout` ago. With a timeout of zero, the first check ends the pair.
    pub fn is_ice_lite_alive(&self, now: Instant, timing_config: &StunTiming) -> bool
        ensures { result ≡ is_lite_alive now.0 timing_config.now self.now }
    {
        match self.remote_binding_request_time {
            Some(at) => now - at < timing_config.lite_timeout(),
            None => true,
        }
    }
}

/// How long a check from the peer is enough for a full agent to keep its pair.
pub(crate) const RECENT_BINDING_REQUEST: Duration = Duration(15_000_000_000);
