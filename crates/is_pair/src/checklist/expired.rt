//! The pairs that are removed because they failed.

ghost use Rattle.std.specs.Prelude.{◌<◌, ◌≡◌};
ghost use Rattle.is_stun.specs.Timing.{consent_of};

use super::{PairRemoval, PairTest, Removal};
use crate::pair::{CandidatePair, CheckState};
use is_proto::Instant;
use is_stun::stun::{Consent, StunTiming};

/// A test for failed pairs: those whose consent expired (RFC 7675), and, on an ICE-lite agent, which sends no checks,
/// those on which the peer's checks stopped.
#[derive(Clone, Copy)]
pub struct Expired<'a> {
    /// Whether the agent is an ICE-lite agent.
    pub lite: bool,
    pub now: Instant,
    pub timing: &'a StunTiming,
    /// How long a response keeps a pair, by the timing: computed once for all pairs.
    pub consent: Option<Consent>,
    ghost is_checked: { 0 < timing.now.max_retransmits },
    ghost is_of_timing: { consent ≡ consent_of timing.now },
}

impl PairTest for Expired<'_> {
    ghost use Rattle.is_pair.specs.Due.{is_pair_expired};

    ghost passes = { λ t p. is_pair_expired t.lite t.now.0 t.timing.now p };

    fn passes(&self, pair: &CandidatePair) -> bool {
        !pair.stays(self.lite, self.now, self.timing, self.consent)
    }
}

impl PairRemoval for Expired<'_> {
    ghost use Rattle.is_pair.specs.Removed.{expired_reason};

    ghost reason = { λ t p. expired_reason t.lite p };

    fn removal(&self, pair: &CandidatePair) -> Removal {
        if self.lite {
            Removal::PeerSilent
        } else if pair.state() == CheckState::Succeeded {
            Removal::ConsentLost
        } else {
            Removal::NoResponse
        }
    }
}
