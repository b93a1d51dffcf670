//! Consent to send on a pair (RFC 7675, section 5.1): how long the last response, and the peer's last check, keep it.

ghost use Rattle.std.specs.Prelude.{◌≡◌, ◌<◌, option_map};
ghost use Rattle.std.specs.Option.{option_map_or};
ghost use Rattle.is_stun.specs.Timing.{consent_of};
ghost use Rattle.is_pair.specs.Pairs.{last_of};
ghost use Rattle.is_pair.specs.Due.{consent_end, has_consent, heard_until, is_answered_lately, stays, call_time_of};

use super::CandidatePair;
use is_proto::Instant;
use is_stun::stun::{Consent, StunTiming};

/// The later of two times, if there is one.
pub(crate) fn last_of(a: Option<Instant>, b: Option<Instant>) -> Option<Instant>
    ensures { option_map (λ at. at.0) result ≡ last_of (option_map (λ at. at.0) a) (option_map (λ at. at.0) b) }
{
    match (a, b) {
        (None, b) => b,
        (Some(a), None) => Some(a),
        (Some(a), Some(b)) => Some(a.max(b)),
    }
}

impl CandidatePair {
    /// Whether the last check that got a response was sent recently enough; true if there was no response.
    fn is_answered_lately(&self, consent: Consent, now: Instant) -> bool
        ensures { result ≡ is_answered_lately consent now.0 self.now }
    {
        match self.consented {
            Some(at) => now < at + consent.timeout,
            None => true,
        }
    }

    /// Whether consent to send on the path has not ended.
    fn has_consent(&self, now: Instant, consent: Option<Consent>) -> bool
        ensures { result ≡ has_consent consent now.0 self.now }
    {
        match consent {
            None => true,
            Some(consent) => {
                self.is_answered_lately(consent, now) || (!consent.strict && self.is_heard(now))
            }
        }
    }

    /// Whether the pair is kept: the path may still work, and consent has not ended. On an ICE-lite agent, the peer's checks have not
    /// stopped.
    pub(crate) fn stays(
        &self,
        lite: bool,
        now: Instant,
        timing: &StunTiming,
        consent: Option<Consent>,
    ) -> bool
        requires retransmits { 0 < timing.now.max_retransmits }
        requires consent { consent ≡ consent_of timing.now }
        ensures { result ≡ stays lite now.0 timing.now self.now }
    {
        if lite {
            self.is_ice_lite_alive(now, timing)
        } else {
            self.has_consent(now, consent) && self.is_still_possible(now, timing)
        }
    }

    /// Returns how long the peer's last check keeps consent.
    fn heard_until(&self, consent: Consent) -> Instant
        ensures { result.0 ≡ heard_until consent self.now }
    {
        if consent.strict {
            Instant(0)
        } else {
            self.request_end()
        }
    }

    /// Returns when consent ends if nothing arrives.
    fn consent_end(&self, consent: Consent) -> Instant
        ensures { result.0 ≡ consent_end consent self.now }
    {
        match self.consented {
            Some(at) => (at + consent.timeout).max(self.heard_until(consent)),
            None => Instant(u64::MAX),
        }
    }

    /// Returns when the pair needs a `handle_timeout` call: when it is due, or when consent ends.
    #[inline(always)]
    pub(crate) fn call_time_of(
        &self,
        now: Instant,
        timing: &StunTiming,
        consent: Option<Consent>,
    ) -> Instant
        requires { consent ≡ consent_of timing.now }
        ensures { result.0 ≡ call_time_of now.0 timing.now self.now }
    {
        let due = self.due_time_of(now, timing);
        match consent {
            None => due,
            Some(consent) => due.min(self.consent_end(consent)),
        }
    }
}
