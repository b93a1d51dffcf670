//! Which pairs may fall due in a `handle_timeout` call; the agent's part: `is_agent::timeout`.

ghost use Rattle.std.specs.Prelude.{◌≡◌};
ghost use Rattle.is_rules.specs.Due.{awaits_nomination};

use is_pair::checklist::PairTest;
use is_pair::pair::{CandidatePair, CheckState};
use is_pair::{due_time_of, is_scheduled};
use is_proto::Instant;
use is_stun::stun::StunTiming;

/// Whether a pair is due at a time, or is due once the agent nominates it at that time.
#[derive(Clone, Copy)]
pub struct FallsDue<'a> {
    /// The agent is controlling.
    pub controlling: bool,
    /// The time.
    pub now: Instant,
    /// The timing of checks.
    pub timing: &'a StunTiming,
}

impl PairTest for FallsDue<'_> {
    ghost use Rattle.is_rules.specs.Due.{falls_due};

    ghost passes = { λ t p. falls_due t.controlling t.now.0 t.timing.now p };

    fn passes(&self, pair: &CandidatePair) -> bool {
        due_time_of(pair, self.now, self.timing) <= self.now
            || (!is_scheduled(pair) && awaits_nomination(pair, self.controlling))
    }
}

/// The agent may nominate the pair itself.
pub(crate) fn awaits_nomination(pair: &CandidatePair, controlling: bool) -> bool
    ensures { result ≡ awaits_nomination controlling pair.now }
{
    controlling && pair.state() == CheckState::Succeeded && !pair.is_nominated()
}
