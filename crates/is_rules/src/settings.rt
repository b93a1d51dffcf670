//! All that a user may choose of an agent's behavior, in one value.

ghost use Rattle.std.specs.Prelude.{◌≡◌};
ghost use Rattle.is_rules.specs.Settings.{original_settings, modern_settings};

use is_proto::Duration;
use is_stun::stun::{ConsentSetting, Profile, StunTiming};

/// All that a user may choose of an agent's behavior. `Settings::original` and `Settings::modern` are whole answers: take one, and
/// change fields of it.
#[derive(Clone, Copy, Debug, PartialEq, Eq)]
pub struct Settings {
    /// Which behavior the agent has.
    pub profile: Profile,
    /// The pacing interval of what the agent sends, Ta in RFC 8445, section 14.2.
    pub timing_advance: Duration,
    /// The RTO after a pair's first check (RFC 8445, section 14.3).
    pub initial_rto: Duration,
    /// The greatest RTO after a check.
    pub max_rto: Duration,
    /// How many checks a pair sends without a response before it is removed: at least 1.
    pub max_retransmits: usize,
    /// How long an ICE-lite agent keeps a pair without a check from its peer.
    pub lite_timeout: Duration,
    /// How long a response keeps a pair, with the profile `Modern` (RFC 7675).
    pub consent: ConsentSetting,
    /// The greatest number of pairs after forming (RFC 8445, section 6.1.2.5).
    pub max_pairs: usize,
    /// How many peer-reflexive candidates packets may bring of each side. None: as many as come.
    pub max_discovered: Option<usize>,
    /// How many candidates of each side the program may have listed. None: as many as it adds.
    pub max_candidates: Option<usize>,
    /// Whether each nomination replaces the ones before. The peer needs the same.
    pub renomination: bool,
}

/// Ta of a new agent.
const TA: Duration = Duration(50_000_000);

impl Settings {
    /// The behavior of the Rust crate `is` 0.12.0, with its numbers.
    pub fn original() -> Settings
        ensures { result ≡ original_settings }
    {
        let timing = StunTiming::default();
        Settings {
            profile: timing.profile,
            timing_advance: TA,
            initial_rto: timing.initial_rto,
            max_rto: timing.max_rto,
            max_retransmits: timing.max_retransmits,
            lite_timeout: timing.lite_timeout,
            consent: timing.consent,
            max_pairs: 100,
            max_discovered: None,
            max_candidates: None,
            renomination: false,
        }
    }

    /// What agents connect soonest with, and what bounds what packets bring. With 11 checks and a longest RTO of 2.9 s, consent lasts 29.6 s:
    /// within the 30 s of RFC 7675, section 5.1, with 0.4 s for calls that come late.
    pub fn modern() -> Settings
        ensures { result ≡ modern_settings }
    {
        Settings {
            profile: Profile::Modern,
            max_rto: Duration(2_900_000_000),
            max_retransmits: 11,
            max_discovered: Some(32),
            max_candidates: Some(100),
            ..Settings::original()
        }
    }
}
