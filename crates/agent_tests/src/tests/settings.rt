//! Settings and their defaults.

use super::step::Call::*;
use super::step::Emitted::*;
use super::step::Shown::*;
use super::step::Start::*;
use super::step::Step::*;
use super::step::{Outcome, Setting, Shown, Whose};
use super::story::{Story, play};
use super::*;
use is::{ConsentSetting, Duration, Profile, Settings};

#[test]
fn settings_are_kept(rt: HostRuntime) -> Result<(), Fail> {
    play(rt.alloc(), &STORIES)
}

/// A tie-breaker that the agent sends in the controlling role.
const TIE: u64 = 0x0102_0304_0506_0708;

/// What a new agent is set to: the numbers of the original, and of RFC 8445, sections 14.2 and 14.3. No other test has them: stories
/// set the timing that they need.
const ORIGINAL: Settings = Settings {
    profile: Profile::Original,
    timing_advance: Duration(50_000_000),
    initial_rto: Duration(250_000_000),
    max_rto: Duration(3_000_000_000),
    max_retransmits: 9,
    lite_timeout: Duration(15_000_000_000),
    consent: ConsentSetting {
        timeout: None,
        strict: false,
    },
    max_pairs: 100,
    max_discovered: None,
    max_candidates: None,
    renomination: false,
};

/// What connects fastest, and keeps consent for 29.6 s: 2.9 s and a whole series, which takes 26.7 s.
pub(super) const MODERN: Settings = Settings {
    profile: Profile::Modern,
    max_rto: Duration(2_900_000_000),
    max_retransmits: 11,
    max_discovered: Some(32),
    max_candidates: Some(100),
    ..ORIGINAL
};

/// How many milliseconds a new lite agent keeps a pair without a check of its peer.
pub(super) const LITE: u64 = ORIGINAL.lite_timeout.0 / 1_000_000;

const STORIES: [Story; 5] = [
    Story(
        "a_packet_may_be_as_long_as_the_longest_check",
        &[
            Begin(Unpaired),
            Shows(Mtu(1150, 1280)),
            Errs(SetMtu(587, 9000), Outcome::MtuTooSmall),
            Shows(Mtu(1150, 1280)),
            Does(SetMtu(588, 600)),
            Shows(Mtu(588, 600)),
        ],
    ),
    Story(
        "what_is_not_set_has_a_default",
        &[
            Begin(Provided),
            Shows(Controlling(false)),
            Shows(Lite(false)),
            Shows(State(IceConnectionState::New)),
            Shows(Shown::Settings(ORIGINAL)),
            Shows(IceTimeout(21500)),
            Shows(NoRemoteName),
            Shows(LocalName("aaaa")),
        ],
    ),
    Story(
        "settings_stay_until_they_are_set",
        &[
            Begin(Paired),
            Set(Setting::All(MODERN)),
            Shows(Shown::Settings(MODERN)),
            // neither a check nor an ICE restart changes them
            Does(Check(0)),
            Does(Creds(Whose::Restarted, "next", "nextpass")),
            Shows(Shown::Settings(MODERN)),
            Set(Setting::All(ORIGINAL)),
            Shows(Shown::Settings(ORIGINAL)),
        ],
    ),
    Story(
        "a_check_claims_the_role_by_the_tie_breaker",
        &[
            Begin(Paired),
            Set(Setting::TieBreaker(TIE)),
            Does(Check(0)),
            Emits(Claimed(TIE, "farr:near")),
        ],
    ),
    Story(
        "how_long_a_pair_is_checked_follows_the_delays",
        &[
            Begin(Unpaired),
            // 500 ms, and 500 ms after the last check
            Set(Setting::TwoChecks),
            Shows(IceTimeout(1000)),
            Set(Setting::MaxRto(400)),
            Shows(IceTimeout(800)),
            Set(Setting::InitialRto(100)),
            Shows(IceTimeout(400)),
        ],
    ),
];

#[test]
fn settings_have_two_named_values(rt: HostRuntime) {
    assert_eq!(rt; Settings::original(), ORIGINAL);
    assert_eq!(rt; Settings::modern(), MODERN);
}

// ---- states

/// Each state, and whether it counts as connected and as disconnected.
const STATES: [(IceConnectionState, bool, bool); 5] = [
    (IceConnectionState::New, false, false),
    (IceConnectionState::Checking, false, false),
    (IceConnectionState::Connected, true, false),
    (IceConnectionState::Completed, true, false),
    (IceConnectionState::Disconnected, false, true),
];

#[test]
fn connected_and_completed_are_connected(rt: HostRuntime) {
    for (state, connected, disconnected) in &STATES {
        assert!(rt; state.is_connected() == *connected, "{state:?}");
        assert!(rt; state.is_disconnected() == *disconnected, "{state:?}");
    }
}
