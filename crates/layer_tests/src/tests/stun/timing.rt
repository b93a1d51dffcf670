//! The retransmission timeouts of checks, and how long a series of checks takes.

use is_proto::Duration;
use is_stun::stun::{Consent, ConsentSetting, Profile, StunTiming, early_delay};

/// So many milliseconds.
fn millis(n: u64) -> Duration {
    Duration::from_millis(n)
}

/// A timing with given RTOs and checks, whatever a new agent has.
fn given() -> StunTiming {
    StunTiming {
        initial_rto: millis(250),
        max_retransmits: 9,
        max_rto: millis(3000),
        ..StunTiming::default()
    }
}

/// How many checks were sent, and the delay after them in milliseconds.
static DELAYS: [(usize, u64); 6] = [(0, 0), (1, 250), (2, 500), (3, 1000), (4, 2000), (5, 3000)];

#[test]
fn an_rto_of_250_ms_doubles_up_to_three_seconds(rt: HostRuntime) {
    let timing = given();
    for (count, delay) in &DELAYS {
        assert!(rt; timing.stun_resend_delay(*count) == millis(*delay));
    }
    assert!(rt;
        timing.stun_last_resend_delay() == millis(3000)
            && timing.timeout() == millis(21500)
            && timing.max_retransmits() == 9
            && timing.max_rto() == millis(3000)
    );
}

/// The functions return at once; a sum with one term for each retransmission would not finish.
#[test]
fn the_greatest_retransmit_limit_is_answered_at_once(rt: HostRuntime) {
    let timing = StunTiming {
        max_retransmits: usize::MAX,
        ..given()
    };
    assert!(rt;
        timing.stun_resend_delay(100) == millis(3000)
            && timing.stun_resend_delay(usize::MAX) == millis(3000)
            && timing.timeout() == Duration(u64::MAX)
    );
}

#[test]
fn without_an_initial_delay_nothing_is_waited_for(rt: HostRuntime) {
    let timing = StunTiming {
        initial_rto: Duration(0),
        ..given()
    };
    assert!(rt; timing.timeout() == Duration(0));
}

#[test]
fn only_whole_milliseconds_count(rt: HostRuntime) {
    let timing = StunTiming {
        initial_rto: Duration(250_000_001),
        max_rto: Duration(999_999_999),
        ..given()
    };
    assert!(rt;
        timing.stun_resend_delay(1) == millis(250) && timing.stun_resend_delay(3) == millis(999)
    );
}

#[test]
fn one_retransmit_is_removed_after_its_delay(rt: HostRuntime) {
    let timing = StunTiming {
        max_retransmits: 1,
        ..given()
    };
    assert!(rt; timing.stun_resend_delay(9) == millis(500) && timing.timeout() == millis(250));
}

// ---- the profile `Modern`

/// How many checks had no response, and the delay after them in milliseconds: the third delay is the first that doubles, and the fourth would
/// be 400 ms.
static EARLY_DELAYS: [(u64, u64); 8] = [
    (0, 100),
    (1, 100),
    (2, 100),
    (3, 200),
    (4, 350),
    (5, 350),
    (75, 350),
    (u64::MAX, 350),
];

#[test]
fn after_two_early_retransmissions_the_delays_double_up_to_a_cap(rt: HostRuntime) {
    for (count, delay) in &EARLY_DELAYS {
        assert!(rt; early_delay(*count) == millis(*delay));
    }
}

#[test]
fn by_default_the_profile_is_the_originals(rt: HostRuntime) {
    let timing = StunTiming::default();
    assert!(rt; !timing.is_modern() && timing.consent().is_none());
}

/// Consent lasts for the longest RTO, 3 s, and a whole series of checks, 21.5 s.
#[test]
fn the_timing_gives_the_time_of_consent(rt: HostRuntime) {
    let mut timing = StunTiming {
        profile: Profile::Modern,
        ..given()
    };
    assert!(rt; lasts(&timing, millis(24500), false));
    timing.max_rto = millis(2900);
    timing.max_retransmits = 11;
    assert!(rt; lasts(&timing, millis(29600), false));
    timing.consent = ConsentSetting {
        timeout: Some(millis(5000)),
        strict: true,
    };
    assert!(rt; lasts(&timing, millis(5000), true));
}

/// Consent has this timeout, and is strict or not.
fn lasts(timing: &StunTiming, timeout: Duration, strict: bool) -> bool {
    timing.consent() == Some(Consent { timeout, strict })
}
