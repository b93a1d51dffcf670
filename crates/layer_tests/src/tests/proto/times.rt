//! Times and durations.

use is_proto::{Duration, Instant};

#[test]
fn times_stay_within_their_ends(rt: HostRuntime) {
    let second = Duration(1_000_000_000);
    assert!(rt;
        Instant(250_000_000) + second == Instant(1_250_000_000)
            && Instant(u64::MAX) + second == Instant(u64::MAX)
            && Instant(1_250_000_000) - Instant(250_000_000) == second
            && Instant(0) - Instant(1) == Duration(0)
            && Instant(1_000_000_000).checked_sub(second) == Some(Instant(0))
            && Instant(999_999_999).checked_sub(second).is_none()
    );
}

#[test]
fn lengths_in_milliseconds(rt: HostRuntime) {
    assert!(rt;
        Duration::from_millis(250) == Duration(250_000_000)
            && Duration(250_999_999).as_millis() == 250
            && Duration::from_millis(u64::MAX) == Duration(u64::MAX)
            && Duration(u64::MAX).saturating_add(Duration(1)) == Duration(u64::MAX)
    );
}
