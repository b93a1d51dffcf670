//! Consent to send (RFC 7675, section 5.1): how long a response keeps a pair.

use super::{Path, at};
use is_pair::checklist::{Expired, PairTest};
use is_pair::take_over;
use is_proto::{Duration, Instant};
use is_stun::stun::{ConsentSetting, Profile};
use std::alloc::Global;

/// How long a response keeps a pair, in milliseconds.
const CONSENT: u64 = 29_600;

/// How long a check from the peer keeps a pair unless consent is strict, in milliseconds.
const HEARD: u64 = 15_000;

/// A path with consent by a clock.
fn path_with(alloc: Global, strict: bool) -> Path {
    let mut path = Path::new(alloc);
    path.timing.profile = Profile::Modern;
    path.timing.consent = ConsentSetting {
        timeout: Some(Duration::from_millis(CONSENT)),
        strict,
    };
    path
}

/// Whether the agent keeps the pair of this path.
fn stays(path: &Path, now: Instant) -> bool {
    let expired = Expired {
        lite: false,
        now,
        timing: &path.timing,
        consent: path.timing.consent(),
    };
    !expired.passes(&path.pair)
}

/// The pair is kept until this time, in milliseconds, and not from then on, although the path may still work.
fn ends_at(path: &Path, end: u64) -> bool {
    let nearly = at(end.saturating_sub(1)) + Duration(999_999);
    stays(path, nearly) && !stays(path, at(end)) && path.is_possible(at(end))
}

#[test]
fn a_response_keeps_a_pair_for_the_timeout(rt: HostRuntime) {
    for strict in [false, true] {
        let mut path = path_with(rt.alloc(), strict);
        assert!(rt; path.is_answered(0, 50) && ends_at(&path, CONSENT));
    }
}

/// The clock starts when the check was sent, not when its response arrived.
#[test]
fn a_later_response_to_the_same_check_renews_nothing(rt: HostRuntime) {
    let mut path = path_with(rt.alloc(), true);
    let id = path.check(at(0));
    assert!(rt; path.takes(at(50), id) && path.takes(at(20_000), id) && ends_at(&path, CONSENT));
}

/// The response to an earlier check arrives after that to a later one.
#[test]
fn of_two_responses_that_of_the_later_check_counts(rt: HostRuntime) {
    let mut path = path_with(rt.alloc(), true);
    let first = path.check(at(0));
    assert!(rt;
        path.is_answered(1000, 1050)
            && path.takes(at(1100), first)
            && ends_at(&path, 1000 + CONSENT)
    );
}

#[test]
fn the_checks_of_the_peer_keep_a_pair_unless_consent_is_strict(rt: HostRuntime) {
    let heard = 20_000;
    let mut path = path_with(rt.alloc(), false);
    assert!(rt; path.is_answered(0, 50));
    path.pair.increase_remote_binding_requests(at(heard));
    assert!(rt; ends_at(&path, heard + HEARD));
    let mut path = path_with(rt.alloc(), true);
    assert!(rt; path.is_answered(0, 50));
    path.pair.increase_remote_binding_requests(at(heard));
    assert!(rt; ends_at(&path, CONSENT));
}

#[test]
fn without_a_response_consent_does_not_end(rt: HostRuntime) {
    let mut path = path_with(rt.alloc(), true);
    assert!(rt; path.checks(at(0)) && stays(&path, at(CONSENT)) && stays(&path, Instant(u64::MAX)));
}

#[test]
fn by_the_original_consent_does_not_end(rt: HostRuntime) {
    let mut path = Path::new(rt.alloc());
    assert!(rt; path.is_answered(0, 50) && stays(&path, at(10 * CONSENT)));
}

#[test]
fn a_pair_that_replaces_another_has_the_later_consent(rt: HostRuntime) {
    let mut old = path_with(rt.alloc(), true);
    assert!(rt; old.is_answered(2000, 2050));
    let mut new = path_with(rt.alloc(), true);
    take_over(&mut new.pair, &old.pair, false);
    assert!(rt; ends_at(&new, 2000 + CONSENT) && new.is_answered(3000, 3050));
    take_over(&mut new.pair, &old.pair, false);
    assert!(rt; ends_at(&new, 3000 + CONSENT));
}

/// An ICE-lite agent sends no checks, so its pairs are kept by those of the peer.
#[test]
fn an_ice_lite_pair_needs_no_consent(rt: HostRuntime) {
    let mut path = path_with(rt.alloc(), true);
    assert!(rt; path.is_answered(0, 50));
    path.pair.increase_remote_binding_requests(at(CONSENT));
    let expired = Expired {
        lite: true,
        now: at(CONSENT),
        timing: &path.timing,
        consent: path.timing.consent(),
    };
    assert!(rt; !expired.passes(&path.pair));
}
