//! When a pair is due, and when it is removed.

use super::{Path, at, host_pair};
use is_pair::reset_next_binding_attempt;
use is_proto::{Duration, Instant};
use is_stun::stun::StunTiming;
use std::alloc::Global;
use std::test::Fail;

/// Twenty checks when they are due, each with a response after 500 ms; returns when the next one is due.
fn due_after_answers(path: &mut Path) -> Option<Instant> {
    let mut now = at(0);
    for _ in 0..20 {
        now = path.due(now);
        let id = path.check(now);
        now = now + Duration::from_millis(500);
        if !path.takes(now, id) {
            return None;
        }
    }
    Some(path.due(now))
}

/// Nine checks when they are due, the first at this time; returns when the next one is due. None if the pair ends before.
fn due_after_silence(path: &mut Path, start: Instant) -> Option<Instant> {
    let mut now = start;
    for _ in 0..9 {
        if !path.is_possible(now) || !path.checks(now) {
            return None;
        }
        now = path.due(now);
    }
    Some(now)
}

/// The path is possible until this time, and not from then on.
fn ends_at(path: &Path, end: Instant) -> bool {
    path.is_possible(Instant(end.0.saturating_sub(1))) && !path.is_possible(end)
}

/// Nine checks without a response take 21.5 s, and then a check of the peer keeps the pair for 15 s.
#[test]
fn a_silent_path_is_removed_after_the_timeout(rt: HostRuntime) -> Result<(), Fail> {
    let mut path = Path::new(rt.alloc());
    let Some(now) = due_after_answers(&mut path) else {
        return Err(Fail::from("a response was not taken"));
    };
    let end = now + Duration::from_millis(21500);
    assert!(rt; due_after_silence(&mut path, now) == Some(end) && ends_at(&path, end));
    path.pair.increase_remote_binding_requests(end);
    assert!(rt; ends_at(&path, end + Duration::from_millis(15000)));
    Ok(())
}

#[test]
fn one_retransmit_is_waited_for_once(rt: HostRuntime) {
    let mut path = Path::impatient(rt.alloc());
    assert!(rt; path.checks(at(0)) && path.is_possible(at(249)) && !path.is_possible(at(250)));
}

/// A path that was nominated after its due time was queried, at 70 s.
fn queried(alloc: Global) -> Option<Path> {
    let mut path = Path::new(alloc);
    if path.due(at(70000)) == at(70000) && path.is_nominated_now(false) {
        Some(path)
    } else {
        None
    }
}

/// Also in a copy.
#[test]
fn a_due_time_stays_once_it_was_queried(rt: HostRuntime) -> Result<(), Fail> {
    let Some(mut path) = queried(rt.alloc()) else {
        return Err(Fail::from("the path is due at another time"));
    };
    assert!(rt;
        path.due(at(80000)) == at(70000) && path.is_copied() && path.due(at(80000)) == at(70000)
    );
    Ok(())
}

#[test]
fn a_due_time_is_computed_again_if_it_is_reset(rt: HostRuntime) -> Result<(), Fail> {
    let Some(mut path) = queried(rt.alloc()) else {
        return Err(Fail::from("the path is due at another time"));
    };
    reset_next_binding_attempt(&mut path.pair);
    assert!(rt;
        path.due(at(80000)) == at(20000)
            && path.checks(at(80000))
            && path.due(at(80000)) == at(80250)
    );
    Ok(())
}

#[test]
fn the_end_of_time_is_not_passed(rt: HostRuntime) {
    let mut path = Path::new(rt.alloc());
    let end = Instant(u64::MAX);
    let id = path.check(end);
    assert!(rt;
        path.due(end) == end
            && path.takes(end, id)
            && path.pair.total_round_trip_time() == Duration(0)
            && path.is_possible(end)
    );
}

#[test]
fn an_ice_lite_pair_lives_on_the_checks_of_the_peer(rt: HostRuntime) {
    let mut pair = host_pair(rt.alloc(), 1);
    let timing = StunTiming::default();
    let heard = at(60000);
    let end = heard + timing.lite_timeout();
    assert!(rt; pair.is_ice_lite_alive(heard, &timing));
    pair.increase_remote_binding_requests(heard);
    assert!(rt;
        pair.is_ice_lite_alive(Instant(end.0.saturating_sub(1)), &timing)
            && !pair.is_ice_lite_alive(end, &timing)
    );
}

/// A timing with another timeout of ICE-lite in milliseconds.
fn lite_timing(millis: u64) -> StunTiming {
    StunTiming {
        lite_timeout: Duration::from_millis(millis),
        ..StunTiming::default()
    }
}

#[test]
fn an_ice_lite_pair_lives_as_long_as_is_set(rt: HostRuntime) {
    let mut pair = host_pair(rt.alloc(), 1);
    assert!(rt; pair.is_ice_lite_alive(at(60000), &lite_timing(0)));
    pair.increase_remote_binding_requests(at(60000));
    assert!(rt;
        pair.is_ice_lite_alive(at(89999), &lite_timing(30000))
            && !pair.is_ice_lite_alive(at(90000), &lite_timing(30000))
            && !pair.is_ice_lite_alive(at(61000), &lite_timing(1000))
            && !pair.is_ice_lite_alive(at(60000), &lite_timing(0))
    );
}

/// The timeout of ICE-lite is not that of a full agent.
#[test]
fn a_full_pair_lives_15_seconds_on_a_check_of_the_peer(rt: HostRuntime) {
    let mut path = Path::impatient(rt.alloc());
    path.timing.lite_timeout = Duration::from_millis(30000);
    assert!(rt; path.checks(at(0)));
    path.pair.increase_remote_binding_requests(at(0));
    assert!(rt; path.is_possible(at(14999)) && !path.is_possible(at(15000)));
}
