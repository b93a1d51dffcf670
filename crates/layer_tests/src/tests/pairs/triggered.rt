//! Triggered checks: which requests move the next check of a pair up, and which pairs are urgent.

use super::{Path, at};
use is_pair::{is_urgent, schedule_triggered};
use is_proto::Instant;
use std::alloc::Global;
use std::test::Fail;

/// A path that was checked at the beginning, and is due for its next check after 250 ms.
fn due_path(alloc: Global) -> Result<Path, Fail> {
    let mut path = Path::new(alloc);
    if path.checks(at(0)) && path.due(at(0)) == at(250) {
        Ok(path)
    } else {
        Err(Fail::from("the pair is not due 250 ms after its check"))
    }
}

/// When the path is due after a request at this time, with the profile `Modern`.
fn due_after_request(path: &mut Path, now: Instant) -> Instant {
    schedule_triggered(&mut path.pair, true, now);
    path.pair.increase_remote_binding_requests(now);
    path.due(now)
}

#[test]
fn a_request_moves_the_next_check_up(rt: HostRuntime) -> Result<(), Fail> {
    let mut path = due_path(rt.alloc())?;
    assert!(rt; due_after_request(&mut path, at(100)) == at(100));
    Ok(())
}

#[test]
fn a_request_moves_no_check_down(rt: HostRuntime) -> Result<(), Fail> {
    let mut path = due_path(rt.alloc())?;
    assert!(rt; due_after_request(&mut path, at(251)) == at(250));
    Ok(())
}

#[test]
fn by_the_original_a_request_moves_nothing(rt: HostRuntime) -> Result<(), Fail> {
    let mut path = due_path(rt.alloc())?;
    schedule_triggered(&mut path.pair, false, at(100));
    assert!(rt; path.due(at(100)) == at(250));
    Ok(())
}

#[test]
fn only_the_first_request_triggers_a_check(rt: HostRuntime) -> Result<(), Fail> {
    let mut path = due_path(rt.alloc())?;
    assert!(rt;
        due_after_request(&mut path, at(240)) == at(240)
            && due_after_request(&mut path, at(100)) == at(240)
    );
    Ok(())
}

#[test]
fn a_request_on_a_valid_pair_moves_nothing(rt: HostRuntime) {
    let mut path = Path::new(rt.alloc());
    assert!(rt;
        path.is_answered(0, 50)
            && path.due(at(50)) == at(250)
            && due_after_request(&mut path, at(100)) == at(250)
    );
}

/// A due time that is not fixed yet is not fixed by a request either.
#[test]
fn a_due_time_that_is_not_fixed_is_not_moved(rt: HostRuntime) {
    let mut path = Path::new(rt.alloc());
    assert!(rt; path.checks(at(0)) && due_after_request(&mut path, at(100)) == at(250));
}

#[test]
fn a_pair_with_a_request_is_urgent_until_it_is_valid(rt: HostRuntime) {
    let mut path = Path::new(rt.alloc());
    assert!(rt; !is_urgent(&path.pair));
    path.pair.increase_remote_binding_requests(at(0));
    assert!(rt; is_urgent(&path.pair));
    let id = path.check(at(10));
    assert!(rt; is_urgent(&path.pair) && path.takes(at(20), id) && !is_urgent(&path.pair));
    path.pair.increase_remote_binding_requests(at(30));
    assert!(rt; !is_urgent(&path.pair));
}

#[test]
fn a_pair_without_a_request_is_not_urgent(rt: HostRuntime) {
    let mut path = Path::new(rt.alloc());
    assert!(rt;
        path.checks(at(0))
            && !is_urgent(&path.pair)
            && path.is_answered(100, 150)
            && !is_urgent(&path.pair)
    );
}

#[test]
fn a_nominated_pair_is_urgent_until_a_nominating_check_is_answered(rt: HostRuntime) {
    let mut path = Path::new(rt.alloc());
    let before = path.check(at(0));
    assert!(rt;
        path.takes(at(50), before) && path.is_nominated_now(false) && is_urgent(&path.pair)
    );
    let nominating = path.check(at(100));
    assert!(rt;
        path.takes(at(110), before)
            && is_urgent(&path.pair)
            && path.takes(at(150), nominating)
            && !is_urgent(&path.pair)
    );
}

/// It fell silent: other pairs are to be heard.
#[test]
fn a_nominated_pair_is_urgent_until_eight_checks_have_no_response(rt: HostRuntime) {
    let mut path = Path::new(rt.alloc());
    assert!(rt; path.is_answered(0, 50) && path.is_nominated_now(false));
    for n in 1..8 {
        assert!(rt; path.checks(at(100 * n)) && is_urgent(&path.pair));
    }
    assert!(rt; path.checks(at(800)) && !is_urgent(&path.pair));
}

/// A nomination that succeeds at once sends no check.
#[test]
fn a_forced_nomination_is_not_urgent(rt: HostRuntime) {
    let mut path = Path::new(rt.alloc());
    assert!(rt; path.is_answered(0, 50) && path.is_nominated_now(true) && !is_urgent(&path.pair));
}
