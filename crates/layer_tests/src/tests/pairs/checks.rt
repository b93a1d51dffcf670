//! Checks, their responses, and nomination.

use super::{Path, at};
use is_pair::pair::CheckState;
use is_pair::take_over;
use is_proto::Duration;
use is_stun::stun::TransId;
use std::alloc::Global;
use std::test::Fail;

/// So many milliseconds, in `Some`.
fn took(millis: u64) -> Option<Duration> {
    Some(Duration::from_millis(millis))
}

#[test]
fn round_trips_are_those_of_the_answers(rt: HostRuntime) {
    let mut path = Path::new(rt.alloc());
    assert!(rt;
        path.pair.last_successful_rtt().is_none()
            && path.is_answered(0, 50)
            && path.pair.last_successful_rtt() == took(50)
            && path.checks(at(100))
            && path.pair.last_successful_rtt() == took(50)
            && path.is_answered(200, 220)
            && path.pair.last_successful_rtt() == took(20)
            && path.pair.responses_received() == 2
            && path.pair.total_round_trip_time() == Duration::from_millis(70)
    );
}

#[test]
fn a_repeated_answer_counts_again(rt: HostRuntime) {
    let mut path = Path::new(rt.alloc());
    let id = path.check(at(0));
    assert!(rt;
        path.takes(at(50), id)
            && path.takes(at(80), id)
            && path.pair.last_successful_rtt() == took(80)
            && path.pair.responses_received() == 2
            && path.pair.total_round_trip_time() == Duration::from_millis(130)
    );
}

/// Whether the check was sent, and is pending.
fn is_kept(path: &Path, id: Option<TransId>) -> bool {
    match id {
        Some(id) => path.keeps(id),
        None => false,
    }
}

/// The role in which a pending check was sent.
fn role_of(path: &Path, id: Option<TransId>) -> Option<bool> {
    let check = path.pair.binding_attempt(id?)?;
    Some(check.controlling())
}

#[test]
fn a_check_beyond_the_limit_is_forgotten(rt: HostRuntime) {
    let mut path = Path::impatient(rt.alloc());
    let first = path.check(at(0));
    assert!(rt; is_kept(&path, first));
    let second = path.check(at(250));
    assert!(rt; !is_kept(&path, first) && role_of(&path, second) == Some(true));
}

/// A path whose nominating check has no response yet.
fn nominating(alloc: Global) -> Option<Path> {
    let mut path = Path::new(alloc);
    let is_valid = path.is_answered(0, 50);
    path.pair.increase_remote_binding_requests(at(60));
    if is_valid && path.is_nominated_now(false) && path.checks(at(100)) {
        Some(path)
    } else {
        None
    }
}

/// A path whose pair replaces one whose nominating check has no response yet.
fn replacing(alloc: Global) -> Option<Path> {
    let old = nominating(alloc)?;
    let mut path = Path::new(alloc);
    take_over(&mut path.pair, &old.pair, true);
    Some(path)
}

/// If a pair replaces one with a pending nominating check, it has to send a nominating check of its own.
#[test]
fn a_nomination_passes_to_the_pair_that_replaces(rt: HostRuntime) -> Result<(), Fail> {
    let Some(mut new) = replacing(rt.alloc()) else {
        return Err(Fail::from("the pair was not nominated"));
    };
    assert!(rt;
        new.pair.state() == CheckState::Succeeded
            && new.pair.is_nominated()
            && new.pair.remote_binding_request_time() == Some(at(60))
            && new.pair.last_successful_rtt().is_none()
    );
    // due before all others; there is no time 60 s earlier, since that is before the beginning
    assert!(rt; new.due(at(100)) == at(100));
    Ok(())
}
