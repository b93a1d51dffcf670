//! Early retransmissions: for some time the checks of a pair without a response come soon after one another, and again after the peer's
//! first request.

use super::{Path, at};
use is_pair::take_over;
use is_proto::{Duration, Instant};
use is_stun::stun::Profile;
use std::alloc::Global;

/// How long a whole series of checks takes, in milliseconds: 0.5, 1 and 2 s, five times 3 s to the ninth one, and 3 s more.
const SERIES: u64 = 21_500;

/// How long they come, in milliseconds.
const EARLY: u64 = 2_150;

/// A path with the profile `Modern`: two early retransmissions 100 ms apart, and delays of at most 350 ms.
fn early_path(alloc: Global) -> Path {
    let mut path = Path::new(alloc);
    path.timing.profile = Profile::Modern;
    path
}

/// A check at this time, and when the next one is due.
fn next_after(path: &mut Path, now: Instant) -> Option<Instant> {
    if path.checks(now) {
        Some(path.due(now))
    } else {
        None
    }
}

/// So many checks when they are due, the first at this time; returns when the next one is due.
fn due_after(path: &mut Path, start: Instant, count: usize) -> Option<Instant> {
    let mut now = start;
    for _ in 0..count {
        now = next_after(path, now)?;
    }
    Some(now)
}

/// Checks when they are due, the first at this time; whether the next ones are due at these times, in milliseconds.
fn are_due(path: &mut Path, start: Instant, times: &[u64]) -> bool {
    let mut now = start;
    for time in times {
        if next_after(path, now) != Some(at(*time)) {
            return false;
        }
        now = at(*time);
    }
    true
}

/// Whether so many checks are sent, all at this time, in milliseconds.
fn checks_often(path: &mut Path, count: usize, now: u64) -> bool {
    for _ in 0..count {
        if !path.checks(at(now)) {
            return false;
        }
    }
    true
}

/// The pair is possible until this time, in milliseconds, and not from then on.
fn ends_at(path: &Path, end: u64) -> bool {
    let nearly = at(end.saturating_sub(1)) + Duration(999_999);
    path.is_possible(nearly) && !path.is_possible(at(end))
}

/// Checks when they are due, from the beginning until this time, at most a hundred; returns how many, and when the next one is due.
fn check_until(path: &mut Path, end: Instant) -> Option<(usize, Instant)> {
    let mut now = at(0);
    for count in 0..100 {
        if now >= end {
            return Some((count, now));
        }
        now = next_after(path, now)?;
    }
    None
}

/// Checks when they are due, as long as the pair is possible, at most a hundred; returns how many, and when it is not.
fn check_until_removed(path: &mut Path, start: Instant) -> Option<(usize, Instant)> {
    let mut now = start;
    for count in 0..100 {
        if !path.is_possible(now) {
            return Some((count, now));
        }
        now = next_after(path, now)?;
    }
    None
}

// ---- when checks are due

static FIRST: [u64; 12] = [
    100, 200, 400, 750, 1100, 1450, 1800, 2150, 5150, 8150, 11_150, 14_150,
];

/// Two retransmissions after 100 ms each, one after 200 ms, and the others after 350 ms until 2.15 s. Then the RTO counts, 3 s.
#[test]
fn checks_without_a_response_are_repeated_early(rt: HostRuntime) {
    let mut path = early_path(rt.alloc());
    assert!(rt; path.due(at(0)) == at(0) && are_due(&mut path, at(0), &FIRST));
}

/// Just before its end the second early retransmission still follows, after 100 ms. Then the RTO counts: 500 ms after the second check.
#[test]
fn after_some_time_the_rto_counts(rt: HostRuntime) {
    for (sent, due) in [(EARLY - 1, EARLY + 99), (EARLY, EARLY + 500)] {
        let mut path = early_path(rt.alloc());
        assert!(rt; path.checks(at(0)) && next_after(&mut path, at(sent)) == Some(at(due)));
    }
}

#[test]
fn after_a_response_the_delays_are_the_usual_ones(rt: HostRuntime) {
    let mut path = early_path(rt.alloc());
    assert!(rt;
        path.checks(at(0))
            && path.is_answered(100, 150)
            && path.due(at(150)) == at(600)
            && next_after(&mut path, at(600)) == Some(at(1600))
            && next_after(&mut path, at(1600)) == Some(at(3600))
    );
}

#[test]
fn a_response_to_the_first_check_ends_early_retransmissions(rt: HostRuntime) {
    let mut path = early_path(rt.alloc());
    assert!(rt;
        path.is_answered(0, 50)
            && path.due(at(50)) == at(250)
            && next_after(&mut path, at(250)) == Some(at(750))
    );
}

/// Eight checks were sent before. The delay after nine pending transactions is 3 s.
#[test]
fn a_response_to_a_later_check_ends_them_too(rt: HostRuntime) {
    let mut path = early_path(rt.alloc());
    assert!(rt;
        check_until(&mut path, at(2150)) == Some((8, at(2150)))
            && path.is_answered(2150, 2200)
            && path.due(at(2200)) == at(5150)
            && next_after(&mut path, at(5150)) == Some(at(8150))
    );
}

// ---- nominations

static NOMINATING: [u64; 10] = [
    70080, 70150, 70220, 70290, 70360, 70430, 70500, 70570, 71070, 71570,
];

/// After 80 ms, when a response would be late by 30 ms, and then each 70 ms, until nine of them have none: then each half second, since more
/// than 7.5 s have passed after the check with a response.
#[test]
fn a_check_that_nominates_is_repeated_early(rt: HostRuntime) {
    let mut path = early_path(rt.alloc());
    assert!(rt;
        path.is_answered(0, 50)
            && path.is_nominated_now(false)
            && path.due(at(70000)) == at(10000)
            && are_due(&mut path, at(70000), &NOMINATING)
    );
}

/// The next check is due by the number of pending transactions, here two. The one after it is sent once the response is late: 30 ms after
/// the last round trip, and at least 70 ms after the check.
#[test]
fn the_response_to_a_nomination_ends_early_retransmissions(rt: HostRuntime) {
    let mut path = early_path(rt.alloc());
    assert!(rt;
        path.is_answered(0, 50)
            && path.is_nominated_now(false)
            && path.is_answered(1000, 1050)
            && path.due(at(1050)) == at(1500)
            && next_after(&mut path, at(1500)) == Some(at(1580))
    );
}

/// The nominating checks are sent each 70 ms from 1 s until 7.5 s, and then each half second. So the first one that is stored is never a whole
/// series old, and only consent ends the pair.
#[test]
fn checks_end_no_nominated_pair(rt: HostRuntime) {
    let mut path = early_path(rt.alloc());
    assert!(rt;
        path.is_answered(0, 50)
            && path.is_nominated_now(false)
            && check_until_removed(&mut path, at(1000)) == None
    );
}

// ---- when a pair without a response ends

/// Not by the number of its checks.
#[test]
fn a_pair_without_a_response_is_kept_for_a_whole_series(rt: HostRuntime) {
    for count in [9, 10, 13, 30] {
        let mut path = early_path(rt.alloc());
        assert!(rt; checks_often(&mut path, count, 0) && ends_at(&path, SERIES));
    }
}

/// Though it is the tenth last, and no longer stored, also in a copy.
#[test]
fn the_series_begins_at_the_first_check(rt: HostRuntime) {
    let mut path = early_path(rt.alloc());
    assert!(rt;
        path.checks(at(0))
            && checks_often(&mut path, 9, 10_000)
            && ends_at(&path, SERIES)
            && path.is_copied()
            && ends_at(&path, SERIES)
    );
}

/// The response to the last check may still come for 3 s.
#[test]
fn the_last_response_is_waited_for(rt: HostRuntime) {
    let mut path = early_path(rt.alloc());
    assert!(rt;
        path.checks(at(0))
            && checks_often(&mut path, 9, SERIES - 1)
            && ends_at(&path, SERIES + 2999)
    );
}

#[test]
fn eight_checks_end_no_pair(rt: HostRuntime) {
    let mut path = early_path(rt.alloc());
    assert!(rt; checks_often(&mut path, 8, 0) && path.is_possible(at(1_000_000)));
}

/// The ninth check is sent at 2.15 s, and six more every 3 s until 20.15 s, the last one before the series is over. It is waited for by the
/// RTO, 3 s.
#[test]
fn a_pair_without_a_response_has_15_checks(rt: HostRuntime) {
    let mut path = early_path(rt.alloc());
    assert!(rt; check_until_removed(&mut path, at(0)) == Some((15, at(23_150))));
}

/// A check from the peer at 21 s keeps it until 36 s. The next check, at 23.15 s, and six more until 25.25 s are repeated early, and the
/// one at 25.6 s and later ones by the RTO. The response to the last one, at 34.6 s, may come until 37.6 s.
#[test]
fn a_pair_that_is_still_heard_is_repeated_early_again(rt: HostRuntime) {
    let mut path = early_path(rt.alloc());
    assert!(rt; check_until(&mut path, at(SERIES)) == Some((15, at(23_150))));
    path.pair.increase_remote_binding_requests(at(21_000));
    assert!(rt;
        path.is_possible(at(23_150))
            && due_after(&mut path, at(23_150), 7) == Some(at(25_600))
            && due_after(&mut path, at(25_600), 4) == Some(at(37_600))
            && ends_at(&path, 37_600)
    );
}

/// With one check a whole series takes 250 ms. The first three are sent at 0, 100 and 200 ms; the next one is due at 400 ms, and by then the
/// RTO counts, 250 ms.
#[test]
fn with_one_retransmit_there_are_four_checks(rt: HostRuntime) {
    let mut path = Path::impatient(rt.alloc());
    path.timing.profile = Profile::Modern;
    assert!(rt; check_until_removed(&mut path, at(0)) == Some((4, at(650))));
}

/// With two checks it takes 1 s. Five are sent by 0.75 s; the next one is due at 1.1 s, and by then the RTO counts, 500 ms.
#[test]
fn few_retransmits_end_as_well(rt: HostRuntime) {
    let mut path = early_path(rt.alloc());
    path.timing.max_retransmits = 2;
    assert!(rt; check_until_removed(&mut path, at(0)) == Some((6, at(1600))));
}

/// It has a series of its own.
#[test]
fn a_pair_that_replaces_another_begins_again(rt: HostRuntime) {
    let mut old = early_path(rt.alloc());
    assert!(rt; checks_often(&mut old, 9, 0));
    let mut new = early_path(rt.alloc());
    take_over(&mut new.pair, &old.pair, false);
    assert!(rt;
        next_after(&mut new, at(20_000)) == Some(at(20_100))
            && checks_often(&mut new, 8, 20_100)
            && ends_at(&new, 20_000 + SERIES)
    );
}

// ---- when others end

/// The delays are the usual ones, and a whole series has to pass from the first check without a response on.
#[test]
fn after_a_response_a_whole_series_passes(rt: HostRuntime) {
    for (sent, received, later, end) in [
        (0, 50, 100, 100 + SERIES),
        (20_000, 20_050, 20_100, 20_100 + SERIES),
    ] {
        let mut path = early_path(rt.alloc());
        assert!(rt;
            path.checks(at(0))
                && path.is_answered(sent, received)
                && checks_often(&mut path, 9, later)
                && ends_at(&path, end)
        );
    }
}

/// By the original the number of checks counts.
#[test]
fn by_the_original_a_pair_has_nine_checks(rt: HostRuntime) {
    for (profile, end) in [(Profile::Original, 3000), (Profile::Modern, SERIES)] {
        let mut path = Path::new(rt.alloc());
        path.timing.profile = profile;
        assert!(rt;
            checks_often(&mut path, 8, 0)
                && path.is_possible(at(1_000_000))
                && path.checks(at(0))
                && ends_at(&path, end)
        );
    }
}
