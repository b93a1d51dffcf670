//! When a TURN client has its allocation, and when it ends: sessions that meet the preconditions of the theorems of `is_turn_progress`, and
//! the times that these state.

use super::{Session, Start, Step, plays};
use is_turn::{Reason, Why};
use std::test::*;

/// Responses after 80 ms, calls 30 ms late: `Allocated` is there after 220 ms, and 2 (80 + 30) ms are stated.
static IN_TIME: Session = Session {
    name: "an allocation is there in time",
    start: Start::Known,
    steps: &[
        Step::SendsLate(0, 30, 3, false),
        Step::Challenged(110, 401, "nonce", None),
        Step::SendsLate(110, 140, 3, true),
        Step::Allocates(220, true),
        Step::Allocated,
    ],
};

#[test]
fn an_allocation_is_there_in_time(rt: HostRuntime) {
    plays(&rt, rt.alloc(), &IN_TIME);
}

/// Responses after 1 ms: `Allocated` is there after 2 ms. A challenge ends the pace, so the second request does not wait for 5 ms.
static UNPACED: Session = Session {
    name: "a challenge ends the pace",
    start: Start::Known,
    steps: &[
        Step::SendsLate(0, 0, 3, false),
        Step::Challenged(1, 401, "nonce", None),
        Step::SendsLate(1, 1, 3, true),
        Step::Allocates(2, true),
        Step::Allocated,
    ],
};

#[test]
fn a_challenge_ends_the_pace(rt: HostRuntime) {
    plays(&rt, rt.alloc(), &UNPACED);
}

/// A challenge is for one packet: the next one, here the permission of a peer, waits for 5 ms.
static PACED: Session = Session {
    name: "another packet is paced again",
    start: Start::Known,
    steps: &[
        Step::Permits(0, (9, 3478), true),
        Step::SendsLate(0, 0, 3, false),
        Step::Challenged(1, 401, "nonce", None),
        Step::SendsLate(1, 1, 3, true),
        Step::Allocates(2, true),
        Step::RestsLate(0, 2),
        Step::SendsLate(6, 6, 8, true),
    ],
};

#[test]
fn another_packet_is_paced_again(rt: HostRuntime) {
    plays(&rt, rt.alloc(), &PACED);
}

/// A challenge that is dropped, since it has no NONCE, ends no pace: the permission of a peer waits for 5 ms after the Refresh.
static DROPPED: Session = Session {
    name: "a dropped challenge ends no pace",
    start: Start::Allocated,
    steps: &[
        Step::Probes(30),
        Step::SendsLate(30, 30, 4, true),
        Step::Permits(31, (9, 3478), true),
        Step::RestsLate(31, 31),
        Step::Fails(32, false, 438, Some(Reason::Challenge)),
        Step::SendsLate(35, 35, 8, true),
    ],
};

#[test]
fn a_dropped_challenge_ends_no_pace(rt: HostRuntime) {
    plays(&rt, rt.alloc(), &DROPPED);
}

/// Responses after 600 ms: a request is repeated after 500 ms meanwhile. They come within the last wait, 8 s.
static REPEATED: Session = Session {
    name: "repeated requests change no time",
    start: Start::Known,
    steps: &[
        Step::SendsLate(0, 0, 3, false),
        Step::SendsLate(500, 500, 3, false),
        Step::Challenged(600, 401, "nonce", None),
        Step::SendsLate(600, 600, 3, true),
        Step::SendsLate(1_100, 1_100, 3, true),
        Step::Allocates(1_200, true),
        Step::Allocated,
    ],
};

#[test]
fn repeated_requests_change_no_time(rt: HostRuntime) {
    plays(&rt, rt.alloc(), &REPEATED);
}

/// Without credentials one response suffices.
static OPEN: Session = Session {
    name: "an open server takes one round trip",
    start: Start::Open,
    steps: &[
        Step::SendsLate(0, 30, 3, false),
        Step::Allocates(110, false),
        Step::Allocated,
    ],
};

#[test]
fn an_open_server_takes_one_round_trip(rt: HostRuntime) {
    plays(&rt, rt.alloc(), &OPEN);
}

/// Closed at 30 ms, called 100 ms late, and no response comes: it ends at 8830 ms, and 30 + 500 + 8000 + 3 (100 + 5) ms are stated.
static UNANSWERED: Session = Session {
    name: "a closed client ends without responses",
    start: Start::Allocated,
    steps: &[
        Step::Closes(30),
        Step::SendsLate(30, 130, 4, true),
        Step::SendsLate(630, 730, 4, true),
        Step::RestsLate(8_730, 8_830),
        Step::Ends(Why::Closed, None, None),
    ],
};

#[test]
fn a_closed_client_ends_without_responses(rt: HostRuntime) {
    plays(&rt, rt.alloc(), &UNANSWERED);
}

static ANSWERED: Session = Session {
    name: "a closed client ends with the response",
    start: Start::Allocated,
    steps: &[
        Step::Closes(30),
        Step::SendsLate(30, 130, 4, true),
        Step::Refreshes(180, 0),
        Step::Ends(Why::Closed, None, None),
    ],
};

#[test]
fn a_closed_client_ends_with_the_response(rt: HostRuntime) {
    plays(&rt, rt.alloc(), &ANSWERED);
}
