//! A TURN client allocates, renews and frees, and takes only what the server signed.

use super::{ASKS, CHALLENGED, SIGNS, Session, Start, Step, plays};
use is_turn::{Reason, Why};
use std::test::*;

static ALLOCATING: [Session; 13] = [
    Session {
        name: "a challenge, then an allocation",
        start: Start::Known,
        steps: &[
            ASKS,
            CHALLENGED,
            SIGNS,
            Step::Allocates(20, true),
            Step::Allocated,
            Step::Quiet,
            Step::Has(true),
        ],
    },
    Session {
        name: "an unsigned success counts for nothing",
        start: Start::Known,
        steps: &[
            ASKS,
            CHALLENGED,
            SIGNS,
            Step::Allocates(20, false),
            Step::Has(false),
            Step::Rests(510),
            Step::Ends(Why::Failed, None, Some(200)),
        ],
    },
    Session {
        name: "without credentials each response counts",
        start: Start::Open,
        steps: &[ASKS, Step::Allocates(20, false), Step::Has(true)],
    },
    // An authentic response to an earlier attempt counts, after a forged challenge too.
    Session {
        name: "a forged challenge shuts nothing out",
        start: Start::Known,
        steps: &[
            ASKS,
            CHALLENGED,
            SIGNS,
            Step::Challenged(15, 438, "forged", None),
            Step::Allocates(20, true),
            Step::Has(true),
        ],
    },
    Session {
        name: "three stale nonces are answered",
        start: Start::Known,
        steps: &[
            ASKS,
            CHALLENGED,
            Step::Steps(1),
            Step::Challenged(100, 438, "next", None),
            Step::Steps(1),
            Step::Challenged(100, 438, "next", None),
            Step::Steps(1),
            Step::Challenged(100, 438, "next", None),
            Step::Steps(1),
            Step::Challenged(200, 438, "next", Some(Reason::Challenge)),
        ],
    },
    // A 401 to a signed request: USERNAME or the password is wrong. The request is not sent again.
    Session {
        name: "a wrong password ends the client",
        start: Start::Known,
        steps: &[
            ASKS,
            CHALLENGED,
            SIGNS,
            Step::Challenged(20, 401, "nonce", None),
            Step::Rests(510),
            Step::Ends(Why::Failed, None, Some(401)),
        ],
    },
    // Two minutes before the end, counted from the time of the request.
    Session {
        name: "an allocation is renewed in time",
        start: Start::Allocated,
        steps: &[
            Step::KeepsAlive(23),
            Step::Sends(480_010, 4, true),
            Step::Refreshes(480_020, 600),
            Step::Quiet,
            Step::Has(true),
        ],
    },
    Session {
        name: "an allocation that is gone is lost",
        start: Start::Allocated,
        steps: &[
            Step::Steps(24),
            Step::Fails(480_020, false, 437, Some(Reason::Unauthentic)),
            Step::Has(true),
            Step::Fails(480_030, true, 437, None),
            Step::Ends(Why::Lost, Some(437), None),
            Step::Has(false),
        ],
    },
    // RFC 8489, section 6.2.1: the last packet is sent after 31500 ms.
    Session {
        name: "silence ends the client",
        start: Start::Known,
        steps: &[
            ASKS,
            Step::Sends(500, 3, false),
            Step::Sends(1500, 3, false),
            Step::Sends(3500, 3, false),
            Step::Sends(7500, 3, false),
            Step::Sends(15500, 3, false),
            Step::Sends(31500, 3, false),
            Step::Rests(39500),
            Step::Ends(Why::Failed, None, None),
        ],
    },
    // 486, Allocation Quota Reached: RFC 8656, section 19.
    Session {
        name: "an error ends the client",
        start: Start::Known,
        steps: &[
            ASKS,
            CHALLENGED,
            SIGNS,
            Step::Failed(20, 486),
            Step::Ends(Why::Failed, Some(486), None),
        ],
    },
    Session {
        name: "a renewal that failed is tried again",
        start: Start::Allocated,
        steps: &[
            Step::Steps(24),
            Step::Fails(480_020, true, 500, None),
            Step::Sends(490_020, 4, true),
            Step::Refreshes(490_030, 600),
            Step::Has(true),
        ],
    },
    // A stale nonce of a Refresh, which nobody has to sign: the realm stays, so the key does.
    Session {
        name: "a renewal takes another nonce",
        start: Start::Allocated,
        steps: &[
            Step::Steps(24),
            Step::Stale(480_020, "realm", None),
            Step::Sends(480_020, 4, true),
            Step::Stale(480_030, "other", Some(Reason::Challenge)),
        ],
    },
    Session {
        name: "a probe requests a Refresh",
        start: Start::Allocated,
        steps: &[
            Step::Probes(100),
            Step::Sends(100, 4, true),
            Step::Refreshes(110, 600),
            Step::Quiet,
        ],
    },
];

#[test]
fn a_client_allocates(rt: HostRuntime) {
    for session in &ALLOCATING {
        plays(&rt, rt.alloc(), session);
    }
}

static CLOSED: Session = Session {
    name: "a closed client frees its allocation",
    start: Start::Allocated,
    steps: &[
        Step::Closes(1000),
        Step::Sends(1000, 4, true),
        Step::Refreshes(1010, 0),
        Step::Ends(Why::Closed, None, None),
    ],
};

#[test]
fn a_closed_client_frees_its_allocation(rt: HostRuntime) {
    plays(&rt, rt.alloc(), &CLOSED);
}

/// What is closed while it asks frees what may have been made, as soon as it is there.
static LEAVES: Session = Session {
    name: "a client that leaves frees its allocation",
    start: Start::Known,
    steps: &[
        ASKS,
        CHALLENGED,
        SIGNS,
        Step::Closes(11),
        Step::Allocates(12, true),
        Step::Quiet,
        Step::Has(false),
        Step::Sends(12, 4, true),
    ],
};

#[test]
fn a_client_that_leaves_frees_its_allocation(rt: HostRuntime) {
    plays(&rt, rt.alloc(), &LEAVES);
}
