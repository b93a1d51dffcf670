//! A TURN client permits its peers, sends to them, and takes data of no others.

use super::{ASKS, CHALLENGED, Peer, SIGNS, Session, Start, Step, plays};
use is_turn::Why;
use std::test::*;

const A: Peer = (1, 1000);

static RELAYING: [Session; 9] = [
    Session {
        name: "a peer is permitted by its address",
        start: Start::Allocated,
        steps: &[
            Step::Data(90, A, false),
            Step::Permits(100, A, true),
            Step::Sends(100, 8, true),
            Step::Answers(120, None),
            Step::Data(130, A, true),
            Step::Data(130, (1, 2000), true),
            Step::Data(130, (2, 1000), false),
        ],
    },
    // 403, Forbidden: the peer is requested again after a minute.
    Session {
        name: "a forbidden peer is reported",
        start: Start::Allocated,
        steps: &[
            Step::Permits(100, A, true),
            Step::Steps(1),
            Step::Answers(120, Some(403)),
            Step::Barred(1, Some(403)),
            Step::Quiet,
            Step::Permits(60_119, A, false),
            Step::Data(60_119, A, false),
            Step::Permits(60_120, A, true),
        ],
    },
    // Silence is no permission either.
    Session {
        name: "an unanswered permission is reported",
        start: Start::Allocated,
        steps: &[
            Step::Permits(100, A, true),
            Step::Until(12, u64::MAX / 1_000_000),
            Step::Barred(1, None),
        ],
    },
    // Some servers without an allocation return 400 here, and 437 to a Refresh.
    Session {
        name: "an error of a permission probes the allocation",
        start: Start::Allocated,
        steps: &[
            Step::Permits(100, A, true),
            Step::Steps(1),
            Step::Answers(120, Some(400)),
            Step::Sends(120, 4, true),
            Step::Fails(130, true, 437, None),
            Step::Ends(Why::Lost, Some(437), None),
            Step::Permits(140, A, false),
        ],
    },
    // Of five minutes two are left; what was used since is renewed, and what was not lapses.
    Session {
        name: "a permission is renewed while it is used",
        start: Start::Allocated,
        steps: &[
            Step::Permits(100, A, true),
            Step::Permits(100, (2, 1000), true),
            Step::Steps(1),
            Step::Answers(120, None),
            Step::Steps(1),
            Step::Answers(120, None),
            Step::Data(200, A, true),
            Step::Until(20, 180_099),
            Step::Sends(180_100, 8, true),
            Step::Answers(180_120, None),
            Step::Until(20, 300_105),
            Step::Data(300_110, A, true),
            Step::Data(300_110, (2, 1000), false),
        ],
    },
    // While the channel is not bound, data goes in Send indications.
    Session {
        name: "media gets a channel",
        start: Start::Allocated,
        steps: &[
            Step::Other(100, A),
            Step::Media(100, A, 0x16),
            Step::Sends(100, 8, true),
            Step::Answers(110, None),
            Step::Sends(105, 9, true),
            Step::Answers(120, None),
            Step::Media(130, A, 0x4001),
            Step::Channel(A, Some(0x4001)),
            Step::Channel((1, 2000), None),
            Step::OverChannel(140, A),
        ],
    },
    // There are four places, and a place is given to another peer once it is not in use.
    Session {
        name: "places are few",
        start: Start::Allocated,
        steps: &[
            Step::Permits(100, A, true),
            Step::Permits(100, (2, 1000), true),
            Step::Permits(100, (3, 1000), true),
            Step::Permits(100, (4, 1000), true),
            Step::Permits(100, (5, 1000), false),
            Step::Steps(1),
            Step::Answers(120, None),
            Step::Steps(1),
            Step::Answers(120, None),
            Step::Steps(1),
            Step::Answers(120, None),
            Step::Steps(1),
            Step::Answers(120, None),
            Step::Until(30, 300_200),
            Step::Permits(300_300, (5, 1000), true),
        ],
    },
    // Peers that are named before the allocation is made are permitted then.
    Session {
        name: "peers wait for the allocation",
        start: Start::Open,
        steps: &[
            Step::Permits(0, A, true),
            ASKS,
            Step::Allocates(20, false),
            Step::Allocated,
            Step::DueBy(20),
            Step::Late(20),
            Step::Sent(8),
        ],
    },
    // A response that nobody signed changes no permission.
    Session {
        name: "an unsigned response permits nobody",
        start: Start::Known,
        steps: &[
            ASKS,
            CHALLENGED,
            SIGNS,
            Step::Allocates(20, true),
            Step::Permits(100, A, true),
            Step::Steps(1),
            Step::Forged(110),
            Step::Data(120, A, true),
        ],
    },
];

#[test]
fn a_client_relays(rt: HostRuntime) {
    for session in &RELAYING {
        plays(&rt, rt.alloc(), session);
    }
}
