//! Pairs: which are formed, their numbers and priorities, and which are replaced or removed.

use super::step::Call::*;
use super::step::Emitted::*;
use super::step::Held::*;
use super::step::Packet::*;
use super::step::Shown::*;
use super::step::Start::*;
use super::step::Step::*;
use super::step::{At, Setting, Whose};
use super::story::{Story, play};
use super::*;
use is::Profile;
use is::pair::CheckState;

#[test]
fn pairs_stay_or_go(rt: HostRuntime) -> Result<(), Fail> {
    play(rt.alloc(), &FORMED)?;
    play(rt.alloc(), &SENDERS)?;
    play(rt.alloc(), &LIMITED)?;
    play(rt.alloc(), &VALID)
}

/// The peer's server-reflexive candidate, at the address of its host candidate.
const REFLEXIVE: &str = "candidate:1 1 udp 100 10.0.0.2 2000 typ srflx";

const OTHER: &str = "candidate:1 1 udp 2130706175 10.0.0.3 3000 typ host";

/// The candidate that the sender of the request becomes.
const SENDER: &str = "candidate:1 1 udp 1853824767 10.0.0.2 2000 typ prflx";

/// A candidate with priority 0.
const ZERO: &str = "candidate:1 1 udp 0 10.0.0.2 2000 typ host";

const FORMED: [Story; 3] = [
    Story(
        "a_pair_of_greater_priority_replaces",
        &[
            Begin(Unpaired),
            Does(Peer(REFLEXIVE)),
            Does(Check(0)),
            Takes(Answer(50, At(2, 2000))),
            Emits(Events("RcNCD")),
            Holds(Prio(REFLEXIVE, 433758141951)),
            Shows(Figures(50, 50, 1)),
            Does(Peer(PEER)),
            Holds(HasPair(REFLEXIVE, false)),
            Shows(NoFigures),
            Holds(Number(PEER, 1)),
            Holds(Prio(PEER, 9151313343271665150)),
            Holds(Nominated(PEER)),
            Holds(PairState(PEER, CheckState::Succeeded)),
        ],
    ),
    Story(
        "a_replacing_pair_is_selected_again",
        &[
            Begin(Unpaired),
            Does(Peer(REFLEXIVE)),
            Does(Check(0)),
            Takes(Answer(50, At(2, 2000))),
            Emits(Events("RcNCD")),
            Does(Peer(PEER)),
            Does(Check(100)),
            Emits(Checked(92, true)),
            Emits(Events("N")),
            Shows(NoResponse),
            // the first check was removed with its pair
            Shows(Accepts(false)),
            Drops(Next(110)),
        ],
    ),
    Story(
        "what_is_redundant_takes_no_number",
        &[
            Begin(Paired),
            Does(Peer(REFLEXIVE)),
            Holds(HasPair(REFLEXIVE, false)),
            Holds(Number(PEER, 0)),
            Holds(Remotes(&[At(2, 2000), At(2, 2000)])),
            Does(Peer(OTHER)),
            Holds(Number(OTHER, 1)),
        ],
    ),
];

// ---- candidates of requests

const SENDERS: [Story; 3] = [
    Story(
        "the_sender_of_a_request_is_overwritten",
        &[
            Begin(Known),
            Takes(Request(0, At(1, 1000))),
            Holds(Nominated(SENDER)),
            Holds(Prio(SENDER, 7962116751041232382)),
            Does(Peer(PEER)),
            Holds(Remotes(&[At(2, 2000)])),
            Holds(HasPair(SENDER, false)),
            Holds(Number(PEER, 1)),
            Holds(Prio(PEER, 9151313343271665150)),
            Holds(Nominated(PEER)),
            Holds(PairState(PEER, CheckState::Waiting)),
        ],
    ),
    Story(
        "the_pair_of_a_sender_stays_where_a_lesser_candidate_overwrites",
        &[
            Begin(Known),
            Takes(Request(0, At(1, 1000))),
            Does(Peer(REFLEXIVE)),
            Holds(Remotes(&[At(2, 2000)])),
            Holds(HasPair(SENDER, false)),
            // the pair has the reflexive candidate now, with the priority that it was formed with
            Holds(Number(REFLEXIVE, 0)),
            Holds(Nominated(REFLEXIVE)),
            Holds(Prio(REFLEXIVE, 7962116751041232382)),
            // so it is recognized when it is added again, and when the peer sends another request
            Does(Peer(REFLEXIVE)),
            Takes(Request(1, At(1, 1000))),
            Holds(Remotes(&[At(2, 2000)])),
            Holds(Number(REFLEXIVE, 0)),
        ],
    ),
    Story(
        "the_protocol_is_not_compared_where_one_is_overwritten",
        &[
            Begin(Known),
            Takes(Request(0, At(1, 1000))),
            Does(Peer("candidate:1 1 tcp 7 10.0.0.2 2000 typ host")),
            Holds(Remotes(&[At(2, 2000)])),
            // the sender over UDP is unknown again
            Takes(Request(1, At(1, 1000))),
            Holds(HasPair(SENDER, true)),
            Holds(Remotes(&[At(2, 2000), At(2, 2000)])),
        ],
    ),
];

// ---- the limit, and priorities

const LIMITED: [Story; 4] = [
    Story(
        "the_limit_acts_where_pairs_are_formed",
        &[
            Begin(Known),
            Set(Setting::MaxPairs(0)),
            Does(Peer(PEER)),
            Holds(HasPair(PEER, false)),
            // not when a request adds one
            Takes(Request(0, At(1, 1000))),
            Holds(HasPair(PEER, true)),
            // also when there is nothing to form
            Does(Peer("candidate:1 1 tcp 7 10.0.0.9 9000 typ host")),
            Holds(HasPair(PEER, false)),
        ],
    ),
    Story(
        "pairs_of_least_priority_go",
        &[
            Begin(Unpaired),
            Does(Peer(REFLEXIVE)),
            Set(Setting::MaxPairs(1)),
            // nothing is formed: existing pairs stay
            Holds(HasPair(REFLEXIVE, true)),
            Does(Peer(OTHER)),
            Holds(HasPair(REFLEXIVE, false)),
            Does(Peer("candidate:1 1 udp 7 10.0.0.4 4000 typ host")),
            Holds(HasPair(OTHER, true)),
            Holds(Remotes(&[At(2, 2000), At(3, 3000), At(4, 4000)])),
        ],
    ),
    // the pair of the path is gone; the original leaves the event
    Story(
        "pairs_that_are_formed_again_leave_no_selection_behind",
        &[
            Begin(Paired),
            Set(Setting::Profile(Profile::Modern)),
            Does(Check(0)),
            Takes(Answer(50, At(2, 2000))),
            Does(Recreate),
            Emits(Selected(None)),
            Begin(Paired),
            Set(Setting::Profile(Profile::Original)),
            Does(Check(0)),
            Takes(Answer(50, At(2, 2000))),
            Does(Recreate),
            Emits(Selected(Some(At(2, 2000)))),
        ],
    ),
    Story(
        "a_role_that_the_caller_sets_leaves_priorities",
        &[
            Begin(Unpaired),
            Does(Peer(ZERO)),
            Holds(Prio(ZERO, 4261412351)),
            Set(Setting::Controlling(false)),
            Holds(Prio(ZERO, 4261412351)),
            Does(Recreate),
            Holds(Prio(ZERO, 4261412350)),
        ],
    ),
];

// ---- valid pairs that are not nominated

/// A host candidate of the peer of less priority than `PEER`.
const LESSER: &str = "candidate:1 1 udp 2130706174 10.0.0.3 3000 typ host";

const VALID: [Story; 1] = [Story(
    "media_may_go_on_a_valid_path_before_nomination",
    &[
        Begin(Paired),
        Set(Setting::Controlling(false)),
        Does(Peer(LESSER)),
        Shows(ValidPath(None)),
        Does(CheckTo(0, At(2, 2000), false)),
        Does(CheckTo(50, At(3, 3000), false)),
        Shows(ValidPath(None)),
        Takes(Answer(60, At(3, 3000))),
        Shows(ValidPath(Some((At(1, 1000), At(3, 3000))))),
        Does(CheckTo(250, At(2, 2000), false)),
        Takes(Answer(260, At(2, 2000))),
        Shows(ValidPath(Some((At(1, 1000), At(2, 2000))))),
        Emits(Selected(None)),
        Does(Creds(Whose::Restarted, "next", "nextpass")),
        Shows(ValidPath(None)),
    ],
)];
