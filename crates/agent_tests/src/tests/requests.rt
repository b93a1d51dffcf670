//! Requests: answered with a success or an error response, or dropped.

use super::step::Call::*;
use super::step::Count::*;
use super::step::Emitted::*;
use super::step::Held::*;
use super::step::Packet::*;
use super::step::Shown::*;
use super::step::Start::*;
use super::step::Step::*;
use super::step::{At, Message, Whose};
use super::story::{Story, play};
use super::*;

#[test]
fn requests_are_served_or_not(rt: HostRuntime) -> Result<(), Fail> {
    play(rt.alloc(), &SENDERS)?;
    play(rt.alloc(), &TARGETS)?;
    play(rt.alloc(), &ROLES)
}

const HERE: At = At(1, 1000);

const THERE: At = At(2, 2000);

const SENDERS: [Story; 3] = [
    Story(
        "the_request_is_answered",
        &[
            Begin(Known),
            Takes(Request(0, HERE)),
            Emits(Issued(HERE, THERE)),
            Emits(Sends),
            Emits(Replied(PASSWORD)),
            Emits(SentFrom(HERE, THERE)),
        ],
    ),
    Story(
        "its_source_is_reported_once",
        &[
            Begin(Known),
            Takes(Request(0, HERE)),
            Emits(Discovers(Protocol::Udp, THERE)),
            Takes(Request(1, HERE)),
            Emits(Events("")),
            Shows(NoNext),
            Counts(Discovered, 1),
        ],
    ),
    Story(
        "its_source_is_reported_once_for_each_protocol",
        &[
            Begin(Known),
            Takes(Over(Protocol::Udp)),
            Emits(Discovers(Protocol::Udp, THERE)),
            Emits(Events("")),
            Takes(Over(Protocol::Tcp)),
            Emits(Discovers(Protocol::Tcp, THERE)),
            Emits(Events("")),
            Takes(Over(Protocol::Tcp)),
            Emits(Events("")),
            Takes(Over(Protocol::Udp)),
            Emits(Events("")),
            Counts(Discovered, 2),
        ],
    ),
];

const TARGETS: [Story; 4] = [
    // the request is for the first agent, and for none of the others
    Story(
        "a_request_for_others_changes_nothing",
        &[
            Begin(New("p9KA", PASSWORD, 1)),
            Does(Creds(Whose::Remote, "SQAt", "x")),
            Does(Host(HERE)),
            Takes(Request(0, HERE)),
            Begin(New("p9KA", "xJcE9AQAR7kczUDVOXRUCm", 1)),
            Does(Creds(Whose::Remote, "SQAt", "x")),
            Does(Host(HERE)),
            Drops(Request(0, HERE)),
            Emits(Nothing),
            Begin(New("p9KB", PASSWORD, 1)),
            Does(Creds(Whose::Remote, "SQAt", "x")),
            Does(Host(HERE)),
            Drops(Request(0, HERE)),
            Emits(Nothing),
            Begin(New("p9KA", PASSWORD, 1)),
            Does(Creds(Whose::Remote, "SQAu", "x")),
            Does(Host(HERE)),
            Drops(Request(0, HERE)),
            Emits(Nothing),
        ],
    ),
    Story(
        "a_request_to_no_local_candidate_is_dropped",
        &[
            Begin(Known),
            Takes(Request(0, At(1, 1001))),
            Emits(NoPacket),
            Emits(Discovers(Protocol::Udp, THERE)),
            Counts(Requests, 0),
        ],
    ),
    Story(
        "a_request_to_a_discarded_candidate_forms_no_pair",
        &[
            Begin(Known),
            Does(Invalidate("candidate:1 1 udp 1 10.0.0.1 1000 typ host")),
            Takes(Request(0, HERE)),
            Emits(Events("D")),
            Emits(NoPacket),
            // it counts, and its sender is stored
            Counts(Requests, 1),
            Holds(Remotes(&[THERE])),
        ],
    ),
    Story(
        "a_request_of_a_discarded_sender_is_dropped",
        &[
            Begin(Known),
            Does(Peer(PEER)),
            Does(Invalidate(PEER)),
            Takes(Request(0, HERE)),
            Emits(Events("D")),
            Emits(NoPacket),
            Counts(Requests, 1),
            Holds(Remotes(&[])),
        ],
    ),
];

// ---- requests of other parts, to a controlling agent

const ROLES: [Story; 3] = [
    Story(
        "a_controlling_agent_is_not_asked_to_nominate",
        &[
            Begin(Unpaired),
            Write(Message::Nomination, "nearpass"),
            Takes(Next(0)),
            Emits(Events("D")),
            Emits(NoPacket),
            Counts(Requests, 0),
            Shows(Controlling(true)),
            Holds(Remotes(&[])),
        ],
    ),
    Story(
        "a_request_of_no_role_is_served",
        &[
            Begin(Unpaired),
            Write(Message::NoRole, "nearpass"),
            Takes(Served(0, THERE)),
            Shows(Controlling(true)),
            Holds(Remotes(&[THERE])),
        ],
    ),
    Story(
        "of_two_roles_that_of_the_agent_counts_once",
        &[
            Begin(Unpaired),
            Write(Message::BothRoles, "nearpass"),
            Takes(Served(0, THERE)),
            Shows(Controlling(false)),
        ],
    ),
];
