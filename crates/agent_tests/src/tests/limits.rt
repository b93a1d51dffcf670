//! The limit on candidates that packets bring: remote ones by requests, local ones by responses; and the one on candidates that are added.

use super::settings::MODERN;
use super::step::Call::*;
use super::step::Emitted::*;
use super::step::Held::*;
use super::step::Packet::*;
use super::step::Start::*;
use super::step::Step::*;
use super::step::{At, Count, Message, Setting};
use super::story::{Story, play};
use super::*;

#[test]
fn discovered_candidates_are_limited(rt: HostRuntime) -> Result<(), Fail> {
    play(rt.alloc(), &SENDERS)?;
    play(rt.alloc(), &MAPPED)
}

#[test]
fn added_candidates_are_limited(rt: HostRuntime) -> Result<(), Fail> {
    play(rt.alloc(), &ADDED)
}

const ADDED: [Story; 5] = [
    Story(
        "a_local_candidate_past_the_limit_is_not_added",
        &[
            Begin(New("aaaa", "p", 1)),
            Set(Setting::MaxCandidates(Some(2))),
            Does(Host(At(1, 1000))),
            Does(Host(At(1, 1001))),
            Fails(Own("candidate:1 1 udp 100 10.0.0.1 1002 typ host")),
            Holds(Locals(&[At(1, 1000), At(1, 1001)])),
            Set(Setting::MaxCandidates(None)),
            Does(Own("candidate:1 1 udp 100 10.0.0.1 1002 typ host")),
            Holds(Locals(&[At(1, 1000), At(1, 1001), At(1, 1002)])),
        ],
    ),
    Story(
        "a_discarded_candidate_is_not_counted",
        &[
            Begin(New("aaaa", "p", 1)),
            Set(Setting::MaxCandidates(Some(1))),
            Does(Own("candidate:1 1 udp 100 10.0.0.1 1000 typ host")),
            Does(Invalidate("candidate:1 1 udp 1 10.0.0.1 1000 typ host")),
            Does(Own("candidate:1 1 udp 100 10.0.0.1 1001 typ host")),
            // it would be enabled again
            Fails(Own("candidate:1 1 udp 100 10.0.0.1 1000 typ host")),
            Holds(Locals(&[At(1, 1001)])),
        ],
    ),
    Story(
        "a_remote_candidate_past_the_limit_is_ignored",
        &[
            Begin(Unpaired),
            Set(Setting::MaxCandidates(Some(1))),
            Does(Peer(PEER)),
            Does(Peer("candidate:1 1 udp 100 10.0.0.2 2001 typ host")),
            Holds(Remotes(&[At(2, 2000)])),
            Holds(HasPair("candidate:1 1 udp 100 10.0.0.2 2001 typ host", false)),
        ],
    ),
    Story(
        "a_packet_brings_candidates_past_the_limit",
        &[
            Begin(Unpaired),
            Write(Message::NoRole, "nearpass"),
            Set(Setting::MaxCandidates(Some(1))),
            Takes(Served(0, At(2, 2000))),
            Takes(Served(0, At(2, 2001))),
            // they count, and one that is signaled would take the place of the first
            Does(Peer(PEER)),
            Holds(Remotes(&[At(2, 2000), At(2, 2001)])),
            Holds(HasPair(PEER, false)),
        ],
    ),
    Story(
        "a_hundred_of_each_side_with_the_profile_modern",
        &[
            Begin(Unpaired),
            Set(Setting::All(MODERN)),
            Set(Setting::MaxPairs(200)),
            Does(Peers(101)),
            Holds(HasPair("candidate:1 1 udp 1 10.0.0.101 2000 typ host", true)),
            Holds(HasPair("candidate:1 1 udp 1 10.0.0.102 2000 typ host", false)),
        ],
    ),
];

const SENDERS: [Story; 8] = [
    Story(
        "without_a_limit_each_sender_is_stored",
        &[
            Begin(Unpaired),
            Write(Message::NoRole, "nearpass"),
            Set(Setting::MaxDiscovered(None)),
            Takes(Served(0, At(2, 2000))),
            Takes(Served(0, At(2, 2001))),
            Takes(Served(0, At(2, 2002))),
            Holds(Remotes(&[At(2, 2000), At(2, 2001), At(2, 2002)])),
        ],
    ),
    Story(
        "a_sender_past_the_limit_is_dropped",
        &[
            Begin(Unpaired),
            Write(Message::NoRole, "nearpass"),
            Set(Setting::MaxDiscovered(Some(2))),
            Takes(Served(0, At(2, 2000))),
            Takes(Served(0, At(2, 2001))),
            Takes(Unserved(0, At(2, 2002))),
            Holds(Remotes(&[At(2, 2000), At(2, 2001)])),
            Counts(Count::Requests, 3),
        ],
    ),
    Story(
        "a_known_sender_is_served_at_the_limit",
        &[
            Begin(Unpaired),
            Write(Message::NoRole, "nearpass"),
            Set(Setting::MaxDiscovered(Some(1))),
            Takes(Served(0, At(2, 2000))),
            Takes(Unserved(0, At(2, 2001))),
            Takes(Served(1, At(2, 2000))),
            Holds(Remotes(&[At(2, 2000)])),
        ],
    ),
    Story(
        "a_signaled_sender_needs_no_place",
        &[
            Begin(Unpaired),
            Write(Message::NoRole, "nearpass"),
            Set(Setting::MaxDiscovered(Some(0))),
            Takes(Unserved(0, At(2, 2000))),
            Does(Peer(PEER)),
            Takes(Served(1, At(2, 2000))),
            Takes(Unserved(2, At(2, 2001))),
            Holds(Remotes(&[At(2, 2000)])),
        ],
    ),
    Story(
        "a_discarded_sender_counts",
        &[
            Begin(Unpaired),
            Write(Message::NoRole, "nearpass"),
            Set(Setting::MaxDiscovered(Some(2))),
            Takes(Served(0, At(2, 2000))),
            Takes(Served(0, At(2, 2001))),
            Does(Invalidate("candidate:1 1 udp 100 10.0.0.2 2000 typ prflx")),
            // it has no pair now, so the next sender takes its place
            Takes(Served(1, At(2, 2002))),
            Takes(Unserved(1, At(2, 2003))),
            Holds(Remotes(&[At(2, 2002), At(2, 2001)])),
        ],
    ),
    Story(
        "a_sender_without_a_pair_makes_room",
        &[
            Begin(Unpaired),
            Write(Message::NoRole, "nearpass"),
            Set(Setting::MaxDiscovered(Some(1))),
            Set(Setting::OneCheck),
            Takes(Served(0, At(2, 2000))),
            Does(Check(0)),
            Takes(Unserved(1, At(2, 2001))),
            // the pair is removed
            Does(Timeout(22_000)),
            Takes(Served(22_001, At(2, 2001))),
            Holds(Remotes(&[At(2, 2001)])),
            Takes(Unserved(22_002, At(2, 2000))),
        ],
    ),
    Story(
        "only_the_newest_source_is_remembered",
        &[
            Begin(Unpaired),
            Write(Message::NoRole, "nearpass"),
            Set(Setting::MaxDiscovered(Some(1))),
            Takes(Served(0, At(2, 2000))),
            Emits(Discovers(Protocol::Udp, At(2, 2000))),
            Takes(Served(0, At(2, 2000))),
            Emits(Events("")),
            Takes(Unserved(0, At(2, 2001))),
            Emits(Discovers(Protocol::Udp, At(2, 2001))),
            Takes(Served(0, At(2, 2000))),
            Emits(Discovers(Protocol::Udp, At(2, 2000))),
            Emits(Events("")),
        ],
    ),
    Story(
        "sources_wait_while_events_do",
        &[
            Begin(Unpaired),
            Write(Message::NoRole, "nearpass"),
            Set(Setting::MaxDiscovered(Some(1))),
            Takes(Served(0, At(2, 2000))),
            Takes(Unserved(0, At(2, 2001))),
            Emits(Discovers(Protocol::Udp, At(2, 2000))),
            Emits(Events("")),
            Takes(Unserved(0, At(2, 2001))),
            Emits(Discovers(Protocol::Udp, At(2, 2001))),
            Counts(Count::Discovered, 2),
        ],
    ),
];

// ---- mapped addresses

const MAPPED: [Story; 4] = [
    Story(
        "without_a_limit_each_mapped_address_is_stored",
        &[
            Begin(Paired),
            Set(Setting::MaxDiscovered(None)),
            Does(Check(0)),
            Write(Message::Success(At(9, 9000)), "farpass"),
            Takes(Next(50)),
            Write(Message::Success(At(9, 9001)), "farpass"),
            Takes(Next(51)),
            Write(Message::Success(At(9, 9002)), "farpass"),
            Takes(Next(52)),
            Holds(Locals(&[At(1, 1000), At(9, 9000), At(9, 9001), At(9, 9002)])),
        ],
    ),
    Story(
        "a_mapped_address_past_the_limit_is_left_out",
        &[
            Begin(Paired),
            Set(Setting::MaxDiscovered(Some(2))),
            Does(Check(0)),
            Write(Message::Success(At(9, 9000)), "farpass"),
            Takes(Next(50)),
            Write(Message::Success(At(9, 9001)), "farpass"),
            Takes(Next(51)),
            Write(Message::Success(At(9, 9002)), "farpass"),
            Takes(Next(52)),
            Holds(Locals(&[At(1, 1000), At(9, 9000), At(9, 9001)])),
            Counts(Count::Responses, 3),
        ],
    ),
    Story(
        "a_peer_reflexive_candidate_of_the_caller_counts",
        &[
            Begin(Paired),
            Does(Own("candidate:1 1 udp 100 10.0.0.8 8000 typ prflx")),
            Does(Check(0)),
            Set(Setting::MaxDiscovered(Some(1))),
            Write(Message::Success(At(9, 9000)), "farpass"),
            Takes(Next(50)),
            Holds(Locals(&[At(1, 1000), At(8, 8000)])),
        ],
    ),
    // with a limit of 0 no source is reported either
    Story(
        "a_pair_is_selected_all_the_same",
        &[
            Begin(Paired),
            Set(Setting::MaxDiscovered(Some(0))),
            Does(Check(0)),
            Write(Message::Success(At(9, 9000)), "farpass"),
            Takes(Next(50)),
            Holds(Locals(&[At(1, 1000)])),
            Emits(Events("RcNC")),
        ],
    ),
];
