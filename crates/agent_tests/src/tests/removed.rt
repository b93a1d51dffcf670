//! Why pairs were removed.

use super::settings::LITE;
use super::step::Call::*;
use super::step::Emitted::*;
use super::step::Held::*;
use super::step::Packet::*;
use super::step::Start::*;
use super::step::Step::*;
use super::step::{At, Message, Setting, Whose};
use super::story::{Story, play};
use super::*;
use is::Profile;
use is_agent::removed::Removal;

#[test]
fn removed_pairs_are_listed(rt: HostRuntime) -> Result<(), Fail> {
    play(rt.alloc(), &SILENT)?;
    play(rt.alloc(), &FORMED)
}

const THERE: At = At(2, 2000);

const SECOND: At = At(3, 2000);

/// A candidate of the peer at 10.0.0.3:2000, of lower priority than the first one.
const OTHER: &str = "candidate:1 1 udp 2130706174 10.0.0.3 2000 typ host";

// ---- no response, and consent

const SILENT: [Story; 4] = [
    Story(
        "without_a_response",
        &[
            Begin(Paired),
            Set(Setting::TwoChecks),
            Does(Check(0)),
            Does(Check(250)),
            Holds(Removed(&[])),
            Does(Timeout(750)),
            Holds(Removed(&[(THERE, Removal::NoResponse, 2, None)])),
            // an ICE restart forgets them
            Does(Creds(Whose::Restarted, "next", "nextpass")),
            Holds(Removed(&[])),
        ],
    ),
    Story(
        "with_an_error_response",
        &[
            Begin(Paired),
            Set(Setting::TwoChecks),
            Does(Check(0)),
            Write(Message::BadRequest, "farpass"),
            Takes(Next(10)),
            Does(Check(250)),
            Does(Timeout(750)),
            Holds(Removed(&[(THERE, Removal::NoResponse, 2, Some(400))])),
        ],
    ),
    Story(
        "after_a_response",
        &[
            Begin(Paired),
            Set(Setting::Profile(Profile::Modern)),
            Set(Setting::Consent(29_600, false)),
            Does(Check(0)),
            Takes(Answer(10, THERE)),
            Does(Timeout(29_599)),
            Holds(Removed(&[])),
            Does(Timeout(29_600)),
            Holds(Removed(&[(THERE, Removal::ConsentLost, 2, None)])),
        ],
    ),
    Story(
        "of_a_lite_agent",
        &[
            Begin(New("near", "nearpass", 7)),
            Set(Setting::Lite),
            Does(Creds(Whose::Remote, "farr", "farpass")),
            Does(Host(At(1, 1000))),
            Write(Message::Request(true, true), "nearpass"),
            Takes(Served(0, THERE)),
            Does(Timeout(LITE - 1)),
            Holds(Removed(&[])),
            Does(Timeout(LITE)),
            Holds(Removed(&[(THERE, Removal::PeerSilent, 0, None)])),
        ],
    ),
];

// ---- candidates

const FORMED: [Story; 4] = [
    Story(
        "an_invalidated_candidate",
        &[
            Begin(Paired),
            Does(Peer(OTHER)),
            Does(Invalidate(PEER)),
            Holds(Removed(&[(THERE, Removal::Invalidated, 0, None)])),
            Does(Invalidate(OTHER)),
            Holds(Removed(&[
                (THERE, Removal::Invalidated, 0, None),
                (SECOND, Removal::Invalidated, 0, None),
            ])),
        ],
    ),
    Story(
        "a_pair_over_the_limit",
        &[
            Begin(Unpaired),
            Set(Setting::MaxPairs(1)),
            Does(Peer(OTHER)),
            Does(Check(0)),
            Does(Peer(PEER)),
            Holds(Removed(&[(SECOND, Removal::Evicted, 1, None)])),
        ],
    ),
    // a request from 10.0.0.2:2000 made a pair, before its candidate was signaled with a higher priority
    Story(
        "a_pair_of_a_signaled_candidate",
        &[
            Begin(Unpaired),
            Write(Message::NoRole, "nearpass"),
            Takes(Served(0, THERE)),
            Emits(Events("D")),
            Does(Peer(PEER)),
            Holds(Removed(&[(THERE, Removal::Replaced, 0, None)])),
        ],
    ),
    Story(
        "at_most_32_are_listed",
        &[
            Begin(Unpaired),
            Set(Setting::MaxPairs(1)),
            Does(Peers(34)),
            Does(Invalidate(PEER)),
            Holds(LastRemoved(32, THERE, Removal::Invalidated)),
        ],
    ),
];
