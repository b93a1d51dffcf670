//! Renomination: each nomination replaces the ones before, so that both agents select the same path.

use super::step::Call::*;
use super::step::Emitted::*;
use super::step::Packet::*;
use super::step::Start::*;
use super::step::Step::*;
use super::step::{At, Message, Setting, Shown};
use super::story::{Story, play};
use super::*;

#[test]
fn nominations_replace_earlier_ones(rt: HostRuntime) -> Result<(), Fail> {
    play(rt.alloc(), &CONTROLLING)?;
    play(rt.alloc(), &CONTROLLED)
}

/// Two candidates of the peer, the first one with the greater priority. The stories begin a minute after the beginning.
const FIRST: &str = "candidate:1 1 udp 2000 10.0.0.2 2000 typ host";

const SECOND: &str = "candidate:1 1 udp 1000 10.0.0.3 2000 typ host";

const AT_FIRST: At = At(2, 2000);

const AT_SECOND: At = At(3, 2000);

const CONTROLLING: [Story; 2] = [
    Story(
        "it_is_off_until_it_is_set",
        &[
            Begin(Unpaired),
            Shows(Shown::Renomination(false)),
            Begin(Unpaired),
            Set(Setting::Controlling(true)),
            Set(Setting::Renomination(true)),
            Does(Peer(FIRST)),
            Does(Peer(SECOND)),
            Shows(Shown::Renomination(true)),
        ],
    ),
    // the agent selects the second pair, and then the first one; both are nominated at 60 s
    Story(
        "a_controlling_agent_nominates_by_the_selected_pair_only",
        &[
            Begin(Unpaired),
            Set(Setting::Controlling(true)),
            Set(Setting::Renomination(true)),
            Does(Peer(FIRST)),
            Does(Peer(SECOND)),
            Does(CheckTo(60_000, AT_FIRST, false)),
            Does(CheckTo(60_050, AT_SECOND, false)),
            Takes(Answer(60_060, AT_SECOND)),
            Emits(Selected(Some(AT_SECOND))),
            Does(CheckTo(60_100, AT_SECOND, true)),
            Takes(Answer(60_110, AT_SECOND)),
            Does(CheckTo(60_250, AT_FIRST, false)),
            Takes(Answer(60_260, AT_FIRST)),
            Emits(Selected(Some(AT_FIRST))),
            Does(CheckTo(60_300, AT_FIRST, true)),
            // the next check of the second pair
            Does(CheckTo(60_600, AT_SECOND, false)),
            Begin(Unpaired),
            Set(Setting::Controlling(true)),
            Set(Setting::Renomination(false)),
            Does(Peer(FIRST)),
            Does(Peer(SECOND)),
            Does(CheckTo(60_000, AT_FIRST, false)),
            Does(CheckTo(60_050, AT_SECOND, false)),
            Takes(Answer(60_060, AT_SECOND)),
            Emits(Selected(Some(AT_SECOND))),
            Does(CheckTo(60_100, AT_SECOND, true)),
            Takes(Answer(60_110, AT_SECOND)),
            Does(CheckTo(60_250, AT_FIRST, false)),
            Takes(Answer(60_260, AT_FIRST)),
            Emits(Selected(Some(AT_FIRST))),
            Does(CheckTo(60_300, AT_FIRST, true)),
            Does(CheckTo(60_600, AT_SECOND, true)),
        ],
    ),
];

// ---- controlled agents: each check is answered, so both pairs are valid

const CONTROLLED: [Story; 5] = [
    Story(
        "a_controlled_agent_follows_the_last_nomination",
        &[
            Begin(Unpaired),
            Set(Setting::Controlling(false)),
            Set(Setting::Renomination(true)),
            Does(Peer(FIRST)),
            Does(Peer(SECOND)),
            Does(CheckTo(60_000, AT_FIRST, false)),
            Takes(Answer(60_010, AT_FIRST)),
            Does(CheckTo(60_050, AT_SECOND, false)),
            Takes(Answer(60_060, AT_SECOND)),
            Emits(Selected(None)),
            Write(Message::Request(true, true), "nearpass"),
            Takes(Served(60_070, AT_FIRST)),
            Does(Timeout(60_100)),
            Emits(Polled),
            Emits(Selected(Some(AT_FIRST))),
            Write(Message::Request(true, true), "nearpass"),
            Takes(Served(60_110, AT_SECOND)),
            Does(Timeout(60_150)),
            Emits(Polled),
            Emits(Selected(Some(AT_SECOND))),
            Write(Message::Request(true, true), "nearpass"),
            Takes(Served(60_160, AT_FIRST)),
            Does(Timeout(60_200)),
            Emits(Polled),
            Emits(Selected(Some(AT_FIRST))),
            // otherwise it stays on the path of greatest priority
            Begin(Unpaired),
            Set(Setting::Controlling(false)),
            Set(Setting::Renomination(false)),
            Does(Peer(FIRST)),
            Does(Peer(SECOND)),
            Does(CheckTo(60_000, AT_FIRST, false)),
            Takes(Answer(60_010, AT_FIRST)),
            Does(CheckTo(60_050, AT_SECOND, false)),
            Takes(Answer(60_060, AT_SECOND)),
            Emits(Selected(None)),
            Write(Message::Request(true, true), "nearpass"),
            Takes(Served(60_070, AT_FIRST)),
            Does(Timeout(60_100)),
            Emits(Polled),
            Emits(Selected(Some(AT_FIRST))),
            Write(Message::Request(true, true), "nearpass"),
            Takes(Served(60_110, AT_SECOND)),
            Does(Timeout(60_150)),
            Emits(Polled),
            Emits(Selected(None)),
        ],
    ),
    Story(
        "a_controlled_agent_keeps_its_path_until_the_next_one_is_answered",
        &[
            Begin(Unpaired),
            Set(Setting::Controlling(false)),
            Set(Setting::Renomination(true)),
            Does(Peer(FIRST)),
            Does(Peer(SECOND)),
            Does(CheckTo(60_000, AT_FIRST, false)),
            Takes(Answer(60_010, AT_FIRST)),
            Write(Message::Request(true, true), "nearpass"),
            Takes(Served(60_020, AT_FIRST)),
            Write(Message::Request(true, true), "nearpass"),
            Takes(Served(60_030, AT_SECOND)),
            // of the two nominated pairs only the first is valid; it is due at once
            Does(CheckTo(60_050, AT_FIRST, false)),
            Emits(Selected(Some(AT_FIRST))),
            Does(CheckTo(60_100, AT_SECOND, false)),
            Emits(Selected(None)),
            Takes(Answer(60_110, AT_SECOND)),
            Emits(Selected(Some(AT_SECOND))),
        ],
    ),
    // the agent stays at a pair of the same priority, unless it follows its peer
    Story(
        "the_same_priority_makes_no_difference",
        &[
            Begin(Unpaired),
            Set(Setting::Controlling(false)),
            Does(Peer(FIRST)),
            Does(Peer("candidate:1 1 udp 2000 10.0.0.3 2000 typ host")),
            Does(CheckTo(60_000, AT_FIRST, false)),
            Takes(Answer(60_010, AT_FIRST)),
            Does(CheckTo(60_050, AT_SECOND, false)),
            Takes(Answer(60_060, AT_SECOND)),
            Emits(Selected(None)),
            Write(Message::Request(true, true), "nearpass"),
            Takes(Served(60_070, AT_FIRST)),
            Does(Timeout(60_100)),
            Emits(Polled),
            Emits(Selected(Some(AT_FIRST))),
            Write(Message::Request(true, true), "nearpass"),
            Takes(Served(60_110, AT_SECOND)),
            Does(Timeout(60_150)),
            Emits(Polled),
            Emits(Selected(None)),
            Set(Setting::Renomination(true)),
            Does(Timeout(60_200)),
            Emits(Polled),
            Emits(Selected(Some(AT_SECOND))),
        ],
    ),
    Story(
        "a_request_without_nomination_changes_nothing",
        &[
            Begin(Unpaired),
            Set(Setting::Controlling(false)),
            Set(Setting::Renomination(true)),
            Does(Peer(FIRST)),
            Does(Peer(SECOND)),
            Does(CheckTo(60_000, AT_FIRST, false)),
            Takes(Answer(60_010, AT_FIRST)),
            Does(CheckTo(60_050, AT_SECOND, false)),
            Takes(Answer(60_060, AT_SECOND)),
            Emits(Selected(None)),
            Write(Message::Request(true, true), "nearpass"),
            Takes(Served(60_070, AT_SECOND)),
            Does(Timeout(60_100)),
            Emits(Polled),
            Emits(Selected(Some(AT_SECOND))),
            Write(Message::Request(true, false), "nearpass"),
            Takes(Served(60_110, AT_FIRST)),
            Does(Timeout(60_150)),
            Emits(Polled),
            Emits(Selected(None)),
        ],
    ),
    Story(
        "if_the_followed_pair_goes_another_nominated_one_is_selected",
        &[
            Begin(Unpaired),
            Set(Setting::Controlling(false)),
            Set(Setting::Renomination(true)),
            Does(Peer(FIRST)),
            Does(Peer(SECOND)),
            Does(CheckTo(60_000, AT_FIRST, false)),
            Takes(Answer(60_010, AT_FIRST)),
            Does(CheckTo(60_050, AT_SECOND, false)),
            Takes(Answer(60_060, AT_SECOND)),
            Emits(Selected(None)),
            Write(Message::Request(true, true), "nearpass"),
            Takes(Served(60_070, AT_FIRST)),
            Does(Timeout(60_100)),
            Emits(Polled),
            Write(Message::Request(true, true), "nearpass"),
            Takes(Served(60_110, AT_SECOND)),
            Does(Timeout(60_150)),
            Emits(Polled),
            Emits(Selected(Some(AT_SECOND))),
            Does(Invalidate(SECOND)),
            Does(Timeout(60_200)),
            Emits(Polled),
            Emits(Selected(Some(AT_FIRST))),
        ],
    ),
];
