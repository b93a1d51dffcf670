//! The connection state with the profile `Modern`: the agent is Connected or Completed if and only if the path of the last
//! `NominatedSend` is that of a pair that can be used.

use super::step::Call::*;
use super::step::Emitted::*;
use super::step::Packet::*;
use super::step::Shown::*;
use super::step::Start::*;
use super::step::Step::*;
use super::step::{At, Message, Setting, Step, Whose};
use super::story::{Story, play};
use super::*;
use is::Profile;

#[test]
fn the_state_follows_nomination(rt: HostRuntime) -> Result<(), Fail> {
    play(rt.alloc(), &TIMEOUTS)?;
    play(rt.alloc(), &REQUESTS)?;
    play(rt.alloc(), &CANDIDATES)
}

const THERE: At = At(2, 2000);

pub(super) const SECOND: At = At(3, 2000);

/// A candidate of the peer at 10.0.0.3:2000, of lower priority than the first one.
pub(super) const OTHER: &str = "candidate:1 1 udp 2130706174 10.0.0.3 2000 typ host";

// ---- handle_timeout

/// Both paths are valid, and the better one is lost.
const LOST: [Step; 9] = [
    Does(Peer(PEER)),
    Does(Peer(OTHER)),
    Does(CheckTo(0, THERE, false)),
    Takes(Answer(10, THERE)),
    Emits(Events("RcNkD")),
    Does(CheckTo(50, SECOND, false)),
    Takes(Answer(60, SECOND)),
    Emits(Events("D")),
    Does(Invalidate(PEER)),
];

/// With the profile `Modern` both paths are valid, and the better one is lost, which was nominated before the other one was checked.
const LOST_MODERN: [Step; 11] = [
    Does(Peer(PEER)),
    Does(Peer(OTHER)),
    Does(CheckTo(0, THERE, false)),
    Takes(Answer(10, THERE)),
    Emits(Events("RcNkD")),
    Does(CheckTo(50, THERE, true)),
    Takes(Answer(60, THERE)),
    Does(CheckTo(100, SECOND, false)),
    Takes(Answer(110, SECOND)),
    Emits(Events("D")),
    Does(Invalidate(PEER)),
];

const TIMEOUTS: [Story; 7] = [
    Story(
        "with_the_original",
        &[Begin(Unpaired), Set(Setting::Profile(Profile::Original))],
    ),
    Story("both_paths_are_valid", &LOST),
    // a state is emitted before the path, and stays
    Story(
        "with_the_original_a_call_that_selects_is_checking",
        &[
            Does(Timeout(100)),
            Emits(Events("cN")),
            Shows(State(IceConnectionState::Checking)),
        ],
    ),
    Story(
        "with_modern",
        &[Begin(Unpaired), Set(Setting::Profile(Profile::Modern))],
    ),
    Story("both_paths_are_valid_again", &LOST_MODERN),
    Story(
        "with_modern_a_call_that_selects_is_completed",
        &[
            Does(Timeout(150)),
            Emits(Events("NC")),
            Shows(State(IceConnectionState::Completed)),
        ],
    ),
    // the first call emits the start and Checking, as with the original
    Story(
        "the_first_call_is_checking",
        &[
            Begin(Paired),
            Set(Setting::Profile(Profile::Modern)),
            Does(Check(0)),
            Emits(Events("Rc")),
            Takes(Answer(10, THERE)),
            Emits(Events("NCD")),
            // nothing changes
            Does(Timeout(50)),
            Emits(Events("")),
        ],
    ),
];

// ---- requests

/// A controlled agent whose only path is valid and not nominated.
const VALID: [Step; 6] = [
    Does(Creds(Whose::Remote, "farr", "farpass")),
    Does(Host(At(1, 1000))),
    Does(Peer(PEER)),
    Does(Check(0)),
    Takes(Answer(10, THERE)),
    Emits(Events("RcD")),
];

const REQUESTS: [Story; 3] = [
    Story(
        "a_controlled_agent",
        &[
            Begin(New("near", "nearpass", 7)),
            Set(Setting::Profile(Profile::Modern)),
        ],
    ),
    Story("whose_path_is_valid", &VALID),
    Story(
        "is_completed_at_the_request_that_nominates",
        &[
            Write(Message::Request(true, true), "nearpass"),
            Takes(Served(20, THERE)),
            Emits(Events("NC")),
            Shows(State(IceConnectionState::Completed)),
            // another one changes nothing
            Takes(Served(30, THERE)),
            Emits(Events("")),
        ],
    ),
];

// ---- candidates are added or invalidated

/// The path to 10.0.0.2:2000 is selected, and the one to 10.0.0.3:2000 is valid too.
const BOTH: [Step; 8] = [
    Does(Peer(PEER)),
    Does(Peer(OTHER)),
    Does(CheckTo(0, THERE, false)),
    Takes(Answer(10, THERE)),
    Does(CheckTo(50, SECOND, false)),
    Takes(Answer(60, SECOND)),
    Emits(Events("RcNkDD")),
    Shows(State(IceConnectionState::Connected)),
];

/// With the profile `Modern` the path to 10.0.0.2:2000 is selected, and the one to 10.0.0.3:2000 is valid too.
pub(super) const BOTH_MODERN: [Step; 10] = [
    Does(Peer(PEER)),
    Does(Peer(OTHER)),
    Does(CheckTo(0, THERE, false)),
    Takes(Answer(10, THERE)),
    Does(CheckTo(50, THERE, true)),
    Takes(Answer(60, THERE)),
    Does(CheckTo(100, SECOND, false)),
    Takes(Answer(110, SECOND)),
    Emits(Events("RcNkDD")),
    Shows(State(IceConnectionState::Connected)),
];

const CANDIDATES: [Story; 12] = [
    Story(
        "with_the_original",
        &[Begin(Unpaired), Set(Setting::Profile(Profile::Original))],
    ),
    Story("two_paths_are_valid", &BOTH),
    Story(
        "an_invalidated_path_stays_selected",
        &[
            Does(Invalidate(PEER)),
            Emits(Events("")),
            Shows(State(IceConnectionState::Connected)),
        ],
    ),
    Story(
        "with_modern",
        &[Begin(Unpaired), Set(Setting::Profile(Profile::Modern))],
    ),
    Story("two_paths_are_valid_again", &BOTH_MODERN),
    Story(
        "the_other_path_is_selected_when_one_is_invalidated",
        &[
            Does(Invalidate(PEER)),
            Emits(Selects(At(1, 1000), SECOND)),
            Emits(Events("C")),
            // another candidate of no pair changes nothing
            Fails(Invalidate(PEER)),
            Emits(Nothing),
            // without any path the agent is Disconnected
            Does(Invalidate(OTHER)),
            Emits(Events("x")),
            Shows(State(IceConnectionState::Disconnected)),
        ],
    ),
    Story(
        "with_modern_a_better_candidate",
        &[Begin(Paired), Set(Setting::Profile(Profile::Modern))],
    ),
    Story(
        "of_the_same_address_loses_the_path",
        &[
            Does(Check(0)),
            Takes(Answer(10, THERE)),
            Emits(Events("RcNCD")),
            Does(Own("candidate:1 1 udp 2130706431 10.0.0.1 1000 typ host")),
            Emits(Events("c")),
            Shows(State(IceConnectionState::Checking)),
            Does(Check(50)),
            Takes(Answer(60, THERE)),
            Emits(Events("NC")),
        ],
    ),
    Story(
        "with_modern_at_the_limit_of_pairs",
        &[
            Begin(Unpaired),
            Set(Setting::Profile(Profile::Modern)),
            Set(Setting::MaxPairs(1)),
        ],
    ),
    Story(
        "a_better_pair_loses_the_path",
        &[
            Does(Peer(OTHER)),
            Does(Check(0)),
            Takes(Answer(10, SECOND)),
            Emits(Events("RcNCD")),
            Does(Peer(PEER)),
            Emits(Events("c")),
            Does(CheckTo(50, THERE, false)),
            Takes(Answer(60, THERE)),
            Emits(Events("NCD")),
        ],
    ),
    Story(
        "with_modern_a_call",
        &[Begin(Paired), Set(Setting::Profile(Profile::Modern))],
    ),
    Story(
        "before_the_first_timeout_changes_no_state",
        &[
            Does(Invalidate(PEER)),
            Emits(Nothing),
            Shows(State(IceConnectionState::New)),
        ],
    ),
];
