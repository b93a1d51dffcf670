//! What an agent does with the profile `Modern`: triggered checks, and selection at a request.

use super::step::Call::*;
use super::step::Emitted::*;
use super::step::Held::*;
use super::step::Packet::*;
use super::step::Shown::*;
use super::step::Start::*;
use super::step::Step::*;
use super::step::{At, Count, Message, Setting, Whose};
use super::story::{Story, play};
use super::*;
use is::Profile;
use is::pair::CheckState;

#[test]
fn requests_trigger_checks(rt: HostRuntime) -> Result<(), Fail> {
    play(rt.alloc(), &TRIGGERED)?;
    play(rt.alloc(), &URGENT)
}

#[test]
fn a_request_may_select(rt: HostRuntime) -> Result<(), Fail> {
    play(rt.alloc(), &SELECTED)
}

/// The address of `PEER`.
const THERE: At = At(2, 2000);

// ---- a request on a known pair makes its next check due (RFC 8445, section 7.3.1.4)

const TRIGGERED: [Story; 6] = [
    // checks without a response at 0, 100, 200, 400, 750 and 1100 ms; the next one is due 350 ms later
    Story(
        "a_late_peer_is_checked_at_its_first_request",
        &[
            Begin(Paired),
            Set(Setting::Profile(Profile::Modern)),
            Does(Check(0)),
            Shows(NextAt(100)),
            Does(Check(100)),
            Shows(NextAt(200)),
            Does(Check(200)),
            Shows(NextAt(400)),
            Does(Check(400)),
            Shows(NextAt(750)),
            Does(Check(750)),
            Shows(NextAt(1100)),
            Does(Check(1100)),
            Shows(NextAt(1450)),
            Write(Message::Request(false, false), "nearpass"),
            Takes(Served(1200, THERE)),
            Shows(NextAt(1200)),
            Does(Check(1200)),
            // the same peer, with the original
            Begin(Paired),
            Set(Setting::Profile(Profile::Original)),
            Does(Check(3750)),
            Shows(NextAt(4000)),
            Does(Check(4000)),
            Shows(NextAt(4500)),
            Write(Message::Request(false, false), "nearpass"),
            Takes(Served(4100, THERE)),
            Shows(NextAt(4500)),
        ],
    ),
    // the request triggers a check 10 ms after the last one, the pacing interval until the agent is settled
    Story(
        "a_triggered_check_is_paced",
        &[
            Begin(Paired),
            Set(Setting::Profile(Profile::Modern)),
            Does(Check(0)),
            Shows(NextAt(100)),
            Write(Message::Request(false, false), "nearpass"),
            Takes(Served(4, THERE)),
            Shows(NextAt(10)),
            Does(Check(10)),
            // 100 ms after the second check
            Shows(NextAt(110)),
        ],
    ),
    Story(
        "only_the_first_request_triggers_a_check",
        &[
            Begin(Paired),
            Set(Setting::Profile(Profile::Modern)),
            Write(Message::Request(false, false), "nearpass"),
            Does(Check(0)),
            Shows(NextAt(100)),
            Takes(Served(50, THERE)),
            Shows(NextAt(50)),
            Does(Check(50)),
            Shows(NextAt(150)),
            // the second
            Takes(Served(120, THERE)),
            Shows(NextAt(150)),
            Counts(Count::Checks, 2),
        ],
    ),
    Story(
        "a_request_on_a_valid_pair_triggers_none",
        &[
            Begin(Paired),
            Set(Setting::Profile(Profile::Modern)),
            Set(Setting::Controlling(false)),
            Does(Check(0)),
            Takes(Answer(10, THERE)),
            Holds(PairState(PEER, CheckState::Succeeded)),
            Shows(NextAt(250)),
            Write(Message::Request(true, false), "nearpass"),
            Takes(Served(100, THERE)),
            Shows(NextAt(250)),
        ],
    ),
    // a check is due no earlier than the last `handle_timeout` call
    Story(
        "a_request_from_before_the_last_timeout_triggers_a_check",
        &[
            Begin(Paired),
            Set(Setting::Profile(Profile::Modern)),
            Does(Check(1000)),
            Shows(NextAt(1100)),
            Write(Message::Request(false, false), "nearpass"),
            Takes(Served(500, THERE)),
            Set(Setting::Pacing(0)),
            Shows(NextAt(1000)),
        ],
    ),
    Story(
        "a_due_time_that_was_not_queried_stays_open",
        &[
            Begin(Paired),
            Set(Setting::Profile(Profile::Modern)),
            Does(Check(0)),
            Write(Message::Request(false, false), "nearpass"),
            Takes(Served(50, THERE)),
            Shows(NextAt(100)),
        ],
    ),
];

// ---- every second check may go to an urgent pair

/// The twenty-first candidate of the peer, which has the least priority.
const LAST: At = At(22, 2000);

/// The first and the second one.
const FIRST: At = At(2, 2000);

const SECOND: At = At(3, 2000);

/// A server-reflexive candidate of the peer, of less priority than the others.
const REFLEXIVE: &str = "candidate:1 1 udp 100 198.51.100.2 6000 typ srflx";

const URGENT: [Story; 5] = [
    Story(
        "a_request_puts_a_pair_before_twenty_others",
        &[
            Begin(Unpaired),
            Set(Setting::Profile(Profile::Modern)),
            Does(Peers(21)),
            Write(Message::Request(false, false), "nearpass"),
            Takes(Served(0, LAST)),
            Does(CheckTo(0, FIRST, false)),
            Shows(NextAt(10)),
            Does(CheckTo(10, LAST, false)),
            // it is due again at 110 ms; till then the others are checked in their order
            Does(CheckTo(20, SECOND, false)),
            Does(CheckTo(30, At(4, 2000), false)),
            Does(CheckTo(40, At(5, 2000), false)),
            // with the original
            Begin(Unpaired),
            Set(Setting::Profile(Profile::Original)),
            Does(Peers(21)),
            Write(Message::Request(false, false), "nearpass"),
            Takes(Served(0, LAST)),
            Does(CheckTo(0, FIRST, false)),
            Does(CheckTo(50, SECOND, false)),
        ],
    ),
    Story(
        "a_request_after_the_first_check_is_followed_by_the_second",
        &[
            Begin(Unpaired),
            Set(Setting::Profile(Profile::Modern)),
            Does(Peers(21)),
            Does(CheckTo(0, FIRST, false)),
            Shows(NextAt(10)),
            Write(Message::Request(false, false), "nearpass"),
            Takes(Served(5, LAST)),
            Shows(NextAt(10)),
            Does(CheckTo(10, LAST, false)),
            Shows(NextAt(20)),
            // the next check is not ahead of the others, and the one after it is
            Takes(Served(15, At(21, 2000))),
            Does(CheckTo(20, SECOND, false)),
            Does(CheckTo(30, At(21, 2000), false)),
            Does(CheckTo(40, At(4, 2000), false)),
        ],
    ),
    // a pair that a request brought, though its priority is the greatest
    Story(
        "a_known_candidate_goes_before_an_unknown_sender",
        &[
            Begin(Unpaired),
            Set(Setting::Profile(Profile::Modern)),
            Does(Peers(21)),
            Does(CheckTo(0, FIRST, false)),
            Shows(NextAt(10)),
            Write(Message::Request(false, false), "nearpass"),
            Takes(Served(3, At(50, 5000))),
            Takes(Served(6, LAST)),
            Does(CheckTo(10, LAST, false)),
            Does(CheckTo(20, SECOND, false)),
            Does(CheckTo(30, At(50, 5000), false)),
        ],
    ),
    // the checks at 10, 30 and 50 ms go ahead: to the urgent pair, then to one of the next kind
    Story(
        "an_urgent_pair_goes_before_the_next_kind",
        &[
            Begin(Unpaired),
            Set(Setting::Profile(Profile::Modern)),
            Does(Peers(5)),
            Does(Peer(REFLEXIVE)),
            Does(CheckTo(0, FIRST, false)),
            Shows(NextAt(10)),
            Write(Message::Request(false, false), "nearpass"),
            Takes(Served(5, At(6, 2000))),
            Does(CheckTo(10, At(6, 2000), false)),
            Does(CheckTo(20, SECOND, false)),
            Does(CheckOn(30, "10.0.0.1:1000", "198.51.100.2:6000")),
            Does(CheckTo(40, At(4, 2000), false)),
            Does(CheckTo(50, At(5, 2000), false)),
        ],
    ),
    // the check that nominates the first pair is due before all; after it the pair is urgent until a response to it arrives, or
    // eight checks have none
    Story(
        "a_nomination_without_a_response_is_urgent",
        &[
            Begin(Unpaired),
            Set(Setting::Profile(Profile::Modern)),
            Does(Peers(21)),
            Does(CheckTo(0, FIRST, false)),
            Takes(Answer(10, FIRST)),
            Does(CheckTo(50, FIRST, true)),
            Does(CheckTo(100, SECOND, false)),
            // every second check goes to it: it is due 100 ms after each that nominates it
            Does(CheckTo(150, FIRST, true)),
            Does(CheckTo(200, At(4, 2000), false)),
            Does(CheckTo(250, FIRST, true)),
            Does(CheckTo(300, At(5, 2000), false)),
            Does(CheckTo(350, FIRST, true)),
            Does(CheckTo(400, At(6, 2000), false)),
            Does(CheckTo(450, FIRST, true)),
            Does(CheckTo(500, At(7, 2000), false)),
        ],
    ),
];

// ---- selection at a request (RFC 8445, section 7.3.1.5)

const SELECTED: [Story; 3] = [
    Story(
        "a_nominating_request_selects_a_valid_pair",
        &[
            Begin(New("near", "nearpass", 7)),
            Set(Setting::Profile(Profile::Modern)),
            Does(Creds(Whose::Remote, "farr", "farpass")),
            Does(Host(At(1, 1000))),
            Does(Peer(PEER)),
            Does(Check(0)),
            Takes(Answer(10, THERE)),
            Holds(PairState(PEER, CheckState::Succeeded)),
            Emits(Selected(None)),
            Write(Message::Request(true, true), "nearpass"),
            Takes(Served(20, THERE)),
            Emits(Selected(Some(THERE))),
        ],
    ),
    Story(
        "with_the_original_the_next_timeout_selects_it",
        &[
            Begin(New("near", "nearpass", 7)),
            Set(Setting::Profile(Profile::Original)),
            Does(Creds(Whose::Remote, "farr", "farpass")),
            Does(Host(At(1, 1000))),
            Does(Peer(PEER)),
            Does(Check(0)),
            Takes(Answer(10, THERE)),
            Holds(PairState(PEER, CheckState::Succeeded)),
            Write(Message::Request(true, true), "nearpass"),
            Takes(Served(20, THERE)),
            Emits(Selected(None)),
            Does(Timeout(50)),
            Emits(Selected(Some(THERE))),
        ],
    ),
    Story(
        "a_nominating_request_selects_no_pair_that_is_not_valid",
        &[
            Begin(New("near", "nearpass", 7)),
            Set(Setting::Profile(Profile::Modern)),
            Does(Creds(Whose::Remote, "farr", "farpass")),
            Does(Host(At(1, 1000))),
            Does(Peer(PEER)),
            Does(Check(0)),
            Write(Message::Request(true, true), "nearpass"),
            Takes(Served(20, THERE)),
            Emits(Selected(None)),
        ],
    ),
];
