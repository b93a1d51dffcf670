//! When checks may follow each other: the pacing interval Ta, which is shorter early on, and due times that are fixed while something waits.

use super::step::Call::*;
use super::step::Emitted::*;
use super::step::Packet::*;
use super::step::Shown::*;
use super::step::Start::*;
use super::step::Step::*;
use super::step::{At, Message, Setting};
use super::story::{Story, play};
use super::*;
use is::Profile;

#[test]
fn until_it_is_settled_the_interval_is_shorter(rt: HostRuntime) -> Result<(), Fail> {
    play(rt.alloc(), &PACED)
}

#[test]
fn due_times_are_fixed_while_something_waits(rt: HostRuntime) -> Result<(), Fail> {
    play(rt.alloc(), &WAITING)
}

/// The first candidates of the peer. The first one is `PEER`.
const FIRST: At = At(2, 2000);

const SECOND: At = At(3, 2000);

const THIRD: At = At(4, 2000);

const FOURTH: At = At(5, 2000);

const FIFTH: At = At(6, 2000);

/// Two more, of less priority.
const OTHER: &str = "candidate:1 1 udp 1000 10.0.0.3 2000 typ host";

const ANOTHER: &str = "candidate:1 1 udp 900 10.0.0.4 2000 typ host";

// ---- the pacing interval (RFC 8445, section 14.2). The default is 50 ms

const PACED: [Story; 12] = [
    // since more than 60 s have passed, the nominated pair is due before all others
    Story(
        "checks_are_closer_until_the_path_is_nominated",
        &[
            Begin(Unpaired),
            Set(Setting::Profile(Profile::Modern)),
            Does(Peers(5)),
            Does(CheckTo(100_000, FIRST, false)),
            Shows(State(IceConnectionState::Checking)),
            Shows(NextAt(100_010)),
            Does(CheckTo(100_010, SECOND, false)),
            Shows(NextAt(100_020)),
            Does(CheckTo(100_020, THIRD, false)),
            Shows(NextAt(100_030)),
            Takes(Answer(100_025, THIRD)),
            Shows(State(IceConnectionState::Connected)),
            Shows(NextAt(100_030)),
            Does(CheckTo(100_030, THIRD, true)),
            Takes(Answer(100_035, THIRD)),
            Shows(NextAt(100_080)),
            Does(CheckTo(100_080, FOURTH, false)),
            Shows(NextAt(100_130)),
            Does(CheckTo(100_130, FIFTH, false)),
        ],
    ),
    Story(
        "with_the_original_they_are_as_far_apart_before",
        &[
            Begin(Unpaired),
            Set(Setting::Profile(Profile::Original)),
            Does(Peers(3)),
            Does(CheckTo(0, FIRST, false)),
            Shows(NextAt(50)),
            Does(CheckTo(50, SECOND, false)),
            Shows(NextAt(100)),
        ],
    ),
    // half a second after the first check of its only pair
    Story(
        "checks_are_closer_for_half_a_second",
        &[
            Begin(Unpaired),
            Set(Setting::Profile(Profile::Modern)),
            Does(Peers(1)),
            Does(CheckTo(0, FIRST, false)),
            Does(Timeout(10)),
            Does(Timeout(499)),
            Emits(Sends),
            Does(Timeout(500)),
            // a new candidate begins it again
            Does(Peers(2)),
            Shows(NextAt(510)),
        ],
    ),
    // the request makes the pair urgent, and due at once
    Story(
        "checks_are_closer_for_an_urgent_pair",
        &[
            Begin(Unpaired),
            Set(Setting::Profile(Profile::Modern)),
            Does(Peers(1)),
            Does(CheckTo(0, FIRST, false)),
            Does(CheckTo(499, FIRST, false)),
            Does(Timeout(500)),
            Shows(NextAt(599)),
            Write(Message::Request(false, false), "nearpass"),
            Takes(Served(505, FIRST)),
            Shows(NextAt(510)),
        ],
    ),
    // without the peer's credentials no check is sent
    Story(
        "an_agent_that_waits_for_credentials_is_paced_as_ever",
        &[
            Begin(Early),
            Set(Setting::Profile(Profile::Modern)),
            Does(Peers(5)),
            Does(Timeout(0)),
            Emits(NoPacket),
            Shows(NextAt(50)),
        ],
    ),
    // the packet is still queued
    Story(
        "a_poll_before_the_packet_is_paced_too",
        &[
            Begin(Unpaired),
            Set(Setting::Profile(Profile::Modern)),
            Does(Peers(3)),
            Does(Timeout(0)),
            Shows(NextAt(10)),
            Emits(Sends),
            Shows(NextAt(10)),
            // it is read at the poll
            Set(Setting::Profile(Profile::Original)),
            Shows(NextAt(50)),
        ],
    ),
    Story(
        "a_shorter_interval_stays",
        &[
            Begin(Unpaired),
            Set(Setting::Profile(Profile::Modern)),
            Set(Setting::Pacing(7)),
            Does(Peers(3)),
            Does(CheckTo(0, FIRST, false)),
            Shows(NextAt(7)),
            // below 5 ms, too
            Set(Setting::Pacing(3)),
            Shows(NextAt(3)),
        ],
    ),
    // each check is charged with 25 ms: after the twelfth the charges are 190 ms ahead of the clock, and the credit is 175 ms
    Story(
        "twelve_checks_are_closer_and_then_each_is_charged",
        &[
            Begin(Unpaired),
            Set(Setting::Profile(Profile::Modern)),
            Does(Peers(100)),
            Does(CheckTo(0, FIRST, false)),
            Shows(NextAt(10)),
            Shows(SoonAt(5)),
            Does(Check(10)),
            Does(Check(20)),
            Does(Check(30)),
            Does(Check(40)),
            Does(Check(50)),
            Does(Check(60)),
            Does(Check(70)),
            Does(Check(80)),
            Does(Check(90)),
            Does(Check(100)),
            Shows(NextAt(110)),
            Does(Check(110)),
            Shows(NextAt(135)),
            Shows(SoonAt(135)),
            Does(Check(135)),
            Shows(NextAt(160)),
        ],
    ),
    // the twelve charges ended at 300 ms, so after the pause they are 25 ms ahead of the clock again
    Story(
        "credit_grows_with_time",
        &[
            Begin(Unpaired),
            Set(Setting::Profile(Profile::Modern)),
            Does(Peers(100)),
            Does(CheckTo(0, FIRST, false)),
            Does(Check(10)),
            Does(Check(20)),
            Does(Check(30)),
            Does(Check(40)),
            Does(Check(50)),
            Does(Check(60)),
            Does(Check(70)),
            Does(Check(80)),
            Does(Check(90)),
            Does(Check(100)),
            Does(Check(110)),
            Shows(NextAt(135)),
            Does(Check(400)),
            Shows(NextAt(410)),
            Shows(SoonAt(405)),
        ],
    ),
    // two requests make pairs urgent: now the charges may be 225 ms ahead. After the fifteenth check they are 235 ms ahead
    Story(
        "urgent_pairs_have_credit_for_more_checks",
        &[
            Begin(Unpaired),
            Set(Setting::Profile(Profile::Modern)),
            Does(Peers(100)),
            Does(CheckTo(0, FIRST, false)),
            Does(Check(10)),
            Does(Check(20)),
            Does(Check(30)),
            Does(Check(40)),
            Does(Check(50)),
            Does(Check(60)),
            Does(Check(70)),
            Does(Check(80)),
            Does(Check(90)),
            Does(Check(100)),
            Does(Check(110)),
            Shows(NextAt(135)),
            Write(Message::Request(false, false), "nearpass"),
            Takes(Served(112, FIRST)),
            Takes(Served(112, SECOND)),
            Shows(NextAt(120)),
            Shows(SoonAt(115)),
            Does(Check(120)),
            Shows(NextAt(130)),
            Does(CheckTo(130, FIRST, false)),
            Shows(NextAt(140)),
            Does(Check(140)),
            Shows(NextAt(165)),
            Shows(SoonAt(165)),
            Does(CheckTo(165, SECOND, false)),
            Shows(NextAt(190)),
        ],
    ),
    // after the twelfth check the charges are 223 ms ahead
    Story(
        "with_the_original_there_is_always_credit",
        &[
            Begin(Unpaired),
            Set(Setting::Profile(Profile::Original)),
            Set(Setting::Pacing(7)),
            Does(Peers(100)),
            Does(CheckTo(0, FIRST, false)),
            Does(Check(7)),
            Does(Check(14)),
            Does(Check(21)),
            Does(Check(28)),
            Does(Check(35)),
            Does(Check(42)),
            Does(Check(49)),
            Does(Check(56)),
            Does(Check(63)),
            Does(Check(70)),
            Does(Check(77)),
            Shows(NextAt(84)),
            Shows(SoonAt(82)),
            // there is none once the profile is set
            Set(Setting::Profile(Profile::Modern)),
            Shows(NextAt(84)),
            Shows(SoonAt(84)),
        ],
    ),
    // at once, as the state is
    Story(
        "they_are_closer_again_once_the_path_is_lost",
        &[
            Begin(Paired),
            Set(Setting::Profile(Profile::Modern)),
            Does(CheckTo(0, FIRST, false)),
            Takes(Answer(10, FIRST)),
            Shows(Connected),
            Does(CheckTo(20, FIRST, true)),
            Does(Invalidate(PEER)),
            Does(Peer(OTHER)),
            Does(Peer(ANOTHER)),
            Shows(NextAt(30)),
            Does(CheckTo(30, SECOND, false)),
            Shows(State(IceConnectionState::Checking)),
            Shows(NextAt(40)),
        ],
    ),
];

// ---- a request moves a due time up only if it is fixed: with the profile `Modern` each poll of the next timeout fixes it

const WAITING: [Story; 4] = [
    // with the original the RTO counts, 250 ms
    Story(
        "a_poll_before_the_packet_fixes_due_times",
        &[
            Begin(Paired),
            Set(Setting::Profile(Profile::Modern)),
            Does(Timeout(0)),
            Shows(NextAt(10)),
            Emits(Sends),
            Write(Message::Request(false, false), "nearpass"),
            Takes(Served(10, FIRST)),
            Shows(NextAt(10)),
            Does(CheckTo(10, FIRST, false)),
            Shows(NextAt(110)),
            Begin(Paired),
            Set(Setting::Profile(Profile::Original)),
            Does(Timeout(0)),
            Shows(NextAt(50)),
            Emits(Sends),
            Write(Message::Request(false, false), "nearpass"),
            Takes(Served(10, FIRST)),
            Shows(NextAt(250)),
        ],
    ),
    // the response to the request of the second candidate is still queued when that of the first one arrives
    Story(
        "a_response_that_waits_is_no_obstacle",
        &[
            Begin(Unpaired),
            Set(Setting::Profile(Profile::Modern)),
            Does(Peers(2)),
            Write(Message::Request(false, false), "nearpass"),
            Does(CheckTo(0, FIRST, false)),
            Does(CheckTo(10, SECOND, false)),
            Takes(Between(12, SECOND, At(1, 1000))),
            Shows(NextAt(20)),
            Takes(Between(15, FIRST, At(1, 1000))),
            Emits(Sends),
            Emits(Sends),
            Shows(NextAt(20)),
            Does(CheckTo(20, FIRST, false)),
        ],
    ),
    // due times are those of the profile at the poll
    Story(
        "a_profile_that_is_set_later_leaves_them",
        &[
            Begin(Paired),
            Set(Setting::Profile(Profile::Modern)),
            Does(Timeout(0)),
            Shows(NextAt(10)),
            Emits(Sends),
            Set(Setting::Profile(Profile::Original)),
            Set(Setting::Profile(Profile::Modern)),
            Write(Message::Request(false, false), "nearpass"),
            Takes(Served(10, FIRST)),
            Shows(NextAt(10)),
        ],
    ),
    // the path to the second candidate is selected at 60 ms; the first one is due at 100 ms, before its request
    Story(
        "a_path_that_is_to_be_nominated_is_no_obstacle",
        &[
            Begin(Unpaired),
            Set(Setting::Renomination(true)),
            Set(Setting::Profile(Profile::Modern)),
            Set(Setting::Pacing(20)),
            Does(Peers(2)),
            Does(CheckTo(0, FIRST, false)),
            Does(CheckTo(50, SECOND, false)),
            Takes(Answer(60, SECOND)),
            Shows(NextAt(60)),
            Write(Message::Request(false, false), "nearpass"),
            Takes(Served(62, FIRST)),
            Does(CheckBy(64, SECOND, Some(1))),
            Shows(NextAt(84)),
            Does(CheckTo(84, FIRST, false)),
        ],
    ),
];
