//! Early retransmissions: while a pair has no response, its checks come soon after one another.

use super::step::Call::*;
use super::step::Emitted::*;
use super::step::Held::*;
use super::step::Packet::*;
use super::step::Shown::*;
use super::step::Start::*;
use super::step::Step::*;
use super::step::{At, Count, Message, Setting};
use super::story::{Story, play};
use super::*;
use is::Profile;

#[test]
fn checks_are_repeated_early(rt: HostRuntime) -> Result<(), Fail> {
    play(rt.alloc(), &EARLY)
}

#[test]
fn a_pair_that_a_request_brings_gets_few_checks(rt: HostRuntime) -> Result<(), Fail> {
    play(rt.alloc(), &BROUGHT)
}

#[test]
fn a_pair_that_is_repeated_early_ends_by_the_clock(rt: HostRuntime) -> Result<(), Fail> {
    play(rt.alloc(), &ENDS)
}

/// The address of `PEER`.
const THERE: At = At(2, 2000);

const EARLY: [Story; 6] = [
    Story(
        "delays_double_up_to_the_cap",
        &[
            Begin(Paired),
            Set(Setting::Profile(Profile::Modern)),
            Does(Check(0)),
            Shows(NextAt(100)),
            Does(Check(100)),
            Shows(NextAt(200)),
            Does(Check(200)),
            Shows(NextAt(400)),
            Does(Check(400)),
            Shows(NextAt(750)),
            Does(Check(750)),
            Shows(NextAt(1100)),
            Does(Check(1100)),
            Shows(NextAt(1450)),
            Does(Check(1450)),
            Shows(NextAt(1800)),
            Does(Check(1800)),
            Shows(NextAt(2150)),
            // 2.15 s after the first one the RTO counts, and nine checks end no pair
            Does(Check(2150)),
            Shows(NextAt(5150)),
            Does(Check(5150)),
            Shows(NextAt(8150)),
            Does(Check(8150)),
            Counts(Count::Checks, 11),
        ],
    ),
    // nine early ones, and then each 3 s for 21.5 s, which a whole series takes
    Story(
        "a_pair_without_a_response_is_checked_fifteen_times",
        &[
            Begin(Paired),
            Set(Setting::Profile(Profile::Modern)),
            Shows(IceTimeout(21_500)),
            Does(Check(0)),
            Does(Check(100)),
            Does(Check(200)),
            Does(Check(400)),
            Does(Check(750)),
            Does(Check(1100)),
            Does(Check(1450)),
            Does(Check(1800)),
            // the due time is fixed while checks are repeated early
            Shows(NextAt(2150)),
            Does(Check(2150)),
            Does(Check(5150)),
            Does(Check(8150)),
            Does(Check(11_150)),
            Does(Check(14_150)),
            Does(Check(17_150)),
            Does(Check(20_150)),
            Shows(NextAt(23_150)),
            Does(Timeout(23_150)),
            Emits(NoPacket),
            Counts(Count::Checks, 15),
            Holds(HasPair(PEER, false)),
        ],
    ),
    Story(
        "a_response_ends_early_retransmissions",
        &[
            Begin(Paired),
            Set(Setting::Profile(Profile::Modern)),
            Set(Setting::Controlling(false)),
            Does(Check(0)),
            Shows(NextAt(100)),
            Does(Check(100)),
            Takes(Answer(110, THERE)),
            // 500 ms after the second check
            Shows(NextAt(600)),
        ],
    ),
    // quickly for 7.5 s after the check with a response, then each half second
    Story(
        "a_nomination_without_a_response_is_repeated_early",
        &[
            Begin(Paired),
            Set(Setting::Profile(Profile::Modern)),
            Does(Check(0)),
            Takes(Answer(10, THERE)),
            Does(CheckTo(50, THERE, true)),
            Shows(NextAt(120)),
            Does(CheckTo(150, THERE, true)),
            Shows(NextAt(220)),
            Does(CheckTo(250, THERE, true)),
            Shows(NextAt(320)),
            Does(CheckTo(350, THERE, true)),
            Does(CheckTo(450, THERE, true)),
            Does(CheckTo(550, THERE, true)),
            Does(CheckTo(650, THERE, true)),
            Does(CheckTo(750, THERE, true)),
            Shows(NextAt(820)),
            Does(CheckTo(850, THERE, true)),
            Shows(NextAt(920)),
            Does(CheckTo(7400, THERE, true)),
            Shows(NextAt(7470)),
            Does(CheckTo(7500, THERE, true)),
            Shows(NextAt(8000)),
        ],
    ),
    // the response to the third nominating check; the delay is that after four pending transactions
    Story(
        "the_response_to_a_nomination_ends_them_too",
        &[
            Begin(Paired),
            Set(Setting::Profile(Profile::Modern)),
            Does(Check(0)),
            Takes(Answer(10, THERE)),
            Does(CheckTo(50, THERE, true)),
            Does(CheckTo(150, THERE, true)),
            Does(CheckTo(250, THERE, true)),
            Takes(Answer(300, THERE)),
            Emits(Selected(Some(THERE))),
            Shows(NextAt(2250)),
        ],
    ),
    // the due time that is fixed stays when the profile is set
    Story(
        "a_profile_leaves_a_due_time_that_was_queried",
        &[
            Begin(Paired),
            Set(Setting::Profile(Profile::Original)),
            Does(Check(0)),
            Shows(NextAt(250)),
            Set(Setting::Profile(Profile::Modern)),
            Shows(NextAt(250)),
            Does(Check(250)),
            Shows(NextAt(350)),
            Set(Setting::Profile(Profile::Original)),
            Shows(NextAt(350)),
            Does(Check(350)),
            // the RTO after the third check
            Shows(NextAt(1350)),
        ],
    ),
];

// ---- a request from an address that never answers: seven early checks, and then one each 3 s until it is 15 s old

const BROUGHT: [Story; 1] = [Story(
    "a_pair_that_a_request_brings_is_checked_eleven_times",
    &[
        Begin(Unpaired),
        Set(Setting::Profile(Profile::Modern)),
        Write(Message::Request(false, false), "nearpass"),
        Takes(Served(0, THERE)),
        Does(Check(0)),
        Shows(NextAt(100)),
        Does(Check(100)),
        Does(Check(200)),
        Does(Check(400)),
        Does(Check(750)),
        Does(Check(1100)),
        Shows(NextAt(1450)),
        Does(Check(1450)),
        // 1.2 s after the first one the RTO counts
        Shows(NextAt(4450)),
        Does(Check(4450)),
        Does(Check(7450)),
        Does(Check(10_450)),
        Does(Check(13_450)),
        Shows(NextAt(16_450)),
        // the request is older than 15 s, and nine checks had no response
        Does(Timeout(16_450)),
        Emits(NoPacket),
        Counts(Count::Checks, 11),
    ],
)];

// ---- by which clock: that since the first check. With two checks a whole series takes 1 s, and the RTO after the last one is 500 ms

const ENDS: [Story; 3] = [
    // the response to the fifth check may come until 1.25 s, and so there is a sixth, which is waited for by the RTO
    Story(
        "a_pair_is_kept_for_a_whole_series_and_the_last_response",
        &[
            Begin(Paired),
            Set(Setting::Profile(Profile::Modern)),
            Set(Setting::TwoChecks),
            Shows(IceTimeout(1000)),
            Does(Check(0)),
            Shows(NextAt(100)),
            Does(Check(100)),
            Shows(NextAt(200)),
            Does(Check(200)),
            Shows(NextAt(400)),
            Does(Check(400)),
            Shows(NextAt(750)),
            Does(Check(750)),
            Shows(NextAt(1100)),
            Does(Check(1100)),
            Shows(NextAt(1600)),
            Does(Timeout(1599)),
            Holds(HasPair(PEER, true)),
            Does(Timeout(1600)),
            Emits(NoPacket),
            Counts(Count::Checks, 6),
            Holds(HasPair(PEER, false)),
        ],
    ),
    // by the RTO from the eighth check on
    Story(
        "the_checks_of_the_peer_keep_it_longer",
        &[
            Begin(Paired),
            Set(Setting::Profile(Profile::Modern)),
            Set(Setting::TwoChecks),
            Write(Message::Request(false, false), "nearpass"),
            Does(Check(0)),
            Shows(NextAt(100)),
            Does(Check(100)),
            Shows(NextAt(200)),
            Does(Check(200)),
            Shows(NextAt(400)),
            Does(Check(400)),
            Shows(NextAt(750)),
            // it triggers the fifth check
            Takes(Served(500, THERE)),
            Shows(NextAt(500)),
            Does(Check(500)),
            Shows(NextAt(850)),
            Does(Check(850)),
            Shows(NextAt(1200)),
            // until 1 s after the check that the request triggered
            Does(Check(1200)),
            Shows(NextAt(1550)),
            Does(Check(1550)),
            Shows(NextAt(2050)),
            Does(Check(2050)),
            Shows(NextAt(2550)),
            // the request keeps it until 15.5 s, and this check for 500 ms more
            Does(Check(15_499)),
            Shows(NextAt(15_999)),
            Does(Timeout(15_998)),
            Holds(HasPair(PEER, true)),
            Does(Timeout(15_999)),
            Emits(NoPacket),
            Holds(HasPair(PEER, false)),
        ],
    ),
    // the RTO counts from the beginning: the second check is the last one
    Story(
        "with_the_original_two_checks_are_all",
        &[
            Begin(Paired),
            Set(Setting::Profile(Profile::Original)),
            Set(Setting::TwoChecks),
            Does(Check(0)),
            Shows(NextAt(250)),
            Does(Check(250)),
            Shows(NextAt(750)),
            Does(Timeout(750)),
            Emits(NoPacket),
            Counts(Count::Checks, 2),
            Holds(HasPair(PEER, false)),
        ],
    ),
];
