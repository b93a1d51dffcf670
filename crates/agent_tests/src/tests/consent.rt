//! Consent (RFC 7675): how long the last response, and the peer's checks, keep a pair; and the selected pair, whose checks come first.

use super::step::Call::*;
use super::step::Emitted::*;
use super::step::Held::*;
use super::step::Packet::*;
use super::step::Shown::*;
use super::step::Start::*;
use super::step::Step::*;
use super::step::{At, Count, Message, Setting, Step};
use super::story::{Story, play};
use super::*;
use is::Profile;

#[test]
fn consent_ends_by_the_clock(rt: HostRuntime) -> Result<(), Fail> {
    play(rt.alloc(), &ENDS)?;
    play(rt.alloc(), &TWO)
}

#[test]
fn the_selected_pair_is_checked_first(rt: HostRuntime) -> Result<(), Fail> {
    play(rt.alloc(), &FIRST)
}

#[test]
fn an_ordinary_session_is_as_before(rt: HostRuntime) -> Result<(), Fail> {
    play(rt.alloc(), &SAME)
}

/// The address of `PEER`.
const THERE: At = At(2, 2000);

/// Another host candidate of the peer, of less priority, and its address.
const OTHER: &str = "candidate:1 1 udp 2130706174 10.0.0.3 3000 typ host";

const ELSEWHERE: At = At(3, 3000);

// ---- when consent ends

/// The second check, at 50 ms, is the last one with a response. The peer's requests still arrive. Nine checks follow, and more; the next one is
/// due 70 ms after each.
const CUT_MODERN: [Step; 29] = [
    Does(Check(0)),
    Takes(Answer(10, THERE)),
    Does(CheckTo(50, THERE, true)),
    Takes(Answer(60, THERE)),
    Emits(Events("RcNCD")),
    Shows(NextAt(550)),
    Does(Check(550)),
    Shows(NextAt(620)),
    Does(Check(650)),
    Shows(NextAt(720)),
    Does(Check(750)),
    Does(Check(850)),
    Does(Check(950)),
    Does(Check(1050)),
    Does(Check(1150)),
    Does(Check(1250)),
    Does(Check(1350)),
    Shows(NextAt(1420)),
    Does(Check(1850)),
    Write(Message::Request(false, false), "nearpass"),
    Takes(Served(2000, THERE)),
    Does(Check(2350)),
    Does(Check(2850)),
    Does(Check(3350)),
    Does(Check(3850)),
    Does(Check(4350)),
    Does(Check(4850)),
    Counts(Count::Checks, 18),
    Shows(Connected),
];

/// With the profile `Original` the second check, at 50 ms, is the last one with a response. The RTOs are 500 ms, 1 s and 2 s; after that
/// the peer is silent, and only checks without a response count: 1 s after the third of them, and 2 s after the fourth.
const CUT: [Step; 17] = [
    Does(Check(0)),
    Takes(Answer(10, THERE)),
    Does(CheckTo(50, THERE, true)),
    Takes(Answer(60, THERE)),
    Emits(Events("RcNCD")),
    Shows(NextAt(550)),
    Does(Check(550)),
    Shows(NextAt(1550)),
    Does(Check(1550)),
    Shows(NextAt(3550)),
    Write(Message::Request(false, false), "nearpass"),
    Takes(Served(2000, THERE)),
    Does(Check(3550)),
    Shows(NextAt(4550)),
    Does(Check(4550)),
    Counts(Count::Checks, 6),
    Shows(Connected),
];

const ENDS: [Story; 10] = [
    Story(
        "a_strict_consent",
        &[
            Begin(Paired),
            Set(Setting::Profile(Profile::Modern)),
            Set(Setting::Consent(5000, true)),
        ],
    ),
    Story("a_cut_after_the_second_check", &CUT_MODERN),
    Story(
        "a_strict_consent_ends_5_s_after_the_second_check",
        &[
            Shows(NextAt(4920)),
            Does(Check(5049)),
            Holds(HasPair(PEER, true)),
            Shows(NextAt(5099)),
            Does(Timeout(5050)),
            Emits(NoPacket),
            Holds(HasPair(PEER, false)),
            Emits(Events("x")),
            Shows(NextAt(8050)),
        ],
    ),
    Story(
        "a_consent_that_is_not_strict",
        &[
            Begin(Paired),
            Set(Setting::Profile(Profile::Modern)),
            Set(Setting::Consent(5000, false)),
        ],
    ),
    Story("the_same_cut", &CUT_MODERN),
    Story(
        "the_request_at_2_s_keeps_it_for_15_s",
        &[
            Shows(NextAt(4920)),
            Does(Check(5350)),
            Shows(NextAt(5420)),
            Does(Check(16_600)),
            // the quick checks are over; 100 ms before the next check
            Shows(NextAt(17000)),
            Does(Timeout(16900)),
            Emits(NoPacket),
            Holds(HasPair(PEER, true)),
            Shows(NextAt(17000)),
            Does(Timeout(17000)),
            Emits(NoPacket),
            Holds(HasPair(PEER, false)),
            Emits(Events("x")),
        ],
    ),
    Story(
        "no_consent_by_the_clock",
        &[Begin(Paired), Set(Setting::Profile(Profile::Original))],
    ),
    Story("the_cut_again", &CUT),
    Story(
        "with_the_original_nine_checks_end_it",
        &[
            Shows(NextAt(6550)),
            Does(Timeout(17000)),
            Emits(Sends),
            Holds(HasPair(PEER, true)),
            Shows(Connected),
        ],
    ),
    Story(
        "without_a_response_there_is_no_consent_to_end",
        &[
            Begin(Paired),
            Set(Setting::Profile(Profile::Modern)),
            Set(Setting::Consent(5000, true)),
            Does(Check(0)),
            Does(Check(6000)),
            Does(Check(12_000)),
            Shows(NextAt(13_000)),
            Holds(HasPair(PEER, true)),
        ],
    ),
];

// ---- two paths, of which the selected one is cut. Since more than 60 s have passed, a nominated pair is due before all others

const TWO: [Story; 1] = [Story(
    "the_other_path_is_selected_when_consent_ends",
    &[
        Begin(Unpaired),
        Set(Setting::Profile(Profile::Modern)),
        Set(Setting::Consent(1000, true)),
        Does(Peer(PEER)),
        Does(Peer(OTHER)),
        Does(CheckTo(100_000, THERE, false)),
        Takes(Answer(100_010, THERE)),
        Does(CheckTo(100_050, THERE, true)),
        Takes(Answer(100_060, THERE)),
        Does(CheckTo(100_100, ELSEWHERE, false)),
        Takes(Answer(100_110, ELSEWHERE)),
        Emits(Selected(Some(THERE))),
        // the path is cut in one direction: the peer's requests arrive
        Shows(NextAt(100_350)),
        Does(CheckTo(100_350, ELSEWHERE, false)),
        Takes(Answer(100_360, ELSEWHERE)),
        Shows(NextAt(100_550)),
        Does(CheckTo(100_550, THERE, true)),
        Shows(NextAt(100_620)),
        Does(CheckTo(100_620, THERE, true)),
        Does(CheckTo(100_690, ELSEWHERE, false)),
        Takes(Answer(100_700, ELSEWHERE)),
        Does(CheckTo(100_760, THERE, true)),
        Write(Message::Request(false, false), "nearpass"),
        Takes(Served(100_800, THERE)),
        Does(CheckTo(100_840, THERE, true)),
        Does(CheckTo(100_920, THERE, true)),
        Does(CheckTo(101_000, THERE, true)),
        Emits(Selected(None)),
        Shows(ValidPath(Some((At(1, 1000), THERE)))),
        Shows(NextAt(101_050)),
        Does(Timeout(101_050)),
        Emits(Selected(Some(ELSEWHERE))),
        Holds(HasPair(PEER, false)),
        Shows(Connected),
        Shows(ValidPath(Some((At(1, 1000), ELSEWHERE)))),
    ],
)];

// ---- every second check may go to the selected pair

/// The last of 21 candidates of the peer.
const LAST: At = At(22, 2000);

const FIRST: [Story; 3] = [
    // an RTO of 40 ms, so that the first pair is always due
    Story(
        "of_100_pairs_the_selected_one_has_every_second_check",
        &[
            Begin(Unpaired),
            Set(Setting::Profile(Profile::Modern)),
            Set(Setting::InitialRto(40)),
            Set(Setting::MaxRto(40)),
            Does(Peers(100)),
            Does(CheckTo(100_000, THERE, false)),
            Takes(Answer(100_010, THERE)),
            Does(CheckTo(100_050, THERE, true)),
            Takes(Answer(100_060, THERE)),
            Does(CheckTo(100_100, At(3, 2000), false)),
            Does(CheckTo(100_150, THERE, true)),
            Does(CheckTo(100_200, At(4, 2000), false)),
            Does(CheckTo(100_250, THERE, true)),
            Does(CheckTo(100_300, At(5, 2000), false)),
            Does(CheckTo(100_350, THERE, true)),
            Does(CheckTo(100_400, At(6, 2000), false)),
        ],
    ),
    Story(
        "with_the_original_it_comes_after_99_others",
        &[
            Begin(Unpaired),
            Set(Setting::Profile(Profile::Original)),
            Set(Setting::InitialRto(40)),
            Set(Setting::MaxRto(40)),
            Does(Peers(100)),
            Does(CheckTo(100_000, THERE, false)),
            Takes(Answer(100_010, THERE)),
            Does(CheckTo(100_050, THERE, true)),
            Takes(Answer(100_060, THERE)),
            Does(CheckTo(100_100, At(3, 2000), false)),
            Does(CheckTo(100_150, At(4, 2000), false)),
            Does(CheckTo(100_200, At(5, 2000), false)),
        ],
    ),
    // the selected pair is due 150 ms after its last check
    Story(
        "the_selected_pair_goes_before_an_urgent_one",
        &[
            Begin(Unpaired),
            Set(Setting::Profile(Profile::Modern)),
            Set(Setting::InitialRto(150)),
            Set(Setting::MaxRto(150)),
            Does(Peers(21)),
            Does(CheckTo(0, THERE, false)),
            Takes(Answer(10, THERE)),
            Does(CheckTo(50, THERE, true)),
            Takes(Answer(60, THERE)),
            Does(CheckTo(100, At(3, 2000), false)),
            Does(CheckTo(150, At(4, 2000), false)),
            Write(Message::Request(false, false), "nearpass"),
            Takes(Served(160, LAST)),
            Does(CheckTo(200, THERE, true)),
            Takes(Answer(210, THERE)),
            Does(CheckTo(250, At(5, 2000), false)),
            Does(CheckTo(300, LAST, false)),
        ],
    ),
];

// ---- a session in which each check has a response, and one cut

/// Each check has a response until 6.55 s; then nothing arrives. Nine checks follow one another from 9.55 s on. Consent ends at 31.05 s.
const SESSION: [Step; 43] = [
    Does(Check(0)),
    Takes(Answer(10, THERE)),
    // the nomination is due, 10 ms after the first check at the earliest
    Shows(NextAt(10)),
    Does(CheckTo(50, THERE, true)),
    Takes(Answer(60, THERE)),
    Emits(Events("RcNCD")),
    Write(Message::Request(false, false), "nearpass"),
    Takes(Served(500, THERE)),
    Shows(NextAt(550)),
    Does(CheckTo(550, THERE, true)),
    Takes(Answer(560, THERE)),
    Shows(NextAt(1550)),
    Does(CheckTo(1550, THERE, true)),
    Takes(Answer(1560, THERE)),
    Shows(NextAt(3550)),
    Does(CheckTo(3550, THERE, true)),
    Takes(Answer(3560, THERE)),
    Shows(NextAt(6550)),
    Does(CheckTo(6550, THERE, true)),
    Takes(Answer(6560, THERE)),
    Shows(NextAt(9550)),
    Does(Check(9550)),
    Shows(NextAt(9620)),
    Does(Check(9650)),
    Does(Check(9750)),
    Does(Check(9850)),
    Does(Check(9950)),
    Does(Check(10_050)),
    Does(Check(10_150)),
    Does(Check(10_250)),
    Does(Check(10_350)),
    Shows(NextAt(10_420)),
    Does(Check(10_850)),
    Shows(NextAt(10_920)),
    Does(Check(30_600)),
    Holds(HasPair(PEER, true)),
    Shows(Connected),
    Shows(NextAt(31_050)),
    Counts(Count::Checks, 17),
    Does(Timeout(31_050)),
    Emits(NoPacket),
    Holds(HasPair(PEER, false)),
    Emits(Events("x")),
];

const SAME: [Story; 2] = [
    Story(
        "the_profile_modern",
        &[Begin(Paired), Set(Setting::Profile(Profile::Modern))],
    ),
    Story("a_session", &SESSION),
];
