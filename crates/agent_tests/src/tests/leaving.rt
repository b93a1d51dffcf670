//! With the profile `Modern` a selected path that falls silent is left for another one that works, long before its consent ends.

use super::step::Call::*;
use super::step::Emitted::*;
use super::step::Held::*;
use super::step::Packet::*;
use super::step::Shown::*;
use super::step::Start::*;
use super::step::Step::*;
use super::step::{At, Setting, Step};
use super::story::{Story, play};
use super::*;
use is::Profile;

#[test]
fn a_silent_path_is_left(rt: HostRuntime) -> Result<(), Fail> {
    play(rt.alloc(), &LEFT)?;
    play(rt.alloc(), &KEPT)
}

/// The address of `PEER`.
const THERE: At = At(2, 2000);

/// Another host candidate of the peer, of less priority, and its address.
const OTHER: &str = "candidate:1 1 udp 2130706174 10.0.0.3 3000 typ host";

const ELSEWHERE: At = At(3, 3000);

/// Both paths are valid. Since more than 60 s have passed, a nominated pair is due before all others.
const BOTH: [Step; 12] = [
    Does(Peer(PEER)),
    Does(Peer(OTHER)),
    Does(CheckTo(100_000, THERE, false)),
    Takes(Answer(100_010, THERE)),
    Does(CheckTo(100_050, THERE, true)),
    Takes(Answer(100_060, THERE)),
    Does(CheckTo(100_100, ELSEWHERE, false)),
    Takes(Answer(100_110, ELSEWHERE)),
    Emits(Selected(Some(THERE))),
    Shows(NextAt(100_350)),
    Does(CheckTo(100_350, ELSEWHERE, false)),
    Takes(Answer(100_360, ELSEWHERE)),
];

/// All paths are silent. The checks of the selected one come 70 ms after one another, and in between the other one is asked along.
const SILENT: [Step; 20] = [
    Shows(NextAt(100_550)),
    Does(CheckTo(100_550, THERE, true)),
    Shows(NextAt(100_620)),
    Does(CheckTo(100_620, THERE, true)),
    Does(CheckTo(100_690, ELSEWHERE, false)),
    Does(CheckTo(100_740, THERE, true)),
    Does(CheckTo(100_810, ELSEWHERE, false)),
    Does(CheckTo(100_860, THERE, true)),
    Does(CheckTo(100_930, ELSEWHERE, false)),
    Does(CheckTo(100_980, THERE, true)),
    Does(CheckTo(101_050, ELSEWHERE, false)),
    Does(CheckTo(101_100, THERE, true)),
    Does(CheckTo(101_170, ELSEWHERE, false)),
    Does(CheckTo(101_220, THERE, true)),
    Does(CheckTo(101_290, ELSEWHERE, false)),
    Does(CheckTo(101_340, THERE, true)),
    Does(CheckTo(101_410, ELSEWHERE, false)),
    Does(CheckTo(101_460, THERE, true)),
    Emits(Selected(None)),
    Holds(HasPair(PEER, true)),
];

/// The selected path dies. The other one is asked along, and once more when its response is older than the last four checks.
const DIES: [Step; 15] = [
    Shows(NextAt(100_550)),
    Does(CheckTo(100_550, THERE, true)),
    Shows(NextAt(100_620)),
    Does(CheckTo(100_620, THERE, true)),
    Does(CheckTo(100_690, ELSEWHERE, false)),
    Takes(Answer(100_700, ELSEWHERE)),
    Does(CheckTo(100_740, THERE, true)),
    Does(CheckTo(100_810, THERE, true)),
    Does(CheckTo(100_880, THERE, true)),
    Does(CheckTo(100_950, THERE, true)),
    Does(CheckTo(101_020, THERE, true)),
    Does(CheckTo(101_090, ELSEWHERE, false)),
    Takes(Answer(101_100, ELSEWHERE)),
    Does(CheckTo(101_140, THERE, true)),
    Emits(Selected(None)),
];

/// Three checks of the selected path had a response, and two were lost before the last of these. Then it dies.
const DIES_LOSSY: [Step; 25] = [
    Does(CheckTo(100_550, THERE, true)),
    Does(CheckTo(100_620, THERE, true)),
    Does(CheckTo(100_690, ELSEWHERE, false)),
    Takes(Answer(100_700, ELSEWHERE)),
    Does(CheckTo(100_740, THERE, true)),
    Takes(Answer(100_750, THERE)),
    Does(CheckTo(101_190, ELSEWHERE, false)),
    Takes(Answer(101_200, ELSEWHERE)),
    Does(CheckTo(101_240, THERE, true)),
    Does(CheckTo(101_310, THERE, true)),
    Does(CheckTo(101_380, ELSEWHERE, false)),
    Takes(Answer(101_390, ELSEWHERE)),
    Does(CheckTo(101_430, THERE, true)),
    Does(CheckTo(101_500, THERE, true)),
    Does(CheckTo(101_570, THERE, true)),
    Does(CheckTo(101_640, THERE, true)),
    Does(CheckTo(101_710, THERE, true)),
    Does(CheckTo(101_780, ELSEWHERE, false)),
    Takes(Answer(101_790, ELSEWHERE)),
    Does(CheckTo(101_830, THERE, true)),
    Does(CheckTo(101_900, THERE, true)),
    Does(CheckTo(101_970, THERE, true)),
    Does(CheckTo(102_040, THERE, true)),
    Emits(Selected(None)),
    Holds(HasPair(PEER, true)),
];

const LEFT: [Story; 5] = [
    Story(
        "two_paths_work",
        &[
            Begin(Unpaired),
            Set(Setting::Profile(Profile::Modern)),
            Set(Setting::MaxRto(500)),
            Set(Setting::ElevenChecks),
        ],
    ),
    Story("one_is_selected", &BOTH),
    Story("and_dies", &DIES),
    // once 850 ms and the longest RTO have passed since the last check with a response, at 50 ms, the other path is selected; it is nominated
    // in the next call, which is due at once
    Story(
        "eleven_checks_have_no_response",
        &[
            Does(CheckTo(101_210, THERE, true)),
            Does(CheckTo(101_280, THERE, true)),
            Does(CheckTo(101_350, THERE, true)),
            Emits(Selected(None)),
            Holds(HasPair(PEER, true)),
            Shows(NextAt(101_420)),
            Does(Timeout(101_420)),
            Emits(NoPacket),
            Emits(Selected(Some(ELSEWHERE))),
            Holds(HasPair(PEER, false)),
            Does(CheckTo(101_421, ELSEWHERE, true)),
            Shows(Connected),
        ],
    ),
    // the next response on the other path forms the pair again; it is selected again once a check of it is answered
    Story(
        "the_left_path_is_checked_again",
        &[
            Takes(Answer(101_430, ELSEWHERE)),
            Holds(HasPair(PEER, true)),
            Does(CheckTo(101_471, THERE, false)),
            Takes(Answer(101_480, THERE)),
            Emits(Selected(Some(THERE))),
        ],
    ),
];

const KEPT: [Story; 12] = [
    Story(
        "two_paths_work_again",
        &[
            Begin(Unpaired),
            Set(Setting::Profile(Profile::Modern)),
            Set(Setting::MaxRto(500)),
        ],
    ),
    Story("one_is_selected_again", &BOTH),
    Story("all_paths_are_silent", &SILENT),
    // four checks of the silent pair would have to follow
    Story(
        "the_other_path_has_the_first_response",
        &[
            Does(CheckTo(101_530, ELSEWHERE, false)),
            Takes(Answer(101_540, ELSEWHERE)),
            Shows(NextAt(101_580)),
            Does(CheckTo(101_580, THERE, true)),
            Does(CheckTo(101_650, THERE, true)),
            Takes(Answer(101_660, THERE)),
            Does(Timeout(103_000)),
            Emits(Selected(None)),
            Holds(HasPair(PEER, true)),
        ],
    ),
    // with nine checks, two before the last nine were lost, and three had a response: so 850 ms and the longest RTO are not enough
    Story(
        "many_checks_were_lost_before",
        &[
            Begin(Unpaired),
            Set(Setting::Profile(Profile::Modern)),
            Set(Setting::MaxRto(500)),
        ],
    ),
    Story("though_three_had_a_response", &BOTH),
    Story("it_dies_again", &DIES_LOSSY),
    Story(
        "and_is_kept_for_longer",
        &[
            Does(CheckTo(102_110, THERE, true)),
            Emits(Selected(None)),
            Holds(HasPair(PEER, true)),
        ],
    ),
    Story(
        "who_slept_for_20_s",
        &[Begin(Unpaired), Set(Setting::Profile(Profile::Modern))],
    ),
    Story("had_two_paths", &BOTH),
    Story(
        "and_keeps_the_selected_one",
        &[
            Does(CheckTo(120_000, THERE, true)),
            Does(CheckTo(120_050, ELSEWHERE, false)),
            Takes(Answer(120_060, ELSEWHERE)),
            Does(CheckTo(120_100, THERE, true)),
            Takes(Answer(120_110, THERE)),
            Emits(Selected(None)),
            Holds(HasPair(PEER, true)),
        ],
    ),
    // the selected path dies, and the other one is answered
    Story(
        "with_the_original_it_is_not_left",
        &[
            Begin(Unpaired),
            Set(Setting::Profile(Profile::Original)),
            Does(Peer(PEER)),
            Does(Peer(OTHER)),
            Does(CheckTo(100_000, THERE, false)),
            Takes(Answer(100_010, THERE)),
            Does(CheckTo(100_050, THERE, true)),
            Takes(Answer(100_060, THERE)),
            Does(CheckTo(100_100, ELSEWHERE, false)),
            Takes(Answer(100_110, ELSEWHERE)),
            Emits(Selected(Some(THERE))),
            Does(CheckTo(100_350, ELSEWHERE, false)),
            Takes(Answer(100_360, ELSEWHERE)),
            Does(CheckTo(100_550, THERE, true)),
            Does(CheckTo(100_850, ELSEWHERE, false)),
            Takes(Answer(100_860, ELSEWHERE)),
            Does(CheckTo(101_550, THERE, true)),
            Does(CheckTo(101_850, ELSEWHERE, false)),
            Takes(Answer(101_860, ELSEWHERE)),
            Does(CheckTo(103_550, THERE, true)),
            Does(CheckTo(103_850, ELSEWHERE, false)),
            Takes(Answer(103_860, ELSEWHERE)),
            Does(CheckTo(104_550, THERE, true)),
            Does(CheckTo(106_550, THERE, true)),
            Does(CheckTo(106_850, ELSEWHERE, false)),
            Takes(Answer(106_860, ELSEWHERE)),
            Does(CheckTo(109_550, THERE, true)),
            Does(CheckTo(109_850, ELSEWHERE, false)),
            Takes(Answer(109_860, ELSEWHERE)),
            Does(CheckTo(112_550, THERE, true)),
            Does(CheckTo(112_850, ELSEWHERE, false)),
            Takes(Answer(112_860, ELSEWHERE)),
            Does(CheckTo(115_550, THERE, true)),
            Emits(Selected(None)),
            Holds(HasPair(PEER, true)),
        ],
    ),
];
