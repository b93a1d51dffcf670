//! With the profile `Modern` a controlled agent checks its selected path soon once the peer nominates another one, and leaves it then if it is
//! silent. A controlling agent nominates the path that it has to go by as soon as the other one is gone.

use super::step::Call::*;
use super::step::Emitted::*;
use super::step::Held::*;
use super::step::Packet::*;
use super::step::Shown::*;
use super::step::Start::*;
use super::step::Step::*;
use super::step::{At, Message, Setting, Step};
use super::story::{Story, play};
use super::*;
use is::Profile;

#[test]
fn the_peers_choice_is_followed(rt: HostRuntime) -> Result<(), Fail> {
    play(rt.alloc(), &CHOSEN)
}

/// Two candidates of the peer, the first one with the greater priority. The stories begin a minute after the beginning.
const FIRST: &str = "candidate:1 1 udp 2000 10.0.0.2 2000 typ host";

const SECOND: &str = "candidate:1 1 udp 1000 10.0.0.3 2000 typ host";

const AT_FIRST: At = At(2, 2000);

const AT_SECOND: At = At(3, 2000);

/// Both paths are valid, and the peer nominates the first one.
const BOTH: [Step; 13] = [
    Set(Setting::Controlling(false)),
    Set(Setting::Profile(Profile::Modern)),
    Set(Setting::ElevenChecks),
    Does(Peer(FIRST)),
    Does(Peer(SECOND)),
    Does(CheckBy(60_000, AT_FIRST, None)),
    Takes(Answer(60_010, AT_FIRST)),
    Does(CheckBy(60_050, AT_SECOND, None)),
    Takes(Answer(60_060, AT_SECOND)),
    Write(Message::Request(true, true), "nearpass"),
    Takes(Served(60_070, AT_FIRST)),
    Emits(Selected(Some(AT_FIRST))),
    Does(CheckBy(60_250, AT_FIRST, None)),
];

const CHOSEN: [Story; 4] = [
    Story("two_paths_work", &[Begin(Unpaired)]),
    Story("and_the_peer_nominates_one", &BOTH),
    // the selected path is due next in the call that follows, and checked 10 ms later
    Story(
        "it_nominates_the_other_one",
        &[
            Takes(Answer(60_260, AT_FIRST)),
            Does(CheckBy(60_300, AT_SECOND, None)),
            Takes(Answer(60_310, AT_SECOND)),
            Shows(NextAt(60_750)),
            Write(Message::Request(true, true), "nearpass"),
            Takes(Served(60_330, AT_SECOND)),
            Emits(Selected(None)),
            Shows(SoonAt(60_305)),
            Does(Timeout(60_335)),
            Emits(NoPacket),
            Shows(NextAt(60_345)),
            Does(CheckBy(60_345, AT_FIRST, None)),
        ],
    ),
    Story(
        "and_the_selected_one_is_left_after_eleven_checks",
        &[
            Shows(NextAt(60_415)),
            Does(CheckBy(60_415, AT_FIRST, None)),
            Does(CheckBy(60_485, AT_SECOND, None)),
            Takes(Answer(60_490, AT_SECOND)),
            Shows(NextAt(60_495)),
            Does(CheckBy(60_495, AT_FIRST, None)),
            Does(CheckBy(60_565, AT_FIRST, None)),
            Does(CheckBy(60_635, AT_FIRST, None)),
            Does(CheckBy(60_705, AT_FIRST, None)),
            Does(CheckBy(60_775, AT_FIRST, None)),
            Does(CheckBy(60_845, AT_SECOND, None)),
            Takes(Answer(60_850, AT_SECOND)),
            Does(CheckBy(60_855, AT_FIRST, None)),
            Does(CheckBy(60_925, AT_FIRST, None)),
            Does(CheckBy(60_995, AT_FIRST, None)),
            Does(CheckBy(61_065, AT_FIRST, None)),
            Emits(Selected(None)),
            Does(Timeout(61_135)),
            Emits(Selected(Some(AT_SECOND))),
            Holds(HasPair(FIRST, false)),
        ],
    ),
];
