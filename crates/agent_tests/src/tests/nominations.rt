//! Nominations with numbers (NOMINATION of draft-thatcher-ice-renomination), as a controlling agent sends them.

use super::step::Call::*;
use super::step::Emitted::*;
use super::step::Packet::*;
use super::step::Shown::*;
use super::step::Start::*;
use super::step::Step::*;
use super::step::{At, Setting, Whose};
use super::story::{Story, play};
use super::*;
use is::Profile;

#[test]
fn selections_are_numbered(rt: HostRuntime) -> Result<(), Fail> {
    play(rt.alloc(), &CONTROLLING)
}

/// Two candidates of the peer, the first one with the greater priority. The stories begin a minute after the beginning.
const FIRST: &str = "candidate:1 1 udp 2000 10.0.0.2 2000 typ host";

const SECOND: &str = "candidate:1 1 udp 1000 10.0.0.3 2000 typ host";

const AT_FIRST: At = At(2, 2000);

const AT_SECOND: At = At(3, 2000);

const CONTROLLING: [Story; 4] = [
    // the agent selects the second pair, and then the first one. Until it is nominated, checks may be 10 ms apart
    Story(
        "each_selection_has_the_next_number",
        &[
            Begin(Unpaired),
            Set(Setting::Controlling(true)),
            Set(Setting::Renomination(true)),
            Set(Setting::Profile(Profile::Modern)),
            Does(Peer(FIRST)),
            Does(Peer(SECOND)),
            Does(CheckBy(60_000, AT_FIRST, None)),
            Does(CheckBy(60_050, AT_SECOND, None)),
            Takes(Answer(60_060, AT_SECOND)),
            Emits(Selected(Some(AT_SECOND))),
            Shows(NextAt(60_060)),
            Does(CheckBy(60_100, AT_SECOND, Some(1))),
            Takes(Answer(60_110, AT_SECOND)),
            Does(CheckBy(60_250, AT_FIRST, None)),
            Takes(Answer(60_260, AT_FIRST)),
            Emits(Selected(Some(AT_FIRST))),
            Shows(NextAt(60_260)),
            Does(CheckBy(60_300, AT_FIRST, Some(2))),
            Takes(Answer(60_310, AT_FIRST)),
            // the next check of the second pair, and then that of the first one, with the same number
            Does(CheckBy(60_600, AT_SECOND, None)),
            Does(CheckBy(61_300, AT_FIRST, Some(2))),
        ],
    ),
    // the second pair was nominated before
    Story(
        "a_path_that_is_selected_again_is_nominated_at_once",
        &[
            Begin(Unpaired),
            Set(Setting::Controlling(true)),
            Set(Setting::Renomination(true)),
            Set(Setting::Profile(Profile::Modern)),
            Does(Peer(FIRST)),
            Does(Peer(SECOND)),
            Does(CheckBy(60_000, AT_FIRST, None)),
            Does(CheckBy(60_050, AT_SECOND, None)),
            Takes(Answer(60_060, AT_SECOND)),
            Does(CheckBy(60_100, AT_SECOND, Some(1))),
            Takes(Answer(60_110, AT_SECOND)),
            Does(CheckBy(60_250, AT_FIRST, None)),
            Takes(Answer(60_260, AT_FIRST)),
            Does(CheckBy(60_300, AT_FIRST, Some(2))),
            Takes(Answer(60_310, AT_FIRST)),
            Does(CheckBy(60_600, AT_SECOND, None)),
            Takes(Answer(60_610, AT_SECOND)),
            Emits(Selected(Some(AT_FIRST))),
            Does(Invalidate(FIRST)),
            Shows(NextAt(60_610)),
            Does(CheckBy(60_650, AT_SECOND, Some(3))),
            Emits(Selected(Some(AT_SECOND))),
            // without numbers it waits for its next check
            Begin(Unpaired),
            Set(Setting::Controlling(true)),
            Set(Setting::Renomination(true)),
            Set(Setting::Profile(Profile::Original)),
            Does(Peer(FIRST)),
            Does(Peer(SECOND)),
            Does(CheckBy(60_000, AT_FIRST, None)),
            Does(CheckBy(60_050, AT_SECOND, None)),
            Takes(Answer(60_060, AT_SECOND)),
            Does(CheckTo(60_100, AT_SECOND, true)),
            Takes(Answer(60_110, AT_SECOND)),
            Does(CheckBy(60_250, AT_FIRST, None)),
            Takes(Answer(60_260, AT_FIRST)),
            Does(CheckTo(60_300, AT_FIRST, true)),
            Takes(Answer(60_310, AT_FIRST)),
            Does(CheckBy(60_600, AT_SECOND, None)),
            Takes(Answer(60_610, AT_SECOND)),
            Emits(Selected(Some(AT_FIRST))),
            Does(Invalidate(FIRST)),
            Shows(NextAt(61_600)),
            Does(Timeout(60_650)),
            Emits(NoPacket),
            Emits(Selected(Some(AT_SECOND))),
            Shows(NextAt(61_600)),
        ],
    ),
    Story(
        "a_restart_keeps_the_number",
        &[
            Begin(Unpaired),
            Set(Setting::Controlling(true)),
            Set(Setting::Renomination(true)),
            Set(Setting::Profile(Profile::Modern)),
            Does(Peer(FIRST)),
            Does(CheckBy(60_000, AT_FIRST, None)),
            Takes(Answer(60_010, AT_FIRST)),
            Does(CheckBy(60_050, AT_FIRST, Some(1))),
            Does(Creds(Whose::Restarted, "new1", "newpass")),
            Does(Creds(Whose::Remote, "farr", "farpass")),
            Does(Peer(FIRST)),
            Does(CheckBy(60_100, AT_FIRST, None)),
            Takes(Answer(60_110, AT_FIRST)),
            Does(CheckBy(60_150, AT_FIRST, Some(2))),
        ],
    ),
    Story(
        "without_renomination_there_is_no_number",
        &[
            Begin(Unpaired),
            Set(Setting::Controlling(true)),
            Set(Setting::Profile(Profile::Modern)),
            Does(Peer(FIRST)),
            Does(CheckBy(60_000, AT_FIRST, None)),
            Takes(Answer(60_010, AT_FIRST)),
            Does(CheckTo(60_050, AT_FIRST, true)),
            Emits(Sent(Class::Request, 92)),
            Begin(Unpaired),
            Set(Setting::Controlling(true)),
            Set(Setting::Renomination(true)),
            Set(Setting::Profile(Profile::Modern)),
            Does(Peer(FIRST)),
            Does(CheckBy(60_000, AT_FIRST, None)),
            Takes(Answer(60_010, AT_FIRST)),
            Does(CheckBy(60_050, AT_FIRST, Some(1))),
            // 8 bytes more
            Emits(Sent(Class::Request, 100)),
        ],
    ),
];
