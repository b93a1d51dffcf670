//! Times: the next timeout, and when pairs are checked, selected and removed.

use super::step::Call::*;
use super::step::Emitted::*;
use super::step::Held::*;
use super::step::Packet::*;
use super::step::Shown::*;
use super::step::Start::*;
use super::step::Step::*;
use super::step::{At, Count, Message, Setting};
use super::story::{Story, play};
use super::*;

#[test]
fn timeouts_pass(rt: HostRuntime) -> Result<(), Fail> {
    play(rt.alloc(), &PATHS)?;
    play(rt.alloc(), &DUE)
}

const PATHS: [Story; 3] = [
    Story(
        "a_path_is_selected_and_nominated",
        &[
            Begin(Paired),
            Does(Check(0)),
            Emits(Checked(88, false)),
            Emits(Events("Rc")),
            Shows(NextAt(250)),
            Takes(Answer(50, At(2, 2000))),
            Emits(Events("NCD")),
            Shows(NextAt(50)),
            Does(Check(50)),
            Emits(Checked(92, true)),
            // the selected pair has the greatest priority: it is not selected again
            Emits(Nothing),
            Counts(Count::Nominations, 1),
        ],
    ),
    // a check at each of these times, after which the next timeout is the next of them
    Story(
        "a_pair_without_answers_is_removed",
        &[
            Begin(Paired),
            Does(Check(0)),
            Shows(NextAt(250)),
            Does(Check(250)),
            Shows(NextAt(750)),
            Does(Check(750)),
            Shows(NextAt(1750)),
            Does(Check(1750)),
            Shows(NextAt(3750)),
            Does(Check(3750)),
            Shows(NextAt(6750)),
            Does(Check(6750)),
            Shows(NextAt(9750)),
            Does(Check(9750)),
            Shows(NextAt(12750)),
            Does(Check(12750)),
            Shows(NextAt(15750)),
            Does(Check(15750)),
            Shows(NextAt(18750)),
            Emits(Events("Rc")),
            Does(Timeout(18750)),
            Emits(Events("x")),
            Emits(NoPacket),
            Holds(HasPair(PEER, false)),
            Shows(NextAt(21750)),
            Shows(Disconnected),
            Counts(Count::Checks, 9),
        ],
    ),
    Story(
        "fewer_checks_fail_sooner",
        &[
            Begin(Paired),
            Set(Setting::OneCheck),
            Does(Check(0)),
            Does(Timeout(249)),
            Holds(HasPair(PEER, true)),
            Does(Timeout(250)),
            Holds(HasPair(PEER, false)),
            Emits(Events("Rcx")),
        ],
    ),
];

// ---- due times

const DUE: [Story; 5] = [
    Story(
        "a_waiting_packet_leaves_due_times_open",
        &[
            Begin(Paired),
            Shows(NoNext),
            Does(Timeout(0)),
            Shows(NextAt(50)),
            // the due times are computed for the last `now`, and are fixed then
            Emits(Sends),
            Shows(NextAt(250)),
        ],
    ),
    Story(
        "an_earlier_timeout_makes_no_check",
        &[
            Begin(Paired),
            Does(Check(1000)),
            Does(Timeout(0)),
            Emits(NoPacket),
            Shows(NextAt(1250)),
        ],
    ),
    // the peer nominates a pair of a controlled agent after its check
    Story(
        "a_nomination_leaves_a_due_time_that_was_queried",
        &[
            Begin(Known),
            Does(Peer(PEER)),
            Does(Check(0)),
            Shows(NextAt(250)),
            Takes(Request(10, At(1, 1000))),
            Emits(Sends),
            Holds(Nominated(PEER)),
            Shows(NextAt(250)),
        ],
    ),
    Story(
        "a_nominated_pair_that_was_not_asked_is_due",
        &[
            Begin(Known),
            Does(Peer(PEER)),
            Does(Check(0)),
            Takes(Request(10, At(1, 1000))),
            Emits(Sends),
            Holds(Nominated(PEER)),
            Shows(NextAt(50)),
        ],
    ),
    Story(
        "another_delay_computes_due_times_again",
        &[
            Begin(Paired),
            Does(Check(0)),
            Shows(NextAt(250)),
            Set(Setting::InitialRto(100)),
            Shows(NextAt(100)),
            Set(Setting::MaxRto(80)),
            Shows(NextAt(80)),
            // the pacing interval is a lower bound
            Set(Setting::Pacing(90)),
            Shows(NextAt(90)),
        ],
    ),
];
