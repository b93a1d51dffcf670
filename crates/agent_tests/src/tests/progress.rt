//! Progress: in which round a path with answered checks is selected, and which executions delay that.

use super::step::Call::*;
use super::step::Emitted::*;
use super::step::Held::*;
use super::step::Packet::*;
use super::step::Shown::*;
use super::step::Start::*;
use super::step::Step::*;
use super::step::{At, Count, Message, Setting, Whose};
use super::story::{Story, play};
use super::*;

#[test]
fn answered_paths_are_selected(rt: HostRuntime) -> Result<(), Fail> {
    play(rt.alloc(), &ROUNDS)?;
    play(rt.alloc(), &DELAYS)
}

// ---- of n pairs the last is checked in round n, (n - 1) * 50 ms after the first

const ROUNDS: [Story; 2] = [
    Story(
        "the_least_of_four_pairs_is_selected_in_the_fourth_round",
        &[
            Begin(Unpaired),
            Does(Peers(4)),
            Emits(SelectedIn(100, At(5, 2000), Some((4, 150)))),
            Counts(Count::Checks, 4),
        ],
    ),
    Story(
        "the_least_of_a_hundred_pairs_is_selected_in_the_hundredth_round",
        &[
            Begin(Unpaired),
            Does(Peers(100)),
            Emits(SelectedIn(200, At(101, 2000), Some((100, 4950)))),
            Counts(Count::Checks, 100),
        ],
    ),
];

// ---- executions that delay it

const DELAYS: [Story; 7] = [
    Story(
        "without_pacing_the_timeout_is_the_last_one",
        &[
            Begin(Unpaired),
            Does(Peers(2)),
            Set(Setting::Pacing(0)),
            Does(Check(100)),
            Shows(NextAt(100)),
            Set(Setting::Pacing(1)),
            Shows(NextAt(101)),
        ],
    ),
    Story(
        "below_a_millisecond_a_pair_goes_twice_before_another",
        &[
            Begin(Unpaired),
            Does(Peers(2)),
            Set(Setting::InitialNanos(1_000_000)),
            // due again at 1 ms, after the other
            Emits(SelectedIn(9, At(3, 2000), Some((2, 50)))),
            Begin(Unpaired),
            Does(Peers(2)),
            Set(Setting::InitialNanos(999_999)),
            // due again at once, before the other, which has a lower priority
            Emits(SelectedIn(9, At(3, 2000), Some((3, 100)))),
        ],
    ),
    Story(
        "a_lite_agent_checks_nothing",
        &[
            Begin(Unpaired),
            Set(Setting::Lite),
            Does(Peers(1)),
            Emits(SelectedIn(10, At(2, 2000), None)),
            Counts(Count::Checks, 0),
            // its timeouts are 3 s apart
            Shows(NextAt(30_000)),
        ],
    ),
    Story(
        "without_the_credentials_of_the_peer_nothing_is_checked",
        &[
            Begin(New("near", "nearpass", 7)),
            Set(Setting::Controlling(true)),
            Does(Host(At(1, 1000))),
            Does(Peers(1)),
            Emits(SelectedIn(10, At(2, 2000), None)),
            Counts(Count::Checks, 0),
            // its pair is always due
            Shows(NextAt(500)),
            Does(Creds(Whose::Remote, "farr", "farpass")),
            Emits(SelectedIn(9, At(2, 2000), Some((1, 500)))),
        ],
    ),
    // requests from the first candidate claim a role with a greater tie-breaker, so the agent switches
    Story(
        "a_role_that_turns_twice_within_a_round_puts_a_pair_ahead",
        &[
            Begin(Unpaired),
            Does(Peers(2)),
            Does(CheckTo(60_000, At(2, 2000), false)),
            Emits(SelectedIn(9, At(3, 2000), Some((1, 60_050)))),
            Begin(Unpaired),
            Does(Peers(2)),
            Does(CheckTo(60_000, At(2, 2000), false)),
            Shows(Controlling(true)),
            Write(Message::Request(true, true), "nearpass"),
            Takes(Served(60_010, At(2, 2000))),
            Shows(Controlling(false)),
            Write(Message::Request(false, false), "nearpass"),
            Takes(Served(60_020, At(2, 2000))),
            Shows(Controlling(true)),
            // the pair that was nominated in between is checked once more
            Emits(SelectedIn(9, At(3, 2000), Some((2, 60_100)))),
        ],
    ),
    Story(
        "a_pair_of_a_packet_goes_before_one_that_is_due_at_the_first_timeout",
        &[
            // both pairs are due at the first timeout; it checks one, and the second timeout the other
            Begin(Unpaired),
            Does(Peers(2)),
            Does(CheckTo(60_000, At(2, 2000), false)),
            Emits(SelectedIn(9, At(3, 2000), Some((1, 60_050)))),
            Begin(Unpaired),
            Does(Peers(2)),
            Does(CheckTo(60_000, At(2, 2000), false)),
            // a request from an unknown address, with a greater priority than those of the known candidates
            Write(Message::Request(false, false), "nearpass"),
            Takes(Served(60_010, At(9, 9000))),
            // `poll_timeout` queries the new pair's due time as of the first timeout, so it comes before the other
            Emits(SelectedIn(9, At(3, 2000), Some((2, 60_100)))),
        ],
    ),
    Story(
        "a_pair_of_one_check_is_removed_before_a_late_answer",
        &[
            Begin(Unpaired),
            Does(Peers(1)),
            Does(Check(0)),
            Write(Message::Success(At(1, 1000)), "farpass"),
            Shows(NextAt(250)),
            Does(Check(250)),
            // the response to the first check counts even after the second check
            Takes(Between(300, At(2, 2000), At(1, 1000))),
            Emits(Selected(Some(At(2, 2000)))),
            Begin(Unpaired),
            Does(Peers(1)),
            Set(Setting::OneCheck),
            Does(Check(0)),
            Write(Message::Success(At(1, 1000)), "farpass"),
            Shows(NextAt(250)),
            Does(Timeout(250)),
            Emits(NoPacket),
            Shows(Disconnected),
            Drops(Between(300, At(2, 2000), At(1, 1000))),
            Emits(Selected(None)),
        ],
    ),
];
