//! Pair numbers: each is used at most once, and they run out.

use super::step::Call::*;
use super::step::Emitted::*;
use super::step::Held::*;
use super::step::Packet::*;
use super::step::Shown::*;
use super::step::Start::*;
use super::step::Step::*;
use super::step::{At, Count, Outcome, Setting};
use super::story::{Story, play};
use super::*;

#[test]
fn numbers_of_pairs_end(rt: HostRuntime) -> Result<(), Fail> {
    play(rt.alloc(), &STORIES)
}

/// No number is left.
const NONE_LEFT: u64 = 18446744073709551615;

/// The last number.
const LAST: u64 = 18446744073709551614;

const STORIES: [Story; 4] = [
    Story(
        "numbers_end",
        &[
            Begin(Paired),
            Holds(Number(PEER, 0)),
            Does(Recreate),
            Emits(Events("c")),
            // no number is used again
            Holds(Number(PEER, 1)),
            Set(Setting::FirstNumber(LAST)),
            Does(Recreate),
            Errs(Recreate, Outcome::PairIdsExhausted),
            Holds(Number(PEER, LAST)),
            Emits(Nothing),
        ],
    ),
    Story(
        "without_a_number_no_candidate_is_stored",
        &[
            Begin(Unpaired),
            Set(Setting::FirstNumber(NONE_LEFT)),
            Fails(Peer(PEER)),
            Holds(Remotes(&[])),
            // no local candidate uses TCP: no pair is needed
            Does(Peer("candidate:1 1 tcp 2130706175 10.0.0.2 2000 typ host")),
            Holds(Remotes(&[At(2, 2000)])),
        ],
    ),
    Story(
        "the_last_number_forms_one_pair",
        &[
            Begin(Unpaired),
            Set(Setting::FirstNumber(LAST)),
            // a smaller number changes nothing
            Set(Setting::FirstNumber(3)),
            Does(Peer(PEER)),
            Holds(Number(PEER, LAST)),
            Fails(Peer("candidate:1 1 udp 2130706175 10.0.0.3 3000 typ host")),
            Holds(Remotes(&[At(2, 2000)])),
        ],
    ),
    Story(
        "without_a_number_no_request_is_served",
        &[
            Begin(Known),
            Set(Setting::Controlling(true)),
            Set(Setting::FirstNumber(NONE_LEFT)),
            // neither the role nor the remote candidates change, and the source is not reported
            Drops(Request(0, At(1, 1000))),
            Emits(Nothing),
            Shows(Controlling(true)),
            Holds(Remotes(&[])),
            Counts(Count::Requests, 0),
        ],
    ),
];
