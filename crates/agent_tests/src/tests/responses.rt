//! A response counts only on the path of its check.

use super::step::Call::*;
use super::step::Count::*;
use super::step::Emitted::*;
use super::step::Held::*;
use super::step::Packet::*;
use super::step::Shown::*;
use super::step::Start::*;
use super::step::Step::*;
use super::step::{At, Message};
use super::story::{Story, play};
use super::*;

#[test]
fn answers_count_on_their_path(rt: HostRuntime) -> Result<(), Fail> {
    play(rt.alloc(), &PATHS)?;
    play(rt.alloc(), &IDS)?;
    play(rt.alloc(), &MAPPED)
}

const HERE: At = At(1, 1000);

const THERE: At = At(2, 2000);

/// The peer's other candidates.
const OTHER: &str = "candidate:1 1 udp 2130706175 10.0.0.3 3000 typ host";

const SECOND: &str = "candidate:1 1 udp 2130706174 10.0.0.3 2000 typ host";

const PATHS: [Story; 6] = [
    Story(
        "off_its_path_nothing_comes_of_an_answer",
        &[
            Begin(Paired),
            Does(Check(0)),
            Emits(Events("Rc")),
            Write(Message::Success(HERE), "farpass"),
            Shows(Accepts(true)),
            Shows(AcceptsFrom(At(3, 2000), HERE, false)),
            Drops(Between(50, At(3, 2000), HERE)),
            Emits(Nothing),
            Shows(NoFigures),
            Shows(Accepts(true)),
            Shows(AcceptsFrom(At(2, 2001), HERE, false)),
            Drops(Between(50, At(2, 2001), HERE)),
            Emits(Nothing),
            Shows(NoFigures),
            Shows(Accepts(true)),
            Shows(AcceptsFrom(THERE, At(1, 1001), false)),
            Drops(Between(50, THERE, At(1, 1001))),
            Emits(Nothing),
            Shows(NoFigures),
            Shows(AcceptsFrom(THERE, HERE, true)),
            Takes(Next(50)),
            Emits(Events("NCD")),
        ],
    ),
    Story(
        "an_answer_on_its_path_selects_it",
        &[
            Begin(Paired),
            Does(Check(0)),
            Emits(Events("Rc")),
            Takes(Answer(50, THERE)),
            Emits(Selects(HERE, THERE)),
            Emits(Events("CD")),
            Shows(NextAt(50)),
            Holds(Locals(&[HERE])),
        ],
    ),
    Story(
        "figures_are_those_of_the_selected_pair",
        &[
            Begin(Paired),
            Shows(NoFigures),
            Does(Check(0)),
            Takes(Answer(50, THERE)),
            Shows(Figures(50, 50, 1)),
            // a repeated response counts again
            Takes(Next(70)),
            Shows(Figures(70, 120, 2)),
            Counts(Responses, 2),
        ],
    ),
    Story(
        "an_answer_of_another_key_or_id_is_none",
        &[
            Begin(Paired),
            Does(Check(0)),
            Emits(Events("Rc")),
            Write(Message::Success(HERE), "nearpass"),
            Shows(Accepts(false)),
            Drops(Next(50)),
            Shows(NoFigures),
            Write(Message::Stray, "farpass"),
            Shows(Accepts(false)),
            Drops(Next(50)),
            Shows(NoFigures),
            Emits(Nothing),
        ],
    ),
    Story(
        "a_failure_of_another_code_is_taken_and_does_nothing",
        &[
            Begin(Paired),
            Does(Check(0)),
            Write(Message::BadRequest, "farpass"),
            Takes(Next(50)),
            Emits(Events("RcD")),
            Shows(Controlling(true)),
            Shows(NoFigures),
        ],
    ),
    Story(
        "a_failure_that_carries_nothing_is_rejected",
        &[
            Begin(Paired),
            Does(CheckZeros(0, THERE)),
            Shows(NoBareFailure),
            Write(Message::BadRequest, "farpass"),
            Shows(Accepts(true)),
        ],
    ),
];

// ---- several checks with one id

const IDS: [Story; 4] = [
    Story(
        "of_equal_ids_the_one_on_the_path_is_answered",
        &[
            Begin(Paired),
            Does(CheckPublished(0)),
            Does(Peer(OTHER)),
            Does(CheckPublished(10)),
            Write(Message::Success(HERE), "farpass"),
            Emits(Events("Rc")),
            Takes(Between(50, At(3, 3000), HERE)),
            Emits(Selects(HERE, At(3, 3000))),
            Shows(Figures(40, 40, 1)),
        ],
    ),
    Story(
        "of_two_checks_of_one_id_that_of_the_pair_left_is_answered",
        &[
            Begin(Paired),
            Does(Peer(SECOND)),
            Does(CheckZeros(0, THERE)),
            Does(CheckZeros(50, At(3, 2000))),
            Emits(Events("Rc")),
            Write(Message::Success(HERE), "farpass"),
            Does(Invalidate(PEER)),
            Takes(Between(60, At(3, 2000), HERE)),
            Emits(Selects(HERE, At(3, 2000))),
        ],
    ),
    Story(
        "of_two_checks_of_one_id_that_of_the_pair_gone_is_not",
        &[
            Begin(Paired),
            Does(Peer(SECOND)),
            Does(CheckZeros(0, THERE)),
            Does(CheckZeros(50, At(3, 2000))),
            Emits(Events("Rc")),
            Write(Message::Success(HERE), "farpass"),
            Does(Invalidate(SECOND)),
            Drops(Between(60, At(3, 2000), HERE)),
            Emits(Nothing),
            Shows(NoFigures),
        ],
    ),
    Story(
        "of_two_checks_of_one_id_each_goes_with_its_pair",
        &[
            Begin(Paired),
            Does(Peer(SECOND)),
            Does(CheckZeros(0, THERE)),
            Does(CheckZeros(50, At(3, 2000))),
            Emits(Events("Rc")),
            Write(Message::Success(HERE), "farpass"),
            Takes(Between(60, At(3, 2000), HERE)),
            Shows(Accepts(true)),
            Does(Invalidate(PEER)),
            Takes(Between(60, At(3, 2000), HERE)),
            Shows(Accepts(true)),
            Drops(Between(60, THERE, HERE)),
            Shows(Accepts(true)),
            Does(Invalidate(SECOND)),
            Drops(Between(60, At(3, 2000), HERE)),
            Shows(Accepts(false)),
            // in the other order
            Begin(Paired),
            Does(Peer(SECOND)),
            Does(CheckZeros(0, THERE)),
            Does(CheckZeros(50, At(3, 2000))),
            Emits(Events("Rc")),
            Write(Message::Success(HERE), "farpass"),
            Takes(Between(60, At(3, 2000), HERE)),
            Shows(Accepts(true)),
            Does(Invalidate(SECOND)),
            Drops(Between(60, At(3, 2000), HERE)),
            Shows(Accepts(true)),
            Takes(Between(60, THERE, HERE)),
            Shows(Accepts(true)),
            Does(Invalidate(PEER)),
            Drops(Between(60, THERE, HERE)),
            Shows(Accepts(false)),
        ],
    ),
];

// ---- mapped addresses

const MAPPED: [Story; 3] = [
    Story(
        "an_unknown_mapped_address_is_a_candidate",
        &[
            Begin(Paired),
            Does(Check(0)),
            Write(Message::Success(At(9, 9000)), "farpass"),
            Takes(Next(50)),
            Holds(Locals(&[HERE, At(9, 9000)])),
            Holds(LastReflexive(HERE, 1862270719)),
            Emits(Events("RcNCD")),
        ],
    ),
    Story(
        "a_discarded_candidate_keeps_its_address_from_being_discovered",
        &[
            Begin(Paired),
            Does(Host(At(9, 9000))),
            Does(Invalidate("candidate:1 1 udp 1 10.0.0.9 9000 typ host")),
            Does(Check(0)),
            Write(Message::Success(At(9, 9000)), "farpass"),
            Takes(Next(50)),
            Holds(Locals(&[HERE])),
        ],
    ),
    Story(
        "a_discovered_candidate_pairs_with_later_ones",
        &[
            Begin(Paired),
            Does(Check(0)),
            Write(Message::Success(At(9, 9000)), "farpass"),
            Takes(Next(50)),
            // only this one is left
            Does(Invalidate("candidate:1 1 udp 1 10.0.0.1 1000 typ host")),
            Does(Peer(OTHER)),
            Holds(Places(OTHER, 1, 1)),
        ],
    ),
];
