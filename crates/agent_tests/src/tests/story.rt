//! Stories: steps, each of which holds for the agent. One test with one player plays the stories of a subject; each story
//! begins with a new agent.

use super::driver::Player;
use super::step::Step;
use super::*;
use std::fmt::Debug;

/// A story: its name and its steps.
#[derive(Clone, Copy)]
pub(super) struct Story(pub(super) &'static str, pub(super) &'static [Step]);

/// The first step of a story that does not hold, counted from 1.
#[derive(Clone, Copy)]
pub(super) struct Missed {
    pub(super) story: &'static str,
    pub(super) step: usize,
}

/// Whether the value is the expected one. The first value that is not is stored, and printed if the story fails.
pub(super) fn same<T: Copy + PartialEq + Debug>(
    actual: T,
    expected: T,
    alloc: Global,
    difference: &mut Option<String>,
) -> bool {
    if actual == expected {
        return true;
    }
    if difference.is_none() {
        *difference = format!(in alloc; "expected {expected:?}, actual {actual:?}").ok();
    }
    false
}

/// The first step that does not hold of the story.
fn first_failure(player: &mut Player, story: &Story) -> Option<Missed> {
    let mut number: usize = 0;
    for step in story.1 {
        number = number.saturating_add(1);
        if !player.makes(step) {
            return Some(Missed {
                story: story.0,
                step: number,
            });
        }
    }
    None
}

/// The first step that does not hold of any of the stories.
fn first_missed(player: &mut Player, stories: &[Story]) -> Option<Missed> {
    for story in stories {
        if let Some(missed) = first_failure(player, story) {
            return Some(missed);
        }
    }
    None
}

/// Plays the stories with an agent in a box. Returns the first step that does not hold, and the first comparison that
/// failed.
fn played(alloc: Global, stories: &[Story]) -> Result<(Option<Missed>, Option<String>), Fail> {
    let mut player = Box::new(alloc, Player::new(alloc, "near", "nearpass", 7)?)?;
    let missed = first_missed(&mut player, stories);
    Ok((missed, player.difference.take()))
}

/// Fails if a step does not hold, with the name of its story, its number, and the first comparison that failed.
pub(super) fn report(
    alloc: Global,
    missed: Option<Missed>,
    difference: Option<String>,
) -> Result<(), Fail> {
    let Some(Missed { story, step }) = missed else {
        return Ok(());
    };
    match difference {
        Some(text) => Err(format!(in alloc; "{story}: step {step}; {text}")?.into()),
        None => Err(format!(in alloc; "{story}: step {step}")?.into()),
    }
}

/// Plays the stories. Fails if a step does not hold.
pub(super) fn play(alloc: Global, stories: &[Story]) -> Result<(), Fail> {
    let (missed, difference) = played(alloc, stories)?;
    report(alloc, missed, difference)
}
