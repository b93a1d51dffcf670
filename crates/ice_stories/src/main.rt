//! Plays the stories of the files that its arguments name, and prints of each whether what happened is what the story expects.
//! docs/TESTING.md describes the files.
#![tactic(auto)]

mod blocks;
mod messages;
mod names;
mod report;
mod rows;
mod solo;
mod story;
mod texts;
mod transcript;
mod two;
mod words;

use report::Broken;
use std::alloc::Global;
use std::io::{BufWriter, Write};
use std::process::ExitCode;
use std::{env, fs, io};

/// Plays a block, if it is one that can be played. False if it is not as expected.
fn play_block<W: Write>(
    alloc: Global,
    file: &str,
    block: &str,
    output: &mut W,
) -> Result<bool, Broken> {
    if let Some(name) = blocks::after(block, "story") {
        story::play(alloc, file, block, name, output)
    } else if let Some(name) = blocks::after(block, "script") {
        transcript::play(alloc, block, name, output)
    } else {
        Ok(!has_words(block))
    }
}

/// A block of comments and definitions has nothing to be played.
fn has_words(block: &str) -> bool {
    for line in block.lines() {
        if blocks::is_played(line) {
            return true;
        }
    }
    false
}

/// Plays the blocks of a file. False if one of them is not as expected.
fn play_file<W: Write>(
    alloc: Global,
    name: &str,
    file: &str,
    output: &mut W,
) -> Result<bool, Broken> {
    let mut all = true;
    writeln!(output, "{name}")?;
    for block in file.split("\n\n") {
        if !play_block(alloc, file, block, output)? {
            all = false;
        }
    }
    Ok(all)
}

fn play_all(rt: &HostRuntime) -> io::Result<bool> {
    let mut all = true;
    let mut output = BufWriter::new(rt.alloc(), io::writer(rt))?;
    for name in env::args(rt)?.skip(1) {
        let file = fs::read_to_string(rt, name.as_str())?;
        match play_file(rt.alloc(), name.as_str(), file.as_str(), &mut output) {
            Ok(as_expected) => all = all && as_expected,
            Err(Broken) => return Err(io::Error::from(io::ErrorKind::BrokenPipe)),
        }
    }
    output.flush()?;
    Ok(all)
}

fn main(rt: HostRuntime) -> ExitCode {
    match play_all(&rt) {
        Ok(true) => ExitCode::from(0),
        Ok(false) => ExitCode::from(1),
        Err(_) => ExitCode::from(2),
    }
}
