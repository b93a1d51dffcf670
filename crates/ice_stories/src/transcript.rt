//! A block `script NAME`: lines of a script after `> `, what it prints after each, and how it ends.
use crate::report::{Broken, compared, ends};
use std::alloc::{AllocError, Global};
use std::io::Write;

/// A script, and what it is expected to write.
#[derive(Drop)]
struct Transcript {
    script: String,
    output: String,
    /// What it writes to standard error, after `! `.
    errors: String,
}

fn add_line(text: &mut String, line: &str) -> Result<(), AllocError> {
    text.push_str(line)?;
    text.push_str("\n")
}

impl Transcript {
    fn of(alloc: Global, block: &str) -> Result<Transcript, AllocError> {
        let mut read = Transcript {
            script: String::new(alloc),
            output: String::new(alloc),
            errors: String::new(alloc),
        };
        for line in block.lines() {
            read.add(line)?;
        }
        Ok(read)
    }

    fn add(&mut self, line: &str) -> Result<(), AllocError> {
        if let Some(rest) = line.strip_prefix("> ") {
            add_line(&mut self.script, rest)
        } else if let Some(rest) = line.strip_prefix("! ") {
            add_line(&mut self.errors, rest)
        } else if line.starts_with("# ") || line.starts_with("script ") {
            Ok(())
        } else {
            add_line(&mut self.output, line)
        }
    }
}

/// What a script wrote.
#[derive(Drop)]
struct Written {
    status: u8,
    output: Vec<u8>,
    errors: Vec<u8>,
}

fn play_script(alloc: Global, script: &str) -> Written {
    let (mut output, mut errors) = (Vec::new(alloc), Vec::new(alloc));
    let mut input = script.as_bytes();
    let status = ice_script::play(alloc, &mut input, &mut output, &mut errors);
    Written {
        status,
        output,
        errors,
    }
}

/// Compares the lines of two texts.
fn compare<W: Write>(output: &mut W, expected: &str, actual: &[u8]) -> Result<usize, Broken> {
    let Ok(actual) = std::str::from_utf8(actual) else {
        return compared(output, 0, "UTF-8", "none");
    };
    let (mut line, mut differences) = (0usize, 0usize);
    let mut others = actual.split('\n');
    for needed in expected.split('\n') {
        line = line.saturating_add(1);
        let found = others.next().unwrap_or("");
        differences = differences.saturating_add(compared(output, line, needed, found)?);
    }
    let more = usize::from(expected.len() != actual.len());
    Ok(differences.saturating_add(more))
}

/// How many differences there are. The status is 1 if a line can't be played.
fn play_transcript<W: Write>(
    alloc: Global,
    needed: &Transcript,
    output: &mut W,
) -> Result<usize, Broken> {
    let written = play_script(alloc, needed.script.as_str());
    let status = if needed.errors.is_empty() { 0 } else { 1 };
    let differences = usize::from(written.status != status);
    let printed = compare(output, needed.output.as_str(), &written.output)?;
    let failed = compare(output, needed.errors.as_str(), &written.errors)?;
    Ok(differences.saturating_add(printed).saturating_add(failed))
}

/// Plays the script and prints whether it writes what is expected.
pub fn play<W: Write>(
    alloc: Global,
    block: &str,
    name: &str,
    output: &mut W,
) -> Result<bool, Broken> {
    match Transcript::of(alloc, block) {
        Ok(needed) => {
            let differences = play_transcript(alloc, &needed, output)?;
            ends(output, name, differences)
        }
        Err(_) => Err(Broken),
    }
}
