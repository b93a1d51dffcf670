//! A block `story NAME`: the events of one agent or of two, and what their log has to report.
use crate::blocks::{after, is_played, line_of};
use crate::report::{Broken, compared, ends};
use crate::rows::{Played, Row};
use crate::{solo, two};
use std::alloc::Global;
use std::io::Write;

/// How much of a story is compared.
#[derive(Clone, Copy)]
struct Progress {
    /// The number of the line in its block.
    line: usize,
    rows: usize,
    results: usize,
    differences: usize,
}

/// The row of each word but the last of a line has no effect that is compared.
fn compare_row<W: Write>(
    output: &mut W,
    row: &Row,
    line: usize,
    answer: Option<&str>,
    effect: &str,
) -> Result<usize, Broken> {
    let differences = compared(output, line, effect, row.effect.as_str())?;
    match answer {
        Some(answer) => {
            let more = compared(output, line, answer, row.answer.as_str())?;
            Ok(differences.saturating_add(more))
        }
        None => Ok(differences),
    }
}

/// Compares the rows of a line's words.
fn compare_words<W: Write>(
    output: &mut W,
    text: &str,
    rows: &[Row],
    mut progress: Progress,
) -> Result<Progress, Broken> {
    let line = line_of(text);
    let last = line.words.split_whitespace().count().saturating_sub(1);
    for (place, _) in line.words.split_whitespace().enumerate() {
        let (answer, effect) = if place == last {
            (line.answer, line.text)
        } else {
            (None, "")
        };
        let differences = match rows.get(progress.rows) {
            Some(row) => compare_row(output, row, progress.line, answer, effect)?,
            None => compared(output, progress.line, "an entry", "none")?,
        };
        progress.differences = progress.differences.saturating_add(differences);
        progress.rows = progress.rows.saturating_add(1);
    }
    Ok(progress)
}

/// Compares the result of a query.
fn compare_result<W: Write>(
    output: &mut W,
    query: &str,
    results: &[String],
    mut progress: Progress,
) -> Result<Progress, Broken> {
    let expected = line_of(query).answer.unwrap_or("");
    let actual = match results.get(progress.results) {
        Some(result) => result.as_str(),
        None => "none",
    };
    let differences = compared(output, progress.line, expected, actual)?;
    progress.differences = progress.differences.saturating_add(differences);
    progress.results = progress.results.saturating_add(1);
    Ok(progress)
}

/// How many differences the story and its log have.
fn compare<W: Write>(output: &mut W, block: &str, played: &Played) -> Result<usize, Broken> {
    let mut progress = Progress {
        line: 0,
        rows: 0,
        results: 0,
        differences: 0,
    };
    for line in block.lines() {
        progress.line = progress.line.saturating_add(1);
        if let Some(query) = line.strip_prefix("? ") {
            progress = compare_result(output, query, &played.results, progress)?;
        } else if is_played(line) {
            progress = compare_words(output, line, &played.rows, progress)?;
        }
    }
    let more = usize::from(progress.rows != played.rows.len());
    Ok(progress.differences.saturating_add(more))
}

/// Plays the story and prints whether its log is as expected.
pub fn play<W: Write>(
    alloc: Global,
    file: &str,
    block: &str,
    name: &str,
    output: &mut W,
) -> Result<bool, Broken> {
    let played = if after(block, "world").is_some() {
        two::play(alloc, file, block)
    } else {
        solo::play(alloc, file, block)
    };
    let differences = match played {
        Some(played) => compare(output, block, &played)?,
        None => compared(output, 0, "a story", "what can't be played")?,
    };
    ends(output, name, differences)
}
