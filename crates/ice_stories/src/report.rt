//! Where a story and what happened differ: each difference is a line of the output.
use std::io;
use std::io::Write;

/// The output could not be written.
#[derive(Clone, Copy)]
pub struct Broken;

impl From<io::Error> for Broken {
    fn from(_e: io::Error) -> Broken {
        Broken
    }
}

/// Counts 0 if the texts are equal. Otherwise prints both, and counts 1.
pub fn compared<W: Write>(
    output: &mut W,
    line: usize,
    expected: &str,
    actual: &str,
) -> Result<usize, Broken> {
    if expected == actual {
        return Ok(0);
    }
    writeln!(
        output,
        "  line {line}: expected '{expected}', actual '{actual}'"
    )?;
    Ok(1)
}

/// Prints the result of a story with so many differences.
pub fn ends<W: Write>(output: &mut W, name: &str, differences: usize) -> Result<bool, Broken> {
    if differences == 0 {
        writeln!(output, "{name}: as expected")?;
    } else {
        writeln!(output, "{name}: {differences} differences")?;
    }
    Ok(differences == 0)
}
