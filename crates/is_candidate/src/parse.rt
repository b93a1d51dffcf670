//! Parsing candidate attributes (RFC 5245, section 15.1).
ghost use Rattle.std.specs.Prelude.{◌≡◌, ◌≤◌, ◌++◌, codes, length, take, IfSome, List, MatchOption, ℕ};
ghost use Rattle.is_candidate.specs.Candidates.{CandidateRecord};
ghost use Rattle.is_candidate.specs.Lines.{Answer, ReadsText};
ghost use Rattle.is_candidate.specs.Faults.{fault_text, ReadsLine};
ghost use Rattle.is_candidate.specs.Rejections.{RejectsWith};

mod fault;
mod head;
mod keys;
mod line;
mod place;
mod words;

use crate::candidate::Candidate;
use fault::Fault;
use is_proto::IceError;
use line::{candidate_of, read_words};
use std::alloc::Global;
use words::{MANY_WORDS, place_words, words_of};

/// Parses a candidate attribute: `candidate:`, then words at white space: foundation, component, protocol, priority,
/// address, port, `typ` and kind, then keys with values. If `raddr`, `rport`, `tcptype` or `ufrag` is repeated, the
/// last one counts; other keys are skipped with their values. There is a related address if both `raddr` and `rport`
/// are present.
///
/// Fails with `BadCandidate`: the whole text, a colon, and the first fault.
pub fn parse_candidate(alloc: Global, text: &str) -> Result<Candidate, IceError>
    ensures { ReadsLine text.now result }
{
    let Some(rest) = text.strip_prefix("candidate:") else {
        return Err(rejection(alloc, text, Fault::MissingPrefix));
    };
    let mut room = [""; MANY_WORDS];
    let count = place_words(rest, &mut room);
    let more = match count {
        Some(_) => Vec::new(alloc),
        None => words_of(alloc, rest)?,
    };
    match read_words(placed_or_all(&room, count, &more)) {
        Ok(line) => Ok(candidate_of(alloc, &line)?),
        Err(fault) => Err(rejection(alloc, text, fault)),
    }
}

/// Returns the words that were stored in the array, or all of them if there are more.
#[inline(always)]
fn placed_or_all<'r, 'a>(
    room: &'r [&'a str; MANY_WORDS],
    count: Option<usize>,
    all: &'r Vec<&'a str>,
) -> &'r [&'a str]
    requires { IfSome count (λ n. n ≤ length room.now) }
    ensures { MatchOption count (result.now ≡ all.now.items) (λ n. result.now ≡ take n room.now) }
{
    match count {
        Some(count) => &room[..count],
        None => all.as_slice(),
    }
}

/// Returns the error for a text, or `OutOfMemory` if there is no memory for its message.
#[cold]
fn rejection(alloc: Global, text: &str, fault: Fault<'_>) -> IceError
    ensures { RejectsWith (text.now ++ codes ": " ++ fault_text fault.entry) result }
{
    match format!(in alloc; "{text}: {fault}") {
        Ok(message) => IceError::BadCandidate(message),
        Err(_) => IceError::OutOfMemory,
    }
}

impl Candidate {
    /// Parses a candidate attribute, as `parse::parse_candidate` does.
    pub fn from_sdp_string(alloc: Global, text: &str) -> Result<Candidate, IceError>
        ensures { ReadsLine text.now result }
    {
        parse_candidate(alloc, text)
    }
}

/// A text either describes one candidate or has one first fault, and never both: so `parse_candidate` returns Ok
/// exactly if the text is a line of a candidate, except for an allocation failure.
pub fn texts_have_one_reading()
    ensures { (text : List ℕ) (r s : Answer CandidateRecord) → ReadsText text r → ReadsText text s → r ≡ s }
{}
