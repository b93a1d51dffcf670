//! Candidates that no agent has: their text, their username fragment and their default local preference.
ghost use Rattle.std.specs.Prelude.{◌≡◌, ◌↔◌, ℕ, List, Option, IsTrue};
ghost use Rattle.is_candidate.specs.Candidates.{CandidateRecord};
ghost use Rattle.is_candidate.specs.Infos.{with_ufrag};
ghost use Rattle.is_candidate.specs.Lines.{IsLineOf};
ghost use Rattle.is_candidate.specs.Rejections.{RejectsWith};
ghost use Rattle.is_candidate.specs.RoundTrips.{LineRoundTrips};
ghost use Rattle.is_candidate.specs.Words.{IsWord};
ghost use Rattle.is_c.specs.Lines.{HasWordUfrag, KeepsWord, NamesAs, NamesBytes, PutsMade, ReturnsGiven, ReturnsNamed, PutsPreference, PrefersGiven};
ghost use Rattle.is_c.specs.Lines.{PrefersRead, ReturnsNamedFields};

use crate::candidate::{line_candidate, local_candidate};
use crate::codes;
use crate::fields::{Fields, put_made_fields};
use crate::questions::put_line;
use is_c_calls::LocalCandidate;
use is_candidate::candidate::round_trip::printed_line_round_trips;
use is_candidate::{Candidate, default_local_preference};
use is_proto::IceError;
use std::alloc::Global;

/// Writes the candidate attribute of the candidate, or returns the code of why there is none.
pub(crate) fn put_made(
    alloc: Global,
    made: &Option<Result<Candidate, IceError>>,
    why: i32,
    buffer: &mut [u8],
    length: &mut usize,
) -> i32
    ensures { PutsMade why made.now buffer.old length.old result buffer.new length.new }
{
    match made {
        Some(Ok(candidate)) => put_line(alloc, Some(candidate), buffer, length),
        Some(Err(error)) => codes::code_of(error),
        None => why,
    }
}

/// Writes the candidate attribute that a gathered candidate has before an agent adds it: with the priority of the default local
/// preference of the first candidate, and without a username fragment.
#[unsafe(no_mangle)]
pub extern "C" fn is_ice_candidate_line(
    alloc: Global,
    candidate: &LocalCandidate,
    buffer: &mut [u8],
    length: &mut usize,
) -> i32
    ensures { ReturnsGiven candidate.now buffer.old length.old result buffer.new length.new }
{
    let made = local_candidate(alloc, candidate);
    put_made(alloc, &made, codes::BAD_ADDRESS, buffer, length)
}

// ---- a username fragment is one word, so that the attribute round-trips

/// Whether the text has a character, and no white space.
pub(crate) fn is_word(text: &str) -> bool
    ensures { IsTrue result ↔ IsWord text.now }
{
    !text.is_empty() && !text.contains(char::is_whitespace)
}

/// The error with this message, or `OutOfMemory` if there is no memory for it.
pub(crate) fn rejection(alloc: Global, message: &str) -> IceError
    ensures { RejectsWith message.now result }
{
    match String::from_str(alloc, message) {
        Ok(message) => IceError::BadCandidate(message),
        Err(_) => IceError::OutOfMemory,
    }
}

/// The candidate, if its username fragment is one word or it has none.
pub(crate) fn with_word(
    alloc: Global,
    read: Result<Candidate, IceError>,
) -> Result<Candidate, IceError>
    ensures { KeepsWord read result }
{
    let candidate = read?;
    match candidate.ufrag() {
        Some(ufrag) if !is_word(ufrag) => {
            Err(rejection(alloc, "username fragment is not one word"))
        }
        _ => Ok(candidate),
    }
}

/// What is written of the candidate of a candidate attribute round-trips, if its username fragment, or the one in its place, is
/// one word.
pub fn kept_line_round_trips(candidate: &Candidate)
    ensures { (text : List ℕ) (read : CandidateRecord) (ufrag : Option (List ℕ)) → IsLineOf text read
        → candidate.now ≡ with_ufrag ufrag read → HasWordUfrag candidate.now → LineRoundTrips candidate.now }
{
    printed_line_round_trips(candidate);
}

fn name(alloc: Global, mut candidate: Candidate, ufrag: &str) -> Result<Candidate, IceError>
    ensures { NamesAs ufrag.now candidate result }
{
    candidate.set_ufrag(alloc, ufrag)?;
    Ok(candidate)
}

/// The candidate of a candidate attribute with this username fragment, if both are UTF-8 and the fragment is one word.
fn named(alloc: Global, line: &[u8], ufrag: &[u8]) -> Option<Result<Candidate, IceError>>
    ensures { NamesBytes line.now ufrag.now result }
{
    let Ok(ufrag) = std::str::from_utf8(ufrag) else {
        return None;
    };
    match line_candidate(alloc, line)? {
        Ok(candidate) => Some(with_word(alloc, name(alloc, candidate, ufrag))),
        Err(error) => Some(Err(error)),
    }
}

/// Writes the candidate attribute again, with this username fragment in place of its own.
#[unsafe(no_mangle)]
pub extern "C" fn is_ice_line_with_ufrag(
    alloc: Global,
    line: &[u8],
    ufrag: &[u8],
    buffer: &mut [u8],
    length: &mut usize,
) -> i32
    ensures { ReturnsNamed line.now ufrag.now buffer.old length.old result buffer.new length.new }
{
    let made = named(alloc, line, ufrag);
    put_made(alloc, &made, codes::NOT_UTF8, buffer, length)
}

/// Writes the candidate attribute again, with this username fragment in place of its own, and its fields.
#[unsafe(no_mangle)]
pub extern "C" fn is_ice_line_with_ufrag_fields(
    alloc: Global,
    line: &[u8],
    ufrag: &[u8],
    buffer: &mut [u8],
    length: &mut usize,
    fields: &mut Fields,
) -> i32
    ensures { ReturnsNamedFields line.now ufrag.now buffer.old length.old fields.old result buffer.new length.new fields.new }
{
    let made = named(alloc, line, ufrag);
    put_made_fields(alloc, &made, codes::NOT_UTF8, buffer, length, fields)
}

fn put_preference(
    made: &Option<Result<Candidate, IceError>>,
    why: i32,
    same_kind: usize,
    preference: &mut u32,
) -> i32
    ensures { PutsPreference why made.now same_kind preference.old result preference.new }
{
    match made {
        Some(Ok(candidate)) => {
            *preference = default_local_preference(candidate, same_kind);
            codes::OK
        }
        Some(Err(error)) => codes::code_of(error),
        None => why,
    }
}

/// Writes the default local preference of a gathered candidate that comes after `same_kind` others of its kind and IP version.
#[unsafe(no_mangle)]
pub extern "C" fn is_ice_candidate_preference(
    alloc: Global,
    candidate: &LocalCandidate,
    same_kind: usize,
    preference: &mut u32,
) -> i32
    ensures { PrefersGiven candidate.now same_kind preference.old result preference.new }
{
    let made = local_candidate(alloc, candidate);
    put_preference(&made, codes::BAD_ADDRESS, same_kind, preference)
}

/// Writes the default local preference of the candidate of a candidate attribute, after `same_kind` others of its kind and IP version.
#[unsafe(no_mangle)]
pub extern "C" fn is_ice_line_preference(
    alloc: Global,
    line: &[u8],
    same_kind: usize,
    preference: &mut u32,
) -> i32
    ensures { PrefersRead line.now same_kind preference.old result preference.new }
{
    let made = line_candidate(alloc, line);
    put_preference(&made, codes::NOT_UTF8, same_kind, preference)
}
