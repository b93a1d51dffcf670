//! The error messages of invalid candidates, which a code does not contain.
ghost use Rattle.is_c.specs.Rejections.{PutsMessage, PutsRejection, ReturnsOfLine, ReturnsOfCandidate};

use crate::candidate::{line_candidate, local_candidate};
use crate::codes;
use crate::text::put;
use is_c_calls::LocalCandidate;
use is_candidate::Candidate;
use is_proto::IceError;
use std::alloc::Global;

fn put_message(error: &IceError, buffer: &mut [u8], length: &mut usize) -> i32
    ensures { PutsMessage error.now buffer.old length.old result buffer.new length.new }
{
    match error {
        IceError::BadCandidate(message) => put(message.as_bytes(), buffer, length),
        other => codes::code_of(other),
    }
}

pub(crate) fn put_rejection(
    outcome: &Result<Candidate, IceError>,
    buffer: &mut [u8],
    length: &mut usize,
) -> i32
    ensures { PutsRejection outcome.now buffer.old length.old result buffer.new length.new }
{
    match outcome {
        Ok(_) => codes::NOTHING,
        Err(error) => put_message(error, buffer, length),
    }
}

/// Writes why a candidate attribute is invalid: the attribute, a colon and its first fault. NOTHING: it can be parsed as a
/// candidate.
#[unsafe(no_mangle)]
pub extern "C" fn is_ice_line_refusal(
    alloc: Global,
    line: &[u8],
    buffer: &mut [u8],
    length: &mut usize,
) -> i32
    ensures { ReturnsOfLine line.now buffer.old length.old result buffer.new length.new }
{
    match line_candidate(alloc, line) {
        Some(outcome) => put_rejection(&outcome, buffer, length),
        None => codes::NOT_UTF8,
    }
}

/// Writes why a candidate is invalid. NOTHING: it can be added.
#[unsafe(no_mangle)]
pub extern "C" fn is_ice_candidate_refusal(
    alloc: Global,
    candidate: &LocalCandidate,
    buffer: &mut [u8],
    length: &mut usize,
) -> i32
    ensures { ReturnsOfCandidate candidate.now buffer.old length.old result buffer.new length.new }
{
    match local_candidate(alloc, candidate) {
        Some(outcome) => put_rejection(&outcome, buffer, length),
        None => codes::BAD_ADDRESS,
    }
}
