//! Candidates as the JSON in which browsers signal them: the W3C's RTCIceCandidateInit.
ghost use Rattle.std.specs.Prelude.{◌≡◌, count_by};
ghost use Rattle.is_candidate.specs.Infos.{ReadsInfoText};
ghost use Rattle.is_c.specs.Infos.{is_bracket, ReadsFlat, ReadsInfoBytes, PutsInfo, ReturnsInfo, ReturnsLineOf, ReturnsOfInfo};
ghost use Rattle.is_c.specs.Infos.{ReturnsFieldsOf};

use crate::candidate::line_candidate;
use crate::codes;
use crate::fields::{Fields, put_made_fields};
use crate::lines::{put_made, rejection, with_word};
use crate::rejections::put_rejection;
use crate::text::put;
use is_candidate::{Candidate, JsonScratch};
use is_proto::IceError;
use std::alloc::{AllocError, Global};

fn put_info(alloc: Global, candidate: &Candidate, buffer: &mut [u8], length: &mut usize) -> i32
    ensures { PutsInfo candidate.now buffer.old length.old result buffer.new length.new }
{
    match candidate.to_json_string(alloc) {
        Ok(text) => put(text.as_bytes(), buffer, length),
        Err(_) => codes::OUT_OF_MEMORY,
    }
}

/// Writes the JSON of the candidate of a candidate attribute.
#[unsafe(no_mangle)]
pub extern "C" fn is_ice_line_to_json(
    alloc: Global,
    line: &[u8],
    buffer: &mut [u8],
    length: &mut usize,
) -> i32
    ensures { ReturnsInfo line.now buffer.old length.old result buffer.new length.new }
{
    match line_candidate(alloc, line) {
        Some(Ok(candidate)) => put_info(alloc, &candidate, buffer, length),
        Some(Err(error)) => codes::code_of(&error),
        None => codes::NOT_UTF8,
    }
}

// ---- reading takes little stack: a bounded depth, and working memory on the heap

/// The most opening brackets of a JSON text, also within its strings. So its values nest no deeper. A browser's text has one.
const MOST_BRACKETS: usize = 8;

fn is_bracket(byte: u8) -> bool
    ensures { result ≡ is_bracket byte }
{
    byte == b'[' || byte == b'{'
}

fn bracket_count(json: &[u8]) -> usize
    ensures { result ≡ count_by is_bracket json.now }
{
    json.iter().filter(|byte| is_bracket(**byte)).count()
}

/// Working memory on the heap. It is not inlined: while it is made it takes 16 KiB of stack.
#[inline(never)]
fn boxed_scratch(alloc: Global) -> Result<Box<JsonScratch>, AllocError> {
    match Box::new(alloc, JsonScratch::new(alloc)) {
        Ok(scratch) => Ok(scratch),
        Err(_) => Err(AllocError),
    }
}

#[tactic(auto, using(crate::proofs::InfoLemmas::no_memory))]
fn text_candidate(alloc: Global, text: &str) -> Result<Candidate, IceError>
    ensures { ReadsInfoText text.now result }
{
    match boxed_scratch(alloc) {
        Ok(mut scratch) => Candidate::from_json_str(alloc, text, &mut scratch),
        Err(_) => Err(IceError::OutOfMemory),
    }
}

/// The candidate of a JSON text, if the text has few brackets, and its username fragment, if it has one, is one word.
fn flat_candidate(alloc: Global, text: &str) -> Result<Candidate, IceError>
    ensures { ReadsFlat text.now result }
{
    if bracket_count(text.as_bytes()) > MOST_BRACKETS {
        return Err(rejection(alloc, "candidate info has more than 8 opening brackets"));
    }
    with_word(alloc, text_candidate(alloc, text))
}

/// The candidate of a JSON text in bytes, read as `flat_candidate` does. None: they are not UTF-8.
fn info_candidate(alloc: Global, json: &[u8]) -> Option<Result<Candidate, IceError>>
    ensures { ReadsInfoBytes json.now result }
{
    match std::str::from_utf8(json) {
        Ok(text) => Some(flat_candidate(alloc, text)),
        Err(_) => None,
    }
}

/// Writes the candidate attribute of the candidate of a JSON text.
#[unsafe(no_mangle)]
pub extern "C" fn is_ice_line_from_json(
    alloc: Global,
    json: &[u8],
    buffer: &mut [u8],
    length: &mut usize,
) -> i32
    ensures { ReturnsLineOf json.now buffer.old length.old result buffer.new length.new }
{
    let made = info_candidate(alloc, json);
    put_made(alloc, &made, codes::NOT_UTF8, buffer, length)
}

/// Writes the candidate attribute of the candidate of a JSON text, with its fields.
#[unsafe(no_mangle)]
pub extern "C" fn is_ice_json_fields(
    alloc: Global,
    json: &[u8],
    buffer: &mut [u8],
    length: &mut usize,
    fields: &mut Fields,
) -> i32
    ensures { ReturnsFieldsOf json.now buffer.old length.old fields.old result buffer.new length.new fields.new }
{
    let made = info_candidate(alloc, json);
    put_made_fields(alloc, &made, codes::NOT_UTF8, buffer, length, fields)
}

/// Writes why a JSON text is no candidate. NOTHING: it is one.
#[unsafe(no_mangle)]
pub extern "C" fn is_ice_json_refusal(
    alloc: Global,
    json: &[u8],
    buffer: &mut [u8],
    length: &mut usize,
) -> i32
    ensures { ReturnsOfInfo json.now buffer.old length.old result buffer.new length.new }
{
    match info_candidate(alloc, json) {
        Some(outcome) => put_rejection(&outcome, buffer, length),
        None => codes::NOT_UTF8,
    }
}
