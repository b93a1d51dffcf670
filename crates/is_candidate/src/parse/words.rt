//! The words of a line, and the numbers that they encode.
ghost use Rattle.std.specs.Prelude.{◌≡◌, ◌^◌, ◌≤◌, ◌⊎◌, ◌++◌, ℕ, codes, length, take, All, IfOk, IfSome, MatchOption};
ghost use Rattle.std.specs.Str.{IsUtf8};
ghost use Rattle.is_candidate.specs.Lines.{IsNumberBelow};
ghost use Rattle.is_candidate.specs.Scanned.{texts};
ghost use Rattle.is_candidate.specs.Words.{BeginsWithWord, HasWords, IsVisible};

use std::alloc::{AllocError, Global};

/// The capacity for the words of a browser's line.
pub(crate) const MANY_WORDS: usize = 20;

/// Stores the words of the text in the array and returns how many there are. Returns `None` if the array is too short,
/// or if the text is not visible ASCII characters with one space between words: then `words_of` reads it.
pub(crate) fn place_words<'a>(text: &'a str, room: &mut [&'a str; MANY_WORDS]) -> Option<usize>
    ensures { IfSome result (λ count. (count ≤ length room.new) × HasWords text.now (texts (take count room.new))) }
{
    let mut rest = text;
    let mut count = 0;
    while !rest.is_empty() {
        if count == MANY_WORDS {
            return None;
        }
        let (word, after) = first_word(rest)?;
        room[count] = word;
        count += 1;
        rest = after;
    }
    Some(count)
}

/// Returns the first word and what follows it, if the word is of visible ASCII characters, with at most one space
/// before it, and a space or nothing after it.
#[inline(always)]
fn first_word(text: &str) -> Option<(&str, &str)>
    ensures { IfSome result (λ parts. BeginsWithWord text.now parts.0.now parts.1.now × IsUtf8 parts.1.now) }
{
    let text = without_space(text);
    let bytes = text.as_bytes();
    let end = visible_run(bytes);
    if end == 0 || end < bytes.len() && bytes[end] != b' ' {
        return None;
    }
    Some(text.split_at(end))
}

/// Returns the text without the space that it may begin with.
#[inline(always)]
fn without_space(text: &str) -> &str
    ensures { (text.now ≡ result.now) ⊎ (text.now ≡ codes " " ++ result.now) }
{
    match text.strip_prefix(" ") {
        Some(rest) => rest,
        None => text,
    }
}

/// Returns how many bytes at the start are visible ASCII characters, so that a word can be cut without decoding it.
#[inline(always)]
fn visible_run(bytes: &[u8]) -> usize
    ensures bound { result ≤ length bytes.now }
    ensures seen { All IsVisible (take result bytes.now) }
{
    let mut count = 0;
    while count < bytes.len() && b'!' <= bytes[count] && bytes[count] <= b'~' {
        count += 1;
    }
    count
}

/// Returns the words of the text, split at white space (Unicode's White_Space).
pub(crate) fn words_of(alloc: Global, text: &str) -> Result<Vec<&str>, AllocError>
    ensures { IfOk result (λ v. HasWords text.now (texts v.items)) }
{
    let mut words = Vec::with_capacity(alloc, 2 * MANY_WORDS)?;
    for word in text.split_whitespace() {
        words.push(word)?;
    }
    Ok(words)
}

/// Returns the number that the word encodes, if it is below 2^16.
pub(crate) fn small_number(word: &str) -> Option<u16>
    ensures { MatchOption result ((n : ℕ) → ¬ IsNumberBelow (2 ^ 16) word.now n) (IsNumberBelow (2 ^ 16) word.now) }
{
    match word.parse::<u16>() {
        Ok(number) => Some(number),
        Err(_) => None,
    }
}

/// Returns the number that the word encodes, if it is below 2^32.
pub(crate) fn number(word: &str) -> Option<u32>
    ensures { MatchOption result ((n : ℕ) → ¬ IsNumberBelow (2 ^ 32) word.now n) (IsNumberBelow (2 ^ 32) word.now) }
{
    match word.parse::<u32>() {
        Ok(number) => Some(number),
        Err(_) => None,
    }
}
