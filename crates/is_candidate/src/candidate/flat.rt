//! Candidate JSON whose members hold no others, read from its text in one pass.
ghost use Rattle.std.specs.Prelude.{◌≡◌, ◌<◌, ℕ, length, false, Some, Ok, OnOk, IfOk, IfSome, IsTrue};
ghost use Rattle.std.specs.Option.{option_copied};
ghost use Rattle.serde_json.specs.Data.{Data, string, unsigned};
ghost use Rattle.serde_json.specs.Read.{max_depth, number_of, read};
ghost use Rattle.serde_json.specs.Written.{has_float};
ghost use Rattle.is_candidate.specs.Infos.{given_ufrag};
ghost use Rattle.is_candidate.specs.Flat.{BeginsWith, IsPlain, HasLineAndUfrag};

use fast_float::Numeral;
use json::{Invalid, Reader, Scratch, Token};
use std::alloc::AllocError;

/// The content of candidate JSON.
#[derive(Clone, Copy, Debug, Drop)]
pub(crate) struct FlatInfo<'a> {
    pub(crate) line: &'a str,
    pub(crate) ufrag: Option<&'a str>,
}

/// A value that is no array, no object and no fraction.
#[derive(Clone, Copy, Debug, Drop)]
pub(crate) enum Plain<'a> {
    Text(&'a str),
    Null,
    Other,
}

/// Reads a text that is an object of plain values with a line, and with a ufrag that is absent, null or a string.
/// Returns `None` for other texts.
pub(crate) fn read_flat<'a>(
    text: &'a str,
    scratch: &'a mut Scratch,
) -> Result<Option<FlatInfo<'a>>, AllocError>
    ensures { IfOk result (λ flat. IfSome flat (λ info. (d : Data) × (read text.now ≡ Some d) × HasLineAndUfrag d info)) }
{
    let mut reader = Reader::new(text, scratch)?;
    match read_object(&mut reader) {
        Ok(info) if reader.next().is_none() => Ok(Some(info)),
        _ => Ok(None),
    }
}

/// Reads the next object.
fn read_object<'a>(reader: &mut Reader<'a>) -> Result<FlatInfo<'a>, Invalid>
    ensures { IfOk result (λ info. (d : Data) × BeginsWith max_depth reader.old d reader.new × HasLineAndUfrag d info) }
{
    let Some(Token::BeginObject) = reader.next() else {
        return Err(Invalid);
    };
    let mut line = None;
    let mut ufrag = None;
    'members: while let Some(key) = reader.next_key()? {
        let member = read_plain(reader)?;
        if key == "candidate" {
            line = Some(text_of(member)?);
        } else if key == "usernameFragment" {
            ufrag = text_or_null(member)?;
        }
    }
    Ok(FlatInfo {
        line: line.ok_or(Invalid)?,
        ufrag,
    })
}

/// Reads the next plain value.
fn read_plain<'a>(reader: &mut Reader<'a>) -> Result<Plain<'a>, Invalid>
    ensures plain { IfOk result (λ plain. (d : Data) × IsPlain d plain × (has_float d ≡ false)
        × ((depth : ℕ) → BeginsWith depth reader.old d reader.new)) }
    ensures shorter { OnOk result (length reader.new < length reader.old) }
{
    match reader.next().ok_or(Invalid)? {
        Token::String(text) => Ok(Plain::Text(text)),
        Token::Null => Ok(Plain::Null),
        Token::Bool(_) => Ok(Plain::Other),
        Token::Number(text) => {
            if !is_unsigned(text) {
                return Err(Invalid);
            }
            Ok(Plain::Other)
        }
        _ => Err(Invalid),
    }
}

/// Returns the value if it is a string.
fn text_of(plain: Plain<'_>) -> Result<&str, Invalid>
    ensures { IfOk result (λ text. (d : Data) → IsPlain d plain.entry → d ≡ string text.now) }
{
    match plain {
        Plain::Text(text) => Ok(text),
        Plain::Null | Plain::Other => Err(Invalid),
    }
}

/// Returns the value if it is a string, or `None` if it is null.
fn text_or_null(plain: Plain<'_>) -> Result<Option<&str>, Invalid>
    ensures { IfOk result (λ text. (d : Data) → IsPlain d plain.entry → given_ufrag (Some d) ≡ Ok (option_copied text)) }
{
    match plain {
        Plain::Text(text) => Ok(Some(text)),
        Plain::Null => Ok(None),
        Plain::Other => Err(Invalid),
    }
}

/// Whether the number is a whole number of 64 bits, written without a sign.
fn is_unsigned(number: &str) -> bool
    ensures { IsTrue result → (n : ℕ) × (number_of number.now ≡ Some (unsigned n)) }
{
    let bytes = number.as_bytes();
    if bytes.is_empty() || bytes[0] == b'-' {
        return false;
    }
    Numeral::scan(bytes).to_u64().is_some()
}
