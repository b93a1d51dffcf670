//! The texts of a STUN message as C passes them in: one array of bytes, and where in it each text is.

ghost use Rattle.std.specs.Prelude.{◌≡◌, Some, None, MatchResult};
ghost use Rattle.std.specs.Option.{option_copied};
ghost use Rattle.is_c.specs.StunTexts.{piece_in, is_outside, data_fault, text_fault, FindsWords};

use crate::codes;

/// Where a text is in the bytes that are passed with it.
#[repr(C)]
#[derive(Clone, Copy)]
pub struct Span {
    pub start: usize,
    pub length: usize,
    /// Whether the message has the attribute. If not, the rest is ignored.
    pub is_set: bool,
}

/// The texts and the data of a message.
#[repr(C)]
#[derive(Clone, Copy)]
pub struct Texts {
    pub username: Span,
    /// The reason phrase of ERROR-CODE; empty if it is not set, and not written without a code.
    pub reason: Span,
    pub data: Span,
    pub realm: Span,
    pub nonce: Span,
    pub software: Span,
}

/// The texts of a message, found and valid.
#[derive(Clone, Copy)]
pub(crate) struct Words<'a> {
    pub(crate) username: Option<&'a str>,
    pub(crate) reason: Option<&'a str>,
    pub(crate) data: Option<&'a [u8]>,
    pub(crate) realm: Option<&'a str>,
    pub(crate) nonce: Option<&'a str>,
    pub(crate) software: Option<&'a str>,
}

fn is_outside(bytes: &[u8], span: &Span) -> bool
    ensures { result ≡ is_outside bytes.now span.now }
{
    span.is_set && (span.start > bytes.len() || span.length > bytes.len() - span.start)
}

fn data_in<'a>(bytes: &'a [u8], span: &Span) -> Result<Option<&'a [u8]>, i32>
    ensures { MatchResult result (λ d. (data_fault bytes.now span.now ≡ None) × (option_copied d ≡ piece_in bytes.now span.now))
        (λ why. data_fault bytes.now span.now ≡ Some why) }
{
    if is_outside(bytes, span) {
        return Err(codes::BAD_MESSAGE);
    }
    if !span.is_set {
        return Ok(None);
    }
    Ok(Some(&bytes[span.start..span.start + span.length]))
}

#[tactic(auto, using(crate::proofs::WriteLemmas::utf8_is_tested, crate::proofs::WriteLemmas::no_utf8_is_tested))]
fn text_in<'a>(bytes: &'a [u8], span: &Span) -> Result<Option<&'a str>, i32>
    ensures { MatchResult result (λ d. (text_fault bytes.now span.now ≡ None) × (option_copied d ≡ piece_in bytes.now span.now))
        (λ why. text_fault bytes.now span.now ≡ Some why) }
{
    let Some(piece) = data_in(bytes, span)? else {
        return Ok(None);
    };
    match std::str::from_utf8(piece) {
        Ok(text) => Ok(Some(text)),
        Err(_) => Err(codes::NOT_UTF8),
    }
}

/// Finds all texts, or returns the code of the first fault.
pub(crate) fn words_of<'a>(bytes: &'a [u8], texts: &Texts) -> Result<Words<'a>, i32>
    ensures { FindsWords bytes.now texts.now result }
{
    Ok(Words {
        username: text_in(bytes, &texts.username)?,
        reason: text_in(bytes, &texts.reason)?,
        data: data_in(bytes, &texts.data)?,
        realm: text_in(bytes, &texts.realm)?,
        nonce: text_in(bytes, &texts.nonce)?,
        software: text_in(bytes, &texts.software)?,
    })
}
