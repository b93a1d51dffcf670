//! The foundation and the username fragment of a candidate.
ghost use Rattle.std.specs.Prelude.{◌≡◌, ◌+◌, ◌++◌, ◌≤◌, None, Some, length, take, drop, nat_eq, string_bytes, IfOk, IsOk};
ghost use Rattle.std.specs.Option.{option_copied, option_eq, option_map};
ghost use Rattle.std.specs.Str.{IsUtf8};
ghost use Rattle.std.specs.Hash as fed;
ghost use Rattle.std.specs.Ordering.{on, eq_of_both};
ghost use Rattle.std.specs.Cmp.{partial_equiv_from_equiv};
ghost use Rattle.std.specs.Cmp.Lexicographic.{pointwise};
ghost use Rattle.std.specs.Cmp.Rules.{comparing, hashing};
ghost use Rattle.std.proofs.Common.{rules};
ghost use Rattle.is_candidate.specs.Texts.{ROOM, LONGEST, text_or_empty, length_or_zero, text_in};

use std::alloc::{AllocError, Global};
use std::hash::{Hash, Hasher};
use std::marker::Model;

/// How many bytes two texts in place have together at most.
const ROOM: usize = 27;

/// The greatest length in bytes that fits a byte.
const LONGEST: usize = 255;

/// How the texts are stored.
#[derive(Clone, Debug, Drop)]
enum Stored {
    /// In place: the lengths of the texts, each if there is one, and the texts, one after the other, with any bytes
    /// after them.
    Short {
        foundation: Option<u8>,
        ufrag: Option<u8>,
        bytes: [u8; ROOM],
    },
    /// The lengths of the texts, each if there is one, and a block that begins with the texts.
    Joined {
        foundation: Option<u8>,
        ufrag: Option<u8>,
        text: String,
    },
    /// Each in a block of its own, if one of them is longer than `LONGEST`.
    Long(Box<LongTexts>),
}

/// Texts of which one is longer than `LONGEST`.
#[derive(Clone, Debug, Drop)]
struct LongTexts {
    foundation: Option<String>,
    ufrag: Option<String>,
}

/// The foundation and the username fragment, each if there is one.
#[derive(Clone, Debug)]
pub(super) struct Texts {
    stored: Stored,
}

impl Model for Texts {
    ghost use Rattle.is_candidate.specs.Texts.{OptionalTexts, texts_of, AreTexts};

    ghost Value = { OptionalTexts };

    ghost view = { λ t. texts_of t.stored };

    ghost invariant = { λ t. AreTexts t.stored };
}

impl Texts {
    /// Makes no texts.
    pub(super) fn none() -> Texts
        ensures { result ≡ record { foundation = None; ufrag = None } }
    {
        Texts::short(None, None)
    }

    /// Copies the texts. Fails if an allocation fails.
    #[inline(never)]
    pub(super) fn copy_of(
        alloc: Global,
        foundation: Option<&str>,
        ufrag: Option<&str>,
    ) -> Result<Texts, AllocError>
        ensures texts { IfOk result (λ t. t ≡ record { foundation = option_copied foundation.entry; ufrag = option_copied ufrag.entry }) }
        ensures in_place { length (text_or_empty (option_copied foundation.entry)) + length (text_or_empty (option_copied ufrag.entry)) ≤ ROOM → IsOk result }
    {
        let (first, second) = (text_or_empty(foundation), text_or_empty(ufrag));
        if first.len() + second.len() <= ROOM {
            return Ok(Texts::short(foundation, ufrag));
        }
        if first.len() <= LONGEST && second.len() <= LONGEST {
            return Texts::joined(alloc, foundation, ufrag);
        }
        Texts::long(alloc, foundation, ufrag)
    }

    #[inline(never)]
    fn short(foundation: Option<&str>, ufrag: Option<&str>) -> Texts
        requires { length (text_or_empty (option_copied foundation)) + length (text_or_empty (option_copied ufrag)) ≤ ROOM }
        ensures { result ≡ record { foundation = option_copied foundation.entry; ufrag = option_copied ufrag.entry } }
    {
        let bytes = in_place(text_or_empty(foundation), text_or_empty(ufrag));
        Texts {
            stored: Stored::Short {
                foundation: length_of(foundation),
                ufrag: length_of(ufrag),
                bytes,
            },
        }
    }

    fn joined(
        alloc: Global,
        foundation: Option<&str>,
        ufrag: Option<&str>,
    ) -> Result<Texts, AllocError>
        requires foundation { length (text_or_empty (option_copied foundation)) ≤ LONGEST }
        requires ufrag { length (text_or_empty (option_copied ufrag)) ≤ LONGEST }
        ensures { IfOk result (λ t. t ≡ record { foundation = option_copied foundation.entry; ufrag = option_copied ufrag.entry }) }
    {
        let text = in_block(alloc, text_or_empty(foundation), text_or_empty(ufrag))?;
        Ok(Texts {
            stored: Stored::Joined {
                foundation: length_of(foundation),
                ufrag: length_of(ufrag),
                text,
            },
        })
    }

    fn long(
        alloc: Global,
        foundation: Option<&str>,
        ufrag: Option<&str>,
    ) -> Result<Texts, AllocError>
        ensures { IfOk result (λ t. t ≡ record { foundation = option_copied foundation.entry; ufrag = option_copied ufrag.entry }) }
    {
        let texts = LongTexts {
            foundation: copied(alloc, foundation)?,
            ufrag: copied(alloc, ufrag)?,
        };
        Ok(Texts {
            stored: Stored::Long(Box::new(alloc, texts)?),
        })
    }

    /// Returns the foundation.
    #[inline(never)]
    pub(super) fn foundation(&self) -> Option<&str>
        ensures { option_copied result ≡ self.now.foundation }
    {
        match &self.stored {
            Stored::Short {
                foundation,
                bytes,
                ..
            } => text_in(bytes, *foundation),
            Stored::Joined {
                foundation,
                text,
                ..
            } => text_in(text.as_bytes(), *foundation),
            Stored::Long(texts) => texts.foundation.as_deref(),
        }
    }

    /// Returns the username fragment.
    #[inline(never)]
    pub(super) fn ufrag(&self) -> Option<&str>
        ensures { option_copied result ≡ self.now.ufrag }
    {
        match &self.stored {
            Stored::Short {
                foundation,
                ufrag,
                bytes,
            } => text_in(&bytes[length_or_zero(*foundation)..], *ufrag),
            Stored::Joined {
                foundation,
                ufrag,
                text,
            } => text_in(&text.as_bytes()[length_or_zero(*foundation)..], *ufrag),
            Stored::Long(texts) => texts.ufrag.as_deref(),
        }
    }

    /// Removes the username fragment. It never allocates, and frees the block if the foundation has room in place.
    #[inline(never)]
    pub(super) fn without_ufrag(self) -> Texts
        ensures { result ≡ record self { ufrag = None } }
    {
        if text_or_empty(self.foundation()).len() <= ROOM {
            return Texts::short(self.foundation(), None);
        }
        let Texts { stored } = self;
        let stored = match stored {
            Stored::Short {
                foundation,
                bytes,
                ..
            } => Stored::Short {
                foundation,
                ufrag: None,
                bytes,
            },
            Stored::Joined {
                foundation,
                text,
                ..
            } => Stored::Joined {
                foundation,
                ufrag: None,
                text,
            },
            Stored::Long(mut texts) => {
                texts.ufrag = None;
                Stored::Long(texts)
            }
        };
        Texts { stored }
    }
}

fn text_or_empty(text: Option<&str>) -> &str
    ensures { result.now ≡ text_or_empty (option_copied text.entry) }
{
    match text {
        Some(text) => text,
        None => "",
    }
}

fn copied(alloc: Global, text: Option<&str>) -> Result<Option<String>, AllocError>
    ensures { IfOk result (λ copy. option_map string_bytes copy ≡ option_copied text.entry) }
{
    match text {
        Some(text) => Ok(Some(String::from_str(alloc, text)?)),
        None => Ok(None),
    }
}

/// Writes both texts, one after the other.
fn in_place(first: &str, second: &str) -> [u8; ROOM]
    requires { length first.now + length second.now ≤ ROOM }
    ensures first { take (length first.now) result ≡ first.now }
    ensures second { take (length second.now) (drop (length first.now) result) ≡ second.now }
{
    let mut bytes = [0; ROOM];
    let end = first.len() + second.len();
    bytes[..first.len()].copy_from_slice(first.as_bytes());
    bytes[first.len()..end].copy_from_slice(second.as_bytes());
    bytes
}

/// Copies both texts, one after the other.
fn in_block(alloc: Global, first: &str, second: &str) -> Result<String, AllocError>
    ensures { IfOk result (λ text. string_bytes text ≡ first.now ++ second.now) }
{
    let mut text = String::with_capacity(alloc, first.len() + second.len())?;
    text.push_str(first)?;
    text.push_str(second)?;
    Ok(text)
}

fn length_of(text: Option<&str>) -> Option<u8>
    requires { length (text_or_empty (option_copied text)) ≤ LONGEST }
    ensures { result ≡ option_map length (option_copied text.entry) }
{
    match text {
        Some(text) => Some(text.len() as u8),
        None => None,
    }
}

fn length_or_zero(len: Option<u8>) -> usize
    ensures { result ≡ length_or_zero len }
{
    match len {
        Some(len) => usize::from(len),
        None => 0,
    }
}

/// Returns the text that begins the bytes, if there is one.
fn text_in(bytes: &[u8], len: Option<u8>) -> Option<&str>
    requires within { length_or_zero len ≤ length bytes.now }
    requires utf8 { IsUtf8 (take (length_or_zero len) bytes.now) }
    ensures { option_copied result ≡ text_in bytes.now len }
{
    let Some(len) = len else { return None };
    Some(unsafe { std::str::from_utf8_unchecked(&bytes[..usize::from(len)]) })
}

impl PartialEq for Texts {
    ghost eq = { eq_of_both (on (λ t. t.foundation) (option_eq (pointwise nat_eq))) (on (λ t. t.ufrag) (option_eq (pointwise nat_eq))) };

    ghost laws = { partial_equiv_from_equiv (Prim.search (comparing, rules)) };

    fn eq(&self, other: &Texts) -> bool {
        self.foundation() == other.foundation() && self.ufrag() == other.ufrag()
    }
}

impl Eq for Texts {
    ghost laws = { Prim.search (comparing, rules) };
}

impl Hash for Texts {
    ghost hash_input = { λ t. fed.option fed.str t.foundation ++ fed.option fed.str t.ufrag };

    ghost respects_eq = { Prim.search (hashing, rules) };

    fn hash<H: Hasher>(&self, state: &mut H) {
        self.foundation().hash(state);
        self.ufrag().hash(state);
    }
}

/// A call, so that the proof of a function that drops a candidate has no case for each form of its texts.
impl Drop for Texts {
    #[inline(never)]
    fn drop(self) {
        let Texts { stored: _stored } = self;
    }
}
