//! A text whose abstract value, in contracts, is its bytes.
ghost use Rattle.std.specs.Prelude.{◌≡◌, IfOk, Some};
ghost use Rattle.std.specs.Hash as fed;
ghost use Rattle.std.specs.Cmp.{partial_equiv_from_equiv};
ghost use Rattle.std.specs.Cmp.Rules.{hashing};
ghost use Rattle.std.specs.Cmp.Lexicographic.{pointwise};
ghost use Rattle.std.specs.Bool.{◌==◌};
ghost use Rattle.std.proofs.Common.{rules};
ghost use Rattle.std.proofs.lemmas.Cmp.{nat_list_eq_equiv};
ghost use Rattle.std.specs.String.{string_bytes};

use std::alloc::{AllocError, Global};
use std::fmt;
use std::hash::{Hash, Hasher};
use std::marker::Model;

/// A text: a `String` whose copies are equal to it, and whose capacity is not visible.
#[derive(Clone, Debug, Drop)]
pub struct Text {
    inner: String,
}

impl Model for Text {
    ghost use Rattle.std.specs.Prelude.{List, ℕ};
    ghost use Rattle.std.specs.String.{string_bytes};

    ghost Value = { List ℕ };

    ghost view = { λ t. string_bytes t.inner };
}

impl Text {
    /// Makes a text of the string. It never allocates.
    pub fn new(inner: String) -> Text
        ensures { result ≡ string_bytes inner }
    {
        Text { inner }
    }

    /// Copies the text, or fails if there is no memory for it.
    pub fn from_str(alloc: Global, text: &str) -> Result<Text, AllocError>
        ensures { IfOk result (λ t. t ≡ text.now) }
    {
        Ok(Text::new(String::from_str(alloc, text)?))
    }

    /// Returns the text as a string slice.
    pub fn as_str(&self) -> &str
        ensures { result.now ≡ self.now }
    {
        self.inner.as_str()
    }

    /// Returns the string that holds the text. It never allocates.
    pub fn into_string(self) -> String
        ensures { string_bytes result ≡ self }
    {
        let Text { inner } = self;
        inner
    }
}

impl PartialEq for Text {
    ghost eq = { pointwise ◌==◌ };

    ghost laws = { partial_equiv_from_equiv nat_list_eq_equiv };

    fn eq(&self, other: &Text) -> bool {
        self.as_str() == other.as_str()
    }
}

impl Eq for Text {
    ghost laws = { nat_list_eq_equiv };
}

impl Hash for Text {
    ghost hash_input = { fed.str };

    ghost respects_eq = { Prim.search (hashing, rules) };

    fn hash<H: Hasher>(&self, state: &mut H) {
        self.as_str().hash(state);
    }
}

/// Returns the string that holds the text. It never allocates.
impl From<Text> for String {
    ghost from_gives = { λ text string. string_bytes string ≡ text };

    fn from(text: Text) -> String {
        text.into_string()
    }
}

impl fmt::Display for Text {
    ghost output = { λ t. Some t };

    fn fmt<W: fmt::Write>(&self, f: &mut fmt::Formatter<W>) -> fmt::Result {
        f.write_str(self.as_str())
    }
}
