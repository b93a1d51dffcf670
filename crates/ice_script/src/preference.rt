//! The local preference that a script sets.
ghost use Rattle.std.specs.Prelude.{◌≡◌};

use is::{Candidate, LocalPreference};

/// One local preference for all candidates (RFC 8445, section 5.1.2.1).
#[derive(Clone, Copy)]
pub struct FixedPreference(pub u16);

impl LocalPreference for FixedPreference {
    ghost answers = { λ p _ _ r. r ≡ p.0 };

    fn calculate(&self, _c: &Candidate, _same_kind: usize) -> u32 {
        u32::from(self.0)
    }
}
