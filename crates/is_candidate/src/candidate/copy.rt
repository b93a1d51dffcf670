//! Copies, which can fail if there is no memory.
ghost use Rattle.std.specs.Prelude.{◌≡◌, IfOk, Some};

use super::Candidate;
use super::texts::Texts;
use is_proto::Text;
use std::alloc::{AllocError, Global};

/// A copy equals its original, including the discard mark and the local preference.
impl Clone for Candidate {
    ghost is_clone = { λ old copy. copy ≡ old };

    fn clone(&self) -> Result<Candidate, AllocError> {
        let texts = self.texts.clone()?;
        Ok(with_texts(self, texts))
    }
}

/// Copies the candidate, with another username fragment. The old username fragment is not copied.
pub fn clone_with_ufrag(alloc: Global, c: &Candidate, ufrag: &Text) -> Result<Candidate, AllocError>
    ensures { IfOk result (λ copy. copy ≡ record c.now { ufrag = Some ufrag.now }) }
{
    let texts = Texts::copy_of(alloc, c.texts.foundation(), Some(ufrag.as_str()))?;
    Ok(with_texts(c, texts))
}

fn with_texts(c: &Candidate, texts: Texts) -> Candidate
    ensures { result ≡ record c.now { foundation = texts.foundation; ufrag = texts.ufrag } }
{
    Candidate {
        texts,
        addr: c.addr,
        other: c.other,
        priority: c.priority,
        local_preference: c.local_preference,
        component: c.component,
        source: c.source,
        kind: c.kind,
        proto: c.proto,
        tcptype: c.tcptype,
        discarded: c.discarded,
    }
}
