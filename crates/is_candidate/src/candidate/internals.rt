//! Functions that the agent, but no user, calls to read and change candidates.
ghost use Rattle.std.specs.Prelude.{◌≡◌, ◌≤◌, Some, None, true, false};
ghost use Rattle.std.specs.Option.{option_copied};
ghost use Rattle.is_candidate.specs.Candidates.{base_of, IsBased};

use super::Candidate;
use super::kind::{CandidateKind, is_direct, same_kind};
use super::source::{Source, hidden_related};
use super::texts::Texts;
use std::net::SocketAddr;

/// Returns the base: the address from which packets of the candidate are sent. A host or relayed candidate is its own
/// base.
pub fn base(c: &Candidate) -> SocketAddr
    ensures base { result ≡ base_of c.now }
    ensures based { IsBased c.now }
{
    match c.source {
        Source::Found => { if is_direct(c.kind) { c.addr } else { c.other } }
        Source::Signaled | Source::Related => c.addr,
    }
}

/// Returns the related address.
pub fn raddr(c: &Candidate) -> Option<SocketAddr>
    ensures { result ≡ c.now.raddr }
{
    match c.source {
        Source::Found => hidden_related(c.kind, c.addr),
        Source::Signaled => None,
        Source::Related => Some(c.other),
    }
}

/// Returns the priority that a candidate attribute or a check gave, if one did.
pub(super) fn given_priority(c: &Candidate) -> Option<u32>
    ensures { result ≡ c.now.given_priority }
{
    match c.source {
        Source::Found => {
            if same_kind(c.kind, CandidateKind::PeerReflexive) {
                Some(c.priority)
            } else {
                None
            }
        }
        Source::Signaled | Source::Related => Some(c.priority),
    }
}

/// Returns the foundation that the candidate was given, if there is one.
pub fn given_foundation(c: &Candidate) -> Option<&str>
    ensures { option_copied result ≡ c.now.foundation }
{
    c.texts.foundation()
}

/// Returns the component: 1, except if a candidate attribute named another.
pub fn component(c: &Candidate) -> u16
    ensures { result ≡ c.now.component }
{
    c.component
}

/// Whether the candidate was discarded.
pub fn is_discarded(candidate: &Candidate) -> bool
    ensures { result ≡ candidate.now.discarded }
{
    candidate.discarded
}

/// Marks the candidate as discarded.
pub fn discard(c: &mut Candidate)
    ensures { c.new ≡ record c.old { discarded = true } }
{
    c.discarded = true;
}

/// Removes the discard mark.
pub fn enable(c: &mut Candidate)
    ensures { c.new ≡ record c.old { discarded = false } }
{
    c.discarded = false;
}

/// Sets the local preference.
pub fn set_local_preference(c: &mut Candidate, preference: u32)
    requires { preference ≤ 65535 }
    ensures { c.new ≡ record c.old { local_preference = Some preference } }
{
    c.local_preference = Some(preference as u16);
}

/// Removes the username fragment.
pub fn clear_ufrag(c: &mut Candidate)
    ensures { c.new ≡ record c.old { ufrag = None } }
{
    let texts = std::mem::replace(&mut c.texts, Texts::none());
    c.texts = texts.without_ufrag();
}
