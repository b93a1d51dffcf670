//! The local preference of a candidate, computed by an object of the caller.
ghost use Rattle.std.specs.Prelude.{◌≡◌, ◌≤◌, ℕ, min};
ghost use Rattle.is_candidate.specs.Preferences.{default_preference, first_preference, crossing_of};
ghost use Rattle.is_candidate.specs.declared.candidate.Candidate.{Candidate};

use crate::candidate::Candidate;
use crate::candidate::address::same_version;
use crate::candidate::kind::CandidateKind;

/// Computes the local preference of local candidates (RFC 8445, section 5.1.2.1).
pub trait LocalPreference: Drop {
    /// The results that the object may return for a candidate and a count, as a relation.
    ghost answers: { Self → Candidate → ℕ → ℕ → Type 0 };

    /// Returns the preference, at most 65535, of a candidate that comes after `same_kind` local candidates of its kind
    /// and IP version.
    fn calculate(&self, c: &Candidate, same_kind: usize) -> u32
        ensures stated { answers self.now c.now same_kind result }
        ensures bounded { result ≤ 65535 };
}

/// A boxed object computes the preference of the object in it.
impl LocalPreference for Box<dyn LocalPreference> {
    ghost answers = { λ b. (LocalPreference-box b).answers b.value };

    fn calculate(&self, c: &Candidate, same_kind: usize) -> u32 {
        (**self).calculate(c, same_kind)
    }
}

/// The default preference, if the caller sets none. It starts from 65535 for a host, 49151 for a peer-reflexive, 32767
/// for a server-reflexive and 16383 for a relayed candidate. It is less by 1 for IPv4, by 2 for each earlier candidate
/// of its kind and IP version, and by 1000 for a relayed candidate whose local address has the other IP version. It is
/// never below zero.
pub fn default_local_preference(c: &Candidate, same_kind: usize) -> u32
    ensures { result ≡ default_preference c.now same_kind }
{
    let version = if c.addr().is_ipv4() { 1 } else { 0 };
    let taken = same_kind
        .saturating_mul(2)
        .saturating_add(version + crossing(c));
    first_preference(c.kind()).saturating_sub(taken) as u32
}

fn first_preference(kind: CandidateKind) -> usize
    ensures { result ≡ first_preference kind }
{
    match kind {
        CandidateKind::Host => 65535,
        CandidateKind::PeerReflexive => 49151,
        CandidateKind::ServerReflexive => 32767,
        CandidateKind::Relayed => 16383,
    }
}

fn crossing(c: &Candidate) -> usize
    ensures { result ≡ crossing_of c.now }
{
    if c.kind() == CandidateKind::Relayed && !same_version(c.local(), c.addr()) {
        1000
    } else {
        0
    }
}

/// A function of the caller, as a value that accepts every candidate and count.
pub trait PreferenceFunction: Drop {
    /// The results that the function may return for a candidate and a count, as a relation.
    ghost gives: { Self → Candidate → ℕ → ℕ → Type 0 };

    fn call(&self, c: &Candidate, same_kind: usize) -> u32
        ensures { gives self.now c.now same_kind result };
}

/// A preference computed by a function of the caller; results above 65535 are cut to 65535.
#[derive(Debug, Drop)]
pub struct FnPreference<F> {
    function: F,
}

impl<F: PreferenceFunction> FnPreference<F> {
    /// Makes a preference of this function.
    pub fn new(function: F) -> FnPreference<F>
        ensures { result.function ≡ function }
    {
        FnPreference { function }
    }
}

impl<F: PreferenceFunction> LocalPreference for FnPreference<F> {
    ghost answers = { λ p c n r. (answer : ℕ) × F.gives p.function c n answer × (r ≡ min answer 65535) };

    fn calculate(&self, c: &Candidate, same_kind: usize) -> u32 {
        self.function.call(c, same_kind).min(65535)
    }
}
