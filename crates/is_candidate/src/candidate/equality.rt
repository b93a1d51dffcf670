//! Which parts of two candidates are equal.
ghost use Rattle.std.specs.Prelude.{◌≡◌, true};
ghost use Rattle.is_candidate.specs.declared.candidate.Candidate.{Candidate};
ghost use Rattle.is_candidate.specs.Addresses.{same_optional, same_address};
ghost use Rattle.is_candidate.specs.Equality.{is_same_place, is_same_origin, is_equivalent, is_alike, is_temporary};

use super::Candidate;
use super::address::{same_address, same_protocol, same_version};
use super::internals::{base, given_foundation, raddr};
use super::kind::{CandidateKind, same_kind};
use is_proto::theorems::equal_values_hash_alike;
use std::net::SocketAddr;

/// The foundation of a remote candidate that was discovered from a request, until it is signaled.
pub const TEMPORARY_FOUNDATION: &str = "tmp_prflx";

/// Whether two candidates have the same address, base and protocol.
pub fn is_same_place(a: &Candidate, b: &Candidate) -> bool
    ensures { result ≡ is_same_place a.now b.now }
{
    same_address(a.addr, b.addr)
        && same_address(base(a), base(b))
        && same_protocol(a.proto, b.proto)
}

/// Whether two candidates have the same kind and related address.
pub fn is_same_origin(a: &Candidate, b: &Candidate) -> bool
    ensures { result ≡ is_same_origin a.now b.now }
{
    same_kind(a.kind, b.kind) && same_related(raddr(a), raddr(b))
}

fn same_related(a: Option<SocketAddr>, b: Option<SocketAddr>) -> bool
    ensures { result ≡ same_optional same_address a b }
{
    match (a, b) {
        (Some(a), Some(b)) => same_address(a, b),
        (None, None) => true,
        _ => false,
    }
}

/// Whether two candidates have the same address, base, protocol, kind and related address.
pub fn is_equivalent(a: &Candidate, b: &Candidate) -> bool
    ensures { result ≡ is_equivalent a.now b.now }
{
    is_same_place(a, b) && is_same_origin(a, b)
}

/// Whether two candidates have the same kind and IP version, as local preferences count candidates.
pub fn is_alike(a: &Candidate, b: &Candidate) -> bool
    ensures { result ≡ is_alike a.now b.now }
{
    same_kind(a.kind, b.kind) && same_version(a.addr, b.addr)
}

/// Whether this remote candidate was discovered from a request and is not signaled yet.
pub fn is_temporary(c: &Candidate) -> bool
    ensures { result ≡ is_temporary c.now }
{
    same_kind(c.kind, CandidateKind::PeerReflexive)
        && given_foundation(c) == Some(TEMPORARY_FOUNDATION)
}

/// Equal candidates feed a hasher with the same input.
pub fn equal_candidates_hash_alike()
    ensures { (a b : Candidate) → ⟦<Candidate as PartialEq>⟧.eq a b ≡ true
        → ⟦<Candidate as std::hash::Hash>⟧.hash_input a ≡ ⟦<Candidate as std::hash::Hash>⟧.hash_input b }
{
    equal_values_hash_alike::<Candidate>()
}
