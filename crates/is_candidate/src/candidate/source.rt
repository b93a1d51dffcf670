//! The origin of a candidate, which says what its second address is.
ghost use Rattle.std.specs.Prelude.{◌≡◌};
ghost use Rattle.is_candidate.specs.Stored.{hidden_related, signaled_local};

use super::address::unspecified_like;
use super::kind::CandidateKind;
use std::net::SocketAddr;

/// The origin of a candidate.
#[derive(Clone, Copy, Debug, PartialEq, Eq, Hash)]
pub(super) enum Source {
    /// The agent found it. The second address is the local one, and the base unless the candidate is its own.
    Found,
    /// A candidate attribute described it, without a related address. The second address repeats the first.
    Signaled,
    /// A candidate attribute described it. The second address is the related one.
    Related,
}

/// Returns the related address of a candidate that the agent found. It reveals no local address.
pub(super) fn hidden_related(kind: CandidateKind, addr: SocketAddr) -> Option<SocketAddr>
    ensures { result ≡ hidden_related kind addr }
{
    match kind {
        CandidateKind::Host | CandidateKind::PeerReflexive => None,
        CandidateKind::ServerReflexive | CandidateKind::Relayed => Some(unspecified_like(addr)),
    }
}

/// Returns the local address of a signaled candidate, as far as it is known.
pub(super) fn signaled_local(kind: CandidateKind, addr: SocketAddr) -> SocketAddr
    ensures { result ≡ signaled_local kind addr }
{
    match kind {
        CandidateKind::Host => addr,
        _ => unspecified_like(addr),
    }
}
