//! The kinds of candidates.
ghost use Rattle.std.specs.Prelude.{◌≡◌, Some};
ghost use Rattle.is_candidate.specs.Kinds.{kind_word, kind_number, same_kind, is_direct};

use std::fmt;

/// How a candidate was found (RFC 8445, section 5.1.1).
#[derive(Clone, Copy, Debug, PartialEq, Eq, Hash)]
pub enum CandidateKind {
    /// A socket on a local interface.
    Host,
    /// An address that a peer's check, or the response to a check, revealed.
    PeerReflexive,
    /// The address of a local socket as a STUN server sees it.
    ServerReflexive,
    /// An address that a TURN server allocated.
    Relayed,
}

/// Writes the word of the kind in a candidate attribute: `host`, `prflx`, `srflx` or `relay`.
impl fmt::Display for CandidateKind {
    ghost output = { λ k. Some (kind_word k) };

    fn fmt<W: fmt::Write>(&self, f: &mut fmt::Formatter<W>) -> fmt::Result {
        f.write_str(match self {
            CandidateKind::Host => "host",
            CandidateKind::PeerReflexive => "prflx",
            CandidateKind::ServerReflexive => "srflx",
            CandidateKind::Relayed => "relay",
        })
    }
}

/// Returns the number of the kind in a foundation's hash.
pub(crate) fn kind_number(kind: CandidateKind) -> u8
    ensures { result ≡ kind_number kind }
{
    match kind {
        CandidateKind::Host => 0,
        CandidateKind::PeerReflexive => 1,
        CandidateKind::ServerReflexive => 2,
        CandidateKind::Relayed => 3,
    }
}

pub fn same_kind(a: CandidateKind, b: CandidateKind) -> bool
    ensures { result ≡ same_kind a b }
{
    kind_number(a) == kind_number(b)
}

/// Whether packets of a candidate of this kind are sent from its own address.
pub fn is_direct(kind: CandidateKind) -> bool
    ensures { result ≡ is_direct kind }
{
    matches!(kind, CandidateKind::Host | CandidateKind::Relayed)
}
