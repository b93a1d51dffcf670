//! The priority of a candidate (RFC 8445, section 5.1.2).
ghost use Rattle.std.specs.Prelude.{◌≡◌, ◌<◌, ◌≤◌};
ghost use Rattle.is_candidate.specs.Priorities.{type_preference, local_preference_of, formula, candidate_priority, check_priority, TOO_HIGH};

use super::Candidate;
use super::internals::given_priority;
use super::kind::CandidateKind;
use is_proto::Protocol;

impl Candidate {
    /// Returns the priority: the given one, if any, otherwise the one of the recommended formula (RFC 8445, section
    /// 5.1.2.1), which is below 2^31.
    pub fn prio(&self) -> u32
        ensures { result ≡ candidate_priority self.now }
    {
        match given_priority(self) {
            Some(priority) => priority,
            None => formula(self, self.kind),
        }
    }
}

/// Returns the PRIORITY for a check from this candidate: its priority if it were peer-reflexive (RFC 8445, section
/// 7.1.1). So it is below the greatest priority if that of the candidate is.
pub fn check_priority(c: &Candidate) -> u32
    ensures value { result ≡ check_priority c.now }
    ensures low { candidate_priority c.now < TOO_HIGH → result < TOO_HIGH }
{
    match given_priority(c) {
        Some(priority) => priority,
        None => formula(c, CandidateKind::PeerReflexive),
    }
}

fn formula(c: &Candidate, kind: CandidateKind) -> u32
    ensures value { result ≡ formula kind c.now }
    ensures low { result < TOO_HIGH }
{
    type_preference(kind, c.proto) * 0x100_0000
        + u32::from(local_preference(c)) * 0x100
        + 256u32.saturating_sub(u32::from(c.component))
}

/// Returns the type preference: for UDP by RFC 8445, section 5.1.2.2, for other protocols by the values of libwebrtc.
fn type_preference(kind: CandidateKind, proto: Protocol) -> u32
    ensures value { result ≡ type_preference kind proto }
    ensures low { result ≤ 126 }
{
    match (kind, proto) {
        (CandidateKind::Host, Protocol::Udp) => 126,
        (CandidateKind::Host, _) => 90,
        (CandidateKind::PeerReflexive, Protocol::Udp) => 110,
        (CandidateKind::PeerReflexive, _) => 80,
        (CandidateKind::ServerReflexive, _) => 100,
        (CandidateKind::Relayed, Protocol::Udp) => 2,
        (CandidateKind::Relayed, Protocol::Tcp) => 1,
        (CandidateKind::Relayed, _) => 0,
    }
}

fn local_preference(c: &Candidate) -> u16
    ensures { result ≡ local_preference_of c.now }
{
    match c.local_preference {
        Some(preference) => preference,
        None if c.addr.is_ipv6() => 65535,
        None => 65534,
    }
}
