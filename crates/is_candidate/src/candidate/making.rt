//! The constructors.
ghost use Rattle.std.specs.Prelude.{◌≡◌, ◌++◌, codes, false, if◌then◌else◌, IfOk};
ghost use Rattle.std.specs.Option.{option_copied};
ghost use Rattle.std.specs.Net.Socket.{socket_ip};
ghost use Rattle.std.specs.Net.Text.{ip_text};
ghost use Rattle.is_candidate.specs.declared.candidate.kind.CandidateKind.TheVariants.{PeerReflexive};
ghost use Rattle.is_candidate.specs.Kinds.{is_direct, same_kind};
ghost use Rattle.is_candidate.specs.Making.{ip_fault, reflexive_fault, gathered, host_candidate, server_reflexive_candidate};
ghost use Rattle.is_candidate.specs.Making.{relayed_candidate, signalled_candidate, peer_reflexive_candidate};
ghost use Rattle.is_candidate.specs.Rejections.{RejectsWith, Makes};
ghost use Rattle.is_candidate.specs.Stored.{hidden_related};

use super::Candidate;
use super::address::{is_valid_ip, same_version};
use super::kind::CandidateKind;
use super::source::Source;
use super::texts::Texts;
use is_proto::{IceError, Protocol, TcpType};
use std::alloc::{AllocError, Global};
use std::net::{IpAddr, SocketAddr};

impl Candidate {
    /// Makes a host candidate of component 1: a socket on a local interface.
    ///
    /// Fails with `BadCandidate` ("invalid ip IP") if the address is link-local IPv4, broadcast, multicast or
    /// unspecified.
    pub fn host(alloc: Global, addr: SocketAddr, proto: Protocol) -> Result<Candidate, IceError>
        ensures { Makes (ip_fault (socket_ip addr)) (host_candidate addr proto None) result }
    {
        if !is_valid_ip(addr.ip()) {
            return Err(invalid_ip(alloc, addr.ip()));
        }
        Ok(new_host(addr, proto, None))
    }

    /// Makes a server-reflexive candidate of component 1: the address `addr` of the local socket `base`, as a STUN
    /// server sees it. Its local address is its base; its related address is the unspecified one of the same IP
    /// version.
    ///
    /// Fails with `BadCandidate`, in this order: "invalid ip IP" if `addr` is link-local IPv4, broadcast, multicast or
    /// unspecified; "addr and base are different IP versions".
    pub fn server_reflexive(
        alloc: Global,
        addr: SocketAddr,
        base: SocketAddr,
        proto: Protocol,
    ) -> Result<Candidate, IceError>
        ensures { Makes (reflexive_fault addr base) (server_reflexive_candidate addr base proto None) result }
    {
        if !is_valid_ip(addr.ip()) {
            return Err(invalid_ip(alloc, addr.ip()));
        }
        if !same_version(addr, base) {
            return Err(mixed_versions(alloc));
        }
        Ok(new_server_reflexive(addr, base, proto, None))
    }

    /// Makes a relayed candidate of component 1: the address `addr` that a TURN server allocated for a request from the
    /// local address `local`. Its related address is the unspecified one of the same IP version.
    ///
    /// Fails with `BadCandidate` ("invalid ip IP") if `addr` is link-local IPv4, broadcast, multicast or unspecified.
    pub fn relayed(
        alloc: Global,
        addr: SocketAddr,
        local: SocketAddr,
        proto: Protocol,
    ) -> Result<Candidate, IceError>
        ensures { Makes (ip_fault (socket_ip addr)) (relayed_candidate addr local proto None) result }
    {
        if !is_valid_ip(addr.ip()) {
            return Err(invalid_ip(alloc, addr.ip()));
        }
        Ok(new_relayed(addr, local, proto, None))
    }

    /// Makes the candidate that a candidate attribute describes. Its base is its address. Its local address is its
    /// address for a host, otherwise the unspecified one of the same IP version with port 0. Fails only if there is no
    /// memory for the texts.
    #[allow(clippy::too_many_arguments)]
    pub fn from_parts(
        alloc: Global,
        foundation: &str,
        component: u16,
        proto: Protocol,
        priority: u32,
        addr: SocketAddr,
        kind: CandidateKind,
        raddr: Option<SocketAddr>,
        tcptype: Option<TcpType>,
        ufrag: Option<&str>,
    ) -> Result<Candidate, AllocError>
        ensures { IfOk result (λ c. c ≡ signalled_candidate foundation.now component proto priority addr kind raddr tcptype (option_copied ufrag.entry)) }
    {
        let mut candidate = Candidate {
            texts: Texts::copy_of(alloc, Some(foundation), ufrag)?,
            addr,
            other: addr,
            priority,
            local_preference: None,
            component,
            source: Source::Signaled,
            kind,
            proto,
            tcptype,
            discarded: false,
        };
        if let Some(raddr) = raddr {
            candidate.source = Source::Related;
            candidate.other = raddr;
        }
        Ok(candidate)
    }
}

/// Makes a peer-reflexive candidate of component 1: an address that a check discovered, with the priority that the
/// check carried. Its local address is its base.
pub fn peer_reflexive(
    alloc: Global,
    foundation: Option<&str>,
    proto: Protocol,
    priority: u32,
    addr: SocketAddr,
    base: SocketAddr,
    ufrag: &str,
) -> Result<Candidate, AllocError>
    ensures { IfOk result (λ c. c ≡ peer_reflexive_candidate (option_copied foundation.entry) proto priority addr base ufrag.now) }
{
    Ok(Candidate {
        texts: Texts::copy_of(alloc, foundation, Some(ufrag))?,
        addr,
        other: base,
        priority,
        local_preference: None,
        component: 1,
        source: Source::Found,
        kind: CandidateKind::PeerReflexive,
        proto,
        tcptype: None,
        discarded: false,
    })
}

pub(super) fn new_host(addr: SocketAddr, proto: Protocol, tcptype: Option<TcpType>) -> Candidate
    ensures { result ≡ host_candidate addr proto tcptype }
{
    gathered(CandidateKind::Host, proto, addr, addr, tcptype)
}

pub(super) fn new_server_reflexive(
    addr: SocketAddr,
    base: SocketAddr,
    proto: Protocol,
    tcptype: Option<TcpType>,
) -> Candidate
    ensures { result ≡ server_reflexive_candidate addr base proto tcptype }
{
    gathered(CandidateKind::ServerReflexive, proto, addr, base, tcptype)
}

pub(super) fn new_relayed(
    addr: SocketAddr,
    local: SocketAddr,
    proto: Protocol,
    tcptype: Option<TcpType>,
) -> Candidate
    ensures { result ≡ relayed_candidate addr local proto tcptype }
{
    gathered(CandidateKind::Relayed, proto, addr, local, tcptype)
}

fn gathered(
    kind: CandidateKind,
    proto: Protocol,
    addr: SocketAddr,
    local: SocketAddr,
    tcptype: Option<TcpType>,
) -> Candidate
    requires { same_kind kind PeerReflexive ≡ false }
    ensures { result ≡ gathered kind proto addr (if is_direct kind then addr else local) local (hidden_related kind addr) tcptype }
{
    Candidate {
        texts: Texts::none(),
        addr,
        other: local,
        priority: 0,
        local_preference: None,
        component: 1,
        source: Source::Found,
        kind,
        proto,
        tcptype,
        discarded: false,
    }
}

/// Returns the error for an address, or `OutOfMemory` if there is no memory for its message.
fn invalid_ip(alloc: Global, ip: IpAddr) -> IceError
    ensures { RejectsWith (codes "invalid ip " ++ ip_text ip) result }
{
    match format!(in alloc; "invalid ip {ip}") {
        Ok(message) => IceError::BadCandidate(message),
        Err(_) => IceError::OutOfMemory,
    }
}

/// Returns the error for two IP versions, or `OutOfMemory` if there is no memory for its message.
fn mixed_versions(alloc: Global) -> IceError
    ensures { RejectsWith (codes "addr and base are different IP versions") result }
{
    match String::from_str(alloc, "addr and base are different IP versions") {
        Ok(message) => IceError::BadCandidate(message),
        Err(_) => IceError::OutOfMemory,
    }
}
