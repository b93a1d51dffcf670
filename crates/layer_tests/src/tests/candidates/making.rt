//! Host and peer-reflexive candidates.

use super::{has_line, has_line_end};
use is_candidate::candidate::copy::clone_with_ufrag;
use is_candidate::candidate::equality::is_temporary;
use is_candidate::candidate::internals::base;
use is_candidate::candidate::making::peer_reflexive;
use is_candidate::candidate::priority::check_priority;
use is_candidate::{Candidate, CandidateKind};
use is_proto::{IceError, Protocol, TcpType, Text};
use std::alloc::Global;
use std::net::SocketAddr;
use std::test::Fail;

/// Whether making the candidate failed with this message.
fn is_rejected(made: Result<Candidate, IceError>, message: &str) -> bool {
    match made {
        Err(IceError::BadCandidate(said)) => said.as_str() == message,
        _ => false,
    }
}

#[test]
fn a_host_has_the_recommended_priority(rt: HostRuntime) -> Result<(), Fail> {
    let addr: SocketAddr = "1.2.3.4:9876".parse()?;
    let host = Candidate::host(rt.alloc(), addr, Protocol::Udp)?;
    // 126 * 2^24 + 65534 * 2^8 + 255, and 110 in place of 126 (RFC 8445, section 5.1.2.2)
    assert!(rt;
        host.prio() == 2130706175 && check_priority(&host) == 1862270719 && base(&host) == addr
    );
    Ok(())
}

#[test]
fn a_host_on_every_interface_is_rejected(rt: HostRuntime) -> Result<(), Fail> {
    let made = Candidate::host(rt.alloc(), "0.0.0.0:9876".parse()?, Protocol::Udp);
    assert!(rt; is_rejected(made, "invalid ip 0.0.0.0"));
    Ok(())
}

/// The remote candidate for a request from 10.0.0.2:2000.
fn remote_peer_reflexive(alloc: Global) -> Result<Candidate, Fail> {
    let source: SocketAddr = "10.0.0.2:2000".parse()?;
    let foundation = Some("tmp_prflx");
    let proto = Protocol::Udp;
    Ok(peer_reflexive(alloc, foundation, proto, 1853824767, source, source, "p9KA")?)
}

#[test]
fn a_peer_reflexive_candidate_keeps_the_priority_of_the_request(
    rt: HostRuntime,
) -> Result<(), Fail> {
    let found = remote_peer_reflexive(rt.alloc())?;
    assert!(rt;
        found.prio() == 1853824767
            && found.kind() == CandidateKind::PeerReflexive
            && is_temporary(&found)
    );
    Ok(())
}

/// Whether a copy gets this ufrag.
fn renames_copy(alloc: Global, found: &Candidate, ufrag: &str) -> bool {
    match found.clone() {
        Ok(mut copy) => copy.set_ufrag(alloc, ufrag).is_ok() && copy.ufrag() == Some(ufrag),
        Err(_) => false,
    }
}

#[test]
fn a_copy_has_its_own_ufrag(rt: HostRuntime) -> Result<(), Fail> {
    let found = remote_peer_reflexive(rt.alloc())?;
    assert!(rt; renames_copy(rt.alloc(), &found, "SQAt") && found.ufrag() == Some("p9KA"));
    Ok(())
}

/// Whether a copy under this ufrag has it, and is what the candidate is under it.
fn is_copied_under(alloc: Global, mut found: Candidate, ufrag: Text) -> bool {
    match clone_with_ufrag(alloc, &found, &ufrag) {
        Ok(copy) => {
            copy.ufrag() == Some(ufrag.as_str())
                && found.set_ufrag(alloc, ufrag.as_str()).is_ok()
                && copy == found
        }
        Err(_) => false,
    }
}

#[test]
fn a_copy_is_made_under_another_ufrag(rt: HostRuntime) -> Result<(), Fail> {
    let ufrag = Text::from_str(rt.alloc(), "SQAt")?;
    let found = remote_peer_reflexive(rt.alloc())?;
    assert!(rt; is_copied_under(rt.alloc(), found, ufrag));
    Ok(())
}

#[test]
fn a_host_prints_with_its_foundation(rt: HostRuntime) -> Result<(), Fail> {
    let host = Candidate::host(rt.alloc(), "1.2.3.4:9876".parse()?, Protocol::Udp)?;
    let line = "candidate:fffeff7eda4d42283a245a9 1 udp 2130706175 1.2.3.4 9876 typ host";
    assert!(rt; has_line(rt.alloc(), &host, line));
    Ok(())
}

#[test]
fn the_builder_makes_a_passive_host(rt: HostRuntime) -> Result<(), Fail> {
    let host = Candidate::builder()
        .tcp()
        .host("192.168.1.1:12345".parse()?)
        .tcptype(TcpType::Passive)
        .build(rt.alloc())?;
    // 90 * 2^24 + 65534 * 2^8 + 255
    assert!(rt; host.prio() == 1526726399 && host.tcptype() == Some(TcpType::Passive));
    Ok(())
}

#[test]
fn the_builder_makes_a_host_over_ssl_tcp(rt: HostRuntime) -> Result<(), Fail> {
    let host = Candidate::builder()
        .ssl_tcp()
        .host("192.168.1.1:443".parse()?)
        .tcptype(TcpType::Active)
        .build(rt.alloc())?;
    assert!(rt; host.proto() == Protocol::SslTcp && host.tcptype() == Some(TcpType::Active));
    // the priority is that of protocols other than UDP: 90 * 2^24 + 65534 * 2^8 + 255
    let end = " 1 ssltcp 1526726399 192.168.1.1 443 typ host tcptype active";
    assert!(rt; has_line_end(rt.alloc(), Ok(host), end));
    Ok(())
}

#[test]
fn a_relayed_candidate_over_ssl_tcp_has_the_least_priority(rt: HostRuntime) -> Result<(), Fail> {
    let (addr, local) = ("1.2.3.4:9876".parse()?, "7.8.9.0:2345".parse()?);
    let relayed = Candidate::relayed(rt.alloc(), addr, local, Protocol::SslTcp)?;
    assert!(rt; relayed.local() == local);
    let end = " 1 ssltcp 16776959 1.2.3.4 9876 typ relay raddr 0.0.0.0 rport 0";
    assert!(rt; has_line_end(rt.alloc(), Ok(relayed), end));
    Ok(())
}

#[test]
fn a_reflexive_candidate_keeps_one_ip_version(rt: HostRuntime) -> Result<(), Fail> {
    let (v4, v6) = ("10.0.0.1:1000".parse()?, "[::1]:1000".parse()?);
    let made = Candidate::server_reflexive(rt.alloc(), v4, v6, Protocol::Udp);
    assert!(rt; is_rejected(made, "addr and base are different IP versions"));
    let built = Candidate::builder().tls().server_reflexive(v4, v6);
    let message = "address IP version mismatch: addr=10.0.0.1 base=::1";
    assert!(rt; is_rejected(built.build(rt.alloc()), message));
    Ok(())
}
