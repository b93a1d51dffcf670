//! Foundations that are computed: the bytes that are hashed, and their FNV-1a.

use is_candidate::Candidate;
use is_candidate::candidate::foundation::Foundation;
use is_proto::{IceError, Protocol};
use std::alloc::Global;
use std::test::Fail;

/// Whether the candidate, if it was made, has this foundation.
fn has_foundation(alloc: Global, made: Result<Candidate, IceError>, text: &str) -> bool {
    let Ok(candidate) = made else {
        return false;
    };
    match Foundation(&candidate).to_string(alloc) {
        Ok(foundation) => foundation.as_str() == text,
        Err(_) => false,
    }
}

/// A host: the hashed bytes are its kind, its address, a zero in place of the related address, and its protocol. The
/// values here and below were computed by a program that gives the published FNV-1a of `a` and `foobar`.
#[test]
fn of_hosts(rt: HostRuntime) -> Result<(), Fail> {
    let alloc = rt.alloc();
    let made = Candidate::host(alloc, "1.2.3.4:9876".parse()?, Protocol::Udp);
    assert!(rt; has_foundation(alloc, made, "fffeff7eda4d42283a245a9"));
    let made = Candidate::host(alloc, "[2001:db8::1]:9876".parse()?, Protocol::Tcp);
    assert!(rt; has_foundation(alloc, made, "ffffff5a507909a63eeeefbd"));
    Ok(())
}

/// For a server-reflexive candidate the base is hashed. For both kinds the related address is hashed; here it is the
/// unspecified one.
#[test]
fn with_a_related_address(rt: HostRuntime) -> Result<(), Fail> {
    let alloc = rt.alloc();
    let (addr, base) = ("203.0.113.7:5000".parse()?, "192.168.1.10:54321".parse()?);
    let made = Candidate::server_reflexive(alloc, addr, base, Protocol::Tls);
    assert!(rt; has_foundation(alloc, made, "fffeff64607959af5f9189c9"));
    let made = Candidate::relayed(alloc, addr, base, Protocol::SslTcp);
    assert!(rt; has_foundation(alloc, made, "fffeff00bf871a97fc7a6693"));
    Ok(())
}
