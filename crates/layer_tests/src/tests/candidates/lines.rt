//! Candidate attributes (RFC 8839): parsed and printed.

use super::{address, has_line, has_line_end};
use is_candidate::parse::parse_candidate;
use is_candidate::{Candidate, CandidateKind};
use is_proto::{IceError, Protocol, TcpType};
use std::alloc::Global;
use std::net::SocketAddr;
use std::test::Fail;

/// Whether the attribute prints as this text, after parsing.
fn prints(alloc: Global, line: &str, text: &str) -> bool {
    match Candidate::from_sdp_string(alloc, line) {
        Ok(candidate) => has_line(alloc, &candidate, text),
        Err(_) => false,
    }
}

/// Whether parsing fails with a message that is the line itself, a colon, and this fault.
fn is_rejected(alloc: Global, line: &str, fault: &str) -> bool {
    let Err(IceError::BadCandidate(message)) = parse_candidate(alloc, line) else {
        return false;
    };
    match message.as_str().strip_prefix(line) {
        Some(rest) => rest.strip_prefix(": ") == Some(fault),
        None => false,
    }
}

/// Lines of browsers, and what they print as.
static BROWSERS: [(&str, &str); 2] = [
    (
        "candidate:842163049 1 udp 1677729535 203.0.113.5 46154 typ srflx raddr 0.0.0.0 rport 0 generation 0 ufrag EsAw network-id 1 network-cost 10",
        "candidate:842163049 1 udp 1677729535 203.0.113.5 46154 typ srflx raddr 0.0.0.0 rport 0 ufrag EsAw",
    ),
    (
        "candidate:0 1 UDP 2122252543 192.168.1.10 54321 typ host",
        "candidate:0 1 udp 2122252543 192.168.1.10 54321 typ host",
    ),
];

#[test]
fn lines_of_browsers_print_what_is_known_of_them(rt: HostRuntime) {
    for (line, text) in &BROWSERS {
        assert!(rt; prints(rt.alloc(), line, text));
    }
}

/// Whether it is an active TCP candidate of this address.
fn is_active_at(host: &Candidate, text: &str) -> bool {
    host.proto() == Protocol::Tcp
        && host.tcptype() == Some(TcpType::Active)
        && Some(host.addr()) == address(text)
        && host.local() == host.addr()
}

#[test]
fn an_active_tcp_line_of_chrome_reads(rt: HostRuntime) -> Result<(), Fail> {
    let line =
        "candidate:1052353102 1 tcp 1518280447 2001:db8::7a 9 typ host tcptype active generation 0 network-id 3";
    let host = Candidate::from_sdp_string(rt.alloc(), line)?;
    assert!(rt; is_active_at(&host, "[2001:db8::7a]:9") && host.prio() == 1518280447);
    Ok(())
}

#[test]
fn a_relayed_ipv6_line_reads_with_its_related_address(rt: HostRuntime) -> Result<(), Fail> {
    let line =
        "candidate:3 1 udp 16777215 2001:db8::1 50000 typ relay raddr 2001:db8:0:1:2:3:4:5 rport 61000";
    let relayed = Candidate::from_sdp_string(rt.alloc(), line)?;
    assert!(rt;
        relayed.kind() == CandidateKind::Relayed
            && Some(relayed.local()) == address("[::]:0")
            && has_line(rt.alloc(), &relayed, line)
    );
    Ok(())
}

/// A relayed candidate with the ufrag `EsAw`.
fn named_relay(alloc: Global, addr: SocketAddr, local: SocketAddr) -> Result<Candidate, IceError> {
    let mut relayed = Candidate::relayed(alloc, addr, local, Protocol::Udp)?;
    relayed.set_ufrag(alloc, "EsAw")?;
    Ok(relayed)
}

/// Whether the line of the candidate prints as it is.
fn prints_as_it_is(alloc: Global, candidate: &Candidate) -> bool {
    match candidate.to_sdp_string(alloc) {
        Ok(line) => prints(alloc, line.as_str(), line.as_str()),
        Err(_) => false,
    }
}

#[test]
fn a_relay_with_a_ufrag_prints_as_it_was_read(rt: HostRuntime) -> Result<(), Fail> {
    let alloc = rt.alloc();
    let (addr, local) = ("203.0.113.7:49152".parse()?, "192.168.1.10:54321".parse()?);
    let relayed = named_relay(alloc, addr, local)?;
    assert!(rt; prints_as_it_is(alloc, &relayed));
    let end = " 203.0.113.7 49152 typ relay raddr 0.0.0.0 rport 0 ufrag EsAw";
    assert!(rt; has_line_end(alloc, Ok(relayed), end));
    Ok(())
}

#[test]
fn of_equal_keys_the_last_counts_and_a_lone_raddr_is_none(rt: HostRuntime) {
    let line = "candidate:1 1 udp 1 10.0.0.1 1 typ prflx raddr 10.0.0.2 ufrag a ufrag b lonely";
    let text = "candidate:1 1 udp 1 10.0.0.1 1 typ prflx ufrag b";
    assert!(rt; prints(rt.alloc(), line, text));
}

/// Whether the line reads with a ufrag after it, and prints as this text.
fn takes_ufrag(alloc: Global, line: &str, text: &str) -> bool {
    match format!(in alloc; "{line} ufrag z") {
        Ok(whole) => prints(alloc, whole.as_str(), text),
        Err(_) => false,
    }
}

/// Whether the line is rejected with a ufrag without a value after it.
fn needs_ufrag_value(alloc: Global, line: &str) -> bool {
    match format!(in alloc; "{line} ufrag") {
        Ok(cut) => is_rejected(alloc, cut.as_str(), "missing ufrag value"),
        Err(_) => false,
    }
}

#[test]
fn lines_of_any_number_of_keys_read_to_their_last_word(rt: HostRuntime) -> Result<(), Fail> {
    let text = "candidate:1 1 udp 1 10.0.0.1 1 typ host ufrag z";
    let mut line = String::from_str(rt.alloc(), "candidate:1 1 udp 1 10.0.0.1 1 typ host")?;
    for _ in 0..40 {
        assert!(rt;
            takes_ufrag(rt.alloc(), line.as_str(), text)
                && needs_ufrag_value(rt.alloc(), line.as_str())
        );
        line.push_str(" generation 0")?;
    }
    Ok(())
}

#[test]
fn unicode_white_space_splits_words(rt: HostRuntime) {
    let line = "candidate:1\u{a0}1\u{2003}udp 1 10.0.0.1 1 typ host";
    let text = "candidate:1 1 udp 1 10.0.0.1 1 typ host";
    assert!(rt; prints(rt.alloc(), line, text));
    // U+001C is no white space, so the foundation is `1\u{1c}1` and the component `udp`
    let line = "candidate:1\u{1c}1 udp 1 10.0.0.1 1 typ host";
    assert!(rt; is_rejected(rt.alloc(), line, "bad component-id"));
}

/// Lines with their first fault.
static FAULTS: [(&str, &str); 23] = [
    ("", "missing 'candidate:' prefix"),
    (
        "a=candidate:1 1 udp 1 10.0.0.1 1 typ host",
        "missing 'candidate:' prefix",
    ),
    ("candidate: ", "missing foundation"),
    ("candidate:12344", "missing component-id"),
    ("candidate:12344 bad value", "bad component-id"),
    ("candidate:1 65536 udp", "bad component-id"),
    ("candidate:1 1", "missing protocol"),
    ("candidate:1 1 sctp", "invalid protocol: sctp"),
    ("candidate:1 1 udp", "missing priority"),
    ("candidate:1 1 udp 4294967296", "bad priority"),
    ("candidate:1 1 udp 1", "missing address"),
    (
        "candidate:1 1 udp 2113937151 4f5a.local 51000 typ host",
        "bad address",
    ),
    ("candidate:1 1 udp 1 10.0.0.1", "missing port"),
    ("candidate:1 1 udp 1 10.0.0.1 -1", "bad port"),
    ("candidate:1 1 udp 1 10.0.0.1 1", "expected 'typ'"),
    ("candidate:1 1 udp 1 10.0.0.1 1 type host", "expected 'typ'"),
    (
        "candidate:1 1 udp 1 10.0.0.1 1 typ",
        "missing candidate type",
    ),
    (
        "candidate:1 1 udp 1 10.0.0.1 1 typ HOST",
        "unknown candidate type: HOST",
    ),
    (
        "candidate:1 1 udp 1 10.0.0.1 1 typ host raddr",
        "missing raddr value",
    ),
    (
        "candidate:1 1 udp 1 10.0.0.1 1 typ host raddr x raddr 10.0.0.2",
        "bad raddr",
    ),
    (
        "candidate:1 1 udp 1 10.0.0.1 1 typ host rport 70000",
        "bad rport",
    ),
    (
        "candidate:1 1 udp 1 10.0.0.1 1 typ host tcptype both",
        "bad tcptype",
    ),
    (
        "candidate:1 1 udp 1 10.0.0.1 1 typ host ufrag",
        "missing ufrag value",
    ),
];

#[test]
fn each_fault_has_its_message(rt: HostRuntime) {
    for (line, fault) in &FAULTS {
        assert!(rt; is_rejected(rt.alloc(), line, fault));
    }
}
