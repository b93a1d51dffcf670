//! The URLs of RFC 7064, appendix B, and RFC 7065, appendix B, and texts that are none.

use is_servers::{Scheme, ServerUrl, Transport, server_url};

/// A text, and what it is read as with the host `example.org`: the scheme, whether it is secure, the transport and the port.
type Row = (&'static str, Scheme, bool, Transport, u16);

/// Whether the text of the row is read so.
fn is_read(row: &Row) -> bool {
    let (text, scheme, is_secure, transport, port) = *row;
    let url = ServerUrl {
        scheme,
        is_secure,
        transport,
        host: "example.org",
        port,
    };
    server_url(text) == Some(url)
}

/// The table of RFC 7064, appendix B.
static STUN_URLS: [Row; 3] = [
    (
        "stun:example.org",
        Scheme::Stun,
        false,
        Transport::Udp,
        3478,
    ),
    (
        "stuns:example.org",
        Scheme::Stun,
        true,
        Transport::Tcp,
        5349,
    ),
    (
        "stun:example.org:8000",
        Scheme::Stun,
        false,
        Transport::Udp,
        8000,
    ),
];

#[test]
fn stun_urls(rt: HostRuntime) {
    for row in &STUN_URLS {
        assert!(rt; is_read(row), "{}", row.0);
    }
}

/// The table of RFC 7065, appendix B.
static TURN_URLS: [Row; 7] = [
    (
        "turn:example.org",
        Scheme::Turn,
        false,
        Transport::Udp,
        3478,
    ),
    (
        "turns:example.org",
        Scheme::Turn,
        true,
        Transport::Tcp,
        5349,
    ),
    (
        "turn:example.org:8000",
        Scheme::Turn,
        false,
        Transport::Udp,
        8000,
    ),
    (
        "turn:example.org?transport=udp",
        Scheme::Turn,
        false,
        Transport::Udp,
        3478,
    ),
    (
        "turn:example.org?transport=tcp",
        Scheme::Turn,
        false,
        Transport::Tcp,
        3478,
    ),
    (
        "turns:example.org?transport=tcp",
        Scheme::Turn,
        true,
        Transport::Tcp,
        5349,
    ),
    (
        "TURNS:example.org?Transport=TCP",
        Scheme::Turn,
        true,
        Transport::Tcp,
        5349,
    ),
];

#[test]
fn turn_urls(rt: HostRuntime) {
    for row in &TURN_URLS {
        assert!(rt; is_read(row), "{}", row.0);
    }
}

/// Texts with the hosts of RFC 3986, section 3.2.2, and the ports that they are read with.
static HOSTS: [(&str, &str, u16); 5] = [
    ("stun:192.0.2.1:5349", "192.0.2.1", 5349),
    ("turn:[2001:db8::1]", "2001:db8::1", 3478),
    ("turn:[2001:db8::1]:80?transport=tcp", "2001:db8::1", 80),
    ("stun:a%2Fb", "a%2Fb", 3478),
    ("stun:a:", "a", 3478),
];

fn has_host(text: &str, host: &str, port: u16) -> bool {
    match server_url(text) {
        Some(url) => url.host == host && url.port == port,
        None => false,
    }
}

#[test]
fn hosts(rt: HostRuntime) {
    for (text, host, port) in &HOSTS {
        assert!(rt; has_host(text, host, *port), "{text}");
    }
}

static NO_URLS: [&str; 17] = [
    "stun",
    "stun:",
    "http:example.org",
    "stun://example.org",
    "stun:example.org?transport=udp",
    "turn:example.org?transport=sctp",
    "turn:example.org?",
    "turns:example.org?transport=udp",
    "stun:example.org:0",
    "stun:example.org:65536",
    "stun:example.org:+80",
    "stun:2001:db8::1",
    "stun:[192.0.2.1]",
    "stun:[2001:db8::1",
    "stun:[2001:db8::1]80",
    "stun:a%2",
    "stun:ex ample.org",
];

#[test]
fn no_urls(rt: HostRuntime) {
    for text in &NO_URLS {
        assert!(rt; server_url(text).is_none(), "{text}");
    }
}
