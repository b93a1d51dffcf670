//! Words for protocols and TCP roles, and owned texts.

use super::is_text;
use is_proto::{Protocol, TcpType, Text};
use std::alloc::Global;
use std::test::Fail;

/// The words of protocols.
static PROTOCOLS: [(&str, Protocol); 4] = [
    ("udp", Protocol::Udp),
    ("tcp", Protocol::Tcp),
    ("ssltcp", Protocol::SslTcp),
    ("tls", Protocol::Tls),
];

/// Words that are no protocol. U+017F, the long s, is an s without regard to case in Unicode, but not in ASCII.
static NO_PROTOCOLS: [&str; 9] = [
    "",
    "ud",
    "udpx",
    " udp",
    "udp ",
    "ssl",
    "ssl-tcp",
    "tl\u{17f}",
    "dtls",
];

/// Words of protocols in other cases.
static PROTOCOLS_IN_CAPITALS: [(&str, Protocol); 4] = [
    ("UDP", Protocol::Udp),
    ("Udp", Protocol::Udp),
    ("uDP", Protocol::Udp),
    ("SSLtcp", Protocol::SslTcp),
];

/// Whether the word is read as this protocol, and the protocol printed as this word.
fn is_protocol(alloc: Global, word: &str, protocol: Protocol) -> bool {
    Protocol::from_text(word) == Some(protocol) && is_text(protocol.to_string(alloc), word)
}

#[test]
fn protocols(rt: HostRuntime) {
    for (word, protocol) in &PROTOCOLS {
        assert!(rt; is_protocol(rt.alloc(), word, *protocol));
    }
}

#[test]
fn protocols_in_capitals(rt: HostRuntime) {
    for (word, protocol) in &PROTOCOLS_IN_CAPITALS {
        assert!(rt; Protocol::from_text(word) == Some(*protocol));
    }
}

#[test]
fn no_protocols(rt: HostRuntime) {
    for word in &NO_PROTOCOLS {
        assert!(rt; Protocol::from_text(word).is_none(), "{word}");
    }
}

/// The words of TCP roles.
static ROLES: [(&str, TcpType); 3] = [
    ("active", TcpType::Active),
    ("passive", TcpType::Passive),
    ("so", TcpType::So),
];

/// Words that are no TCP role.
static NO_ROLES: [&str; 6] = ["", "s", "soo", "act", "inactive", "\u{17f}o"];

/// Words of TCP roles in other cases.
static ROLES_IN_CAPITALS: [(&str, TcpType); 3] = [
    ("Active", TcpType::Active),
    ("PASSIVE", TcpType::Passive),
    ("sO", TcpType::So),
];

/// Whether the word is read as this role, and the role printed as this word.
fn is_role(alloc: Global, word: &str, role: TcpType) -> bool {
    TcpType::from_text(word) == Some(role) && is_text(role.to_string(alloc), word)
}

#[test]
fn tcp_roles(rt: HostRuntime) {
    for (word, role) in &ROLES {
        assert!(rt; is_role(rt.alloc(), word, *role));
    }
}

#[test]
fn tcp_roles_in_capitals(rt: HostRuntime) {
    for (word, role) in &ROLES_IN_CAPITALS {
        assert!(rt; TcpType::from_text(word) == Some(*role));
    }
}

#[test]
fn no_tcp_roles(rt: HostRuntime) {
    for word in &NO_ROLES {
        assert!(rt; TcpType::from_text(word).is_none(), "{word}");
    }
}

#[test]
fn texts(rt: HostRuntime) -> Result<(), Fail> {
    let text = Text::from_str(rt.alloc(), "r\u{e9}sum\u{e9}")?;
    assert!(rt;
        text.as_str() == "r\u{e9}sum\u{e9}"
            && text == text.clone()?
            && text != Text::from_str(rt.alloc(), "resume")?
            && is_text(text.to_string(rt.alloc()), "r\u{e9}sum\u{e9}")
    );
    let string = text.into_string();
    assert!(rt; Text::new(string).as_str() == "r\u{e9}sum\u{e9}");
    Ok(())
}
