//! Address texts: each parsing rule next to the nearest input that fails, and each printing rule.

use super::is_text;
use is_proto::SocketText;
use std::alloc::Global;
use std::net::{IpAddr, Ipv4Addr, Ipv6Addr, SocketAddr};
use std::test::Fail;

/// Whether the text encodes an address that is printed so.
fn prints(alloc: Global, text: &str, want: &str) -> bool {
    match SocketText::from_text(text) {
        Some(address) => is_text(address.to_string(alloc), want),
        None => false,
    }
}

fn v4(a: u8, b: u8, c: u8, d: u8, port: u16) -> Option<SocketText> {
    Some(SocketText(SocketAddr::new(IpAddr::V4(Ipv4Addr::new(a, b, c, d)), port)))
}

fn v6(segments: [u16; 8], port: u16) -> Option<SocketText> {
    Some(SocketText(SocketAddr::new(IpAddr::V6(Ipv6Addr::from(segments)), port)))
}
/// Texts that are no IPv4 address with a port.
static NOT_IPV4: [&str; 12] = [
    "",
    "192.0.2.1",
    "192.0.2:80",
    "192.0.2.1.1:80",
    "192.0.2.256:80",
    "192.0.2.01:80",
    "192.0.2.:80",
    "192.0.2.0x1:80",
    "192.0.2.1 :80",
    " 192.0.2.1:80",
    "192.0.2.1:80 ",
    "[192.0.2.1]:80",
];

#[test]
fn ipv4_is_read(rt: HostRuntime) {
    assert!(rt;
        SocketText::from_text("192.0.2.1:80") == v4(192, 0, 2, 1, 80)
            && SocketText::from_text("255.255.255.255:0") == v4(255, 255, 255, 255, 0)
    );
    for text in &NOT_IPV4 {
        assert!(rt; SocketText::from_text(text).is_none(), "{text}");
    }
}
/// Addresses whose port is no number of 16 bits.
static NO_PORTS: [&str; 5] = [
    "192.0.2.1:65536",
    "192.0.2.1:",
    "192.0.2.1:+80",
    "192.0.2.1:-1",
    "192.0.2.1:8a",
];

#[test]
fn ports_are_read(rt: HostRuntime) {
    assert!(rt;
        SocketText::from_text("192.0.2.1:0000080") == v4(192, 0, 2, 1, 80)
            && SocketText::from_text("192.0.2.1:65535") == v4(192, 0, 2, 1, 65535)
    );
    for text in &NO_PORTS {
        assert!(rt; SocketText::from_text(text).is_none(), "{text}");
    }
}
/// Texts that are no IPv6 address with a port.
static NOT_IPV6: [&str; 20] = [
    "1::8:80",
    "[1::8]",
    "[1::8]80",
    "[1::8:80",
    "[]:80",
    "[:]:80",
    "[:::]:80",
    "[1:2:3:4:5:6:7]:80",
    "[1:2:3:4:5:6:7:8:9]:80",
    "[1:2:3:4::5:6:7:8]:80",
    "[1::2::3]:80",
    "[1:2:3:4:5:6:7:]:80",
    "[00001::]:80",
    "[g::]:80",
    "[1:2:3:4:5:6:7:192.0.2.1]:80",
    "[192.0.2.1::]:80",
    "[::192.0.2.1:1]:80",
    "[::192.0.2.01]:80",
    "[fe80::1%1]:80",
    "[fe80::1%eth0]:80",
];

/// IPv6 addresses with port 80, and their segments.
static IPV6: [(&str, [u16; 8]); 9] = [
    ("[1:2:3:4:5:6:7:8]:80", [1, 2, 3, 4, 5, 6, 7, 8]),
    ("[1:2:3:4:5:6:7::]:80", [1, 2, 3, 4, 5, 6, 7, 0]),
    ("[::2:3:4:5:6:7:8]:80", [0, 2, 3, 4, 5, 6, 7, 8]),
    ("[1::8]:80", [1, 0, 0, 0, 0, 0, 0, 8]),
    ("[::]:80", [0, 0, 0, 0, 0, 0, 0, 0]),
    ("[abcd:EF01::]:80", [0xabcd, 0xef01, 0, 0, 0, 0, 0, 0]),
    ("[0001::]:80", [1, 0, 0, 0, 0, 0, 0, 0]),
    (
        "[1:2:3:4:5:6:192.0.2.1]:80",
        [1, 2, 3, 4, 5, 6, 0xc000, 0x0201],
    ),
    ("[::192.0.2.1]:80", [0, 0, 0, 0, 0, 0, 0xc000, 0x0201]),
];

#[test]
fn ipv6_is_read(rt: HostRuntime) {
    for (text, segments) in &IPV6 {
        assert!(rt; SocketText::from_text(text) == v6(*segments, 80), "{text}");
    }
    for text in &NOT_IPV6 {
        assert!(rt; SocketText::from_text(text).is_none(), "{text}");
    }
}

/// Addresses, and how they are printed.
static PRINTED: [(&str, &str); 13] = [
    // 4.1: no leading zeros
    ("[2001:0db8::0001]:80", "[2001:db8::1]:80"),
    // 4.2.1: `::` takes as much as it can
    ("[2001:db8:0:0:0:0:2:1]:80", "[2001:db8::2:1]:80"),
    ("[2001:db8::0:1]:80", "[2001:db8::1]:80"),
    // 4.2.2: no `::` for one group
    ("[2001:db8:0:1:1:1:1:1]:80", "[2001:db8:0:1:1:1:1:1]:80"),
    ("[2001:db8::1:1:1:1:1]:80", "[2001:db8:0:1:1:1:1:1]:80"),
    // 4.2.3: the longest run, and the first of equal ones
    ("[2001:0:0:1:0:0:0:1]:80", "[2001:0:0:1::1]:80"),
    ("[2001:db8:0:0:1:0:0:1]:80", "[2001:db8::1:0:0:1]:80"),
    // 4.3: lower case
    ("[2001:DB8::AAAA]:80", "[2001:db8::aaaa]:80"),
    // 5: an IPv4 address at the end, only for mapped addresses
    ("[::ffff:c000:201]:80", "[::ffff:192.0.2.1]:80"),
    ("[::192.0.2.1]:80", "[::c000:201]:80"),
    ("[64:ff9b::192.0.2.1]:80", "[64:ff9b::c000:201]:80"),
    // 6: in brackets before a port
    ("[::]:0", "[::]:0"),
    // and IPv4
    ("192.0.2.1:00080", "192.0.2.1:80"),
];

/// RFC 5952, sections 4 to 6, whose examples these are.
#[test]
fn ipv6_is_printed(rt: HostRuntime) {
    for (text, want) in &PRINTED {
        assert!(rt; prints(rt.alloc(), text, want));
    }
}

/// Flow information and scope are not printed.
#[test]
fn scopes_are_not_printed(rt: HostRuntime) -> Result<(), Fail> {
    let scoped: SocketAddr = "[fe80::1%7]:80".parse()?;
    assert!(rt; is_text(SocketText(scoped).to_string(rt.alloc()), "[fe80::1]:80"));
    Ok(())
}
