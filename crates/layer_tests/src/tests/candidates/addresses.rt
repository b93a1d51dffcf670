//! Which addresses are public: the first and the last address of each range that is not, and the addresses next to it.

use is_candidate::candidate::address::is_public;
use std::net::IpAddr;

/// Whether the text is an address, and this is whether it is public.
fn is_so(text: &str, public: bool) -> bool {
    match text.parse::<IpAddr>() {
        Ok(ip) => is_public(ip) == public,
        Err(_) => false,
    }
}

/// Private (RFC 1918), shared (RFC 6598), loopback and link-local addresses, and those next to them.
static V4: [(&str, bool); 28] = [
    ("9.255.255.255", true),
    ("10.0.0.0", false),
    ("10.255.255.255", false),
    ("11.0.0.0", true),
    ("172.15.255.255", true),
    ("172.16.0.0", false),
    ("172.31.255.255", false),
    ("172.32.0.0", true),
    ("192.167.255.255", true),
    ("192.168.0.0", false),
    ("192.168.255.255", false),
    ("192.169.0.0", true),
    ("100.63.255.255", true),
    ("100.64.0.0", false),
    ("100.127.255.255", false),
    ("100.128.0.0", true),
    ("126.255.255.255", true),
    ("127.0.0.0", false),
    ("127.0.0.1", false),
    ("127.255.255.255", false),
    ("128.0.0.0", true),
    ("169.253.255.255", true),
    ("169.254.0.0", false),
    ("169.254.255.255", false),
    ("169.255.0.0", true),
    // only the octets of the one range count
    ("11.168.0.0", true),
    ("192.16.0.0", true),
    ("172.254.0.0", true),
];

#[test]
fn of_ipv4(rt: HostRuntime) {
    for (text, public) in &V4 {
        assert!(rt; is_so(text, *public), "{text}");
    }
}

/// Global unicast addresses are those of 2000::/3 (RFC 4291, section 2.4).
static V6: [(&str, bool); 9] = [
    ("1fff:ffff::", false),
    ("2000::", true),
    ("2001:db8::1", true),
    ("3fff:ffff::", true),
    ("4000::", false),
    ("fd00::1", false),
    ("fe80::1", false),
    ("::1", false),
    ("::ffff:192.0.2.1", false),
];

#[test]
fn of_ipv6(rt: HostRuntime) {
    for (text, public) in &V6 {
        assert!(rt; is_so(text, *public), "{text}");
    }
}
