//! The types that the caller passes in and gets back: protocols, address texts, times, packets, and the provider of
//! HMAC-SHA1.

ghost use Rattle.std.specs.Prelude.{◌≡◌, ◌+◌, ◌-◌, ◌*◌, ◌/◌, ◌<◌, ◌≤◌, ℕ, List, min, Some, MatchOption};
ghost use Rattle.is_proto.specs.Macs.{joined};
ghost use Rattle.is_proto.specs.Times.{MAX, MILLISECOND, later};
ghost use Rattle.is_proto.specs.Sockets.{ReadsSocketText, plain_socket_text};
ghost use Rattle.is_proto.specs.Words.{protocol_word, tcp_type_word, ReadsProtocol, ReadsTcpType};

use crate::hmac_provider::HmacKey;
use std::fmt;
use std::net::SocketAddr;

/// The transport of a candidate and of its packets.
#[derive(Clone, Copy, Debug, PartialEq, Eq, Hash)]
pub enum Protocol {
    Udp,
    Tcp,
    /// TCP, with a pseudo-TLS handshake first.
    SslTcp,
    /// TURN over TLS.
    Tls,
}

impl Protocol {
    /// Parses a protocol, without regard to ASCII case: `udp`, `tcp`, `ssltcp` or `tls`. Returns `None` for every other
    /// text, also for one of these words with white space around it.
    pub fn from_text(text: &str) -> Option<Self>
        ensures { ReadsProtocol text.now result }
    {
        if text.eq_ignore_ascii_case("udp") {
            Some(Protocol::Udp)
        } else if text.eq_ignore_ascii_case("tcp") {
            Some(Protocol::Tcp)
        } else if text.eq_ignore_ascii_case("ssltcp") {
            Some(Protocol::SslTcp)
        } else if text.eq_ignore_ascii_case("tls") {
            Some(Protocol::Tls)
        } else {
            None
        }
    }
}

impl fmt::Display for Protocol {
    ghost output = { λ p. Some (protocol_word p) };

    fn fmt<W: fmt::Write>(&self, f: &mut fmt::Formatter<W>) -> fmt::Result {
        f.write_str(match self {
            Protocol::Udp => "udp",
            Protocol::Tcp => "tcp",
            Protocol::SslTcp => "ssltcp",
            Protocol::Tls => "tls",
        })
    }
}

/// Which side of a TCP candidate opens the connection (RFC 6544, section 4.5).
#[derive(Clone, Copy, Debug, PartialEq, Eq, Hash)]
pub enum TcpType {
    Active,
    Passive,
    /// Both sides at once.
    So,
}

impl TcpType {
    /// Parses a TCP role, without regard to ASCII case: `active`, `passive` or `so`. Returns `None` for every other
    /// text.
    pub fn from_text(text: &str) -> Option<Self>
        ensures { ReadsTcpType text.now result }
    {
        if text.eq_ignore_ascii_case("active") {
            Some(TcpType::Active)
        } else if text.eq_ignore_ascii_case("passive") {
            Some(TcpType::Passive)
        } else if text.eq_ignore_ascii_case("so") {
            Some(TcpType::So)
        } else {
            None
        }
    }
}

impl fmt::Display for TcpType {
    ghost output = { λ t. Some (tcp_type_word t) };

    fn fmt<W: fmt::Write>(&self, f: &mut fmt::Formatter<W>) -> fmt::Result {
        f.write_str(match self {
            TcpType::Active => "active",
            TcpType::Passive => "passive",
            TcpType::So => "so",
        })
    }
}

/// A time, in whole nanoseconds since an origin that the caller chooses.
#[derive(Clone, Copy, Debug, PartialEq, Eq, PartialOrd, Ord)]
pub struct Instant(pub u64);

impl Instant {
    /// Returns the time since `earlier`, or zero if `earlier` is later.
    pub fn duration_since(self, earlier: Instant) -> Duration
        ensures { result.0 ≡ self.0 - earlier.0 }
    {
        Duration(self.0.saturating_sub(earlier.0))
    }

    /// Returns the time that is later by `by`, or the last `Instant` if that overflows.
    pub fn saturating_add(self, by: Duration) -> Instant
        ensures { result.0 ≡ later self.0 by.0 }
    {
        Instant(self.0.saturating_add(by.0))
    }

    /// Returns the time that is earlier by `by`, or `None` if there is none.
    pub fn checked_sub(self, by: Duration) -> Option<Instant>
        ensures { MatchOption result (self.0 < by.0) (λ earlier. earlier.0 + by.0 ≡ self.0) }
    {
        self.0.checked_sub(by.0).map(Instant)
    }
}

/// Returns the time since the right operand, or zero if that is later.
impl std::ops::Sub<Instant> for Instant {
    type Output = Duration;

    ghost can_sub = { λ _ _. Unit {0} };

    ghost sub_gives = { λ a b r. r.0 ≡ a.0 - b.0 };

    fn sub(self, earlier: Instant) -> Duration {
        self.duration_since(earlier)
    }
}

/// Returns the time that is later by the duration, or the last `Instant` if that overflows.
impl std::ops::Add<Duration> for Instant {
    type Output = Instant;

    ghost can_add = { λ _ _. Unit {0} };

    ghost add_gives = { λ a b r. r.0 ≡ later a.0 b.0 };

    fn add(self, by: Duration) -> Instant {
        self.saturating_add(by)
    }
}

/// A duration, in whole nanoseconds.
#[derive(Clone, Copy, Debug, PartialEq, Eq, PartialOrd, Ord)]
pub struct Duration(pub u64);

impl Duration {
    /// Returns a duration of this many milliseconds, or the longest duration if that overflows.
    pub fn from_millis(milliseconds: u64) -> Duration
        ensures { result.0 ≡ min (milliseconds * MILLISECOND) MAX }
    {
        Duration(milliseconds.saturating_mul(NANOS_IN_MILLI))
    }

    /// Returns the whole milliseconds of the duration.
    pub fn as_millis(self) -> u64
        ensures whole { result ≡ self.0 / MILLISECOND }
        ensures fits { result ≤ MAX / MILLISECOND }
    {
        self.0 / NANOS_IN_MILLI
    }

    /// Returns the sum of both durations, or the longest duration if that overflows.
    pub fn saturating_add(self, more: Duration) -> Duration
        ensures { result.0 ≡ later self.0 more.0 }
    {
        Duration(self.0.saturating_add(more.0))
    }
}

const NANOS_IN_MILLI: u64 = 1_000_000;

/// A socket address as text, without flow information, scope or zone: `192.0.2.1:80`, `[2001:db8::1]:80`.
#[derive(Clone, Copy, Debug, PartialEq, Eq)]
pub struct SocketText(pub SocketAddr);

impl SocketText {
    /// Parses an address that names no zone; returns `None` for every other text. IPv4 numbers have no leading zeros.
    /// An IPv6 address is in brackets, in any form of RFC 4291, section 2.2. The port has only decimal digits, with or
    /// without leading zeros, and is at most 65535.
    pub fn from_text(text: &str) -> Option<Self>
        ensures { ReadsSocketText text.now result }
    {
        if text.as_bytes().contains(&b'%') {
            return None;
        }
        match text.parse::<SocketAddr>() {
            Ok(address) => Some(SocketText(address)),
            Err(_) => None,
        }
    }
}

/// IPv6 addresses are written as RFC 5952, sections 4 to 6, requires: in lower case without leading zeros, with `::`
/// for the first of the longest runs of two zero groups or more, and an IPv4-mapped one as `::ffff:` and its IPv4
/// address.
impl fmt::Display for SocketText {
    ghost output = { λ t. Some (plain_socket_text t.0) };

    fn fmt<W: fmt::Write>(&self, f: &mut fmt::Formatter<W>) -> fmt::Result {
        match self.0 {
            SocketAddr::V4(address) => write!(f, "{address}"),
            SocketAddr::V6(address) => {
                let ip = *address.ip();
                let port = address.port();
                write!(f, "[{ip}]:{port}")
            }
        }
    }
}

/// A packet to send, as `poll_transmit` returns it.
#[derive(Debug, PartialEq, Eq, Drop)]
pub struct Transmit {
    /// The protocol of the socket to send it on.
    pub proto: Protocol,
    /// The local address to send it from: the base of a local candidate.
    pub source: SocketAddr,
    /// The address to send it to.
    pub destination: SocketAddr,
    /// The bytes: one STUN message.
    pub contents: Vec<u8>,
}

/// Computes HMAC-SHA1, or, in a test, another function of a key and a text.
pub trait Sha1HmacProvider {
    /// The function that the provider computes: its arguments are the provider, the key and the text.
    ghost mac: { Self → List ℕ → List ℕ → List ℕ };

    /// Returns the HMAC-SHA1 of the payloads, joined, under the key.
    fn sha1_hmac(&self, key: &[u8], payloads: &[&[u8]]) -> [u8; 20]
        ensures { result ≡ mac self.now key.now (joined payloads.now) };

    /// Computes the same function, with a precomputed key at hand: of this key or of any other. A provider that
    /// computes HMAC-SHA1 may save that work; the default ignores it.
    fn sha1_hmac_kept(&self, _kept: &HmacKey, key: &[u8], payloads: &[&[u8]]) -> [u8; 20]
        ensures { result ≡ mac self.now key.now (joined payloads.now) }
    {
        self.sha1_hmac(key, payloads)
    }
}
