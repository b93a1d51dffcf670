//! Discovered sources of packets, and texts that must be equal; the agent's part: `is_agent::accepting`.

ghost use Rattle.std.specs.Prelude.{◌≡◌, ◌↔◌, IsTrue};
ghost use Rattle.std.specs.List.{list_any};
ghost use Rattle.is_rules.specs.Accepting.{is_dropped, is_source};

use crate::emitted::{Emitted, Path};
use is_candidate::candidate::address::{same_address, same_protocol};
use is_proto::Protocol;
use is_stun::stun::Class;
use std::net::SocketAddr;

/// A protocol and an address from which authentic packets were received.
#[derive(Clone, Copy, Debug, PartialEq, Eq)]
pub struct Source {
    /// The protocol.
    pub proto: Protocol,
    /// The address.
    pub address: SocketAddr,
}

/// The accepted message is a request that is dropped: the peer is known, and there is no response.
pub fn is_dropped(class: Class, knows_peer: bool, emitted: &Emitted) -> bool
    ensures { result ≡ is_dropped class knows_peer emitted.now }
{
    matches!(class, Class::Request) && knows_peer && emitted.issued.is_none()
}

fn is_source(source: &Source, path: &Path) -> bool
    ensures { result ≡ is_source path.now source.now }
{
    same_address(source.address, path.source) && same_protocol(source.proto, path.proto)
}

/// The source of a packet on this path was discovered before.
pub fn is_discovered(seen: &[Source], path: &Path) -> bool
    ensures { result ≡ list_any (is_source path.now) seen.now }
{
    seen.iter().any(|source| is_source(source, path))
}

/// Two texts are equal.
pub fn is_same(a: &str, b: &str) -> bool
    ensures { IsTrue result ↔ (a.now ≡ b.now) }
{
    a == b
}
