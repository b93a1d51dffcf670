//! What a call emits: at most one packet, and up to two selected paths; the agent's part: `is_agent::emitted`.

ghost use Rattle.std.specs.Prelude.{◌≡◌};
ghost use Rattle.is_rules.specs.Emitted.{nothing_emitted, issued_only, selected_only, issued_as, emitted_by, reversed};

use is_proto::Protocol;
use is_stun::stun::{Class, TransId};
use std::net::SocketAddr;

/// The path of a packet, or of a pair: from the local base to the remote address.
#[derive(Clone, Copy, Debug, PartialEq, Eq)]
pub struct Path {
    /// The transport protocol.
    pub proto: Protocol,
    /// Where packets are sent from.
    pub source: SocketAddr,
    /// Where packets are sent to.
    pub destination: SocketAddr,
}

/// A packet that was issued.
#[derive(Clone, Copy, Debug, PartialEq, Eq)]
pub struct Issued {
    /// The path of the packet.
    pub path: Path,
    /// The class of the packet's message.
    pub class: Class,
    /// The transaction ID of the packet's message.
    pub id: TransId,
}

impl Issued {
    /// An issued packet with this path, class and transaction ID.
    pub fn new(path: Path, class: Class, id: TransId) -> Issued
        ensures { result ≡ issued_as path class id.0 }
    {
        Issued { path, class, id }
    }
}

impl Path {
    /// The reverse path.
    pub fn reversed(self) -> Path
        ensures { result ≡ reversed self }
    {
        Path {
            proto: self.proto,
            source: self.destination,
            destination: self.source,
        }
    }
}

/// What one call emitted: at most one packet and two paths.
#[derive(Clone, Copy, Debug, PartialEq, Eq)]
pub struct Emitted {
    /// The packet that the call issued.
    pub issued: Option<Issued>,
    /// The paths that the call selected (`NominatedSend`), in order.
    pub selected_paths: [Option<Path>; 2],
}

impl Emitted {
    /// Nothing issued, and no path selected.
    pub fn nothing() -> Emitted
        ensures { result ≡ nothing_emitted }
    {
        Emitted {
            issued: None,
            selected_paths: [None, None],
        }
    }

    /// Nothing issued, and this path selected if there is one.
    pub fn selected_only(path: Option<Path>) -> Emitted
        ensures { result ≡ selected_only path }
    {
        Emitted {
            issued: None,
            selected_paths: [path, None],
        }
    }

    /// This packet issued if there is one, and these paths selected.
    pub fn by(issued: Option<Issued>, first: Option<Path>, second: Option<Path>) -> Emitted
        ensures { result ≡ emitted_by issued first second }
    {
        if first.is_none() && second.is_none() {
            return Emitted {
                issued,
                selected_paths: [None, None],
            };
        }
        let selected_paths = match second {
            None => [first, None],
            Some(_) if first.is_none() => [second, None],
            Some(_) => [first, second],
        };
        Emitted {
            issued,
            selected_paths,
        }
    }

    /// This packet issued, and no path selected.
    pub fn issued_only(path: Path, class: Class, id: TransId) -> Emitted
        ensures { result ≡ issued_only path class id.0 }
    {
        Emitted {
            issued: Some(Issued { path, class, id }),
            selected_paths: [None, None],
        }
    }
}
