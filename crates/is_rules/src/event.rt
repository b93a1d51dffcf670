//! What an agent reports to its user: events, statistics and the connection state.

ghost use Rattle.std.specs.Prelude.{◌≡◌};
ghost use Rattle.is_rules.specs.Connecting.{is_connected, is_disconnected};

use crate::credentials::IceCreds;
use is_proto::Protocol;
use std::net::SocketAddr;

/// Something that happened to an agent, as `poll_event` returns it.
#[derive(Debug, PartialEq, Eq, Drop)]
pub enum IceAgentEvent {
    /// A session starts, or restarts, with these local credentials (RFC 8445, section 9).
    IceRestart(IceCreds),
    /// The connection state changed to this one.
    IceConnectionStateChange(IceConnectionState),
    /// An authentic packet was received from a source that was not seen since the last ICE restart.
    DiscoveredRecv {
        /// The protocol of the packet.
        proto: Protocol,
        /// Where the packet came from.
        source: SocketAddr,
    },
    /// Media is sent on this path from now on, until the next such event (RFC 8445, section 8.1.1).
    NominatedSend {
        /// The protocol of the socket to send on.
        proto: Protocol,
        /// The local address to send from: the base of a local candidate.
        source: SocketAddr,
        /// Where to send to.
        destination: SocketAddr,
    },
}

/// How far an agent is in connecting.
#[derive(Clone, Copy, Debug, PartialEq, Eq)]
pub enum IceConnectionState {
    /// `handle_timeout` was not called yet.
    New,
    /// Paths are checked, and none is nominated.
    Checking,
    /// A path is nominated, and others are still possible.
    Connected,
    /// A path is nominated, and no other one is possible.
    Completed,
    /// No path is nominated, and none is possible.
    Disconnected,
}

impl IceConnectionState {
    /// Whether media can be sent: Connected or Completed.
    pub fn is_connected(&self) -> bool
        ensures { result ≡ is_connected self.now }
    {
        matches!(
            *self,
            IceConnectionState::Connected | IceConnectionState::Completed
        )
    }

    /// Whether no path is nominated, and none is possible.
    pub fn is_disconnected(&self) -> bool
        ensures { result ≡ is_disconnected self.now }
    {
        matches!(*self, IceConnectionState::Disconnected)
    }
}

/// Counters since the last ICE restart. Each counter stays at 18446744073709551615 once it is there.
#[derive(Clone, Copy, Debug, Default, PartialEq, Eq)]
pub struct IceAgentStats {
    /// Checks that were sent.
    pub bind_request_sent: u64,
    /// Success responses to checks.
    pub bind_success_recv: u64,
    /// Requests that were served.
    pub bind_request_recv: u64,
    /// `DiscoveredRecv` events.
    pub discovered_recv_count: u64,
    /// `NominatedSend` events.
    pub nomination_send_count: u64,
}
