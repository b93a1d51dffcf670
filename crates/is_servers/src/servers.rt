//! All STUN and TURN clients of a program.

ghost use Rattle.std.specs.Prelude.{◌≡◌, [], MatchResult};
ghost use Rattle.is_servers.specs.Servers.{mappings_of, udp_of, tcp_of, IsSame, AddsStun, AddsTurn, AsksPermissions, ProbesAll, ClosesAll, Loses, next_time, is_gathering};
ghost use Rattle.is_turn.specs.Relays.{relay_added};
ghost use Rattle.is_turn.specs.OneRelay.{started_relay, is_over};
ghost use Rattle.is_servers.specs.Servers.{turn_added};

use crate::mappings::{Mappings, earlier_time};
use crate::transport::Transport;
use is_proto::{Instant, Sha1HmacProvider};
use is_turn::{Relays, TurnClient};
use std::alloc::{AllocError, Global};
use std::net::SocketAddr;

/// All STUN and TURN clients of a program, over UDP and TCP: of a socket or connection and a server one of each kind.
///
/// It has no socket, no clock and no random source. Call `handle_timeout` at the time of `poll_timeout`; then send what `poll_transmit`
/// writes, and take what `poll_event` returns, until both return `None`.
#[derive(Drop)]
pub struct Servers<H> {
    /// The STUN clients, over UDP.
    pub(crate) mappings: Mappings,
    /// The TURN clients over UDP.
    pub(crate) udp: Relays<H>,
    /// The TURN clients over TCP and TLS.
    pub(crate) tcp: Relays<H>,
}

/// Adds a client and starts it, unless one that is not over has this socket and server.
fn add_to<H: Sha1HmacProvider + Drop>(
    relays: &mut Relays<H>,
    now: Instant,
    local: SocketAddr,
    client: TurnClient<H>,
) -> Result<(), AllocError>
    ensures { MatchResult result
        (λ _. relays.new.relays.items ≡ turn_added now local client relays.old.relays.items)
        (λ e. relays.new.relays.items ≡ relays.old.relays.items) }
{
    if relays.serves(local, client.server()) {
        return Ok(());
    }
    match relays.add(now, local, client) {
        Ok(_) => Ok(()),
        Err(error) => Err(error),
    }
}

impl<H: Sha1HmacProvider> Servers<H> {
    /// No clients.
    pub fn new(alloc: Global) -> Servers<H>
        ensures mappings { mappings_of result ≡ [] }
        ensures udp { udp_of result ≡ [] }
        ensures tcp { tcp_of result ≡ [] }
    {
        Servers {
            mappings: Mappings::new(alloc),
            udp: Relays::new(alloc),
            tcp: Relays::new(alloc),
        }
    }

    // ---- clients

    /// Adds a STUN client: a socket at a server, over UDP. Nothing is changed if the socket has one at this server that has not ended, or
    /// on an error.
    pub fn add_stun(
        &mut self,
        now: Instant,
        local: SocketAddr,
        server: SocketAddr,
    ) -> Result<(), AllocError>
        ensures { MatchResult result (λ _. AddsStun now local server self.old self.new) (λ e. IsSame self.old self.new) }
    {
        self.mappings.add(now, local, server)
    }

    /// Adds a TURN client of a socket or connection, and starts it. Nothing is changed if there is one at the same server whose end was
    /// not polled yet: a server makes one allocation for a socket or connection (RFC 8656, section 2.2). Nor is on an error.
    pub fn add_turn(
        &mut self,
        now: Instant,
        transport: Transport,
        local: SocketAddr,
        client: TurnClient<H>,
    ) -> Result<(), AllocError>
    where
        H: Drop,
        ensures { MatchResult result (λ _. AddsTurn now transport local client self.old self.new) (λ e. IsSame self.old self.new) }
    {
        match transport {
            Transport::Udp => add_to(&mut self.udp, now, local, client),
            Transport::Tcp => add_to(&mut self.tcp, now, local, client),
        }
    }

    /// Requests the permission of a peer at each TURN client. Those of the other IP version ignore it.
    pub fn permit(&mut self, now: Instant, peer: SocketAddr)
        ensures { AsksPermissions now peer self.old self.new }
    {
        self.udp.permit_each(now, peer);
        self.tcp.permit_each(now, peer);
    }

    /// Each TURN client asks its server now whether it has the allocation: call it when the network may have changed.
    pub fn probe(&mut self, now: Instant)
        ensures { ProbesAll now self.old self.new }
    {
        self.udp.probe_each(now);
        self.tcp.probe_each(now);
    }

    /// Each client ends: TURN clients free their allocations. An `Ended` of each follows.
    pub fn close(&mut self, now: Instant)
        ensures { ClosesAll now self.old self.new }
    {
        self.mappings.close();
        self.udp.close_each(now);
        self.tcp.close_each(now);
    }

    /// A socket or connection is gone: its clients end at once, without a packet. An `Ended` of each follows: `Failed` if it never had an
    /// answer of use, `Closed` if it was closed before, else `Lost`.
    pub fn lose(&mut self, transport: Transport, local: SocketAddr)
        ensures { Loses transport local self.old self.new }
    {
        match transport {
            Transport::Udp => {
                self.mappings.lose(local);
                self.udp.lose(local);
            }
            Transport::Tcp => self.tcp.lose(local),
        }
    }

    // ---- questions

    /// Returns when to call `handle_timeout`: the earliest time of a client.
    pub fn poll_timeout(&self) -> Option<Instant>
        ensures { result ≡ next_time self.now }
    {
        let turn = earlier_time(self.udp.poll_timeout(), self.tcp.poll_timeout());
        earlier_time(self.mappings.poll_timeout(), turn)
    }

    /// Whether a client waits for its first answer, or what that said was not polled yet.
    pub fn is_gathering(&self) -> bool
        ensures { result ≡ is_gathering self.now }
    {
        self.mappings.is_gathering() || self.udp.is_gathering() || self.tcp.is_gathering()
    }
}
