//! A TURN client with the socket that it is of.

ghost use Rattle.std.specs.Prelude.{◌≡◌};
ghost use Rattle.std.specs.Option.{option_map};
ghost use Rattle.is_turn.specs.Receipts.{received_view};
ghost use Rattle.is_turn.specs.OneRelay.{is_at, is_of, has_event, has_packet, is_due_at, is_over, is_asking, started_relay, arrived_view, passed, relayed_after, polled_as, sent_as};
ghost use Rattle.is_turn.specs.OneRelay.{TakesDatagram, TakesPacket, PollsRelay, RelayTimesOut, ReportsEvent, PermitsPeer, Probes, Closes};
ghost use Rattle.is_turn.specs.AllRelays.{is_serving, LosesAt};

use crate::lease::same_address;
use crate::session::{Allocation, Phase};
use crate::turn::{TurnClient, TurnEvent, TurnReceived};
use is_proto::{Instant, Sha1HmacProvider, StunError};
use is_stun::stun::TransId;
use rand_core::Rng;
use std::net::SocketAddr;

/// A datagram that arrived: at a socket, or at a relayed address.
#[derive(Clone, Copy, Debug, PartialEq, Eq)]
pub struct Datagram<'a> {
    pub source: SocketAddr,
    pub destination: SocketAddr,
    pub contents: &'a [u8],
}

/// A packet at the front of the caller's buffer.
#[derive(Clone, Copy, Debug, PartialEq, Eq)]
pub struct Outbound {
    /// The socket that sends it.
    pub local: SocketAddr,
    pub server: SocketAddr,
    pub len: usize,
}

/// Where a packet goes.
#[derive(Clone, Copy, Debug, PartialEq, Eq)]
pub enum Outgoing {
    /// The packet's source is no relayed address: it goes as it is.
    AsItIs,
    /// Through a server: the buffer has what to send.
    Through(Outbound),
    /// The relayed address is gone, or no packet goes from it to this peer.
    Nowhere,
}

/// A client, and the socket that it is of.
#[derive(Drop)]
pub(crate) struct Relay<H> {
    pub(crate) local: SocketAddr,
    pub(crate) client: TurnClient<H>,
    /// The relayed address, once it was reported.
    pub(crate) relayed: Option<SocketAddr>,
}

/// Returns data of a peer as if it came to the relayed address.
fn passed<'a>(received: TurnReceived<'a>, allocation: Option<Allocation>) -> Option<Datagram<'a>>
    ensures { option_map arrived_view result ≡ passed (received_view received.entry) allocation }
{
    match (received, allocation) {
        (TurnReceived::Data(source, contents), Some(allocation)) => Some(Datagram {
            source,
            destination: allocation.relayed,
            contents,
        }),
        _ => None,
    }
}

/// Returns the relayed address after an event.
fn relayed_after(event: Option<TurnEvent>, relayed: Option<SocketAddr>) -> Option<SocketAddr>
    ensures { result ≡ relayed_after event relayed }
{
    match event {
        Some(TurnEvent::Allocated(allocation)) => Some(allocation.relayed),
        _ => relayed,
    }
}

fn polled_as(
    local: SocketAddr,
    server: SocketAddr,
    written: Result<Option<usize>, StunError>,
) -> Result<Option<Outbound>, StunError>
    ensures { result ≡ polled_as local server written }
{
    match written {
        Ok(Some(len)) => Ok(Some(Outbound { local, server, len })),
        Ok(None) => Ok(None),
        Err(error) => Err(error),
    }
}

fn sent_as(
    local: SocketAddr,
    server: SocketAddr,
    written: Result<Option<usize>, StunError>,
) -> Result<Outgoing, StunError>
    ensures { result ≡ sent_as local server written }
{
    match written {
        Ok(Some(len)) => Ok(Outgoing::Through(Outbound { local, server, len })),
        Ok(None) => Ok(Outgoing::Nowhere),
        Err(error) => Err(error),
    }
}

impl<H: Sha1HmacProvider> Relay<H> {
    /// Starts a client of a socket.
    pub(crate) fn new(now: Instant, local: SocketAddr, client: TurnClient<H>) -> Relay<H>
        ensures { result ≡ started_relay now local client }
    {
        let mut client = client;
        client.start(now);
        Relay {
            local,
            client,
            relayed: None,
        }
    }

    // ---- which one it is

    /// Whether a datagram of this socket, from this server, is the client's.
    pub(crate) fn is_at(&self, local: SocketAddr, source: SocketAddr) -> bool
        ensures { result ≡ is_at local source self.now }
    {
        same_address(self.local, local) && same_address(self.client.session.server, source)
    }

    /// Whether a packet with this source goes through the client.
    pub(crate) fn is_of(&self, source: SocketAddr) -> bool
        ensures { result ≡ is_of source self.now }
    {
        match self.relayed {
            Some(relayed) => same_address(relayed, source),
            None => false,
        }
    }

    pub(crate) fn has_packet(&self) -> bool
        ensures { result ≡ has_packet self.now }
    {
        self.client.has_packet()
    }

    pub(crate) fn has_event(&self) -> bool
        ensures { result ≡ has_event self.now }
    {
        self.client.next_event().is_some()
    }

    /// Whether the client ended, and that was reported.
    pub(crate) fn is_over(&self) -> bool
        ensures { result ≡ is_over self.now }
    {
        self.client.session.phase == Phase::Ended && !self.has_event()
    }

    /// Whether the client has this socket and server, and is not over.
    pub(crate) fn is_serving(&self, local: SocketAddr, server: SocketAddr) -> bool
        ensures { result ≡ is_serving local server self.now }
    {
        self.is_at(local, server) && !self.is_over()
    }

    /// Whether the client waits for its first answer, or what that said was not reported yet.
    pub(crate) fn is_asking(&self) -> bool
        ensures { result ≡ is_asking self.now }
    {
        self.relayed.is_none() && (self.client.session.phase == Phase::Asking || self.has_event())
    }

    /// Whether the client's time has come.
    pub(crate) fn is_due_at(&self, time: Instant) -> bool
        ensures { result ≡ is_due_at time self.now }
    {
        match self.client.poll_timeout() {
            Some(due) => due <= time,
            None => false,
        }
    }

    // ---- calls

    /// Takes a datagram of the server. Returns data of a peer.
    pub(crate) fn receive<'a>(&mut self, now: Instant, bytes: &'a [u8]) -> Option<Datagram<'a>>
        ensures { TakesDatagram (λ p. H.mac p) now bytes.now (option_map arrived_view result) self.old self.new }
    {
        let server = self.client.session.server;
        let allocation = self.client.session.allocation;
        let received = self.client.receive(now, server, bytes);
        passed(received, allocation)
    }

    /// Writes a packet from the relayed address to a peer, as it goes to the server.
    pub(crate) fn send(
        &mut self,
        now: Instant,
        peer: SocketAddr,
        contents: &[u8],
        id: &TransId,
        buf: &mut [u8],
    ) -> Result<Outgoing, StunError>
        ensures { TakesPacket now peer contents.now id.now buf.old buf.new result self.old self.new }
    {
        let server = self.client.session.server;
        let written = self.client.send(now, peer, contents, id, buf);
        sent_as(self.local, server, written)
    }

    pub(crate) fn poll_transmit(&mut self, buf: &mut [u8]) -> Result<Option<Outbound>, StunError>
        ensures { PollsRelay (λ p. H.mac p) buf.old buf.new result self.old self.new }
    {
        let server = self.client.session.server;
        let written = self.client.poll_transmit(buf);
        polled_as(self.local, server, written)
    }

    pub(crate) fn poll_event(&mut self) -> Option<TurnEvent>
        ensures { ReportsEvent result self.old self.new }
    {
        let event = self.client.poll_event();
        self.relayed = relayed_after(event, self.relayed);
        event
    }

    pub(crate) fn handle_timeout<R: Rng>(&mut self, now: Instant, rng: &mut R)
        ensures { RelayTimesOut now (R.stream rng.old) (R.stream rng.new) self.old self.new }
    {
        self.client.handle_timeout(now, rng);
    }

    pub(crate) fn permit(&mut self, now: Instant, peer: SocketAddr) -> bool
        ensures { PermitsPeer now peer result self.old self.new }
    {
        self.client.permit(now, peer)
    }

    pub(crate) fn probe(&mut self, now: Instant)
        ensures { Probes now self.old self.new }
    {
        self.client.probe(now);
    }

    pub(crate) fn close(&mut self, now: Instant)
        ensures { Closes now self.old self.new }
    {
        self.client.close(now);
    }

    /// A socket is gone: the client ends if it is the client's.
    pub(crate) fn lose_of(&mut self, local: SocketAddr)
        ensures { LosesAt local self.old self.new }
    {
        if same_address(self.local, local) {
            self.client.lose();
        }
    }
}
