//! The TURN clients of a program, between its sockets and its agents.

ghost use Rattle.std.specs.Prelude.{◌≡◌, [], ◌<◌, IfSome, MatchResult, position, slice_get, vec_len};
ghost use Rattle.std.specs.Option.{option_map};
ghost use Rattle.is_turn.specs.OneRelay.{is_at, is_of, has_event, has_packet, is_due_at, is_over, started_relay, arrived_view, TakesDatagram, TakesPacket, PollsRelay, RelayTimesOut, PermitsPeer, Probes, Closes};
ghost use Rattle.is_turn.specs.Relays.{ChangesAt, relay_added, Receives, Sends, earlier_time, earliest_time, due_relay, TimesOutAt, Polls, ReportsFrom, Reports, Permits, ProbesIn, ClosesIn};

use crate::relay::{Datagram, Outbound, Outgoing, Relay};
use crate::turn::{TurnClient, TurnEvent};
use is_proto::{Instant, Sha1HmacProvider, StunError};
use is_stun::stun::TransId;
use rand_core::Rng;
use std::alloc::{AllocError, Global};
use std::net::SocketAddr;

/// All TURN clients of a program: one for each socket and server at which it needs a relayed address.
///
/// Pass each datagram of a socket to `receive` first, and what that returns to the agent. Pass each packet of the agent to `outgoing`
/// first, and send what that says. A client has an index, which stays its own until its `Ended` was polled.
#[derive(Drop)]
pub struct Relays<H> {
    pub(crate) relays: Vec<Relay<H>>,
}

/// Returns the earlier time.
fn earlier_time(first: Option<Instant>, other: Option<Instant>) -> Option<Instant>
    ensures { result ≡ earlier_time first other }
{
    match (first, other) {
        (Some(first), Some(other)) => Some(Instant(first.0.min(other.0))),
        (Some(first), None) => Some(first),
        (None, other) => other,
    }
}

impl<H: Sha1HmacProvider> Relays<H> {
    pub fn new(alloc: Global) -> Relays<H>
        ensures { result.relays.items ≡ [] }
    {
        Relays {
            relays: Vec::new(alloc),
        }
    }

    // ---- places

    fn place_at(&self, local: SocketAddr, source: SocketAddr) -> Option<usize>
        ensures place { result ≡ position (is_at local source) self.now.relays.items }
        ensures within { IfSome result (λ place. place < vec_len self.now.relays) }
    {
        self.relays
            .iter()
            .position(|relay| relay.is_at(local, source))
    }

    pub(crate) fn place_of(&self, source: SocketAddr) -> Option<usize>
        ensures place { result ≡ position (is_of source) self.now.relays.items }
        ensures within { IfSome result (λ place. place < vec_len self.now.relays) }
    {
        self.relays.iter().position(|relay| relay.is_of(source))
    }

    pub(crate) fn packet_place(&self) -> Option<usize>
        ensures place { result ≡ position has_packet self.now.relays.items }
        ensures within { IfSome result (λ place. place < vec_len self.now.relays) }
    {
        self.relays.iter().position(|relay| relay.has_packet())
    }

    pub(crate) fn event_place(&self) -> Option<usize>
        ensures place { result ≡ position has_event self.now.relays.items }
        ensures within { IfSome result (λ place. place < vec_len self.now.relays) }
    {
        self.relays.iter().position(|relay| relay.has_event())
    }

    fn place_due_at(&self, time: Instant) -> Option<usize>
        ensures place { result ≡ position (is_due_at time) self.now.relays.items }
        ensures within { IfSome result (λ place. place < vec_len self.now.relays) }
    {
        self.relays.iter().position(|relay| relay.is_due_at(time))
    }

    fn place_over(&self) -> Option<usize>
        ensures place { result ≡ position is_over self.now.relays.items }
        ensures within { IfSome result (λ place. place < vec_len self.now.relays) }
    {
        self.relays.iter().position(|relay| relay.is_over())
    }

    // ---- the user

    /// Adds the client of a socket, starts it, and returns its index. The index of a client whose `Ended` was polled is given again.
    /// On an error nothing is changed.
    pub fn add(
        &mut self,
        now: Instant,
        local: SocketAddr,
        client: TurnClient<H>,
    ) -> Result<usize, AllocError>
    where
        H: Drop,
        ensures { MatchResult result
            (λ place. (self.new.relays.items, place)
            ≡ relay_added (position is_over self.old.relays.items) (started_relay now local client) self.old.relays.items)
            (λ e. self.new.relays.items ≡ self.old.relays.items) }
    {
        let relay = Relay::new(now, local, client);
        match self.place_over() {
            Some(place) => {
                self.relays[place] = relay;
                Ok(place)
            }
            None => {
                let place = self.relays.len();
                self.relays.push(relay)?;
                Ok(place)
            }
        }
    }

    /// Returns a client by its index.
    pub fn client(&self, place: usize) -> Option<&TurnClient<H>>
        ensures { option_map (λ c. c.now) result ≡ option_map (λ r. r.client) (slice_get self.now.relays.items place) }
    {
        match self.relays.get(place) {
            Some(relay) => Some(&relay.client),
            None => None,
        }
    }

    /// Requests the permission of a peer at a client. False as `TurnClient::permit` says, or if there is no such client.
    pub fn permit(&mut self, now: Instant, place: usize, peer: SocketAddr) -> bool
        ensures { Permits now place peer self.old.relays.items result self.new.relays.items }
    {
        if place < self.relays.len() {
            self.permit_at(now, place, peer)
        } else {
            false
        }
    }

    pub(crate) fn permit_at(&mut self, now: Instant, place: usize, peer: SocketAddr) -> bool
        requires { place < vec_len self.old.relays }
        ensures { ChangesAt place (PermitsPeer now peer result) self.old.relays.items self.new.relays.items }
    {
        self.relays[place].permit(now, peer)
    }

    /// A client asks its server now whether it has the allocation.
    pub fn probe(&mut self, now: Instant, place: usize)
        ensures { ProbesIn now place self.old.relays.items self.new.relays.items }
    {
        if place < self.relays.len() {
            self.probe_at(now, place);
        }
    }

    pub(crate) fn probe_at(&mut self, now: Instant, place: usize)
        requires { place < vec_len self.old.relays }
        ensures { ChangesAt place (Probes now) self.old.relays.items self.new.relays.items }
    {
        self.relays[place].probe(now);
    }

    /// A client frees its allocation: `Ended` follows.
    pub fn close(&mut self, now: Instant, place: usize)
        ensures { ClosesIn now place self.old.relays.items self.new.relays.items }
    {
        if place < self.relays.len() {
            self.close_at(now, place);
        }
    }

    pub(crate) fn close_at(&mut self, now: Instant, place: usize)
        requires { place < vec_len self.old.relays }
        ensures { ChangesAt place (Closes now) self.old.relays.items self.new.relays.items }
    {
        self.relays[place].close(now);
    }

    // ---- datagrams and packets

    fn receive_at<'a>(
        &mut self,
        now: Instant,
        place: usize,
        bytes: &'a [u8],
    ) -> Option<Datagram<'a>>
        requires { place < vec_len self.old.relays }
        ensures { ChangesAt place (TakesDatagram (λ p. H.mac p) now bytes.now (option_map arrived_view result))
            self.old.relays.items self.new.relays.items }
    {
        self.relays[place].receive(now, bytes)
    }

    /// Takes any datagram of a socket. Returns what is for the agent: a datagram of no client's server as it is, and data of a peer as
    /// if it came from the peer to the relayed address, without a copy. `None`: it was for a client only, or for nothing.
    pub fn receive<'a>(
        &mut self,
        now: Instant,
        local: SocketAddr,
        source: SocketAddr,
        bytes: &'a [u8],
    ) -> Option<Datagram<'a>>
        ensures { Receives (λ p. H.mac p) now local source bytes.now self.old.relays.items (option_map arrived_view result)
            self.new.relays.items }
    {
        match self.place_at(local, source) {
            Some(place) => self.receive_at(now, place, bytes),
            None => Some(Datagram {
                source,
                destination: local,
                contents: bytes,
            }),
        }
    }

    fn send_at(
        &mut self,
        now: Instant,
        place: usize,
        destination: SocketAddr,
        contents: &[u8],
        id: &TransId,
        buf: &mut [u8],
    ) -> Result<Outgoing, StunError>
        requires { place < vec_len self.old.relays }
        ensures { ChangesAt place (TakesPacket now destination contents.now id.now buf.old buf.new result)
            self.old.relays.items self.new.relays.items }
    {
        self.relays[place].send(now, destination, contents, id, buf)
    }

    /// Says where a packet goes. If its source is a relayed address, it is written to the front of the buffer as it goes to the server, as
    /// `TurnClient::send` says; any other goes as it is.
    pub fn outgoing(
        &mut self,
        now: Instant,
        source: SocketAddr,
        destination: SocketAddr,
        contents: &[u8],
        id: &TransId,
        buf: &mut [u8],
    ) -> Result<Outgoing, StunError>
        ensures { Sends now source destination contents.now id.now buf.old buf.new self.old.relays.items result self.new.relays.items }
    {
        match self.place_of(source) {
            Some(place) => self.send_at(now, place, destination, contents, id, buf),
            None => Ok(Outgoing::AsItIs),
        }
    }

    // ---- the clock, packets and events of the clients

    /// Returns when to call `handle_timeout`: the earliest time of a client.
    pub fn poll_timeout(&self) -> Option<Instant>
        ensures { result ≡ earliest_time self.now.relays.items }
    {
        let mut first = None;
        for relay in &self.relays {
            first = earlier_time(first, relay.client.poll_timeout());
        }
        first
    }

    /// Returns the place of the client whose time comes first, if it has come.
    fn due_place(&self, now: Instant) -> Option<usize>
        ensures place { result ≡ due_relay now self.now.relays.items }
        ensures within { IfSome result (λ place. place < vec_len self.now.relays) }
    {
        let Some(first) = self.poll_timeout() else {
            return None;
        };
        if first <= now {
            self.place_due_at(first)
        } else {
            None
        }
    }

    fn time_out_at<R: Rng>(&mut self, now: Instant, place: usize, rng: &mut R)
        requires { place < vec_len self.old.relays }
        ensures { ChangesAt place (RelayTimesOut now (R.stream rng.old) (R.stream rng.new)) self.old.relays.items self.new.relays.items }
    {
        self.relays[place].handle_timeout(now, rng);
    }

    /// Does what is due of the client whose time comes first: at most one packet, and at most 12 random bytes. If another client is due
    /// too, `poll_timeout` says so.
    pub fn handle_timeout<R: Rng>(&mut self, now: Instant, rng: &mut R)
        ensures { TimesOutAt (due_relay now self.old.relays.items) now (R.stream rng.old) (R.stream rng.new)
            self.old.relays.items self.new.relays.items }
    {
        if let Some(place) = self.due_place(now) {
            self.time_out_at(now, place, rng);
        }
    }

    fn poll_at(&mut self, place: usize, buf: &mut [u8]) -> Result<Option<Outbound>, StunError>
        requires { place < vec_len self.old.relays }
        ensures { ChangesAt place (PollsRelay (λ p. H.mac p) buf.old buf.new result) self.old.relays.items self.new.relays.items }
    {
        self.relays[place].poll_transmit(buf)
    }

    /// Writes the next packet of a client to the front of the buffer, and says from which socket to which server it goes.
    /// `BufferTooShort`: it does not fit; nothing is changed, and it can be polled again.
    pub fn poll_transmit(&mut self, buf: &mut [u8]) -> Result<Option<Outbound>, StunError>
        ensures { Polls (λ p. H.mac p) buf.old buf.new self.old.relays.items result self.new.relays.items }
    {
        match self.packet_place() {
            Some(place) => self.poll_at(place, buf),
            None => Ok(None),
        }
    }

    fn poll_event_at(&mut self, place: usize) -> Option<(usize, TurnEvent)>
        requires { place < vec_len self.old.relays }
        ensures { ChangesAt place (ReportsFrom place result) self.old.relays.items self.new.relays.items }
    {
        match self.relays[place].poll_event() {
            Some(event) => Some((place, event)),
            None => None,
        }
    }

    /// Returns what happened to a client, with its index.
    pub fn poll_event(&mut self) -> Option<(usize, TurnEvent)>
        ensures { Reports self.old.relays.items result self.new.relays.items }
    {
        let place = self.event_place()?;
        self.poll_event_at(place)
    }
}
