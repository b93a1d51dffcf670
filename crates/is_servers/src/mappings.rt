//! The STUN clients of a program.

ghost use Rattle.std.specs.Prelude.{◌≡◌, [], ◌<◌, IfSome, MatchResult, map, position, vec_len};
ghost use Rattle.is_turn.specs.Relays.{earlier_time};
ghost use Rattle.is_servers.specs.Mapping.{is_at, is_over, is_asking, is_due_at, has_packet, has_event, closed, lost_at, new_mapping, TakesResponse};
ghost use Rattle.is_servers.specs.Mappings.{ChangesAt, placed, added, Takes, earliest, due, TimesOut, TimesOutAt, some_packet, some_event, is_gathering, sent_by, PollsOne, Polls, ReportsOne, Reports};

use crate::events::ServerEvent;
use crate::mapping::Mapping;
use crate::packets::ServerPacket;
use crate::transport::Transport;
use is_proto::{Instant, StunError};
use rand_core::Rng;
use std::alloc::{AllocError, Global};
use std::net::SocketAddr;

/// The STUN clients of a program, over UDP: of a socket and a server at most one that has not ended.
#[derive(Drop)]
pub(crate) struct Mappings {
    pub(crate) all: Vec<Mapping>,
}

/// Returns the earlier time.
pub(crate) fn earlier_time(first: Option<Instant>, other: Option<Instant>) -> Option<Instant>
    ensures { result ≡ earlier_time first other }
{
    match (first, other) {
        (Some(first), Some(other)) => Some(Instant(first.0.min(other.0))),
        (Some(first), None) => Some(first),
        (None, other) => other,
    }
}

/// Says from which socket to which server a packet goes that was written.
fn sent_by(
    mapping: Mapping,
    written: Result<Option<usize>, StunError>,
) -> Result<Option<ServerPacket>, StunError>
    ensures { result ≡ sent_by mapping written }
{
    match written {
        Ok(Some(len)) => Ok(Some(ServerPacket {
            transport: Transport::Udp,
            local: mapping.local,
            server: mapping.client.server(),
            len,
        })),
        Ok(None) => Ok(None),
        Err(error) => Err(error),
    }
}

impl Mappings {
    pub(crate) fn new(alloc: Global) -> Mappings
        ensures { result.all.items ≡ [] }
    {
        Mappings {
            all: Vec::new(alloc),
        }
    }

    // ---- places

    fn place_at(&self, local: SocketAddr, source: SocketAddr) -> Option<usize>
        ensures place { result ≡ position (is_at local source) self.now.all.items }
        ensures within { IfSome result (λ place. place < vec_len self.now.all) }
    {
        self.all.iter().position(|m| m.is_at(local, source))
    }

    fn place_over(&self) -> Option<usize>
        ensures place { result ≡ position is_over self.now.all.items }
        ensures within { IfSome result (λ place. place < vec_len self.now.all) }
    {
        self.all.iter().position(|m| m.is_over())
    }

    fn packet_place(&self) -> Option<usize>
        ensures place { result ≡ position has_packet self.now.all.items }
        ensures within { IfSome result (λ place. place < vec_len self.now.all) }
    {
        self.all.iter().position(|m| m.has_packet())
    }

    fn event_place(&self) -> Option<usize>
        ensures place { result ≡ position has_event self.now.all.items }
        ensures within { IfSome result (λ place. place < vec_len self.now.all) }
    {
        self.all.iter().position(|m| m.has_event())
    }

    fn place_due_at(&self, time: Instant) -> Option<usize>
        ensures place { result ≡ position (is_due_at time) self.now.all.items }
        ensures within { IfSome result (λ place. place < vec_len self.now.all) }
    {
        self.all.iter().position(|m| m.is_due_at(time))
    }

    fn place_asking(&self) -> Option<usize>
        ensures { result ≡ position is_asking self.now.all.items }
    {
        self.all.iter().position(|m| m.is_asking())
    }

    /// Returns the place of the client whose time comes first, if it has come.
    fn due_place(&self, now: Instant) -> Option<usize>
        ensures place { result ≡ due now self.now.all.items }
        ensures within { IfSome result (λ place. place < vec_len self.now.all) }
    {
        let Some(first) = self.poll_timeout() else {
            return None;
        };
        if first <= now {
            self.place_due_at(first)
        } else {
            None
        }
    }

    // ---- questions

    pub(crate) fn is_gathering(&self) -> bool
        ensures { result ≡ is_gathering self.now.all.items }
    {
        self.place_asking().is_some()
    }

    pub(crate) fn has_packet(&self) -> bool
        ensures { result ≡ some_packet self.now.all.items }
    {
        self.packet_place().is_some()
    }

    pub(crate) fn has_event(&self) -> bool
        ensures { result ≡ some_event self.now.all.items }
    {
        self.event_place().is_some()
    }

    /// Returns the earliest time of a client.
    pub(crate) fn poll_timeout(&self) -> Option<Instant>
        ensures { result ≡ earliest self.now.all.items }
    {
        let mut first = None;
        for m in &self.all {
            first = earlier_time(first, m.poll_timeout());
        }
        first
    }

    // ---- adding

    fn put(&mut self, mapping: Mapping) -> Result<(), AllocError>
        ensures { MatchResult result
            (λ _. self.new.all.items ≡ placed (position is_over self.old.all.items) mapping self.old.all.items)
            (λ e. self.new.all.items ≡ self.old.all.items) }
    {
        match self.place_over() {
            Some(place) => {
                self.all[place] = mapping;
                Ok(())
            }
            None => {
                self.all.push(mapping)?;
                Ok(())
            }
        }
    }

    /// Adds and starts a client, unless one that has not ended has this socket and server.
    pub(crate) fn add(
        &mut self,
        now: Instant,
        local: SocketAddr,
        server: SocketAddr,
    ) -> Result<(), AllocError>
        ensures { MatchResult result
            (λ _. self.new.all.items ≡ added now local server self.old.all.items)
            (λ e. self.new.all.items ≡ self.old.all.items) }
    {
        if self.place_at(local, server).is_some() {
            return Ok(());
        }
        self.put(Mapping::new(now, local, server))
    }

    // ---- datagrams

    fn receive_at(&mut self, now: Instant, place: usize, bytes: &[u8]) -> bool
        requires { place < vec_len self.old.all }
        ensures { ChangesAt place (TakesResponse now bytes.now result) self.old.all.items self.new.all.items }
    {
        self.all[place].receive(now, bytes)
    }

    /// Takes a datagram of a socket. False: it is not the response that a client waits for.
    pub(crate) fn receive(
        &mut self,
        now: Instant,
        local: SocketAddr,
        source: SocketAddr,
        bytes: &[u8],
    ) -> bool
        ensures { Takes now local source bytes.now self.old.all.items result self.new.all.items }
    {
        match self.place_at(local, source) {
            Some(place) => self.receive_at(now, place, bytes),
            None => false,
        }
    }

    // ---- the clock, packets and events

    fn time_out_at<R: Rng>(&mut self, now: Instant, place: usize, rng: &mut R)
        requires { place < vec_len self.old.all }
        ensures { ChangesAt place (TimesOut now (R.stream rng.old) (R.stream rng.new)) self.old.all.items self.new.all.items }
    {
        self.all[place].handle_timeout(now, rng);
    }

    /// Does what is due of the client whose time comes first.
    pub(crate) fn handle_timeout<R: Rng>(&mut self, now: Instant, rng: &mut R)
        ensures { TimesOutAt (due now self.old.all.items) now (R.stream rng.old) (R.stream rng.new) self.old.all.items self.new.all.items }
    {
        if let Some(place) = self.due_place(now) {
            self.time_out_at(now, place, rng);
        }
    }

    fn poll_at(&mut self, place: usize, buf: &mut [u8]) -> Result<Option<ServerPacket>, StunError>
        requires { place < vec_len self.old.all }
        ensures { ChangesAt place (PollsOne buf.old buf.new result) self.old.all.items self.new.all.items }
    {
        let before = self.all[place];
        let written = self.all[place].poll_transmit(buf);
        sent_by(before, written)
    }

    /// Writes the next packet of a client.
    pub(crate) fn poll_transmit(
        &mut self,
        buf: &mut [u8],
    ) -> Result<Option<ServerPacket>, StunError>
        ensures { Polls buf.old buf.new self.old.all.items result self.new.all.items }
    {
        match self.packet_place() {
            Some(place) => self.poll_at(place, buf),
            None => Ok(None),
        }
    }

    fn poll_event_at(&mut self, place: usize) -> Option<ServerEvent>
        requires { place < vec_len self.old.all }
        ensures { ChangesAt place (ReportsOne result) self.old.all.items self.new.all.items }
    {
        let before = self.all[place];
        match self.all[place].poll_event() {
            Some(what) => Some(ServerEvent {
                transport: Transport::Udp,
                local: before.local,
                server: before.client.server(),
                what,
            }),
            None => None,
        }
    }

    /// Returns what happened to a client.
    pub(crate) fn poll_event(&mut self) -> Option<ServerEvent>
        ensures { Reports self.old.all.items result self.new.all.items }
    {
        let place = self.event_place()?;
        self.poll_event_at(place)
    }

    // ---- ends

    /// Each client ends.
    pub(crate) fn close(&mut self)
        ensures items { self.new.all.items ≡ map closed self.old.all.items }
        ensures len { vec_len self.new.all ≡ vec_len self.old.all }
    {
        for place in 0..self.all.len() {
            self.all[place].close();
        }
    }

    /// A socket is gone: its clients end.
    pub(crate) fn lose(&mut self, local: SocketAddr)
        ensures items { self.new.all.items ≡ map (lost_at local) self.old.all.items }
        ensures len { vec_len self.new.all ≡ vec_len self.old.all }
    {
        for place in 0..self.all.len() {
            self.all[place].lose_of(local);
        }
    }
}
