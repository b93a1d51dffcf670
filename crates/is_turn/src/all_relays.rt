//! What is asked of all clients of a program, and which of them a question is about.

ghost use Rattle.std.specs.Prelude.{◌≡◌, ◌<◌, IfSome, position, vec_len};
ghost use Rattle.is_turn.specs.OneRelay.{has_event, is_asking, Probes, Closes};
ghost use Rattle.is_turn.specs.Relays.{ChangesAt};
ghost use Rattle.is_turn.specs.AllRelays.{is_serving, serves, relays_from, some_packet, ends_at, is_gathering, ChangesEach, RequestsPermission, LosesAt};

use crate::lease::same_address;
use crate::relays::Relays;
use is_proto::{Instant, Sha1HmacProvider};
use std::net::SocketAddr;

impl<H: Sha1HmacProvider> Relays<H> {
    // ---- questions

    fn place_serving(&self, local: SocketAddr, server: SocketAddr) -> Option<usize>
        ensures { result ≡ position (is_serving local server) self.now.relays.items }
    {
        self.relays
            .iter()
            .position(|relay| relay.is_serving(local, server))
    }

    fn place_asking(&self) -> Option<usize>
        ensures { result ≡ position is_asking self.now.relays.items }
    {
        self.relays.iter().position(|relay| relay.is_asking())
    }

    /// Whether a client that is not over has this socket and server.
    pub fn serves(&self, local: SocketAddr, server: SocketAddr) -> bool
        ensures { result ≡ serves local server self.now.relays.items }
    {
        self.place_serving(local, server).is_some()
    }

    /// Whether a packet with this source goes through a client.
    pub fn relays_from(&self, source: SocketAddr) -> bool
        ensures { result ≡ relays_from source self.now.relays.items }
    {
        self.place_of(source).is_some()
    }

    /// Whether a client has something to send.
    pub fn has_packet(&self) -> bool
        ensures { result ≡ some_packet self.now.relays.items }
    {
        self.packet_place().is_some()
    }

    /// Returns the index of the client whose event is polled next.
    pub fn next_to_report(&self) -> Option<usize>
        ensures place { result ≡ position has_event self.now.relays.items }
        ensures within { IfSome result (λ place. place < vec_len self.now.relays) }
    {
        self.event_place()
    }

    /// Returns the socket and the server of a client by its index.
    pub fn ends(&self, place: usize) -> Option<(SocketAddr, SocketAddr)>
        ensures { result ≡ ends_at place self.now.relays.items }
    {
        match self.relays.get(place) {
            Some(relay) => Some((relay.local, relay.client.server())),
            None => None,
        }
    }

    /// Whether a client waits for its first answer, or what that said was not polled yet.
    pub fn is_gathering(&self) -> bool
        ensures { result ≡ is_gathering self.now.relays.items }
    {
        self.place_asking().is_some()
    }

    // ---- calls

    /// Requests the permission of a peer at each client.
    pub fn permit_each(&mut self, now: Instant, peer: SocketAddr)
        ensures { ChangesEach (RequestsPermission now peer) self.old.relays.items self.new.relays.items }
    {
        for place in 0..self.relays.len() {
            let _is_taken = self.permit_at(now, place, peer);
        }
    }

    /// Each client asks its server now whether it has the allocation.
    pub fn probe_each(&mut self, now: Instant)
        ensures { ChangesEach (Probes now) self.old.relays.items self.new.relays.items }
    {
        for place in 0..self.relays.len() {
            self.probe_at(now, place);
        }
    }

    /// Each client frees its allocation: an `Ended` of each follows.
    pub fn close_each(&mut self, now: Instant)
        ensures { ChangesEach (Closes now) self.old.relays.items self.new.relays.items }
    {
        for place in 0..self.relays.len() {
            self.close_at(now, place);
        }
    }

    fn lose_at(&mut self, local: SocketAddr, place: usize)
        requires { place < vec_len self.old.relays }
        ensures { ChangesAt place (LosesAt local) self.old.relays.items self.new.relays.items }
    {
        self.relays[place].lose_of(local);
    }

    /// A socket or connection is gone: its clients end, without a packet.
    pub fn lose(&mut self, local: SocketAddr)
        ensures { ChangesEach (LosesAt local) self.old.relays.items self.new.relays.items }
    {
        for place in 0..self.relays.len() {
            self.lose_at(local, place);
        }
    }
}
