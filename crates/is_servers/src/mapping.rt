//! A STUN client with the socket that it is of.

ghost use Rattle.std.specs.Prelude.{◌≡◌};
ghost use Rattle.is_servers.specs.Mapping.{new_mapping, is_alive, is_over, is_asking, is_at, time_of, is_due_at, timed_out, has_packet, has_event, life_after, reported, ended, closed, lost, lost_at, is_own, TakesResponse, PollsMapping};

use crate::events::{Happened, ending_of, stun_happened};
use is_proto::{Instant, StunError};
use is_turn::{ClientTiming, Ending, Received, StunClient, StunEvent, Why, same_address};
use rand_core::Rng;
use std::net::SocketAddr;

/// How far a client is.
#[derive(Clone, Copy, Debug, PartialEq, Eq)]
pub(crate) enum Life {
    /// Nothing was reported yet.
    Asking,
    /// A mapped address was reported.
    Mapped,
    /// The client ended so, which is to be polled.
    Ending(Ending),
    /// The client's end was polled: its place may be given to another client.
    Over,
}

/// A STUN client of a socket.
#[derive(Clone, Copy, Debug)]
pub(crate) struct Mapping {
    pub(crate) local: SocketAddr,
    pub(crate) client: StunClient,
    pub(crate) life: Life,
}

/// Returns how far a client is after an event.
fn life_after(event: Option<StunEvent>, life: Life) -> Life
    ensures { result ≡ life_after event life }
{
    match event {
        Some(StunEvent::Mapped(_)) => Life::Mapped,
        Some(StunEvent::Failed(_)) => Life::Over,
        None => life,
    }
}

fn is_own(received: Received) -> bool
    ensures { result ≡ is_own received }
{
    matches!(received, Received::Own)
}

impl Mapping {
    /// Starts a client of a socket at a server, with the modern timing.
    pub(crate) fn new(now: Instant, local: SocketAddr, server: SocketAddr) -> Mapping
        ensures { result ≡ new_mapping now local server }
    {
        let mut client = StunClient::new(server, ClientTiming::modern());
        client.start(now);
        Mapping {
            local,
            client,
            life: Life::Asking,
        }
    }

    // ---- how far it is

    /// Whether the client has not ended.
    pub(crate) fn is_alive(&self) -> bool
        ensures { result ≡ is_alive self.now.life }
    {
        matches!(self.life, Life::Asking | Life::Mapped)
    }

    pub(crate) fn is_over(&self) -> bool
        ensures { result ≡ is_over self.now }
    {
        matches!(self.life, Life::Over)
    }

    /// Whether the client waits for its first answer, or what that said was not polled yet.
    pub(crate) fn is_asking(&self) -> bool
        ensures { result ≡ is_asking self.now }
    {
        matches!(self.life, Life::Asking)
    }

    /// Whether a datagram of this socket, from this server, may be the client's.
    pub(crate) fn is_at(&self, local: SocketAddr, source: SocketAddr) -> bool
        ensures { result ≡ is_at local source self.now }
    {
        self.is_alive()
            && same_address(self.local, local)
            && same_address(self.client.server(), source)
    }

    // ---- calls

    /// Takes a datagram of the server. False: it is not the response that the client waits for.
    pub(crate) fn receive(&mut self, now: Instant, bytes: &[u8]) -> bool
        ensures { TakesResponse now bytes.now result self.old self.new }
    {
        let server = self.client.server();
        is_own(self.client.receive(now, server, bytes))
    }

    pub(crate) fn poll_timeout(&self) -> Option<Instant>
        ensures { result ≡ time_of self.now }
    {
        if self.is_alive() {
            self.client.poll_timeout()
        } else {
            None
        }
    }

    /// Whether the client's time has come.
    pub(crate) fn is_due_at(&self, time: Instant) -> bool
        ensures { result ≡ is_due_at time self.now }
    {
        match self.poll_timeout() {
            Some(due) => due <= time,
            None => false,
        }
    }

    pub(crate) fn handle_timeout<R: Rng>(&mut self, now: Instant, rng: &mut R)
        ensures { (self.new, R.stream rng.new) ≡ timed_out now (R.stream rng.old) self.old }
    {
        self.client.handle_timeout(now, rng);
    }

    pub(crate) fn has_packet(&self) -> bool
        ensures { result ≡ has_packet self.now }
    {
        self.is_alive() && self.client.has_packet()
    }

    pub(crate) fn poll_transmit(&mut self, buf: &mut [u8]) -> Result<Option<usize>, StunError>
        ensures { PollsMapping buf.old buf.new result self.old self.new }
    {
        self.client.poll_transmit(buf)
    }

    pub(crate) fn has_event(&self) -> bool
        ensures { result ≡ has_event self.now }
    {
        match self.life {
            Life::Asking | Life::Mapped => self.client.has_event(),
            Life::Ending(_) => true,
            Life::Over => false,
        }
    }

    /// Returns what is to be reported. The client ends with its last event.
    pub(crate) fn poll_event(&mut self) -> Option<Happened>
        ensures { (self.new, result) ≡ reported self.old }
    {
        match self.life {
            Life::Asking | Life::Mapped => {
                let event = self.client.poll_event();
                self.life = life_after(event, self.life);
                match event {
                    Some(event) => Some(stun_happened(event)),
                    None => None,
                }
            }
            Life::Ending(ending) => {
                self.life = Life::Over;
                Some(Happened::Ended(ending))
            }
            Life::Over => None,
        }
    }

    /// Ends the client, if it has not ended.
    fn end(&mut self, why: Why)
        ensures { self.new ≡ ended why self.old }
    {
        if self.is_alive() {
            self.life = Life::Ending(ending_of(why, None));
        }
    }

    /// The user closes the client.
    pub(crate) fn close(&mut self)
        ensures { self.new ≡ closed self.old }
    {
        self.end(Why::Closed);
    }

    /// The socket is gone: a client that had an answer has lost it, any other has failed.
    fn lose(&mut self)
        ensures { self.new ≡ lost self.old }
    {
        if self.client.mapped().is_some() {
            self.end(Why::Lost);
        } else {
            self.end(Why::Failed);
        }
    }

    /// A socket is gone: the client ends if it is the client's.
    pub(crate) fn lose_of(&mut self, local: SocketAddr)
        ensures { self.new ≡ lost_at local self.old }
    {
        if same_address(self.local, local) {
            self.lose();
        }
    }
}
