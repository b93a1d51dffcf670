//! What a polled packet or event, a response and the clock do to the session of a TURN client.

ghost use Rattle.std.specs.Prelude.{◌≡◌};
ghost use Rattle.is_turn.specs.Turn.{after_step, packet_due, request_polled, event_of, after_event, with_doubt, with_hint, with_another, Follows};

use crate::session::{Session, Step};
use crate::turn::{Packet, TurnEvent};
use is_proto::Instant;
use is_stun::stun::TransId;
use rand_core::Rng;
use std::net::SocketAddr;

impl Session {
    /// Returns what has to be sent.
    pub(crate) fn packet(&self) -> Packet
        ensures { result ≡ packet_due self.now }
    {
        if let Some(operation) = self.operation {
            if operation.is_waiting {
                if let Some(attempt) = operation.attempts.last {
                    return Packet::Request(operation.request, attempt.id);
                }
            }
        }
        match self.alive {
            Some(id) => Packet::KeepAlive(id),
            None => Packet::Nothing,
        }
    }

    /// The request was polled.
    pub(crate) fn request_polled(&mut self)
        ensures { self.new ≡ request_polled self.old }
    {
        if let Some(operation) = self.operation {
            self.operation = Some(operation.polled());
        }
    }

    /// A response that counts for nothing.
    pub(crate) fn doubt(&mut self, code: u16)
        ensures { self.new ≡ with_doubt code self.old }
    {
        if let Some(operation) = self.operation {
            self.operation = Some(operation.doubted(code));
        }
    }

    pub(crate) fn hint(&mut self, now: Instant, code: u16)
        ensures { self.new ≡ with_hint now code self.old }
    {
        let timing = self.request_timing();
        if let Some(operation) = self.operation {
            self.operation = Some(operation.hinted(now, code, &timing));
        }
    }

    /// Another attempt, at once: a challenge was taken.
    pub(crate) fn try_again(&mut self, now: Instant, is_signed: bool, code: u16)
        ensures { self.new ≡ with_another now is_signed code self.old }
    {
        self.end_pace(now);
        if let Some(operation) = self.operation {
            self.operation = Some(operation.another(now, is_signed, code));
        }
    }

    /// Another server is asked, unless it was asked before, or three were since the first.
    pub(crate) fn follow(&mut self, now: Instant, server: SocketAddr)
        ensures { Follows now server self.old self.new }
    {
        if self.tried.is_full() || self.tried.has(server) {
            self.fail(now, Some(300));
        } else {
            self.redirect(now, server);
        }
    }

    /// Returns what is to be reported next.
    pub(crate) fn event(&self) -> Option<TurnEvent>
        ensures { result ≡ event_of self.now }
    {
        match (self.made, self.ending) {
            (Some(made), _) => Some(TurnEvent::Allocated(made)),
            (None, Some(ending)) => Some(TurnEvent::Ended(ending)),
            (None, None) => None,
        }
    }

    pub(crate) fn take_event(&mut self) -> Option<TurnEvent>
        ensures event { result ≡ event_of self.old }
        ensures state { self.new ≡ after_event self.old }
    {
        if let Some(made) = self.made {
            self.made = None;
            return Some(TurnEvent::Allocated(made));
        }
        match self.ending.take() {
            Some(ending) => Some(TurnEvent::Ended(ending)),
            None => None,
        }
    }

    /// Takes the step that is due.
    pub(crate) fn take<R: Rng>(
        &mut self,
        now: Instant,
        step: Step,
        key: Option<[u8; 16]>,
        rng: &mut R,
    )
        ensures { (self.new, R.stream rng.new) ≡ after_step step now key (R.stream rng.old) self.old }
    {
        match step {
            Step::Nothing => {}
            Step::Lapse => self.lapse(),
            Step::Attempt => {
                let id = TransId::new(rng);
                self.attempt(now, id, key);
            }
            Step::Repeat => self.repeat(now),
            Step::TimeOut => self.fail(now, None),
            Step::KeepAlive => {
                let id = TransId::new(rng);
                self.keep_alive(now, id);
            }
        }
    }
}
