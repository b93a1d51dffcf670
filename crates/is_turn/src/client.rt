//! The client of one socket at one server.

ghost use Rattle.std.specs.Prelude.{◌≡◌, ◌⊎◌, ◌<◌, ◌≤◌, Option, is_some};
ghost use Rattle.is_turn.specs.declared.client.Received.TheVariants as results;
ghost use Rattle.is_turn.specs.declared.answer.Answer.TheVariants as answers;
ghost use Rattle.is_turn.specs.Client.{pending_id, new_client, after_start, next_time, first_sent, sent_again, timed_out, repeated, begun, after_timeout, to_poll, Polls, request_of};
ghost use Rattle.is_turn.specs.Response.{received, IsEventAfter, after_answer, IsAnswerTo};
ghost use Rattle.is_turn.specs.Answer.{answer_in};
ghost use Rattle.is_stun.specs.MessageView.{message_view};

use crate::answer::{Answer, answer_in};
use crate::timing::ClientTiming;
use is_proto::{DefaultSha1HmacProvider, Duration, Instant, StunError};
use is_stun::stun::{Builder, StunMessage, TransId};
use rand_core::Rng;
use std::net::SocketAddr;

/// How far a client is.
#[derive(Clone, Copy, Debug, PartialEq, Eq)]
pub(crate) enum Phase {
    New,
    Running,
    Failed,
}

/// A request that waits for its response.
#[derive(Clone, Copy, Debug, PartialEq, Eq)]
pub(crate) struct Pending {
    pub(crate) id: TransId,
    /// How many times the request was sent, the packet that is to be polled included.
    pub(crate) sent: u32,
    /// The wait after the last time.
    pub(crate) wait: Duration,
    /// When the request is sent again, or times out.
    pub(crate) due: Instant,
    /// Whether a packet of the request is to be polled.
    pub(crate) is_waiting: bool,
}

/// What a client reports.
#[derive(Clone, Copy, Debug, PartialEq, Eq)]
pub enum StunEvent {
    /// The server sees the socket at this address: a server-reflexive candidate. Reported again if it changes.
    Mapped(SocketAddr),
    /// The server did not answer, or answered the first request with an error of this code, 300 to 699. No event follows.
    Failed(Option<u16>),
}

/// What a datagram was.
#[derive(Clone, Copy, Debug, PartialEq, Eq)]
pub enum Received {
    /// Not from the server.
    Other,
    /// The response that the client waited for.
    Own,
    /// From the server, and no STUN message.
    Unparsed,
    /// A message that does not answer the pending request.
    Unasked,
    /// The response, without the attribute that it must have.
    Malformed,
}

/// A STUN client (RFC 8489): one socket at one server, without credentials. It requests the address at which the server sees the
/// socket, and repeats that while it lives, so that NATs keep the mapping.
///
/// It has no socket, no clock and no random source. Call `handle_timeout` at the time of `poll_timeout`; then send what
/// `poll_transmit` writes to the server, and take what `poll_event` returns. Pass each datagram of the socket to `receive`.
#[derive(Clone, Copy, Debug)]
pub struct StunClient {
    pub(crate) server: SocketAddr,
    pub(crate) timing: ClientTiming,
    pub(crate) phase: Phase,
    /// When the next request begins, if none is pending.
    pub(crate) next: Option<Instant>,
    pub(crate) pending: Option<Pending>,
    pub(crate) mapped: Option<SocketAddr>,
    /// What is to be polled: the last event.
    pub(crate) event: Option<StunEvent>,
}

/// Returns the request: the header and FINGERPRINT.
fn request_of(id: TransId) -> StunMessage<'static>
    ensures { message_view result ≡ request_of id }
{
    Builder::new().binding().request().build(id)
}

impl StunClient {
    /// Makes the client of a server. It does nothing before `start`.
    pub fn new(server: SocketAddr, timing: ClientTiming) -> StunClient
        ensures { result ≡ new_client server timing }
    {
        StunClient {
            server,
            timing,
            phase: Phase::New,
            next: None,
            pending: None,
            mapped: None,
            event: None,
        }
    }

    /// Starts: the next `handle_timeout` sends the first request. A further call does nothing.
    pub fn start(&mut self, now: Instant)
        ensures { self.new ≡ after_start now self.old }
    {
        if self.phase == Phase::New {
            self.phase = Phase::Running;
            self.next = Some(now);
        }
    }

    /// Returns the address of the server.
    pub fn server(&self) -> SocketAddr
        ensures { result ≡ self.now.server }
    {
        self.server
    }

    /// Returns the address at which the server saw the socket last.
    pub fn mapped(&self) -> Option<SocketAddr>
        ensures { result ≡ self.now.mapped }
    {
        self.mapped
    }

    /// Returns when to call `handle_timeout`. `None` before `start` and after `Failed`.
    pub fn poll_timeout(&self) -> Option<Instant>
        ensures { result ≡ next_time self.now }
    {
        match self.pending {
            Some(pending) => Some(pending.due),
            None => self.next,
        }
    }

    /// Sends the pending request again, or ends it, or begins the next one; before `poll_timeout` nothing. Only a new request
    /// takes random bytes: 12, for its transaction ID.
    pub fn handle_timeout<R: Rng>(&mut self, now: Instant, rng: &mut R)
        ensures { (self.new, R.stream rng.new) ≡ after_timeout now (R.stream rng.old) self.old }
    {
        match (self.pending, self.next) {
            (Some(pending), _) => {
                if pending.due <= now {
                    self.repeat(now, pending);
                }
            }
            (None, Some(next)) => {
                if next <= now {
                    let id = TransId::new(rng);
                    self.begin(now, id);
                }
            }
            (None, None) => {}
        }
    }

    fn begin(&mut self, now: Instant, id: TransId)
        ensures { self.new ≡ begun now id self.old }
    {
        let wait = self.timing.first_wait();
        self.next = None;
        self.pending = Some(Pending {
            id,
            sent: 1,
            wait,
            due: now + wait,
            is_waiting: true,
        });
    }

    /// Sends the pending request again, or ends it.
    fn repeat(&mut self, now: Instant, pending: Pending)
        ensures { self.new ≡ repeated now pending self.old }
    {
        if pending.sent >= self.timing.requests {
            self.time_out(now);
            return;
        }
        let sent = pending.sent + 1;
        let wait = self.timing.next_wait(sent, pending.wait);
        self.pending = Some(Pending {
            id: pending.id,
            sent,
            wait,
            due: now + wait,
            is_waiting: true,
        });
    }

    /// Fails if the server never answered; else the next request is sent after the usual time.
    fn time_out(&mut self, now: Instant)
        ensures { self.new ≡ timed_out now self.old }
    {
        self.pending = None;
        if self.mapped.is_some() {
            self.next = Some(now + self.timing.keep_alive);
        } else {
            self.phase = Phase::Failed;
            self.event = Some(StunEvent::Failed(None));
        }
    }

    /// Writes the packet that is to be sent to the server to the front of the buffer, and returns its length: 28. `None`: there is
    /// none. `BufferTooShort`: it does not fit; nothing is changed, and it can be polled again.
    pub fn poll_transmit(&mut self, buf: &mut [u8]) -> Result<Option<usize>, StunError>
        ensures { Polls self.old buf.old result self.new buf.new }
    {
        let Some(pending) = self.pending else {
            return Ok(None);
        };
        if !pending.is_waiting {
            return Ok(None);
        }
        match request_of(pending.id).to_bytes(None, buf, &DefaultSha1HmacProvider) {
            Ok(len) => {
                self.pending = Some(Pending {
                    is_waiting: false,
                    ..pending
                });
                Ok(Some(len))
            }
            Err(error) => Err(error),
        }
    }

    /// Returns what happened since the last call, if anything did. A mapped address that changed in between is returned once.
    pub fn poll_event(&mut self) -> Option<StunEvent>
        ensures event { result ≡ self.old.event }
        ensures polled { self.new ≡ record self.old { event = Option.None } }
    {
        self.event.take()
    }

    /// The server answered: the next request is sent after the usual time.
    fn is_mapped(&mut self, now: Instant, mapped: SocketAddr)
        ensures event { IsEventAfter (answers.Mapped mapped) self.old self.new.event }
        ensures state { self.new ≡ after_answer now (answers.Mapped mapped) self.new.event self.old }
    {
        if self.mapped != Some(mapped) {
            self.event = Some(StunEvent::Mapped(mapped));
        }
        self.mapped = Some(mapped);
        self.pending = None;
        self.next = Some(now + self.timing.keep_alive);
    }

    /// The server returned an error: the client fails if it never had another answer; else it goes on.
    fn is_failure(&mut self, now: Instant, code: u16)
        ensures event { IsEventAfter (answers.Failed code) self.old self.new.event }
        ensures state { self.new ≡ after_answer now (answers.Failed code) self.new.event self.old }
    {
        self.pending = None;
        if self.mapped.is_some() {
            self.next = Some(now + self.timing.keep_alive);
        } else {
            self.phase = Phase::Failed;
            self.event = Some(StunEvent::Failed(Some(code)));
        }
    }

    /// Applies what a datagram of the server says.
    fn apply(&mut self, now: Instant, answer: Answer) -> Received
        ensures read { result ≡ received answer }
        ensures event { IsEventAfter answer self.old self.new.event }
        ensures state { self.new ≡ after_answer now answer self.new.event self.old }
    {
        match answer {
            Answer::Unparsed => Received::Unparsed,
            Answer::Unasked => Received::Unasked,
            Answer::Malformed => Received::Malformed,
            Answer::Mapped(mapped) => {
                self.is_mapped(now, mapped);
                Received::Own
            }
            Answer::Failed(code) => {
                self.is_failure(now, code);
                Received::Own
            }
        }
    }

    /// Returns the ID of the pending request.
    fn pending_id(&self) -> Option<TransId>
        ensures { result ≡ pending_id self.now }
    {
        Some(self.pending?.id)
    }

    /// Whether there is something to send.
    pub fn has_packet(&self) -> bool
        ensures { result ≡ is_some (to_poll self.now.pending) }
    {
        match self.pending {
            Some(pending) => pending.is_waiting,
            None => false,
        }
    }

    /// Whether there is something to report.
    pub fn has_event(&self) -> bool
        ensures { result ≡ is_some self.now.event }
    {
        self.event.is_some()
    }

    /// Takes any datagram of the socket. Only the response to the pending request changes anything: it is from the server, and has
    /// the transaction ID, 96 random bits. Nothing else of it is authenticated: whoever sees the request can forge the response.
    pub fn receive(&mut self, now: Instant, source: SocketAddr, bytes: &[u8]) -> Received
        ensures other { ¬ (source ≡ self.old.server) → (result ≡ results.Other) × (self.new ≡ self.old) }
        ensures read { source ≡ self.old.server → result ≡ received (answer_in (pending_id self.old) bytes.now) }
        ensures event { source ≡ self.old.server → IsEventAfter (answer_in (pending_id self.old) bytes.now) self.old self.new.event }
        ensures state { source ≡ self.old.server
            → self.new ≡ after_answer now (answer_in (pending_id self.old) bytes.now) self.new.event self.old }
        ensures only { (self.new ≡ self.old) ⊎ IsAnswerTo self.old source bytes.now }
    {
        if source != self.server {
            return Received::Other;
        }
        let answer = answer_in(self.pending_id(), bytes);
        self.apply(now, answer)
    }
}
