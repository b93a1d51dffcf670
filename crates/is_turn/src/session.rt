//! What a TURN client knows of its allocation (RFC 8656, sections 6 to 8), and what its user does to it.

ghost use Rattle.std.specs.Prelude.{◌≡◌};
ghost use Rattle.is_turn.specs.Session.{new_session, request_timing, with_request, allocate, turn_started, ended, freed, may_be_made, turn_closed, turn_lost, left};
ghost use Rattle.is_turn.specs.Session.{probed, lease_failed, quiet_after, is_v6, is_v6_family, may_permit};

use crate::operation::Operation;
use crate::requests::Request;
use crate::timing::ClientTiming;
use crate::tried::Tried;
use is_proto::Instant;
use is_stun::stun::{AddressFamily, TransId};
use std::net::SocketAddr;

/// How many times a request is sent that frees an allocation.
const CLOSING_REQUESTS: u32 = 2;

/// How far a client is.
#[derive(Clone, Copy, Debug, PartialEq, Eq)]
pub(crate) enum Phase {
    New,
    /// The client requests an allocation.
    Asking,
    /// The client was closed while it requested an allocation: one that is made by now is freed.
    Leaving,
    /// The client has an allocation.
    Ready,
    /// The client frees its allocation.
    Closing,
    Ended,
}

/// Why a client ended.
#[derive(Clone, Copy, Debug, PartialEq, Eq)]
pub enum Why {
    /// There never was an allocation.
    Failed,
    /// The allocation is gone.
    Lost,
    /// The user closed the client.
    Closed,
}

/// How a client ended.
#[derive(Clone, Copy, Debug, PartialEq, Eq)]
pub struct Ending {
    pub why: Why,
    /// The code of the server's error response.
    pub code: Option<u16>,
    /// The code of a response that nobody signed: a hint for the log. 200: a success response.
    pub unverified: Option<u16>,
}

/// What a server allocated.
#[derive(Clone, Copy, Debug, PartialEq, Eq)]
pub struct Allocation {
    /// The relayed address: peers send to it.
    pub relayed: SocketAddr,
    /// The address at which the server sees the socket, if it says so.
    pub mapped: Option<SocketAddr>,
}

/// What the time makes due.
#[derive(Clone, Copy, Debug, PartialEq, Eq)]
pub(crate) enum Step {
    Nothing,
    /// The allocation is at its end.
    Lapse,
    /// Another attempt of the request.
    Attempt,
    /// Another packet of the last attempt.
    Repeat,
    /// No response came.
    TimeOut,
    /// A keep-alive.
    KeepAlive,
}

/// The state of a client without its credentials.
#[derive(Clone, Copy, Debug, PartialEq, Eq)]
pub(crate) struct Session {
    pub(crate) server: SocketAddr,
    /// The servers to which Allocate requests were sent.
    pub(crate) tried: Tried,
    pub(crate) timing: ClientTiming,
    /// The lifetime that is requested, in seconds.
    pub(crate) lifetime: u32,
    /// The family of the relayed address that is requested.
    pub(crate) family: Option<AddressFamily>,
    pub(crate) phase: Phase,
    /// The Allocate or Refresh request that waits for its response.
    pub(crate) operation: Option<Operation>,
    pub(crate) allocation: Option<Allocation>,
    /// The server has the allocation until then, at least.
    pub(crate) until: Instant,
    /// When the allocation is renewed.
    pub(crate) renew: Instant,
    /// When a keep-alive is due, if nothing is sent before.
    pub(crate) quiet: Instant,
    /// No packet is sent before.
    pub(crate) paced: Instant,
    /// A keep-alive that is to be polled.
    pub(crate) alive: Option<TransId>,
    /// The code of a response to the last renewal that nobody signed.
    pub(crate) doubt: Option<u16>,
    /// What is to be polled.
    pub(crate) made: Option<Allocation>,
    pub(crate) ending: Option<Ending>,
}

impl Session {
    pub(crate) fn new(
        server: SocketAddr,
        family: Option<AddressFamily>,
        timing: ClientTiming,
        lifetime: u32,
    ) -> Session
        ensures { result ≡ new_session server family timing lifetime }
    {
        Session {
            server,
            tried: Tried::new(server),
            timing,
            lifetime,
            family,
            phase: Phase::New,
            operation: None,
            allocation: None,
            until: Instant(0),
            renew: Instant(0),
            quiet: Instant(0),
            paced: Instant(0),
            alive: None,
            doubt: None,
            made: None,
            ending: None,
        }
    }

    /// The timing of the pending request: while a client closes, a request is sent at most twice, and over TCP once.
    pub(crate) fn request_timing(&self) -> ClientTiming
        ensures { result ≡ request_timing self.now }
    {
        match self.phase {
            Phase::Leaving | Phase::Closing => ClientTiming {
                requests: self.timing.requests.min(CLOSING_REQUESTS),
                ..self.timing
            },
            _ => self.timing,
        }
    }

    /// Begins a request.
    pub(crate) fn begin(&mut self, now: Instant, request: Request)
        ensures { self.new ≡ with_request now request self.old }
    {
        self.operation = Some(Operation::new(request, now));
    }

    pub(crate) fn ask(&mut self, now: Instant)
        ensures { self.new ≡ with_request now (allocate self.old) self.old }
    {
        self.begin(now, Request::Allocate(self.lifetime, self.family));
    }

    pub(crate) fn start(&mut self, now: Instant)
        ensures { self.new ≡ turn_started now self.old }
    {
        if self.phase == Phase::New {
            self.phase = Phase::Asking;
            self.ask(now);
        }
    }

    // ---- ends

    /// Ends the client: `Ended` is its last event.
    pub(crate) fn end(&mut self, ending: Ending)
        ensures { self.new ≡ ended ending self.old }
    {
        self.phase = Phase::Ended;
        self.operation = None;
        self.allocation = None;
        self.alive = None;
        self.ending = Some(ending);
    }

    /// Frees the allocation.
    pub(crate) fn free(&mut self, now: Instant)
        ensures { self.new ≡ freed now self.old }
    {
        self.phase = Phase::Closing;
        self.allocation = None;
        self.alive = None;
        self.begin(now, Request::Refresh(0));
    }

    /// Whether the server may have made an allocation for a request that was sent: one of a client without credentials, or a signed one.
    fn may_be_made(&self, has_credentials: bool) -> bool
        ensures { result ≡ may_be_made has_credentials self.now }
    {
        match self.operation {
            Some(operation) => match operation.attempts.last {
                Some(attempt) => !has_credentials || attempt.key.is_some(),
                None => false,
            },
            None => false,
        }
    }

    /// The user closes the client.
    pub(crate) fn close(&mut self, now: Instant, has_credentials: bool)
        ensures { self.new ≡ turn_closed now has_credentials self.old }
    {
        match self.phase {
            Phase::Ready => self.free(now),
            Phase::Closing | Phase::Leaving | Phase::Ended => {}
            Phase::Asking | Phase::New => {
                if self.may_be_made(has_credentials) {
                    self.leave();
                } else {
                    self.end(Ending {
                        why: Why::Closed,
                        code: None,
                        unverified: None,
                    });
                }
            }
        }
    }

    /// Waits for the allocation that may have been made, to free it.
    fn leave(&mut self)
        ensures { self.new ≡ left self.old }
    {
        self.phase = Phase::Leaving;
        if let Some(operation) = self.operation {
            self.operation = Some(Operation {
                sent: 0,
                ..operation
            });
        }
    }

    /// The socket is gone: the client ends, and sends nothing more.
    pub(crate) fn lose(&mut self)
        ensures { self.new ≡ turn_lost self.old }
    {
        let why = match self.phase {
            Phase::New | Phase::Asking => Why::Failed,
            Phase::Ready => Why::Lost,
            Phase::Leaving | Phase::Closing => Why::Closed,
            Phase::Ended => return,
        };
        self.end(Ending {
            why,
            code: None,
            unverified: None,
        });
    }

    // ---- leases

    /// Whether the relayed address is to have the version 6.
    fn is_v6_family(&self) -> bool
        ensures { result ≡ is_v6_family self.now.family }
    {
        match self.family {
            Some(AddressFamily::Ipv6) => true,
            _ => false,
        }
    }

    /// Whether permissions are taken: there is an allocation, or one is requested, and the peer has its IP version.
    pub(crate) fn may_permit(&self, peer: SocketAddr) -> bool
        ensures { result ≡ may_permit peer self.now }
    {
        match self.phase {
            Phase::Asking | Phase::Ready => {
                if self.is_v6_family() {
                    is_v6(peer)
                } else {
                    !is_v6(peer)
                }
            }
            _ => false,
        }
    }

    /// Asks the server whether it has the allocation.
    pub(crate) fn probe(&mut self, now: Instant)
        ensures { self.new ≡ probed now self.old }
    {
        if self.phase == Phase::Ready && self.operation.is_none() {
            self.begin(now, Request::Refresh(self.lifetime));
        }
    }

    /// An error response to the request for a lease: 437 and 441 say that there is no allocation of ours. At others but 403 and 443 the
    /// server is asked: some return 400 if they have no allocation.
    pub(crate) fn lease_failed(&mut self, now: Instant, code: u16)
        ensures { self.new ≡ lease_failed now code self.old }
    {
        if code == 437 || code == 441 {
            self.end(Ending {
                why: Why::Lost,
                code: Some(code),
                unverified: None,
            });
        } else if code != 403 && code != 443 {
            self.probe(now);
        }
    }

    /// Data is sent: a keep-alive is due later.
    pub(crate) fn is_sending_data(&mut self, now: Instant)
        ensures { self.new ≡ quiet_after now self.old }
    {
        self.quiet = now + self.timing.keep_alive;
    }
}

fn is_v6(peer: SocketAddr) -> bool
    ensures { result ≡ is_v6 peer }
{
    match peer {
        SocketAddr::V4(_) => false,
        SocketAddr::V6(_) => true,
    }
}
