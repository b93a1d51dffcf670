//! What a genuine response to the request for an allocation does to it, and what none does (RFC 8656, sections 7.3 and 8.3).

ghost use Rattle.std.specs.Prelude.{◌≡◌};
ghost use Rattle.is_turn.specs.Session.{extended, is_allocated, is_refreshed, is_redirected, doubt_of, unverified, not_allocated, has_failed, not_renewed};

use crate::session::{Allocation, Ending, Phase, Session, Why};
use is_proto::{Duration, Instant};
use std::net::SocketAddr;

/// How long before its end an allocation is renewed, or half of its lifetime before, if that is less.
const LEAD: u64 = 120_000_000_000;

/// How long after a renewal that failed the next one begins.
const RETRY: Duration = Duration(10_000_000_000);

/// The longest lifetime that counts, in seconds.
const LONGEST_LIFETIME: u32 = 3600;

impl Session {
    /// The server has the allocation for so many seconds from the attempt on.
    fn extend(&mut self, since: Instant, seconds: u32)
        ensures { self.new ≡ extended since seconds self.old }
    {
        let lifetime = u64::from(seconds.min(LONGEST_LIFETIME)) * 1_000_000_000;
        let lead = LEAD.min(lifetime / 2);
        self.until = since + Duration(lifetime);
        self.renew = since + Duration(lifetime - lead);
    }

    /// A success response to Allocate. A client that was closed frees the allocation.
    pub(crate) fn take_allocation(
        &mut self,
        now: Instant,
        since: Instant,
        seconds: u32,
        allocation: Allocation,
    )
        ensures { self.new ≡ is_allocated now since seconds allocation self.old }
    {
        self.extend(since, seconds);
        if self.phase == Phase::Leaving {
            self.end_pace(now);
            self.free(now);
        } else {
            self.phase = Phase::Ready;
            self.operation = None;
            self.allocation = Some(allocation);
            self.made = Some(allocation);
            self.quiet = now + self.timing.keep_alive;
        }
    }

    /// A success response to Refresh: of a client that closes the end; with a lifetime of 0 the allocation is gone.
    pub(crate) fn take_refresh(&mut self, since: Instant, seconds: u32)
        ensures { self.new ≡ is_refreshed since seconds self.old }
    {
        if self.phase == Phase::Closing {
            self.end(Ending {
                why: Why::Closed,
                code: None,
                unverified: None,
            });
        } else if seconds == 0 {
            self.end(Ending {
                why: Why::Lost,
                code: None,
                unverified: None,
            });
        } else {
            self.extend(since, seconds);
            self.operation = None;
        }
    }

    /// The server names another one, which is asked next.
    pub(crate) fn redirect(&mut self, now: Instant, server: SocketAddr)
        ensures { self.new ≡ is_redirected now server self.old }
    {
        self.server = server;
        self.tried = self.tried.and(server);
        self.end_pace(now);
        self.ask(now);
    }

    /// The code of a response that nobody signed to the pending request.
    fn doubt_of_operation(&self) -> Option<u16>
        ensures { result ≡ doubt_of self.now }
    {
        self.operation?.doubt
    }

    /// An error response of the server, or none.
    pub(crate) fn fail(&mut self, now: Instant, code: Option<u16>)
        ensures { self.new ≡ has_failed now code self.old }
    {
        match self.phase {
            Phase::Leaving | Phase::Closing => self.end(Ending {
                why: Why::Closed,
                code,
                unverified: None,
            }),
            Phase::Ready => self.fail_to_renew(now, code),
            _ => self.fail_to_allocate(code),
        }
    }

    /// Without an error response the code of one that nobody signed is named.
    fn unverified(&self, code: Option<u16>) -> Option<u16>
        ensures { result ≡ unverified code self.now }
    {
        if code.is_some() {
            None
        } else {
            self.doubt_of_operation()
        }
    }

    fn fail_to_allocate(&mut self, code: Option<u16>)
        ensures { self.new ≡ not_allocated code self.old }
    {
        let unverified = self.unverified(code);
        self.end(Ending {
            why: Why::Failed,
            code,
            unverified,
        });
    }

    /// A renewal failed: 437 and 441 say that there is no allocation of ours; else it is tried again until the end.
    fn fail_to_renew(&mut self, now: Instant, code: Option<u16>)
        ensures { self.new ≡ not_renewed now code self.old }
    {
        if code == Some(437) || code == Some(441) {
            self.end(Ending {
                why: Why::Lost,
                code,
                unverified: None,
            });
        } else {
            self.doubt = self.doubt_of_operation();
            self.renew = now + RETRY;
            self.operation = None;
        }
    }
}
