//! What the clock does to the allocation of a TURN client.

ghost use Rattle.std.specs.Prelude.{◌≡◌};
ghost use Rattle.is_turn.specs.Session.{with_renewal, due_of, keep_alive_due, step_of, tried_with, repeated_at, sending, kept_alive, lapsed};
ghost use Rattle.is_turn.specs.Session.{next_turn_time, with_end, paced_at, earlier, without_pace};

use crate::attempts::Attempt;
use crate::operation::Operation;
use crate::requests::Request;
use crate::session::{Ending, Phase, Session, Step, Why};
use is_proto::{Duration, Instant};
use is_stun::stun::TransId;

/// The least time between two packets of a client (RFC 8445, section 14.2), unless a response came since the first one.
const PACE: Duration = Duration(5_000_000);

impl Session {
    /// Begins the renewal that is due.
    fn renew_if_due(&mut self, now: Instant)
        ensures { self.new ≡ with_renewal now self.old }
    {
        if self.phase == Phase::Ready && self.operation.is_none() && self.renew <= now {
            self.begin(now, Request::Refresh(self.lifetime));
        }
    }

    /// What the pending request has due.
    fn due_of(&self, now: Instant, operation: &Operation) -> Step
        ensures { result ≡ due_of now self.now operation.now }
    {
        if now < operation.due {
            self.keep_alive_due(now)
        } else if operation.is_fresh {
            Step::Attempt
        } else if operation.is_exhausted(&self.request_timing()) {
            Step::TimeOut
        } else {
            Step::Repeat
        }
    }

    fn keep_alive_due(&self, now: Instant) -> Step
        ensures { result ≡ keep_alive_due now self.now }
    {
        if self.phase == Phase::Ready && self.quiet <= now {
            Step::KeepAlive
        } else {
            Step::Nothing
        }
    }

    /// What the time makes due.
    fn step(&self, now: Instant) -> Step
        ensures { result ≡ step_of now self.now }
    {
        if self.phase == Phase::Ready && self.until <= now {
            return Step::Lapse;
        }
        if now < self.paced {
            return Step::Nothing;
        }
        match &self.operation {
            Some(operation) => self.due_of(now, operation),
            None => self.keep_alive_due(now),
        }
    }

    /// Begins the renewal that is due, and returns what else is.
    pub(crate) fn advance(&mut self, now: Instant) -> Step
        ensures renewed { self.new ≡ with_renewal now self.old }
        ensures step { result ≡ step_of now self.new }
    {
        self.renew_if_due(now);
        self.step(now)
    }

    /// Another attempt, with this ID and key.
    pub(crate) fn attempt(&mut self, now: Instant, id: TransId, key: Option<[u8; 16]>)
        ensures { self.new ≡ tried_with now id key self.old }
    {
        let timing = self.request_timing();
        if let Some(operation) = self.operation {
            let attempt = Attempt {
                id,
                key,
                since: now,
            };
            self.operation = Some(operation.attempted(attempt, &timing));
            self.is_sending(now);
        }
    }

    /// Another packet of the last attempt, if there is one more.
    pub(crate) fn repeat(&mut self, now: Instant)
        ensures { self.new ≡ repeated_at now self.old }
    {
        let timing = self.request_timing();
        if let Some(operation) = self.operation {
            if !operation.is_exhausted(&timing) {
                self.operation = Some(operation.sent_once_more(now, &timing));
                self.is_sending(now);
            }
        }
    }

    /// A packet is to be polled: the next one follows 5 ms later at the earliest, or after a response, and a keep-alive after the usual time.
    pub(crate) fn is_sending(&mut self, now: Instant)
        ensures { self.new ≡ sending now self.old }
    {
        self.paced = now + PACE;
        self.quiet = now + self.timing.keep_alive;
    }

    /// A response makes another request due: its packet may go at once.
    pub(crate) fn end_pace(&mut self, now: Instant)
        ensures { self.new ≡ without_pace now self.old }
    {
        self.paced = earlier(now, self.paced);
    }

    /// A keep-alive with this ID.
    pub(crate) fn keep_alive(&mut self, now: Instant, id: TransId)
        ensures { self.new ≡ kept_alive now id self.old }
    {
        self.alive = Some(id);
        self.is_sending(now);
    }

    /// The allocation is at its end.
    pub(crate) fn lapse(&mut self)
        ensures { self.new ≡ lapsed self.old }
    {
        self.end(Ending {
            why: Why::Lost,
            code: None,
            unverified: self.doubt,
        });
    }

    /// Returns when something is due.
    pub(crate) fn next_time(&self) -> Option<Instant>
        ensures { result ≡ next_turn_time self.now }
    {
        match self.operation {
            Some(operation) => Some(self.with_end(paced_at(operation.due, self.paced))),
            None if self.phase == Phase::Ready => Some(self.with_end(self.renew)),
            None => None,
        }
    }

    /// The earliest of this time and, with an allocation, of the next keep-alive and its end.
    fn with_end(&self, time: Instant) -> Instant
        ensures { result ≡ with_end time self.now }
    {
        if self.phase == Phase::Ready {
            earlier(time, earlier(self.until, paced_at(self.quiet, self.paced)))
        } else {
            time
        }
    }
}

/// A packet that is due then goes out no sooner than the pace allows.
fn paced_at(due: Instant, paced: Instant) -> Instant
    ensures { result ≡ paced_at due paced }
{
    Instant(due.0.max(paced.0))
}

fn earlier(a: Instant, b: Instant) -> Instant
    ensures { result ≡ earlier a b }
{
    Instant(a.0.min(b.0))
}
