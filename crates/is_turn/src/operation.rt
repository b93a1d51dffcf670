//! A request of a TURN client with its repetitions (RFC 8489, section 6.2.1).

ghost use Rattle.std.specs.Prelude.{◌≡◌, ◌<◌};
ghost use Rattle.is_turn.specs.Operations.{new_operation, attempted, repeat_wait, sent_once_more, polled, hinted, doubted, stale_count, another, is_allowed, takes_challenge, is_exhausted};

use crate::attempts::{Attempt, Attempts};
use crate::requests::Request;
use crate::timing::ClientTiming;
use is_proto::{Duration, Instant};
use is_stun::stun::TransId;

/// How many responses 438 an operation takes as challenges.
const STALE_LIMIT: u32 = 3;

/// A request that waits for its response.
#[derive(Clone, Copy, Debug, PartialEq, Eq)]
pub(crate) struct Operation {
    pub(crate) request: Request,
    pub(crate) attempts: Attempts,
    /// Whether the next packet is another attempt, under another transaction ID.
    pub(crate) is_fresh: bool,
    /// How many times the last attempt was sent, the packet that is to be polled included.
    pub(crate) sent: u32,
    /// The wait after the last time.
    pub(crate) wait: Duration,
    /// When the request is sent again, or times out.
    pub(crate) due: Instant,
    /// Whether a packet of the request is to be polled.
    pub(crate) is_waiting: bool,
    /// Whether a 401 to a signed attempt was taken as a challenge.
    pub(crate) is_denied: bool,
    /// How many 438 were taken as challenges.
    pub(crate) stale: u32,
    /// The code of the last response that counts for nothing; 200: a success response.
    pub(crate) doubt: Option<u16>,
}

/// How many 438 were taken, with this challenge.
fn stale_count(code: u16, stale: u32) -> u32
    ensures { result ≡ stale_count code stale }
{
    if code == 438 {
        stale.saturating_add(1)
    } else {
        stale
    }
}

impl Operation {
    /// A request that is due at once.
    pub(crate) fn new(request: Request, now: Instant) -> Operation
        ensures { result ≡ new_operation request now }
    {
        Operation {
            request,
            attempts: Attempts::new(),
            is_fresh: true,
            sent: 0,
            wait: Duration(0),
            due: now,
            is_waiting: false,
            is_denied: false,
            stale: 0,
            doubt: None,
        }
    }

    /// The first packet of another attempt.
    pub(crate) fn attempted(self, attempt: Attempt, timing: &ClientTiming) -> Operation
        ensures { result ≡ attempted attempt timing.now self }
    {
        let wait = timing.first_wait();
        Operation {
            attempts: self.attempts.and(attempt),
            is_fresh: false,
            sent: 1,
            wait,
            due: attempt.since + wait,
            is_waiting: true,
            ..self
        }
    }

    /// Whether each packet of the last attempt was sent.
    pub(crate) fn is_exhausted(&self, timing: &ClientTiming) -> bool
        ensures { result ≡ is_exhausted timing.now self.now }
    {
        self.sent >= timing.requests
    }

    /// The wait after the next packet of the last attempt.
    fn repeat_wait(&self, timing: &ClientTiming) -> Duration
        requires { self.now.sent < timing.now.requests }
        ensures { result.0 ≡ repeat_wait timing.now self.now }
    {
        if self.sent == 0 {
            timing.first_wait()
        } else {
            timing.next_wait(self.sent + 1, self.wait)
        }
    }

    /// Another packet of the last attempt.
    pub(crate) fn sent_once_more(self, now: Instant, timing: &ClientTiming) -> Operation
        requires { self.sent < timing.now.requests }
        ensures { result ≡ sent_once_more now timing.now self }
    {
        let wait = self.repeat_wait(timing);
        Operation {
            sent: self.sent + 1,
            wait,
            due: now + wait,
            is_waiting: true,
            ..self
        }
    }

    /// The packet was polled.
    pub(crate) fn polled(self) -> Operation
        ensures { result ≡ polled self }
    {
        Operation {
            is_waiting: false,
            ..self
        }
    }

    /// A response that counts for nothing: only its code is kept, for the log.
    pub(crate) fn doubted(self, code: u16) -> Operation
        ensures { result ≡ doubted code self }
    {
        Operation {
            doubt: Some(code),
            ..self
        }
    }

    /// A hint: the request is not sent again, and times out one RTO later, unless a genuine response or a challenge comes.
    pub(crate) fn hinted(self, now: Instant, code: u16, timing: &ClientTiming) -> Operation
        ensures { result ≡ hinted now code timing.now self }
    {
        Operation {
            doubt: Some(code),
            sent: timing.requests,
            due: Instant(self.due.0.min((now + timing.rto).0)),
            ..self
        }
    }

    /// Whether a challenge with this code to the attempt of this transaction ID is taken: to the last attempt, and within the limits.
    pub(crate) fn takes_challenge(&self, id: TransId, is_signed: bool, code: u16) -> bool
        ensures { result ≡ takes_challenge id is_signed code self.now }
    {
        !self.is_fresh && self.attempts.is_last(id) && self.is_allowed(is_signed, code)
    }

    /// Of 438 three are taken, of 401 to a signed attempt one.
    fn is_allowed(&self, is_signed: bool, code: u16) -> bool
        ensures { result ≡ is_allowed is_signed code self.now }
    {
        if code == 438 {
            self.stale < STALE_LIMIT
        } else {
            !(is_signed && self.is_denied)
        }
    }

    /// Another attempt is due at once: a challenge with this code was taken.
    pub(crate) fn another(self, now: Instant, is_signed: bool, code: u16) -> Operation
        ensures { result ≡ another now is_signed code self }
    {
        Operation {
            is_fresh: true,
            is_waiting: false,
            due: now,
            is_denied: self.is_denied || is_signed && code == 401,
            stale: stale_count(code, self.stale),
            ..self
        }
    }
}
