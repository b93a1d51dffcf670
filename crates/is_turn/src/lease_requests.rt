//! The request for a permission or a channel: its packets, and what a response does to it (RFC 8656, sections 9.4 and 12.3).

ghost use Rattle.std.specs.Prelude.{◌≡◌};
ghost use Rattle.is_stun.specs.MessageView.{message_view};
ghost use Rattle.is_turn.specs.Operations.{doubted, hinted, another};
ghost use Rattle.is_turn.specs.Leases.{later_end, lifetime_for, lasts_since, is_barring, report_for, barred_at, retried_at, failed_at};
ghost use Rattle.is_turn.specs.Leases.{is_answered_by, is_to_be_sent, is_reported, lease_step, lease_attempted, lease_repeated, lease_polled, due_of, is_due_by, renewal_time, time_or_never, without_report, changed};

use crate::attempts::Attempt;
use crate::lease::{Lease, NotPermitted};
use crate::outcome::answered_in;
use crate::session::Step;
use crate::timing::ClientTiming;
use is_proto::{Duration, Instant};
use is_stun::stun::{StunMessage, TransId};

/// How long before its end a lease is renewed, or half of its lifetime before, if that is less.
const LEAD: u64 = 120_000_000_000;

/// How long after a renewal that failed the next one begins.
const RETRY: Duration = Duration(10_000_000_000);

/// How long what is barred is not requested again.
const BARRED: Duration = Duration(60_000_000_000);

/// How long a permission lasts (RFC 8656, section 9).
const PERMISSION: Duration = Duration(300_000_000_000);

/// How long a channel lasts (RFC 8656, section 12).
const CHANNEL: Duration = Duration(600_000_000_000);

/// How long a lease lasts.
fn lifetime_for(number: Option<u16>) -> Duration
    ensures { result.0 ≡ lifetime_for number }
{
    match number {
        Some(_) => CHANNEL,
        None => PERMISSION,
    }
}

/// The later one of the end so far and this one.
fn later_end(last: Option<Instant>, until: Instant) -> Instant
    ensures { result ≡ later_end last until }
{
    match last {
        Some(last) => Instant(last.0.max(until.0)),
        None => until,
    }
}

/// 403, Forbidden, and 443, Peer Address Family Mismatch (RFC 8656, section 19).
fn is_barring(code: Option<u16>) -> bool
    ensures { result ≡ is_barring code }
{
    code == Some(403) || code == Some(443)
}

/// What is reported: of permissions only.
fn report_for(number: Option<u16>, code: Option<u16>) -> Option<NotPermitted>
    ensures { result ≡ report_for number code }
{
    match number {
        Some(_) => None,
        None => Some(NotPermitted { code }),
    }
}

impl Lease {
    // ---- responses

    /// The server has the lease from the attempt on.
    pub(crate) fn lasts_since(self, since: Instant) -> Lease
        ensures { result ≡ lasts_since since self }
    {
        let lifetime = lifetime_for(self.number);
        let lead = LEAD.min(lifetime.0 / 2);
        Lease {
            until: Some(later_end(self.until, since + lifetime)),
            renew: since + Duration(lifetime.0 - lead),
            operation: None,
            ..self
        }
    }

    fn barred_at(self, now: Instant, code: Option<u16>) -> Lease
        ensures { result ≡ barred_at now code self }
    {
        Lease {
            until: None,
            barred: Some(now + BARRED),
            operation: None,
            report: report_for(self.number, code),
            ..self
        }
    }

    fn retried_at(self, now: Instant) -> Lease
        ensures { result ≡ retried_at now self }
    {
        Lease {
            asked: None,
            renew: now + RETRY,
            operation: None,
            ..self
        }
    }

    /// An error response of the server, or none. 403 and 443 end the lease, and any error does if there was none yet; else the renewal
    /// is tried again, until the end.
    pub(crate) fn failed_at(self, now: Instant, code: Option<u16>) -> Lease
        ensures { result ≡ failed_at now code self }
    {
        if self.until.is_none() || is_barring(code) {
            self.barred_at(now, code)
        } else {
            self.retried_at(now)
        }
    }

    // ---- its request

    /// Whether a message answers an attempt of the request for the lease.
    pub(crate) fn is_answered_by(&self, message: &StunMessage<'_>) -> bool
        ensures { result ≡ is_answered_by (message_view message.now) self.now }
    {
        match &self.operation {
            Some(operation) => answered_in(operation, message).is_some(),
            None => false,
        }
    }

    /// Whether a packet is to be polled.
    pub(crate) fn is_to_be_sent(&self) -> bool
        ensures { result ≡ is_to_be_sent self.now }
    {
        match &self.operation {
            Some(operation) => operation.is_waiting && operation.attempts.last.is_some(),
            None => false,
        }
    }

    /// Whether the user is to hear of the lease.
    pub(crate) fn is_reported(&self) -> bool
        ensures { result ≡ is_reported self.now }
    {
        self.report.is_some()
    }

    /// What the request for the lease has due.
    pub(crate) fn step(&self, timing: &ClientTiming) -> Step
        ensures { result ≡ lease_step timing.now self.now }
    {
        match &self.operation {
            Some(operation) => {
                if operation.is_fresh {
                    Step::Attempt
                } else if operation.is_exhausted(timing) {
                    Step::TimeOut
                } else {
                    Step::Repeat
                }
            }
            None => Step::Nothing,
        }
    }

    /// Another attempt, with this ID and key.
    pub(crate) fn attempted(
        self,
        now: Instant,
        id: TransId,
        key: Option<[u8; 16]>,
        timing: &ClientTiming,
    ) -> Lease
        ensures { result ≡ lease_attempted now id key timing.now self }
    {
        let attempt = Attempt {
            id,
            key,
            since: now,
        };
        match self.operation {
            Some(operation) => Lease {
                operation: Some(operation.attempted(attempt, timing)),
                ..self
            },
            None => self,
        }
    }

    /// The last attempt once more, if there is one more.
    pub(crate) fn repeated(self, now: Instant, timing: &ClientTiming) -> Lease
        ensures { result ≡ lease_repeated now timing.now self }
    {
        match self.operation {
            Some(operation) => {
                if operation.is_exhausted(timing) {
                    self
                } else {
                    Lease {
                        operation: Some(operation.sent_once_more(now, timing)),
                        ..self
                    }
                }
            }
            None => self,
        }
    }

    /// The lease after its packet was polled.
    pub(crate) fn polled(self) -> Lease
        ensures { result ≡ lease_polled self }
    {
        match self.operation {
            Some(operation) => Lease {
                operation: Some(operation.polled()),
                ..self
            },
            None => self,
        }
    }

    /// The lease after its report was polled.
    pub(crate) fn without_report(self) -> Lease
        ensures { result ≡ without_report self }
    {
        Lease {
            report: None,
            ..self
        }
    }

    /// A response that counts for nothing: only its code is kept.
    pub(crate) fn doubted(self, code: u16) -> Lease
        ensures { result ≡ changed (doubted code) self }
    {
        match self.operation {
            Some(operation) => Lease {
                operation: Some(operation.doubted(code)),
                ..self
            },
            None => self,
        }
    }

    /// A hint: the request for the lease is not sent again.
    pub(crate) fn hinted(self, now: Instant, code: u16, timing: &ClientTiming) -> Lease
        ensures { result ≡ changed (hinted now code timing.now) self }
    {
        match self.operation {
            Some(operation) => Lease {
                operation: Some(operation.hinted(now, code, timing)),
                ..self
            },
            None => self,
        }
    }

    /// Another attempt is due at once: a challenge was taken.
    pub(crate) fn another(self, now: Instant, is_signed: bool, code: u16) -> Lease
        ensures { result ≡ changed (another now is_signed code) self }
    {
        match self.operation {
            Some(operation) => Lease {
                operation: Some(operation.another(now, is_signed, code)),
                ..self
            },
            None => self,
        }
    }

    // ---- when something is due

    /// When the request for the lease has something due.
    pub(crate) fn due(&self) -> Instant
        ensures { result.0 ≡ due_of self.now }
    {
        match &self.operation {
            Some(operation) => operation.due,
            None => Instant(u64::MAX),
        }
    }

    pub(crate) fn is_due_by(&self, time: Instant) -> bool
        ensures { result ≡ is_due_by time.0 self.now }
    {
        match &self.operation {
            Some(operation) => operation.due <= time,
            None => false,
        }
    }

    /// When the lease ends, if the server has it.
    pub(crate) fn end(&self) -> Instant
        ensures { result.0 ≡ time_or_never self.now.until }
    {
        match self.until {
            Some(until) => until,
            None => Instant(u64::MAX),
        }
    }

    /// When the lease is renewed, if it is in use.
    pub(crate) fn renewal_time(&self) -> Instant
        ensures { result.0 ≡ renewal_time self.now }
    {
        if self.operation.is_none() && self.barred.is_none() && self.is_in_use() {
            self.renew
        } else {
            Instant(u64::MAX)
        }
    }
}
