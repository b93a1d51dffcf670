//! The silence of a pair: its checks after the last one that had a response. With `Modern` a selected pair that is silent is left once
//! another pair had a response meanwhile.

ghost use Rattle.std.specs.Prelude.{◌≡◌, nat_le};
ghost use Rattle.is_pair.specs.Checks.{unanswered_count};
ghost use Rattle.is_pair.specs.Silence.{is_answered_by, is_answered_within, is_long_silent, last_sent, outlives, silence_of, silence_until, span_from};

use super::attempt::BindingAttempt;
use super::due::is_within;
use super::{CandidatePair, attempts};
use is_proto::{Duration, Instant};
use is_stun::stun::StunTiming;

/// So many checks of the silent pair have to follow the response that another pair had: after an outage of the whole network the silent pair
/// has that many chances to respond, too.
const FOLLOWING: usize = 4;

/// How long a silent pair is kept at least, from the time on at which the check after its last answered one was due at the latest: if three of
/// ten packets are lost, all its checks of that time are rarely lost, however many `max_retransmits` are.
const LEAST_SILENCE: Duration = Duration(850_000_000);

/// The time from a check to a later one.
#[derive(Clone, Copy, Debug)]
pub struct Span {
    /// When the first was sent.
    pub from: Instant,
    /// When the last was sent.
    pub to: Instant,
}

impl BindingAttempt {
    /// Whether the check had a response by then.
    fn is_answered_by(&self, at: Instant) -> bool
        ensures { result ≡ is_answered_by at.0 self.now }
    {
        match self.response_received {
            Some(received) => received < at,
            None => false,
        }
    }

    /// Whether the check was sent in that time, and had a response in it.
    fn is_answered_within(&self, span: Span) -> bool
        ensures { result ≡ is_answered_within span self.now }
    {
        self.is_answered_by(span.to) && span.from < self.request_sent && self.request_sent < span.to
    }
}

/// The time from one check to another one, if there are such.
fn span_from(first: Option<BindingAttempt>, last: Option<BindingAttempt>) -> Option<Span>
    ensures { result ≡ span_from first last }
{
    match first {
        Some(first) => match last {
            Some(last) => Some(Span {
                from: first.request_sent,
                to: last.request_sent,
            }),
            None => None,
        },
        None => None,
    }
}

// ---- for the agent, but not for its users

/// Whether none of the last `max_retransmits` checks had a response.
pub fn is_wholly_silent(pair: &CandidatePair, timing: &StunTiming) -> bool
    ensures { result ≡ nat_le timing.now.max_retransmits (unanswered_count pair.now.checks) }
{
    timing.max_retransmits() <= attempts::unanswered(&pair.binding_attempts)
}

/// Whether the last check of the pair that had a response was sent long ago.
pub fn is_long_silent(pair: &CandidatePair, timing: &StunTiming, now: Instant) -> bool
    ensures { result ≡ is_long_silent now.0 timing.now pair.now }
{
    let span = timing.max_rto().saturating_add(LEAST_SILENCE);
    !is_within(span, now, pair.consented)
}

/// Returns how many checks were lost: they had no response yet when a later one had its first; not those before the pair's first response.
pub fn lost_checks(pair: &CandidatePair) -> u32
    ensures { result ≡ pair.now.lost }
{
    pair.lost_checks
}

/// Returns when the last check was sent, or 0 if there was none.
pub fn last_sent(pair: &CandidatePair) -> Instant
    ensures { result.0 ≡ last_sent pair.now.checks }
{
    match attempts::last(&pair.binding_attempts) {
        Some(check) => check.request_sent,
        None => Instant(0),
    }
}

/// Returns the time from the first check without a response to the first of the last four.
pub fn silence_of(pair: &CandidatePair) -> Option<Span>
    ensures { result ≡ silence_of pair.now.checks }
{
    span_from(
        attempts::first_unanswered(&pair.binding_attempts),
        attempts::first_of_last(&pair.binding_attempts, FOLLOWING),
    )
}

/// Returns the time from the first of the last four checks without a response until now.
pub fn silence_until(pair: &CandidatePair, now: Instant) -> Option<Span>
    ensures { result ≡ silence_until now.0 pair.now.checks }
{
    let count = FOLLOWING.min(attempts::unanswered(&pair.binding_attempts));
    if count == 0 {
        return None;
    }
    match attempts::first_of_last(&pair.binding_attempts, count) {
        Some(first) => Some(Span {
            from: first.request_sent,
            to: now,
        }),
        None => None,
    }
}

/// Whether a check of the pair that was sent in that time had a response in it.
pub fn outlives(pair: &CandidatePair, span: Span) -> bool
    ensures { result ≡ outlives span pair.now }
{
    pair.binding_attempts
        .iter()
        .any(|attempt| attempt.is_answered_within(span))
}
