//! When a pair is due for its next check, and when it fails.

ghost use Rattle.std.specs.Prelude.{◌≡◌, ◌<◌, ◌||◌, ◌+◌, is_some, min, option_map};
ghost use Rattle.is_proto.specs.Times.{MAX, later};
ghost use Rattle.is_pair.specs.Pairs.{is_valid, undue};
ghost use Rattle.is_pair.specs.Due.{scheduled, delaying_count, due_time_of, long_before, next_due_time, computed_due_time};
ghost use Rattle.is_pair.specs.Due.{has_checks_left, is_heard, is_possible, possible_until, request_end, response_end, series_end, series_start};
ghost use Rattle.is_pair.specs.Due.{early_span, is_asked_first};
ghost use Rattle.is_pair.specs.Due.{delay_of, hushed_delay, hushed_interval, is_hushed, modern_delay, repeated_delay, response_wait, is_beginning, is_early_on, is_repeated_early, is_triggered, is_urgent, is_within, moved_up, silent_count, triggered, usual_delay};

use super::attempt::BindingAttempt;
use super::requests::RECENT_BINDING_REQUEST;
use super::states::{CheckState, NominationState};
use super::{CandidatePair, attempts};
use is_proto::{Duration, Instant};
use is_stun::stun::{StunTiming, early_delay};
use std::collections::VecDeque;

/// How long before now a nominated pair without a check since its nomination is due, so that it comes before all
/// others.
const HEAD_START: Duration = Duration(60_000_000_000);

/// How long a pair is at its beginning after its first check: four checks of it are sent by then.
const BEGINNING: Duration = Duration(500_000_000);

/// How long checks without a response are repeated early, at most as long as a whole series of checks takes: after the first check, and
/// again after the first one that follows a request of the peer. By then the loss of each of nine checks, or of its response, is unlikely,
/// and a path that is slow or dead is not filled (RFC 8489, section 6.2.1).
const EARLY_TIME: Duration = Duration(2_150_000_000);

/// How long checks without a response are repeated early if the pair's first check followed a request of the peer. Whoever sees a request
/// can replay it from any address. So an address that never answers gets at most eleven checks: seven early ones, and then one each 2.9 s
/// until the request is 15 s old.
const ASKED_TIME: Duration = Duration(1_200_000_000);

/// How long a nominated pair that is silent is checked quickly at least, from the time on at which the check after the last answered one was
/// due at the latest: so long both agents may take to leave the path.
const HUSHED_TIME: Duration = Duration(4_500_000_000);

/// The shortest delay after which a check of it is repeated.
const SHORT_INTERVAL: Duration = Duration(70_000_000);

/// The shortest delay after which a check of a silent nominated pair is repeated, after the time for which it is checked quickly.
const HUSHED_INTERVAL: Duration = Duration(500_000_000);

/// How much later than the one before a response may come, before the check is repeated: a longer jitter is rare, and costs only a
/// check. The next one is then repeated so much before its response is due.
const LATENESS: Duration = Duration(30_000_000);

/// A nominated pair with fewer checks without a response may be checked before others: more are rarely lost by chance, and others are to be
/// heard if it fell silent.
const URGENT_CHECKS: usize = 8;

/// Whether less than the span has passed since a time, if there is one.
pub(super) fn is_within(span: Duration, now: Instant, since: Option<Instant>) -> bool
    ensures { result ≡ is_within span.0 now.0 (option_map (λ at. at.0) since) }
{
    match since {
        Some(at) => now < at + span,
        None => false,
    }
}

impl CandidatePair {
    /// Returns the due time of the next check. The call fixes this time until a check is sent or a response arrives.
    ///
    /// A nominated pair without a check since its nomination is due before all others. A pair that was never checked is
    /// due now. Otherwise the check is due one RTO after the last one. The RTO depends on the number of pending
    /// transactions, or, if the peer has been silent for longer than half of `max_rto`, on the number of checks without a
    /// response. With `Modern`, checks without a response are repeated early at first: after 100 ms, later after at
    /// most 350 ms, and those of a nominated pair sooner. The due time is at most `max_rto` from now.
    pub fn next_binding_attempt(&mut self, now: Instant, timing_config: &StunTiming) -> Instant
        requires { 0 < timing_config.now.max_retransmits }
        ensures time { result.0 ≡ due_time_of now.0 timing_config.now self.old }
        ensures fixed { self.new ≡ scheduled now.0 timing_config.now self.old }
    {
        self.fix_due_time(now, timing_config)
    }

    /// Returns the due time of the next check, and fixes it, as `next_binding_attempt` for any timing.
    pub(crate) fn fix_due_time(&mut self, now: Instant, timing_config: &StunTiming) -> Instant
        ensures time { result.0 ≡ due_time_of now.0 timing_config.now self.old }
        ensures fixed { self.new ≡ scheduled now.0 timing_config.now self.old }
    {
        match self.cached_next_attempt_time {
            Some(fixed) => fixed,
            None => {
                let due = self.unfixed_due_time(now, timing_config);
                self.cached_next_attempt_time = Some(due);
                due
            }
        }
    }

    /// Returns the due time that `fix_due_time` would return, and fix, now.
    #[inline(always)]
    pub(crate) fn due_time_of(&self, now: Instant, timing_config: &StunTiming) -> Instant
        ensures { result.0 ≡ due_time_of now.0 timing_config.now self.now }
    {
        match self.cached_next_attempt_time {
            Some(fixed) => fixed,
            None => self.unfixed_due_time(now, timing_config),
        }
    }

    /// Returns the due time that `fix_due_time` would fix now, if none is fixed yet.
    #[inline(never)]
    fn unfixed_due_time(&self, now: Instant, timing_config: &StunTiming) -> Instant
        ensures { result.0 ≡ min (computed_due_time self.now.nomination now.0 timing_config.now self.now) (later now.0 timing_config.now.max_rto.0) }
    {
        let next = match self.nomination_state {
            NominationState::Nominated => long_before(now),
            _ => self.next_due_time(now, timing_config),
        };
        next.min(now + timing_config.max_rto())
    }

    /// Whether the path may still work. It fails if no check from the peer arrived for 15 s, `max_retransmits` checks
    /// had no response, and the delay after the last of them has passed. With `Modern` the time of a whole series of checks has to pass
    /// besides: since the first check if there was no response at all, unless that check followed a request; otherwise since the first one
    /// without.
    pub fn is_still_possible(&self, now: Instant, timing_config: &StunTiming) -> bool
        requires { 0 < timing_config.now.max_retransmits }
        ensures { result ≡ is_possible now.0 timing_config.now self.now }
    {
        // the peer's last check is one time, the checks are counted, and the deadline takes longest; a recent check keeps the pair at the
        // last `Instant` too, which no deadline exceeds
        self.is_heard(now)
            || self.has_checks_left(timing_config)
            || now < self.possible_until(timing_config)
    }

    /// Whether fewer than `max_retransmits` checks have no response.
    fn has_checks_left(&self, timing: &StunTiming) -> bool
        ensures { result ≡ has_checks_left timing.now self.now }
    {
        // if fewer are stored, they need not be counted
        self.binding_attempts.len() < timing.max_retransmits()
            || attempts::unanswered(&self.binding_attempts) < timing.max_retransmits()
    }

    /// Returns until when the pair is kept if no checks are left.
    fn possible_until(&self, timing: &StunTiming) -> Instant
        ensures { result.0 ≡ min (possible_until timing.now self.now) MAX }
    {
        self.request_end()
            .max(self.response_end(timing))
            .max(self.series_end(timing))
    }

    /// Returns the time 15 s after the peer's last check.
    pub(crate) fn request_end(&self) -> Instant
        ensures { result.0 ≡ min (request_end self.now) MAX }
    {
        match self.remote_binding_request_time {
            Some(at) => at + RECENT_BINDING_REQUEST,
            None => Instant(0),
        }
    }

    /// Returns until when the response to the last check may come.
    fn response_end(&self, timing: &StunTiming) -> Instant
        ensures { result.0 ≡ response_end timing.now self.now.checks }
    {
        match attempts::last(&self.binding_attempts) {
            Some(last) => last.request_sent + timing.stun_last_resend_delay(),
            None => Instant(0),
        }
    }

    /// Returns when a whole series of checks is over with `Modern`: checks are repeated early, so their time counts, and not only their number.
    fn series_end(&self, timing: &StunTiming) -> Instant
        ensures { result.0 ≡ series_end timing.now self.now }
    {
        if !timing.is_modern() {
            return Instant(0);
        }
        match self.series_start() {
            Some(at) => at + timing.timeout(),
            None => Instant(0),
        }
    }

    /// Returns when the checks without a response began: with the first check if there was no response, unless that check followed a request;
    /// otherwise with the first one without.
    fn series_start(&self) -> Option<Instant>
        ensures { option_map (λ at. at.0) result ≡ series_start self.now }
    {
        if self.responses_received == 0 {
            if self.is_asked_first() {
                None
            } else {
                self.first_sent
            }
        } else {
            match attempts::first_unanswered(&self.binding_attempts) {
                Some(first) => Some(first.request_sent),
                None => None,
            }
        }
    }

    /// Whether the pair's first check was sent less than half a second ago, or is still to be sent.
    #[inline(always)]
    pub(crate) fn is_beginning(&self, now: Instant) -> bool
        ensures { result ≡ is_beginning now.0 self.now }
    {
        match self.first_sent {
            Some(at) => now < at + BEGINNING,
            None => true,
        }
    }

    /// Returns the number of checks without a response: of all, as long as there was none.
    fn silent_count(&self) -> u64
        ensures { result ≡ silent_count self.now }
    {
        if self.responses_received == 0 {
            self.checks_sent
        } else {
            attempts::unanswered(&self.binding_attempts) as u64
        }
    }

    /// Whether less than 2.15 s have passed since the pair's first check, or since the first one after a request of the peer.
    fn is_begun_lately(&self, now: Instant) -> bool
        ensures { result ≡ (is_within EARLY_TIME.0 now.0 self.now.first_sent || is_within EARLY_TIME.0 now.0 self.now.first_after_request) }
    {
        is_within(EARLY_TIME, now, self.first_sent)
            || is_within(EARLY_TIME, now, self.first_after_request)
    }

    /// Whether the pair's first check followed a request of the peer. So it is with each pair that a request brings.
    fn is_asked_first(&self) -> bool
        ensures { result ≡ is_asked_first self.now }
    {
        match (self.first_sent, self.first_after_request) {
            (Some(first), Some(again)) => again <= first,
            _ => false,
        }
    }

    /// Returns how long checks are repeated early.
    fn early_span(&self, timing: &StunTiming) -> Duration
        ensures { result.0 ≡ early_span timing.now self.now }
    {
        let time = EARLY_TIME.min(timing.timeout());
        if self.is_asked_first() {
            ASKED_TIME.min(time)
        } else {
            time
        }
    }

    /// Whether the time for which checks of this pair are repeated early (`early_span`) has not passed since its first check, or the first
    /// one after a request of the peer. After 2.15 s this time is not computed.
    fn is_early_on(&self, now: Instant, timing: &StunTiming) -> bool
        ensures { result ≡ is_early_on now.0 timing.now self.now }
    {
        if !self.is_begun_lately(now) {
            return false;
        }
        let time = self.early_span(timing);
        is_within(time, now, self.first_sent) || is_within(time, now, self.first_after_request)
    }

    /// Whether checks are repeated early: for some time while no response arrived on the pair, or while none arrived to a check that
    /// nominates it.
    fn is_repeated_early(&self, now: Instant, timing: &StunTiming) -> bool
        ensures { result ≡ is_repeated_early now.0 timing.now self.now }
    {
        if self.responses_received == 0 {
            self.is_early_on(now, timing)
        } else {
            self.nomination_state.is_nominating()
                && attempts::unanswered(&self.binding_attempts) < timing.max_retransmits()
        }
    }

    /// Whether the pair is valid and nominated, and has checks without a response.
    fn is_hushed(&self) -> bool
        ensures { result ≡ is_hushed self.now }
    {
        self.is_valid() && self.is_nominated() && 0 < attempts::unanswered(&self.binding_attempts)
    }

    /// Returns the delay after which the response to the last check is late.
    fn hushed_delay(&self, now: Instant, timing: &StunTiming) -> Duration
        ensures { result.0 ≡ hushed_delay now.0 timing.now self.now }
    {
        self.hushed_interval(now, timing).max(self.response_wait())
    }

    /// Returns how long the response to the last check is waited for, by the time that the last response took: the first check without one is
    /// repeated once its response is late, the others before it is due.
    fn response_wait(&self) -> Duration
        ensures { result.0 ≡ response_wait self.now.checks }
    {
        let round_trip = self.last_successful_rtt().unwrap_or(Duration(0));
        if attempts::unanswered(&self.binding_attempts) == 1 {
            round_trip.saturating_add(LATENESS)
        } else {
            Duration(round_trip.0.saturating_sub(LATENESS.0))
        }
    }

    /// Returns how often a nominated pair is checked at most, by how many of its checks have no response, and how long ago its last answered
    /// check was sent.
    fn hushed_interval(&self, now: Instant, timing: &StunTiming) -> Duration
        ensures { result.0 ≡ hushed_interval now.0 timing.now self.now }
    {
        let span = timing.max_rto().saturating_add(HUSHED_TIME);
        if attempts::unanswered(&self.binding_attempts) < timing.max_retransmits()
            || is_within(span, now, self.consented)
        {
            SHORT_INTERVAL
        } else {
            HUSHED_INTERVAL
        }
    }

    /// Returns the delay after the last check: checks are repeated early, or after the RTO.
    fn repeated_delay(&self, now: Instant, timing: &StunTiming) -> Duration
        ensures { result.0 ≡ repeated_delay now.0 timing.now self.now }
    {
        if self.is_repeated_early(now, timing) {
            early_delay(self.silent_count())
        } else {
            usual_delay(&self.binding_attempts, now, timing)
        }
    }

    /// Returns the delay after the last check with the profile `Modern`: in the silence of a nominated pair it is short.
    fn modern_delay(&self, now: Instant, timing: &StunTiming) -> Duration
        ensures { result.0 ≡ modern_delay now.0 timing.now self.now }
    {
        let delay = self.repeated_delay(now, timing);
        if self.is_hushed() {
            self.hushed_delay(now, timing).min(delay)
        } else {
            delay
        }
    }

    /// Returns the delay after the last check.
    fn delay(&self, now: Instant, timing: &StunTiming) -> Duration
        ensures { result.0 ≡ delay_of now.0 timing.now self.now }
    {
        if timing.is_modern() {
            self.modern_delay(now, timing)
        } else {
            usual_delay(&self.binding_attempts, now, timing)
        }
    }

    /// Returns the time that long after the last check, or now if there was none.
    fn next_due_time(&self, now: Instant, timing: &StunTiming) -> Instant
        ensures { result.0 ≡ next_due_time now.0 timing.now self.now }
    {
        match attempts::last(&self.binding_attempts) {
            Some(last) => last.request_sent + self.delay(now, timing),
            None => now,
        }
    }

    fn is_valid(&self) -> bool
        ensures { result ≡ is_valid self.now }
    {
        self.state == CheckState::Succeeded
    }

    /// Whether a request triggers a check: it is the first one, and the pair is not valid.
    fn is_triggered(&self) -> bool
        ensures { result ≡ is_triggered self.now }
    {
        !self.is_valid() && self.remote_binding_requests == 0
    }

    /// The next check is due at this time, if its due time is fixed and later.
    fn move_up(&mut self, at: Instant)
        ensures { self.new ≡ moved_up at.0 self.old }
    {
        if let Some(fixed) = self.cached_next_attempt_time {
            self.cached_next_attempt_time = Some(fixed.min(at));
        }
    }

    /// Whether a check from the peer arrived less than 15 s ago.
    pub(crate) fn is_heard(&self, now: Instant) -> bool
        ensures { result ≡ is_heard now.0 self.now }
    {
        match self.remote_binding_request_time {
            Some(at) => now - at < RECENT_BINDING_REQUEST,
            None => false,
        }
    }
}

/// Returns the time that is `HEAD_START` before now, or now if that would be before the first `Instant`.
fn long_before(now: Instant) -> Instant
    ensures { result.0 ≡ long_before now.0 }
{
    now.checked_sub(HEAD_START).unwrap_or(now)
}

/// Returns the RTO after the last check.
fn usual_delay(attempts: &VecDeque<BindingAttempt>, now: Instant, timing: &StunTiming) -> Duration
    ensures { result.0 ≡ usual_delay now.0 timing.now attempts.now.items }
{
    timing.stun_resend_delay(delaying_count(attempts, now, timing))
}

/// Returns the number of checks that the RTO depends on.
fn delaying_count(attempts: &VecDeque<BindingAttempt>, now: Instant, timing: &StunTiming) -> usize
    ensures { result ≡ delaying_count now.0 timing.now attempts.now.items }
{
    match attempts::first_unanswered(attempts) {
        Some(first) if (now - first.request_sent).0 > timing.max_rto().0 / 2 => {
            attempts::unanswered(attempts)
        }
        _ => attempts.len(),
    }
}

// ---- for the agent, but not for its users

/// Returns the due time of the next check that a call of `next_binding_attempt` would return, and fix, now.
pub fn due_time_of(pair: &CandidatePair, now: Instant, timing: &StunTiming) -> Instant
    ensures { result.0 ≡ due_time_of now.0 timing.now pair.now }
{
    pair.due_time_of(now, timing)
}

/// Whether the due time of the next check is fixed.
pub fn is_scheduled(pair: &CandidatePair) -> bool
    ensures { result ≡ is_some pair.now.due }
{
    match pair.cached_next_attempt_time {
        Some(_) => true,
        None => false,
    }
}

/// Forgets the fixed due time of the next check, so that it is computed again, as when the agent changes its timing.
pub fn reset_next_binding_attempt(pair: &mut CandidatePair)
    ensures { pair.new ≡ undue pair.old }
{
    pair.cached_next_attempt_time = None;
}

/// After the first request on a pair that is not valid, if `modern`: the next check is due at this time, unless it is due before, or no
/// due time is fixed (triggered checks, RFC 8445, section 7.3.1.4).
pub fn schedule_triggered(pair: &mut CandidatePair, modern: bool, at: Instant)
    ensures { pair.new ≡ triggered modern at.0 pair.old }
{
    if modern && pair.is_triggered() {
        pair.move_up(at);
    }
}

/// The next check is due a nanosecond from now, after all pairs that are due now, if its due time is fixed and later.
pub fn move_next(pair: &mut CandidatePair, now: Instant)
    ensures { pair.new ≡ moved_up (now.0 + 1) pair.old }
{
    if let Some(due) = pair.cached_next_attempt_time {
        if now.0 < due.0 {
            pair.cached_next_attempt_time = Some(Instant(now.0 + 1));
        }
    }
}

/// Whether the pair may be checked before pairs that are due earlier: a request arrived, and the pair is not valid yet, or it is
/// nominated, no response arrived to a check that nominates it, and few checks have none.
pub fn is_urgent(pair: &CandidatePair) -> bool
    ensures { result ≡ is_urgent pair.now }
{
    if pair.remote_binding_requests > 0 && !pair.is_valid() {
        return true;
    }
    match pair.nomination_state {
        NominationState::Nominated => true,
        NominationState::Attempt => { attempts::unanswered(&pair.binding_attempts) < URGENT_CHECKS }
        NominationState::None | NominationState::Success => false,
    }
}
