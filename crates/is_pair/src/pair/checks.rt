//! Sending checks on a pair, and recording their responses (RFC 8445, section 7.2).

ghost use Rattle.std.specs.Prelude.{◌≡◌, ◌<◌, IfErr, IfOk, IsTrue, find, is_some, length};
ghost use Rattle.std.specs.Option.{option_copied};
ghost use Rattle.std.specs.VecDeque.{deque_capacity};
ghost use Rattle.rand_core.specs.Stream.{fill_bytes};
ghost use Rattle.is_pair.specs.Checks.{has_id, is_kept};
ghost use Rattle.is_pair.specs.Cutting.{CutsByNext};
ghost use Rattle.is_pair.specs.Pairs.{TakesAnswer, check_of, once_sent, once_answered, checked, lost_by, passed_over};

use super::attempt::BindingAttempt;
use super::consent::last_of;
use super::cut::Cut;
use super::{CandidatePair, attempts};
use is_proto::{IceError, Instant};
use is_stun::stun::{StunTiming, TransId};
use rand_core::Rng;
use std::collections::VecDeque;

impl CandidatePair {
    /// Stores a check that is sent now, and returns its transaction ID. The pair has at most the last
    /// `max_retransmits` checks as pending transactions. A check of a nominated pair is a nominating check.
    ///
    /// Fails with `OutOfMemory` if there is no memory for the check; then the pair is unchanged, and nothing was drawn
    /// from the generator.
    pub fn new_attempt<R: Rng>(
        &mut self,
        now: Instant,
        timing_config: &StunTiming,
        controlling: bool,
        rng: &mut R,
    ) -> Result<TransId, IceError>
        requires { 0 < timing_config.now.max_retransmits }
        ensures sent { IfOk result (λ id. self.new ≡ checked now.0 timing_config.now controlling id.0 self.old) }
        ensures drawn { IfOk result (λ id. (id.0, R.stream rng.new) ≡ fill_bytes 12 (R.stream rng.old)) }
        ensures rejection { IfErr result (λ e. e ≡ IceError.OutOfMemory) }
        ensures unchanged { IfErr result (λ _. self.new ≡ self.old) }
        ensures undrawn { IfErr result (λ _. R.stream rng.new ≡ R.stream rng.old) }
    {
        self.binding_attempts.reserve(1)?;
        let trans_id = TransId::new(rng);
        let attempt = self.attempt(trans_id, now, controlling);
        self.binding_attempts.push_back_reserved(attempt);
        self.once_sent(now, timing_config);
        Ok(trans_id)
    }

    /// Returns which checks are dropped when one more is sent.
    pub(crate) fn cut_by_next(&self, timing_config: &StunTiming) -> Cut
        ensures { CutsByNext timing_config.now.max_retransmits self.now.checks result }
    {
        let kept = self.binding_attempts.len();
        if kept < timing_config.max_retransmits {
            return Cut::Nothing;
        }
        match attempts::first(&self.binding_attempts) {
            Some(oldest) if kept == timing_config.max_retransmits => Cut::Oldest(oldest.trans_id),
            _ => Cut::Several,
        }
    }

    /// Returns the check that is sent now.
    fn attempt(&self, trans_id: TransId, now: Instant, controlling: bool) -> BindingAttempt
        ensures { result ≡ check_of now.0 controlling trans_id.0 self.now }
    {
        let nominated = self.is_nominated();
        BindingAttempt {
            trans_id,
            request_sent: now,
            response_received: None,
            nominated,
            controlling,
        }
    }

    /// Updates the state after a check was sent now.
    fn once_sent(&mut self, now: Instant, timing_config: &StunTiming)
        ensures { self.new ≡ once_sent now.0 timing_config.now.max_retransmits self.old }
    {
        attempts::keep_last(&mut self.binding_attempts, timing_config.max_retransmits);
        self.checks_sent = self.checks_sent.saturating_add(1);
        self.first_sent = Some(self.first_sent.unwrap_or(now));
        self.first_after_request = if self.remote_binding_requests == 0 {
            None
        } else {
            Some(self.first_after_request.unwrap_or(now))
        };
        self.nomination_state = self.nomination_state.once_sent();
        self.state = self.state.once_sent();
        self.cached_next_attempt_time = None;
    }

    /// Stores a check that is sent now, as `new_attempt`, but without failing: if the pair stores fewer checks than it may, the spare
    /// queue has capacity for one more. If the pair's own queue is full, the two are swapped.
    pub(crate) fn new_attempt_reserved<R: Rng>(
        &mut self,
        now: Instant,
        timing_config: &StunTiming,
        controlling: bool,
        rng: &mut R,
        spare: &mut VecDeque<BindingAttempt>,
    ) -> TransId
        requires retransmits { 0 < timing_config.now.max_retransmits }
        requires room { length self.old.checks < timing_config.now.max_retransmits → length self.old.checks < deque_capacity spare.old }
        ensures sent { self.new ≡ checked now.0 timing_config.now controlling result.0 self.old }
        ensures drawn { (result.0, R.stream rng.new) ≡ fill_bytes 12 (R.stream rng.old) }
    {
        attempts::make_room_within(
            &mut self.binding_attempts,
            spare,
            timing_config.max_retransmits,
        );
        let trans_id = TransId::new(rng);
        let attempt = self.attempt(trans_id, now, controlling);
        self.binding_attempts.push_back_reserved(attempt);
        self.once_sent(now, timing_config);
        trans_id
    }

    /// Returns how many checks the pair stores.
    pub(crate) fn kept_count(&self) -> usize
        ensures { result ≡ length self.now.checks }
    {
        self.binding_attempts.len()
    }

    /// Returns the pending transaction with this ID, if there is one: the first, if several have it.
    pub fn binding_attempt(&self, trans_id: TransId) -> Option<&BindingAttempt>
        ensures kept { is_some result ≡ is_kept trans_id.0 self.now.checks }
        ensures found { option_copied result ≡ find (has_id trans_id.0) self.now.checks }
    {
        attempts::with_id(&self.binding_attempts, trans_id)
    }

    /// Records the response to a pending transaction. It counts even if the check had a response before: its round-trip
    /// time is added to the total, and its time replaces that of the previous response. The pair is valid from now on,
    /// and a nomination that was sent with the check has succeeded. `_valid_idx`, the local candidate with the mapped
    /// address of the response, has no effect on the pair.
    pub fn record_binding_response(&mut self, now: Instant, trans_id: TransId, _valid_idx: usize)
        requires { IsTrue (is_kept trans_id.0 self.old.checks) }
        ensures { TakesAnswer self.old now.0 trans_id.0 self.new }
    {
        let Some(place) = attempts::place_of(&self.binding_attempts, trans_id) else {
            return;
        };
        let attempt = self.binding_attempts[place];
        self.lost_checks = self.lost_by(place);
        self.binding_attempts[place] = attempt.answered_at(now);
        self.once_answered(now, attempt);
    }

    /// Returns how many checks are lost once the one at this index has a response.
    fn lost_by(&self, place: usize) -> u32
        ensures { result ≡ lost_by place self.now }
    {
        if self.responses_received == 0 {
            return self.lost_checks;
        }
        let passed = self.passed_over(place).min(u32::MAX as usize) as u32;
        self.lost_checks.saturating_add(passed)
    }

    /// Returns how many checks of the pair's silence came before the one at this index.
    fn passed_over(&self, place: usize) -> usize
        ensures { result ≡ passed_over place self.now.checks }
    {
        let from = self.binding_attempts.len().saturating_sub(place);
        attempts::unanswered(&self.binding_attempts).saturating_sub(from)
    }

    /// Updates the state after the response to this check.
    fn once_answered(&mut self, now: Instant, attempt: BindingAttempt)
        ensures { self.new ≡ once_answered now.0 attempt self.old }
    {
        self.responses_received = self.responses_received.saturating_add(1);
        self.total_round_trip_time = self
            .total_round_trip_time
            .saturating_add(now - attempt.request_sent);
        self.consented = last_of(Some(attempt.request_sent), self.consented);
        self.nomination_state = self.nomination_state.once_answered(attempt.nominated);
        self.state = self.state.once_answered();
        self.cached_next_attempt_time = None;
    }
}
