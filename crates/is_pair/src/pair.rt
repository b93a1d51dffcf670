//! A candidate pair.

ghost use Rattle.std.specs.Prelude.{◌≡◌, ◌<◌, IfErr, IfOk, Some, length, option_map, slice_get};
ghost use Rattle.is_pair.specs.Pairs.{new_pair, is_nominated, nominated, numbered, renominated};

mod attempt;
pub(crate) mod attempts;
mod checks;
mod consent;
pub(crate) mod cut;
pub(crate) mod due;
mod order;
mod priority;
pub(crate) mod replacing;
mod requests;
pub(crate) mod silence;
mod states;
mod statistics;

pub use attempt::BindingAttempt;
use is_candidate::{Candidate, CandidateKind};
use is_proto::{Duration, IceError, Instant};
pub use silence::Span;
pub use states::{CheckState, NominationState};
use std::alloc::Global;
use std::collections::VecDeque;
use std::marker::Model;

/// The number of a pair, from a counter of the agent: no two pairs of an agent ever have the same number.
#[derive(Clone, Copy, Debug, PartialEq, Eq)]
pub struct PairId(pub u64);

/// A pair of a local and a remote candidate: one path, with the checks that were sent on it.
#[derive(Debug, Drop)]
pub struct CandidatePair {
    id: PairId,
    local_idx: usize,
    remote_idx: usize,
    prio: u64,
    /// The pending transactions: the checks that were sent last, oldest first.
    binding_attempts: VecDeque<BindingAttempt>,
    checks_sent: u64,
    /// When the pair's first check was sent.
    first_sent: Option<Instant>,
    /// When the first check after a request of the peer was sent.
    first_after_request: Option<Instant>,
    nomination_state: NominationState,
    /// The greatest number by which the peer nominated the pair; 0 if there is none.
    greatest_number: u32,
    state: CheckState,
    remote_binding_requests: u64,
    remote_binding_request_time: Option<Instant>,
    responses_received: u64,
    total_round_trip_time: Duration,
    /// When the last check that got a response was sent, on this pair or on one that it replaces.
    consented: Option<Instant>,
    /// The due time of the next check, if it is fixed.
    cached_next_attempt_time: Option<Instant>,
    /// The code of the last error response to one of the pair's checks, if one arrived. Nothing is decided by it.
    last_error: Option<u16>,
    /// How many checks had no response yet when a later one had its first; not those before the pair's first response.
    lost_checks: u32,
}

impl Model for CandidatePair {
    ghost use Rattle.std.specs.Prelude.{option_map};
    ghost use Rattle.is_pair.specs.Pairs.{PairRecord};

    ghost Value = { PairRecord };

    ghost view = { λ p. record {
      number = p.id.0;
      local = p.local_idx;
      remote = p.remote_idx;
      priority = p.prio;
      checks = p.binding_attempts.items;
      checks_sent = p.checks_sent;
      first_sent = option_map (λ at. at.0) p.first_sent;
      first_after_request = option_map (λ at. at.0) p.first_after_request;
      nomination = p.nomination_state;
      greatest_number = p.greatest_number;
      state = p.state;
      requests = p.remote_binding_requests;
      last_request = option_map (λ at. at.0) p.remote_binding_request_time;
      answers = p.responses_received;
      total_round_trip = p.total_round_trip_time.0;
      lost = p.lost_checks;
      consented = option_map (λ at. at.0) p.consented;
      due = option_map (λ at. at.0) p.cached_next_attempt_time;
      last_error = p.last_error;
    } };
}

impl CandidatePair {
    /// Makes a pair of the local and the remote candidate at these indices of their lists. The kinds of the candidates
    /// have no effect on the pair.
    pub fn new(
        alloc: Global,
        id: PairId,
        local_idx: usize,
        _local_kind: CandidateKind,
        remote_idx: usize,
        _remote_kind: CandidateKind,
        prio: u64,
    ) -> CandidatePair
        ensures { result ≡ new_pair id.0 local_idx remote_idx prio }
    {
        CandidatePair {
            id,
            local_idx,
            remote_idx,
            prio,
            binding_attempts: VecDeque::new(alloc),
            checks_sent: 0,
            first_sent: None,
            first_after_request: None,
            nomination_state: NominationState::default(),
            greatest_number: 0,
            state: CheckState::default(),
            remote_binding_requests: 0,
            remote_binding_request_time: None,
            responses_received: 0,
            total_round_trip_time: Duration(0),
            consented: None,
            cached_next_attempt_time: None,
            last_error: None,
            lost_checks: 0,
        }
    }

    /// Returns the number that the pair was made with.
    pub fn id(&self) -> PairId
        ensures { result.0 ≡ self.now.number }
    {
        self.id
    }

    /// Returns the index of the local candidate.
    pub fn local_idx(&self) -> usize
        ensures { result ≡ self.now.local }
    {
        self.local_idx
    }

    /// Returns the index of the remote candidate.
    pub fn remote_idx(&self) -> usize
        ensures { result ≡ self.now.remote }
    {
        self.remote_idx
    }

    /// Returns the local candidate from the list of local candidates.
    pub fn local_candidate<'a>(&self, cs: &'a [Candidate]) -> &'a Candidate
        requires { self.now.local < length cs.now }
        ensures { slice_get cs.now self.now.local ≡ Some result.now }
    {
        &cs[self.local_idx]
    }

    /// Returns the remote candidate from the list of remote candidates.
    pub fn remote_candidate<'a>(&self, cs: &'a [Candidate]) -> &'a Candidate
        requires { self.now.remote < length cs.now }
        ensures { slice_get cs.now self.now.remote ≡ Some result.now }
    {
        &cs[self.remote_idx]
    }

    /// Returns the priority that the pair was made with, or that was set since.
    pub fn prio(&self) -> u64
        ensures { result ≡ self.now.priority }
    {
        self.prio
    }

    /// Returns the check state.
    pub fn state(&self) -> CheckState
        ensures { result ≡ self.now.state }
    {
        self.state
    }

    /// Returns the time of the last check from the peer.
    pub fn remote_binding_request_time(&self) -> Option<Instant>
        ensures { option_map (λ at. at.0) result ≡ self.now.last_request }
    {
        self.remote_binding_request_time
    }

    /// Whether the pair is nominated (RFC 8445, section 8.1.1), in any nomination state.
    pub fn is_nominated(&self) -> bool
        ensures { result ≡ is_nominated self.now }
    {
        self.nomination_state != NominationState::None
    }

    /// Nominates a pair that is not nominated. `force_success` makes the nomination succeed at once, if no check is to
    /// follow, as on an ICE-lite agent.
    pub fn nominate(&mut self, force_success: bool)
        requires { self.old.nomination ≡ NominationState.None }
        ensures { self.new ≡ nominated force_success self.old }
    {
        self.nomination_state = if force_success {
            NominationState::Success
        } else {
            NominationState::Nominated
        };
    }

    /// Returns the greatest number by which the peer nominated the pair (NOMINATION of draft-thatcher-ice-renomination), or 0 if there
    /// is none.
    pub fn greatest_number(&self) -> u32
        ensures { result ≡ self.now.greatest_number }
    {
        self.greatest_number
    }

    /// Copies the pair. The copy is equal in every part, including the fixed due time of the next check.
    ///
    /// Fails with `OutOfMemory` if there is no memory for the pending transactions.
    pub fn try_clone(&self) -> Result<CandidatePair, IceError>
        ensures copy { IfOk result (λ copy. copy ≡ self.now) }
        ensures rejection { IfErr result (λ e. e ≡ IceError.OutOfMemory) }
    {
        Ok(CandidatePair {
            id: self.id,
            local_idx: self.local_idx,
            remote_idx: self.remote_idx,
            prio: self.prio,
            binding_attempts: self.binding_attempts.clone()?,
            checks_sent: self.checks_sent,
            first_sent: self.first_sent,
            first_after_request: self.first_after_request,
            nomination_state: self.nomination_state,
            greatest_number: self.greatest_number,
            state: self.state,
            remote_binding_requests: self.remote_binding_requests,
            remote_binding_request_time: self.remote_binding_request_time,
            responses_received: self.responses_received,
            total_round_trip_time: self.total_round_trip_time,
            consented: self.consented,
            cached_next_attempt_time: self.cached_next_attempt_time,
            last_error: self.last_error,
            lost_checks: self.lost_checks,
        })
    }
}

// ---- for the agent, but not for its users

/// The nomination of a pair begins again: its next check is a nominating one, and early retransmissions begin again. A pair that is not
/// nominated stays so.
pub fn renominate(pair: &mut CandidatePair)
    ensures { pair.new ≡ renominated pair.old }
{
    pair.nomination_state = pair.nomination_state.again();
}

/// Keeps the number by which the peer nominated the pair, if it is the greatest one.
pub fn keep_number(pair: &mut CandidatePair, number: u32)
    ensures { pair.new ≡ numbered number pair.old }
{
    pair.greatest_number = pair.greatest_number.max(number);
}
