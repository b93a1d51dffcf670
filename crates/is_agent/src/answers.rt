//! Responses to the agent's checks (RFC 8445, section 7.2.5); the rules: `is_rules::answers`.
//!
//! A response counts only if it is received on the reverse of its check's path.

ghost use Rattle.std.specs.Prelude.{◌≡◌, ◌<◌, ◌↔◌, ℕ, IsTrue, IsSomeAnd, IfOk, IfErr, IfSome, IfNone, OnOk, true, is_some, length};
ghost use Rattle.std.specs.List.{list_any};
ghost use Rattle.is_candidate.specs.Priorities.{candidate_priority, TOO_HIGH};
ghost use Rattle.is_pair.specs.Checks.{is_kept};
ghost use Rattle.is_pair.specs.Pairs.{PairRecord};
ghost use Rattle.is_pair.specs.Multiset.{has_number, keeps, pair_numbered};
ghost use Rattle.is_stun.specs.Integrity.{IsSignedBy};
ghost use Rattle.is_stun.specs.MessageView.{message_view};
ghost use Rattle.is_rules.specs.Emitted.{nothing_emitted};
ghost use Rattle.is_agent.specs.View.{record_of};
ghost use Rattle.is_agent.specs.Room.{HasEventRoom, HasLocalRoom, HasPairRoom, HasDiscoveryRoom, UsesDiscoveryRoom};
ghost use Rattle.is_rules.specs.Due.{KeepsCheckOn, IsRecorded, IsSentUnder};
ghost use Rattle.is_rules.specs.Accepting.{IsAwaited};
ghost use Rattle.is_rules.specs.Answers.{is_left_out, is_role_conflict, keeps_check_on, joined_by, local_with, mapped_candidate};
ghost use Rattle.is_rules.specs.Answers.{error_noted, success_counted, Concludes, LeavesRole, HandlesSuccess, HandlesFailure};

use crate::agent::{Agent, sides};
use crate::room::{reserve_candidate, reserve_events};
use is_candidate::candidate::making::peer_reflexive;
use is_candidate::{Candidate, LocalPreference};
use is_proto::{Instant, Sha1HmacProvider, reserve_one};
use is_rules::answers::{is_left_out, is_of_role, is_role_conflict, join, pair_awaiting};
use is_rules::emitted::{Emitted, Path};
use is_rules::places::{base_at, check_priority_at, proto_at};
use is_rules::sides::Sides;
use is_stun::stun::{StunMessage, TransId};
use std::alloc::AllocError;
use std::net::SocketAddr;

// ---- which responses are expected

impl<H: Sha1HmacProvider + Drop, P: LocalPreference> Agent<H, P> {
    /// The number of a pair that has a pending transaction with this ID, and on the reverse of whose path the packet was
    /// received, if there is one.
    pub(crate) fn pair_awaiting(&self, path: &Path, id: TransId) -> Option<u64>
        ensures any { list_any (keeps_check_on (record_of self.now) path.now id.0) (record_of self.now).pairs ≡ is_some result }
        ensures kept { IfSome result (λ number. KeepsCheckOn (record_of self.now) path.now id.0 number) }
    {
        pair_awaiting(&self.pairs, sides!(self), path, id)
    }

    /// The message is signed with the peer's password.
    pub(crate) fn is_by_peer(&self, message: &StunMessage<'_>) -> bool
        ensures { IsTrue result ↔ IsSomeAnd (record_of self.now).remote_creds
            (λ peer. IsSignedBy (H.mac (record_of self.now).provider) (message_view message.now) peer.pass) }
    {
        match &self.remote_creds {
            Some(peer) => message.verify(peer.pass.as_str().as_bytes(), &self.by_remote_key()),
            None => false,
        }
    }

    /// The number of the pair that the response is for: it has a pending transaction with the same ID, the response was
    /// received on the reverse of its path, and the peer signed it.
    pub(crate) fn awaited_pair(&self, path: &Path, message: &StunMessage<'_>) -> Option<u64>
        ensures awaited { IfSome result (λ _. IsAwaited H.mac (keeps_check_on (record_of self.now) path.now (message_view message.now).id)
            (record_of self.now) (message_view message.now)) }
        ensures foreign { IfNone result (¬ IsAwaited H.mac (keeps_check_on (record_of self.now) path.now (message_view message.now).id)
            (record_of self.now) (message_view message.now)) }
        ensures kept { IfSome result (λ number. KeepsCheckOn (record_of self.now) path.now (message_view message.now).id number) }
    {
        let number = self.pair_awaiting(path, message.trans_id())?;
        if self.is_by_peer(message) {
            Some(number)
        } else {
            None
        }
    }
}

// ---- success responses

impl<H: Sha1HmacProvider + Drop, P: LocalPreference> Agent<H, P> {
    /// The index of the local candidate of the pair with this number.
    fn local_place_of(&self, number: u64) -> usize
        requires { has_number number (record_of self.now).pairs ≡ true }
        ensures place { IfSome (pair_numbered number (record_of self.now).pairs) (λ p. result ≡ p.local) }
        ensures within { result < length self.now.local.items }
    {
        match self.pairs.get(number) {
            Some(pair) => pair.local_idx(),
            None => unreachable!(),
        }
    }

    /// The candidate that a mapped address becomes. It has the protocol and the base of the pair's local candidate,
    /// which is at this index, and the priority in that candidate's checks (RFC 8445, section 7.2.5.3.1).
    fn mapped_candidate(&self, l: usize, mapped: SocketAddr) -> Result<Candidate, AllocError>
        requires { l < length self.now.local.items }
        ensures made { (p : PairRecord) → l ≡ p.local → IfOk result (λ c. c ≡ mapped_candidate (record_of self.now) p mapped) }
        ensures low { IfOk result (λ c. candidate_priority c < TOO_HIGH) }
    {
        peer_reflexive(
            *self.local.allocator(),
            None,
            proto_at(&self.local, l),
            check_priority_at(&self.local, l),
            mapped,
            base_at(&self.local, l),
            self.local_creds.ufrag.as_str(),
        )
    }

    /// The candidate that the mapped address adds, if no local candidate has that address and the limit allows one more.
    fn new_mapped_candidate(
        &self,
        l: usize,
        mapped: Option<SocketAddr>,
    ) -> Result<Option<Candidate>, AllocError>
        requires { l < length self.now.local.items }
        ensures new_mapped_candidate { (p : PairRecord) → l ≡ p.local → IfOk result (λ c. joined_by c self.now.local.items
            ≡ local_with p mapped (success_counted (record_of self.now))) }
        ensures low { IfOk result (λ c. IfSome c (λ c. candidate_priority c < TOO_HIGH)) }
    {
        let Some(mapped) = mapped else {
            return Ok(None);
        };
        if is_left_out(self.max_discovered, &self.local, mapped) {
            return Ok(None);
        }
        Ok(Some(self.mapped_candidate(l, mapped)?))
    }

    /// Reserves capacity for what a success response can add: a local candidate, so many pairs, a source, and three events.
    fn reserve_success_room(&mut self, pairs: usize) -> Result<(), AllocError>
        ensures record { record_of self.new ≡ record_of self.old }
        ensures local { OnOk result (HasLocalRoom pairs self.new) }
        ensures discovery { OnOk result (HasDiscoveryRoom 3 self.new) }
    {
        self.keep_room(pairs)?;
        reserve_candidate(&mut self.local)?;
        self.pairs.reserve(pairs)?;
        reserve_one(&mut self.discovered_sources)?;
        reserve_events(&mut self.events, self.kept_room, 3)?;
        Ok(())
    }

    /// The pair with this number records the response, the response is counted, and the candidate is added.
    fn record(&mut self, number: u64, now: Instant, id: TransId, mapped: Option<Candidate>)
        requires kept { keeps id.0 number (record_of self.old).pairs ≡ true }
        requires low { IfSome mapped (λ c. candidate_priority c < TOO_HIGH) }
        requires room { HasLocalRoom 0 self.old }
        ensures records { IsRecorded number now.0 id.0 (joined_by mapped self.old.local.items) (record_of self.old) (record_of self.new) }
        ensures pairs { (n : ℕ) → HasLocalRoom n self.old → HasPairRoom n self.new }
        ensures discovery { UsesDiscoveryRoom 0 self.old self.new }
    {
        self.pairs.record_binding_response(number, now, id);
        join(&mut self.local, mapped);
        self.stats.bind_success_recv = self.stats.bind_success_recv.saturating_add(1);
    }

    /// Evaluates nomination and state.
    fn conclude(&mut self, now: Instant) -> Emitted
        requires room { HasEventRoom 2 self.old }
        ensures concludes { Concludes now.0 (record_of self.old) result (record_of self.new) }
        ensures discovery { UsesDiscoveryRoom 2 self.old self.new }
    {
        let path = self.evaluate_nomination();
        self.evaluate_state(now);
        Emitted::selected_only(path)
    }

    /// The pair with this number records the success response, the mapped address is added as a candidate if it is unknown
    /// and the limit allows it, and the pair of the path that was left is formed again. Then nomination and state are evaluated.
    pub(crate) fn handle_success(
        &mut self,
        number: u64,
        now: Instant,
        path: &Path,
        message: &StunMessage<'_>,
    ) -> Result<Emitted, AllocError>
        requires kept { KeepsCheckOn (record_of self.old) path.now (message_view message.now).id number }
        ensures taken { IfOk result (λ emitted. HandlesSuccess now.0 (record_of self.old) path.now (message_view message.now) emitted
            (record_of self.new)) }
        ensures room { OnOk result (HasDiscoveryRoom 1 self.new) }
        ensures rejected { IfErr result (λ _. record_of self.new ≡ record_of self.old) }
    {
        self.pairs.numbers_rise();
        let l = self.local_place_of(number);
        let mapped = self.new_mapped_candidate(l, message.mapped_address())?;
        self.reserve_success_room(self.formed_again_count())?;
        self.record(number, now, message.trans_id(), mapped);
        self.form_again();
        Ok(self.conclude(now))
    }
}

// ---- error responses

impl<H: Sha1HmacProvider + Drop, P: LocalPreference> Agent<H, P> {
    /// The check with this ID that the pair with this number stores was sent in the current role.
    fn is_of_present_role(&self, number: u64, id: TransId) -> bool
        requires kept { IfSome (pair_numbered number (record_of self.now).pairs) (λ p. IsTrue (is_kept id.0 p.checks)) }
        ensures { IfSome (pair_numbered number (record_of self.now).pairs) (λ p. IsSentUnder p id.0 self.now.controlling result) }
    {
        match self.pairs.get(number) {
            Some(pair) => is_of_role(pair, id, self.controlling),
            None => false,
        }
    }

    /// Switches the role if the check of the pair with this number was sent in the current role (RFC 8445, section 7.2.5.1), unless the
    /// agent keeps its role.
    fn leave_role(&mut self, number: u64, message: &StunMessage<'_>)
        requires kept { IfSome (pair_numbered number (record_of self.old).pairs) (λ p. IsTrue (is_kept (message_view message.now).id p.checks)) }
        ensures leaves { IfSome (pair_numbered number (record_of self.old).pairs) (λ p. LeavesRole p (message_view message.now)
            (record_of self.old) nothing_emitted (record_of self.new)) }
        ensures discovery { UsesDiscoveryRoom 0 self.old self.new }
    {
        let present = self.is_of_present_role(number, message.trans_id());
        let keeps = self.keeps_role();
        if present && !keeps {
            self.switch_role();
        }
    }

    /// The pair with this number keeps the code of the error response.
    fn note_error(&mut self, number: u64, message: &StunMessage<'_>)
        ensures noted { record_of self.new ≡ error_noted number (message_view message.now) (record_of self.old) }
        ensures discovery { UsesDiscoveryRoom 0 self.old self.new }
    {
        if let Some((code, _)) = message.error_code() {
            self.pairs.note_error(number, code);
        }
    }

    /// The pair with this number, on the reverse of whose path the error response arrived, keeps its code. Code 487 may switch the role.
    pub(crate) fn handle_failure(&mut self, number: u64, path: &Path, message: &StunMessage<'_>)
        requires kept { KeepsCheckOn (record_of self.old) path.now (message_view message.now).id number }
        ensures taken { HandlesFailure (record_of self.old) path.now (message_view message.now) nothing_emitted (record_of self.new) }
        ensures discovery { UsesDiscoveryRoom 0 self.old self.new }
    {
        self.note_error(number, message);
        if is_role_conflict(message) {
            self.leave_role(number, message);
        }
    }
}
