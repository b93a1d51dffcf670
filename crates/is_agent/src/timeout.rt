//! What `handle_timeout` does: nomination, removal of failed pairs, and a check; the rules: `is_rules::timeout`.
//!
//! Capacity for all of it is reserved before the agent changes; what follows can't fail.

ghost use Rattle.std.specs.Prelude.{◌≡◌, ℕ, ◌||◌, Option, Some, true, is_some, IsSome, None, IfOk, IfErr, OnOk, MatchOption};
ghost use Rattle.std.specs.List.{list_any};
ghost use Rattle.is_stun.specs.Theorems.{IsPut};
ghost use Rattle.is_stun.specs.Writing.{written};
ghost use Rattle.is_stun.specs.declared.header.Class.TheVariants as classes;
ghost use Rattle.is_stun.specs.Timing.{is_modern};
ghost use Rattle.is_rules.specs.declared.credentials.IceCreds as model;
ghost use Rattle.is_agent.specs.View.{record_of, emitted_of};
ghost use Rattle.is_agent.specs.Room.{HasPacketRoom, HasEventRoom, HasCheckRoom, HasCheckRoomAt, IsPrepared};
ghost use Rattle.is_rules.specs.Checking.{check_message, is_ahead_turn, is_selected_number, ChecksPair, ChecksNext, MayCheck};
ghost use Rattle.is_pair.specs.Multiset.{has_number, pair_numbered};
ghost use Rattle.is_pair.specs.Due.{is_due};
ghost use Rattle.is_rules.specs.Agent.{AgentRecord};
ghost use Rattle.is_rules.specs.Due.{may_nominate, may_fall_due, Drafts, check_counted};
ghost use Rattle.is_rules.specs.Nominating.{nominates_at_once};
ghost use Rattle.is_pair.specs.Pairs.{PairRecord};
ghost use Rattle.is_rules.specs.Queue.{request_at};
ghost use Rattle.is_rules.specs.Sending.{with_packet};
ghost use Rattle.is_rules.specs.Emitted.{issued_as, emitted_by};
ghost use Rattle.is_rules.specs.declared.emitted.Issued.{Issued};
ghost use Rattle.is_rules.specs.declared.emitted.Path.{Path};
ghost use Rattle.is_rules.specs.States.{same_state};
ghost use Rattle.is_rules.specs.TimeoutStart.{outdated};
ghost use Rattle.is_rules.specs.declared.event.IceConnectionState.TheVariants.{New};
ghost use Rattle.is_rules.specs.Timeouts.{at_request, timeout_begun, MayFailAtTimeout, ServesQueued, MaintainsPairs, TimesOut};

use crate::agent::Agent;
use crate::emitted::packet_on;
use crate::room::reserve_events;
use crate::settings::CHECK_ROOM;
use is_candidate::LocalPreference;
use is_proto::{IceError, Instant, Sha1HmacProvider, reserve_one_in};
use is_rules::checking::{Draft, write_username};
use is_rules::emitted::{Emitted, Issued};
use is_rules::event::{IceAgentEvent, IceConnectionState};
use is_rules::nomination::begin_nomination;
use is_rules::queue::count_outdated;
use is_rules::states::same_state;
use is_rules::theorems;
use is_rules::timeout::FallsDue;
use is_stun::stun::{Class, TransId};
use rand_core::Rng;
use std::alloc::AllocError;

// ---- a check

impl<H: Sha1HmacProvider + Drop, P: LocalPreference> Agent<H, P> {
    /// Sends the check, and counts it.
    fn send(&mut self, draft: Draft, id: TransId) -> Issued
        requires packets { HasPacketRoom self.old }
        requires prepared { IsPrepared self.old }
        ensures issued { result ≡ issued_as draft.path classes.Request id.0 }
        ensures put { (peer : model.IceCreds) (p : PairRecord) → self.old.remote_creds ≡ Some peer → Drafts (record_of self.old) p draft
            → IsPut (written (H.mac self.old.provider) (Some peer.pass) (check_message (record_of self.old) peer p id.0))
            (check_message (record_of self.old) peer p id.0) }
        ensures emitted { emitted_of self.new ≡ emitted_of self.old }
        ensures sent { (peer : model.IceCreds) (p : PairRecord) → self.old.remote_creds ≡ Some peer → Drafts (record_of self.old) p draft
            → record_of self.new ≡ with_packet draft.path (written (H.mac self.old.provider) (Some peer.pass)
            (check_message (record_of self.old) peer p id.0)) (check_counted (record_of self.old)) }
    {
        let empty = Vec::new(*self.packets.allocator());
        let contents = std::mem::replace(&mut self.contents, empty);
        let contents = self.check_bytes(contents, id, draft);
        self.stats.bind_request_sent = self.stats.bind_request_sent.saturating_add(1);
        let path = draft.path;
        self.packets.push_back_reserved(packet_on(path, contents));
        Issued::new(path, Class::Request, id)
    }

    /// The number is that of the pair that was selected last.
    fn is_selected_number(&self, number: u64) -> bool
        ensures { result ≡ is_selected_number (record_of self.now) number }
    {
        match self.selected_pair {
            Some(selected) => selected == number,
            None => false,
        }
    }

    /// Checks the pair with this number, with the content of its draft. It begins the nomination of the pair if `begins` is true. The next
    /// check may go ahead unless this one does.
    fn check<R: Rng>(
        &mut self,
        number: u64,
        begins: bool,
        ahead: bool,
        draft: Draft,
        now: Instant,
        rng: &mut R,
    ) -> Issued
        requires begins { begins ≡ nominates_at_once (record_of self.old) }
        requires turn { ahead ≡ is_ahead_turn now.0 (record_of self.old) }
        requires has { has_number number (record_of self.old).pairs ≡ true }
        requires room { HasCheckRoom self.old }
        ensures emitted { emitted_of self.new ≡ emitted_of self.old }
        ensures checked { (peer : model.IceCreds) (p : PairRecord) → self.old.remote_creds ≡ Some peer → p.number ≡ number
            → pair_numbered number (record_of self.old).pairs ≡ Some p → Drafts (record_of self.old) p draft
            → ChecksPair H.mac now.0 peer p (record_of self.old) (R.stream rng.old) (Some result) (record_of self.new) (R.stream rng.new) }
    {
        self.nomination_due = self.nomination_due && !self.is_selected_number(number);
        self.next_kind = self.next_kind_after(number, ahead);
        self.ahead_turn = !ahead;
        self.charged_until = self.charged_after(now);
        begin_nomination(&mut self.pairs, number, begins);
        let controlling = self.controlling;
        let id = self
            .pairs
            .new_attempt(number, now, &self.timing, controlling, rng);
        self.send(draft, id)
    }

    /// The content of a check of the pair with this number.
    fn draft_of(&self, number: u64) -> Draft
        requires { has_number number (record_of self.now).pairs ≡ true }
        ensures { (p : PairRecord) → pair_numbered number (record_of self.now).pairs ≡ Some p → Drafts (record_of self.now) p result }
    {
        match self.pairs.get(number) {
            None => unreachable!(),
            Some(pair) => self.draft(pair),
        }
    }

    /// Checks the pair with this number, and records the packet next to the paths that were selected. It is a separate
    /// function, so that calls without a check do not pay for it.
    #[inline(never)]
    fn check_and_emit<R: Rng>(
        &mut self,
        number: u64,
        begins: bool,
        ahead: bool,
        now: Instant,
        rng: &mut R,
    )
        requires begins { begins ≡ nominates_at_once (record_of self.old) }
        requires turn { ahead ≡ is_ahead_turn now.0 (record_of self.old) }
        requires has { has_number number (record_of self.old).pairs ≡ true }
        requires room { HasCheckRoom self.old }
        ensures { (peer : model.IceCreds) (p : PairRecord) (first second : Option Path) → self.old.remote_creds ≡ Some peer
            → p.number ≡ number → pair_numbered number (record_of self.old).pairs ≡ Some p → emitted_of self.old ≡ emitted_by None first second
            → (issued : Option Issued) × ChecksPair H.mac now.0 peer p (record_of self.old) (R.stream rng.old) issued (record_of self.new)
            (R.stream rng.new) × (emitted_of self.new ≡ emitted_by issued first second) }
    {
        let draft = self.draft_of(number);
        let issued = self.check(number, begins, ahead, draft, now, rng);
        self.emitted.issued = Some(issued);
    }

    /// Checks the pair that is next, if one is due, and records the packet.
    fn check_next<R: Rng>(&mut self, now: Instant, rng: &mut R)
        requires room { (nominates_at_once (record_of self.old) || list_any (is_due now.0 self.old.timing) (record_of self.old).pairs)
            ≡ true → HasCheckRoom self.old }
        ensures { (peer : model.IceCreds) (first second : Option Path) → self.old.remote_creds ≡ Some peer
            → emitted_of self.old ≡ emitted_by None first second → (issued : Option Issued)
            × ChecksNext H.mac now.0 peer (record_of self.old) (R.stream rng.old) issued (record_of self.new) (R.stream rng.new)
            × (emitted_of self.new ≡ emitted_by issued first second) }
    {
        let ahead = self.is_ahead_turn(now);
        let begins = self.nominates_at_once();
        if let Some(number) = self.next_number(begins, ahead, now) {
            self.check_and_emit(number, begins, ahead, now, rng);
        }
    }

    /// Fixes the due time of each pair and checks the next one, if the peer is known. A lite agent sends no check.
    fn may_check<R: Rng>(&mut self, now: Instant, rng: &mut R)
        requires { HasCheckRoomAt now.0 self.old }
        ensures { (first second : Option Path) → emitted_of self.old ≡ emitted_by None first second → (issued : Option Issued)
            × MayCheck H.mac now.0 (record_of self.old).remote_creds (record_of self.old) (R.stream rng.old) issued (record_of self.new)
            (R.stream rng.new) × (emitted_of self.new ≡ emitted_by issued first second) }
    {
        match self.remote_creds {
            None => {}
            Some(_) => {
                if self.lite {
                    self.pairs.hear_all(now);
                    return;
                }
                self.pairs.fix_due_times(now, &self.timing);
                self.check_next(now, rng);
            }
        }
    }
}

// ---- capacity

impl<H: Sha1HmacProvider + Drop, P: LocalPreference> Agent<H, P> {
    /// The nomination of a selected path may be due.
    fn may_nominate(&self) -> bool
        ensures { result ≡ may_nominate (record_of self.now) }
    {
        self.controlling && !self.lite && self.numbers()
    }

    /// A check may be due at time `now`.
    fn may_fall_due(&self, now: Instant) -> bool
        ensures { result ≡ may_fall_due now.0 (record_of self.now) }
    {
        !self.lite
            && self.remote_creds.is_some()
            && (self.may_nominate()
                || self.pairs.any(&FallsDue {
                    controlling: self.controlling,
                    now,
                    timing: &self.timing,
                }))
    }

    /// Prepares the USERNAME and the buffer of a check, once the peer is known.
    fn prepare_check(&mut self) -> Result<(), AllocError>
        ensures record { record_of self.new ≡ record_of self.old }
        ensures prepared { OnOk result (IsPrepared self.new) }
    {
        let Some(peer) = &self.remote_creds else {
            return Ok(());
        };
        write_username(&mut self.username, peer, &self.local_creds)?;
        self.contents.resize(CHECK_ROOM, 0)
    }

    /// Gives back what is not used, and reserves capacity for a packet and for one more check of any pair. It is a separate function, so
    /// that calls without a check do not pay for it.
    #[inline(never)]
    fn reserve_check(&mut self) -> Result<(), AllocError>
        ensures record { record_of self.new ≡ record_of self.old }
        ensures room { OnOk result (HasCheckRoom self.new) }
    {
        self.give_back();
        self.prepare_check()?;
        reserve_one_in(&mut self.packets)?;
        self.pairs.reserve_check(self.timing.max_retransmits)
    }

    /// Reserves capacity for a check (`reserve_check`), if one may be due at time `now`. If there is nothing to check, it only gives back
    /// what is not used.
    fn reserve_check_room(&mut self, now: Instant) -> Result<(), AllocError>
        ensures record { record_of self.new ≡ record_of self.old }
        ensures room { OnOk result (HasCheckRoomAt now.0 self.new) }
    {
        self.give_back_if_idle();
        if !self.may_fall_due(now) {
            return Ok(());
        }
        self.reserve_check()
    }

    /// Reserves capacity for five events, and for a check if one may be due.
    #[inline(always)]
    fn reserve_round_room(&mut self, now: Instant) -> Result<(), AllocError>
        ensures record { record_of self.new ≡ record_of self.old }
        ensures events { OnOk result (HasEventRoom 5 self.new) }
        ensures checks { OnOk result (HasCheckRoomAt now.0 self.new) }
    {
        self.reserve_check_room(now)?;
        reserve_events(&mut self.events, self.kept_room, 5)
    }
}

// ---- the call

impl<H: Sha1HmacProvider + Drop, P: LocalPreference> Agent<H, P> {
    /// The selected pair may give way; then nomination, removal of failed pairs and a check, within the reserved capacity. What they emit is
    /// stored in the agent.
    fn maintain_pairs<R: Rng>(&mut self, now: Instant, rng: &mut R)
        requires events { HasEventRoom 3 self.old }
        requires checks { HasCheckRoomAt now.0 self.old }
        ensures { MaintainsPairs H.mac now.0 (record_of self.old) (R.stream rng.old) (emitted_of self.new) (record_of self.new) (R.stream rng.new) }
    {
        self.last_time = Some(now);
        self.leave_path(now);
        let first = self.evaluate_nomination();
        self.remove_expired(first, now);
        self.may_check(now, rng);
    }

    /// The first `handle_timeout` call, in New, if it serves no request. It is a separate function, so that later calls do not pay for the
    /// start event.
    #[inline(never)]
    fn run_first_timeout<R: Rng>(
        &mut self,
        now: Instant,
        expired: usize,
        rng: &mut R,
    ) -> Result<(), AllocError>
        requires first { same_state (record_of self.old).state New ≡ true }
        requires expired { expired ≡ outdated now.0 self.old.timing self.old.remote_creds (record_of self.old) }
        ensures advanced { OnOk result (MaintainsPairs H.mac now.0 (timeout_begun now.0 (record_of self.old)) (R.stream rng.old) (emitted_of self.new)
            (record_of self.new) (R.stream rng.new)) }
        ensures unchanged { IfErr result (λ _. (record_of self.new ≡ record_of self.old) × (R.stream rng.new ≡ R.stream rng.old)) }
    {
        let start = Some(IceAgentEvent::IceRestart(self.local_creds.clone()?));
        self.reserve_round_room(now)?;
        self.begin_timeout(now, start, expired);
        self.maintain_pairs(now, rng);
        Ok(())
    }

    /// A `handle_timeout` call that serves no request. This many early requests are outdated.
    fn run_timeout_without_request<R: Rng>(
        &mut self,
        now: Instant,
        expired: usize,
        rng: &mut R,
    ) -> Result<(), AllocError>
        requires { expired ≡ outdated now.0 self.old.timing self.old.remote_creds (record_of self.old) }
        ensures advanced { OnOk result (MaintainsPairs H.mac now.0 (timeout_begun now.0 (record_of self.old)) (R.stream rng.old) (emitted_of self.new)
            (record_of self.new) (R.stream rng.new)) }
        ensures unchanged { IfErr result (λ _. (record_of self.new ≡ record_of self.old) × (R.stream rng.new ≡ R.stream rng.old)) }
    {
        if same_state(self.state, IceConnectionState::New) {
            return self.run_first_timeout(now, expired, rng);
        }
        self.reserve_round_room(now)?;
        self.begin_later_timeout(now, expired);
        self.maintain_pairs(now, rng);
        Ok(())
    }

    /// The first early request that is not outdated is served, if there is one; else the call does its work without one.
    #[inline(never)]
    fn run_timeout_with_requests<R: Rng>(
        &mut self,
        now: Instant,
        rng: &mut R,
    ) -> Result<(), IceError>
        requires { IsSome self.old.remote_creds }
        ensures passed { OnOk result (MatchOption (request_at now.0 (record_of self.old))
            (MaintainsPairs H.mac now.0 (timeout_begun now.0 (record_of self.old)) (R.stream rng.old) (emitted_of self.new)
            (record_of self.new) (R.stream rng.new))
            (λ q. ServesQueued H.mac q (at_request now.0 (timeout_begun now.0 (record_of self.old))) (R.stream rng.old)
            (emitted_of self.new) (record_of self.new)
            (R.stream rng.new))) }
        ensures rejected { IfErr result (λ error. MayFailAtTimeout now.0 (record_of self.old) error) }
        ensures unchanged { IfErr result (λ _. (record_of self.new ≡ record_of self.old) × (R.stream rng.new ≡ R.stream rng.old)) }
    {
        let expired = count_outdated(&self.queue, now, &self.timing);
        if expired < self.queue.len() {
            let plan = self.plan_early(expired)?;
            self.emitted = self.serve_early_request(now, expired, plan)?;
            return Ok(());
        }
        Ok(self.run_timeout_without_request(now, expired, rng)?)
    }

    /// Serves the first early request that is not outdated, or does the work of the call without one. Mostly the queue is empty.
    fn run_timeout<R: Rng>(&mut self, now: Instant, rng: &mut R) -> Result<(), IceError>
        ensures passed { OnOk result (MatchOption (request_at now.0 (record_of self.old))
            (MaintainsPairs H.mac now.0 (timeout_begun now.0 (record_of self.old)) (R.stream rng.old) (emitted_of self.new)
            (record_of self.new) (R.stream rng.new))
            (λ q. ServesQueued H.mac q (at_request now.0 (timeout_begun now.0 (record_of self.old))) (R.stream rng.old)
            (emitted_of self.new) (record_of self.new)
            (R.stream rng.new))) }
        ensures rejected { IfErr result (λ error. MayFailAtTimeout now.0 (record_of self.old) error) }
        ensures unchanged { IfErr result (λ _. (record_of self.new ≡ record_of self.old) × (R.stream rng.new ≡ R.stream rng.old)) }
    {
        if self.queue.is_empty() || self.remote_creds.is_none() {
            return Ok(self.run_timeout_without_request(now, 0, rng)?);
        }
        self.run_timeout_with_requests(now, rng)
    }

    /// Runs the agent's timers at time `now`. In New it first emits the start event. It evaluates the state. It serves an
    /// early request, once the remote credentials are known. If there is none, it nominates a pair, removes pairs that are no
    /// longer possible or whose consent ended, and checks the pair that is due first, or in turn the selected one, an urgent one or
    /// one of the next kind (`Profile`; RFC 8445, sections 6.1.4.2, 7.2.4, 7.3.1.4 and 8.1.1; RFC 7675). With numbered nominations it first
    /// checks a selected pair whose nomination was not sent yet. It allocates what the events and the packet that it issues need. If a
    /// pair may be nominated and its due time is not fixed, or nominations have numbers, it reserves capacity for a check too.
    ///
    /// Fails with `PairIdsExhausted` if a request is served, a pair must be added and no number is left, and with
    /// `OutOfMemory`. The agent is then unchanged, and no random words were drawn.
    pub fn handle_timeout<R: Rng>(&mut self, now: Instant, rng: &mut R) -> Result<(), IceError>
        ensures timed_out { TimesOut H.mac now.0 (record_of self.old) (R.stream rng.old) result (emitted_of self.new) (record_of self.new)
            (R.stream rng.new) }
        // With the profile `Modern` there is a last call after each successful one, also if it served a request.
        ensures noted { IfOk result (λ _. is_modern (record_of self.old).timing ≡ true → is_some (record_of self.new).last_time ≡ true) }
    {
        theorems::calls_are_noted::<H, P>();
        match self.run_timeout(now, rng) {
            Ok(()) => Ok(()),
            Err(error) => {
                self.emitted = Emitted::nothing();
                Err(error)
            }
        }
    }
}
