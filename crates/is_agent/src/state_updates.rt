//! When the state is evaluated: at the start of a `handle_timeout` call, or after nomination.

ghost use Rattle.std.specs.Prelude.{◌≡◌, ℕ, ◌&&◌, true, not, Option, unwrap_or, OnOk};
ghost use Rattle.is_agent.specs.View.{record_of, emitted_of};
ghost use Rattle.is_agent.specs.Room.{HasEventRoom, HasCandidateRoom, HasSelectionRoom, HasPacketRoom, HasServingRoom, HasCheckRoomAt};
ghost use Rattle.is_agent.specs.Room.{UsesDiscoveryRoom};
ghost use Rattle.is_rules.specs.Agent.{AgentRecord};
ghost use Rattle.is_rules.specs.Emitted.{nothing_emitted, selected_only};
ghost use Rattle.is_rules.specs.Nominating.{Nominates};
ghost use Rattle.is_rules.specs.States.{evaluated};
ghost use Rattle.is_rules.specs.declared.emitted.Path.{Path};
ghost use Rattle.is_rules.specs.StateUpdates.{updates_late, started, state_updated, has_selected, Reselects};

use crate::agent::Agent;
use crate::room::reserve_events;
use is_candidate::LocalPreference;
use is_proto::{Instant, Sha1HmacProvider};
use is_rules::emitted::Emitted;
use is_rules::event::IceConnectionState;
use is_rules::states::same_state;
use std::alloc::AllocError;

impl<H: Sha1HmacProvider + Drop, P: LocalPreference> Agent<H, P> {
    /// The profile is `Modern`, and the session has begun.
    fn updates_late(&self) -> bool
        ensures { result ≡ updates_late (record_of self.now) }
    {
        self.timing.is_modern() && !same_state(self.state, IceConnectionState::New)
    }

    /// The state when a `handle_timeout` call starts: evaluated, unless it is after nomination.
    pub(crate) fn start_state(&mut self, now: Instant)
        requires room { HasEventRoom 1 self.old }
        ensures started { record_of self.new ≡ started now.0 (record_of self.old) }
        ensures serving { HasServingRoom self.old → HasServingRoom self.new }
        ensures discovery { UsesDiscoveryRoom 1 self.old self.new }
        ensures checks { (t : ℕ) → HasCheckRoomAt t self.old → HasCheckRoomAt t self.new }
    {
        if !self.updates_late() {
            self.evaluate_state(now);
        }
    }

    /// The state after nomination: with `Modern` it is evaluated, if nomination may have changed it.
    pub(crate) fn update_state(&mut self, changes: bool, now: Instant)
        requires room { HasEventRoom 1 self.old }
        ensures updated { record_of self.new ≡ state_updated changes now.0 (record_of self.old) }
        ensures packets { HasPacketRoom self.old → HasPacketRoom self.new }
        ensures discovery { UsesDiscoveryRoom 1 self.old self.new }
        ensures checks { (t : ℕ) → HasCheckRoomAt t self.old → HasCheckRoomAt t self.new }
    {
        if changes && self.updates_late() {
            self.evaluate_state(now);
        }
    }
}

// ---- calls that may remove the selected pair

impl<H: Sha1HmacProvider + Drop, P: LocalPreference> Agent<H, P> {
    /// The pair that was selected last exists, and with `Modern` another one is selected if it is removed.
    pub(crate) fn keeps_selected(&self) -> bool
        ensures { result ≡ (updates_late (record_of self.now) && has_selected (record_of self.now)) }
    {
        self.updates_late() && self.has_selected()
    }

    /// Reserves capacity for the two events of a new selection, if another pair is selected once the selected one is removed.
    pub(crate) fn reserve_selection_room(&mut self) -> Result<(), AllocError>
        ensures record { record_of self.new ≡ record_of self.old }
        ensures room { OnOk result (HasSelectionRoom (record_of self.old) self.new) }
        ensures candidate { (n : ℕ) → HasCandidateRoom n self.old → HasCandidateRoom n self.new }
    {
        if self.keeps_selected() {
            reserve_events(&mut self.events, self.kept_room, 2)?;
        }
        Ok(())
    }

    /// The time of the last `handle_timeout` call.
    fn time_of_last(&self) -> Instant
        ensures { result.0 ≡ unwrap_or (record_of self.now).last_time 0 }
    {
        match self.last_time {
            Some(last) => last,
            None => Instant(0),
        }
    }

    /// Evaluates nomination and then the state, as of the last `handle_timeout` call.
    #[inline(never)]
    pub(crate) fn select_again(&mut self)
        requires room { HasEventRoom 2 self.old }
        ensures { (path : Option Path) × (mid : AgentRecord H P) × Nominates (record_of self.old) path mid
            × (record_of self.new ≡ evaluated (unwrap_or (record_of self.old).last_time 0) mid) × (emitted_of self.new ≡ selected_only path) }
    {
        let now = self.time_of_last();
        let path = self.evaluate_nomination();
        self.evaluate_state(now);
        self.emitted = Emitted::selected_only(path);
    }

    /// The selected pair was kept before the call, and is gone.
    pub(crate) fn is_lost(&self, kept: bool) -> bool
        ensures { result ≡ (kept && not (has_selected (record_of self.now))) }
    {
        kept && !self.has_selected()
    }

    /// Selects again if the selected pair is lost.
    pub(crate) fn reselect(&mut self, kept: bool)
        requires room { kept ≡ true → HasEventRoom 2 self.old }
        ensures { (path : Option Path) × Reselects (kept && not (has_selected (record_of self.old))) (record_of self.old) path (record_of self.new)
            × (emitted_of self.new ≡ selected_only path) }
    {
        if !self.is_lost(kept) {
            self.emitted = Emitted::nothing();
            return;
        }
        self.select_again();
    }
}
