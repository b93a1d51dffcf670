//! The connection state of an agent, and when it changes; the rules: `is_rules::states`.

ghost use Rattle.std.specs.Prelude.{◌≡◌, ℕ, ◌<◌, ◌+◌};
ghost use Rattle.is_agent.specs.View.{record_of};
ghost use Rattle.is_rules.specs.States.{next_state, has_nominated, has_possible, evaluated};
ghost use Rattle.is_agent.specs.Room.{HasPacketRoom, HasEventRoom, HasServingRoom, HasCheckRoomAt, UsesDiscoveryRoom};

use crate::agent::Agent;
use is_candidate::LocalPreference;
use is_proto::{Instant, Sha1HmacProvider};
use is_rules::event::IceConnectionState;
use is_rules::states::{OtherPossible, Usable, emit_state, next_state};

impl<H: Sha1HmacProvider + Drop, P: LocalPreference> Agent<H, P> {
    fn has_nominated(&self) -> bool
        ensures { result ≡ has_nominated (record_of self.now) }
    {
        self.pairs.any(&Usable)
    }

    fn has_possible(&self, now: Instant) -> bool
        ensures { result ≡ has_possible now.0 (record_of self.now) }
    {
        let timing = &self.timing;
        self.pairs.any(&OtherPossible { now, timing })
            || self.local.is_empty()
            || self.remote.is_empty()
    }

    /// The state that results if it is evaluated at time `now`.
    pub(crate) fn state_at(&self, now: Instant) -> IceConnectionState
        ensures { result ≡ next_state (record_of self.now).state (has_nominated (record_of self.now))
            (has_possible now.0 (record_of self.now)) (record_of self.now).lite }
    {
        next_state(
            self.state,
            self.has_nominated(),
            self.has_possible(now),
            self.lite,
        )
    }

    /// Evaluates the state at time `now`.
    pub(crate) fn evaluate_state(&mut self, now: Instant)
        requires room { HasEventRoom 1 self.old }
        ensures evaluated { record_of self.new ≡ evaluated now.0 (record_of self.old) }
        ensures packets { HasPacketRoom self.old → HasPacketRoom self.new }
        ensures serving { HasServingRoom self.old → HasServingRoom self.new }
        ensures discovery { UsesDiscoveryRoom 1 self.old self.new }
        ensures checks { (t : ℕ) → HasCheckRoomAt t self.old → HasCheckRoomAt t self.new }
    {
        let state = self.state_at(now);
        emit_state(&mut self.state, &mut self.events, state);
    }

    /// The connection state. Does not allocate.
    pub fn state(&self) -> IceConnectionState
        ensures { result ≡ (record_of self.now).state }
    {
        self.state
    }
}
