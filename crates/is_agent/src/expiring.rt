//! Pairs that are removed after timeout: those that failed, and those whose consent ended (RFC 7675, section 5.1).

ghost use Rattle.std.specs.Prelude.{◌≡◌, ℕ, Option, None};
ghost use Rattle.std.specs.List.{list_any};
ghost use Rattle.is_agent.specs.View.{record_of, emitted_of};
ghost use Rattle.is_agent.specs.Room.{HasEventRoom, HasCheckRoomAt, UsesEvents};
ghost use Rattle.is_rules.specs.Agent.{AgentRecord};
ghost use Rattle.is_rules.specs.Nominating.{Nominates};
ghost use Rattle.is_rules.specs.States.{evaluated};
ghost use Rattle.is_rules.specs.Emitted.{emitted_by};
ghost use Rattle.is_rules.specs.declared.emitted.Path.{Path};
ghost use Rattle.is_rules.specs.Timeouts.{is_expired, expired_gone, RemovesExpired};

use crate::agent::Agent;
use is_candidate::LocalPreference;
use is_pair::checklist::Expired;
use is_proto::{Instant, Sha1HmacProvider};
use is_rules::emitted::{Emitted, Path};

impl<H: Sha1HmacProvider + Drop, P: LocalPreference> Agent<H, P> {
    fn any_expired(&self, now: Instant) -> bool
        ensures { result ≡ list_any (is_expired now.0 (record_of self.now)) (record_of self.now).pairs }
    {
        self.pairs.any(&Expired {
            lite: self.lite,
            now,
            timing: &self.timing,
            consent: self.kept_consent,
        })
    }

    fn drop_expired(&mut self, now: Instant)
        ensures gone { record_of self.new ≡ expired_gone now.0 (record_of self.old) }
        ensures events { UsesEvents 0 self.old self.new }
        ensures checks { (t : ℕ) → HasCheckRoomAt t self.old → HasCheckRoomAt t self.new }
    {
        self.pairs.remove_where(&Expired {
            lite: self.lite,
            now,
            timing: &self.timing,
            consent: self.kept_consent,
        });
    }

    /// Removes the pairs that failed, and evaluates nomination and state. It is a separate function, so that calls that
    /// remove no pair do not pay for it.
    #[inline(never)]
    fn remove_expired_and_emit(&mut self, first: Option<Path>, now: Instant)
        requires room { HasEventRoom 2 self.old }
        ensures expired { (second : Option Path) × (mid : AgentRecord H P) × Nominates (expired_gone now.0 (record_of self.old)) second mid
            × (record_of self.new ≡ evaluated now.0 mid) × (emitted_of self.new ≡ emitted_by None first second) }
        ensures checks { (t : ℕ) → HasCheckRoomAt t self.old → HasCheckRoomAt t self.new }
    {
        self.drop_expired(now);
        let second = self.evaluate_nomination();
        self.evaluate_state(now);
        self.emitted = Emitted::by(None, first, second);
    }

    /// Removes the pairs that are no longer possible. If there is one, nomination and state are evaluated; else the state is, with
    /// `Modern`. A path that this selects is emitted after the path that was selected before.
    pub(crate) fn remove_expired(&mut self, first: Option<Path>, now: Instant)
        requires room { HasEventRoom 2 self.old }
        ensures expired { (second : Option Path) × RemovesExpired now.0 (record_of self.old) second (record_of self.new)
            × (emitted_of self.new ≡ emitted_by None first second) }
        ensures checks { (t : ℕ) → HasCheckRoomAt t self.old → HasCheckRoomAt t self.new }
    {
        if !self.any_expired(now) {
            self.update_state(true, now);
            self.emitted = Emitted::selected_only(first);
            return;
        }
        self.remove_expired_and_emit(first, now);
    }
}
