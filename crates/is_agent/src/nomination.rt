//! Nomination (RFC 8445, section 8.1.1): selecting a pair; the rules: `is_rules::nomination`.
//!
//! Of the eligible pairs, one with the greatest priority is selected. An agent that follows its peer selects the pair that the peer
//! nominated last.

ghost use Rattle.std.specs.Prelude.{◌≡◌, ℕ, is_some};
ghost use Rattle.is_agent.specs.View.{record_of};
ghost use Rattle.is_agent.specs.Room.{HasEventRoom, HasPacketRoom, HasCheckRoomAt, UsesDiscoveryRoom};
ghost use Rattle.is_rules.specs.Nominating.{nominates_at_once, followed, is_pressing, nomination_of, numbers, nominated_emitted};
ghost use Rattle.is_rules.specs.Nominating.{pair_selected, stays_nominated};
ghost use Rattle.is_rules.specs.Nominating.{Nominates, NominatesWhere};
ghost use Rattle.is_pair.specs.Pairs.{PairRecord};

use crate::agent::{Agent, sides};
use is_candidate::LocalPreference;
use is_pair::pair::CandidatePair;
use is_proto::Sha1HmacProvider;
use is_rules::emitted::Path;
use is_rules::event::IceAgentEvent;
use is_rules::nomination::{
    followed_by_number, has_eligible, is_named_by, pair_selected, select_pair,
};
use is_rules::sides::Sides;

impl<H: Sha1HmacProvider + Drop, P: LocalPreference> Agent<H, P> {
    /// Emits `NominatedSend` for the path, if there is one.
    pub(crate) fn emit_nominated(&mut self, path: Option<Path>)
        requires room { HasEventRoom 1 self.old }
        ensures emitted { record_of self.new ≡ nominated_emitted path (record_of self.old) }
        ensures discovery { UsesDiscoveryRoom 1 self.old self.new }
        ensures packets { HasPacketRoom self.old → HasPacketRoom self.new }
        ensures checks { (now : ℕ) → HasCheckRoomAt now self.old → HasCheckRoomAt now self.new }
    {
        let Some(path) = path else { return };
        self.events
            .push_back_reserved(IceAgentEvent::NominatedSend {
                proto: path.proto,
                source: path.source,
                destination: path.destination,
            });
        self.stats.nomination_send_count = self.stats.nomination_send_count.saturating_add(1);
        self.nominations = self.nominations.saturating_add(1);
        self.nomination_due = true;
    }

    /// Nominations have numbers: with renomination and the profile `Modern`.
    pub(crate) fn numbers(&self) -> bool
        ensures { result ≡ numbers (record_of self.now) }
    {
        self.renominates && self.timing.is_modern()
    }

    /// The number of the pair that the agent follows: the one that the peer nominated last or, once it served a nomination with a
    /// number, by the greatest one.
    fn followed(&self) -> Option<u64>
        ensures { result ≡ followed (record_of self.now) }
    {
        if !self.renominates || self.controlling {
            None
        } else if self.numbers() && self.numbers_seen {
            followed_by_number(&self.pairs, self.controlling, self.selected_pair)
        } else {
            self.last_nominated
        }
    }

    /// NOMINATION of a check of the pair.
    pub(crate) fn nomination_of(&self, pair: &CandidatePair) -> Option<u32>
        ensures { result ≡ nomination_of (record_of self.now) pair.now }
    {
        if self.controlling && self.numbers() && self.stays_nominated(pair) {
            Some(self.nominations.max(1))
        } else {
            None
        }
    }

    /// The pair that was selected last still exists.
    pub(crate) fn has_selected(&self) -> bool
        ensures { result ≡ is_some (pair_selected (record_of self.now).selected_pair (record_of self.now).pairs) }
    {
        pair_selected(self.selected_pair, &self.pairs).is_some()
    }

    /// A path was selected, and its nomination is still to be sent.
    pub(crate) fn nominates_at_once(&self) -> bool
        ensures { result ≡ nominates_at_once (record_of self.now) }
    {
        self.controlling
            && !self.lite
            && self.numbers()
            && self.nomination_due
            && self.has_selected()
    }

    /// `handle_timeout` is to be called soon, if nominations have numbers: to nominate the path that was selected, or to select an
    /// eligible pair if the selected one is gone.
    pub(crate) fn is_pressing(&self) -> bool
        ensures { result ≡ is_pressing (record_of self.now) }
    {
        if !self.numbers() {
            return false;
        }
        if self.has_selected() {
            self.controlling && !self.lite && self.nomination_due
        } else {
            has_eligible(&self.pairs, self.controlling)
        }
    }

    /// The pair is nominated, and its nomination is not replaced by a later one.
    pub(crate) fn stays_nominated(&self, pair: &CandidatePair) -> bool
        ensures { result ≡ stays_nominated (record_of self.now) pair.now }
    {
        pair.is_nominated() && (!self.renominates || is_named_by(self.selected_pair, pair))
    }

    /// Selects an eligible pair with the greatest priority, unless the pair that was selected last has that priority. If the
    /// agent follows its peer, it selects the pair that the peer nominated last, once it is eligible. Returns the path that
    /// was selected.
    pub(crate) fn evaluate_nomination(&mut self) -> Option<Path>
        requires room { HasEventRoom 1 self.old }
        ensures nominates { Nominates (record_of self.old) result (record_of self.new) }
        ensures discovery { UsesDiscoveryRoom 1 self.old self.new }
        ensures packets { HasPacketRoom self.old → HasPacketRoom self.new }
        ensures checks { (now : ℕ) → HasCheckRoomAt now self.old → HasCheckRoomAt now self.new }
    {
        let followed = self.followed();
        let path = select_pair(
            sides!(self),
            followed,
            &mut self.pairs,
            &mut self.selected_pair,
        );
        self.emit_nominated(path);
        path
    }

    /// Evaluates nomination if `evaluates` is true.
    pub(crate) fn nominate_where(&mut self, evaluates: bool) -> Option<Path>
        requires room { HasEventRoom 1 self.old }
        ensures nominates { NominatesWhere evaluates (record_of self.old) result (record_of self.new) }
        ensures discovery { UsesDiscoveryRoom 1 self.old self.new }
        ensures packets { HasPacketRoom self.old → HasPacketRoom self.new }
    {
        if evaluates {
            self.evaluate_nomination()
        } else {
            None
        }
    }
}
