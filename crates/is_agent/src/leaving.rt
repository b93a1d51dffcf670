//! A selected path that falls silent is left for another one that works, and is checked again, with `Modern`. It is checked soon if the peer
//! nominates another one; the rules: `is_rules::leaving`.

ghost use Rattle.std.specs.Prelude.{◌≡◌, ◌+◌, ℕ, List, None, ◌&&◌, IfSome, false, find, is_some, map, not, option_map, true};
ghost use Rattle.std.specs.List.{list_any};
ghost use Rattle.std.specs.Option.{option_map_or, option_or};
ghost use Rattle.is_agent.specs.View.{record_of, emitted_of};
ghost use Rattle.is_agent.specs.Room.{HasCheckRoomAt, HasPairRoom, UsesDiscoveryRoom, UsesEvents};
ghost use Rattle.is_pair.specs.Due.{moved_up};
ghost use Rattle.is_pair.specs.Multiset.{change_pair, is_numbered, pair_numbered, without};
ghost use Rattle.is_pair.specs.Pairs.{PairRecord};
ghost use Rattle.is_stun.specs.Timing.{is_modern};
ghost use Rattle.is_rules.specs.Nominating.{numbers, pair_selected};
ghost use Rattle.is_rules.specs.Again.{candidates_of, formed_again, may_form_again};
ghost use Rattle.is_rules.specs.Leaving.{gives_way, hastened, is_contested, is_doubted, is_in_doubt, is_overruled, needs_check, may_replace, path_left};

use crate::agent::Agent;
use is_candidate::LocalPreference;
use is_pair::checklist::{Expired, Removal};
use is_pair::pair::{CandidatePair, Span};
use is_pair::{is_urgent, is_wholly_silent, silence_of};
use is_proto::{Instant, Sha1HmacProvider};
use is_rules::leaving::{
    Hastens, MayReplace, MovesNext, is_choice_at, is_lossy, is_new_choice, is_same_number,
    is_silent_enough, may_form_again,
};
use is_rules::nomination::{is_eligible, is_named_by, pair_selected};

impl<H: Sha1HmacProvider + Drop, P: LocalPreference> Agent<H, P> {
    /// Whether a pair may replace the one with this number, which has been silent for this span.
    fn has_replacement(&self, number: u64, silence: Span, now: Instant) -> bool
        ensures { result ≡ list_any (may_replace now.0 (record_of self.now) number silence) (record_of self.now).pairs }
    {
        self.pairs.any(&MayReplace {
            number,
            controlling: self.controlling,
            expired: Expired {
                lite: self.lite,
                now,
                timing: &self.timing,
                consent: self.kept_consent,
            },
            silence,
        })
    }

    /// Whether the pair is the selected one, and gives way.
    fn gives_way(&self, pair: &CandidatePair, now: Instant) -> bool
        ensures { result ≡ gives_way now.0 (record_of self.now) pair.now }
    {
        if !self.timing.is_modern()
            || self.lite
            || !is_named_by(self.selected_pair, pair)
            || !is_eligible(pair, self.controlling)
            || !is_wholly_silent(pair, &self.timing)
        {
            return false;
        }
        match silence_of(pair) {
            Some(silence) => {
                (is_silent_enough(pair, &self.timing, now) || self.is_overruled(pair, silence))
                    && self.has_replacement(pair.id().0, silence, now)
            }
            None => false,
        }
    }

    /// Whether the silence of the pair began when the peer checked another one, which it nominated last, and few checks of the pair were lost.
    fn is_overruled(&self, pair: &CandidatePair, silence: Span) -> bool
        ensures { result ≡ is_overruled (record_of self.now) pair.now silence }
    {
        if self.controlling || is_lossy(pair) {
            return false;
        }
        match pair_selected(self.last_nominated, &self.pairs) {
            Some(other) => is_choice_at(silence.from, pair, other),
            None => false,
        }
    }

    /// Whether the peer nominates another pair than this one, whose own nomination had a response.
    fn is_doubted(&self, pair: &CandidatePair) -> bool
        ensures { result ≡ is_doubted (record_of self.now) pair.now }
    {
        if is_urgent(pair) {
            return false;
        }
        match pair_selected(self.last_nominated, &self.pairs) {
            Some(other) => is_new_choice(pair, other),
            None => false,
        }
    }

    /// Whether the selected pair may be contested: not if the peer nominated it last.
    #[inline(always)]
    fn may_need_check(&self) -> bool
        ensures needs { (p : PairRecord) → result ≡ false → needs_check (record_of self.now) p ≡ false }
        ensures doubt { result ≡ false → is_in_doubt (record_of self.now) ≡ false }
        ensures rule { result ≡ true → (is_modern (record_of self.now).timing && not self.now.lite && not (numbers (record_of self.now))) ≡ true }
    {
        self.timing.is_modern()
            && !self.lite
            && !self.numbers()
            && if self.controlling {
                self.nomination_due
            } else {
                !is_same_number(self.last_nominated, self.selected_pair)
            }
    }

    /// Whether the pair is the selected one, and needs a check soon: the agent's nomination of it is still to be sent, or it is doubted.
    fn needs_check(&self, pair: &CandidatePair) -> bool
        ensures { result ≡ needs_check (record_of self.now) pair.now }
    {
        if !self.timing.is_modern()
            || self.lite
            || self.numbers()
            || !is_named_by(self.selected_pair, pair)
            || !is_eligible(pair, self.controlling)
        {
            return false;
        }
        if self.controlling {
            self.nomination_due
        } else {
            self.is_doubted(pair)
        }
    }

    /// Whether the pair needs a check, or is silent and overruled.
    fn is_contested(&self, pair: &CandidatePair) -> bool
        ensures { result ≡ is_contested (record_of self.now) pair.now }
    {
        if self.needs_check(pair) {
            return true;
        }
        match silence_of(pair) {
            Some(silence) => self.is_overruled(pair, silence),
            None => false,
        }
    }

    /// Whether the selected pair is contested.
    fn selected_is_contested(&self) -> bool
        ensures { result ≡ option_map_or (is_contested (record_of self.now)) (pair_selected (record_of self.now).selected_pair (record_of self.now).pairs) false }
    {
        match pair_selected(self.selected_pair, &self.pairs) {
            Some(pair) => self.is_contested(pair),
            None => false,
        }
    }

    /// Whether the selected pair of a full agent is contested, with `Modern`.
    #[inline(always)]
    pub(crate) fn is_in_doubt(&self) -> bool
        ensures { result ≡ is_in_doubt (record_of self.now) }
    {
        self.may_need_check() && self.selected_is_contested()
    }

    /// The number of the selected pair, if it gives way.
    fn left_number(&self, now: Instant) -> Option<u64>
        ensures without { option_map_or (λ n. without (is_numbered n) (record_of self.now).pairs) result (record_of self.now).pairs
            ≡ without (gives_way now.0 (record_of self.now)) (record_of self.now).pairs }
        ensures left { is_some result ≡ list_any (gives_way now.0 (record_of self.now)) (record_of self.now).pairs }
        ensures found { option_map_or (λ n. pair_numbered n (record_of self.now).pairs) result None
            ≡ find (gives_way now.0 (record_of self.now)) (record_of self.now).pairs }
    {
        self.pairs.numbers_rise();
        let Some(pair) = pair_selected(self.selected_pair, &self.pairs) else {
            return None;
        };
        if !self.gives_way(pair, now) {
            return None;
        }
        Some(pair.id().0)
    }

    /// The candidates of the path that was left before, until their pair is formed again, or else of the pair with this number.
    fn left_after(&self, number: u64) -> Option<(usize, usize)>
        ensures { result ≡ option_or self.now.left (option_map candidates_of (pair_numbered number (record_of self.now).pairs)) }
    {
        if let Some(left) = self.left {
            return Some(left);
        }
        match self.pairs.get(number) {
            Some(pair) => Some((pair.local_idx(), pair.remote_idx())),
            None => None,
        }
    }

    /// The number of the selected pair, if it needs a check.
    fn needing_number(&self) -> Option<u64>
        ensures { (now : ℕ) → option_map_or (λ n. change_pair n (moved_up (now + 1)) (record_of self.now).pairs) result (record_of self.now).pairs
            ≡ map (hastened (needs_check (record_of self.now)) now) (record_of self.now).pairs }
    {
        if !self.may_need_check() {
            return None;
        }
        self.pairs.numbers_rise();
        let Some(pair) = pair_selected(self.selected_pair, &self.pairs) else {
            return None;
        };
        if !self.needs_check(pair) {
            return None;
        }
        Some(pair.id().0)
    }

    /// Removes the selected pair, if it gives way, and keeps its candidates, if none are kept. Then the pairs that the agent may nominate are
    /// due next. If it stays, but needs a check, it is due next itself.
    pub(crate) fn leave_path(&mut self, now: Instant)
        ensures left { record_of self.new ≡ path_left now.0 (record_of self.old) }
        ensures emitted { emitted_of self.new ≡ emitted_of self.old }
        ensures events { UsesEvents 0 self.old self.new }
        ensures checks { HasCheckRoomAt now.0 self.old → HasCheckRoomAt now.0 self.new }
    {
        if let Some(number) = self.left_number(now) {
            self.left = self.left_after(number);
            self.pairs.remove(number, Removal::ConsentLost);
            self.pairs.change_all(&Hastens {
                controlling: self.controlling,
                now,
            });
        } else if let Some(number) = self.needing_number() {
            self.pairs.change(number, &MovesNext { now });
        }
    }

    /// Whether the pair of these candidates may be formed again.
    fn may_form_again(&self, at: (usize, usize)) -> bool
        ensures { result ≡ may_form_again (record_of self.now) at }
    {
        may_form_again(&self.local, &self.remote, &self.pairs, at) && self.next_number < u64::MAX
    }

    /// How many pairs `form_again` forms at most.
    pub(crate) fn formed_again_count(&self) -> usize
        ensures { result ≡ option_map_or (λ at. 1) self.now.left 0 }
    {
        usize::from(self.left.is_some())
    }

    /// Forms the pair of the path that was left again, if it may be.
    pub(crate) fn form_again(&mut self)
        requires pairs { IfSome self.old.left (λ _. HasPairRoom 1 self.old) }
        ensures formed { record_of self.new ≡ formed_again (record_of self.old) }
        ensures discovery { UsesDiscoveryRoom 0 self.old self.new }
    {
        if let Some(at) = self.left {
            self.left = None;
            if self.may_form_again(at) {
                self.add_pair(at.0, at.1);
            }
        }
    }
}
