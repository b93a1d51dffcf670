//! Which pair is checked next (RFC 8445, sections 6.1.4.2 and 7.3.1.4); the rules: `is_rules::kinds`.

ghost use Rattle.std.specs.Prelude.{◌≡◌, ℕ, ◌||◌, Option, Some, true, IfSome, option_map, ◌+◌};
ghost use Rattle.std.specs.Option.{option_copied};
ghost use Rattle.is_pair.specs.Multiset.{has_number, pair_numbered, rises};
ghost use Rattle.is_pair.specs.Pairs.{PairRecord};
ghost use Rattle.is_rules.specs.Checking.{are_kinds_in_turn, has_first, precedence, is_ahead_turn, GoesAhead, IsNextToCheck, next_kind_after};
ghost use Rattle.is_rules.specs.Kinds.{kind_of, IsNextAhead};
ghost use Rattle.is_rules.specs.Leaving.{has_urgent, late_since, IsAskedAlong};
ghost use Rattle.is_rules.specs.Nominating.{nominates_at_once};
ghost use Rattle.is_agent.specs.View.{record_of};

use crate::agent::Agent;
use is_candidate::LocalPreference;
use is_pair::pair::{CandidatePair, Span};
use is_pair::{due_time_of, silence_until};
use is_proto::{Instant, Sha1HmacProvider};
use is_rules::kinds::{Precedence, has_first_due, kind_of, next_ahead};
use is_rules::leaving::{AskedAlong, asked_next};
use is_rules::nomination::pair_selected;

impl<H: Sha1HmacProvider + Drop, P: LocalPreference> Agent<H, P> {
    /// Whether kinds of pairs take turns: with the profile `Modern`, until a path is selected.
    fn are_kinds_in_turn(&self) -> bool
        ensures { result ≡ are_kinds_in_turn (record_of self.now) }
    {
        self.timing.is_modern() && !self.state.is_connected()
    }

    /// Which pairs come before all kinds.
    fn precedence(&self) -> Precedence
        ensures { result ≡ precedence (record_of self.now) }
    {
        Precedence {
            selected: if self.timing.is_modern() {
                self.selected_pair
            } else {
                None
            },
            urgent: self.timing.is_modern(),
        }
    }

    /// A pair that comes before all kinds is due.
    fn has_first(&self, now: Instant) -> bool
        ensures { result ≡ has_first now.0 (record_of self.now) }
    {
        has_first_due(&self.pairs, self.precedence(), now, &self.timing)
    }

    /// The next check goes ahead of pairs that are due earlier. It is a separate function, so that agents with the profile `Original` do
    /// not pay for it.
    #[inline(never)]
    fn goes_ahead_now(&self, now: Instant) -> bool
        ensures { result ≡ (are_kinds_in_turn (record_of self.now) || has_first now.0 (record_of self.now)) }
    {
        self.are_kinds_in_turn() || self.has_first(now)
    }

    /// The next check goes ahead of pairs that are due earlier: every second one may.
    pub(crate) fn is_ahead_turn(&self, now: Instant) -> bool
        ensures { result ≡ is_ahead_turn now.0 (record_of self.now) }
    {
        self.timing.is_modern() && self.ahead_turn && self.goes_ahead_now(now)
    }

    /// The pair that is checked ahead of those that are due earlier. It is a separate function, so that checks in order of due times do
    /// not pay for it.
    #[inline(never)]
    fn next_ahead(&self, now: Instant) -> Option<&CandidatePair>
        ensures { IsNextAhead (record_of self.now).local (record_of self.now).remote (precedence (record_of self.now))
            (record_of self.now).next_kind now.0 self.now.timing (record_of self.now).pairs (option_copied result) }
    {
        next_ahead(
            &self.pairs,
            &self.local,
            &self.remote,
            self.precedence(),
            self.next_kind,
            now,
            &self.timing,
        )
    }

    /// An urgent pair is due.
    fn has_urgent(&self, now: Instant) -> bool
        ensures { result ≡ has_urgent now.0 (record_of self.now) }
    {
        let urgent = Precedence {
            selected: None,
            urgent: true,
        };
        has_first_due(&self.pairs, urgent, now, &self.timing)
    }

    /// Since when the selected pair is silent, if the agent is connected, the pair is due once more, and no urgent one is.
    fn late_since(&self, pair: &CandidatePair, now: Instant) -> Option<Span>
        ensures { result ≡ late_since now.0 (record_of self.now) pair.now }
    {
        if self.state.is_connected()
            && due_time_of(pair, now, &self.timing) <= now
            && !self.has_urgent(now)
        {
            silence_until(pair, now)
        } else {
            None
        }
    }

    /// The pair that is asked along with the selected one, which is silent.
    fn asked_along(&self, now: Instant) -> Option<&CandidatePair>
        ensures { IsAskedAlong now.0 (record_of self.now) (option_copied result) }
    {
        let pair = pair_selected(self.selected_pair, &self.pairs)?;
        let silence = self.late_since(pair, now)?;
        let along = AskedAlong {
            number: pair.id().0,
            silence,
        };
        asked_next(&self.pairs, &along)
    }

    /// The pair that is checked ahead of those that are due earlier: the one that is asked along with the selected one, if any.
    fn ahead_or_along(&self, now: Instant) -> Option<&CandidatePair>
        ensures { GoesAhead now.0 (record_of self.now) (option_copied result) }
    {
        match self.asked_along(now) {
            Some(pair) => Some(pair),
            None => self.next_ahead(now),
        }
    }

    /// The pair that is checked next: the selected one, if its nomination is due, or else by whether the check goes ahead.
    fn next_to_check(&self, begins: bool, ahead: bool, now: Instant) -> Option<&CandidatePair>
        requires begins { begins ≡ nominates_at_once (record_of self.now) }
        requires ahead { ahead ≡ is_ahead_turn now.0 (record_of self.now) }
        ensures { IsNextToCheck now.0 (record_of self.now) (option_copied result) }
    {
        if begins {
            pair_selected(self.selected_pair, &self.pairs)
        } else if ahead {
            self.ahead_or_along(now)
        } else {
            self.pairs.next_due(now, &self.timing)
        }
    }

    /// The number of the pair that is checked next: the selected one, if its nomination is due, or else by whether the check goes ahead.
    pub(crate) fn next_number(&self, begins: bool, ahead: bool, now: Instant) -> Option<u64>
        requires begins { begins ≡ nominates_at_once (record_of self.now) }
        requires ahead { ahead ≡ is_ahead_turn now.0 (record_of self.now) }
        ensures next { (next : Option PairRecord) × IsNextToCheck now.0 (record_of self.now) next × (result ≡ option_map (λ p. p.number) next) }
        ensures has { IfSome result (λ n. has_number n (record_of self.now).pairs ≡ true) }
        ensures rises { rises (record_of self.now).pairs ≡ true }
    {
        self.pairs.numbers_rise();
        match self.next_to_check(begins, ahead, now) {
            None => None,
            Some(pair) => Some(pair.id().0),
        }
    }

    /// The kind after that of the pair with this number. It is a separate function, so that checks in order of due times do not pay for it.
    #[inline(never)]
    fn kind_after(&self, number: u64) -> u8
        requires { has_number number (record_of self.now).pairs ≡ true }
        ensures { (p : PairRecord) → pair_numbered number (record_of self.now).pairs ≡ Some p
            → result ≡ kind_of (record_of self.now).local (record_of self.now).remote p + 1 }
    {
        match self.pairs.get(number) {
            None => unreachable!(),
            Some(pair) => kind_of(&self.local, &self.remote, pair) + 1,
        }
    }

    /// The kind from which on the next turn is, after a check of the pair with this number, by whether the check went ahead.
    pub(crate) fn next_kind_after(&self, number: u64, ahead: bool) -> u8
        requires { has_number number (record_of self.now).pairs ≡ true }
        ensures { (now : ℕ) (p : PairRecord) → ahead ≡ is_ahead_turn now (record_of self.now)
            → pair_numbered number (record_of self.now).pairs ≡ Some p
            → result ≡ next_kind_after now p (record_of self.now) }
    {
        if ahead {
            self.kind_after(number)
        } else {
            self.next_kind
        }
    }
}
