//! Nomination (RFC 8445, section 8.1.1): which pair is selected; the agent's part: `is_agent::nomination`.
//!
//! Of the eligible pairs, one with the greatest priority is selected. An agent that follows its peer selects the pair that the peer
//! nominated last, or the one that it nominated by the greatest number.

ghost use Rattle.std.specs.Prelude.{◌≡◌, ℕ, List, true, option_map, if◌then◌else◌};
ghost use Rattle.std.specs.Option.{option_and_then, option_copied};
ghost use Rattle.std.specs.List.{list_any};
ghost use Rattle.is_stun.specs.declared.timing.StunTiming.{StunTiming};
ghost use Rattle.is_rules.specs.Due.{falls_due};
ghost use Rattle.is_rules.specs.FormingView.{sides_view};
ghost use Rattle.is_rules.specs.Kept.{is_placed, are_placed};
ghost use Rattle.is_candidate.specs.Candidates.{CandidateRecord};
ghost use Rattle.is_pair.specs.Multiset.{are_below, change_pair, has_number, IsGreatest, is_named_by};
ghost use Rattle.is_pair.specs.Pairs.{renominated};
ghost use Rattle.is_pair.specs.Checklists as checklists;
ghost use Rattle.is_pair.specs.Checklists.{multiset_of, HasRoom};
ghost use Rattle.is_rules.specs.Nominating.{eligible_numbered, favored, is_eligible, nominated_by_self, pair_selected, remains, persists_at};
ghost use Rattle.is_rules.specs.Nominating.{selection, IsChosen, Names};
ghost use Rattle.is_rules.specs.Nominating.{first_numbered, first_with, number_of, outnumbers};

use crate::emitted::Path;
use crate::sides::Sides;
use is_pair::checklist::{Checklist, PairChange, PairTest};
use is_pair::pair::{CandidatePair, CheckState};
use is_pair::renominate;

/// The pair may be selected.
pub fn is_eligible(pair: &CandidatePair, controlling: bool) -> bool
    ensures { result ≡ is_eligible controlling pair.now }
{
    pair.state() == CheckState::Succeeded && (controlling || pair.is_nominated())
}

/// Whether a pair may be selected.
#[derive(Clone, Copy)]
struct Eligible {
    controlling: bool,
}

impl PairTest for Eligible {
    ghost use Rattle.is_rules.specs.Nominating.{is_eligible};

    ghost passes = { λ t p. is_eligible t.controlling p };

    fn passes(&self, pair: &CandidatePair) -> bool {
        is_eligible(pair, self.controlling)
    }
}

/// Of the pairs that may be selected, one with the greatest priority.
fn top_eligible(pairs: &Checklist, controlling: bool) -> Option<&CandidatePair>
    ensures { IsGreatest (is_eligible controlling) (multiset_of pairs.now) (option_copied result) }
{
    pairs.greatest(&Eligible { controlling })
}

/// The pair that was selected last, if it still exists.
pub fn pair_selected(selected: Option<u64>, pairs: &Checklist) -> Option<&CandidatePair>
    ensures { option_copied result ≡ pair_selected selected (multiset_of pairs.now) }
{
    match selected {
        Some(number) => pairs.get(number),
        None => None,
    }
}

/// The pair that was selected last still exists, with this priority.
fn persists_at(selected: Option<u64>, priority: u64, pairs: &Checklist) -> bool
    ensures { result ≡ persists_at selected priority (multiset_of pairs.now) }
{
    match pair_selected(selected, pairs) {
        Some(pair) => pair.prio() == priority,
        None => false,
    }
}

/// The pair with this number, if it may be selected.
fn eligible_numbered(pairs: &Checklist, controlling: bool, number: u64) -> Option<&CandidatePair>
    ensures { option_copied result ≡ eligible_numbered controlling (multiset_of pairs.now) number }
{
    match pairs.get(number) {
        Some(pair) => {
            if is_eligible(pair, controlling) {
                Some(pair)
            } else {
                None
            }
        }
        None => None,
    }
}

/// The pair that was selected last, if it may be selected.
fn still_eligible(
    pairs: &Checklist,
    controlling: bool,
    selected: Option<u64>,
) -> Option<&CandidatePair>
    ensures { option_copied result ≡ option_and_then (eligible_numbered controlling (multiset_of pairs.now)) selected }
{
    match selected {
        Some(number) => eligible_numbered(pairs, controlling, number),
        None => None,
    }
}

/// If the agent follows its peer: the pair that the peer nominated last, or the one that was selected last.
fn favored(
    pairs: &Checklist,
    controlling: bool,
    followed: Option<u64>,
    selected: Option<u64>,
) -> Option<&CandidatePair>
    ensures { option_copied result ≡ favored controlling followed (selection (multiset_of pairs.now) selected) }
{
    match followed {
        None => None,
        Some(number) => match eligible_numbered(pairs, controlling, number) {
            Some(pair) => Some(pair),
            None => still_eligible(pairs, controlling, selected),
        },
    }
}

/// The pair to be selected: the favored one, or one with the greatest priority.
fn chosen(
    pairs: &Checklist,
    controlling: bool,
    followed: Option<u64>,
    selected: Option<u64>,
) -> Option<&CandidatePair>
    ensures { IsChosen controlling followed (selection (multiset_of pairs.now) selected) (option_copied result) }
{
    match favored(pairs, controlling, followed, selected) {
        Some(pair) => Some(pair),
        None => top_eligible(pairs, controlling),
    }
}

/// The number is that of the pair.
pub fn is_named_by(selected: Option<u64>, pair: &CandidatePair) -> bool
    ensures { result ≡ is_named_by selected pair.now }
{
    match selected {
        Some(number) => number == pair.id().0,
        None => false,
    }
}

/// The pair that was selected last stays selected, if this one is chosen.
fn remains(
    pairs: &Checklist,
    followed: Option<u64>,
    selected: Option<u64>,
    top: &CandidatePair,
) -> bool
    ensures { result ≡ remains followed top.now (selection (multiset_of pairs.now) selected) }
{
    match followed {
        Some(_) => is_named_by(selected, top),
        None => persists_at(selected, top.prio(), pairs),
    }
}

/// Nominates a pair that is not nominated: only if the agent is controlling or lite.
#[derive(Clone, Copy)]
struct NominatesBySelf {
    controlling: bool,
    lite: bool,
}

impl PairChange for NominatesBySelf {
    ghost use Rattle.is_rules.specs.Nominating.{nominated_by_self};

    ghost makes = { λ t p. nominated_by_self t.controlling t.lite p };

    fn change(&self, pair: &mut CandidatePair) {
        if !pair.is_nominated() && (self.controlling || self.lite) {
            pair.nominate(self.lite);
        }
    }
}

/// The agent itself nominates the pair with this number, if it is not nominated.
fn nominate_pair(pairs: &mut Checklist, number: u64, controlling: bool, lite: bool)
    ensures nominated { multiset_of pairs.new ≡ change_pair number (nominated_by_self controlling lite) (multiset_of pairs.old) }
    ensures room { (n : ℕ) → HasRoom n pairs.old → HasRoom n pairs.new }
    ensures check_room { (n : ℕ) → checklists.HasCheckRoom n pairs.old → checklists.HasCheckRoom n pairs.new }
    ensures below { (n : ℕ) → are_below n (multiset_of pairs.old) ≡ true → are_below n (multiset_of pairs.new) ≡ true }
{
    pairs.change(number, &NominatesBySelf { controlling, lite });
}

// ---- nominations with numbers (draft-thatcher-ice-renomination)

/// The number of a nominated pair: USE-CANDIDATE without NOMINATION counts as 1.
fn number_of(pair: &CandidatePair) -> u32
    ensures { result ≡ number_of pair.now }
{
    pair.greatest_number().max(1)
}

/// Whether the pair `p` goes before `q`, which comes before it in the list: by its number, of equal numbers as the pair that was
/// selected last, and then by its priority.
fn outnumbers(selected: Option<u64>, p: &CandidatePair, q: &CandidatePair) -> bool
    ensures { result ≡ outnumbers selected p.now q.now }
{
    let (ours, theirs) = (number_of(p), number_of(q));
    theirs < ours
        || (ours == theirs
            && !is_named_by(selected, q)
            && (is_named_by(selected, p) || q.prio() < p.prio()))
}

/// The first one so far, or the next pair, if it may be selected and goes before.
fn first_with<'a>(
    controlling: bool,
    selected: Option<u64>,
    first: Option<&'a CandidatePair>,
    pair: &'a CandidatePair,
) -> Option<&'a CandidatePair>
    ensures { option_copied result ≡ first_with controlling selected (option_copied first.entry) pair.now }
{
    match first {
        None if is_eligible(pair, controlling) => Some(pair),
        Some(first) if is_eligible(pair, controlling) && outnumbers(selected, pair, first) => {
            Some(pair)
        }
        _ => first,
    }
}

/// The number of the eligible pair that the peer nominated by the greatest number.
pub fn followed_by_number(
    pairs: &Checklist,
    controlling: bool,
    selected: Option<u64>,
) -> Option<u64>
    ensures { result ≡ option_map (λ p. p.number) (first_numbered controlling selected (multiset_of pairs.now)) }
{
    let mut first = None;
    for pair in pairs.as_slice() {
        first = first_with(controlling, selected, first, pair);
    }
    match first {
        Some(pair) => Some(pair.id().0),
        None => None,
    }
}

/// The agent may select a pair.
pub fn has_eligible(pairs: &Checklist, controlling: bool) -> bool
    ensures { result ≡ list_any (is_eligible controlling) (multiset_of pairs.now) }
{
    pairs.any(&Eligible { controlling })
}

/// Nominates a pair again.
#[derive(Clone, Copy)]
struct Renominates;

impl PairChange for Renominates {
    ghost use Rattle.is_pair.specs.Pairs.{renominated};

    ghost makes = { λ t p. renominated p };

    fn change(&self, pair: &mut CandidatePair) {
        renominate(pair);
    }
}

/// Before a check of the pair with this number: a new nomination of it begins, if `begins` is true.
pub fn begin_nomination(pairs: &mut Checklist, number: u64, begins: bool)
    ensures begun { multiset_of pairs.new ≡ (if begins then change_pair number renominated (multiset_of pairs.old) else multiset_of pairs.old) }
    ensures has { has_number number (multiset_of pairs.old) ≡ true → has_number number (multiset_of pairs.new) ≡ true }
    ensures placed { (local remote : List CandidateRecord) → are_placed local remote (multiset_of pairs.old) ≡ true
        → are_placed local remote (multiset_of pairs.new) ≡ true }
    ensures check_room { (n : ℕ) → checklists.HasCheckRoom n pairs.old → checklists.HasCheckRoom n pairs.new }
    ensures below { (n : ℕ) → are_below n (multiset_of pairs.old) ≡ true → are_below n (multiset_of pairs.new) ≡ true }
{
    if begins {
        pairs.change(number, &Renominates);
    }
}

/// Selects the chosen pair, unless the pair that was selected last stays selected. `followed` is the pair that the peer nominated
/// last, if the agent follows its peer.
pub fn select_pair(
    sides: Sides<'_>,
    followed: Option<u64>,
    pairs: &mut Checklist,
    selected: &mut Option<u64>,
) -> Option<Path>
    requires { are_placed sides.local.now sides.remote.now (multiset_of pairs.old) ≡ true }
    ensures placed { are_placed sides.entry.local.now sides.entry.remote.now (multiset_of pairs.new) ≡ true }
    ensures named { Names (sides_view sides.entry) followed (selection (multiset_of pairs.old) selected.old) result
        (selection (multiset_of pairs.new) selected.new) }
    ensures room { (n : ℕ) → HasRoom n pairs.old → HasRoom n pairs.new }
    ensures check_room { (n : ℕ) → checklists.HasCheckRoom n pairs.old → checklists.HasCheckRoom n pairs.new }
    ensures below { (n : ℕ) → are_below n (multiset_of pairs.old) ≡ true → are_below n (multiset_of pairs.new) ≡ true }
    ensures due { (now : ℕ) (t : StunTiming) → list_any (falls_due sides.entry.controlling now t) (multiset_of pairs.new) ≡ true
        → list_any (falls_due sides.entry.controlling now t) (multiset_of pairs.old) ≡ true }
{
    pairs.numbers_rise();
    let controlling = sides.controlling;
    match chosen(pairs, controlling, followed, *selected) {
        None => None,
        Some(top) => {
            if remains(pairs, followed, *selected, top) {
                return None;
            }
            let number = top.id().0;
            let path = sides.path_of(top);
            nominate_pair(pairs, number, controlling, sides.lite);
            *selected = Some(number);
            Some(path)
        }
    }
}
