//! Leaving a selected path that falls silent, with the profile `Modern`: other valid pairs are asked along, and its pair gives way once one
//! of them, which may be selected, had a response meanwhile; the agent's part: `is_agent::leaving`.

ghost use Rattle.std.specs.Prelude.{◌≡◌, ◌∷◌, List, nat_le, true};
ghost use Rattle.std.specs.Option.{option_copied};
ghost use Rattle.is_pair.specs.Checklists.{multiset_of};
ghost use Rattle.is_pair.specs.Pairs.{PairRecord};
ghost use Rattle.is_pair.specs.Silence.{last_sent};
ghost use Rattle.is_rules.specs.Again.{may_form_between};
ghost use Rattle.is_rules.specs.Leaving.{is_alternative, is_choice_at, is_lossy, is_new_choice, is_silent_enough, IsAskedNext};

use crate::forming::{is_alive, is_partner};
use crate::limit::is_mapped;
use crate::nomination::is_eligible;
use crate::pairs::has_pair_between;
use crate::timeout::awaits_nomination;
use is_candidate::Candidate;
use is_pair::checklist::{Checklist, Expired, PairChange, PairTest};
use is_pair::pair::{CandidatePair, CheckState, Span};
use is_pair::{is_long_silent, is_urgent, last_sent, lost_checks, move_next, outlives};
use is_proto::{Duration, Instant};
use is_stun::stun::StunTiming;

/// A test for the pairs that may replace a silent one: they may be selected, did not expire, and had a response meanwhile.
#[derive(Clone, Copy)]
pub struct MayReplace<'a> {
    /// The number of the silent pair.
    pub number: u64,
    /// The agent is controlling.
    pub controlling: bool,
    /// When a pair expired.
    pub expired: Expired<'a>,
    /// Since when the pair is silent.
    pub silence: Span,
}

impl PairTest for MayReplace<'_> {
    ghost use Rattle.std.specs.Prelude.{not, ◌&&◌};
    ghost use Rattle.is_pair.specs.Due.{is_pair_expired};
    ghost use Rattle.is_pair.specs.Multiset.{is_numbered};
    ghost use Rattle.is_pair.specs.Silence.{outlives};
    ghost use Rattle.is_rules.specs.Nominating.{is_eligible};

    ghost passes = { λ t p. not (is_numbered t.number p) && is_eligible t.controlling p
        && not (is_pair_expired t.expired.lite t.expired.now.0 t.expired.timing.now p) && outlives t.silence p };

    fn passes(&self, pair: &CandidatePair) -> bool {
        pair.id().0 != self.number
            && is_eligible(pair, self.controlling)
            && !self.expired.passes(pair)
            && outlives(pair, self.silence)
    }
}

/// How much longer a pair is kept of which many checks were lost before: then the checks of another second are rarely lost, too.
const LOSSY_TIME: Duration = Duration(2_200_000_000);

/// Whether more than a third of its checks were lost, from its first response to its last one.
pub fn is_lossy(pair: &CandidatePair) -> bool
    ensures { result ≡ is_lossy pair.now }
{
    pair.responses_received() < 2 * lost_checks(pair) as u64
}

/// Whether the pair was silent for long, for longer if it is lossy.
pub fn is_silent_enough(pair: &CandidatePair, timing: &StunTiming, now: Instant) -> bool
    ensures { result ≡ is_silent_enough now.0 timing.now pair.now }
{
    let by = if is_lossy(pair) {
        Instant(now.0.saturating_sub(LOSSY_TIME.0))
    } else {
        now
    };
    is_long_silent(pair, timing, by)
}

/// So soon after the peer's check of the pair that it nominates the selected one is checked, or so soon before: pacing, pairs that were due
/// before, and a repeated check of the peer take less.
const CHOICE_TIME: Duration = Duration(200_000_000);

/// Whether both are the same pair number, or none.
pub fn is_same_number(a: Option<u64>, b: Option<u64>) -> bool
    ensures { result ≡ true → a ≡ b }
{
    match (a, b) {
        (Some(a), Some(b)) => a == b,
        (None, None) => true,
        _ => false,
    }
}

/// Whether the pair q is another one than p, and may be selected at a controlled agent.
fn is_alternative(p: &CandidatePair, q: &CandidatePair) -> bool
    ensures { result ≡ is_alternative p.now q.now }
{
    q.id() != p.id() && is_eligible(q, false)
}

/// Whether the nomination of the pair q had no response yet, and the peer checked it after the last check of p.
pub fn is_new_choice(p: &CandidatePair, q: &CandidatePair) -> bool
    ensures { result ≡ is_new_choice p.now q.now }
{
    if !is_alternative(p, q) || !is_urgent(q) {
        return false;
    }
    match q.remote_binding_request_time() {
        Some(at) => last_sent(p) < at,
        None => false,
    }
}

/// Whether the peer checked the pair q at about the time at which the silence of p began.
pub fn is_choice_at(first: Instant, p: &CandidatePair, q: &CandidatePair) -> bool
    ensures { result ≡ is_choice_at first.0 p.now q.now }
{
    if !is_alternative(p, q) {
        return false;
    }
    match q.remote_binding_request_time() {
        Some(at) => first < at + CHOICE_TIME && at < first + CHOICE_TIME,
        None => false,
    }
}

/// A test for the pairs that are asked along while one is silent: they are valid, and had no response meanwhile.
#[derive(Clone, Copy)]
pub struct AskedAlong {
    /// The number of the silent pair.
    pub number: u64,
    /// Since when the pair is silent.
    pub silence: Span,
}

impl PairTest for AskedAlong {
    ghost use Rattle.is_rules.specs.Leaving.{is_asked_along};

    ghost passes = { λ t p. is_asked_along t.number t.silence p };

    fn passes(&self, pair: &CandidatePair) -> bool {
        pair.id().0 != self.number
            && pair.state() == CheckState::Succeeded
            && !outlives(pair, self.silence)
    }
}

/// Whether the last check of the first pair was sent no later than that of the second.
fn is_asked_before(p: &CandidatePair, q: &CandidatePair) -> bool
    ensures { result ≡ nat_le (last_sent p.now.checks) (last_sent q.now.checks) }
{
    last_sent(p).0 <= last_sent(q).0
}

/// Returns the first so far, or one more pair if it is asked along and its last check was sent before.
fn earlier<'a>(
    first: Option<&'a CandidatePair>,
    pair: &'a CandidatePair,
    along: &AskedAlong,
) -> Option<&'a CandidatePair>
    ensures { (done : List PairRecord) → IsAskedNext along.now.number along.now.silence done (option_copied first.entry)
        → IsAskedNext along.now.number along.now.silence (pair.now ∷ done) (option_copied result) }
{
    // two times are compared sooner than the pair's checks are looked at
    match first {
        Some(first) if is_asked_before(first, pair) => Some(first),
        _ if along.passes(pair) => Some(pair),
        _ => first,
    }
}

/// Returns the pair that is asked along next: of those with no response meanwhile the one whose last check was sent first.
pub fn asked_next<'a>(pairs: &'a Checklist, along: &AskedAlong) -> Option<&'a CandidatePair>
    ensures { IsAskedNext along.now.number along.now.silence (multiset_of pairs.now) (option_copied result) }
{
    let mut first = None;
    for pair in pairs.as_slice() {
        first = earlier(first, pair, along);
    }
    first
}

/// Makes a pair due a nanosecond from now, if the agent may nominate it: next, after all pairs that are due now.
#[derive(Clone, Copy)]
pub struct Hastens {
    /// The agent is controlling.
    pub controlling: bool,
    /// The time.
    pub now: Instant,
}

impl PairChange for Hastens {
    ghost use Rattle.is_rules.specs.Due.{awaits_nomination};
    ghost use Rattle.is_rules.specs.Leaving.{hastened};

    ghost makes = { λ t p. hastened (awaits_nomination t.controlling) t.now.0 p };

    fn change(&self, pair: &mut CandidatePair) {
        if awaits_nomination(pair, self.controlling) {
            move_next(pair, self.now);
        }
    }
}

/// Makes a pair due a nanosecond from now, after all pairs that are due now.
#[derive(Clone, Copy)]
pub struct MovesNext {
    /// The time.
    pub now: Instant,
}

impl PairChange for MovesNext {
    ghost use Rattle.std.specs.Prelude.{◌+◌};
    ghost use Rattle.is_pair.specs.Due.{moved_up};

    ghost makes = { λ t p. moved_up (t.now.0 + 1) p };

    fn change(&self, pair: &mut CandidatePair) {
        move_next(pair, self.now);
    }
}

/// Whether the pair of these candidates may be formed again: both are there and not discarded, the local one is not peer-reflexive, they may
/// be paired, and they have no pair.
pub fn may_form_again(
    local: &[Candidate],
    remote: &[Candidate],
    pairs: &Checklist,
    at: (usize, usize),
) -> bool
    ensures { result ≡ may_form_between local.now remote.now (multiset_of pairs.now) at }
{
    let (l, r) = at;
    l < local.len()
        && r < remote.len()
        && is_alive(&local[l])
        && !is_mapped(&local[l])
        && is_partner(&local[l], &remote[r])
        && !has_pair_between(pairs, l, r)
}
