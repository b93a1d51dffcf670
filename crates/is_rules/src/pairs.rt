//! The pair of a Binding request: how it is found, and how the request changes it.

ghost use Rattle.std.specs.Prelude.{◌≡◌, ℕ, List, true};
ghost use Rattle.is_candidate.specs.Candidates.{CandidateRecord};
ghost use Rattle.std.specs.List.{list_any};
ghost use Rattle.is_pair.specs.Multiset.{are_below, change_pair, is_between, is_valid_at, IsPairBetween};
ghost use Rattle.is_pair.specs.Checklists.{multiset_of, HasRoom};
ghost use Rattle.is_pair.specs.Due.{triggered};
ghost use Rattle.is_rules.specs.Kept.{are_placed};
ghost use Rattle.is_rules.specs.RequestView.{request_view};
ghost use Rattle.is_rules.specs.Serving.{served, validated_by_peer, nominated_by_peer, numbered_by_peer};

use crate::request::Request;
use is_pair::checklist::{Checklist, PairChange, PairTest};
use is_pair::pair::{CandidatePair, CheckState};
use is_pair::{keep_number, schedule_triggered};
use is_proto::Instant;

/// Whether a pair has these two candidates.
#[derive(Clone, Copy)]
struct Between {
    l: usize,
    r: usize,
}

impl PairTest for Between {
    ghost use Rattle.is_pair.specs.Multiset.{is_between};

    ghost passes = { λ t p. is_between t.l t.r p };

    fn passes(&self, pair: &CandidatePair) -> bool {
        pair.remote_idx() == self.r && pair.local_idx() == self.l
    }
}

/// The number of a pair of the two candidates.
pub fn pair_between(pairs: &Checklist, l: usize, r: usize) -> Option<u64>
    ensures { IsPairBetween (multiset_of pairs.now) l r result }
{
    match pairs.first(&Between { l, r }) {
        Some(pair) => Some(pair.id().0),
        None => None,
    }
}

/// Whether the two candidates have a pair.
pub(crate) fn has_pair_between(pairs: &Checklist, l: usize, r: usize) -> bool
    ensures { result ≡ list_any (is_between l r) (multiset_of pairs.now) }
{
    pairs.any(&Between { l, r })
}

/// Whether a pair is valid: a check on it succeeded.
#[derive(Clone, Copy)]
pub struct Valid;

impl PairTest for Valid {
    ghost use Rattle.is_pair.specs.Pairs.{is_valid};

    ghost passes = { λ t p. is_valid p };

    fn passes(&self, pair: &CandidatePair) -> bool {
        pair.state() == CheckState::Succeeded
    }
}

/// The pair with this number is valid.
pub fn is_valid_at(pairs: &Checklist, number: u64) -> bool
    ensures { result ≡ is_valid_at number (multiset_of pairs.now) }
{
    pairs.passes(number, &Valid)
}

/// What determines how a request changes its pair.
#[derive(Clone, Copy)]
pub struct ServingRole {
    /// The agent is controlling.
    pub controlling: bool,
    /// The agent is ICE-lite.
    pub lite: bool,
}

/// Whether, and when, the request triggers a check of the pair.
#[derive(Clone, Copy)]
pub struct TriggeredCheck {
    /// Whether the first request on a pair that is not valid triggers a check: with the profile `Modern`.
    pub modern: bool,
    /// When the check is due.
    pub at: Instant,
}

/// While a lite agent is controlled, each request makes the pair valid.
fn validate_by_peer(pair: &mut CandidatePair, role: ServingRole)
    ensures { pair.new ≡ validated_by_peer role.controlling role.lite pair.old }
{
    if role.lite && !role.controlling {
        pair.record_remote_binding_request_success();
    }
}

/// On a controlled agent, a request with USE-CANDIDATE nominates the pair if it is not nominated yet.
fn nominate_by_peer(pair: &mut CandidatePair, request: &Request<'_>, role: ServingRole)
    ensures { pair.new ≡ nominated_by_peer role.controlling role.lite (request_view request.now) pair.old }
{
    if !role.controlling && request.use_candidate && !pair.is_nominated() {
        pair.nominate(role.lite);
    }
}

/// On a controlled agent the pair keeps the greatest number of its nominations.
fn number_by_peer(pair: &mut CandidatePair, request: &Request<'_>, role: ServingRole)
    ensures { pair.new ≡ numbered_by_peer role.controlling (request_view request.now).nomination pair.old }
{
    match request.nomination {
        Some(number) if !role.controlling => keep_number(pair, number),
        _ => {}
    }
}

/// The pair records the peer's check.
#[derive(Clone, Copy)]
struct Serves<'a> {
    request: Request<'a>,
    role: ServingRole,
    check: TriggeredCheck,
}

impl PairChange for Serves<'_> {
    ghost use Rattle.is_rules.specs.RequestView.{request_view};
    ghost use Rattle.is_rules.specs.Serving.{served};
    ghost use Rattle.is_pair.specs.Due.{triggered};

    ghost makes = { λ t p. served t.role.controlling t.role.lite (request_view t.request) (triggered t.check.modern t.check.at.0 p) };

    fn change(&self, pair: &mut CandidatePair) {
        schedule_triggered(pair, self.check.modern, self.check.at);
        pair.increase_remote_binding_requests(self.request.time);
        validate_by_peer(pair, self.role);
        nominate_by_peer(pair, &self.request, self.role);
        number_by_peer(pair, &self.request, self.role);
    }
}

/// The pair with this number records the request.
pub fn serve_pair(
    pairs: &mut Checklist,
    number: u64,
    request: &Request<'_>,
    role: ServingRole,
    check: TriggeredCheck,
)
    ensures placed { (local remote : List CandidateRecord) → are_placed local remote (multiset_of pairs.old) ≡ true
        → are_placed local remote (multiset_of pairs.new) ≡ true }
    ensures served { multiset_of pairs.new ≡ change_pair number
        (λ p. served role.controlling role.lite (request_view request.now) (triggered check.modern check.at.0 p)) (multiset_of pairs.old) }
    ensures room { (n : ℕ) → HasRoom n pairs.old → HasRoom n pairs.new }
    ensures below { (n : ℕ) → are_below n (multiset_of pairs.old) ≡ true → are_below n (multiset_of pairs.new) ≡ true }
{
    let request = *request;
    pairs.change(
        number,
        &Serves {
            request,
            role,
            check,
        },
    );
}
