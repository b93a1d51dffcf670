//! Discarded candidates: each keeps its index, and its pairs are removed; the agent's part: `is_agent::discarding`.

ghost use Rattle.std.specs.Prelude.{◌≡◌, ◌<◌, length, position, IfSome, vec_len, vec_capacity};
ghost use Rattle.is_candidate.specs.Equality.{is_equivalent};
ghost use Rattle.is_rules.specs.Kept.{NoneTooHigh};
ghost use Rattle.is_rules.specs.Discarding.{discarded, change_place, live_at, is_live_equivalent, place_to_discard};

use crate::places::candidate_at;
use is_candidate::Candidate;
use is_candidate::candidate::equality::is_equivalent;
use is_candidate::candidate::internals::{discard, is_discarded};
use is_pair::checklist::{PairRemoval, PairTest, Removal};
use is_pair::pair::CandidatePair;

/// Marks the candidate at the index as discarded.
pub fn discard_at(candidates: &mut Vec<Candidate>, place: usize)
    requires { place < length candidates.old.items }
    ensures items { candidates.new.items ≡ change_place place discarded candidates.old.items }
    ensures low { NoneTooHigh candidates.old.items → NoneTooHigh candidates.new.items }
    ensures len { vec_len candidates.new ≡ vec_len candidates.old }
    ensures capacity { vec_capacity candidates.new ≡ vec_capacity candidates.old }
{
    discard(&mut candidates[place]);
}

/// Whether a pair has the local candidate at an index.
#[derive(Clone, Copy)]
pub struct LocalAt {
    /// The candidate's index in its list.
    pub place: usize,
}

impl PairTest for LocalAt {
    ghost use Rattle.is_rules.specs.Discarding.{is_local_at};

    ghost passes = { λ t p. is_local_at t.place p };

    fn passes(&self, pair: &CandidatePair) -> bool {
        pair.local_idx() == self.place
    }
}

/// Whether a pair has the remote candidate at an index.
#[derive(Clone, Copy)]
pub struct RemoteAt {
    /// The candidate's index in its list.
    pub place: usize,
}

impl PairTest for RemoteAt {
    ghost use Rattle.is_rules.specs.Discarding.{is_remote_at};

    ghost passes = { λ t p. is_remote_at t.place p };

    fn passes(&self, pair: &CandidatePair) -> bool {
        pair.remote_idx() == self.place
    }
}

impl PairRemoval for LocalAt {
    ghost use Rattle.is_rules.specs.Discarding.{invalidated_reason};

    ghost reason = { λ t p. invalidated_reason p };

    fn removal(&self, _pair: &CandidatePair) -> Removal {
        Removal::Invalidated
    }
}

impl PairRemoval for RemoteAt {
    ghost use Rattle.is_rules.specs.Discarding.{invalidated_reason};

    ghost reason = { λ t p. invalidated_reason p };

    fn removal(&self, _pair: &CandidatePair) -> Removal {
        Removal::Invalidated
    }
}

fn position_of(candidates: &[Candidate], candidate: &Candidate) -> Option<usize>
    ensures place { result ≡ position (is_equivalent candidate.now) candidates.now }
    ensures within { IfSome result (λ place. place < length candidates.now) }
{
    candidates
        .iter()
        .position(|other| is_equivalent(candidate, other))
}

fn listed_position_of(candidates: &[Candidate], candidate: &Candidate) -> Option<usize>
    ensures place { result ≡ position (is_live_equivalent candidate.now) candidates.now }
    ensures within { IfSome result (λ place. place < length candidates.now) }
{
    candidates.iter().position(|other| is_equivalent(candidate, other) && !is_discarded(other))
}

/// The index of the first equivalent candidate, if that one is not discarded.
fn first_to_discard(candidates: &[Candidate], candidate: &Candidate) -> Option<usize>
    ensures place { result ≡ live_at candidates.now (position (is_equivalent candidate.now) candidates.now) }
    ensures within { IfSome result (λ place. place < length candidates.now) }
{
    match position_of(candidates, candidate) {
        None => None,
        Some(place) => {
            if is_discarded(candidate_at(candidates, place)) {
                None
            } else {
                Some(place)
            }
        }
    }
}

/// The index of the first equivalent candidate, if that one is not discarded; with `listed`, discarded ones are passed over: that
/// of the first equivalent one that is listed.
pub fn place_to_discard(
    listed: bool,
    candidates: &[Candidate],
    candidate: &Candidate,
) -> Option<usize>
    ensures place { result ≡ place_to_discard listed candidate.now candidates.now }
    ensures within { IfSome result (λ place. place < length candidates.now) }
{
    if listed {
        return listed_position_of(candidates, candidate);
    }
    first_to_discard(candidates, candidate)
}
