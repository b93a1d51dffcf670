//! Adding candidates for callers that list them: each call returns the index at which the candidate is listed.

ghost use Rattle.std.specs.Prelude.{◌≡◌, ◌&&◌, position, take};
ghost use Rattle.is_candidate.specs.Equality.{is_same_place, is_equivalent};
ghost use Rattle.is_rules.specs.Forming.{is_alive};
ghost use Rattle.is_agent.specs.Added.{listed_index, first_listed, not_added, unwanted_addition, ignored_addition, AddsLocalListed, AddsRemoteListed};
ghost use Rattle.is_agent.specs.View.{record_of};

use crate::agent::Agent;
use is_candidate::candidate::equality::{is_equivalent, is_same_place};
use is_candidate::candidate::internals::{component, is_discarded};
use is_candidate::{Candidate, LocalPreference};
use is_proto::{IceError, Sha1HmacProvider};
use is_rules::emitted::Emitted;
use is_rules::limit::is_full;
use is_rules::remote::place_or_end;

/// What became of a candidate. Its index counts the candidates that `local_candidates` or `remote_candidates` returns, from 0.
#[derive(Clone, Copy, Debug, PartialEq, Eq)]
pub enum Addition {
    /// The candidate was added, or enabled again, and has this index.
    Added(usize),
    /// The candidate was not added, and the one with this index equals it.
    Known(usize),
    /// The candidate was not added, and none equals it.
    Ignored,
    /// The candidate was not added, since as many of its side are listed as `set_max_candidates` allows.
    TooMany,
    /// The candidate was ignored, since it is of another component than 1.
    OtherComponent,
    /// The candidate was ignored, since its username fragment is not the peer's.
    OtherUfrag,
}

fn not_added(equal: Option<usize>) -> Addition
    ensures { result ≡ not_added equal }
{
    match equal {
        Some(index) => Addition::Known(index),
        None => Addition::Ignored,
    }
}

// ---- indices among the candidates that are listed

fn is_listed(candidate: &Candidate) -> bool
    ensures { result ≡ is_alive candidate.now }
{
    !is_discarded(candidate)
}

fn before(candidates: &[Candidate], place: usize) -> &[Candidate]
    ensures { result.now ≡ take place candidates.now }
{
    &candidates[..place.min(candidates.len())]
}

/// How many listed candidates come before the one at this index of the list that has discarded ones, too.
pub(crate) fn listed_index(candidates: &[Candidate], place: usize) -> usize
    ensures { result ≡ listed_index candidates.now place }
{
    before(candidates, place)
        .iter()
        .filter(|other| is_listed(other))
        .count()
}

fn is_listed_there(candidate: &Candidate, other: &Candidate) -> bool
    ensures { result ≡ is_alive other.now && is_same_place candidate.now other.now }
{
    is_listed(other) && is_same_place(candidate, other)
}

fn place_of_listed(candidates: &[Candidate], candidate: &Candidate) -> Option<usize>
    ensures { result ≡ position (λ c. is_alive c && is_same_place candidate.now c) candidates.now }
{
    candidates
        .iter()
        .position(|other| is_listed_there(candidate, other))
}

/// The index of the first listed candidate with the same address, base and protocol.
fn first_same(candidates: &[Candidate], candidate: &Candidate) -> Option<usize>
    ensures { result ≡ first_listed (is_same_place candidate.now) candidates.now }
{
    match place_of_listed(candidates, candidate) {
        Some(place) => Some(listed_index(candidates, place)),
        None => None,
    }
}

fn is_listed_equal(candidate: &Candidate, other: &Candidate) -> bool
    ensures { result ≡ is_alive other.now && is_equivalent candidate.now other.now }
{
    is_listed(other) && is_equivalent(candidate, other)
}

fn place_of_equal(candidates: &[Candidate], candidate: &Candidate) -> Option<usize>
    ensures { result ≡ position (λ c. is_alive c && is_equivalent candidate.now c) candidates.now }
{
    candidates
        .iter()
        .position(|other| is_listed_equal(candidate, other))
}

/// The index of the first listed candidate that is equal in address, base, protocol, kind and related address.
fn first_equal(candidates: &[Candidate], candidate: &Candidate) -> Option<usize>
    ensures { result ≡ first_listed (is_equivalent candidate.now) candidates.now }
{
    match place_of_equal(candidates, candidate) {
        Some(place) => Some(listed_index(candidates, place)),
        None => None,
    }
}

// ---- the calls

/// Why the local candidate is not added.
fn unwanted_addition<H: Sha1HmacProvider + Drop, P: LocalPreference>(
    agent: &Agent<H, P>,
    candidate: &Candidate,
) -> Addition
    ensures { result ≡ unwanted_addition (record_of agent.now) candidate.now }
{
    if is_full(agent.max_candidates, &agent.local) {
        Addition::TooMany
    } else {
        not_added(first_same(&agent.local, candidate))
    }
}

/// Adds a local candidate like `add_local_candidate`, and returns the index at which it is listed. A candidate that is not added
/// equals one with the same address, base and protocol (RFC 8445, section 5.1.3), unless as many are listed as `set_max_candidates` allows, or
/// the agent is lite and the candidate no host.
pub fn add_local_listed<H: Sha1HmacProvider + Drop, P: LocalPreference>(
    agent: &mut Agent<H, P>,
    candidate: Candidate,
) -> Result<Addition, IceError>
    ensures { AddsLocalListed P.answers (record_of agent.old) candidate result (record_of agent.new) }
{
    let otherwise = unwanted_addition(agent, &candidate);
    match agent.add_local(candidate)? {
        Some(place) => Ok(Addition::Added(listed_index(&agent.local, place))),
        None => Ok(otherwise),
    }
}

/// Why the remote candidate is ignored.
fn ignored_addition<H: Sha1HmacProvider + Drop, P: LocalPreference>(
    agent: &Agent<H, P>,
    candidate: &Candidate,
) -> Addition
    ensures { result ≡ ignored_addition (record_of agent.now) candidate.now }
{
    if is_full(agent.max_candidates, &agent.remote) {
        Addition::TooMany
    } else if component(candidate) != 1 {
        Addition::OtherComponent
    } else if agent.has_other_ufrag(candidate) {
        Addition::OtherUfrag
    } else {
        not_added(first_equal(&agent.remote, candidate))
    }
}

/// Adds a remote candidate like `add_remote_candidate`, and returns the index at which it is listed, or why it is ignored. A
/// candidate that is ignored since a pair has it equals the first one with its address, base, protocol, kind and related address.
pub fn add_remote_listed<H: Sha1HmacProvider + Drop, P: LocalPreference>(
    agent: &mut Agent<H, P>,
    candidate: Candidate,
) -> Result<Addition, IceError>
    ensures { AddsRemoteListed (record_of agent.old) candidate result (record_of agent.new) }
{
    if agent.is_ignored(&candidate) {
        agent.emitted = Emitted::nothing();
        return Ok(ignored_addition(agent, &candidate));
    }
    let place = agent.place_for(&candidate);
    let index = listed_index(&agent.remote, place_or_end(place, &agent.remote));
    agent.join_remote(candidate, place)?;
    Ok(Addition::Added(index))
}
