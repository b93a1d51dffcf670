//! The limit on candidates that the program adds, and that on remote candidates that requests bring and on local ones that responses
//! bring; and the place that an unknown sender gets under it.

ghost use Rattle.std.specs.Prelude.{◌≡◌, ◌<◌, count_by, drop, length};
ghost use Rattle.is_pair.specs.Checklists.{multiset_of};
ghost use Rattle.is_rules.specs.Forming.{is_alive};
ghost use Rattle.is_rules.specs.RequestView.{request_view};
ghost use Rattle.is_rules.specs.Limit.{discovered_count, is_below, is_full, has_room, has_local_room, is_mapped, is_vacant, mapped_count};
ghost use Rattle.is_rules.specs.Limit.{IsVacancy, IsRoom, IsPlaceOf, newest};

use crate::accepting::Source;
use crate::places::{RemotePlace, candidate_at, remote_place};
use crate::request::Request;
use is_candidate::candidate::equality::is_temporary;
use is_candidate::candidate::internals::is_discarded;
use is_candidate::candidate::kind::same_kind;
use is_candidate::{Candidate, CandidateKind};
use is_pair::checklist::{Checklist, PairTest};
use is_pair::pair::CandidatePair;

/// The number is below the limit. Without a limit each is.
pub fn is_below(limit: Option<usize>, number: usize) -> bool
    ensures { result ≡ is_below limit number }
{
    match limit {
        Some(most) => number < most,
        None => true,
    }
}

/// How many candidates are listed: those that are not discarded.
fn listed_count(candidates: &[Candidate]) -> usize
    ensures { result ≡ count_by is_alive candidates.now }
{
    candidates.iter().filter(|c| !is_discarded(c)).count()
}

/// As many candidates of the side are listed as the limit allows.
pub fn is_full(limit: Option<usize>, candidates: &[Candidate]) -> bool
    ensures { result ≡ is_full limit candidates.now }
{
    limit.is_some() && !is_below(limit, listed_count(candidates))
}

/// How many remote candidates requests brought, discarded ones included.
fn discovered_count(remote: &[Candidate]) -> usize
    ensures { result ≡ discovered_count remote.now }
{
    remote.iter().filter(|c| is_temporary(c)).count()
}

/// A request may bring one more candidate.
fn has_room(limit: Option<usize>, remote: &[Candidate]) -> bool
    ensures { result ≡ has_room limit remote.now }
{
    limit.is_none() || is_below(limit, discovered_count(remote))
}

/// Whether a pair has the remote candidate at an index.
#[derive(Clone, Copy)]
struct On {
    place: usize,
}

impl PairTest for On {
    ghost use Rattle.is_rules.specs.Limit.{is_on};

    ghost passes = { λ t p. is_on t.place p };

    fn passes(&self, pair: &CandidatePair) -> bool {
        pair.remote_idx() == self.place
    }
}

/// A request brought the candidate at the index, and no pair has it.
fn is_vacant(remote: &[Candidate], pairs: &Checklist, place: usize) -> bool
    requires { place < length remote.now }
    ensures { result ≡ is_vacant remote.now (multiset_of pairs.now) place }
{
    is_temporary(candidate_at(remote, place)) && !pairs.any(&On { place })
}

/// The first vacant index, if there is one.
fn vacancy(remote: &[Candidate], pairs: &Checklist) -> RemotePlace
    ensures { IsVacancy remote.now (multiset_of pairs.now) result }
{
    for place in 0..remote.len() {
        if is_vacant(remote, pairs, place) {
            return RemotePlace::Vacant(place);
        }
    }
    RemotePlace::Full
}

/// The place of an unknown sender.
fn room(limit: Option<usize>, remote: &[Candidate], pairs: &Checklist) -> RemotePlace
    ensures { IsRoom limit remote.now (multiset_of pairs.now) result }
{
    if has_room(limit, remote) {
        return RemotePlace::Unknown;
    }
    vacancy(remote, pairs)
}

/// The place of the request's sender among the remote candidates, or the one that it gets.
pub fn sender_place(
    limit: Option<usize>,
    remote: &[Candidate],
    pairs: &Checklist,
    request: &Request<'_>,
) -> RemotePlace
    ensures { IsPlaceOf limit remote.now (multiset_of pairs.now) (request_view request.now) result }
{
    match remote_place(remote, request) {
        RemotePlace::Unknown => room(limit, remote, pairs),
        place => place,
    }
}

// ---- local candidates

/// A peer-reflexive candidate, as responses bring them.
pub(crate) fn is_mapped(candidate: &Candidate) -> bool
    ensures { result ≡ is_mapped candidate.now }
{
    same_kind(candidate.kind(), CandidateKind::PeerReflexive)
}

/// How many local candidates are peer-reflexive, discarded ones included.
fn mapped_count(local: &[Candidate]) -> usize
    ensures { result ≡ mapped_count local.now }
{
    local.iter().filter(|c| is_mapped(c)).count()
}

/// A response may bring one more candidate.
pub fn has_local_room(limit: Option<usize>, local: &[Candidate]) -> bool
    ensures { result ≡ has_local_room limit local.now }
{
    limit.is_none() || is_below(limit, mapped_count(local))
}

// ---- discovered sources

/// Removes this many sources, the oldest ones.
fn drop_oldest(sources: &mut Vec<Source>, count: usize)
    ensures { sources.new.items ≡ drop count sources.old.items }
{
    for _ in 0..count {
        if !sources.is_empty() {
            let _ = sources.remove(0);
        }
    }
}

/// Keeps as many sources as the limit allows: those discovered last.
pub fn keep_newest(sources: &mut Vec<Source>, limit: Option<usize>)
    ensures { sources.new.items ≡ newest limit sources.old.items }
{
    if let Some(most) = limit {
        let beyond = sources.len().saturating_sub(most);
        drop_oldest(sources, beyond);
    }
}
