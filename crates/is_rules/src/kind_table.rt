//! The kinds of many pairs: what a candidate contributes is decided once, and not for each pair.

ghost use Rattle.std.specs.Prelude.{◌≡◌, ◌<◌, ◌≤◌, ℕ, true, false, [], length, slice_index};
ghost use Rattle.std.specs.List.{list_any};
ghost use Rattle.is_candidate.specs.Candidates.{CandidateRecord, base_of, candidate_at};
ghost use Rattle.is_rules.specs.Kept.{is_placed};
ghost use Rattle.is_rules.specs.Kinds.{base_network, is_inner, is_reflexive, is_reflexive_of, kind_of, own_network, reach_of, remote_rank, KINDS, UNKNOWN};

use crate::kinds::{
    INNER_KIND, INSIDE, OUTSIDE, UNKNOWN, base_network, is_reflexive, own_network, reach_of,
    reach_without, remote_rank,
};
use crate::places::candidate_at;
use crate::slots::address_number;
use is_candidate::Candidate;
use is_candidate::candidate::internals::base;
use is_pair::pair::CandidatePair;

/// The parts of the candidates in the kinds of their pairs, in tables: those of the first 100 local candidates, and of remote ones if these
/// are no more than the pairs. Agents in C, Rust and Python begin with this limit. The table takes less than 2 KB: more is cleared slower.
#[derive(Drop)]
pub(crate) struct KindTable<'a> {
    pub(crate) local: &'a [Candidate],
    pub(crate) remote: &'a [Candidate],
    /// What is known of packets from each of the first local candidates.
    reaches: [u8; 100],
    /// The networks of the bases of those of which nothing is known.
    networks: [u64; 100],
    /// So many remote candidates have their ranks in the table, the first ones, and the networks of their addresses.
    ranked: usize,
    ranks: [u8; 100],
    remote_networks: [u64; 100],
    ghost right: { (place : ℕ) → place < 100 → place < length local.now
        → slice_index reaches place ≡ reach_of local.now (candidate_at local.now place) },
    ghost near: { (place : ℕ) → place < 100 → place < length local.now → slice_index reaches place ≡ UNKNOWN
        → slice_index networks place ≡ base_network (candidate_at local.now place) },
    ghost few: { ranked ≤ 100 },
    ghost known: { (place : ℕ) → place < ranked → slice_index ranks place ≡ remote_rank (candidate_at remote.now place) },
    ghost far: { (place : ℕ) → place < ranked → slice_index remote_networks place ≡ own_network (candidate_at remote.now place) },
}

/// A live candidate counts as server-reflexive.
fn has_any_reflexive(local: &[Candidate]) -> bool
    ensures { result ≡ list_any is_reflexive local.now }
{
    local.iter().any(|c| is_reflexive(c))
}

/// No live candidate counts as server-reflexive: then what is known of packets from a candidate depends on no other.
fn is_none_reflexive(local: &[Candidate]) -> bool
    ensures { result ≡ true → (c : CandidateRecord) → reach_of local.now c ≡ reach_of [] c }
{
    !has_any_reflexive(local)
}

/// The slot of a base. Few bases share one.
fn slot_of_base(candidate: &Candidate) -> usize
    ensures { result < 251 }
{
    (address_number(base(candidate)) % 251) as usize
}

/// For each slot the place of a live candidate that counts as server-reflexive, the last one whose base has the slot: a guess for
/// candidates with the same base.
fn places_by_base(local: &[Candidate], none_reflexive: bool) -> [u8; 251] {
    let mut places = [0; 251];
    if none_reflexive {
        return places;
    }
    for place in 0..local.len().min(100) {
        let candidate = candidate_at(local, place);
        if is_reflexive(candidate) {
            places[slot_of_base(candidate)] = place as u8;
        }
    }
    places
}

/// The candidate at this place is a live one that counts as server-reflexive: so one has its base.
#[inline(always)]
fn is_reflexive_itself(local: &[Candidate], place: usize) -> bool
    requires { place < length local.now }
    ensures { result ≡ true → list_any (is_reflexive_of (base_of (candidate_at local.now place))) local.now ≡ true }
{
    is_reflexive(candidate_at(local, place))
}

/// What is known of packets from the local candidate at a place, if it is known whether any candidate counts as server-reflexive.
#[inline(always)]
fn known_reach(local: &[Candidate], none_reflexive: bool, guesses: &[u8; 251], place: usize) -> u8
    requires within { place < length local.now }
    requires none { none_reflexive ≡ true → (c : CandidateRecord) → reach_of local.now c ≡ reach_of [] c }
    ensures { result ≡ reach_of local.now (candidate_at local.now place) }
{
    let candidate = candidate_at(local, place);
    if none_reflexive {
        reach_without(candidate)
    } else if is_reflexive_itself(local, place) {
        OUTSIDE
    } else {
        let guess = guesses[slot_of_base(candidate)];
        reach_of(local, usize::from(guess), candidate)
    }
}

/// What is known of packets from each of the first 100 local candidates.
fn reaches_of(local: &[Candidate]) -> [u8; 100]
    ensures { (place : ℕ) → place < 100 → place < length local.now → slice_index result place ≡ reach_of local.now (candidate_at local.now place) }
{
    let none_reflexive = is_none_reflexive(local);
    let guesses = places_by_base(local, none_reflexive);
    let mut reaches = [0; 100];
    for place in 0..local.len().min(100) {
        reaches[place] = known_reach(local, none_reflexive, &guesses, place);
    }
    reaches
}

/// The networks of the bases of those of the first 100 local candidates of which nothing is known: those of others count nothing.
fn networks_of(local: &[Candidate], reaches: &[u8; 100]) -> [u64; 100]
    ensures { (place : ℕ) → place < 100 → place < length local.now → slice_index reaches.now place ≡ UNKNOWN
        → slice_index result place ≡ base_network (candidate_at local.now place) }
{
    let mut networks = [0; 100];
    for place in 0..local.len().min(100) {
        if reaches[place] == UNKNOWN {
            networks[place] = base_network(candidate_at(local, place));
        }
    }
    networks
}

/// How many ranks are computed first: none if there are more remote candidates than pairs, since that would cost more than it saves.
fn ranked_first(remote: &[Candidate], pairs: usize) -> usize
    ensures few { result ≤ 100 }
    ensures there { result ≤ length remote.now }
{
    if remote.len() <= pairs {
        remote.len().min(100)
    } else {
        0
    }
}

/// The ranks of so many candidates.
fn ranks_of(remote: &[Candidate], many: usize) -> [u8; 100]
    requires few { many ≤ 100 }
    requires there { many ≤ length remote.now }
    ensures { (place : ℕ) → place < many → slice_index result place ≡ remote_rank (candidate_at remote.now place) }
{
    let mut ranks = [0; 100];
    for place in 0..many {
        ranks[place] = remote_rank(candidate_at(remote, place));
    }
    ranks
}

/// The networks of the addresses of so many candidates.
fn remote_networks_of(remote: &[Candidate], many: usize) -> [u64; 100]
    requires few { many ≤ 100 }
    requires there { many ≤ length remote.now }
    ensures { (place : ℕ) → place < many → slice_index result place ≡ own_network (candidate_at remote.now place) }
{
    let mut networks = [0; 100];
    for place in 0..many {
        networks[place] = own_network(candidate_at(remote, place));
    }
    networks
}

impl<'a> KindTable<'a> {
    /// The table for a caller that needs the kinds of so many pairs, or of more.
    pub(crate) fn new(
        local: &'a [Candidate],
        remote: &'a [Candidate],
        pairs: usize,
    ) -> KindTable<'a>
        ensures local { result.local.now ≡ local.now }
        ensures remote { result.remote.now ≡ remote.now }
    {
        let ranked = ranked_first(remote, pairs);
        let reaches = reaches_of(local);
        KindTable {
            local,
            remote,
            networks: networks_of(local, &reaches),
            reaches,
            ranked,
            ranks: ranks_of(remote, ranked),
            remote_networks: remote_networks_of(remote, ranked),
        }
    }

    /// What is known of packets from the local candidate at this place.
    #[inline(always)]
    fn reach_at(&self, place: usize) -> u8
        requires { place < length self.now.local.now }
        ensures { result ≡ reach_of self.now.local.now (candidate_at self.now.local.now place) }
    {
        if place < 100 {
            self.reaches[place]
        } else {
            reach_of(self.local, place, candidate_at(self.local, place))
        }
    }

    /// The network of the base of the local candidate at this place, of which nothing is known.
    #[inline(always)]
    fn network_at(&self, place: usize) -> u64
        requires within { place < length self.now.local.now }
        requires unknown { reach_of self.now.local.now (candidate_at self.now.local.now place) ≡ UNKNOWN }
        ensures { result ≡ base_network (candidate_at self.now.local.now place) }
    {
        if place < 100 {
            self.networks[place]
        } else {
            base_network(candidate_at(self.local, place))
        }
    }

    /// The network of the address of the remote candidate at this place.
    #[inline(always)]
    fn remote_network_at(&self, place: usize) -> u64
        requires { place < length self.now.remote.now }
        ensures { result ≡ own_network (candidate_at self.now.remote.now place) }
    {
        if place < self.ranked {
            self.remote_networks[place]
        } else {
            own_network(candidate_at(self.remote, place))
        }
    }

    /// The pair is an inner one.
    #[inline(always)]
    fn is_inner(&self, pair: &CandidatePair) -> bool
        requires placed { is_placed self.now.local.now self.now.remote.now pair.now ≡ true }
        ensures { result ≡ is_inner (reach_of self.now.local.now (candidate_at self.now.local.now pair.now.local))
            (candidate_at self.now.local.now pair.now.local) (candidate_at self.now.remote.now pair.now.remote) }
    {
        let reach = self.reach_at(pair.local_idx());
        reach == INSIDE
            || (reach == UNKNOWN
                && self.network_at(pair.local_idx()) == self.remote_network_at(pair.remote_idx()))
    }

    /// The rank of the remote candidate at this place.
    #[inline(always)]
    fn rank_at(&self, place: usize) -> u8
        requires { place < length self.now.remote.now }
        ensures { result ≡ remote_rank (candidate_at self.now.remote.now place) }
    {
        if place < self.ranked {
            self.ranks[place]
        } else {
            remote_rank(candidate_at(self.remote, place))
        }
    }

    /// The places of the pair are in the lists.
    #[inline(always)]
    pub(crate) fn has(&self, pair: &CandidatePair) -> bool
        ensures { result ≡ is_placed self.now.local.now self.now.remote.now pair.now }
    {
        pair.local_idx() < self.local.len() && pair.remote_idx() < self.remote.len()
    }

    /// The kind of a pair, a number from 0 to 8.
    #[inline(always)]
    pub(crate) fn kind_of(&self, pair: &CandidatePair) -> u8
        requires placed { is_placed self.now.local.now self.now.remote.now pair.now ≡ true }
        ensures kind { result ≡ kind_of self.now.local.now self.now.remote.now pair.now }
        ensures within { result < KINDS }
    {
        if self.is_inner(pair) {
            INNER_KIND
        } else {
            self.rank_at(pair.remote_idx())
        }
    }
}
