//! The pairs that go ahead of those that are due earlier: the selected pair, urgent pairs, and kinds of pairs, which take turns; the
//! agent's part: `is_agent::next_check`.

ghost use Rattle.std.specs.Prelude.{◌≡◌, ◌<◌, ◌≤◌, ◌*◌, ◌&&◌, true, false, List, [], ◌∷◌, length, IfSome, if◌then◌else◌};
ghost use Rattle.std.specs.List.{list_any};
ghost use Rattle.std.specs.Net.Socket.{socket_ip};
ghost use Rattle.std.specs.Option.{option_copied};
ghost use Rattle.is_pair.specs.Pairs.{PairRecord};
ghost use Rattle.is_pair.specs.Due.{due_time_of, is_due, GoesBefore};
ghost use Rattle.is_pair.specs.Checklists.{multiset_of};
ghost use Rattle.is_rules.specs.Kept.{is_placed, are_placed};
ghost use Rattle.is_rules.specs.Kinds.{counted_kind, is_reflexive, is_reflexive_of, is_reflexive_like, reach_of, network_of, base_network};
ghost use Rattle.is_rules.specs.Kinds.{own_network, is_inner, kind_rank, version_rank};
ghost use Rattle.is_rules.specs.Kinds.{OUTSIDE, INSIDE, UNKNOWN, is_brought, kind_of, remote_rank, turn_of, turn_of_pair, goes_first};
ghost use Rattle.is_rules.specs.Kinds.{is_first_due, KINDS, TurnsBefore, IsNextAhead};

use crate::kind_table::KindTable;
use crate::nomination::is_named_by;
use crate::places::candidate_at;
use is_candidate::candidate::address::{is_public, same_address, same_version};
use is_candidate::candidate::internals::{base, is_discarded};
use is_candidate::candidate::kind::same_kind;
use is_candidate::{Candidate, CandidateKind};
use is_pair::checklist::{Checklist, PairTest};
use is_pair::pair::{CandidatePair, CheckState};
use is_pair::{due_time_of, is_urgent};
use is_proto::Instant;
use is_stun::stun::StunTiming;
use std::net::SocketAddr;

// ---- the kind of a pair

/// The kind that a candidate counts as. A host candidate with a public address counts as server-reflexive: a STUN server would answer with
/// this address, and the server-reflexive candidate would be redundant (RFC 8445, section 5.1.3).
#[inline(always)]
fn counted_kind(candidate: &Candidate) -> CandidateKind
    ensures { result ≡ counted_kind candidate.now }
{
    if same_kind(candidate.kind(), CandidateKind::Host) && is_public(candidate.addr().ip()) {
        CandidateKind::ServerReflexive
    } else {
        candidate.kind()
    }
}

/// A live candidate that counts as server-reflexive.
pub(crate) fn is_reflexive(candidate: &Candidate) -> bool
    ensures { result ≡ is_reflexive candidate.now }
{
    same_kind(counted_kind(candidate), CandidateKind::ServerReflexive) && !is_discarded(candidate)
}

/// The candidate is a live one that counts as server-reflexive, and has this base.
fn is_reflexive_of(address: SocketAddr, candidate: &Candidate) -> bool
    ensures { result ≡ is_reflexive_of address candidate.now }
{
    is_reflexive(candidate) && same_address(base(candidate), address)
}

/// The candidate is a live one that counts as server-reflexive, and its base has the IP version of this address.
fn is_reflexive_like(address: SocketAddr, candidate: &Candidate) -> bool
    ensures { result ≡ is_reflexive_like address candidate.now }
{
    is_reflexive(candidate) && same_version(base(candidate), address)
}

/// A live candidate that counts as server-reflexive has this base.
fn has_reflexive(local: &[Candidate], address: SocketAddr) -> bool
    ensures { result ≡ list_any (is_reflexive_of address) local.now }
{
    local.iter().any(|c| is_reflexive_of(address, c))
}

/// The candidate at a place, if there is one, is a live one that counts as server-reflexive and has this base.
fn is_reflexive_at(local: &[Candidate], place: usize, address: SocketAddr) -> bool
    ensures { result ≡ true → list_any (is_reflexive_of address) local.now ≡ true }
{
    place < local.len() && is_reflexive_of(address, candidate_at(local, place))
}

/// A live candidate that counts as server-reflexive has a base with the IP version of this address.
fn has_reflexive_like(local: &[Candidate], address: SocketAddr) -> bool
    ensures { result ≡ list_any (is_reflexive_like address) local.now }
{
    local.iter().any(|c| is_reflexive_like(address, c))
}

/// What is known of packets from a candidate: they reach the outside.
pub(crate) const OUTSIDE: u8 = 0;

/// They stay inside.
pub(crate) const INSIDE: u8 = 1;

/// Nothing is known.
pub(crate) const UNKNOWN: u8 = 2;

/// What is known of packets from a base, by candidates that count as server-reflexive. The one at the guessed place is tried first.
fn reach_of_base(local: &[Candidate], guess: usize, address: SocketAddr) -> u8
    ensures { result ≡ (if list_any (is_reflexive_of address) local.now then OUTSIDE else
        (if list_any (is_reflexive_like address) local.now then INSIDE else UNKNOWN)) }
{
    if is_reflexive_at(local, guess, address) || has_reflexive(local, address) {
        OUTSIDE
    } else if has_reflexive_like(local, address) {
        INSIDE
    } else {
        UNKNOWN
    }
}

/// What is known of packets from a local candidate. Those of a relayed one reach the outside. At the guessed place a candidate may count as
/// server-reflexive and have the same base: if it does, no other is looked at.
pub(crate) fn reach_of(local: &[Candidate], guess: usize, candidate: &Candidate) -> u8
    ensures { result ≡ reach_of local.now candidate.now }
{
    if same_kind(candidate.kind(), CandidateKind::Relayed) {
        OUTSIDE
    } else {
        reach_of_base(local, guess, base(candidate))
    }
}

/// What is known of packets from a candidate if no candidate counts as server-reflexive.
#[inline(always)]
pub(crate) fn reach_without(candidate: &Candidate) -> u8
    ensures { result ≡ reach_of [] candidate.now }
{
    if same_kind(candidate.kind(), CandidateKind::Relayed) {
        OUTSIDE
    } else {
        UNKNOWN
    }
}

/// The network of an address by its number, as most are numbered: a subnet of 24 bits of IPv4, or a site of 48 bits of IPv6 (RFC 4193,
/// section 3.1). Those of IPv4 come after all of IPv6.
fn network_of(address: SocketAddr) -> u64
    ensures { result ≡ network_of (socket_ip address) }
{
    match address {
        SocketAddr::V4(v4) => {
            let octets = v4.ip().octets();
            281474976710656 + 65536 * octets[0] as u64 + 256 * octets[1] as u64 + octets[2] as u64
        }
        SocketAddr::V6(v6) => {
            let segments = v6.ip().segments();
            4294967296 * segments[0] as u64 + 65536 * segments[1] as u64 + segments[2] as u64
        }
    }
}

/// The network of a candidate's base.
pub(crate) fn base_network(candidate: &Candidate) -> u64
    ensures { result ≡ base_network candidate.now }
{
    network_of(base(candidate))
}

/// The network of a candidate's address.
pub(crate) fn own_network(candidate: &Candidate) -> u64
    ensures { result ≡ own_network candidate.now }
{
    network_of(candidate.addr())
}

/// The pair is an inner one: packets of its local candidate stay inside; or, as long as nothing is known of them, its addresses are of one
/// network.
#[inline(always)]
fn is_inner(reach: u8, ours: &Candidate, theirs: &Candidate) -> bool
    ensures { result ≡ is_inner reach ours.now theirs.now }
{
    reach == INSIDE || (reach == UNKNOWN && base_network(ours) == own_network(theirs))
}

/// The place of the kind that a remote candidate counts as in a round. Peer-reflexive candidates come first, since the peer sent a packet from
/// there. Host candidates come last, since they have the greatest priorities.
#[inline(always)]
fn kind_rank(kind: CandidateKind) -> u8
    ensures rank { result ≡ kind_rank kind }
    ensures within { result < 4 }
{
    match kind {
        CandidateKind::PeerReflexive => 0,
        CandidateKind::ServerReflexive => 1,
        CandidateKind::Relayed => 2,
        CandidateKind::Host => 3,
    }
}

/// IPv6 comes first (RFC 8421, section 4).
#[inline(always)]
fn version_rank(address: SocketAddr) -> u8
    ensures rank { result ≡ version_rank address }
    ensures within { result < 2 }
{
    if address.is_ipv4() { 1 } else { 0 }
}

/// The kind of all inner pairs.
pub(crate) const INNER_KIND: u8 = 8;

/// The remote candidate's part of a kind: the kind that it counts as, and the IP version.
#[inline(always)]
pub(crate) fn remote_rank(theirs: &Candidate) -> u8
    ensures rank { result ≡ remote_rank theirs.now }
    ensures within { result < 8 }
{
    2 * kind_rank(counted_kind(theirs)) + version_rank(theirs.addr())
}

/// The kind of a pair, a number from 0 to 8.
pub fn kind_of(local: &[Candidate], remote: &[Candidate], pair: &CandidatePair) -> u8
    requires placed { is_placed local.now remote.now pair.now ≡ true }
    ensures kind { result ≡ kind_of local.now remote.now pair.now }
    ensures within { result < KINDS }
{
    let ours = candidate_at(local, pair.local_idx());
    let theirs = candidate_at(remote, pair.remote_idx());
    if is_inner(reach_of(local, pair.local_idx(), ours), ours, theirs) {
        INNER_KIND
    } else {
        remote_rank(theirs)
    }
}

// ---- turns

/// The place of a kind in the round that begins with `next`: the kinds from `next` on come before the others.
fn turn_of(next: u8, kind: u8) -> u8
    requires within { kind < KINDS }
    ensures turn { result ≡ turn_of next kind }
    ensures within { result < 2 * KINDS }
{
    if next <= kind { kind } else { kind + 9 }
}

/// Which pairs come before all kinds.
#[derive(Clone, Copy)]
pub struct Precedence {
    /// The pair with this number, before all others.
    pub selected: Option<u64>,
    /// Urgent pairs.
    pub urgent: bool,
}

/// The kinds of the pairs, which pairs come first, the kind whose turn is next, and what the due time of a pair depends on.
#[derive(Clone, Copy)]
struct Round<'a> {
    kinds: &'a KindTable<'a>,
    precedence: Precedence,
    next: u8,
    time: Instant,
    timing: &'a StunTiming,
}

/// Of the urgent pairs, those that a request brought come last.
fn is_brought(remote: &[Candidate], pair: &CandidatePair) -> bool
    requires placed { pair.now.remote < length remote.now }
    ensures { result ≡ is_brought remote.now pair.now }
{
    let theirs = candidate_at(remote, pair.remote_idx());
    same_kind(theirs.kind(), CandidateKind::PeerReflexive) && pair.state() != CheckState::Succeeded
}

/// The turn of the pair in the round.
fn turn_of_pair(round: &Round<'_>, pair: &CandidatePair) -> u8
    requires placed { is_placed round.now.kinds.now.local.now round.now.kinds.now.remote.now pair.now ≡ true }
    ensures { result ≡ turn_of_pair round.now.kinds.now.local.now round.now.kinds.now.remote.now round.now.precedence round.now.next
        round.now.time.0 round.now.timing.now pair.now }
{
    if is_named_by(round.precedence.selected, pair) {
        0
    } else if round.precedence.urgent && is_urgent(pair) {
        if is_brought(round.kinds.remote, pair) {
            2
        } else {
            1
        }
    } else {
        3 + turn_of(round.next, round.kinds.kind_of(pair))
    }
}

fn is_due(pair: &CandidatePair, round: &Round<'_>) -> bool
    ensures { result ≡ is_due round.now.time.0 round.now.timing.now pair.now }
{
    due_time_of(pair, round.time, round.timing) <= round.time
}

/// The pair that comes first so far, if any is due, its turn, and when it is due.
#[derive(Clone, Copy)]
struct First<'a> {
    pair: Option<&'a CandidatePair>,
    turn: u8,
    due: Instant,
}

/// Whether a pair that is due at this time is due before another one, or at the same time with no smaller priority.
fn is_due_before(p: &CandidatePair, due: Instant, q: &CandidatePair, round: &Round<'_>) -> bool
    requires { due.0 ≡ due_time_of round.now.time.0 round.now.timing.now p.now }
    ensures before { result ≡ true → GoesBefore round.now.time.0 round.now.timing.now p.now q.now }
    ensures following { result ≡ false → GoesBefore round.now.time.0 round.now.timing.now q.now p.now }
{
    let other = due_time_of(q, round.time, round.timing);
    due.0 < other.0 || (due.0 == other.0 && p.prio() >= q.prio())
}

/// Whether the turn of the first pair so far comes before that of another one, or is the same and the first pair is due earlier.
fn turns_before(
    p: &CandidatePair,
    first: First<'_>,
    q: &CandidatePair,
    turn: u8,
    round: &Round<'_>,
) -> bool
    requires first { first.turn ≡ turn_of_pair round.now.kinds.now.local.now round.now.kinds.now.remote.now round.now.precedence round.now.next
        round.now.time.0 round.now.timing.now p.now }
    requires due { first.due.0 ≡ due_time_of round.now.time.0 round.now.timing.now p.now }
    requires second { turn ≡ turn_of_pair round.now.kinds.now.local.now round.now.kinds.now.remote.now round.now.precedence round.now.next
        round.now.time.0 round.now.timing.now q.now }
    ensures before { result ≡ true → TurnsBefore round.now.kinds.now.local.now round.now.kinds.now.remote.now round.now.precedence
        round.now.next round.now.time.0 round.now.timing.now p.now q.now }
    ensures following { result ≡ false → TurnsBefore round.now.kinds.now.local.now round.now.kinds.now.remote.now round.now.precedence
        round.now.next round.now.time.0 round.now.timing.now q.now p.now }
{
    first.turn < turn || (first.turn == turn && is_due_before(p, first.due, q, round))
}

/// Returns the first so far, or one more pair if it is due and comes before.
fn earlier<'a>(first: First<'a>, pair: &'a CandidatePair, round: &Round<'_>) -> First<'a>
    requires turn { IfSome (option_copied first.pair) (λ p. first.turn ≡ turn_of_pair round.now.kinds.now.local.now
        round.now.kinds.now.remote.now round.now.precedence round.now.next round.now.time.0 round.now.timing.now p) }
    requires due { IfSome (option_copied first.pair) (λ p. first.due.0 ≡ due_time_of round.now.time.0 round.now.timing.now p) }
    requires placed { is_placed round.now.kinds.now.local.now round.now.kinds.now.remote.now pair.now ≡ true }
    ensures next { (done : List PairRecord) → IsNextAhead round.now.kinds.now.local.now round.now.kinds.now.remote.now round.now.precedence
        round.now.next round.now.time.0 round.now.timing.now done (option_copied first.entry.pair)
        → IsNextAhead round.now.kinds.now.local.now round.now.kinds.now.remote.now round.now.precedence round.now.next round.now.time.0
        round.now.timing.now (pair.now ∷ done) (option_copied result.pair) }
    ensures turn { IfSome (option_copied result.pair) (λ p. result.turn ≡ turn_of_pair round.now.kinds.now.local.now
        round.now.kinds.now.remote.now round.now.precedence round.now.next round.now.time.0 round.now.timing.now p) }
    ensures due { IfSome (option_copied result.pair) (λ p. result.due.0 ≡ due_time_of round.now.time.0 round.now.timing.now p) }
{
    if !is_due(pair, round) {
        return first;
    }
    let turn = turn_of_pair(round, pair);
    match first.pair {
        Some(other) if turns_before(other, first, pair, turn, round) => first,
        _ => First {
            pair: Some(pair),
            turn,
            due: due_time_of(pair, round.time, round.timing),
        },
    }
}

/// Whether a pair is due.
#[derive(Clone, Copy)]
struct Due<'a> {
    now: Instant,
    timing: &'a StunTiming,
}

impl PairTest for Due<'_> {
    ghost use Rattle.is_pair.specs.Due.{is_due};

    ghost passes = { λ t p. is_due t.now.0 t.timing.now p };

    fn passes(&self, pair: &CandidatePair) -> bool {
        due_time_of(pair, self.now, self.timing) <= self.now
    }
}

/// Returns the pair to check ahead: of the due pairs, those that come first, else those of the kind that comes first from `next` on, and of
/// these the one that is due first. None if no pair is due: most calls of an agent with few pairs find none, and need no kinds.
pub fn next_ahead<'a>(
    pairs: &'a Checklist,
    local: &[Candidate],
    remote: &[Candidate],
    precedence: Precedence,
    next: u8,
    now: Instant,
    timing: &StunTiming,
) -> Option<&'a CandidatePair>
    requires placed { are_placed local.now remote.now (multiset_of pairs.now) ≡ true }
    ensures { IsNextAhead local.now remote.now precedence next now.0 timing.now (multiset_of pairs.now) (option_copied result) }
{
    match pairs.first(&Due { now, timing }) {
        None => None,
        Some(_) => next_by_turns(pairs, local, remote, precedence, next, now, timing),
    }
}

/// Of the pairs that are due, the one that comes first in the round.
fn first_in_round<'a>(pairs: &'a Checklist, round: &Round<'_>) -> Option<&'a CandidatePair>
    requires placed { are_placed round.now.kinds.now.local.now round.now.kinds.now.remote.now (multiset_of pairs.now) ≡ true }
    ensures { IsNextAhead round.now.kinds.now.local.now round.now.kinds.now.remote.now round.now.precedence round.now.next
        round.now.time.0 round.now.timing.now
        (multiset_of pairs.now) (option_copied result) }
{
    let mut first = First {
        pair: None,
        turn: 0,
        due: round.time,
    };
    for pair in pairs.as_slice() {
        first = earlier(first, pair, round);
    }
    first.pair
}

/// Looks at all pairs and returns the one to check ahead, as in `next_ahead`. It is a separate function, so that calls that find no pair
/// due do not pay for the table of kinds. Often few pairs are due, and so ranks are computed first only if there are few of them.
#[inline(never)]
fn next_by_turns<'a>(
    pairs: &'a Checklist,
    local: &[Candidate],
    remote: &[Candidate],
    precedence: Precedence,
    next: u8,
    now: Instant,
    timing: &StunTiming,
) -> Option<&'a CandidatePair>
    requires placed { are_placed local.now remote.now (multiset_of pairs.now) ≡ true }
    ensures { IsNextAhead local.now remote.now precedence next now.0 timing.now (multiset_of pairs.now) (option_copied result) }
{
    let kinds = KindTable::new(local, remote, pairs.len() / 4);
    let round = Round {
        kinds: &kinds,
        precedence,
        next,
        time: now,
        timing,
    };
    first_in_round(pairs, &round)
}

/// Whether the pair comes before all kinds.
fn goes_first(precedence: Precedence, pair: &CandidatePair) -> bool
    ensures { result ≡ goes_first precedence pair.now }
{
    is_named_by(precedence.selected, pair) || (precedence.urgent && is_urgent(pair))
}

/// Whether a pair that comes before all kinds is due.
#[derive(Clone, Copy)]
struct FirstDue<'a> {
    precedence: Precedence,
    now: Instant,
    timing: &'a StunTiming,
}

impl PairTest for FirstDue<'_> {
    ghost use Rattle.is_rules.specs.Kinds.{is_first_due};

    ghost passes = { λ t p. is_first_due t.precedence t.now.0 t.timing.now p };

    fn passes(&self, pair: &CandidatePair) -> bool {
        due_time_of(pair, self.now, self.timing) <= self.now && goes_first(self.precedence, pair)
    }
}

/// A pair is due that comes before all kinds.
pub fn has_first_due(
    pairs: &Checklist,
    precedence: Precedence,
    now: Instant,
    timing: &StunTiming,
) -> bool
    ensures { result ≡ list_any (is_first_due precedence now.0 timing.now) (multiset_of pairs.now) }
{
    pairs.any(&FirstDue {
        precedence,
        now,
        timing,
    })
}
