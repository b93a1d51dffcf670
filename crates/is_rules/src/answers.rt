//! Responses to the agent's checks (RFC 8445, section 7.2.5); the agent's part: `is_agent::answers`.
//!
//! A response counts only if it is received on the reverse of its check's path.

ghost use Rattle.std.specs.Prelude.{◌≡◌, ◌<◌, IsTrue, IfSome, true, is_some, vec_len, vec_capacity};
ghost use Rattle.std.specs.List.{list_any};
ghost use Rattle.is_candidate.specs.Priorities.{candidate_priority, TOO_HIGH};
ghost use Rattle.is_pair.specs.Checks.{is_kept};
ghost use Rattle.is_pair.specs.Pairs.{PairRecord};
ghost use Rattle.is_pair.specs.Multiset.{is_awaiting, keeps_check, pair_numbered};
ghost use Rattle.is_pair.specs.Checklists.{multiset_of};
ghost use Rattle.is_rules.specs.Sending.{path_at};
ghost use Rattle.is_stun.specs.MessageView.{message_view};
ghost use Rattle.is_rules.specs.Kept.{NoneTooHigh, are_placed};
ghost use Rattle.is_rules.specs.Due.{IsSentUnder};
ghost use Rattle.is_rules.specs.Answers.{is_known_address, is_left_out, is_role_conflict, is_reverse, joined_by};

use crate::emitted::Path;
use crate::limit::has_local_room;
use crate::local::append;
use crate::sides::Sides;
use is_candidate::Candidate;
use is_candidate::candidate::address::same_address;
use is_pair::checklist::{Checklist, PairTest};
use is_pair::pair::CandidatePair;
use is_stun::stun::{StunMessage, TransId};
use std::net::SocketAddr;

/// The code of a role conflict (RFC 8445, section 7.3.1.1).
const ROLE_CONFLICT: u16 = 487;

// ---- which responses are expected

/// A test that any pair passes.
#[derive(Clone, Copy)]
struct Any;

impl PairTest for Any {
    ghost use Rattle.std.specs.Prelude.{true};

    ghost passes = { λ t p. true };

    fn passes(&self, _pair: &CandidatePair) -> bool {
        true
    }
}

/// A pair has a pending transaction with this ID.
pub fn keeps_any(pairs: &Checklist, id: TransId) -> bool
    ensures { result ≡ list_any (keeps_check id.0) (multiset_of pairs.now) }
{
    pairs.has_awaiting(id, &Any)
}

/// The first path is the reverse of the second one in its addresses. Protocols are not compared.
fn is_reverse(via: &Path, path: &Path) -> bool
    ensures { result ≡ is_reverse via.now path.now }
{
    same_address(via.source, path.destination) && same_address(via.destination, path.source)
}

/// Whether a packet was received on the reverse of a pair's path.
#[derive(Clone, Copy)]
struct GoesBack<'a> {
    sides: Sides<'a>,
    via: &'a Path,
}

impl PairTest for GoesBack<'_> {
    ghost use Rattle.std.specs.Prelude.{◌&&◌};
    ghost use Rattle.is_rules.specs.Answers.{is_reverse};
    ghost use Rattle.is_rules.specs.Kept.{is_placed};
    ghost use Rattle.is_rules.specs.Sending.{path_at};

    ghost passes = { λ t p. is_placed t.sides.local.now t.sides.remote.now p
        && is_reverse t.via.now (path_at t.sides.local.now t.sides.remote.now p.local p.remote) };

    fn passes(&self, pair: &CandidatePair) -> bool {
        self.sides.has(pair) && is_reverse(self.via, &self.sides.path_of(pair))
    }
}

/// The number of a pair that has a pending transaction with this ID, and on the reverse of whose path the packet was received.
pub fn pair_awaiting(pairs: &Checklist, sides: Sides<'_>, via: &Path, id: TransId) -> Option<u64>
    requires { are_placed sides.local.now sides.remote.now (multiset_of pairs.now) ≡ true }
    ensures any { list_any (is_awaiting id.0 (λ p. is_reverse via.now (path_at sides.entry.local.now sides.entry.remote.now p.local p.remote)))
        (multiset_of pairs.now) ≡ is_some result }
    ensures kept { IfSome result (λ number. (p : PairRecord) × (pair_numbered number (multiset_of pairs.now) ≡ Some p)
        × (is_awaiting id.0 (λ p. is_reverse via.now (path_at sides.entry.local.now sides.entry.remote.now p.local p.remote)) p ≡ true)) }
{
    pairs.numbers_rise();
    match pairs.awaiting(id, &GoesBack { sides, via }) {
        Some(pair) => Some(pair.id().0),
        None => None,
    }
}

// ---- success responses

/// A local candidate has this address, possibly a discarded one.
fn is_known_address(local: &[Candidate], address: SocketAddr) -> bool
    ensures { result ≡ is_known_address local.now address }
{
    local.iter().any(|c| same_address(c.addr(), address))
}

/// The mapped address brings no candidate: a local candidate has it, or the limit is reached.
pub fn is_left_out(limit: Option<usize>, local: &[Candidate], mapped: SocketAddr) -> bool
    ensures { result ≡ is_left_out limit local.now mapped }
{
    is_known_address(local, mapped) || !has_local_room(limit, local)
}

/// Appends the candidate, if there is one, within the reserved capacity.
pub fn join(local: &mut Vec<Candidate>, mapped: Option<Candidate>)
    requires room { vec_len local.old < vec_capacity local.old }
    requires all_low { NoneTooHigh local.old.items }
    requires low { IfSome mapped (λ c. candidate_priority c < TOO_HIGH) }
    ensures items { local.new.items ≡ joined_by mapped local.old.items }
    ensures all_low { NoneTooHigh local.new.items }
{
    if let Some(candidate) = mapped {
        append(local, candidate);
    }
}

// ---- error responses

/// An error response with code 487.
pub fn is_role_conflict(message: &StunMessage<'_>) -> bool
    ensures { result ≡ is_role_conflict (message_view message.now) }
{
    match message.error_code() {
        Some((code, _)) => code == ROLE_CONFLICT,
        None => false,
    }
}

/// The pair's check with this ID was sent in this role.
pub fn is_of_role(pair: &CandidatePair, id: TransId, controlling: bool) -> bool
    requires kept { IsTrue (is_kept id.0 pair.now.checks) }
    ensures { IsSentUnder pair.now id.0 controlling result }
{
    match pair.binding_attempt(id) {
        Some(check) => check.controlling() == controlling,
        None => false,
    }
}
