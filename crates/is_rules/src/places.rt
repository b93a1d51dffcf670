//! The candidates at which a Binding request is served: the local one that received it, and the remote one that sent it.

ghost use Rattle.std.specs.Prelude.{◌≡◌, ◌==◌, ◌&&◌, ◌+◌, ◌<◌, ◌≤◌, length, position, true, false, None, IfSome};
ghost use Rattle.std.specs.Net.Socket.{socket_port};
ghost use Rattle.is_candidate.specs.Addresses.{same_address, same_version};
ghost use Rattle.std.specs.List.{list_any};
ghost use Rattle.is_candidate.specs.Candidates.{base_of, candidate_at};
ghost use Rattle.is_candidate.specs.Priorities.{candidate_priority, check_priority, TOO_HIGH};
ghost use Rattle.is_rules.specs.Kept.{NoneTooHigh};
ghost use Rattle.is_rules.specs.RequestView.{request_view};
ghost use Rattle.is_rules.specs.Places.{is_at, is_live, is_reached, local_place, is_sender, IsGreatestBelow, IsGreatestPlace};
ghost use Rattle.is_rules.specs.Places.{IsRemotePlace, remote_index};
ghost use Rattle.is_rules.specs.Sending.{path_at};

use crate::emitted::Path;
use crate::request::Request;
use is_candidate::candidate::address::{same_address, same_protocol};
use is_candidate::candidate::internals::{base, is_discarded};
use is_candidate::candidate::kind::is_direct;
use is_candidate::candidate::priority::check_priority;
use is_candidate::{Candidate, CandidateKind};
use is_proto::Protocol;
use std::net::SocketAddr;

/// Where the remote candidate of a request is in its list.
#[derive(Clone, Copy, Debug, PartialEq, Eq)]
pub enum RemotePlace {
    /// The remote candidate is at this index.
    Known(usize),
    /// Only discarded candidates have the sender's address and protocol.
    Barred,
    /// No candidate has the sender's address and protocol, and the sender is appended.
    Unknown,
    /// No candidate has the sender's address and protocol, and the limit is reached: the sender replaces the candidate at this index,
    /// which has no pair.
    Vacant(usize),
    /// No candidate has the sender's address and protocol, and there is no place for another one.
    Full,
}

/// The candidate at an index.
pub fn candidate_at(candidates: &[Candidate], place: usize) -> &Candidate
    requires { place < length candidates.now }
    ensures { result.now ≡ candidate_at candidates.now place }
{
    &candidates[place]
}

/// The address of the candidate at an index.
pub fn address_at(candidates: &[Candidate], place: usize) -> SocketAddr
    requires { place < length candidates.now }
    ensures { result ≡ (candidate_at candidates.now place).addr }
{
    candidate_at(candidates, place).addr()
}

/// The base of the candidate at an index.
pub fn base_at(candidates: &[Candidate], place: usize) -> SocketAddr
    requires { place < length candidates.now }
    ensures { result ≡ base_of (candidate_at candidates.now place) }
{
    base(candidate_at(candidates, place))
}

/// The protocol of the candidate at an index.
pub fn proto_at(candidates: &[Candidate], place: usize) -> Protocol
    requires { place < length candidates.now }
    ensures { result ≡ (candidate_at candidates.now place).proto }
{
    candidate_at(candidates, place).proto()
}

/// The path from the base of the local candidate at one index to the address of the remote candidate at another.
pub fn path_at(local: &[Candidate], remote: &[Candidate], l: usize, r: usize) -> Path
    requires local { l < length local.now }
    requires remote { r < length remote.now }
    ensures { result ≡ path_at local.now remote.now l r }
{
    Path {
        proto: proto_at(local, l),
        source: base_at(local, l),
        destination: address_at(remote, r),
    }
}

/// The kind of the candidate at an index.
pub(crate) fn kind_at(candidates: &[Candidate], place: usize) -> CandidateKind
    requires { place < length candidates.now }
    ensures { result ≡ (candidate_at candidates.now place).kind }
{
    candidate_at(candidates, place).kind()
}

/// Whether the candidate at an index is discarded.
pub fn is_discarded_at(candidates: &[Candidate], place: usize) -> bool
    requires { place < length candidates.now }
    ensures { result ≡ (candidate_at candidates.now place).discarded }
{
    is_discarded(candidate_at(candidates, place))
}

/// The priority of the candidate at an index.
pub fn priority_at(candidates: &[Candidate], place: usize) -> u32
    requires { place < length candidates.now }
    ensures priority { result ≡ candidate_priority (candidate_at candidates.now place) }
    ensures low { NoneTooHigh candidates.now → result < TOO_HIGH }
{
    candidate_at(candidates, place).prio()
}

/// The PRIORITY of a check from the candidate at an index.
pub fn check_priority_at(candidates: &[Candidate], place: usize) -> u32
    requires { place < length candidates.now }
    ensures priority { result ≡ check_priority (candidate_at candidates.now place) }
    ensures low { NoneTooHigh candidates.now → result < TOO_HIGH }
{
    check_priority(candidate_at(candidates, place))
}

/// Whether two addresses have the same IP version and port. Most addresses that differ do so in these, which are the fastest to
/// compare.
#[inline(always)]
pub(crate) fn same_version_and_port(a: SocketAddr, b: SocketAddr) -> bool
    ensures test { result ≡ (same_version a b && socket_port a == socket_port b) }
    ensures apart { result ≡ false → same_address a b ≡ false }
{
    match (a, b) {
        (SocketAddr::V4(a), SocketAddr::V4(b)) => a.port() == b.port(),
        (SocketAddr::V6(a), SocketAddr::V6(b)) => a.port() == b.port(),
        _ => false,
    }
}

#[inline(always)]
fn is_at(address: SocketAddr, proto: Protocol, candidate: &Candidate) -> bool
    ensures { result ≡ is_at address proto candidate.now }
{
    same_version_and_port(candidate.addr(), address)
        && same_address(candidate.addr(), address)
        && same_protocol(candidate.proto(), proto)
}

fn is_reached(request: &Request<'_>, candidate: &Candidate) -> bool
    ensures { result ≡ is_reached (request_view request.now) candidate.now }
{
    is_direct(candidate.kind()) && is_at(request.path.destination, request.path.proto, candidate)
}

fn is_live_reached(request: &Request<'_>, candidate: &Candidate) -> bool
    ensures { result ≡ is_live (is_reached (request_view request.now)) candidate.now }
{
    is_reached(request, candidate) && !is_discarded(candidate)
}

fn live_local_place(local: &[Candidate], request: &Request<'_>) -> Option<usize>
    ensures place { result ≡ position (is_live (is_reached (request_view request.now))) local.now }
    ensures within { IfSome result (λ place. place < length local.now) }
{
    local.iter().position(|c| is_live_reached(request, c))
}

fn any_local_place(local: &[Candidate], request: &Request<'_>) -> Option<usize>
    ensures place { result ≡ position (is_reached (request_view request.now)) local.now }
    ensures within { IfSome result (λ place. place < length local.now) }
{
    local.iter().position(|c| is_reached(request, c))
}

/// The first index of a host or relayed candidate with the request's destination and protocol; live ones go before discarded
/// ones.
pub fn local_place(local: &[Candidate], request: &Request<'_>) -> Option<usize>
    ensures place { result ≡ local_place local.now (request_view request.now) }
    ensures within { IfSome result (λ place. place < length local.now) }
{
    match live_local_place(local, request) {
        Some(place) => Some(place),
        None => any_local_place(local, request),
    }
}

#[inline(always)]
fn is_sender(request: &Request<'_>, candidate: &Candidate) -> bool
    ensures { result ≡ is_sender (request_view request.now) candidate.now }
{
    is_at(request.path.source, request.path.proto, candidate)
}

#[inline(always)]
fn is_live_sender(request: &Request<'_>, candidate: &Candidate) -> bool
    ensures { result ≡ is_live (is_sender (request_view request.now)) candidate.now }
{
    is_sender(request, candidate) && !is_discarded(candidate)
}

/// The better of the best index so far and the next one.
fn better_sender(
    remote: &[Candidate],
    request: &Request<'_>,
    best: Option<usize>,
    place: usize,
) -> Option<usize>
    requires within { place < length remote.now }
    requires best { IsGreatestBelow place (is_live (is_sender (request_view request.now))) remote.now best }
    ensures { IsGreatestBelow (place + 1) (is_live (is_sender (request_view request.now))) remote.now result }
{
    let candidate = candidate_at(remote, place);
    if !is_live_sender(request, candidate) {
        return best;
    }
    match best {
        None => Some(place),
        Some(top) => {
            if candidate_at(remote, top).prio() < candidate.prio() {
                Some(place)
            } else {
                Some(top)
            }
        }
    }
}

/// The first index of a live candidate with the request's source and protocol, or the end. Mostly it is the only one, and this
/// loop is shorter than one that compares priorities.
fn first_sender(remote: &[Candidate], request: &Request<'_>) -> usize
    ensures none { IsGreatestBelow result (is_live (is_sender (request_view request.now))) remote.now None }
    ensures within { result ≤ length remote.now }
{
    match remote.iter().position(|c| is_live_sender(request, c)) {
        Some(place) => place,
        None => remote.len(),
    }
}

/// Of the live candidates with the request's source and protocol, the index of one with the greatest priority.
fn live_remote_place(remote: &[Candidate], request: &Request<'_>) -> Option<usize>
    ensures { IsGreatestPlace (is_live (is_sender (request_view request.now))) remote.now result }
{
    let mut best = None;
    for place in first_sender(remote, request)..remote.len() {
        best = better_sender(remote, request, best, place);
    }
    best
}

fn knows_sender(remote: &[Candidate], request: &Request<'_>) -> bool
    ensures { result ≡ list_any (is_sender (request_view request.now)) remote.now }
{
    remote.iter().any(|c| is_sender(request, c))
}

/// The place of the request's sender among the remote candidates, without regard to the limit.
pub fn remote_place(remote: &[Candidate], request: &Request<'_>) -> RemotePlace
    ensures { IsRemotePlace remote.now (request_view request.now) result }
{
    match live_remote_place(remote, request) {
        Some(place) => RemotePlace::Known(place),
        None if knows_sender(remote, request) => RemotePlace::Barred,
        None => RemotePlace::Unknown,
    }
}

/// The index of the remote candidate; an unknown one is appended, or gets a vacant index.
pub fn remote_index(remote: &[Candidate], place: RemotePlace) -> usize
    ensures { result ≡ remote_index remote.now place }
{
    match place {
        RemotePlace::Known(place) | RemotePlace::Vacant(place) => place,
        RemotePlace::Barred | RemotePlace::Unknown | RemotePlace::Full => remote.len(),
    }
}
