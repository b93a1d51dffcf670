//! The places for leases of a TURN client: a list whose length stays, so that no call allocates.

ghost use Rattle.std.specs.Prelude.{◌≡◌, ◌<◌, IfSome, length, map, fold, min, position, slice_set, vec_len};
ghost use Rattle.is_stun.specs.MessageView.{message_view};
ghost use Rattle.is_proto.specs.Times.{MAX};
ghost use Rattle.is_turn.specs.Leases.{is_permission_of, is_channel_of, has_number, is_free, is_answered_by, is_to_be_sent, is_reported, is_due_by, advanced, carries};
ghost use Rattle.is_turn.specs.Places.{at_place, named_in, added, permitted, with_channel, channel_added_at, bound_channel, bound_number, used_in, heard, heard_by, channel_peer, peer_if, earliest_due, due_place, change_time, earliest_change};

use crate::lease::{Lease, ip_of};
use is_proto::Instant;
use is_stun::stun::StunMessage;
use std::net::SocketAddr;

// ---- places

/// Returns the place of the permission of an IP address.
fn permission_place(leases: &[Lease], ip: SocketAddr) -> Option<usize>
    ensures place { result ≡ position (is_permission_of ip) leases.now }
    ensures within { IfSome result (λ place. place < length leases.now) }
{
    leases.iter().position(|lease| lease.is_permission_of(ip))
}

/// Returns the place of the channel of a peer.
fn channel_place(leases: &[Lease], peer: SocketAddr) -> Option<usize>
    ensures place { result ≡ position (is_channel_of peer) leases.now }
    ensures within { IfSome result (λ place. place < length leases.now) }
{
    leases.iter().position(|lease| lease.is_channel_of(peer))
}

fn number_place(leases: &[Lease], number: u16) -> Option<usize>
    ensures place { result ≡ position (has_number number) leases.now }
    ensures within { IfSome result (λ place. place < length leases.now) }
{
    leases.iter().position(|lease| lease.has_number(number))
}

fn free_place(leases: &[Lease], now: Instant) -> Option<usize>
    ensures place { result ≡ position (is_free now) leases.now }
    ensures within { IfSome result (λ place. place < length leases.now) }
{
    leases.iter().position(|lease| lease.is_free(now))
}

/// Returns the place of the lease whose request a message answers.
pub(crate) fn answered_place(leases: &[Lease], message: &StunMessage<'_>) -> Option<usize>
    ensures place { result ≡ position (is_answered_by (message_view message.now)) leases.now }
    ensures within { IfSome result (λ place. place < length leases.now) }
{
    leases
        .iter()
        .position(|lease| lease.is_answered_by(message))
}

/// Returns the place of the first lease with a packet that is to be polled.
pub(crate) fn sending_place(leases: &[Lease]) -> Option<usize>
    ensures place { result ≡ position is_to_be_sent leases.now }
    ensures within { IfSome result (λ place. place < length leases.now) }
{
    leases.iter().position(|lease| lease.is_to_be_sent())
}

/// Returns the place of the first lease of which the user is to hear.
pub(crate) fn reported_place(leases: &[Lease]) -> Option<usize>
    ensures place { result ≡ position is_reported leases.now }
    ensures within { IfSome result (λ place. place < length leases.now) }
{
    leases.iter().position(|lease| lease.is_reported())
}

fn place_due_by(leases: &[Lease], time: Instant) -> Option<usize>
    ensures place { result ≡ position (is_due_by time.0) leases.now }
    ensures within { IfSome result (λ place. place < length leases.now) }
{
    leases.iter().position(|lease| lease.is_due_by(time))
}

/// Puts a lease in a place.
pub(crate) fn put(leases: &mut Vec<Lease>, place: usize, lease: Lease)
    requires { place < vec_len leases.old }
    ensures items { leases.new.items ≡ slice_set leases.old.items place lease }
    ensures len { vec_len leases.new ≡ vec_len leases.old }
{
    leases[place] = lease;
}

/// Returns the lease in a place.
pub(crate) fn at_place(leases: &[Lease], place: usize) -> Lease
    requires { place < length leases.now }
    ensures { result ≡ at_place place leases.now }
{
    leases[place]
}

// ---- the user

/// The lease in a place is used. False: the server barred it lately.
fn name_in(leases: &mut Vec<Lease>, place: usize, now: Instant) -> bool
    requires { place < vec_len leases.old }
    ensures { (leases.new.items, result) ≡ named_in now place leases.old.items }
{
    let lease = at_place(leases, place);
    if lease.is_held_back(now) {
        false
    } else {
        put(leases, place, lease.named_at(now));
        true
    }
}

/// Takes the first free place. False: there is none.
fn add(leases: &mut Vec<Lease>, lease: Lease, now: Instant) -> bool
    ensures { (leases.new.items, result) ≡ added now lease leases.old.items }
{
    match free_place(leases, now) {
        Some(place) => {
            put(leases, place, lease);
            true
        }
        None => false,
    }
}

/// Requests the permission of an IP address, or uses it. False: there is no place, or the server barred it lately.
pub(crate) fn permit(leases: &mut Vec<Lease>, ip: SocketAddr, now: Instant) -> bool
    ensures { (leases.new.items, result) ≡ permitted now ip leases.old.items }
{
    match permission_place(leases, ip) {
        Some(place) => name_in(leases, place, now),
        None => add(leases, Lease::new(ip, None, now), now),
    }
}

/// Takes a place for a channel, whose number is that of the place.
fn add_channel(leases: &mut Vec<Lease>, place: usize, peer: SocketAddr, now: Instant)
    requires { place < vec_len leases.old }
    ensures { leases.new.items ≡ channel_added_at now peer (Some place) leases.old.items }
{
    if place < 4096 {
        put(
            leases,
            place,
            Lease::new(peer, Some(0x4000 + place as u16), now),
        );
    }
}

/// Requests the channel of a peer, or uses it.
pub(crate) fn bind(leases: &mut Vec<Lease>, peer: SocketAddr, now: Instant)
    ensures { leases.new.items ≡ with_channel now peer leases.old.items }
{
    match channel_place(leases, peer) {
        Some(place) => {
            let _is_named = name_in(leases, place, now);
        }
        None => {
            if let Some(place) = free_place(leases, now) {
                add_channel(leases, place, peer, now);
            }
        }
    }
}

/// Returns the number of a peer's channel, if it is bound.
pub(crate) fn bound_channel(leases: &[Lease], peer: SocketAddr) -> Option<u16>
    ensures { result ≡ bound_channel peer leases.now }
{
    match channel_place(leases, peer) {
        Some(place) => {
            let lease = at_place(leases, place);
            if lease.until.is_some() {
                lease.number
            } else {
                None
            }
        }
        None => None,
    }
}

// ---- data of a peer

fn use_in(leases: &mut Vec<Lease>, place: Option<usize>, now: Instant)
    requires { IfSome place (λ place. place < vec_len leases.old) }
    ensures { leases.new.items ≡ used_in now place leases.old.items }
{
    if let Some(place) = place {
        let lease = at_place(leases, place);
        put(leases, place, lease.used_at(now));
    }
}

fn hear_by(leases: &mut Vec<Lease>, place: usize, peer: SocketAddr, now: Instant) -> bool
    requires { place < vec_len leases.old }
    ensures { (leases.new.items, result) ≡ heard_by now peer place leases.old.items }
{
    let lease = at_place(leases, place);
    if lease.is_open() {
        put(leases, place, lease.used_at(now));
        let channel = channel_place(leases, peer);
        use_in(leases, channel, now);
        true
    } else {
        false
    }
}

/// Whether data of a peer counts: its IP address has an open permission. Then its leases are used.
pub(crate) fn hear(leases: &mut Vec<Lease>, ip: SocketAddr, peer: SocketAddr, now: Instant) -> bool
    ensures { (leases.new.items, result) ≡ heard now ip peer leases.old.items }
{
    match permission_place(leases, ip) {
        Some(place) => hear_by(leases, place, peer, now),
        None => false,
    }
}

/// Returns the peer of a channel that is bound, or being bound.
pub(crate) fn channel_peer(leases: &[Lease], number: u16) -> Option<SocketAddr>
    ensures { result ≡ channel_peer number leases.now }
{
    match number_place(leases, number) {
        Some(place) => {
            let lease = at_place(leases, place);
            if lease.carries() { lease.peer } else { None }
        }
        None => None,
    }
}

// ---- the clock

/// What is at its end lapses, and what is due is requested.
pub(crate) fn advance_all(leases: &mut Vec<Lease>, now: Instant)
    ensures items { leases.new.items ≡ map (advanced now) leases.old.items }
    ensures len { vec_len leases.new ≡ vec_len leases.old }
{
    for place in 0..leases.len() {
        leases[place] = leases[place].advanced(now);
    }
}

/// Returns the earliest time at which a request has something due.
pub(crate) fn earliest_due(leases: &[Lease]) -> Instant
    ensures { result.0 ≡ earliest_due leases.now }
{
    let mut first = Instant(u64::MAX);
    for lease in leases {
        first = first.min(lease.due());
    }
    first
}

/// Returns the place of the request that is due first, if one is.
pub(crate) fn due_place(leases: &[Lease], now: Instant) -> Option<usize>
    ensures place { result ≡ due_place now leases.now }
    ensures within { IfSome result (λ place. place < length leases.now) }
{
    let first = earliest_due(leases);
    if first <= now {
        place_due_by(leases, first)
    } else {
        None
    }
}

/// When a lease is renewed, or ends.
fn change_time(lease: &Lease) -> Instant
    ensures { result.0 ≡ change_time lease.now }
{
    lease.renewal_time().min(lease.end())
}

/// Returns the earliest renewal or end.
pub(crate) fn earliest_change(leases: &[Lease]) -> Instant
    ensures { result.0 ≡ earliest_change leases.now }
{
    let mut first = Instant(u64::MAX);
    for lease in leases {
        first = first.min(change_time(lease));
    }
    first
}
