//! The permission of a peer's IP address and the channel of its transport address (RFC 8656, sections 9 and 12): each is requested by the
//! user, renewed while it is in use, and lapses else. What the server bars is not requested again for a minute.

ghost use Rattle.std.specs.Prelude.{◌≡◌};
ghost use Rattle.is_turn.specs.Leases.{same_address, plain, ip_of, new_lease, unused, is_for, is_permission_of, is_channel_of, has_number, is_in_use, is_past, is_held_back, is_idle, is_free, is_open, carries};
ghost use Rattle.is_turn.specs.Leases.{used_at, asked_again, named_at, is_renewal_due, request_for, requested_for, renewed, lapsed, advanced};

use crate::operation::Operation;
use crate::requests::Request;
use is_proto::Instant;
use std::net::{SocketAddr, SocketAddrV4, SocketAddrV6};

/// Why there is no permission.
#[derive(Clone, Copy, Debug, PartialEq, Eq)]
pub(crate) struct NotPermitted {
    /// The code of the server's error response. `None`: there was no response.
    pub(crate) code: Option<u16>,
}

/// What the server is to lease for a peer.
#[derive(Clone, Copy, Debug, PartialEq, Eq)]
pub(crate) struct Lease {
    /// Of a permission the IP address, with the port 0. `None`: a place for a lease.
    pub(crate) peer: Option<SocketAddr>,
    /// The number of a channel. `None`: a permission.
    pub(crate) number: Option<u16>,
    /// When the lease was last requested by the user, sent to, or received from.
    pub(crate) used: Instant,
    /// When the last renewal of the lease began. `None`: it is renewed whether it was used or not.
    pub(crate) asked: Option<Instant>,
    /// The server has the lease until then, at least. `None`: not yet.
    pub(crate) until: Option<Instant>,
    /// When the lease is renewed.
    pub(crate) renew: Instant,
    /// The server barred the lease: it is not requested again before this time.
    pub(crate) barred: Option<Instant>,
    /// The request that waits for its response.
    pub(crate) operation: Option<Operation>,
    /// What is to be polled.
    pub(crate) report: Option<NotPermitted>,
}

/// Whether two addresses are equal in every part.
pub fn same_address(a: SocketAddr, b: SocketAddr) -> bool
    ensures { result ≡ same_address a b }
{
    a == b
}

/// Returns the address without flow information and scope.
pub(crate) fn plain(peer: SocketAddr) -> SocketAddr
    ensures { result ≡ plain peer }
{
    match peer {
        SocketAddr::V4(peer) => SocketAddr::V4(SocketAddrV4::new(*peer.ip(), peer.port())),
        SocketAddr::V6(peer) => SocketAddr::V6(SocketAddrV6::new(*peer.ip(), peer.port(), 0, 0)),
    }
}

/// Returns the IP address, with the port 0.
pub(crate) fn ip_of(peer: SocketAddr) -> SocketAddr
    ensures { result ≡ ip_of peer }
{
    match peer {
        SocketAddr::V4(peer) => SocketAddr::V4(SocketAddrV4::new(*peer.ip(), 0)),
        SocketAddr::V6(peer) => SocketAddr::V6(SocketAddrV6::new(*peer.ip(), 0, 0, 0)),
    }
}

/// Whether the time has come.
fn is_past(time: Option<Instant>, now: Instant) -> bool
    ensures { result ≡ is_past time now }
{
    match time {
        Some(time) => time <= now,
        None => false,
    }
}

/// The request for a lease.
fn request_for(peer: SocketAddr, number: Option<u16>) -> Request
    ensures { result ≡ request_for peer number }
{
    match number {
        Some(number) => Request::ChannelBind(number, peer),
        None => Request::CreatePermission(peer),
    }
}

impl Lease {
    /// A place for a lease.
    pub(crate) fn unused() -> Lease
        ensures { result ≡ unused }
    {
        Lease {
            peer: None,
            number: None,
            used: Instant(0),
            asked: Some(Instant(0)),
            until: None,
            renew: Instant(0),
            barred: None,
            operation: None,
            report: None,
        }
    }

    /// A lease that the user requests.
    pub(crate) fn new(peer: SocketAddr, number: Option<u16>, now: Instant) -> Lease
        ensures { result ≡ new_lease peer number now }
    {
        Lease {
            peer: Some(peer),
            number,
            used: now,
            asked: None,
            until: None,
            renew: now,
            barred: None,
            operation: None,
            report: None,
        }
    }

    // ---- which one it is

    fn is_for(&self, peer: SocketAddr) -> bool
        ensures { result ≡ is_for peer self.now.peer }
    {
        match self.peer {
            Some(own) => same_address(own, peer),
            None => false,
        }
    }

    pub(crate) fn is_permission_of(&self, ip: SocketAddr) -> bool
        ensures { result ≡ is_permission_of ip self.now }
    {
        self.number.is_none() && self.is_for(ip)
    }

    pub(crate) fn is_channel_of(&self, peer: SocketAddr) -> bool
        ensures { result ≡ is_channel_of peer self.now }
    {
        self.number.is_some() && self.is_for(peer)
    }

    pub(crate) fn has_number(&self, n: u16) -> bool
        ensures { result ≡ has_number n self.now }
    {
        match self.number {
            Some(number) => number == n,
            None => false,
        }
    }

    // ---- in use

    /// Whether the lease was used since its last renewal began.
    pub(crate) fn is_in_use(&self) -> bool
        ensures { result ≡ is_in_use self.now }
    {
        match self.asked {
            Some(asked) => asked < self.used,
            None => true,
        }
    }

    /// Whether the server barred the lease lately.
    pub(crate) fn is_held_back(&self, now: Instant) -> bool
        ensures { result ≡ is_held_back now self.now }
    {
        match self.barred {
            Some(barred) => now < barred,
            None => false,
        }
    }

    fn is_idle(&self, now: Instant) -> bool
        ensures { result ≡ is_idle now self.now }
    {
        if self.barred.is_some() {
            is_past(self.barred, now)
        } else {
            !self.is_in_use()
        }
    }

    /// Whether the place of the lease may be given to another peer: never that of a channel.
    pub(crate) fn is_free(&self, now: Instant) -> bool
        ensures { result ≡ is_free now self.now }
    {
        self.number.is_none()
            && self.until.is_none()
            && self.operation.is_none()
            && self.report.is_none()
            && self.is_idle(now)
    }

    /// Whether data of the peer counts: the permission was requested, and did not lapse since.
    pub(crate) fn is_open(&self) -> bool
        ensures { result ≡ is_open self.now }
    {
        self.barred.is_none()
            && (self.until.is_some() || self.operation.is_some() || self.is_in_use())
    }

    /// Whether data of the channel counts: it is bound, or being bound.
    pub(crate) fn carries(&self) -> bool
        ensures { result ≡ carries self.now }
    {
        self.until.is_some() || self.operation.is_some()
    }

    // ---- the user

    pub(crate) fn used_at(self, now: Instant) -> Lease
        ensures { result ≡ used_at now self }
    {
        Lease { used: now, ..self }
    }

    fn asked_again(self, now: Instant) -> Lease
        ensures { result ≡ asked_again now self }
    {
        Lease {
            used: now,
            asked: None,
            renew: now,
            barred: None,
            ..self
        }
    }

    /// The user requests the lease again, also one that was barred.
    pub(crate) fn named_at(self, now: Instant) -> Lease
        ensures { result ≡ named_at now self }
    {
        if self.barred.is_some() {
            self.asked_again(now)
        } else {
            self.used_at(now)
        }
    }

    // ---- the clock

    fn is_renewal_due(&self, now: Instant) -> bool
        ensures { result ≡ is_renewal_due now self.now }
    {
        self.renew <= now && self.operation.is_none() && self.barred.is_none() && self.is_in_use()
    }

    fn requested(self, now: Instant) -> Lease
        ensures { result ≡ requested_for self.peer now self }
    {
        match self.peer {
            Some(peer) => Lease {
                asked: Some(now),
                operation: Some(Operation::new(request_for(peer, self.number), now)),
                ..self
            },
            None => self,
        }
    }

    fn renewed(self, now: Instant) -> Lease
        ensures { result ≡ renewed now self }
    {
        if self.is_renewal_due(now) {
            self.requested(now)
        } else {
            self
        }
    }

    fn lapsed(self, now: Instant) -> Lease
        ensures { result ≡ lapsed now self }
    {
        if is_past(self.until, now) {
            Lease {
                until: None,
                ..self
            }
        } else {
            self
        }
    }

    /// What is at its end lapses, and what is due is requested.
    pub(crate) fn advanced(self, now: Instant) -> Lease
        ensures { result ≡ advanced now self }
    {
        self.lapsed(now).renewed(now)
    }
}
