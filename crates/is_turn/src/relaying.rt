//! What the user of a TURN client requests: permissions, and data that is sent to peers (RFC 8656, sections 9 to 12).

ghost use Rattle.std.specs.Prelude.{◌≡◌};
ghost use Rattle.is_turn.specs.Leases.{plain};
ghost use Rattle.is_turn.specs.Places.{bound_channel};
ghost use Rattle.is_turn.specs.Session.{is_ready, probed};
ghost use Rattle.is_turn.specs.Relaying.{permits_peer, is_media, route_of, routed, after_route, WritesRoute};

use crate::channel_data::write_channel_data;
use crate::lease::{ip_of, plain};
use crate::places;
use crate::requests::write_send;
use crate::session::Phase;
use crate::turn::TurnClient;
use is_proto::{Instant, Sha1HmacProvider, StunError};
use is_stun::stun::TransId;
use std::net::SocketAddr;

/// How data goes to a peer.
#[derive(Clone, Copy, Debug, PartialEq, Eq)]
pub(crate) enum Route {
    /// The peer is not permitted.
    Nowhere,
    /// In a Send indication.
    Indication,
    /// Over the channel with this number.
    Channel(u16),
}

/// Whether the data is no STUN message: its first byte is above 3 (RFC 7983).
fn is_media(contents: &[u8]) -> bool
    ensures { result ≡ is_media contents.now }
{
    match contents.first() {
        Some(first) => *first > 3,
        None => false,
    }
}

/// Writes data for a peer, as it goes to the server.
fn write_route(
    route: Route,
    peer: SocketAddr,
    contents: &[u8],
    id: &TransId,
    buf: &mut [u8],
) -> Result<Option<usize>, StunError>
    ensures { WritesRoute route id.now peer contents.now buf.old result buf.new }
{
    match route {
        Route::Nowhere => Ok(None),
        Route::Indication => match write_send(peer, contents, id, buf) {
            Ok(len) => Ok(Some(len)),
            Err(error) => Err(error),
        },
        Route::Channel(number) => match write_channel_data(number, contents, buf) {
            Ok(len) => Ok(Some(len)),
            Err(error) => Err(error),
        },
    }
}

impl<H: Sha1HmacProvider> TurnClient<H> {
    /// Requests that the server lets in packets of this peer: of its IP address, from any port. The permission is renewed while it is in use:
    /// requested, sent to, or received from. False: there is no allocation or request for one, it has another IP version, the server
    /// barred the peer within the last minute, or there is no place.
    pub fn permit(&mut self, now: Instant, peer: SocketAddr) -> bool
        ensures leases { (self.new.leases.items, result) ≡ permits_peer now peer self.old.session self.old.leases.items }
        ensures session { self.new.session ≡ self.old.session }
        ensures credentials { self.new.credentials ≡ self.old.credentials }
        ensures provider { self.new.provider ≡ self.old.provider }
    {
        if self.session.may_permit(peer) {
            places::permit(&mut self.leases, ip_of(peer), now)
        } else {
            false
        }
    }

    /// Returns how data goes to a peer, which is permitted by that. Media requests a channel.
    fn route(&mut self, now: Instant, peer: SocketAddr, is_media: bool) -> Route
        ensures leases { (self.new.leases.items, result) ≡ routed now peer is_media self.old.session self.old.leases.items }
        ensures session { self.new.session ≡ after_route result now self.old.session }
        ensures credentials { self.new.credentials ≡ self.old.credentials }
        ensures provider { self.new.provider ≡ self.old.provider }
    {
        if self.session.phase != Phase::Ready || !self.permit(now, peer) {
            return Route::Nowhere;
        }
        let peer = plain(peer);
        if is_media {
            places::bind(&mut self.leases, peer, now);
        }
        self.session.is_sending_data(now);
        match places::bound_channel(&self.leases, peer) {
            Some(number) => Route::Channel(number),
            None => Route::Indication,
        }
    }

    /// Writes data for a peer to the front of the buffer, as it goes to the server, and returns its length. `None`: the peer is not
    /// permitted, as `permit` says. The transaction ID is that of a Send indication; take a new one for each call. What is no STUN
    /// message requests a channel, which adds 4 bytes to the data; a Send indication takes 44 more, for IPv6 56, and padding.
    /// `BufferTooShort`, `ValueTooLong` or `MessageTooLong`: the buffer is unchanged; the peer is permitted all the same.
    pub fn send(
        &mut self,
        now: Instant,
        peer: SocketAddr,
        contents: &[u8],
        id: &TransId,
        buf: &mut [u8],
    ) -> Result<Option<usize>, StunError>
        ensures packet { WritesRoute (routed now peer (is_media contents.now) self.old.session self.old.leases.items).1
            id.now peer contents.now buf.old result buf.new }
        ensures leases { self.new.leases.items ≡ (routed now peer (is_media contents.now) self.old.session self.old.leases.items).0 }
        ensures session { self.new.session
            ≡ after_route (routed now peer (is_media contents.now) self.old.session self.old.leases.items).1 now self.old.session }
        ensures credentials { self.new.credentials ≡ self.old.credentials }
        ensures provider { self.new.provider ≡ self.old.provider }
    {
        let route = self.route(now, peer, is_media(contents));
        write_route(route, peer, contents, id, buf)
    }

    /// Returns the number of a peer's channel, if it is bound: the data may follow the four bytes of `channel_header` without a copy.
    pub fn channel(&self, peer: SocketAddr) -> Option<u16>
        ensures { result ≡ bound_channel (plain peer) self.now.leases.items }
    {
        places::bound_channel(&self.leases, plain(peer))
    }

    /// Asks the server now whether it has the allocation: after a path was lost, after sleep, or if the network changed. If it is gone,
    /// `Ended` follows.
    pub fn probe(&mut self, now: Instant)
        ensures session { self.new.session ≡ probed now self.old.session }
        ensures leases { self.new.leases ≡ self.old.leases }
        ensures credentials { self.new.credentials ≡ self.old.credentials }
        ensures provider { self.new.provider ≡ self.old.provider }
    {
        self.session.probe(now);
    }
}
