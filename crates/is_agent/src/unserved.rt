//! Why an accepted request gets no response: a query that changes nothing. `serving` has what accepted requests do; `rejecting`
//! has why a packet is not accepted.

ghost use Rattle.std.specs.Prelude.{◌≡◌, ◌<◌, ◌↔◌, IsTrue, Some, None, false, not, length};
ghost use Rattle.is_candidate.specs.Candidates.{candidate_at};
ghost use Rattle.is_stun.specs.MessageView.{message_view};
ghost use Rattle.is_agent.specs.Ready.{NamesPeer};
ghost use Rattle.is_agent.specs.Unserved.{unserved_without, unserved_at, unserved_as, unserved_by, unserved_in, unserved_text};
ghost use Rattle.is_agent.specs.Unserved.{IsUnservedHere, IsUnserved, IsAcceptedRequest, UnservedIs};
ghost use Rattle.is_agent.specs.View.{record_of};
ghost use Rattle.is_rules.specs.RequestView.{request_view, packet_path};
ghost use Rattle.is_rules.specs.Serving.{is_for_other_peer};

use crate::agent::Agent;
use is_candidate::LocalPreference;
use is_proto::{Instant, Sha1HmacProvider};
use is_rules::places::{RemotePlace, is_discarded_at};
use is_rules::request::Request;
use is_rules::roles::Conflict;
use is_rules::serving::{Places, is_misled};
use is_stun::stun::{Class, StunPacket};
use std::fmt;

/// Why an accepted request gets no response: the first reason that applies.
#[derive(Clone, Copy, Debug, PartialEq, Eq)]
pub enum Unserved {
    /// The remote credentials are not set yet. The request waits in the queue for them (RFC 8445, section 7.3), and if the queue
    /// is full, the oldest one is dropped.
    Early,
    /// The destination of the packet is not the address of a local candidate. Often the program passed the address to which its
    /// socket is bound, as 0.0.0.0, in place of that of the candidate.
    OtherDestination,
    /// The request has USE-CANDIDATE, and the agent is controlling: the peer takes itself for controlling too, and claims no
    /// role or the other one.
    UseCandidate,
    /// Only remote candidates that were invalidated have the sender's address.
    SenderInvalidated,
    /// No remote candidate has the sender's address, and there is no place for another one: see `set_max_discovered`.
    SendersAtLimit,
    /// The local candidate was invalidated, and has no pair with the sender.
    LocalInvalidated,
}

impl fmt::Display for Unserved {
    ghost output = { λ why. Some (unserved_text why) };

    fn fmt<W: fmt::Write>(&self, f: &mut fmt::Formatter<W>) -> fmt::Result {
        f.write_str(match self {
            Unserved::Early => "request before the peer's credentials are set",
            Unserved::OtherDestination => "request to an address that no local candidate has",
            Unserved::UseCandidate => "request with USE-CANDIDATE to a controlling agent",
            Unserved::SenderInvalidated => "request from an invalidated remote candidate",
            Unserved::SendersAtLimit =>
                "request from an unknown address while the limit on discovered candidates is reached",
            Unserved::LocalInvalidated => "request to an invalidated local candidate",
        })
    }
}

/// A request gets no response if it needs a new pair of a local candidate that was invalidated.
fn unserved_without(pair: Option<u64>, discarded: bool) -> Option<Unserved>
    ensures { result ≡ unserved_without pair discarded }
{
    if discarded && pair.is_none() {
        Some(Unserved::LocalInvalidated)
    } else {
        None
    }
}

fn unserved_at(remote: RemotePlace, pair: Option<u64>, discarded: bool) -> Option<Unserved>
    ensures { result ≡ unserved_at remote pair discarded }
{
    match remote {
        RemotePlace::Barred => Some(Unserved::SenderInvalidated),
        RemotePlace::Full => Some(Unserved::SendersAtLimit),
        RemotePlace::Known(_) | RemotePlace::Unknown | RemotePlace::Vacant(_) => {
            unserved_without(pair, discarded)
        }
    }
}

/// A controlling agent drops a request with USE-CANDIDATE.
fn unserved_as(
    controlling: bool,
    request: &Request<'_>,
    later: Option<Unserved>,
) -> Option<Unserved>
    ensures { result ≡ unserved_as controlling (request_view request.now) later }
{
    if is_misled(controlling, request) {
        Some(Unserved::UseCandidate)
    } else {
        later
    }
}

/// A role conflict comes before the other reasons: a 487 is a response, and USE-CANDIDATE counts in the role after a switch.
fn unserved_by(
    conflict: Conflict,
    controlling: bool,
    request: &Request<'_>,
    later: Option<Unserved>,
) -> Option<Unserved>
    ensures { result ≡ unserved_by conflict controlling (request_view request.now) later }
{
    match conflict {
        Conflict::Absent => unserved_as(controlling, request, later),
        Conflict::Send487 => None,
        Conflict::SwitchRole => unserved_as(!controlling, request, later),
    }
}

impl<H: Sha1HmacProvider + Drop, P: LocalPreference> Agent<H, P> {
    fn unserved_in(&self, request: &Request<'_>, at: Places) -> Option<Unserved>
        requires { at.local < length self.now.local.items }
        ensures { result ≡ unserved_in (record_of self.now) (request_view request.now) at }
    {
        let later = unserved_at(at.remote, at.pair, is_discarded_at(&self.local, at.local));
        unserved_by(self.conflict(request), self.controlling, request, later)
    }

    fn unserved_here(&self, request: &Request<'_>) -> Option<Unserved>
        requires { is_for_other_peer (record_of self.now) (request_view request.now) ≡ false }
        ensures { IsUnservedHere (record_of self.now) (request_view request.now) result }
    {
        match self.places_of(request) {
            Some(at) => self.unserved_in(request, at),
            None => Some(Unserved::OtherDestination),
        }
    }

    fn unserved_request(&self, request: &Request<'_>) -> Option<Unserved>
        requires { NamesPeer (record_of self.now) (request_view request.now) }
        ensures { IsUnserved (record_of self.now) (request_view request.now) result }
    {
        match self.remote_creds {
            None => Some(Unserved::Early),
            Some(_) => self.unserved_here(request),
        }
    }

    fn accepts_as_request(&self, packet: &StunPacket<'_>) -> bool
        ensures { IsTrue result ↔ IsAcceptedRequest H.mac (record_of self.now) (packet_path packet.now) (message_view packet.now.message) }
    {
        packet.message.class() == Class::Request && self.accepts_packet(packet)
    }

    /// Why `handle_packet` would accept the packet, a request, and send no response to it: the first reason that applies. None if
    /// it would send one, and for a response or a packet that it would not accept (`rejection` says why). None too if
    /// `handle_packet` would fail. Does not allocate.
    pub fn unserved(&self, packet: &StunPacket<'_>) -> Option<Unserved>
        ensures { UnservedIs H.mac (record_of self.now) (packet_path packet.now) (message_view packet.now.message) result }
    {
        if self.accepts_as_request(packet) {
            self.unserved_request(&Request::new(Instant(0), packet))
        } else {
            None
        }
    }
}
