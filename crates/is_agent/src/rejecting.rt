//! Why a packet is not accepted: a query that changes nothing. `accepting` has what accepted packets do.

ghost use Rattle.std.specs.Prelude.{◌≡◌, ◌↔◌, IsTrue, None, Some};
ghost use Rattle.is_stun.specs.MessageView.{message_view};
ghost use Rattle.is_agent.specs.View.{record_of};
ghost use Rattle.is_agent.specs.Rejecting.{NamesLocal, IsRejection, IsRequestRejection, IsResponseRejection, rejection_text};
ghost use Rattle.is_rules.specs.RequestView.{packet_path};
ghost use Rattle.is_rules.specs.Accepting.{IsAcceptedOn};

use crate::agent::Agent;
use is_candidate::LocalPreference;
use is_proto::Sha1HmacProvider;
use is_rules::accepting::is_same;
use is_rules::answers::keeps_any;
use is_rules::emitted::Path;
use is_rules::request::packet_path;
use is_stun::stun::{Class, Method, StunMessage, StunPacket};
use std::fmt;

/// Why an agent does not accept a packet: the first reason that applies.
#[derive(Clone, Copy, Debug, PartialEq, Eq)]
pub enum Rejection {
    /// The method of the message is not Binding.
    OtherMethod,
    /// The message is neither a request nor a response: an indication, which keeps a path alive and gets no response (RFC 8445,
    /// section 11).
    OtherClass,
    /// A request whose USERNAME does not begin with the agent's username fragment and a colon. It is for another agent, or
    /// from before the agent's ICE restart.
    OtherLocalUfrag,
    /// A request to the agent whose USERNAME does not end with the peer's username fragment. It is from another agent, or the
    /// peer has new credentials.
    OtherRemoteUfrag,
    /// A request that is not signed with the agent's password: the peer has a wrong one.
    OtherLocalPassword,
    /// A response to no pending transaction: of another agent's check, of one from before the ICE restart, or of one that
    /// went with its pair.
    NoPendingCheck,
    /// A response to a pending transaction that was not received on the reverse of its check's path.
    OtherPath,
    /// A response to a pending transaction that is not signed with the peer's password: the agent has a wrong one.
    OtherRemotePassword,
}

impl fmt::Display for Rejection {
    ghost output = { λ why. Some (rejection_text why) };

    fn fmt<W: fmt::Write>(&self, f: &mut fmt::Formatter<W>) -> fmt::Result {
        f.write_str(match self {
            Rejection::OtherMethod => "not a Binding message",
            Rejection::OtherClass => "neither a request nor a response",
            Rejection::OtherLocalUfrag => "request to another username fragment than the agent's",
            Rejection::OtherRemoteUfrag => "request from another username fragment than the peer's",
            Rejection::OtherLocalPassword =>
                "request signed with another password than the agent's",
            Rejection::NoPendingCheck => "response to no pending check",
            Rejection::OtherPath => "response on another path than that of its check",
            Rejection::OtherRemotePassword =>
                "response signed with another password than the peer's",
        })
    }
}

impl<H: Sha1HmacProvider + Drop, P: LocalPreference> Agent<H, P> {
    /// The USERNAME begins with the agent's own username fragment and a colon.
    fn names_local(&self, message: &StunMessage<'_>) -> bool
        ensures { IsTrue result ↔ NamesLocal (record_of self.now) (message_view message.now) }
    {
        match message.split_username() {
            Some((own, _)) => is_same(own, self.local_creds.ufrag.as_str()),
            None => false,
        }
    }

    fn request_rejection(&self, message: &StunMessage<'_>) -> Option<Rejection>
        ensures { IsRequestRejection H.mac (record_of self.now) (message_view message.now) result }
    {
        if !self.names_local(message) {
            Some(Rejection::OtherLocalUfrag)
        } else if !self.is_addressed(message) {
            Some(Rejection::OtherRemoteUfrag)
        } else if !self.is_by_local(message) {
            Some(Rejection::OtherLocalPassword)
        } else {
            None
        }
    }

    fn response_rejection(&self, path: &Path, message: &StunMessage<'_>) -> Option<Rejection>
        ensures { IsResponseRejection H.mac (record_of self.now) path.now (message_view message.now) result }
    {
        if !keeps_any(&self.pairs, message.trans_id()) {
            Some(Rejection::NoPendingCheck)
        } else if self.pair_awaiting(path, message.trans_id()).is_none() {
            Some(Rejection::OtherPath)
        } else if !self.is_by_peer(message) {
            Some(Rejection::OtherRemotePassword)
        } else {
            None
        }
    }

    /// Why `handle_packet` would not accept the packet: the first reason that applies, or none if it would. So a program can
    /// say that the peer has a wrong password after the first packet. Does not allocate.
    ///
    /// Anybody can send a packet that is rejected, and so can who replays or changes one of the peer: show the reason, and end
    /// no session for it.
    pub fn rejection(&self, packet: &StunPacket<'_>) -> Option<Rejection>
        ensures rejects { IsRejection H.mac (record_of self.now) (packet_path packet.now) (message_view packet.now.message) result }
        ensures accepted { result ≡ None ↔ IsAcceptedOn H.mac (record_of self.now) (packet_path packet.now) (message_view packet.now.message) }
    {
        let message = &packet.message;
        if message.method() != Method::Binding {
            return Some(Rejection::OtherMethod);
        }
        match message.class() {
            Class::Request => self.request_rejection(message),
            Class::Success | Class::Failure => {
                self.response_rejection(&packet_path(packet), message)
            }
            _ => Some(Rejection::OtherClass),
        }
    }
}
