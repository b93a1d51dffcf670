//! A Binding request, as the agent serves it, and as an early request in the queue.

ghost use Rattle.std.specs.Prelude.{◌≡◌, IfOk};
ghost use Rattle.is_stun.specs.MessageView.{message_view};
ghost use Rattle.is_rules.specs.Request.{request_in, sender_ufrag};
ghost use Rattle.is_rules.specs.RequestView.{request_view, waiting_view, packet_path};
ghost use Rattle.is_rules.specs.Serving.{as_taken};

use crate::emitted::Path;
use is_proto::{Instant, Text};
use is_stun::stun::{StunMessage, StunPacket, TransId};
use std::alloc::{AllocError, Global};

/// A Binding request that the agent received (RFC 8445, section 7.3).
#[derive(Clone, Copy)]
pub struct Request<'a> {
    /// When the request was received.
    pub time: Instant,
    /// The path on which the request was received: from the sender's address to the local one.
    pub path: Path,
    /// The transaction ID of the request.
    pub id: TransId,
    /// The value of PRIORITY.
    pub priority: u32,
    /// The request has USE-CANDIDATE.
    pub use_candidate: bool,
    /// The value of NOMINATION.
    pub nomination: Option<u32>,
    /// The sender's username fragment.
    pub ufrag: &'a str,
    /// The sender's tie-breaker, if it claims to be controlling.
    pub ice_controlling: Option<u64>,
    /// The sender's tie-breaker, if it claims to be controlled.
    pub ice_controlled: Option<u64>,
}

/// The path on which a packet was received.
pub fn packet_path(packet: &StunPacket<'_>) -> Path
    ensures { result ≡ packet_path packet.now }
{
    Path {
        proto: packet.proto,
        source: packet.source,
        destination: packet.destination,
    }
}

/// The sender's username fragment: what follows the first colon of USERNAME.
fn sender_ufrag<'a>(message: &StunMessage<'a>) -> &'a str
    ensures { result.now ≡ sender_ufrag (message_view message.now) }
{
    match message.split_username() {
        Some((_, ufrag)) => ufrag,
        None => "",
    }
}

impl<'a> Request<'a> {
    /// The request that the packet is, received at this time.
    pub fn new(now: Instant, packet: &StunPacket<'a>) -> Request<'a>
        ensures { request_view result ≡ request_in now.0 (packet_path packet.now) (message_view packet.now.message) }
    {
        let message = &packet.message;
        Request {
            time: now,
            path: packet_path(packet),
            id: message.trans_id(),
            priority: message.prio().unwrap_or(0),
            use_candidate: message.use_candidate(),
            nomination: message.nomination(),
            ufrag: sender_ufrag(message),
            ice_controlling: message.ice_controlling(),
            ice_controlled: message.ice_controlled(),
        }
    }
}

impl<'a> Request<'a> {
    /// The request as an agent takes it: with numbers NOMINATION decides, where it is present, and 0 is no nomination. Without numbers it
    /// is ignored.
    pub fn as_taken(self, numbers: bool) -> Request<'a>
        ensures { request_view result ≡ as_taken numbers (request_view self.entry) }
    {
        if !numbers {
            return Request {
                nomination: None,
                ..self
            };
        }
        let use_candidate = match self.nomination {
            Some(number) => number != 0,
            None => self.use_candidate,
        };
        Request {
            use_candidate,
            ..self
        }
    }
}

/// An early request: received before the remote credentials.
#[derive(Drop)]
pub struct Waiting {
    /// When the request was received.
    pub time: Instant,
    /// The path on which the request was received: from the sender's address to the local one.
    pub path: Path,
    /// The transaction ID of the request.
    pub id: TransId,
    /// The value of PRIORITY.
    pub priority: u32,
    /// The request has USE-CANDIDATE.
    pub use_candidate: bool,
    /// The value of NOMINATION.
    pub nomination: Option<u32>,
    /// The sender's username fragment.
    pub ufrag: Text,
    /// The sender's tie-breaker, if it claims to be controlling.
    pub ice_controlling: Option<u64>,
    /// The sender's tie-breaker, if it claims to be controlled.
    pub ice_controlled: Option<u64>,
}

impl Waiting {
    /// The request, with an owned username fragment.
    pub fn new(alloc: Global, request: &Request<'_>) -> Result<Waiting, AllocError>
        ensures { IfOk result (λ waiting. waiting_view waiting ≡ request_view request.now) }
    {
        Ok(Waiting {
            time: request.time,
            path: request.path,
            id: request.id,
            priority: request.priority,
            use_candidate: request.use_candidate,
            nomination: request.nomination,
            ufrag: Text::from_str(alloc, request.ufrag)?,
            ice_controlling: request.ice_controlling,
            ice_controlled: request.ice_controlled,
        })
    }

    /// The request as it was received.
    pub fn request(&self) -> Request<'_>
        ensures { request_view result ≡ waiting_view self.now }
    {
        Request {
            time: self.time,
            path: self.path,
            id: self.id,
            priority: self.priority,
            use_candidate: self.use_candidate,
            nomination: self.nomination,
            ufrag: self.ufrag.as_str(),
            ice_controlling: self.ice_controlling,
            ice_controlled: self.ice_controlled,
        }
    }
}
