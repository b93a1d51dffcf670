//! Messages: parsing and verifying them, and reading their attributes.

ghost use Rattle.std.specs.Prelude.{◌≡◌, ◌≤◌, ◌<◌, ◌^◌, ◌+◌, ◌↔◌, IsTrue, None, length, Some, IfSome, IfNone, IfOk, IfErr, OnOk, MatchResult};
ghost use Rattle.is_stun.specs.Tlv.{tlvs_of};
ghost use Rattle.is_stun.specs.Header.{body_of};

use crate::attributes::Attributes;
use crate::header::{Class, Method, body_of, header_fault};
use crate::integrity::Integrity;
use crate::reading::read_body;
use crate::trans_id::TransId;
use is_proto::{ParseFault, Protocol, Sha1HmacProvider, StunError};
use std::net::SocketAddr;

/// A STUN message (RFC 8489, section 5): either a parsed one, which borrows the bytes that it was parsed from, or a
/// built one, which can be written. It never allocates.
#[derive(Clone, Copy, Debug)]
pub struct StunMessage<'a> {
    pub(crate) method: Method,
    pub(crate) class: Class,
    pub(crate) trans_id: TransId,
    pub(crate) attrs: Attributes<'a>,
    /// `None` in a built message.
    pub(crate) integrity: Option<Integrity<'a>>,
}

/// A message, and how it arrived: its protocol, its source, and the local address that received it.
#[derive(Clone, Copy, Debug)]
pub struct StunPacket<'a> {
    pub proto: Protocol,
    pub source: SocketAddr,
    pub destination: SocketAddr,
    pub message: StunMessage<'a>,
}

fn trans_id_of(bytes: &[u8]) -> TransId
    requires { length bytes.now ≡ 12 }
    ensures { result.0 ≡ bytes.now }
{
    let mut id = [0; 12];
    id.copy_from_slice(bytes);
    TransId(id)
}

impl<'a> StunMessage<'a> {
    ghost use Rattle.is_stun.specs.MessageView.{message_view};
    ghost use Rattle.is_stun.specs.Integrity.{IsSignedBy};
    ghost use Rattle.is_stun.specs.Reading.{attributes_fault, message_of, demand_fault, Fault, Reads, FailsBy};
    ghost use Rattle.is_stun.specs.Spells.{Spells};
    ghost use Rattle.is_stun.specs.Pass.{IsEmpty, headed};
    ghost use Rattle.is_stun.specs.Form.{ReadsAny, FailsAnyBy, form_fault};

    /// Parses a message. Fails with `StunError::Parse` and the first fault of the bytes: first the faults of the
    /// header, then those of the attributes in the order of their position, then an attribute that a Binding request or
    /// success response lacks (RFC 8489, section 6.3). FINGERPRINT is stored, but not verified; unknown
    /// comprehension-required attributes are skipped.
    #[inline(always)]
    pub fn parse(buf: &'a [u8]) -> Result<StunMessage<'a>, StunError>
        ensures reads { MatchResult result (λ m. Reads buf.now (message_view m)) (λ e. FailsBy buf.now e) }
        ensures spells { IfOk result (λ m. Spells buf.now (message_view m)) }
    {
        let mut message = StunMessage::empty();
        if let Some(fault) = message.fill(buf) {
            return Err(StunError::Parse(fault));
        }
        Ok(message)
    }

    /// Parses a message as `parse` does, but requires no attributes: also the response of a STUN server to a request without
    /// credentials, which has no MESSAGE-INTEGRITY (RFC 8489, section 6.3.3). Fails with `StunError::Parse` and the first
    /// fault of the header, or else of the attributes.
    pub fn parse_any(buf: &'a [u8]) -> Result<StunMessage<'a>, StunError>
        ensures { MatchResult result (λ m. ReadsAny buf.now (message_view m)) (λ e. FailsAnyBy buf.now e) }
    {
        let mut message = StunMessage::empty();
        if let Some(fault) = message.fill_any(buf) {
            return Err(StunError::Parse(fault));
        }
        Ok(message)
    }

    /// Returns a message to parse into.
    fn empty() -> StunMessage<'a>
        ensures { IsEmpty (message_view result) }
    {
        StunMessage {
            method: Method::Unknown,
            class: Class::Unknown,
            trans_id: TransId([0; 12]),
            attrs: Attributes::new(),
            integrity: None,
        }
    }

    /// Parses into an empty message, where the caller stores it: so it is not copied. Returns the first fault.
    #[inline(never)]
    fn fill(&mut self, buf: &'a [u8]) -> Option<ParseFault>
        requires { IsEmpty (message_view self.old) }
        ensures reads { IfNone result (Reads buf.now (message_view self.new)) }
        ensures fault { IfSome result (λ f. Fault buf.now f) }
    {
        if let Some(fault) = self.fill_any(buf) {
            return Some(fault);
        }
        if let Some(fault) = self.demand_fault() {
            return Some(fault);
        }
        None
    }

    /// Parses into an empty message, and requires no attributes. Returns the first fault.
    #[inline(always)]
    fn fill_any(&mut self, buf: &'a [u8]) -> Option<ParseFault>
        requires { IsEmpty (message_view self.old) }
        ensures reads { IfNone result (ReadsAny buf.now (message_view self.new)) }
        ensures fault { IfSome result (λ f. form_fault buf.now ≡ Some f) }
    {
        if let Some(fault) = header_fault(buf) {
            return Some(fault);
        }
        let typ = u16::from_be_bytes([buf[0], buf[1]]);
        self.method = Method::from_typ(typ);
        self.class = Class::from_typ(typ);
        self.trans_id = trans_id_of(&buf[8..20]);
        match self.read(buf) {
            Ok(()) => None,
            Err(fault) => Some(fault),
        }
    }

    /// Reads the attributes after the header, in one pass.
    #[tactic(auto, unfolding(crate::specs::Reading::message_of))]
    fn read(&mut self, buf: &'a [u8]) -> Result<(), ParseFault>
        requires whole { 20 ≤ length buf.now }
        requires small { length buf.now < 2 ^ 16 + 20 }
        requires headed { message_view self.old ≡ headed buf.now }
        ensures spelled { OnOk result (message_view self.new ≡ message_of buf.now) }
        ensures faultless { OnOk result (attributes_fault (tlvs_of (body_of buf.now)) ≡ None) }
        ensures fault { IfErr result (λ f. attributes_fault (tlvs_of (body_of buf.now)) ≡ Some f) }
    {
        let id = self.trans_id.0;
        if let Some(first) = read_body(&mut self.attrs, body_of(buf), &id)? {
            self.integrity = Some(Integrity::of_first(buf, &first));
        }
        Ok(())
    }

    /// Returns the fault for an attribute that a Binding success response or request lacks.
    fn demand_fault(&self) -> Option<ParseFault>
        ensures { result ≡ demand_fault (message_view self.now) }
    {
        match (self.method, self.class) {
            (Method::Binding, Class::Success) => {
                if self.integrity.is_none() {
                    Some(ParseFault::NoIntegrityReply)
                } else if self.attrs.xor_mapped_address.is_none() {
                    Some(ParseFault::NoMappedAddress)
                } else {
                    None
                }
            }
            (Method::Binding, Class::Request) => {
                if self.integrity.is_none() {
                    Some(ParseFault::NoIntegrityRequest)
                } else if self.attrs.split_username().is_none() {
                    Some(ParseFault::NoUsername)
                } else if self.attrs.priority.is_none() {
                    Some(ParseFault::NoPriority)
                } else {
                    None
                }
            }
            _ => None,
        }
    }

    /// Whether the message was parsed, and its MESSAGE-INTEGRITY is the MAC under the password (RFC 8489, section
    /// 14.5). False for a built message.
    pub fn verify<H: Sha1HmacProvider>(&self, password: &[u8], provider: &H) -> bool
        ensures { IsTrue result ↔ IsSignedBy (H.mac provider.now) (message_view self.now) password.now }
    {
        match self.integrity {
            Some(integrity) => integrity.is_by(password, provider),
            None => false,
        }
    }
}
