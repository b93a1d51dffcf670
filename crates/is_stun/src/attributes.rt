//! The attributes of a message.

ghost use Rattle.std.specs.Prelude.{◌≡◌, Some, None, OnOk, IfErr, ◌==◌, position};
ghost use Rattle.std.specs.Option.{option_map};
ghost use Rattle.is_stun.specs.Kinds.{value_fault};
ghost use Rattle.is_stun.specs.TlvView.{tlv_view};
ghost use Rattle.is_stun.specs.Message.{split_at_colon, no_attributes};
ghost use Rattle.is_stun.specs.Pass.{kept, kept_after};

use crate::address::keep_address;
use crate::kinds::{
    bytes_of_len, channel_number, keep_error_code, network_cost, nomination, number32, number64,
    text,
};
use crate::numbers::{
    CHANNEL_NUMBER, DATA, ERROR_CODE, FINGERPRINT, ICE_CONTROLLED, ICE_CONTROLLING, LIFETIME,
    MESSAGE_INTEGRITY, NETWORK_COST, NOMINATION, NONCE, PRIORITY, REALM, SOFTWARE, TEXT_LIMIT,
    USE_CANDIDATE, USERNAME, USERNAME_LIMIT, XOR_MAPPED_ADDRESS, XOR_PEER_ADDRESS,
    XOR_RELAYED_ADDRESS,
};
use crate::tlv::Tlv;
use is_proto::ParseFault;
use std::net::SocketAddr;

/// The attributes of a message, except MESSAGE-INTEGRITY.
#[derive(Clone, Copy, Debug, PartialEq, Eq, Default)]
pub struct Attributes<'a> {
    pub(crate) username: Option<&'a str>,
    pub(crate) error_code: Option<(u16, &'a str)>,
    pub(crate) channel_number: Option<u16>,
    pub(crate) lifetime: Option<u32>,
    pub(crate) xor_peer_address: Option<SocketAddr>,
    pub(crate) data: Option<&'a [u8]>,
    pub(crate) realm: Option<&'a str>,
    pub(crate) nonce: Option<&'a str>,
    pub(crate) xor_relayed_address: Option<SocketAddr>,
    pub(crate) xor_mapped_address: Option<SocketAddr>,
    pub(crate) software: Option<&'a str>,
    pub(crate) priority: Option<u32>,
    pub(crate) use_candidate: bool,
    pub(crate) ice_controlled: Option<u64>,
    pub(crate) ice_controlling: Option<u64>,
    pub(crate) network_cost: Option<(u16, u16)>,
    pub(crate) nomination: Option<u32>,
    pub(crate) fingerprint: Option<u32>,
}

fn colon_in(name: &str) -> Option<usize>
    ensures { result ≡ position (λ byte. byte == 58) name.now }
{
    name.as_bytes().iter().position(|byte| *byte == b':')
}

/// Returns the parts before and after the first colon, if something follows it.
fn split_at_colon(name: &str) -> Option<(&str, &str)>
    ensures { option_map (λ parts. (parts.0.now, parts.1.now)) result ≡ split_at_colon name.now }
{
    let colon = colon_in(name)?;
    if colon + 1 < name.len() {
        Some((&name[..colon], &name[colon + 1..]))
    } else {
        None
    }
}

impl<'a> Attributes<'a> {
    ghost use Rattle.is_stun.specs.MessageView.{attributes_view};
    ghost use Rattle.is_stun.specs.Message.{split_username};

    /// Returns the attributes of a message that has none.
    pub(crate) fn new() -> Attributes<'a>
        ensures { attributes_view result ≡ no_attributes }
    {
        Attributes {
            username: None,
            error_code: None,
            channel_number: None,
            lifetime: None,
            xor_peer_address: None,
            data: None,
            realm: None,
            nonce: None,
            xor_relayed_address: None,
            xor_mapped_address: None,
            software: None,
            priority: None,
            use_candidate: false,
            ice_controlled: None,
            ice_controlling: None,
            network_cost: None,
            nomination: None,
            fingerprint: None,
        }
    }

    /// Reads an attribute before MESSAGE-INTEGRITY. It replaces an earlier one of its type.
    #[tactic(auto, unfolding(crate::specs::Pass::kept, crate::specs::Kinds::value_fault))]
    pub(crate) fn keep(&mut self, id: &[u8; 12], tlv: &Tlv<'a>) -> Result<(), ParseFault>
        requires { tlv.now.code ≡ MESSAGE_INTEGRITY → ⊥ }
        ensures kept { OnOk result (attributes_view self.new ≡ kept id.now (tlv_view tlv.now) (attributes_view self.old)) }
        ensures faultless { OnOk result (value_fault tlv.now.code tlv.now.value.now ≡ None) }
        ensures fault { IfErr result (λ f. value_fault tlv.now.code tlv.now.value.now ≡ Some f) }
    {
        let value = tlv.value;
        match tlv.code {
            USERNAME => self.username = Some(text(USERNAME_LIMIT, value)?),
            ERROR_CODE => keep_error_code(&mut self.error_code, value)?,
            CHANNEL_NUMBER => self.channel_number = Some(channel_number(value)?),
            LIFETIME => self.lifetime = Some(number32(value, ParseFault::LifetimeLength)?),
            XOR_PEER_ADDRESS => keep_address(&mut self.xor_peer_address, id, value)?,
            DATA => self.data = Some(value),
            REALM => self.realm = Some(text(TEXT_LIMIT, value)?),
            NONCE => self.nonce = Some(text(TEXT_LIMIT, value)?),
            XOR_RELAYED_ADDRESS => keep_address(&mut self.xor_relayed_address, id, value)?,
            XOR_MAPPED_ADDRESS => keep_address(&mut self.xor_mapped_address, id, value)?,
            SOFTWARE => self.software = Some(text(TEXT_LIMIT, value)?),
            PRIORITY => self.priority = Some(number32(value, ParseFault::PriorityLength)?),
            USE_CANDIDATE => {
                bytes_of_len(0, value, ParseFault::UseCandidateLength)?;
                self.use_candidate = true;
            }
            FINGERPRINT => self.fingerprint = Some(number32(value, ParseFault::FingerprintLength)?),
            ICE_CONTROLLED => {
                self.ice_controlled = Some(number64(value, ParseFault::ControlledLength)?)
            }
            ICE_CONTROLLING => {
                self.ice_controlling = Some(number64(value, ParseFault::ControllingLength)?)
            }
            NETWORK_COST => {
                if let Some(cost) = network_cost(value) {
                    self.network_cost = Some(cost);
                }
            }
            NOMINATION => {
                if let Some(number) = nomination(value) {
                    self.nomination = Some(number);
                }
            }
            _ => {}
        }
        Ok(())
    }

    /// Reads an attribute after MESSAGE-INTEGRITY; only FINGERPRINT is read there.
    #[tactic(auto, unfolding(crate::specs::Pass::kept_after, crate::specs::Kinds::value_fault))]
    pub(crate) fn keep_after(&mut self, tlv: &Tlv<'a>) -> Result<(), ParseFault>
        ensures kept { OnOk result (attributes_view self.new ≡ kept_after (tlv_view tlv.now) (attributes_view self.old)) }
        ensures faultless { OnOk result (tlv.now.code ≡ FINGERPRINT → value_fault tlv.now.code tlv.now.value.now ≡ None) }
        ensures fault { IfErr result (λ f. (tlv.now.code ≡ FINGERPRINT) × (value_fault tlv.now.code tlv.now.value.now ≡ Some f)) }
    {
        if tlv.code == FINGERPRINT {
            self.fingerprint = Some(number32(tlv.value, ParseFault::FingerprintLength)?);
        }
        Ok(())
    }

    /// Returns the parts of USERNAME before and after its first colon, if something follows it.
    pub(crate) fn split_username(&self) -> Option<(&'a str, &'a str)>
        ensures { option_map (λ parts. (parts.0.now, parts.1.now)) result ≡ split_username (attributes_view self.now) }
    {
        split_at_colon(self.username?)
    }
}
