//! A STUN message as a flat struct for C, and its MESSAGE-INTEGRITY.

ghost use Rattle.std.specs.Prelude.{◌≡◌};
ghost use Rattle.std.specs.Option.{option_map};
ghost use Rattle.is_proto.specs.Hmac.{hmac_sha1};
ghost use Rattle.is_stun.specs.Header.{method_bits};
ghost use Rattle.is_stun.specs.MessageView.{message_view};
ghost use Rattle.is_c.specs.StunMessage.{class_number, number_of, IsAddress, IsFlat, family_number, transport_number, HasRequested, IsFlatOf, AnswersSigned};
ghost use Rattle.is_c.specs.StunRead.{ReturnsMessage, ReturnsStrict};
ghost use Rattle.is_c_calls.specs.Texts.{Puts};

use crate::address::address_of;
use crate::codes;
use crate::stun_client::Transaction;
use crate::text::put;
use is_c_calls::Address;
use is_proto::{DefaultSha1HmacProvider, Sha1HmacProvider};
use is_stun::stun::{AddressFamily, Class, Method, Requested, StunMessage};
use std::net::SocketAddr;

/// A number that a message may have: 0 if it is not set.
#[repr(C)]
#[derive(Clone, Copy)]
pub struct Number {
    pub value: u64,
    pub is_set: bool,
}

/// A message, except its texts and the values of MESSAGE-INTEGRITY and FINGERPRINT. An address that it does not have is zero.
#[repr(C)]
#[derive(Clone, Copy)]
pub struct Message {
    pub priority: Number,
    /// The tie-breakers of ICE-CONTROLLED and ICE-CONTROLLING.
    pub controlled: Number,
    pub controlling: Number,
    pub error_code: Number,
    /// LIFETIME in seconds.
    pub lifetime: Number,
    pub channel_number: Number,
    /// NETWORK-COST: the ID of the network, and its cost.
    pub network_id: Number,
    pub network_cost: Number,
    /// NOMINATION: the number of a nomination.
    pub nomination: Number,
    pub mapped: Address,
    pub peer: Address,
    pub relayed: Address,
    pub id: Transaction,
    /// The number of the method; 0 for any except seven.
    pub method: u16,
    /// 0 request, 1 indication, 2 success response, 3 error response.
    pub class: u8,
    pub use_candidate: bool,
    pub has_integrity: bool,
    pub has_fingerprint: bool,
    /// REQUESTED-TRANSPORT and REQUESTED-ADDRESS-FAMILY of an Allocate request: the protocol, and 4 or 6. 0: not there.
    pub requested_transport: u8,
    pub requested_family: u8,
}

fn number_of(value: Option<u64>) -> Number
    ensures { result ≡ number_of value }
{
    match value {
        Some(value) => Number {
            value,
            is_set: true,
        },
        None => Number {
            value: 0,
            is_set: false,
        },
    }
}

fn number32_of(value: Option<u32>) -> Number
    ensures { result ≡ number_of value }
{
    match value {
        Some(value) => number_of(Some(u64::from(value))),
        None => number_of(None),
    }
}

fn number16_of(value: Option<u16>) -> Number
    ensures { result ≡ number_of value }
{
    match value {
        Some(value) => number_of(Some(u64::from(value))),
        None => number_of(None),
    }
}

/// The address, or zero.
pub(crate) fn address_if(address: Option<SocketAddr>) -> Address
    ensures { IsAddress address result }
{
    match address {
        Some(address) => address_of(address),
        None => Address {
            family: 0,
            bytes: [0; 16],
            port: 0,
            flow: 0,
            scope: 0,
        },
    }
}

fn method_number(method: Method) -> u16
    ensures { result ≡ method_bits method }
{
    match method {
        Method::Binding => 1,
        Method::Allocate => 3,
        Method::Refresh => 4,
        Method::Send => 6,
        Method::Data => 7,
        Method::CreatePermission => 8,
        Method::ChannelBind => 9,
        Method::Unknown => 0,
    }
}

fn class_number(class: Class) -> u8
    ensures { result ≡ class_number class }
{
    match class {
        Class::Request => 0,
        Class::Indication => 1,
        Class::Success => 2,
        Class::Failure => 3,
        Class::Unknown => 4,
    }
}

fn error_code_of(message: &StunMessage<'_>) -> Option<u16>
    ensures { result ≡ option_map (λ e. e.0) (message_view message.now).attributes.error_code }
{
    Some(message.error_code()?.0)
}

fn network_of(message: &StunMessage<'_>) -> (Option<u16>, Option<u16>)
    ensures { result ≡ (
      option_map (λ c. c.0) (message_view message.now).attributes.network_cost,
      option_map (λ c. c.1) (message_view message.now).attributes.network_cost,
    ) }
{
    match message.network_cost() {
        Some((id, cost)) => (Some(id), Some(cost)),
        None => (None, None),
    }
}

fn family_number(family: Option<AddressFamily>) -> u8
    ensures { result ≡ family_number family }
{
    match family {
        Some(AddressFamily::Ipv4) => 4,
        Some(AddressFamily::Ipv6) => 6,
        None => 0,
    }
}

fn transport_number(transport: Option<u8>) -> u8
    ensures { result ≡ transport_number transport }
{
    match transport {
        Some(number) => number,
        None => 0,
    }
}

fn flat(message: &StunMessage<'_>, requested: &Requested) -> Message
    ensures message { IsFlat (message_view message.now) result }
    ensures requested { HasRequested requested.now result }
{
    let (network, cost) = network_of(message);
    let id = message.trans_id();
    let bytes = id.0;
    Message {
        priority: number32_of(message.prio()),
        controlled: number_of(message.ice_controlled()),
        controlling: number_of(message.ice_controlling()),
        error_code: number16_of(error_code_of(message)),
        lifetime: number32_of(message.lifetime()),
        channel_number: number16_of(message.channel_number()),
        network_id: number16_of(network),
        network_cost: number16_of(cost),
        nomination: number32_of(message.nomination()),
        mapped: address_if(message.mapped_address()),
        peer: address_if(message.xor_peer_address()),
        relayed: address_if(message.xor_relayed_address()),
        id: Transaction { bytes },
        method: method_number(message.method()),
        class: class_number(message.class()),
        use_candidate: message.use_candidate(),
        has_integrity: message.has_integrity(),
        has_fingerprint: message.fingerprint().is_some(),
        requested_transport: transport_number(requested.transport),
        requested_family: family_number(requested.family),
    }
}

/// Reads a message of any method and class; its texts are read by `is_ice_stun_text`.
#[unsafe(no_mangle)]
pub extern "C" fn is_ice_stun_read(bytes: &[u8], message: &mut Message) -> i32
    ensures { ReturnsMessage bytes.now (λ m code. IsFlatOf bytes.now m code message.new) (message.new ≡ message.old) result }
{
    match StunMessage::parse_any(bytes) {
        Ok(found) => {
            *message = flat(&found, &Requested::of(bytes));
            codes::OK
        }
        Err(_) => codes::UNPARSED,
    }
}

/// Reads a message as `is_ice_handle_packet` does: a Binding request or success response has the attributes that ICE requires.
#[unsafe(no_mangle)]
pub extern "C" fn is_ice_stun_read_strict(bytes: &[u8], message: &mut Message) -> i32
    ensures { ReturnsStrict bytes.now (λ m code. IsFlatOf bytes.now m code message.new) (message.new ≡ message.old) result }
{
    match StunMessage::parse(bytes) {
        Ok(read) => {
            *message = flat(&read, &Requested::of(bytes));
            codes::OK
        }
        Err(_) => codes::UNPARSED,
    }
}

/// Whether a message has the MESSAGE-INTEGRITY of this key (RFC 8489, section 14.5).
#[unsafe(no_mangle)]
pub extern "C" fn is_ice_stun_verify(bytes: &[u8], key: &[u8]) -> i32
    ensures { ReturnsMessage bytes.now (λ m code. AnswersSigned m key.now code) (Unit {0}) result }
{
    match StunMessage::parse_any(bytes) {
        Ok(message) => codes::found_code(message.verify(key, &DefaultSha1HmacProvider)),
        Err(_) => codes::UNPARSED,
    }
}

/// Writes the HMAC-SHA1 of the bytes under the key (RFC 2104), 20 bytes, to the front of the buffer.
#[unsafe(no_mangle)]
pub extern "C" fn is_ice_hmac_sha1(
    key: &[u8],
    bytes: &[u8],
    buffer: &mut [u8],
    length: &mut usize,
) -> i32
    ensures { Puts (hmac_sha1 key.now bytes.now) buffer.old result buffer.new length.new }
{
    let mac = DefaultSha1HmacProvider.sha1_hmac(key, &[bytes]);
    put(&mac, buffer, length)
}
