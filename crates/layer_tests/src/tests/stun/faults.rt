//! Each fault with the shortest bytes that have it.

ghost use Rattle.std.specs.Prelude.{◌≤◌, length};

use is_proto::{ParseFault, StunError};
use is_stun::stun::*;
use std::test::*;

/// The types of a Binding request, a success response and an error response. An error response need not carry any
/// attribute.
const REQUEST: [u8; 2] = [0x00, 0x01];

const SUCCESS: [u8; 2] = [0x01, 0x01];

const FAILURE: [u8; 2] = [0x01, 0x11];

/// MESSAGE-INTEGRITY, with a MAC of zeros.
const INTEGRITY: [u8; 24] = [
    0, 8, 0, 20, 0, 0, 0, 0, 0, 0, 0, 0, 0, 0, 0, 0, 0, 0, 0, 0, 0, 0, 0, 0,
];

fn fault_of(bytes: &[u8]) -> Option<ParseFault> {
    match StunMessage::parse(bytes) {
        Err(StunError::Parse(fault)) => Some(fault),
        _ => None,
    }
}

/// The fault of a message of this type with these attributes, if it has one.
fn fault_with(typ: [u8; 2], attributes: &[u8]) -> Option<ParseFault>
    requires { length attributes.now ≤ 560 }
{
    let [high, low] = (attributes.len() as u16).to_be_bytes();
    let header = [
        typ[0], typ[1], high, low, 0x21, 0x12, 0xa4, 0x42, 0, 0, 0, 0, 0, 0, 0, 0, 0, 0, 0, 0,
    ];
    let mut bytes = [0; 580];
    for (to, from) in bytes.iter_mut().zip(header.iter().chain(attributes)) {
        *to = *from;
    }
    fault_of(bytes.get(..20 + attributes.len())?)
}

#[test]
fn headers(rt: HostRuntime) {
    assert!(rt;
        fault_of(&[]) == Some(ParseFault::TooShort)
            && fault_of(&[1, 0x11, 0]) == Some(ParseFault::TooShort)
            && fault_of(&[1, 0x11, 0, 1]) == Some(ParseFault::LengthUneven)
            && fault_of(&[1, 0x11, 0, 0]) == Some(ParseFault::LengthMismatch)
            && fault_of(&[0; 20]) == Some(ParseFault::Magic)
            && fault_with(FAILURE, &[]).is_none()
    );
}
/// Attributes whose length is wrong.
static LENGTHS: [([u8; 4], ParseFault); 12] = [
    ([0x00, 0x06, 0, 1], ParseFault::AttributeLength),
    ([0x00, 0x08, 0, 0], ParseFault::IntegrityLength),
    ([0x00, 0x09, 0, 0], ParseFault::ErrorCodeLength),
    ([0x00, 0x0c, 0, 0], ParseFault::ChannelLength),
    ([0x00, 0x0d, 0, 0], ParseFault::LifetimeLength),
    ([0x00, 0x12, 0, 0], ParseFault::XorAddress),
    ([0x00, 0x16, 0, 0], ParseFault::XorAddress),
    ([0x00, 0x20, 0, 0], ParseFault::XorAddress),
    ([0x00, 0x24, 0, 0], ParseFault::PriorityLength),
    ([0x80, 0x28, 0, 0], ParseFault::FingerprintLength),
    ([0x80, 0x29, 0, 0], ParseFault::ControlledLength),
    ([0x80, 0x2a, 0, 0], ParseFault::ControllingLength),
];

#[test]
fn lengths_of_values(rt: HostRuntime) {
    for (attribute, fault) in &LENGTHS {
        assert!(rt; fault_with(FAILURE, attribute) == Some(*fault));
    }
    let use_candidate = [0x00, 0x25, 0, 1, 0, 0, 0, 0];
    assert!(rt; fault_with(FAILURE, &use_candidate) == Some(ParseFault::UseCandidateLength));
}
/// Attributes whose value is wrong.
static VALUES: [([u8; 8], ParseFault); 4] = [
    ([0x00, 0x09, 0, 4, 0, 0, 8, 0], ParseFault::ErrorCodeTop),
    ([0x00, 0x09, 0, 4, 0, 0, 2, 0], ParseFault::ErrorClass),
    (
        [0x00, 0x0c, 0, 4, 0x3f, 0xff, 0, 0],
        ParseFault::ChannelRange,
    ),
    ([0x00, 0x06, 0, 1, 0xff, 0, 0, 0], ParseFault::TextNotUtf8),
];

#[test]
fn values(rt: HostRuntime) {
    for (attribute, fault) in &VALUES {
        assert!(rt; fault_with(FAILURE, attribute) == Some(*fault));
    }
    let mut username = [b'a'; 520];
    username[..4].copy_from_slice(&[0x00, 0x06, 0x02, 0x02]);
    assert!(rt; fault_with(FAILURE, &username) == Some(ParseFault::TextTooLong));
}

/// An address is read within its attribute: a short one does not take bytes from what follows it.
#[test]
fn addresses(rt: HostRuntime) {
    let before_another = [
        0x00, 0x20, 0, 4, 0x00, 0x01, 0xa1, 0x47, 0x00, 0x0d, 0, 4, 0, 0, 0, 1,
    ];
    assert!(rt; fault_with(FAILURE, &before_another) == Some(ParseFault::XorAddress));
    let family_of_3 = [
        0x00, 0x20, 0, 8, 0x00, 0x03, 0x11, 0x22, 0xaa, 0xbb, 0xcc, 0xdd,
    ];
    assert!(rt; fault_with(FAILURE, &family_of_3) == Some(ParseFault::XorAddress));
}

#[test]
fn demands(rt: HostRuntime) {
    assert!(rt;
        fault_with(SUCCESS, &[]) == Some(ParseFault::NoIntegrityReply)
            && fault_with(SUCCESS, &INTEGRITY) == Some(ParseFault::NoMappedAddress)
            && fault_with(REQUEST, &[]) == Some(ParseFault::NoIntegrityRequest)
            && fault_with(REQUEST, &INTEGRITY) == Some(ParseFault::NoUsername)
    );
    let mut request = [0; 32];
    request[..8].copy_from_slice(&[0x00, 0x06, 0, 2, b':', b'a', 0, 0]);
    request[8..].copy_from_slice(&INTEGRITY);
    assert!(rt; fault_with(REQUEST, &request) == Some(ParseFault::NoPriority));
}
