//! Every text of every fault and error.

use super::is_text;
use is_proto::{IceError, ParseFault, StunError};
use std::alloc::Global;
use std::test::Fail;

/// Each fault of bytes, and its text.
static FAULTS: [(ParseFault, &str); 25] = [
    (ParseFault::TooShort, "Buffer too short"),
    (ParseFault::LengthUneven, "len is not a multiple of 4"),
    (
        ParseFault::LengthMismatch,
        "STUN length vs UDP packet mismatch",
    ),
    (ParseFault::Magic, "magic cookie mismatch"),
    (ParseFault::AttributeLength, "Bad STUN attribute length"),
    (
        ParseFault::IntegrityLength,
        "Expected message integrity to have length 20",
    ),
    (
        ParseFault::ErrorCodeLength,
        "Error code length must be at least 4",
    ),
    (ParseFault::ErrorCodeTop, "Expected 0 at top of error code"),
    (ParseFault::ErrorClass, "Error class is not in range"),
    (
        ParseFault::ChannelLength,
        "Channel number that isn't 4 in length",
    ),
    (
        ParseFault::ChannelRange,
        "Channel number is not in valid range 0x4000-0x7FFF",
    ),
    (
        ParseFault::LifetimeLength,
        "Lifetime that isn't 4 in length",
    ),
    (ParseFault::PriorityLength, "Priority that isnt 4 in length"),
    (
        ParseFault::UseCandidateLength,
        "UseCandidate that isnt 0 in length",
    ),
    (
        ParseFault::FingerprintLength,
        "Fingerprint length must be 4",
    ),
    (
        ParseFault::ControlledLength,
        "IceControlled that isnt 8 in length",
    ),
    (
        ParseFault::ControllingLength,
        "IceControlling that isnt 8 in length",
    ),
    (
        ParseFault::XorAddress,
        "Unknown IP version or insufficient buffer length for it",
    ),
    (ParseFault::TextTooLong, "too long str len"),
    (ParseFault::TextNotUtf8, "malformed utf-8"),
    (
        ParseFault::NoIntegrityReply,
        "No message integrity in incoming STUN binding reply",
    ),
    (
        ParseFault::NoMappedAddress,
        "STUN packet missing mapped addr",
    ),
    (
        ParseFault::NoIntegrityRequest,
        "No message integrity in incoming STUN binding request",
    ),
    (ParseFault::NoUsername, "STUN packet missing username"),
    (ParseFault::NoPriority, "STUN packet missing priority"),
];

#[test]
fn faults_of_bytes(rt: HostRuntime) {
    for (fault, text) in &FAULTS {
        assert!(rt; is_text(fault.to_string(rt.alloc()), text));
    }
}

/// Errors of messages, and their texts.
static MESSAGE_ERRORS: [(StunError, &str); 6] = [
    (
        StunError::Parse(ParseFault::Magic),
        "STUN parse error: magic cookie mismatch",
    ),
    (StunError::BufferTooShort, "STUN buffer too short"),
    (StunError::ValueTooLong, "STUN value too long"),
    (StunError::MessageTooLong, "STUN message too long"),
    (
        StunError::BadErrorCode,
        "STUN error code outside 300 to 699",
    ),
    (StunError::UnknownMethod, "STUN method unknown"),
];

#[test]
fn errors_of_messages(rt: HostRuntime) {
    for (error, text) in &MESSAGE_ERRORS {
        assert!(rt; is_text(error.to_string(rt.alloc()), text));
    }
}

/// Errors of calls, and their texts.
const CALL_ERRORS: [(IceError, &str); 6] = [
    (IceError::OutOfMemory, "out of memory"),
    (IceError::PairIdsExhausted, "pair ids exhausted"),
    (IceError::MtuTooSmall, "MTU target too small"),
    (IceError::CredentialsTooLong, "ICE credentials too long"),
    (IceError::PriorityTooHigh, "candidate priority too high"),
    (IceError::LiteStaysControlled, "lite agent stays controlled"),
];

/// Whether each of the errors has its text.
fn are_texts(alloc: Global, errors: &[(IceError, &str)]) -> bool {
    for (error, text) in errors {
        if !is_text(error.to_string(alloc), text) {
            return false;
        }
    }
    true
}

#[test]
fn errors_of_calls(rt: HostRuntime) {
    assert!(rt; are_texts(rt.alloc(), &CALL_ERRORS));
}

#[test]
fn an_error_names_its_candidate(rt: HostRuntime) -> Result<(), Fail> {
    let candidate = IceError::BadCandidate(String::from_str(rt.alloc(), "invalid ip 0.0.0.0")?);
    let text = "ICE bad candidate: invalid ip 0.0.0.0";
    assert!(rt; is_text(candidate.to_string(rt.alloc()), text));
    Ok(())
}
