//! Errors: why a message can't be parsed or written, and why a call of the agent fails.

ghost use Rattle.std.specs.Prelude.{◌≡◌, Some};
ghost use Rattle.is_proto.specs.Errors.{parse_fault_text, stun_error_text, ice_error_text};
ghost use Rattle.is_proto.specs.declared.error.IceError.TheVariants.{OutOfMemory};

use std::alloc::{AllocError, AllocFailed};
use std::error::Error;
use std::fmt;

/// What is wrong with the bytes of a STUN message: the first fault that applies (RFC 8489, sections 5 and 14).
#[derive(Clone, Copy, Debug, PartialEq, Eq)]
pub enum ParseFault {
    /// There are fewer than 4 bytes: the message type and the length are missing.
    TooShort,
    /// The length in the header is no multiple of 4.
    LengthUneven,
    /// The number of bytes differs from the header's 20 bytes plus the length in the header.
    LengthMismatch,
    /// The magic cookie is wrong.
    Magic,
    /// An attribute is longer than the rest of the message.
    AttributeLength,
    /// MESSAGE-INTEGRITY is not 20 bytes long.
    IntegrityLength,
    /// ERROR-CODE is shorter than 4 bytes.
    ErrorCodeLength,
    /// The reserved bits of ERROR-CODE are not zero.
    ErrorCodeTop,
    /// The class of ERROR-CODE is not 3 to 6.
    ErrorClass,
    /// CHANNEL-NUMBER is not 4 bytes long.
    ChannelLength,
    /// The channel number is outside 0x4000 to 0x7FFF.
    ChannelRange,
    /// LIFETIME is not 4 bytes long.
    LifetimeLength,
    /// PRIORITY is not 4 bytes long.
    PriorityLength,
    /// USE-CANDIDATE is not empty.
    UseCandidateLength,
    /// FINGERPRINT is not 4 bytes long.
    FingerprintLength,
    /// ICE-CONTROLLED is not 8 bytes long.
    ControlledLength,
    /// ICE-CONTROLLING is not 8 bytes long.
    ControllingLength,
    /// An XOR address has an unknown family, or is too short for its family.
    XorAddress,
    /// A text is longer than its attribute allows.
    TextTooLong,
    /// A text is not UTF-8.
    TextNotUtf8,
    /// A Binding success response has no MESSAGE-INTEGRITY.
    NoIntegrityReply,
    /// A Binding success response has no XOR-MAPPED-ADDRESS.
    NoMappedAddress,
    /// A Binding request has no MESSAGE-INTEGRITY.
    NoIntegrityRequest,
    /// A Binding request has no USERNAME, or its USERNAME has no colon, or nothing after its colon.
    NoUsername,
    /// A Binding request has no PRIORITY.
    NoPriority,
}

impl fmt::Display for ParseFault {
    ghost output = { λ f. Some (parse_fault_text f) };

    fn fmt<W: fmt::Write>(&self, f: &mut fmt::Formatter<W>) -> fmt::Result {
        f.write_str(match self {
            ParseFault::TooShort => "Buffer too short",
            ParseFault::LengthUneven => "len is not a multiple of 4",
            ParseFault::LengthMismatch => "STUN length vs UDP packet mismatch",
            ParseFault::Magic => "magic cookie mismatch",
            ParseFault::AttributeLength => "Bad STUN attribute length",
            ParseFault::IntegrityLength => "Expected message integrity to have length 20",
            ParseFault::ErrorCodeLength => "Error code length must be at least 4",
            ParseFault::ErrorCodeTop => "Expected 0 at top of error code",
            ParseFault::ErrorClass => "Error class is not in range",
            ParseFault::ChannelLength => "Channel number that isn't 4 in length",
            ParseFault::ChannelRange => "Channel number is not in valid range 0x4000-0x7FFF",
            ParseFault::LifetimeLength => "Lifetime that isn't 4 in length",
            ParseFault::PriorityLength => "Priority that isnt 4 in length",
            ParseFault::UseCandidateLength => "UseCandidate that isnt 0 in length",
            ParseFault::FingerprintLength => "Fingerprint length must be 4",
            ParseFault::ControlledLength => "IceControlled that isnt 8 in length",
            ParseFault::ControllingLength => "IceControlling that isnt 8 in length",
            ParseFault::XorAddress => "Unknown IP version or insufficient buffer length for it",
            ParseFault::TextTooLong => "too long str len",
            ParseFault::TextNotUtf8 => "malformed utf-8",
            ParseFault::NoIntegrityReply => "No message integrity in incoming STUN binding reply",
            ParseFault::NoMappedAddress => "STUN packet missing mapped addr",
            ParseFault::NoIntegrityRequest =>
                "No message integrity in incoming STUN binding request",
            ParseFault::NoUsername => "STUN packet missing username",
            ParseFault::NoPriority => "STUN packet missing priority",
        })
    }
}

/// Why a STUN message can't be parsed or written. A write that fails leaves the buffer unchanged. The errors of writing
/// are listed in the order in which they are checked, except `BufferTooShort`, which is checked last.
#[derive(Clone, Copy, Debug, PartialEq, Eq)]
pub enum StunError {
    /// The bytes are no STUN message.
    Parse(ParseFault),
    /// The message does not fit the buffer.
    BufferTooShort,
    /// USERNAME is longer than 508 bytes, another text is longer than 128, or the data is longer than 65535.
    ValueTooLong,
    /// The attributes take more than 65535 bytes in total.
    MessageTooLong,
    /// The error code is outside 300 to 699.
    BadErrorCode,
    /// The method of the message is unknown.
    UnknownMethod,
}

impl fmt::Display for StunError {
    ghost output = { λ e. Some (stun_error_text e) };

    fn fmt<W: fmt::Write>(&self, f: &mut fmt::Formatter<W>) -> fmt::Result {
        match self {
            StunError::Parse(fault) => write!(f, "STUN parse error: {fault}"),
            StunError::BufferTooShort => f.write_str("STUN buffer too short"),
            StunError::ValueTooLong => f.write_str("STUN value too long"),
            StunError::MessageTooLong => f.write_str("STUN message too long"),
            StunError::BadErrorCode => f.write_str("STUN error code outside 300 to 699"),
            StunError::UnknownMethod => f.write_str("STUN method unknown"),
        }
    }
}

impl Error for StunError {}

/// Why a call of the agent, or of a candidate's constructor, fails. A call that fails changes none of the values that
/// it was given by reference.
#[derive(Debug, PartialEq, Eq, Drop)]
pub enum IceError {
    /// The candidate can't be made or read; the string gives the reason.
    BadCandidate(String),
    /// An allocation failed.
    OutOfMemory,
    /// There are fewer unused pair numbers than combinations that the call has to try.
    PairIdsExhausted,
    /// The target MTU is smaller than the longest check without NOMINATION.
    MtuTooSmall,
    /// The local username fragment, a colon and the remote username fragment are longer than a USERNAME may be.
    CredentialsTooLong,
    /// The local candidate has priority 4294967295, for which no pair priority fits 64 bits.
    PriorityTooHigh,
    /// A lite agent that keeps its role can't be made controlling.
    LiteStaysControlled,
}

impl fmt::Display for IceError {
    ghost output = { λ e. Some (ice_error_text e) };

    fn fmt<W: fmt::Write>(&self, f: &mut fmt::Formatter<W>) -> fmt::Result {
        match self {
            IceError::BadCandidate(message) => write!(f, "ICE bad candidate: {message}"),
            IceError::OutOfMemory => f.write_str("out of memory"),
            IceError::PairIdsExhausted => f.write_str("pair ids exhausted"),
            IceError::MtuTooSmall => f.write_str("MTU target too small"),
            IceError::CredentialsTooLong => f.write_str("ICE credentials too long"),
            IceError::PriorityTooHigh => f.write_str("candidate priority too high"),
            IceError::LiteStaysControlled => f.write_str("lite agent stays controlled"),
        }
    }
}

impl Error for IceError {}

impl From<AllocError> for IceError {
    ghost from_gives = { λ _ e. e ≡ OutOfMemory };

    fn from(_e: AllocError) -> IceError {
        IceError::OutOfMemory
    }
}

impl<T: Drop> From<AllocFailed<T>> for IceError {
    ghost from_gives = { λ _ e. e ≡ OutOfMemory };

    fn from(_e: AllocFailed<T>) -> IceError {
        IceError::OutOfMemory
    }
}
