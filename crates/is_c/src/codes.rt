//! The return codes of the exports.

ghost use Rattle.std.specs.Prelude.{◌≡◌};
ghost use Rattle.is_c_calls.specs.Codes as code;

use is_agent::Rejection;
use is_proto::IceError;

/// Done. Of a poll: there was something to return. Of a packet: it was accepted.
pub const OK: i32 = 0;
/// Nothing to return; the packet was not accepted; the candidate was not added, or the agent does not have it.
pub const NOTHING: i32 = 1;
/// The remote candidate was ignored: it is of another component than 1.
pub const OTHER_COMPONENT: i32 = 2;
/// The remote candidate was ignored: it is of another username fragment than the peer's.
pub const OTHER_UFRAG: i32 = 3;
/// A datagram is rejected: see `Rejection`, for this and the codes below.
pub const REJECTED_METHOD: i32 = 4;

pub const REJECTED_CLASS: i32 = 5;

pub const REJECTED_LOCAL_UFRAG: i32 = 6;

pub const REJECTED_REMOTE_UFRAG: i32 = 7;

pub const REJECTED_LOCAL_PASSWORD: i32 = 8;

pub const REJECTED_NO_CHECK: i32 = 9;

pub const REJECTED_PATH: i32 = 10;

pub const REJECTED_REMOTE_PASSWORD: i32 = 11;
/// An accepted request gets no response: see `Unserved`, for this and the codes below.
pub const UNSERVED_EARLY: i32 = 12;

pub const UNSERVED_DESTINATION: i32 = 13;

pub const UNSERVED_USE_CANDIDATE: i32 = 14;

pub const UNSERVED_SENDER: i32 = 15;

pub const UNSERVED_LIMIT: i32 = 16;

pub const UNSERVED_LOCAL: i32 = 17;
/// The relayed address is gone, or no packet goes from it to this peer.
pub const NO_RELAY: i32 = 18;
/// The slot holds no agent.
pub const NO_AGENT: i32 = -1;
/// The slot holds an agent already.
pub const HAS_AGENT: i32 = -2;
/// A text is not UTF-8.
pub const NOT_UTF8: i32 = -3;
/// An address family is neither 4 nor 6, or a protocol or a kind has no such number.
pub const BAD_ADDRESS: i32 = -4;
/// The bytes are no STUN message.
pub const UNPARSED: i32 = -5;
/// The buffer is too short; the required length was returned.
pub const BUFFER_TOO_SHORT: i32 = -6;
/// See `IceError`, for this and the codes below.
pub const OUT_OF_MEMORY: i32 = -7;

pub const BAD_CANDIDATE: i32 = -8;

pub const PAIR_IDS_EXHAUSTED: i32 = -9;

pub const MTU_TOO_SMALL: i32 = -10;

pub const CREDENTIALS_TOO_LONG: i32 = -11;

pub const PRIORITY_TOO_HIGH: i32 = -12;
/// A limit of no retransmits.
pub const BAD_LIMIT: i32 = -13;
/// Fewer random bytes than the call may use.
pub const TOO_FEW_RANDOM_BYTES: i32 = -14;
/// A STUN message that cannot be written: see `is_ice_stun_write`, for this and the code below.
pub const BAD_MESSAGE: i32 = -15;

pub const MESSAGE_TOO_LONG: i32 = -16;
/// As many candidates of the side are listed as its limit allows.
pub const TOO_MANY_CANDIDATES: i32 = -17;
/// See `IceError`.
pub const LITE_STAYS_CONTROLLED: i32 = -18;
/// The text is not the URL of a STUN or TURN server, or is one of TURN over DTLS.
pub const BAD_URL: i32 = -19;
/// The slot holds no clients of servers.
pub const NO_SERVERS: i32 = -20;
/// The slot holds clients of servers already.
pub const HAS_SERVERS: i32 = -21;

pub(crate) fn code_of(error: &IceError) -> i32
    ensures { result ≡ code.code_of error.now }
{
    match error {
        IceError::BadCandidate(_) => BAD_CANDIDATE,
        IceError::OutOfMemory => OUT_OF_MEMORY,
        IceError::PairIdsExhausted => PAIR_IDS_EXHAUSTED,
        IceError::MtuTooSmall => MTU_TOO_SMALL,
        IceError::CredentialsTooLong => CREDENTIALS_TOO_LONG,
        IceError::PriorityTooHigh => PRIORITY_TOO_HIGH,
        IceError::LiteStaysControlled => LITE_STAYS_CONTROLLED,
    }
}

/// The code of a call that succeeds or fails.
pub(crate) fn done_code(outcome: Result<(), IceError>) -> i32
    ensures { result ≡ code.done_code outcome }
{
    match outcome {
        Ok(()) => OK,
        Err(error) => code_of(&error),
    }
}

/// The code of a call that returns yes or no.
pub(crate) fn flag_code(outcome: Result<bool, IceError>) -> i32
    ensures { result ≡ code.flag_code outcome }
{
    match outcome {
        Ok(true) => OK,
        Ok(false) => NOTHING,
        Err(error) => code_of(&error),
    }
}

/// The code of a query, or of a candidate that is looked up.
pub(crate) fn found_code(found: bool) -> i32
    ensures { result ≡ code.found_code found }
{
    if found { OK } else { NOTHING }
}

/// The code of the reason for which a message is rejected, if it is.
pub(crate) fn rejection_code(why: Option<Rejection>) -> i32
    ensures { result ≡ code.rejection_code why }
{
    match why {
        None => OK,
        Some(Rejection::OtherMethod) => REJECTED_METHOD,
        Some(Rejection::OtherClass) => REJECTED_CLASS,
        Some(Rejection::OtherLocalUfrag) => REJECTED_LOCAL_UFRAG,
        Some(Rejection::OtherRemoteUfrag) => REJECTED_REMOTE_UFRAG,
        Some(Rejection::OtherLocalPassword) => REJECTED_LOCAL_PASSWORD,
        Some(Rejection::NoPendingCheck) => REJECTED_NO_CHECK,
        Some(Rejection::OtherPath) => REJECTED_PATH,
        Some(Rejection::OtherRemotePassword) => REJECTED_REMOTE_PASSWORD,
    }
}
