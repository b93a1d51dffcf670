//! The header of a message: class, method, length, magic cookie (RFC 8489, section 5).

ghost use Rattle.std.specs.Prelude.{◌≡◌, ◌≤◌, ◌<◌, ◌^◌, ◌+◌, None, length};

use crate::numbers::{HEADER_LEN, MAGIC};
use is_proto::ParseFault;

/// The class of a message (RFC 8489, section 5).
#[derive(Clone, Copy, Debug, PartialEq, Eq)]
pub enum Class {
    Request,
    Indication,
    /// A success response.
    Success,
    /// An error response.
    Failure,
    /// A class that `parse` never returns. It is written as a request.
    Unknown,
}

impl Class {
    ghost use Rattle.is_stun.specs.Header.{class_of, class_bits};

    pub(crate) fn to_u16(self) -> u16
        ensures { result ≡ class_bits self }
    {
        match self {
            Class::Request | Class::Unknown => 0x0000,
            Class::Indication => 0x0010,
            Class::Success => 0x0100,
            Class::Failure => 0x0110,
        }
    }

    pub(crate) fn from_typ(typ: u16) -> Class
        ensures { result ≡ class_of typ }
    {
        match typ & 0x0110 {
            0x0000 => Class::Request,
            0x0010 => Class::Indication,
            0x0100 => Class::Success,
            _ => Class::Failure,
        }
    }
}

/// The method of a message: STUN's Binding (RFC 8489, section 18.2), and TURN's methods (RFC 8656, section 17).
#[derive(Clone, Copy, Debug, PartialEq, Eq)]
pub enum Method {
    Binding,
    Allocate,
    Refresh,
    Send,
    Data,
    CreatePermission,
    ChannelBind,
    /// All other methods. A message with this one can't be written.
    Unknown,
}

impl Method {
    ghost use Rattle.is_stun.specs.Header.{method_of, method_bits};

    pub(crate) fn to_u16(self) -> u16
        ensures { result ≡ method_bits self }
    {
        match self {
            Method::Binding => 1,
            Method::Allocate => 3,
            Method::Refresh => 4,
            Method::Send => 6,
            Method::Data => 7,
            Method::CreatePermission => 8,
            Method::ChannelBind => 9,
            Method::Unknown => 0,
        }
    }

    pub(crate) fn from_typ(typ: u16) -> Method
        ensures { result ≡ method_of typ }
    {
        match typ & 0x3EEF {
            1 => Method::Binding,
            3 => Method::Allocate,
            4 => Method::Refresh,
            6 => Method::Send,
            7 => Method::Data,
            8 => Method::CreatePermission,
            9 => Method::ChannelBind,
            _ => Method::Unknown,
        }
    }
}

ghost use Rattle.is_stun.specs.Header.{header_fault, body_of};

/// Returns the first fault of the header, if there is one.
#[tactic(auto, unfolding(crate::specs::Header::header_fault))]
pub(crate) fn header_fault(buf: &[u8]) -> Option<ParseFault>
    ensures fault { result ≡ header_fault buf.now }
    ensures whole { result ≡ None → (20 ≤ length buf.now) × (length buf.now < 2 ^ 16 + 20) }
{
    if buf.len() < 4 {
        return Some(ParseFault::TooShort);
    }
    let len = u16::from_be_bytes([buf[2], buf[3]]) as usize;
    if len % 4 != 0 {
        return Some(ParseFault::LengthUneven);
    }
    if len + HEADER_LEN != buf.len() {
        return Some(ParseFault::LengthMismatch);
    }
    if u32::from_be_bytes([buf[4], buf[5], buf[6], buf[7]]) != MAGIC {
        return Some(ParseFault::Magic);
    }
    None
}

/// Returns the bytes after the header.
pub(crate) fn body_of(buf: &[u8]) -> &[u8]
    requires { 20 ≤ length buf.now }
    ensures bytes { result.now ≡ body_of buf.now }
    ensures len { length result.now + 20 ≡ length buf.now }
{
    &buf[HEADER_LEN..]
}
