//! The value of one attribute, of any type: also of those that `StunMessage` skips.

ghost use Rattle.std.specs.Prelude.{◌≡◌, ◌≤◌, length};
ghost use Rattle.std.specs.Option.{option_copied};
ghost use Rattle.is_stun.specs.Finding.{last_value, value_of};
ghost use Rattle.is_stun.specs.Integrity.{before_integrity};
ghost use Rattle.is_stun.specs.Tlv.{tlvs_of};

use crate::header::body_of;
use crate::numbers::{HEADER_LEN, MESSAGE_INTEGRITY};
use crate::tlv::Tlvs;

fn value_in(body: &[u8], code: u16) -> Option<&[u8]>
    ensures { option_copied result ≡ last_value code (before_integrity (tlvs_of body.now)) }
{
    let mut found = None;
    for tlv in Tlvs::new(body) {
        if tlv.code == MESSAGE_INTEGRITY {
            return found;
        }
        if tlv.code == code {
            found = Some(tlv.value);
        }
    }
    found
}

/// Returns the value of the last attribute of a type before the first MESSAGE-INTEGRITY (RFC 8489, sections 14 and 14.5), in the
/// bytes of a message. What follows MESSAGE-INTEGRITY is not signed, and not found. The bytes are those of a message that parses:
/// in others the value may be shorter than its length field says.
pub fn value_of(bytes: &[u8], code: u16) -> Option<&[u8]>
    ensures { option_copied result ≡ value_of code bytes.now }
{
    if bytes.len() < HEADER_LEN {
        return None;
    }
    value_in(body_of(bytes), code)
}
