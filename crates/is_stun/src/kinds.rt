//! The kinds of attribute values, and the faults that they can have (RFC 8489, section 14).

ghost use Rattle.std.specs.Prelude.{◌≡◌, ◌≤◌, length, drop, Some, None, OnOk, IfErr};
ghost use Rattle.std.specs.Result.{result_ok};
ghost use Rattle.std.specs.Int.{w32, w64};
ghost use Rattle.is_stun.specs.Kinds.{text, number, bytes_of_len, error_code, channel_number, network_cost, nomination, fault_in};
ghost use Rattle.is_stun.specs.ErrorCodeView.{error_view};
ghost use Rattle.is_stun.specs.Gives.{Gives};

use crate::numbers::TEXT_LIMIT;
use is_proto::ParseFault;
use std::str;

pub(crate) fn text(limit: usize, value: &[u8]) -> Result<&str, ParseFault>
    ensures { Gives (λ x. x.now) result (text limit value.now) }
{
    if value.len() > limit {
        return Err(ParseFault::TextTooLong);
    }
    match str::from_utf8(value) {
        Ok(text) => Ok(text),
        Err(_) => Err(ParseFault::TextNotUtf8),
    }
}

pub(crate) fn number32(value: &[u8], fault: ParseFault) -> Result<u32, ParseFault>
    ensures { result ≡ number w32 fault value.now }
{
    match value {
        [a, b, c, d] => Ok(u32::from_be_bytes([*a, *b, *c, *d])),
        _ => Err(fault),
    }
}

pub(crate) fn number64(value: &[u8], fault: ParseFault) -> Result<u64, ParseFault>
    ensures { result ≡ number w64 fault value.now }
{
    match value {
        [a, b, c, d, e, f, g, h] => Ok(u64::from_be_bytes([*a, *b, *c, *d, *e, *f, *g, *h])),
        _ => Err(fault),
    }
}

pub(crate) fn bytes_of_len(len: usize, value: &[u8], fault: ParseFault) -> Result<&[u8], ParseFault>
    ensures { Gives (λ x. x.now) result (bytes_of_len len fault value.now) }
{
    if value.len() == len {
        Ok(value)
    } else {
        Err(fault)
    }
}

/// Returns the bytes after the first four of ERROR-CODE.
fn after_code(value: &[u8]) -> &[u8]
    requires { 4 ≤ length value.now }
    ensures { result.now ≡ drop 4 value.now }
{
    &value[4..]
}

/// Stores a code of 300 to 699 and its reason (RFC 8489, section 14.8).
#[tactic(auto, unfolding(crate::specs::Kinds::error_code))]
pub(crate) fn keep_error_code<'a>(
    place: &mut Option<(u16, &'a str)>,
    value: &'a [u8],
) -> Result<(), ParseFault>
    ensures kept { OnOk result (error_view place.new ≡ result_ok (error_code value.now)) }
    ensures faultless { OnOk result (fault_in (error_code value.now) ≡ None) }
    ensures fault { IfErr result (λ f. fault_in (error_code value.now) ≡ Some f) }
{
    if value.len() < 4 {
        return Err(ParseFault::ErrorCodeLength);
    }
    let class = value[2];
    if !(value[0] == 0 && value[1] == 0 && class / 8 == 0) {
        return Err(ParseFault::ErrorCodeTop);
    }
    if class < 3 || class > 6 {
        return Err(ParseFault::ErrorClass);
    }
    match text(TEXT_LIMIT, after_code(value)) {
        Ok(reason) => {
            *place = Some((100 * u16::from(class) + u16::from(value[3] % 100), reason));
            Ok(())
        }
        Err(fault) => Err(fault),
    }
}

/// Reads a channel number from the first two of four bytes (RFC 8656, section 18.1).
#[tactic(auto, unfolding(crate::specs::Kinds::channel_number))]
pub(crate) fn channel_number(value: &[u8]) -> Result<u16, ParseFault>
    ensures { result ≡ channel_number value.now }
{
    if value.len() != 4 {
        return Err(ParseFault::ChannelLength);
    }
    let number = u16::from_be_bytes([value[0], value[1]]);
    if number < 0x4000 || number > 0x7FFF {
        return Err(ParseFault::ChannelRange);
    }
    Ok(number)
}

/// Reads the ID of a network and its cost from four bytes.
#[tactic(auto, unfolding(crate::specs::Kinds::network_cost))]
pub(crate) fn network_cost(value: &[u8]) -> Option<(u16, u16)>
    ensures { result ≡ network_cost value.now }
{
    if value.len() != 4 {
        return None;
    }
    let network = u16::from_be_bytes([value[0], value[1]]);
    let cost = u16::from_be_bytes([value[2], value[3]]);
    Some((network, cost))
}

/// Reads the number of a nomination from four bytes.
#[tactic(auto, unfolding(crate::specs::Kinds::nomination))]
pub(crate) fn nomination(value: &[u8]) -> Option<u32>
    ensures { result ≡ nomination value.now }
{
    match value {
        [a, b, c, d] => Some(u32::from_be_bytes([*a, *b, *c, *d])),
        _ => None,
    }
}
