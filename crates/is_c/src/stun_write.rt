//! Writing a STUN message from a flat struct of C and its texts (RFC 8489; RFC 8656 for TURN).

ghost use Rattle.std.specs.Prelude.{◌≡◌, Some, None, MatchOption, MatchResult, true, false, length};
ghost use Rattle.std.specs.Option.{option_copied};
ghost use Rattle.is_proto.specs.Hmac.{hmac_sha1};
ghost use Rattle.is_stun.specs.Builder.{attributes_so_far, method_so_far, kind_so_far};
ghost use Rattle.is_stun.specs.Message.{no_attributes};
ghost use Rattle.is_stun.specs.MessageView.{message_view};
ghost use Rattle.is_stun.specs.Requested.{rejection_with, written_with};
ghost use Rattle.is_stun.specs.Writing.{is_known};
ghost use Rattle.is_c.specs.StunWrite.{method_in, class_in, is_kind, is_above, is_half, has_bad_number, is_bad_family, has_bad_family, write_code, key_if, fault_in, message_in, requested_of, WritesIn, WritesMessage};

use crate::codes;
use crate::stun_fill::filled;
use crate::stun_message::{Message, Number};
use crate::stun_texts::{Texts, words_of};
use is_proto::{DefaultSha1HmacProvider, StunError};
use is_stun::stun::{AddressFamily, Builder, HasClass, HasMethod, Requested, StunMessage, TransId};

// ---- the method and the class

fn with_method<'a>(number: u16) -> Option<Builder<'a, HasMethod>>
    ensures { MatchOption result (is_known (method_in number) ≡ false) (λ b. (is_known (method_in number) ≡ true)
        × (method_so_far b ≡ method_in number) × (attributes_so_far b ≡ no_attributes)) }
{
    let builder = Builder::new();
    match number {
        1 => Some(builder.binding()),
        3 => Some(builder.allocate()),
        4 => Some(builder.refresh()),
        6 => Some(builder.send()),
        7 => Some(builder.data()),
        8 => Some(builder.create_permission()),
        9 => Some(builder.channel_bind()),
        _ => None,
    }
}

fn with_kind<'a>(method: u16, class: u8) -> Option<Builder<'a, HasClass>>
    ensures { MatchOption result (is_kind method class ≡ false) (λ b. (is_kind method class ≡ true)
        × (kind_so_far b ≡ record { method = method_in method; class = class_in class }) × (attributes_so_far b ≡ no_attributes)) }
{
    let builder = with_method(method)?;
    match class {
        0 => Some(builder.request()),
        1 => Some(builder.indication()),
        2 => Some(builder.success()),
        3 => Some(builder.failure()),
        _ => None,
    }
}

// ---- what no attribute can have

fn is_above(limit: u64, number: &Number) -> bool
    ensures { result ≡ is_above limit number.now }
{
    number.is_set && number.value > limit
}

fn is_half(network: bool, cost: bool) -> bool
    ensures { result ≡ is_half network cost }
{
    (network && !cost) || (cost && !network)
}

const MAX_32: u64 = 0xFFFF_FFFF;

const MAX_16: u64 = 0xFFFF;

fn has_bad_number(message: &Message) -> bool
    ensures { result ≡ has_bad_number message.now }
{
    is_above(MAX_32, &message.priority)
        || is_above(MAX_16, &message.error_code)
        || is_above(MAX_32, &message.lifetime)
        || is_above(MAX_16, &message.channel_number)
        || is_above(MAX_16, &message.network_id)
        || is_above(MAX_16, &message.network_cost)
        || is_above(MAX_32, &message.nomination)
        || is_half(message.network_id.is_set, message.network_cost.is_set)
}

fn is_bad_family(family: u8) -> bool
    ensures { result ≡ is_bad_family family }
{
    family != 0 && family != 4 && family != 6
}

fn has_bad_family(message: &Message) -> bool
    ensures { result ≡ has_bad_family message.now }
{
    is_bad_family(message.mapped.family)
        || is_bad_family(message.peer.family)
        || is_bad_family(message.relayed.family)
        || is_bad_family(message.requested_family)
}

// ---- the message

/// The message that the structs mean, or the code that says why they mean none.
#[tactic(auto, using(crate::proofs::WriteLemmas::filled))]
fn draft<'a>(message: &Message, texts: &Texts, bytes: &'a [u8]) -> Result<StunMessage<'a>, i32>
    ensures { MatchResult result
        (λ m. (fault_in message.now texts.now bytes.now ≡ None) × (message_view m ≡ message_in message.now texts.now bytes.now))
        (λ why. fault_in message.now texts.now bytes.now ≡ Some why) }
{
    let Some(builder) = with_kind(message.method, message.class) else {
        return Err(codes::BAD_MESSAGE);
    };
    if has_bad_number(message) {
        return Err(codes::BAD_MESSAGE);
    }
    if has_bad_family(message) {
        return Err(codes::BAD_ADDRESS);
    }
    let words = words_of(bytes, texts)?;
    let builder = filled(builder, message, &words);
    Ok(builder.build(TransId(message.id.bytes)))
}

pub(crate) fn write_code(error: StunError) -> i32
    ensures { result ≡ write_code error }
{
    match error {
        StunError::BufferTooShort => codes::BUFFER_TOO_SHORT,
        StunError::ValueTooLong | StunError::MessageTooLong => codes::MESSAGE_TOO_LONG,
        StunError::BadErrorCode | StunError::UnknownMethod | StunError::Parse(_) =>
            codes::BAD_MESSAGE,
    }
}

fn key_of<'a>(message: &Message, key: &'a [u8]) -> Option<&'a [u8]>
    ensures { option_copied result ≡ key_if message.now.has_integrity key.now }
{
    if message.has_integrity {
        Some(key)
    } else {
        None
    }
}

fn requested_of(message: &Message) -> Requested
    ensures { result ≡ requested_of message.now }
{
    Requested {
        transport: match message.requested_transport {
            0 => None,
            number => Some(number),
        },
        family: match message.requested_family {
            4 => Some(AddressFamily::Ipv4),
            6 => Some(AddressFamily::Ipv6),
            _ => None,
        },
    }
}

#[tactic(auto, using(crate::proofs::WriteLemmas::put_written))]
fn write(
    drafted: StunMessage<'_>,
    requested: &Requested,
    key: Option<&[u8]>,
    buffer: &mut [u8],
    count: &mut usize,
) -> i32
    ensures { WritesIn None (rejection_with (option_copied key.entry) (length buffer.old) (message_view drafted.entry) requested.now)
        (written_with hmac_sha1 (option_copied key.entry) (message_view drafted.entry) requested.now)
        buffer.old count.old result buffer.new count.new }
{
    match drafted.to_bytes_with(requested, key, buffer, &DefaultSha1HmacProvider) {
        Ok(written) => {
            *count = written;
            codes::OK
        }
        Err(error) => write_code(error),
    }
}

/// Writes a message of one of the seven methods: its attributes, what it requests, MESSAGE-INTEGRITY with the key if `has_integrity`
/// is set, and FINGERPRINT (RFC 8489, sections 5 and 14; RFC 8656, section 7.1).
#[unsafe(no_mangle)]
pub extern "C" fn is_ice_stun_write(
    message: &Message,
    texts: &Texts,
    bytes: &[u8],
    key: &[u8],
    buffer: &mut [u8],
    length: &mut usize,
) -> i32
    ensures { WritesMessage message.now texts.now bytes.now key.now buffer.old length.old result buffer.new length.new }
{
    let drafted = match draft(message, texts, bytes) {
        Ok(drafted) => drafted,
        Err(code) => return code,
    };
    write(
        drafted,
        &requested_of(message),
        key_of(message, key),
        buffer,
        length,
    )
}
