//! Whose request a message is: by its USERNAME one socket serves many agents (RFC 8445, section 7.2.2).

ghost use Rattle.std.specs.Prelude.{◌≡◌};
ghost use Rattle.is_stun.specs.Message.{split_at_colon, split_username};
ghost use Rattle.is_stun.specs.MessageView.{message_view};
ghost use Rattle.is_c.specs.StunNames.{PutsName, PutsParts, ReturnsParts};
ghost use Rattle.is_c.specs.StunRead.{ReturnsMessage};

use crate::codes;
use crate::text::put;
use is_stun::stun::{Builder, StunMessage, TransId};

fn put_name(
    message: &StunMessage<'_>,
    buffer: &mut [u8],
    length: &mut usize,
    receiver: &mut usize,
) -> i32
    ensures { PutsName (message_view message.now).attributes.username (split_username (message_view message.now).attributes)
        buffer.old length.old receiver.old result buffer.new length.new receiver.new }
{
    match (message.username(), message.split_username()) {
        (Some(name), Some((first, _))) => {
            *receiver = first.len();
            put(name.as_bytes(), buffer, length)
        }
        _ => codes::NOTHING,
    }
}

/// Writes the USERNAME of a message to the buffer, and to `receiver` the length of its part before the first colon. In a Binding
/// request that part is the receiver's username fragment, and what follows the colon is the sender's.
#[unsafe(no_mangle)]
pub extern "C" fn is_ice_stun_username(
    bytes: &[u8],
    buffer: &mut [u8],
    length: &mut usize,
    receiver: &mut usize,
) -> i32
    ensures { ReturnsMessage bytes.now
        (λ m code. PutsName m.attributes.username (split_username m.attributes) buffer.old length.old receiver.old
        code buffer.new length.new receiver.new)
        ((buffer.new ≡ buffer.old) × (length.new ≡ length.old) × (receiver.new ≡ receiver.old)) result }
{
    match StunMessage::parse_any(bytes) {
        Ok(message) => put_name(&message, buffer, length, receiver),
        Err(_) => codes::UNPARSED,
    }
}

/// A message with only this USERNAME.
fn message_to(name: &str) -> StunMessage<'_>
    ensures { split_username (message_view result).attributes ≡ split_at_colon name.now }
{
    Builder::new()
        .binding()
        .request()
        .username(name)
        .build(TransId([0; 12]))
}

fn put_parts(name: &str, receiver: &mut usize) -> i32
    ensures { PutsParts (split_at_colon name.now) receiver.old result receiver.new }
{
    match message_to(name).split_username() {
        Some((first, _)) => {
            *receiver = first.len();
            codes::OK
        }
        None => codes::NOTHING,
    }
}

/// Writes the length of the part of a USERNAME before the first colon to `receiver`. NOTHING: it has no colon, or nothing after it.
#[unsafe(no_mangle)]
pub extern "C" fn is_ice_username_parts(username: &[u8], receiver: &mut usize) -> i32
    ensures { ReturnsParts username.now receiver.old result receiver.new }
{
    match std::str::from_utf8(username) {
        Ok(name) => put_parts(name, receiver),
        Err(_) => codes::NOT_UTF8,
    }
}
