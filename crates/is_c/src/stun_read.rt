//! STUN messages as C reads them (RFC 8489; RFC 8656 for TURN).

ghost use Rattle.std.specs.Prelude.{◌≡◌, ◌≤◌, length};
ghost use Rattle.std.specs.Option.{option_copied, option_map};
ghost use Rattle.is_stun.specs.ErrorCodeView.{error_view};
ghost use Rattle.is_stun.specs.MessageView.{message_view};
ghost use Rattle.is_c_calls.specs.Codes.{found_code};
ghost use Rattle.is_c.specs.StunRead.{has_cookie, begins_as_stun, text_of, PutsText, ReturnsMessage};

use crate::codes;
use crate::text::put;
use is_stun::stun::StunMessage;

// ---- which datagrams are STUN, and not media on the same socket (RFC 7983)

/// The length of a header.
const HEADER_LEN: usize = 20;

/// The bytes that have one of the two top bits are from here on.
const TOP_BITS: u8 = 64;

/// Whether the fifth to eighth bytes are the magic cookie.
fn has_cookie(bytes: &[u8]) -> bool
    requires { 20 ≤ length bytes.now }
    ensures { result ≡ has_cookie bytes.now }
{
    bytes[4] == 0x21 && bytes[5] == 0x12 && bytes[6] == 0xa4 && bytes[7] == 0x42
}

fn begins_as_stun(bytes: &[u8]) -> bool
    ensures { result ≡ begins_as_stun bytes.now }
{
    bytes.len() >= HEADER_LEN && bytes[0] < TOP_BITS && has_cookie(bytes)
}

/// Whether a datagram begins as a STUN message (RFC 8489, section 5): the two top bits are 0, and the magic cookie is there. NOTHING: it
/// does not.
#[unsafe(no_mangle)]
pub extern "C" fn is_ice_is_stun(bytes: &[u8]) -> i32
    ensures { result ≡ found_code (begins_as_stun bytes.now) }
{
    codes::found_code(begins_as_stun(bytes))
}

// ---- texts, by the type of their attribute

const USERNAME: u16 = 0x0006;

const ERROR_CODE: u16 = 0x0009;

const DATA: u16 = 0x0013;

const REALM: u16 = 0x0014;

const NONCE: u16 = 0x0015;

const SOFTWARE: u16 = 0x0022;

fn bytes_of(text: Option<&str>) -> Option<&[u8]>
    ensures { option_copied result ≡ option_copied text.entry }
{
    Some(text?.as_bytes())
}

fn reason_of(error: Option<(u16, &str)>) -> Option<&[u8]>
    ensures { option_copied result ≡ option_map (λ e. e.1) (error_view error.entry) }
{
    Some(error?.1.as_bytes())
}

fn text_of<'a>(attribute: u16, message: &StunMessage<'a>) -> Option<&'a [u8]>
    ensures { option_copied result ≡ text_of attribute (message_view message.now).attributes }
{
    match attribute {
        USERNAME => bytes_of(message.username()),
        ERROR_CODE => reason_of(message.error_code()),
        DATA => message.data(),
        REALM => bytes_of(message.realm()),
        NONCE => bytes_of(message.nonce()),
        SOFTWARE => bytes_of(message.software()),
        _ => None,
    }
}

fn put_text(attribute: u16, message: &StunMessage<'_>, buffer: &mut [u8], length: &mut usize) -> i32
    ensures { PutsText (text_of attribute (message_view message.now).attributes) buffer.old length.old result buffer.new length.new }
{
    match text_of(attribute, message) {
        Some(text) => put(text, buffer, length),
        None => codes::NOTHING,
    }
}

/// Writes the text of an attribute to the buffer: USERNAME, the reason phrase of ERROR-CODE, DATA, REALM, NONCE or SOFTWARE, by
/// its type. NOTHING: the message does not have it.
#[unsafe(no_mangle)]
pub extern "C" fn is_ice_stun_text(
    attribute: u16,
    bytes: &[u8],
    buffer: &mut [u8],
    length: &mut usize,
) -> i32
    ensures { ReturnsMessage bytes.now
        (λ m code. PutsText (text_of attribute m.attributes) buffer.old length.old code buffer.new length.new)
        ((buffer.new ≡ buffer.old) × (length.new ≡ length.old)) result }
{
    match StunMessage::parse_any(bytes) {
        Ok(message) => put_text(attribute, &message, buffer, length),
        Err(_) => codes::UNPARSED,
    }
}
