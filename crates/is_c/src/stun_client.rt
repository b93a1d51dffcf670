//! A STUN client's messages: a Binding request without credentials, and what its response says (RFC 8489). Whoever sends the
//! request to a server learns a server-reflexive candidate from the response.

ghost use Rattle.std.specs.Prelude.{◌≡◌, None, length};
ghost use Rattle.is_proto.specs.Hmac.{hmac_sha1};
ghost use Rattle.is_stun.specs.MessageView.{message_view};
ghost use Rattle.is_stun.specs.Writing.{written};
ghost use Rattle.is_c.specs.StunClient.{binding_query, said_of, ReturnsSaid, ReturnsResponse};
ghost use Rattle.is_c.specs.StunRead.{ReturnsMessage};
ghost use Rattle.is_c_calls.specs.Texts.{Puts};

use crate::address::address_of;
use crate::codes;
use is_c_calls::Address;
use is_proto::DefaultSha1HmacProvider;
use is_stun::stun::{Builder, Class, Method, StunMessage, TransId};

/// A transaction ID: 12 bytes that the client chose at random (RFC 8489, section 5).
#[repr(C)]
#[derive(Clone, Copy)]
pub struct Transaction {
    pub bytes: [u8; 12],
}

/// What a response to a Binding request says.
#[repr(C)]
#[derive(Clone, Copy)]
pub struct Response {
    /// Of a success response: the address from which the server received the request.
    pub mapped: Address,
    /// Of an error response: its code, 300 to 699. Of a success response: 0.
    pub error_code: u16,
}

fn request_of(id: &Transaction) -> StunMessage<'_>
    ensures message { message_view result ≡ binding_query id.now.bytes }
    ensures id { length id.now.bytes ≡ 12 }
{
    Builder::new().binding().request().build(TransId(id.bytes))
}

/// The header and FINGERPRINT (RFC 8489, sections 5 and 14.7).
const REQUEST_LEN: usize = 28;

/// Writes a Binding request without credentials to the front of the buffer.
#[unsafe(no_mangle)]
pub extern "C" fn is_ice_stun_request(
    id: &Transaction,
    buffer: &mut [u8],
    length: &mut usize,
) -> i32
    ensures { Puts (written hmac_sha1 None (binding_query id.now.bytes))
        buffer.old result buffer.new length.new }
{
    *length = REQUEST_LEN;
    match request_of(id).to_bytes(None, buffer, &DefaultSha1HmacProvider) {
        Ok(_) => codes::OK,
        Err(_) => codes::BUFFER_TOO_SHORT,
    }
}

fn report_on(message: &StunMessage<'_>, response: &mut Response) -> i32
    ensures { ReturnsSaid (said_of (message_view message.now).method (message_view message.now).class (message_view message.now).attributes)
        response.old result response.new }
{
    match (message.method(), message.class()) {
        (Method::Binding, Class::Success) => {
            let Some(mapped) = message.mapped_address() else {
                return codes::NOTHING;
            };
            response.mapped = address_of(mapped);
            response.error_code = 0;
            codes::OK
        }
        (Method::Binding, Class::Failure) => {
            let Some((code, _)) = message.error_code() else {
                return codes::NOTHING;
            };
            response.error_code = code;
            codes::OK
        }
        _ => codes::NOTHING,
    }
}

fn return_of(id: &Transaction, message: &StunMessage<'_>, response: &mut Response) -> i32
    ensures { ReturnsResponse id.now.bytes (message_view message.now) response.old result response.new }
{
    if message.trans_id().0 == id.bytes {
        report_on(message, response)
    } else {
        codes::NOTHING
    }
}

/// Reads the response to the Binding request with this transaction ID. NOTHING: the message is not that response, or does not
/// have what the response says.
#[unsafe(no_mangle)]
pub extern "C" fn is_ice_stun_response(
    id: &Transaction,
    bytes: &[u8],
    response: &mut Response,
) -> i32
    ensures { ReturnsMessage bytes.now (λ m code. ReturnsResponse id.now.bytes m response.old code response.new) (response.new ≡ response.old) result }
{
    match StunMessage::parse_any(bytes) {
        Ok(message) => return_of(id, &message, response),
        Err(_) => codes::UNPARSED,
    }
}
