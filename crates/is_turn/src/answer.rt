//! What a datagram of the server says to a client that waits for a response (RFC 8489, section 6.3).

ghost use Rattle.std.specs.Prelude.{◌≡◌};
ghost use Rattle.is_stun.specs.MessageView.{message_view};
ghost use Rattle.is_turn.specs.Answer.{is_answer, said_in, answer_in, IsOwn, IsRead};

use is_stun::stun::{Class, Method, StunMessage, TransId};
use std::net::SocketAddr;

/// What a datagram says, before anything is changed.
#[derive(Clone, Copy, Debug, PartialEq, Eq)]
pub(crate) enum Answer {
    /// No STUN message.
    Unparsed,
    /// A message that does not answer the pending request.
    Unasked,
    /// A response without the attribute that it must have.
    Malformed,
    /// The server sees the socket at this address.
    Mapped(SocketAddr),
    /// An error response with this code.
    Failed(u16),
}

/// Whether the message is a response to the pending request: by its method, class and transaction ID.
fn is_answer(pending: Option<TransId>, message: &StunMessage<'_>) -> bool
    ensures { result ≡ is_answer pending (message_view message.now) }
{
    let Some(id) = pending else {
        return false;
    };
    let is_response = matches!(message.class(), Class::Success | Class::Failure);
    message.method() == Method::Binding && is_response && message.trans_id() == id
}

/// Returns what a response says.
fn said_in(message: &StunMessage<'_>) -> Answer
    ensures { result ≡ said_in (message_view message.now) }
{
    match message.class() {
        Class::Success => match message.mapped_address() {
            Some(mapped) => Answer::Mapped(mapped),
            None => Answer::Malformed,
        },
        _ => match message.error_code() {
            Some((code, _)) => Answer::Failed(code),
            None => Answer::Malformed,
        },
    }
}

/// Decides what a datagram says, given the transaction ID of the pending request.
pub(crate) fn answer_in(pending: Option<TransId>, bytes: &[u8]) -> Answer
    ensures answer { result ≡ answer_in pending bytes.now }
    ensures own { IsOwn result → IsRead pending bytes.now }
{
    let Ok(message) = StunMessage::parse_any(bytes) else {
        return Answer::Unparsed;
    };
    if is_answer(pending, &message) {
        said_in(&message)
    } else {
        Answer::Unasked
    }
}
