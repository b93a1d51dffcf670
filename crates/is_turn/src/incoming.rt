//! What a datagram of a TURN server is (RFC 8656, sections 11.4 and 12.6).

ghost use Rattle.std.specs.Prelude.{◌≡◌, nat_le, slice_index};
ghost use Rattle.is_stun.specs.MessageView.{message_view};
ghost use Rattle.is_turn.specs.Answer.{is_response};
ghost use Rattle.is_turn.specs.Incoming.{is_data, datagram_by, datagram_of, has_top_bits, incoming_view};

use is_stun::channel_data::read_channel_data;
use is_stun::stun::{Class, Method, StunMessage};
use std::net::SocketAddr;

/// A datagram of a TURN server. Nothing of it is verified.
#[derive(Clone, Copy, Debug)]
pub enum Incoming<'a> {
    /// Data of the peer that has the channel of this number.
    ChannelData(u16, &'a [u8]),
    /// A Data indication: data of this peer.
    Data(SocketAddr, &'a [u8]),
    /// A success or error response: the request that it answers has its method and transaction ID.
    Response(StunMessage<'a>),
    /// A Data indication without XOR-PEER-ADDRESS or DATA.
    Malformed,
    /// A request, or another indication.
    Unasked,
    /// Neither ChannelData nor a STUN message.
    Unparsed,
}

/// Whether one of the two top bits of a datagram is set, so that it is no STUN message (RFC 8489, section 5; RFC 7983).
fn has_top_bits(bytes: &[u8]) -> bool
    ensures { result ≡ has_top_bits bytes.now }
{
    match bytes.first() {
        Some(first) => *first >= 64,
        None => false,
    }
}

fn is_data(message: &StunMessage<'_>) -> bool
    ensures { result ≡ is_data (message_view message.now) }
{
    message.method() == Method::Data && message.class() == Class::Indication
}

fn is_response(message: &StunMessage<'_>) -> bool
    ensures { result ≡ is_response (message_view message.now).class }
{
    matches!(message.class(), Class::Success | Class::Failure)
}

/// Returns what a message is.
fn kind_of<'a>(message: StunMessage<'a>) -> Incoming<'a>
    ensures { incoming_view result ≡ datagram_by (message_view message.entry) }
{
    if is_data(&message) {
        return match (message.xor_peer_address(), message.data()) {
            (Some(peer), Some(contents)) => Incoming::Data(peer, contents),
            _ => Incoming::Malformed,
        };
    }
    if is_response(&message) {
        Incoming::Response(message)
    } else {
        Incoming::Unasked
    }
}

/// Reads a datagram of a TURN server.
pub fn read_incoming(bytes: &[u8]) -> Incoming<'_>
    ensures { incoming_view result ≡ datagram_of bytes.now }
{
    if let Some((number, contents)) = read_channel_data(bytes) {
        return Incoming::ChannelData(number, contents);
    }
    if has_top_bits(bytes) {
        return Incoming::Unparsed;
    }
    match StunMessage::parse_any(bytes) {
        Ok(message) => kind_of(message),
        Err(_) => Incoming::Unparsed,
    }
}
