//! Packets that a story writes for B, by words: `success.0`, `request.1`, `garbage.0`, `hex.0001..`.
use crate::names::{check_id, password, request_id};
use is::stun::StunMessage;
use is::{DefaultSha1HmacProvider, Side};
use std::alloc::Global;

/// B's request to the agent with this USERNAME.
fn request(
    username: &'static str,
    number: u8,
    controlling: bool,
    nominates: bool,
) -> StunMessage<'static> {
    let id = request_id(number);
    StunMessage::binding_request(username, id, controlling, 5, 1853824767, nominates)
}

/// The message of this kind. A response has the number of A's check, a request its own.
fn message(kind: &str, number: u8) -> Option<StunMessage<'static>> {
    let mapped = crate::names::home(Side::A);
    match kind {
        "success" | "forged-success" => {
            Some(StunMessage::binding_reply(check_id(usize::from(number)), mapped))
        }
        "garbage" => Some(StunMessage::binding_reply(request_id(number), mapped)),
        "request" | "forged-request" => Some(request("near:farr", number, true, false)),
        "nominating" => Some(request("near:farr", number, true, true)),
        "misaddressed" => Some(request("nobody:farr", number, true, false)),
        _ => None,
    }
}

/// The password with which it is signed.
fn key(kind: &str) -> &'static str {
    match kind {
        "success" => password(Side::B),
        "forged-success" | "forged-request" => "other",
        _ => password(Side::A),
    }
}

/// The signed message. `garbage` is cut after three bytes.
fn signed(alloc: Global, kind: &str, number: u8) -> Option<Vec<u8>> {
    let mut bytes = vec![in alloc; 0; 128].ok()?;
    let len = message(kind, number)?
        .to_bytes(
            Some(key(kind).as_bytes()),
            &mut bytes,
            &DefaultSha1HmacProvider,
        )
        .ok()?;
    bytes.truncate(if kind == "garbage" { 3 } else { len });
    Some(bytes)
}

/// The bytes of the packet that the word names.
pub fn packet(alloc: Global, word: &str) -> Option<Vec<u8>> {
    let (kind, number) = word.split_once('.')?;
    if kind == "hex" {
        hex::decode(alloc, number).ok()
    } else {
        signed(alloc, kind, number.parse::<u8>().ok()?)
    }
}
