//! What the calls of a story pass: credentials, candidates, messages and packets. No function here sees an agent.

use super::step::{At, Message};
use super::*;
use is::CandidateKind;
use is::stun::{Builder, HasClass};
use rand_pcg::Pcg32;

/// The time so many milliseconds after the beginning.
pub(super) fn later(ms: u64) -> Instant {
    Instant(ms.saturating_mul(1_000_000))
}

/// The generator of the published example of PCG.
pub(super) fn generator() -> Pcg32 {
    Pcg32::new(42, 54)
}

// ---- credentials

pub(super) fn creds(alloc: Global, ufrag: &str, pass: &str) -> Result<IceCreds, AllocError> {
    Ok(IceCreds {
        ufrag: Text::from_str(alloc, ufrag)?,
        pass: Text::from_str(alloc, pass)?,
    })
}

/// A text of so many letters.
fn repeated(alloc: Global, len: usize) -> Option<Text> {
    let bytes = vec![in alloc; b'u'; len].ok()?;
    Some(Text::new(String::from_utf8(bytes).ok()?))
}

/// Credentials whose username fragment has so many letters.
pub(super) fn long(alloc: Global, len: usize) -> Option<IceCreds> {
    let ufrag = repeated(alloc, len)?;
    let pass = Text::from_str(alloc, "farpass").ok()?;
    Some(IceCreds { ufrag, pass })
}

// ---- candidates

/// A host candidate over UDP.
pub(super) fn host(alloc: Global, at: At) -> Option<Candidate> {
    Candidate::host(alloc, at.socket(), Protocol::Udp).ok()
}

/// The candidate of a candidate attribute.
pub(super) fn parsed(alloc: Global, line: &str) -> Option<Candidate> {
    Candidate::from_sdp_string(alloc, line).ok()
}

/// The candidate of the peer of this number, counted from 1; each has a lower priority than the one before.
pub(super) fn numbered(alloc: Global, number: u8) -> Option<Candidate> {
    let prio = 1000u32.saturating_sub(u32::from(number));
    let host = number.saturating_add(1);
    let line = format!(in alloc; "candidate:1 1 udp {prio} 10.0.0.{host} 2000 typ host").ok()?;
    parsed(alloc, &line)
}

/// A candidate of the greatest priority.
pub(super) fn greatest(alloc: Global) -> Option<Candidate> {
    Candidate::from_parts(
        alloc,
        "1",
        1,
        Protocol::Udp,
        u32::MAX,
        At(1, 1000).socket(),
        CandidateKind::Host,
        None,
        None,
        None,
    )
    .ok()
}

// ---- messages

/// The attributes that each of the peer's requests to `near` begins with.
fn named() -> Builder<'static, HasClass> {
    Builder::new()
        .binding()
        .request()
        .username("near:farr")
        .prio(100)
}

/// The id whose first byte is the number.
pub(super) fn numbered_id(number: u8) -> TransId {
    let mut id = [0; 12];
    id[0] = number;
    TransId(id)
}

/// The message; a response needs the id of the packet that the agent sent last.
fn content(message: Message, sent: Option<TransId>) -> Option<StunMessage<'static>> {
    match message {
        Message::Success(mapped) => Some(StunMessage::binding_reply(sent?, mapped.socket())),
        Message::Indication => Some(
            Builder::new()
                .binding()
                .indication()
                .build(TransId([7; 12])),
        ),
        Message::Allocate => Some(Builder::new().allocate().request().build(TransId([7; 12]))),
        Message::Conflict => Some(StunMessage::binding_role_conflict_reply(sent?)),
        Message::BadRequest => Some(bad_request(sent?)),
        Message::Stray => {
            let other = TransId([7; 12]);
            Some(StunMessage::binding_reply(other, At(1, 1000).socket()))
        }
        _ => Some(request(message)),
    }
}

/// An error response of another code than 487.
fn bad_request(id: TransId) -> StunMessage<'static> {
    Builder::new()
        .binding()
        .failure()
        .error_code(400, "Bad Request")
        .build(id)
}

/// The request.
fn request(message: Message) -> StunMessage<'static> {
    let id = TransId([1; 12]);
    match message {
        Message::Request(controlling, nominates) => StunMessage::binding_request(
            "near:farr",
            TransId([7; 12]),
            controlling,
            10,
            1853824767,
            nominates,
        ),
        Message::Nominates(use_candidate, number) => StunMessage::binding_request(
            "near:farr",
            TransId([7; 12]),
            true,
            10,
            1853824767,
            use_candidate,
        )
        .with_nomination(Some(number)),
        Message::Numbered(number) => {
            let id = numbered_id(number);
            StunMessage::binding_request("p9KA:SQAt", id, true, 9, 1853824767, false)
        }
        Message::Nomination => named().ice_controlled(3).use_candidate().build(id),
        // greater than the tie-breaker of `near` in the controlling role, less in the other
        Message::BothRoles => named().ice_controlling(9).ice_controlled(1).build(id),
        _ => named().build(id),
    }
}

/// The message's bytes, signed with the password, if memory for them can be allocated.
pub(super) fn signed(
    alloc: Global,
    written: Message,
    pass: &str,
    sent: Option<TransId>,
) -> Option<Vec<u8>> {
    let mut bytes = [0; 600];
    let len = write_signed(content(written, sent)?, pass, &mut bytes)?;
    Vec::from_slice(alloc, bytes.get(..len)?).ok()
}

/// Writes the message, signed with the password; returns its length.
fn write_signed(message: StunMessage<'_>, pass: &str, bytes: &mut [u8]) -> Option<usize> {
    let provider = DefaultSha1HmacProvider;
    message
        .to_bytes(Some(pass.as_bytes()), bytes, &provider)
        .ok()
}

/// The bytes as a packet, if they parse as a message.
pub(super) fn packet(
    bytes: &[u8],
    proto: Protocol,
    source: At,
    destination: At,
) -> Option<StunPacket<'_>> {
    match StunMessage::parse(bytes) {
        Ok(message) => Some(StunPacket {
            proto,
            source: source.socket(),
            destination: destination.socket(),
            message,
        }),
        Err(_) => None,
    }
}

/// The packet of another agent.
pub(super) fn sent_packet(sent: &Option<Transmit>) -> Option<StunPacket<'_>> {
    let sent = sent.as_ref()?;
    match StunMessage::parse(&sent.contents) {
        Ok(message) => Some(StunPacket {
            proto: Protocol::Udp,
            source: sent.source,
            destination: sent.destination,
            message,
        }),
        Err(_) => None,
    }
}
