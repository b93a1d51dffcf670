//! The messages of a TURN client: its key, its requests, and which responses count.

use is_proto::{DefaultSha1HmacProvider, StunError};
use is_stun::finding::value_of;
use is_stun::stun::*;
use is_turn::{
    Credentials, Incoming, Request, Verdict, long_term_key, read_incoming, verdict_on,
    write_request, write_send,
};
use std::net::{Ipv4Addr, SocketAddr, SocketAddrV4};
use std::test::*;

/// RFC 8489, section 9.2.2: the key of `user`, `realm` and `pass`.
const KEY: [u8; 16] = [
    0x84, 0x93, 0xfb, 0xc5, 0x3b, 0xa5, 0x82, 0xfb, 0x4c, 0x04, 0x4c, 0x45, 0x6b, 0xdc, 0x40, 0xeb,
];

/// The key of the sample request with long-term authentication of RFC 5769, section 2.4, with its USERNAME.
const SAMPLE_KEY: [u8; 16] = [
    0xe8, 0xca, 0x7a, 0xd5, 0x9d, 0x5e, 0xb0, 0x51, 0x8e, 0x31, 0x29, 0x11, 0xd2, 0xda, 0xb2, 0xa9,
];

const SAMPLE_USERNAME: [u8; 18] = [
    0xe3, 0x83, 0x9e, 0xe3, 0x83, 0x88, 0xe3, 0x83, 0xaa, 0xe3, 0x83, 0x83, 0xe3, 0x82, 0xaf, 0xe3,
    0x82, 0xb9,
];

const ID: TransId = TransId([1, 2, 3, 4, 5, 6, 7, 8, 9, 10, 11, 12]);

/// An Allocate request for ten minutes and an IPv6 address, up to FINGERPRINT (RFC 8656, sections 17 and 18).
const ALLOCATE: [u8; 44] = [
    0x00, 0x03, 0x00, 0x20, 0x21, 0x12, 0xa4, 0x42, 1, 2, 3, 4, 5, 6, 7, 8, 9, 10, 11, 12, 0x00,
    0x19, 0x00, 0x04, 17, 0, 0, 0, 0x00, 0x0d, 0x00, 0x04, 0x00, 0x00, 0x02, 0x58, 0x00, 0x17,
    0x00, 0x04, 2, 0, 0, 0,
];

/// The message at the front of the buffer.
fn parsed(buf: &[u8], len: usize) -> Result<StunMessage<'_>, StunError> {
    if len > buf.len() {
        return Err(StunError::BufferTooShort);
    }
    StunMessage::parse_any(&buf[..len])
}

fn peer() -> SocketAddr {
    SocketAddr::V4(SocketAddrV4::new(Ipv4Addr::new(192, 0, 2, 1), 32853))
}

fn credentials() -> Option<Credentials> {
    Credentials::new("user", "pass")
}

/// The length of the request, if it can be written.
fn written(request: &Request, credentials: Option<&Credentials>, buf: &mut [u8]) -> Option<usize> {
    write_request(request, &ID, credentials, buf, &DefaultSha1HmacProvider).ok()
}

#[test]
fn keys_are_those_of_the_rfcs(rt: HostRuntime) {
    assert!(rt;
        long_term_key(b"user", b"realm", b"pass") == KEY
            && long_term_key(&SAMPLE_USERNAME, b"example.org", b"TheMatrIX") == SAMPLE_KEY
    );
}

/// RFC 8656, sections 17 and 18, attribute by attribute.
#[test]
fn an_allocate_request_is_that_of_the_rfc(rt: HostRuntime) {
    let mut buf = [0; 60];
    let allocate = Request::Allocate(600, Some(AddressFamily::Ipv6));
    assert!(rt; written(&allocate, None, &mut buf) == Some(52) && buf.starts_with(&ALLOCATE));
}

#[test]
fn a_refresh_request_has_its_lifetime(rt: HostRuntime) -> Result<(), Fail> {
    let mut buf = [0; 36];
    assert!(rt; written(&Request::Refresh(0), None, &mut buf) == Some(36));
    let read = StunMessage::parse_any(&buf)?;
    assert!(rt; read.is_refresh_request() && read.lifetime() == Some(0));
    Ok(())
}

#[test]
fn a_permission_is_for_a_peer(rt: HostRuntime) -> Result<(), Fail> {
    let mut buf = [0; 40];
    assert!(rt; written(&Request::CreatePermission(peer()), None, &mut buf) == Some(40));
    let read = StunMessage::parse_any(&buf)?;
    assert!(rt; read.is_create_permission_request() && read.xor_peer_address() == Some(peer()));
    Ok(())
}

#[test]
fn a_channel_is_bound_to_its_number(rt: HostRuntime) -> Result<(), Fail> {
    let mut buf = [0; 48];
    assert!(rt; written(&Request::ChannelBind(0x4001, peer()), None, &mut buf) == Some(48));
    let read = StunMessage::parse_any(&buf)?;
    assert!(rt; read.is_channel_bind_request() && read.channel_number() == Some(0x4001));
    Ok(())
}

#[test]
fn a_send_indication_has_its_data(rt: HostRuntime) -> Result<(), Fail> {
    let mut buf = [0; 52];
    assert!(rt; write_send(peer(), b"media", &ID, &mut buf) == Ok(52));
    let read = StunMessage::parse_any(&buf)?;
    assert!(rt; read.is_send_indication() && read.data() == Some(b"media".as_slice()));
    let mut short = [0; 51];
    assert!(rt; write_send(peer(), b"media", &ID, &mut short) == Err(StunError::BufferTooShort));
    Ok(())
}

/// A Refresh request with these credentials.
fn refresh_with(credentials: &Credentials, buf: &mut [u8]) -> usize {
    written(&Request::Refresh(600), Some(credentials), buf).unwrap_or(0)
}

/// Whether the request is signed with the key of the RFC for this nonce.
fn is_signed(message: &StunMessage<'_>, nonce: &str) -> bool {
    message.verify(&KEY, &DefaultSha1HmacProvider)
        && message.username() == Some("user")
        && message.realm() == Some("realm")
        && message.nonce() == Some(nonce)
}

/// Whether the request that is written with the credentials is signed for this nonce.
fn signs(credentials: &Credentials, nonce: &str) -> bool {
    let mut buf = [0; 200];
    let len = refresh_with(credentials, &mut buf);
    match parsed(&buf, len) {
        Ok(message) => is_signed(&message, nonce) && value_of(&buf, 0x0022).is_none(),
        Err(_) => false,
    }
}

#[test]
fn a_challenge_makes_the_key(rt: HostRuntime) -> Result<(), Fail> {
    let mut known = credentials().ok_or("the credentials are too long")?;
    let mut buf = [0; 36];
    assert!(rt;
        refresh_with(&known, &mut buf) == 36
            && !known.take_challenge(Some("realm"), None)
            && known.take_challenge(Some("realm"), Some("nonce"))
            && signs(&known, "nonce")
    );
    Ok(())
}

/// Once the password is forgotten, the realm stays, and the nonce may change.
#[test]
fn a_later_challenge_changes_the_nonce_only(rt: HostRuntime) -> Result<(), Fail> {
    let mut known = credentials().ok_or("the credentials are too long")?;
    assert!(rt; known.take_challenge(Some("realm"), Some("nonce")));
    known.confirm();
    assert!(rt;
        !known.take_challenge(Some("other"), Some("new"))
            && known.take_challenge(Some("realm"), Some("new"))
            && signs(&known, "new")
    );
    Ok(())
}

/// What a Refresh error response of this code is, signed or not, to a request that was signed or not.
fn verdict_of(code: u16, signs: bool, was_signed: bool, is_confirmed: bool) -> Option<Verdict> {
    let mut known = credentials()?;
    if is_confirmed {
        known.confirm();
    }
    let built = Builder::new()
        .refresh()
        .failure()
        .error_code(code, "")
        .build(ID);
    let mut buf = [0; 100];
    let key = if signs { Some(KEY.as_slice()) } else { None };
    let len = built
        .to_bytes(key, &mut buf, &DefaultSha1HmacProvider)
        .ok()?;
    let message = parsed(&buf, len).ok()?;
    let own = if was_signed { Some(KEY) } else { None };
    Some(verdict_on(&message, Some(&known), own, true, &DefaultSha1HmacProvider))
}

/// A code, whether the response is signed, whether the request was, whether the client got a signed one before, and what the response is.
static VERDICTS: [(u16, bool, bool, bool, Verdict); 8] = [
    (437, true, true, true, Verdict::Genuine),
    (437, false, true, true, Verdict::Unauthentic),
    (437, false, true, false, Verdict::Hint),
    (437, true, false, false, Verdict::Unauthentic),
    (401, false, false, false, Verdict::Challenge),
    (438, false, true, true, Verdict::Challenge),
    (300, false, false, false, Verdict::Redirect),
    (300, false, true, true, Verdict::Unauthentic),
];

#[test]
fn only_signed_responses_are_genuine(rt: HostRuntime) {
    for (code, signs, was_signed, is_confirmed, verdict) in &VERDICTS {
        assert!(rt; verdict_of(*code, *signs, *was_signed, *is_confirmed) == Some(*verdict));
    }
}

/// What a response is to a client without credentials.
fn plain_verdict(response: StunMessage<'_>) -> Option<Verdict> {
    let mut buf = [0; 60];
    let len = response
        .to_bytes(None, &mut buf, &DefaultSha1HmacProvider)
        .ok()?;
    let message = parsed(&buf, len).ok()?;
    Some(verdict_on(&message, None, None, true, &DefaultSha1HmacProvider))
}

#[test]
fn an_error_needs_a_code(rt: HostRuntime) {
    let bare = Builder::new().refresh().failure().build(ID);
    assert!(rt; plain_verdict(bare) == Some(Verdict::Malformed));
    let success = StunMessage::binding_reply(ID, peer());
    assert!(rt; plain_verdict(success) == Some(Verdict::Genuine));
}

fn is_channel_data(incoming: Incoming<'_>, number: u16, contents: &[u8]) -> bool {
    match incoming {
        Incoming::ChannelData(from, found) => from == number && found == contents,
        _ => false,
    }
}

fn is_data_of(incoming: Incoming<'_>, peer: SocketAddr, contents: &[u8]) -> bool {
    match incoming {
        Incoming::Data(from, found) => from == peer && found == contents,
        _ => false,
    }
}

#[test]
fn channel_data_is_distinguished(rt: HostRuntime) {
    let channel = [0x40, 0x01, 0x00, 0x02, 7, 8];
    assert!(rt;
        is_channel_data(read_incoming(&channel), 0x4001, &[7, 8])
            && matches!(read_incoming(&channel[..5]), Incoming::Unparsed)
            && matches!(read_incoming(b""), Incoming::Unparsed)
    );
}

/// A Data indication from the peer.
fn data_indication() -> Builder<'static, HasClass> {
    Builder::new().data().indication().xor_peer_address(peer())
}

/// The length of the message, written without a password.
fn plain_len(message: StunMessage<'_>, buf: &mut [u8]) -> usize {
    message
        .to_bytes(None, buf, &DefaultSha1HmacProvider)
        .unwrap_or(0)
}

/// With a top bit that no STUN message has, it is none.
#[test]
fn data_of_a_peer_is_distinguished(rt: HostRuntime) {
    let mut buf = [0; 52];
    let data = data_indication().data(b"media").build(ID);
    assert!(rt;
        plain_len(data, &mut buf) == 52 && is_data_of(read_incoming(&buf), peer(), b"media")
    );
    buf[0] |= 0x80;
    assert!(rt; matches!(read_incoming(&buf), Incoming::Unparsed));
}

#[test]
fn an_indication_without_data_is_malformed(rt: HostRuntime) {
    let mut buf = [0; 40];
    assert!(rt;
        plain_len(data_indication().build(ID), &mut buf) == 40
            && matches!(read_incoming(&buf), Incoming::Malformed)
    );
}

#[test]
fn responses_are_distinguished_from_what_no_server_sends(rt: HostRuntime) {
    let mut buf = [0; 40];
    assert!(rt;
        plain_len(StunMessage::binding_reply(ID, peer()), &mut buf) == 40
            && matches!(read_incoming(&buf), Incoming::Response(_))
    );
    let mut sent = [0; 52];
    assert!(rt;
        write_send(peer(), b"media", &ID, &mut sent) == Ok(52)
            && matches!(read_incoming(&sent), Incoming::Unasked)
    );
}
