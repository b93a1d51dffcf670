//! Messages that can be written, and messages that can't.

use is_proto::{DefaultSha1HmacProvider, StunError};
use is_stun::stun::*;
use std::net::{Ipv4Addr, Ipv6Addr, SocketAddr, SocketAddrV4, SocketAddrV6};
use std::str;
use std::test::*;

const PASSWORD: &[u8; 22] = b"VOkJxbRl1RmTxUk/WvJxBt";

const ID: TransId = TransId(*b"juc15uxUngGc");

fn ipv4() -> SocketAddr {
    SocketAddr::V4(SocketAddrV4::new(Ipv4Addr::new(192, 0, 2, 1), 32853))
}

fn ipv6() -> SocketAddr {
    SocketAddr::V6(SocketAddrV6::new(Ipv6Addr::LOCALHOST, 2000, 0, 0))
}

/// The length of the message written with the password, or `None` if writing fails.
fn signed_len(message: StunMessage<'_>, buf: &mut [u8]) -> Option<usize> {
    message
        .to_bytes(Some(PASSWORD), buf, &DefaultSha1HmacProvider)
        .ok()
}

/// The error that writing the message fails with, if any.
fn rejection_of(message: StunMessage<'_>, buf: &mut [u8]) -> Option<StunError> {
    message.to_bytes(None, buf, &DefaultSha1HmacProvider).err()
}

fn is_verified(read: &StunMessage<'_>) -> bool {
    read.verify(PASSWORD, &DefaultSha1HmacProvider)
}

#[test]
fn a_reply_to_ipv4(rt: HostRuntime) {
    let reply = StunMessage::binding_reply(ID, ipv4());
    let mut buf = [7; 65];
    assert!(rt;
        signed_len(reply, &mut buf) == Some(64)
            && &buf[..8] == [0x01, 0x01, 0x00, 0x2c, 0x21, 0x12, 0xa4, 0x42].as_slice()
            && &buf[20..36]
                == [
                    0x00, 0x20, 0x00, 0x08, 0x00, 0x01, 0xa1, 0x47, 0xe1, 0x12, 0xa6, 0x43, 0x00,
                    0x08, 0x00, 0x14
                ]
                .as_slice()
            && buf[64] == 7
    );
}

#[test]
fn a_reply_to_ipv4_is_verified(rt: HostRuntime) -> Result<(), Fail> {
    let reply = StunMessage::binding_reply(ID, ipv4());
    assert!(rt; !is_verified(&reply));
    let mut buf = [0; 64];
    assert!(rt; signed_len(reply, &mut buf) == Some(64));
    let read = StunMessage::parse(&buf)?;
    assert!(rt; read.mapped_address() == Some(ipv4()) && is_verified(&read));
    Ok(())
}

#[test]
fn a_reply_to_ipv6(rt: HostRuntime) -> Result<(), Fail> {
    let mut buf = [0; 76];
    let reply = StunMessage::binding_reply(ID, ipv6());
    assert!(rt;
        signed_len(reply, &mut buf) == Some(76)
            && StunMessage::parse(&buf)?.mapped_address() == Some(ipv6())
    );
    Ok(())
}

#[test]
fn a_role_conflict(rt: HostRuntime) -> Result<(), Fail> {
    let mut buf = [0; 76];
    let conflict = StunMessage::binding_role_conflict_reply(ID);
    assert!(rt; signed_len(conflict, &mut buf) == Some(76));
    let read = StunMessage::parse(&buf)?;
    assert!(rt;
        read.is_failed_binding_response() && read.error_code() == Some((487, "Role Conflict"))
    );
    Ok(())
}

fn is_the_check(read: &StunMessage<'_>) -> bool {
    read.username() == Some("p9KA:SQAt")
        && read.ice_controlling() == Some(5)
        && read.prio() == Some(9)
        && read.use_candidate()
}

#[test]
fn checks(rt: HostRuntime) -> Result<(), Fail> {
    let check = StunMessage::binding_request("p9KA:SQAt", ID, true, 5, 9, true);
    let mut buf = [0; 128];
    let len = signed_len(check, &mut buf).ok_or("refused")?;
    let read = StunMessage::parse(buf.get(..len).ok_or("short")?)?;
    assert!(rt; is_the_check(&read) && is_verified(&read));
    Ok(())
}

/// The longest USERNAME that can be written, in the longest check.
#[test]
fn usernames(rt: HostRuntime) {
    let in_flight_packets = [b'a'; 509];
    let mut buf = [0; 600];
    let longest = str::from_utf8(&in_flight_packets[..508]).unwrap_or("");
    let check = StunMessage::binding_request(longest, ID, true, 5, 9, true);
    assert!(rt; signed_len(check, &mut buf) == Some(588));
    let longer = str::from_utf8(&in_flight_packets).unwrap_or("");
    let check = StunMessage::binding_request(longer, ID, true, 5, 9, true);
    assert!(rt; rejection_of(check, &mut buf) == Some(StunError::ValueTooLong));
}

#[test]
fn a_short_buffer_is_left(rt: HostRuntime) {
    let mut buf = [7; 63];
    let reply = StunMessage::binding_reply(ID, ipv4());
    assert!(rt;
        reply.to_bytes(Some(PASSWORD), &mut buf, &DefaultSha1HmacProvider)
            == Err(StunError::BufferTooShort)
            && buf.as_slice() == [7; 63].as_slice()
    );
}

/// Whether writing the message fails with this error.
fn fails(message: StunMessage<'_>, buf: &mut [u8], error: StunError) -> bool {
    rejection_of(message, buf) == Some(error)
}

#[test]
fn errors_leave_the_buffer(rt: HostRuntime) {
    let in_flight_packets = [b'a'; 129];
    let text = str::from_utf8(&in_flight_packets).unwrap_or("");
    let failure = Builder::new().binding().failure();
    let mut buf = [7; 63];
    assert!(rt;
        fails(
            failure.error_code(700, "").build(ID),
            &mut buf,
            StunError::BadErrorCode
        ) && fails(
            failure.error_code(300, text).build(ID),
            &mut buf,
            StunError::ValueTooLong
        ) && fails(
            failure.realm(text).build(ID),
            &mut buf,
            StunError::ValueTooLong
        ) && fails(
            failure.data(&[0; 65535]).build(ID),
            &mut buf,
            StunError::MessageTooLong
        ) && buf.as_slice() == [7; 63].as_slice()
    );
}

#[test]
fn a_failure_without_attributes(rt: HostRuntime) -> Result<(), Fail> {
    let bytes = [
        1, 0x11, 0, 0, 0x21, 0x12, 0xa4, 0x42, 0, 0, 0, 0, 0, 0, 0, 0, 0, 0, 0, 0,
    ];
    assert!(rt; StunMessage::parse(&bytes)?.is_failed_binding_response());
    let failure = Builder::new().binding().failure().build(ID);
    let mut buf = [0; 64];
    assert!(rt;
        failure.to_bytes(Some(PASSWORD), &mut buf, &DefaultSha1HmacProvider) == Ok(52)
            && &buf[20..22] == [0x00, 0x08].as_slice()
    );
    Ok(())
}

#[test]
fn an_indication_with_data(rt: HostRuntime) {
    let indication = Builder::new()
        .send()
        .indication()
        .data(&[0xde, 0xad, 0xbe])
        .build(ID);
    let mut buf = [7; 36];
    assert!(rt;
        indication.to_bytes(None, &mut buf, &DefaultSha1HmacProvider) == Ok(36)
            && &buf[..4] == [0x00, 0x16, 0x00, 0x10].as_slice()
            && &buf[20..28] == [0x00, 0x13, 0x00, 0x03, 0xde, 0xad, 0xbe, 0x00].as_slice()
    );
}

#[test]
fn software_before_network_cost(rt: HostRuntime) {
    let message = Builder::new()
        .allocate()
        .success()
        .network_cost(1, 10)
        .software("rice")
        .build(ID);
    let mut buf = [7; 44];
    assert!(rt;
        message.to_bytes(None, &mut buf, &DefaultSha1HmacProvider) == Ok(44)
            && &buf[20..24] == [0x00, 0x22, 0x00, 0x04].as_slice()
            && &buf[28..36] == [0xc0, 0x57, 0x00, 0x04, 0x00, 0x01, 0x00, 0x0a].as_slice()
    );
}

fn every_attribute() -> StunMessage<'static> {
    Builder::new()
        .channel_bind()
        .request()
        .username("alice")
        .error_code(438, "Stale Nonce")
        .channel_number(0x4001)
        .lifetime(600)
        .xor_peer_address(ipv4())
        .data(b"data")
        .realm("example.org")
        .nonce("f//499k954d6OL34oL9FSTvy64sA")
        .xor_relayed_address(ipv6())
        .xor_mapped_address(ipv4())
        .software("rice")
        .prio(1)
        .use_candidate()
        .ice_controlled(2)
        .ice_controlling(3)
        .network_cost(4, 5)
        .nomination(6)
        .build(ID)
}

fn has_its_texts(read: &StunMessage<'_>) -> bool {
    read.username() == Some("alice")
        && read.split_username().is_none()
        && read.error_code() == Some((438, "Stale Nonce"))
        && read.realm() == Some("example.org")
        && read.nonce() == Some("f//499k954d6OL34oL9FSTvy64sA")
        && read.software() == Some("rice")
        && read.data() == Some(b"data".as_slice())
}

fn has_its_numbers(read: &StunMessage<'_>) -> bool {
    read.channel_number() == Some(0x4001)
        && read.lifetime() == Some(600)
        && read.prio() == Some(1)
        && read.use_candidate()
        && read.ice_controlled() == Some(2)
        && read.ice_controlling() == Some(3)
        && read.network_cost() == Some((4, 5))
        && read.nomination() == Some(6)
}

fn has_its_addresses(read: &StunMessage<'_>) -> bool {
    read.xor_peer_address() == Some(ipv4())
        && read.xor_relayed_address() == Some(ipv6())
        && read.mapped_address() == Some(ipv4())
}

/// Every attribute at once, written and parsed.
#[test]
fn every_attribute_comes_back(rt: HostRuntime) -> Result<(), Fail> {
    let mut buf = [0; 400];
    let len = signed_len(every_attribute(), &mut buf).ok_or("refused")?;
    let read = StunMessage::parse(buf.get(..len).ok_or("short")?)?;
    assert!(rt;
        read.is_channel_bind_request()
            && read.trans_id() == ID
            && has_its_texts(&read)
            && has_its_numbers(&read)
            && has_its_addresses(&read)
            && is_verified(&read)
    );
    Ok(())
}

/// The type of a message in its written form.
fn type_of(message: StunMessage<'_>) -> [u8; 2] {
    let mut buf = [7; 28];
    match message.to_bytes(None, &mut buf, &DefaultSha1HmacProvider) {
        Ok(28) => [buf[0], buf[1]],
        _ => [0xff, 0xff],
    }
}

/// Each method that the crate knows, from its builder to its bytes.
#[test]
fn methods(rt: HostRuntime) {
    for (builder, typ) in [
        (Builder::new().binding(), [0x00, 0x01]),
        (Builder::new().allocate(), [0x00, 0x03]),
        (Builder::new().refresh(), [0x00, 0x04]),
        (Builder::new().send(), [0x00, 0x06]),
        (Builder::new().data(), [0x00, 0x07]),
        (Builder::new().create_permission(), [0x00, 0x08]),
        (Builder::new().channel_bind(), [0x00, 0x09]),
    ] {
        assert!(rt; type_of(builder.request().build(ID)) == typ);
    }
}

/// Each class.
#[test]
fn classes(rt: HostRuntime) {
    let builder = Builder::new().channel_bind();
    for (builder, typ) in [
        (builder.indication(), [0x00, 0x19]),
        (builder.success(), [0x01, 0x09]),
        (builder.failure(), [0x01, 0x19]),
    ] {
        assert!(rt; type_of(builder.build(ID)) == typ);
    }
}

/// The predicates for the TURN methods.
#[test]
fn turn_requests(rt: HostRuntime) {
    assert!(rt;
        Builder::new()
            .allocate()
            .request()
            .build(ID)
            .is_allocate_request()
            && Builder::new()
                .refresh()
                .request()
                .build(ID)
                .is_refresh_request()
    );
    let permission = Builder::new().create_permission().request().build(ID);
    assert!(rt;
        permission.is_create_permission_request()
            && Builder::new()
                .send()
                .indication()
                .build(ID)
                .is_send_indication()
    );
}
