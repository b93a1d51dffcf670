//! FINGERPRINT: the CRC-32 of everything before it, under its mask (RFC 8489, section 14.7).

use is_proto::DefaultSha1HmacProvider;
use is_stun::stun::*;
use std::net::{Ipv4Addr, SocketAddr, SocketAddrV4};

const ID: TransId = TransId(*b"juc15uxUngGc");

/// Whether the message, written without a password, ends in this FINGERPRINT.
fn has_fingerprint(message: StunMessage<'_>, fingerprint: u32) -> bool {
    let mut buf = [0; 64];
    let Ok(len) = message.to_bytes(None, &mut buf, &DefaultSha1HmacProvider) else {
        return false;
    };
    match buf.get(..len) {
        Some(written) => written.ends_with(&fingerprint.to_be_bytes()),
        None => false,
    }
}

/// The check value of CRC-32 (ISO-HDLC) is the CRC of `123456789`: 0xcbf43926, or 0x98a06c68 under the mask. The data
/// begins with seven bytes that, after the header, return the CRC to its initial state.
#[test]
fn the_check_value(rt: HostRuntime) {
    let data = b"\0\0\0\x7f\xac\x58\xe1123456789";
    let indication = Builder::new().send().indication().data(data).build(ID);
    assert!(rt; has_fingerprint(indication, 0x98a06c68));
}

/// Values of Python's `zlib`.
#[test]
fn of_written_messages(rt: HostRuntime) {
    let failure = Builder::new().binding().failure().build(ID);
    assert!(rt; has_fingerprint(failure, 0x131831b7));
    let address = SocketAddr::V4(SocketAddrV4::new(Ipv4Addr::new(192, 0, 2, 1), 32853));
    let reply = StunMessage::binding_reply(ID, address);
    assert!(rt; has_fingerprint(reply, 0x1ff1db3e));
}
