//! Messages: parsing, verifying, writing, the CRC of fingerprints and HMAC-SHA1.

use crate::checksum::Checksum;
use is_proto::{DefaultSha1HmacProvider, HmacKey, KeptProvider, Sha1HmacProvider};
use is_stun::stun::{Builder, StunMessage, TransId};
use std::net::{Ipv4Addr, SocketAddr, SocketAddrV4};

/// A Binding request as a browser sends it.
pub const BROWSER_REQUEST: [u8; 100] = [
    0x00, 0x01, 0x00, 0x50, 0x21, 0x12, 0xa4, 0x42, 0x6a, 0x75, 0x63, 0x31, 0x35, 0x75, 0x78, 0x55,
    0x6e, 0x67, 0x47, 0x63, 0x00, 0x06, 0x00, 0x09, 0x70, 0x39, 0x4b, 0x41, 0x3a, 0x53, 0x51, 0x41,
    0x74, 0x00, 0x00, 0x00, 0xc0, 0x57, 0x00, 0x04, 0x00, 0x01, 0x00, 0x0a, 0x80, 0x2a, 0x00, 0x08,
    0x6e, 0xee, 0xc6, 0xe9, 0x7d, 0x18, 0x39, 0x5c, 0x00, 0x25, 0x00, 0x00, 0x00, 0x24, 0x00, 0x04,
    0x6e, 0x7f, 0x1e, 0xff, 0x00, 0x08, 0x00, 0x14, 0x5d, 0x04, 0x25, 0xa0, 0x20, 0x7a, 0xb1, 0xe0,
    0x54, 0x10, 0x22, 0x99, 0xaa, 0xf9, 0x83, 0x9c, 0xa0, 0x76, 0xc6, 0xd5, 0x80, 0x28, 0x00, 0x04,
    0x36, 0x0e, 0x21, 0x9f,
];

const BROWSER_PASSWORD: &[u8; 22] = b"xJcE9AQAR7kczUDVOXRUCl";

/// A provider for signing or verifying more than one message with the same password, as an agent does: HMAC's
/// intermediate state for the password is stored.
fn keeping(kept: &HmacKey) -> KeptProvider<'_, DefaultSha1HmacProvider> {
    KeptProvider {
        provider: &DefaultSha1HmacProvider,
        kept,
    }
}

/// RFC 5769, section 2.2: sample IPv4 response.
const RFC_IPV4_RESPONSE: [u8; 80] = [
    0x01, 0x01, 0x00, 0x3c, 0x21, 0x12, 0xa4, 0x42, 0xb7, 0xe7, 0xa7, 0x01, 0xbc, 0x34, 0xd6, 0x86,
    0xfa, 0x87, 0xdf, 0xae, 0x80, 0x22, 0x00, 0x0b, 0x74, 0x65, 0x73, 0x74, 0x20, 0x76, 0x65, 0x63,
    0x74, 0x6f, 0x72, 0x20, 0x00, 0x20, 0x00, 0x08, 0x00, 0x01, 0xa1, 0x47, 0xe1, 0x12, 0xa6, 0x43,
    0x00, 0x08, 0x00, 0x14, 0x2b, 0x91, 0xf5, 0x99, 0xfd, 0x9e, 0x90, 0xc3, 0x8c, 0x74, 0x89, 0xf9,
    0x2a, 0xf9, 0xba, 0x53, 0xf0, 0x6b, 0xe7, 0xd7, 0x80, 0x28, 0x00, 0x04, 0xc0, 0x7d, 0x4c, 0x96,
];

/// An id that differs from round to round.
fn id_of(round: u64) -> TransId {
    let [a, b, c, d, e, f, g, h] = round.to_be_bytes();
    TransId([a, b, c, d, e, f, g, h, 1, 2, 3, 4])
}

/// The last byte of an id, which differs from round to round.
fn last_of(round: u64) -> u8 {
    (round % 256) as u8
}

pub fn parse_request(rounds: u64, sum: &mut Checksum) {
    let mut bytes = BROWSER_REQUEST;
    for round in 0..rounds {
        bytes[19] = last_of(round);
        if let Ok(read) = StunMessage::parse(&bytes) {
            sum.add(u64::from(read.prio().unwrap_or(0)));
        }
    }
}

pub fn parse_reply(rounds: u64, sum: &mut Checksum) {
    let mut bytes = RFC_IPV4_RESPONSE;
    for round in 0..rounds {
        bytes[19] = last_of(round);
        if let Ok(read) = StunMessage::parse(&bytes) {
            if let Some(address) = read.mapped_address() {
                sum.add(u64::from(address.port()));
            }
        }
    }
}

/// The message is verified with a stored key.
pub fn verify_request(rounds: u64, sum: &mut Checksum) {
    let kept = HmacKey::new(BROWSER_PASSWORD);
    let provider = keeping(&kept);
    let mut bytes = BROWSER_REQUEST;
    for round in 0..rounds {
        bytes[99] = last_of(round);
        if let Ok(read) = StunMessage::parse(&bytes) {
            sum.add(u64::from(read.verify(BROWSER_PASSWORD, &provider)));
        }
    }
}

/// Adds the bytes of the written message.
fn write<H: Sha1HmacProvider>(
    message: StunMessage<'_>,
    password: Option<&[u8]>,
    provider: &H,
    sum: &mut Checksum,
) {
    let mut buf = [0; 256];
    if let Ok(len) = message.to_bytes(password, &mut buf, provider) {
        sum.add_bytes(buf.get(..len).unwrap_or(&[]));
    }
}

/// Each check is signed with a stored key.
pub fn write_request(rounds: u64, sum: &mut Checksum) {
    let kept = HmacKey::new(BROWSER_PASSWORD);
    let provider = keeping(&kept);
    for round in 0..rounds {
        let check = StunMessage::binding_request("p9KA:SQAt", id_of(round), true, 5, 9, true);
        write(check, Some(BROWSER_PASSWORD), &provider, sum);
    }
}

fn reply_of(round: u64) -> StunMessage<'static> {
    let address = SocketAddrV4::new(Ipv4Addr::new(192, 0, 2, 1), 32853);
    StunMessage::binding_reply(id_of(round), SocketAddr::V4(address))
}

/// Each response is signed with a stored key.
pub fn write_reply(rounds: u64, sum: &mut Checksum) {
    let kept = HmacKey::new(BROWSER_PASSWORD);
    let provider = keeping(&kept);
    for round in 0..rounds {
        write(reply_of(round), Some(BROWSER_PASSWORD), &provider, sum);
    }
}

pub fn write_unsigned(rounds: u64, sum: &mut Checksum) {
    for round in 0..rounds {
        write(reply_of(round), None, &DefaultSha1HmacProvider, sum);
    }
}

/// A message with 200 bytes of data, without MESSAGE-INTEGRITY: most of the work is the CRC.
pub fn crc(rounds: u64, sum: &mut Checksum) {
    let data = [7; 200];
    for round in 0..rounds {
        let message = Builder::new().send().indication().data(&data);
        write(
            message.build(id_of(round)),
            None,
            &DefaultSha1HmacProvider,
            sum,
        );
    }
}

/// The MAC is computed with a stored key.
pub fn hmac(rounds: u64, sum: &mut Checksum) {
    let kept = HmacKey::new(BROWSER_PASSWORD);
    let provider = keeping(&kept);
    let mut bytes = BROWSER_REQUEST;
    for round in 0..rounds {
        bytes[19] = last_of(round);
        let mac = provider.sha1_hmac(BROWSER_PASSWORD, &[&bytes]);
        sum.add_bytes(&mac);
    }
}
