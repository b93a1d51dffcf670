//! What TURN needs of messages: rows, values that messages skip, what an Allocate request requests, and ChannelData.

use is_proto::{DefaultSha1HmacProvider, StunError};
use is_stun::channel_data::{channel_header, read_channel_data};
use is_stun::finding::value_of;
use is_stun::stun::*;
use is_stun::writing::{Draft, Row, write_draft};
use std::test::*;

/// RFC 5769, section 2.4: sample request with long-term authentication. It has no FINGERPRINT.
const LONG_TERM: [u8; 116] = [
    0x00, 0x01, 0x00, 0x60, 0x21, 0x12, 0xa4, 0x42, 0x78, 0xad, 0x34, 0x33, 0xc6, 0xad, 0x72, 0xc0,
    0x29, 0xda, 0x41, 0x2e, 0x00, 0x06, 0x00, 0x12, 0xe3, 0x83, 0x9e, 0xe3, 0x83, 0x88, 0xe3, 0x83,
    0xaa, 0xe3, 0x83, 0x83, 0xe3, 0x82, 0xaf, 0xe3, 0x82, 0xb9, 0x00, 0x00, 0x00, 0x15, 0x00, 0x1c,
    0x66, 0x2f, 0x2f, 0x34, 0x39, 0x39, 0x6b, 0x39, 0x35, 0x34, 0x64, 0x36, 0x4f, 0x4c, 0x33, 0x34,
    0x6f, 0x4c, 0x39, 0x46, 0x53, 0x54, 0x76, 0x79, 0x36, 0x34, 0x73, 0x41, 0x00, 0x14, 0x00, 0x0b,
    0x65, 0x78, 0x61, 0x6d, 0x70, 0x6c, 0x65, 0x2e, 0x6f, 0x72, 0x67, 0x00, 0x00, 0x08, 0x00, 0x14,
    0xf6, 0x70, 0x24, 0x65, 0x6d, 0xd6, 0x4a, 0x3e, 0x02, 0xb8, 0xe0, 0x71, 0x2e, 0x85, 0xc9, 0xa2,
    0x8c, 0xa8, 0x96, 0x66,
];

/// The MD5 digest of its USERNAME, realm and password with colons between them (RFC 8489, section 9.2.2).
const LONG_TERM_KEY: [u8; 16] = [
    0xe8, 0xca, 0x7a, 0xd5, 0x9d, 0x5e, 0xb0, 0x51, 0x8e, 0x31, 0x29, 0x11, 0xd2, 0xda, 0xb2, 0xa9,
];

/// RFC 5769, section 2.1: the first attributes of the sample request. SOFTWARE has the type of RFC 8489.
const SAMPLE: [u8; 48] = [
    0x00, 0x01, 0x00, 0x1c, 0x21, 0x12, 0xa4, 0x42, 0xb7, 0xe7, 0xa7, 0x01, 0xbc, 0x34, 0xd6, 0x86,
    0xfa, 0x87, 0xdf, 0xae, 0x80, 0x22, 0x00, 0x10, 0x53, 0x54, 0x55, 0x4e, 0x20, 0x74, 0x65, 0x73,
    0x74, 0x20, 0x63, 0x6c, 0x69, 0x65, 0x6e, 0x74, 0x00, 0x24, 0x00, 0x04, 0x6e, 0x00, 0x01, 0xff,
];

/// An Allocate request for UDP and an IPv6 address (RFC 8656, sections 18.6 and 18.7), up to FINGERPRINT.
const ALLOCATE: [u8; 36] = [
    0x00, 0x03, 0x00, 0x18, 0x21, 0x12, 0xa4, 0x42, 1, 2, 3, 4, 5, 6, 7, 8, 9, 10, 11, 12, 0x00,
    0x17, 0x00, 0x04, 0x02, 0x00, 0x00, 0x00, 0x00, 0x19, 0x00, 0x04, 17, 0x00, 0x00, 0x00,
];

fn row(code: u16, value: &[u8]) -> Row<'_> {
    Row {
        code,
        value: Some(value),
    }
}

fn id_of(bytes: &[u8]) -> [u8; 12] {
    let mut id = [0; 12];
    if bytes.len() >= 20 {
        id.copy_from_slice(&bytes[8..20]);
    }
    id
}

#[test]
fn rows_are_written_and_signed_with_a_long_term_key(rt: HostRuntime) -> Result<(), Fail> {
    let id = id_of(&LONG_TERM);
    let rows = [
        row(0x0006, &LONG_TERM[24..42]),
        row(0x0015, &LONG_TERM[48..76]),
        Row {
            code: 0x0022,
            value: None,
        },
        row(0x0014, &LONG_TERM[80..91]),
    ];
    let draft = Draft {
        typ: 0x0001,
        id: &id,
        rows: &rows,
    };
    let mut buf = [0; 124];
    let key = Some(LONG_TERM_KEY.as_slice());
    let short = write_draft(&draft, key, &mut buf[..123], &DefaultSha1HmacProvider);
    assert!(rt; short == Err(StunError::BufferTooShort));
    let len = write_draft(&draft, key, &mut buf, &DefaultSha1HmacProvider)?;
    assert!(rt; len == 124 && buf[4..116] == LONG_TERM[4..]);
    let message = StunMessage::parse_any(&buf)?;
    assert!(rt;
        message.verify(&LONG_TERM_KEY, &DefaultSha1HmacProvider)
            && message.realm() == Some("example.org")
    );
    Ok(())
}

#[test]
fn values_that_messages_skip_are_found(rt: HostRuntime) {
    assert!(rt;
        value_of(&SAMPLE, 0x8022) == Some(b"STUN test client".as_slice())
            && value_of(&SAMPLE, 0x0024) == Some([0x6e, 0x00, 0x01, 0xff].as_slice())
            && value_of(&SAMPLE, 0x0022).is_none()
    );
    // MESSAGE-INTEGRITY itself, and FINGERPRINT after it, are not found.
    assert!(rt;
        value_of(&LONG_TERM, 0x0014) == Some(b"example.org".as_slice())
            && value_of(&LONG_TERM, 0x0008).is_none()
            && value_of(&SAMPLE[..19], 0x8022).is_none()
    );
}

#[test]
fn an_allocate_request_has_a_transport_and_a_family(rt: HostRuntime) -> Result<(), Fail> {
    let requested = Requested {
        transport: Some(17),
        family: Some(AddressFamily::Ipv6),
    };
    let mut buf = [0; 44];
    assert!(rt;
        len_with(&requested, &mut buf) == Some(44)
            && buf.starts_with(&ALLOCATE)
            && Requested::of(&buf) == requested
            && StunMessage::parse_any(&buf)?.is_allocate_request()
    );
    Ok(())
}

/// The length of the Allocate request that requests this.
fn len_with(requested: &Requested, buf: &mut [u8]) -> Option<usize> {
    let message = Builder::new()
        .allocate()
        .request()
        .build(TransId(id_of(&ALLOCATE)));
    message
        .to_bytes_with(requested, None, buf, &DefaultSha1HmacProvider)
        .ok()
}

/// A family that RFC 8656 does not define, and a value of three bytes.
#[test]
fn other_values_request_nothing(rt: HostRuntime) {
    let mut other = ALLOCATE;
    other[24] = 3;
    other[31] = 3;
    assert!(rt; Requested::of(&other) == Requested::default());
}

/// RFC 8656, section 12.4: the number, the length, the data, and padding over TCP.
static CHANNEL_DATA: [u8; 8] = [0x40, 0x01, 0x00, 0x03, 7, 8, 9, 0];

/// Bytes that are no ChannelData: cut ones, and numbers out of range.
static NO_CHANNEL_DATA: [&[u8]; 4] = [
    &[0x40, 0x01, 0x00, 0x03, 7, 8],
    &[0x40, 0x01, 0x00],
    &[0x50, 0, 0, 0],
    &[0x3f, 0xff, 0, 0],
];

fn is_channel_data(bytes: &[u8], number: u16, data: &[u8]) -> bool {
    match read_channel_data(bytes) {
        Some((from, found)) => from == number && found == data,
        None => false,
    }
}

#[test]
fn channel_data_is_read(rt: HostRuntime) {
    assert!(rt;
        is_channel_data(&CHANNEL_DATA, 0x4001, &[7, 8, 9])
            && is_channel_data(&[0x4f, 0xff, 0, 0], 0x4fff, &[])
            && channel_header(0x4001, 3) == [0x40, 0x01, 0x00, 0x03]
    );
    for bytes in &NO_CHANNEL_DATA {
        assert!(rt; read_channel_data(bytes).is_none());
    }
}
