//! Messages that can't be written. If there are several errors, the first one in the stated order is returned.

use is_proto::{DefaultSha1HmacProvider, StunError};
use is_stun::stun::*;
use std::str;
use std::test::*;

const ID: TransId = TransId(*b"juc15uxUngGc");

/// A request of method 2, which is not a known method, without attributes.
const UNNAMED: [u8; 20] = [
    0x00, 0x02, 0x00, 0x00, 0x21, 0x12, 0xa4, 0x42, 0x6a, 0x75, 0x63, 0x31, 0x35, 0x75, 0x78, 0x55,
    0x6e, 0x67, 0x47, 0x63,
];

/// The header of a request of method 2 that has a REALM of 132 bytes, and what is before the value of this attribute.
const REALM_FRONT: [u8; 24] = [
    0x00, 0x02, 0x00, 136, 0x21, 0x12, 0xa4, 0x42, 0x6a, 0x75, 0x63, 0x31, 0x35, 0x75, 0x78, 0x55,
    0x6e, 0x67, 0x47, 0x63, 0x00, 0x14, 0x00, 132,
];

/// A request of method 2 with a REALM of 132 letters, which can be parsed, but is too long to be written.
fn unnamed_with_realm() -> [u8; 156] {
    let mut bytes = [b'a'; 156];
    bytes[..24].copy_from_slice(&REALM_FRONT);
    bytes
}

/// The error that writing the message into these bytes fails with, if any.
fn rejection_of(message: StunMessage<'_>, buf: &mut [u8]) -> Option<StunError> {
    message.to_bytes(None, buf, &DefaultSha1HmacProvider).err()
}

#[test]
fn an_unknown_method_is_not_written(rt: HostRuntime) -> Result<(), Fail> {
    let read = StunMessage::parse(&UNNAMED)?;
    assert!(rt; read.method() == Method::Unknown);
    let mut buf = [7; 64];
    assert!(rt;
        rejection_of(read, &mut buf) == Some(StunError::UnknownMethod)
            && buf.as_slice() == [7; 64].as_slice()
    );
    Ok(())
}

/// Whether writing the message into an empty buffer fails with this error.
fn fails(message: StunMessage<'_>, error: StunError) -> bool {
    rejection_of(message, &mut []) == Some(error)
}

/// Each error is tested against the next ones in the order: in an empty buffer all messages are too long.
#[test]
fn an_unknown_method_is_reported_first(rt: HostRuntime) -> Result<(), Fail> {
    let bytes = unnamed_with_realm();
    assert!(rt; fails(StunMessage::parse(&bytes)?, StunError::UnknownMethod));
    Ok(())
}

#[test]
fn a_value_that_is_too_long_is_reported_next(rt: HostRuntime) {
    let bytes = [b'a'; 129];
    let text = str::from_utf8(&bytes).unwrap_or("");
    let failure = Builder::new().binding().failure();
    let full = failure.data(&[0; 65535]);
    assert!(rt;
        fails(
            full.error_code(700, text).build(ID),
            StunError::ValueTooLong
        ) && fails(full.realm(text).build(ID), StunError::ValueTooLong)
            && fails(
                failure.error_code(700, text).build(ID),
                StunError::ValueTooLong
            )
    );
}

#[test]
fn an_error_code_is_reported_before_lengths_of_messages(rt: HostRuntime) {
    let failure = Builder::new().binding().failure();
    let full = failure.data(&[0; 65535]);
    assert!(rt;
        fails(full.error_code(700, "").build(ID), StunError::BadErrorCode)
            && fails(
                failure.error_code(700, "").build(ID),
                StunError::BadErrorCode
            )
            && fails(full.build(ID), StunError::MessageTooLong)
            && fails(failure.build(ID), StunError::BufferTooShort)
    );
}
