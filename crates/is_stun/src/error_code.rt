//! The value of ERROR-CODE (RFC 8489, section 14.8).

ghost use Rattle.std.specs.Prelude.{◌≡◌, ◌≤◌, ◌<◌, length};

use crate::writing::put;

/// A code and a reason of at most 128 bytes.
#[derive(Clone, Copy)]
pub(crate) struct ErrorValue {
    bytes: [u8; 4 + 128],
    len: usize,
    ghost in_range: { len ≤ length bytes },
}

impl ErrorValue {
    ghost use Rattle.is_stun.specs.ErrorCode.{error_value};
    ghost use Rattle.is_stun.specs.ErrorCodeView.{error_bytes};

    #[inline(never)]
    pub(crate) fn new(code: u16, reason: &str) -> ErrorValue
        requires code { code < 700 }
        requires reason { length reason.now ≤ 128 }
        ensures { error_bytes result ≡ error_value (code, reason.now) }
    {
        let mut bytes = [0; 4 + 128];
        let at = put(
            &mut bytes,
            0,
            &[0, 0, (code / 100) as u8, (code % 100) as u8],
        );
        let len = put(&mut bytes, at, reason.as_bytes());
        ErrorValue { bytes, len }
    }

    pub(crate) fn as_slice(&self) -> &[u8]
        ensures { result.now ≡ error_bytes self.now }
    {
        &self.bytes[..self.len]
    }
}
