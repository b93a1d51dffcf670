//! Bytes that a client keeps, without allocating.

ghost use Rattle.std.specs.Prelude.{◌≡◌, ◌≤◌, length};

/// The longest REALM and NONCE (RFC 8489, sections 14.9 and 14.10).
pub(crate) const LONGEST: usize = 763;

/// At most 763 bytes.
#[derive(Clone, Copy)]
pub(crate) struct Octets {
    bytes: [u8; LONGEST],
    len: usize,
    ghost in_range: { len ≤ length bytes },
}

impl Octets {
    ghost use Rattle.is_turn.specs.Octets.{octets_of};

    pub(crate) fn new(value: &[u8]) -> Octets
        requires { length value.now ≤ LONGEST }
        ensures { octets_of result ≡ value.now }
    {
        let mut bytes = [0; LONGEST];
        let len = value.len();
        bytes[..len].copy_from_slice(value);
        Octets { bytes, len }
    }

    pub(crate) fn as_slice(&self) -> &[u8]
        ensures { result.now ≡ octets_of self.now }
    {
        &self.bytes[..self.len]
    }
}
