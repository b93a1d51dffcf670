//! The transaction ID, which matches a response to its request.

ghost use Rattle.std.specs.Prelude.{◌≡◌};
ghost use Rattle.rand_core.specs.Stream.{fill_bytes};

use rand_core::Rng;

/// The transaction ID of a STUN message: 96 bits that the client chose at random (RFC 8489, section 5). IDs are ordered
/// by their bytes.
#[derive(Clone, Copy, Debug, PartialEq, Eq, PartialOrd, Ord, Hash)]
pub struct TransId(pub [u8; 12]);

impl TransId {
    /// Makes an ID of the 12 bytes that one `fill_bytes` call of the generator returns.
    pub fn new<R: Rng>(rng: &mut R) -> TransId
        ensures { (result.0, R.stream rng.new) ≡ fill_bytes 12 (R.stream rng.old) }
    {
        let mut bytes = [0u8; 12];
        rng.fill_bytes(&mut bytes);
        TransId(bytes)
    }
}
