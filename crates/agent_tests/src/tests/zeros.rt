//! A random source that returns only zero bytes, so that all checks have one transaction id.
ghost use Rattle.rand_core.specs.Steps.{stream_of, steps_u32};

use rand_core::utils::NextWord;
use rand_core::{Rng, utils};

/// Words of zero bits.
#[derive(Drop)]
pub(super) struct Zeros;

impl NextWord<u32> for Zeros {
    ghost step = { λ s. (0, s) };

    fn next_word(&mut self) -> u32 {
        0
    }
}

impl Rng for Zeros {
    ghost stream = { stream_of (steps_u32 (λ s. (0, s))) };

    fn next_u32(&mut self) -> u32 {
        self.next_word()
    }

    fn next_u64(&mut self) -> u64 {
        utils::next_u64_via_u32(self)
    }

    fn fill_bytes(&mut self, dst: &mut [u8]) {
        utils::fill_bytes_via_u32(self, dst)
    }
}
