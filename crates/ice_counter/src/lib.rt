//! The random source of a script: words that count up from zero, so that every execution prints the same.
#![tactic(auto)]

ghost use Rattle.std.specs.Prelude.{◌≡◌, ◌+◌, ◌%◌, ◌^◌, ℕ};
ghost use Rattle.rand_core.specs.Steps.{stream_of, steps_u32};

use rand_core::utils::NextWord;
use rand_core::{Rng, utils};
use std::marker::Model;

/// 32-bit words from 0 on, each written least byte first.
#[derive(Drop)]
pub struct Counter(u32);

impl Model for Counter {
    ghost Value = { ℕ };

    ghost view = { λ counter. counter.0 };
}

impl Counter {
    /// A source whose first word is 0.
    pub fn new() -> Counter
        ensures { result ≡ 0 }
    {
        Counter(0)
    }
}

impl NextWord<u32> for Counter {
    ghost step = { λ s. (s, (s + 1) % 2 ^ 32) };

    fn next_word(&mut self) -> u32 {
        let word = self.0;
        self.0 = word.wrapping_add(1);
        word
    }
}

impl Rng for Counter {
    ghost stream = { stream_of (steps_u32 (λ s. (s, (s + 1) % 2 ^ 32))) };

    fn next_u32(&mut self) -> u32 {
        self.next_word()
    }

    fn next_u64(&mut self) -> u64 {
        utils::next_u64_via_u32(self)
    }

    fn fill_bytes(&mut self, dst: &mut [u8]) {
        utils::fill_bytes_via_u32(self, dst)
    }
}
