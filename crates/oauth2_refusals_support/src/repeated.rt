//! A random generator for tests that returns the same word each time.

ghost use Rattle.std.specs.Prelude.{ℕ};
ghost use Rattle.rand_core.specs.Steps.{steps_u32, stream_of};

use rand_core::Rng;
use rand_core::utils::{self, NextWord};
use std::marker::Model;

/// A generator whose every word of 32 bits is this one.
#[derive(Drop)]
pub struct Repeated(pub u32);

impl Model for Repeated {
    ghost Value = { ℕ };

    ghost view = { λ r. r.0 };
}

impl NextWord<u32> for Repeated {
    ghost step = { λ r. (r, r) };

    fn next_word(&mut self) -> u32 {
        self.0
    }
}

impl Rng for Repeated {
    ghost stream = { stream_of (steps_u32 (λ r. (r, r))) };

    fn next_u32(&mut self) -> u32 {
        self.next_word()
    }

    fn next_u64(&mut self) -> u64 {
        utils::next_u64_via_u32(self)
    }

    fn fill_bytes(&mut self, dst: &mut [u8]) {
        utils::fill_bytes_via_u32(self, dst)
    }
}
