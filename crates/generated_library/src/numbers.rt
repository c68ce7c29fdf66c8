//! The sequence of numbers that files are made of. Our own.
ghost use Rattle.std.specs.Prelude.{◌≡◌, ℕ, IfOk, OnOk};
ghost use Rattle.generated_library.specs.Generated.{after_file, byte_of, draw_of, file_bytes, next_number};

use std::alloc::{AllocError, Global};

/// A sequence of numbers: each draw makes the next one, x * 6364136223846793005 + 1442695040888963407 modulo 2^64, and gives its upper
/// half.
#[derive(Clone, Copy, Debug)]
pub(crate) struct Numbers {
    pub now: u64,
}

impl Numbers {
    /// A draw.
    fn draw(&mut self) -> u32
        ensures value { result ≡ draw_of self.old.now }
        ensures after { self.new.now ≡ next_number self.old.now }
    {
        self.now = self
            .now
            .wrapping_mul(6_364_136_223_846_793_005)
            .wrapping_add(1_442_695_040_888_963_407);
        (self.now >> 32) as u32
    }

    /// The upper eight bits of a draw.
    fn byte(&mut self) -> u8
        ensures value { result ≡ byte_of self.old.now }
        ensures after { self.new.now ≡ next_number self.old.now }
    {
        (self.draw() >> 24) as u8
    }

    /// The bytes of the next file: as many as a draw says, from 1 to 16,384.
    pub(crate) fn file(&mut self, alloc: Global) -> Result<Vec<u8>, AllocError>
        ensures value { IfOk result (λ bytes. bytes.items ≡ file_bytes self.old.now) }
        ensures after { OnOk result (self.new.now ≡ after_file self.old.now) }
    {
        let size = 1 + self.draw() % 16_384;
        let mut bytes = Vec::with_capacity(alloc, size as usize)?;
        for _i in 0..size {
            bytes.push_reserved(self.byte());
        }
        Ok(bytes)
    }
}
