//! A link over a reader and a writer, as standard input and output.

use http_front::{Link, LinkFailed};
use std::io::{Read, Write};

/// A connection over two streams. It tells none of its bytes, and counts the calls that failed.
#[derive(Drop)]
pub struct StandardLink<I, O> {
    input: I,
    output: O,
    faults: u64,
}

impl<I, O> StandardLink<I, O> {
    /// A link that takes from `input` and gives to `output`, unbuffered.
    pub fn new(input: I, output: O) -> StandardLink<I, O> {
        StandardLink {
            input,
            output,
            faults: 0,
        }
    }
}

impl<I: Read, O: Write> Link for StandardLink<I, O> {
    ghost use Rattle.std.specs.Prelude.{None};

    ghost left = { λ _. None };

    ghost taken = { λ _. None };

    ghost given = { λ _. None };

    ghost asked = { λ _. None };

    ghost faults = { λ s. s.faults };

    fn take(&mut self, into: &mut [u8]) -> Result<usize, LinkFailed> {
        match self.input.read(into) {
            Ok(count) => Ok(count),
            Err(_) => {
                self.faults = self.faults.saturating_add(1);
                Err(LinkFailed)
            }
        }
    }

    fn give(&mut self, piece: &[u8]) -> Result<(), LinkFailed> {
        match self.output.write_all(piece) {
            Ok(()) => Ok(()),
            Err(_) => {
                self.faults = self.faults.saturating_add(1);
                Err(LinkFailed)
            }
        }
    }
}
