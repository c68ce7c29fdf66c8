//! A sink over a writer, as standard output.

use http_front::{LinkFailed, Sink};
use std::io::Write;

/// Where lines are printed. It tells none of its bytes, and counts the calls that failed.
#[derive(Drop)]
pub struct StandardSink<O> {
    output: O,
    faults: u64,
}

impl<O> StandardSink<O> {
    /// A sink over this stream, unbuffered.
    pub fn new(output: O) -> StandardSink<O> {
        StandardSink { output, faults: 0 }
    }
}

impl<O: Write> Sink for StandardSink<O> {
    ghost use Rattle.std.specs.Prelude.{None};

    ghost given = { λ _. None };

    ghost faults = { λ s. s.faults };

    fn put_all(&mut self, piece: &[u8]) -> Result<(), LinkFailed> {
        match self.output.write_all(piece) {
            Ok(()) => Ok(()),
            Err(_) => {
                self.faults = self.faults.saturating_add(1);
                Err(LinkFailed)
            }
        }
    }
}
