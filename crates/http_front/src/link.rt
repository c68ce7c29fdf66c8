//! Links and sinks: the two ends of a connection, and where lines are printed.
ghost use Rattle.std.specs.Prelude.{◌≡◌, ◌<◌, ◌≤◌, ℕ, List, length, take, IfOk, OnErr};
ghost use Rattle.std.specs.Io.KnownBytes.{IsAtEnd, append_known, prepend_known};
ghost use Rattle.http_front.specs.Link.{CountsFaults, Gives, asked_once_more};

/// A take, a give or a put that failed.
#[derive(Clone, Copy, Debug, PartialEq, Eq)]
pub struct LinkFailed;

/// One end of a connection of bytes, as a socket or a pair of pipes.
///
/// A link in memory tells the bytes that it has left, those that were taken and those that were
/// given; an adapter over a real one tells none of them. The count of faults rises in each call
/// that fails and in no other, up to 2^64 - 1.
pub trait Link {
    ghost use Rattle.std.specs.Prelude.{Option};
    ghost use Rattle.http_front.specs.Link.{Asked};

    // The bytes that takes will give from here on.
    ghost left: { Self → Option (List ℕ) };

    // The bytes that takes have given so far.
    ghost taken: { Self → Option (List ℕ) };

    // The bytes that were given to it so far.
    ghost given: { Self → Option (List ℕ) };

    // For each take so far, how many bytes had been taken and given as it began.
    ghost asked: { Self → Option (List Asked) };

    ghost faults: { Self → ℕ };

    /// Takes 1 to `into.len()` bytes of what is left to the front of `into`, or none at the end
    /// of input, and says how many. A take that fails moves nothing.
    fn take(&mut self, into: &mut [u8]) -> Result<usize, LinkFailed>
        requires { 0 < length into.old }
        ensures bound { IfOk result (λ n. n ≤ length into.new) }
        ensures left { IfOk result (λ n. left self.old ≡ prepend_known (take n into.new) (left self.new)) }
        ensures taken { IfOk result (λ n. taken self.new ≡ append_known (taken self.old) (take n into.new)) }
        ensures end { IfOk result (λ n. n ≡ 0 → IsAtEnd (left self.old)) }
        ensures err_left { OnErr result (left self.new ≡ left self.old) }
        ensures err_taken { OnErr result (taken self.new ≡ taken self.old) }
        ensures stays { given self.new ≡ given self.old }
        ensures asked { asked self.new ≡ asked_once_more (asked self.old) (taken self.old) (given self.old) }
        ensures faults { CountsFaults (faults self.old) (faults self.new) result };

    /// Gives the piece. After a give that fails a front of the piece was given.
    fn give(&mut self, piece: &[u8]) -> Result<(), LinkFailed>
        ensures given { Gives (given self.old) (given self.new) piece.now result }
        ensures stays_left { left self.new ≡ left self.old }
        ensures stays_taken { taken self.new ≡ taken self.old }
        ensures stays_asked { asked self.new ≡ asked self.old }
        ensures faults { CountsFaults (faults self.old) (faults self.new) result };
}

/// Where a program prints its lines: a link that only gives.
pub trait Sink {
    ghost use Rattle.std.specs.Prelude.{Option};

    // The bytes that were put so far.
    ghost given: { Self → Option (List ℕ) };

    ghost faults: { Self → ℕ };

    /// Puts the piece. After a put that fails a front of the piece was put.
    fn put_all(&mut self, piece: &[u8]) -> Result<(), LinkFailed>
        ensures given { Gives (given self.old) (given self.new) piece.now result }
        ensures faults { CountsFaults (faults self.old) (faults self.new) result };
}
