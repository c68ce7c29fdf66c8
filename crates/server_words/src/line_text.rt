//! Room for one line, which takes no memory.
ghost use Rattle.std.specs.Prelude.{◌≡◌, ◌+◌, ◌≤◌, ◌++◌, [], length};

use std::marker::Model;

/// The most bytes that a line has.
const ROOM: usize = 128;

/// The bytes of a line, at most 128. Contracts see it as the list of them.
#[derive(Debug, Drop)]
pub struct LineText {
    room: [u8; ROOM],
    size: usize,
}

impl Model for LineText {
    ghost use Rattle.std.specs.Prelude.{List, ℕ, ◌≤◌, take};

    ghost Value = { List ℕ };

    ghost view = { λ a. take a.size a.room };

    ghost invariant = { λ a. a.size ≤ 128 };
}

impl LineText {
    /// No bytes.
    pub(crate) fn new() -> LineText
        ensures value { result ≡ [] }
    {
        LineText {
            room: [0; ROOM],
            size: 0,
        }
    }

    /// The bytes.
    pub fn slice(&self) -> &[u8]
        ensures value { result.now ≡ self.now }
    {
        &self.room[..self.size]
    }

    /// Appends a piece, for which there is room.
    pub(crate) fn push(&mut self, piece: &[u8])
        requires fits { length self.old + length piece.now ≤ 128 }
        ensures ok { self.new ≡ self.old ++ piece.now }
        ensures bound { length self.new ≡ length self.old + length piece.now }
    {
        let end = self.size + piece.len();
        self.room[self.size..end].copy_from_slice(piece);
        self.size = end;
    }
}
