//! What the holder of a token may do.
ghost use Rattle.std.specs.Prelude.{◌≡◌};
ghost use Rattle.std.proofs.Common.{rules};
ghost use Rattle.std.specs.Cmp.{partial_order_from_own_ties};
ghost use Rattle.std.specs.Cmp.Rules.{comparing};
ghost use Rattle.std.specs.Ordering.{on, nat_cmp, as_partial_cmp};
ghost use Rattle.library_state.specs.Rights.{right_text, right_of};

use std::cmp::Ordering;

/// What the holder of a token may do, in rising order: each right has those before it.
#[derive(Clone, Copy, Debug, PartialEq, Eq)]
pub enum Right {
    /// Look at the library and take its files.
    Read,
    /// Also add objects and change the head.
    Write,
    /// Also set how long history is kept, and collect garbage.
    Owner,
}

impl Right {
    /// The right as it is written: `r`, `rw` or `own`.
    pub fn text(&self) -> &'static str
        ensures value { result.now ≡ right_text self.now }
    {
        match self {
            Right::Read => "r",
            Right::Write => "rw",
            Right::Owner => "own",
        }
    }

    /// The right that a text is.
    pub fn of(text: &str) -> Option<Right>
        ensures value { result ≡ right_of text.now }
    {
        if text == "r" {
            Some(Right::Read)
        } else if text == "rw" {
            Some(Right::Write)
        } else if text == "own" {
            Some(Right::Owner)
        } else {
            None
        }
    }
}

impl Ord for Right {
    ghost use Rattle.library_state.specs.Rights.{right_number};

    ghost cmp = { on right_number nat_cmp };

    ghost total = { Prim.search (comparing, rules) };

    ghost matches_partial_cmp = { Prim.search (comparing, rules) };

    ghost matches_eq = { Prim.search (comparing, rules) };

    fn cmp(&self, other: &Right) -> Ordering {
        (*self as u8).cmp(&(*other as u8))
    }
}

impl PartialOrd for Right {
    ghost use Rattle.library_state.specs.Rights.{right_number};

    ghost partial_cmp = { as_partial_cmp (on right_number nat_cmp) };

    ghost laws = { partial_order_from_own_ties (Prim.search (comparing, rules)) (Prim.search (comparing, rules)) };

    fn partial_cmp(&self, other: &Right) -> Option<Ordering> {
        Some(self.cmp(other))
    }
}
