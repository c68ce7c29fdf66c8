//! Keys: the kind and the id of an object, in the order of the kinds and then of the ids.
ghost use Rattle.std.specs.Prelude.{◌≡◌};
ghost use Rattle.std.proofs.Common.{rules};
ghost use Rattle.std.specs.Cmp.{partial_order_from_own_ties};
ghost use Rattle.std.specs.Cmp.Rules.{comparing};
ghost use Rattle.std.specs.Ordering.{on, nat_cmp, as_partial_cmp};

use crate::items::Items;
use crate::object_id::ObjId;
use std::cmp::Ordering;

/// What an object is: a commit, a file or directory, or a block of a file's bytes. Ordered as listed.
#[derive(Clone, Copy, Debug, PartialEq, Eq, Hash)]
pub enum Kind {
    Commit,
    Fs,
    Block,
}

/// Where an object is stored. Ordered by kind and then by id.
#[derive(Clone, Copy, Debug, PartialEq, Eq, PartialOrd, Ord, Hash)]
pub struct Key {
    pub kind: Kind,
    pub id: ObjId,
}

/// A list of object ids.
pub type IdList = Items<ObjId>;

/// A list of keys.
pub type KeyList = Items<Key>;

impl Kind {
    ghost use Rattle.std.specs.Prelude.{◌≤◌, length};
    ghost use Rattle.ids.specs.Kind.{kind_of, kind_word};

    /// The word for the kind, in paths, bodies and lines.
    pub fn word(self) -> &'static str
        ensures value { result.now ≡ kind_word self }
        ensures few { length result.now ≤ 6 }
    {
        match self {
            Kind::Commit => "commit",
            Kind::Fs => "fs",
            Kind::Block => "block",
        }
    }

    /// The kind that a word names.
    pub fn of(word: &str) -> Option<Kind>
        ensures value { result ≡ kind_of word.now }
    {
        if word == "commit" {
            Some(Kind::Commit)
        } else if word == "fs" {
            Some(Kind::Fs)
        } else if word == "block" {
            Some(Kind::Block)
        } else {
            None
        }
    }
}

impl Ord for Kind {
    ghost use Rattle.ids.specs.Kind.{kind_place};

    ghost cmp = { on kind_place nat_cmp };

    ghost total = { Prim.search (comparing, rules) };

    ghost matches_partial_cmp = { Prim.search (comparing, rules) };

    ghost matches_eq = { Prim.search (comparing, rules) };

    fn cmp(&self, other: &Kind) -> Ordering {
        (*self as u8).cmp(&(*other as u8))
    }
}

impl PartialOrd for Kind {
    ghost use Rattle.ids.specs.Kind.{kind_place};

    ghost partial_cmp = { as_partial_cmp (on kind_place nat_cmp) };

    ghost laws = { partial_order_from_own_ties (Prim.search (comparing, rules)) (Prim.search (comparing, rules)) };

    fn partial_cmp(&self, other: &Kind) -> Option<Ordering> {
        Some(self.cmp(other))
    }
}
