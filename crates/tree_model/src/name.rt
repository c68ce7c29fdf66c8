//! A name of a file or a directory inside its directory.
ghost use Rattle.std.specs.Prelude.{◌≡◌, ◌↔◌, IfOk, IsOk, Some, position};
ghost use Rattle.std.specs.Result.{result_err};
ghost use Rattle.tree_model.specs.Name.{name_fault, is_separator, has_dots};

use crate::limits::MAX_NAME;
use std::alloc::{AllocError, Global};
use std::cmp::Ordering;
use std::marker::Model;

/// Why a text is no name: the first of these that holds, in this order.
#[derive(Clone, Copy, Debug, PartialEq, Eq)]
pub enum BadName {
    /// It has no bytes.
    Empty,
    /// It has this many bytes, over 255.
    TooLong(u64),
    /// The place of its first `/` or NUL.
    Forbidden(u64),
    /// It is `.` or `..`.
    Dots,
}

/// Why no name was made of a text.
#[derive(Clone, Copy, Debug, PartialEq, Eq)]
pub enum NameFault {
    /// The text is no name.
    Bad(BadName),
    /// There was no memory for a copy of the text.
    NoMemory,
}

impl From<BadName> for NameFault {
    ghost use Rattle.std.specs.Prelude.{◌≡◌};
    ghost use Rattle.tree_model.specs.declared.name.NameFault.{NameFault};

    ghost from_gives = { λ fault r. r ≡ NameFault.Bad fault };

    fn from(fault: BadName) -> NameFault {
        NameFault::Bad(fault)
    }
}

impl From<AllocError> for NameFault {
    ghost use Rattle.std.specs.Prelude.{◌≡◌};
    ghost use Rattle.tree_model.specs.declared.name.NameFault.{NameFault};

    ghost from_gives = { λ _ r. r ≡ NameFault.NoMemory };

    fn from(_fault: AllocError) -> NameFault {
        NameFault::NoMemory
    }
}

/// What a file or a directory is called: UTF-8 of 1 to 255 bytes, in which there is no `/` and no NUL. It isn't `.` or `..`.
///
/// Contracts see it as its bytes, and every value is a good name. Names are ordered by their bytes.
/// Our own limits; they are those of common file systems.
#[derive(Debug, Drop)]
pub struct Name {
    text: String,
}

impl Model for Name {
    ghost use Rattle.std.specs.Prelude.{List, ℕ, string_bytes};
    ghost use Rattle.tree_model.specs.Name.{IsName};

    ghost Value = { List ℕ };

    ghost view = { λ a. string_bytes a.text };

    ghost invariant = { λ a. IsName (string_bytes a.text) };
}

impl Name {
    ghost use Rattle.std.specs.Prelude.{◌≡◌, ◌↔◌, IfOk, IsOk, Some, position};
    ghost use Rattle.std.specs.Result.{result_err};
    ghost use Rattle.tree_model.specs.Name.{name_fault, IsName};

    /// Tells whether a text is a name. It takes no memory.
    pub fn check(text: &str) -> Result<(), BadName>
        ensures refused { result_err result ≡ name_fault text.now }
    {
        let bytes = text.as_bytes();
        if bytes.is_empty() {
            return Err(BadName::Empty);
        }
        if bytes.len() > MAX_NAME {
            return Err(BadName::TooLong(bytes.len() as u64));
        }
        if let Some(place) = separator_place(bytes) {
            return Err(BadName::Forbidden(place as u64));
        }
        if is_dots(bytes) {
            return Err(BadName::Dots);
        }
        Ok(())
    }

    /// Makes a name of a text.
    pub fn read(alloc: Global, text: &str) -> Result<Name, NameFault>
        ensures value { IfOk result (λ name. name ≡ text.now) }

        // The refusal comes exactly where the text is no name; want of memory comes for names alone.
        ensures bad { (fault : BadName) → (result ≡ Err (NameFault.Bad fault)) ↔ (name_fault text.now ≡ Some fault) }
    {
        Name::check(text)?;
        let text = String::from_str(alloc, text)?;
        Ok(Name { text })
    }

    /// The name's text.
    pub fn as_str(&self) -> &str
        ensures value { result.now ≡ self.now }
        ensures name { IsName self.now }
    {
        self.text.as_str()
    }

    /// The name's bytes.
    pub fn bytes(&self) -> &[u8]
        ensures value { result.now ≡ self.now }
        ensures name { IsName self.now }
    {
        self.text.as_bytes()
    }

    /// A copy of the name.
    pub fn copy(&self, alloc: Global) -> Result<Name, AllocError>
        ensures value { IfOk result (λ name. name ≡ self.now) }
    {
        let text = String::from_str(alloc, self.text.as_str())?;
        Ok(Name { text })
    }
}

impl PartialEq for Name {
    ghost use Rattle.std.specs.Prelude.{nat_eq};
    ghost use Rattle.std.specs.Cmp.Lexicographic.{pointwise, nat_list_eq_equiv};
    ghost use Rattle.std.specs.Cmp.{partial_equiv_from_equiv};

    ghost eq = { pointwise nat_eq };

    ghost laws = { partial_equiv_from_equiv nat_list_eq_equiv };

    fn eq(&self, other: &Name) -> bool {
        self.bytes() == other.bytes()
    }
}

impl Eq for Name {
    ghost use Rattle.std.specs.Cmp.Lexicographic.{nat_list_eq_equiv};

    ghost laws = { nat_list_eq_equiv };
}

impl PartialOrd for Name {
    ghost use Rattle.std.specs.Ordering.{nat_cmp, as_partial_cmp};
    ghost use Rattle.std.specs.Cmp.Lexicographic.{slice_cmp};
    ghost use Rattle.std.specs.Cmp.{partial_order_from_own_ties};
    ghost use Rattle.std.specs.Cmp.Rules.{comparing};
    ghost use Rattle.std.proofs.Common.{rules};

    ghost partial_cmp = { as_partial_cmp (slice_cmp nat_cmp) };

    ghost laws = { partial_order_from_own_ties (Prim.search (comparing, rules)) (Prim.search (comparing, rules)) };

    fn partial_cmp(&self, other: &Name) -> Option<Ordering> {
        Some(self.cmp(other))
    }
}

impl Ord for Name {
    ghost use Rattle.std.specs.Ordering.{nat_cmp};
    ghost use Rattle.std.specs.Cmp.Lexicographic.{slice_cmp};
    ghost use Rattle.std.specs.Cmp.Rules.{comparing};
    ghost use Rattle.std.proofs.Common.{rules};

    ghost cmp = { slice_cmp nat_cmp };

    ghost total = { Prim.search (comparing, rules) };

    ghost matches_partial_cmp = { Prim.search (comparing, rules) };

    ghost matches_eq = { Prim.search (comparing, rules) };

    fn cmp(&self, other: &Name) -> Ordering {
        self.bytes().cmp(other.bytes())
    }
}

/// The place of the first byte that no name has.
fn separator_place(bytes: &[u8]) -> Option<usize>
    ensures { result ≡ position is_separator bytes.now }
{
    bytes.iter().position(|b| *b == b'/' || *b == 0)
}

/// Whether the bytes are `.` or `..`.
fn is_dots(bytes: &[u8]) -> bool
    ensures { result ≡ has_dots bytes.now }
{
    matches!(bytes, b"." | b"..")
}
