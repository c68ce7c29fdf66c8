//! Directory objects: entries with distinct names.
use crate::dirent::Dirent;
use ids::Items;
use std::marker::Model;

/// A directory: its entries, no two of which have the same name.
///
/// Contracts see it as the list of its entries. Entries stand in any order.
#[derive(Drop)]
pub struct DirObject {
    pub entries: Items<Dirent>,
}

impl Model for DirObject {
    ghost use Rattle.std.specs.Prelude.{List};
    ghost use Rattle.std.specs.List.{IsDistinct};
    ghost use Rattle.std.specs.Str.{bytes_eq};
    ghost use Rattle.fs_objects.specs.declared.dirent.Dirent.{Dirent};

    ghost Value = { List Dirent };

    ghost use Rattle.fs_objects.specs.Directory.{names_of};

    ghost view = { λ a. a.entries };

    ghost invariant = { λ a. IsDistinct bytes_eq (names_of a.entries) };
}
