//! A table from paths to values, gone over in the byte order of the paths.
ghost use Rattle.std.specs.Prelude.{◌≡◌, ◌∷◌, ◌++◌, [], OnOk, OnErr, IfSome, IfNone, IfOk, is_some, option_copied, Some};
ghost use Rattle.std.specs.FinMap as map;
ghost use Rattle.tree_model.specs.Path.{path_cmp};

use crate::path::Path;
use std::alloc::{AllocError, Global};
use std::collections::BTreeMap;
use std::collections::btree_map::Iter;
use std::marker::Model;

/// A map from paths to values, in the byte order of the paths' texts.
///
/// Contracts see it as a finite map. Every table from paths in this repository is one of these.
#[derive(Drop)]
pub struct PathTable<V> {
    held: BTreeMap<Path, V>,
}

impl<V> Model for PathTable<V> {
    ghost use Rattle.std.specs.FinMap as map;
    ghost use Rattle.std.specs.Coded.{coded_ℕ, coded_list};
    ghost use Rattle.ids.specs.MapView.{map_of};
    ghost use Rattle.tree_model.specs.Path.{path_cmp};

    ghost Value = { map.FinMap path_cmp V };

    ghost coded = { map.code (coded_list (coded_list coded_ℕ)) V.code };

    ghost view = { λ a. map_of path_cmp a.held };
}

impl<V> PathTable<V> {
    /// The empty table. It takes no memory.
    pub fn new(alloc: Global) -> Self
        ensures value { result ≡ map.empty }
    {
        PathTable {
            held: BTreeMap::new(alloc),
        }
    }

    /// The number of paths in the table.
    pub fn len(&self) -> usize
        ensures value { result ≡ map.len self.now }
    {
        self.held.len()
    }

    /// The value at a path.
    pub fn get(&self, path: &Path) -> Option<&V>
        ensures value { option_copied result ≡ map.get self.now path.now }
    {
        self.held.get(path)
    }

    /// Whether the table has the path.
    pub fn has(&self, path: &Path) -> bool
        ensures value { result ≡ is_some (map.get self.now path.now) }
    {
        self.held.contains_key(path)
    }

    /// The entries, each once, in the byte order of the paths.
    pub fn iter(&self) -> Iter<'_, Path, V>
        ensures rest { result ≡ map.entries self.now }
    {
        self.held.iter()
    }
}

impl<V: Drop> PathTable<V> {
    /// Puts a value at a path, and gives the value that stood there. After an error the table is as it was, and the new
    /// value is let go.
    pub fn insert(&mut self, path: Path, value: V) -> Result<Option<V>, AllocError>
        ensures ok { OnOk result (self.new ≡ map.insert self.old path value) }
        ensures told { IfOk result (λ before. before ≡ map.get self.old path) }
        ensures err { OnErr result (self.new ≡ self.old) }
    {
        let before = match self.held.insert(path, value) {
            Ok(before) => before,
            Err(failed) => return Err(failed.into()),
        };
        Ok(before)
    }

    /// Takes a path out of the table, and tells the value that stood there.
    pub fn remove(&mut self, path: &Path) -> Option<V>
        ensures value { result ≡ map.get self.old path.now }
        ensures ok { self.new ≡ map.remove self.old path.now }
    {
        self.held.remove(path)
    }

    /// Takes the first entry out of the table, in the byte order of the paths, if there is one.
    pub fn pop_first(&mut self) -> Option<(Path, V)>
        ensures found { IfSome result (λ entry. map.entries self.old ≡ entry ∷ map.entries self.new) }
        ensures ok { IfSome result (λ entry. self.new ≡ map.remove self.old entry.0) }
        ensures value { IfSome result (λ entry. map.get self.old entry.0 ≡ Some entry.1) }
        ensures absent { IfNone result (self.old ≡ map.empty) }
        ensures err { IfNone result (self.new ≡ self.old) }
    {
        self.held.pop_first()
    }

    /// Takes the last entry out of the table, in the byte order of the paths, if there is one.
    pub fn pop_last(&mut self) -> Option<(Path, V)>
        ensures found { IfSome result (λ entry. map.entries self.old ≡ map.entries self.new ++ entry ∷ []) }
        ensures ok { IfSome result (λ entry. self.new ≡ map.remove self.old entry.0) }
        ensures value { IfSome result (λ entry. map.get self.old entry.0 ≡ Some entry.1) }
        ensures absent { IfNone result (self.old ≡ map.empty) }
        ensures err { IfNone result (self.new ≡ self.old) }
    {
        self.held.pop_last()
    }
}
