//! The entries of a directory in the order of their names.
ghost use Rattle.std.specs.Prelude.{◌≡◌, true, IfOk, IsTrue, OnErr, OnOk, reverse};
ghost use Rattle.std.specs.BTreeMap.{IsOrdered};
ghost use Rattle.std.specs.FinMap as map;
ghost use Rattle.ids.specs.MapView.{map_of};
ghost use Rattle.object_graph.specs.Objects.{by_name, in_name_order, name_cmp};
ghost use Rattle.tree_walk.specs.NameOrder.{descending, is_above};

use fs_objects::{DirObject, Dirent};
use std::alloc::{AllocError, Global};
use std::collections::BTreeMap;
use tree_model::Name;

/// The entries in ascending byte order of name. They are moved; where their names don't descend each name is copied once.
pub fn in_name_order(alloc: Global, directory: DirObject) -> Result<Vec<Dirent>, AllocError>
    ensures value { IfOk result (λ sorted. sorted.items ≡ in_name_order directory) }
{
    let DirObject { entries } = directory;
    let entries = entries.into_vec();
    if descend(entries.as_slice()) {
        return Ok(turned(entries));
    }
    let table = by_name(alloc, entries)?;
    values_of(alloc, table)
}

/// Whether the name of each entry is above that of the next one, as clients write them.
fn descend(entries: &[Dirent]) -> bool
    ensures value { IsTrue result → descending entries.now ≡ true }
{
    for done in 0..entries.len() {
        let at = entries.len() - 1 - done;
        if !is_above(&entries[at], &entries[at + 1..]) {
            return false;
        }
    }
    true
}

/// Whether the name of an entry is above that of the one behind it, if one is.
fn is_above(entry: &Dirent, behind: &[Dirent]) -> bool
    ensures value { result ≡ is_above entry.now behind.now }
{
    match behind {
        [] => true,
        [next, ..] => next.name.cmp(&entry.name).is_lt(),
    }
}

/// The entries in the other order.
fn turned(entries: Vec<Dirent>) -> Vec<Dirent>
    ensures value { result.items ≡ reverse entries.items }
{
    let mut entries = entries;
    entries.reverse();
    entries
}

/// The entries under their names.
fn by_name(alloc: Global, entries: Vec<Dirent>) -> Result<BTreeMap<Name, Dirent>, AllocError>
    ensures value { IfOk result (λ table. map_of name_cmp table ≡ by_name entries.items) }
    ensures ordered { IfOk result (IsOrdered name_cmp) }
{
    let mut entries = entries;
    let mut table = BTreeMap::new(alloc);
    while let Some(entry) = entries.pop() {
        let name = entry.name.copy(alloc)?;
        insert(&mut table, name, entry)?;
    }
    Ok(table)
}

/// Puts an entry into the table. After an error the table is as it was.
fn insert(table: &mut BTreeMap<Name, Dirent>, name: Name, entry: Dirent) -> Result<(), AllocError>
    ensures ok { OnOk result (map_of name_cmp table.new ≡ map.insert (map_of name_cmp table.old) name entry) }
    ensures err { OnErr result (map_of name_cmp table.new ≡ map_of name_cmp table.old) }
    ensures ordered { IsOrdered name_cmp table.new }
{
    match table.insert(name, entry) {
        Ok(_) => Ok(()),
        Err(failed) => Err(failed.into()),
    }
}

/// The entries of a table, in the order of their names.
fn values_of(alloc: Global, table: BTreeMap<Name, Dirent>) -> Result<Vec<Dirent>, AllocError>
    requires ordered { IsOrdered name_cmp table }
    ensures value { IfOk result (λ sorted. sorted.items ≡ map.values (map_of name_cmp table)) }
{
    let mut table = table;
    let mut sorted = Vec::with_capacity(alloc, table.len())?;
    while let Some((_, entry)) = table.pop_first() {
        sorted.push(entry)?;
    }
    Ok(sorted)
}
