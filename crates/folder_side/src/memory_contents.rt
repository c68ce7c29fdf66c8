//! The files and directories of a folder in memory.

ghost use Rattle.std.specs.Prelude.{◌≡◌, ◌≢◌, ◌↔◌, ◌++◌, true, IsTrue, Some, is_some, IfOk, OnOk, OnErr, option_copied};
ghost use Rattle.std.specs.Option.{option_map, option_to_list};
ghost use Rattle.std.specs.List.{filter_map, list_any};
ghost use Rattle.std.specs.FinMap as map;
ghost use Rattle.tree_model.specs.DirectorySurvival.{is_under};
ghost use Rattle.tree_model.specs.Path.{IsPath};
ghost use Rattle.folder_side.specs.declared.holding.Holding.TheVariants.{Dir};
ghost use Rattle.folder_side.specs.Folder.{IsFolder, at, is_dir, is_dir_at, listing_at, item_of, name_in, kind_of, CanStand, IsFree, HasNoneButFile, TakesFile, IsEmptyDir, IsRemovable, with_holding, without};
ghost use Rattle.folder_side.specs.MemoryFolder.{nothing, bytes_of, with_nameless};

use crate::folder::{Item, ItemKind, Listing};
use crate::holding::Holding;
use ids::Items;
use std::alloc::{AllocError, Global};
use std::marker::Model;
use tree_model::{Name, Path, PathTable};

/// What stands at each path, and how many entries of each directory have no good name.
///
/// Contracts see it as the contents of a folder: each entry stands in a directory.
#[derive(Drop)]
pub struct MemoryContents {
    paths: PathTable<Holding>,
    nameless: PathTable<u64>,
}

impl Model for MemoryContents {
    ghost use Rattle.std.specs.Prelude.{ℕ, List, refl};
    ghost use Rattle.std.specs.Coded.{coded_ℕ, coded_list, coded×, code_by};
    ghost use Rattle.std.specs.FinMap as map;
    ghost use Rattle.tree_model.specs.Path.{path_cmp};
    ghost use Rattle.folder_side.specs.declared.holding.Holding.{Holding};
    ghost use Rattle.folder_side.specs.contracts.holding.Holding as holding;
    ghost use Rattle.folder_side.specs.Folder.{Contents, IsFolder};

    ghost Value = { Contents };

    ghost coded = { code_by
        (map.FinMap path_cmp Holding × map.FinMap path_cmp ℕ)
        (coded× (map.code (coded_list (coded_list coded_ℕ)) holding.the_row.coded)
        (map.code (coded_list (coded_list coded_ℕ)) coded_ℕ))
        (λ c. (c.paths, c.nameless))
        (λ p. record { paths = p.0; nameless = p.1 })
        (λ _. refl) };

    ghost view = { λ a. record { paths = a.paths; nameless = a.nameless } };

    ghost invariant = { λ a. IsFolder (record { paths = a.paths; nameless = a.nameless }) };
}

impl MemoryContents {
    /// A folder without an entry. It takes no memory.
    pub fn new(alloc: Global) -> Self
        ensures value { result ≡ nothing }
    {
        MemoryContents {
            paths: PathTable::new(alloc),
            nameless: PathTable::new(alloc),
        }
    }

    /// What stands at each path.
    pub fn paths(&self) -> &PathTable<Holding>
        ensures value { result.now ≡ self.now.paths }
        ensures formed { IsFolder self.now }
    {
        &self.paths
    }

    /// Whether a path is the folder itself or a directory in it.
    pub fn is_dir(&self, dir: &Path) -> bool
        ensures value { result ≡ is_dir_at self.now dir.now }
    {
        dir.names().is_empty() || is_dir(self.paths.get(dir))
    }

    /// The bytes of a file.
    pub fn file(&self, path: &Path) -> Option<&[u8]>
        ensures value { option_map (λ bytes. bytes.now) result ≡ bytes_of (at self.now path.now) }
    {
        file_bytes(self.paths.get(path))
    }

    /// Whether anything stands at a path.
    pub fn has(&self, path: &Path) -> bool
        ensures value { result ≡ is_some (at self.now path.now) }
    {
        self.paths.get(path).is_some()
    }

    /// The kind of what stands at a path.
    pub fn kind(&self, path: &Path) -> Option<ItemKind>
        ensures value { result ≡ option_map kind_of (at self.now path.now) }
        ensures formed { IsFolder self.now }
    {
        kind_at(self.paths.get(path))
    }

    /// The listing of the folder itself or of a directory in it.
    pub fn list(&self, alloc: Global, dir: &Path) -> Result<Option<Listing>, AllocError>
        ensures value { IfOk result (λ listing. listing ≡ listing_at self.now dir.now) }
        ensures formed { IsFolder self.now }
    {
        let nameless = self.nameless.get(dir).copied().unwrap_or(0);
        if !self.is_dir(dir) {
            return Ok(None);
        }
        let items = items_in(alloc, &self.paths, dir)?;
        Ok(Some(Listing { items, nameless }))
    }

    /// Whether an entry may stand at the path: it has a directory to stand in.
    pub fn can_stand(&self, alloc: Global, path: &Path) -> Result<bool, AllocError>
        ensures value { IfOk result (λ can. IsTrue can ↔ CanStand self.now path.now) }
        ensures path { OnOk result (IsPath path.now) }
    {
        let dir = path.parent(alloc)?;
        Ok(!path.names().is_empty() && self.is_dir(&dir))
    }

    /// Whether nothing stands at the path yet, and an entry may stand there.
    pub fn is_free(&self, alloc: Global, path: &Path) -> Result<bool, AllocError>
        ensures value { IfOk result (λ can. IsTrue can ↔ IsFree self.now path.now) }
        ensures path { OnOk result (IsPath path.now) }
    {
        let stands = self.can_stand(alloc, path)?;
        Ok(stands && !self.paths.has(path))
    }

    /// Whether a file may be moved to the path.
    pub fn takes_file(&self, alloc: Global, path: &Path) -> Result<bool, AllocError>
        ensures value { IfOk result (λ can. IsTrue can ↔ TakesFile self.now path.now) }
        ensures path { OnOk result (IsPath path.now) }
    {
        let stands = self.can_stand(alloc, path)?;
        Ok(stands && has_none_but_file(self.paths.get(path)))
    }

    /// Whether the entry at the path can be removed: a file, or a directory with nothing in it.
    pub fn is_removable(&self, path: &Path) -> bool
        ensures value { IsTrue result ↔ IsRemovable self.now path.now (at self.now path.now) }
    {
        match self.paths.get(path) {
            None => false,
            Some(Holding::File(_)) => true,
            Some(Holding::Dir) => self.is_empty_dir(path),
            Some(Holding::Other) => false,
        }
    }

    /// Whether a directory has nothing in it.
    fn is_empty_dir(&self, dir: &Path) -> bool
        ensures value { IsTrue result ↔ IsEmptyDir self.now dir.now }
    {
        let nameless = self.nameless.get(dir).copied().unwrap_or(0);
        nameless == 0 && !has_under(&self.paths, dir)
    }

    /// Puts an entry at a path where it may stand and no directory is.
    pub fn put(&mut self, path: Path, holding: Holding) -> Result<(), AllocError>
        requires path { IsPath path }
        requires stands { CanStand self.old path }
        requires plain { at self.old path ≢ Some Dir }
        ensures ok { OnOk result (self.new ≡ with_holding path holding self.old) }
        ensures err { OnErr result (self.new ≡ self.old) }
    {
        self.paths.insert(path, holding)?;
        Ok(())
    }

    /// Takes an entry out that can be removed.
    pub fn remove(&mut self, path: &Path)
        requires fits { IsRemovable self.old path.now (at self.old path.now) }
        ensures ok { self.new ≡ without path.now self.old }
    {
        let _ = self.paths.remove(path);
    }

    /// Sets how many entries of a directory have no good name.
    pub fn set_nameless(&mut self, dir: Path, count: u64) -> Result<(), AllocError>
        requires fits { is_dir_at self.old dir ≡ true }
        ensures ok { OnOk result (self.new ≡ with_nameless dir count self.old) }
        ensures err { OnErr result (self.new ≡ self.old) }
    {
        self.nameless.insert(dir, count)?;
        Ok(())
    }
}

/// Whether a directory stands there.
fn is_dir(holding: Option<&Holding>) -> bool
    ensures value { result ≡ is_dir (option_copied holding.entry) }
{
    match holding {
        Some(Holding::Dir) => true,
        Some(Holding::File(_)) => false,
        Some(Holding::Other) => false,
        None => false,
    }
}

/// Whether nothing or a file stands there.
fn has_none_but_file(holding: Option<&Holding>) -> bool
    ensures value { IsTrue result ↔ HasNoneButFile (option_copied holding.entry) }
{
    match holding {
        Some(Holding::Dir) => false,
        Some(Holding::File(_)) => true,
        Some(Holding::Other) => false,
        None => true,
    }
}

/// The bytes of the file that stands there.
fn file_bytes(holding: Option<&Holding>) -> Option<&[u8]>
    ensures value { option_map (λ bytes. bytes.now) result ≡ bytes_of (option_copied holding.entry) }
{
    match holding {
        Some(Holding::Dir) => None,
        Some(Holding::File(bytes)) => Some(bytes.slice()),
        Some(Holding::Other) => None,
        None => None,
    }
}

/// The kind of what stands there.
fn kind_at(holding: Option<&Holding>) -> Option<ItemKind>
    ensures value { result ≡ option_map kind_of (option_copied holding.entry) }
{
    match holding {
        Some(there) => Some(kind_of(there)),
        None => None,
    }
}

/// The kind of an entry.
fn kind_of(holding: &Holding) -> ItemKind
    ensures value { result ≡ kind_of holding.now }
{
    match holding {
        Holding::Dir => ItemKind::Dir,
        Holding::File(_) => ItemKind::File,
        Holding::Other => ItemKind::Other,
    }
}

/// The name under which a path stands in a directory, if it does.
fn name_in<'a>(dir: &[Name], path: &'a [Name]) -> Option<&'a Name>
    ensures value { option_copied result ≡ name_in dir.now path.now }
{
    match (dir.split_first(), path.split_first()) {
        (Some((first, dirs)), Some((name, names))) => {
            if first == name {
                name_in(dirs, names)
            } else {
                None
            }
        }
        (None, Some((name, names))) => { if names.is_empty() { Some(name) } else { None } }
        (Some(_), None) => None,
        (None, None) => None,
    }
}

/// Whether a table has a path under a directory.
fn has_under(paths: &PathTable<Holding>, dir: &Path) -> bool
    ensures value { result ≡ list_any (λ entry. is_under dir.now entry.0) (map.entries paths.now) }
{
    for (path, _) in paths.iter() {
        if path.is_under(dir) {
            return true;
        }
    }
    false
}

/// The entries of a directory, in byte order of their names.
fn items_in(
    alloc: Global,
    paths: &PathTable<Holding>,
    dir: &Path,
) -> Result<Items<Item>, AllocError>
    ensures value { IfOk result (λ items. items ≡ filter_map (item_of dir.now) (map.entries paths.now)) }
{
    let mut items = Items::new(alloc);
    for (path, holding) in paths.iter() {
        push_item(alloc, &mut items, dir, path, holding)?;
    }
    Ok(items)
}

/// Appends an entry where it stands in the directory.
fn push_item(
    alloc: Global,
    items: &mut Items<Item>,
    dir: &Path,
    path: &Path,
    holding: &Holding,
) -> Result<(), AllocError>
    ensures ok { OnOk result (items.new ≡ items.old ++ option_to_list (item_of dir.now (path.now, holding.now))) }
{
    if let Some(name) = name_in(dir.names(), path.names()) {
        items.push(Item {
            name: name.copy(alloc)?,
            kind: kind_of(holding),
        })?;
    }
    Ok(())
}
