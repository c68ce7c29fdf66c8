//! Libraries in memory.
ghost use Rattle.std.specs.Prelude.{◌≡◌, ◌≢◌, ◌<◌, ℕ, List, [], ◌∷◌, ◌++◌, vec_len, slice_index_or, slice_set, IfErr, IfNone, IfOk, IfSome, OnErr, OnOk, None, Some};
ghost use Rattle.object_store.specs.Shelf.{CountsFaults};
ghost use Rattle.object_store.specs.Shelf.{Tells};
ghost use Rattle.folder_storage.specs.Ground.{Absent, AllGiveNoMore, FindsLibrary, GivesOfLibrary, HandedOut, HandsOut, HasNoFaults, MakesLibrary, StandAsBefore, Standing, no_contents};
ghost use Rattle.folder_storage.specs.MemoryGround.{IsPlaceOf, entry_out, gives_in, is_at, returned, standing_in, standings};

use crate::ground::Ground;
use crate::steady_shelf::SteadyShelf;
use ids::{LibId, Text};
use object_store::{Shelf, ShelfFailed};
use std::alloc::Global;

/// A library of a ground in memory, and its shelf unless that was handed out.
#[derive(Drop)]
pub struct KeptLibrary {
    pub folder: Text,
    pub lib: LibId,
    pub shelf: Option<SteadyShelf>,
}

/// Libraries in memory, on shelves of which no call fails. It tells how each stands, and has a library once it was made,
/// with or without a state text. It answers `Shelf` only where a library is looked for that was handed out, and never where one is made. Looking for one
/// takes no memory, and gives no other fault.
#[derive(Drop)]
pub struct MemoryGround {
    alloc: Global,
    libraries: Vec<KeptLibrary>,
    faults: u64,
}

impl MemoryGround {
    /// A ground without libraries. It takes no memory.
    pub fn new(alloc: Global) -> MemoryGround
        ensures value { result.libraries.items ≡ [] }
        ensures faults { result.faults ≡ 0 }
    {
        MemoryGround {
            alloc,
            libraries: Vec::new(alloc),
            faults: 0,
        }
    }
}

impl Ground for MemoryGround {
    ghost use Rattle.folder_storage.specs.MemoryGround.{gives_in, gives_told, standings};

    type S = SteadyShelf;

    ghost stands = { λ ground. standings ground.libraries.items };

    ghost may_give = { λ ground. gives_in ground.libraries.items };

    ghost faults = { λ ground. ground.faults };

    fn find(&mut self, folder: &str, lib: LibId) -> Result<Option<SteadyShelf>, ShelfFailed>
        ensures found { (standing : Standing) → standings self.old.libraries.items folder.now lib ≡ Some standing
            → IfOk result (FindsLibrary (λ shelf. Some shelf.contents) standing) }
        ensures ok { IfOk result (HandsOut (standings self.old.libraries.items) (standings self.new.libraries.items) folder.now lib) }
        ensures err { OnErr result (StandAsBefore (standings self.old.libraries.items) (standings self.new.libraries.items)) }
        ensures shelf { IfErr result (λ failed. (failed ≡ ShelfFailed.Shelf) × (standing_in self.old.libraries.items folder.now lib ≡ HandedOut)) }
        ensures there { (standing : Standing) → standings self.old.libraries.items folder.now lib ≡ Some standing → standing ≢ HandedOut
            → IfErr result (λ failed. failed ≡ ShelfFailed.NoMemory) }
        ensures faults { CountsFaults self.old.faults self.new.faults result }
        ensures fresh { IfOk result (HasNoFaults (λ shelf. 0)) }
        ensures handed { IfOk result (GivesOfLibrary (λ shelf. Tells shelf.contents) (gives_in self.old.libraries.items folder.now lib)) }
        ensures gives { AllGiveNoMore (gives_in self.old.libraries.items) (gives_in self.new.libraries.items) }
    {
        let place = match place_of(&self.libraries, folder, &lib) {
            Some(place) => place,
            None => return Ok(None),
        };
        match take_at(&mut self.libraries, place) {
            Some(shelf) => Ok(Some(shelf)),
            None => {
                self.faults = self.faults.saturating_add(1);
                Err(ShelfFailed::Shelf)
            }
        }
    }

    fn make(&mut self, folder: &str, lib: LibId) -> Result<Option<SteadyShelf>, ShelfFailed>
        ensures found { (standing : Standing) → standings self.old.libraries.items folder.now lib ≡ Some standing
            → IfOk result (MakesLibrary (λ shelf. Some shelf.contents) standing) }
        ensures ok { IfOk result (HandsOut (standings self.old.libraries.items) (standings self.new.libraries.items) folder.now lib) }
        ensures err { OnErr result (StandAsBefore (standings self.old.libraries.items) (standings self.new.libraries.items)) }
        ensures no_memory { IfErr result (λ failed. failed ≡ ShelfFailed.NoMemory) }
        ensures there { (standing : Standing) → standings self.old.libraries.items folder.now lib ≡ Some standing
            → IfErr result (λ failed. failed ≡ ShelfFailed.NoMemory) }
        ensures faults { CountsFaults self.old.faults self.new.faults result }
        ensures fresh { IfOk result (HasNoFaults (λ shelf. 0)) }
        ensures handed { IfOk result (GivesOfLibrary (λ shelf. Tells shelf.contents) (gives_in self.old.libraries.items folder.now lib)) }
        ensures gives { AllGiveNoMore (gives_in self.old.libraries.items) (gives_in self.new.libraries.items) }
    {
        match place_of(&self.libraries, folder, &lib) {
            Some(_) => Ok(None),
            None => match add_library(self.alloc, &mut self.libraries, folder, lib) {
                Ok(shelf) => Ok(Some(shelf)),
                Err(failed) => Err(failed),
            },
        }
    }

    fn give_back(&mut self, folder: &str, lib: LibId, shelf: SteadyShelf) {
        self.faults = self.faults.saturating_add(shelf.faults());
        if let Some(place) = place_of(&self.libraries, folder, &lib) {
            lay_at(&mut self.libraries, place, shelf);
        }
    }

    fn faults(&self) -> u64 {
        self.faults
    }

    ghost told = { λ ground. gives_told ground.libraries.items };
}

/// Whether it is this library.
fn is_at(kept: &KeptLibrary, folder: &str, lib: &LibId) -> bool
    ensures value { result ≡ is_at kept.now folder.now lib.now }
{
    kept.folder.slice() == folder && kept.lib == *lib
}

/// The place of the first entry of a library.
fn place_of(libraries: &[KeptLibrary], folder: &str, lib: &LibId) -> Option<usize>
    ensures found { IfSome result (IsPlaceOf libraries.now folder.now lib.now) }
    ensures absent { IfNone result (standing_in libraries.now folder.now lib.now ≡ Absent) }
{
    for (place, kept) in libraries.iter().enumerate() {
        if is_at(kept, folder, lib) {
            return Some(place);
        }
    }
    None
}

/// Adds a library whose shelf is handed out, and gives the shelf, which is empty. Want of memory is the only failure.
fn add_library(
    alloc: Global,
    libraries: &mut Vec<KeptLibrary>,
    folder: &str,
    lib: LibId,
) -> Result<SteadyShelf, ShelfFailed>
    ensures ok { OnOk result (libraries.new.items ≡ libraries.old.items ++ entry_out folder.now lib ∷ []) }
    ensures value { IfOk result (λ shelf. shelf.contents ≡ no_contents) }
    ensures err { OnErr result (libraries.new.items ≡ libraries.old.items) }
    ensures no_memory { IfErr result (λ failed. failed ≡ ShelfFailed.NoMemory) }
{
    let folder = match Text::copy(alloc, folder) {
        Ok(folder) => folder,
        Err(_) => return Err(ShelfFailed::NoMemory),
    };
    let entry = KeptLibrary {
        folder,
        lib,
        shelf: None,
    };
    match libraries.push(entry) {
        Ok(()) => Ok(SteadyShelf::new(alloc)),
        Err(_) => Err(ShelfFailed::NoMemory),
    }
}

/// Takes the shelf of an entry.
fn take_at(libraries: &mut Vec<KeptLibrary>, place: usize) -> Option<SteadyShelf>
    requires fits { place < vec_len libraries.old }
    ensures value { (d : KeptLibrary) → result ≡ (slice_index_or libraries.old.items place d).shelf }
    ensures ok { (d : KeptLibrary) → libraries.new.items
        ≡ slice_set libraries.old.items place (record (slice_index_or libraries.old.items place d) { shelf = None }) }
{
    libraries[place].shelf.take()
}

/// Lays the shelf of an entry, unless it has one.
fn lay_at(libraries: &mut Vec<KeptLibrary>, place: usize, shelf: SteadyShelf)
    requires fits { place < vec_len libraries.old }
    ensures ok { (d : KeptLibrary) → libraries.new.items
        ≡ slice_set libraries.old.items place (record (slice_index_or libraries.old.items place d) {
          shelf = returned (slice_index_or libraries.old.items place d).shelf shelf;
        }) }
{
    if libraries[place].shelf.is_none() {
        libraries[place].shelf = Some(shelf);
    }
}
