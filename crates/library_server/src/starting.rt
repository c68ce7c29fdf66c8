//! How a command starts the library that it names.
ghost use Rattle.std.specs.Prelude.{◌≡◌, ℕ, List, IfOk, IfErr, OnOk, Option, Some, Err, ⊤, false, codes};
ghost use Rattle.std.specs.FinMap as map;
ghost use Rattle.ids.specs.FaultCount.{FailsBy};
ghost use Rattle.ids.specs.Key.{Objects};
ghost use Rattle.depot.specs.DepotView.{IsGood, state_of};
ghost use Rattle.depot.specs.Giving.{GivesBy};
ghost use Rattle.depot.specs.Start.{IsNextOf, OpensTold, without_store};
ghost use Rattle.folder_storage.specs.Ground.{Absent, GivesBack, Standing, TakesBack, count_sum};
ghost use Rattle.library_state.specs.StateSpelling.{text_of};
ghost use Rattle.object_store.specs.Shelf.{Contents, GivesAlso};
ghost use Rattle.object_store.specs.declared.shelf.Slot.TheVariants as slots;
ghost use Rattle.object_store.specs.StoreView.{AddsNoStray, HasNoStray, Keeps, ReadsShelf, objects_of, status_of};
ghost use Rattle.server_words.specs.Spelling.{location_text};
ghost use Rattle.library_server.specs.Answering.{NeverFails};
ghost use Rattle.library_server.specs.Starting.{IsDueOpening, IsMemory, IsNotBrought, IsNotStarted, IsOfOpening, IsOpenedState, IsTextOf, LeavesShelf, LeftUnstarted, OpensAs, OpensFrom, OpensSo, is_unbrought_counted, is_unstarted_counted, memory_library, objects_in, without_count};
ghost use Rattle.library_server.specs.Lines.{fault_of_not_brought};
ghost use Rattle.library_server.specs.Making.{RoseWhere};
ghost use Rattle.library_server.specs.Standing.{HandsOutOr, OthersGiveNoMore};
ghost use Rattle.library_server.specs.Whole.{IsWhole, OutWhole};

use crate::making::{NewLibrary, make_library};
use crate::not_done::{NotBrought, NotMade, NotStarted};
use depot::{Depot, StartFault, read_state};
use folder_storage::Ground;
use ids::{LibId, Text};
use library_state::{Clock, Secret};
use object_store::{Shelf, ShelfFailed, Store};
use server_words::Location;
use std::alloc::{AllocError, Global};

/// The word of a place.
pub(crate) fn folder_word(location: &Location) -> &str
    ensures value { result.now ≡ location_text location.now }
{
    match location {
        Location::Memory => ":memory:",
        Location::Folder(path) => path.slice(),
    }
}

/// Starts the library that a command names. One that is not there is made first where its place is memory, and then used
/// as it was made. What lies there and is another library is not started, and nothing is written.
///
/// After a refusal what was handed out is back.
pub(crate) fn start_library<G: Ground, C: Clock>(
    alloc: Global,
    libraries: &mut G,
    location: &Location,
    lib: LibId,
    clock: &C,
) -> Result<Depot<G::S>, NotBrought>
    ensures any { IfOk result (λ depot. IsOpenedState (G.may_give libraries.old (location_text location.now) lib) location.now lib (C.shows clock.now) depot.state) }
    ensures gives { IfOk result (λ depot. GivesBy (IsOfOpening location.now lib (C.shows clock.now) depot.state) (G.may_give libraries.old (location_text location.now) lib) (G.S.may_give depot.store.shelf)) }
    ensures settled { IfOk result (λ depot. depot.unsettled ≡ false) }
    ensures lying { IfOk result (λ depot. HasNoStray G.S.contents depot.store) }
    ensures shown { (standing : Standing) → G.stands libraries.old (location_text location.now) lib ≡ Some standing
        → OpensSo G.S.contents G.S.faults location.now lib (C.shows clock.now) standing result (G.stands libraries.new (location_text location.now) lib) }
    ensures back { HandsOutOr G.S.contents (G.stands libraries.old) (G.stands libraries.new) (location_text location.now) lib result }
    ensures others { OthersGiveNoMore (G.may_give libraries.old) (G.may_give libraries.new) (location_text location.now) lib }
    ensures cause { IfErr result (IsNotBrought (G.may_give libraries.old (location_text location.now) lib) location.now lib (C.shows clock.now)) }
    ensures faults { IfErr result (λ why. RoseWhere (is_unbrought_counted why) (G.faults libraries.old) (G.faults libraries.new)) }
    ensures steady { NeverFails G.S.faults → (standing : Standing) → G.stands libraries.old (location_text location.now) lib ≡ Some standing → IsWhole standing
        → OutWhole fault_of_not_brought G.S.contents result }
    ensures good { IfOk result (IsGood G.S.contents G.S.faults) }
    ensures count { OnOk result (G.faults libraries.new ≡ G.faults libraries.old) }
{
    let (depot, _count) = match start_counted(alloc, libraries, location, lib, clock) {
        Ok(opened) => opened,
        Err(why) => return Err(why),
    };
    Ok(depot)
}

/// Starts the library that a command names, as `start_library` does, and tells how many objects it has.
pub(crate) fn start_counted<G: Ground, C: Clock>(
    alloc: Global,
    libraries: &mut G,
    location: &Location,
    lib: LibId,
    clock: &C,
) -> Result<(Depot<G::S>, u64), NotBrought>
    ensures any { IfOk result (λ opened. IsOpenedState (G.may_give libraries.old (location_text location.now) lib) location.now lib (C.shows clock.now) opened.0.state) }
    ensures gives { IfOk result (λ opened. GivesBy (IsOfOpening location.now lib (C.shows clock.now) opened.0.state) (G.may_give libraries.old (location_text location.now) lib) (G.S.may_give opened.0.store.shelf)) }
    ensures settled { IfOk result (λ opened. opened.0.unsettled ≡ false) }
    ensures lying { IfOk result (λ opened. HasNoStray G.S.contents opened.0.store) }
    ensures shown { (standing : Standing) → G.stands libraries.old (location_text location.now) lib ≡ Some standing
        → OpensSo G.S.contents G.S.faults location.now lib (C.shows clock.now) standing (without_count result) (G.stands libraries.new (location_text location.now) lib) }
    ensures back { HandsOutOr G.S.contents (G.stands libraries.old) (G.stands libraries.new) (location_text location.now) lib result }
    ensures others { OthersGiveNoMore (G.may_give libraries.old) (G.may_give libraries.new) (location_text location.now) lib }
    ensures cause { IfErr result (IsNotBrought (G.may_give libraries.old (location_text location.now) lib) location.now lib (C.shows clock.now)) }
    ensures faults { IfErr result (λ why. RoseWhere (is_unbrought_counted why) (G.faults libraries.old) (G.faults libraries.new)) }
    ensures steady { NeverFails G.S.faults → (standing : Standing) → G.stands libraries.old (location_text location.now) lib ≡ Some standing → IsWhole standing
        → OutWhole fault_of_not_brought G.S.contents (without_count result) }
    ensures good { IfOk result (λ opened. IsGood G.S.contents G.S.faults opened.0) }
    ensures count { OnOk result (G.faults libraries.new ≡ G.faults libraries.old) }
    ensures size { (standing : Standing) → G.stands libraries.old (location_text location.now) lib ≡ Some standing → IfOk result (λ opened. opened.1 ≡ objects_in standing) }
{
    let folder = folder_word(location);
    let shelf = match libraries.find(folder, lib) {
        Ok(Some(shelf)) => shelf,
        Ok(None) => return start_absent(alloc, libraries, location, lib, clock),
        Err(failed) => return Err(NotBrought::Storage(failed)),
    };
    match start_on(alloc, shelf, &lib) {
        Ok(opened) => Ok(opened),
        Err((shelf, why)) => {
            libraries.give_back(folder, lib, shelf);
            Err(NotBrought::Refused(why))
        }
    }
}

/// Gives back the shelf of a library that was started or made. Where it tells what it holds, it stands for a library.
pub(crate) fn bring_back<G: Ground>(libraries: &mut G, folder: &str, lib: LibId, depot: Depot<G::S>)
    ensures ok { TakesBack (G.stands libraries.old) (G.stands libraries.new) folder.now lib (G.S.contents depot.store.shelf) }
    ensures gives { GivesBack (G.may_give libraries.old) (G.may_give libraries.new) folder.now lib (G.S.may_give depot.store.shelf) }
    ensures good { IsGood G.S.contents G.S.faults depot }
    ensures faults { G.faults libraries.new ≡ count_sum (G.faults libraries.old) (G.S.faults depot.store.shelf) }
{
    libraries.give_back(folder, lib, depot.close().end());
}

/// Starts a library that is not there: it is made in memory, and nowhere else. It has one object.
fn start_absent<G: Ground, C: Clock>(
    alloc: Global,
    libraries: &mut G,
    location: &Location,
    lib: LibId,
    clock: &C,
) -> Result<(Depot<G::S>, u64), NotBrought>
    ensures any { IfOk result (λ opened. IsOpenedState (G.may_give libraries.old (location_text location.now) lib) location.now lib (C.shows clock.now) opened.0.state) }
    ensures gives { IfOk result (λ opened. GivesBy (IsOfOpening location.now lib (C.shows clock.now) opened.0.state) (G.may_give libraries.old (location_text location.now) lib) (G.S.may_give opened.0.store.shelf)) }
    ensures settled { IfOk result (λ opened. opened.0.unsettled ≡ false) }
    ensures lying { IfOk result (λ opened. HasNoStray G.S.contents opened.0.store) }
    ensures shown { G.stands libraries.old (location_text location.now) lib ≡ Some Absent
        → OpensSo G.S.contents G.S.faults location.now lib (C.shows clock.now) Absent (without_count result) (G.stands libraries.new (location_text location.now) lib) }
    ensures back { HandsOutOr G.S.contents (G.stands libraries.old) (G.stands libraries.new) (location_text location.now) lib result }
    ensures others { OthersGiveNoMore (G.may_give libraries.old) (G.may_give libraries.new) (location_text location.now) lib }
    ensures cause { IfErr result (IsNotBrought (G.may_give libraries.old (location_text location.now) lib) location.now lib (C.shows clock.now)) }
    ensures faults { IfErr result (λ why. RoseWhere (is_unbrought_counted why) (G.faults libraries.old) (G.faults libraries.new)) }
    ensures steady { NeverFails G.S.faults → G.stands libraries.old (location_text location.now) lib ≡ Some Absent → OutWhole fault_of_not_brought G.S.contents (without_count result) }
    ensures good { IfOk result (λ opened. IsGood G.S.contents G.S.faults opened.0) }
    ensures count { OnOk result (G.faults libraries.new ≡ G.faults libraries.old) }
    ensures size { IfOk result (λ opened. opened.1 ≡ 1) }
{
    match location {
        Location::Folder(_) => Err(NotBrought::Absent),
        Location::Memory => make_in_memory(alloc, libraries, lib, clock),
    }
}

/// Makes the library that a command names in memory, where there is none. It has one object.
fn make_in_memory<G: Ground, C: Clock>(
    alloc: Global,
    libraries: &mut G,
    lib: LibId,
    clock: &C,
) -> Result<(Depot<G::S>, u64), NotBrought>
    ensures any { IfOk result (λ opened. IsOpenedState (G.may_give libraries.old (codes ":memory:") lib) Location.Memory lib (C.shows clock.now) opened.0.state) }
    ensures gives { IfOk result (λ opened. GivesBy (IsOfOpening Location.Memory lib (C.shows clock.now) opened.0.state) (G.may_give libraries.old (codes ":memory:") lib) (G.S.may_give opened.0.store.shelf)) }
    ensures settled { IfOk result (λ opened. opened.0.unsettled ≡ false) }
    ensures lying { IfOk result (λ opened. HasNoStray G.S.contents opened.0.store) }
    ensures shown { G.stands libraries.old (codes ":memory:") lib ≡ Some Absent
        → OpensSo G.S.contents G.S.faults Location.Memory lib (C.shows clock.now) Absent (without_count result) (G.stands libraries.new (codes ":memory:") lib) }
    ensures back { HandsOutOr G.S.contents (G.stands libraries.old) (G.stands libraries.new) (codes ":memory:") lib result }
    ensures others { OthersGiveNoMore (G.may_give libraries.old) (G.may_give libraries.new) (codes ":memory:") lib }
    ensures cause { IfErr result (IsNotBrought (G.may_give libraries.old (codes ":memory:") lib) Location.Memory lib (C.shows clock.now)) }
    ensures faults { IfErr result (λ why. RoseWhere (is_unbrought_counted why) (G.faults libraries.old) (G.faults libraries.new)) }
    ensures steady { NeverFails G.S.faults → G.stands libraries.old (codes ":memory:") lib ≡ Some Absent → OutWhole fault_of_not_brought G.S.contents (without_count result) }
    ensures good { IfOk result (λ opened. IsGood G.S.contents G.S.faults opened.0) }
    ensures count { OnOk result (G.faults libraries.new ≡ G.faults libraries.old) }
    ensures size { IfOk result (λ opened. opened.1 ≡ 1) }
{
    let new = match memory_library(alloc, lib) {
        Ok(new) => new,
        Err(_) => return Err(NotBrought::Storage(ShelfFailed::NoMemory)),
    };
    match make_library(alloc, libraries, ":memory:", &new, clock.now()) {
        Ok(depot) => Ok((depot, 1)),
        Err(fault) => Err(NotBrought::Unmade(fault)),
    }
}

/// The library that is made in memory, with forty `a` as its secret.
fn memory_library(alloc: Global, lib: LibId) -> Result<NewLibrary, AllocError>
    ensures value { IfOk result (λ new. new ≡ memory_library lib) }
{
    let name = Text::copy(alloc, "memory")?;
    let user = Text::copy(alloc, "me")?;
    let secret = Secret::from_bytes([0xaa; 20]);
    Ok(NewLibrary {
        lib,
        name,
        user,
        secret,
    })
}

/// Starts the library of a shelf, which is this one, and tells how many objects it has. After a refusal the shelf is given back.
fn start_on<S: Shelf>(
    alloc: Global,
    shelf: S,
    lib: &LibId,
) -> Result<(Depot<S>, u64), (S, NotStarted)>
    ensures gives { IfOk result (λ opened. GivesAlso (S.may_give shelf) (S.may_give opened.0.store.shelf) slots.Status (Some (text_of opened.0.state))) }
    ensures settled { IfOk result (λ opened. opened.0.unsettled ≡ false) }
    ensures lying { IfOk result (λ opened. HasNoStray S.contents opened.0.store) }
    ensures named { IfOk result (λ opened. opened.0.state.lib ≡ lib.now) }
    ensures any { IfOk result (λ opened. IsNextOf (S.may_give shelf) opened.0.state) }
    ensures good { IfOk result (λ opened. IsGood S.contents S.faults opened.0) }
    ensures shown { (held : Contents) → S.contents shelf ≡ Some held → IfOk result (λ opened. OpensFrom S.contents S.faults lib.now held opened.0) }
    ensures refused { (held : Contents) → S.contents shelf ≡ Some held → OpensAs lib.now held.objects held.status (without_store result) }
    ensures left { (held : Contents) → S.contents shelf ≡ Some held → IfErr result (λ refused. LeavesShelf refused.1 held (S.contents refused.0)) }
    ensures cause { IfErr result (λ refused. IsNotStarted (S.may_give shelf) lib.now refused.1) }
    ensures faults { IfErr result (λ refused. FailsBy {T = ⊤} is_unstarted_counted (S.faults shelf) (S.faults refused.0) (Err refused.1)) }
    ensures size { (held : Contents) → S.contents shelf ≡ Some held → IfOk result (λ opened. opened.1 ≡ map.len held.objects) }
{
    let mut store = match Store::start(alloc, shelf) {
        Ok(store) => store,
        Err((shelf, fault)) => return Err((shelf, NotStarted::Fault(StartFault::Store(fault)))),
    };
    match check_named(alloc, &mut store, lib) {
        Ok(()) => {}
        Err(why) => return Err((store.end(), why)),
    }
    let count = store.count();
    match start_named(alloc, store, lib) {
        Ok(depot) => Ok((depot, count)),
        Err((store, why)) => Err((store.end(), why)),
    }
}

/// Refuses a store whose state text is another library's, or none. It writes nothing.
fn check_named<S: Shelf>(alloc: Global, store: &mut Store<S>, lib: &LibId) -> Result<(), NotStarted>
    ensures named { (status : Option (List ℕ)) → status_of S.contents store.old ≡ Some status → IfOk result (λ done. IsTextOf lib.now status) }
    ensures stays { Keeps S.contents store.old store.new }
    ensures refused { (objects : Objects) → (status : Option (List ℕ)) → status_of S.contents store.old ≡ Some status
        → IfErr result (IsDueOpening lib.now objects status) }
    ensures reads { ReadsShelf S.may_give S.texts store.old.shelf store.new.shelf }
    ensures cause { IfErr result (IsNotStarted (S.may_give store.old.shelf) lib.now) }
    ensures faults { FailsBy is_unstarted_counted (S.faults store.old.shelf) (S.faults store.new.shelf) result }
{
    match read_state(alloc, store) {
        Ok(state) => {
            if state.lib != *lib {
                return Err(NotStarted::Other);
            }
            Ok(())
        }
        Err(fault) => Err(NotStarted::Fault(fault)),
    }
}

/// Starts the library of a store, unless it is another one.
fn start_named<S: Shelf>(
    alloc: Global,
    store: Store<S>,
    lib: &LibId,
) -> Result<Depot<S>, (Store<S>, NotStarted)>
    ensures gives { IfOk result (λ depot. GivesAlso (S.may_give store.shelf) (S.may_give depot.store.shelf) slots.Status (Some (text_of depot.state))) }
    ensures settled { IfOk result (λ depot. depot.unsettled ≡ false) }
    ensures lying { IfOk result (λ depot. AddsNoStray S.contents store depot.store) }
    ensures err_lying { IfErr result (λ refused. AddsNoStray S.contents store refused.0) }
    ensures named { IfOk result (λ depot. depot.state.lib ≡ lib.now) }
    ensures any { IfOk result (λ depot. IsNextOf (S.may_give store.shelf) depot.state) }
    ensures good { IfOk result (IsGood S.contents S.faults) }
    ensures shown { (objects : Objects) → objects_of S.contents store ≡ Some objects → IfOk result (OpensTold S.contents S.faults store objects) }
    ensures refused { (objects : Objects) → (status : Option (List ℕ)) → objects_of S.contents store ≡ Some objects → status_of S.contents store ≡ Some status
        → IsTextOf lib.now status → OpensAs lib.now objects status (without_store result) }
    ensures left { (status : Option (List ℕ)) → status_of S.contents store ≡ Some status → IsTextOf lib.now status
        → IfErr result (λ refused. LeftUnstarted S.contents store refused.0 refused.1) }
    ensures stays { IfErr result (λ refused. objects_of S.contents refused.0 ≡ objects_of S.contents store) }
    ensures cause { IfErr result (λ refused. IsNotStarted (S.may_give store.shelf) lib.now refused.1) }
    ensures faults { IfErr result (λ refused. FailsBy {T = ⊤} is_unstarted_counted (S.faults store.shelf) (S.faults refused.0.shelf) (Err refused.1)) }
{
    match Depot::start(alloc, store) {
        Ok(depot) => {
            // Storage that gives one text and then another.
            if depot.lib() != *lib {
                return Err((depot.close(), NotStarted::Other));
            }
            Ok(depot)
        }
        Err((store, fault)) => Err((store, NotStarted::Fault(fault))),
    }
}
