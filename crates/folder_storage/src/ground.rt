//! Where libraries are kept.
ghost use Rattle.std.specs.Prelude.{◌≡◌, ◌≢◌, ℕ, List, IfErr, IfOk, OnErr, Some};
ghost use Rattle.object_store.specs.Shelf.{CountsFaults};
ghost use Rattle.folder_storage.specs.Ground.{AllGiveNoMore, FindsLibrary, GivesBack, GivesOfLibrary, GivesStanding, HandedOut, HandsOut, HasNoFaults, MakesLibrary, StandAsBefore, Standing, TakesBack, count_sum};

use ids::LibId;
use object_store::{Shelf, ShelfFailed};

/// Where libraries are kept, each by the word of its folder and its id.
///
/// A ground in memory tells how each library stands, and has a library once it was made. To find or to make one whose
/// standing is told, and which isn't out, fails but for want of memory never. An adapter over a real one
/// tells nothing, and may have a library from its first state text on alone: one that goes back without is forgotten,
/// and can be made anew. A shelf that was handed out is given back, and a library that the ground has then stands there
/// with what the shelf holds. The count of faults rises in each call that answers `Shelf` and in no other but
/// `give_back`, up to 2^64 - 1. A shelf that is handed out has counted none, so a fault is counted once.
///
/// Of every ground, one that tells nothing too: a shelf that is handed out may give no more than the library that was
/// named, and no call makes another library give more. What may be given of a library changes as its shelf goes back.
pub trait Ground {
    ghost use Rattle.std.specs.Prelude.{Option};
    ghost use Rattle.object_store.specs.declared.shelf.Slot.{Slot};

    type S: Shelf;

    // How a library stands, by the word of its folder and its id.
    ghost stands: { Self → List ℕ → List ℕ → Option Standing };

    // What a fetch of a slot of a library's shelf may give, as that is handed out: by the word of its folder and its id.
    ghost may_give: { Self → List ℕ → List ℕ → Slot → Option (List ℕ) → Type 0 };

    ghost faults: { Self → ℕ };

    /// The shelf of a library; none exactly where there is no such library.
    fn find(&mut self, folder: &str, lib: LibId) -> Result<Option<Self::S>, ShelfFailed>
        ensures found { (standing : Standing) → stands self.old folder.now lib ≡ Some standing
            → IfOk result (FindsLibrary Self.S.contents standing) }
        ensures ok { IfOk result (HandsOut (stands self.old) (stands self.new) folder.now lib) }
        ensures err { OnErr result (StandAsBefore (stands self.old) (stands self.new)) }
        ensures there { (standing : Standing) → stands self.old folder.now lib ≡ Some standing → standing ≢ HandedOut
            → IfErr result (λ failed. failed ≡ ShelfFailed.NoMemory) }
        ensures faults { CountsFaults (faults self.old) (faults self.new) result }
        ensures fresh { IfOk result (HasNoFaults Self.S.faults) }
        ensures handed { IfOk result (GivesOfLibrary Self.S.may_give (may_give self.old folder.now lib)) }
        ensures gives { AllGiveNoMore (may_give self.old) (may_give self.new) };

    /// The empty shelf of a library that is made; none exactly where there is such a library.
    fn make(&mut self, folder: &str, lib: LibId) -> Result<Option<Self::S>, ShelfFailed>
        ensures found { (standing : Standing) → stands self.old folder.now lib ≡ Some standing
            → IfOk result (MakesLibrary Self.S.contents standing) }
        ensures ok { IfOk result (HandsOut (stands self.old) (stands self.new) folder.now lib) }
        ensures err { OnErr result (StandAsBefore (stands self.old) (stands self.new)) }
        ensures there { (standing : Standing) → stands self.old folder.now lib ≡ Some standing
            → IfErr result (λ failed. failed ≡ ShelfFailed.NoMemory) }
        ensures faults { CountsFaults (faults self.old) (faults self.new) result }
        ensures fresh { IfOk result (HasNoFaults Self.S.faults) }
        ensures handed { IfOk result (GivesOfLibrary Self.S.may_give (may_give self.old folder.now lib)) }
        ensures gives { AllGiveNoMore (may_give self.old) (may_give self.new) };

    /// Takes back the shelf of a library, which it handed out. It takes no memory and never fails. The count grows by
    /// the shelf's.
    fn give_back(&mut self, folder: &str, lib: LibId, shelf: Self::S)
        ensures ok { TakesBack (stands self.old) (stands self.new) folder.now lib (Self.S.contents shelf) }
        ensures faults { faults self.new ≡ count_sum (faults self.old) (Self.S.faults shelf) }
        ensures gives { GivesBack (may_give self.old) (may_give self.new) folder.now lib (Self.S.may_give shelf) };

    /// The count of faults, those of the shelves that came back included. It takes no memory and never fails.
    fn faults(&self) -> u64
        ensures value { result ≡ faults self.now };

    // A library that is told gives what it has.
    ghost told: { (libraries : Self) (folder lib : List ℕ) (standing : Standing) (slot : Slot) (given : Option (List ℕ))
        → stands libraries folder lib ≡ Some standing → may_give libraries folder lib slot given → GivesStanding standing slot given };
}
