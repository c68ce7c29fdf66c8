//! Where the client's folders and dials come from.
ghost use Rattle.std.specs.Prelude.{◌≡◌, ◌++◌, ◌∷◌, [], ℕ, Bool, List, Option, IfOk, IsTrue, OnOk, OnErr};
ghost use Rattle.folder_side.specs.Folder.{Contents, FolderFails};
ghost use Rattle.http_front.specs.Dial.{count_sum};
ghost use Rattle.client_desk.specs.Desk.{SameElsewhere};

use folder_side::{Folder, FolderFault};
use http_front::Dial;
use ids::LibId;

/// The command that asks for the folder of a job.
#[derive(Clone, Copy, Debug, PartialEq, Eq)]
pub enum Asking {
    /// It is looked at.
    Status,
    /// It is synced with the other jobs of the list.
    Start,
    /// It is synced because it was named.
    Sync,
    /// The same, where an empty folder is wanted.
    Download,
}

/// What a folder is asked for as.
#[derive(Clone, Copy, Debug, PartialEq, Eq)]
pub enum Claim {
    /// The client's own folder.
    Own,
    /// One that is to be a job of this library.
    New(LibId),
    /// That of a job of this library, which the list has.
    Listed {
        lib: LibId,
        asking: Asking,
        /// Its index has a path.
        has_paths: bool,
    },
}

/// Where the client's folders and dials come from, and to which they go back.
///
/// A desk in memory tells what the folder at each path holds, and which dials came back; one over the system tells no
/// contents. What is handed out has counted no fault, and what comes back adds its count: one count for all folders, one for
/// all dials. To take something back takes no memory and never fails. Our own.
///
/// A folder goes back to the path for which it was handed out. The desk has a place for it then; at a path for which it has
/// none, what would go back is let go.
///
/// A desk may refuse a folder, by a fault that it counts, by what it is asked for as; and it may put a marker into one that was synced,
/// beside what the folder holds. No clause says when.
pub trait Desk {
    type F: Folder;

    type N: Dial + Drop;

    // There is a place for the folder at a path: this is so as the desk is made, and never changes.
    ghost has_place: { Self → List ℕ → Bool };

    // What the folder at each path holds, where that is told.
    ghost holds: { Self → List ℕ → Option Contents };

    // The dials that came back so far, in order.
    ghost dials: { Self → List Self.N };

    ghost folder_faults: { Self → ℕ };

    ghost dial_faults: { Self → ℕ };

    /// The folder at a path, which its caller gives back. The path is not empty where the words of the command line gave it.
    fn folder(&mut self, dir: &str, claim: Claim) -> Result<Self::F, FolderFault>
        ensures told { IfOk result (λ folder. Self.F.told folder ≡ holds self.old dir.now) }
        ensures fresh { IfOk result (λ folder. Self.F.faults folder ≡ 0) }
        ensures found { OnOk result (IsTrue (has_place self.old dir.now)) }
        ensures others { OnOk result (SameElsewhere (holds self.old) (holds self.new) dir.now) }
        ensures err { OnErr result (holds self.new ≡ holds self.old) }
        ensures faults { FolderFails (folder_faults self.old) (folder_faults self.new) result }
        ensures stays { (has_place self.new ≡ has_place self.old) × (dials self.new ≡ dials self.old) × (dial_faults self.new ≡ dial_faults self.old) };

    /// Takes back the folder at a path, and hears whether a sync of it ended well, behind which it may get a marker.
    fn give_back(&mut self, dir: &str, folder: Self::F, is_synced: bool)
        ensures told { IsTrue (has_place self.old dir.now) → holds self.new dir.now ≡ Self.F.told folder }
        ensures others { SameElsewhere (holds self.old) (holds self.new) dir.now }
        ensures faults { folder_faults self.new ≡ count_sum (folder_faults self.old) (Self.F.faults folder) }
        ensures stays { (has_place self.new ≡ has_place self.old) × (dials self.new ≡ dials self.old) × (dial_faults self.new ≡ dial_faults self.old) };

    /// Tells whether the marker of the folder that came back last could be put, if one was to be.
    fn check_marker(&mut self) -> Result<(), FolderFault>
        ensures faults { FolderFails (folder_faults self.old) (folder_faults self.new) result }
        ensures stays { (has_place self.new ≡ has_place self.old) × (holds self.new ≡ holds self.old) × (dials self.new ≡ dials self.old)
            × (dial_faults self.new ≡ dial_faults self.old) };

    /// Takes the marker of a library, whose job was taken from the list, away from the folder at a path, if that can be.
    fn take_marker(&mut self, dir: &str, lib: &LibId)
        ensures stays { (has_place self.new ≡ has_place self.old) × (holds self.new ≡ holds self.old) × (folder_faults self.new ≡ folder_faults self.old)
            × (dials self.new ≡ dials self.old) × (dial_faults self.new ≡ dial_faults self.old) };

    /// A dial, to which no link came back yet.
    fn dial(&mut self) -> Self::N
        ensures none { (Self.N.back result ≡ []) × (Self.N.dialled result ≡ []) }
        ensures fresh { Self.N.faults result ≡ 0 }
        ensures stays { (has_place self.new ≡ has_place self.old) × (holds self.new ≡ holds self.old) × (folder_faults self.new ≡ folder_faults self.old)
            × (dials self.new ≡ dials self.old) × (dial_faults self.new ≡ dial_faults self.old) };

    /// Takes back a dial.
    fn hang_up(&mut self, dial: Self::N)
        ensures back { dials self.new ≡ dials self.old ++ dial ∷ [] }
        ensures faults { dial_faults self.new ≡ count_sum (dial_faults self.old) (Self.N.faults dial) }
        ensures stays { (has_place self.new ≡ has_place self.old) × (holds self.new ≡ holds self.old) × (folder_faults self.new ≡ folder_faults self.old) };
}
