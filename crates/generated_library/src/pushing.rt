//! A push of the generated files: their blocks and objects, the directories, a commit, and the update.
ghost use Rattle.std.specs.Prelude.{◌≡◌, ◌≢◌, ◌<◌, ◌≤◌, ◌||◌, ℕ, IfErr, IfOk, List, None, Ok, OnOk, Some, codes, false, length, not};
ghost use Rattle.std.specs.FinMap as map;
ghost use Rattle.ids.specs.ObjectId.{nil};
ghost use Rattle.sha1.specs.Sha1.{sha1};
ghost use Rattle.fs_objects.specs.FsObject.{fs_of};
ghost use Rattle.fs_objects.specs.declared.fs_object.FsObject.TheVariants as file_variants;
ghost use Rattle.commit_objects.specs.Made.{made};
ghost use Rattle.sync_calls.specs.Hall.{AreReady, made_with, shares_of, shown_by};
ghost use Rattle.tree_merge.specs.TreeBuilding.{IsClash};
ghost use Rattle.generated_library.specs.Filled.{HasCommit, HasFiles, HasTree, IsBeside, Pushes, PutsAll, PutsBoth, PutsFile, Stores, entries_of, entry_by, file_id, file_object, file_text, is_marked, is_put, marked, pushed_bytes, pushed_files, put_entry, with_entry};
ghost use Rattle.generated_library.specs.Generated.{after_file, bytes_pushed, file_bytes, files_from, tree_of};
ghost use Rattle.generated_library.specs.Leading.{Any, Leads};
ghost use Rattle.generated_library.specs.Stopping.{StopsAsBuilt, StopsFor, StopsWhere};

use crate::asking::{Asker, NotFilled, put, update};
use crate::directories::{build_at, time_of};
use crate::numbers::Numbers;
use crate::paths::{dir_of, path_of};
use commit_objects::Commit;
use fs_objects::{FileObject, FsObject};
use ids::{Bytes, Items, Key, KeyTable, Kind, ObjId, Text};
use object_graph::Entry;
use object_store::Shelf;
use std::alloc::{AllocError, Global};
use std::sync::Wait;
use sync_calls::{Hall, HallPass};
use tree_merge::BuildFault;
use tree_model::{Path, PathTable};

/// The mode of each file, as Unix has it: a plain file that its owner writes and all read.
const MODE: u32 = 33_188;

/// Which files are put, and how.
#[derive(Clone, Copy, Debug)]
pub(crate) struct Round {
    /// How many files there are.
    pub count: u32,
    /// The number that the sequence begins with.
    pub number: u64,
    /// Whether every tenth has one byte more. Only these are put then.
    pub is_second: bool,
}

/// A commit that was pushed, how many paths its tree has, and how many bytes the files of it.
#[derive(Clone, Copy, Debug)]
pub(crate) struct Pushed {
    pub commit: ObjId,
    pub paths: u64,
    pub bytes: u64,
}

/// Pushes the files of a round over a commit.
pub(crate) fn push<S: Shelf, R: Wait>(
    rt: &R,
    alloc: Global,
    hall: &Hall<S>,
    pass: &mut HallPass<S>,
    asker: &Asker,
    round: Round,
    parent: ObjId,
) -> Result<Pushed, NotFilled>
    requires ready { AreReady S.contents S.may_give S.texts S.faults hall.now pass.old }
    requires few { round.count ≤ 10000 }
    ensures ready { AreReady S.contents S.may_give S.texts S.faults hall.now pass.new }
    ensures size { (shares_of pass.new ≡ shares_of pass.old) × (made_with pass.new ≡ made_with pass.old) }
    ensures bytes { IfOk result (λ pushed. pushed.bytes ≡ bytes_pushed round.is_second round.count round.number) }
    ensures paths { IfOk result (λ pushed. pushed.paths ≡ map.len (tree_of asker.now.moment (pushed_files round.is_second 0 (files_from round.count round.number)))) }
    ensures leads { IfOk result (λ pushed. Leads S.contents S.faults (shown_by pass.old) (shown_by pass.new) (IsBeside round.is_second parent (files_from round.count round.number))
        (Pushes pushed.commit parent asker.now.moment (pushed_files round.is_second 0 (files_from round.count round.number)))) }
    ensures stops { IfErr result (StopsWhere S.contents S.may_give S.texts S.faults asker.now.lib asker.now.secret
        (IsClash (entries_of asker.now.moment (pushed_files round.is_second 0 (files_from round.count round.number)))) asker.now.moment pass.new) }
{
    let mut entries = PathTable::new(alloc);
    let bytes = put_files(rt, alloc, hall, pass, asker, round, &mut entries)?;
    let paths = entries.len() as u64;
    let root = put_directories(rt, alloc, hall, pass, asker, entries)?;
    let commit = put_commit(rt, alloc, hall, pass, asker, root, parent)?;
    update(rt, hall, pass, asker, commit)?;
    Ok(Pushed {
        commit,
        paths,
        bytes,
    })
}

/// Puts the blocks and file objects of a round, and adds the entries of all files and directories. It tells how many bytes the files
/// have.
fn put_files<S: Shelf, R: Wait>(
    rt: &R,
    alloc: Global,
    hall: &Hall<S>,
    pass: &mut HallPass<S>,
    asker: &Asker,
    round: Round,
    entries: &mut PathTable<Entry>,
) -> Result<u64, NotFilled>
    requires ready { AreReady S.contents S.may_give S.texts S.faults hall.now pass.old }
    requires few { round.count ≤ 10000 }
    requires empty { entries.old ≡ map.empty }
    ensures ready { AreReady S.contents S.may_give S.texts S.faults hall.now pass.new }
    ensures size { (shares_of pass.new ≡ shares_of pass.old) × (made_with pass.new ≡ made_with pass.old) }
    ensures value { IfOk result (λ total. total ≡ bytes_pushed round.is_second round.count round.number) }
    ensures entries { IfOk result (λ total. entries.new ≡ entries_of asker.now.moment (pushed_files round.is_second 0 (files_from round.count round.number))) }
    ensures leads { IfOk result (λ total. Leads S.contents S.faults (shown_by pass.old) (shown_by pass.new) (HasFiles round.is_second (files_from round.count round.number))
        (Stores (pushed_files round.is_second 0 (files_from round.count round.number)))) }
    ensures stops { IfErr result (StopsFor S.contents S.may_give S.texts S.faults asker.now.lib asker.now.secret asker.now.moment pass.new) }
{
    let mut numbers = Numbers { now: round.number };
    let mut total = 0u64;
    for number in 0..round.count {
        let size = put_next(
            rt,
            alloc,
            hall,
            pass,
            asker,
            round,
            number,
            &mut numbers,
            entries,
        )?;
        total = total.saturating_add(size);
    }
    Ok(total)
}

/// Puts the next file of a round, which has this number, and adds its entries. It tells how many bytes it has.
fn put_next<S: Shelf, R: Wait>(
    rt: &R,
    alloc: Global,
    hall: &Hall<S>,
    pass: &mut HallPass<S>,
    asker: &Asker,
    round: Round,
    number: u32,
    numbers: &mut Numbers,
    entries: &mut PathTable<Entry>,
) -> Result<u64, NotFilled>
    requires ready { AreReady S.contents S.may_give S.texts S.faults hall.now pass.old }
    requires few { number < 10000 }
    ensures ready { AreReady S.contents S.may_give S.texts S.faults hall.now pass.new }
    ensures size { (shares_of pass.new ≡ shares_of pass.old) × (made_with pass.new ≡ made_with pass.old) }
    ensures value { IfOk result (λ size. size ≡ length (pushed_bytes round.is_second number (file_bytes numbers.old.now))) }
    ensures after { OnOk result (numbers.new.now ≡ after_file numbers.old.now) }
    ensures entries { OnOk result (entries.new ≡ with_entry asker.now.moment number (pushed_bytes round.is_second number (file_bytes numbers.old.now)) entries.old) }
    ensures leads { OnOk result (Leads S.contents S.faults (shown_by pass.old) (shown_by pass.new) Any
        (PutsFile (is_put round.is_second number) (pushed_bytes round.is_second number (file_bytes numbers.old.now)))) }
    ensures stops { IfErr result (StopsFor S.contents S.may_give S.texts S.faults asker.now.lib asker.now.secret asker.now.moment pass.new) }
{
    let mut bytes = numbers.file(alloc)?;
    let is_changed = is_marked(round.is_second, number);
    mark(&mut bytes, is_changed)?;
    let size = bytes.len() as u64;
    let is_new = is_put(round.is_second, is_changed);
    let id = put_file(rt, alloc, hall, pass, asker, bytes, is_new)?;
    add_file(alloc, entries, asker.moment, number, id, size)?;
    Ok(size)
}

/// Whether a push changes the file of this number: the second every tenth, and the first none.
fn is_marked(is_second: bool, number: u32) -> bool
    ensures value { result ≡ is_marked is_second number }
{
    is_second && number % 10 == 0
}

/// Whether a push puts a file: the first each, and the second those that it changes.
fn is_put(is_second: bool, is_changed: bool) -> bool
    ensures value { result ≡ (is_changed || not is_second) }
{
    is_changed || !is_second
}

/// Appends the mark of a file that is changed.
fn mark(bytes: &mut Vec<u8>, is_changed: bool) -> Result<(), AllocError>
    ensures ok { OnOk result (bytes.new.items ≡ marked is_changed bytes.old.items) }
{
    if !is_changed {
        return Ok(());
    }
    match bytes.push(b'!') {
        Ok(()) => Ok(()),
        Err(_) => Err(AllocError),
    }
}

/// Adds the entry of the file of this number, in its directory.
fn add_file(
    alloc: Global,
    entries: &mut PathTable<Entry>,
    moment: u64,
    number: u32,
    id: ObjId,
    size: u64,
) -> Result<(), AllocError>
    requires few { number < 100000 }
    ensures ok { OnOk result (entries.new ≡ put_entry number (entry_by moment id size) entries.old) }
{
    let dir = dir_of(alloc, number)?;
    add(entries, dir, Entry::Dir)?;
    let path = path_of(alloc, number)?;
    let entry = entry_of(alloc, moment, id, size)?;
    add(entries, path, entry)
}

/// Adds an entry, or puts it in the place of one.
fn add(entries: &mut PathTable<Entry>, path: Path, entry: Entry) -> Result<(), AllocError>
    ensures ok { OnOk result (entries.new ≡ map.insert entries.old path entry) }
{
    match entries.insert(path, entry) {
        Ok(_before) => Ok(()),
        Err(AllocError) => Err(AllocError),
    }
}

/// The entry of a file.
fn entry_of(alloc: Global, moment: u64, id: ObjId, size: u64) -> Result<Entry, AllocError>
    ensures value { IfOk result (λ entry. entry ≡ entry_by moment id size) }
{
    Ok(Entry::File {
        id,
        mode: MODE,
        mtime: time_of(moment),
        modifier: Text::copy(alloc, "make")?,
        size,
    })
}

/// Puts the block and the object of a file, where it is new, and tells its id.
fn put_file<S: Shelf, R: Wait>(
    rt: &R,
    alloc: Global,
    hall: &Hall<S>,
    pass: &mut HallPass<S>,
    asker: &Asker,
    bytes: Vec<u8>,
    is_new: bool,
) -> Result<ObjId, NotFilled>
    requires ready { AreReady S.contents S.may_give S.texts S.faults hall.now pass.old }
    ensures ready { AreReady S.contents S.may_give S.texts S.faults hall.now pass.new }
    ensures size { (shares_of pass.new ≡ shares_of pass.old) × (made_with pass.new ≡ made_with pass.old) }
    ensures value { IfOk result (λ id. id ≡ file_id bytes.items) }
    ensures leads { IfOk result (λ id. Leads S.contents S.faults (shown_by pass.old) (shown_by pass.new) Any (PutsFile is_new bytes.items)) }
    ensures stops { IfErr result (StopsFor S.contents S.may_give S.texts S.faults asker.now.lib asker.now.secret asker.now.moment pass.new) }
{
    let text = text_of(alloc, bytes.as_slice())?;
    let id = ObjId::of(text.slice());
    if !is_new {
        return Ok(id);
    }
    put_both(rt, hall, pass, asker, bytes, text)?;
    Ok(id)
}

/// The object of a file of one block, which has these bytes.
fn text_of(alloc: Global, bytes: &[u8]) -> Result<Bytes, AllocError>
    ensures value { IfOk result (λ text. text ≡ file_text bytes.now) }
    ensures reads { IfOk result (λ text. sha1 bytes.now ≢ nil → fs_of (file_text bytes.now) ≡ Ok (file_variants.File (file_object bytes.now))) }
{
    let blocks = Items::copy(alloc, &[ObjId::of(bytes)])?;
    let file = FsObject::File(FileObject {
        blocks,
        size: bytes.len() as u64,
    });
    let text = file.write(alloc)?;
    Ok(text)
}

/// Puts a block and a file object, each under its own name.
fn put_both<S: Shelf, R: Wait>(
    rt: &R,
    hall: &Hall<S>,
    pass: &mut HallPass<S>,
    asker: &Asker,
    bytes: Vec<u8>,
    text: Bytes,
) -> Result<(), NotFilled>
    requires ready { AreReady S.contents S.may_give S.texts S.faults hall.now pass.old }
    ensures ready { AreReady S.contents S.may_give S.texts S.faults hall.now pass.new }
    ensures size { (shares_of pass.new ≡ shares_of pass.old) × (made_with pass.new ≡ made_with pass.old) }
    ensures leads { OnOk result (Leads S.contents S.faults (shown_by pass.old) (shown_by pass.new) Any (PutsBoth bytes.items text)) }
    ensures stops { IfErr result (StopsFor S.contents S.may_give S.texts S.faults asker.now.lib asker.now.secret asker.now.moment pass.new) }
{
    let block = Key {
        kind: Kind::Block,
        id: ObjId::of(bytes.as_slice()),
    };
    let file = Key {
        kind: Kind::Fs,
        id: ObjId::of(text.slice()),
    };
    put(rt, hall, pass, asker, block, Items::from_vec(bytes))?;
    put(rt, hall, pass, asker, file, text)?;
    Ok(())
}

/// Puts the directories of these entries, and tells their root.
fn put_directories<S: Shelf, R: Wait>(
    rt: &R,
    alloc: Global,
    hall: &Hall<S>,
    pass: &mut HallPass<S>,
    asker: &Asker,
    entries: PathTable<Entry>,
) -> Result<ObjId, NotFilled>
    requires ready { AreReady S.contents S.may_give S.texts S.faults hall.now pass.old }
    requires entries { (files : List (List ℕ)) × (entries ≡ entries_of asker.now.moment files) }
    ensures ready { AreReady S.contents S.may_give S.texts S.faults hall.now pass.new }
    ensures size { (shares_of pass.new ≡ shares_of pass.old) × (made_with pass.new ≡ made_with pass.old) }
    ensures leads { IfOk result (λ root. Leads S.contents S.faults (shown_by pass.old) (shown_by pass.new) Any (HasTree asker.now.moment entries root)) }
    ensures stops { IfErr result (StopsWhere S.contents S.may_give S.texts S.faults asker.now.lib asker.now.secret (IsClash entries) asker.now.moment pass.new) }
{
    let built = match build_at(alloc, asker.moment, entries) {
        Ok(built) => built,
        Err(fault) => return Err(not_built(&fault)),
    };
    let root = built.root;
    put_all(rt, hall, pass, asker, built.made)?;
    Ok(root)
}

/// Why a tree has no objects, as why a filling stops.
fn not_built(fault: &BuildFault) -> NotFilled
    ensures value { StopsAsBuilt fault.now result }
{
    match fault {
        BuildFault::Taken(id) => NotFilled::Taken(*id),
        BuildFault::NoMemory => NotFilled::NoMemory,
    }
}

/// Puts all these objects.
fn put_all<S: Shelf, R: Wait>(
    rt: &R,
    hall: &Hall<S>,
    pass: &mut HallPass<S>,
    asker: &Asker,
    mut made: KeyTable<Bytes>,
) -> Result<(), NotFilled>
    requires ready { AreReady S.contents S.may_give S.texts S.faults hall.now pass.old }
    ensures ready { AreReady S.contents S.may_give S.texts S.faults hall.now pass.new }
    ensures size { (shares_of pass.new ≡ shares_of pass.old) × (made_with pass.new ≡ made_with pass.old) }
    ensures leads { OnOk result (Leads S.contents S.faults (shown_by pass.old) (shown_by pass.new) Any (PutsAll made)) }
    ensures stops { IfErr result (StopsFor S.contents S.may_give S.texts S.faults asker.now.lib asker.now.secret asker.now.moment pass.new) }
{
    while let Some(key) = made.next(None) {
        let Some(bytes) = made.remove(&key) else {
            unreachable!()
        };
        match put(rt, hall, pass, asker, key, bytes) {
            Ok(()) => {}
            Err(why) => return Err(why),
        }
    }
    Ok(())
}

/// Puts a commit of this root over another one, and tells its id.
fn put_commit<S: Shelf, R: Wait>(
    rt: &R,
    alloc: Global,
    hall: &Hall<S>,
    pass: &mut HallPass<S>,
    asker: &Asker,
    root: ObjId,
    parent: ObjId,
) -> Result<ObjId, NotFilled>
    requires ready { AreReady S.contents S.may_give S.texts S.faults hall.now pass.old }
    ensures ready { AreReady S.contents S.may_give S.texts S.faults hall.now pass.new }
    ensures size { (shares_of pass.new ≡ shares_of pass.old) × (made_with pass.new ≡ made_with pass.old) }
    ensures leads { IfOk result (λ id. Leads S.contents S.faults (shown_by pass.old) (shown_by pass.new) (λ s. parent ≢ nil)
        (HasCommit id (made asker.now.lib root (Some parent) None (codes "make") (codes "make") asker.now.moment false))) }
    ensures stops { IfErr result (StopsFor S.contents S.may_give S.texts S.faults asker.now.lib asker.now.secret asker.now.moment pass.new) }
{
    let name = Text::copy(alloc, "make")?;
    let commit = Commit::make(
        alloc,
        asker.lib,
        root,
        Some(parent),
        None,
        &name,
        &name,
        asker.moment,
        false,
    )?;
    let text = commit.write(alloc)?;
    let key = Key {
        kind: Kind::Commit,
        id: commit.id,
    };
    put(rt, hall, pass, asker, key, text)?;
    Ok(commit.id)
}
