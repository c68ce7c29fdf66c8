//! The entries of a new index.
ghost use Rattle.std.specs.Prelude.{◌≡◌, IfOk, OnOk, option_copied};
ghost use Rattle.std.specs.FinMap as map;
ghost use Rattle.sync_daemon.specs.Bringing.{KnowsAs, known_of, left_own, node_own, own_at, seen_own, with_owns};

use folder_side::{Scan, Seen};
use ids::{ObjId, Text};
use local_index::{Known, own_id};
use object_graph::Entry;
use std::alloc::{AllocError, Global};
use tree_checkout::{Write, WriteNode};
use tree_model::{Path, PathTable};

/// What is known of the entries of a tree, to which a folder was brought: each file by the id that its chunks have, as it was
/// written, or as it was seen where it was left alone.
pub(crate) fn known_entries(
    alloc: Global,
    scan: &Scan,
    entries: &PathTable<Entry>,
    writes: &[Write],
    owns: &[ObjId],
) -> Result<PathTable<Known>, AllocError>
    ensures value { IfOk result (λ known. KnowsAs scan.now (with_owns map.empty writes.now owns.now) entries.now known) }
{
    let written = written_owns(alloc, writes, owns)?;
    let mut known = PathTable::new(alloc);
    for (path, entry) in entries.iter() {
        let here = known_entry(alloc, scan, &written, path, entry)?;
        put(&mut known, path.copy(alloc)?, here)?;
    }
    Ok(known)
}

/// Puts what is known of an entry.
pub(crate) fn put(known: &mut PathTable<Known>, path: Path, here: Known) -> Result<(), AllocError>
    ensures ok { OnOk result (known.new ≡ map.insert known.old path here) }
{
    known.insert(path, here)?;
    Ok(())
}

/// The ids of the files that were written, at their paths.
fn written_owns(
    alloc: Global,
    writes: &[Write],
    owns: &[ObjId],
) -> Result<PathTable<ObjId>, AllocError>
    ensures value { IfOk result (λ written. written ≡ with_owns map.empty writes.now owns.now) }
{
    let mut written = PathTable::new(alloc);
    let mut left = owns;
    for write in writes {
        left = keep_own(alloc, &mut written, write, left)?;
    }
    Ok(written)
}

/// Keeps the first id for a file that was written, and gives the rest.
fn keep_own<'a>(
    alloc: Global,
    written: &mut PathTable<ObjId>,
    write: &Write,
    left: &'a [ObjId],
) -> Result<&'a [ObjId], AllocError>
    ensures value { IfOk result (λ rest. (written.new ≡ node_own written.old write.now.path write.now.node left.now) × (rest.now ≡ left_own write.now.node left.now)) }
{
    match &write.node {
        WriteNode::Dir => Ok(left),
        WriteNode::File(_) => match left.split_first() {
            Some((own, rest)) => {
                written.insert(write.path.copy(alloc)?, *own)?;
                Ok(rest)
            }
            None => Ok(left),
        },
    }
}

fn known_entry(
    alloc: Global,
    scan: &Scan,
    written: &PathTable<ObjId>,
    path: &Path,
    entry: &Entry,
) -> Result<Known, AllocError>
    ensures value { IfOk result (λ known. known ≡ known_of (own_at scan.now written.now path.now) entry.now) }
{
    match entry {
        Entry::Dir => Ok(Known::Dir),
        Entry::File {
            id,
            mode,
            mtime,
            modifier,
            size,
        } => {
            let own = own_at(alloc, scan, written, path)?;
            Ok(Known::File {
                id: *id,
                own,
                size: *size,
                mode: *mode,
                mtime: *mtime,
                modifier: Text::copy(alloc, modifier.slice())?,
            })
        }
    }
}

/// The id of a file, as it was written or seen.
fn own_at(
    alloc: Global,
    scan: &Scan,
    written: &PathTable<ObjId>,
    path: &Path,
) -> Result<ObjId, AllocError>
    ensures value { IfOk result (λ own. own ≡ own_at scan.now written.now path.now) }
{
    match written.get(path) {
        Some(own) => Ok(*own),
        None => seen_own(alloc, scan.paths.get(path)),
    }
}

fn seen_own(alloc: Global, seen: Option<&Seen>) -> Result<ObjId, AllocError>
    ensures value { IfOk result (λ own. own ≡ seen_own (option_copied seen.entry)) }
{
    match seen {
        Some(Seen::File { blocks, size }) => own_id(alloc, blocks.slice(), *size),
        _ => Ok(ObjId::NIL),
    }
}
