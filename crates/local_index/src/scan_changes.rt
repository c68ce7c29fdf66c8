//! What a scan finds changed since an index was written.
ghost use Rattle.std.specs.Prelude.{◌≡◌, ◌++◌, ◌∷◌, [], ◌+◌, ◌<◌, map as list_map, length, IfOk, OnOk};
ghost use Rattle.std.specs.Map.Iter.{deref_pair};
ghost use Rattle.std.specs.FinMap as map;
ghost use Rattle.local_index.specs.ScanChanges.{AreChanges, differs};
ghost use Rattle.folder_side.specs.declared.scan_report.Seen.TheVariants as seen;
ghost use Rattle.local_index.specs.MergedEntries.{merged, changed};

use crate::index::{Index, Known};
use crate::own_ids::own_id;
use folder_side::{Scan, Seen};
use ids::{Items, ObjId};
use std::alloc::{AllocError, Global};
use std::cmp::Ordering;
use tree_model::{Path, PathTable};

/// How a path differs.
#[derive(Clone, Copy, Debug, PartialEq, Eq)]
pub enum ChangeKind {
    /// The scan has it and the index doesn't.
    Added,
    /// Both have it, with different kinds or different bytes.
    Changed,
    /// The index has it and the scan doesn't.
    Gone,
}

/// A path at which a scan and an index differ.
#[derive(Debug, Drop)]
pub struct Change {
    pub path: Path,
    pub kind: ChangeKind,
}

/// The paths at which a scan and an index differ, in their byte order.
///
/// Two files differ where the id that this project's cuts give the scanned one isn't the index's; their sizes
/// are not compared. It goes once over both.
pub fn changes(alloc: Global, scan: &Scan, index: &Index) -> Result<Items<Change>, AllocError>
    ensures value { IfOk result (AreChanges scan.now.paths index.now.entries) }
{
    let seen = seen_entries(alloc, &scan.paths)?;
    let known = known_entries(alloc, &index.entries)?;
    merge(alloc, seen.as_slice(), known.as_slice())
}

/// What was seen, in the byte order of the paths.
fn seen_entries(alloc: Global, paths: &PathTable<Seen>) -> Result<Vec<(&Path, &Seen)>, AllocError>
    ensures value { IfOk result (λ entries_seen. list_map deref_pair entries_seen.items ≡ map.entries paths.entry.now) }
{
    paths.iter().collect(alloc)
}

/// What was known, in the byte order of the paths.
fn known_entries(
    alloc: Global,
    entries: &PathTable<Known>,
) -> Result<Vec<(&Path, &Known)>, AllocError>
    ensures value { IfOk result (λ entries_known. list_map deref_pair entries_known.items ≡ map.entries entries.entry.now) }
{
    entries.iter().collect(alloc)
}

/// What is left of what was seen and of what was known.
#[derive(Clone, Copy)]
struct Left<'a> {
    seen: &'a [(&'a Path, &'a Seen)],
    known: &'a [(&'a Path, &'a Known)],
}

/// The changes between entries that stand in the byte order of their paths.
fn merge(
    alloc: Global,
    seen: &[(&Path, &Seen)],
    known: &[(&Path, &Known)],
) -> Result<Items<Change>, AllocError>
    ensures value { IfOk result (λ changes. changes ≡ merged (list_map deref_pair seen.now) (list_map deref_pair known.now)) }
{
    let mut changes = Items::new(alloc);
    let mut left = Left { seen, known };
    while !left.seen.is_empty() || !left.known.is_empty() {
        left = step(alloc, left, &mut changes)?;
    }
    Ok(changes)
}

/// Notes the change at the least path that is left, and goes behind it.
fn step<'a>(
    alloc: Global,
    left: Left<'a>,
    changes: &mut Items<Change>,
) -> Result<Left<'a>, AllocError>
    requires some { 0 < length left.seen.now + length left.known.now }
    ensures ok { IfOk result (λ more. changes.new ++ merged (list_map deref_pair more.seen.now) (list_map deref_pair more.known.now)
        ≡ changes.old ++ merged (list_map deref_pair left.entry.seen.now) (list_map deref_pair left.entry.known.now)) }
    ensures bound { IfOk result (λ more. length more.seen.now + length more.known.now
        < length left.entry.seen.now + length left.entry.known.now) }
{
    match (left.seen.split_first(), left.known.split_first()) {
        (None, None) => unreachable!(),
        (Some((entry, seen)), None) => {
            push(alloc, changes, entry.0, ChangeKind::Added)?;
            Ok(Left {
                seen,
                known: left.known,
            })
        }
        (None, Some((entry, known))) => {
            push(alloc, changes, entry.0, ChangeKind::Gone)?;
            Ok(Left {
                seen: left.seen,
                known,
            })
        }
        (Some((entry, seen)), Some((other, known))) => match entry.0.cmp(other.0) {
            Ordering::Less => {
                push(alloc, changes, entry.0, ChangeKind::Added)?;
                Ok(Left {
                    seen,
                    known: left.known,
                })
            }
            Ordering::Greater => {
                push(alloc, changes, other.0, ChangeKind::Gone)?;
                Ok(Left {
                    seen: left.seen,
                    known,
                })
            }
            Ordering::Equal => {
                push_if_changed(alloc, changes, *entry, *other)?;
                Ok(Left { seen, known })
            }
        },
    }
}

/// Notes a path that both have, where they differ.
fn push_if_changed(
    alloc: Global,
    changes: &mut Items<Change>,
    seen: (&Path, &Seen),
    known: (&Path, &Known),
) -> Result<(), AllocError>
    ensures ok { OnOk result (changes.new ≡ changes.old ++ changed (deref_pair seen.entry) (deref_pair known.entry)) }
{
    if differs(alloc, seen.1, known.1)? {
        push(alloc, changes, seen.0, ChangeKind::Changed)?;
    }
    Ok(())
}

/// Notes a change.
fn push(
    alloc: Global,
    changes: &mut Items<Change>,
    path: &Path,
    kind: ChangeKind,
) -> Result<(), AllocError>
    ensures ok { OnOk result (changes.new ≡ changes.old ++ record { path = path.now; kind = kind } ∷ []) }
{
    changes.push(Change {
        path: path.copy(alloc)?,
        kind,
    })
}

/// Whether what was seen and what was known differ.
fn differs(alloc: Global, seen: &Seen, known: &Known) -> Result<bool, AllocError>
    ensures value { IfOk result (λ told. told ≡ differs seen.now known.now) }
{
    match seen {
        Seen::Dir => Ok(is_file(known)),
        Seen::File { blocks, size } => has_other_id(alloc, blocks.slice(), *size, known),
    }
}

/// Whether a file was known.
fn is_file(known: &Known) -> bool
    ensures value { result ≡ differs seen.Dir known.now }
{
    match known {
        Known::Dir => false,
        Known::File { .. } => true,
    }
}

/// Whether anything but a file with these blocks and this size was known.
fn has_other_id(
    alloc: Global,
    blocks: &[ObjId],
    size: u64,
    known: &Known,
) -> Result<bool, AllocError>
    ensures value { IfOk result (λ told. told ≡ differs (seen.File blocks.now size) known.now) }
{
    match known {
        Known::Dir => Ok(true),
        Known::File { own, .. } => Ok(own_id(alloc, blocks, size)? != *own),
    }
}
