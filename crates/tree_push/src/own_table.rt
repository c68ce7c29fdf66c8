//! The own ids of the files that are new or changed, each made once.
ghost use Rattle.std.specs.Prelude.{◌≡◌, IfOk, OnOk, option_copied};
ghost use Rattle.std.specs.FinMap as map;
ghost use Rattle.local_index.specs.ScanChanges.{AreChanges};
ghost use Rattle.tree_push.specs.ChangedOwns.{AreChangedOwns, known_own, own_or_known, with_own};
ghost use Rattle.tree_push.specs.OfferedEntries.{KnownPaths};

use folder_side::Seen;
use ids::ObjId;
use local_index::{Change, Known, own_id};
use std::alloc::{AllocError, Global};
use tree_model::{Path, PathTable};

/// The own ids of the files that are new or changed, each at its path, by the paths at which what was seen and what is known differ.
///
/// No other file's own id is made.
pub fn changed_owns(
    alloc: Global,
    seens: &PathTable<Seen>,
    changes: &[Change],
) -> Result<PathTable<ObjId>, AllocError>
    ensures value { IfOk result (λ owns. (knowns : KnownPaths) → AreChanges seens.now knowns changes.now → AreChangedOwns knowns seens.now owns) }
{
    let mut owns = PathTable::new(alloc);
    for change in changes {
        add_own(alloc, &mut owns, seens, change)?;
    }
    Ok(owns)
}

/// Adds the own id of what was seen at the path of a change, if that is a file.
fn add_own(
    alloc: Global,
    owns: &mut PathTable<ObjId>,
    seens: &PathTable<Seen>,
    change: &Change,
) -> Result<(), AllocError>
    ensures ok { OnOk result (owns.new ≡ with_own owns.old change.now.path (map.get seens.now change.now.path)) }
{
    add_seen(alloc, owns, &change.path, seens.get(&change.path))
}

fn add_seen(
    alloc: Global,
    owns: &mut PathTable<ObjId>,
    path: &Path,
    seen: Option<&Seen>,
) -> Result<(), AllocError>
    ensures ok { OnOk result (owns.new ≡ with_own owns.old path.now (option_copied seen.entry)) }
{
    match seen {
        Some(Seen::File { blocks, size }) => {
            let own = own_id(alloc, blocks.slice(), *size)?;
            put(owns, path.copy(alloc)?, own)
        }
        _ => Ok(()),
    }
}

/// Puts an own id at its path.
fn put(owns: &mut PathTable<ObjId>, path: Path, own: ObjId) -> Result<(), AllocError>
    ensures ok { OnOk result (owns.new ≡ map.insert owns.old path own) }
{
    owns.insert(path, own)?;
    Ok(())
}

/// The own id of a file: that of one that is new or changed, or else the one that is known.
pub fn own_or_known(changed: Option<&ObjId>, was: Option<&Known>) -> ObjId
    ensures value { result ≡ own_or_known (option_copied changed.entry) (option_copied was.entry) }
{
    match changed {
        Some(own) => *own,
        None => known_own(was),
    }
}

/// The own id that is known of a file; forty zeros where none is.
fn known_own(was: Option<&Known>) -> ObjId
    ensures value { result ≡ known_own (option_copied was.entry) }
{
    match was {
        Some(Known::File { own, .. }) => *own,
        _ => ObjId::NIL,
    }
}
