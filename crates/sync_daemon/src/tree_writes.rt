//! What is written for what is due by a plan.
ghost use Rattle.std.specs.Prelude.{◌≡◌, IfOk};
ghost use Rattle.sync_daemon.specs.Bringing.{AreMade, IsMade, IsWriteOf};

use ids::Items;
use std::alloc::{AllocError, Global};
use tree_checkout::{Due, DueNode, TreeFile, Write, WriteNode};
use tree_fetch::FetchedObjects;

/// What is written, each file with its object among those that were got.
pub(crate) fn writes_of(
    alloc: Global,
    objects: &mut FetchedObjects,
    dues: &[Due],
) -> Result<Items<Write>, AllocError>
    ensures value { IfOk result (λ writes. AreMade objects.old dues.now writes) }
    ensures stays { objects.new ≡ objects.old }
{
    let mut writes = Items::new(alloc);
    for due in dues {
        let write = write_of(alloc, objects, due)?;
        writes.push(write)?;
    }
    Ok(writes)
}

fn write_of(alloc: Global, objects: &mut FetchedObjects, due: &Due) -> Result<Write, AllocError>
    ensures value { IfOk result (λ write. IsWriteOf objects.old due.now write) }
    ensures stays { objects.new ≡ objects.old }
{
    let node = node_of(alloc, objects, &due.node)?;
    let path = due.path.copy(alloc)?;
    Ok(Write { path, node })
}

fn node_of(
    alloc: Global,
    objects: &mut FetchedObjects,
    node: &DueNode,
) -> Result<WriteNode, AllocError>
    ensures value { IfOk result (λ made. IsMade objects.old node.now made) }
    ensures stays { objects.new ≡ objects.old }
{
    match node {
        DueNode::Dir => Ok(WriteNode::Dir),
        DueNode::File(id) => match objects.file_at(alloc, id) {
            Ok(object) => Ok(WriteNode::File(TreeFile { id: *id, object })),
            Err(_) => Err(AllocError),
        },
    }
}
