//! A run over a disk that tells its calls.
use folder_storage::laws::objects_are_durable_before_a_text;
use ids::{Key, Kind, ObjId};
use std::alloc::Global;
use std::test::Fail;

/// Whether an object and a text are put where so many calls are done.
fn puts_text(alloc: Global, left: u64) -> bool {
    let key = Key {
        kind: Kind::Block,
        id: ObjId::of(b"abc"),
    };
    let (_disk, put) = objects_are_durable_before_a_text(alloc, &[key], b"1", left);
    put.is_ok()
}

#[test]
fn a_text_is_put_where_each_call_before_it_is_done(rt: HostRuntime) -> Result<(), Fail> {
    // A put, what earlier runs put, the begin of the syncs, those of the object and of its two folders, and the text.
    assert!(rt; puts_text(rt.alloc(), 7) && !puts_text(rt.alloc(), 6));
    Ok(())
}
