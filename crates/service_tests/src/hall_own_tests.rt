//! Calls that are handed over to a hall, and the first of several that are asked for.
ghost use Rattle.sync_calls.specs.Hall.{AreReady};

use crate::hall::{Said, Told, asked, docs, is_stored, owner, told_by};
use crate::hall_scenes::{Scene, shows};
use ids::{Items, Key, Kind, ObjId};
use library_state::{Act, Call};
use object_store::Shelf;
use std::alloc::{AllocError, Global};
use std::sync::Wait;
use sync_calls::{Hall, HallPass};

/// A file with no bytes.
const FILE: &[u8] = b"{\"block_ids\":[],\"size\":0,\"type\":1,\"version\":1}";

fn file() -> Key {
    Key {
        kind: Kind::Fs,
        id: ObjId::of(FILE),
    }
}

/// What is told to a call that is handed over.
fn ask_own<S: Shelf, R: Wait>(rt: &R, hall: &Hall<S>, pass: &mut HallPass<S>, call: Call) -> Told
    requires ready { AreReady S.contents S.may_give S.texts S.faults hall.now pass.old }
    ensures ready { AreReady S.contents S.may_give S.texts S.faults hall.now pass.new }
{
    let answer = hall.ask_own(rt, pass, docs(), call, 9);
    told_by(&answer)
}

/// What is told to who asks for the file, as the first of several, for so many bytes at most.
fn ask_first<S: Shelf, R: Wait>(rt: &R, hall: &Hall<S>, pass: &mut HallPass<S>, most: u64) -> Told
    requires ready { AreReady S.contents S.may_give S.texts S.faults hall.now pass.old }
    ensures ready { AreReady S.contents S.may_give S.texts S.faults hall.now pass.new }
{
    let answer = hall.ask_first(rt, pass, docs(), &owner(), file().id, &[], most, 9);
    told_by(&answer)
}

fn is_given(told: &Told) -> bool {
    match told.said {
        Said::Got(name) => name == file().id,
        _ => false,
    }
}

fn is_spared(told: &Told) -> bool {
    match told.said {
        Said::NoMemory => told.opening == 1 && told.place == 1,
        _ => false,
    }
}

/// Whether a file is put, and given to who asks for no less.
pub(crate) fn is_put_and_given<S: Shelf, R: Wait>(
    rt: &R,
    alloc: Global,
    hall: &Hall<S>,
    pass: &mut HallPass<S>,
) -> Result<bool, AllocError>
    requires ready { AreReady S.contents S.may_give S.texts S.faults hall.now pass.old }
    ensures ready { AreReady S.contents S.may_give S.texts S.faults hall.now pass.new }
{
    let call = asked(Act::Put(file(), Items::copy(alloc, FILE)?));
    let put = ask_own(rt, hall, pass, call);
    let spared = ask_first(rt, hall, pass, 45);
    let given = ask_first(rt, hall, pass, 46);
    Ok(is_stored(&put, 1) && is_spared(&spared) && is_given(&given))
}

#[test]
fn a_file_is_put_and_given_to_who_asks_for_no_less(rt: HostRuntime) -> Result<(), AllocError> {
    assert!(rt; shows(&rt, rt.alloc(), Scene::HandedOver)?);
    Ok(())
}
