//! One connection with a hall over one library in memory.
ghost use Rattle.sync_calls.specs.Hall.{AreReady};

use crate::hall_scenes::{Scene, shows};
use crate::library_server_tests::{GET, STORED_AND_GIVEN, link_of, put_and};
use crate::standing_clock::Stands;
use hall_server::serve_link;
use http_front::MemoryLink;
use object_store::Shelf;
use std::alloc::{AllocError, Global};
use std::sync::Wait;
use sync_calls::{Hall, HallPass};
use worker_server::Served;

/// Whether a block is put and given back on one connection.
fn is_served<S: Shelf, R: Wait>(
    rt: &R,
    alloc: Global,
    hall: &Hall<S>,
    pass: &mut HallPass<S>,
    link: &mut MemoryLink,
) -> bool
    requires ready { AreReady S.contents S.may_give S.texts S.faults hall.now pass.old }
    ensures ready { AreReady S.contents S.may_give S.texts S.faults hall.now pass.new }
{
    let how = serve_link(rt, alloc, hall, pass, link, &Stands);
    how == Served::Ended && link.given() == STORED_AND_GIVEN
}

/// The same of a connection that is made for it.
pub(crate) fn is_replied<S: Shelf, R: Wait>(
    rt: &R,
    alloc: Global,
    hall: &Hall<S>,
    pass: &mut HallPass<S>,
) -> Result<bool, AllocError>
    requires ready { AreReady S.contents S.may_give S.texts S.faults hall.now pass.old }
    ensures ready { AreReady S.contents S.may_give S.texts S.faults hall.now pass.new }
{
    let asked = put_and(alloc, GET)?;
    let mut link = link_of(alloc, asked.as_slice(), 1_000, &[])?;
    Ok(is_served(rt, alloc, hall, pass, &mut link))
}

#[test]
fn a_connection_with_a_hall_is_replied_to(rt: HostRuntime) -> Result<(), AllocError> {
    assert!(rt; shows(&rt, rt.alloc(), Scene::Connection)?);
    Ok(())
}
