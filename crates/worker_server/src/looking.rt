//! Asking for the head, after a look whether the library is still in the state of a tag.
ghost use Rattle.std.specs.Prelude.{List, Some};
ghost use Rattle.worker_server.specs.Calls.{HeadSo, rules_at};

use crate::asking::ask_one;
use crate::host::Host;
use http_front::Outcome;
use ids::LibId;
use library_state::{Act, Secret, Tag};
use std::alloc::Global;

/// Asks for the head. Where a tag is named it is looked first whether the library is still in its state, and then the head is
/// not asked for.
pub fn head_of<H: Host>(
    alloc: Global,
    host: &H,
    pass: &mut H::Pass,
    lib: LibId,
    secret: Option<Secret>,
    tag: Option<Tag>,
) -> Outcome
    requires ready { H.ready host.now pass.old }
    ensures ready { H.ready host.now pass.new }
    ensures asks { (operations : List H.Operation)
        × HeadSo (rules_at (H.shows host.now) H.asks H.spares H.collects H.looks) (H.view pass.old) lib secret tag result operations (H.view pass.new) }
{
    match tag {
        Some(tag) => head_unless(alloc, host, pass, lib, secret, tag),
        None => ask_one(alloc, host, pass, lib, secret, Act::Head),
    }
}

/// The same of a tag that is named.
fn head_unless<H: Host>(
    alloc: Global,
    host: &H,
    pass: &mut H::Pass,
    lib: LibId,
    secret: Option<Secret>,
    tag: Tag,
) -> Outcome
    requires ready { H.ready host.now pass.old }
    ensures ready { H.ready host.now pass.new }
    ensures asks { (operations : List H.Operation)
        × HeadSo (rules_at (H.shows host.now) H.asks H.spares H.collects H.looks) (H.view pass.old) lib secret (Some tag) result operations (H.view pass.new) }
{
    if host.look(pass, lib, &secret, tag) {
        return Outcome::Same(tag);
    }
    ask_one(alloc, host, pass, lib, secret, Act::Head)
}
