//! Which link an order goes over.
ghost use Rattle.std.specs.Prelude.{◌≡◌, true, Some, None, Err, map, IfErr, IfOk};
ghost use Rattle.http_front.specs.Dial.{DialsOnly};
ghost use Rattle.remote_calls.specs.Exchange.{link_view, open_view};
ghost use Rattle.remote_calls.specs.HttpRemote.{HasNoLink, Reaches, ReadiesBy, ReadiesCount, keeps, links_of};

use crate::error::RemoteFault;
use crate::open_link::OpenLink;
use http_front::{Buffer, Dial};
use ids::Text;
use std::alloc::Global;

/// The link that an order goes over: the one that is kept, where it may be; else that goes back, and another is made.
pub(crate) fn ready_link<D: Dial>(
    alloc: Global,
    dial: &mut D,
    kept: &mut Option<OpenLink<D::L>>,
    host: &Text,
    port: u16,
) -> Result<OpenLink<D::L>, RemoteFault>
    ensures ok { IfOk result (λ made. ReadiesBy (λ link. Reaches (link_view D.L.left D.L.taken D.L.given D.L.asked D.L.faults) D.reaches link host.now port)
        (links_of (link_view D.L.left D.L.taken D.L.given D.L.asked D.L.faults) D.back D.faults dial.old kept.old)
        (open_view (link_view D.L.left D.L.taken D.L.given D.L.asked D.L.faults) made) (map (link_view D.L.left D.L.taken D.L.given D.L.asked D.L.faults) (D.back dial.new))) }
    ensures dialled { DialsOnly host.now port (D.dialled dial.old) (D.dialled dial.new) }
    ensures within { IfOk result (λ made. keeps made.over made.count ≡ true) }
    ensures err { IfErr result (λ fault. HasNoLink
        (links_of (link_view D.L.left D.L.taken D.L.given D.L.asked D.L.faults) D.back D.faults dial.old kept.old)
        (links_of (link_view D.L.left D.L.taken D.L.given D.L.asked D.L.faults) D.back D.faults dial.new None) (Err fault)) }
    ensures none { kept.new ≡ None }
    ensures faults { ReadiesCount D.faults D.L.faults (links_of (link_view D.L.left D.L.taken D.L.given D.L.asked D.L.faults) D.back D.faults dial.old kept.old).faults dial.new result }
{
    match kept.take() {
        Some(last) => keep_or_dial(alloc, dial, last, host, port),
        None => dial_anew(alloc, dial, host, port),
    }
}

/// The same, where a link was kept.
fn keep_or_dial<D: Dial>(
    alloc: Global,
    dial: &mut D,
    last: OpenLink<D::L>,
    host: &Text,
    port: u16,
) -> Result<OpenLink<D::L>, RemoteFault>
    ensures ok { IfOk result (λ made. ReadiesBy (λ link. Reaches (link_view D.L.left D.L.taken D.L.given D.L.asked D.L.faults) D.reaches link host.now port)
        (links_of (link_view D.L.left D.L.taken D.L.given D.L.asked D.L.faults) D.back D.faults dial.old (Some last))
        (open_view (link_view D.L.left D.L.taken D.L.given D.L.asked D.L.faults) made) (map (link_view D.L.left D.L.taken D.L.given D.L.asked D.L.faults) (D.back dial.new))) }
    ensures dialled { DialsOnly host.now port (D.dialled dial.old) (D.dialled dial.new) }
    ensures within { IfOk result (λ made. keeps made.over made.count ≡ true) }
    ensures err { IfErr result (λ fault. HasNoLink
        (links_of (link_view D.L.left D.L.taken D.L.given D.L.asked D.L.faults) D.back D.faults dial.old (Some last))
        (links_of (link_view D.L.left D.L.taken D.L.given D.L.asked D.L.faults) D.back D.faults dial.new None) (Err fault)) }
    ensures faults { ReadiesCount D.faults D.L.faults (links_of (link_view D.L.left D.L.taken D.L.given D.L.asked D.L.faults) D.back D.faults dial.old (Some last)).faults dial.new result }
{
    if last.keeps() {
        return Ok(last);
    }
    let OpenLink {
        link,
        buffer: _,
        count: _,
        over: _,
    } = last;
    dial.hang_up(link);
    dial_anew(alloc, dial, host, port)
}

/// A link that is made. Room for what it gives is taken first, so that no link is made that can't be used.
fn dial_anew<D: Dial>(
    alloc: Global,
    dial: &mut D,
    host: &Text,
    port: u16,
) -> Result<OpenLink<D::L>, RemoteFault>
    ensures ok { IfOk result (λ made. ReadiesBy (λ link. Reaches (link_view D.L.left D.L.taken D.L.given D.L.asked D.L.faults) D.reaches link host.now port)
        (links_of (link_view D.L.left D.L.taken D.L.given D.L.asked D.L.faults) D.back D.faults dial.old None)
        (open_view (link_view D.L.left D.L.taken D.L.given D.L.asked D.L.faults) made) (map (link_view D.L.left D.L.taken D.L.given D.L.asked D.L.faults) (D.back dial.new))) }
    ensures dialled { DialsOnly host.now port (D.dialled dial.old) (D.dialled dial.new) }
    ensures within { IfOk result (λ made. keeps made.over made.count ≡ true) }
    ensures err { IfErr result (λ fault. HasNoLink
        (links_of (link_view D.L.left D.L.taken D.L.given D.L.asked D.L.faults) D.back D.faults dial.old None)
        (links_of (link_view D.L.left D.L.taken D.L.given D.L.asked D.L.faults) D.back D.faults dial.new None) (Err fault)) }
    ensures faults { ReadiesCount D.faults D.L.faults (links_of (link_view D.L.left D.L.taken D.L.given D.L.asked D.L.faults) D.back D.faults dial.old None).faults dial.new result }
{
    let buffer = match Buffer::new(alloc) {
        Ok(buffer) => buffer,
        Err(_) => return Err(RemoteFault::NoMemory),
    };
    match dial.link(host.slice(), port) {
        Ok(link) => Ok(OpenLink {
            link,
            buffer,
            count: 0,
            over: false,
        }),
        Err(_) => Err(RemoteFault::Link),
    }
}
