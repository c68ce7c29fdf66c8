//! A net over ears in memory.
ghost use Rattle.std.specs.Prelude.{◌≡◌, ◌++◌, ℕ, [], IfOk, All, length, map, vec_len};
ghost use Rattle.std.specs.Bool.{OnTrue};
ghost use Rattle.link_ears.specs.Ear.{IsNewEar, counts_sum};

use crate::ear::Ear;
use crate::list_ear::ListEar;
use crate::net::{Net, NetFault};
use http_front::Link;
use http_server::Log;
use ids::Items;
use std::alloc::{AllocError, Global};

/// A net that has the ears of one port, over lists of links, and keeps those that come back, for tests.
///
/// The port opens for as many workers as there are lists, and for as many connections as each list has links; for others it
/// has a fault.
#[derive(Drop)]
pub struct MemoryNet<L> {
    // The lists of ears that weren't handed out, the last one first.
    rest: Vec<Vec<L>>,
    fails: Items<u64>,
    returned: Vec<ListEar<L>>,
    faults: u64,
    // The ports that it was asked for and the ears that came back, for proofs alone.
    asked: Log<u16, (u32, u32)>,
    back: Log<ListEar<L>, u64>,
}

impl<L: Drop> MemoryNet<L> {
    /// A net over these lists of links. Of each ear the calls of these numbers fail.
    pub fn new(
        alloc: Global,
        mut lists: Vec<Vec<L>>,
        fails: Items<u64>,
    ) -> Result<MemoryNet<L>, AllocError>
        ensures none { IfOk result (λ net. (net.asked.items ≡ []) × (net.back.items ≡ []) × (net.faults ≡ 0)) }
    {
        let returned = Vec::with_capacity(alloc, lists.len())?;
        lists.reverse();
        Ok(MemoryNet {
            rest: lists,
            fails,
            returned,
            faults: 0,
            asked: Log::new(),
            back: Log::new(),
        })
    }

    /// The first of the ears that came back, in order: all of them, where no more came than it handed out.
    pub fn returned(&self) -> &[ListEar<L>]
        ensures value { result.now ≡ self.now.returned.items }
    {
        self.returned.as_slice()
    }

    /// Notes the ears that come back, and their faults.
    fn note_back(&mut self, ears: &[ListEar<L>])
        ensures back { map (λ entry. entry.0) self.new.back.items ≡ map (λ entry. entry.0) self.old.back.items ++ ears.now }
        ensures faults { self.new.faults ≡ counts_sum self.old.faults (map (λ ear. ear.faults) ears.now) }
        ensures stays { (self.new.returned ≡ self.old.returned) × (self.new.asked ≡ self.old.asked) }
    {
        for ear in ears {
            self.faults = self.faults.saturating_add(ear.faults());
            self.back = self.back.and(ear, &0);
        }
    }

    /// The ears of its lists, in their order.
    fn take_ears(&mut self, alloc: Global) -> Result<Items<ListEar<L>>, AllocError>
        ensures count { IfOk result (λ ears. length ears ≡ vec_len self.old.rest) }
        ensures fresh { (connections : ℕ) → All (λ links. vec_len links ≡ connections) self.old.rest.items
            → IfOk result (All (λ ear. IsNewEar (record { gave = map (λ entry. entry.0) ear.gave.items; left = vec_len ear.rest; over = ear.over }) ear.back.items ear.faults connections)) }
        ensures stays { self.new ≡ record self.old { rest = self.new.rest } }
    {
        let mut ears = Vec::with_capacity(alloc, self.rest.len())?;
        while let Some(links) = self.rest.pop() {
            let fails = Items::copy(alloc, self.fails.slice())?;
            ears.push_reserved(ListEar::new(alloc, links, fails)?);
        }
        Ok(Items::from_vec(ears))
    }
}

/// Whether these are so many lists, of so many links each.
fn are_for<L>(lists: &[Vec<L>], workers: u32, connections: u32) -> bool
    ensures value { OnTrue result ((length lists.now ≡ workers) × All (λ links. vec_len links ≡ connections) lists.now) }
{
    lists.len() as u64 == u64::from(workers)
        && lists
            .iter()
            .all(|links| links.len() as u64 == u64::from(connections))
}

impl<L: Link + Drop + Send> Net for MemoryNet<L> {
    ghost use Rattle.std.specs.Prelude.{map, ⊤};

    type E = ListEar<L>;

    ghost hears = { λ ear port. ⊤ };

    ghost asked = { λ net. net.asked.items };

    ghost back = { λ net. map (λ entry. entry.0) net.back.items };

    ghost faults = { λ net. net.faults };

    fn ears(
        &mut self,
        alloc: Global,
        port: u16,
        workers: u32,
        connections: u32,
    ) -> Result<Items<ListEar<L>>, NetFault> {
        self.asked = self.asked.and(&port, &(workers, connections));
        if !are_for(self.rest.as_slice(), workers, connections) {
            self.faults = self.faults.saturating_add(1);
            return Err(NetFault::Link);
        }
        match self.take_ears(alloc) {
            Ok(ears) => Ok(ears),
            Err(_) => Err(NetFault::NoMemory),
        }
    }

    fn give_back(&mut self, ears: Items<ListEar<L>>)
        ensures asked { self.new.asked.items ≡ self.old.asked.items }
        ensures back { map (λ entry. entry.0) self.new.back.items ≡ map (λ entry. entry.0) self.old.back.items ++ ears }
        ensures faults { self.new.faults ≡ counts_sum self.old.faults (map (λ ear. ear.faults) ears) }
    {
        self.note_back(ears.slice());
        keep(&mut self.returned, ears);
    }
}

/// Keeps ears that came back, as far as there is room.
fn keep<L: Drop>(returned: &mut Vec<ListEar<L>>, ears: Items<ListEar<L>>) {
    for ear in ears.into_vec() {
        if returned.len() < returned.capacity() {
            returned.push_reserved(ear);
        }
    }
}
