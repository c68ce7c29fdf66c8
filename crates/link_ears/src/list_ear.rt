//! An ear over links in memory.
ghost use Rattle.std.specs.Prelude.{◌≡◌, ◌≤◌, ◌∷◌, ◌++◌, [], false, map, take, reverse, vec_capacity, vec_len, IfOk};
ghost use Rattle.http_front.specs.Link.{CountsFaults};
ghost use Rattle.ids.specs.FaultCount.{counted, is_due};
ghost use Rattle.link_ears.specs.Ear.{Accepts, EarTells, IsNewEar};
ghost use Rattle.link_ears.specs.ListEar.{GivesNext};

use crate::ear::Ear;
use http_front::{Link, LinkFailed};
use http_server::Log;
use ids::Items;
use std::alloc::{AllocError, Global};
use worker_server::Served;

/// An ear that gives the links of a list, in their order, and keeps those that come back, for tests.
///
/// Its first `accept` has number 0, the next 1, and so on; one whose number is to fail fails, and gives nothing.
#[derive(Drop)]
pub struct ListEar<L> {
    // The links that it didn't give yet, the next one last.
    rest: Vec<L>,
    returned: Vec<L>,
    room: usize,
    fails: Items<u64>,
    calls: u64,
    over: bool,
    faults: u64,
    // The links that were given and those that came back, for proofs alone.
    gave: Log<L, u64>,
    back: Log<L, Served>,
    ghost kept: { returned.items ≡ take room (map (λ entry. entry.0) back.items) },
    ghost within: { room ≤ vec_capacity returned },
}

impl<L: Drop> ListEar<L> {
    /// An ear that gives these links, whose calls of these numbers fail.
    pub fn new(
        alloc: Global,
        mut links: Vec<L>,
        fails: Items<u64>,
    ) -> Result<ListEar<L>, AllocError>
        ensures fresh { IfOk result (λ ear. IsNewEar (record { gave = map (λ entry. entry.0) ear.gave.items; left = vec_len ear.rest; over = ear.over }) ear.back.items ear.faults (vec_len links)) }
        ensures links { IfOk result (λ ear. (reverse ear.rest.items ≡ links.items) × (ear.fails ≡ fails) × (ear.calls ≡ 0) × (ear.room ≡ vec_len links)) }
    {
        let room = links.len();
        let returned = Vec::with_capacity(alloc, room)?;
        links.reverse();
        Ok(ListEar {
            rest: links,
            returned,
            room,
            fails,
            calls: 0,
            over: false,
            faults: 0,
            gave: Log::new(),
            back: Log::new(),
        })
    }
}

impl<L> ListEar<L> {
    /// The links that came back, in order: all of them, where no more came than it gave.
    pub fn returned(&self) -> &[L]
        ensures value { result.now ≡ take self.now.room (map (λ entry. entry.0) self.now.back.items) }
    {
        self.returned.as_slice()
    }

    /// How many of its calls failed so far.
    pub(crate) fn faults(&self) -> u64
        ensures value { result ≡ self.now.faults }
    {
        self.faults
    }

    /// Whether this call is to fail. It is counted.
    fn is_due(&mut self) -> bool
        ensures value { result ≡ is_due self.old.fails self.old.calls }
        ensures after { self.new ≡ record self.old { calls = counted self.old.calls } }
    {
        let number = self.calls;
        self.calls = self.calls.saturating_add(1);
        self.fails.slice().iter().any(|n| *n == number)
    }
}

impl<L: Link + Drop + Send> Ear for ListEar<L> {
    ghost use Rattle.std.specs.Prelude.{map, reverse, vec_len};

    type L = L;

    ghost tells = { λ ear. record { gave = map (λ entry. entry.0) ear.gave.items; left = vec_len ear.rest; over = ear.over } };

    ghost back = { λ ear. ear.back.items };

    ghost faults = { λ ear. ear.faults };

    fn accept(&mut self) -> Result<Option<L>, LinkFailed>
        ensures told { Accepts (record { gave = map (λ entry. entry.0) self.old.gave.items; left = vec_len self.old.rest; over = self.old.over })
            (record { gave = map (λ entry. entry.0) self.new.gave.items; left = vec_len self.new.rest; over = self.new.over }) result }
        ensures stays { self.new.back.items ≡ self.old.back.items }
        ensures faults { CountsFaults self.old.faults self.new.faults result }

        // A call fails exactly where it is to fail, and else gives the next link, or none where none is left.
        ensures next { GivesNext self.old.fails self.old.calls (reverse self.old.rest.items) (reverse self.new.rest.items) result }
        ensures after { (self.new.calls ≡ counted self.old.calls) × (self.new.fails ≡ self.old.fails) }
    {
        if self.is_due() {
            self.faults = self.faults.saturating_add(1);
            return Err(LinkFailed);
        }
        match self.rest.pop() {
            Some(link) => {
                self.gave = self.gave.and(&link, &0);
                Ok(Some(link))
            }
            None => {
                self.over = true;
                Ok(None)
            }
        }
    }

    fn give_back(&mut self, link: L, how: Served)
        ensures back { self.new.back.items ≡ self.old.back.items ++ (link, how) ∷ [] }
        ensures untouched { ◌≡◌ {A = EarTells L} (record { gave = map (λ entry. entry.0) self.new.gave.items; left = vec_len self.new.rest; over = self.new.over })
            (record { gave = map (λ entry. entry.0) self.old.gave.items; left = vec_len self.old.rest; over = self.old.over }) }
        ensures stays { self.new.faults ≡ self.old.faults }

        // Which links it gives further, and which of its calls fail, is as before.
        ensures after { (self.new.rest ≡ self.old.rest) × (self.new.calls ≡ self.old.calls) × (self.new.fails ≡ self.old.fails) }
    {
        self.back = self.back.and(&link, &how);
        if self.returned.len() < self.room {
            self.returned.push_reserved(link);
        }
    }
}
