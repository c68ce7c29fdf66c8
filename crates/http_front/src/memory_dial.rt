//! A dial over links in memory.
ghost use Rattle.std.specs.Prelude.{◌≡◌, ◌≤◌, List, [], ◌∷◌, ◌++◌, length, take, All, IfOk, OnErr, IsErr, IsTrue, is_err, ◌↔◌, ◌⊎◌, vec_capacity};
ghost use Rattle.http_front.specs.Dial.{IsFresh, count_sum};
ghost use Rattle.http_front.specs.Link.{CountsFaults};
ghost use Rattle.http_front.specs.MemoryDial.{IsUnused, faults_after};
ghost use Rattle.http_front.specs.MemoryLink.{MemoryLinkState};
ghost use Rattle.ids.specs.FaultCount.{counted, is_due};

use crate::dial::{Dial, DialLog};
use crate::link::LinkFailed;
use crate::memory_link::{MemoryLink, is_due_at};
use http_server::Log;
use ids::Items;
use std::alloc::{AllocError, Global};
use std::marker::Model;

/// A dial that hands out the links of a list, whatever the host and the port, and keeps those that come back.
#[derive(Drop)]
pub struct MemoryDial {
    // The links that are not handed out, the next one last.
    rest: Vec<MemoryLink>,
    returned: Vec<MemoryLink>,
    room: usize,
    fails: Items<u64>,
    calls: u64,
    faults: u64,
    // All links that came back, and what was asked for, for proofs alone.
    back: Log<MemoryLink, u64>,
    dialled: DialLog,
}

impl Model for MemoryDial {
    ghost use Rattle.std.specs.Prelude.{◌≡◌, ◌≤◌, All, map, reverse, take, vec_capacity};
    ghost use Rattle.http_front.specs.MemoryDial.{IsUnused, MemoryDialState};

    ghost Value = { MemoryDialState };

    ghost view = { λ a. record {
      rest = reverse a.rest.items;
      room = a.room;
      fails = a.fails;
      calls = a.calls;
      back = map (λ entry. entry.0) a.back.items;
      dialled = a.dialled.items;
      faults = a.faults;
    } };

    ghost invariant = { λ a. record {
      unused : All IsUnused (reverse a.rest.items);
      kept : a.returned.items ≡ take a.room (map (λ entry. entry.0) a.back.items);
      room : a.room ≤ vec_capacity a.returned;
    } };
}

impl MemoryDial {
    /// A dial that hands out these links, in their order. The first call for a link has number 0, the next 1, and so on; one
    /// whose number stands in `fails` fails, and so does each after the last link was handed out. It keeps as many of the
    /// links that come back.
    pub fn new(
        alloc: Global,
        links: Items<MemoryLink>,
        fails: Items<u64>,
    ) -> Result<MemoryDial, AllocError>
        requires fresh { All IsUnused links }
        ensures value { IfOk result (λ dial. dial ≡ record {
          rest = links;
          room = length links;
          fails = fails;
          calls = 0;
          back = [];
          dialled = [];
          faults = 0;
        }) }
    {
        let room = links.len();
        let mut rest = links.into_vec();
        let returned = Vec::with_capacity(alloc, room)?;
        rest.reverse();
        Ok(MemoryDial {
            rest,
            returned,
            room,
            fails,
            calls: 0,
            faults: 0,
            back: Log::new(),
            dialled: DialLog::new(),
        })
    }

    /// The first of the links that came back, in order: all of them, where no more came than were handed in.
    pub fn returned(&self) -> &[MemoryLink]
        ensures value { result.now ≡ take self.now.room self.now.back }
    {
        self.returned.as_slice()
    }

    /// The next link, where this call isn't one that is to fail.
    fn next_link(&mut self) -> Result<MemoryLink, LinkFailed>
        ensures fails { IsErr result ↔ (IsTrue (is_due self.old.fails self.old.calls) ⊎ (self.old.rest ≡ [])) }
        ensures ok { IfOk result IsUnused }
        ensures rest { IfOk result (λ link. self.old.rest ≡ link ∷ self.new.rest) }
        ensures err { OnErr result (self.new.rest ≡ self.old.rest) }
        ensures after { self.new ≡ record self.old { rest = self.new.rest; calls = counted self.old.calls } }
    {
        let due = is_due_at(self.fails.slice(), self.calls);
        self.calls = self.calls.saturating_add(1);
        if due {
            return Err(LinkFailed);
        }
        let Some(link) = self.rest.pop() else {
            return Err(LinkFailed);
        };
        Ok(link)
    }
}

impl Dial for MemoryDial {
    ghost use Rattle.std.specs.Prelude.{Some, ⊤};

    type L = MemoryLink;

    ghost reaches = { λ link host port. ⊤ };

    ghost back = { λ dial. dial.back };

    ghost dialled = { λ dial. dial.dialled };

    ghost faults = { λ dial. dial.faults };

    fn link(&mut self, host: &str, port: u16) -> Result<MemoryLink, LinkFailed>
        ensures told { IfOk result (λ link. ⊤) }
        ensures dialled { self.new.dialled ≡ self.old.dialled ++ (host.now, port) ∷ [] }
        ensures fresh { IfOk result (IsFresh (λ link. Some link.taken) (λ link. Some link.given) (λ link. Some link.asked) (λ link. link.faults)) }
        ensures stays { self.new.back ≡ self.old.back }
        ensures faults { CountsFaults self.old.faults self.new.faults result }

        // A call fails exactly where it is to fail, or where no link is left; else it gives the next one. Each is counted.
        ensures fails { IsErr result ↔ (IsTrue (is_due self.old.fails self.old.calls) ⊎ (self.old.rest ≡ [])) }
        ensures rest { IfOk result (λ link. self.old.rest ≡ link ∷ self.new.rest) }
        ensures err { OnErr result (self.new.rest ≡ self.old.rest) }
        ensures after { self.new ≡ record self.old { rest = self.new.rest; calls = counted self.old.calls; dialled = self.old.dialled ++ (host.now, port) ∷ []; faults = faults_after (is_err result) self.old.faults } }
    {
        self.dialled = self.dialled.and(host, port);
        match self.next_link() {
            Ok(link) => Ok(link),
            Err(failed) => {
                self.faults = self.faults.saturating_add(1);
                Err(failed)
            }
        }
    }

    fn hang_up(&mut self, link: MemoryLink)
        ensures back { self.new.back ≡ self.old.back ++ link ∷ [] }
        ensures dialled { self.new.dialled ≡ self.old.dialled }
        ensures faults { self.new.faults ≡ count_sum self.old.faults link.faults }
        ensures after { self.new ≡ record self.old { back = self.old.back ++ link ∷ []; faults = count_sum self.old.faults link.faults } }
    {
        self.faults = self.faults.saturating_add(link.faults());
        self.back = self.back.and(&link, &0);
        keep(&mut self.returned, self.room, link);
    }
}

/// Keeps a link that came back, where there is room: the first `room` of them.
fn keep(returned: &mut Vec<MemoryLink>, room: usize, link: MemoryLink)
    requires room { room ≤ vec_capacity returned.old }
    ensures items { (back : List MemoryLinkState) → returned.old.items ≡ take room back → returned.new.items ≡ take room (back ++ link ∷ []) }
    ensures capacity { vec_capacity returned.old ≤ vec_capacity returned.new }
{
    let kept = returned.as_slice().len();
    if kept >= room {
        return;
    }
    match returned.push(link) {
        Ok(()) => {}
        Err(_) => unreachable!(),
    }
}
