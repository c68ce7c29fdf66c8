//! A sink in memory: its room and the puts that are to fail.
ghost use Rattle.std.specs.Prelude.{◌≡◌, ◌↔◌, IsTrue, IsErr, is_err, if◌then◌else◌, [], ◌++◌, take, IfOk};
ghost use Rattle.http_front.specs.Link.{CountsFaults, Gives};
ghost use Rattle.ids.specs.FaultCount.{counted};
ghost use Rattle.http_front.specs.MemoryLink.{give_fails, given_count};

use crate::link::{LinkFailed, Sink};
use crate::memory_link::{is_due_at, put_within};
use ids::Items;
use std::alloc::{AllocError, Global};
use std::marker::Model;

/// A sink that keeps what is put.
#[derive(Drop)]
pub struct MemorySink {
    out: Vec<u8>,
    room: usize,
    fails: Items<u64>,
    calls: u64,
    faults: u64,
}

impl Model for MemorySink {
    ghost use Rattle.std.specs.Prelude.{◌≤◌, vec_capacity};
    ghost use Rattle.http_front.specs.MemoryLink.{MemorySinkState};

    ghost Value = { MemorySinkState };

    ghost view = { λ a. record {
      given = a.out.items;
      room = a.room;
      fails = a.fails;
      calls = a.calls;
      faults = a.faults;
    } };

    ghost invariant = { λ a. a.room ≤ vec_capacity a.out };
}

impl MemorySink {
    /// A sink with this room. The puts whose numbers are in `fails`, counted from 0, fail and put
    /// nothing. A put that would pass `room` bytes in all puts what fits and fails.
    pub fn new(alloc: Global, room: usize, fails: Items<u64>) -> Result<MemorySink, AllocError>
        ensures { IfOk result (λ sink. sink ≡ record {
          given = [];
          room = room;
          fails = fails;
          calls = 0;
          faults = 0;
        }) }
    {
        let out = Vec::with_capacity(alloc, room)?;
        Ok(MemorySink {
            out,
            room,
            fails,
            calls: 0,
            faults: 0,
        })
    }

    /// The bytes that were put.
    pub fn given(&self) -> &[u8]
        ensures { result.now ≡ self.now.given }
    {
        self.out.as_slice()
    }
}

impl Sink for MemorySink {
    ghost use Rattle.std.specs.Prelude.{Some};

    ghost given = { λ sink. Some sink.given };

    ghost faults = { λ sink. sink.faults };

    fn put_all(&mut self, piece: &[u8]) -> Result<(), LinkFailed>
        ensures given { Gives (Some self.old.given) (Some self.new.given) piece.now result }
        ensures faults { CountsFaults self.old.faults self.new.faults result }
        ensures fails { IsErr result ↔ IsTrue (give_fails self.old.room self.old.fails self.old.calls self.old.given piece.now) }
        ensures after { self.new ≡ record self.old {
          given = self.old.given ++ take (given_count self.old.room self.old.fails self.old.calls self.old.given piece.now) piece.now;
          calls = counted self.old.calls;
          faults = if is_err result then counted self.old.faults else self.old.faults;
        } }
    {
        let due = is_due_at(self.fails.slice(), self.calls);
        self.calls = self.calls.saturating_add(1);
        if due {
            self.faults = self.faults.saturating_add(1);
            return Err(LinkFailed);
        }
        if !put_within(&mut self.out, self.room, piece) {
            self.faults = self.faults.saturating_add(1);
            return Err(LinkFailed);
        }
        Ok(())
    }
}
