//! A link in memory: its input, its room and the calls that are to fail.
ghost use Rattle.std.specs.Prelude.{◌≡◌, ◌+◌, ◌-◌, ◌<◌, ◌≤◌, ◌↔◌, IsTrue, if◌then◌else◌, is_err, List, [], ◌++◌, length, take, drop, min, IfOk, OnErr, IsErr, vec_len, vec_capacity};
ghost use Rattle.std.specs.Io.KnownBytes.{IsAtEnd, append_known, prepend_known};
ghost use Rattle.http_front.specs.Link.{CountsFaults, Gives, asked_once_more};
ghost use Rattle.ids.specs.FaultCount.{counted, is_due};
ghost use Rattle.http_front.specs.MemoryLink.{after_failed_take, after_take, fitting, give_fails, given_count};

use crate::link::{Link, LinkFailed};
use http_server::Log;
use ids::{Bytes, Items};
use std::alloc::{AllocError, Global};
use std::marker::Model;

/// A link whose input is in memory and which keeps what is given to it.
#[derive(Drop)]
pub struct MemoryLink {
    input: Bytes,
    place: usize,
    piece: usize,
    out: Vec<u8>,
    room: usize,
    fails: Items<u64>,
    calls: u64,
    faults: u64,
    // What it was asked, for proofs alone.
    asked: Log<usize, usize>,
}

impl Model for MemoryLink {
    ghost use Rattle.std.specs.Prelude.{◌<◌, ◌≤◌, length, take, drop, vec_capacity};
    ghost use Rattle.http_front.specs.MemoryLink.{MemoryLinkState};

    ghost Value = { MemoryLinkState };

    ghost view = { λ a. record {
      left = drop a.place a.input;
      taken = take a.place a.input;
      given = a.out.items;
      piece = a.piece;
      room = a.room;
      fails = a.fails;
      calls = a.calls;
      faults = a.faults;
      asked = a.asked.items;
    } };

    ghost invariant = { λ a. record { place : a.place ≤ length a.input; piece : 0 < a.piece; room : a.room ≤ vec_capacity a.out } };
}

impl MemoryLink {
    /// A link that has this input left and was given nothing. No take moves more than `piece`
    /// bytes. The first call, be it a take or a give, has number 0, the next 1, and so on; a call
    /// whose number stands in `fails` fails and moves no byte. The link keeps up to `room` bytes:
    /// of a give for which that is too little it keeps the beginning, and the give fails.
    pub fn new(
        alloc: Global,
        input: Bytes,
        piece: usize,
        room: usize,
        fails: Items<u64>,
    ) -> Result<MemoryLink, AllocError>
        requires { 1 ≤ piece }
        ensures { IfOk result (λ link. link ≡ record {
          left = input;
          taken = [];
          given = [];
          piece = piece;
          room = room;
          fails = fails;
          calls = 0;
          faults = 0;
          asked = [];
        }) }
    {
        let out = Vec::with_capacity(alloc, room)?;
        Ok(MemoryLink {
            input,
            place: 0,
            piece,
            out,
            room,
            fails,
            calls: 0,
            faults: 0,
            asked: Log::new(),
        })
    }

    /// The bytes that were given to it.
    pub fn given(&self) -> &[u8]
        ensures { result.now ≡ self.now.given }
    {
        self.out.as_slice()
    }

    /// How many of its calls failed.
    pub(crate) fn faults(&self) -> u64
        ensures value { result ≡ self.now.faults }
    {
        self.faults
    }
}

impl Link for MemoryLink {
    ghost use Rattle.std.specs.Prelude.{Some};

    ghost left = { λ link. Some link.left };

    ghost taken = { λ link. Some link.taken };

    ghost given = { λ link. Some link.given };

    ghost asked = { λ link. Some link.asked };

    ghost faults = { λ link. link.faults };

    fn take(&mut self, into: &mut [u8]) -> Result<usize, LinkFailed>
        requires { 0 < length into.old }
        ensures bound { IfOk result (λ n. n ≤ length into.new) }
        ensures left { IfOk result (λ n. Some self.old.left ≡ prepend_known (take n into.new) (Some self.new.left)) }
        ensures taken { IfOk result (λ n. Some self.new.taken ≡ append_known (Some self.old.taken) (take n into.new)) }
        ensures end { IfOk result (λ n. n ≡ 0 → IsAtEnd (Some self.old.left)) }
        ensures err_left { OnErr result (Some self.new.left ≡ Some self.old.left) }
        ensures err_taken { OnErr result (Some self.new.taken ≡ Some self.old.taken) }
        ensures stays { Some self.new.given ≡ Some self.old.given }
        ensures asked { Some self.new.asked ≡ asked_once_more (Some self.old.asked) (Some self.old.taken) (Some self.old.given) }
        ensures faults { CountsFaults self.old.faults self.new.faults result }

        // A take fails exactly where it is to fail, and else gives as many bytes as it may.
        ensures fails { IsErr result ↔ IsTrue (is_due self.old.fails self.old.calls) }
        ensures count { IfOk result (λ n. n ≡ min self.old.piece (min (length into.old) (length self.old.left))) }
        ensures ok { IfOk result (λ n. self.new ≡ after_take self.old n) }
        ensures err { OnErr result (self.new ≡ after_failed_take self.old) }
    {
        let due = is_due_at(self.fails.slice(), self.calls);
        self.calls = self.calls.saturating_add(1);
        self.asked = self.asked.and(&self.place, &self.out.as_slice().len());
        if due {
            self.faults = self.faults.saturating_add(1);
            return Err(LinkFailed);
        }
        let left = self.input.len() - self.place;
        let count = self.piece.min(into.len()).min(left);
        copy_from(self.input.slice(), self.place, into, count);
        self.place += count;
        Ok(count)
    }

    fn give(&mut self, piece: &[u8]) -> Result<(), LinkFailed>
        ensures given { Gives (Some self.old.given) (Some self.new.given) piece.now result }
        ensures stays_left { Some self.new.left ≡ Some self.old.left }
        ensures stays_taken { Some self.new.taken ≡ Some self.old.taken }
        ensures stays_asked { Some self.new.asked ≡ Some self.old.asked }
        ensures faults { CountsFaults self.old.faults self.new.faults result }

        // A give fails exactly where it is to fail or the piece finds no room in full, and then
        // what fits was given.
        ensures fails { IsErr result ↔ IsTrue (give_fails self.old.room self.old.fails self.old.calls self.old.given piece.now) }
        ensures after { self.new ≡ record self.old {
          given = self.old.given ++ take (given_count self.old.room self.old.fails self.old.calls self.old.given piece.now) piece.now;
          calls = counted self.old.calls;
          faults = if is_err result then counted self.old.faults else self.old.faults;
        } }
    {
        let due = is_due_at(self.fails.slice(), self.calls);
        self.calls = self.calls.saturating_add(1);
        if due {
            self.faults = self.faults.saturating_add(1);
            return Err(LinkFailed);
        }
        if !put_within(&mut self.out, self.room, piece) {
            self.faults = self.faults.saturating_add(1);
            return Err(LinkFailed);
        }
        Ok(())
    }
}

/// Whether the call of this number is to fail.
pub(crate) fn is_due_at(fails: &[u64], number: u64) -> bool
    ensures { result ≡ is_due fails.now number }
{
    fails.iter().any(|n| *n == number)
}

/// Copies the `count` bytes of `input` from `place` on to the front of `into`.
fn copy_from(input: &[u8], place: usize, into: &mut [u8], count: usize)
    requires within { place + count ≤ length input.now }
    requires fits { count ≤ length into.old }
    ensures { take count into.new ≡ take count (drop place input.now) }
{
    into[..count].copy_from_slice(&input[place..place + count]);
}

/// Puts what fits of the piece below `room` bytes in all, and says whether all of it did.
pub(crate) fn put_within(out: &mut Vec<u8>, room: usize, piece: &[u8]) -> bool
    requires { room ≤ vec_capacity out.old }
    ensures items { out.new.items ≡ out.old.items ++ take (fitting room out.old.items piece.now) piece.now }
    ensures whole { IsTrue result ↔ (length piece.now ≤ room - length out.old.items) }
    ensures capacity { vec_capacity out.old ≤ vec_capacity out.new }
{
    let space = room.saturating_sub(out.len());
    let count = space.min(piece.len());
    match out.extend_from_slice(&piece[..count]) {
        Ok(()) => piece.len() <= space,
        Err(_) => unreachable!(),
    }
}
