//! Two links that wait for each other at a gate, so that a test shows workers beside each other.
ghost use Rattle.std.specs.Prelude.{◌≡◌, ◌<◌, ◌≤◌, length};

use http_front::{Link, LinkFailed};
use object_store::Gate;
use std::alloc::{AllocError, Global};
use std::sync::Arc;

/// How often a link looks whether a put is held.
const LOOKS: u64 = 200_000_000;

/// What a link does at the gate.
#[derive(Clone, Copy)]
pub(crate) enum Role {
    /// It closes the gate as it begins.
    Closes,
    /// It gives nothing until a put is held, and opens the gate once so many bytes were given to it.
    Opens(usize),
    /// It leaves the gate alone.
    Passes,
}

/// A link that takes these bytes, one at a time, and does this at a gate. It tells nothing.
#[derive(Drop)]
pub(crate) struct GateLink {
    gate: Arc<Gate, Global>,
    role: Role,
    asked: &'static [u8],
    taken: usize,
    given: Vec<u8>,
    /// Whether no put was held as often as it looked.
    is_limit_met: bool,
    faults: u64,
}

impl GateLink {
    /// A link that was given nothing yet.
    pub(crate) fn new(
        alloc: Global,
        gate: &Arc<Gate, Global>,
        role: Role,
        asked: &'static [u8],
    ) -> Result<GateLink, AllocError> {
        Ok(GateLink {
            gate: Arc::try_clone(gate)?,
            role,
            asked,
            taken: 0,
            given: Vec::new(alloc),
            is_limit_met: false,
            faults: 0,
        })
    }

    /// Whether it was given just these replies, and never waited too long.
    pub(crate) fn is_given(&self, replies: &[u8]) -> bool {
        !self.is_limit_met && self.given.as_slice() == replies
    }

    /// Does what it does at the gate before it gives its first byte.
    fn begin(&mut self)
        ensures faults { self.new.faults ≡ self.old.faults }
    {
        match self.role {
            Role::Closes => self.gate.close(),
            Role::Opens(_) => self.wait(),
            Role::Passes => {}
        }
    }

    /// Waits until a put is held, as long as it may.
    fn wait(&mut self)
        ensures faults { self.new.faults ≡ self.old.faults }
    {
        for _ in 0..LOOKS {
            if self.gate.held() {
                return;
            }
        }
        self.is_limit_met = true;
    }

    /// Opens the gate where it is time to.
    fn open_in_time(&mut self)
        ensures faults { self.new.faults ≡ self.old.faults }
    {
        if let Role::Opens(count) = self.role {
            if count <= self.given.len() {
                self.gate.open();
            }
        }
    }
}

impl Link for GateLink {
    ghost use Rattle.std.specs.Prelude.{None};

    ghost left = { λ link. None };

    ghost taken = { λ link. None };

    ghost given = { λ link. None };

    ghost asked = { λ link. None };

    ghost faults = { λ link. link.faults };

    fn take(&mut self, into: &mut [u8]) -> Result<usize, LinkFailed> {
        if self.taken == 0 {
            self.begin();
        }
        let Some(byte) = self.asked.get(self.taken) else {
            return Ok(0);
        };
        into[0] = *byte;
        self.taken = self.taken.saturating_add(1);
        Ok(1)
    }

    fn give(&mut self, piece: &[u8]) -> Result<(), LinkFailed> {
        match self.given.extend_from_slice(piece) {
            Ok(()) => {
                self.open_in_time();
                Ok(())
            }
            Err(_) => {
                self.faults = self.faults.saturating_add(1);
                Err(LinkFailed)
            }
        }
    }
}
