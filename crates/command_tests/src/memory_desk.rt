//! A desk of two folders in memory.
ghost use Rattle.std.specs.Prelude.{◌≡◌, IfOk, IfSome, IsTrue, None, OnErr, Some};
ghost use Rattle.folder_side.specs.Folder.{FolderFails};
ghost use Rattle.command_tests.specs.MemoryDesk.{chosen, contents_of, is_place};

use crate::closed_dial::ClosedDial;
use client_desk::{Claim, Desk};
use folder_side::{FolderFault, MemoryFolder};
use http_server::Log;
use ids::{Items, LibId};
use std::alloc::Global;

/// A desk with the folders `conf` and `work`, whose dials make no link. A folder of which a call failed is handed out no more.
#[derive(Drop)]
pub(crate) struct MemoryDesk {
    conf: Option<MemoryFolder>,
    work: Option<MemoryFolder>,
    folder_faults: u64,
    dial_faults: u64,
    asked: u64,
    // The dials that came back, for proofs alone.
    dials: Log<ClosedDial, u64>,
}

impl MemoryDesk {
    /// A desk with two folders without an entry.
    pub(crate) fn new(alloc: Global) -> MemoryDesk {
        MemoryDesk {
            conf: Some(MemoryFolder::new(alloc, Items::new(alloc))),
            work: Some(MemoryFolder::new(alloc, Items::new(alloc))),
            folder_faults: 0,
            dial_faults: 0,
            asked: 0,
            dials: Log::new(),
        }
    }

    /// How many links to the server were asked for.
    pub(crate) fn asked(&self) -> u64 {
        self.asked
    }
}

impl Desk for MemoryDesk {
    ghost use Rattle.std.specs.Prelude.{map};

    type F = MemoryFolder;

    type N = ClosedDial;

    ghost has_place = { λ desk dir. is_place dir };

    ghost holds = { λ desk dir. chosen dir (contents_of desk.conf) (contents_of desk.work) };

    ghost dials = { λ desk. map (λ entry. entry.0) desk.dials.items };

    ghost folder_faults = { λ desk. desk.folder_faults };

    ghost dial_faults = { λ desk. desk.dial_faults };

    fn folder(&mut self, dir: &str, claim: Claim) -> Result<MemoryFolder, FolderFault> {
        let _ = claim;
        if dir == "conf" {
            return handed(&mut self.conf, &mut self.folder_faults);
        }
        if dir == "work" {
            return handed(&mut self.work, &mut self.folder_faults);
        }
        self.folder_faults = self.folder_faults.saturating_add(1);
        Err(FolderFault::Folder)
    }

    fn give_back(&mut self, dir: &str, folder: MemoryFolder, is_synced: bool) {
        let _ = is_synced;
        self.folder_faults = self.folder_faults.saturating_add(folder.faults());
        if dir == "conf" {
            put(&mut self.conf, folder);
            return;
        }
        if dir == "work" {
            put(&mut self.work, folder);
        }
    }

    fn check_marker(&mut self) -> Result<(), FolderFault> {
        Ok(())
    }

    fn take_marker(&mut self, dir: &str, lib: &LibId) {
        let _ = dir;
        let _ = lib;
    }

    fn dial(&mut self) -> ClosedDial {
        ClosedDial::new()
    }

    fn hang_up(&mut self, dial: ClosedDial) {
        self.dial_faults = self.dial_faults.saturating_add(dial.faults());
        self.asked = self.asked.saturating_add(dial.asked());
        self.dials = self.dials.and(&dial, &0);
    }
}

/// The folder of a place, where it is there and none of its calls failed; else a fault.
fn handed(place: &mut Option<MemoryFolder>, faults: &mut u64) -> Result<MemoryFolder, FolderFault>
    ensures value { IfOk result (λ folder. (place.old ≡ Some folder) × (place.new ≡ None) × (folder.faults ≡ 0)) }
    ensures err { OnErr result (place.new ≡ place.old) }
    ensures faults { FolderFails faults.old faults.new result }
{
    if !is_fresh(place) {
        *faults = faults.saturating_add(1);
        return Err(FolderFault::Folder);
    }
    match place.take() {
        Some(folder) => Ok(folder),
        None => {
            *faults = faults.saturating_add(1);
            Err(FolderFault::Folder)
        }
    }
}

/// Whether none of the calls of the folder of a place failed.
fn is_fresh(place: &Option<MemoryFolder>) -> bool
    ensures value { IsTrue result → IfSome place.now (λ folder. folder.faults ≡ 0) }
{
    match place {
        Some(folder) => folder.faults() == 0,
        None => true,
    }
}

/// Puts a folder into its place.
fn put(place: &mut Option<MemoryFolder>, folder: MemoryFolder)
    ensures value { place.new ≡ Some folder }
{
    *place = Some(folder);
}
