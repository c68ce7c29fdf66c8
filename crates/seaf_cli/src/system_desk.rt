//! The folders of the file system and the network, as the client's desk.
ghost use Rattle.std.specs.Prelude.{◌≡◌, IfOk};

use crate::claims::whose_of;
use crate::markers::{Ground, Marked};
use crate::notes::Notes;
use crate::own_folder::OwnFolder;
use crate::shown_dial::ShownDial;
use crate::shown_folder::ShownFolder;
use client_desk::{Claim, Desk};
use folder_side::FolderFault;
use http_server::Log;
use ids::{LibId, Text};
use local_folder::{LocalFolder, Permissions, SystemDirectories, answer};
use std::alloc::AllocError;
use std::fs::{DirBuilder, File, Files};
use std::io;
use std::io::ErrorKind;
use std::net::{Net, TcpStream};
use std::os::unix::fs::DirBuilderExt;
use std::rt::Env;
use std::time::Clock;
use tcp_links::{TcpDial, TcpLink};

/// The folders of a runtime's file system, and dials over its network. It tells no contents, and counts the faults of its
/// folders and those of its dials.
///
/// What is made in the client's own folder is its owner's alone. That folder is made where the client is to begin in it and it
/// isn't there; no other is: one that isn't there is a fault, since an empty one would be synced as one whose files were
/// removed.
///
/// A job's folder is handed out where its marker, and what is noted of it, lets it be that job's; and one of which a sync ended well
/// gets its marker as it comes back.
#[derive(Drop)]
pub struct SystemDesk<'a, R> {
    rt: &'a R,
    own: OwnFolder,
    notes: &'a Notes<&'a R>,
    folder_faults: u64,
    dial_faults: u64,
    // What is known of the marker of the job's folder that is out.
    marked: Option<Marked>,
    // Why the marker of the folder that came back last could not be put.
    unmarked: Option<io::Error>,
    // The dials that came back, for proofs alone.
    dials: Log<ShownDial<'a, TcpDial<&'a R>, TcpLink, &'a R>, u64>,
}

impl<'a, R> SystemDesk<'a, R> {
    /// A desk over this runtime, for a client whose own folder this is, which shows by these notes what is done in the others, what is
    /// sent and fetched, and why a call failed.
    pub fn new(rt: &'a R, own: OwnFolder, notes: &'a Notes<&'a R>) -> SystemDesk<'a, R> {
        SystemDesk {
            rt,
            own,
            notes,
            folder_faults: 0,
            dial_faults: 0,
            marked: None,
            unmarked: None,
            dials: Log::new(),
        }
    }
}

impl<
    'a,
    R: Files<File = File> + Net<Stream = TcpStream> + Env + Clock + AllocGlobal + Clone + Drop,
> Desk for SystemDesk<'a, R> {
    ghost use Rattle.std.specs.Prelude.{None, map, true};

    type F = ShownFolder<'a, LocalFolder<SystemDirectories<R>>, &'a R>;

    type N = ShownDial<'a, TcpDial<&'a R>, TcpLink, &'a R>;

    ghost has_place = { λ desk dir. true };

    ghost holds = { λ desk dir. None };

    ghost dials = { λ desk. map (λ entry. entry.0) desk.dials.items };

    ghost folder_faults = { λ desk. desk.folder_faults };

    ghost dial_faults = { λ desk. desk.dial_faults };

    fn folder(
        &mut self,
        dir: &str,
        claim: Claim,
    ) -> Result<ShownFolder<'a, LocalFolder<SystemDirectories<R>>, &'a R>, FolderFault> {
        let whose = match whose_of(self.rt.alloc(), dir, claim) {
            Ok(whose) => whose,
            Err(AllocError) => return Err(FolderFault::NoMemory),
        };
        let opened = open_marked(&self.ground(), &self.own, dir, claim);
        let opened = match answer(&mut self.folder_faults, opened) {
            Ok(opened) => opened,
            Err(fault) => return Err(fault),
        };
        let (folder, marked) = opened;
        self.marked = marked;
        let is_shown = claim != Claim::Own;
        Ok(ShownFolder::new(folder, self.notes, whose, is_shown))
    }

    fn give_back(
        &mut self,
        dir: &str,
        folder: ShownFolder<'a, LocalFolder<SystemDirectories<R>>, &'a R>,
        is_synced: bool,
    ) {
        let _ = dir;
        let mut folder = folder.into_folder();
        let marked = self.marked.take();
        let put = self.ground().put_marker(is_synced, &marked, &mut folder);
        self.unmarked = put.err();
        self.folder_faults = self.folder_faults.saturating_add(folder.end());
    }

    fn check_marker(&mut self) -> Result<(), FolderFault> {
        match self.unmarked.take() {
            Some(failure) => answer(&mut self.folder_faults, Err(failure)),
            None => Ok(()),
        }
    }

    fn take_marker(&mut self, dir: &str, lib: &LibId) {
        self.ground().take_marker(dir, *lib);
    }

    fn dial(&mut self) -> ShownDial<'a, TcpDial<&'a R>, TcpLink, &'a R> {
        ShownDial::new(TcpDial::new(self.rt), self.notes)
    }

    fn hang_up(&mut self, dial: ShownDial<'a, TcpDial<&'a R>, TcpLink, &'a R>) {
        self.dials = self.dials.and(&dial, &0);
        let dial = dial.into_dial();
        self.dial_faults = self.dial_faults.saturating_add(dial.faults());
    }
}

impl<R> SystemDesk<'_, R> {
    /// What markers go by.
    fn ground(&self) -> Ground<'_, R> {
        Ground {
            rt: self.rt,
            own: self.own.path.slice(),
            notes: self.notes,
        }
    }
}

/// The folder at a path, where its marker lets it be what it is asked for as, and what is known of that, where it is a job's. A failure has
/// its line.
fn open_marked<R: Files<File = File> + Env + Clock + AllocGlobal + Clone + Drop>(
    ground: &Ground<'_, R>,
    own: &OwnFolder,
    dir: &str,
    claim: Claim,
) -> io::Result<(LocalFolder<SystemDirectories<R>>, Option<Marked>)>
    ensures faults { IfOk result (λ opened. opened.0.faults ≡ 0) }
{
    let mut folder = match open(ground.rt, own, dir) {
        Ok(folder) => folder,
        Err(failure) => {
            let _ = ground.unopened(dir, claim, &failure);
            return Err(failure);
        }
    };
    match ground.marked(dir, claim, &mut folder) {
        Ok(marked) => Ok((folder, marked)),
        Err(failure) => Err(failure),
    }
}

/// The folder at a path.
fn open<R: Files<File = File> + AllocGlobal + Clone + Drop>(
    rt: &R,
    own: &OwnFolder,
    dir: &str,
) -> io::Result<LocalFolder<SystemDirectories<R>>>
    ensures faults { IfOk result (λ folder. folder.faults ≡ 0) }
{
    let permissions = permissions_of(rt, own, dir)?;
    let directories = SystemDirectories::new(rt.clone()?, permissions);
    LocalFolder::open(directories, dir)
}

/// Who may use what is made in the folder at a path. The client's own folder is made, where it is to begin in it.
fn permissions_of<R: Files>(rt: &R, own: &OwnFolder, dir: &str) -> io::Result<Permissions> {
    if own.path.slice() != dir {
        return Ok(Permissions::Usual);
    }
    if own.begins {
        make(rt, dir)?;
    }
    Ok(Permissions::OwnersAlone)
}

/// Makes a folder that is its owner's alone, where nothing stands at the path.
fn make<R: Files>(rt: &R, dir: &str) -> io::Result<()> {
    match DirBuilder::new().mode(0o700).create(rt, dir) {
        Err(failure) if failure.kind() != ErrorKind::AlreadyExists => Err(failure),
        _ => Ok(()),
    }
}
