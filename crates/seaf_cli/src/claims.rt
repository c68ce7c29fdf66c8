//! What a folder may be that is asked for by a claim, and the lines that tell why it is refused.
ghost use Rattle.std.specs.Prelude.{◌≡◌};

use crate::markers::{Ground, MARKER, Noted, absolute};
use client_desk::{Asking, Claim};
use ids::{LibId, Text};
use local_folder::{LocalFolder, Marker, SystemDirectories};
use std::alloc::{AllocError, Global};
use std::fs::{File, Files};
use std::io::ErrorKind;
use std::os::unix::fs::MetadataExt;
use std::rt::Env;
use std::str::from_utf8;
use std::time::Clock;
use std::{fs, io};
use system_edges::escaped;

/// So many directories above the client's own folder are looked at.
const ABOVE: u32 = 1000;

/// What a job's folder may be.
#[derive(Clone, Copy)]
pub(crate) struct Terms {
    pub(crate) lib: LibId,
    pub(crate) is_new: bool,
    /// It may have no marker, where it stands at the path that is noted.
    may_lack: bool,
    /// It may have no path.
    may_be_empty: bool,
    /// The words named it.
    pub(crate) is_named: bool,
}

/// The terms of a claim to a job's folder: that of `sync` goes by the hand of who typed it, so that it may push the removal of all.
pub(crate) fn terms_of(claim: Claim) -> Option<Terms> {
    match claim {
        Claim::Own => None,
        Claim::New(lib) => Some(Terms {
            lib,
            is_new: true,
            may_lack: true,
            may_be_empty: true,
            is_named: true,
        }),
        Claim::Listed {
            lib,
            asking,
            has_paths,
        } => Some(Terms {
            lib,
            is_new: false,
            may_lack: asking == Asking::Sync,
            may_be_empty: !has_paths || asking == Asking::Sync || asking == Asking::Status,
            is_named: asking == Asking::Sync || asking == Asking::Download,
        }),
    }
}

impl<R: Files<File = File> + Env + Clock + AllocGlobal + Clone + Drop> Ground<'_, R> {
    /// Says by which folder a path goes that isn't one from the root on.
    pub(crate) fn advise(&self, dir: &str, at: &str) -> Result<(), AllocError> {
        let alloc = self.rt.alloc();
        let dir = escaped(alloc, dir)?;
        let at = escaped(alloc, at)?;
        let line = format!(in alloc;
            "{} goes by where seaf-cli runs: {}",
            dir.as_str(),
            at.as_str()
        )?;
        self.notes.advice(line.as_str());
        Ok(())
    }

    /// Tells why a folder that is asked for by a claim wasn't opened, if it wasn't by a fault.
    pub(crate) fn unopened(
        &self,
        dir: &str,
        claim: Claim,
        failure: &io::Error,
    ) -> Result<(), AllocError> {
        let Some(terms) = terms_of(claim) else {
            if failure.kind() != ErrorKind::OutOfMemory {
                self.notes.fault(dir, "opening", "", failure);
            }
            return Ok(());
        };
        let at = absolute(self.rt, dir)?;
        if terms.is_new || failure.kind() != ErrorKind::NotFound {
            let _ = self.told(
                terms.lib,
                "opening",
                at.as_str(),
                Err::<(), io::Error>(*failure),
            );
            return Ok(());
        }
        let words =
            "isn't there: mount or put it back, or give desync, and sync it anew where it is now";
        let _ = self.refusal(terms.lib, at.as_str(), words);
        Ok(())
    }

    /// A refusal of the folder of a library, with its line: where it is, and what is wrong there.
    fn refusal(&self, lib: LibId, at: &str, words: &str) -> io::Result<()> {
        let alloc = self.rt.alloc();
        let at = escaped(alloc, at)?;
        let line = format!(in alloc; "{} {words}", at.as_str())?;
        self.notes.refusal(text_of(&lib.digits()), line.as_str());
        Err(io::Error::from(ErrorKind::PermissionDenied))
    }

    /// Fails where the client's own folder is this one, or lies in it: its files are told to nobody.
    pub(crate) fn check_outside(
        &self,
        terms: &Terms,
        dir: &str,
        at: &str,
        folder: &mut LocalFolder<SystemDirectories<R>>,
    ) -> io::Result<()>
        ensures faults { folder.new.faults ≡ folder.old.faults }
    {
        let is_there = folder.is_at(dir);
        if !self.told(terms.lib, "looking at", at, is_there)? {
            return self.refusal(
                terms.lib,
                at,
                "is another folder now than the one that was opened",
            );
        }
        let is_around = is_around(self.rt, dir, self.own);
        if self.told(terms.lib, "looking above", self.own, is_around)? {
            return self.refusal(
                terms.lib,
                at,
                "is around the folder that -c names: keep that one, with its tokens, outside of what is synced",
            );
        }
        Ok(())
    }

    /// Fails where the folder has the marker of another library, or something else in its place, or none though it is to have one.
    pub(crate) fn check_marker(
        &self,
        terms: &Terms,
        at: &str,
        found: &Marker,
        noted: &Noted,
    ) -> io::Result<()> {
        match found {
            Marker::Of(lib) if *lib == terms.lib => Ok(()),
            Marker::Of(other) => {
                let alloc = self.rt.alloc();
                let words = format!(in alloc;
                    "has the marker {MARKER} of the library {}: take it away if this is no more the folder of that one",
                    text_of(&other.digits())
                )?;
                self.refusal(terms.lib, at, words.as_str())
            }
            Marker::Bad => self.refusal(
                terms.lib,
                at,
                "has a .seaf-cli.library that is no marker: take it away if this is the folder that was synced",
            ),
            Marker::Missing => self.check_missing(terms, at, noted),
        }
    }

    /// Fails where a folder without a marker is to have one.
    fn check_missing(&self, terms: &Terms, at: &str, noted: &Noted) -> io::Result<()> {
        let alloc = self.rt.alloc();
        let (was, may_lack) = match noted {
            Noted::Nothing => return Ok(()),
            Noted::Put(was) => (was, terms.may_lack),
            Noted::Left(was) => (was, true),
        };
        if terms.is_new || (may_lack && was.as_str() == at) {
            return Ok(());
        }
        if was.as_str() == at {
            return self.refusal(
                terms.lib,
                at,
                "has no marker .seaf-cli.library: mount or put back the folder that was synced, or take this one as it is, empty or not, by sync",
            );
        }
        let was = escaped(alloc, was.as_str())?;
        let words = format!(in alloc;
            "has no marker {MARKER}, which was put into {}: run seaf-cli where the path leads there, or give desync and sync",
            was.as_str()
        )?;
        self.refusal(terms.lib, at, words.as_str())
    }

    /// Fails where a folder without a path may not have become so by itself.
    pub(crate) fn check_paths(
        &self,
        terms: &Terms,
        at: &str,
        folder: &mut LocalFolder<SystemDirectories<R>>,
    ) -> io::Result<()>
        ensures faults { folder.new.faults ≡ folder.old.faults }
    {
        if terms.may_be_empty {
            return Ok(());
        }
        let has_path = folder.has_path();
        if self.told(terms.lib, "listing", at, has_path)? {
            return Ok(());
        }
        self.refusal(
            terms.lib,
            at,
            "is empty, and was not when it was synced: put its files back, or remove them from the library too, by sync",
        )
    }
}

/// Whose a folder is in lines: that of its library, or its own, where it is the client's.
pub(crate) fn whose_of(alloc: Global, dir: &str, claim: Claim) -> Result<Text, AllocError> {
    match terms_of(claim) {
        Some(terms) => Text::copy(alloc, text_of(&terms.lib.digits())),
        None => Text::copy(alloc, dir),
    }
}

/// The text of a library's id.
pub(crate) fn text_of(digits: &[u8]) -> &str {
    match from_utf8(digits) {
        Ok(text) => text,
        Err(_) => "",
    }
}

/// Whether the folder at a path is the one at another, or is above it. Where the process may not look further, no sync of a folder above could
/// read what is at that path.
fn is_around<R: Files<File = File> + AllocGlobal>(
    rt: &R,
    dir: &str,
    inner: &str,
) -> io::Result<bool> {
    let folder = fs::metadata(rt, dir)?;
    let mut above = String::from_str(rt.alloc(), inner)?;
    let mut last_device: u64 = 0;
    let mut last_number: u64 = 0;
    for _ in 0..ABOVE {
        let here = match fs::metadata(rt, above.as_str()) {
            Ok(here) => here,
            Err(failure) if failure.kind() == ErrorKind::PermissionDenied => return Ok(false),
            Err(failure) => return Err(failure),
        };
        if here.dev() == folder.dev() && here.ino() == folder.ino() {
            return Ok(true);
        }
        if here.dev() == last_device && here.ino() == last_number {
            return Ok(false);
        }
        last_device = here.dev();
        last_number = here.ino();
        above.push_str("/..")?;
    }
    Err(io::Error::from(ErrorKind::InvalidInput))
}
