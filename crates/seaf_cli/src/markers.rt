//! The marker of a job's folder, and what the client's own folder notes of it.
ghost use Rattle.std.specs.Prelude.{◌≡◌};

use crate::claims::{terms_of, text_of};
use crate::notes::Notes;
use client_desk::Claim;
use ids::LibId;
use local_folder::{
    DirectoryCalls, LocalFolder, Marker, Permissions, SystemDirectories, own_name, put_small,
};
use std::alloc::AllocError;
use std::fs::{File, Files};
use std::io::ErrorKind;
use std::rt::Env;
use std::time::Clock;
use std::{env, fs, io};
use system_edges::{escaped, failure_words};

/// A marker, as a place in lines.
pub(crate) const MARKER: &str = ".seaf-cli.library";

/// What the client's own folder notes of the marker of a job's folder.
#[derive(Drop)]
pub(crate) enum Noted {
    /// Nothing: none was put yet.
    Nothing,
    /// It was put into the folder that stood at this path, from the root on.
    Put(String),
    /// None stands in the folder at this path, from the root on, since that had no path when it was synced last.
    Left(String),
}

/// What is known of the marker of a job's folder that is open.
#[derive(Drop)]
pub struct Marked {
    lib: LibId,
    // Its path from the root on.
    at: String,
    is_new: bool,
    has_marker: bool,
    noted: Noted,
}

/// The folders that markers go by, and where lines go.
#[derive(Drop)]
pub struct Ground<'a, R> {
    pub rt: &'a R,
    /// The path of the client's own folder.
    pub own: &'a str,
    pub notes: &'a Notes<&'a R>,
}

impl<'a, R: Files<File = File> + Env + Clock + AllocGlobal + Clone + Drop> Ground<'a, R> {
    /// What is known of the marker of a folder that was opened as one of a claim; none where that is the client's own. A folder that may
    /// not be opened so is a failure, which has its line.
    pub fn marked(
        &self,
        dir: &str,
        claim: Claim,
        folder: &mut LocalFolder<SystemDirectories<R>>,
    ) -> io::Result<Option<Marked>>
        ensures faults { folder.new.faults ≡ folder.old.faults }
    {
        let Some(terms) = terms_of(claim) else {
            return Ok(None);
        };
        let at = absolute(self.rt, dir)?;
        if terms.is_named && at.as_str() != dir {
            self.advise(dir, at.as_str())?;
        }
        self.check_outside(&terms, dir, at.as_str(), folder)?;
        let found = folder.marker();
        let found = self.told(terms.lib, "reading", MARKER, found)?;
        let read = self.noted(terms.lib);
        let noted = self.told(terms.lib, "reading what is noted of it in", self.own, read)?;
        self.check_marker(&terms, at.as_str(), &found, &noted)?;
        self.check_paths(&terms, at.as_str(), folder)?;
        Ok(Some(Marked {
            lib: terms.lib,
            at,
            is_new: terms.is_new,
            has_marker: found != Marker::Missing,
            noted,
        }))
    }

    /// Puts the marker into a folder of which a sync ended well, if one did, and notes it: one that has none gets it by its first sync, and else where
    /// it has a path, since an empty one may stand in the place of one that isn't mounted. A failure has its line.
    pub fn put_marker(
        &self,
        is_synced: bool,
        marked: &Option<Marked>,
        folder: &mut LocalFolder<SystemDirectories<R>>,
    ) -> io::Result<()>
        ensures faults { folder.new.faults ≡ folder.old.faults }
    {
        let Some(marked) = marked else {
            return Ok(());
        };
        if !is_synced {
            return Ok(());
        }
        let mut has_marker = marked.has_marker;
        if !has_marker {
            let has_path = folder.has_path();
            has_marker = marked.is_new
                || self.told(marked.lib, "listing", marked.at.as_str(), has_path)?;
            if has_marker {
                let put = folder.put_marker(&marked.lib);
                self.told(marked.lib, "writing", MARKER, put)?;
            }
        }
        let kept = self.note(marked, has_marker);
        self.told(marked.lib, "noting the marker in", self.own, kept)
    }

    /// Takes the marker of a library, and what is noted of it, away. What can't be taken has its line.
    pub fn take_marker(&self, dir: &str, lib: LibId) {
        if let Ok(Noted::Put(at)) = self.noted(lib) {
            self.take_at(at.as_str(), lib);
        } else {
            self.take_at(dir, lib);
        }
        let _ = self.forget(lib);
    }

    /// Takes the marker of a library in the folder at a path away, or says that it may be left.
    fn take_at(&self, dir: &str, lib: LibId) {
        if let Err(failure) = take_marker_at(self.rt, dir, lib) {
            let _ = self.advise_left(dir, &failure);
        }
    }

    /// Says that a marker may be left.
    fn advise_left(&self, dir: &str, failure: &io::Error) -> Result<(), AllocError> {
        let alloc = self.rt.alloc();
        let at = absolute(self.rt, dir)?;
        let at = escaped(alloc, at.as_str())?;
        let words = failure_words(alloc, failure)?;
        let line = format!(in alloc;
            "{}: a marker {MARKER} may be left there: {}",
            at.as_str(),
            words.as_str()
        )?;
        self.notes.advice(line.as_str());
        Ok(())
    }

    /// The outcome of a call of the system, whose failure has its line.
    pub(crate) fn told<T>(
        &self,
        lib: LibId,
        deed: &str,
        place: &str,
        outcome: io::Result<T>,
    ) -> io::Result<T> {
        if let Err(failure) = &outcome {
            if failure.kind() != ErrorKind::OutOfMemory {
                self.notes
                    .fault(text_of(&lib.digits()), deed, place, failure);
            }
        }
        outcome
    }

    /// What the client's own folder notes of the marker of a library's folder.
    fn noted(&self, lib: LibId) -> io::Result<Noted> {
        let alloc = self.rt.alloc();
        let path = format!(in alloc; "{}/marker-{}", self.own, text_of(&lib.digits()))?;
        let text = match fs::read_to_string(self.rt, path.as_str()) {
            Ok(text) => text,
            Err(failure) if failure.kind() == ErrorKind::NotFound => return Ok(Noted::Nothing),
            Err(failure) => return Err(failure),
        };
        match text.as_str().split_once('\n') {
            Some(("put", at)) => Ok(Noted::Put(String::from_str(alloc, at)?)),
            Some(("left", at)) => Ok(Noted::Left(String::from_str(alloc, at)?)),
            _ => Err(io::Error::new(ErrorKind::InvalidData, "it isn't as it was left")),
        }
    }

    /// Notes whether a folder has its marker, unless just that is noted.
    fn note(&self, marked: &Marked, has_marker: bool) -> io::Result<()> {
        let at = marked.at.as_str();
        let (word, is_noted) = match (&marked.noted, has_marker) {
            (Noted::Put(was), true) => ("put", was.as_str() == at),
            (_, true) => ("put", false),
            (Noted::Left(was), false) => ("left", was.as_str() == at),
            (Noted::Put(_), false) => ("left", false),
            (Noted::Nothing, false) => ("left", true),
        };
        if is_noted {
            return Ok(());
        }
        let alloc = self.rt.alloc();
        let name = format!(in alloc; "marker-{}", text_of(&marked.lib.digits()))?;
        let text = format!(in alloc; "{word}\n{at}")?;
        let mut calls = SystemDirectories::new(self.rt.clone()?, Permissions::OwnersAlone);
        let own = calls.open_folder(self.own)?;
        let name = own_name(alloc, name.as_str())?;
        put_small(&mut calls, &own, &name, text.as_bytes())
    }

    /// Takes what is noted of a library's marker away.
    fn forget(&self, lib: LibId) -> io::Result<()> {
        let alloc = self.rt.alloc();
        let path = format!(in alloc; "{}/marker-{}", self.own, text_of(&lib.digits()))?;
        fs::remove_file(self.rt, path.as_str())
    }
}

/// Takes the marker in the folder at a path away, where it is that of a library.
fn take_marker_at<R: Files<File = File> + AllocGlobal + Clone + Drop>(
    rt: &R,
    dir: &str,
    lib: LibId,
) -> io::Result<()> {
    let calls = SystemDirectories::new(rt.clone()?, Permissions::Usual);
    let mut folder = LocalFolder::open(calls, dir)?;
    if folder.marker()? == Marker::Of(lib) {
        folder.take_marker()?;
    }
    Ok(())
}

/// A path from the root on, by the folder where the program runs; as it is, where that folder can't be told.
pub(crate) fn absolute<R: Env + AllocGlobal>(rt: &R, dir: &str) -> Result<String, AllocError> {
    let alloc = rt.alloc();
    if dir.starts_with('/') {
        return String::from_str(alloc, dir);
    }
    match env::current_dir(rt) {
        Ok(here) => format!(in alloc; "{}/{dir}", here.to_string_lossy()),
        Err(failure) if failure.kind() == ErrorKind::OutOfMemory => Err(AllocError),
        Err(_) => String::from_str(alloc, dir),
    }
}
