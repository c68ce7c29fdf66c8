//! A folder that shows what is done in it, and tells why it failed.
ghost use Rattle.std.specs.Prelude.{◌≡◌};

use crate::cause::Cause;
use crate::notes::Notes;
use crate::progress::{Done, Progress};
use folder_side::{Ahead, Folder, FolderFault, ItemKind, Listing};
use ids::Text;
use std::alloc::Global;
use std::io;
use std::time::Clock;
use tree_model::Path;

/// What is written first, as a place in lines.
const SPARE: &str = ".seaf-cli.spare";

/// A folder, with a line that shows what is done in it, unless nothing is to be shown, and one for each call that failed. All else is the
/// folder's own.
#[derive(Drop)]
pub struct ShownFolder<'a, F, R> {
    folder: F,
    notes: &'a Notes<R>,
    // Whose it is in lines: a library, or the folder itself.
    whose: Text,
    is_shown: bool,
}

impl<'a, F, R: Clock> ShownFolder<'a, F, R> {
    /// This folder, with lines that are shared; its faults are told as this one's.
    pub fn new(folder: F, notes: &'a Notes<R>, whose: Text, is_shown: bool) -> ShownFolder<'a, F, R>
        ensures value { result.folder ≡ folder }
    {
        ShownFolder {
            folder,
            notes,
            whose,
            is_shown,
        }
    }

    /// The folder itself. The line of progress is taken away.
    pub fn into_folder(self) -> F
        ensures value { result ≡ self.entry.folder }
    {
        let ShownFolder {
            folder,
            notes,
            whose: _,
            is_shown,
        } = self;
        if is_shown {
            notes.progress().end();
        }
        folder
    }

    /// The line of progress, where it is shown.
    fn progress(&self) -> Option<&'a Progress<R>> {
        if self.is_shown {
            Some(self.notes.progress())
        } else {
            None
        }
    }
}

/// Tells why a call failed, if it did by a fault: what was done at this place.
fn note_failure<T, R: Clock>(
    notes: &Notes<R>,
    whose: &Text,
    deed: &str,
    place: &str,
    done: &Result<T, FolderFault>,
    cause: Option<io::Error>,
) {
    let Err(FolderFault::Folder) = done else {
        return;
    };
    if let Some(failure) = cause {
        notes.fault(whose.slice(), deed, place, &failure);
    }
}

/// As `note_failure`, of a path of the folder.
fn note_failure_at<T, R: Clock>(
    notes: &Notes<R>,
    whose: &Text,
    deed: &str,
    path: &Path,
    done: &Result<T, FolderFault>,
    cause: Option<io::Error>,
) {
    let Err(FolderFault::Folder) = done else {
        return;
    };
    if let Ok(text) = path.text(notes.alloc()) {
        let place = if text.is_empty() { "." } else { text.slice() };
        note_failure(notes, whose, deed, place, done, cause);
    }
}

/// Notes what is ahead. With a scan the files that are read are counted anew.
fn note_ahead<R: Clock>(progress: Option<&Progress<R>>, ahead: Ahead) {
    let Some(progress) = progress else {
        return;
    };
    let done = progress.done();
    progress.note(match ahead {
        Ahead::Files(_) => Done {
            files: 0,
            bytes: 0,
            ahead,
            ..done
        },
        _ => Done { ahead, ..done },
    });
}

/// Notes that so many bytes of a file were read, the first of them or later ones. Behind the scan they were counted before.
fn note_read<R: Clock>(progress: Option<&Progress<R>>, is_first: bool, count: usize) {
    let Some(progress) = progress else {
        return;
    };
    let done = progress.done();
    if let Ahead::Files(_) = done.ahead {
        progress.note(Done {
            files: done.files.saturating_add(u64::from(is_first)),
            bytes: done.bytes.saturating_add(count as u64),
            ..done
        });
    }
}

/// Notes a step, if it was done, by which so many files were written, and so many paths removed.
fn note_step<R: Clock>(progress: Option<&Progress<R>>, is_done: bool, written: u64, removed: u64) {
    let Some(progress) = progress else {
        return;
    };
    if !is_done {
        return;
    }
    let done = progress.done();
    progress.note(Done {
        written: done.written.saturating_add(written),
        removed: done.removed.saturating_add(removed),
        ahead: behind_step(done.ahead),
        ..done
    });
}

/// What is ahead once one more step was done.
fn behind_step(ahead: Ahead) -> Ahead {
    match ahead {
        Ahead::Steps(left) => Ahead::Steps(left.saturating_sub(1)),
        other => other,
    }
}

impl<F: Folder + Cause, R: Clock> Folder for ShownFolder<'_, F, R> {
    ghost told = { λ shown. F.told shown.folder };

    ghost spare = { λ shown. F.spare shown.folder };

    ghost faults = { λ shown. F.faults shown.folder };

    ghost trace = { λ shown. F.trace shown.folder };

    fn list(&mut self, alloc: Global, dir: &Path) -> Result<Listing, FolderFault> {
        let listed = self.folder.list(alloc, dir);
        note_failure_at(
            self.notes,
            &self.whose,
            "listing",
            dir,
            &listed,
            self.folder.cause(),
        );
        listed
    }

    fn look(&mut self, path: &Path) -> Result<Option<ItemKind>, FolderFault> {
        let found = self.folder.look(path);
        note_failure_at(
            self.notes,
            &self.whose,
            "looking at",
            path,
            &found,
            self.folder.cause(),
        );
        found
    }

    fn open_file(&mut self, file: &Path) -> Result<bool, FolderFault> {
        let opened = self.folder.open_file(file);
        note_failure_at(
            self.notes,
            &self.whose,
            "reading",
            file,
            &opened,
            self.folder.cause(),
        );
        opened
    }

    fn is_as_opened(&mut self, file: &Path) -> Result<bool, FolderFault> {
        let same = self.folder.is_as_opened(file);
        note_failure_at(
            self.notes,
            &self.whose,
            "looking at",
            file,
            &same,
            self.folder.cause(),
        );
        same
    }

    fn read(&mut self, file: &Path, place: u64, into: &mut [u8]) -> Result<usize, FolderFault> {
        let read = self.folder.read(file, place, into);
        if let Ok(count) = &read {
            note_read(self.progress(), place == 0, *count);
        }
        note_failure_at(
            self.notes,
            &self.whose,
            "reading",
            file,
            &read,
            self.folder.cause(),
        );
        read
    }

    fn spare_clear(&mut self) -> Result<(), FolderFault> {
        let cleared = self.folder.spare_clear();
        note_failure(
            self.notes,
            &self.whose,
            "making",
            SPARE,
            &cleared,
            self.folder.cause(),
        );
        cleared
    }

    fn spare_add(&mut self, bytes: &[u8]) -> Result<(), FolderFault> {
        let added = self.folder.spare_add(bytes);
        note_failure(
            self.notes,
            &self.whose,
            "writing",
            SPARE,
            &added,
            self.folder.cause(),
        );
        added
    }

    fn spare_sync(&mut self) -> Result<(), FolderFault> {
        let synced = self.folder.spare_sync();
        note_failure(
            self.notes,
            &self.whose,
            "writing",
            SPARE,
            &synced,
            self.folder.cause(),
        );
        synced
    }

    fn spare_move(&mut self, file: &Path) -> Result<(), FolderFault> {
        let moved = self.folder.spare_move(file);
        note_step(self.progress(), moved.is_ok(), 1, 0);
        note_failure_at(
            self.notes,
            &self.whose,
            "moving a new file to",
            file,
            &moved,
            self.folder.cause(),
        );
        moved
    }

    fn make_dir(&mut self, dir: &Path) -> Result<(), FolderFault> {
        let made = self.folder.make_dir(dir);
        note_step(self.progress(), made.is_ok(), 0, 0);
        note_failure_at(
            self.notes,
            &self.whose,
            "making",
            dir,
            &made,
            self.folder.cause(),
        );
        made
    }

    fn remove(&mut self, path: &Path) -> Result<(), FolderFault> {
        let removed = self.folder.remove(path);
        note_step(self.progress(), removed.is_ok(), 0, 1);
        note_failure_at(
            self.notes,
            &self.whose,
            "removing",
            path,
            &removed,
            self.folder.cause(),
        );
        removed
    }

    fn ahead(&self, ahead: Ahead) {
        self.folder.ahead(ahead);
        note_ahead(self.progress(), ahead);
    }
}
