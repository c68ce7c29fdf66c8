//! How a library's folder finds that the clock was set back after the state text: file times tell then no more what that
//! text vouches for.
ghost use Rattle.std.specs.Prelude.{◌≡◌};
ghost use Rattle.folder_storage.specs.LibraryFolder.{doubts_of};

use crate::file_system::FileSystem;
use crate::library_folder::LibraryFolder;
use crate::paths::named_path;
use std::io;
use std::io::ErrorKind;

impl<F: FileSystem + Drop> LibraryFolder<F> {
    /// Comes before an object that was written to the spare file at this time is moved into its slot: where that is before the
    /// state text a mark is left, durably. After a failure no mark is trusted, and the spare file is taken away, if it can be.
    pub(crate) fn watch_clock(&mut self, spare: &str, time: i64) -> io::Result<()>
        ensures stays { doubts_of self.new ≡ doubts_of self.old }
    {
        let watched = self.mark_if_older(time);
        if watched.is_err() {
            let _ = self.files.remove_file(spare);
        }
        watched
    }

    /// Leaves the mark where a file of this time is older than the state text, unless it stands.
    fn mark_if_older(&mut self, time: i64) -> io::Result<()>
        ensures stays { doubts_of self.new ≡ doubts_of self.old }
    {
        if self.is_set_back {
            return Ok(());
        }
        if time >= self.text_time {
            return Ok(());
        }
        let mark = named_path(self.files.alloc(), self.path.as_str(), "set-back")?;
        // One whose sync failed says nothing.
        self.files.remove_file(mark.as_str())?;
        self.files.write(mark.as_str(), b"", true)?;
        self.files.sync_folder(self.path.as_str())?;
        self.is_set_back = true;
        Ok(())
    }

    /// When a file that has to be there was written.
    fn time_of(&mut self, path: &str) -> io::Result<i64>
        ensures stays { doubts_of self.new ≡ doubts_of self.old }
    {
        match self.files.look(path)? {
            Some(facts) => Ok(facts.changed),
            None => Err(io::Error::from(ErrorKind::NotFound)),
        }
    }

    /// Takes in when a state text was written, before it is moved to its place: that, or the one before, may stand.
    pub(crate) fn begin_text(&mut self, spare: &str) -> io::Result<i64>
        ensures stays { doubts_of self.new ≡ doubts_of self.old }
    {
        let time = self.time_of(spare)?;
        if self.text_time < time {
            self.text_time = time;
        }
        Ok(time)
    }

    /// Takes in that the state text of this time stands, and takes the mark away. One that stays costs time alone.
    pub(crate) fn end_text(&mut self, time: i64)
        ensures stays { doubts_of self.new ≡ doubts_of self.old }
    {
        self.text_time = time;
        if self.is_set_back {
            if let Ok(mark) = named_path(self.files.alloc(), self.path.as_str(), "set-back") {
                self.is_set_back = self.files.remove_file(mark.as_str()).is_err();
            }
        }
    }
}
