//! How the name of a state text is made durable, and that of a new library's folder.
ghost use Rattle.std.specs.Prelude.{◌≡◌, option_map, string_bytes};
ghost use Rattle.folder_storage.specs.LibraryFolder.{doubts_of};

use crate::file_system::FileSystem;
use crate::library_folder::LibraryFolder;
use std::io;

impl<F: FileSystem + Drop> LibraryFolder<F> {
    /// Makes the name of the state text durable, and that of the library's folder.
    pub(crate) fn settle(&mut self) -> io::Result<()>
        ensures after { doubts_of self.new ≡ record (doubts_of self.old) { is_adrift = self.new.is_adrift; path = string_bytes self.new.path; home = option_map string_bytes self.new.home; above = option_map string_bytes self.new.above } }
    {
        self.files.sync_folder(self.path.as_str())?;
        match self.home.take() {
            Some(home) => self.take_name(home),
            None => self.sync_above(),
        }
    }

    /// Gives a new library's folder its name. Where that can't be made durable it has no name again.
    fn take_name(&mut self, home: String) -> io::Result<()>
        ensures after { doubts_of self.new ≡ record (doubts_of self.old) { is_adrift = self.new.is_adrift; path = string_bytes self.new.path; home = option_map string_bytes self.new.home; above = option_map string_bytes self.new.above } }
    {
        if let Err(failure) = self.files.rename(self.path.as_str(), home.as_str()) {
            self.home = Some(home);
            return Err(failure);
        }
        let synced = self.sync_above();
        if synced.is_err() && self.files.rename(home.as_str(), self.path.as_str()).is_ok() {
            self.is_adrift = false;
            self.home = Some(home);
            return synced;
        }
        self.path = home;
        synced
    }

    /// Makes the name of the library's folder durable, once in this run.
    fn sync_above(&mut self) -> io::Result<()>
        ensures after { doubts_of self.new ≡ record (doubts_of self.old) { is_adrift = self.new.is_adrift; above = option_map string_bytes self.new.above } }
    {
        if let Some(above) = &self.above {
            if let Err(failure) = self.files.sync_folder(above.as_str()) {
                self.is_adrift = true;
                return Err(failure);
            }
        }
        self.above = None;
        Ok(())
    }
}
