//! Who may use the files and directories that are made.
use std::fs::{File, Files, Metadata, OpenOptions};
use std::os::unix::fs::{MetadataExt, OpenOptionsExt, PermissionsExt, fchown};
use std::{fs, io};

/// What the owner alone may do to a file: read and write it.
const OWNERS_FILE: u32 = 0o600;

/// The bits that say who may read, write and run a file. Those that let it run as another user aren't handed on: its bytes are others'.
const RIGHTS: u32 = 0o777;

/// Who may use the files and directories that are made.
#[derive(Clone, Copy, Debug, PartialEq, Eq)]
pub enum Permissions {
    /// Their owner alone: 0600 and 0700.
    OwnersAlone,
    /// Whom the process allows it to: 0666 and 0777 without the bits of its mask. A file that is moved in place of another has that one's
    /// permissions.
    Usual,
}

impl Permissions {
    /// The mode of a directory.
    pub(crate) fn of_directory(&self) -> u32 {
        match self {
            Permissions::OwnersAlone => 0o700,
            Permissions::Usual => 0o777,
        }
    }

    /// Whether a file is its owner's alone.
    pub(crate) fn are_owners_alone(&self) -> bool {
        match self {
            Permissions::OwnersAlone => true,
            Permissions::Usual => false,
        }
    }
}

/// An empty file, made to write, which its owner alone may read and write.
pub(crate) fn make_owners_file<R: Files<File = File>>(rt: &R, path: &str) -> io::Result<File> {
    make_file(rt, path, OWNERS_FILE)
}

/// The rights that a new file at a path has by the process's mask and its directory. One is made there for that, and taken away.
pub(crate) fn usual_rights<R: Files<File = File>>(rt: &R, path: &str) -> io::Result<u32> {
    let made = make_file(rt, path, 0o666)?;
    let rights = made.metadata()?.mode() & RIGHTS;
    fs::remove_file(rt, path)?;
    Ok(rights)
}

/// An empty file of this mode, where nothing has the name.
fn make_file<R: Files<File = File>>(rt: &R, path: &str, mode: u32) -> io::Result<File> {
    let mut how = OpenOptions::new();
    how.write(true).create_new(true).mode(mode);
    how.open(rt, path)
}

/// Gives a file the owner, group and rights of the one that it is to replace, as far as the system lets it, or these rights where it
/// replaces none. What the system refuses leaves the file its owner's alone, or others with no more rights than they had.
pub(crate) fn hand_on(file: &File, replaced: Option<&Metadata>, usual: u32) -> io::Result<()> {
    let rights = match replaced {
        Some(replaced) => {
            let own = file.metadata()?;
            rights_after(replaced, keeps_group(file, &own, replaced))
        }
        None => usual,
    };
    let _ = file.set_permissions(fs::Permissions::from_mode(rights));
    Ok(())
}

/// Gives a file the owner and the group of the one that it is to replace, or its group alone. The answer is whether it has the group.
fn keeps_group(file: &File, own: &Metadata, replaced: &Metadata) -> bool {
    if own.uid() == replaced.uid() && own.gid() == replaced.gid() {
        return true;
    }
    fchown(file, Some(replaced.uid()), Some(replaced.gid())).is_ok()
        || fchown(file, None, Some(replaced.gid())).is_ok()
}

/// The rights of a file that was replaced. Where the new one has another group, that has the rights of the others.
fn rights_after(replaced: &Metadata, has_group: bool) -> u32 {
    let rights = replaced.mode() & RIGHTS;
    if has_group {
        return rights;
    }
    (rights & 0o707) | ((rights & 0o7) << 3)
}
