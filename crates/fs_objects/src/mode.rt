//! What an entry is, by the bits of its mode that tell the type of a file (POSIX).
ghost use Rattle.std.specs.Prelude.{◌≡◌};
ghost use Rattle.fs_objects.specs.Mode.{is_file_mode, is_directory_mode};

/// The bits of a mode that tell the type of a file: `S_IFMT`.
pub const TYPE_MASK: u32 = 0o170000;

/// The type of a regular file: `S_IFREG`.
pub const FILE_TYPE: u32 = 0o100000;

/// The type of a directory, and the mode of one without permissions: `S_IFDIR`.
pub const DIRECTORY_TYPE: u32 = 0o040000;

/// Whether the type in a mode is a regular file.
pub fn is_file_mode(mode: u32) -> bool
    ensures value { result ≡ is_file_mode mode }
{
    mode & TYPE_MASK == FILE_TYPE
}

/// Whether the type in a mode is a directory.
pub fn is_directory_mode(mode: u32) -> bool
    ensures value { result ≡ is_directory_mode mode }
{
    mode & TYPE_MASK == DIRECTORY_TYPE
}
