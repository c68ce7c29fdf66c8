//! The limits of a tree. Our own.

/// The most files and directories of a tree, its root not counted.
pub const MAX_PATHS: usize = 1_000_000;

/// The most names of a path.
pub const MAX_NAMES: usize = 100;

/// The most bytes of a name.
pub const MAX_NAME: usize = 255;
