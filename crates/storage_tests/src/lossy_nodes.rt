//! A file or folder of a stand-in for the disk, with what the disk has of it, and which calls fail.
use folder_storage::FileKind;

/// The number of no folder.
pub(crate) const NOWHERE: usize = usize::MAX;

/// When a file or folder was changed, unless it is set: long after any time that a row sets.
pub(crate) const NOW: i64 = 2_000_000_000_000_000_000;

/// The folder of a path, and its last name.
pub(crate) fn parted(path: &str) -> (&str, &str) {
    match path.rsplit_once('/') {
        Some(parts) => parts,
        None => ("", path),
    }
}

/// Where something is named: the number of a folder, and that of a name in it.
#[derive(Clone, Copy, PartialEq, Eq)]
pub(crate) struct Home {
    pub(crate) folder: usize,
    pub(crate) name: usize,
}

/// A file or folder, with what the disk has of it beside what is seen.
#[derive(Clone, Copy)]
pub(crate) struct Node {
    pub(crate) kind: FileKind,
    pub(crate) changed: i64,
    /// Where it is seen, and where the disk has it.
    pub(crate) seen: Home,
    disk: Home,
    /// Whether the disk has its bytes.
    is_synced: bool,
    /// Whether a sync of its bytes failed: another one writes nothing.
    is_broken: bool,
    /// Whether a sync of its name failed: another one writes nothing, until it is named anew.
    is_name_broken: bool,
    /// Whether the disk lost its bytes: it has one byte of none.
    pub(crate) is_torn: bool,
}

impl Node {
    /// A file or folder of which the disk has nothing.
    pub(crate) fn new(kind: FileKind, seen: Home) -> Node {
        Node {
            kind,
            changed: NOW,
            seen,
            disk: Home {
                folder: NOWHERE,
                name: 0,
            },
            is_synced: false,
            is_broken: false,
            is_name_broken: false,
            is_torn: false,
        }
    }

    /// The disk takes over its bytes, unless it has them, or a sync of them fails or failed.
    pub(crate) fn sync_bytes(&mut self, is_failing: bool) {
        if !self.is_synced {
            self.is_broken = self.is_broken || is_failing;
            self.is_synced = !self.is_broken;
        }
    }

    /// A sync of a folder: the disk takes over its name there, or forgets the one that it has no longer.
    pub(crate) fn sync_in(&mut self, folder: usize, is_failing: bool) {
        if self.seen.folder == folder {
            self.sync_name(is_failing);
        } else if self.disk.folder == folder && !is_failing {
            self.disk.folder = NOWHERE;
        }
    }

    /// The disk takes over its name, unless that is its name there, or a sync of it fails or failed.
    fn sync_name(&mut self, is_failing: bool) {
        if self.disk == self.seen {
            return;
        }
        self.is_name_broken = self.is_name_broken || is_failing;
        if !self.is_name_broken {
            self.disk = self.seen;
        }
    }

    /// Names it anew.
    pub(crate) fn move_to(&mut self, home: Home) {
        self.seen = home;
        self.is_name_broken = false;
    }

    /// What the disk has of it is seen, and nothing else.
    pub(crate) fn cut(&mut self, has_names: bool) {
        if has_names && self.disk.folder == NOWHERE && !self.is_name_broken {
            self.disk = self.seen;
        }
        self.seen = self.disk;
        self.is_broken = false;
        self.is_name_broken = false;
        self.is_torn = self.is_torn || !self.is_synced;
        self.is_synced = true;
    }
}

/// A call that fails beside the syncs.
#[derive(Clone, Copy, PartialEq, Eq)]
pub(crate) enum Also {
    Nothing,
    /// A look, for want of memory.
    Look,
    /// A move.
    Move,
    /// A removal, for want of memory.
    Remove,
}

/// Which calls fail: from the sync with the number `first` on, from 0, the next `left` that sync, or are of the kind `also`.
#[derive(Clone, Copy)]
pub(crate) struct Failures {
    pub(crate) first: u64,
    pub(crate) left: u64,
    pub(crate) also: Also,
    /// The syncs so far.
    pub(crate) syncs: u64,
}

impl Failures {
    /// One sync fails, that with this number.
    pub(crate) fn one(first: u64) -> Failures {
        Failures {
            first,
            left: 1,
            also: Also::Nothing,
            syncs: 0,
        }
    }

    /// Counts a sync. The answer is whether it fails.
    pub(crate) fn is_failing(&mut self) -> bool {
        let number = self.syncs;
        self.syncs = number.saturating_add(1);
        if number < self.first || self.left == 0 {
            return false;
        }
        self.left -= 1;
        true
    }

    /// Whether a call of this kind fails.
    pub(crate) fn is_failing_at(&mut self, call: Also) -> bool {
        if self.syncs <= self.first || self.left == 0 || self.also != call {
            return false;
        }
        self.left -= 1;
        true
    }
}
