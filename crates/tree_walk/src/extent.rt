//! How much lies below a directory.
ghost use Rattle.std.specs.Prelude.{◌≡◌, ◌≤◌, ◌+◌, ◌<◌};
ghost use Rattle.tree_model.specs.declared.limits.TheConstants.{MAX_NAMES, MAX_PATHS};
ghost use Rattle.tree_walk.specs.Extent.{joined, with_entry};

/// The number of paths below a directory, and the greatest number of names that one of them has below it.
#[derive(Clone, Copy, Debug, PartialEq, Eq)]
pub struct Extent {
    pub paths: u64,
    pub deep: u32,
}

/// What stands at two places.
pub fn joined(one: Extent, more: Extent) -> Extent
    requires fits { one.paths + more.paths ≤ MAX_PATHS }
    ensures value { result ≡ joined one more }
{
    Extent {
        paths: one.paths + more.paths,
        deep: one.deep.max(more.deep),
    }
}

/// An entry, and what lies below it.
pub fn with_entry(below: Extent) -> Extent
    requires fits { below.paths < MAX_PATHS }
    requires room { below.deep < MAX_NAMES }
    ensures value { result ≡ with_entry below }
{
    Extent {
        paths: below.paths + 1,
        deep: below.deep + 1,
    }
}
