//! What the head updates that are retained say.
ghost use Rattle.std.specs.Prelude.{◌≡◌, ◌≢◌, []};
ghost use Rattle.library_rules.specs.LibraryState.{head_of, is_kept};
ghost use Rattle.object_graph.specs.Objects.{same_id};

use ids::ObjId;
use library_state::Install;

/// Whether a commit is kept.
pub(crate) fn is_kept(kept: &[Install], id: &ObjId) -> bool
    ensures value { result ≡ is_kept kept.now id.now }
{
    kept.iter()
        .any(|install| *id == install.head || *id == install.pushed)
}

/// The head: that of the last head update.
pub(crate) fn head_of(kept: &[Install]) -> ObjId
    requires some { kept.now ≢ [] }
    ensures value { result ≡ head_of kept.now }
{
    kept[kept.len() - 1].head
}

/// Whether a commit is the head.
pub(crate) fn is_head(kept: &[Install], id: &ObjId) -> bool
    requires some { kept.now ≢ [] }
    ensures value { result ≡ same_id id.now (head_of kept.now) }
{
    *id == head_of(kept)
}
