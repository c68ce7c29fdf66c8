//! The faults of a folder and of a remote, as those of a sync.
ghost use Rattle.std.specs.Prelude.{◌≡◌};
ghost use Rattle.tree_checkout.specs.BlockGets.{folder_fault, remote_fault};

use folder_side::FolderFault;
use remote_calls::RemoteFault;
use sync_rules::SyncFault;

/// The fault of a sync where a call of the folder failed.
pub(crate) fn folder_fault(fault: FolderFault) -> SyncFault
    ensures value { result ≡ folder_fault fault }
{
    match fault {
        FolderFault::Folder => SyncFault::Folder,
        FolderFault::NoMemory => SyncFault::NoMemory,
    }
}

/// The fault of a sync where an order has no outcome.
pub(crate) fn remote_fault(fault: RemoteFault) -> SyncFault
    ensures value { result ≡ remote_fault fault }
{
    match fault {
        RemoteFault::NoMemory => SyncFault::NoMemory,
        other => SyncFault::Remote(other),
    }
}
