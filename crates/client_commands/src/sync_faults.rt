//! How a sync's fault, and a scan's, is printed.
ghost use Rattle.std.specs.Prelude.{◌≡◌};
ghost use Rattle.client_commands.specs.SyncFaults.{fault_of_remote, fault_of_scan, fault_of_sync, status_number, told_of, told_of_scan};

use client_words::Fault;
use folder_side::ScanFault;
use http_front::{Status, refused_status};
use remote_calls::RemoteFault;
use sync_rules::{SyncFault, Synced};

/// What a command came to whose sync came to this.
pub(crate) fn told_of(synced: Result<Synced, SyncFault>) -> Result<Synced, Fault>
    ensures value { result ≡ told_of synced }
{
    match synced {
        Ok(done) => Ok(done),
        Err(fault) => Err(fault_of_sync(fault)),
    }
}

/// The fault of a command whose sync failed. Of damage the id that was wanted is told, and of a refusal its status.
fn fault_of_sync(fault: SyncFault) -> Fault
    ensures value { result ≡ fault_of_sync fault }
{
    match fault {
        SyncFault::Folder => Fault::Folder,
        SyncFault::Remote(fault) => fault_of_remote(fault),
        SyncFault::Refused(refusal) => Fault::Refused(status_number(refused_status(&refusal))),
        SyncFault::Damaged { want, got } => {
            let _ = got;
            Fault::Damaged(want)
        }
        SyncFault::BadTree(_) => Fault::BadTree,
        SyncFault::Changed(path) => Fault::Changed(path),
        SyncFault::Blocked(path) => Fault::Blocked(path),
        SyncFault::NotEmpty => Fault::FolderNotEmpty,
        SyncFault::Scan(fault) => fault_of_scan(fault),
        SyncFault::Stale(number) => Fault::Stale(number),
        SyncFault::NoMemory => Fault::NoMemory,
    }
}

/// What a command came to that looked whether a folder is as it was synced.
pub(crate) fn told_of_scan(clean: Result<bool, ScanFault>) -> Result<bool, Fault>
    ensures value { result ≡ told_of_scan clean }
{
    match clean {
        Ok(clean) => Ok(clean),
        Err(fault) => Err(fault_of_scan(fault)),
    }
}

/// The fault of a command whose scan failed.
fn fault_of_scan(fault: ScanFault) -> Fault
    ensures value { result ≡ fault_of_scan fault }
{
    match fault {
        ScanFault::Folder => Fault::Folder,
        ScanFault::TooDeep(path) => Fault::TooDeep(path),
        ScanFault::TooMany(_) => Fault::TooMany,
        ScanFault::TooBig(path) => Fault::TooBig(path),
        ScanFault::NoMemory => Fault::NoMemory,
    }
}

fn fault_of_remote(fault: RemoteFault) -> Fault
    ensures value { result ≡ fault_of_remote fault }
{
    match fault {
        RemoteFault::Link => Fault::Link,
        RemoteFault::BadReply(at) => Fault::BadReply(at),
        RemoteFault::Cut(size) => Fault::Cut(size),
        RemoteFault::TooLarge(size) => Fault::TooLarge(size),
        RemoteFault::NoMemory => Fault::NoMemory,
    }
}

/// The number of a status.
fn status_number(status: Status) -> u16
    ensures value { result ≡ status_number status }
{
    match status {
        Status::Success => 200,
        Status::NotModified => 304,
        Status::BadRequest => 400,
        Status::Forbidden => 403,
        Status::NotFound => 404,
        Status::Conflict => 409,
        Status::ContentTooLarge => 413,
        Status::HeadTooLarge => 431,
        Status::TooLarge => 442,
        Status::Damaged => 445,
        Status::Incomplete => 446,
        Status::Spent => 449,
        Status::ServerError => 500,
        Status::NotImplemented => 501,
        Status::Unavailable => 503,
    }
}
