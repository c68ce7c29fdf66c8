//! A list of jobs that is cut short.
use client_desk::jobs_in;
use client_words::Fault;
use folder_side::MemoryFolder;
use folder_texts::put_text;
use ids::Items;
use std::alloc::{AllocError, Global};
use tree_model::{Name, NameFault};

/// A list of one job.
const LIST: &[u8] =
    b"{\"jobs\":[{\"dir\":\"work\",\"host\":\"127.0.0.1\",\"lib\":\"11111111-2222-4333-8444-555555555555\",\"port\":8082,\"secret\":\"aaaaaaaaaaaaaaaaaaaaaaaaaaaaaaaaaaaaaaaa\",\"user\":\"me\"}],\"version\":1}";

fn list_name(alloc: Global) -> Result<Name, AllocError> {
    match Name::read(alloc, "seaf.json") {
        Ok(name) => Ok(name),
        Err(NameFault::NoMemory) => Err(AllocError),
        Err(NameFault::Bad(_)) => Err(AllocError),
    }
}

/// Whether a folder with this list is told to have so many jobs, or none where the list is bad.
fn tells(alloc: Global, folder: &mut MemoryFolder, name: &Name, text: &[u8], count: usize) -> bool {
    if put_text(alloc, folder, name, text).is_err() {
        return false;
    }
    match jobs_in(alloc, folder) {
        Ok(jobs) => jobs.len() == count,
        Err(Fault::BadIndex) => count == 0,
        Err(_) => false,
    }
}

/// The first length at which the cut list is told otherwise than as bad; the whole length where none is.
fn first_taken(alloc: Global, folder: &mut MemoryFolder, name: &Name) -> usize {
    for size in 0..LIST.len() {
        if !tells(alloc, folder, name, &LIST[..size], 0) {
            return size;
        }
    }
    LIST.len()
}

#[test]
fn list_of_jobs_cut_at_any_byte_is_bad(rt: HostRuntime) -> Result<(), AllocError> {
    let mut folder = MemoryFolder::new(rt.alloc(), Items::new(rt.alloc()));
    let name = list_name(rt.alloc())?;
    let size = first_taken(rt.alloc(), &mut folder, &name);
    let whole = tells(rt.alloc(), &mut folder, &name, LIST, 1);
    assert!(rt; size == LIST.len() && whole, "{size}");
    Ok(())
}
