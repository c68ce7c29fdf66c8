//! The bytes of a file and of the spare in memory.

ghost use Rattle.std.specs.Prelude.{◌≡◌, ◌<◌, ◌++◌, ◌-◌, length, min, is_some, IfOk, OnErr, OnOk};
ghost use Rattle.std.specs.Option.{option_map};
ghost use Rattle.folder_side.specs.Folder.{IsPart};

use ids::{Bytes, Items};
use std::alloc::AllocError;

/// Copies what fits of the bytes from a place on, and tells how many they are.
pub(crate) fn copy_part(bytes: &[u8], place: u64, into: &mut [u8]) -> usize
    requires some { 0 < length into.old }
    ensures value { result ≡ min (length into.old) (length bytes.now - place) }
    ensures part { IsPart bytes.now place result into.new }
{
    let from = bytes.len().min(place as usize);
    let left = &bytes[from..];
    let count = into.len().min(left.len());
    into[..count].copy_from_slice(&left[..count]);
    count
}

/// Appends to the spare, and tells whether there is one.
pub(crate) fn add_to(spare: &mut Option<Bytes>, bytes: &[u8]) -> Result<bool, AllocError>
    ensures value { IfOk result (λ done. done ≡ is_some spare.old) }
    ensures ok { OnOk result (spare.new ≡ option_map (λ held. held ++ bytes.now) spare.old) }
    ensures err { OnErr result (spare.new ≡ spare.old) }
{
    match spare.take() {
        None => Ok(false),
        Some(held) => {
            let mut grown = held.into_vec();
            let added = grown.extend_from_slice(bytes);
            *spare = Some(Items::from_vec(grown));
            match added {
                Ok(()) => Ok(true),
                Err(AllocError) => Err(AllocError),
            }
        }
    }
}
