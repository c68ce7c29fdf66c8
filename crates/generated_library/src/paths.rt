//! Where the files stand. Our own.
ghost use Rattle.std.specs.Prelude.{◌≡◌, ◌<◌, ◌∷◌, [], IfOk};
ghost use Rattle.generated_library.specs.Generated.{digit, dir_name, file_name};

use std::alloc::{AllocError, Global};
use tree_model::{Name, NameFault, Path};

/// The path of the file of this number: its directory is `d` and the two digits of the number modulo 40, its name `f` and the number's
/// five digits.
pub(crate) fn path_of(alloc: Global, number: u32) -> Result<Path, AllocError>
    requires few { number < 100000 }
    ensures value { IfOk result (λ path. path ≡ dir_name number ∷ file_name number ∷ []) }
{
    let dir = dir_of(alloc, number)?;
    let bytes = [
        b'f',
        digit(number / 10_000),
        digit(number / 1_000),
        digit(number / 100),
        digit(number / 10),
        digit(number),
    ];
    dir.child(alloc, &name_of(alloc, &bytes)?)
}

/// The directory of the file of this number.
pub(crate) fn dir_of(alloc: Global, number: u32) -> Result<Path, AllocError>
    ensures value { IfOk result (λ path. path ≡ dir_name number ∷ []) }
{
    let at = number % 40;
    let bytes = [b'd', digit(at / 10), digit(at)];
    Path::root(alloc).child(alloc, &name_of(alloc, &bytes)?)
}

/// The name of these ASCII bytes.
fn name_of(alloc: Global, bytes: &[u8]) -> Result<Name, AllocError>
    ensures value { IfOk result (λ name. name ≡ bytes.now) }
{
    let text = match std::str::from_utf8(bytes) {
        Ok(text) => text,
        Err(_) => return Err(AllocError),
    };
    match Name::read(alloc, text) {
        Ok(name) => Ok(name),
        Err(NameFault::NoMemory) => Err(AllocError),
        Err(NameFault::Bad(_)) => Err(AllocError),
    }
}

/// The last decimal digit of a number, in ASCII.
fn digit(number: u32) -> u8
    ensures value { result ≡ digit number }
{
    b'0' + (number % 10) as u8
}
