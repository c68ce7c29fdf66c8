//! The beginning of a head that ends within its target.
ghost use Rattle.std.specs.Prelude.{◌≡◌, false, IsTrue};
ghost use Rattle.httparse.specs.Grammar.{MayBecomeRequest};
ghost use Rattle.httparse.specs.Spans.{RequestOverflows};
ghost use Rattle.http_front.specs.Limits.{field_limit};
ghost use Rattle.http_front.specs.TargetFront.{IsBroken, IsTextFront, MayBecomeHead, after_space, has_space};

/// Whether the bytes end within a target that no bytes can make a text. Then they begin no head.
pub(crate) fn breaks_target(front: &[u8]) -> bool
    ensures broken { IsTrue result → RequestOverflows field_limit front.now }
    ensures may { result ≡ false → MayBecomeRequest front.now → MayBecomeHead front.now }
{
    let target = after_space(front);
    if has_space(target) {
        return false;
    }
    is_broken(target)
}

/// What follows the first space.
fn after_space(bytes: &[u8]) -> &[u8]
    ensures { result.now ≡ after_space bytes.now }
{
    for (i, byte) in bytes.iter().enumerate() {
        if *byte == b' ' {
            return &bytes[i + 1..];
        }
    }
    &[]
}

fn has_space(bytes: &[u8]) -> bool
    ensures { result ≡ has_space bytes.now }
{
    bytes.iter().any(|byte| *byte == b' ')
}

/// Whether some byte can be of no character.
fn is_broken(bytes: &[u8]) -> bool
    ensures broken { IsTrue result → IsBroken bytes.now }
    ensures may { result ≡ false → IsTextFront bytes.now }
{
    match std::str::from_utf8(bytes) {
        Ok(_) => false,
        Err(error) => error.error_len().is_some(),
    }
}
