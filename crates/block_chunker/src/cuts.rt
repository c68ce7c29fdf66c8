//! Chunking parameters: how small and how large a chunk may be, and how rare a cut is.

ghost use Rattle.std.specs.Prelude.{◌≡◌, ◌≤◌, ◌↔◌, IsSome, IfSome};

/// Where chunks may end: `min` and `max` bytes, and the number of low bits of the hash that a cut
/// leaves open.
///
/// A chunk but the last has `min` to `max` bytes. A window of 48 bytes ends in a cut with the chance
/// of one in 2 to the power of `64 - shift`. As `min` is 48 or more, a window lies within one chunk.
/// Boundaries: docs/FORMATS.md, "Chunk boundaries" (our own).
#[derive(Clone, Copy, Debug, PartialEq, Eq)]
pub struct Cuts {
    pub min: u32,
    pub max: u32,
    pub shift: u32,
    pub ghost wide: { 48 ≤ min },
    pub ghost ordered: { min ≤ max },
    pub ghost positive: { 1 ≤ shift },
    pub ghost within_word: { shift ≤ 63 },
}

impl Cuts {
    /// The parameters of this project's own files: chunks of 256 KiB to 4 MiB, 1.2 MiB on average.
    pub const USUAL: Cuts = Cuts {
        min: 262_144,
        max: 4_194_304,
        shift: 44,
    };

    /// The usual parameters, with their values told to contracts, which cannot name a constant.
    pub const fn usual() -> Cuts
        ensures value { (result.min ≡ 262144) × (result.max ≡ 4194304) × (result.shift ≡ 44) }
    {
        Cuts::USUAL
    }

    /// Parameters of one's own: `min` from 48 up, `max` from `min` up, `shift` from 1 to 63; others give `None`.
    ///
    /// It takes no memory.
    pub const fn new(min: u32, max: u32, shift: u32) -> Option<Cuts>
        ensures value { IfSome result
            (λ cuts. (cuts.min ≡ min) × (cuts.max ≡ max) × (cuts.shift ≡ shift)) }
        ensures found { IsSome result
            ↔ ((48 ≤ min) × (min ≤ max) × (1 ≤ shift) × (shift ≤ 63)) }
    {
        if 48 <= min && min <= max && 1 <= shift && shift <= 63 {
            Some(Cuts { min, max, shift })
        } else {
            None
        }
    }
}
