//! The scan for the next cut, by a hash that rolls over the last 48 bytes.

ghost use Rattle.std.specs.Prelude.{◌≡◌, ℕ, ◌+◌, ◌-◌, ◌*◌, ◌/◌, ◌%◌, ◌^◌, ◌<◌, ◌≤◌, ◌==◌, length, take, drop};
ghost use Rattle.block_chunker.specs.ChunkBoundaries.{multiplier, window, window_hash, ends_in_cut};
ghost use Rattle.block_chunker.specs.RollingHash.{ones, chunk_hash, IsFirstEnd};

use crate::cuts::Cuts;

/// The length of the window in bytes.
const WINDOW: usize = 48;

/// The multiplier of Knuth's MMIX generator; that it is used here is our own.
const MULTIPLIER: u64 = 6_364_136_223_846_793_005;

/// The multiplier to the power of 48, modulo 2 to the power of 64.
const MULTIPLIER_TO_48: u64 = 1_108_017_672_292_756_161;

/// What the ones that are added to the bytes make of a window's hash: the sum of the powers of the
/// multiplier up to the 47th. Without them a step of the roll is two additions shorter.
const ONES: u64 = 17_128_602_639_275_940_368;

/// Where a scan stopped, the hash there, and whether the chunk ends there in a cut.
#[derive(Clone, Copy)]
pub struct Stop {
    pub end: usize,
    pub hash: u64,
    pub is_cut: bool,
}

/// The hash with one byte more.
#[inline]
fn taken_in(hash: u64, byte: u8) -> u64
    ensures value { result ≡ (hash * multiplier + (byte + 1)) % 2 ^ 64 }
{
    hash.wrapping_mul(MULTIPLIER)
        .wrapping_add(u64::from(byte) + 1)
}

/// The plain sum with `byte` more and without `old`, the oldest byte of a window of 48.
#[inline]
fn moved(plain: u64, old: u8, byte: u8) -> u64
    ensures value { (result + old * multiplier ^ 48) % 2 ^ 64 ≡ (plain * multiplier + byte) % 2 ^ 64 }
{
    let change = u64::from(byte).wrapping_sub(u64::from(old).wrapping_mul(MULTIPLIER_TO_48));
    plain.wrapping_mul(MULTIPLIER).wrapping_add(change)
}

/// Takes the bytes up to place `to` into a hash that stands at place `from` and begins at `first`.
fn fill(bytes: &[u8], first: usize, from: usize, to: usize, hash: u64) -> u64
    requires ordered { from ≤ to }
    requires fits { to ≤ length bytes.now }
    requires ready { hash ≡ window_hash (drop first (take from bytes.now)) }
    ensures value { result ≡ window_hash (drop first (take to bytes.now)) }
{
    let start = from.max(first).min(to);
    let mut hash = hash;
    for i in start..to {
        hash = taken_in(hash, bytes[i]);
    }
    hash
}

/// Rolls the hash from place `from` on, to the first window that ends in a cut.
fn roll(bytes: &[u8], from: usize, hash: u64, shift: u32) -> Stop
    requires wide { 48 ≤ from }
    requires fits { from ≤ length bytes.now }
    requires within_word { shift ≤ 63 }
    requires ready { hash ≡ window_hash (window (take from bytes.now)) }
    ensures value { IsFirstEnd (λ k. window_hash (window (take k bytes.now)) / 2 ^ shift == 0)
        from (length bytes.now) result.end result.is_cut }
    ensures hash { result.hash ≡ window_hash (window (take result.end bytes.now)) }
{
    let mut plain = hash.wrapping_sub(ONES);
    for i in from..bytes.len() {
        plain = moved(plain, bytes[i - WINDOW], bytes[i]);
        let hash = plain.wrapping_add(ONES);
        if hash >> shift == 0 {
            return Stop {
                end: i + 1,
                hash,
                is_cut: true,
            };
        }
    }
    Stop {
        end: bytes.len(),
        hash: plain.wrapping_add(ONES),
        is_cut: false,
    }
}

/// The scan of a chunk that has its least length, so that any further place may end it.
fn scan_grown(cuts: Cuts, bytes: &[u8], from: usize, hash: u64) -> Stop
    requires grown { cuts.min ≤ from }
    requires ordered { from < cuts.max }
    requires fits { from ≤ length bytes.now }
    requires bounded { length bytes.now ≤ cuts.max }
    requires ready { hash ≡ window_hash (window (take from bytes.now)) }
    ensures value { IsFirstEnd (λ k. ends_in_cut cuts (take k bytes.now))
        from (length bytes.now) result.end result.is_cut }
    ensures hash { result.hash ≡ window_hash (window (take result.end bytes.now)) }
{
    let stop = roll(bytes, from, hash, cuts.shift);
    Stop {
        end: stop.end,
        hash: stop.hash,
        is_cut: stop.is_cut || stop.end == cuts.max as usize,
    }
}

/// Looks behind the first `from` bytes of a chunk for the first place where it ends in a cut.
///
/// `hash` is the chunk's hash at `from`. Nothing is hashed before the first window that can end in a
/// cut.
pub fn scan(cuts: Cuts, bytes: &[u8], from: usize, hash: u64) -> Stop
    requires ordered { from < cuts.max }
    requires fits { from ≤ length bytes.now }
    requires bounded { length bytes.now ≤ cuts.max }
    requires ready { hash ≡ chunk_hash cuts.min (take from bytes.now) }
    ensures value { IsFirstEnd (λ k. ends_in_cut cuts (take k bytes.now))
        from (length bytes.now) result.end result.is_cut }
    ensures hash { result.hash ≡ chunk_hash cuts.min (take result.end bytes.now) }
{
    let least = cuts.min as usize;
    if least <= from {
        return scan_grown(cuts, bytes, from, hash);
    }
    let to = bytes.len().min(least);
    let hash = fill(bytes, least - WINDOW, from, to, hash);
    if to < least {
        return Stop {
            end: to,
            hash,
            is_cut: false,
        };
    }
    if hash >> cuts.shift == 0 || cuts.min == cuts.max {
        return Stop {
            end: to,
            hash,
            is_cut: true,
        };
    }
    scan_grown(cuts, bytes, to, hash)
}
