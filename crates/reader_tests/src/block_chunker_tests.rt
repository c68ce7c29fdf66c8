//! Chunks of known bytes, whole and in pieces.

use block_chunker::{Chunker, Cuts};
use ids::{Bytes, Items};
use std::alloc::{AllocError, Global};

/// The chunks of bytes that come in pieces of this size.
fn chunks(
    alloc: Global,
    cuts: Cuts,
    bytes: &[u8],
    size: usize,
) -> Result<Items<Bytes>, AllocError> {
    let mut chunker = Chunker::new(alloc, cuts);
    let mut chunks = Items::new(alloc);
    for piece in bytes.chunks(size.max(1)) {
        chunker.feed(piece, &mut chunks)?;
    }
    if let Some(last) = chunker.finish()? {
        chunks.push(last)?;
    }
    Ok(chunks)
}

/// Whether the chunks of bytes that come in pieces of this size have these lengths.
fn are_cut(
    alloc: Global,
    cuts: Cuts,
    bytes: &[u8],
    size: usize,
    lengths: &[usize],
) -> Result<bool, AllocError> {
    let chunks = chunks(alloc, cuts, bytes, size)?;
    Ok(have_lengths(chunks.slice(), lengths))
}

fn have_lengths(chunks: &[Bytes], lengths: &[usize]) -> bool {
    for (chunk, length) in chunks.iter().zip(lengths.iter()) {
        if chunk.len() != *length {
            return false;
        }
    }
    chunks.len() == lengths.len()
}

/// Bytes of a linear congruential generator: the top byte of each state after `seed`.
fn generated(alloc: Global, seed: u64, count: usize) -> Result<Vec<u8>, AllocError> {
    let mut state = seed;
    let mut bytes = Vec::new(alloc);
    for _ in 0..count {
        state = state
            .wrapping_mul(6_364_136_223_846_793_005)
            .wrapping_add(1_442_695_040_888_963_407);
        bytes.push((state >> 56) as u8)?;
    }
    Ok(bytes)
}

/// Whether so many of a hundred bytes are cut so in pieces of this size, by the limits 48 and 48.
fn are_cut_alike(
    alloc: Global,
    count: usize,
    size: usize,
    lengths: &[usize],
) -> Result<bool, AllocError> {
    let bytes = [7; 100];
    match Cuts::new(48, 48, 44) {
        Some(cuts) => are_cut(alloc, cuts, &bytes[..count.min(100)], size, lengths),
        None => Ok(false),
    }
}

#[test]
fn equal_limits_cut_whole_bytes_and_single_bytes_alike(rt: HostRuntime) -> Result<(), AllocError> {
    assert!(rt; are_cut_alike(rt.alloc(), 100, 100, &[48, 48, 4])?);
    assert!(rt; are_cut_alike(rt.alloc(), 100, 1, &[48, 48, 4])?);
    assert!(rt; are_cut_alike(rt.alloc(), 0, 1, &[])?);
    Ok(())
}

#[test]
fn a_short_file_is_one_chunk(rt: HostRuntime) -> Result<(), AllocError> {
    assert!(rt; are_cut(rt.alloc(), Cuts::USUAL, &[7; 100], 33, &[100])?);
    Ok(())
}

/// Parameters, and whether they are within their limits.
const PARAMETERS: [(u32, u32, u32, bool); 6] = [
    (47, 48, 44, false),
    (48, 47, 44, false),
    (48, 48, 0, false),
    (48, 48, 64, false),
    (48, 48, 1, true),
    (48, u32::MAX, 63, true),
];

fn are_usual(cuts: Option<Cuts>) -> bool {
    cuts == Some(Cuts::USUAL) && Cuts::usual() == Cuts::USUAL
}

#[test]
fn parameters_outside_their_limits_are_refused(rt: HostRuntime) {
    for (min, max, shift, is_good) in PARAMETERS {
        assert!(rt; Cuts::new(min, max, shift).is_some() == is_good);
    }
    assert!(rt; are_usual(Cuts::new(262_144, 4_194_304, 44)));
}

/// Parameters, the seed and number of random bytes, and the lengths of their chunks.
type Sample = (u32, u32, u32, u64, usize, &'static [usize]);

// The lengths come from a program in another language that sums each window anew.
const SAMPLES: [Sample; 5] = [
    (48, 4096, 58, 5, 500, &[115, 91, 58, 63, 95, 52, 26]),
    (64, 256, 60, 5, 500, &[82, 71, 64, 72, 133, 67, 11]),
    (100, 1000, 57, 5, 500, &[422, 78]),
    (
        1024,
        8192,
        53,
        7,
        20_000,
        &[2394, 1093, 5104, 8192, 1829, 1324, 64],
    ),
    (48, 100_000, 54, 6, 5000, &[1768, 1101, 894, 195, 1042]),
];

/// Whether random bytes are cut so, in pieces of 1 byte, of 37, and in one.
fn are_cut_in_pieces(
    alloc: Global,
    cuts: Cuts,
    bytes: &[u8],
    lengths: &[usize],
) -> Result<bool, AllocError> {
    Ok(
        are_cut(alloc, cuts, bytes, 1, lengths)?
            && are_cut(alloc, cuts, bytes, 37, lengths)?
            && are_cut(alloc, cuts, bytes, bytes.len(), lengths)?,
    )
}

fn is_sample(alloc: Global, sample: &Sample) -> Result<bool, AllocError> {
    let bytes = generated(alloc, sample.3, sample.4)?;
    match Cuts::new(sample.0, sample.1, sample.2) {
        Some(cuts) => are_cut_in_pieces(alloc, cuts, bytes.as_slice(), sample.5),
        None => Ok(false),
    }
}

#[test]
fn random_bytes_are_cut_where_a_plain_sum_cuts_them(rt: HostRuntime) -> Result<(), AllocError> {
    for sample in SAMPLES {
        assert!(rt; is_sample(rt.alloc(), &sample)?);
    }
    Ok(())
}

#[test]
fn usual_parameters_cut_random_bytes_where_a_plain_sum_cuts_them(
    rt: HostRuntime,
) -> Result<(), AllocError> {
    let bytes = generated(rt.alloc(), 8, 3_000_000)?;
    let lengths = [486_782, 861_137, 572_225, 526_281, 553_575];
    assert!(rt; are_cut(rt.alloc(), Cuts::USUAL, bytes.as_slice(), 65_536, &lengths)?);
    Ok(())
}
