//! Theorems on chunks and on whole runs of a chunker. Each is a function without a body.

ghost use Rattle.std.specs.Prelude.{◌≡◌, ℕ, ◌++◌, ◌∷◌, ◌≤◌, ◌<◌, List, length, All};
ghost use Rattle.std.specs.List.{concat};
ghost use Rattle.block_chunker.specs.ChunkBoundaries.{AreChunks, chunks_of};
ghost use Rattle.block_chunker.specs.ChunkerProgress.{start_of, chunks_of_run};

use crate::cuts::Cuts;

/// The chunks of a byte string are those of the rule, and the rule allows no others.
pub fn the_chunks_follow_the_rule()
    ensures found { (cuts : Cuts) (bytes : List ℕ) → AreChunks cuts bytes (chunks_of cuts bytes) }
    ensures value { (cuts : Cuts) (bytes : List ℕ) (chunks : List (List ℕ)) →
        AreChunks cuts bytes chunks → chunks ≡ chunks_of cuts bytes }
{}

/// For any pieces, what `feed` appends at each of them and what `finish` gives are the chunks of the
/// joined pieces.
pub fn the_chunks_do_not_depend_on_the_pieces()
    ensures value { (cuts : Cuts) (pieces : List (List ℕ)) →
        chunks_of_run (start_of cuts) pieces ≡ chunks_of cuts (concat pieces) }
{}

/// The chunks joined are the bytes: nothing is lost, and nothing comes in.
pub fn the_chunks_join_to_the_bytes()
    ensures value { (cuts : Cuts) (bytes : List ℕ) → concat (chunks_of cuts bytes) ≡ bytes }
{}

/// No chunk is empty or longer than the greatest length.
pub fn every_chunk_has_a_byte_and_at_most_the_greatest_length()
    ensures bound { (cuts : Cuts) (bytes : List ℕ) →
        All (λ chunk. (0 < length chunk) × (length chunk ≤ cuts.max)) (chunks_of cuts bytes) }
{}

/// A chunk that another one follows has at least the least length.
pub fn every_chunk_but_the_last_has_the_least_length()
    ensures bound { (cuts : Cuts) (bytes : List ℕ) (before after : List (List ℕ)) (chunk follower : List ℕ) →
        chunks_of cuts bytes ≡ before ++ chunk ∷ follower ∷ after → cuts.min ≤ length chunk }
{}
