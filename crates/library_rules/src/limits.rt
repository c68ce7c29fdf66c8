//! The limits of what is looked at for a call. Our own.

/// The most first parents that are followed from a pushed commit to its merge base.
pub const MAX_STEPS: u64 = 128;
