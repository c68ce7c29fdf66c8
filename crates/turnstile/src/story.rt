//! What a value must tell to lie in a turnstile: which entries lead from a start to it.
ghost use Rattle.std.specs.Prelude.{List, []};

/// A value with a history of entries.
///
/// `stands start entries value` says that `value` is what the entries, in their order, make of
/// `start`. The start is a value of the same type as clauses see it.
pub trait Story {
    /// One change. The list of them exists in proofs alone, so an entry is never stored.
    type Entry: Send + Sync;

    ghost stands: { Self → List Self.Entry → Self → Type 0 };

    /// Each value stands for the empty list from itself.
    ghost begins: { (x : Self) → stands x [] x };
}
