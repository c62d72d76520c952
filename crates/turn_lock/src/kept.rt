//! What lies under a lock.
ghost use Rattle.std.specs.Prelude.{ℕ, List, Option};

/// A value that stands for a history: an opening, and then one entry for each tenure.
pub trait Kept {
    /// What one tenure did. The lock makes no value of it.
    type Entry;

    // The number of the seat that made the entry. An opening has none.
    ghost seat_of: { Self.Entry → Option ℕ };

    // The value is what the entries of the history, in their order, have made of it.
    ghost stands_for: { Self → List Self.Entry → Type 0 };
}
