//! What the lists say of numbers.
ghost use Rattle.std.specs.Prelude.{ℕ, List};
ghost use Rattle.std.specs.declared.option.Option.{Option};

/// Locks whose values lend numbers. A list has each entry with the number of the pass that made it.
pub trait Lending {
    type Entry;

    /// Which numbers the list of a lock lends.
    ghost lends: { ℕ → List (ℕ × Self.Entry) → ℕ → Type 0 };

    /// Which of these it has out.
    ghost out: { ℕ → List (ℕ × Self.Entry) → ℕ → Type 0 };

    /// Of a lock and the list of lock 0: the one pass that may have numbers of that lock in its
    /// hand.
    ghost keeper: { ℕ → List (ℕ × Self.Entry) → Option ℕ };

    /// The hand of a lock after its holder made this entry on it.
    ghost hand_after: { ℕ → Self.Entry → List ℕ → List ℕ };

    /// Of an entry on lock 0: the other lock whose hand it empties.
    ghost empties: { Self.Entry → Option ℕ };
}
