//! What a locked value stands for.
ghost use Rattle.std.specs.Prelude.{ℕ, List};
ghost use Rattle.std.specs.declared.option.Option.{Option};
ghost use Rattle.kd_hands.specs.Locks.{Histories};

/// The values behind the locks of one gate. Each lock has a list of entries, which exists in the
/// proofs alone: every turn on the lock ends it with one entry. A list has each entry with the
/// number of the pass that made it. The members say what a value and the lists have to do with each
/// other; a caller of `Pass::put` shows that it keeps them.
pub trait Standing {
    /// An entry takes no memory when the program runs: it is made of `std::snapshot::Snapshot`
    /// values.
    type Entry: Drop;

    /// Of a lock's number: which list of entries the value stands for.
    ghost stands: { ℕ → List (ℕ × Self.Entry) → Self → Type 0 };

    /// The tie between the lists of all locks and the entries that the holder of lock 0 has made on
    /// others since it took it.
    ghost tie: { Histories Self.Entry → Type 0 };

    /// Which numbers the list of a lock lends: only these may stand in a hand or be marked.
    ghost lends: { ℕ → List (ℕ × Self.Entry) → ℕ → Type 0 };

    /// Which of these it has out: each is in the keeper's hand, or marked, or was swept in this
    /// turn.
    ghost out: { ℕ → List (ℕ × Self.Entry) → ℕ → Type 0 };

    /// Of a lock and the list of lock 0: the one pass that may have numbers of that lock in its
    /// hand.
    ghost keeper: { ℕ → List (ℕ × Self.Entry) → Option ℕ };

    /// The hand of a lock after its holder made this entry on it.
    ghost hand_after: { ℕ → Self.Entry → List ℕ → List ℕ };

    /// Of an entry on lock 0: the other lock whose hand it empties.
    ghost empties: { Self.Entry → Option ℕ };
}
