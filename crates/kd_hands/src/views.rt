//! What a pass knows. No value is ever made of these types: they exist in proofs alone.
use std::collections::LinkedList;

/// What a pass knows of one lock.
pub struct Part<E> {
    /// The lock's list as far as the pass has seen it: each entry with the number of the pass that
    /// made it.
    pub seen: LinkedList<(u64, E)>,
    /// The entries that the pass made itself.
    pub own: LinkedList<(u64, E)>,
    /// The ticket with which it waits for the lock, or holds it.
    pub ticket: Option<u64>,
    pub holds: bool,
    /// The mark words that it swept in this turn: which of the lock's four, and what the word was.
    pub swept: LinkedList<(u64, u64)>,
}

/// What a pass knows of the gate, and its hands.
pub struct View<E> {
    /// The number of the pass: `Gate::make` counts them from 0 on.
    pub name: u64,
    pub parts: LinkedList<Part<E>>,
    /// For each lock the numbers that the pass has in its hand.
    pub hands: LinkedList<LinkedList<u64>>,
    /// The entries that it made on other locks since it took lock 0, each with its lock. Empty
    /// while it doesn't hold lock 0.
    pub opened: LinkedList<(u64, u64, E)>,
    /// How many turns it has taken.
    pub turns: u64,
    /// How many numbers it has marked.
    pub steps: u64,
    /// How many passes there are, in the view of the pass that was made last; in any other 0.
    pub made: u64,
    /// False once another pass took it in, at closing.
    pub live: bool,
    /// The passes that it took in, at closing, with what they knew.
    pub back: LinkedList<(u64, LinkedList<Part<E>>)>,
}
