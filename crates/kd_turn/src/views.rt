//! What a slot of the table holds. What a pass knows stands in `kd_hands`.
pub use kd_hands::views::{Part, View};

/// What a slot holds: the value, and the entry with which it was put back last.
/// While a pass holds the lock both are out.
#[derive(Drop)]
pub struct Cell<X, E> {
    pub value: Option<X>,
    pub entry: Option<E>,
}
