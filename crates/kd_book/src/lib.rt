//! The book of a domain's buses: which of its four slots has a bus, of which generation, and what
//! the bus is called.
//!
//! ```text
//!     slot         0            1      2           3
//!     generation   3            2      1           0
//!     name         1000-home    none   1001-work   none
//! ```
//!
//! A slot's generation is odd while it has a bus. A new bus takes the lowest slot without one, here
//! slot 1. Whoever seeks a bus by its name finds its slot and generation, and whoever gives no name
//! finds the lowest slot with a bus.
//!
//! - `book`: the book and its calls
//! - `laws`: what holds along every list of what was done to a book
#![tactic(auto)]

mod book;
mod laws;
#[cfg(test)]
mod tests;

pub use book::{Book, Found, SLOTS};
pub use laws::{found_without_name_is_lowest, names_are_distinct, slots_with_buses_are_odd};
