//! Lists of items: a size, a kind, a body, and zeros up to a multiple of 8.
#![tactic(auto)]

mod item;
mod judging;
mod reading;
mod writing;

pub use item::{At, Item};
pub use judging::{first_item, read_items};
pub use reading::{Items, are_zeros, word_at};
pub use writing::{padding, put_bytes, put_entry, put_item, put_words, put_zeros};
