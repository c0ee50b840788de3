//! What a command says, read from its items before anybody asks the desk: the entries of a policy,
//! the conditions of a rule, names and labels, and the parts of a message.
//!
//! ```text
//!   items ---> entries, conditions, texts, message, seals ---> what the planners of kd_desk judge
//! ```
//!
//! What items mean stands in `kd_commands`; here it is found in them, each time in one pass.
#![tactic(auto)]

mod conditions;
mod entries;
mod message;
mod seals;
mod texts;

pub use conditions::{conditions_in, has_bad_mask, has_bad_name};
pub use entries::{entries_in, has_ill_named, has_wildcard};
pub use message::{filter, is_too_long, lay, message_of};
pub use seals::{Named, named_seal, range_in};
pub use texts::{activator_name, description_of, destination, endpoint_in, label_in};
