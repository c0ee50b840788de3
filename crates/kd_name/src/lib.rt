//! Names, patterns, labels and what a bus may be called, after the bus names of the D-Bus
//! Specification, kdbus.policy and kdbus.bus.
//!
//! A name is two or more elements with dots between them. A pattern is a name, or a name or a
//! single element with `.*` behind it, and then covers each text that has one element in the place
//! of the star.
//!
//! ```text
//! org.example.App      a name: three elements
//! org.example.*        a wildcard: covers org.example.App, not org.example.App.Main
//! └────┬────┘
//!    parent of org.example.App, stem of org.example.*
//! ```
//!
//! A definition cuts a text at its dots and speaks of the pieces. The code reads the bytes in one
//! go, and takes no memory.
#![tactic(auto)]

mod bus_name;
mod element;
mod label;
mod name;
mod pattern;

pub use bus_name::{BusNameFault, bus_name_fault};
pub use label::{LABEL_LIMIT, is_label};
pub use name::{NAME_LIMIT, is_name};
pub use pattern::{covers, is_pattern, is_wildcard, parent};
