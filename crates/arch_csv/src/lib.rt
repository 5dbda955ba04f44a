//! Reads and writes architecture files: text of comma-separated fields, with a record for each
//! component and edge.
//!
//! `architecture_of_bytes` says, for any library and bytes, which architecture they are or which
//! fault is their first: too many bytes; then the first record in file order that is at fault, by
//! the least of its classes; then the first edge record with an end that the file doesn't have. It
//! speaks of the list of records that the crate `csv` states for the bytes. `read_architecture`
//! answers exactly that architecture or that fault; `Memory` alone is free. `write_architecture`
//! appends exactly `architecture_text`, and `laws` says that this reads back as the architecture.
//!
//! Records are judged one by one as they are read, and the reading stops at the first fault; ends
//! are judged once all components are known, so the number of each edge's record is kept until
//! then.
//!
//! Stands on `arch_model` and `template`, on the crates `csv` and `thiserror`. It costs the parse,
//! and for each name of a record a look at each component, for each edge a look at each edge.
#![tactic(auto)]

mod draft;
mod fault;
mod item;
pub mod laws;
mod reader;
mod writer;

pub use fault::{ArchClass, ArchError, ArchFault};
pub use item::Item;
pub use reader::{LARGEST, read_architecture};
pub use writer::write_architecture;

#[cfg(test)]
mod tests;
