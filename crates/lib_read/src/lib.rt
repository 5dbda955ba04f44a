//! Reads a library file: TOML bytes into a `Library`, or the first fault of a bad one.
//!
//! `library_of` says, for any bytes, which library they are or which fault is their first: too many
//! bytes, no TOML document, or the least of all faults of the document by class, table, position
//! and key. `read_library` answers exactly that library or that fault; `Memory` alone is free.
//!
//! The faults are looked for class by class, in one pass over each table for a class, and the
//! passes stop at the first fault: what stands in an earlier pass comes earlier in the order, so
//! it is the least of all. The keys of each table, with what their values mean, stand in one place
//! (`schema`), and a new key or kind of pattern is a row there.
//!
//! Stands on `arch_model` and `template`, on the crates `toml` and `indexmap`. It costs the parse,
//! a few look-ups for each key of each row, two hash sets, of names and of pairs of names, and for
//! each component that a pattern names a look at each type.
#![tactic(auto)]

mod checks;
mod components;
mod fault;
mod names;
mod passes;
mod reader;
mod repeats;
mod rows;
mod schema;
mod values;

pub use fault::{LibClass, LibError, LibFault, TableName};
pub use reader::{LARGEST, read_library};

#[cfg(test)]
mod tests;
