//! The library of a number: that a generated text is a library, and which one.
//!
//! `generate` writes a text, and `lib_read` says what a text is read as. This crate stands on both
//! and proves that they meet: for each number and each size from 1 to 16 the text has no fault, and
//! it is read as `generated_library`, which says the same in rows instead of bytes. So whoever
//! generates a library and reads it back can only want for memory, and `text_and_library` answers
//! nothing else.
//!
//! The proof goes the way of a reader: the text is lines (`LineTexts`, `GroupLines`), the lines
//! come to a document (`Documents`, `Texts`), each name in it has its place (`Names`), no row has a
//! fault (`Quiet`, `Repeats`), nothing is too many (`Components`), and the rows are those of the
//! generated library (`Judged`, `Whole`).
#![tactic(auto)]

pub mod laws;
mod reading;

pub use reading::{Generated, text_and_library};

#[cfg(test)]
mod tests;
