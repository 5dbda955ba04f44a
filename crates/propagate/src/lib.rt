//! Propagation: what the rows that are known force in a cube, with a trace that shows it.
//!
//! `close` fixes variable after variable where a row forces one, until no row does or some row is
//! refuted. It answers the cube that it reached, the trace of rows that leads there, and whether
//! the cube is quiet, quiet with nothing free, or refuted by a named row. No vector that meets the
//! rows is lost. The law `one_closure` says that the order in which rows are looked at changes
//! nothing: all legal traces from one cube to quiet ones end in the same cube.
//!
//! A row is looked at with its greatest activity less its least, its room. What a row forces is
//! the better value of its variable, so the room stays while all of it is fixed in one go.
//!
//! It stands on `rows` and `arch_model`. The trace alone takes memory.
#![tactic(auto)]

mod closed;
mod closing;
pub mod laws;
mod passes;

pub use closed::Closed;
pub use closing::close;

#[cfg(test)]
mod tests;
