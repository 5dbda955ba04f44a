//! What a worker does with a node: it closes the node's cube, looks for a bound, and says how the
//! search goes on there.
//!
//! `job` answers one of three outcomes for a cube and what is known there: to split it at a
//! variable, to drop it for a reason, or to offer the one vector that is left as a candidate. Each
//! comes with the trace of rows that leads from the cube to where that holds, and meets what the
//! pool's call of its name asks for (`IsOutcome`).
//!
//! It stands on `propagate` for the closing and on `row_bounds` for the bounds and for the variable.
//! It takes memory for the trace and for the reason.
#![tactic(auto)]

mod outcome;
mod working;

pub use outcome::Outcome;
pub use working::job;

#[cfg(test)]
mod tests;
