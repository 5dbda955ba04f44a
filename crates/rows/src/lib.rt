//! The rows of the 0-1 program: the language in which the search, the log and the checker speak.
//!
//! A row says that a sum of coefficients of variables, 0 or 1 for each member of a network's
//! template, is at least a number. The base rows of a library say what its edges, requirements and
//! patterns ask; a learned cut and the cost row for a bound are rows as well. A cube fixes some
//! variables. The definitions stand in `specs/`: when a vector meets a row, the greatest and least
//! activity of a row in a cube, when it is refuted and what it forces (textbook propagation), the
//! base rows one kind of pattern after another, legal traces and the cube after one, the
//! combination of a reason, quiet cubes, and the ascent (integer dual ascent in a fixed order).
//!
//! The layer above is promised these definitions exactly: `greatest`, `refuted`, `unmet`, `forces`,
//! `together` and `quiet` say what they say of the rows that are known, and `fix_forced` fixes all
//! that one row forces. A `Problem` keeps that its rows are rows and decide its library's patterns,
//! and `Row`, `CutRow`, `Cube` and `Reason` their ranges. It stands on `arch_model` alone.
//!
//! A base row costs a step for each of its terms, the cost row one for each member, and a cut, which
//! is two bit masks, a few counts of bits. Only `copy`, `clone`, `push` and `reserve` take memory.
#![tactic(auto)]

mod activity;
mod by_name;
mod closing;
mod cost;
mod cube;
mod cut;
mod forcing;
mod judge;
mod known;
pub mod laws;
mod problem;
mod quiet_cubes;
mod row;
mod together_of;

pub use cost::{member_cost, variable_count};
pub use cube::Cube;
pub use cut::{CUTS, CutList, CutRow};
pub use judge::{fix_forced, forces, greatest, has, refuted, unmet};
pub use known::{Known, Pair, Reason, RowRef, Trace};
pub use problem::Problem;
pub use quiet_cubes::quiet;
pub use row::{Row, Term};
pub use together_of::{pairs_together, together};

#[cfg(test)]
mod tests;
