//! The 0-1 program of a library: rows that say exactly what its patterns say.
//!
//! Each component and each edge of the template is a variable, 1 where it is present. `problem_of`
//! writes the base rows of a library: two for each edge, which ask for its ends, one for each
//! requirement, and those of each pattern, in a fixed order with fixed numbers. The central theorem
//! stands on it: a vector of 0 and 1 meets all of them exactly where it is that of an architecture
//! that meets every pattern and has every required sink. `cube_of` and `architecture_of` lead from
//! architectures to cubes in which nothing is free, and back.
//!
//! Modelling conditions by linear inequalities over 0-1 variables is textbook integer programming.
//! The layer above is promised that the rows decide the patterns, and needs no pattern again.
//! Stands on `arch_model` and `rows`, and its tests on `template`; only `problem_of` takes memory.
#![tactic(auto)]

mod adding;
mod asked;
mod building;
mod condition_rows;
mod cubes;
mod degree_rows;
mod edge_rows;
pub mod laws;
mod sum_rows;
mod terms;

pub use building::problem_of;
pub use cubes::{architecture_of, cube_of};

#[cfg(test)]
mod tests;
