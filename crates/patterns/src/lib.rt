//! Whether an architecture meets the patterns of a library.
//!
//! `meets_pattern` answers `MeetsPattern` exactly, for each of the ten kinds, and `first_broken`
//! gives the first pattern of a library that an architecture breaks. Each kind is judged by
//! counts and sums over the library's components and edges; no sum wraps, since a library has at
//! most 64 components and 512 edges with costs, supplies and demands up to 10^12.
//!
//! Stands on `arch_model`, takes no memory and always answers. A pattern about instances looks at
//! each edge once for each instance of its type.
#![tactic(auto)]

mod counts;
mod degrees;
mod pattern;
mod sides;
mod supplies;

pub use pattern::{first_broken, meets_pattern};

#[cfg(test)]
mod tests;
