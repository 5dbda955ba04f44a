//! What a rejected architecture teaches the search: cuts, the rows that they say, and why these
//! hold in every admissible architecture.
//!
//! A candidate that weighs more than a bound is rejected. A **redundancy cut** names a set of
//! members whose product alone is above the bound, and some far components that the sink isn't
//! among: each admissible architecture has a source outside both, or an edge that leads out of the
//! far components past the set, since else the set would part the sink, and a minimal cut set inside
//! it would weigh no less (textbook: leaving members out never lowers a product). A **no-good**
//! (textbook constraint learning) names a cone of components into which no edge of the candidate
//! leads from outside, the sink among them: each admissible architecture differs from the candidate
//! in an edge into the cone or a source in it, since else it would have the same paths to the sink,
//! so the same minimal cut sets there, and the same weight. The first kind rests on one set alone,
//! never on the sum.
//!
//! The definitions stand in `specs/`: when a cut is right (`IsRightCut`), its row (`cut_row_of`),
//! and which cut must be published for a candidate (`chosen_cut_of`). `laws` has what holds of them:
//! right cuts hold, the chosen cut is right, and its candidate breaks it. `is_right` and `row_of`
//! answer these definitions exactly. They look once at each member and take no memory.
//!
//! Stands on `arch_model` and `rows`.
#![tactic(auto)]

mod counted;
mod cut;
mod cut_row;
pub mod laws;
mod right;

pub use cut::Cut;
pub use cut_row::row_of;
pub use right::is_right;

#[cfg(test)]
mod tests;
