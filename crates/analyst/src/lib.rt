//! Judges a candidate by what its sinks weigh, and says what a rejected one teaches.
//!
//! A candidate meets the patterns and has every required sink. It is admissible where no required
//! sink weighs more than its bound; else `study` names the cut that must be published for it
//! (`chosen_cut_of` of `redundancy_cut`), whose row every admissible architecture meets and the
//! candidate doesn't. First come requirements of which one minimal cut set alone is above the
//! bound, since the cut of a single set says more than that of the sum.
//!
//! The layer above is promised the verdict exactly. `study` goes once over the minimal cut sets of
//! each required sink, up to the first redundancy cut, and takes no memory. Stands on `sink_weight`,
//! `paths` and `redundancy_cut`.
#![tactic(auto)]

mod choosing;
mod chosen_sets;
mod studying;
mod verdict;

pub use studying::study;
pub use verdict::Verdict;

#[cfg(test)]
mod tests;
