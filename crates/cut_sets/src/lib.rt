//! The minimal cut sets of a sink, one after the other.
//!
//! A minimal cut set (textbook reliability theory) is a set of present members that parts a sink
//! from the sources, and no longer does without any one of them. `CutSets` goes over those of
//! positive product, each once, in ascending order of their member lists. It takes no memory.
//!
//! The enumeration branches over the members that are present and may fail, of which a library has
//! at most 64, in ascending order: those chosen so far are all that it keeps. A member of a minimal
//! cut set is the only failed one on some path. So with the chosen members and all that may still
//! be chosen failed, what is reached from the sources and what follows it can't lie behind a member
//! of a set, nor what leads to the sink and what precedes it before one. Where a chosen member has
//! no such path left, the choice is dropped, and a candidate that has none is passed over. Both lose
//! no set. What is left costs a few looks a set, also in dense layers, where trying every choice
//! would cost 2^width.
//!
//! One table of the present edges, made at the start, is lent to all searches in which no edge has
//! failed. Else the edges that have failed are taken out of a copy.
//!
//! Stands on `arch_model`, `paths` and `smallvec`.
#![tactic(auto)]

mod candidates;
mod enumerating;
pub mod laws;
mod members;
mod network;
mod place;
mod useful;
mod walking;

pub use enumerating::CutSets;
pub use members::Members;

#[cfg(test)]
mod tests;
