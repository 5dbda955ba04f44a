//! The state machine of the search, and what every step of it keeps.
//!
//! The search branches over the cubes of a 0-1 program and learns cuts from rejected candidates.
//! Its state has the live nodes by number, the learned cuts, the best architecture that was
//! accepted, the number of branchings and their limit. What an entry of a history does to it, when
//! it may stand there, what a history's answer is and what each step keeps are definitions in
//! `specs/`. They speak of any number of workers up to 64 whose entries come in any order, and of
//! cuts and best costs of any age.
//!
//! `start` makes the first state. `step` judges an entry by the rules in their order, and makes the
//! state that it leads to or names the first rule that it breaks; `State::apply` makes it where the
//! entry is known to be a step and there is room, and takes no memory. `History` is a list of
//! entries. Live nodes stand in one list by number. A step finds its node there once, by bisection,
//! and follows its trace once. A step that removes a node moves those of greater numbers down by
//! one place, and one that changes the limit opens every node. The last node of a kind is found
//! from the end of the list, past all nodes of other kinds with greater numbers: the last open one
//! past the pending, held, studied and parked ones above it.
//!
//! `laws` has what holds over all histories: each admissible architecture that is cheaper than the
//! best lies in the cube of a live node, each cut holds in all of them, a history between two
//! changes of the limit is bounded in length, and an answer is right.
//!
//! It stands on `rows`, `binary_program`, `redundancy_cut` and `incumbent`.
#![tactic(auto)]

mod answer;
mod apply;
mod candidate;
mod change;
mod entry;
mod finding;
mod follow;
mod history;
mod holding;
mod judging;
pub mod laws;
pub mod limits;
mod nodes;
mod rule;
mod sought;
mod spots;
mod state;
mod stepping;
mod studying;
mod tracing;

pub use answer::Answer;
pub use entry::Entry;
pub use history::History;
pub use holding::Holding;
pub use rule::Rule;
pub use sought::Sought;
pub use state::{State, start};
pub use stepping::{StepError, step};

#[cfg(test)]
mod tests;
