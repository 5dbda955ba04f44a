//! Which components are reached from the sources, and which sets of members part a sink from them.
//!
//! A member is a component or an edge. `reach` answers the components to which a path leads on
//! which nothing is failed, `parted` whether there is none to a sink, and `ancestors` the
//! components from which a sink is reached. The answers are those of the definitions of
//! `arch_model`, exactly, for each architecture of a library and each set of failed members: the
//! layers above, which list minimal cut sets and weigh failures, ask no other questions of a
//! network.
//!
//! The search is textbook breadth-first reachability by bit masks. One pass over the present edges
//! makes a row of successors for each component, as a mask; then each round joins the rows of what
//! the round before reached first, and the search ends with the round that adds nothing. It takes
//! no memory: the rows, a mask for each of up to 64 components, lie on the stack. A call costs a
//! look at each present edge and each component. Who asks much of one architecture makes a table of
//! its edges once (`links_of`), takes failed edges out of a copy of it (`without`), and asks over
//! that.
//!
//! Stands on `arch_model`.
#![tactic(auto)]

mod adjacency;
mod links;
mod reaching;
mod searching;
mod spreading;
mod standing;

pub use links::{Links, ancestors_over, links_of, reach_over};
pub use reaching::{ancestors, parted, reach};

#[cfg(test)]
mod tests;
