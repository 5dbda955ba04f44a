//! Combination bounds: reasons why no vector of a cube is cheaper than the bound.
//!
//! A reason is some rows that are known with multipliers, whose sum is refuted in a cube: so the
//! cube can be dropped though no single row says so. `ascend` takes the ascent of `rows` (integer
//! dual ascent, Erlenkotter 1978): the cost row once, then each row as often as what is left of its
//! variables' costs allows. `settle` answers the ascent's own reason where it is refuted, else that
//! of a stronger candidate, else the variables of whose cost that candidate leaves nothing, by which
//! `branching_variable` says where to branch. `lift` answers the reason alone.
//!
//! Promised to the layer above are exact pairs and residues of the ascent, a reason wherever the
//! ascent is refuted, reasons of known rows that are refuted in the cube, and a free variable
//! wherever there is one. Of the stronger candidate nothing is promised but that what it answers is
//! a reason: `together` of `rows` judges it.
//!
//! It stands on `rows` and `arch_model`. A row that the variables at 1 meet by themselves is read
//! once in a cube, any other a few times. Pairs and residues lie in arrays on the stack; memory is
//! taken for the reason that is answered alone, without spare room.
#![tactic(auto)]

mod ascent;
mod bounded;
mod bounding;
mod branching;
mod buying;
mod pair_list;
mod shortlist;
mod spending;

pub use bounded::Bounded;
pub use bounding::{Ascent, ascend, lift};
pub use branching::branching_variable;

#[cfg(test)]
mod tests;
