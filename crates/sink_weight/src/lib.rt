//! What a sink weighs in an architecture, and the heaviest of its minimal cut sets.
//!
//! The weight of a sink is the sum of the products of all its minimal cut sets, in units of
//! 10^-18. Under independent failures it bounds the probability that the sink is parted from all
//! sources from above (Boole's bound, textbook). `weigh` answers it exactly, and with it the minimal
//! cut set of greatest product. It takes no memory: it goes once over the minimal cut sets of
//! positive product, and keeps none but the best. `weight` and `heaviest` are its two parts.
//!
//! Stands on `cut_sets`.
#![tactic(auto)]

mod heaviest_of;
mod one_pass;
mod weighing;

pub use heaviest_of::heaviest;
pub use one_pass::{Weighed, weigh};
pub use weighing::weight;

#[cfg(test)]
mod tests;
