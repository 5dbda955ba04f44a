//! Libraries that are made from a number: the same number and size always give the same text.
//!
//! A library of size n has n groups that have nothing to do with one another: a source that may
//! stand twice, a sink, a link between them, and a requirement. What a group's source costs, and
//! whether its sink needs one source or both, come from a word of SplitMix64, the generator of
//! Steele, Lea and Flood, as the crate `rand_xoshiro` states it. So the least cost of the whole is
//! the sum over its groups, which are easily told one by one, and a search has work that grows
//! with the size.
//!
//! The layer above is promised that `library_of` makes exactly `library_text`, for each number and
//! size. Stands on `rand_xoshiro`, and on `arch_model` for the answer for want of memory. It costs
//! memory for the groups and for the text, of which a group has about 220 bytes.
#![tactic(auto)]

mod group;
mod text;

pub use group::Group;
pub use text::{LARGEST_SIZE, library_of};

#[cfg(test)]
mod tests;
