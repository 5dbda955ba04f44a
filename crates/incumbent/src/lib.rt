//! The incumbent: the cheapest architecture that was offered so far.
//!
//! `offer` keeps the cheaper of what it has and what it is offered, and the earlier one of two that
//! cost the same. It stands on `arch_model` alone and takes no memory.
#![tactic(auto)]

mod best;

pub use best::{Best, offer};

#[cfg(test)]
mod tests;
