//! The pool of a search: the one value that its workers pass from hand to hand.
//!
//! It has the state of the search, and the history that leads to it from a base. Its type keeps
//! (`IsPool`) that the history is a list of steps, each the one that the rules of the search ask
//! for, that no entry changes the limit, that each names a worker of the team, and how long it is
//! at most. `branch`, `prune`, `offer`, `publish`, `accept` and `park` append the one entry of
//! their name, and `take` one where it hands out work; none of them takes memory. What a worker is
//! handed is a ticket, a plain value: `fits`, `fits_study` and `held` say in a later turn what has
//! become of it. A pool may lie behind a gate: what it is about is its problem, its base and its
//! team, and its count is the length of its history.
//!
//! A call costs what its step costs in `search_core`, and no call walks the history. `fits` and
//! `copy_cuts` walk the cuts. `take` and `held` look at the live nodes, from the last one back,
//! until one is of the kind that they seek: so all live nodes where there is none, as at each
//! `held` of a worker with nothing in hand, and each `take` by an analyst while nothing is pending.
//! With an analyst that is little, since each candidate is studied soon after it was offered, and
//! few other nodes are live in a search in depth. With no analyst the candidates stay until no node
//! is open, and with a base that has many live nodes these stay too. Only `Pool::new`, `reserve`
//! and `copy_cuts` take memory.
//!
//! It stands on `search_core` for the steps and on `pool_gate` for what may lie behind a gate.
#![tactic(auto)]

mod entries;
mod fitting;
mod held;
pub mod laws;
mod pool;
mod taking;
mod ticket;

pub use held::Topic;
pub use pool::Pool;
pub use ticket::{AtLimit, SearchTicket, StudyTicket, Work};

#[cfg(test)]
mod tests;
