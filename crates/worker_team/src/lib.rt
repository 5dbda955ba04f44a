//! The search as a whole: workers take nodes and candidates from a pool until nothing is left.
//!
//! `solve_alone` is the search of one worker. A worker takes the work that it finds in hand, or
//! else new work, does the job of the node or studies the candidate, and appends what came of it as
//! the one entry that says so. It ends at rest, since a history has at most so many entries. What it
//! leaves (`IsSolved`) is a legal, diligent history that changes no limit, and the answer, the best
//! and the numbers of the state to which it leads.
//!
//! `solve_team` is the search of 1 to 64 workers, each in a thread of its own, over one pool behind
//! a gate. In a turn a worker has the pool in hand: it enters what it brings, where its ticket still
//! fits, and else takes work. It does the work between two turns, with a copy of the cuts, and rests
//! on nothing that an earlier turn showed. What a team leaves keeps the same promises, whoever got
//! which node, for its own numbers of workers and analysts. It may wait. `laws` says that any two
//! finished searches of a problem agree.
//!
//! It stands on `node_pool` and `pool_gate`, on `branch_worker` for the nodes and on `analyst` for
//! the candidates.
#![tactic(auto)]

mod alone;
pub mod laws;
mod rounds;
mod solved;
mod team;
mod turn;
mod worker;

pub use alone::solve_alone;
pub use solved::Solved;
pub use team::solve_team;

#[cfg(test)]
mod tests;
