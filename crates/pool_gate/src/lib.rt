//! A gate: one value that several seats take turns at, each seat in a thread of its own.
//!
//! A turn hands the value out and takes it back. What the gate promises is about which value that
//! is: it is about what every seat knows (`Held::about`, as the problem that a pool of work is
//! for), and it is never older than what the seat has seen: its count, which a turn may raise by
//! one, is at least the count that the seat saw or gave back before. So no value of another problem
//! and no earlier one comes back, whatever the other seats do and in whatever order.
//!
//! There is no lock. Word 0 of an `atomic_table` is twice the value's count, and one more while a
//! seat is in a turn; the value stands in the table's one slot. A turn begins with a fetch_or of
//! the word that finds it even, and ends with the swap that makes it even again. `try_turn` is one
//! such step and never waits; `turn` tries until it finds the word even, and sleeps between. A rule
//! about all seats, the word and the slot holds between any two steps. It has two forms: `laws` says
//! that a gate opens with the one in `specs/Between.antt`, that each kind of step keeps that one,
//! and that what stands in the slot during a turn doesn't touch it; that it gives the other,
//! `RuleHolds` in `specs/Rule.antt`, which says less and is plainer; and that this gives what the
//! calls promise.
//!
//! Not promised: that anybody gets a turn, fairness, or that a turn is ever given back.
#![tactic(auto)]

mod gate;
mod held;
pub mod laws;
mod plays;
mod seat;
#[cfg(test)]
mod tests;
mod view;

pub use gate::{Busy, Gate, SEATS, Turn, Unopened, open_gate};
pub use held::{COUNTS, Held};
pub use seat::GateSeat;
pub use view::SeatView;
