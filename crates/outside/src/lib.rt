//! The outside of the program, behind two traits: a [`Shelf`] of files by name, and a [`Sink`] for
//! what is printed.
//!
//! A contract can't say what a real file holds, so each trait has ghost members that say what is
//! known. `told` gives the bytes of a file or sink where they are known, and nothing where they
//! aren't. Counts of faults, one a name and kind, never fall, and an answer `Failed` comes only
//! where the count of that name rose: so whoever calls a shelf or a sink can say of each of its
//! own answers which fault was its cause, also where no byte is told.
//!
//! Of each trait there are three forms. [`MemShelf`] and [`MemSink`] tell all their bytes and fail
//! at the calls that a test names. [`DiskShelf`] and [`StdoutSink`] are the real ones and tell
//! nothing: their contracts speak of counts alone. [`SureShelf`] and [`SureSink`] never fail, since
//! their counts are always 0. A name is looked up in a list, so shelves are for a few files. No
//! method of the two traits takes memory.
//!
//! A [`Bell`] is told that a worker of a team took work, and [`NoBell`] does nothing then.
#![tactic(auto)]

mod bell;
mod copies;
mod counts;
mod disk_shelf;
mod failing;
mod fault_counts;
mod faults;
pub mod laws;
mod mem_file;
mod mem_shelf;
mod mem_sink;
mod shelf;
mod sink;
mod stdout_sink;
mod sure_shelf;
mod sure_sink;

pub use bell::{Bell, NoBell};
pub use disk_shelf::DiskShelf;
pub use faults::{Failed, Memory};
pub use mem_shelf::MemShelf;
pub use mem_sink::MemSink;
pub use shelf::{LAST_PLACE, Shelf};
pub use sink::Sink;
pub use stdout_sink::StdoutSink;
pub use sure_shelf::SureShelf;
pub use sure_sink::SureSink;

#[cfg(test)]
mod tests;
