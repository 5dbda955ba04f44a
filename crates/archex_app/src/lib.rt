//! The top calls of the program: from words and files to a printed text.
//!
//! `run_plain` does what its words ask, over a shelf of files and a sink: `solve` searches a library
//! for an admissible architecture of least cost, one that meets all patterns and whose required
//! sinks weigh no more than their bounds, `check` says whether a log is that of a search of the
//! library, whoever wrote it, and with which answer, and `probability` gives two bounds of the failure
//! mass of a sink. Its contract is the promise of the whole program, over bytes in and bytes out: what each
//! status says of the files' bytes and of all architectures, which fault is the cause of each status
//! that isn't an answer, and which status always comes where nothing outside failed.
//!
//! `run` makes the same promise where `solve` searches with as many workers and analysts as it asks
//! for, each worker in a thread of its own, whoever gets which node and in whatever order. It may
//! wait, and its promise holds where it returns; `run_plain` searches with one worker, and returns.
//!
//! The search is that of `worker_team`: branch and bound, a textbook method, with up to a limit of
//! branchings. It leaves a history, entry by entry, of how the space of choices was
//! split, what was refuted and why, and which candidates were judged. The log of that history is
//! written under its name, whole, before the report is printed, so that a reader who trusts nothing
//! here can follow each entry and come to the same answer.
//!
//! A command is said once, by what it comes to (`ComesTo`), and is a function of its own that
//! promises `Runs` of its own words; what holds of all runs follows from that.
//!
//! Stands on `lib_read` for the library, `binary_program` for the rows that say what its patterns
//! say, `worker_team` for the search, `search_core` for what a history and its answer say,
//! `proof_log` for the log's text, `log_checker` for who judges it, `sink_weight` for the report,
//! `arch_csv` for architecture files, `fail_mass` for the failure mass, `outside` for the shelf and
//! the sink, `arrayvec` and `itoa` for a line that takes no memory, and on nothing of the system.
#![tactic(auto)]

mod architecture;
mod check;
mod commands;
mod cuts;
mod generation;
mod library;
mod log_file;
mod outcome;
mod printing;
mod probability;
mod reading;
mod row_list;
mod search;
mod sink;
mod solve;
mod status;
mod sure;
mod template_list;
mod top;
mod weigh;
mod weights;
mod words;
mod writing;

pub use status::Status;
pub use sure::run_surely;
pub use top::{run, run_plain};
pub use words::{Command, WordFault, read_words};

#[cfg(test)]
mod tests;
#[cfg(test)]
mod tests_of_cubes;
#[cfg(test)]
mod tests_of_cuts;
#[cfg(test)]
mod tests_of_examples;
#[cfg(test)]
mod tests_of_generated;
#[cfg(test)]
mod tests_of_listings;
#[cfg(test)]
mod tests_of_logs;
#[cfg(test)]
mod tests_of_probability;
#[cfg(test)]
mod tests_of_requirements;
#[cfg(test)]
mod tests_of_searches;
#[cfg(test)]
mod tests_of_teams;
