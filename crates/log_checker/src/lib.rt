//! Judging the log of a search, whoever wrote it.
//!
//! A `Checker` reads a log line by line. It holds one state of the search and nothing of the lines
//! behind it, so a log may be as long as it likes. Each line either breaks a rule, and is refused
//! with the first, or leads on: header lines to the start of a search under the limit that they
//! state, an entry to the state after its step, the closing line to its answer.
//!
//! The layer above is promised that `feed` refuses exactly what breaks a rule, with the first
//! (`specs/Breaking.antt`), and changes nothing then; that else it goes one step
//! (`specs/Feeding.antt`); and that `finish` answers exactly where a closing line was fed. `laws`
//! says what follows: the lines of a text lead to a closing answer exactly where the definition of
//! passing logs accepts the text with it, and such an answer is right for the library, whoever or
//! whatever made the log. So who trusts the definitions needn't trust a solver.
//!
//! A `TextChecker` judges a log whose bytes come in pieces of any length. It holds a `Checker` and
//! the front of one line, and is promised by what it has read of a text (`specs/Reading.antt`):
//! each No names the first broken line of every text that goes on so, whatever comes behind, and
//! the end is a yes exactly as the definition says.
//!
//! It knows of no pool, no workers and no search. It stands on `proof_log` for the lines,
//! `search_core` for what an entry does, and `sink_weight` for the weights of a candidate, which
//! are asked for where an Accept or a Publish names one under study, and nowhere else.
#![tactic(auto)]

mod checker;
mod error;
pub mod laws;
mod lines;
mod text;
mod weighing;

pub use checker::Checker;
pub use error::{CheckError, No};
pub use text::{LOG_BYTES, TextChecker};

#[cfg(test)]
mod tests;
