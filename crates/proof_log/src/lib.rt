//! The text of a search's log, both ways.
//!
//! A log is three header lines, a line for each entry of the search's history, and a closing line.
//! The definitions say it in two steps. `specs/Line.antt` is the format's table: what each line
//! says, and its fields in order; `specs/Field.antt` says how a field is written. A line is over
//! any kind of number: over numbers, whose text is their decimal, it is a line's value, and over
//! runs of digits it is a line's form. So the rules of a line on its own are three sentences
//! (`specs/Fault.antt`): it is a line but for its runs of digits; its numbers are in range and are
//! written as decimals are; its lists ascend.
//!
//! The layer above is promised that `header`, `write_entry` and `closing` append exactly that text
//! and a line feed, or nothing; that `read_line` answers the line exactly where the bytes are its
//! text and break no rule, and else the first rule that is broken; and, in `laws`, that each line
//! has one spelling. It stands on `search_core` and `rows` for the values, and on `itoa` for
//! decimals.
//!
//! Of what it costs no contract speaks: reading goes once over the bytes, and takes memory for the
//! rows of a trace and the pairs of a reason alone.
#![tactic(auto)]

mod fields;
pub mod laws;
mod lines;
mod log_line;
mod number_set;
mod parts;
mod reading;
mod scan;
mod word;
mod writing;

pub use log_line::{LINE_BYTES, LineError, LineFault, LogLine};
pub use reading::read_line;
pub use writing::{closing, header, write_entry};

#[cfg(test)]
mod tests;
