//! What the program prints, as texts that are appended to a list of bytes.
//!
//! Each function appends exactly the text that `specs/` states for what it is told: the report of a
//! search (`solve_text`), what an architecture costs and whether it is admissible (`weigh_text`),
//! the numbered template (`template_text`), the base rows of a library (`rows_text`), and the
//! minimal cut sets of a sink (`cuts_text`). Where memory is wanting, nothing is appended.
//!
//! The texts that list what a library has are offered line by line as well (`component_line`,
//! `edge_line`, `row_line`, `set_line` and `sets_end`), so that who prints them as they go needs
//! memory for one line alone.
//!
//! A report shows the costs and weights that it is told; where these are the architecture's own,
//! as a clause says, it is the report that speaks of costs and weights by their definitions.
//! `laws` says what a reader may conclude from the texts.
//!
//! Stands on `arch_model` and `template` for libraries and names, `arch_csv` for architecture
//! files, `search_core` and `incumbent` for answers, `rows` for rows, and `cut_sets`. Each text is
//! made apart and then appended whole, so it takes memory twice for a moment.
#![tactic(auto)]

mod answers;
mod cuts;
pub mod laws;
mod mass;
mod refusal;
mod row_lines;
mod set_lines;
mod summary;
mod template_lines;
mod verdict;
mod weighing;

pub use answers::solve_text;
pub use cuts::cuts_text;
pub use mass::mass_text;
pub use refusal::{refused_architecture_text, refused_library_text, words_line};
pub use row_lines::{row_line, rows_text};
pub use set_lines::{set_line, sets_end};
pub use summary::generated_text;
pub use template_lines::{component_line, edge_line, template_text};
pub use verdict::{no_text, yes_text};
pub use weighing::weigh_text;

#[cfg(test)]
mod tests;
#[cfg(test)]
mod tests_of_words;
