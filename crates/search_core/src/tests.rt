// Histories of small libraries, worked out by hand: the state after each entry, the first rule that
// an entry breaks, and the answers.
mod calls;
mod entering;
mod entries;
mod histories;
mod lists;
mod problems;
mod reopening;
mod richer;
mod rules;
mod wording;
