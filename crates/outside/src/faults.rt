// The answers of a shelf or a sink that aren't Ok.
use std::alloc::AllocError;

/// A shelf or a sink couldn't do what it was asked: the count of faults of that name and kind
/// rose.
#[derive(Clone, Copy, Debug, PartialEq, Eq)]
pub struct Failed;

/// Want of memory, and nothing else.
pub type Memory = AllocError;
