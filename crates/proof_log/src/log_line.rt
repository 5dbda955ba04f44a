// What a line of a log says, and why it can't be read.
ghost use Rattle.std.specs.Prelude.{◌≡◌};
ghost use Rattle.proof_log.specs.declared.log_line.LineError.TheVariants.{Memory};

use search_core::{Answer, Entry};
use std::alloc::{AllocError, AllocFailed};

/// The greatest number of bytes of a line, without its line feed.
pub const LINE_BYTES: usize = 65536;

/// What a line of a log says.
#[derive(Drop)]
pub enum LogLine {
    /// The first line, which says the version of the format: 1.
    Version,
    /// The numbers of components and edges.
    Vars(u32, u32),
    /// The limit on branchings.
    Limit(u32),
    /// One step of the search.
    Entry(Entry),
    /// The answer, and the numbers of branchings and of cuts.
    Closing(Answer, u32, u32),
}

/// Which rule a line breaks first: the length comes before the form, that before the numbers, and
/// they before the order of lists.
#[derive(Clone, Copy, Debug, PartialEq, Eq)]
pub enum LineFault {
    /// It has none of the shapes of a line.
    Form,
    /// A number isn't in its range, or has a leading zero.
    Number,
    /// A list of components doesn't ascend.
    Order,
    /// It has more than `LINE_BYTES` bytes.
    TooLong,
}

/// Why a line isn't read.
#[derive(Debug, Drop)]
pub enum LineError {
    /// Want of memory.
    Memory,
    /// The first rule that the line breaks.
    Fault(LineFault),
}

impl From<AllocError> for LineError {
    ghost from_gives = { λ _ e. e ≡ Memory };

    fn from(_e: AllocError) -> LineError {
        LineError::Memory
    }
}

impl<T: Drop> From<AllocFailed<T>> for LineError {
    ghost from_gives = { λ _ e. e ≡ Memory };

    fn from(_e: AllocFailed<T>) -> LineError {
        LineError::Memory
    }
}
