// What closing a cube answers.
use rows::{Cube, RowRef, Trace};

/// A cube that was closed, with the trace that leads to it.
#[derive(Drop)]
pub enum Closed {
    /// No row that is known is refuted in the cube or forces there, and some variable is free.
    Quiet {
        /// The cube.
        cube: Cube,
        /// The trace.
        trace: Trace,
    },
    /// No row that is known is refuted in the cube or forces there, and no variable is free.
    Full {
        /// The cube.
        cube: Cube,
        /// The trace.
        trace: Trace,
    },
    /// A row that is known is refuted in the cube.
    Refuted {
        /// The cube.
        cube: Cube,
        /// The trace.
        trace: Trace,
        /// The row.
        row: RowRef,
    },
}
