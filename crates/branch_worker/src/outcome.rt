// What a worker's job answers.
use arch_model::VarId;
use rows::{Reason, Trace};

/// How the search goes on at a node, after the trace from the node's cube.
#[derive(Drop)]
pub enum Outcome {
    /// The cube is split at a variable.
    Branch {
        /// The trace.
        trace: Trace,
        /// The variable, free after the trace.
        var: VarId,
    },
    /// The cube is dropped.
    Prune {
        /// The trace.
        trace: Trace,
        /// Why: rows that are known, whose combination is refuted after the trace.
        reason: Reason,
    },
    /// The one vector that is left is a candidate.
    Offer {
        /// The trace.
        trace: Trace,
    },
}
