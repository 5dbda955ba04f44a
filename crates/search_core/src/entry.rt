// Entries of a history.
use arch_model::VarId;
use redundancy_cut::Cut;
use rows::{Reason, Trace};

/// One event of a search. Nodes and workers go by number.
#[derive(Drop)]
pub enum Entry {
    /// A worker takes an open node, and knows the cuts and the best cost of this moment.
    Take {
        /// The worker.
        worker: u32,
        /// The node.
        node: u32,
        /// The number of cuts.
        cuts: u32,
        /// The best cost, in cost units, or None where there is no best.
        bound: Option<u64>,
    },
    /// A worker splits its node's cube, after a trace, at a free variable.
    Branch {
        /// The worker.
        worker: u32,
        /// The node.
        node: u32,
        /// The trace.
        trace: Trace,
        /// The variable.
        var: VarId,
    },
    /// A worker drops its node for a reason that is refuted after a trace.
    Prune {
        /// The worker.
        worker: u32,
        /// The node.
        node: u32,
        /// The trace.
        trace: Trace,
        /// The reason.
        reason: Reason,
    },
    /// A worker offers its node's cube, after a trace, as a complete candidate.
    Offer {
        /// The worker.
        worker: u32,
        /// The node.
        node: u32,
        /// The trace.
        trace: Trace,
    },
    /// A worker takes a candidate under study.
    Study {
        /// The worker.
        worker: u32,
        /// The node.
        node: u32,
    },
    /// A worker rejects the candidate that it studies, and publishes a cut that is right for it.
    Publish {
        /// The worker.
        worker: u32,
        /// The node.
        node: u32,
        /// The cut.
        cut: Cut,
    },
    /// A worker accepts the candidate that it studies.
    Accept {
        /// The worker.
        worker: u32,
        /// The node.
        node: u32,
        /// The candidate's cost, in cost units.
        cost: u64,
    },
    /// A worker parks its node, since the branchings are at their limit.
    Park {
        /// The worker.
        worker: u32,
        /// The node.
        node: u32,
    },
    /// All live nodes are open again, under a new limit.
    Reopen {
        /// The new limit.
        limit: u32,
    },
}
