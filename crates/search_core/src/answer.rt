// Answers.

/// What a search found, with costs in cost units.
#[derive(Clone, Copy, Debug, PartialEq, Eq)]
pub enum Answer {
    /// An admissible architecture of this cost, and none is cheaper.
    Optimal {
        /// Its cost.
        cost: u64,
    },
    /// No architecture is admissible.
    Infeasible,
    /// The branchings came to their limit before the search was complete.
    NodeLimit {
        /// The cost of the best architecture that was found, or None where none was.
        incumbent: Option<u64>,
    },
}
