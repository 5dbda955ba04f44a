// How many workers and branchings a search may have.

/// The greatest number of workers. Their numbers are below it.
pub const WORKERS: u32 = 64;

/// The greatest limit on branchings.
pub const BRANCHINGS: u32 = 100_000;
