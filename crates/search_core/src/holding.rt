// What a worker holds.
use rows::Cube;

/// What a worker holds: a node's cube, and what was known when it was taken.
#[derive(Clone, Copy)]
pub struct Holding {
    /// The cube.
    pub cube: Cube,
    /// The number of cuts that are known.
    pub cuts: u32,
    /// The bound that is known, in cost units, or None.
    pub bound: Option<u64>,
}
