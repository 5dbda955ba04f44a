// Bells: who is told that a worker took work.

/// A worker of a team calls its bell after the turn in which it took work was given back, and before
/// it does that work. No clause rests on a bell, so it has no meaning. By one of its own a test sees
/// that workers work at the same time.
pub trait Bell {
    /// A worker took the node of this number, to search it or to study its candidate.
    fn at(&self, worker: u32, job: u64);
}

/// The bell that does nothing.
#[derive(Drop)]
pub struct NoBell;

impl Bell for NoBell {
    fn at(&self, _worker: u32, _job: u64) {}
}
