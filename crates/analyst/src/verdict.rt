// The verdict on a candidate.
use redundancy_cut::Cut;

/// What a study of a candidate finds.
#[derive(Clone, Copy)]
pub enum Verdict {
    /// The candidate is admissible.
    Meets,
    /// Some required sink weighs more than its bound, and this is the cut to publish.
    Breaks(Cut),
}
