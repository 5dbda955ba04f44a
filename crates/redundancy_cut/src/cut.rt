// The cuts.
use arch_model::{CompSet, MemberSet};

/// What a rejected candidate teaches the search. A no-good's architecture is the candidate that is
/// passed beside it.
#[derive(Clone, Copy)]
pub enum Cut {
    /// A set of members whose product alone is above the bound, so that each admissible
    /// architecture has a path past it: an edge out of `far`, or a source outside it.
    Redundancy {
        /// The requirement's number, from 0.
        requirement: u32,
        /// The set of members.
        set: MemberSet,
        /// Components outside the set, the sink not among them.
        far: CompSet,
    },
    /// The candidate's weight is above the bound, so that each admissible architecture differs from
    /// it in what feeds the sink.
    NoGood {
        /// The requirement's number, from 0.
        requirement: u32,
        /// Components, the sink among them, into which no edge of the candidate leads from outside.
        cone: CompSet,
    },
}
