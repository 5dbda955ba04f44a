// What the bounds say of a cube.
use arch_model::MemberSet;
use rows::Reason;

/// What the bounds say of a cube.
#[derive(Drop)]
pub enum Bounded {
    /// No vector of the cube that meets the known rows is cheaper than the bound, for this reason.
    Refuted(Reason),
    /// No reason was found. These are the variables of whose cost the stronger candidate leaves
    /// nothing, which says where to branch.
    Open(MemberSet),
}
