// The members of one set.
use arch_model::VarId;
use arch_model::limits::FAILING;
use smallvec::SmallVec;

/// The members of one set, ascending. There is room for all that may fail in the value itself.
pub type Members = SmallVec<VarId, FAILING>;
