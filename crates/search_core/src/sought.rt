// Kinds of live nodes.
ghost use Rattle.std.specs.Prelude.{◌≡◌};
ghost use Rattle.search_core.specs.Inner.Nodes.{node_of};
ghost use Rattle.search_core.specs.Sought.{sought_by};

use crate::nodes::NodeState;

/// A kind of live node.
#[derive(Clone, Copy, Debug, PartialEq, Eq)]
pub enum Sought {
    /// Open ones.
    Open,
    /// Pending ones.
    Pending,
    /// Those that a worker holds or studies.
    Of(u32),
}

impl Sought {
    // Whether a node is of this kind.
    pub(crate) fn fits(&self, node: &NodeState) -> bool
        ensures { result ≡ sought_by self.now (node_of node.now) }
    {
        match self {
            Sought::Open => node.is_open(),
            Sought::Pending => node.is_pending(),
            Sought::Of(worker) => node.is_held_by(*worker) || node.is_studied_by(*worker),
        }
    }
}
