// Reading the live nodes of a state: a cube by number, what a worker holds or studies, and the last
// node of a kind.
ghost use Rattle.std.specs.Prelude.{◌≡◌, ℕ, false, option_map, IfSome, IfNone, Option, Some};
ghost use Rattle.std.specs.FinMap as finmap;
ghost use Rattle.search_core.specs.Node.{EachNode, Held, node_cube};
ghost use Rattle.search_core.specs.Step.{IsHeldBy, IsStudied};
ghost use Rattle.search_core.specs.Parts.{HasStudied};
ghost use Rattle.search_core.specs.Sought.{sought_by, IsLastSought};

use crate::holding::Holding;
use crate::sought::Sought;
use crate::state::State;
use arch_model::Architecture;
use rows::Cube;

impl State {
    /// The cube of a live node, None where no live node has this number.
    pub fn cube(&self, node: u32) -> Option<Cube>
        ensures { result ≡ option_map node_cube (finmap.get self.now.search.nodes node) }
    {
        self.nodes.cube(node)
    }

    /// What a worker holds in a node, None where it doesn't hold it.
    pub fn held(&self, node: u32, worker: u32) -> Option<Holding>
        ensures some { IfSome result
            (λ h. finmap.get self.now.search.nodes node
            ≡ Some (Held h.cube worker h.cuts h.bound)) }
        ensures none { IfNone result (IsHeldBy self.now.search worker node → ⊥) }
    {
        self.nodes.held(node, worker)
    }

    /// The candidate that a worker studies in a node, None where it doesn't study it.
    pub fn studied(&self, node: u32, worker: u32) -> Option<Architecture>
        ensures some { IfSome result (HasStudied self.now worker node) }
        ensures none { IfNone result (IsStudied self.now.search worker node → ⊥) }
    {
        match self.study_of(node, worker) {
            Some(study) => Some(study.candidate),
            None => None,
        }
    }

    /// The greatest number of a live node of a kind, None where there is none.
    pub fn last(&self, sought: Sought) -> Option<u32>
        ensures some { IfSome result (IsLastSought (sought_by sought) self.now.search.nodes) }
        ensures none { IfNone result (EachNode (λ i node. sought_by sought node
            ≡ false) self.now.search.nodes) }
    {
        self.nodes.last(sought)
    }
}
