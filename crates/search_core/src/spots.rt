// Finding the node of an entry: where it lies and what it has there, in one look-up.
ghost use Rattle.std.specs.Prelude.{◌≡◌, false, IsSome, IfSome, IfNone, Some};
ghost use Rattle.std.specs.Option.{option_map_or};
ghost use Rattle.std.specs.FinMap as finmap;
ghost use Rattle.search_core.specs.Node.{Node, Open, Held, Pending, Studied, node_cube};
ghost use Rattle.search_core.specs.Node.{is_open, is_pending, is_held_by, is_studied_by};
ghost use Rattle.search_core.specs.Inner.Nodes.{IsSpotOf, IsFound};

use crate::holding::Holding;
use crate::nodes::{Found, Spot};
use crate::state::State;

impl State {
    // A live node.
    pub(crate) fn live_at(&self, node: u32) -> Found
        requires { IsSome (finmap.get self.now.search.nodes node) }
        ensures spot { IsSpotOf self.now.search.nodes node result.spot }
        ensures cube { (n : Node) → finmap.get self.now.search.nodes node ≡ Some n
            → result.cube ≡ node_cube n }
    {
        self.nodes.live(node)
    }

    // An open node, None where the node isn't open.
    pub(crate) fn open_at(&self, node: u32) -> Option<Found>
        ensures some { IfSome result
            (λ found. IsFound self.now.search.nodes node found.spot (Open found.cube)) }
        ensures none { IfNone result
            (option_map_or is_open (finmap.get self.now.search.nodes node) false ≡ false) }
    {
        self.nodes.open(node)
    }

    // A pending node, None where the node isn't pending.
    pub(crate) fn pending_at(&self, node: u32) -> Option<Found>
        ensures some { IfSome result
            (λ found. IsFound self.now.search.nodes node found.spot (Pending found.cube)) }
        ensures none { IfNone result
            (option_map_or is_pending (finmap.get self.now.search.nodes node) false ≡ false) }
    {
        self.nodes.pending(node)
    }

    // A node that a worker holds, and what it holds there, None where it doesn't hold the node.
    pub(crate) fn held_at(&self, node: u32, worker: u32) -> Option<(Spot, Holding)>
        ensures some { IfSome result (λ found. IsFound self.now.search.nodes node found.0
            (Held found.1.cube worker found.1.cuts found.1.bound)) }
        ensures none { IfNone result
            (option_map_or (is_held_by worker) (finmap.get self.now.search.nodes node) false
            ≡ false) }
    {
        self.nodes.held_at(node, worker)
    }

    // A node that a worker studies, None where it doesn't study the node.
    pub(crate) fn studied_at(&self, node: u32, worker: u32) -> Option<Found>
        ensures some { IfSome result
            (λ found. IsFound self.now.search.nodes node found.spot (Studied found.cube worker)) }
        ensures none { IfNone result
            (option_map_or (is_studied_by worker) (finmap.get self.now.search.nodes node) false
            ≡ false) }
    {
        self.nodes.studied_at(node, worker)
    }
}
