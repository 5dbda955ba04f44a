// The live nodes, by number.
ghost use Rattle.std.specs.Prelude.{◌≡◌, ℕ, ◌+◌, ◌-◌, ◌<◌, ◌≤◌, List, map, length, slice_index_or};
ghost use Rattle.std.specs.Prelude.{option_map, IsSome, IfSome, IfNone, IfOk, OnOk, OnErr, Option};
ghost use Rattle.std.specs.Prelude.{Some, None, false};
ghost use Rattle.std.specs.List.{list_all};
ghost use Rattle.std.specs.Option.{option_map_or};
ghost use Rattle.std.specs.Ordering.{nat_cmp};
ghost use Rattle.std.specs.FinMap as finmap;
ghost use Rattle.std.specs.FinMap.Entries.{find};
ghost use Rattle.rows.specs.Parts.{CubeParts};
ghost use Rattle.search_core.specs.Node.{Node, Open, Held, Pending, Studied};
ghost use Rattle.search_core.specs.Node.{is_open, is_pending, is_held_by};
ghost use Rattle.search_core.specs.Node.{is_studied_by, is_parked, EachNode, node_cube};
ghost use Rattle.search_core.specs.Node.{IsCandidateCube};
ghost use Rattle.search_core.specs.State.{all_open};
ghost use Rattle.search_core.specs.Inner.Nodes.{node_of, entry_of, Ascend, IsPlace, blank_live};
ghost use Rattle.search_core.specs.Inner.Nodes.{opened, IsSpot, IsSpotOf, IsFound};
ghost use Rattle.search_core.specs.Sought.{sought_by, IsLastSought};
ghost use Rattle.search_core.specs.Inner.Finding.{IsLastLive};

use crate::holding::Holding;
use crate::sought::Sought;
use arch_model::Memory;
use rows::Cube;
use std::alloc::Global;
use std::marker::Model;

// What a live node is.
#[derive(Clone, Copy)]
pub(crate) enum NodeState {
    /// Open, with its cube.
    Open(Cube),
    /// Held by a worker.
    Held {
        /// Its cube.
        cube: Cube,
        /// The worker.
        worker: u32,
        /// The number of cuts that are known there.
        cuts: u32,
        /// The bound that is known there, in cost units, or None.
        bound: Option<u64>,
    },
    /// A complete candidate, with its cube.
    Pending(Cube),
    /// A complete candidate under a worker's study.
    Studied {
        /// Its cube.
        cube: Cube,
        /// The worker.
        worker: u32,
    },
    /// Parked, with its cube.
    Parked(Cube),
}

impl NodeState {
    // Its cube.
    pub(crate) fn cube(&self) -> Cube
        ensures { result ≡ node_cube (node_of self.now) }
    {
        match self {
            NodeState::Open(cube) => *cube,
            NodeState::Held { cube, .. } => *cube,
            NodeState::Pending(cube) => *cube,
            NodeState::Studied { cube, .. } => *cube,
            NodeState::Parked(cube) => *cube,
        }
    }

    // Its cube where it is pending or under study, else None.
    pub(crate) fn candidate_cube(&self) -> Option<Cube>
        ensures some { IfSome result (λ cube. IsCandidateCube (node_of self.now) cube) }
        ensures none { IfNone result ((cube : CubeParts) → IsCandidateCube (node_of self.now) cube
            → ⊥) }
    {
        match self {
            NodeState::Pending(cube) => Some(*cube),
            NodeState::Studied { cube, .. } => Some(*cube),
            _ => None,
        }
    }

    // What a worker holds in it, None where it doesn't hold it.
    pub(crate) fn held(&self, worker: u32) -> Option<Holding>
        ensures some { IfSome result (λ h. node_of self.now ≡ Held h.cube worker h.cuts h.bound) }
        ensures none { IfNone result (is_held_by worker (node_of self.now) ≡ false) }
    {
        match self {
            NodeState::Held {
                cube,
                worker: holder,
                cuts,
                bound,
            } if *holder == worker => Some(Holding {
                cube: *cube,
                cuts: *cuts,
                bound: *bound,
            }),
            _ => None,
        }
    }

    // The cube that a worker studies in it, None where it doesn't study it.
    pub(crate) fn studied(&self, worker: u32) -> Option<Cube>
        ensures some { IfSome result (λ cube. node_of self.now ≡ Studied cube worker) }
        ensures none { IfNone result (is_studied_by worker (node_of self.now) ≡ false) }
    {
        match self {
            NodeState::Studied {
                cube,
                worker: student,
            } if *student == worker => Some(*cube),
            _ => None,
        }
    }

    // Its cube where it is open, else None.
    fn open(&self) -> Option<Cube>
        ensures some { IfSome result (λ cube. node_of self.now ≡ Open cube) }
        ensures none { IfNone result (is_open (node_of self.now) ≡ false) }
    {
        match self {
            NodeState::Open(cube) => Some(*cube),
            _ => None,
        }
    }

    // Its cube where it is pending, else None.
    fn pending(&self) -> Option<Cube>
        ensures some { IfSome result (λ cube. node_of self.now ≡ Pending cube) }
        ensures none { IfNone result (is_pending (node_of self.now) ≡ false) }
    {
        match self {
            NodeState::Pending(cube) => Some(*cube),
            _ => None,
        }
    }

    // Whether it is open.
    pub(crate) fn is_open(&self) -> bool
        ensures { result ≡ is_open (node_of self.now) }
    {
        matches!(self, NodeState::Open(_))
    }

    // Whether it is pending.
    pub(crate) fn is_pending(&self) -> bool
        ensures { result ≡ is_pending (node_of self.now) }
    {
        matches!(self, NodeState::Pending(_))
    }

    // Whether a worker holds it.
    pub(crate) fn is_held_by(&self, worker: u32) -> bool
        ensures { result ≡ is_held_by worker (node_of self.now) }
    {
        match self {
            NodeState::Held { worker: holder, .. } => *holder == worker,
            _ => false,
        }
    }

    // Whether it is under a worker's study.
    pub(crate) fn is_studied_by(&self, worker: u32) -> bool
        ensures { result ≡ is_studied_by worker (node_of self.now) }
    {
        match self {
            NodeState::Studied {
                worker: student,
                ..
            } => *student == worker,
            _ => false,
        }
    }

    // Whether it is parked.
    pub(crate) fn is_parked(&self) -> bool
        ensures { result ≡ is_parked (node_of self.now) }
    {
        matches!(self, NodeState::Parked(_))
    }
}

// A live node and its number.
#[derive(Clone, Copy)]
pub(crate) struct Live {
    number: u32,
    state: NodeState,
}

// Where a live node lies in the list, so that it needn't be looked up again.
#[derive(Clone, Copy)]
pub(crate) struct Spot {
    number: u32,
    place: usize,
}

// A live node: where it lies, and its cube.
#[derive(Clone, Copy)]
pub(crate) struct Found {
    pub(crate) spot: Spot,
    pub(crate) cube: Cube,
}

// The live nodes by number, with room for some more.
#[derive(Drop)]
pub(crate) struct Nodes {
    live: Vec<Live>,
}

impl Model for Nodes {
    ghost use Rattle.std.specs.Prelude.{◌-◌, vec_len, vec_capacity};
    ghost use Rattle.search_core.specs.Inner.Nodes.{NodesParts, nodes_code, map_of, Ascend};

    ghost Value = { NodesParts };

    ghost coded = { nodes_code };

    ghost view = { λ a. record {
      nodes = map_of a.live.items;
      spare = vec_capacity a.live - vec_len a.live;
    } };

    ghost invariant = { λ a. Ascend a.live.items };
}

// Where a number is in a list of live nodes with ascending numbers, or where it would go.
fn place(live: &[Live], number: u32) -> Result<usize, usize>
    requires { Ascend live.now }
    ensures found { IfOk result (IsPlace live.now number) }
    ensures absent { OnErr result (find nat_cmp number (map entry_of live.now) ≡ None) }
{
    live.binary_search_by_key(&number, |l| l.number)
}

// Opens each of some live nodes.
fn open_each(live: &mut [Live])
    ensures { live.new ≡ map opened live.old }
{
    for node in live.iter_mut() {
        node.state = NodeState::Open(node.state.cube());
    }
}

// Whether each of some live nodes is parked.
fn are_parked(live: &[Live]) -> bool
    ensures { result ≡ list_all (λ l. is_parked (node_of l.state)) live.now }
{
    live.iter().all(|node| node.state.is_parked())
}

// The place that lies this many places before the last of so many.
fn from_end(len: usize, back: usize) -> usize
    requires { back < len }
    ensures { result ≡ len - 1 - back }
{
    len - back - 1
}

// The number of the last live node of a kind.
fn last_live(live: &[Live], sought: Sought) -> Option<u32>
    ensures some { IfSome result (IsLastLive (sought_by sought) live.now) }
    ensures none { IfNone result ((j : ℕ) → j < length live.now
        → sought_by sought (node_of (slice_index_or live.now j blank_live).state) ≡ false) }
{
    let len = live.len();
    for back in 0..len {
        let node = &live[from_end(len, back)];
        if sought.fits(&node.state) {
            return Some(node.number);
        }
    }
    None
}

impl Nodes {
    // No nodes.
    pub(crate) fn new(alloc: Global) -> Nodes
        ensures { result.nodes ≡ finmap.empty }
    {
        Nodes {
            live: Vec::new(alloc),
        }
    }

    // Where the node of a number lies, and its state, or None where no live node has the number.
    fn find(&self, number: u32) -> Option<(Spot, NodeState)>
        ensures some { IfSome result
            (λ found. IsFound self.now.nodes number found.0 (node_of found.1)) }
        ensures none { IfNone result (finmap.get self.now.nodes number ≡ None) }
    {
        match place(&self.live, number) {
            Ok(i) => Some((Spot { number, place: i }, self.live[i].state)),
            Err(_) => None,
        }
    }

    // The node of a number, or None where no live node has it.
    pub(crate) fn get(&self, number: u32) -> Option<NodeState>
        ensures { option_map node_of result ≡ finmap.get self.now.nodes number }
    {
        match self.find(number) {
            Some((_, state)) => Some(state),
            None => None,
        }
    }

    // The live node of a number.
    pub(crate) fn live(&self, number: u32) -> Found
        requires { IsSome (finmap.get self.now.nodes number) }
        ensures spot { IsSpotOf self.now.nodes number result.spot }
        ensures cube { (n : Node) → finmap.get self.now.nodes number ≡ Some n
            → result.cube ≡ node_cube n }
    {
        let (spot, state) = self.find(number).unwrap();
        Found {
            spot,
            cube: state.cube(),
        }
    }

    // The open node of a number, or None where it isn't one.
    pub(crate) fn open(&self, number: u32) -> Option<Found>
        ensures some { IfSome result
            (λ found. IsFound self.now.nodes number found.spot (Open found.cube)) }
        ensures none { IfNone result
            (option_map_or is_open (finmap.get self.now.nodes number) false ≡ false) }
    {
        let (spot, state) = self.find(number)?;
        Some(Found {
            spot,
            cube: state.open()?,
        })
    }

    // The same of a pending node.
    pub(crate) fn pending(&self, number: u32) -> Option<Found>
        ensures some { IfSome result
            (λ found. IsFound self.now.nodes number found.spot (Pending found.cube)) }
        ensures none { IfNone result
            (option_map_or is_pending (finmap.get self.now.nodes number) false ≡ false) }
    {
        let (spot, state) = self.find(number)?;
        Some(Found {
            spot,
            cube: state.pending()?,
        })
    }

    // Where a node lies that a worker holds, and what it holds there, or None where it doesn't.
    pub(crate) fn held_at(&self, number: u32, worker: u32) -> Option<(Spot, Holding)>
        ensures some { IfSome result (λ found. IsFound self.now.nodes number found.0
            (Held found.1.cube worker found.1.cuts found.1.bound)) }
        ensures none { IfNone result
            (option_map_or (is_held_by worker) (finmap.get self.now.nodes number) false ≡ false) }
    {
        let (spot, state) = self.find(number)?;
        Some((spot, state.held(worker)?))
    }

    // The node of a number that a worker studies, or None where it doesn't study it.
    pub(crate) fn studied_at(&self, number: u32, worker: u32) -> Option<Found>
        ensures some { IfSome result
            (λ found. IsFound self.now.nodes number found.spot (Studied found.cube worker)) }
        ensures none { IfNone result
            (option_map_or (is_studied_by worker) (finmap.get self.now.nodes number) false
            ≡ false) }
    {
        let (spot, state) = self.find(number)?;
        Some(Found {
            spot,
            cube: state.studied(worker)?,
        })
    }

    // What a worker holds in the node of a number, None where it doesn't hold it.
    pub(crate) fn held(&self, number: u32, worker: u32) -> Option<Holding>
        ensures some { IfSome result
            (λ h. finmap.get self.now.nodes number ≡ Some (Held h.cube worker h.cuts h.bound)) }
        ensures none { IfNone result
            (option_map_or (is_held_by worker) (finmap.get self.now.nodes number) false ≡ false) }
    {
        match self.get(number) {
            Some(state) => state.held(worker),
            None => None,
        }
    }

    // The cube of the live node of a number, None where there is none.
    pub(crate) fn cube(&self, number: u32) -> Option<Cube>
        ensures { result ≡ option_map node_cube (finmap.get self.now.nodes number) }
    {
        match self.get(number) {
            Some(state) => Some(state.cube()),
            None => None,
        }
    }

    // A live node has a new state.
    pub(crate) fn set(&mut self, spot: Spot, state: NodeState)
        requires { IsSpot self.old.nodes spot }
        ensures nodes { self.new.nodes ≡ finmap.insert self.old.nodes spot.number (node_of state) }
        ensures spare { self.new.spare ≡ self.old.spare }
    {
        self.live[spot.place] = Live {
            number: spot.number,
            state,
        };
    }

    // A live node is gone.
    pub(crate) fn remove(&mut self, spot: Spot)
        requires { IsSpot self.old.nodes spot }
        ensures nodes { self.new.nodes ≡ finmap.remove self.old.nodes spot.number }
        ensures spare { self.old.spare + 1 ≤ self.new.spare }
    {
        self.live.remove(spot.place);
    }

    // There is one more node, with a number above all others. It takes no memory.
    pub(crate) fn push(&mut self, number: u32, state: NodeState)
        requires room { 1 ≤ self.old.spare }
        requires last { EachNode (λ i node. i < number) self.old.nodes }
        ensures nodes { self.new.nodes ≡ finmap.insert self.old.nodes number (node_of state) }
        ensures spare { self.new.spare ≡ self.old.spare - 1 }
    {
        self.live.push_reserved(Live { number, state });
    }

    // Makes room for at least one more node. The only error is want of memory, and then all stays.
    pub(crate) fn reserve(&mut self) -> Result<(), Memory>
        ensures nodes { self.new.nodes ≡ self.old.nodes }
        ensures ok { OnOk result (1 ≤ self.new.spare) }
        ensures err { OnErr result (self.new ≡ self.old) }
        ensures none { OnErr result (self.old.spare ≡ 0) }
    {
        self.live.reserve(1)
    }

    // All nodes are open, with their cubes.
    pub(crate) fn open_all(&mut self)
        ensures nodes { self.new.nodes ≡ all_open self.old.nodes }
        ensures spare { self.new.spare ≡ self.old.spare }
    {
        open_each(&mut self.live);
    }

    // Whether nothing but parked nodes is live.
    pub(crate) fn is_at_rest(&self) -> bool
        ensures { result ≡ list_all is_parked (finmap.values self.now.nodes) }
    {
        are_parked(&self.live)
    }

    // The greatest number of a live node of a kind, or None where there is none.
    pub(crate) fn last(&self, sought: Sought) -> Option<u32>
        ensures some { IfSome result (IsLastSought (sought_by sought) self.now.nodes) }
        ensures none { IfNone result (EachNode (λ i node. sought_by sought node
            ≡ false) self.now.nodes) }
    {
        last_live(&self.live, sought)
    }

    // How many nodes are live.
    pub(crate) fn len(&self) -> usize
        ensures { result ≡ finmap.len self.now.nodes }
    {
        self.live.as_slice().len()
    }
}
