// What an entry does to the state of a search.
ghost use Rattle.std.specs.Prelude.{◌≡◌, ◌<◌, ◌≤◌, length};
ghost use Rattle.rows.specs.declared.cut.TheConstants as cuts;
ghost use Rattle.search_core.specs.State.{SearchState};
ghost use Rattle.search_core.specs.Step.{Step, with_node, without_node, branched, published};
ghost use Rattle.search_core.specs.Step.{accepted, reopened};
ghost use Rattle.search_core.specs.Parts.{IsStateOf};
ghost use Rattle.search_core.specs.Inner.Nodes.{node_of, IsSpot};
ghost use Rattle.search_core.specs.Inner.Change.{CanMake, CanSplit, changed};
ghost use Rattle.search_core.specs.Inner.Template.{SameTemplate};

use crate::change::Change;
use crate::entry::Entry;
use crate::nodes::{NodeState, Spot};
use crate::state::State;
use arch_model::{Architecture, VarId};
use incumbent::offer;
use rows::{Cube, CutRow, Problem};

impl State {
    // A live node has a new state.
    fn put(&mut self, spot: Spot, node: NodeState)
        requires { IsSpot self.old.search.nodes spot }
        ensures search { self.new.search ≡ with_node self.old.search spot.number (node_of node) }
        ensures template { SameTemplate self.old self.new }
    {
        self.nodes.set(spot, node);
    }

    // A live node is gone.
    fn forget(&mut self, spot: Spot)
        requires { IsSpot self.old.search.nodes spot }
        ensures search { self.new.search ≡ without_node self.old.search spot.number }
        ensures template { SameTemplate self.old self.new }
    {
        self.nodes.remove(spot);
    }

    // A live node is gone, and a cube is split in two open nodes.
    fn split(&mut self, spot: Spot, cube: Cube, v: VarId)
        requires there { IsSpot self.old.search.nodes spot }
        requires can { CanSplit self.old.search cube v.0 }
        requires room { 1 ≤ self.old.spare }
        ensures search { self.new.search ≡ branched self.old.search spot.number cube v.0 }
        ensures template { SameTemplate self.old self.new }
    {
        let mut one = cube;
        one.fix(v, true);
        let mut zero = cube;
        zero.fix(v, false);
        self.nodes.remove(spot);
        self.nodes
            .push(2 * self.branchings + 1, NodeState::Open(one));
        self.nodes
            .push(2 * self.branchings + 2, NodeState::Open(zero));
        self.branchings += 1;
    }

    // A live node is gone, and a cut's row has the next number.
    fn learn(&mut self, spot: Spot, row: CutRow)
        requires there { IsSpot self.old.search.nodes spot }
        requires room { 1 ≤ self.old.spare }
        requires few { length self.old.search.cuts < cuts.CUTS }
        ensures search { self.new.search ≡ published self.old.search spot.number row }
        ensures template { SameTemplate self.old self.new }
    {
        self.nodes.remove(spot);
        self.cuts.push_spare(row);
    }

    // A live node is gone, and its candidate is offered as the best.
    fn accept(&mut self, spot: Spot, cost: u64, architecture: Architecture)
        requires { IsSpot self.old.search.nodes spot }
        ensures search { self.new.search ≡ accepted self.old.search spot.number cost architecture }
        ensures template { SameTemplate self.old self.new }
    {
        self.nodes.remove(spot);
        offer(&mut self.best, cost, architecture);
    }

    // All live nodes are open, under a new limit.
    fn reopen(&mut self, limit: u32)
        ensures search { self.new.search ≡ reopened self.old.search limit }
        ensures template { SameTemplate self.old self.new }
    {
        self.nodes.open_all();
        self.limit = limit;
    }

    // Makes a change.
    pub(crate) fn make(&mut self, change: Change)
        requires can { CanMake self.old.search change }
        requires room { 1 ≤ self.old.spare }
        ensures search { self.new.search ≡ changed self.old.search change }
        ensures template { SameTemplate self.old self.new }
    {
        match change {
            Change::Put(spot, node) => self.put(spot, node),
            Change::Forget(spot) => self.forget(spot),
            Change::Split(spot, cube, v) => self.split(spot, cube, v),
            Change::Learn(spot, row) => self.learn(spot, row),
            Change::Accept(spot, cost, architecture) => self.accept(spot, cost, architecture),
            Change::Reopen(limit) => self.reopen(limit),
        }
    }

    /// Makes the state that an entry leads to. The state is one that a legal history of the problem
    /// leads to, the entry is a step from there, and there is room for it. It takes no memory.
    pub fn apply(&mut self, problem: &Problem, entry: &Entry)
        requires of { IsStateOf problem.now self.old }
        requires case { (new : SearchState) × Step problem.now self.old.search entry.now new }
        requires room { 1 ≤ self.old.spare }
        ensures step { Step problem.now self.old.search entry.now self.new.search }
        ensures of { IsStateOf problem.now self.new }
    {
        let change = self.change_of(problem, entry);
        self.make(change);
    }
}
