// What an entry changes in the state of a search, with the spot of its node: judging the entry finds
// it, and it is made without another look-up.
ghost use Rattle.std.specs.Prelude.{◌≡◌, IsSome, Some};
ghost use Rattle.std.specs.FinMap as finmap;
ghost use Rattle.search_core.specs.Node.{Node, node_cube};
ghost use Rattle.search_core.specs.State.{SearchState};
ghost use Rattle.search_core.specs.Candidate as spec;
ghost use Rattle.search_core.specs.Step.{Step};
ghost use Rattle.search_core.specs.Parts.{IsStateOf};
ghost use Rattle.search_core.specs.Inner.Nodes.{IsSpotOf};
ghost use Rattle.search_core.specs.Inner.Change.{CanMake, changed};

use crate::candidate::candidate_in;
use crate::entry::Entry;
use crate::nodes::{NodeState, Spot};
use crate::state::State;
use crate::studying::Study;
use arch_model::{Architecture, VarId};
use redundancy_cut::row_of;
use rows::{Cube, CutRow, Problem, variable_count};

// What an entry changes, with the spot of its node.
#[derive(Clone, Copy)]
pub(crate) enum Change {
    /// The node has a new state.
    Put(Spot, NodeState),
    /// The node is gone.
    Forget(Spot),
    /// The node is gone, and this cube is split at a free variable.
    Split(Spot, Cube, VarId),
    /// The node is gone, and a cut's row has the next number.
    Learn(Spot, CutRow),
    /// The node is gone, and its candidate is offered as the best, at its cost in cost units.
    Accept(Spot, u64, Architecture),
    /// All live nodes are open, under a new limit.
    Reopen(u32),
}

impl State {
    // A live node and its candidate, where its cube is full.
    fn candidate_at(&self, node: u32) -> Study
        requires { IsSome (finmap.get self.now.search.nodes node) }
        ensures spot { IsSpotOf self.now.search.nodes node result.spot }
        ensures candidate { (n : Node) → finmap.get self.now.search.nodes node ≡ Some n
            → result.candidate
            ≡ spec.candidate_in self.now.components self.now.edges (node_cube n) }
    {
        let found = self.live_at(node);
        Study {
            spot: found.spot,
            cube: found.cube,
            candidate: candidate_in(self.components, self.edges, &found.cube),
        }
    }

    // What an entry that is a step changes.
    pub(crate) fn change_of(&self, problem: &Problem, entry: &Entry) -> Change
        requires of { IsStateOf problem.now self.now }
        requires case { (new : SearchState) × Step problem.now self.now.search entry.now new }
        ensures step { Step problem.now self.now.search entry.now (changed self.now.search result) }
        ensures can { CanMake self.now.search result }
    {
        // Tells the prover that the library keeps its rules, and the bounds on its members.
        let _count = variable_count(problem.library());
        match entry {
            Entry::Take {
                worker,
                node,
                cuts,
                bound,
            } => {
                let found = self.live_at(*node);
                let held = NodeState::Held {
                    cube: found.cube,
                    worker: *worker,
                    cuts: *cuts,
                    bound: *bound,
                };
                Change::Put(found.spot, held)
            }
            Entry::Branch {
                worker,
                node,
                trace,
                var,
            } => {
                let found = self.traced(problem, *worker, *node, trace);
                Change::Split(found.spot, found.cube, *var)
            }
            Entry::Prune { node, .. } => Change::Forget(self.live_at(*node).spot),
            Entry::Offer {
                worker,
                node,
                trace,
            } => {
                let found = self.traced(problem, *worker, *node, trace);
                Change::Put(found.spot, NodeState::Pending(found.cube))
            }
            Entry::Study { worker, node } => {
                let found = self.live_at(*node);
                let studied = NodeState::Studied {
                    cube: found.cube,
                    worker: *worker,
                };
                Change::Put(found.spot, studied)
            }
            Entry::Publish { node, cut, .. } => {
                let study = self.candidate_at(*node);
                Change::Learn(study.spot, row_of(problem, cut, &study.candidate))
            }
            Entry::Accept { node, cost, .. } => {
                let study = self.candidate_at(*node);
                Change::Accept(study.spot, *cost, study.candidate)
            }
            Entry::Park { node, .. } => {
                let found = self.live_at(*node);
                Change::Put(found.spot, NodeState::Parked(found.cube))
            }
            Entry::Reopen { limit } => Change::Reopen(*limit),
        }
    }
}
