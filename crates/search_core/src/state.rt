// The state of a search.
ghost use Rattle.std.specs.Prelude.{◌≡◌, ℕ, ◌≤◌, List, map, Option, Some, None, MatchOption, IfOk};
ghost use Rattle.std.specs.Prelude.{IfSome, IfNone, OnOk, OnErr, length};
ghost use Rattle.std.specs.FinMap as finmap;
ghost use Rattle.arch_model.specs.Parts.{ArchitectureParts};
ghost use Rattle.rows.specs.Parts.{CubeParts};
ghost use Rattle.search_core.specs.declared.limits.TheConstants as limits;
ghost use Rattle.search_core.specs.Node.{Node};
ghost use Rattle.search_core.specs.State.{start_of};
ghost use Rattle.search_core.specs.Candidate.{candidate_in};
ghost use Rattle.search_core.specs.History.{IsReached};
ghost use Rattle.search_core.specs.Answers.{answer_of};
ghost use Rattle.search_core.specs.Parts.{IsStateOf, HasCandidateAt, NoCandidateAt};

use crate::answer::Answer;
use crate::candidate::candidate_in;
use crate::nodes::{NodeState, Nodes};
use arch_model::{Architecture, Memory};
use incumbent::Best;
use rows::{Cube, CutList, Problem, variable_count};
use std::alloc::Global;
use std::marker::Model;

/// The state of a search for a problem: its live nodes by number, the learned cuts, the best
/// architecture that was accepted, the number of branchings and their limit. It has room for some
/// more entries.
#[derive(Drop)]
pub struct State {
    pub(crate) nodes: Nodes,
    pub(crate) cuts: CutList,
    pub(crate) best: Option<Best>,
    pub(crate) branchings: u32,
    pub(crate) limit: u32,
    pub(crate) components: u32,
    pub(crate) edges: u32,
}

impl Model for State {
    ghost use Rattle.std.specs.Prelude.{◌≤◌, min};
    ghost use Rattle.arch_model.specs.declared.limits.TheConstants.{COMPONENTS, EDGES};
    ghost use Rattle.search_core.specs.Parts.{StateParts};
    ghost use Rattle.search_core.specs.Inner.Codes.{parts_code};

    ghost Value = { StateParts };

    ghost coded = { parts_code };

    ghost view = { λ a. record {
      search = record {
        nodes = a.nodes.nodes;
        cuts = a.cuts.cuts;
        best = a.best;
        branchings = a.branchings;
        limit = a.limit;
      };
      components = a.components;
      edges = a.edges;
      spare = min a.nodes.spare a.cuts.spare;
    } };

    ghost invariant = { λ a. (a.components ≤ COMPONENTS) × (a.edges ≤ EDGES) };
}

/// The state in which a search for a problem begins: node 0 is open, with nothing fixed. The only
/// error is want of memory.
pub fn start(alloc: Global, problem: &Problem, limit: u32) -> Result<State, Memory>
    requires { limit ≤ limits.BRANCHINGS }
    ensures search { IfOk result (λ state. state.search ≡ start_of limit) }
    ensures of { IfOk result (λ state. IsStateOf problem.now state) }
{
    let lib = problem.library();
    // Tells the prover that the library keeps its rules, and the bounds on its members.
    let _count = variable_count(lib);
    let mut nodes = Nodes::new(alloc);
    nodes.reserve()?;
    nodes.push(0, NodeState::Open(Cube::whole()));
    Ok(State {
        nodes,
        cuts: CutList::new(alloc),
        best: None,
        branchings: 0,
        limit,
        components: lib.components().len() as u32,
        edges: lib.edges().len() as u32,
    })
}

impl State {
    /// Makes room for at least one more entry. The only error is want of memory, and then all stays.
    pub fn reserve(&mut self) -> Result<(), Memory>
        ensures search { self.new.search ≡ self.old.search }
        ensures components { self.new.components ≡ self.old.components }
        ensures edges { self.new.edges ≡ self.old.edges }
        ensures ok { OnOk result (1 ≤ self.new.spare) }
        ensures err { OnErr result (self.new ≡ self.old) }
    {
        self.cuts.reserve()?;
        self.nodes.reserve()
    }

    /// The candidate of a node that is pending or under study, None where the node is neither.
    pub fn candidate(&self, node: u32) -> Option<Architecture>
        ensures some { IfSome result (λ arch. HasCandidateAt self.now node arch) }
        ensures none { IfNone result (NoCandidateAt self.now node) }
    {
        let state = self.nodes.get(node)?;
        let cube = state.candidate_cube()?;
        Some(candidate_in(self.components, self.edges, &cube))
    }

    /// The answer, None where something is open, pending, held or under study.
    pub fn answer(&self) -> Option<Answer>
        ensures { result ≡ answer_of self.now.search }
    {
        if !self.nodes.is_at_rest() {
            return None;
        }
        if self.nodes.len() == 0 {
            return Some(match self.best {
                Some(best) => Answer::Optimal { cost: best.cost },
                None => Answer::Infeasible,
            });
        }
        Some(Answer::NodeLimit {
            incumbent: self.best.map(|best| best.cost),
        })
    }

    /// How many branchings there were.
    pub fn branchings(&self) -> u32
        ensures { result ≡ self.now.search.branchings }
    {
        self.branchings
    }

    /// The limit on branchings.
    pub fn limit(&self) -> u32
        ensures { result ≡ self.now.search.limit }
    {
        self.limit
    }

    /// The learned cuts, by number.
    pub fn cuts(&self) -> &CutList
        ensures { result.now.cuts ≡ self.now.search.cuts }
    {
        &self.cuts
    }

    /// The best architecture that was accepted, None where none was.
    pub fn best(&self) -> Option<Best>
        ensures { result ≡ self.now.search.best }
    {
        self.best
    }
}
