// Judging a history by the rules of a search, entry by entry from the start.
ghost use Rattle.std.specs.Prelude.{◌≡◌, ◌≤◌, IfOk};
ghost use Rattle.arch_model.specs.Architecture.{IsArchitecture};
ghost use Rattle.search_core.specs.declared.limits.TheConstants as limits;
ghost use Rattle.search_core.specs.Parts.{IsStateOf};
ghost use Rattle.search_core.specs.Rules.{AreItsWeights, HasWeights, weights_of};

use arch_model::{Architecture, Library, Memory};
use rows::{Problem, variable_count};
use search_core::{Answer, Entry, State, start, step};
use sink_weight::weight;
use std::alloc::Global;
use std::process::Abort;
use std::test::Fail;

// What a test sees of a search.
#[derive(Clone, Copy, Debug, PartialEq, Eq)]
pub(crate) struct Seen {
    // The answer.
    pub answer: Option<Answer>,
    // How many branchings there were.
    pub branchings: u32,
    // How many cuts were learned.
    pub cuts: u32,
    // The cost of the best, in cost units.
    pub best: Option<u64>,
}

// The weights of an architecture's required sinks.
fn weigh(alloc: Global, lib: &Library, of: &Architecture) -> Result<Vec<u128>, Memory>
    requires { IsArchitecture lib.now of.now }
    ensures { IfOk result (λ weights. weights.items ≡ weights_of lib.now of.now) }
{
    let mut weights = Vec::new(alloc);
    let requirements = lib.requirements();
    for r in requirements {
        weights.push(weight(alloc, lib, of, r.sink))?;
    }
    Ok(weights)
}

// The weights of the candidate that a worker studies in a node.
fn candidate_weights(
    alloc: Global,
    state: &State,
    problem: &Problem,
    worker: u32,
    node: u32,
) -> Result<Vec<u128>, Memory>
    requires { IsStateOf problem.now state.now }
    ensures { IfOk result
        (λ weights. AreItsWeights problem.now state.now.search worker node weights.items) }
{
    let lib = problem.library();
    let _count = variable_count(lib);
    match state.studied(node, worker) {
        Some(of) => weigh(alloc, lib, &of),
        None => Ok(Vec::new(alloc)),
    }
}

// The weights that come with an entry.
fn weights_for(
    alloc: Global,
    state: &State,
    problem: &Problem,
    entry: &Entry,
) -> Result<Vec<u128>, Memory>
    requires { IsStateOf problem.now state.now }
    ensures { IfOk result
        (λ weights. HasWeights problem.now state.now.search entry.now weights.items) }
{
    match entry {
        Entry::Accept { worker, node, .. } => {
            candidate_weights(alloc, state, problem, *worker, *node)
        }
        Entry::Publish { worker, node, .. } => {
            candidate_weights(alloc, state, problem, *worker, *node)
        }
        _ => Ok(Vec::new(alloc)),
    }
}

// Enters an entry, which is a step.
fn enter(
    rt: &(impl Abort + AllocGlobal),
    state: &mut State,
    problem: &Problem,
    entry: &Entry,
) -> Result<(), Memory>
    requires { IsStateOf problem.now state.old }
    ensures { IsStateOf problem.now state.new }
{
    let weights = weights_for(rt.alloc(), state, problem, entry)?;
    let entered = step(state, problem, entry, &weights);
    assert!(rt; entered.is_ok());
    Ok(())
}

// What a test sees of a state.
fn seen_in(state: &State) -> Seen {
    Seen {
        answer: state.answer(),
        branchings: state.branchings(),
        cuts: state.cuts().len(),
        best: state.best().map(|best| best.cost),
    }
}

// What some entries lead to from the start, each of which is a step.
pub(crate) fn replayed(
    rt: &(impl Abort + AllocGlobal),
    problem: &Problem,
    limit: u32,
    entries: &[Entry],
) -> Result<Seen, Memory>
    requires { limit ≤ limits.BRANCHINGS }
{
    let mut state = start(rt.alloc(), problem, limit)?;
    for entry in entries {
        enter(rt, &mut state, problem, entry)?;
    }
    Ok(seen_in(&state))
}
