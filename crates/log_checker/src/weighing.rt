// The step of an entry, with the weights that it asks for.
ghost use Rattle.std.specs.Prelude.{◌≡◌, IfOk, IfErr, OnOk, OnErr};
ghost use Rattle.arch_model.specs.Architecture.{IsArchitecture};
ghost use Rattle.search_core.specs.Parts.{IsStateOf};
ghost use Rattle.search_core.specs.Step.{Step};
ghost use Rattle.search_core.specs.Rules.{AreItsWeights, HasWeights, weights_of};
ghost use Rattle.log_checker.specs.Inner.Refused.{EntryFails};

use arch_model::{Architecture, Library, Memory};
use rows::{Problem, variable_count};
use search_core::{Entry, State, StepError, step};
use sink_weight::weight;
use std::alloc::Global;

// The weights of an architecture's required sinks, in requirement order, in units of 10^-18.
fn weigh(alloc: Global, lib: &Library, of: &Architecture) -> Result<Vec<u128>, Memory>
    requires { IsArchitecture lib.now of.now }
    ensures { IfOk result (λ weights. weights.items ≡ weights_of lib.now of.now) }
{
    let mut weights = Vec::new(alloc);
    let requirements = lib.requirements();
    for r in requirements {
        weights.push(weight(alloc, lib, of, r.sink))?;
    }
    Ok(weights)
}

// The weights of the candidate that a worker studies in a node, and none where it studies none.
fn candidate_weights(
    alloc: Global,
    state: &State,
    problem: &Problem,
    worker: u32,
    node: u32,
) -> Result<Vec<u128>, Memory>
    requires { IsStateOf problem.now state.now }
    ensures { IfOk result
        (λ weights. AreItsWeights problem.now state.now.search worker node weights.items) }
{
    let lib = problem.library();
    // Tells the prover that the library keeps its rules.
    let _count = variable_count(lib);
    match state.studied(node, worker) {
        Some(of) => weigh(alloc, lib, &of),
        None => Ok(Vec::new(alloc)),
    }
}

// The weights that come with an entry: those of the candidate that an Accept or a Publish names.
fn weights_for(
    alloc: Global,
    state: &State,
    problem: &Problem,
    entry: &Entry,
) -> Result<Vec<u128>, Memory>
    requires { IsStateOf problem.now state.now }
    ensures { IfOk result
        (λ weights. HasWeights problem.now state.now.search entry.now weights.items) }
{
    match entry {
        Entry::Accept { worker, node, .. } => {
            candidate_weights(alloc, state, problem, *worker, *node)
        }
        Entry::Publish { worker, node, .. } => {
            candidate_weights(alloc, state, problem, *worker, *node)
        }
        _ => Ok(Vec::new(alloc)),
    }
}

// Takes the step of an entry. Where it isn't one, the first rule that it breaks is told, unless
// memory ran out, and the state stays.
pub(crate) fn weighed_step(
    alloc: Global,
    state: &mut State,
    problem: &Problem,
    entry: &Entry,
) -> Result<(), StepError>
    requires { IsStateOf problem.now state.old }
    ensures ok { OnOk result (Step problem.now state.old.search entry.now state.new.search) }
    ensures of { IsStateOf problem.now state.new }
    ensures bad { IfErr result (λ e. EntryFails problem.now state.old.search entry.now e) }
    ensures unchanged { OnErr result (state.new ≡ state.old) }
{
    let Ok(weights) = weights_for(alloc, state, problem, entry) else {
        return Err(StepError::Memory);
    };
    step(state, problem, entry, &weights)
}
