// Entering entries of tables, with the weights that come with them.
ghost use Rattle.std.specs.Prelude.{◌≡◌, ◌≤◌, IfOk, map};
ghost use Rattle.arch_model.specs.Architecture.{IsArchitecture};
ghost use Rattle.search_core.specs.declared.limits.TheConstants as limits;
ghost use Rattle.search_core.specs.Parts.{IsStateOf};
ghost use Rattle.search_core.specs.Rules.{AreItsWeights, HasWeights, weights_of};

use crate::tests::entries::{TableEntry, entry_of};
use crate::tests::wording::text_of;
use crate::{Answer, Entry, Rule, State, StepError, start, step};
use arch_model::{Architecture, Library, Memory};
use rows::{Problem, variable_count};
use sink_weight::weight;
use std::alloc::Global;
use std::process::Abort;
use std::test::Fail;

// The weights of an architecture's required sinks.
fn weigh(alloc: Global, lib: &Library, of: &Architecture) -> Result<Vec<u128>, Memory>
    requires { IsArchitecture lib.now of.now }
    ensures { IfOk result (λ weights. weights.items ≡ weights_of lib.now of.now) }
{
    let mut weights = Vec::new(alloc);
    let requirements = lib.requirements();
    for r in requirements {
        weights.push(weight(alloc, lib, of, r.sink))?;
    }
    Ok(weights)
}

// The weights of the candidate that a worker studies in a node.
fn candidate_weights(
    alloc: Global,
    state: &State,
    problem: &Problem,
    worker: u32,
    node: u32,
) -> Result<Vec<u128>, Memory>
    requires { IsStateOf problem.now state.now }
    ensures { IfOk result
        (λ weights. AreItsWeights problem.now state.now.search worker node weights.items) }
{
    let lib = problem.library();
    let _count = variable_count(lib);
    match state.studied(node, worker) {
        Some(of) => weigh(alloc, lib, &of),
        None => Ok(Vec::new(alloc)),
    }
}

// The weights that come with an entry.
pub(crate) fn weights_for(
    alloc: Global,
    state: &State,
    problem: &Problem,
    entry: &Entry,
) -> Result<Vec<u128>, Memory>
    requires { IsStateOf problem.now state.now }
    ensures { IfOk result
        (λ weights. HasWeights problem.now state.now.search entry.now weights.items) }
{
    match entry {
        Entry::Accept { worker, node, .. } => {
            candidate_weights(alloc, state, problem, *worker, *node)
        }
        Entry::Publish { worker, node, .. } => {
            candidate_weights(alloc, state, problem, *worker, *node)
        }
        _ => Ok(Vec::new(alloc)),
    }
}

// Enters an entry of a table, or tells the rule that it breaks.
pub(crate) fn enter(
    rt: &(impl Abort + AllocGlobal),
    state: &mut State,
    problem: &Problem,
    entry: TableEntry,
) -> Result<Option<Rule>, Fail>
    requires { IsStateOf problem.now state.old }
    ensures { IsStateOf problem.now state.new }
{
    let made = entry_of(rt.alloc(), entry)?;
    let weights = weights_for(rt.alloc(), state, problem, &made)?;
    match step(state, problem, &made, &weights) {
        Ok(()) => Ok(None),
        Err(StepError::Bad(rule)) => Ok(Some(rule)),
        Err(StepError::Memory) => panic!(rt; "no memory"),
    }
}

// Compares a state with its words.
pub(crate) fn expect_state(
    rt: &(impl Abort + AllocGlobal),
    state: &State,
    words: &str,
) -> Result<(), Fail> {
    let text = text_of(rt.alloc(), state)?;
    assert_eq!(rt; text.as_str(), words);
    Ok(())
}

// Enters some entries, each a step.
pub(crate) fn enter_all(
    rt: &(impl Abort + AllocGlobal),
    state: &mut State,
    problem: &Problem,
    entries: &[TableEntry],
) -> Result<(), Fail>
    requires { IsStateOf problem.now state.old }
    ensures { IsStateOf problem.now state.new }
{
    for entry in entries {
        let rule = enter(rt, state, problem, *entry)?;
        assert_eq!(rt; rule, None);
    }
    Ok(())
}

// Enters some entries, each a step, and compares the state after each.
fn expect_steps(
    rt: &(impl Abort + AllocGlobal),
    state: &mut State,
    problem: &Problem,
    cases: &[(TableEntry, &str)],
) -> Result<(), Fail>
    requires { IsStateOf problem.now state.old }
    ensures { IsStateOf problem.now state.new }
{
    for (entry, words) in cases {
        let rule = enter(rt, state, problem, *entry)?;
        assert_eq!(rt; rule, None);
        expect_state(rt, state, words)?;
    }
    Ok(())
}

// Tries some entries, each of which breaks a rule first and leaves the state as it is.
pub(crate) fn expect_broken(
    rt: &(impl Abort + AllocGlobal),
    state: &mut State,
    problem: &Problem,
    cases: &[(TableEntry, Rule)],
) -> Result<(), Fail>
    requires { IsStateOf problem.now state.old }
    ensures { IsStateOf problem.now state.new }
{
    let before = text_of(rt.alloc(), state)?;
    for (entry, broken) in cases {
        let rule = enter(rt, state, problem, *entry)?;
        assert_eq!(rt; rule, Some(*broken));
        expect_state(rt, state, &before)?;
    }
    Ok(())
}

// The answer after some entries from the start, each a step that leads to a state of these words.
pub(crate) fn answer_by_steps(
    rt: &(impl Abort + AllocGlobal),
    problem: &Problem,
    limit: u32,
    cases: &[(TableEntry, &str)],
) -> Result<Option<Answer>, Fail>
    requires { limit ≤ limits.BRANCHINGS }
{
    let mut state = start(rt.alloc(), problem, limit)?;
    expect_steps(rt, &mut state, problem, cases)?;
    Ok(state.answer())
}

// The answer after some entries from the start, each a step, where some others break a rule.
pub(crate) fn answer_after(
    rt: &(impl Abort + AllocGlobal),
    problem: &Problem,
    limit: u32,
    entries: &[TableEntry],
    broken: &[(TableEntry, Rule)],
) -> Result<Option<Answer>, Fail>
    requires { limit ≤ limits.BRANCHINGS }
{
    let mut state = start(rt.alloc(), problem, limit)?;
    enter_all(rt, &mut state, problem, entries)?;
    expect_broken(rt, &mut state, problem, broken)?;
    Ok(state.answer())
}

// A state after some entries from the start, each a step.
pub(crate) fn state_after(
    rt: &(impl Abort + AllocGlobal),
    problem: &Problem,
    limit: u32,
    entries: &[TableEntry],
) -> Result<State, Fail>
    requires { limit ≤ limits.BRANCHINGS }
    ensures { IfOk result (λ state. IsStateOf problem.now state) }
{
    let mut state = start(rt.alloc(), problem, limit)?;
    enter_all(rt, &mut state, problem, entries)?;
    Ok(state)
}
