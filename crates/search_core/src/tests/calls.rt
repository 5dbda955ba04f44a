// Calls on a state, one by one: an entry that is applied, what is read of a node, the greatest
// worker, and the least and the greatest limit.
ghost use Rattle.std.specs.Prelude.{◌≤◌};
ghost use Rattle.search_core.specs.declared.limits.TheConstants as limits;

use crate::tests::entering::{expect_state, state_after};
use crate::tests::entries::{TableEntry, branch, park, reopen, take};
use crate::tests::problems::one_of;
use crate::{Entry, State, start};
use arch_model::{Memory, VarId};
use rows::Problem;
use std::alloc::Global;
use std::process::Abort;
use std::test::Fail;

// The state after the root was taken, without a look at the rules.
fn taken(alloc: Global, problem: &Problem, limit: u32) -> Result<State, Memory>
    requires { limit ≤ limits.BRANCHINGS }
{
    let mut state = start(alloc, problem, limit)?;
    state.reserve()?;
    let entry = Entry::Take {
        worker: 0,
        node: 0,
        cuts: 0,
        bound: None,
    };
    state.apply(problem, &entry);
    Ok(state)
}

#[test]
fn a_take_is_applied(rt: HostRuntime) -> Result<(), Fail> {
    let problem = one_of(&rt, 2, 3)?;
    let state = taken(rt.alloc(), &problem, 4)?;
    expect_state(
        &rt,
        &state,
        "0 held by 0 with 0 none, 0 cuts, 0 of 4 branchings",
    )
}

// How many cuts a worker knows in a node and whether it knows a bound, None where it doesn't hold
// the node.
fn known_in(state: &State, node: u32, worker: u32) -> Option<(u32, bool)> {
    match state.held(node, worker) {
        Some(held) => Some((held.cuts, held.bound.is_some())),
        None => None,
    }
}

// What a node's cube fixes variable 0 to, None where it is free or there is no such node.
fn fixed_in(state: &State, node: u32) -> Option<bool> {
    match state.cube(node) {
        Some(cube) => cube.value(VarId(0)),
        None => None,
    }
}

// Node 1 is open with the variable at 1, node 2 is held with it at 0, and node 0 is gone.
#[test]
fn nodes_are_read(rt: HostRuntime) -> Result<(), Fail> {
    let problem = one_of(&rt, 2, 3)?;
    let entries = [take(0, 0, None), branch(0, None, 0), take(2, 0, None)];
    let state = state_after(&rt, &problem, 4, &entries)?;
    assert_eq!(rt; known_in(&state, 2, 0), Some((0, false)));
    assert_eq!(rt; known_in(&state, 2, 1), None);
    assert_eq!(rt; known_in(&state, 1, 0), None);
    assert_eq!(rt; fixed_in(&state, 0), None);
    assert_eq!(rt; fixed_in(&state, 1), Some(true));
    assert_eq!(rt; fixed_in(&state, 2), Some(false));
    Ok(())
}

// Compares the state after some entries from the start with its words.
fn expect_under(
    rt: &(impl Abort + AllocGlobal),
    limit: u32,
    entries: &[TableEntry],
    words: &str,
) -> Result<(), Fail>
    requires { limit ≤ limits.BRANCHINGS }
{
    let problem = one_of(rt, 2, 3)?;
    let state = state_after(rt, &problem, limit, entries)?;
    expect_state(rt, &state, words)
}

#[test]
fn the_greatest_worker_takes_a_node(rt: HostRuntime) -> Result<(), Fail> {
    expect_under(
        &rt,
        4,
        &[take(0, 0, None).by(63)],
        "0 held by 63 with 0 none, 0 cuts, 0 of 4 branchings",
    )
}

// A new limit may be the old one or the greatest.
#[test]
fn limits_stay_or_are_the_greatest(rt: HostRuntime) -> Result<(), Fail> {
    let entries = [take(0, 0, None), park(0), reopen(0), reopen(100_000)];
    expect_under(&rt, 0, &entries[..3], "0 open, 0 cuts, 0 of 0 branchings")?;
    expect_under(&rt, 0, &entries, "0 open, 0 cuts, 0 of 100000 branchings")
}
