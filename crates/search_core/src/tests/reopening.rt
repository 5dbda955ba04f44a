// Nodes of each kind: how they are found, and that all are open after a new limit.
use crate::tests::entering::{expect_state, state_after};
use crate::tests::entries::{TableEntry, branch, offer, park, reopen, study, take};
use crate::tests::problems::one_of;
use crate::{Sought, State};
use arch_model::CompId;
use rows::Problem;
use std::process::Abort;
use std::test::Fail;

// The entries that lead to a pending, a held, a studied and a parked node, and a new limit.
fn entries_to_each_kind() -> [TableEntry; 15] {
    [
        take(0, 0, None),
        branch(0, None, 0),
        take(2, 0, None),
        branch(2, None, 1),
        take(1, 0, None),
        branch(1, None, 1),
        take(3, 0, None),
        offer(3, None),
        take(4, 0, None),
        take(5, 0, None),
        offer(5, None),
        study(5),
        take(6, 0, None),
        park(6),
        reopen(5),
    ]
}

// Compares the state after some entries from the start with its words.
fn expect_after(
    rt: &(impl Abort + AllocGlobal),
    problem: &Problem,
    entries: &[TableEntry],
    words: &str,
) -> Result<(), Fail> {
    let state = state_after(rt, problem, 3, entries)?;
    expect_state(rt, &state, words)
}

// A studied, a held, a pending and a parked node are all open again.
#[test]
fn a_reopening_opens_every_node(rt: HostRuntime) -> Result<(), Fail> {
    let problem = one_of(&rt, 2, 3)?;
    let entries = entries_to_each_kind();
    expect_after(
        &rt,
        &problem,
        &entries[..14],
        "3 pending 0=0 1=1, 4 held by 0 with 0 none 0=0 1=0, 5 studied by 0 0=1 1=1, \
        6 parked 0=1 1=0, 0 cuts, 3 of 3 branchings",
    )?;
    expect_after(
        &rt,
        &problem,
        &entries,
        "3 open 0=0 1=1, 4 open 0=0 1=0, 5 open 0=1 1=1, 6 open 0=1 1=0, \
        0 cuts, 3 of 5 branchings",
    )
}

// The last open node, the last pending one, and the last that worker 0 or 1 holds or studies.
fn last_of_each(state: &State) -> (Option<u32>, Option<u32>, Option<u32>, Option<u32>) {
    (
        state.last(Sought::Open),
        state.last(Sought::Pending),
        state.last(Sought::Of(0)),
        state.last(Sought::Of(1)),
    )
}

// Whether a node's candidate has components 0 and 1, neither where the node has no candidate.
fn present_in(state: &State, node: u32) -> (bool, bool) {
    match state.candidate(node) {
        Some(of) => (of.comps().has(CompId(0)), of.comps().has(CompId(1))),
        None => (false, false),
    }
}

// The last node of each kind, and the candidates.
#[test]
fn nodes_are_found(rt: HostRuntime) -> Result<(), Fail> {
    let problem = one_of(&rt, 2, 3)?;
    let state = state_after(&rt, &problem, 3, &entries_to_each_kind()[..14])?;
    assert_eq!(rt; last_of_each(&state), (None, Some(3), Some(5), None));
    assert_eq!(rt; present_in(&state, 3), (false, true));
    assert_eq!(rt; present_in(&state, 4), (false, false));
    assert_eq!(rt; present_in(&state, 5), (true, true));
    Ok(())
}
