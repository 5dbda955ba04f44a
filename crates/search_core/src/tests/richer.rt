// Entries that the tables don't have: traces of two steps, reasons of two rows, and no-goods.
ghost use Rattle.search_core.specs.Parts.{IsStateOf};

use crate::tests::entering::{expect_state, state_after, weights_for};
use crate::tests::entries::{B0, B2, TableEntry, accept, branch, offer, study, take};
use crate::tests::problems::{one_of, one_way};
use crate::{Entry, State, step};
use arch_model::{CompId, CompSet, Memory};
use redundancy_cut::Cut;
use rows::{Pair, Problem, Reason, RowRef, Trace};
use std::alloc::Global;
use std::process::Abort;
use std::test::Fail;

// Enters an entry that is a step.
fn enter_made(
    rt: &(impl Abort + AllocGlobal),
    state: &mut State,
    problem: &Problem,
    entry: &Entry,
) -> Result<(), Fail>
    requires { IsStateOf problem.now state.old }
{
    let weights = weights_for(rt.alloc(), state, problem, entry)?;
    let entered = step(state, problem, entry, &weights);
    assert_eq!(rt; entered, Ok(()));
    Ok(())
}

// Compares the state after some entries from the start, and after one more, with its words.
fn expect_entered(
    rt: &(impl Abort + AllocGlobal),
    problem: &Problem,
    entries: &[TableEntry],
    last: &Entry,
    words: &str,
) -> Result<(), Fail> {
    let mut state = state_after(rt, problem, 4, entries)?;
    enter_made(rt, &mut state, problem, last)?;
    expect_state(rt, &state, words)
}

// An offer of node 2 after a trace of two steps.
fn offer_by_two(alloc: Global) -> Result<Entry, Memory> {
    Ok(Entry::Offer {
        worker: 0,
        node: 2,
        trace: Trace::new([B2, B0].to_vec(alloc)?),
    })
}

// The first row forces the sink, and the second one leaves its edge out.
#[test]
fn a_trace_goes_step_by_step(rt: HostRuntime) -> Result<(), Fail> {
    let problem = one_way(&rt, 0)?;
    let entries = [take(0, 0, None), branch(0, None, 0), take(2, 0, None)];
    let entry = offer_by_two(rt.alloc())?;
    expect_entered(
        &rt,
        &problem,
        &entries,
        &entry,
        "1 open 0=1, 2 pending 0=0 1=1 2=0, 0 cuts, 1 of 4 branchings",
    )
}

// A prune of node 1 by the row that asks for a component, taken three times, and the cost row.
fn prune_by_two(alloc: Global) -> Result<Entry, Memory> {
    let pairs = [
        Pair { row: B0, times: 3 },
        Pair {
            row: RowRef::Cost,
            times: 1,
        },
    ];
    Ok(Entry::Prune {
        worker: 0,
        node: 1,
        trace: Trace::new(Vec::new(alloc)),
        reason: Reason::new(pairs.to_vec(alloc)?),
    })
}

// Together the rows say that 0 is at least 1.
#[test]
fn a_reason_adds_up_its_rows(rt: HostRuntime) -> Result<(), Fail> {
    let problem = one_of(&rt, 2, 3)?;
    let entries = [
        take(0, 0, None),
        branch(0, None, 0),
        take(2, 0, None),
        offer(2, Some(B0)),
        study(2),
        accept(2, 3),
        take(1, 0, Some(3)),
    ];
    let entry = prune_by_two(rt.alloc())?;
    expect_entered(
        &rt,
        &problem,
        &entries,
        &entry,
        "0 cuts, 1 of 4 branchings, best 3",
    )
}

// A no-good of node 2's candidate, in which nothing leads into the sink.
fn no_good_of_the_sink() -> Entry {
    let mut cone = CompSet::new();
    cone.put(CompId(1));
    Entry::Publish {
        worker: 0,
        node: 2,
        cut: Cut::NoGood {
            requirement: 0,
            cone,
        },
    }
}

// The sink alone is rejected for what feeds it.
#[test]
fn a_no_good_is_published(rt: HostRuntime) -> Result<(), Fail> {
    let problem = one_way(&rt, 0)?;
    let entries = [
        take(0, 0, None),
        branch(0, Some(B2), 0),
        take(2, 0, None),
        offer(2, Some(B0)),
        study(2),
    ];
    expect_entered(
        &rt,
        &problem,
        &entries,
        &no_good_of_the_sink(),
        "1 open 0=1 1=1, 1 cuts, 1 of 4 branchings",
    )
}
