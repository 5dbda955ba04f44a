// Histories from the start to their answers.
use crate::Answer;
use crate::tests::entering::{answer_after, answer_by_steps};
use crate::tests::entries::{
    B0, B2, C0, TableEntry, accept, branch, offer, park, prune, publish, reopen, study, take,
};
use crate::tests::problems::{one_of, one_way};
use rows::RowRef;
use std::test::Fail;

// A history of one component of cost 7: the root is a candidate at once.
fn history_of_one() -> [(TableEntry, &'static str); 4] {
    [
        (
            take(0, 0, None),
            "0 held by 0 with 0 none, 0 cuts, 0 of 0 branchings",
        ),
        (
            offer(0, Some(B0)),
            "0 pending 0=1, 0 cuts, 0 of 0 branchings",
        ),
        (study(0), "0 studied by 0 0=1, 0 cuts, 0 of 0 branchings"),
        (accept(0, 7), "0 cuts, 0 of 0 branchings, best 7"),
    ]
}

#[test]
fn a_single_component_is_optimal(rt: HostRuntime) -> Result<(), Fail> {
    let problem = one_of(&rt, 1, 7)?;
    let answer = answer_by_steps(&rt, &problem, 0, &history_of_one())?;
    assert_eq!(rt; answer, Some(Answer::Optimal { cost: 7 }));
    Ok(())
}

// A history of two components of cost 3: the side of variable 0 at 0 has the best, and the other
// side is pruned by its cost.
fn history_of_two() -> [(TableEntry, &'static str); 8] {
    [
        (
            take(0, 0, None),
            "0 held by 0 with 0 none, 0 cuts, 0 of 4 branchings",
        ),
        (
            branch(0, None, 0),
            "1 open 0=1, 2 open 0=0, 0 cuts, 1 of 4 branchings",
        ),
        (
            take(2, 0, None),
            "1 open 0=1, 2 held by 0 with 0 none 0=0, 0 cuts, 1 of 4 branchings",
        ),
        (
            offer(2, Some(B0)),
            "1 open 0=1, 2 pending 0=0 1=1, 0 cuts, 1 of 4 branchings",
        ),
        (
            study(2),
            "1 open 0=1, 2 studied by 0 0=0 1=1, 0 cuts, 1 of 4 branchings",
        ),
        (
            accept(2, 3),
            "1 open 0=1, 0 cuts, 1 of 4 branchings, best 3",
        ),
        (
            take(1, 0, Some(3)),
            "1 held by 0 with 0 3 0=1, 0 cuts, 1 of 4 branchings, best 3",
        ),
        (prune(1, RowRef::Cost), "0 cuts, 1 of 4 branchings, best 3"),
    ]
}

#[test]
fn one_of_two_components_is_optimal(rt: HostRuntime) -> Result<(), Fail> {
    let problem = one_of(&rt, 2, 3)?;
    let answer = answer_by_steps(&rt, &problem, 4, &history_of_two())?;
    assert_eq!(rt; answer, Some(Answer::Optimal { cost: 3 }));
    Ok(())
}

// A history of a sink whose bound is 0: both candidates are rejected, and the second is found by
// the first one's cut.
fn history_with_cuts() -> [(TableEntry, &'static str); 10] {
    [
        (
            take(0, 0, None),
            "0 held by 0 with 0 none, 0 cuts, 0 of 8 branchings",
        ),
        (
            branch(0, Some(B2), 0),
            "1 open 0=1 1=1, 2 open 0=0 1=1, 0 cuts, 1 of 8 branchings",
        ),
        (
            take(2, 0, None),
            "1 open 0=1 1=1, 2 held by 0 with 0 none 0=0 1=1, 0 cuts, 1 of 8 branchings",
        ),
        (
            offer(2, Some(B0)),
            "1 open 0=1 1=1, 2 pending 0=0 1=1 2=0, 0 cuts, 1 of 8 branchings",
        ),
        (
            study(2),
            "1 open 0=1 1=1, 2 studied by 0 0=0 1=1 2=0, 0 cuts, 1 of 8 branchings",
        ),
        (
            publish(2, 0, false, true),
            "1 open 0=1 1=1, 1 cuts, 1 of 8 branchings",
        ),
        (
            take(1, 1, None),
            "1 held by 0 with 1 none 0=1 1=1, 1 cuts, 1 of 8 branchings",
        ),
        (
            offer(1, Some(C0)),
            "1 pending 0=1 1=1 2=1, 1 cuts, 1 of 8 branchings",
        ),
        (
            study(1),
            "1 studied by 0 0=1 1=1 2=1, 1 cuts, 1 of 8 branchings",
        ),
        (publish(1, 0, true, false), "2 cuts, 1 of 8 branchings"),
    ]
}

#[test]
fn cuts_end_the_search(rt: HostRuntime) -> Result<(), Fail> {
    let problem = one_way(&rt, 0)?;
    let answer = answer_by_steps(&rt, &problem, 8, &history_with_cuts())?;
    assert_eq!(rt; answer, Some(Answer::Infeasible));
    Ok(())
}

// The history of two components where the limit is 1 and the other side is parked, and the entries
// by which a greater limit leads on.
fn history_past_a_limit() -> [TableEntry; 11] {
    [
        take(0, 0, None),
        branch(0, None, 0),
        take(2, 0, None),
        offer(2, Some(B0)),
        study(2),
        accept(2, 3),
        take(1, 0, Some(3)),
        park(1),
        reopen(4),
        take(1, 0, Some(3)),
        prune(1, RowRef::Cost),
    ]
}

// At the limit the best is no more than that; past it the search goes on to its end.
#[test]
fn a_spent_limit_is_answered_with_the_best(rt: HostRuntime) -> Result<(), Fail> {
    let problem = one_of(&rt, 2, 3)?;
    let entries = history_past_a_limit();
    let answer = answer_after(&rt, &problem, 1, &entries[..8], &[])?;
    assert_eq!(rt; answer, Some(Answer::NodeLimit { incumbent: Some(3) }));
    let answer = answer_after(&rt, &problem, 1, &entries, &[])?;
    assert_eq!(rt; answer, Some(Answer::Optimal { cost: 3 }));
    Ok(())
}

// A limit of 0, at which the root is parked.
#[test]
fn a_spent_limit_is_answered_with_none(rt: HostRuntime) -> Result<(), Fail> {
    let problem = one_of(&rt, 2, 3)?;
    let answer = answer_after(&rt, &problem, 0, &[take(0, 0, None), park(0)], &[])?;
    assert_eq!(rt; answer, Some(Answer::NodeLimit { incumbent: None }));
    Ok(())
}
