// The first rule that an entry breaks, and that the state stays as it was.
ghost use Rattle.std.specs.Prelude.{◌≤◌};
ghost use Rattle.search_core.specs.declared.limits.TheConstants as limits;
ghost use Rattle.search_core.specs.Parts.{IsStateOf};

use crate::tests::entering::{answer_after, enter_all, expect_broken};
use crate::tests::entries::{
    B0, B1, B2, C0, TableEntry, accept, branch, offer, park, prune, publish, reopen, study, take,
};
use crate::tests::problems::{one_of, one_way};
use crate::{Answer, Rule, State, start};
use rows::{Problem, RowRef};
use std::process::Abort;
use std::test::Fail;

// The entries by which the best of two components is found, and the other side pruned.
fn entries_of_two() -> [TableEntry; 8] {
    [
        take(0, 0, None),
        branch(0, None, 0),
        take(2, 0, None),
        offer(2, Some(B0)),
        study(2),
        accept(2, 3),
        take(1, 0, Some(3)),
        prune(1, RowRef::Cost),
    ]
}

// What stands in place of an entry of these, by its number, and the rule that it breaks.
fn changes_of_two() -> [(usize, TableEntry, Rule); 10] {
    [
        (1, branch(0, Some(B0), 0), Rule::Step),
        (1, branch(0, None, 2), Rule::Free),
        (3, offer(2, None), Rule::Full),
        (3, branch(2, Some(B0), 1), Rule::Free),
        (3, offer(2, Some(B0)).by(1), Rule::Node),
        (5, accept(2, 4), Rule::Cost),
        (6, take(1, 0, Some(2)), Rule::Bound),
        (7, prune(1, B0), Rule::Reason),
        (7, prune(1, C0), Rule::Row),
        (7, park(1), Rule::Limit),
    ]
}

// Tries at one place of a history what may not stand there.
fn expect_broken_at(
    rt: &(impl Abort + AllocGlobal),
    state: &mut State,
    problem: &Problem,
    place: usize,
    changes: &[(usize, TableEntry, Rule)],
) -> Result<(), Fail>
    requires { IsStateOf problem.now state.old }
    ensures { IsStateOf problem.now state.new }
{
    for (at, entry, broken) in changes {
        if *at == place {
            expect_broken(rt, state, problem, &[(*entry, *broken)])?;
        }
    }
    Ok(())
}

// The answer after some entries from the start, where none of the changes may stand.
fn answer_beside(
    rt: &(impl Abort + AllocGlobal),
    problem: &Problem,
    limit: u32,
    entries: &[TableEntry],
    changes: &[(usize, TableEntry, Rule)],
) -> Result<Option<Answer>, Fail>
    requires { limit ≤ limits.BRANCHINGS }
{
    let mut state = start(rt.alloc(), problem, limit)?;
    for (place, entry) in entries.iter().enumerate() {
        expect_broken_at(rt, &mut state, problem, place, changes)?;
        enter_all(rt, &mut state, problem, &[*entry])?;
    }
    Ok(state.answer())
}

// The history of two components with one entry changed.
#[test]
fn a_changed_entry_is_refused(rt: HostRuntime) -> Result<(), Fail> {
    let problem = one_of(&rt, 2, 3)?;
    let answer = answer_beside(&rt, &problem, 4, &entries_of_two(), &changes_of_two())?;
    assert_eq!(rt; answer, Some(Answer::Optimal { cost: 3 }));
    Ok(())
}

// The entries that reject the candidate without the source, and study the one with it and accept it.
fn entries_at_the_source() -> [TableEntry; 10] {
    [
        take(0, 0, None),
        branch(0, Some(B2), 0),
        take(2, 0, None),
        offer(2, Some(B0)),
        study(2),
        publish(2, 0, false, true),
        take(1, 1, None),
        offer(1, Some(C0)),
        study(1),
        accept(1, 1),
    ]
}

// What breaks a rule before the last of these where the bound is below the source's product.
fn broken_above_the_bound() -> [(TableEntry, Rule); 3] {
    [
        (accept(1, 1), Rule::Weight),
        (publish(1, 1, true, false), Rule::Cut),
        (publish(1, 0, false, true), Rule::Refute),
    ]
}

// And where the bound equals it.
fn broken_at_the_bound() -> [(TableEntry, Rule); 2] {
    [
        (publish(1, 0, true, false), Rule::Cut),
        (accept(1, 2), Rule::Cost),
    ]
}

// A bound below the source's product: the candidate isn't admissible.
#[test]
fn a_weight_above_the_bound_is_told(rt: HostRuntime) -> Result<(), Fail> {
    let problem = one_way(&rt, 0)?;
    let entries = entries_at_the_source();
    let answer = answer_after(&rt, &problem, 8, &entries[..9], &broken_above_the_bound())?;
    assert_eq!(rt; answer, None);
    Ok(())
}

// A bound that equals the source's product: no cut is right for the candidate, which is the best.
#[test]
fn a_weight_at_the_bound_is_admitted(rt: HostRuntime) -> Result<(), Fail> {
    let problem = one_way(&rt, 1_000_000_000_000_000)?;
    let entries = entries_at_the_source();
    answer_after(&rt, &problem, 8, &entries[..9], &broken_at_the_bound())?;
    let answer = answer_after(&rt, &problem, 8, &entries, &[])?;
    assert_eq!(rt; answer, Some(Answer::Optimal { cost: 1 }));
    Ok(())
}

// Entries of two workers, the second of which takes its node before a cut is published.
fn entries_of_two_workers() -> [TableEntry; 7] {
    [
        take(0, 0, None),
        branch(0, Some(B2), 0),
        take(2, 0, None),
        offer(2, Some(B0)),
        take(1, 0, None).by(1),
        study(2),
        publish(2, 0, false, true),
    ]
}

// A worker that took its node before a cut was published doesn't know the cut.
#[test]
fn a_later_cut_is_unknown(rt: HostRuntime) -> Result<(), Fail> {
    let problem = one_way(&rt, 0)?;
    let broken = [
        (offer(1, Some(C0)).by(1), Rule::Row),
        (offer(1, Some(B0)), Rule::Node),
    ];
    let answer = answer_after(&rt, &problem, 8, &entries_of_two_workers(), &broken)?;
    assert_eq!(rt; answer, None);
    Ok(())
}

// What breaks a rule at the start, in the order of the rules.
fn broken_at_the_start() -> [(TableEntry, Rule); 5] {
    [
        (take(9, 1, Some(2)).by(64), Rule::Worker),
        (take(9, 1, Some(2)), Rule::Node),
        (study(0), Rule::Node),
        (take(0, 1, Some(2)), Rule::Cuts),
        (take(0, 0, Some(2)), Rule::Bound),
    ]
}

// What breaks a rule where worker 0 holds the root.
fn broken_at_a_held_node() -> [(TableEntry, Rule); 14] {
    [
        (offer(0, None).by(1), Rule::Node),
        (accept(0, 3), Rule::Node),
        (publish(0, 0, false, true), Rule::Node),
        (branch(0, Some(B1), 0), Rule::Row),
        (branch(0, Some(C0), 0), Rule::Row),
        (branch(0, Some(RowRef::Cost), 0), Rule::Row),
        (prune(0, C0), Rule::Row),
        (branch(0, Some(B0), 2), Rule::Step),
        (branch(0, None, 2), Rule::Free),
        (prune(0, B0), Rule::Reason),
        (offer(0, None), Rule::Full),
        (park(0), Rule::Limit),
        (reopen(1), Rule::Limit),
        (reopen(100_001), Rule::Limit),
    ]
}

// Entries that come to a limit of 2, and what breaks a rule there.
fn entries_to_the_limit() -> [TableEntry; 6] {
    [
        take(0, 0, None),
        branch(0, None, 0),
        take(2, 0, None),
        branch(2, None, 1),
        take(4, 0, None),
        take(1, 0, None),
    ]
}

fn broken_at_the_limit() -> [(TableEntry, Rule); 3] {
    [
        (branch(4, None, 1), Rule::Free),
        (branch(1, None, 1), Rule::Limit),
        (offer(4, None), Rule::Broken),
    ]
}

#[test]
fn each_state_has_its_rules(rt: HostRuntime) -> Result<(), Fail> {
    let problem = one_of(&rt, 2, 3)?;
    answer_after(&rt, &problem, 2, &[], &broken_at_the_start())?;
    answer_after(
        &rt,
        &problem,
        2,
        &[take(0, 0, None)],
        &broken_at_a_held_node(),
    )?;
    answer_after(
        &rt,
        &problem,
        2,
        &entries_to_the_limit(),
        &broken_at_the_limit(),
    )?;
    Ok(())
}
