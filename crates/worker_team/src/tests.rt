// Searches of small libraries by one worker, with their answers. Searches of libraries in files, and
// logs of their histories, are tested where files are read.
ghost use Rattle.std.specs.Prelude.{◌≤◌};
ghost use Rattle.search_core.specs.declared.limits.TheConstants as limits;

mod meeting;
mod problems;
mod replaying;
mod teams;

use crate::solve_alone;
use crate::tests::problems::{
    chains, one_alone, one_of_two, side_way, twelve_sinks, twelve_types, two_buses,
};
use crate::tests::replaying::{Seen, replayed};
use arch_model::Memory;
use rows::Problem;
use search_core::Answer;
use std::process::Abort;
use std::test::Fail;

// The answer of a search under a limit, and how many branchings and cuts there were. Each entry of
// its history is a step from the start on, and leads to what the search says of itself.
fn solved(
    rt: &(impl Abort + AllocGlobal),
    problem: &Problem,
    limit: u32,
) -> Result<(Answer, u32, u32), Memory>
    requires { limit ≤ limits.BRANCHINGS }
{
    let solved = solve_alone(rt.alloc(), problem, limit)?;
    let told = Seen {
        answer: Some(solved.answer),
        branchings: solved.branchings,
        cuts: solved.cuts,
        best: solved.best.map(|best| best.cost),
    };
    let seen = replayed(rt, problem, limit, solved.history.entries())?;
    assert_eq!(rt; seen, told);
    Ok((solved.answer, solved.branchings, solved.cuts))
}

// Each node that is open after the first candidate is dropped by the ascent.
#[test]
fn twelve_types_take_twelve_branchings(rt: HostRuntime) -> Result<(), Fail> {
    let problem = twelve_types(&rt)?;
    let found = solved(&rt, &problem, 200)?;
    assert_eq!(rt; found, (Answer::Optimal { cost: 120 }, 12, 0));
    Ok(())
}

// The answer for generators, buses and a load, whose weight is bounded.
fn answer_within(rt: &(impl Abort + AllocGlobal), bound: u64) -> Result<Answer, Memory> {
    let problem = chains(rt, bound)?;
    let (answer, _, _) = solved(rt, &problem, 2048)?;
    Ok(answer)
}

// A bound is met with equality; below it a second bus, a second generator and more edges come in
// one by one. Where all may be lost, the load needs no generator.
#[test]
fn bounds_decide_what_is_cheapest(rt: HostRuntime) -> Result<(), Fail> {
    let table = [
        (1_100_000_000_000_000, Answer::Optimal { cost: 130 }),
        (1_099_999_999_999_999, Answer::Optimal { cost: 160 }),
        (500_000_000_000_000, Answer::Optimal { cost: 235 }),
        (50_000_000_000_000, Answer::Optimal { cost: 260 }),
        (1_100_000_000_000, Answer::Optimal { cost: 270 }),
        (1_000_000_000_000, Answer::Infeasible),
        (900_000_000_000, Answer::Infeasible),
        (1_000_000_000_000_000_000, Answer::Optimal { cost: 0 }),
    ];
    for (bound, answer) in table {
        let found = answer_within(&rt, bound)?;
        assert_eq!(rt; found, answer);
    }
    Ok(())
}

// What is learned from all components together must not ask for more of them.
#[test]
fn less_can_weigh_less(rt: HostRuntime) -> Result<(), Fail> {
    let problem = side_way(&rt)?;
    let (answer, _, _) = solved(&rt, &problem, 512)?;
    assert_eq!(rt; answer, Answer::Optimal { cost: 10 });
    Ok(())
}

#[test]
fn no_branching_is_allowed(rt: HostRuntime) -> Result<(), Fail> {
    let problem = one_of_two(&rt)?;
    let none = solved(&rt, &problem, 0)?;
    assert_eq!(rt; none, (Answer::NodeLimit { incumbent: None }, 0, 0));
    Ok(())
}

// A node that needs no split is searched though the limit is spent.
#[test]
fn a_spent_limit_parks_no_more_than_it_must(rt: HostRuntime) -> Result<(), Fail> {
    let forced = solved(&rt, &one_alone(&rt)?, 0)?;
    assert_eq!(rt; forced, (Answer::Optimal { cost: 7 }, 0, 0));
    let one_split = solved(&rt, &one_of_two(&rt)?, 1)?;
    assert_eq!(rt; one_split, (Answer::Optimal { cost: 3 }, 1, 0));
    Ok(())
}

// Each of twelve sinks needs both sources. For a sink and a source, the architecture that lacks this
// one edge costs 43, so some cut rules it out: one that asks for this edge alone, since all else is
// there. So there are 24 cuts at least. Each was learned from a candidate of its own, in a node of
// its own, which takes 24 branchings at least.
#[test]
fn many_sinks_take_many_cuts(rt: HostRuntime) -> Result<(), Fail> {
    let (answer, branchings, cuts) = solved(&rt, &twelve_sinks(&rt)?, 100_000)?;
    assert_eq!(rt; answer, Answer::Optimal { cost: 44 });
    assert!(rt; branchings >= 24);
    assert!(rt; cuts >= 24);
    Ok(())
}

// Whichever edge is split first, a bus without it needs its two others. So the second branching
// leads to the first candidate, of cost 40; and with the first edge, three more edges might cost as
// little as 20 for all that a combination of rows can tell.
#[test]
fn a_limit_is_met_with_and_without_an_incumbent(rt: HostRuntime) -> Result<(), Fail> {
    let problem = two_buses(&rt)?;
    let table = [
        (1, Answer::NodeLimit { incumbent: None }),
        (
            2,
            Answer::NodeLimit {
                incumbent: Some(40),
            },
        ),
    ];
    for (limit, answer) in table {
        let (found, branchings, _) = solved(&rt, &problem, limit)?;
        assert_eq!(rt; (found, branchings), (answer, limit));
    }
    let (enough, _, _) = solved(&rt, &problem, 100)?;
    assert_eq!(rt; enough, Answer::Optimal { cost: 40 });
    Ok(())
}
