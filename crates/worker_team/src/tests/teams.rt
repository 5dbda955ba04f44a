// Searches of teams. Which worker gets which node differs from run to run, the cost doesn't.
use crate::solve_team;
use crate::tests::meeting::Meeting;
use crate::tests::problems::{aircraft, chains, one_alone, one_of_two, twelve_types};
use crate::tests::replaying::{Seen, replayed};
use arch_model::Memory;
use outside::{Bell, NoBell};
use rows::Problem;
use search_core::Answer;
use search_core::limits::BRANCHINGS;
use std::process::Abort;
use std::sync::Wait;
use std::test::Fail;
use std::thread::Threads;

// The answer of a team under a limit. Each entry of its history is a step from the start on, and
// leads to what the search says of itself.
fn answered<R: Threads + Wait + Sync + Abort + AllocGlobal, B: Bell + Sync>(
    rt: &R,
    problem: &Problem,
    limit: u32,
    team: (u32, u32),
    bell: &B,
) -> Result<Answer, Memory> {
    let (workers, analysts) = team;
    assert!(rt; limit <= BRANCHINGS);
    assert!(rt; 1 <= workers && workers <= 64 && analysts <= workers);
    let solved = solve_team(rt, rt.alloc(), problem, limit, workers, analysts, bell)?;
    let told = Seen {
        answer: Some(solved.answer),
        branchings: solved.branchings,
        cuts: solved.cuts,
        best: solved.best.map(|best| best.cost),
    };
    let seen = replayed(rt, problem, limit, solved.history.entries())?;
    assert_eq!(rt; seen, told);
    Ok(solved.answer)
}

// Eight workers on a problem that has work for two at most.
#[test]
fn more_workers_than_work(rt: HostRuntime) -> Result<(), Fail> {
    let problem = one_of_two(&rt)?;
    for analysts in 0..3 {
        let found = answered(&rt, &problem, 100_000, (8, analysts), &NoBell)?;
        assert_eq!(rt; found, Answer::Optimal { cost: 3 });
    }
    Ok(())
}

// Sixty-four workers on a problem whose root is its one node.
#[test]
fn sixty_four_workers_find_one_node(rt: HostRuntime) -> Result<(), Fail> {
    let problem = one_alone(&rt)?;
    let found = answered(&rt, &problem, 0, (64, 1), &NoBell)?;
    assert_eq!(rt; found, Answer::Optimal { cost: 7 });
    Ok(())
}

#[test]
fn two_workers_meet_small_limits(rt: HostRuntime) -> Result<(), Fail> {
    let problem = one_of_two(&rt)?;
    let table = [
        (0, Answer::NodeLimit { incumbent: None }),
        (1, Answer::Optimal { cost: 3 }),
        (2, Answer::Optimal { cost: 3 }),
    ];
    for (limit, answer) in table {
        let found = answered(&rt, &problem, limit, (2, 1), &NoBell)?;
        assert_eq!(rt; found, answer);
    }
    Ok(())
}

// One worker of a team finds what a worker alone finds.
#[test]
fn teams_of_any_size_find_the_same(rt: HostRuntime) -> Result<(), Fail> {
    let problem = chains(&rt, 1_100_000_000_000)?;
    for team in [
        (1, 0),
        (1, 1),
        (2, 0),
        (2, 1),
        (2, 2),
        (8, 0),
        (8, 1),
        (8, 2),
    ] {
        let found = answered(&rt, &problem, 2048, team, &NoBell)?;
        assert_eq!(rt; found, Answer::Optimal { cost: 270 });
    }
    Ok(())
}

#[test]
fn a_team_prunes_by_the_best(rt: HostRuntime) -> Result<(), Fail> {
    let problem = twelve_types(&rt)?;
    let found = answered(&rt, &problem, 100_000, (4, 1), &NoBell)?;
    assert_eq!(rt; found, Answer::Optimal { cost: 120 });
    Ok(())
}

#[test]
fn two_workers_solve_the_aircraft(rt: HostRuntime) -> Result<(), Fail> {
    let problem = aircraft(&rt)?;
    let found = answered(&rt, &problem, 100_000, (2, 1), &NoBell)?;
    assert_eq!(rt; found, Answer::Optimal { cost: 365 });
    Ok(())
}

// Two workers work at the same time: one is held at its bell until the other has work, too. The root
// always splits, so there is a node for each of them.
#[test]
fn two_workers_meet(rt: HostRuntime) -> Result<(), Fail> {
    let problem = aircraft(&rt)?;
    let meeting = Meeting::new();
    answered(&rt, &problem, 50, (2, 0), &meeting)?;
    assert!(rt; meeting.took_place());
    Ok(())
}
