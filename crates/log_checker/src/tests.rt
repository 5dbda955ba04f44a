// Logs of small libraries, and changes to them that break a rule.
mod logs;
mod problems;
mod texts;

use crate::tests::logs::{Change, PASSING_P, PASSING_U, expect, judged, said_after};
use crate::tests::problems::{one_of, one_way};
use crate::{Checker, No};
use arch_model::Role;
use search_core::{Answer, Rule};
use std::process::Abort;
use std::test::Fail;

// A library whose one component has to be there.
#[test]
fn a_log_without_a_branching_passes(rt: HostRuntime) -> Result<(), Fail> {
    let problem = one_of(&rt, Role::Middle, 1, 7)?;
    let lines = [
        "archex-log 1",
        "vars 1 0",
        "limit 0",
        "take 0 0 0 none",
        "offer 0 0 b0",
        "study 0 0",
        "accept 0 0 7",
        "answer optimal 7 0 0",
    ];
    let said = judged(&rt, &problem, &lines)?;
    assert_eq!(rt; said, Ok(Answer::Optimal { cost: 7 }));
    Ok(())
}

// One of two components, the cheaper of which is found first and prunes the other.
#[test]
fn a_log_with_a_prune_passes(rt: HostRuntime) -> Result<(), Fail> {
    let problem = one_of(&rt, Role::Source, 2, 3)?;
    let said = judged(&rt, &problem, &PASSING_P)?;
    assert_eq!(rt; said, Ok(Answer::Optimal { cost: 3 }));
    Ok(())
}

// Each change to one line of that log, and the first line that breaks a rule then.
const CHANGES_OF_P: [(usize, &str, u64, Rule); 22] = [
    (11, "prune 0 1 - b0*1", 11, Rule::Reason),
    (11, "prune 0 1 - c0*1", 11, Rule::Row),
    (11, "prune 0 1 - u*0", 11, Rule::Number),
    (10, "take 0 1 0 2", 10, Rule::Bound),
    (9, "accept 0 2 4", 9, Rule::Cost),
    (7, "offer 0 2 -", 7, Rule::Full),
    (7, "offer 1 2 b0", 7, Rule::Node),
    (5, "branch 0 0 b0 0", 5, Rule::Step),
    (5, "branch 0 0 - 2", 5, Rule::Free),
    (12, "answer optimal 2 1 0", 12, Rule::Answer),
    (3, "limit 0", 5, Rule::Limit),
    (11, "park 0 1", 11, Rule::Limit),
    (1, "archex-log 2", 1, Rule::Form),
    (1, "archex-log 1\r", 1, Rule::Form),
    (2, "vars 3 0", 2, Rule::Header),
    (3, "limit 100001", 3, Rule::Header),
    (4, "take 64 0 0 none", 4, Rule::Worker),
    (4, "take 00 0 0 none", 4, Rule::Number),
    (4, "take 0 0 0 none\r", 4, Rule::Form),
    (11, "prune 0 1 - u*1000000000001", 11, Rule::Number),
    (4, "limit 4", 4, Rule::Header),
    (12, "answer optimal 3 2 0", 12, Rule::Answer),
];

#[test]
fn a_changed_line_is_refused(rt: HostRuntime) -> Result<(), Fail> {
    let problem = one_of(&rt, Role::Source, 2, 3)?;
    for (place, line, number, rule) in CHANGES_OF_P {
        let change = Change::Put(place, line);
        expect(
            &rt,
            &problem,
            &PASSING_P,
            change,
            Err(No { line: number, rule }),
        )?;
    }
    Ok(())
}

// A log that is cut off lacks the line behind its last.
#[test]
fn a_log_that_is_cut_off_has_no_end(rt: HostRuntime) -> Result<(), Fail> {
    let problem = one_of(&rt, Role::Source, 2, 3)?;
    for whole in 0..12 {
        let no = No {
            line: whole as u64 + 1,
            rule: Rule::End,
        };
        expect(&rt, &problem, &PASSING_P, Change::CutTo(whole), Err(no))?;
    }
    Ok(())
}

// The search isn't over where its last entries are left out, and nothing follows the closing line.
#[test]
fn a_closing_line_stands_once_at_the_end(rt: HostRuntime) -> Result<(), Fail> {
    let problem = one_of(&rt, Role::Source, 2, 3)?;
    let early = Err(No {
        line: 10,
        rule: Rule::Answer,
    });
    expect(&rt, &problem, &PASSING_P, Change::Without(10, 11), early)?;
    let twice = Err(No {
        line: 13,
        rule: Rule::After,
    });
    expect(
        &rt,
        &problem,
        &PASSING_P,
        Change::Then(PASSING_P[11]),
        twice,
    )?;
    expect(&rt, &problem, &PASSING_P, Change::Then("limit 4"), twice)
}

// Where one branching is the limit, the node that is left is parked.
#[test]
fn a_log_that_met_its_limit_passes(rt: HostRuntime) -> Result<(), Fail> {
    let problem = one_of(&rt, Role::Source, 2, 3)?;
    let mut lines = PASSING_P;
    lines[2] = "limit 1";
    lines[10] = "park 0 1";
    lines[11] = "answer nodelimit 3 1 0";
    let said = judged(&rt, &problem, &lines)?;
    assert_eq!(rt; said, Ok(Answer::NodeLimit { incumbent: Some(3) }));
    Ok(())
}

// A log whose limit was met, and that goes on under a greater one.
#[test]
fn a_reopened_log_passes(rt: HostRuntime) -> Result<(), Fail> {
    let problem = one_of(&rt, Role::Source, 2, 3)?;
    let mut lines = PASSING_P;
    lines[2] = "limit 1";
    lines[10] = "park 0 1";
    lines[11] = "reopen 4";
    let ending = ["take 0 1 0 3", "prune 0 1 - u*1", "answer optimal 3 1 0"];
    let said = said_after(&rt, &problem, &lines, &ending)?;
    assert_eq!(rt; said, Ok(Answer::Optimal { cost: 3 }));
    Ok(())
}

// No sink of a library may weigh anything, so cuts leave nothing.
#[test]
fn a_log_with_cuts_passes(rt: HostRuntime) -> Result<(), Fail> {
    let problem = one_way(&rt, 0)?;
    let said = judged(&rt, &problem, &PASSING_U)?;
    assert_eq!(rt; said, Ok(Answer::Infeasible));
    Ok(())
}

// A bound that the product equals isn't passed: there is no cut, and the candidate is accepted.
#[test]
fn a_cut_of_an_equal_bound_is_refused(rt: HostRuntime) -> Result<(), Fail> {
    let problem = one_way(&rt, 1_000_000_000_000_000)?;
    let no = No {
        line: 13,
        rule: Rule::Cut,
    };
    let said = judged(&rt, &problem, &PASSING_U)?;
    assert_eq!(rt; said, Err(no));
    let mut lines = PASSING_U;
    lines[12] = "accept 0 1 1";
    lines[13] = "answer optimal 1 1 1";
    let said = judged(&rt, &problem, &lines)?;
    assert_eq!(rt; said, Ok(Answer::Optimal { cost: 1 }));
    Ok(())
}

// A cut that came after a node was taken isn't known there.
#[test]
fn a_later_cut_is_refused(rt: HostRuntime) -> Result<(), Fail> {
    let problem = one_way(&rt, 0)?;
    let mut lines = PASSING_U;
    lines[7] = "take 1 1 0 none";
    lines[8] = PASSING_U[7];
    lines[9] = PASSING_U[8];
    lines[10] = "offer 1 1 c0";
    let no = No {
        line: 11,
        rule: Rule::Row,
    };
    let said = judged(&rt, &problem, &lines)?;
    assert_eq!(rt; said, Err(no));
    Ok(())
}

// Feeds the header lines of that log and then a line of so many letters, and tells which rule it
// breaks.
fn rule_of_length(rt: &(impl Abort + AllocGlobal), bytes: usize) -> Result<Option<No>, Fail> {
    let problem = one_of(rt, Role::Source, 2, 3)?;
    let line = logs::letters(rt.alloc(), bytes)?;
    let mut checker = Checker::new(rt.alloc(), &problem)?;
    logs::refused_with(rt, &mut checker, &PASSING_P[..3], &line)
}

// A line of 65536 bytes is read, and has no form; a longer one isn't.
#[test]
fn a_longer_line_is_too_long(rt: HostRuntime) -> Result<(), Fail> {
    for (bytes, rule) in [(65536, Rule::Form), (65537, Rule::TooLong)] {
        let said = rule_of_length(&rt, bytes)?;
        assert_eq!(rt; said, Some(No { line: 4, rule }));
    }
    Ok(())
}

// A line that is refused changes nothing, so the right one may follow.
#[test]
fn a_refused_line_changes_nothing(rt: HostRuntime) -> Result<(), Fail> {
    let problem = one_of(&rt, Role::Source, 2, 3)?;
    let mut checker = Checker::new(rt.alloc(), &problem)?;
    for (k, line) in PASSING_P.iter().enumerate() {
        let rule = logs::broken(&rt, &mut checker, b"park 0 0")?;
        assert!(rt; rule.is_some());
        let end = checker.finish();
        let no = No {
            line: k as u64 + 1,
            rule: Rule::End,
        };
        assert_eq!(rt; end, Err(no));
        let rule = logs::broken(&rt, &mut checker, line.as_bytes())?;
        assert_eq!(rt; rule, None);
    }
    let end = checker.finish();
    assert_eq!(rt; end, Ok(Answer::Optimal { cost: 3 }));
    Ok(())
}
