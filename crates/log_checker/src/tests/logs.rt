// Feeding logs, and changed logs.
use crate::{CheckError, Checker, No};
use arch_model::Memory;
use rows::Problem;
use search_core::{Answer, Rule};
use std::alloc::Global;
use std::process::Abort;
use std::test::Fail;

// The log of a search for the best of two components of cost 3.
pub(crate) const PASSING_P: [&str; 12] = [
    "archex-log 1",
    "vars 2 0",
    "limit 4",
    "take 0 0 0 none",
    "branch 0 0 - 0",
    "take 0 2 0 none",
    "offer 0 2 b0",
    "study 0 2",
    "accept 0 2 3",
    "take 0 1 0 3",
    "prune 0 1 - u*1",
    "answer optimal 3 1 0",
];

// The log of a search over a source and a sink of which no weight is allowed.
pub(crate) const PASSING_U: [&str; 14] = [
    "archex-log 1",
    "vars 2 1",
    "limit 8",
    "take 0 0 0 none",
    "branch 0 0 b2 0",
    "take 0 2 0 none",
    "offer 0 2 b0",
    "study 0 2",
    "publish 0 2 redundancy 0 - 0",
    "take 0 1 1 none",
    "offer 0 1 c0",
    "study 0 1",
    "publish 0 1 redundancy 0 0 -",
    "answer infeasible none 1 2",
];

// A change to a log, whose lines are counted from 1.
#[derive(Clone, Copy)]
pub(crate) enum Change {
    // The line of this number is another one.
    Put(usize, &'static str),
    // Only the first so many lines are left.
    CutTo(usize),
    // The lines from the first to the second number are left out.
    Without(usize, usize),
    // One more line stands at the end.
    Then(&'static str),
}

// Feeds one line, and tells the rule that it breaks, or None.
pub(crate) fn broken(
    rt: &(impl Abort + AllocGlobal),
    checker: &mut Checker,
    line: &[u8],
) -> Result<Option<Rule>, Fail> {
    match checker.feed(line) {
        Ok(()) => Ok(None),
        Err(CheckError::No(no)) => Ok(Some(no.rule)),
        Err(CheckError::Memory) => panic!(rt; "no memory"),
    }
}

// Feeds some lines up to the first that breaks a rule.
fn refused(
    rt: &(impl Abort + AllocGlobal),
    checker: &mut Checker,
    lines: &[&str],
) -> Result<Option<No>, Fail> {
    for line in lines {
        match checker.feed(line.as_bytes()) {
            Ok(()) => {}
            Err(CheckError::No(no)) => return Ok(Some(no)),
            Err(CheckError::Memory) => panic!(rt; "no memory"),
        }
    }
    Ok(None)
}

// What a checker says of a log of these lines and some further ones.
pub(crate) fn said_after(
    rt: &(impl Abort + AllocGlobal),
    problem: &Problem,
    lines: &[&str],
    more: &[&str],
) -> Result<Result<Answer, No>, Fail> {
    let mut checker = Checker::new(rt.alloc(), problem)?;
    if let Some(no) = refused(rt, &mut checker, lines)? {
        return Ok(Err(no));
    }
    if let Some(no) = refused(rt, &mut checker, more)? {
        return Ok(Err(no));
    }
    Ok(checker.finish())
}

// What a checker says of a log of these lines.
pub(crate) fn judged(
    rt: &(impl Abort + AllocGlobal),
    problem: &Problem,
    lines: &[&str],
) -> Result<Result<Answer, No>, Fail> {
    said_after(rt, problem, lines, &[])
}

// Compares what a checker says of a changed log.
pub(crate) fn expect(
    rt: &(impl Abort + AllocGlobal),
    problem: &Problem,
    lines: &[&'static str; 12],
    change: Change,
    wanted: Result<Answer, No>,
) -> Result<(), Fail> {
    let said = match change {
        Change::Put(place, line) => {
            let mut changed = *lines;
            assert!(rt; 1 <= place && place <= 12);
            changed[place - 1] = line;
            judged(rt, problem, &changed)?
        }
        Change::CutTo(whole) => {
            assert!(rt; whole <= 12);
            judged(rt, problem, &lines[..whole])?
        }
        Change::Without(first, last) => {
            assert!(rt; 1 <= first && first <= last && last <= 12);
            said_after(rt, problem, &lines[..first - 1], &lines[last..])?
        }
        Change::Then(line) => said_after(rt, problem, lines, &[line])?,
    };
    assert_eq!(rt; said, wanted);
    Ok(())
}

// So many bytes, each the letter a.
pub(crate) fn letters(alloc: Global, count: usize) -> Result<Vec<u8>, Memory> {
    let mut bytes = Vec::new(alloc);
    for _ in 0..count {
        bytes.push(b'a')?;
    }
    Ok(bytes)
}

// Feeds some lines and then one more, and tells why a line is refused.
pub(crate) fn refused_with(
    rt: &(impl Abort + AllocGlobal),
    checker: &mut Checker,
    lines: &[&str],
    line: &[u8],
) -> Result<Option<No>, Fail> {
    if let Some(no) = refused(rt, checker, lines)? {
        return Ok(Some(no));
    }
    match checker.feed(line) {
        Ok(()) => Ok(None),
        Err(CheckError::No(no)) => Ok(Some(no)),
        Err(CheckError::Memory) => panic!(rt; "no memory"),
    }
}
