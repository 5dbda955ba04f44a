ghost use Rattle.arch_model.specs.Name.{IsTypeName};

use crate::{LINE_BYTES, LineError, LineFault, LogLine, closing, header, read_line, write_entry};
use arch_model::{Library, LinkRow, Memory, Name, Role, Template, TypeRow, is_library};
use binary_program::problem_of;
use redundancy_cut::Cut;
use rows::Problem;
use search_core::{Answer, Entry};
use std::alloc::Global;
use std::process::Abort;
use std::test::Fail;
use template::{expand, has_few_components};

// The lines of entries and the closing lines of logs of three small libraries, and of logs that
// differ from them, and lines with the greatest numbers and with longer lists.
const LINES: [&str; 46] = [
    "take 0 0 0 none",
    "offer 0 0 b0",
    "study 0 0",
    "accept 0 0 7",
    "answer optimal 7 0 0",
    "branch 0 0 - 0",
    "take 0 2 0 none",
    "offer 0 2 b0",
    "study 0 2",
    "accept 0 2 3",
    "take 0 1 0 3",
    "prune 0 1 - u*1",
    "answer optimal 3 1 0",
    "prune 0 1 - b0*1",
    "prune 0 1 - c0*1",
    "take 0 1 0 2",
    "accept 0 2 4",
    "offer 0 2 -",
    "offer 1 2 b0",
    "branch 0 0 b0 0",
    "branch 0 0 - 2",
    "answer optimal 2 1 0",
    "park 0 1",
    "answer nodelimit 3 1 0",
    "branch 0 0 b2 0",
    "publish 0 2 redundancy 0 - 0",
    "take 0 1 1 none",
    "offer 0 1 c0",
    "study 0 1",
    "publish 0 1 redundancy 0 0 -",
    "answer infeasible none 1 2",
    "accept 0 1 1",
    "answer optimal 1 1 1",
    "take 1 1 0 none",
    "offer 1 1 c0",
    "study 0 4294967295",
    "take 64 0 0 none",
    "answer nodelimit none 0 0",
    "reopen 4",
    "take 4294967295 4294967295 4294967295 9223372036854775807",
    "accept 1 2 9223372036854775807",
    "prune 0 1 b0,c12,u b4294967295*1000000000000,u*1,c0*2",
    "publish 3 7 redundancy 15 0,5,63 1,2,62",
    "publish 3 7 nogood 1 0,4,63",
    "publish 3 7 nogood 1 -",
    "answer nodelimit 9223372036854775807 4294967295 4294967295",
];

// What is written for the entry or the closing line that was read.
fn rewritten(alloc: Global, line: &[u8]) -> Result<Vec<u8>, Fail> {
    let mut out = Vec::new(alloc);
    match read_line(alloc, line) {
        Ok(LogLine::Entry(entry)) => write_entry(&entry, &mut out)?,
        Ok(LogLine::Closing(answer, branchings, cuts)) => {
            closing(&answer, branchings, cuts, &mut out)?
        }
        Ok(_) => {}
        Err(_) => {}
    }
    Ok(out)
}

// Compares a line with what is written for what is read of it.
fn expect_again(rt: &(impl Abort + AllocGlobal), line: &[u8]) -> Result<(), Fail> {
    let mut text = Vec::from_slice(rt.alloc(), line)?;
    text.push(b'\n')?;
    assert_eq!(rt; rewritten(rt.alloc(), line)?.as_slice(), text.as_slice());
    Ok(())
}

#[test]
fn lines_are_read_and_written_again(rt: HostRuntime) -> Result<(), Fail> {
    for line in LINES {
        expect_again(&rt, line.as_bytes())?;
    }
    Ok(())
}

// The requirement that a cut is about.
fn requirement_of(cut: &Cut) -> u32 {
    match cut {
        Cut::Redundancy { requirement, .. } => *requirement,
        Cut::NoGood { requirement, .. } => *requirement,
    }
}

// The worker and the node of an entry, and its cuts, variable, requirement, cost or limit, with 0
// for what it hasn't.
fn numbers_of(entry: &Entry) -> (u32, u32, u64) {
    match entry {
        Entry::Take {
            worker,
            node,
            cuts,
            ..
        } => (*worker, *node, u64::from(*cuts)),
        Entry::Branch {
            worker,
            node,
            var,
            ..
        } => (*worker, *node, u64::from(var.0)),
        Entry::Prune { worker, node, .. } => (*worker, *node, 0),
        Entry::Offer { worker, node, .. } => (*worker, *node, 0),
        Entry::Study { worker, node } => (*worker, *node, 0),
        Entry::Publish { worker, node, cut } => (*worker, *node, u64::from(requirement_of(cut))),
        Entry::Accept { worker, node, cost } => (*worker, *node, *cost),
        Entry::Park { worker, node } => (*worker, *node, 0),
        Entry::Reopen { limit } => (0, 0, u64::from(*limit)),
    }
}

// The numbers of an entry that was read.
fn entry_numbers(alloc: Global, line: &[u8]) -> Option<(u32, u32, u64)> {
    match read_line(alloc, line) {
        Ok(LogLine::Entry(entry)) => Some(numbers_of(&entry)),
        Ok(_) => None,
        Err(_) => None,
    }
}

// Lines of entries whose numbers all differ, and these numbers.
const NUMBERED: [(&str, u32, u32, u64); 10] = [
    ("take 3 7 2 35", 3, 7, 2),
    ("branch 3 7 b2,c0 10", 3, 7, 10),
    ("prune 3 7 - u*1", 3, 7, 0),
    ("offer 3 7 b0", 3, 7, 0),
    ("study 3 7", 3, 7, 0),
    ("publish 3 7 redundancy 15 0,5 1,2", 3, 7, 15),
    ("publish 3 7 nogood 1 0,4", 3, 7, 1),
    ("accept 3 7 40", 3, 7, 40),
    ("park 3 7", 3, 7, 0),
    ("reopen 12", 0, 0, 12),
];

#[test]
fn entries_say_their_numbers(rt: HostRuntime) {
    for (line, worker, node, other) in NUMBERED {
        assert_eq!(rt;
            entry_numbers(rt.alloc(), line.as_bytes()),
            Some((worker, node, other))
        );
    }
}

// The answer of a closing line that was read.
fn answer_of(alloc: Global, line: &[u8]) -> Option<(Answer, u32, u32)> {
    match read_line(alloc, line) {
        Ok(LogLine::Closing(answer, branchings, cuts)) => Some((answer, branchings, cuts)),
        Ok(_) => None,
        Err(_) => None,
    }
}

// Closing lines, and their answers.
const ANSWERS: [(&str, Answer); 4] = [
    ("answer optimal 7 6 2", Answer::Optimal { cost: 7 }),
    ("answer infeasible none 6 2", Answer::Infeasible),
    (
        "answer nodelimit none 6 2",
        Answer::NodeLimit { incumbent: None },
    ),
    (
        "answer nodelimit 5 6 2",
        Answer::NodeLimit { incumbent: Some(5) },
    ),
];

#[test]
fn closing_lines_say_their_answers(rt: HostRuntime) {
    for (line, answer) in ANSWERS {
        assert_eq!(rt;
            answer_of(rt.alloc(), line.as_bytes()),
            Some((answer, 6, 2))
        );
    }
}

// A header line with its numbers.
#[derive(Clone, Copy, Debug, PartialEq, Eq)]
enum Header {
    Version,
    Vars(u32, u32),
    Limit(u32),
}

// Header lines, and what they say.
const HEADERS: [(&str, Header); 12] = [
    ("archex-log 1", Header::Version),
    ("vars 1 0", Header::Vars(1, 0)),
    ("vars 2 0", Header::Vars(2, 0)),
    ("vars 2 1", Header::Vars(2, 1)),
    ("vars 3 0", Header::Vars(3, 0)),
    (
        "vars 4294967295 4294967295",
        Header::Vars(4294967295, 4294967295),
    ),
    ("limit 0", Header::Limit(0)),
    ("limit 1", Header::Limit(1)),
    ("limit 4", Header::Limit(4)),
    ("limit 8", Header::Limit(8)),
    ("limit 100001", Header::Limit(100001)),
    ("limit 4294967295", Header::Limit(4294967295)),
];

// The header line that was read.
fn header_of(alloc: Global, line: &[u8]) -> Option<Header> {
    match read_line(alloc, line) {
        Ok(LogLine::Version) => Some(Header::Version),
        Ok(LogLine::Vars(components, edges)) => Some(Header::Vars(components, edges)),
        Ok(LogLine::Limit(limit)) => Some(Header::Limit(limit)),
        Ok(_) => None,
        Err(_) => None,
    }
}

#[test]
fn header_lines_say_their_numbers(rt: HostRuntime) {
    for (line, header) in HEADERS {
        assert_eq!(rt; header_of(rt.alloc(), line.as_bytes()), Some(header));
    }
}

fn empty_problem(alloc: Global) -> Problem {
    let template = Template::new(Vec::new(alloc), Vec::new(alloc));
    let library = Library::new(
        Vec::new(alloc),
        Vec::new(alloc),
        template,
        Vec::new(alloc),
        Vec::new(alloc),
    );
    Problem::new(library, Vec::new(alloc))
}

#[test]
fn a_header_has_three_lines(rt: HostRuntime) -> Result<(), Fail> {
    let mut out = Vec::from_slice(rt.alloc(), b"before\n")?;
    header(&empty_problem(rt.alloc()), 200, &mut out)?;
    let text = b"before\narchex-log 1\nvars 0 0\nlimit 200\n";
    assert_eq!(rt; out.as_slice(), text.as_slice());
    Ok(())
}

// The problem of a library of types and links, which asks for nothing.
fn problem_with(
    rt: &(impl Abort + AllocGlobal),
    types: &[TypeRow],
    links: &[LinkRow],
) -> Result<Problem, Memory> {
    let alloc = rt.alloc();
    let types = types.to_vec(alloc)?;
    let links = links.to_vec(alloc)?;
    assert!(rt; types.len() <= 64);
    assert!(rt; has_few_components(&types));
    let template = expand(alloc, &types, &links)?;
    let patterns = Vec::new(alloc);
    let requirements = Vec::new(alloc);
    assert!(rt; is_library(&types, &links, &template, &patterns, &requirements));
    problem_of(
        alloc,
        Library::new(types, links, template, patterns, requirements),
    )
}

// A type with some instances.
fn row(name: &str, role: Role, max: u32) -> TypeRow
    requires { IsTypeName name.now }
{
    TypeRow {
        name: Name::new(name),
        role,
        max,
        cost: 1,
        supply: 0,
        demand: 0,
        fail: 0,
    }
}

// Compares a problem's header under a limit, and drops the problem.
fn expect_header(
    rt: &(impl Abort + AllocGlobal),
    problem: Problem,
    limit: u32,
    text: &str,
) -> Result<(), Fail> {
    let mut out = Vec::new(rt.alloc());
    header(&problem, limit, &mut out)?;
    assert_eq!(rt; out.as_slice(), text.as_bytes());
    Ok(())
}

#[test]
fn a_header_counts_components_and_edges(rt: HostRuntime) -> Result<(), Fail> {
    let one = problem_with(&rt, &[row("x", Role::Source, 1)], &[])?;
    expect_header(&rt, one, 0, "archex-log 1\nvars 1 0\nlimit 0\n")?;
    let two = problem_with(&rt, &[row("p", Role::Source, 2)], &[])?;
    expect_header(&rt, two, 4, "archex-log 1\nvars 2 0\nlimit 4\n")?;
    let types = [row("s", Role::Source, 1), row("t", Role::Sink, 1)];
    let links = [LinkRow {
        from: 0,
        to: 1,
        cost: 0,
        fail: 0,
    }];
    let linked = problem_with(&rt, &types, &links)?;
    expect_header(&rt, linked, 8, "archex-log 1\nvars 2 1\nlimit 8\n")?;
    Ok(())
}

// Lines that break a rule, by the first that each breaks.
const FAULTS: [(&str, LineFault); 72] = [
    ("", LineFault::Form),
    ("archex-log", LineFault::Form),
    ("archex-log 2", LineFault::Form),
    ("archex-log 3", LineFault::Form),
    ("archex-log 01", LineFault::Form),
    ("archex-log 1 ", LineFault::Form),
    ("archex-log 10", LineFault::Form),
    ("take", LineFault::Form),
    ("take 0 0 0", LineFault::Form),
    ("take 0 0 0 none\r", LineFault::Form),
    ("take  0 0 0 none", LineFault::Form),
    ("take 0 0 0 none ", LineFault::Form),
    (" take 0 0 0 none", LineFault::Form),
    ("Take 0 0 0 none", LineFault::Form),
    ("takes 0 0 0 none", LineFault::Form),
    ("tak 0 0 0 none", LineFault::Form),
    ("take\t0 0 0 none", LineFault::Form),
    ("take 0 0 0 nonex", LineFault::Form),
    ("take -1 0 0 none", LineFault::Form),
    ("take +1 0 0 none", LineFault::Form),
    ("take 0 00 0 nine", LineFault::Form),
    ("vars 1", LineFault::Form),
    ("vars 1 2 3", LineFault::Form),
    ("vars 01 2 3", LineFault::Form),
    ("offer 0 0 b", LineFault::Form),
    ("offer 0 0 d1", LineFault::Form),
    ("offer 0 0 b1,", LineFault::Form),
    ("offer 0 0 b1,,b2", LineFault::Form),
    ("offer 0 0 -,b1", LineFault::Form),
    ("offer 0 0 ", LineFault::Form),
    ("prune 0 0 - -", LineFault::Form),
    ("prune 0 0 - u", LineFault::Form),
    ("prune 0 0 - u*", LineFault::Form),
    ("prune 0 0 - u*1*2", LineFault::Form),
    ("publish 0 2 redundancy 0 -", LineFault::Form),
    ("publish 0 2 nogood 0 - 0", LineFault::Form),
    ("publish 0 2 growth 0 0", LineFault::Form),
    ("publish 0 2 redundancy 0 0,x -", LineFault::Form),
    ("answer optimal none 1 2", LineFault::Form),
    ("answer infeasible 1 1 2", LineFault::Form),
    ("answer nodelimit none 1", LineFault::Form),
    ("answer 1 2 3", LineFault::Form),
    ("reopen", LineFault::Form),
    ("limit", LineFault::Form),
    ("take 00 0 0 none", LineFault::Number),
    ("vars 4294967296 0", LineFault::Number),
    ("vars 2 00", LineFault::Number),
    ("limit 4294967296", LineFault::Number),
    ("take 0 0 0 007", LineFault::Number),
    ("take 4294967296 0 0 none", LineFault::Number),
    ("take 0 0 0 9223372036854775808", LineFault::Number),
    (
        "take 0 0 0 99999999999999999999999999999999",
        LineFault::Number,
    ),
    ("accept 0 0 9223372036854775808", LineFault::Number),
    ("prune 0 1 - u*0", LineFault::Number),
    ("prune 0 1 - u*1000000000001", LineFault::Number),
    ("prune 0 1 - u*01", LineFault::Number),
    ("prune 0 1 b4294967296 u*1", LineFault::Number),
    ("prune 0 1 b01,u u*1", LineFault::Number),
    ("offer 0 0 c00", LineFault::Number),
    ("publish 0 2 redundancy 0 64 -", LineFault::Number),
    ("publish 0 2 redundancy 0 - 64", LineFault::Number),
    ("publish 0 2 redundancy 0 3,1 64", LineFault::Number),
    ("publish 0 2 redundancy 4294967296 3,1 -", LineFault::Number),
    ("publish 0 2 nogood 0 1,02", LineFault::Number),
    ("answer optimal 01 0 0", LineFault::Number),
    ("answer nodelimit none 0 4294967296", LineFault::Number),
    (
        "answer nodelimit 9223372036854775808 0 0",
        LineFault::Number,
    ),
    ("reopen 4294967296", LineFault::Number),
    ("publish 0 2 redundancy 0 1,0 -", LineFault::Order),
    ("publish 0 2 redundancy 0 1,1 -", LineFault::Order),
    ("publish 0 2 redundancy 0 - 5,4,63", LineFault::Order),
    ("publish 0 2 nogood 0 3,3", LineFault::Order),
];

// What comes of a line.
#[derive(Clone, Copy, Debug, PartialEq, Eq)]
enum Outcome {
    Read,
    Breaks(LineFault),
    Memory,
}

// Whether a line is read, the rule that it breaks first, or want of memory.
fn outcome_of(alloc: Global, line: &[u8]) -> Outcome {
    match read_line(alloc, line) {
        Ok(_) => Outcome::Read,
        Err(LineError::Fault(fault)) => Outcome::Breaks(fault),
        Err(LineError::Memory) => Outcome::Memory,
    }
}

#[test]
fn the_first_broken_rule_is_told(rt: HostRuntime) {
    for (line, fault) in FAULTS {
        assert_eq!(rt;
            outcome_of(rt.alloc(), line.as_bytes()),
            Outcome::Breaks(fault)
        );
    }
}

// A piece of a line, and another one so many times.
fn repeated(alloc: Global, first: &[u8], again: &[u8], times: usize) -> Result<Vec<u8>, Fail> {
    let mut line = Vec::from_slice(alloc, first)?;
    for _ in 0..times {
        line.extend_from_slice(again)?;
    }
    Ok(line)
}

// Compares what comes of a line.
fn expect_outcome(rt: &(impl Abort + AllocGlobal), line: &[u8], outcome: Outcome) {
    assert_eq!(rt; outcome_of(rt.alloc(), line), outcome);
}

#[test]
fn a_line_may_have_so_many_bytes(rt: HostRuntime) -> Result<(), Fail> {
    let mut line = repeated(rt.alloc(), b"offer 0 10 b0", b",b0", 21841)?;
    assert_eq!(rt; line.len(), LINE_BYTES);
    expect_again(&rt, &line)?;
    line.push(b' ')?;
    expect_outcome(&rt, &line, Outcome::Breaks(LineFault::TooLong));
    Ok(())
}

#[test]
fn a_reason_may_have_so_many_pairs(rt: HostRuntime) -> Result<(), Fail> {
    let mut line = repeated(rt.alloc(), b"prune 0 1 - u*1", b",u*1", 63)?;
    expect_again(&rt, &line)?;
    line.extend_from_slice(b",u*1")?;
    expect_outcome(&rt, &line, Outcome::Breaks(LineFault::Form));
    line.extend_from_slice(b",u*00")?;
    expect_outcome(&rt, &line, Outcome::Breaks(LineFault::Form));
    Ok(())
}
