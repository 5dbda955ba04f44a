// Logs that come in pieces.
use crate::tests::logs::{PASSING_P, PASSING_U, letters};
use crate::tests::problems::{one_of, one_way};
use crate::{CheckError, LOG_BYTES, No, TextChecker};
use arch_model::{Memory, Role};
use rows::Problem;
use search_core::{Answer, Rule};
use std::alloc::Global;
use std::process::Abort;
use std::test::Fail;

// The log of a search over one component that has to be there.
const PASSING_X: &[u8] =
    b"archex-log 1\nvars 1 0\nlimit 0\ntake 0 0 0 none\noffer 0 0 b0\nstudy 0 0\naccept 0 0 7\nanswer optimal 7 0 0\n";

// The text of some lines, each ended by these bytes.
fn text_of(alloc: Global, lines: &[&str], end: &[u8]) -> Result<Vec<u8>, Memory> {
    let mut text = Vec::new(alloc);
    for line in lines {
        text.extend_from_slice(line.as_bytes())?;
        text.extend_from_slice(end)?;
    }
    Ok(text)
}

// Feeds a text in pieces of so many bytes, and tells the first No.
fn refused(
    rt: &impl Abort,
    reader: &mut TextChecker,
    text: &[u8],
    size: usize,
) -> Result<Option<No>, Fail> {
    assert!(rt; 0 < size);
    for piece in text.chunks(size) {
        match reader.push(piece) {
            Ok(()) => {}
            Err(CheckError::No(no)) => return Ok(Some(no)),
            Err(CheckError::Memory) => panic!(rt; "no memory"),
        }
    }
    Ok(None)
}

// What a checker says of a text that comes in pieces of so many bytes.
fn judged(
    rt: &(impl Abort + AllocGlobal),
    problem: &Problem,
    text: &[u8],
    size: usize,
) -> Result<Result<Answer, No>, Fail> {
    let mut reader = TextChecker::new(rt.alloc(), problem)?;
    match refused(rt, &mut reader, text, size)? {
        Some(no) => Ok(Err(no)),
        None => Ok(reader.end()),
    }
}

// Compares what is said of a text, in pieces of one byte, of seven, and whole.
fn expect(
    rt: &(impl Abort + AllocGlobal),
    problem: &Problem,
    text: &[u8],
    wanted: Result<Answer, No>,
) -> Result<(), Fail> {
    for size in [1, 7, 100_000] {
        let said = judged(rt, problem, text, size)?;
        assert_eq!(rt; said, wanted);
    }
    Ok(())
}

#[test]
fn a_passing_log_passes_in_pieces(rt: HostRuntime) -> Result<(), Fail> {
    let alloc = rt.alloc();
    let problem = one_of(&rt, Role::Source, 2, 3)?;
    let text = text_of(alloc, &PASSING_P, b"\n")?;
    expect(&rt, &problem, &text, Ok(Answer::Optimal { cost: 3 }))?;
    let problem = one_way(&rt, 0)?;
    let text = text_of(alloc, &PASSING_U, b"\n")?;
    expect(&rt, &problem, &text, Ok(Answer::Infeasible))
}

// A log in two pieces, cut at each of its places, with an empty piece between them.
#[test]
fn a_log_may_be_cut_anywhere(rt: HostRuntime) -> Result<(), Fail> {
    let problem = one_of(&rt, Role::Middle, 1, 7)?;
    let text = PASSING_X;
    for at in 0..text.len() {
        let mut reader = TextChecker::new(rt.alloc(), &problem)?;
        for piece in [&text[..at], &[], &text[at..]] {
            assert!(rt; reader.push(piece).is_ok());
        }
        assert_eq!(rt; reader.end(), Ok(Answer::Optimal { cost: 7 }));
    }
    Ok(())
}

// Texts that stand behind the lines of that log, and their first broken line.
const ENDINGS_OF_X: [(usize, &[u8], u64, Rule); 12] = [
    (0, b"", 1, Rule::End),
    (0, b"archex-log 1", 1, Rule::End),
    (0, b"\n", 1, Rule::Form),
    (0, b"archex-log 1\r\n", 1, Rule::Form),
    (13, b"", 2, Rule::End),
    (13, b"vars 1 0", 2, Rule::End),
    (13, b"vars 2 0\n", 2, Rule::Header),
    (22, b"limit 100001\nlimit 0\n", 3, Rule::Header),
    (103, b"x", 9, Rule::End),
    (103, b"\n", 9, Rule::Form),
    (103, b"answer optimal 7 0 0\n", 9, Rule::After),
    (102, b"", 8, Rule::End),
];

#[test]
fn the_first_broken_line_is_told(rt: HostRuntime) -> Result<(), Fail> {
    let problem = one_of(&rt, Role::Middle, 1, 7)?;
    for (whole, ending, line, rule) in ENDINGS_OF_X {
        assert!(rt; whole <= PASSING_X.len());
        let mut text = Vec::new(rt.alloc());
        text.extend_from_slice(&PASSING_X[..whole])?;
        text.extend_from_slice(ending)?;
        expect(&rt, &problem, &text, Err(No { line, rule }))?;
    }
    Ok(())
}

// Every line of a log ends with CR and LF.
#[test]
fn carriage_returns_break_the_first_line(rt: HostRuntime) -> Result<(), Fail> {
    let problem = one_of(&rt, Role::Source, 2, 3)?;
    let text = text_of(rt.alloc(), &PASSING_P, b"\r\n")?;
    let no = No {
        line: 1,
        rule: Rule::Form,
    };
    expect(&rt, &problem, &text, Err(no))
}

// What is said of one line of so many bytes, with or without its line feed.
fn rule_of(
    rt: &(impl Abort + AllocGlobal),
    bytes: usize,
    ending: &[u8],
) -> Result<Result<Answer, No>, Fail> {
    let problem = one_of(rt, Role::Source, 2, 3)?;
    let mut text = letters(rt.alloc(), bytes)?;
    text.extend_from_slice(ending)?;
    judged(rt, &problem, &text, 4096)
}

#[test]
fn a_longer_line_is_too_long(rt: HostRuntime) -> Result<(), Fail> {
    for (bytes, ending, rule) in [
        (65536, b"\n".as_slice(), Rule::Form),
        (65537, b"\n", Rule::TooLong),
        (65536, b"", Rule::End),
        (65537, b"", Rule::TooLong),
        (80000, b"\nx\n", Rule::TooLong),
    ] {
        let said = rule_of(&rt, bytes, ending)?;
        assert_eq!(rt; said, Err(No { line: 1, rule }));
    }
    Ok(())
}

// A line that may yet be too large isn't called too long.
#[test]
fn a_long_line_is_not_judged_before_its_end(rt: HostRuntime) -> Result<(), Fail> {
    let problem = one_of(&rt, Role::Source, 2, 3)?;
    let text = letters(rt.alloc(), 80000)?;
    let mut reader = TextChecker::new(rt.alloc(), &problem)?;
    let said = refused(&rt, &mut reader, &text, 80000)?;
    assert_eq!(rt; said, None);
    reader.bytes = LOG_BYTES - 1;
    let said = refused(&rt, &mut reader, b"ab", 1)?;
    let no = No {
        line: 1,
        rule: Rule::TooLarge,
    };
    assert_eq!(rt; said, Some(no));
    Ok(())
}

// What is said of a first line that begins behind so many bytes of the longest log.
fn near_the_end(
    rt: &(impl Abort + AllocGlobal),
    left: u64,
    line: &[u8],
) -> Result<Option<Rule>, Fail> {
    assert!(rt; left <= 100);
    let problem = one_of(rt, Role::Source, 2, 3)?;
    let mut reader = TextChecker::new(rt.alloc(), &problem)?;
    reader.bytes = LOG_BYTES - left;
    match refused(rt, &mut reader, line, 5)? {
        Some(no) => Ok(Some(no.rule)),
        None => Ok(None),
    }
}

#[test]
fn a_line_past_the_longest_log_is_too_large(rt: HostRuntime) -> Result<(), Fail> {
    for (left, line, rule) in [
        (13, b"archex-log 1\n".as_slice(), None),
        (12, b"archex-log 1\n", Some(Rule::TooLarge)),
        (12, b"archex-log 1", None),
        (11, b"archex-log 1", Some(Rule::TooLarge)),
        (13, b"archex-log 2\n", Some(Rule::Form)),
        (12, b"archex-log 2\n", Some(Rule::TooLarge)),
    ] {
        let said = near_the_end(&rt, left, line)?;
        assert_eq!(rt; said, rule);
    }
    Ok(())
}
