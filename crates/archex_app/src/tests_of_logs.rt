//! What no clause says of `check`: its printed texts, over files in memory.
use crate::tests::{SOLVE, Slow, X, logged_on, run_on, shelf_with, words_of};
use crate::tests_of_examples::{DATA_HALL, RADIO_MAST, SENSOR_BUS, SUBSTATION};
use crate::tests_of_requirements::{AIRCRAFT, bounded_buses};
use crate::{Status, run_plain};
use outside::{MemSink, Shelf};
use std::alloc::{AllocError, Global};
use std::test::Fail;

const CHECK: &[&str] = &["check", "x.toml", "x.log"];

// Two sources of cost 3, of which one is required.
const P: &[u8] = b"type = [{name = \"p\", role = \"source\", max = 2, cost = 3}]
pattern = [{kind = \"count\", type = \"p\", min = 1}]
";

// The log of a search for the best of them.
const LOG_OF_P: [&str; 12] = [
    "archex-log 1\n",
    "vars 2 0\n",
    "limit 4\n",
    "take 0 0 0 none\n",
    "branch 0 0 - 0\n",
    "take 0 2 0 none\n",
    "offer 0 2 b0\n",
    "study 0 2\n",
    "accept 0 2 3\n",
    "take 0 1 0 3\n",
    "prune 0 1 - u*1\n",
    "answer optimal 3 1 0\n",
];

// A source and a sink that it feeds, whose weight may be nothing.
const U: &[u8] = b"type = [
  {name = \"s\", role = \"source\", cost = 1, fail = 1000},
  {name = \"t\", role = \"sink\"},
]
link = [{from = \"s\", to = \"t\"}]
require = [{sink = \"t.1\", bound = 0}]
";

// The same network, whose weight may be as much as its source alone weighs.
const WEIGHED_U: &[u8] = b"type = [
  {name = \"s\", role = \"source\", cost = 1, fail = 1000},
  {name = \"t\", role = \"sink\"},
]
link = [{from = \"s\", to = \"t\"}]
require = [{sink = \"t.1\", bound = 1000000000000000}]
";

// The log of a search of U.
const LOG_OF_U: [&str; 14] = [
    "archex-log 1\n",
    "vars 2 1\n",
    "limit 8\n",
    "take 0 0 0 none\n",
    "branch 0 0 b2 0\n",
    "take 0 2 0 none\n",
    "offer 0 2 b0\n",
    "study 0 2\n",
    "publish 0 2 redundancy 0 - 0\n",
    "take 0 1 1 none\n",
    "offer 0 1 c0\n",
    "study 0 1\n",
    "publish 0 1 redundancy 0 0 -\n",
    "answer infeasible none 1 2\n",
];

// The text of a log in which the lines from the first to the last of these numbers, counted from 1,
// are another text.
fn changed(
    alloc: Global,
    log: &[&str],
    first: usize,
    last: usize,
    put: &[u8],
) -> Result<Vec<u8>, AllocError> {
    let mut text = Vec::new(alloc);
    for (k, line) in log.iter().enumerate() {
        if k + 1 == first {
            text.extend_from_slice(put)?;
        }
        if k + 1 < first || last < k + 1 {
            text.extend_from_slice(line.as_bytes())?;
        }
    }
    if log.len() < first {
        text.extend_from_slice(put)?;
    }
    Ok(text)
}

// What a run of `check` printed, and its status.
fn checked<F: Shelf>(alloc: Global, shelf: &mut F) -> Result<(Status, Vec<u8>), AllocError> {
    let words = words_of(alloc, CHECK)?;
    let mut sink = MemSink::new(alloc, 4096, &[])?;
    let status = run_plain(alloc, words.as_slice(), shelf, &mut sink);
    let printed = sink.bytes().to_vec(alloc)?;
    Ok((status, printed))
}

// The same of a library and a log, with these calls of the shelf failing.
fn checked_on(
    alloc: Global,
    library: &[u8],
    log: &[u8],
    failing_calls: &[u64],
) -> Result<(Status, Vec<u8>), AllocError> {
    let mut shelf = shelf_with(alloc, library, log, failing_calls)?;
    checked(alloc, &mut shelf)
}

// Changes to the log of P, and what is printed then.
const CHANGES_OF_P: [(usize, usize, &[u8], u8, &[u8]); 36] = [
    (13, 12, b"", 0, b"yes optimal 3\n"),
    (1, 12, b"", 8, b"no 1 End\n"),
    (2, 12, b"", 8, b"no 2 End\n"),
    (3, 12, b"", 8, b"no 3 End\n"),
    (4, 12, b"", 8, b"no 4 End\n"),
    (5, 12, b"", 8, b"no 5 End\n"),
    (6, 12, b"", 8, b"no 6 End\n"),
    (7, 12, b"", 8, b"no 7 End\n"),
    (8, 12, b"", 8, b"no 8 End\n"),
    (9, 12, b"", 8, b"no 9 End\n"),
    (10, 12, b"", 8, b"no 10 End\n"),
    (11, 12, b"", 8, b"no 11 End\n"),
    (12, 12, b"", 8, b"no 12 End\n"),
    (11, 11, b"prune 0 1 - b0*1\n", 8, b"no 11 Reason\n"),
    (11, 11, b"prune 0 1 - c0*1\n", 8, b"no 11 Row\n"),
    (11, 11, b"prune 0 1 - u*0\n", 8, b"no 11 Number\n"),
    (10, 10, b"take 0 1 0 2\n", 8, b"no 10 Bound\n"),
    (9, 9, b"accept 0 2 4\n", 8, b"no 9 Cost\n"),
    (7, 7, b"offer 0 2 -\n", 8, b"no 7 Full\n"),
    (7, 7, b"offer 1 2 b0\n", 8, b"no 7 Node\n"),
    (5, 5, b"branch 0 0 b0 0\n", 8, b"no 5 Step\n"),
    (5, 5, b"branch 0 0 - 2\n", 8, b"no 5 Free\n"),
    (12, 12, b"answer optimal 2 1 0\n", 8, b"no 12 Answer\n"),
    (10, 11, b"", 8, b"no 10 Answer\n"),
    (13, 12, b"answer optimal 3 1 0\n", 8, b"no 13 After\n"),
    (3, 3, b"limit 0\n", 8, b"no 5 Limit\n"),
    (11, 11, b"park 0 1\n", 8, b"no 11 Limit\n"),
    (1, 1, b"archex-log 2\n", 8, b"no 1 Form\n"),
    (2, 2, b"vars 3 0\n", 8, b"no 2 Header\n"),
    (3, 3, b"limit 100001\n", 8, b"no 3 Header\n"),
    (4, 4, b"take 64 0 0 none\n", 8, b"no 4 Worker\n"),
    (4, 4, b"take 00 0 0 none\n", 8, b"no 4 Number\n"),
    (4, 4, b"take 0 0 0 none\r\n", 8, b"no 4 Form\n"),
    (
        11,
        11,
        b"prune 0 1 - u*1000000000001\n",
        8,
        b"no 11 Number\n",
    ),
    (12, 12, b"answer optimal 3 1 0", 8, b"no 12 End\n"),
    (13, 12, b"x", 8, b"no 13 End\n"),
];

#[test]
fn logs_are_judged(rt: HostRuntime) -> Result<(), Fail> {
    let alloc = rt.alloc();
    for (first, last, put, status, text) in CHANGES_OF_P {
        let log = changed(alloc, &LOG_OF_P, first, last, put)?;
        let (ended, printed) = checked_on(alloc, P, &log, &[])?;
        assert_eq!(rt; ended, Status(status));
        assert_eq!(rt; printed.as_slice(), text);
    }
    Ok(())
}

// Whether `check` of a library and a log of these lines ends so and prints this.
fn says(
    alloc: Global,
    library: &[u8],
    lines: &[&str],
    status: u8,
    text: &[u8],
) -> Result<bool, AllocError> {
    let log = changed(alloc, lines, 99, 99, b"")?;
    let (ended, printed) = checked_on(alloc, library, &log, &[])?;
    Ok(ended == Status(status) && printed.as_slice() == text)
}

// A limit that was met, a library without an answer, and bounds that the log's cuts don't pass.
#[test]
fn other_answers_are_told(rt: HostRuntime) -> Result<(), Fail> {
    let alloc = rt.alloc();
    let mut met = LOG_OF_P;
    met[2] = "limit 1\n";
    met[10] = "park 0 1\n";
    met[11] = "answer nodelimit 3 1 0\n";
    let mut accepted = LOG_OF_U;
    accepted[12] = "accept 0 1 1\n";
    accepted[13] = "answer optimal 1 1 1\n";
    let mut late = LOG_OF_U;
    late[7] = "take 1 1 0 none\n";
    late[8] = LOG_OF_U[7];
    late[9] = LOG_OF_U[8];
    late[10] = "offer 1 1 c0\n";
    assert!(rt; says(alloc, P, &met, 0, b"yes nodelimit 3\n")?);
    assert!(rt; says(alloc, U, &LOG_OF_U, 0, b"yes infeasible\n")?);
    assert!(rt; says(alloc, WEIGHED_U, &LOG_OF_U, 8, b"no 13 Cut\n")?);
    assert!(rt; says(alloc, WEIGHED_U, &accepted, 0, b"yes optimal 1\n")?);
    assert!(rt; says(alloc, U, &late, 8, b"no 11 Row\n")?);
    Ok(())
}

// A line of 65536 bytes has no form, and a longer one is too long.
#[test]
fn long_lines_are_told_apart(rt: HostRuntime) -> Result<(), Fail> {
    let alloc = rt.alloc();
    for (size, text) in [
        (65536, b"no 4 Form\n".as_slice()),
        (65537, b"no 4 TooLong\n"),
    ] {
        let mut line = vec![in alloc; b'a'; size]?;
        line.push(b'\n')?;
        let log = changed(alloc, &LOG_OF_P, 4, 4, &line)?;
        let (ended, printed) = checked_on(alloc, P, &log, &[])?;
        assert_eq!(rt; ended, Status(8));
        assert_eq!(rt; printed.as_slice(), text);
    }
    Ok(())
}

// Read byte by byte, a log is judged alike.
#[test]
fn a_log_may_come_slowly(rt: HostRuntime) -> Result<(), Fail> {
    let alloc = rt.alloc();
    let log = changed(alloc, &LOG_OF_P, 13, 12, b"")?;
    let mut shelf = Slow {
        inner: shelf_with(alloc, P, &log, &[])?,
    };
    let (ended, printed) = checked(alloc, &mut shelf)?;
    assert_eq!(rt; ended, Status(0));
    assert_eq!(rt; printed.as_slice(), b"yes optimal 3\n".as_slice());
    Ok(())
}

// What is printed of the log that a search of one library leaves, checked against another.
fn checked_after(
    alloc: Global,
    library: &[u8],
    other: &[u8],
) -> Result<(Status, Vec<u8>), AllocError> {
    let (_solved, _report, log) = logged_on(alloc, SOLVE, library, &[])?;
    checked_on(alloc, other, log.as_slice(), &[])
}

// What a search leaves passes, and says what the search said.
#[test]
fn what_is_logged_passes(rt: HostRuntime) -> Result<(), Fail> {
    let rows: [(&[u8], &[u8]); 9] = [
        (b"", b"yes optimal 0\n"),
        (X, b"yes optimal 7\n"),
        (P, b"yes optimal 3\n"),
        (U, b"yes infeasible\n"),
        (AIRCRAFT, b"yes optimal 365\n"),
        (DATA_HALL, b"yes optimal 203\n"),
        (RADIO_MAST, b"yes optimal 318\n"),
        (SENSOR_BUS, b"yes optimal 158\n"),
        (SUBSTATION, b"yes optimal 350\n"),
    ];
    for (library, text) in rows {
        let (ended, printed) = checked_after(rt.alloc(), library, library)?;
        assert_eq!(rt; ended, Status(0));
        assert_eq!(rt; printed.as_slice(), text);
    }
    Ok(())
}

// The same of two buses under each of these bounds; but the log of one doesn't pass for a lower one,
// under which its best is too heavy.
#[test]
fn logs_pass_for_their_bounds(rt: HostRuntime) -> Result<(), Fail> {
    let alloc = rt.alloc();
    let rows: [(&str, &[u8]); 8] = [
        ("1100000000000000", b"yes optimal 130\n"),
        ("1099999999999999", b"yes optimal 160\n"),
        ("500000000000000", b"yes optimal 235\n"),
        ("50000000000000", b"yes optimal 260\n"),
        ("1100000000000", b"yes optimal 270\n"),
        ("1000000000000", b"yes infeasible\n"),
        ("900000000000", b"yes infeasible\n"),
        ("1000000000000000000", b"yes optimal 0\n"),
    ];
    for (bound, text) in rows {
        let library = bounded_buses(alloc, bound)?;
        let (ended, printed) = checked_after(alloc, library.as_bytes(), library.as_bytes())?;
        assert_eq!(rt; ended, Status(0));
        assert_eq!(rt; printed.as_slice(), text);
    }
    let library = bounded_buses(alloc, "500000000000000")?;
    let lower = bounded_buses(alloc, "50000000000000")?;
    let (ended, printed) = checked_after(alloc, library.as_bytes(), lower.as_bytes())?;
    assert_eq!(rt; ended, Status(8));
    assert!(rt; printed.as_slice().starts_with(b"no "));
    Ok(())
}

// The library is read and then the log: each read that fails ends the run, and nothing is printed. A
// library that is none is refused whatever the log is, and a library that is checked as its own log
// is none.
#[test]
fn each_failing_read_ends_the_check(rt: HostRuntime) -> Result<(), Fail> {
    let alloc = rt.alloc();
    let log = changed(alloc, &LOG_OF_P, 13, 12, b"")?;
    for call in 0..4 {
        let (ended, printed) = checked_on(alloc, P, &log, &[call])?;
        assert_eq!(rt; ended, Status(5));
        assert_eq!(rt; printed.len(), 0);
    }
    let (ended, printed) = checked_on(alloc, b"zz = 1", &log, &[])?;
    assert_eq!(rt; ended, Status(3));
    assert_eq!(rt;
        printed.as_slice(),
        b"refused library L3 UnknownKey library 0 zz\n".as_slice()
    );
    let (ended, printed) = run_on(alloc, &["check", "x.toml", "x.toml"], P, &[])?;
    assert_eq!(rt; ended, Status(8));
    assert_eq!(rt; printed.as_slice(), b"no 1 Form\n".as_slice());
    Ok(())
}
