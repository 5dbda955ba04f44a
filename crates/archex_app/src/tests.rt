use crate::tests_of_probability::{B, CHAIN};
use crate::{Status, run_plain, run_surely};
use outside::{Failed, MemShelf, MemSink, Shelf, Sink, SureShelf, SureSink};
use std::alloc::{AllocError, Global};
use std::test::Fail;

pub(crate) const X: &[u8] = b"type = [{name = \"x\", role = \"middle\", cost = 7}]
pattern = [{kind = \"count\", type = \"x\", min = 1}]
";

const X_REPORT: &[u8] =
    b"status optimal\ncost 7\nkind,from,to\ncomponent,x.1,\nbranchings 0\ncuts 0\n";

const X_LOG: &[u8] = b"archex-log 1
vars 1 0
limit 0
take 0 0 0 none
offer 0 0 b0
study 0 0
accept 0 0 7
answer optimal 7 0 0
";

/// The words that ask to solve the library of `run_on`, with as many branchings as there may be.
pub(crate) const SOLVE: &[&str] = &["solve", "x.toml", "x.log", "100000", "1", "0"];

// The words of the stored log.
const SOLVE_X: &[&str] = &["solve", "x.toml", "x.log", "0", "1", "0"];

// How many bytes a log of these tests may have.
const LOG_ROOM: usize = 1 << 20;

// The words, each as a text of its own.
pub(crate) fn words_of(alloc: Global, words: &[&str]) -> Result<Vec<String>, AllocError> {
    let mut all = Vec::new(alloc);
    for word in words {
        all.push(word.to_string(alloc)?)?;
    }
    Ok(all)
}

// A shelf with a library under `x.toml` and a text under `x.log`, with these calls failing.
pub(crate) fn shelf_with(
    alloc: Global,
    library: &[u8],
    log: &[u8],
    failing_calls: &[u64],
) -> Result<MemShelf, AllocError> {
    let mut shelf = MemShelf::new(alloc, LOG_ROOM, failing_calls)?;
    shelf.put("x.toml", library)?;
    shelf.put("x.log", log)?;
    Ok(shelf)
}

// What a run of some words over a library printed, and its status, with these calls failing.
pub(crate) fn run_on(
    alloc: Global,
    words: &[&str],
    library: &[u8],
    failing_calls: &[u64],
) -> Result<(Status, Vec<u8>), AllocError> {
    let words = words_of(alloc, words)?;
    let mut shelf = shelf_with(alloc, library, b"", failing_calls)?;
    let mut sink = MemSink::new(alloc, 4096, &[])?;
    let status = run_plain(alloc, words.as_slice(), &mut shelf, &mut sink);
    let printed = sink.bytes().to_vec(alloc)?;
    Ok((status, printed))
}

/// What such a run left under `x.log`, after how it ended and what it printed.
pub(crate) fn logged_on(
    alloc: Global,
    words: &[&str],
    library: &[u8],
    failing_calls: &[u64],
) -> Result<(Status, Vec<u8>, Vec<u8>), AllocError> {
    let words = words_of(alloc, words)?;
    let mut shelf = shelf_with(alloc, library, b"", failing_calls)?;
    let mut sink = MemSink::new(alloc, 4096, &[])?;
    let status = run_plain(alloc, words.as_slice(), &mut shelf, &mut sink);
    let printed = sink.bytes().to_vec(alloc)?;
    let log = log_on(&shelf).to_vec(alloc)?;
    Ok((status, printed, log))
}

/// A report before its numbers of branchings and of cuts, which are its last two lines.
pub(crate) fn without_counts(report: &[u8]) -> &[u8] {
    for end in 0..report.len() {
        if report[end..].starts_with(b"branchings ") {
            return &report[..end];
        }
    }
    report
}

// Libraries with the status and the text that are due, without a branching: no component, one that is
// required, two of which three are required, and forty of which all are, where a search that looks
// at whole choices alone would take for ever.
#[test]
fn libraries_are_solved(rt: HostRuntime) -> Result<(), Fail> {
    let too_few = b"type = [{name = \"p\", role = \"source\", max = 2, cost = 3}]
pattern = [{kind = \"count\", type = \"p\", min = 3}]
";
    let forty = b"type = [{name = \"p\", role = \"source\", max = 40, cost = 1}]
pattern = [{kind = \"count\", type = \"p\", min = 40}]
";
    let rows: [(&[u8], Status, &[u8]); 3] = [
        (
            b"",
            Status(0),
            b"status optimal\ncost 0\nkind,from,to\nbranchings 0\ncuts 0\n",
        ),
        (X, Status(0), X_REPORT),
        (
            too_few,
            Status(1),
            b"status infeasible\nbranchings 0\ncuts 0\n",
        ),
    ];
    for (library, status, text) in rows {
        let (ended, printed) = run_on(rt.alloc(), SOLVE, library, &[])?;
        assert_eq!(rt; ended, status);
        assert_eq!(rt; printed.as_slice(), text);
    }
    // as many components as there may be, which cost nothing: any of them may be printed
    let most = b"type = [
  {name = \"a\", role = \"source\", max = 32},
  {name = \"b\", role = \"sink\", max = 32},
]";
    let fronts: [(&[u8], &[u8]); 2] = [
        (most, b"status optimal\ncost 0\nkind,from,to\n"),
        (
            forty,
            b"status optimal\ncost 40\nkind,from,to\ncomponent,p.1,\n",
        ),
    ];
    for (library, front) in fronts {
        let (ended, printed) = run_on(rt.alloc(), SOLVE, library, &[])?;
        assert_eq!(rt; ended, Status(0));
        assert!(rt; printed.as_slice().starts_with(front));
    }
    Ok(())
}

// Where several architectures are cheapest, any of them may be printed: one of two equal sources; a
// source and a sink with a permitted link, none of them required, of which the sink is free; one
// instance each of three types, with no edge forced; and a chain over one of two buses, a 2 + bus 1
// + two edges of 1, for a sink that must be fed.
#[test]
fn one_of_the_cheapest_is_printed(rt: HostRuntime) -> Result<(), Fail> {
    let pair = b"type = [{name = \"p\", role = \"source\", max = 2, cost = 3}]
pattern = [{kind = \"count\", type = \"p\", min = 1}]
";
    let link = b"type = [
  {name = \"s\", role = \"source\", cost = 1, fail = 1000},
  {name = \"t\", role = \"sink\"},
]
link = [{from = \"s\", to = \"t\"}]
";
    let chain = b"type = [
  {name = \"gen\", role = \"source\", max = 2, cost = 100, fail = 1000},
  {name = \"bus\", role = \"middle\", max = 2, cost = 20, fail = 100},
  {name = \"load\", role = \"sink\"},
]
link = [
  {from = \"gen\", to = \"bus\", cost = 5},
  {from = \"bus\", to = \"load\", cost = 5},
]
pattern = [
  {kind = \"count\", type = \"gen\", min = 1},
  {kind = \"count\", type = \"bus\", min = 1},
  {kind = \"count\", type = \"load\", min = 1},
]
";
    let fed = b"type = [
  {name = \"a\", role = \"source\", cost = 2, supply = 3},
  {name = \"b\", role = \"middle\", max = 2, cost = 1},
  {name = \"c\", role = \"sink\", demand = 5},
]
link = [{from = \"a\", to = \"b\", cost = 1}, {from = \"b\", to = \"c\", cost = 1}]
pattern = [
  {kind = \"count\", type = \"c\", min = 1},
  {kind = \"indegree\", type = \"c\", from = \"b\", min = 1},
  {kind = \"indegree\", type = \"b\", from = \"a\", min = 1},
]
";
    let rows: [(&[u8], &[u8], &[&[u8]]); 4] = [
        (pair, b"3", &[b"component,p.1,\n", b"component,p.2,\n"]),
        (link, b"0", &[b"", b"component,t.1,\n"]),
        (
            fed,
            b"5",
            &[
                b"component,a.1,\ncomponent,b.1,\ncomponent,c.1,\nedge,a.1,b.1\nedge,b.1,c.1\n",
                b"component,a.1,\ncomponent,b.2,\ncomponent,c.1,\nedge,a.1,b.2\nedge,b.2,c.1\n",
            ],
        ),
        (
            chain,
            b"120",
            &[
                b"component,gen.1,\ncomponent,bus.1,\ncomponent,load.1,\n",
                b"component,gen.1,\ncomponent,bus.2,\ncomponent,load.1,\n",
                b"component,gen.2,\ncomponent,bus.1,\ncomponent,load.1,\n",
                b"component,gen.2,\ncomponent,bus.2,\ncomponent,load.1,\n",
            ],
        ),
    ];
    for (library, cost, choices) in rows {
        let (ended, printed) = run_on(rt.alloc(), SOLVE, library, &[])?;
        assert_eq!(rt; ended, Status(0));
        let mut found = false;
        for choice in choices {
            let mut text = b"status optimal\ncost ".to_vec(rt.alloc())?;
            text.extend_from_slice(cost)?;
            text.extend_from_slice(b"\nkind,from,to\n")?;
            text.extend_from_slice(choice)?;
            found = found || without_counts(printed.as_slice()) == text.as_slice();
        }
        assert!(rt; found);
    }
    Ok(())
}

// A sink that must be fed over a bus costs 5. A cap of 5 lets that stand and one of 4 doesn't; the
// supply of 3 never meets the demand of 5, neither in total nor at the bus; a second bus costs 2
// more with its edge, and 1 more if it has to feed the sink as well.
#[test]
fn further_patterns_narrow_the_answer(rt: HostRuntime) -> Result<(), Fail> {
    let alloc = rt.alloc();
    let fed = b"type = [
  {name = \"a\", role = \"source\", cost = 2, supply = 3},
  {name = \"b\", role = \"middle\", max = 2, cost = 1},
  {name = \"c\", role = \"sink\", demand = 5},
]
link = [{from = \"a\", to = \"b\", cost = 1}, {from = \"b\", to = \"c\", cost = 1}]
[[pattern]]
kind = \"count\"
type = \"c\"
min = 1
[[pattern]]
kind = \"indegree\"
type = \"c\"
from = \"b\"
min = 1
[[pattern]]
kind = \"indegree\"
type = \"b\"
from = \"a\"
min = 1
";
    let two_ways = b"kind = \"in_needs_out\"
type = \"b\"
from = \"a\"
to = \"c\"
[[pattern]]
kind = \"outdegree\"
type = \"a\"
to = \"b\"
min = 2";
    let rows: [(&[u8], &[u8]); 9] = [
        (b"", b"status optimal\ncost 5\n"),
        (b"kind = \"cost_cap\"\nmax = 5", b"status optimal\ncost 5\n"),
        (b"kind = \"cost_cap\"\nmax = 4", b"status infeasible\n"),
        (b"kind = \"total_supply\"", b"status infeasible\n"),
        (
            b"kind = \"local_supply\"\ntype = \"b\"",
            b"status infeasible\n",
        ),
        (
            b"kind = \"forbid\"\nfrom = \"a.1\"\nto = \"b.2\"",
            b"status optimal\ncost 5\n",
        ),
        (
            b"kind = \"count\"\ntype = \"b\"\nmin = 2",
            b"status optimal\ncost 7\n",
        ),
        (
            b"kind = \"exclusive\"\ntype = \"c\"\na = \"b\"\nb = \"a\"",
            b"status optimal\ncost 5\n",
        ),
        (two_ways, b"status optimal\ncost 8\n"),
    ];
    for (further, front) in rows {
        let mut library = fed.to_vec(alloc)?;
        if !further.is_empty() {
            library.extend_from_slice(b"[[pattern]]\n")?;
            library.extend_from_slice(further)?;
        }
        let (ended, printed) = run_on(alloc, SOLVE, library.as_slice(), &[])?;
        assert!(rt; printed.as_slice().starts_with(front));
        let due = if front.starts_with(b"status optimal") {
            Status(0)
        } else {
            Status(1)
        };
        assert_eq!(rt; ended, due);
    }
    Ok(())
}

// A library is refused for its first fault, with its class, table, position (0 for the file) and
// key: one library for each class that a document without requirements can have; a table that there
// isn't; a class that is judged over the whole file before the next one; and a key of 60
// characters, of which the first 40 are printed, the line feed and the letter outside ASCII as `?`.
#[test]
fn the_first_fault_is_printed(rt: HostRuntime) -> Result<(), Fail> {
    let alloc = rt.alloc();
    let rows: [(&[u8], &[u8]); 14] = [
        (b"\xff", b"L2 NotToml library 0 -"),
        (b"zz = 1", b"L3 UnknownKey library 0 zz"),
        (b"type = [{}]", b"L4 MissingKey type 1 name"),
        (b"type = 1", b"L5 WrongKind library 0 type"),
        (b"type = [1]", b"L5 WrongKind type 1 -"),
        (
            b"type = [{name = \"a\", role = \"sink\", cost = 1.5}]",
            b"L5 WrongKind type 1 cost",
        ),
        (
            b"type = [{name = \"A\", role = \"sink\"}]",
            b"L6 BadName type 1 name",
        ),
        (
            b"type = [{name = \"a\", role = \"sink\"}]
link = [{from = \"a\", to = \"b\"}]",
            b"L8 UnknownName link 1 to",
        ),
        (
            b"type = [{name = \"a\", role = \"x\"}]",
            b"L9 Range type 1 role",
        ),
        (
            b"type = [{name = \"a\", role = \"sink\", fail = 1000001}]",
            b"L9 Range type 1 fail",
        ),
        (
            b"type = [{name = \"a\", role = \"sink\", max = 33}, {name = \"b\", role = \"sink\", max = 32}]",
            b"L10 TooMany library 0 type",
        ),
        (
            b"type = [{name = \"x\", role = \"middle\", cost = 7}]
pattern = [{kind = \"count\", type = \"x\", min = 1}]
require = [{sink = \"x.1\", bound = 0}]",
            b"L9 Range require 1 sink",
        ),
        (
            b"type = [{name = \"a\", role = \"source\"}, {name = \"b\", role = \"sink\", colour = 1}]
link = [{from = \"a\", to = \"b\"}, {from = \"a\", to = \"b\"}]",
            b"L3 UnknownKey type 2 colour",
        ),
        (
            b"type = [{name = \"a\", role = \"source\"}, {name = \"b\", role = \"sink\"}]
link = [{from = \"a\", to = \"b\"}, {from = \"a\", to = \"b\"}]",
            b"L7 Duplicate link 2 to",
        ),
    ];
    let refused_as = |library: &[u8], fault: &[u8]| -> Result<bool, AllocError> {
        let (ended, printed) = run_on(alloc, SOLVE, library, &[])?;
        let mut line = b"refused library ".to_vec(alloc)?;
        line.extend_from_slice(fault)?;
        line.push(b'\n')?;
        Ok(ended == Status(3) && printed.as_slice() == line.as_slice())
    };
    for (library, fault) in rows {
        assert!(rt; refused_as(library, fault)?);
    }
    let long_key = b"\"key\\n\xc3\xbcxxxxxxxxxxxxxxxxxxxxxxxxxxxxxxxxxxxxxxxxxxxxxxxxxxxxxxx\" = 1";
    let printed_key = b"L3 UnknownKey library 0 key??xxxxxxxxxxxxxxxxxxxxxxxxxxxxxxxxxxx";
    assert!(rt; refused_as(long_key, printed_key)?);
    Ok(())
}

// A file of one byte more than a library may have is refused, and so is a longer one.
#[test]
fn too_large_a_file_is_refused(rt: HostRuntime) -> Result<(), Fail> {
    for size in [1048577, 1048600] {
        let library = vec![in rt.alloc(); b'#'; size]?;
        let (ended, printed) = run_on(rt.alloc(), SOLVE, library.as_slice(), &[])?;
        assert_eq!(rt; ended, Status(3));
        assert_eq!(rt;
            printed.as_slice(),
            b"refused library L1 TooLarge library 0 -\n".as_slice()
        );
    }
    Ok(())
}

// Words that are no command are refused, whatever the shelf has: for the command first, then for a
// missing word, one past the last, then for the first word too many, then for the leftmost bad one:
// an empty one, a log that is the library, a number that has another text than its decimal or is out
// of its range, or more analysts than workers.
#[test]
fn other_words_are_refused(rt: HostRuntime) -> Result<(), Fail> {
    let rows: [(&[&str], &[u8]); 29] = [
        (&[], b"refused words 1\n"),
        (&["Solve", "a", "b", "5", "1", "0"], b"refused words 1\n"),
        (&["", "a", "b", "5", "1", "0"], b"refused words 1\n"),
        (&["--help"], b"refused words 1\n"),
        (&["solve"], b"refused words 2\n"),
        (&["solve", ""], b"refused words 3\n"),
        (&["solve", "a", "b"], b"refused words 4\n"),
        (&["solve", "a", "b", "5", "1"], b"refused words 6\n"),
        (
            &["solve", "", "b", "5", "1", "0", "0"],
            b"refused words 7\n",
        ),
        (&["solve", "", "", "5", "1", "0"], b"refused words 2\n"),
        (&["solve", "a", "", "x", "1", "0"], b"refused words 3\n"),
        (&["solve", "a", "a", "5", "1", "0"], b"refused words 3\n"),
        (
            &["solve", "a", "b", "100001", "1", "0"],
            b"refused words 4\n",
        ),
        (&["solve", "a", "b", "", "1", "0"], b"refused words 4\n"),
        (&["solve", "a", "b", "05", "1", "0"], b"refused words 4\n"),
        (&["solve", "a", "b", "+5", "1", "0"], b"refused words 4\n"),
        (&["solve", "a", "b", "-5", "1", "0"], b"refused words 4\n"),
        (&["solve", "a", "b", "5 ", "1", "0"], b"refused words 4\n"),
        (&["solve", "a", "b", "5", "0", "0"], b"refused words 5\n"),
        (&["solve", "a", "b", "5", "65", "0"], b"refused words 5\n"),
        (&["solve", "a", "b", "5", "many", ""], b"refused words 5\n"),
        (&["solve", "a", "b", "5", "2", "3"], b"refused words 6\n"),
        (&["solve", "a", "b", "5", "2", "00"], b"refused words 6\n"),
        (&["Rows", "a"], b"refused words 1\n"),
        (&["check"], b"refused words 2\n"),
        (&["check", "a"], b"refused words 3\n"),
        (&["check", "", "b", "c"], b"refused words 4\n"),
        (&["check", "", ""], b"refused words 2\n"),
        (&["check", "a", ""], b"refused words 3\n"),
    ];
    for (words, text) in rows {
        let (ended, printed) = run_on(rt.alloc(), words, X, &[])?;
        assert_eq!(rt; ended, Status(4));
        assert_eq!(rt; printed.as_slice(), text);
    }
    Ok(())
}

// The greatest numbers that the words may have are taken, and more workers than one do the run of
// one.
#[test]
fn numbers_are_taken_up_to_their_limits(rt: HostRuntime) -> Result<(), Fail> {
    let rows: [&[&str]; 4] = [
        &["solve", "x.toml", "x.log", "0", "1", "1"],
        &["solve", "x.toml", "x.log", "100000", "64", "64"],
        &["solve", "x.toml", "x.log", "10", "10", "0"],
        &["solve", "x.toml", "x.log", "99999", "2", "1"],
    ];
    for words in rows {
        let (ended, printed) = run_on(rt.alloc(), words, X, &[])?;
        assert_eq!(rt; ended, Status(0));
        assert_eq!(rt; printed.as_slice(), X_REPORT);
    }
    Ok(())
}

// Each call of the shelf failing in turn: two reads, of the bytes and of the end, which end the run
// with a read fault; a fresh start of the log, and its one piece, which end it with a write fault.
// Nothing is then printed. A name that wasn't put is a fault as well.
#[test]
fn each_failing_call_ends_the_run(rt: HostRuntime) -> Result<(), Fail> {
    let ends = [Status(5), Status(5), Status(6), Status(6)];
    for (call, end) in ends.iter().enumerate() {
        let (ended, printed) = run_on(rt.alloc(), SOLVE, X, &[call as u64])?;
        assert_eq!(rt; ended, *end);
        assert_eq!(rt; printed.len(), 0);
    }
    let (ended, printed) = run_on(rt.alloc(), SOLVE, X, &[4])?;
    assert_eq!(rt; ended, Status(0));
    assert_eq!(rt; printed.as_slice(), X_REPORT);
    let missing: [(&[&str], Status); 2] = [
        (&["solve", "y.toml", "x.log", "0", "1", "0"], Status(5)),
        (&["solve", "x.toml", "y.log", "0", "1", "0"], Status(6)),
    ];
    for (words, end) in missing {
        let (ended, printed) = run_on(rt.alloc(), words, X, &[])?;
        assert_eq!(rt; ended, end);
        assert_eq!(rt; printed.len(), 0);
    }
    Ok(())
}

// A shelf and a sink that move one byte a call.
#[derive(Drop)]
pub(crate) struct Slow<T> {
    pub(crate) inner: T,
}

impl<F: Shelf> Shelf for Slow<F> {
    ghost told = { λ s name. F.told s.inner name };

    ghost read_faults = { λ s name. F.read_faults s.inner name };

    ghost write_faults = { λ s name. F.write_faults s.inner name };

    fn read_at(&mut self, name: &str, place: u64, into: &mut [u8]) -> Result<usize, Failed> {
        let end = into.len().min(1);
        self.inner.read_at(name, place, &mut into[..end])
    }

    fn fresh(&mut self, name: &str) -> Result<(), Failed> {
        self.inner.fresh(name)
    }

    fn append(&mut self, name: &str, piece: &[u8]) -> Result<usize, Failed> {
        self.inner.append(name, &piece[..1])
    }
}

impl<O: Sink> Sink for Slow<O> {
    ghost told = { λ s. O.told s.inner };

    ghost faults = { λ s. O.faults s.inner };

    fn write(&mut self, piece: &[u8]) -> Result<usize, Failed> {
        self.inner.write(&piece[..1])
    }
}

// What stands under `x.log`, whatever a library's run left there.
fn log_on<'a>(shelf: &'a MemShelf) -> &'a [u8] {
    shelf.file("x.log").unwrap_or(b"")
}

// Byte by byte the same is read, logged and printed. Each write failing in turn leaves what was
// written before it.
#[test]
fn each_failing_write_cuts_the_report(rt: HostRuntime) -> Result<(), Fail> {
    let alloc = rt.alloc();
    let words = words_of(alloc, SOLVE_X)?;
    let whole = X_REPORT.len();
    for call in 0..=whole {
        let mut shelf = Slow {
            inner: shelf_with(alloc, X, b"", &[])?,
        };
        let mut sink = Slow {
            inner: MemSink::new(alloc, 4096, &[call as u64])?,
        };
        let status = run_plain(alloc, words.as_slice(), &mut shelf, &mut sink);
        let wanted = if call < whole { Status(6) } else { Status(0) };
        assert_eq!(rt; status, wanted);
        assert_eq!(rt; sink.inner.bytes(), &X_REPORT[..call]);
        assert_eq!(rt; log_on(&shelf.inner), X_LOG);
    }
    Ok(())
}

// What stands under the log's name after a run over X, where a longer text stood there before, with
// one call failing.
fn log_left(alloc: Global, failing: u64) -> Result<(Status, Vec<u8>), AllocError> {
    let words = words_of(alloc, SOLVE_X)?;
    let mut shelf = Slow {
        inner: shelf_with(alloc, X, OLD_LOG, &[failing])?,
    };
    let mut sink = MemSink::new(alloc, 4096, &[])?;
    let status = run_plain(alloc, words.as_slice(), &mut shelf, &mut sink);
    let log = log_on(&shelf.inner).to_vec(alloc)?;
    Ok((status, log))
}

// Longer than the log of X.
const OLD_LOG: &[u8] = b"This is no log of a search.
It is what stood there before, and it has more bytes than the log that takes its place:
a run that comes to an answer leaves none of them, and one whose log can't be begun leaves all.
";

// The log of X to the letter, which replaces what stood there; and with each of its writes failing,
// what stood there, or its front.
#[test]
fn the_log_is_written_whole(rt: HostRuntime) -> Result<(), Fail> {
    let alloc = rt.alloc();
    let reads = X.len() as u64 + 1;
    let (ended, log) = log_left(alloc, reads)?;
    assert_eq!(rt; ended, Status(6));
    assert_eq!(rt; log.as_slice(), OLD_LOG);
    for done in 0..=X_LOG.len() {
        let (ended, log) = log_left(alloc, reads + 1 + done as u64)?;
        let wanted = if done < X_LOG.len() {
            Status(6)
        } else {
            Status(0)
        };
        assert_eq!(rt; ended, wanted);
        assert_eq!(rt; log.as_slice(), &X_LOG[..done]);
    }
    Ok(())
}

// How a run ends over a shelf and a sink that never fail, where `l` is a library and `a` an
// architecture of it.
fn ended_surely(alloc: Global, words: &[&str]) -> Result<Status, AllocError> {
    let words = words_of(alloc, words)?;
    let mut shelf = SureShelf::new(alloc);
    shelf.put("l", B)?;
    shelf.put("a", CHAIN)?;
    let status = run_surely(alloc, words.as_slice(), &mut shelf, &mut SureSink);
    Ok(status)
}

// A name that wasn't put has no bytes, so it is no architecture and no log, and a library of nothing.
#[test]
fn nothing_fails_where_nothing_can(rt: HostRuntime) -> Result<(), Fail> {
    let rows: [(&[&str], u8); 14] = [
        (&["solve", "l", "g", "100000", "1", "0"], 0),
        (&["check", "l", "g"], 8),
        (&["weigh", "l", "a"], 0),
        (&["weigh", "l", "g"], 9),
        (&["cuts", "l", "a", "load.1"], 0),
        (&["cuts", "l", "a", "bus.1"], 4),
        (&["probability", "l", "a", "load.1"], 0),
        (&["probability", "l", "l", "load.1"], 9),
        (&["template", "l"], 0),
        (&["template", "a"], 3),
        (&["rows", "l"], 0),
        (&["rows", "g"], 0),
        (&["generate", "0", "1", "f", "g"], 0),
        (&[], 4),
    ];
    for (words, ended) in rows {
        assert_eq!(rt; ended_surely(rt.alloc(), words)?, Status(ended));
    }
    Ok(())
}
