// Searches that end at their limit of branchings, how many branchings searches take, and their logs.
use crate::Status;
use crate::tests::{logged_on, run_on, without_counts};
use crate::tests_of_examples::DATA_HALL;
use std::alloc::{AllocError, Global};
use std::test::Fail;

// Two generators, two buses and a load for which one generator alone is too little.
const TWO_CHAINS: &[u8] = b"type = [
  {name = \"gen\", role = \"source\", max = 2, cost = 100, fail = 1000},
  {name = \"bus\", role = \"middle\", max = 2, cost = 20, fail = 100},
  {name = \"load\", role = \"sink\"},
]
link = [
  {from = \"gen\", to = \"bus\", cost = 5},
  {from = \"bus\", to = \"load\", cost = 5},
]
require = [{sink = \"load.1\", bound = 500000000000000}]
";

// Twelve pairs of components of cost 10, of which one each has to be present.
const TWELVE_PAIRS: &[u8] = b"type = [
  {name = \"a\", role = \"source\", max = 2, cost = 10}, {name = \"b\", role = \"source\", max = 2, cost = 10},
  {name = \"c\", role = \"source\", max = 2, cost = 10}, {name = \"d\", role = \"source\", max = 2, cost = 10},
  {name = \"e\", role = \"source\", max = 2, cost = 10}, {name = \"f\", role = \"source\", max = 2, cost = 10},
  {name = \"g\", role = \"source\", max = 2, cost = 10}, {name = \"h\", role = \"source\", max = 2, cost = 10},
  {name = \"i\", role = \"source\", max = 2, cost = 10}, {name = \"j\", role = \"source\", max = 2, cost = 10},
  {name = \"k\", role = \"source\", max = 2, cost = 10}, {name = \"l\", role = \"source\", max = 2, cost = 10},
]
pattern = [
  {kind = \"count\", type = \"a\", min = 1}, {kind = \"count\", type = \"b\", min = 1},
  {kind = \"count\", type = \"c\", min = 1}, {kind = \"count\", type = \"d\", min = 1},
  {kind = \"count\", type = \"e\", min = 1}, {kind = \"count\", type = \"f\", min = 1},
  {kind = \"count\", type = \"g\", min = 1}, {kind = \"count\", type = \"h\", min = 1},
  {kind = \"count\", type = \"i\", min = 1}, {kind = \"count\", type = \"j\", min = 1},
  {kind = \"count\", type = \"k\", min = 1}, {kind = \"count\", type = \"l\", min = 1},
]
";

// Two sources of cost 10, and a sink that is asked for and needs a free edge from one of them.
const FED: &[u8] = b"type = [
  {name = \"s\", role = \"source\", max = 2, cost = 10},
  {name = \"t\", role = \"sink\"},
]
link = [{from = \"s\", to = \"t\"}]
pattern = [
  {kind = \"indegree\", type = \"t\", from = \"s\", min = 1},
  {kind = \"count\", type = \"t\", min = 1},
]
";

// A data hall as the README's, but that a pattern asks for both UPS units at each rack: the first
// architecture that is found is the cheapest.
const HALL_ON_BOTH_UPS: &[u8] = b"type = [
  {name = \"feed_a\", role = \"source\", cost = 40, supply = 80, fail = 700},
  {name = \"feed_b\", role = \"source\", cost = 40, supply = 80, fail = 700},
  {name = \"diesel\", role = \"source\", cost = 65, supply = 100, fail = 20000},
  {name = \"ups\", role = \"middle\", max = 2, cost = 30, fail = 150},
  {name = \"rack\", role = \"sink\", max = 2, cost = 5, demand = 60},
]
link = [
  {from = \"feed_a\", to = \"ups\", cost = 3},
  {from = \"feed_b\", to = \"ups\", cost = 3},
  {from = \"diesel\", to = \"ups\", cost = 7},
  {from = \"ups\", to = \"rack\", cost = 2},
]
pattern = [
  {kind = \"count\", type = \"rack\", min = 2},
  {kind = \"indegree\", type = \"rack\", from = \"ups\", min = 2},
  {kind = \"indegree\", type = \"ups\", from = \"diesel\", min = 1},
  {kind = \"exclusive\", type = \"ups\", a = \"feed_a\", b = \"feed_b\"},
  {kind = \"in_needs_out\", type = \"ups\", from = \"diesel\", to = \"rack\"},
  {kind = \"implies\", a = \"feed_a\", b = \"diesel\"},
  {kind = \"forbid\", from = \"feed_a.1\", to = \"ups.2\"},
  {kind = \"local_supply\", type = \"ups\"},
]
require = [
  {sink = \"rack.1\", bound = 20000000000000},
  {sink = \"rack.2\", bound = 20000000000000},
]
";

// Twelve pairs are bought with twelve branchings: every node that is still open after the first
// candidate is pruned. For the others nothing is promised: their numbers, which docs/MAP.md tells of,
// are those of today's choice of the variable to branch on.
#[test]
fn bounds_save_branchings(rt: HostRuntime) -> Result<(), Fail> {
    let limited = &["solve", "x.toml", "x.log", "200", "1", "0"];
    let rows: [(&[u8], &[u8], &[u8]); 4] = [
        (
            TWELVE_PAIRS,
            b"status optimal\ncost 120\n",
            b"branchings 12\ncuts 0\n",
        ),
        (FED, b"status optimal\ncost 10\n", b"branchings 1\ncuts 0\n"),
        (
            HALL_ON_BOTH_UPS,
            b"status optimal\n",
            b"branchings 1\ncuts 0\n",
        ),
        (
            DATA_HALL,
            b"status optimal\ncost 203\n",
            b"branchings 12\ncuts 5\n",
        ),
    ];
    for (library, front, end) in rows {
        let (ended, printed) = run_on(rt.alloc(), limited, library, &[])?;
        assert_eq!(rt; ended, Status(0));
        assert!(rt; printed.as_slice().starts_with(front));
        assert!(rt; printed.as_slice().ends_with(end));
    }
    Ok(())
}

// What a run over two chains under a limit of branchings printed, and its status.
fn limited(alloc: Global, limit: u32) -> Result<(Status, Vec<u8>), AllocError> {
    let limit = limit.to_string(alloc)?;
    let words = &["solve", "x.toml", "x.log", limit.as_str(), "1", "0"];
    run_on(alloc, words, TWO_CHAINS, &[])
}

// Whether a report of a spent limit has a best, whose weight is within the bound.
fn has_incumbent(report: &[u8]) -> bool {
    report.starts_with(b"status nodelimit\ncost ")
        && without_counts(report).ends_with(b" of 500000000000000\n")
}

// Whether a report of a spent limit says that there is no best.
fn has_none(report: &[u8]) -> bool {
    without_counts(report) == b"status nodelimit\nincumbent none\n".as_slice()
}

// The last two lines of a report, its numbers of branchings and of cuts.
fn counts_of(report: &[u8]) -> &[u8] {
    for start in 0..report.len() {
        if report[start..].starts_with(b"branchings ") {
            return &report[start..];
        }
    }
    b""
}

// Whether a report says that so many branchings were made.
fn counts(alloc: Global, report: &[u8], branchings: u32) -> Result<bool, AllocError> {
    let mut line = String::new(alloc);
    write!(line, "branchings {branchings}\n")?;
    Ok(counts_of(report).starts_with(line.as_bytes()))
}

// Where the limit of branchings is spent before the search is over, the report has the best until
// then, or says that there is none, and all of the limit was made. Some limit is spent with a best.
#[test]
fn a_limit_ends_the_search(rt: HostRuntime) -> Result<(), Fail> {
    let mut with_best = false;
    for limit in 0..12 {
        let (ended, printed) = limited(rt.alloc(), limit)?;
        let report = printed.as_slice();
        if ended == Status(2) {
            assert!(rt; has_none(report) || has_incumbent(report));
            assert!(rt; counts(rt.alloc(), report, limit)?);
            with_best = with_best || has_incumbent(report);
        } else {
            assert_eq!(rt; ended, Status(0));
            assert!(rt; report.starts_with(b"status optimal\ncost 235\n"));
        }
    }
    assert!(rt; with_best);
    let (ended, printed) = limited(rt.alloc(), 0)?;
    assert_eq!(rt; ended, Status(2));
    let none = b"status nodelimit\nincumbent none\nbranchings 0\ncuts 0\n";
    assert_eq!(rt; printed.as_slice(), none.as_slice());
    Ok(())
}

// Thirty-one sources of supply 2 and cost 2, of which a demand of 31 asks for sixteen and a cap of 31
// lets fifteen pass. Half a source more would do, so nothing is refuted before fifteen sources are
// fixed alike, whatever is branched on.
const HALF_A_SOURCE_SHORT: &[u8] = b"type = [
  {name = \"s\", role = \"source\", max = 31, cost = 2, supply = 2},
  {name = \"t\", role = \"sink\", demand = 31},
]
pattern = [
  {kind = \"count\", type = \"t\", min = 1},
  {kind = \"total_supply\"},
  {kind = \"cost_cap\", max = 31},
]
";

// A log is written to its file in pieces of this many bytes, and a line more at most.
const PIECE: usize = 65536;

const LONG_LINE: usize = 1000;

// A log of several pieces is whole; with the second of them failing, the first stands there alone,
// and nothing is printed.
#[test]
fn long_logs_are_written_in_pieces(rt: HostRuntime) -> Result<(), Fail> {
    let alloc = rt.alloc();
    let words = &["solve", "x.toml", "x.log", "2000", "1", "0"];
    let (ended, printed, log) = logged_on(alloc, words, HALF_A_SOURCE_SHORT, &[])?;
    assert_eq!(rt; ended, Status(2));
    let report = b"status nodelimit\nincumbent none\nbranchings 2000\ncuts 0\n";
    assert_eq!(rt; printed.as_slice(), report.as_slice());
    assert!(rt; log.len() > 2 * PIECE);
    assert!(rt;
        log.as_slice()
            .starts_with(b"archex-log 1\nvars 32 0\nlimit 2000\n")
    );
    assert!(rt;
        log.as_slice()
            .ends_with(b"\nanswer nodelimit none 2000 0\n")
    );
    // the calls are two reads, a fresh start, and a call for each piece
    let (ended, printed, cut) = logged_on(alloc, words, HALF_A_SOURCE_SHORT, &[4])?;
    assert_eq!(rt; ended, Status(6));
    assert_eq!(rt; printed.len(), 0);
    assert!(rt; cut.len() >= PIECE && cut.len() < PIECE + LONG_LINE);
    assert!(rt; log.as_slice().starts_with(cut.as_slice()));
    Ok(())
}

// The log of a file without a component, whose one candidate costs nothing, and of the two chains
// with no branching to make, whose root is parked at once.
#[test]
fn short_logs_are_as_they_must_be(rt: HostRuntime) -> Result<(), Fail> {
    let rows: [(&[u8], Status, &[u8]); 2] = [
        (
            b"",
            Status(0),
            b"archex-log 1
vars 0 0
limit 0
take 0 0 0 none
offer 0 0 -
study 0 0
accept 0 0 0
answer optimal 0 0 0
",
        ),
        (
            TWO_CHAINS,
            Status(2),
            b"archex-log 1
vars 5 6
limit 0
take 0 0 0 none
park 0 0
answer nodelimit none 0 0
",
        ),
    ];
    let words = &["solve", "x.toml", "x.log", "0", "1", "0"];
    for (library, status, log_text) in rows {
        let (ended, _printed, log) = logged_on(rt.alloc(), words, library, &[])?;
        assert_eq!(rt; ended, status);
        assert_eq!(rt; log.as_slice(), log_text);
    }
    Ok(())
}
