// Searches of teams by way of the top call. Which worker gets which node differs from run to run; the
// status and the cost don't, and each log passes.
use crate::tests::{X, run_on, shelf_with, words_of};
use crate::tests_of_examples::DATA_HALL;
use crate::tests_of_requirements::AIRCRAFT;
use crate::{Status, run, run_plain};
use outside::{MemShelf, MemSink, NoBell};
use std::alloc::{AllocError, Global};
use std::sync::Wait;
use std::test::Fail;
use std::thread::Threads;

// Two sources of cost 3, of which one is required.
const ONE_OF_TWO: &[u8] = b"type = [{name = \"p\", role = \"source\", max = 2, cost = 3}]
pattern = [{kind = \"count\", type = \"p\", min = 1}]
";

// The same, of which three are.
const TOO_FEW: &[u8] = b"type = [{name = \"p\", role = \"source\", max = 2, cost = 3}]
pattern = [{kind = \"count\", type = \"p\", min = 3}]
";

// A sink that has to be fed by a path, whose first candidate weighs too much: it takes both sources.
const FED_TWICE: &[u8] = b"type = [
  {name = \"s\", role = \"source\", max = 2, cost = 10, fail = 1000},
  {name = \"t\", role = \"sink\"},
]
link = [{from = \"s\", to = \"t\", cost = 1}]
require = [{sink = \"t.1\", bound = 1000000000000}]
";

// How many workers and analysts there are, as words.
type TeamWords = (&'static str, &'static str);

// Those that each library is tried with.
const TEAMS: [TeamWords; 8] = [
    ("1", "0"),
    ("1", "1"),
    ("2", "0"),
    ("2", "1"),
    ("2", "2"),
    ("8", "0"),
    ("8", "1"),
    ("8", "2"),
];

// How a run of a team ended, what it printed, and what `check` then says of its log.
#[derive(Drop)]
struct Told {
    status: Status,
    report: Vec<u8>,
    verdict: Vec<u8>,
}

// What `check` prints of the log on a shelf.
fn verdict_on(alloc: Global, shelf: &mut MemShelf) -> Result<Vec<u8>, AllocError> {
    let words = words_of(alloc, &["check", "x.toml", "x.log"])?;
    let mut sink = MemSink::new(alloc, 4096, &[])?;
    run_plain(alloc, words.as_slice(), shelf, &mut sink);
    sink.bytes().to_vec(alloc)
}

// What comes of a library, searched by a team under a limit of branchings.
fn solved<R: Threads + Wait + Sync>(
    rt: &R,
    alloc: Global,
    library: &[u8],
    limit: &'static str,
    team: TeamWords,
) -> Result<Told, AllocError> {
    let words = words_of(alloc, &["solve", "x.toml", "x.log", limit, team.0, team.1])?;
    let mut shelf = shelf_with(alloc, library, b"", &[])?;
    let mut sink = MemSink::new(alloc, 4096, &[])?;
    let status = run(rt, alloc, words.as_slice(), &mut shelf, &mut sink, &NoBell);
    let report = sink.bytes().to_vec(alloc)?;
    let verdict = verdict_on(alloc, &mut shelf)?;
    Ok(Told {
        status,
        report,
        verdict,
    })
}

// Whether a run ended so, with a report that begins so, and a log of which `check` says this.
fn is_told(told: &Told, status: Status, front: &[u8], verdict: &[u8]) -> bool {
    told.status == status
        && told.report.as_slice().starts_with(front)
        && told.verdict.as_slice() == verdict
}

// Small libraries, searched by teams of one, two and eight workers, of whom none, one or two are
// analysts.
#[test]
fn teams_find_the_cheapest(rt: HostRuntime) -> Result<(), Fail> {
    let rows: [(&[u8], Status, &[u8], &[u8]); 4] = [
        (
            X,
            Status(0),
            b"status optimal\ncost 7\n",
            b"yes optimal 7\n",
        ),
        (
            ONE_OF_TWO,
            Status(0),
            b"status optimal\ncost 3\n",
            b"yes optimal 3\n",
        ),
        (
            FED_TWICE,
            Status(0),
            b"status optimal\ncost 22\n",
            b"yes optimal 22\n",
        ),
        (
            TOO_FEW,
            Status(1),
            b"status infeasible\n",
            b"yes infeasible\n",
        ),
    ];
    for (library, status, front, verdict) in rows {
        for team in TEAMS {
            let told = solved(&rt, rt.alloc(), library, "100", team)?;
            assert!(rt; is_told(&told, status, front, verdict));
        }
    }
    Ok(())
}

// Two networks that take a search, by two workers of whom one is an analyst.
#[test]
fn two_workers_solve_networks(rt: HostRuntime) -> Result<(), Fail> {
    let rows: [(&[u8], &[u8], &[u8]); 2] = [
        (
            DATA_HALL,
            b"status optimal\ncost 203\n",
            b"yes optimal 203\n",
        ),
        (
            AIRCRAFT,
            b"status optimal\ncost 365\n",
            b"yes optimal 365\n",
        ),
    ];
    for (library, front, verdict) in rows {
        let told = solved(&rt, rt.alloc(), library, "100000", ("2", "1"))?;
        assert!(rt; is_told(&told, Status(0), front, verdict));
    }
    Ok(())
}

// Two workers under small limits: with no branching to make nothing is known, and one is enough.
#[test]
fn two_workers_meet_their_limit(rt: HostRuntime) -> Result<(), Fail> {
    let none = b"status nodelimit\nincumbent none\nbranchings 0\ncuts 0\n";
    let found = b"status optimal\ncost 3\n";
    let rows: [(&'static str, Status, &[u8], &[u8]); 3] = [
        ("0", Status(2), none, b"yes nodelimit none\n"),
        ("1", Status(0), found, b"yes optimal 3\n"),
        ("2", Status(0), found, b"yes optimal 3\n"),
    ];
    for (limit, status, front, verdict) in rows {
        let told = solved(&rt, rt.alloc(), ONE_OF_TWO, limit, ("2", "1"))?;
        assert!(rt; is_told(&told, status, front, verdict));
    }
    Ok(())
}

// What a run with a team prints of some words, beside what one without prints of them.
fn is_as_plain<R: Threads + Wait + Sync>(
    rt: &R,
    alloc: Global,
    words: &[&str],
    library: &[u8],
) -> Result<bool, AllocError> {
    let (ended, printed) = run_on(alloc, words, library, &[])?;
    let words = words_of(alloc, words)?;
    let mut shelf = shelf_with(alloc, library, b"", &[])?;
    let mut sink = MemSink::new(alloc, 4096, &[])?;
    let status = run(rt, alloc, words.as_slice(), &mut shelf, &mut sink, &NoBell);
    Ok(status == ended && sink.bytes() == printed.as_slice())
}

// What no team searches goes as it does without one: refused words, a refused library, other
// commands, and a single worker.
#[test]
fn other_words_go_as_without_a_team(rt: HostRuntime) -> Result<(), Fail> {
    let rows: [(&[&str], &[u8]); 6] = [
        (&["solve", "x.toml", "x.log", "0", "65", "0"], X),
        (&["solve", "x.toml", "x.log", "0", "2", "3"], X),
        (&["solve", "x.toml", "x.log", "0", "2", "1"], b"type = 1"),
        (&["check", "x.toml", "x.log"], X),
        (&["rows", "x.toml"], X),
        (&["solve", "x.toml", "x.log", "0", "1", "0"], X),
    ];
    for (words, library) in rows {
        assert!(rt; is_as_plain(&rt, rt.alloc(), words, library)?);
    }
    Ok(())
}
