//! What no clause says of `probability`: its printed texts, over files in memory.
use crate::{Status, run_plain};
use outside::{MemShelf, MemSink};
use std::alloc::{AllocError, Global};
use std::test::Fail;

/// Two generators, two buses and a load.
pub(crate) const B: &[u8] = b"type = [
  {name = \"gen\", role = \"source\", max = 2, cost = 100, fail = 1000},
  {name = \"bus\", role = \"middle\", max = 2, cost = 20, fail = 100},
  {name = \"load\", role = \"sink\"},
]
link = [
  {from = \"gen\", to = \"bus\", cost = 5},
  {from = \"bus\", to = \"load\", cost = 5},
]
require = [{sink = \"load.1\", bound = 1000000000000000000}]
";

// Four sources that feed a sink.
const FOUR: &[u8] = b"type = [
  {name = \"s\", role = \"source\", max = 4, fail = 1},
  {name = \"t\", role = \"sink\"},
]
link = [{from = \"s\", to = \"t\"}]
";

/// One of each of them, in a chain.
pub(crate) const CHAIN: &[u8] = b"kind,from,to
component,gen.1,
component,bus.1,
component,load.1,
edge,gen.1,bus.1
edge,bus.1,load.1
";

/// What a run of some words over a library `l` and an architecture `a` printed, and its status, with
/// one call failing.
pub(crate) fn run_on(
    alloc: Global,
    words: &[&str],
    library: &[u8],
    architecture: &[u8],
    failing: u64,
) -> Result<(Status, Vec<u8>), AllocError> {
    let mut all = Vec::new(alloc);
    for word in words {
        all.push(word.to_string(alloc)?)?;
    }
    let mut shelf = MemShelf::new(alloc, 0, &[failing])?;
    shelf.put("l", library)?;
    shelf.put("a", architecture)?;
    let mut sink = MemSink::new(alloc, 4096, &[])?;
    let status = run_plain(alloc, all.as_slice(), &mut shelf, &mut sink);
    let printed = sink.bytes().to_vec(alloc)?;
    Ok((status, printed))
}

// Masses of networks that were worked by hand: a chain fails where one of its components does, two
// separate chains where both do, and a load with no path always. Four sources of one in a million
// fail together once in 10^24, which lies between 0 and 10^-18.
#[test]
fn masses_are_enclosed(rt: HostRuntime) -> Result<(), Fail> {
    let chains = b"kind,from,to
component,gen.1,
component,gen.2,
component,bus.1,
component,bus.2,
component,load.1,
edge,gen.1,bus.1
edge,gen.2,bus.2
edge,bus.1,load.1
edge,bus.2,load.1
";
    let alone = b"kind,from,to\ncomponent,load.1,\n";
    let four = b"kind,from,to
edge,s.1,t.1
edge,s.2,t.1
edge,s.3,t.1
edge,s.4,t.1
component,t.1,
component,s.1,
component,s.2,
component,s.3,
component,s.4,
";
    let rows: [(&[u8], &[u8], &str, &[u8]); 4] = [
        (
            B,
            CHAIN,
            "load.1",
            b"mass 1099900000000000 1099900000000000\n",
        ),
        (B, chains, "load.1", b"mass 1209780010000 1209780010000\n"),
        (
            B,
            alone,
            "load.1",
            b"mass 1000000000000000000 1000000000000000000\n",
        ),
        (FOUR, four, "t.1", b"mass 0 1\n"),
    ];
    for (library, architecture, sink, text) in rows {
        let words = &["probability", "l", "a", sink];
        let (ended, printed) = run_on(rt.alloc(), words, library, architecture, 9)?;
        assert_eq!(rt; ended, Status(0));
        assert_eq!(rt; printed.as_slice(), text);
    }
    Ok(())
}

// Each fault in its place, and of several the first in order: the words, the library, the
// architecture, the sink.
#[test]
fn the_first_cause_is_printed(rt: HostRuntime) -> Result<(), Fail> {
    let unknown = b"kind,from,to\ncomponent,gen.3,\n";
    let twice = b"kind,from,to\ncomponent,gen.1,\ncomponent,gen.1,\n";
    let no_end = b"kind,from,to\ncomponent,gen.1,\nedge,gen.1,bus.1\n";
    let no_library = b"zz = 1";
    let rows: [(&[u8], &[u8], &str, u8, &[u8]); 9] = [
        (B, CHAIN, "bus.1", 4, b"refused words 4\n"),
        (B, CHAIN, "load.2", 4, b"refused words 4\n"),
        (B, CHAIN, "load", 4, b"refused words 4\n"),
        (
            B,
            b"kind,from\n",
            "load.1",
            9,
            b"refused architecture 1 Fields\n",
        ),
        (
            B,
            unknown,
            "load.1",
            9,
            b"refused architecture 2 UnknownName\n",
        ),
        (B, twice, "load.1", 9, b"refused architecture 3 Duplicate\n"),
        (
            B,
            no_end,
            "bus.1",
            9,
            b"refused architecture 3 MissingEnd\n",
        ),
        (B, b"kind,from,by\n", "", 4, b"refused words 4\n"),
        (
            no_library,
            unknown,
            "bus.1",
            3,
            b"refused library L3 UnknownKey library 0 zz\n",
        ),
    ];
    for (library, architecture, sink, status, text) in rows {
        let words = &["probability", "l", "a", sink];
        let (ended, printed) = run_on(rt.alloc(), words, library, architecture, 9)?;
        assert_eq!(rt; ended, Status(status));
        assert_eq!(rt; printed.as_slice(), text);
    }
    Ok(())
}

// Words that aren't three names: one is missing, one is too many, and else the leftmost is empty.
#[test]
fn other_names_are_refused(rt: HostRuntime) -> Result<(), Fail> {
    let rows: [(&[&str], &[u8]); 7] = [
        (&["probability"], b"refused words 2\n"),
        (&["probability", ""], b"refused words 3\n"),
        (&["probability", "l", "a"], b"refused words 4\n"),
        (&["probability", "l", "a", "t.1", ""], b"refused words 5\n"),
        (&["probability", "", "a", ""], b"refused words 2\n"),
        (&["probability", "l", "", "t.1"], b"refused words 3\n"),
        (&["Probability", "l", "a", "t.1"], b"refused words 1\n"),
    ];
    for (words, text) in rows {
        let (ended, printed) = run_on(rt.alloc(), words, B, CHAIN, 9)?;
        assert_eq!(rt; ended, Status(4));
        assert_eq!(rt; printed.as_slice(), text);
    }
    Ok(())
}

// Each file is read in two calls, of its bytes and of its end, the library first. Whichever fails,
// the run ends with a read fault and nothing printed.
#[test]
fn each_failing_read_ends_it(rt: HostRuntime) -> Result<(), Fail> {
    let words = &["probability", "l", "a", "load.1"];
    for call in 0..5 {
        let (ended, printed) = run_on(rt.alloc(), words, B, CHAIN, call)?;
        if call < 4 {
            assert_eq!(rt; ended, Status(5));
            assert_eq!(rt; printed.len(), 0);
        } else {
            assert_eq!(rt; ended, Status(0));
            assert_eq!(rt;
                printed.as_slice(),
                b"mass 1099900000000000 1099900000000000\n".as_slice()
            );
        }
    }
    let missing = &["probability", "l", "b", "load.1"];
    let (ended, printed) = run_on(rt.alloc(), missing, B, CHAIN, 9)?;
    assert_eq!(rt; ended, Status(5));
    assert_eq!(rt; printed.len(), 0);
    Ok(())
}
