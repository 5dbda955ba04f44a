//! What no clause says of `generate`: its printed texts, and what it leaves, over files in memory.
use crate::tests::words_of;
use crate::{Status, run_plain};
use outside::{MemShelf, MemSink};
use std::alloc::{AllocError, Global};
use std::test::Fail;

const ONE_OF_0: &[u8] = b"[[type]]
name = \"s0\"
role = \"source\"
max = 2
cost = 45
fail = 1000
[[type]]
name = \"l0\"
role = \"sink\"
[[link]]
from = \"s0\"
to = \"l0\"
cost = 1
[[require]]
sink = \"l0.1\"
bound = 1000000000000
";

// What is left of a run: how it ended, what it printed, and the files `f` and `g`.
#[derive(Drop)]
struct Left {
    status: Status,
    printed: Vec<u8>,
    file: Vec<u8>,
    log: Vec<u8>,
}

// What a run of some words leaves, of files that had a text, with one call of the shelf and one of the
// sink failing.
fn run_on(alloc: Global, words: &[&str], failing: u64, cut: u64) -> Result<Left, AllocError> {
    let words = words_of(alloc, words)?;
    let mut shelf = MemShelf::new(alloc, 1 << 20, &[failing])?;
    shelf.put("f", b"file")?;
    shelf.put("g", b"log")?;
    let mut sink = MemSink::new(alloc, 4096, &[cut])?;
    let status = run_plain(alloc, words.as_slice(), &mut shelf, &mut sink);
    Ok(Left {
        status,
        printed: sink.bytes().to_vec(alloc)?,
        file: shelf.file("f").unwrap_or(b"").to_vec(alloc)?,
        log: shelf.file("g").unwrap_or(b"").to_vec(alloc)?,
    })
}

// Two groups need both sources at 45 and 10, each with two edges, so 92 and 22; three more need one
// at 89 and 54 and two at 57, so 90, 55 and 116. The greatest number has two at 46 and at 79 and one
// at 11, so 94, 160 and 12.
#[test]
fn numbers_have_their_least_costs(rt: HostRuntime) -> Result<(), Fail> {
    let rows: [(&[&str], &[u8]); 3] = [
        (
            &["generate", "0", "2", "f", "g"],
            b"components 6\nedges 4\nstatus optimal\ncost 114\n",
        ),
        (
            &["generate", "0", "5", "f", "g"],
            b"components 15\nedges 10\nstatus optimal\ncost 375\n",
        ),
        (
            &["generate", "18446744073709551615", "3", "f", "g"],
            b"components 9\nedges 6\nstatus optimal\ncost 266\n",
        ),
    ];
    for (words, text) in rows {
        let left = run_on(rt.alloc(), words, 99, 99)?;
        assert_eq!(rt; left.status, Status(0));
        assert_eq!(rt; left.printed.as_slice(), text);
    }
    Ok(())
}

// What was written is a library, and a log of it that passes with the answer that was printed.
#[test]
fn what_is_generated_passes(rt: HostRuntime) -> Result<(), Fail> {
    let generate = words_of(rt.alloc(), &["generate", "0", "2", "f", "g"])?;
    let check = words_of(rt.alloc(), &["check", "f", "g"])?;
    let mut shelf = MemShelf::new(rt.alloc(), 1 << 20, &[])?;
    shelf.put("f", b"")?;
    shelf.put("g", b"")?;
    let mut sink = MemSink::new(rt.alloc(), 4096, &[])?;
    let made = run_plain(rt.alloc(), generate.as_slice(), &mut shelf, &mut sink);
    assert_eq!(rt; made, Status(0));
    let passed = run_plain(rt.alloc(), check.as_slice(), &mut shelf, &mut sink);
    assert_eq!(rt; passed, Status(0));
    assert!(rt; sink.bytes().ends_with(b"cost 114\nyes optimal 114\n"));
    Ok(())
}

// The library is written before its log, in a call that clears each file and one that writes it, and
// then the summary is printed. Whichever fails, nothing is printed, and what was written before stays.
#[test]
fn both_files_are_written_in_order(rt: HostRuntime) -> Result<(), Fail> {
    let words = &["generate", "0", "1", "f", "g"];
    let whole = run_on(rt.alloc(), words, 99, 99)?;
    assert_eq!(rt; whole.status, Status(0));
    assert_eq!(rt; whole.file.as_slice(), ONE_OF_0);
    assert!(rt;
        whole
            .log
            .as_slice()
            .starts_with(b"archex-log 1\nvars 3 2\nlimit 100000\n")
    );
    let rows: [(u64, u64, &[u8], &[u8]); 5] = [
        (0, 99, b"file", b"log"),
        (1, 99, b"", b"log"),
        (2, 99, ONE_OF_0, b"log"),
        (3, 99, ONE_OF_0, b""),
        (99, 0, ONE_OF_0, whole.log.as_slice()),
    ];
    for (failing, cut, file, log) in rows {
        let left = run_on(rt.alloc(), words, failing, cut)?;
        assert_eq!(rt; left.status, Status(6));
        assert_eq!(rt; left.printed.len(), 0);
        assert_eq!(rt; left.file.as_slice(), file);
        assert_eq!(rt; left.log.as_slice(), log);
    }
    Ok(())
}

// Words that aren't a number, a size from 1 to 16 and two names: a word is missing, one is too many,
// and else the leftmost is bad.
#[test]
fn bad_numbers_are_refused(rt: HostRuntime) -> Result<(), Fail> {
    let rows: [(&[&str], &[u8]); 15] = [
        (&["generate"], b"refused words 2\n"),
        (&["generate", "0"], b"refused words 3\n"),
        (&["generate", "", ""], b"refused words 4\n"),
        (&["generate", "0", "5", "f"], b"refused words 5\n"),
        (&["generate", "0", "5", "f", "g", ""], b"refused words 6\n"),
        (&["generate", "", "5", "f", "g"], b"refused words 2\n"),
        (&["generate", "00", "0", "f", "f"], b"refused words 2\n"),
        (&["generate", "+1", "5", "f", "g"], b"refused words 2\n"),
        (
            &["generate", "18446744073709551616", "5", "f", "g"],
            b"refused words 2\n",
        ),
        (&["generate", "0", "0", "f", "g"], b"refused words 3\n"),
        (&["generate", "0", "17", "f", "g"], b"refused words 3\n"),
        (
            &["generate", "0", "4294967297", "", ""],
            b"refused words 3\n",
        ),
        (&["generate", "0", "5", "", ""], b"refused words 4\n"),
        (&["generate", "0", "5", "f", ""], b"refused words 5\n"),
        (&["generate", "0", "5", "f", "f"], b"refused words 5\n"),
    ];
    for (words, text) in rows {
        let left = run_on(rt.alloc(), words, 99, 99)?;
        assert_eq!(rt; left.status, Status(4));
        assert_eq!(rt; left.printed.as_slice(), text);
        assert_eq!(rt; left.file.as_slice(), b"file".as_slice());
    }
    Ok(())
}
