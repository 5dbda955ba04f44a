//! What no clause says: that calls come to what they should on real files and printers, and with
//! ample memory.
ghost use Rattle.std.specs.Prelude.{◌≡◌, ℕ, ◌<◌, List, length};

use super::*;
use std::fmt::Display;
use std::io::ErrorKind;
use std::test::Fail;
use std::{env, fs, io, process};

// A read, an append, a fresh and a read, of which one fails.
#[test]
fn named_calls_fail(rt: HostRuntime) -> Result<(), Fail> {
    for at in 0..5u64 {
        let mut shelf = MemShelf::new(rt.alloc(), 8, &[at])?;
        shelf.put("a", b"one")?;
        let mut into = [0; 8];
        let first = shelf.read_at("a", 1, &mut into);
        let appended = shelf.append("a", b"two");
        let fresh = shelf.fresh("a");
        let last = shelf.read_at("a", 0, &mut into);
        let went = [first.is_ok(), appended.is_ok(), fresh.is_ok(), last.is_ok()];
        for (call, passed) in went.iter().enumerate() {
            assert_eq!(rt; *passed, call as u64 != at, "call {call} with {at} failing");
        }
        let left: &[u8] = match at {
            2 => b"onetwo",
            _ => b"",
        };
        assert_eq!(rt; shelf.file("a"), Some(left), "with {at} failing");
    }
    Ok(())
}

#[test]
fn reads_give_what_stands_there(rt: HostRuntime) -> Result<(), Fail> {
    let mut shelf = MemShelf::new(rt.alloc(), 0, &[])?;
    shelf.put("a", b"abcdef")?;
    for (place, room, want) in [
        (0, 4, "abcd"),
        (4, 4, "ef"),
        (6, 4, ""),
        (LAST_PLACE, 4, ""),
        (2, 0, ""),
    ] {
        let mut buf = [0; 4];
        let into = &mut buf[..room];
        let count = shelf.read_at("a", place, into);
        assert_eq!(rt; count, Ok(want.len()), "from {place}");
        assert_eq!(rt; &buf[..want.len()], want.as_bytes(), "from {place}");
    }
    Ok(())
}

#[test]
fn a_name_that_was_never_put_fails(rt: HostRuntime) -> Result<(), Fail> {
    let mut shelf = MemShelf::new(rt.alloc(), 8, &[])?;
    shelf.put("a", b"one")?;
    assert_eq!(rt; shelf.read_at("b", 0, &mut [0; 4]), Err(Failed));
    assert_eq!(rt; shelf.fresh("b"), Err(Failed));
    assert_eq!(rt; shelf.append("b", b"x"), Err(Failed));
    assert_eq!(rt; shelf.file("b"), None);
    assert_eq!(rt; shelf.file("a"), Some(b"one".as_slice()));
    Ok(())
}

#[test]
fn a_file_has_its_room(rt: HostRuntime) -> Result<(), Fail> {
    for (room, bytes, fits) in [
        (4, "ab", true),
        (3, "ab", false),
        (1, "abc", false),
        (5, "abc", true),
    ] {
        let mut shelf = MemShelf::new(rt.alloc(), room, &[])?;
        shelf.put("a", bytes.as_bytes())?;
        assert_eq!(rt; shelf.append("a", b"xy").is_ok(), fits, "{bytes} in {room}");
    }
    Ok(())
}

#[test]
fn two_files_stand_apart(rt: HostRuntime) -> Result<(), Fail> {
    let mut shelf = MemShelf::new(rt.alloc(), 8, &[])?;
    shelf.put("log", b"")?;
    shelf.put("out", b"old")?;
    assert_eq!(rt; shelf.append("log", b"line"), Ok(4));
    assert_eq!(rt; shelf.fresh("out"), Ok(()));
    assert!(rt;
        shelf
            .file("log")
            .is_some_and(|left| left == b"line".as_slice())
    );
    assert!(rt; shelf.file("out").is_some_and(|left| left.is_empty()));
    Ok(())
}

#[test]
fn a_sink_keeps_what_it_took(rt: HostRuntime) -> Result<(), Fail> {
    // failing, room, what three writes of "ab", "cd" and "e" leave
    for (failing, room, want) in [
        ([9, 9], 5, "abcde"),
        ([0, 9], 5, "cde"),
        ([1, 2], 5, "ab"),
        ([9, 9], 4, "abcd"),
        ([9, 9], 3, "abe"),
        ([9, 9], 0, ""),
    ] {
        let mut sink = MemSink::new(rt.alloc(), room, &failing)?;
        for piece in ["ab", "cd", "e"] {
            let _ = sink.write(piece.as_bytes());
        }
        assert_eq!(rt; sink.bytes(), want.as_bytes(), "{failing:?} in {room}");
    }
    Ok(())
}

// Code over any shelf or sink whose counts are always 0 needs no way out: that no call fails is
// proved from the clauses of the traits.
fn read_surely<S: Shelf>(shelf: &mut S, name: &str, into: &mut [u8]) -> usize
    requires never { (s : S) (name : List ℕ) → S.read_faults s name ≡ 0 }
{
    match shelf.read_at(name, 0, into) {
        Ok(count) => count,
        Err(Failed) => unreachable!(),
    }
}

fn write_surely<S: Sink>(sink: &mut S, piece: &[u8]) -> usize
    requires some { 0 < length piece.now }
    requires never { (s : S) → S.faults s ≡ 0 }
{
    match sink.write(piece) {
        Ok(count) => count,
        Err(Failed) => unreachable!(),
    }
}

#[test]
fn a_sure_shelf_forgets_what_is_written(rt: HostRuntime) -> Result<(), Fail> {
    let mut shelf = SureShelf::new(rt.alloc());
    shelf.put("a", b"one")?;
    shelf.put("b", b"two")?;
    let mut into = [0; 8];
    assert_eq!(rt; shelf.read_at("a", 1, &mut into), Ok(2));
    assert_eq!(rt; &into[..2], b"ne".as_slice());
    assert_eq!(rt; shelf.read_at("c", 0, &mut into), Ok(0));
    assert_eq!(rt; shelf.append("a", b"more"), Ok(4));
    assert_eq!(rt; shelf.fresh("c"), Ok(()));
    assert_eq!(rt; shelf.read_at("a", 0, &mut into), Ok(0));
    assert_eq!(rt; shelf.read_at("b", 0, &mut into), Ok(3));
    assert_eq!(rt; SureSink.write(b"whole"), Ok(5));
    assert_eq!(rt; read_surely(&mut shelf, "b", &mut into), 3);
    assert_eq!(rt; write_surely(&mut SureSink, b"xy"), 2);
    Ok(())
}

#[test]
fn real_files_are_written_and_read_back(rt: HostRuntime) -> Result<(), Fail> {
    let folder = env::temp_dir(&rt)?;
    let id = process::id(rt.process());
    let name = format!(in rt.alloc(); "{}/outside-test-{id}", folder.display())?;
    let names = vec![in rt.alloc(); name]?;
    let name = names[0].as_str();
    let mut shelf = DiskShelf::new(&rt, rt.alloc(), names.as_slice())?;
    let mut into = [0; 8];
    assert_eq!(rt; shelf.read_at(name, 0, &mut into), Err(Failed), "missing");
    assert_eq!(rt; shelf.append(name, b"one"), Ok(3), "append makes the file");
    assert_eq!(rt; shelf.append(name, b"two"), Ok(3));
    assert_eq!(rt; shelf.read_at(name, 2, &mut into), Ok(4));
    assert_eq!(rt; &into[..4], b"etwo".as_slice());
    assert_eq!(rt; shelf.read_at(name, 6, &mut into), Ok(0), "the end");
    assert_eq!(rt; shelf.read_at(name, 99, &mut into), Ok(0), "past the end");
    assert_eq!(rt; shelf.fresh(name), Ok(()));
    assert_eq!(rt; shelf.read_at(name, 0, &mut into), Ok(0), "emptied");
    fs::remove_file(&rt, name)?;
    assert_eq!(rt; shelf.fresh("/no-such-folder/x"), Err(Failed));
    assert_eq!(rt; shelf.append("/no-such-folder/x", b"y"), Err(Failed));
    Ok(())
}

// A printer that takes one byte, takes none, or fails.
enum Fake {
    Narrow,
    Stuck,
    Broken,
}

impl Print for Fake {
    fn print<D: Display + Drop>(&self, _value: D) -> io::Result<()> {
        Ok(())
    }

    fn println<D: Display + Drop>(&self, _value: D) -> io::Result<()> {
        Ok(())
    }

    fn write_all(&self, _bytes: &[u8]) -> io::Result<()> {
        Ok(())
    }

    fn write_some(&self, bytes: &[u8]) -> io::Result<usize> {
        match self {
            Fake::Narrow => Ok(bytes.len().min(1)),
            Fake::Stuck => Ok(0),
            Fake::Broken => Err(io::Error::from(ErrorKind::BrokenPipe)),
        }
    }
}

#[test]
fn a_printer_that_takes_nothing_fails(rt: HostRuntime) {
    assert_eq!(rt; StdoutSink::new(&Fake::Narrow).write(b"abc"), Ok(1));
    assert_eq!(rt; StdoutSink::new(&Fake::Stuck).write(b"abc"), Err(Failed));
    assert_eq!(rt; StdoutSink::new(&Fake::Broken).write(b"abc"), Err(Failed));
    assert_eq!(rt; StdoutSink::new(&rt).write(b"abc"), Ok(3));
}
