//! The program `archex`: hands its words to the top call, over real files, the standard output and
//! the threads of the system.
//!
//! Which status comes when is said by `archex_app::run`. Two endings are of its own, without
//! a text: 7 where there is no memory for the words or the shelf, and 10 where the runtime can't
//! give the words for another cause, as where one isn't UTF-8.
#![tactic(auto)]

use archex_app::{Status, run};
use outside::{DiskShelf, NoBell, StdoutSink};
use std::alloc::Global;
use std::io::ErrorKind;
use std::process::ExitCode;
use std::rt::Files;
use std::sync::Wait;
use std::thread::Threads;
use std::{env, io};

/// The ending where the runtime refuses to give the words.
const NO_WORDS: Status = Status(10);

// The words, without the program's name.
fn words(rt: &HostRuntime) -> io::Result<Vec<String>> {
    let mut words = Vec::new(rt.alloc());
    for word in env::args(rt)?.skip(1) {
        words.push(word)?;
    }
    Ok(words)
}

// Runs the program on words, and answers the status to end with.
fn run_on<R: Files + Print + Threads + Wait + Sync>(
    rt: &R,
    alloc: Global,
    words: &[String],
) -> Status {
    match DiskShelf::new(rt, alloc, words) {
        Ok(mut shelf) => run(
            rt,
            alloc,
            words,
            &mut shelf,
            &mut StdoutSink::new(rt),
            &NoBell,
        ),
        Err(_) => Status::NO_MEMORY,
    }
}

fn main(rt: HostRuntime) -> ExitCode {
    let Status(code) = match words(&rt) {
        Ok(words) => run_on(&rt, rt.alloc(), words.as_slice()),
        Err(error) if error.kind() == ErrorKind::OutOfMemory => Status::NO_MEMORY,
        Err(_) => NO_WORDS,
    };
    ExitCode::from(code)
}
