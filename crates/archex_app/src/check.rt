// What `check` does.
ghost use Rattle.std.specs.Prelude.{◌≡◌, ℕ, ◌<◌, ◌≤◌, List, Ok, IfOk, IfErr, OnOk, length};
ghost use Rattle.outside.specs.Faults.{Stay};
ghost use Rattle.proof_log.specs.Log.{Accepts};
ghost use Rattle.archex_app.specs.Words.{check};
ghost use Rattle.archex_app.specs.ComesTo.{CommandComesTo};
ghost use Rattle.archex_app.specs.Run.{Runs, seen};
ghost use Rattle.archex_app.specs.Inner.Outcome.{Settles};
ghost use Rattle.archex_app.specs.Inner.Checking.{HasFed, FeedsOn, OfBytes, HaltsRight, HaltReads, Tells};

use crate::library::library_under;
use crate::outcome::{Outcome, Stop, finish};
use crate::status::Status;
use arch_model::Memory;
use binary_program::problem_of;
use log_checker::{CheckError, LOG_BYTES, No, TextChecker};
use outside::{Failed, Shelf, Sink};
use report::{no_text, yes_text};
use rows::{Problem, variable_count};
use search_core::Answer;
use std::alloc::{AllocError, Global};
use std::borrow::CowSlice;

/// How many bytes of a log are asked for at once.
const PIECE: usize = 65536;

/// Why a log isn't read to its end, or doesn't pass there.
#[derive(Clone, Copy)]
pub enum Halt {
    Memory,
    Failed,
    No(No),
}

impl From<AllocError> for Halt {
    ghost use Rattle.archex_app.specs.declared.check.Halt.TheVariants.{Memory};

    ghost from_gives = { λ _ halt. halt ≡ Memory };

    fn from(_error: AllocError) -> Halt {
        Halt::Memory
    }
}

impl From<Failed> for Halt {
    ghost use Rattle.archex_app.specs.declared.check.Halt.TheVariants.{Failed};

    ghost from_gives = { λ _ halt. halt ≡ Failed };

    fn from(_error: Failed) -> Halt {
        Halt::Failed
    }
}

impl From<CheckError> for Halt {
    ghost use Rattle.archex_app.specs.Inner.Checking.{halt_of};

    ghost from_gives = { λ error halt. halt ≡ halt_of error };

    fn from(error: CheckError) -> Halt {
        match error {
            CheckError::Memory => Halt::Memory,
            CheckError::No(refused) => Halt::No(refused),
        }
    }
}

// Reads the next bytes of a log and feeds them, and answers how many came: 0 at the end. No byte is
// asked for behind the first that a log may not have.
fn feed_piece<F: Shelf>(
    shelf: &mut F,
    name: &str,
    piece: &mut [u8],
    reader: &mut TextChecker,
) -> Result<usize, Halt>
    requires { 0 < length piece.old }
    ensures fed { HasFed (F.told shelf.old name.now) reader.old
        → IfOk result (FeedsOn (F.told shelf.old name.now) reader.old reader.new) }
    ensures halt { HasFed (F.told shelf.old name.now) reader.old
        → IfErr result (HaltsRight reader.old.checker.problem (F.told shelf.old name.now)) }
    ensures problem { reader.new.checker.problem ≡ reader.old.checker.problem }
    ensures reads_stay { OnOk result (Stay (F.read_faults shelf.old) (F.read_faults shelf.new)) }
    ensures reads { IfErr result (λ halt. HaltReads halt name.now
        (F.read_faults shelf.old) (F.read_faults shelf.new)) }

    ensures told_stays { (other : List ℕ) → F.told shelf.new other ≡ F.told shelf.old other }
    ensures reads_never_fall { (other : List ℕ) → F.read_faults shelf.old other ≤ F.read_faults shelf.new other }
    ensures writes_stay { Stay (F.write_faults shelf.old) (F.write_faults shelf.new) }
{
    let place = reader.bytes();
    let left = (LOG_BYTES + 1 - place) as usize;
    let room = piece.len().min(left);
    let into = &mut piece[..room];
    let count = shelf.read_at(name, place, into)?;
    reader.push(&into[..count])?;
    Ok(count)
}

// Judges the log under a name by pieces: its answer, or why there is none.
fn judge<F: Shelf>(
    alloc: Global,
    shelf: &mut F,
    name: &str,
    problem: &Problem,
) -> Result<Answer, Halt>
    ensures yes { IfOk result (λ answer. OfBytes (F.told shelf.old name.now)
        (λ bytes. Accepts problem.now bytes answer)) }
    ensures halt { IfErr result (HaltsRight problem.now (F.told shelf.old name.now)) }
    ensures reads_stay { OnOk result (Stay (F.read_faults shelf.old) (F.read_faults shelf.new)) }
    ensures reads { IfErr result (λ halt. HaltReads halt name.now
        (F.read_faults shelf.old) (F.read_faults shelf.new)) }

    ensures told_stays { (other : List ℕ) → F.told shelf.new other ≡ F.told shelf.old other }
    ensures reads_never_fall { (other : List ℕ) → F.read_faults shelf.old other ≤ F.read_faults shelf.new other }
    ensures writes_stay { Stay (F.write_faults shelf.old) (F.write_faults shelf.new) }
{
    let mut reader = TextChecker::new(alloc, problem)?;
    let mut piece = vec![in alloc; 0; PIECE]?;
    loop {
        if feed_piece(shelf, name, &mut piece, &mut reader)? == 0 {
            return match reader.end() {
                Ok(answer) => Ok(answer),
                Err(refused) => Err(Halt::No(refused)),
            };
        }
    }
}

// How a run ends with an answer of the log.
fn passed(alloc: Global, answer: Answer) -> Result<Outcome, Memory>
    ensures { IfOk result (λ outcome. Tells (Ok answer) (Ok outcome)) }
{
    let mut text = Vec::new(alloc);
    yes_text(&answer, &mut text)?;
    Ok(Outcome {
        status: Status::DONE,
        text: CowSlice::Owned(text),
    })
}

// How it ends with the log's first broken line.
fn broken(alloc: Global, refused: No) -> Result<Outcome, Memory>
    ensures { IfOk result (λ outcome. Tells (Err (Halt.No refused)) (Ok outcome)) }
{
    let mut text = Vec::new(alloc);
    no_text(refused.line, refused.rule, &mut text)?;
    Ok(Outcome {
        status: Status::LOG_REFUSED,
        text: CowSlice::Owned(text),
    })
}

// What comes of a log that was judged, or wasn't.
fn told_of(alloc: Global, judged: Result<Answer, Halt>) -> Result<Outcome, Stop>
    ensures { Tells judged result }
{
    match judged {
        Ok(answer) => match passed(alloc, answer) {
            Ok(outcome) => Ok(outcome),
            Err(_) => Err(Stop::NoMemory),
        },
        Err(Halt::No(refused)) => match broken(alloc, refused) {
            Ok(outcome) => Ok(outcome),
            Err(_) => Err(Stop::NoMemory),
        },
        Err(Halt::Memory) => Err(Stop::NoMemory),
        Err(Halt::Failed) => Err(Stop::Unread),
    }
}

// What `check` comes to.
fn come_to<F: Shelf>(alloc: Global, shelf: &mut F, lib: &str, log: &str) -> Result<Outcome, Stop>
    ensures settles { Settles (CommandComesTo (F.told shelf.old) (check lib.now log.now)) result
        (F.read_faults shelf.old) (F.read_faults shelf.new) }

    ensures told_stays { (other : List ℕ) → F.told shelf.new other ≡ F.told shelf.old other }
    ensures reads_never_fall { (other : List ℕ) → F.read_faults shelf.old other ≤ F.read_faults shelf.new other }
    ensures writes_stay { Stay (F.write_faults shelf.old) (F.write_faults shelf.new) }
{
    let library = library_under(alloc, shelf, lib)?;
    let problem = problem_of(alloc, library)?;
    // read for what each problem keeps of its library and its rows
    let _count = variable_count(problem.library());
    let judged = judge(alloc, shelf, log, &problem);
    told_of(alloc, judged)
}

/// Does what `check LIB LOG` asks: reads the library, judges the log as it is read, and prints whether
/// it passes, and with which answer, or its first broken line.
pub fn check_log<F: Shelf, O: Sink>(
    alloc: Global,
    lib: &str,
    log: &str,
    shelf: &mut F,
    out: &mut O,
) -> Status
    ensures run { Runs (Ok (check lib.now log.now)) result
        (seen (F.told shelf.old) (F.read_faults shelf.old) (F.write_faults shelf.old)
        (O.told out.old) (O.faults out.old))
        (seen (F.told shelf.new) (F.read_faults shelf.new) (F.write_faults shelf.new)
        (O.told out.new) (O.faults out.new)) }
{
    let outcome = come_to(alloc, shelf, lib, log);
    finish(out, outcome)
}
