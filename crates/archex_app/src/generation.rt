// What `generate` does.
ghost use Rattle.std.specs.Prelude.{◌≡◌, ◌≢◌, ℕ, ◌≤◌, List, [], ◌∷◌, Ok, IfOk, OnOk, OnErr, IsErrOf};
ghost use Rattle.std.specs.Cow.{cow_slice_items};
ghost use Rattle.outside.specs.Faults.{Stay};
ghost use Rattle.generate.specs.declared.text.TheConstants as sizes;
ghost use Rattle.search_core.specs.declared.limits.TheConstants as limits;
ghost use Rattle.report.specs.Summary as spec;
ghost use Rattle.archex_app.specs.Status.{status_of, ending_of};
ghost use Rattle.archex_app.specs.Words.{generate};
ghost use Rattle.archex_app.specs.Run.{Runs, seen};
ghost use Rattle.archex_app.specs.Inner.Searched.{IsMade, log_of};
ghost use Rattle.archex_app.specs.Inner.Log.{HoldBoth, IsCut};

use crate::log_file::write_log;
use crate::outcome::{Outcome, conclude};
use crate::search::{Searched, search, status_for};
use crate::status::Status;
use crate::writing::{WriteError, write_text};
use arch_model::{Library, Memory};
use generated::{Generated, text_and_library};
use outside::{Shelf, Sink};
use report::generated_text;
use search_core::Answer;
use search_core::limits::BRANCHINGS;
use std::alloc::Global;
use std::borrow::CowSlice;
use worker_team::solve_alone;

/// A library that was made from a number, and its search.
#[derive(Drop)]
pub struct Made {
    /// The library's text.
    pub text: Vec<u8>,
    /// The search of the library.
    pub searched: Searched,
    /// How the run ends, and what is then printed.
    pub summary: Outcome,
}

// The summary of a search.
fn summarised(alloc: Global, lib: &Library, answer: &Answer) -> Result<Outcome, Memory>
    ensures status { IfOk result (λ outcome. outcome.status ≡ status_of (ending_of answer.now)) }
    ensures text { IfOk result (λ outcome. cow_slice_items outcome.text
        ≡ spec.generated_text lib.now answer.now) }
{
    let mut text = Vec::new(alloc);
    generated_text(lib, answer, &mut text)?;
    Ok(Outcome {
        status: status_for(answer),
        text: CowSlice::Owned(text),
    })
}

// Makes the library of a number, and searches it.
fn search_number(alloc: Global, number: u64, size: u32) -> Result<Made, Memory>
    requires some { 1 ≤ size }
    requires few { size ≤ sizes.LARGEST_SIZE }
    ensures { IfOk result (IsMade number size) }
{
    let Generated { text, library } = text_and_library(alloc, number, size)?;
    let searched = search(alloc, library, BRANCHINGS, 1, 1, |problem| {
        solve_alone(alloc, problem, BRANCHINGS)
    })?;
    let summary = summarised(alloc, searched.problem.library(), &searched.solved.answer)?;
    Ok(Made {
        text,
        searched,
        summary,
    })
}

// Writes the text of a library under one name, and then the log of its search under another.
fn write_both<F: Shelf>(
    alloc: Global,
    shelf: &mut F,
    file: &str,
    log: &str,
    made: &Made,
) -> Result<(), WriteError>
    requires { file.now ≢ log.now }
    ensures whole { OnOk result (HoldBoth (F.told shelf.new)
        file.now made.now.text.items log.now (log_of limits.BRANCHINGS made.now.searched)) }
    ensures part { OnErr result (IsCut (IsErrOf result WriteError.Failed)
        ((file.now, made.now.text.items) ∷ (log.now, log_of limits.BRANCHINGS made.now.searched) ∷ [])
        (F.told shelf.old) (F.told shelf.new) (F.write_faults shelf.old) (F.write_faults shelf.new)) }

    ensures told_stays { (other : List ℕ) → other ≢ file.now → other ≢ log.now
        → F.told shelf.new other ≡ F.told shelf.old other }
    ensures reads_stay { Stay (F.read_faults shelf.old) (F.read_faults shelf.new) }
    ensures writes_never_fall { (other : List ℕ) → F.write_faults shelf.old other ≤ F.write_faults shelf.new other }
    ensures writes_stay { OnOk result (Stay (F.write_faults shelf.old) (F.write_faults shelf.new)) }
    ensures writes_stay_for_memory { IsErrOf result WriteError.Memory
        → Stay (F.write_faults shelf.old) (F.write_faults shelf.new) }
{
    write_text(shelf, file, made.text.as_slice())?;
    let searched = &made.searched;
    write_log(
        alloc,
        shelf,
        log,
        &searched.problem,
        BRANCHINGS,
        &searched.solved,
    )
}

/// Does what `generate NUMBER SIZE OUT LOG` asks: makes the library of the number, searches it with
/// one worker up to the greatest limit of branchings, writes the library under OUT and then the log of
/// the search under LOG, each whole, and prints a summary.
pub fn generate_library<F: Shelf, O: Sink>(
    alloc: Global,
    number: u64,
    size: u32,
    file: &str,
    log: &str,
    shelf: &mut F,
    out: &mut O,
) -> Status
    requires some { 1 ≤ size }
    requires few { size ≤ sizes.LARGEST_SIZE }
    requires apart { file.now ≢ log.now }
    ensures run { Runs (Ok (generate (record { number = number; size = size; file = file.now; log = log.now }))) result
        (seen (F.told shelf.old) (F.read_faults shelf.old) (F.write_faults shelf.old)
        (O.told out.old) (O.faults out.old))
        (seen (F.told shelf.new) (F.read_faults shelf.new) (F.write_faults shelf.new)
        (O.told out.new) (O.faults out.new)) }
{
    match search_number(alloc, number, size) {
        Ok(made) => {
            let written = write_both(alloc, shelf, file, log, &made);
            conclude(out, written, made.summary)
        }
        Err(_) => Status::NO_MEMORY,
    }
}
