// What `solve` does.
ghost use Rattle.std.specs.Prelude.{◌≡◌, ℕ, ◌≤◌, List, Ok, IfOk, IfErr, OnOk, IfSome};
ghost use Rattle.std.specs.Cow.{cow_slice_items};
ghost use Rattle.outside.specs.Faults.{Stay};
ghost use Rattle.lib_read.specs.LibraryOf.{library_of};
ghost use Rattle.search_core.specs.Rules.{weights_of};
ghost use Rattle.worker_team.specs.Solved.{IsSolved};
ghost use Rattle.report.specs.Report.{report_text};
ghost use Rattle.report.specs.Refusal.{refused_library_text};
ghost use Rattle.archex_app.specs.Status.{status_of, ending_of, library_refused};
ghost use Rattle.archex_app.specs.Words.{solve};
ghost use Rattle.archex_app.specs.Run.{Runs, seen};
ghost use Rattle.archex_app.specs.Inner.Outcome.{StopsAt};
ghost use Rattle.archex_app.specs.Inner.Searched.{HasBest, IsReportedUnder};

use crate::library::library_under;
use crate::log_file::write_log;
use crate::outcome::{Outcome, Stop, conclude, finish};
use crate::search::{Searched, search, status_for};
use crate::status::Status;
use crate::weights::weights;
use arch_model::{Library, Memory};
use incumbent::Best;
use outside::{Shelf, Sink};
use report::solve_text;
use rows::Problem;
use std::alloc::Global;
use std::borrow::CowSlice;
use worker_team::Solved;

/// A search that came to its end, and its report.
#[derive(Drop)]
pub struct Reported {
    /// The search.
    pub searched: Searched,
    /// How the run ends, and what is then printed.
    pub report: Outcome,
}

// What the required sinks weigh in the best, where there is one.
fn best_weights(alloc: Global, lib: &Library, best: &Option<Best>) -> Result<Vec<u128>, Memory>
    requires { IfSome best.now (HasBest lib.now) }
    ensures { IfOk result (λ weights. IfSome best.now (λ found.
        weights.items ≡ weights_of lib.now found.architecture)) }
{
    match best {
        Some(found) => weights(alloc, lib, &found.architecture),
        None => Ok(Vec::new(alloc)),
    }
}

// The report of a search.
fn report_of(alloc: Global, lib: &Library, solved: &Solved) -> Result<Outcome, Memory>
    requires { IfSome solved.now.best (HasBest lib.now) }
    ensures status { IfOk result (λ outcome. outcome.status ≡ status_of (ending_of solved.now.answer)) }
    ensures text { IfOk result (λ outcome. cow_slice_items outcome.text
        ≡ report_text lib.now solved.now.answer solved.now.best solved.now.branchings solved.now.cuts) }
{
    let weights = best_weights(alloc, lib, &solved.best)?;
    let mut text = Vec::new(alloc);
    solve_text(
        lib,
        &solved.answer,
        solved.best,
        &weights,
        solved.branchings,
        solved.cuts,
        &mut text,
    )?;
    Ok(Outcome {
        status: status_for(&solved.answer),
        text: CowSlice::Owned(text),
    })
}

// Searches the library under a name, and reports.
fn report_under<F: Shelf, S: FnOnce(&Problem) -> Result<Solved, Memory>>(
    alloc: Global,
    shelf: &mut F,
    name: &str,
    limit: u32,
    workers: u32,
    analysts: u32,
    solve: S,
) -> Result<Reported, Stop>
    requires callable { S.IsAlwaysCallable solve }
    requires solves { (problem : _) (solved : _) → S.post solve problem solved
        → IfOk solved (IsSolved problem.now limit workers analysts) }
    ensures reported { IfOk result (IsReportedUnder (F.told shelf.old name.now) limit workers analysts) }
    ensures reads_stay { OnOk result (Stay (F.read_faults shelf.old) (F.read_faults shelf.new)) }
    ensures stop { IfErr result (λ stop. StopsAt library_of library_refused refused_library_text
        (F.told shelf.old name.now) name.now stop (F.read_faults shelf.old) (F.read_faults shelf.new)) }

    ensures told_stays { (other : List ℕ) → F.told shelf.new other ≡ F.told shelf.old other }
    ensures reads_never_fall { (other : List ℕ) → F.read_faults shelf.old other ≤ F.read_faults shelf.new other }
    ensures writes_stay { Stay (F.write_faults shelf.old) (F.write_faults shelf.new) }
{
    let lib = library_under(alloc, shelf, name)?;
    let searched = search(alloc, lib, limit, workers, analysts, solve)?;
    let report = report_of(alloc, searched.problem.library(), &searched.solved)?;
    Ok(Reported { searched, report })
}

/// Does what `solve` asks: reads the library, lets `search` search its problem, writes the log of the
/// search, whole, and prints its report. The limit of branchings, and how many workers and analysts
/// there are, are those for which each answer of `search` is right.
pub fn solve_library<F: Shelf, O: Sink, S: FnOnce(&Problem) -> Result<Solved, Memory>>(
    alloc: Global,
    lib: &str,
    log: &str,
    limit: u32,
    workers: u32,
    analysts: u32,
    search: S,
    shelf: &mut F,
    out: &mut O,
) -> Status
    requires callable { S.IsAlwaysCallable search }
    requires solves { (problem : _) (solved : _) → S.post search problem solved
        → IfOk solved (IsSolved problem.now limit workers analysts) }
    ensures run { Runs (Ok (solve (record {
      lib = lib.now;
      log = log.now;
      branchings = limit;
      workers = workers;
      analysts = analysts;
    }))) result
        (seen (F.told shelf.old) (F.read_faults shelf.old) (F.write_faults shelf.old)
        (O.told out.old) (O.faults out.old))
        (seen (F.told shelf.new) (F.read_faults shelf.new) (F.write_faults shelf.new)
        (O.told out.new) (O.faults out.new)) }
{
    match report_under(alloc, shelf, lib, limit, workers, analysts, search) {
        Ok(reported) => {
            let searched = &reported.searched;
            let written = write_log(
                alloc,
                shelf,
                log,
                &searched.problem,
                limit,
                &searched.solved,
            );
            conclude(out, written, reported.report)
        }
        Err(stop) => finish(out, Err(stop)),
    }
}
