// What is done for a command that was read, and for words that are none.
ghost use Rattle.std.specs.Prelude.{◌≡◌, ℕ, ◌≤◌, Ok, IfOk};
ghost use Rattle.std.specs.Thread.{IsSync};
ghost use Rattle.node_pool.specs.Pool.{IsTeam};
ghost use Rattle.worker_team.specs.Solved.{IsSolved};
ghost use Rattle.search_core.specs.declared.limits.TheConstants as limits;
ghost use Rattle.report.specs.Refusal.{refused_words_text};
ghost use Rattle.archex_app.specs.Commands.{asked, IsInRange};
ghost use Rattle.archex_app.specs.Status.{status_of, words_refused};
ghost use Rattle.archex_app.specs.Run.{Runs, seen};
ghost use Rattle.archex_app.specs.Team.{alone, as_asked, analysts_among, searched_by};
ghost use Rattle.archex_app.specs.Inner.Outcome.{Printed};

use crate::check::check_log;
use crate::cuts::list_cuts;
use crate::generation::generate_library;
use crate::outcome::print;
use crate::probability::enclose_mass;
use crate::row_list::list_rows;
use crate::solve::solve_library;
use crate::status::Status;
use crate::template_list::list_template;
use crate::weigh::weigh_architecture;
use crate::words::{Command, WordFault};
use arch_model::Memory;
use outside::{Bell, Shelf, Sink};
use report::words_line;
use rows::Problem;
use std::alloc::Global;
use std::sync::Wait;
use std::thread::Threads;
use worker_team::{Solved, solve_alone, solve_team};

/// Prints that the words are refused, and for which place. It takes no memory.
pub fn refuse_words<O: Sink>(out: &mut O, fault: WordFault) -> Status
    ensures printed { Printed (status_of words_refused) (refused_words_text fault.place) result
        (O.told out.old) (O.told out.new) (O.faults out.old) (O.faults out.new) }
    ensures never_falls { O.faults out.old ≤ O.faults out.new }
{
    let line = words_line(fault.place);
    print(out, line.as_bytes(), Status::WORDS_REFUSED)
}

/// Does what a command asks, each by a function of its own. One worker searches, however many the
/// command asks for.
pub fn run_alone<F: Shelf, O: Sink>(
    alloc: Global,
    command: Command<'_>,
    shelf: &mut F,
    out: &mut O,
) -> Status
    requires { IsInRange command }
    ensures run { Runs (searched_by alone (Ok (asked command.entry))) result
        (seen (F.told shelf.old) (F.read_faults shelf.old) (F.write_faults shelf.old)
        (O.told out.old) (O.faults out.old))
        (seen (F.told shelf.new) (F.read_faults shelf.new) (F.write_faults shelf.new)
        (O.told out.new) (O.faults out.new)) }
{
    match command {
        Command::Solve {
            lib,
            log,
            branchings,
            ..
        } => {
            let search = |problem: &Problem| solve_alone(alloc, problem, branchings);
            solve_library(alloc, lib, log, branchings, 1, 1, search, shelf, out)
        }
        Command::Check { lib, log } => check_log(alloc, lib, log, shelf, out),
        Command::Weigh { lib, arch } => weigh_architecture(alloc, lib, arch, shelf, out),
        Command::Cuts { lib, arch, sink } => list_cuts(alloc, lib, arch, sink, shelf, out),
        Command::Probability { lib, arch, sink } => {
            enclose_mass(alloc, lib, arch, sink, shelf, out)
        }
        Command::Template { lib } => list_template(alloc, lib, shelf, out),
        Command::Rows { lib } => list_rows(alloc, lib, shelf, out),
        Command::Generate {
            number,
            size,
            file,
            log,
        } => generate_library(alloc, number, size, file, log, shelf, out),
    }
}

// How many of so many workers are analysts, as asked; but a single worker is one.
fn analysts_of(workers: u32, analysts: u32) -> u32
    ensures { result ≡ analysts_among workers analysts }
{
    if workers <= 1 {
        return 1;
    }
    analysts
}

// Searches a problem with as many workers and analysts as are asked for. A single worker takes no
// thread of its own.
fn search_by<R: Threads + Wait + Sync, B: Bell + Sync>(
    rt: &R,
    alloc: Global,
    problem: &Problem,
    limit: u32,
    workers: u32,
    analysts: u32,
    bell: &B,
) -> Result<Solved, Memory>
    requires limit { limit ≤ limits.BRANCHINGS }
    requires team { IsTeam workers analysts }
    ensures { IfOk result (IsSolved problem.now limit workers (analysts_among workers analysts)) }
{
    if workers == 1 {
        return solve_alone(alloc, problem, limit);
    }
    solve_team(rt, alloc, problem, limit, workers, analysts, bell)
}

/// Does what a command asks, where it is to solve a library with as many workers and analysts as it
/// asks for.
pub fn run_by_team<R: Threads + Wait + Sync, F: Shelf, O: Sink, B: Bell + Sync>(
    rt: &R,
    alloc: Global,
    command: Command<'_>,
    shelf: &mut F,
    out: &mut O,
    bell: &B,
) -> Status
    requires { IsInRange command }
    ensures run { Runs (searched_by as_asked (Ok (asked command.entry))) result
        (seen (F.told shelf.old) (F.read_faults shelf.old) (F.write_faults shelf.old)
        (O.told out.old) (O.faults out.old))
        (seen (F.told shelf.new) (F.read_faults shelf.new) (F.write_faults shelf.new)
        (O.told out.new) (O.faults out.new)) }
{
    match command {
        Command::Solve {
            lib,
            log,
            branchings,
            workers,
            analysts,
        } => {
            let search = |problem: &Problem| -> Result<Solved, Memory>
                requires { IsSync R.row × IsSync B.row × (branchings ≤ limits.BRANCHINGS)
                    × IsTeam workers analysts }
                ensures { IfOk result (IsSolved problem.now branchings workers
                    (analysts_among workers analysts)) }
            { search_by(rt, alloc, problem, branchings, workers, analysts, bell) };
            let some = analysts_of(workers, analysts);
            solve_library(
                alloc, lib, log, branchings, workers, some, search, shelf, out,
            )
        }
        other => run_alone(alloc, other, shelf, out),
    }
}
