// The top calls.
ghost use Rattle.std.specs.Prelude.{◌≡◌, ℕ, ◌^◌, ◌≤◌, ◌⊎◌, IsErr, Ok, Err, List, Contains};
ghost use Rattle.outside.specs.Faults.{Rose, Stay, ChangesOnly};
ghost use Rattle.outside.specs.Told.{Appends};
ghost use Rattle.arch_model.specs.Parts.{LibraryParts};
ghost use Rattle.arch_model.specs.Member.{member_count};
ghost use Rattle.lib_read.specs.LibraryOf.{library_of};
ghost use Rattle.lib_read.specs.declared.fault.LibFault.{LibFault};
ghost use Rattle.report.specs.Refusal.{refused_words_text};
ghost use Rattle.archex_app.specs.Words.{texts, command_of, files_of, files_read, files_written};
ghost use Rattle.archex_app.specs.Words.{SolveWords, GenerateWords, AskToSolve, AskToCheck, AskToWeigh};
ghost use Rattle.archex_app.specs.Words.{AskForCuts, AskForMass, AskForTemplate, AskForRows, AskToGenerate};
ghost use Rattle.archex_app.specs.Words.{AskOfSink, AskOfArchitecture, AskForList, ReadsLibrary};
ghost use Rattle.archex_app.specs.Team.{alone, as_asked, by_team, searched_by};
ghost use Rattle.archex_app.specs.Status.{status_of, done, infeasible, node_limit, library_refused, log_refused};
ghost use Rattle.archex_app.specs.Status.{words_refused};
ghost use Rattle.archex_app.specs.Status.{read_fault, write_fault, no_memory, architecture_refused};
ghost use Rattle.archex_app.specs.Endings.{MayEnd};
ghost use Rattle.archex_app.specs.Run.{Runs, RoseAmong, seen};
ghost use Rattle.archex_app.specs.Complete.{Completes, UnlessNoMemory, CompletesGeneration};
ghost use Rattle.archex_app.specs.Complete.{EndsOverLibrary, EndsOverArchitecture, EndsOverSink};
ghost use Rattle.archex_app.specs.Answer.{ShowsCheapest, ShowsInfeasible, ShowsNodeLimit, ShowsRefusal};
ghost use Rattle.archex_app.specs.Answer.{RefusesArchitecture, RefusesSink};
ghost use Rattle.archex_app.specs.Answer.{ShowsReport, Prints, PrintsOver, PrintsFront};
ghost use Rattle.archex_app.specs.Searched.{Answered, ShowsSearch, LeavesLog, CutsText};
ghost use Rattle.archex_app.specs.Checked.{ShowsYes, ShowsNo, CompletesCheck};
ghost use Rattle.archex_app.specs.Weighed.{ShowsWeighing};
ghost use Rattle.archex_app.specs.CutsListed.{ShowsCuts};
ghost use Rattle.archex_app.specs.MassAnswer.{ShowsMass};
ghost use Rattle.archex_app.specs.Listed.{ShowsTemplate, ShowsRows};
ghost use Rattle.archex_app.specs.Generated.{ShowsGenerated, LeavesGenerated, CutsSummary};

use crate::commands::{refuse_words, run_alone, run_by_team};
use crate::status::Status;
use crate::words::read_words;
use outside::{Bell, Shelf, Sink};
use std::alloc::Global;
use std::sync::Wait;
use std::thread::Threads;

// Reads the words, and does what they ask with one worker.
fn run_words_alone<F: Shelf, O: Sink>(
    alloc: Global,
    words: &[String],
    shelf: &mut F,
    out: &mut O,
) -> Status
    ensures run { Runs (searched_by alone (command_of (texts words.now))) result
        (seen (F.told shelf.old) (F.read_faults shelf.old) (F.write_faults shelf.old)
        (O.told out.old) (O.faults out.old))
        (seen (F.told shelf.new) (F.read_faults shelf.new) (F.write_faults shelf.new)
        (O.told out.new) (O.faults out.new)) }
    ensures untouched { IsErr (command_of (texts words.now)) → shelf.new ≡ shelf.old }
{
    match read_words(words) {
        Ok(command) => run_alone(alloc, command, shelf, out),
        Err(fault) => refuse_words(out, fault),
    }
}

// Reads the words, and does what they ask with as many workers as they ask for.
fn run_words<R: Threads + Wait + Sync, F: Shelf, O: Sink, B: Bell + Sync>(
    rt: &R,
    alloc: Global,
    words: &[String],
    shelf: &mut F,
    out: &mut O,
    bell: &B,
) -> Status
    ensures run { Runs (searched_by as_asked (command_of (texts words.now))) result
        (seen (F.told shelf.old) (F.read_faults shelf.old) (F.write_faults shelf.old)
        (O.told out.old) (O.faults out.old))
        (seen (F.told shelf.new) (F.read_faults shelf.new) (F.write_faults shelf.new)
        (O.told out.new) (O.faults out.new)) }
    ensures untouched { IsErr (command_of (texts words.now)) → shelf.new ≡ shelf.old }
{
    match read_words(words) {
        Ok(command) => run_by_team(rt, alloc, command, shelf, out, bell),
        Err(fault) => refuse_words(out, fault),
    }
}

/// Does what the words ask, with one worker: `solve LIB LOG BRANCHINGS WORKERS ANALYSTS` reads the
/// library LIB from the shelf, searches for an architecture of least cost among all that meet its
/// patterns and keep its bounds on weights, for at most BRANCHINGS branchings, writes the log of the
/// search under LOG, and prints a report to the sink. `check LIB LOG` says whether the log passes for
/// the library, and with which answer, or which line is the first to break a rule. `weigh LIB ARCH`
/// reads a library and an architecture of it, and prints what this comes to; `cuts LIB ARCH SINK`
/// lists the minimal cut sets of a sink, and `probability LIB ARCH SINK` gives two bounds of its failure
/// mass. `template LIB` lists the components and edges of a library, and `rows LIB` its base rows.
/// `generate NUMBER SIZE OUT LOG` makes a library from a number, writes it under OUT, and searches it
/// as `solve` does.
///
/// It returns for all arguments; want of memory alone is free to come anywhere, but for words that
/// are refused, which take none.
pub fn run_plain<F: Shelf, O: Sink>(
    alloc: Global,
    words: &[String],
    shelf: &mut F,
    out: &mut O,
) -> Status
    // What is said of all commands alike: a run ends as something that its words come to, printed
    // whole, or with a fault whose count rose, or for want of memory; and what it leaves.
    ensures run { Runs (searched_by alone (command_of (texts words.now))) result
        (seen (F.told shelf.old) (F.read_faults shelf.old) (F.write_faults shelf.old)
        (O.told out.old) (O.faults out.old))
        (seen (F.told shelf.new) (F.read_faults shelf.new) (F.write_faults shelf.new)
        (O.told out.new) (O.faults out.new)) }

    // What each status of `solve` says of the bytes of LIB, of all architectures of its template,
    // and of what was printed.
    ensures optimal { (ask : SolveWords) → AskToSolve (texts words.now) ask → result ≡ status_of done
        → Prints ShowsCheapest (F.told shelf.old ask.lib) (O.told out.old) (O.told out.new) }
    ensures infeasible { (ask : SolveWords) → AskToSolve (texts words.now) ask → result ≡ status_of infeasible
        → Prints ShowsInfeasible (F.told shelf.old ask.lib) (O.told out.old) (O.told out.new) }
    ensures limit_met { (ask : SolveWords) → AskToSolve (texts words.now) ask → result ≡ status_of node_limit
        → Prints (ShowsNodeLimit ask.branchings) (F.told shelf.old ask.lib) (O.told out.old) (O.told out.new) }
    ensures read_fault { (ask : SolveWords) → AskToSolve (texts words.now) ask → result ≡ status_of read_fault
        → Rose (F.read_faults shelf.old ask.lib) (F.read_faults shelf.new ask.lib) }
    ensures cut_short { (ask : SolveWords) → AskToSolve (texts words.now) ask → result ≡ status_of write_fault
        → PrintsFront (ShowsReport ask.branchings) (F.told shelf.old ask.lib) (O.told out.old) (O.told out.new) }

    // Every answer of `solve` is that of one history of the search, whose log stands under LOG and
    // passes, and each of whose cuts holds in every admissible architecture. A run that stops before
    // its end leaves LOG as it was, or a front of such a log.
    ensures searched { (ask : SolveWords) → AskToSolve (texts words.now) ask → Answered result
        → ShowsSearch (by_team alone ask) result (F.told shelf.old ask.lib) (F.told shelf.new ask.log)
        (O.told out.old) (O.told out.new) }
    ensures stopped { (ask : SolveWords) → AskToSolve (texts words.now) ask
        → (result ≡ status_of write_fault) ⊎ (result ≡ status_of no_memory)
        → LeavesLog (by_team alone ask) (F.told shelf.old ask.lib)
        (F.told shelf.old ask.log) (F.told shelf.new ask.log) }

    // Where the log could be written and the text couldn't be printed whole, the log stands whole. A
    // run that refuses the library, or can't read it, leaves LOG as it was.
    ensures logged { (ask : SolveWords) → AskToSolve (texts words.now) ask → result ≡ status_of write_fault
        → ¬ Rose (F.write_faults shelf.old ask.log) (F.write_faults shelf.new ask.log)
        → CutsText (by_team alone ask) (F.told shelf.old ask.lib) (F.told shelf.old ask.log)
        (F.told shelf.new ask.log) (O.told out.old) (O.told out.new) }
    ensures log_stays { (ask : SolveWords) → AskToSolve (texts words.now) ask
        → (result ≡ status_of library_refused) ⊎ (result ≡ status_of read_fault)
        → F.told shelf.new ask.log ≡ F.told shelf.old ask.log }

    // A library that the shelf tells is searched or refused, where no call of the outside failed and
    // there was memory. A limit of 2 to the number of its members is never met.
    ensures complete { (ask : SolveWords) (bytes : List ℕ) → AskToSolve (texts words.now) ask
        → F.told shelf.old ask.lib ≡ Some bytes
        → ¬ Rose (F.read_faults shelf.old ask.lib) (F.read_faults shelf.new ask.lib)
        → ¬ Rose (F.write_faults shelf.old ask.log) (F.write_faults shelf.new ask.log)
        → ¬ Rose (O.faults out.old) (O.faults out.new) → Completes ask.branchings bytes result }
    ensures enough { (ask : SolveWords) (bytes : List ℕ) (lib : LibraryParts) → AskToSolve (texts words.now) ask
        → F.told shelf.old ask.lib ≡ Some bytes → library_of bytes ≡ Ok lib
        → 2 ^ member_count lib ≤ ask.branchings → ¬ (result ≡ status_of node_limit) }

    // What each status of `check` says of the bytes of LIB and LOG, whoever wrote the log, of all
    // architectures, and of what was printed. A yes comes exactly of a log that passes, where no call
    // of the outside failed and there was memory, and else a no, with the log's first broken line.
    ensures yes { (lib log : List ℕ) → AskToCheck (texts words.now) lib log → result ≡ status_of done
        → PrintsOver ShowsYes (F.told shelf.old lib) (F.told shelf.old log)
        (O.told out.old) (O.told out.new) }
    ensures no { (lib log : List ℕ) → AskToCheck (texts words.now) lib log → result ≡ status_of log_refused
        → PrintsOver ShowsNo (F.told shelf.old lib) (F.told shelf.old log)
        (O.told out.old) (O.told out.new) }
    ensures check_complete { (lib log lib_bytes log_bytes : List ℕ) → AskToCheck (texts words.now) lib log
        → F.told shelf.old lib ≡ Some lib_bytes → F.told shelf.old log ≡ Some log_bytes
        → ¬ Rose (F.read_faults shelf.old lib) (F.read_faults shelf.new lib)
        → ¬ Rose (F.read_faults shelf.old log) (F.read_faults shelf.new log)
        → ¬ Rose (O.faults out.old) (O.faults out.new) → CompletesCheck lib_bytes log_bytes result }

    // What status 0 of the other commands that read says of the bytes of LIB and ARCH, of SINK and of
    // what was printed.
    ensures weighed { (lib arch : List ℕ) → AskToWeigh (texts words.now) lib arch → result ≡ status_of done
        → PrintsOver ShowsWeighing (F.told shelf.old lib) (F.told shelf.old arch)
        (O.told out.old) (O.told out.new) }
    ensures cuts { (lib arch sink : List ℕ) → AskForCuts (texts words.now) lib arch sink → result ≡ status_of done
        → PrintsOver (ShowsCuts sink) (F.told shelf.old lib) (F.told shelf.old arch)
        (O.told out.old) (O.told out.new) }
    ensures mass { (lib arch sink : List ℕ) → AskForMass (texts words.now) lib arch sink → result ≡ status_of done
        → PrintsOver (ShowsMass sink) (F.told shelf.old lib) (F.told shelf.old arch)
        (O.told out.old) (O.told out.new) }
    ensures template { (lib : List ℕ) → AskForTemplate (texts words.now) lib → result ≡ status_of done
        → Prints ShowsTemplate (F.told shelf.old lib) (O.told out.old) (O.told out.new) }
    ensures rows { (lib : List ℕ) → AskForRows (texts words.now) lib → result ≡ status_of done
        → Prints ShowsRows (F.told shelf.old lib) (O.told out.old) (O.told out.new) }

    // What they come to, where no call of the outside failed and there was memory.
    ensures weigh_complete { (lib arch lib_bytes arch_bytes : List ℕ) → AskToWeigh (texts words.now) lib arch
        → F.told shelf.old lib ≡ Some lib_bytes → F.told shelf.old arch ≡ Some arch_bytes
        → ¬ Rose (F.read_faults shelf.old lib) (F.read_faults shelf.new lib)
        → ¬ Rose (F.read_faults shelf.old arch) (F.read_faults shelf.new arch)
        → ¬ Rose (O.faults out.old) (O.faults out.new)
        → UnlessNoMemory result (EndsOverArchitecture lib_bytes arch_bytes result) }
    ensures sink_complete { (lib arch sink lib_bytes arch_bytes : List ℕ) → AskOfSink (texts words.now) lib arch sink
        → F.told shelf.old lib ≡ Some lib_bytes → F.told shelf.old arch ≡ Some arch_bytes
        → ¬ Rose (F.read_faults shelf.old lib) (F.read_faults shelf.new lib)
        → ¬ Rose (F.read_faults shelf.old arch) (F.read_faults shelf.new arch)
        → ¬ Rose (O.faults out.old) (O.faults out.new)
        → UnlessNoMemory result (EndsOverSink sink lib_bytes arch_bytes result) }
    ensures list_complete { (lib bytes : List ℕ) → AskForList (texts words.now) lib
        → F.told shelf.old lib ≡ Some bytes
        → ¬ Rose (F.read_faults shelf.old lib) (F.read_faults shelf.new lib)
        → ¬ Rose (O.faults out.old) (O.faults out.new)
        → UnlessNoMemory result (EndsOverLibrary bytes result) }

    // Whatever the command, bytes under its library's name that are no library are refused with their
    // first fault, and always so where no call on that file or the sink failed and there was memory.
    // An architecture and a sink's name are refused as such.
    ensures refused_library { (lib : List ℕ) → ReadsLibrary (command_of (texts words.now)) lib
        → result ≡ status_of library_refused
        → Prints ShowsRefusal (F.told shelf.old lib) (O.told out.old) (O.told out.new) }
    ensures always_refused { (lib bytes : List ℕ) (fault : LibFault) → ReadsLibrary (command_of (texts words.now)) lib
        → F.told shelf.old lib ≡ Some bytes → library_of bytes ≡ Err fault
        → ¬ Rose (F.read_faults shelf.old lib) (F.read_faults shelf.new lib)
        → ¬ Rose (O.faults out.old) (O.faults out.new)
        → (result ≡ status_of library_refused) ⊎ (result ≡ status_of no_memory) }
    ensures refused_architecture { (lib arch : List ℕ) → AskOfArchitecture (texts words.now) lib arch
        → result ≡ status_of architecture_refused
        → PrintsOver RefusesArchitecture (F.told shelf.old lib) (F.told shelf.old arch)
        (O.told out.old) (O.told out.new) }
    ensures refused_sink { (lib arch sink : List ℕ) → AskOfSink (texts words.now) lib arch sink
        → result ≡ status_of words_refused
        → PrintsOver (RefusesSink sink) (F.told shelf.old lib) (F.told shelf.old arch)
        (O.told out.old) (O.told out.new) }

    // What each answer of `generate` shows: what `solve` shows over the text of the number, under OUT,
    // with the greatest limit of branchings. A run that stops before its end leaves OUT and LOG as
    // they were, or fronts of what was due; where both could be written and the summary couldn't be
    // printed whole, they stand whole.
    ensures generated { (ask : GenerateWords) → AskToGenerate (texts words.now) ask → Answered result
        → ShowsGenerated ask result (F.told shelf.new ask.file) (F.told shelf.new ask.log)
        (O.told out.old) (O.told out.new) }
    ensures generate_stopped { (ask : GenerateWords) → AskToGenerate (texts words.now) ask
        → (result ≡ status_of write_fault) ⊎ (result ≡ status_of no_memory)
        → LeavesGenerated ask (F.told shelf.old ask.file) (F.told shelf.new ask.file)
        (F.told shelf.old ask.log) (F.told shelf.new ask.log) }
    ensures generate_written { (ask : GenerateWords) → AskToGenerate (texts words.now) ask
        → result ≡ status_of write_fault
        → ¬ Rose (F.write_faults shelf.old ask.file) (F.write_faults shelf.new ask.file)
        → ¬ Rose (F.write_faults shelf.old ask.log) (F.write_faults shelf.new ask.log)
        → CutsSummary ask (F.told shelf.new ask.file) (F.told shelf.new ask.log)
        (O.told out.old) (O.told out.new) }
    ensures generate_complete { (ask : GenerateWords) → AskToGenerate (texts words.now) ask
        → ¬ Rose (F.write_faults shelf.old ask.file) (F.write_faults shelf.new ask.file)
        → ¬ Rose (F.write_faults shelf.old ask.log) (F.write_faults shelf.new ask.log)
        → ¬ Rose (O.faults out.old) (O.faults out.new) → CompletesGeneration ask result }

    // Refused words are refused, with the place of the first that isn't as it should be, and touch
    // no file.
    ensures words_first { IsErr (command_of (texts words.now))
        → (result ≡ status_of words_refused) ⊎ (result ≡ status_of write_fault) }
    ensures refused_words { (place : ℕ) → command_of (texts words.now) ≡ Err place → result ≡ status_of words_refused
        → Appends (O.told out.old) (O.told out.new) (refused_words_text place) }
    ensures untouched { IsErr (command_of (texts words.now)) → shelf.new ≡ shelf.old }

    // There is no other status than those of the words' command. A fault has its cause in a file
    // that the command reads or writes, or in the sink; with a read fault or without memory, or where
    // a file couldn't be written, nothing was printed.
    ensures statuses { MayEnd (command_of (texts words.now)) result }
    ensures unread { result ≡ status_of read_fault → RoseAmong (files_of files_read (command_of (texts words.now)))
        (F.read_faults shelf.old) (F.read_faults shelf.new) }
    ensures write_fault { result ≡ status_of write_fault → Rose (O.faults out.old) (O.faults out.new)
        ⊎ RoseAmong (files_of files_written (command_of (texts words.now)))
        (F.write_faults shelf.old) (F.write_faults shelf.new) }
    ensures unwritten { result ≡ status_of write_fault → ¬ Rose (O.faults out.old) (O.faults out.new)
        → O.told out.new ≡ O.told out.old }
    ensures nothing_printed { (result ≡ status_of read_fault) ⊎ (result ≡ status_of no_memory)
        → O.told out.new ≡ O.told out.old }

    // A command reads and writes its own files alone. A call of the outside that fails ends the run
    // with the status of its kind.
    ensures reads_alone { ChangesOnly (files_of files_read (command_of (texts words.now)))
        (F.read_faults shelf.old) (F.read_faults shelf.new) }
    ensures writes_alone { ChangesOnly (files_of files_written (command_of (texts words.now)))
        (F.write_faults shelf.old) (F.write_faults shelf.new) }
    ensures reads_stay { ¬ (result ≡ status_of read_fault) → Stay (F.read_faults shelf.old) (F.read_faults shelf.new) }
    ensures writes_stay { ¬ (result ≡ status_of write_fault)
        → Stay (F.write_faults shelf.old) (F.write_faults shelf.new) }
    ensures prints_stay { ¬ (result ≡ status_of write_fault) → O.faults out.new ≡ O.faults out.old }

    // What the shelf tells of other names than those that the command writes stays the same, and no
    // count falls.
    ensures told_stays { (name : List ℕ) → ¬ Contains (files_of files_written (command_of (texts words.now))) name
        → F.told shelf.new name ≡ F.told shelf.old name }
    ensures reads_never_fall { (name : List ℕ) → F.read_faults shelf.old name ≤ F.read_faults shelf.new name }
    ensures writes_never_fall { (name : List ℕ) → F.write_faults shelf.old name ≤ F.write_faults shelf.new name }
    ensures never_falls { O.faults out.old ≤ O.faults out.new }
{
    run_words_alone(alloc, words, shelf, out)
}

/// Does what the words ask, as `run_plain` does, but that `solve LIB LOG BRANCHINGS WORKERS ANALYSTS`
/// searches with WORKERS workers beside each other, each in a thread of its own, of whom ANALYSTS study
/// candidates before they search; a single worker searches as `run_plain` has it. A worker calls the bell
/// when it took work. Whoever gets which node, and in whatever order, the promises are the same, for the
/// numbers of workers and analysts that were asked for.
///
/// With two or more workers it may wait; the promises hold where it returns.
pub fn run<R: Threads + Wait + Sync, F: Shelf, O: Sink, B: Bell + Sync>(
    rt: &R,
    alloc: Global,
    words: &[String],
    shelf: &mut F,
    out: &mut O,
    bell: &B,
) -> Status
    // What is said of all commands alike: a run ends as something that its words come to, printed
    // whole, or with a fault whose count rose, or for want of memory; and what it leaves.
    ensures run { Runs (searched_by as_asked (command_of (texts words.now))) result
        (seen (F.told shelf.old) (F.read_faults shelf.old) (F.write_faults shelf.old)
        (O.told out.old) (O.faults out.old))
        (seen (F.told shelf.new) (F.read_faults shelf.new) (F.write_faults shelf.new)
        (O.told out.new) (O.faults out.new)) }

    // What each status of `solve` says of the bytes of LIB, of all architectures of its template,
    // and of what was printed.
    ensures optimal { (ask : SolveWords) → AskToSolve (texts words.now) ask → result ≡ status_of done
        → Prints ShowsCheapest (F.told shelf.old ask.lib) (O.told out.old) (O.told out.new) }
    ensures infeasible { (ask : SolveWords) → AskToSolve (texts words.now) ask → result ≡ status_of infeasible
        → Prints ShowsInfeasible (F.told shelf.old ask.lib) (O.told out.old) (O.told out.new) }
    ensures limit_met { (ask : SolveWords) → AskToSolve (texts words.now) ask → result ≡ status_of node_limit
        → Prints (ShowsNodeLimit ask.branchings) (F.told shelf.old ask.lib) (O.told out.old) (O.told out.new) }
    ensures read_fault { (ask : SolveWords) → AskToSolve (texts words.now) ask → result ≡ status_of read_fault
        → Rose (F.read_faults shelf.old ask.lib) (F.read_faults shelf.new ask.lib) }
    ensures cut_short { (ask : SolveWords) → AskToSolve (texts words.now) ask → result ≡ status_of write_fault
        → PrintsFront (ShowsReport ask.branchings) (F.told shelf.old ask.lib) (O.told out.old) (O.told out.new) }

    // Every answer of `solve` is that of one history of the search, whose log stands under LOG and
    // passes, and each of whose cuts holds in every admissible architecture. A run that stops before
    // its end leaves LOG as it was, or a front of such a log.
    ensures searched { (ask : SolveWords) → AskToSolve (texts words.now) ask → Answered result
        → ShowsSearch (by_team as_asked ask) result (F.told shelf.old ask.lib) (F.told shelf.new ask.log)
        (O.told out.old) (O.told out.new) }
    ensures stopped { (ask : SolveWords) → AskToSolve (texts words.now) ask
        → (result ≡ status_of write_fault) ⊎ (result ≡ status_of no_memory)
        → LeavesLog (by_team as_asked ask) (F.told shelf.old ask.lib)
        (F.told shelf.old ask.log) (F.told shelf.new ask.log) }

    // Where the log could be written and the text couldn't be printed whole, the log stands whole. A
    // run that refuses the library, or can't read it, leaves LOG as it was.
    ensures logged { (ask : SolveWords) → AskToSolve (texts words.now) ask → result ≡ status_of write_fault
        → ¬ Rose (F.write_faults shelf.old ask.log) (F.write_faults shelf.new ask.log)
        → CutsText (by_team as_asked ask) (F.told shelf.old ask.lib) (F.told shelf.old ask.log)
        (F.told shelf.new ask.log) (O.told out.old) (O.told out.new) }
    ensures log_stays { (ask : SolveWords) → AskToSolve (texts words.now) ask
        → (result ≡ status_of library_refused) ⊎ (result ≡ status_of read_fault)
        → F.told shelf.new ask.log ≡ F.told shelf.old ask.log }

    // A library that the shelf tells is searched or refused, where no call of the outside failed and
    // there was memory. A limit of 2 to the number of its members is never met.
    ensures complete { (ask : SolveWords) (bytes : List ℕ) → AskToSolve (texts words.now) ask
        → F.told shelf.old ask.lib ≡ Some bytes
        → ¬ Rose (F.read_faults shelf.old ask.lib) (F.read_faults shelf.new ask.lib)
        → ¬ Rose (F.write_faults shelf.old ask.log) (F.write_faults shelf.new ask.log)
        → ¬ Rose (O.faults out.old) (O.faults out.new) → Completes ask.branchings bytes result }
    ensures enough { (ask : SolveWords) (bytes : List ℕ) (lib : LibraryParts) → AskToSolve (texts words.now) ask
        → F.told shelf.old ask.lib ≡ Some bytes → library_of bytes ≡ Ok lib
        → 2 ^ member_count lib ≤ ask.branchings → ¬ (result ≡ status_of node_limit) }

    // What each status of `check` says of the bytes of LIB and LOG, whoever wrote the log, of all
    // architectures, and of what was printed. A yes comes exactly of a log that passes, where no call
    // of the outside failed and there was memory, and else a no, with the log's first broken line.
    ensures yes { (lib log : List ℕ) → AskToCheck (texts words.now) lib log → result ≡ status_of done
        → PrintsOver ShowsYes (F.told shelf.old lib) (F.told shelf.old log)
        (O.told out.old) (O.told out.new) }
    ensures no { (lib log : List ℕ) → AskToCheck (texts words.now) lib log → result ≡ status_of log_refused
        → PrintsOver ShowsNo (F.told shelf.old lib) (F.told shelf.old log)
        (O.told out.old) (O.told out.new) }
    ensures check_complete { (lib log lib_bytes log_bytes : List ℕ) → AskToCheck (texts words.now) lib log
        → F.told shelf.old lib ≡ Some lib_bytes → F.told shelf.old log ≡ Some log_bytes
        → ¬ Rose (F.read_faults shelf.old lib) (F.read_faults shelf.new lib)
        → ¬ Rose (F.read_faults shelf.old log) (F.read_faults shelf.new log)
        → ¬ Rose (O.faults out.old) (O.faults out.new) → CompletesCheck lib_bytes log_bytes result }

    // What status 0 of the other commands that read says of the bytes of LIB and ARCH, of SINK and of
    // what was printed.
    ensures weighed { (lib arch : List ℕ) → AskToWeigh (texts words.now) lib arch → result ≡ status_of done
        → PrintsOver ShowsWeighing (F.told shelf.old lib) (F.told shelf.old arch)
        (O.told out.old) (O.told out.new) }
    ensures cuts { (lib arch sink : List ℕ) → AskForCuts (texts words.now) lib arch sink → result ≡ status_of done
        → PrintsOver (ShowsCuts sink) (F.told shelf.old lib) (F.told shelf.old arch)
        (O.told out.old) (O.told out.new) }
    ensures mass { (lib arch sink : List ℕ) → AskForMass (texts words.now) lib arch sink → result ≡ status_of done
        → PrintsOver (ShowsMass sink) (F.told shelf.old lib) (F.told shelf.old arch)
        (O.told out.old) (O.told out.new) }
    ensures template { (lib : List ℕ) → AskForTemplate (texts words.now) lib → result ≡ status_of done
        → Prints ShowsTemplate (F.told shelf.old lib) (O.told out.old) (O.told out.new) }
    ensures rows { (lib : List ℕ) → AskForRows (texts words.now) lib → result ≡ status_of done
        → Prints ShowsRows (F.told shelf.old lib) (O.told out.old) (O.told out.new) }

    // What they come to, where no call of the outside failed and there was memory.
    ensures weigh_complete { (lib arch lib_bytes arch_bytes : List ℕ) → AskToWeigh (texts words.now) lib arch
        → F.told shelf.old lib ≡ Some lib_bytes → F.told shelf.old arch ≡ Some arch_bytes
        → ¬ Rose (F.read_faults shelf.old lib) (F.read_faults shelf.new lib)
        → ¬ Rose (F.read_faults shelf.old arch) (F.read_faults shelf.new arch)
        → ¬ Rose (O.faults out.old) (O.faults out.new)
        → UnlessNoMemory result (EndsOverArchitecture lib_bytes arch_bytes result) }
    ensures sink_complete { (lib arch sink lib_bytes arch_bytes : List ℕ) → AskOfSink (texts words.now) lib arch sink
        → F.told shelf.old lib ≡ Some lib_bytes → F.told shelf.old arch ≡ Some arch_bytes
        → ¬ Rose (F.read_faults shelf.old lib) (F.read_faults shelf.new lib)
        → ¬ Rose (F.read_faults shelf.old arch) (F.read_faults shelf.new arch)
        → ¬ Rose (O.faults out.old) (O.faults out.new)
        → UnlessNoMemory result (EndsOverSink sink lib_bytes arch_bytes result) }
    ensures list_complete { (lib bytes : List ℕ) → AskForList (texts words.now) lib
        → F.told shelf.old lib ≡ Some bytes
        → ¬ Rose (F.read_faults shelf.old lib) (F.read_faults shelf.new lib)
        → ¬ Rose (O.faults out.old) (O.faults out.new)
        → UnlessNoMemory result (EndsOverLibrary bytes result) }

    // Whatever the command, bytes under its library's name that are no library are refused with their
    // first fault, and always so where no call on that file or the sink failed and there was memory.
    // An architecture and a sink's name are refused as such.
    ensures refused_library { (lib : List ℕ) → ReadsLibrary (command_of (texts words.now)) lib
        → result ≡ status_of library_refused
        → Prints ShowsRefusal (F.told shelf.old lib) (O.told out.old) (O.told out.new) }
    ensures always_refused { (lib bytes : List ℕ) (fault : LibFault) → ReadsLibrary (command_of (texts words.now)) lib
        → F.told shelf.old lib ≡ Some bytes → library_of bytes ≡ Err fault
        → ¬ Rose (F.read_faults shelf.old lib) (F.read_faults shelf.new lib)
        → ¬ Rose (O.faults out.old) (O.faults out.new)
        → (result ≡ status_of library_refused) ⊎ (result ≡ status_of no_memory) }
    ensures refused_architecture { (lib arch : List ℕ) → AskOfArchitecture (texts words.now) lib arch
        → result ≡ status_of architecture_refused
        → PrintsOver RefusesArchitecture (F.told shelf.old lib) (F.told shelf.old arch)
        (O.told out.old) (O.told out.new) }
    ensures refused_sink { (lib arch sink : List ℕ) → AskOfSink (texts words.now) lib arch sink
        → result ≡ status_of words_refused
        → PrintsOver (RefusesSink sink) (F.told shelf.old lib) (F.told shelf.old arch)
        (O.told out.old) (O.told out.new) }

    // What each answer of `generate` shows: what `solve` shows over the text of the number, under OUT,
    // with the greatest limit of branchings. A run that stops before its end leaves OUT and LOG as
    // they were, or fronts of what was due; where both could be written and the summary couldn't be
    // printed whole, they stand whole.
    ensures generated { (ask : GenerateWords) → AskToGenerate (texts words.now) ask → Answered result
        → ShowsGenerated ask result (F.told shelf.new ask.file) (F.told shelf.new ask.log)
        (O.told out.old) (O.told out.new) }
    ensures generate_stopped { (ask : GenerateWords) → AskToGenerate (texts words.now) ask
        → (result ≡ status_of write_fault) ⊎ (result ≡ status_of no_memory)
        → LeavesGenerated ask (F.told shelf.old ask.file) (F.told shelf.new ask.file)
        (F.told shelf.old ask.log) (F.told shelf.new ask.log) }
    ensures generate_written { (ask : GenerateWords) → AskToGenerate (texts words.now) ask
        → result ≡ status_of write_fault
        → ¬ Rose (F.write_faults shelf.old ask.file) (F.write_faults shelf.new ask.file)
        → ¬ Rose (F.write_faults shelf.old ask.log) (F.write_faults shelf.new ask.log)
        → CutsSummary ask (F.told shelf.new ask.file) (F.told shelf.new ask.log)
        (O.told out.old) (O.told out.new) }
    ensures generate_complete { (ask : GenerateWords) → AskToGenerate (texts words.now) ask
        → ¬ Rose (F.write_faults shelf.old ask.file) (F.write_faults shelf.new ask.file)
        → ¬ Rose (F.write_faults shelf.old ask.log) (F.write_faults shelf.new ask.log)
        → ¬ Rose (O.faults out.old) (O.faults out.new) → CompletesGeneration ask result }

    // Refused words are refused, with the place of the first that isn't as it should be, and touch
    // no file.
    ensures words_first { IsErr (command_of (texts words.now))
        → (result ≡ status_of words_refused) ⊎ (result ≡ status_of write_fault) }
    ensures refused_words { (place : ℕ) → command_of (texts words.now) ≡ Err place → result ≡ status_of words_refused
        → Appends (O.told out.old) (O.told out.new) (refused_words_text place) }
    ensures untouched { IsErr (command_of (texts words.now)) → shelf.new ≡ shelf.old }

    // There is no other status than those of the words' command. A fault has its cause in a file
    // that the command reads or writes, or in the sink; with a read fault or without memory, or where
    // a file couldn't be written, nothing was printed.
    ensures statuses { MayEnd (command_of (texts words.now)) result }
    ensures unread { result ≡ status_of read_fault → RoseAmong (files_of files_read (command_of (texts words.now)))
        (F.read_faults shelf.old) (F.read_faults shelf.new) }
    ensures write_fault { result ≡ status_of write_fault → Rose (O.faults out.old) (O.faults out.new)
        ⊎ RoseAmong (files_of files_written (command_of (texts words.now)))
        (F.write_faults shelf.old) (F.write_faults shelf.new) }
    ensures unwritten { result ≡ status_of write_fault → ¬ Rose (O.faults out.old) (O.faults out.new)
        → O.told out.new ≡ O.told out.old }
    ensures nothing_printed { (result ≡ status_of read_fault) ⊎ (result ≡ status_of no_memory)
        → O.told out.new ≡ O.told out.old }

    // A command reads and writes its own files alone. A call of the outside that fails ends the run
    // with the status of its kind.
    ensures reads_alone { ChangesOnly (files_of files_read (command_of (texts words.now)))
        (F.read_faults shelf.old) (F.read_faults shelf.new) }
    ensures writes_alone { ChangesOnly (files_of files_written (command_of (texts words.now)))
        (F.write_faults shelf.old) (F.write_faults shelf.new) }
    ensures reads_stay { ¬ (result ≡ status_of read_fault) → Stay (F.read_faults shelf.old) (F.read_faults shelf.new) }
    ensures writes_stay { ¬ (result ≡ status_of write_fault)
        → Stay (F.write_faults shelf.old) (F.write_faults shelf.new) }
    ensures prints_stay { ¬ (result ≡ status_of write_fault) → O.faults out.new ≡ O.faults out.old }

    // What the shelf tells of other names than those that the command writes stays the same, and no
    // count falls.
    ensures told_stays { (name : List ℕ) → ¬ Contains (files_of files_written (command_of (texts words.now))) name
        → F.told shelf.new name ≡ F.told shelf.old name }
    ensures reads_never_fall { (name : List ℕ) → F.read_faults shelf.old name ≤ F.read_faults shelf.new name }
    ensures writes_never_fall { (name : List ℕ) → F.write_faults shelf.old name ≤ F.write_faults shelf.new name }
    ensures never_falls { O.faults out.old ≤ O.faults out.new }
{
    run_words(rt, alloc, words, shelf, out, bell)
}
