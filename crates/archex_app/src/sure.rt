// The top call where nothing outside can fail.
ghost use Rattle.std.specs.Prelude.{◌≡◌, ℕ, List, Some, IsErr};
ghost use Rattle.outside.specs.Sure.{sure_told};
ghost use Rattle.archex_app.specs.Words.{texts, command_of, SolveWords, GenerateWords, AskToSolve};
ghost use Rattle.archex_app.specs.Words.{AskToWeigh, AskOfSink, AskForList, AskToGenerate};
ghost use Rattle.archex_app.specs.Status.{status_of, words_refused};
ghost use Rattle.archex_app.specs.Endings.{MayEnd};
ghost use Rattle.archex_app.specs.Complete.{Completes, UnlessNoMemory, CompletesGeneration};
ghost use Rattle.archex_app.specs.Complete.{EndsOverLibrary, EndsOverArchitecture, EndsOverSink};

use crate::status::Status;
use crate::top::run_plain;
use outside::{SureShelf, SureSink};
use std::alloc::Global;

/// `run_plain` over a shelf and a sink whose calls never fail. What always comes needs no premise
/// on counts here: refused words are answered as such; a library that the shelf tells is searched or
/// listed, an architecture that it tells is weighed, and the cut sets or the mass of a sink in it are
/// printed, or what is wrong is refused; and the library of a number is searched: unless there was no
/// memory.
pub fn run_surely(
    alloc: Global,
    words: &[String],
    shelf: &mut SureShelf,
    out: &mut SureSink,
) -> Status
    ensures words_first { IsErr (command_of (texts words.now)) → result ≡ status_of words_refused }
    ensures complete { (ask : SolveWords) (bytes : List ℕ) → AskToSolve (texts words.now) ask
        → sure_told shelf.old ask.lib ≡ Some bytes → Completes ask.branchings bytes result }
    ensures weigh_complete { (lib arch lib_bytes arch_bytes : List ℕ) → AskToWeigh (texts words.now) lib arch
        → sure_told shelf.old lib ≡ Some lib_bytes → sure_told shelf.old arch ≡ Some arch_bytes
        → UnlessNoMemory result (EndsOverArchitecture lib_bytes arch_bytes result) }
    ensures sink_complete { (lib arch sink lib_bytes arch_bytes : List ℕ) → AskOfSink (texts words.now) lib arch sink
        → sure_told shelf.old lib ≡ Some lib_bytes → sure_told shelf.old arch ≡ Some arch_bytes
        → UnlessNoMemory result (EndsOverSink sink lib_bytes arch_bytes result) }
    ensures list_complete { (lib bytes : List ℕ) → AskForList (texts words.now) lib
        → sure_told shelf.old lib ≡ Some bytes → UnlessNoMemory result (EndsOverLibrary bytes result) }
    ensures generate_complete { (ask : GenerateWords) → AskToGenerate (texts words.now) ask
        → CompletesGeneration ask result }
    ensures statuses { MayEnd (command_of (texts words.now)) result }
{
    run_plain(alloc, words, shelf, out)
}
