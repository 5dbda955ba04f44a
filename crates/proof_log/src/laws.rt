//! Laws of the log's text, each the contract of a function without a body.
ghost use Rattle.std.specs.Prelude.{◌≡◌, ℕ, ◌≤◌, ◌++◌, List, length, Some};
ghost use Rattle.std.specs.List.{flat_map, AllByRecursion};
ghost use Rattle.arch_model.specs.Library.{IsLibrary};
ghost use Rattle.rows.specs.Parts.{ProblemParts};
ghost use Rattle.rows.specs.Problem.{IsProblem};
ghost use Rattle.search_core.specs.declared.entry.Entry.{Entry};
ghost use Rattle.search_core.specs.declared.answer.Answer.{Answer};
ghost use Rattle.search_core.specs.State.{SearchState};
ghost use Rattle.search_core.specs.History.{Reaches, HasNoReopen};
ghost use Rattle.search_core.specs.Answers.{answer_of};
ghost use Rattle.proof_log.specs.declared.log_line.TheConstants.{LINE_BYTES};
ghost use Rattle.proof_log.specs.declared.log_line.LineFault.{LineFault};
ghost use Rattle.proof_log.specs.declared.log_line.LogLine.{LogLine};
ghost use Rattle.proof_log.specs.Line.{Line};
ghost use Rattle.proof_log.specs.Fault.{IsInRange, ListsAscend, BreaksNone, LineBreaksFirst};
ghost use Rattle.proof_log.specs.Value.{log_line, text_of, ended, header_text, entry_text, closing_text};
ghost use Rattle.proof_log.specs.Log.{IsLoggable, NoEdgeFails, log_lines, log_text_of, Accepts};

/// Each line has one spelling: its text determines it.
pub fn each_line_has_one_spelling()
    ensures { (x y : Line ℕ) → IsInRange x → ListsAscend x → IsInRange y → ListsAscend y
        → text_of x ≡ text_of y → x ≡ y }
{}

/// The text of what can be logged determines it.
pub fn a_text_determines_its_value()
    ensures { (x y : LogLine) → IsLoggable x → IsLoggable y
        → text_of (log_line x) ≡ text_of (log_line y) → x ≡ y }
{}

/// What can be logged breaks no rule of a line, unless it is too long.
pub fn what_is_written_breaks_no_rule()
    ensures { (x : LogLine) → IsLoggable x → length (text_of (log_line x)) ≤ LINE_BYTES
        → BreaksNone (text_of (log_line x)) }
{}

/// A line breaks no rule, or exactly one of them first.
pub fn a_line_breaks_no_rule_or_one_first()
    ensures never_two { (line : List ℕ) (a b : LineFault)
        → LineBreaksFirst line a → LineBreaksFirst line b → a ≡ b }
    ensures never_both { (line : List ℕ) (a : LineFault)
        → BreaksNone line → LineBreaksFirst line a → ⊥ }
    ensures some { (line : List ℕ)
        → ((a : LineFault) → LineBreaksFirst line a → ⊥) → BreaksNone line }
{}

/// The text of a log is its header, the lines of its entries and its closing line, so it is what
/// `header`, `write_entry` for each entry and `closing` write one after another.
pub fn a_log_is_written_line_by_line()
    ensures { (problem : ProblemParts) (limit : ℕ) (entries : List Entry) (answer : Answer)
        (branchings cuts : ℕ)
        → log_text_of problem limit entries answer branchings cuts
        ≡ header_text problem limit ++ (flat_map (λ e. ended (entry_text e)) entries
        ++ ended (closing_text answer branchings cuts)) }
{}

/// The text of a log determines its limit, its entries and its closing line.
pub fn a_text_determines_its_log()
    ensures { (problem : ProblemParts) (limit limit' : ℕ) (entries entries' : List Entry)
        (answer answer' : Answer) (branchings branchings' cuts cuts' : ℕ)
        → AllByRecursion IsLoggable (log_lines problem limit entries answer branchings cuts)
        → AllByRecursion IsLoggable (log_lines problem limit' entries' answer' branchings' cuts')
        → log_text_of problem limit entries answer branchings cuts
        ≡ log_text_of problem limit' entries' answer' branchings' cuts'
        → (limit ≡ limit') × (entries ≡ entries') × (answer ≡ answer')
        × (branchings ≡ branchings') × (cuts ≡ cuts') }
{}

/// A log passes with one answer, and only as the log of one limit and one history.
pub fn a_log_passes_with_one_answer()
    ensures answer { (problem : ProblemParts) (bytes : List ℕ) (a b : Answer)
        → Accepts problem bytes a → Accepts problem bytes b → a ≡ b }
    ensures limit { (problem : ProblemParts) (bytes : List ℕ) (a b : Answer)
        (x : Accepts problem bytes a) (y : Accepts problem bytes b) → x.limit ≡ y.limit }
    ensures entries { (problem : ProblemParts) (bytes : List ℕ) (a b : Answer)
        (x : Accepts problem bytes a) (y : Accepts problem bytes b) → x.entries ≡ y.entries }
{}

/// The log of a finished search passes, where no edge can fail. Of a legal history that changes no
/// limit and leads to an answer, each line can be read, and the whole has at most 2^32 bytes.
pub fn logs_of_searches_pass()
    ensures { (problem : ProblemParts) (limit : ℕ) (entries : List Entry) (state : SearchState)
        (answer : Answer)
        → IsLibrary problem.library → IsProblem problem → NoEdgeFails problem.library
        → Reaches problem limit entries state → HasNoReopen entries
        → answer_of state ≡ Some answer
        → Accepts problem
        (log_text_of problem limit entries answer state.branchings (length state.cuts))
        answer }
{}
