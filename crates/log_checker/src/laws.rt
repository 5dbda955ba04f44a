//! Laws of checking, each the contract of a function without a body.
ghost use Rattle.std.specs.Prelude.{◌≡◌, ℕ, ◌≤◌, List, length, filter, Option, IfSome};
ghost use Rattle.arch_model.specs.Library.{IsLibrary};
ghost use Rattle.rows.specs.Parts.{ProblemParts};
ghost use Rattle.rows.specs.Problem.{IsProblem};
ghost use Rattle.search_core.specs.declared.rule.Rule.{Rule};
ghost use Rattle.search_core.specs.declared.answer.Answer.{Answer};
ghost use Rattle.search_core.specs.History.{is_branch};
ghost use Rattle.search_core.specs.Solved.{NoneAdmissible};
ghost use Rattle.proof_log.specs.Log.{LOG_BYTES, Accepts};
ghost use Rattle.log_checker.specs.Phase.{Phase, IsPhaseOf, IsClosedWith};
ghost use Rattle.log_checker.specs.Phase as phases;
ghost use Rattle.log_checker.specs.Feeding.{LineLeads, LinesLead};
ghost use Rattle.log_checker.specs.Breaking.{LineBreaks};
ghost use Rattle.log_checker.specs.Text.{IsMadeOf, FirstBrokenLine};
ghost use Rattle.log_checker.specs.Yes.{IsCostOfOne, IsLeastCost, last_limit};

use search_core::Answer;

/// A line leads to one phase, or breaks one rule first, and never both. That it can't be neither
/// holds of each problem and each phase that the types admit.
pub fn a_line_leads_on_or_breaks_one_rule_first()
    ensures one_phase { (problem : ProblemParts) (old a b : Phase) (line : List ℕ)
        → LineLeads problem old line a → LineLeads problem old line b → a ≡ b }
    ensures one_rule { (problem : ProblemParts) (phase : Phase) (line : List ℕ) (a b : Rule)
        → LineBreaks problem phase line a → LineBreaks problem phase line b → a ≡ b }
    ensures never_both { (problem : ProblemParts) (old new : Phase) (line : List ℕ)
        (broken : Rule)
        → LineLeads problem old line new → LineBreaks problem old line broken → ⊥ }
    ensures one_of_both { (problem : ProblemParts) (old : Phase) (line : List ℕ)
        → IsLibrary problem.library → IsProblem problem → IsPhaseOf problem old
        → ((new : Phase) → LineLeads problem old line new → ⊥)
        → ((broken : Rule) → LineBreaks problem old line broken → ⊥) → ⊥ }
{}

/// A text passes with an answer exactly where it is made of lines that lead to a closing line with
/// that answer, and has at most 2^32 bytes.
pub fn a_text_passes_where_its_lines_lead_to_an_answer()
    ensures passes { (problem : ProblemParts) (text : List ℕ) (lines : List (List ℕ))
        (phase : Phase) (answer : Answer)
        → IsMadeOf text lines → length text ≤ LOG_BYTES
        → LinesLead problem phases.Begun lines phase → IsClosedWith answer phase
        → Accepts problem text answer }
    ensures leads { (problem : ProblemParts) (text : List ℕ) (lines : List (List ℕ))
        (answer : Answer) → IsMadeOf text lines → Accepts problem text answer
        → (phase : Phase) × LinesLead problem phases.Begun lines phase
        × IsClosedWith answer phase }
    ensures whole { (problem : ProblemParts) (text : List ℕ) (answer : Answer)
        → Accepts problem text answer → (lines : List (List ℕ)) × IsMadeOf text lines }
    ensures few { (problem : ProblemParts) (text : List ℕ) (answer : Answer)
        → Accepts problem text answer → length text ≤ LOG_BYTES }
{}

/// A text passes with an answer, or has a first broken line, and never both: there is one such
/// line then, and one rule that it breaks first. That it can't be neither holds of each problem
/// that the types admit.
pub fn a_text_passes_or_has_one_first_broken_line()
    ensures one_line { (problem : ProblemParts) (text : List ℕ) (m n : ℕ) (a b : Rule)
        → FirstBrokenLine problem text m a → FirstBrokenLine problem text n b → m ≡ n }
    ensures one_rule { (problem : ProblemParts) (text : List ℕ) (m n : ℕ) (a b : Rule)
        → FirstBrokenLine problem text m a → FirstBrokenLine problem text n b → a ≡ b }
    ensures none_where_it_passes { (problem : ProblemParts) (text : List ℕ) (answer : Answer)
        (n : ℕ) (broken : Rule)
        → Accepts problem text answer → FirstBrokenLine problem text n broken → ⊥ }
    ensures one_of_both { (problem : ProblemParts) (text : List ℕ)
        → IsLibrary problem.library → IsProblem problem
        → ((answer : Answer) → Accepts problem text answer → ⊥)
        → ((n : ℕ) (broken : Rule) → FirstBrokenLine problem text n broken → ⊥) → ⊥ }
{}

/// A yes is right for the library, whoever or whatever made the log. Where it is optimal, some
/// admissible architecture has its cost and none is cheaper; where it is infeasible, none is
/// admissible; at the node limit, the log's branchings are as many as the last limit that it
/// states, and an incumbent's cost is that of an admissible architecture.
pub fn a_yes_is_right()
    ensures optimal { (problem : ProblemParts) (text : List ℕ)
        → IsLibrary problem.library → IsProblem problem → (cost : ℕ)
        → Accepts problem text (Answer.Optimal cost) → IsLeastCost problem.library cost }
    ensures infeasible { (problem : ProblemParts) (text : List ℕ)
        → IsLibrary problem.library → IsProblem problem
        → Accepts problem text Answer.Infeasible → NoneAdmissible problem.library }
    ensures limit { (problem : ProblemParts) (text : List ℕ)
        → IsLibrary problem.library → IsProblem problem → (incumbent : Option ℕ)
        → (x : Accepts problem text (Answer.NodeLimit incumbent))
        → length (filter is_branch x.entries) ≡ last_limit x.limit x.entries }
    ensures incumbent { (problem : ProblemParts) (text : List ℕ)
        → IsLibrary problem.library → IsProblem problem → (incumbent : Option ℕ)
        → Accepts problem text (Answer.NodeLimit incumbent)
        → IfSome incumbent (IsCostOfOne problem.library) }
{}
