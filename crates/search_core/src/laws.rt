//! Laws of the search, each the contract of a function without a body.
ghost use Rattle.std.specs.Prelude.{◌≡◌, ◌↔◌, ℕ, ◌+◌, ◌*◌, ◌^◌, ◌≤◌, List, [], ◌∷◌, ◌++◌, filter};
ghost use Rattle.std.specs.Prelude.{length, Option, Some, None, Ok, true};
ghost use Rattle.std.specs.Option.{IsSomeAnd};
ghost use Rattle.arch_model.specs.Library.{IsLibrary};
ghost use Rattle.arch_model.specs.Member.{member_count};
ghost use Rattle.std.specs.FinMap as finmap;
ghost use Rattle.arch_model.specs.Parts.{ArchitectureParts};
ghost use Rattle.rows.specs.declared.known.RowRef.{RowRef};
ghost use Rattle.rows.specs.Parts.{CubeParts, KnownParts, ProblemParts};
ghost use Rattle.rows.specs.Trace.{cube_after};
ghost use Rattle.rows.specs.Problem.{IsProblem, IsCandidate};
ghost use Rattle.redundancy_cut.specs.declared.cut.Cut.{Cut};
ghost use Rattle.redundancy_cut.specs.ChosenCut.{chosen_cut_of};
ghost use Rattle.incumbent.specs.Best.{best_cost};
ghost use Rattle.search_core.specs.declared.limits.TheConstants as limits;
ghost use Rattle.search_core.specs.declared.entry.Entry.{Entry};
ghost use Rattle.search_core.specs.declared.rule.Rule.{Rule};
ghost use Rattle.search_core.specs.Rules.{FirstBroken};
ghost use Rattle.search_core.specs.Follow.{follow_trace};
ghost use Rattle.search_core.specs.Node.{Node, IsCandidateCube};
ghost use Rattle.search_core.specs.State.{SearchState, start_of};
ghost use Rattle.search_core.specs.Candidate.{candidate_of};
ghost use Rattle.search_core.specs.Step.{IsStudied, Publishes, Step};
ghost use Rattle.search_core.specs.History.{Steps, Reaches, IsLegal, IsReached, GoesOn};
ghost use Rattle.search_core.specs.History.{IsAtRest, IsAllOpen, NothingParked, IsComplete};
ghost use Rattle.search_core.specs.History.{is_reopen, is_branch, is_publish, HasNoReopen};
ghost use Rattle.search_core.specs.Parts.{StateParts, IsStateOf, HasCandidateAt, HasStudied};
ghost use Rattle.search_core.specs.Answers.{answer_by, answer_of};
ghost use Rattle.search_core.specs.Diligent.{IsDiligent};
ghost use Rattle.search_core.specs.Invariant.{SearchInvariant, IsOver};
ghost use Rattle.search_core.specs.Solved.{IsLeastBest, NoneAdmissible, IsAtLimit};

use crate::answer::Answer;

/// An entry leads from a state to one state at most, and so does a list of entries.
pub fn steps_are_determined()
    ensures step { (problem : ProblemParts) (old a b : SearchState) (entry : Entry)
        → Step problem old entry a → Step problem old entry b → a ≡ b }
    ensures steps { (problem : ProblemParts) (entries : List Entry) (old a b : SearchState)
        → Steps problem old entries a → Steps problem old entries b → a ≡ b }
{}

/// A history that is legal for a limit leads to one state. The history without entries is legal,
/// and a legal history is still legal with one more entry that is a step from where it leads.
pub fn legal_histories_lead_to_one_state()
    ensures start { (problem : ProblemParts) (limit : ℕ) → limit ≤ limits.BRANCHINGS
        → Reaches problem limit [] (start_of limit) }
    ensures next { (problem : ProblemParts) (limit : ℕ) (entries : List Entry)
        (old new : SearchState) (entry : Entry) → Reaches problem limit entries old
        → Step problem old entry new
        → Reaches problem limit (entries ++ entry ∷ []) new }
    ensures one { (problem : ProblemParts) (limit : ℕ) (entries : List Entry) (a b : SearchState)
        → Reaches problem limit entries a → Reaches problem limit entries b → a ≡ b }
{}

/// The entries of a diligent history are steps, so that from a start it is legal. Where diligent
/// entries lead to a state and others are diligent from there, all of them are diligent together,
/// and so are the first of diligent entries and the rest.
pub fn diligent_histories_are_legal()
    ensures legal { (problem : ProblemParts) (analysts limit : ℕ) (entries : List Entry)
        → limit ≤ limits.BRANCHINGS → IsDiligent problem analysts (start_of limit) entries
        → IsLegal problem limit entries }
    ensures steps { (problem : ProblemParts) (analysts : ℕ) (old : SearchState)
        (entries : List Entry)
        → IsDiligent problem analysts old entries
        → (new : SearchState) × Steps problem old entries new }
    ensures join { (problem : ProblemParts) (analysts : ℕ) (first rest : List Entry)
        (old mid : SearchState)
        → IsDiligent problem analysts old first → Steps problem old first mid
        → IsDiligent problem analysts mid rest → IsDiligent problem analysts old (first ++ rest) }
    ensures part { (problem : ProblemParts) (analysts : ℕ) (first rest : List Entry)
        (old : SearchState)
        → IsDiligent problem analysts old (first ++ rest) → IsDiligent problem analysts old first
        × ((mid : SearchState) × Steps problem old first mid
        × IsDiligent problem analysts mid rest) }
{}

/// In a state that a legal history leads to, the candidate of a node that is pending or under study
/// meets every pattern and has every required sink, so it is an architecture of the library; and so
/// is what the code's state tells of such a node.
pub fn candidates_meet_the_patterns()
    ensures node { (problem : ProblemParts) (state : SearchState) (number : ℕ) (node : Node)
        (cube : CubeParts)
        → IsLibrary problem.library → IsProblem problem → IsReached problem state
        → finmap.get state.nodes number ≡ Some node → IsCandidateCube node cube
        → IsCandidate problem.library (candidate_of problem.library cube) }
    ensures told { (problem : ProblemParts) (state : StateParts) (number : ℕ)
        (arch : ArchitectureParts)
        → IsLibrary problem.library → IsProblem problem → IsStateOf problem state
        → HasCandidateAt state number arch → IsCandidate problem.library arch }
    ensures studied { (problem : ProblemParts) (state : StateParts) (worker number : ℕ)
        (arch : ArchitectureParts) → IsLibrary problem.library → IsProblem problem
        → IsStateOf problem state → HasStudied state worker number arch
        → IsCandidate problem.library arch }
{}

/// The cut that must be published for the candidate under a worker's study may be published for it:
/// it is right, and its row is refuted there.
pub fn chosen_cuts_may_be_published()
    ensures { (problem : ProblemParts) (state : SearchState) (worker node : ℕ) (cut : Cut)
        → IsLibrary problem.library → IsProblem problem → IsReached problem state
        → (s : IsStudied state worker node)
        → chosen_cut_of problem.library (candidate_of problem.library s.cube) ≡ Some cut
        → (new : SearchState) × Publishes problem state worker node cut new }
{}

/// A state is complete exactly where it is at rest and nothing is parked, and it has no answer
/// exactly where it isn't at rest. The answer of a complete state is that of its best.
pub fn complete_states_are_at_rest()
    ensures complete { (state : SearchState)
        → IsComplete state ↔ (IsAtRest state × NothingParked state) }
    ensures none { (state : SearchState) → (answer_of state ≡ None) ↔ (IsAtRest state → ⊥) }
    ensures best { (state : SearchState) → IsComplete state
        → answer_of state ≡ Some (answer_by state.best) }
{}

/// An entry that breaks a rule is no step, so that `step` refuses only what is none. One rule at
/// most is the first that an entry breaks.
pub fn broken_rules_are_no_steps()
    ensures none { (problem : ProblemParts) (old new : SearchState) (entry : Entry) (broken : Rule)
        → FirstBroken problem old entry broken → Step problem old entry new → ⊥ }
    ensures one { (problem : ProblemParts) (old : SearchState) (entry : Entry) (a b : Rule)
        → FirstBroken problem old entry a → FirstBroken problem old entry b → a ≡ b }
{}

/// Following a trace step by step ends at a cube exactly where the trace is legal and reaches that
/// cube, so that it names a broken rule exactly where the trace isn't legal.
pub fn legal_traces_are_followed()
    ensures { (known : KnownParts) (cube after : CubeParts) (trace : List RowRef)
        → (follow_trace known cube trace ≡ Ok after) ↔ (cube_after known cube trace ≡ Some after) }
{}

/// Every step keeps, all together, what the invariant says; it holds at the start, and so of each
/// state that a legal history leads to, whoever made its entries and in whatever order.
pub fn every_step_keeps_the_invariant()
    ensures start_over { (problem : ProblemParts) (limit : ℕ) → IsOver problem (start_of limit) }
    ensures start { (problem : ProblemParts) (limit : ℕ)
        → SearchInvariant problem (start_of limit) }
    ensures step { (problem : ProblemParts) (old new : SearchState) (entry : Entry)
        → IsLibrary problem.library → IsProblem problem
        → IsOver problem old → SearchInvariant problem old → Step problem old entry new
        → IsOver problem new × SearchInvariant problem new }
    ensures reached_over { (problem : ProblemParts) (state : SearchState)
        → IsLibrary problem.library → IsProblem problem
        → IsReached problem state → IsOver problem state }
    ensures reached { (problem : ProblemParts) (state : SearchState)
        → IsLibrary problem.library → IsProblem problem
        → IsReached problem state → SearchInvariant problem state }
    ensures legal { (problem : ProblemParts) (limit : ℕ) (entries : List Entry)
        → IsLibrary problem.library → IsProblem problem
        → (is : IsLegal problem limit entries) → SearchInvariant problem is.0 }
{}

/// Where nothing is held, pending, under study or parked, a history without a change of the limit
/// has at most 4 entries for each of the 2b+1 nodes that there can be, b the branchings at its end.
pub fn histories_are_bounded()
    ensures { (problem : ProblemParts) (old new : SearchState) (entries : List Entry)
        → IsLibrary problem.library → IsProblem problem
        → IsReached problem old → IsAllOpen old → HasNoReopen entries
        → Steps problem old entries new
        → length entries ≤ 4 * (2 * new.branchings + 1) }
{}

/// The branchings of a state that entries lead to are as many more as there are Branch entries, its
/// cuts as many more as there are Publish entries, and its limit is the same where none of them
/// changes it.
pub fn entries_are_counted()
    ensures branchings { (problem : ProblemParts) (old new : SearchState) (entries : List Entry)
        → Steps problem old entries new
        → new.branchings ≡ old.branchings + length (filter is_branch entries) }
    ensures cuts { (problem : ProblemParts) (old new : SearchState) (entries : List Entry)
        → Steps problem old entries new
        → length new.cuts ≡ length old.cuts + length (filter is_publish entries) }
    ensures limit { (problem : ProblemParts) (old new : SearchState) (entries : List Entry)
        → HasNoReopen entries → Steps problem old entries new → new.limit ≡ old.limit }
{}

/// Entries lead from a state to another by way of a third exactly where the first of them lead to
/// that and the rest on from there.
pub fn histories_go_on()
    ensures join { (problem : ProblemParts) (first rest : List Entry) (old mid new : SearchState)
        → Steps problem old first mid → Steps problem mid rest new
        → Steps problem old (first ++ rest) new }
    ensures part { (problem : ProblemParts) (first rest : List Entry) (old new : SearchState)
        → Steps problem old (first ++ rest) new
        → (mid : SearchState) × Steps problem old first mid × Steps problem mid rest new }
{}

/// The cuts of a state are the first cuts of each state that entries lead to from it.
pub fn cuts_only_grow()
    ensures { (problem : ProblemParts) (old new : SearchState) (entries : List Entry)
        → Steps problem old entries new → GoesOn old.cuts new.cuts }
{}

/// No entry but a change of the limit is a step from a state at rest.
pub fn rest_is_final()
    ensures { (problem : ProblemParts) (old new : SearchState) (entry : Entry)
        → IsAtRest old → Step problem old entry new → is_reopen entry ≡ true }
{}

/// The answer of a state that a legal history leads to is right: an optimal best is admissible and
/// none is cheaper; where it is infeasible, none is admissible; the node limit comes only where the
/// branchings equal the limit and a node is parked, and never where the limit is at least the
/// number of vectors.
pub fn answers_are_right()
    ensures optimal { (problem : ProblemParts) (state : SearchState) (cost : ℕ)
        → IsLibrary problem.library → IsProblem problem → IsReached problem state
        → answer_of state ≡ Some (Answer.Optimal cost)
        → IsSomeAnd state.best (IsLeastBest problem.library cost) }
    ensures infeasible { (problem : ProblemParts) (state : SearchState)
        → IsLibrary problem.library → IsProblem problem → IsReached problem state
        → answer_of state ≡ Some Answer.Infeasible → NoneAdmissible problem.library }
    ensures limit { (problem : ProblemParts) (state : SearchState) (incumbent : Option ℕ)
        → IsLibrary problem.library → IsProblem problem → IsReached problem state
        → answer_of state ≡ Some (Answer.NodeLimit incumbent) → IsAtLimit state }
    ensures incumbent { (problem : ProblemParts) (state : SearchState) (incumbent : Option ℕ)
        → IsLibrary problem.library → IsProblem problem → IsReached problem state
        → answer_of state ≡ Some (Answer.NodeLimit incumbent) → incumbent ≡ best_cost state.best }
    ensures enough { (problem : ProblemParts) (state : SearchState) (incumbent : Option ℕ)
        → IsLibrary problem.library → IsProblem problem → IsReached problem state
        → 2 ^ member_count problem.library ≤ state.limit
        → answer_of state ≡ Some (Answer.NodeLimit incumbent) → ⊥ }
{}
