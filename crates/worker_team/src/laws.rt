//! Laws of finished searches, each the contract of a function without a body.
ghost use Rattle.std.specs.Prelude.{◌≡◌, ℕ};
ghost use Rattle.arch_model.specs.Library.{IsLibrary};
ghost use Rattle.rows.specs.Parts.{ProblemParts};
ghost use Rattle.rows.specs.Problem.{IsProblem};
ghost use Rattle.search_core.specs.declared.answer.Answer.TheVariants.{Optimal, Infeasible};
ghost use Rattle.worker_team.specs.declared.solved.Solved.{Solved};
ghost use Rattle.worker_team.specs.Solved.{IsSolved};

/// Two finished searches of one problem agree, whatever their limits and their teams: where both
/// answer Optimal they have found the same cost, and where one does the other doesn't answer
/// Infeasible.
pub fn searches_agree()
    ensures same_cost { (problem : ProblemParts) (limit workers analysts : ℕ) (one : Solved) (cost : ℕ)
        (other_limit other_workers other_analysts : ℕ) (other : Solved) (other_cost : ℕ)
        → IsLibrary problem.library → IsProblem problem
        → IsSolved problem limit workers analysts one → one.answer ≡ Optimal cost
        → IsSolved problem other_limit other_workers other_analysts other
        → other.answer ≡ Optimal other_cost → cost ≡ other_cost }
    ensures infeasible { (problem : ProblemParts) (limit workers analysts : ℕ) (one : Solved) (cost : ℕ)
        (other_limit other_workers other_analysts : ℕ) (other : Solved)
        → IsLibrary problem.library → IsProblem problem
        → IsSolved problem limit workers analysts one → one.answer ≡ Optimal cost
        → IsSolved problem other_limit other_workers other_analysts other
        → other.answer ≡ Infeasible → ⊥ }
{}
