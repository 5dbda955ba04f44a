// A search of a library.
ghost use Rattle.std.specs.Prelude.{◌≡◌, IfOk, IfSome};
ghost use Rattle.worker_team.specs.Solved.{IsSolved};
ghost use Rattle.archex_app.specs.Status.{status_of, ending_of};
ghost use Rattle.archex_app.specs.Inner.Searched.{HasBest, IsSearched};

use crate::status::Status;
use arch_model::{Library, Memory};
use binary_program::problem_of;
use rows::{Problem, variable_count};
use search_core::Answer;
use std::alloc::Global;
use worker_team::Solved;

/// A search that came to its end.
#[derive(Drop)]
pub struct Searched {
    /// The library with its base rows.
    pub problem: Problem,
    /// What the search left.
    pub solved: Solved,
}

/// Makes the problem of a library, and lets `solve` search it. The limit of branchings, and how many
/// workers and analysts there are, are those for which each answer of `solve` is right.
pub fn search<S: FnOnce(&Problem) -> Result<Solved, Memory>>(
    alloc: Global,
    lib: Library,
    limit: u32,
    workers: u32,
    analysts: u32,
    solve: S,
) -> Result<Searched, Memory>
    requires callable { S.IsAlwaysCallable solve }
    requires solves { (problem : _) (solved : _) → S.post solve problem solved
        → IfOk solved (IsSolved problem.now limit workers analysts) }
    ensures searched { IfOk result (IsSearched lib limit workers analysts) }
    ensures best { IfOk result (λ searched.
        IfSome searched.solved.best (HasBest searched.problem.library)) }
{
    let problem = problem_of(alloc, lib)?;
    // read for what each problem keeps of its library and its rows
    let _count = variable_count(problem.library());
    let solved = solve(&problem)?;
    Ok(Searched { problem, solved })
}

/// How a run ends that came to an answer.
pub fn status_for(answer: &Answer) -> Status
    ensures { result ≡ status_of (ending_of answer.now) }
{
    match answer {
        Answer::Optimal { .. } => Status::DONE,
        Answer::Infeasible => Status::INFEASIBLE,
        Answer::NodeLimit { .. } => Status::NODE_LIMIT,
    }
}
