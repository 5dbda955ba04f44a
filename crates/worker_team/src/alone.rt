// The search of one worker.
ghost use Rattle.std.specs.Prelude.{◌≡◌, ℕ, ◌^◌, ◌≤◌, Option, IfOk};
ghost use Rattle.arch_model.specs.Member.{member_count};
ghost use Rattle.search_core.specs.declared.limits.TheConstants as limits;
ghost use Rattle.search_core.specs.declared.answer.Answer.TheVariants.{NodeLimit};
ghost use Rattle.search_core.specs.State.{start_of};
ghost use Rattle.search_core.specs.History.{IsAtRest};
ghost use Rattle.node_pool.specs.Pool.{IsNewPool};
ghost use Rattle.worker_team.specs.Solved.{IsSolved};
ghost use Rattle.worker_team.specs.Inner.Rounds.{IsLeftOf};

use crate::rounds::finish_alone;
use crate::solved::Solved;
use arch_model::Memory;
use node_pool::Pool;
use rows::{Problem, variable_count};
use std::alloc::Global;

// The pool of one worker, who is an analyst.
fn pool_of_one(alloc: Global, problem: &Problem, limit: u32) -> Result<Pool, Memory>
    requires { limit ≤ limits.BRANCHINGS }
    ensures { IfOk result (λ pool. IsNewPool problem.now (start_of limit) 1 1 pool) }
{
    Pool::new(alloc, problem, limit, 1, 1)
}

// What a pool leaves whose state is at rest.
pub(crate) fn left_of(pool: Pool) -> Solved
    requires { IsAtRest pool.state }
    ensures { IsLeftOf pool result }
{
    let answer = pool.answer().unwrap();
    let branchings = pool.branchings();
    let cuts = pool.cut_count();
    let (history, best) = pool.into_history();
    Solved {
        answer,
        history,
        best,
        branchings,
        cuts,
    }
}

/// Searches a problem with one worker, who is an analyst, up to a limit of at most 100000
/// branchings. It waits for nothing and returns. Where the limit is at least the number of vectors,
/// 2 to the number of members, the search is complete. The only error is want of memory.
pub fn solve_alone(alloc: Global, problem: &Problem, limit: u32) -> Result<Solved, Memory>
    requires { limit ≤ limits.BRANCHINGS }
    ensures solved { IfOk result (IsSolved problem.now limit 1 1) }
    ensures enough { 2 ^ member_count problem.now.library ≤ limit → IfOk result
        (λ solved. (incumbent : Option ℕ) → solved.answer ≡ NodeLimit incumbent → ⊥) }
{
    // read for what each problem keeps
    let _count = variable_count(problem.library());
    let mut pool = pool_of_one(alloc, problem, limit)?;
    finish_alone(alloc, &mut pool)?;
    Ok(left_of(pool))
}
