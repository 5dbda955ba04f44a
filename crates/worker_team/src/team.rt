// The search of a team.
ghost use Rattle.std.specs.Prelude.{◌≡◌, ℕ, ◌-◌, ◌^◌, ◌<◌, ◌≤◌, true, false, Option, IfOk, IsErr};
ghost use Rattle.std.specs.Thread.{IsSync};
ghost use Rattle.arch_model.specs.Member.{member_count};
ghost use Rattle.search_core.specs.declared.limits.TheConstants as limits;
ghost use Rattle.search_core.specs.declared.answer.Answer.TheVariants.{NodeLimit};
ghost use Rattle.search_core.specs.State.{start_of};
ghost use Rattle.node_pool.specs.Pool.{IsNewPool, IsTeam};
ghost use Rattle.worker_team.specs.Solved.{IsSolved};
ghost use Rattle.worker_team.specs.Inner.Rounds.{IsEndOf};
ghost use Rattle.worker_team.specs.Inner.Seats.{IsSeatFor, IsFirstSeat, IsBack};

use crate::alone::left_of;
use crate::rounds::finish_alone;
use crate::solved::Solved;
use crate::worker::work;
use arch_model::Memory;
use crossbeam_utils::sync::EventCount;
use node_pool::Pool;
use outside::Bell;
use pool_gate::{Gate, GateSeat, open_gate};
use rows::{Problem, variable_count};
use std::alloc::{AllocError, Global};
use std::sync::Wait;
use std::thread;
use std::thread::Threads;

// The workers up to `left`: the one of this seat, and one for each number that it splits off.
fn all_work<R: Threads + Wait + Sync, B: Bell + Sync>(
    rt: &R,
    alloc: Global,
    gate: &Gate<Pool>,
    mut seat: GateSeat<Pool>,
    left: u32,
    problem: &Problem,
    bell: &B,
    entered: &EventCount,
) -> GateSeat<Pool>
    requires gate { seat.gate ≡ gate.now }
    requires seat { IsFirstSeat problem.now left seat.view }
    ensures gate { result.gate ≡ gate.now }
    ensures free { result.view.in_turn ≡ false }
    ensures number { result.view.number ≡ 0 }
    ensures away { result.view.away ≡ seat.view.away }
    ensures about { result.view.about ≡ seat.view.about }
{
    if left == 0 {
        return work(rt, alloc, gate, seat, problem, bell, entered);
    }
    let other = gate.split(&mut seat);
    let theirs = move || -> GateSeat<Pool>
        requires { IsSync R.row × IsSync B.row × (other.gate ≡ gate.now)
            × IsSeatFor problem.now other.view }
        ensures { (result.gate ≡ gate.entry.now) × IsBack other.view result.view }
    { work(rt, alloc, gate, other, problem, bell, entered) };
    let ours = move || -> GateSeat<Pool>
        requires { IsSync R.row × IsSync B.row × (seat.gate ≡ gate.now)
            × IsFirstSeat problem.now (left - 1) seat.view × (0 < left) }
        ensures { (result.gate ≡ gate.entry.now) × (result.view.in_turn ≡ false)
            × (result.view.number ≡ 0) × (result.view.away ≡ seat.view.away)
            × (result.view.about ≡ seat.view.about) }
    { all_work(rt, alloc, gate, seat, left - 1, problem, bell, entered) };
    let (back, mut mine) = thread::join(rt, theirs, ours);
    gate.join(&mut mine, back);
    mine
}

// The pool of a team.
fn pool_of_team(
    alloc: Global,
    problem: &Problem,
    limit: u32,
    workers: u32,
    analysts: u32,
) -> Result<Pool, Memory>
    requires limit { limit ≤ limits.BRANCHINGS }
    requires team { IsTeam workers analysts }
    ensures { IfOk result (IsNewPool problem.now (start_of limit) workers analysts) }
{
    Pool::new(alloc, problem, limit, workers, analysts)
}

// What a team leaves: want of memory where its pool is short; else its caller goes on alone, as the
// worker of each node that is still held or under study, until the pool's state is at rest.
fn ended(alloc: Global, pool: Pool) -> Result<Solved, Memory>
    ensures short { pool.short ≡ true → IsErr result }
    ensures solved { IfOk result (IsEndOf pool) }
{
    let mut pool = pool;
    if pool.short() {
        return Err(AllocError);
    }
    finish_alone(alloc, &mut pool)?;
    Ok(left_of(pool))
}

/// Searches a problem with 1 to 64 workers beside each other, of which as many as `analysts` study
/// candidates before they search nodes, up to a limit of at most 100000 branchings. Whoever gets
/// which node, and in whatever order, the history is legal, diligent for the analysts, and names
/// these workers alone; it leads to a state at rest, and the answer is that state's. So two searches
/// of one problem that answer Optimal have found the same cost. Where the limit is at least the
/// number of vectors, 2 to the number of members, the search is complete. It may wait. A worker
/// calls the bell when it took work. The only error is want of memory.
pub fn solve_team<R: Threads + Wait + Sync, B: Bell + Sync>(
    rt: &R,
    alloc: Global,
    problem: &Problem,
    limit: u32,
    workers: u32,
    analysts: u32,
    bell: &B,
) -> Result<Solved, Memory>
    requires limit { limit ≤ limits.BRANCHINGS }
    requires team { IsTeam workers analysts }
    ensures solved { IfOk result (IsSolved problem.now limit workers analysts) }
    ensures enough { 2 ^ member_count problem.now.library ≤ limit → IfOk result
        (λ solved. (incumbent : Option ℕ) → solved.answer ≡ NodeLimit incumbent → ⊥) }
{
    // read for what each problem keeps
    let _count = variable_count(problem.library());
    let pool = pool_of_team(alloc, problem, limit, workers, analysts)?;
    let Ok((gate, seat)) = open_gate(alloc, pool, workers) else {
        return Err(AllocError);
    };
    let entered = EventCount::new();
    let seat = all_work(rt, alloc, &gate, seat, workers - 1, problem, bell, &entered);
    ended(alloc, gate.close(seat))
}
