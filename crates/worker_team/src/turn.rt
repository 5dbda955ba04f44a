// What a worker of a team does in a turn, over the pool in hand.
ghost use Rattle.std.specs.Prelude.{◌≡◌, ◌≤◌, ◌<◌, true, false, length, Some, slice_get};
ghost use Rattle.std.specs.Prelude.{IfOk, OnOk};
ghost use Rattle.arch_model.specs.Member.{member_count};
ghost use Rattle.rows.specs.Known.{IsCutBelow, known_from};
ghost use Rattle.branch_worker.specs.Outcome.{IsOutcome};
ghost use Rattle.node_pool.specs.Tickets.{IsStudiedFor, Fits};
ghost use Rattle.worker_team.specs.declared.turn.Brought.TheVariants as brings;
ghost use Rattle.worker_team.specs.Inner.Rounds.{AddsOne, IsVerdict};
ghost use Rattle.worker_team.specs.Inner.Turns.{IsTurned, AreCutsOf, IsBrought};
ghost use Rattle.worker_team.specs.Inner.Turns.{IsWorkOf, IsTask, IsDue};

use crate::rounds::{enter, enter_verdict, problem_in};
use analyst::Verdict;
use arch_model::Memory;
use branch_worker::Outcome;
use node_pool::{Pool, SearchTicket, StudyTicket, Work};
use rows::{CutList, CutRow};

/// What a worker brings to its turn.
#[derive(Drop)]
pub enum Brought {
    /// Nothing.
    Nothing,
    /// What came of a node.
    Outcome {
        /// The node.
        ticket: SearchTicket,
        /// How the search goes on there.
        outcome: Outcome,
    },
    /// What came of a candidate.
    Verdict {
        /// The candidate.
        ticket: StudyTicket,
        /// Whether it is admissible, and else its cut.
        verdict: Verdict,
    },
    /// It met want of memory.
    Short,
}

/// With what a worker goes on after its turn.
#[derive(Clone, Copy)]
pub enum Next {
    /// A node to search.
    Node {
        /// The node.
        ticket: SearchTicket,
        /// Whether it was taken in this turn, or in an earlier one.
        taken: bool,
    },
    /// A candidate to study.
    Candidate {
        /// The candidate.
        ticket: StudyTicket,
        /// Whether it was taken in this turn, or in an earlier one.
        taken: bool,
    },
    /// What it brought was entered: it takes another turn.
    Turn,
    /// There is nothing at the moment: it sleeps until somebody has entered something.
    Wait,
    /// It ends: the pool is short, or its state is at rest.
    End,
}

// Whether a pool still holds a node for its worker, and knows the cuts that the worker knew there.
fn still_fits(pool: &Pool, ticket: &SearchTicket, cuts: &CutList) -> bool
    ensures { result ≡ true → Fits pool.now ticket.now cuts.now.cuts }
{
    pool.fits(ticket, cuts)
}

// Whether a candidate is still under study by its worker.
fn still_studied(pool: &Pool, ticket: &StudyTicket) -> bool
    ensures { result ≡ true → IsStudiedFor pool.now ticket.now }
{
    pool.fits_study(ticket)
}

// Enters what came of a node, where the ticket fits. Whether it did.
fn bring_outcome(pool: &mut Pool, ticket: SearchTicket, outcome: Outcome, cuts: &CutList) -> bool
    requires room { 1 ≤ pool.old.spare }
    requires outcome { IsOutcome (known_from pool.old.problem ticket.cuts ticket.bound
        cuts.now.cuts) ticket.cube outcome }
    ensures entered { result ≡ true → AddsOne pool.old pool.new }
    ensures stays { result ≡ false → pool.new ≡ pool.old }
{
    if !still_fits(pool, &ticket, cuts) {
        return false;
    }
    enter(pool, ticket, outcome);
    true
}

// Enters what came of a candidate, where the ticket fits. Whether it did.
fn bring_verdict(pool: &mut Pool, ticket: StudyTicket, verdict: Verdict) -> bool
    requires room { 1 ≤ pool.old.spare }
    requires verdict { IsVerdict pool.old.problem.library ticket.candidate verdict }
    ensures entered { result ≡ true → AddsOne pool.old pool.new }
    ensures stays { result ≡ false → pool.new ≡ pool.old }
{
    if !still_studied(pool, &ticket) {
        return false;
    }
    enter_verdict(pool, ticket, verdict);
    true
}

// Enters what a worker brings, where it fits. Whether it did.
fn bring(pool: &mut Pool, brought: Brought, cuts: &CutList) -> bool
    requires room { 1 ≤ pool.old.spare }
    requires brought { IsBrought pool.old.problem cuts.now.cuts brought }
    ensures entered { result ≡ true → AddsOne pool.old pool.new }
    ensures stays { result ≡ false → pool.new ≡ pool.old }
{
    match brought {
        Brought::Outcome { ticket, outcome } => bring_outcome(pool, ticket, outcome, cuts),
        Brought::Verdict { ticket, verdict } => bring_verdict(pool, ticket, verdict),
        Brought::Nothing => false,
        Brought::Short => false,
    }
}

// The cut of a number, which is over the problem's variables.
fn cut_in(pool: &Pool, number: u32) -> CutRow
    requires { number < length pool.now.state.cuts }
    ensures cut { slice_get pool.now.state.cuts number ≡ Some result }
    ensures below { IsCutBelow (member_count pool.now.problem.library) result }
{
    // read for what each pool keeps
    let _problem = problem_in(pool);
    pool.cuts().get(number)
}

// Appends to a worker's cuts those that were learned since: the numbers from its last one on.
fn catch_up(pool: &Pool, cuts: &mut CutList) -> Result<(), Memory>
    requires { AreCutsOf pool.now.problem cuts.old.cuts }
    ensures cuts { AreCutsOf pool.now.problem cuts.new.cuts }
    ensures all { OnOk result (length pool.now.state.cuts ≤ length cuts.new.cuts) }
{
    while cuts.len() < pool.cuts().len() {
        let cut = cut_in(pool, cuts.len());
        cuts.push(cut)?;
    }
    Ok(())
}

// What a worker does with the work that it found in this turn, or took in it.
fn take_up(
    pool: &Pool,
    worker: u32,
    work: Work,
    taken: bool,
    cuts: &mut CutList,
) -> Result<Next, Memory>
    requires work { IsWorkOf pool.now worker work }
    requires cuts { AreCutsOf pool.now.problem cuts.old.cuts }
    ensures cuts { AreCutsOf pool.now.problem cuts.new.cuts }
    ensures task { IfOk result (IsTask pool.now.problem cuts.new.cuts) }
    ensures due { IfOk result (IsDue pool.now worker) }
{
    // read for what each pool keeps
    let _problem = problem_in(pool);
    match work {
        Work::Node(ticket) => {
            catch_up(pool, cuts)?;
            Ok(Next::Node { ticket, taken })
        }
        Work::Candidate(ticket) => Ok(Next::Candidate { ticket, taken }),
        Work::Nothing => Ok(Next::Wait),
        Work::Done => Ok(Next::End),
    }
}

// A worker takes up again what it has in hand, and else takes new work.
fn find_work(pool: &mut Pool, worker: u32, cuts: &mut CutList) -> Result<Next, Memory>
    requires room { 1 ≤ pool.old.spare }
    requires worker { worker < pool.old.workers }
    requires cuts { AreCutsOf pool.old.problem cuts.old.cuts }
    ensures turned { IsTurned pool.old pool.new }
    ensures cuts { AreCutsOf pool.new.problem cuts.new.cuts }
    ensures task { IfOk result (IsTask pool.new.problem cuts.new.cuts) }
    ensures due { IfOk result (IsDue pool.new worker) }
{
    match pool.held(worker) {
        Some(work) => take_up(pool, worker, work, false, cuts),
        None => {
            let work = pool.take(worker);
            take_up(pool, worker, work, true, cuts)
        }
    }
}

// A turn of a worker who wants for no memory yet.
fn try_turn(
    pool: &mut Pool,
    worker: u32,
    brought: Brought,
    cuts: &mut CutList,
) -> Result<Next, Memory>
    requires worker { worker < pool.old.workers }
    requires brought { IsBrought pool.old.problem cuts.old.cuts brought }
    requires cuts { AreCutsOf pool.old.problem cuts.old.cuts }
    ensures turned { IsTurned pool.old pool.new }
    ensures cuts { AreCutsOf pool.new.problem cuts.new.cuts }
    ensures task { IfOk result (IsTask pool.new.problem cuts.new.cuts) }
    ensures due { IfOk result (IsDue pool.new worker) }
{
    pool.reserve()?;
    if bring(pool, brought, cuts) {
        return Ok(Next::Turn);
    }
    find_work(pool, worker, cuts)
}

// Whether a worker met want of memory.
fn is_short(brought: &Brought) -> bool
    ensures { brought.now ≡ brings.Short → result ≡ true }
{
    matches!(brought, Brought::Short)
}

/// A worker's turn over the pool in hand. It enters what it brings, where that fits; else it takes up
/// again what it has in hand, and else takes new work. It ends where the pool is short or at rest,
/// and where it met or meets want of memory the pool is then short. `cuts` are those that the worker
/// knows: it has them as a copy and learns only what is new.
pub(crate) fn turn_of(pool: &mut Pool, worker: u32, brought: Brought, cuts: &mut CutList) -> Next
    requires worker { worker < pool.old.workers }
    requires brought { IsBrought pool.old.problem cuts.old.cuts brought }
    requires cuts { AreCutsOf pool.old.problem cuts.old.cuts }
    ensures turned { IsTurned pool.old pool.new }
    ensures cuts { AreCutsOf pool.new.problem cuts.new.cuts }
    ensures task { IsTask pool.new.problem cuts.new.cuts result }
    ensures due { IsDue pool.new worker result }
    ensures short { brought ≡ brings.Short → pool.new.short ≡ true }
{
    if is_short(&brought) {
        pool.set_short();
        return Next::End;
    }
    if pool.short() {
        return Next::End;
    }
    match try_turn(pool, worker, brought, cuts) {
        Ok(next) => next,
        Err(_) => {
            pool.set_short();
            Next::End
        }
    }
}
