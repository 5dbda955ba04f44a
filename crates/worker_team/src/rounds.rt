// Rounds of one worker over a pool in hand: work is taken, done, and what came of it is appended.
ghost use Rattle.std.specs.Prelude.{◌≡◌, ◌≤◌, true, IfOk, IfSome, IfNone, OnOk, OnErr};
ghost use Rattle.arch_model.specs.Library.{IsLibrary};
ghost use Rattle.rows.specs.Problem.{IsProblem};
ghost use Rattle.rows.specs.Known.{parts_of};
ghost use Rattle.rows.specs.Outcome.{MayBranch};
ghost use Rattle.search_core.specs.History.{IsAtRest};
ghost use Rattle.branch_worker.specs.Outcome.{IsOutcome};
ghost use Rattle.node_pool.specs.Pool.{IsPool, SamePool};
ghost use Rattle.node_pool.specs.Tickets.{IsHeldFor, IsStudiedFor, known_for};
ghost use Rattle.worker_team.specs.Inner.Rounds.{GoesOn, AddsOne, IsRound, IsInHand, AllIdle};
ghost use Rattle.worker_team.specs.Inner.Rounds.{IsVerdict, IsWithinLimit};

use analyst::{Verdict, study};
use arch_model::{Memory, VarId};
use branch_worker::{Outcome, job};
use node_pool::{Pool, SearchTicket, StudyTicket, Work};
use rows::{Known, Problem, Trace, variable_count};
use std::alloc::Global;

// The pool's problem, and what the types of the two keep.
pub(crate) fn problem_in(pool: &Pool) -> &Problem
    ensures problem { result.now ≡ pool.now.problem }
    ensures pool { IsPool pool.now }
    ensures right { IsLibrary pool.now.problem.library }
    ensures rows { IsProblem pool.now.problem }
{
    let problem = pool.problem();
    let _count = variable_count(problem.library());
    problem
}

// Nothing but its clause: a pool's history is never longer than its limit lets it be.
fn is_within_limit(pool: &Pool)
    ensures { IsWithinLimit pool.now }
{
    let _problem = problem_in(pool);
}

// What is known at a ticket's node.
fn known_at<'a>(pool: &'a Pool, ticket: &SearchTicket) -> Known<'a>
    ensures { parts_of result ≡ known_for pool.now ticket.now }
{
    Known {
        problem: pool.problem(),
        cuts: pool.cuts(),
        upto: ticket.cuts,
        bound: ticket.bound,
    }
}

// What the search does next at a node that a worker holds.
fn outcome_at(alloc: Global, pool: &Pool, ticket: &SearchTicket) -> Result<Outcome, Memory>
    requires { IsHeldFor pool.now ticket.now }
    ensures { IfOk result (IsOutcome (known_for pool.now ticket.now) ticket.now.cube) }
{
    // read for what each pool keeps
    let _problem = problem_in(pool);
    let known = known_at(pool, ticket);
    job(alloc, &known, ticket.cube)
}

// Splits a node, or parks it where the branchings are at their limit.
fn split_or_park(pool: &mut Pool, ticket: SearchTicket, trace: Trace, var: VarId)
    requires room { 1 ≤ pool.old.spare }
    requires held { IsHeldFor pool.old ticket }
    requires branch { MayBranch (known_for pool.old ticket) ticket.cube trace var.0 }
    ensures { AddsOne pool.old pool.new }
{
    match pool.branch(ticket, trace, var) {
        Ok(()) => {}
        Err(at_limit) => pool.park(at_limit.ticket),
    }
}

// Appends the one entry that an outcome comes to.
pub(crate) fn enter(pool: &mut Pool, ticket: SearchTicket, outcome: Outcome)
    requires room { 1 ≤ pool.old.spare }
    requires held { IsHeldFor pool.old ticket }
    requires outcome { IsOutcome (known_for pool.old ticket) ticket.cube outcome }
    ensures { AddsOne pool.old pool.new }
{
    match outcome {
        Outcome::Branch { trace, var } => split_or_park(pool, ticket, trace, var),
        Outcome::Prune { trace, reason } => pool.prune(ticket, trace, reason),
        Outcome::Offer { trace } => pool.offer(ticket, trace),
    }
}

// Searches a node that a worker holds.
fn search_node(alloc: Global, pool: &mut Pool, ticket: SearchTicket) -> Result<(), Memory>
    requires { IsHeldFor pool.old ticket }
    ensures { OnOk result (GoesOn 1 pool.old pool.new) }
{
    let outcome = outcome_at(alloc, pool, &ticket)?;
    pool.reserve()?;
    enter(pool, ticket, outcome);
    Ok(())
}

// The verdict on a candidate under study.
fn verdict_on(alloc: Global, pool: &Pool, ticket: &StudyTicket) -> Verdict
    requires { IsStudiedFor pool.now ticket.now }
    ensures { IsVerdict pool.now.problem.library ticket.now.candidate result }
{
    study(alloc, problem_in(pool), &ticket.candidate)
}

// Appends the one entry that a verdict comes to.
pub(crate) fn enter_verdict(pool: &mut Pool, ticket: StudyTicket, verdict: Verdict)
    requires room { 1 ≤ pool.old.spare }
    requires studied { IsStudiedFor pool.old ticket }
    requires verdict { IsVerdict pool.old.problem.library ticket.candidate verdict }
    ensures { AddsOne pool.old pool.new }
{
    match verdict {
        Verdict::Meets => pool.accept(ticket),
        Verdict::Breaks(cut) => pool.publish(ticket, cut),
    }
}

// Studies a candidate.
fn study_candidate(alloc: Global, pool: &mut Pool, ticket: StudyTicket) -> Result<(), Memory>
    requires { IsStudiedFor pool.old ticket }
    ensures { OnOk result (GoesOn 1 pool.old pool.new) }
{
    let verdict = verdict_on(alloc, pool, &ticket);
    pool.reserve()?;
    enter_verdict(pool, ticket, verdict);
    Ok(())
}

// The work that some worker has in hand, or None where nobody has any.
fn in_hand(pool: &Pool) -> Option<Work>
    ensures some { IfSome result (IsInHand pool.now) }
    ensures none { IfNone result (AllIdle pool.now) }
{
    for worker in 0..pool.workers() {
        match pool.held(worker) {
            Some(work) => return Some(work),
            None => {}
        }
    }
    None
}

// What the pool hands to worker 0 where nobody has work in hand.
fn new_work(pool: &mut Pool) -> Result<Work, Memory>
    requires { AllIdle pool.old }
    ensures on { IfOk result (λ work. GoesOn 0 pool.old pool.new) }
    ensures work { IfOk result (IsInHand pool.new) }
{
    pool.reserve()?;
    Ok(pool.take(0))
}

// Work in hand, or else new work.
fn next_work(pool: &mut Pool) -> Result<Work, Memory>
    ensures on { IfOk result (λ work. GoesOn 0 pool.old pool.new) }
    ensures work { IfOk result (IsInHand pool.new) }
{
    match in_hand(pool) {
        Some(work) => Ok(work),
        None => new_work(pool),
    }
}

// One round: work is taken and done. Whether there was any.
fn round(alloc: Global, pool: &mut Pool) -> Result<bool, Memory>
    ensures { IfOk result (λ worked. IsRound pool.old worked pool.new) }
{
    match next_work(pool)? {
        Work::Node(ticket) => {
            search_node(alloc, pool, ticket)?;
            Ok(true)
        }
        Work::Candidate(ticket) => {
            study_candidate(alloc, pool, ticket)?;
            Ok(true)
        }
        Work::Nothing => Ok(false),
        Work::Done => Ok(false),
    }
}

// Rounds until the pool's state is at rest.
fn until_rest(alloc: Global, pool: &mut Pool) -> Result<(), Memory>
    ensures on { OnOk result (GoesOn 0 pool.old pool.new) }
    ensures rest { OnOk result (IsAtRest pool.new.state) }
{
    loop {
        // so there is room for so many more rounds with work at most
        is_within_limit(pool);
        let worked = round(alloc, pool)?;
        if !worked {
            return Ok(());
        }
    }
}

/// Goes on alone, as the worker of each node that is held or under study and as worker 0 of all
/// others, until the pool's state is at rest. The only error is want of memory, and then the pool's
/// flag says so; else the flag stays.
pub(crate) fn finish_alone(alloc: Global, pool: &mut Pool) -> Result<(), Memory>
    ensures same { OnOk result (SamePool pool.old pool.new) }
    ensures rest { OnOk result (IsAtRest pool.new.state) }
    ensures kept { OnOk result (pool.new.short ≡ pool.old.short) }
    ensures short { OnErr result (pool.new.short ≡ true) }
{
    match until_rest(alloc, pool) {
        Ok(()) => Ok(()),
        Err(memory) => {
            pool.set_short();
            Err(memory)
        }
    }
}
