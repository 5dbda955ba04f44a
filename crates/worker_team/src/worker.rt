// A worker of a team: its turns at the gate, and what it does between them.
ghost use Rattle.std.specs.Prelude.{◌≡◌, IfOk};
ghost use Rattle.rows.specs.Known.{known_from, parts_of};
ghost use Rattle.rows.specs.Problem.{IsCandidate};
ghost use Rattle.branch_worker.specs.Outcome.{IsOutcome};
ghost use Rattle.worker_team.specs.Inner.Rounds.{IsVerdict};
ghost use Rattle.worker_team.specs.Inner.Turns.{AreCutsOf, IsBrought, IsReady, IsTask};
ghost use Rattle.worker_team.specs.Inner.Seats.{IsSeatFor, IsBack};

use crate::turn::{Brought, Next, turn_of};
use analyst::{Verdict, study};
use arch_model::Memory;
use branch_worker::{Outcome, job};
use crossbeam_utils::sync::EventCount;
use node_pool::{Pool, SearchTicket, StudyTicket};
use outside::Bell;
use pool_gate::{Gate, GateSeat, Turn};
use rows::{CutList, Known, Problem, variable_count};
use std::alloc::Global;
use std::sync::Wait;

// A worker's seat after a turn, and with what the worker goes on.
struct Turned {
    seat: GateSeat<Pool>,
    next: Next,
}

// Takes a turn at the gate.
fn take_turn<R: Wait>(
    rt: &R,
    gate: &Gate<Pool>,
    seat: GateSeat<Pool>,
    problem: &Problem,
    brought: Brought,
    cuts: &mut CutList,
) -> Turned
    requires gate { seat.gate ≡ gate.now }
    requires seat { IsSeatFor problem.now seat.view }
    requires brought { IsBrought problem.now cuts.old.cuts brought }
    requires cuts { AreCutsOf problem.now cuts.old.cuts }
    ensures gate { result.seat.gate ≡ gate.now }
    ensures seat { IsBack seat.view result.seat.view }
    ensures cuts { AreCutsOf problem.now cuts.new.cuts }
    ensures task { IsTask problem.now cuts.new.cuts result.next }
{
    let Turn { mut value, seat } = gate.turn(rt, seat);
    let next = turn_of(&mut value, seat.number(), brought, cuts);
    let seat = gate.give(Turn { value, seat });
    Turned { seat, next }
}

// Takes a turn. Where there is nothing, it takes a second one, and where there is nothing still, it
// sleeps until somebody has entered something since, or has ended.
fn turn_or_sleep<R: Wait>(
    rt: &R,
    gate: &Gate<Pool>,
    seat: GateSeat<Pool>,
    problem: &Problem,
    brought: Brought,
    cuts: &mut CutList,
    entered: &EventCount,
) -> Turned
    requires gate { seat.gate ≡ gate.now }
    requires seat { IsSeatFor problem.now seat.view }
    requires brought { IsBrought problem.now cuts.old.cuts brought }
    requires cuts { AreCutsOf problem.now cuts.old.cuts }
    ensures gate { result.seat.gate ≡ gate.now }
    ensures seat { IsBack seat.view result.seat.view }
    ensures cuts { AreCutsOf problem.now cuts.new.cuts }
    ensures task { IsTask problem.now cuts.new.cuts result.next }
{
    let Turned { seat, next } = take_turn(rt, gate, seat, problem, brought, cuts);
    if !matches!(next, Next::Wait) {
        return Turned { seat, next };
    }
    let change = entered.prepare_wait();
    let turned = take_turn(rt, gate, seat, problem, Brought::Nothing, cuts);
    if matches!(turned.next, Next::Wait) {
        change.wait(rt);
    }
    turned
}

// How the search goes on at a node, by what the worker knows.
fn outcome_by(
    alloc: Global,
    problem: &Problem,
    cuts: &CutList,
    ticket: &SearchTicket,
) -> Result<Outcome, Memory>
    requires { IsReady problem.now cuts.now.cuts ticket.now }
    ensures { IfOk result (IsOutcome (known_from problem.now ticket.now.cuts ticket.now.bound
        cuts.now.cuts) ticket.now.cube) }
{
    // read for what each problem keeps
    let _count = variable_count(problem.library());
    let known = Known {
        problem,
        cuts,
        upto: ticket.cuts,
        bound: ticket.bound,
    };
    job(alloc, &known, ticket.cube)
}

// Searches a node.
fn search(alloc: Global, problem: &Problem, cuts: &CutList, ticket: SearchTicket) -> Brought
    requires { IsReady problem.now cuts.now.cuts ticket }
    ensures { IsBrought problem.now cuts.now.cuts result }
{
    match outcome_by(alloc, problem, cuts, &ticket) {
        Ok(outcome) => Brought::Outcome { ticket, outcome },
        Err(_) => Brought::Short,
    }
}

// The verdict on a candidate.
fn verdict_by(alloc: Global, problem: &Problem, ticket: &StudyTicket) -> Verdict
    requires { IsCandidate problem.now.library ticket.now.candidate }
    ensures { IsVerdict problem.now.library ticket.now.candidate result }
{
    study(alloc, problem, &ticket.candidate)
}

// Rings the bell for work that was taken in the last turn.
fn ring<B: Bell>(bell: &B, taken: bool, worker: u32, node: u32) {
    if taken {
        bell.at(worker, u64::from(node));
    }
}

// What a worker does between two turns: its work, and else nothing. It tells the others of what it
// entered.
fn between<B: Bell>(
    alloc: Global,
    problem: &Problem,
    cuts: &CutList,
    next: Next,
    bell: &B,
    entered: &EventCount,
) -> Brought
    requires { IsTask problem.now cuts.now.cuts next }
    ensures { IsBrought problem.now cuts.now.cuts result }
{
    match next {
        Next::Node { ticket, taken } => {
            ring(bell, taken, ticket.worker, ticket.node);
            search(alloc, problem, cuts, ticket)
        }
        Next::Candidate { ticket, taken } => {
            ring(bell, taken, ticket.worker, ticket.node);
            let verdict = verdict_by(alloc, problem, &ticket);
            Brought::Verdict { ticket, verdict }
        }
        Next::Turn => {
            entered.notify_all();
            Brought::Nothing
        }
        Next::Wait => Brought::Nothing,
        Next::End => {
            entered.notify_all();
            Brought::Nothing
        }
    }
}

/// A worker works until the pool is short or its state is at rest. It waits for its turns, and while
/// there is nothing to do.
pub(crate) fn work<R: Wait, B: Bell>(
    rt: &R,
    alloc: Global,
    gate: &Gate<Pool>,
    seat: GateSeat<Pool>,
    problem: &Problem,
    bell: &B,
    entered: &EventCount,
) -> GateSeat<Pool>
    requires gate { seat.gate ≡ gate.now }
    requires seat { IsSeatFor problem.now seat.view }
    ensures gate { result.gate ≡ gate.now }
    ensures seat { IsBack seat.view result.view }
{
    let mut seat = seat;
    let mut cuts = CutList::new(alloc);
    let mut brought = Brought::Nothing;
    for _ in rt.forever() {
        let Turned { seat: back, next } = turn_or_sleep(
            rt, gate, seat, problem, brought, &mut cuts, entered,
        );
        seat = back;
        let ends = matches!(next, Next::End);
        brought = between(alloc, problem, &cuts, next, bell, entered);
        if ends {
            return seat;
        }
    }
    unreachable!()
}
