// A worker's job at one node.
ghost use Rattle.std.specs.Prelude.{◌≡◌, IfOk, [], ◌∷◌, Some};
ghost use Rattle.rows.specs.Parts.{CubeParts};
ghost use Rattle.rows.specs.Cube.{IsCubeBelow};
ghost use Rattle.rows.specs.Known.{parts_of, variables, IsKnown, IsQuiet};
ghost use Rattle.rows.specs.Trace.{cube_after};
ghost use Rattle.branch_worker.specs.Outcome.{IsOutcome};

use crate::outcome::Outcome;
use arch_model::Memory;
use propagate::{Closed, close};
use row_bounds::{Bounded, ascend, branching_variable};
use rows::{Cube, Known, Pair, Reason, RowRef, Trace};
use std::alloc::Global;

// The reason that is one row, taken once.
fn alone(alloc: Global, row: RowRef) -> Result<Reason, Memory>
    ensures { IfOk result (λ reason. reason ≡ record { row = row; times = 1 } ∷ []) }
{
    let mut pairs = Vec::with_capacity(alloc, 1)?;
    pairs.push(Pair { row, times: 1 })?;
    Ok(Reason::new(pairs))
}

// How the search goes on at a quiet cube in which something is free, to which a trace leads.
fn bounded(alloc: Global, known: &Known, cube: &Cube, trace: Trace) -> Result<Outcome, Memory>
    requires known { IsKnown (parts_of known.now) }
    requires quiet { IsQuiet (parts_of known.now) cube.now }
    ensures { IfOk result (λ outcome. (given : CubeParts)
        → cube_after (parts_of known.now) given trace ≡ Some cube.now
        → IsOutcome (parts_of known.now) given outcome) }
{
    match ascend(known, cube).settle(alloc, known, cube)? {
        Bounded::Refuted(reason) => Ok(Outcome::Prune { trace, reason }),
        Bounded::Open(spent) => match branching_variable(known, cube, &spent) {
            Some(var) => Ok(Outcome::Branch { trace, var }),
            // nothing is free: the vector that is left is a candidate
            None => Ok(Outcome::Offer { trace }),
        },
    }
}

/// How the search goes on at a node of this cube, by what is known there: the cube is closed; where a
/// row is refuted, it is dropped for that row; where nothing is free, it is offered; else it is
/// dropped where a bound has a reason, and split where none has. The only error is want of memory.
pub fn job(alloc: Global, known: &Known, cube: Cube) -> Result<Outcome, Memory>
    requires known { IsKnown (parts_of known.now) }
    requires below { IsCubeBelow (variables (parts_of known.now)) cube }
    ensures { IfOk result (IsOutcome (parts_of known.now) cube) }
{
    // read for what each problem keeps of its rows
    let _library = known.problem.library();
    match close(alloc, known, cube)? {
        Closed::Refuted { trace, row, .. } => Ok(Outcome::Prune {
            trace,
            reason: alone(alloc, row)?,
        }),
        Closed::Full { trace, .. } => Ok(Outcome::Offer { trace }),
        Closed::Quiet { cube, trace } => bounded(alloc, known, &cube, trace),
    }
}
