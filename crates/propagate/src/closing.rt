// Closing a cube: passes over the rows until one fixes nothing.
ghost use Rattle.std.specs.Prelude.{◌≡◌, false, IsTrue, IfOk};
ghost use Rattle.rows.specs.Parts.{CubeParts};
ghost use Rattle.rows.specs.Cube.{IsCubeBelow, IsFull};
ghost use Rattle.rows.specs.Known.{parts_of, variables, IsKnown, IsQuiet};
ghost use Rattle.propagate.specs.Closed.{closed_cube, closed_trace, IsOpen, IsClosed, NoneIsLeft, Closes};

use crate::closed::Closed;
use crate::passes::pass;
use arch_model::Memory;
use rows::{Cube, Known, Trace, variable_count};
use std::alloc::Global;

// Whether nothing is free in a cube over a program's variables.
fn is_full(known: &Known, cube: &Cube) -> bool
    requires { IsCubeBelow (variables (parts_of known.now)) cube.now }
    ensures full { IsTrue result → IsFull (variables (parts_of known.now)) cube.now }
    ensures open { result ≡ false → IsOpen (parts_of known.now) cube.now }
{
    cube.fixed().len() == variable_count(known.problem.library())
}

// The answer for a quiet cube.
fn quiet_or_full(known: &Known, cube: Cube, trace: Trace) -> Closed
    requires below { IsCubeBelow (variables (parts_of known.now)) cube }
    requires quiet { IsQuiet (parts_of known.now) cube }
    ensures cube { closed_cube result ≡ cube }
    ensures trace { closed_trace result ≡ trace }
    ensures answer { IsClosed (parts_of known.now) result }
    ensures left { (given : CubeParts) → NoneIsLeft (parts_of known.now) given result }
{
    if is_full(known, &cube) {
        Closed::Full { cube, trace }
    } else {
        Closed::Quiet { cube, trace }
    }
}

/// Fixes all that the rows that are known force in a cube, one after another, until a row is
/// refuted or none forces anything (`Closes`): the trace is legal from the given cube and leads to
/// the answered one, which is quiet with something free, quiet with nothing free, or refutes the
/// named row. Each vector of the given cube that meets all rows that are known lies in the answered
/// one, and after a refuted row there is none. The only error is want of memory for the trace.
pub fn close(alloc: Global, known: &Known, cube: Cube) -> Result<Closed, Memory>
    requires known { IsKnown (parts_of known.now) }
    requires below { IsCubeBelow (variables (parts_of known.now)) cube }
    ensures { IfOk result (Closes (parts_of known.now) cube) }
{
    let mut cube = cube;
    let free = variable_count(known.problem.library()) - cube.fixed().len();
    let mut steps = Vec::with_capacity(alloc, free as usize)?;
    loop {
        let before = steps.len();
        if let Some(row) = pass(known, &mut cube, &mut steps) {
            let trace = Trace::new(steps);
            return Ok(Closed::Refuted { cube, trace, row });
        }
        if steps.len() == before {
            return Ok(quiet_or_full(known, cube, Trace::new(steps)));
        }
    }
}
