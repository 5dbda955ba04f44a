// Following traces.
ghost use Rattle.std.specs.Prelude.{◌≡◌};
ghost use Rattle.rows.specs.Known.{IsKnown, parts_of};
ghost use Rattle.search_core.specs.Follow as spec;

use crate::rule::Rule;
use rows::{Cube, Known, RowRef, Trace, forces, has, variable_count};

// Where one step of a trace leads, or the rule that it breaks.
fn follow_step(known: &Known, cube: &Cube, r: RowRef) -> Result<Cube, Rule>
    requires { IsKnown (parts_of known.now) }
    ensures { result ≡ spec.follow_step (parts_of known.now) cube.now r }
{
    // Tells the prover that the library keeps its rules, and the bounds on its members.
    let _count = variable_count(known.problem.library());
    if !has(known, r) {
        return Err(Rule::Row);
    }
    match forces(known, r, cube) {
        Some((v, value)) => {
            let mut next = *cube;
            next.fix(v, value);
            Ok(next)
        }
        None => Err(Rule::Step),
    }
}

// Where a trace leads from a cube, or the rule that its first bad step breaks: Row where it names no
// row that is known, Step where its row forces nothing.
pub(crate) fn follow(known: &Known, cube: Cube, trace: &Trace) -> Result<Cube, Rule>
    requires { IsKnown (parts_of known.now) }
    ensures { result ≡ spec.follow_trace (parts_of known.now) cube trace.now }
{
    let mut reached = cube;
    for r in trace.steps() {
        reached = follow_step(known, &reached, *r)?;
    }
    Ok(reached)
}
