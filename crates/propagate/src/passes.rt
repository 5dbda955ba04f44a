// Passes over all rows that are known, each of which fixes what it forces.
ghost use Rattle.std.specs.Prelude.{◌≡◌, ℕ, ◌+◌, ◌≤◌, ◌<◌, ◌++◌, Some, true, false, IsTrue, IfSome, IfNone};
ghost use Rattle.std.specs.Prelude.{length, slice_get, vec_len, vec_capacity, replicate};
ghost use Rattle.rows.specs.Activity.{IsRefuted, IsQuietAt};
ghost use Rattle.rows.specs.Known.{parts_of, has_row, row_at, known_rows, IsKnown, IsQuiet};
ghost use Rattle.propagate.specs.Inner.Way.{Leads, HasRoom, AreBelow};

use rows::{Cube, Known, RowRef, fix_forced};

// Appends a row's name to a trace a number of times.
fn push_times(steps: &mut Vec<RowRef>, r: RowRef, count: usize)
    requires room { vec_len steps.old + count ≤ vec_capacity steps.old }
    ensures items { steps.new.items ≡ steps.old.items ++ replicate count r }
    ensures len { vec_len steps.new ≡ vec_len steps.old + count }
    ensures capacity { vec_capacity steps.new ≡ vec_capacity steps.old }
{
    for _step in 0..count {
        steps.push_reserved(r);
    }
}

// Fixes all that a row forces, with a step of the trace for each variable; false where the row is
// refuted.
fn apply(known: &Known, r: RowRef, cube: &mut Cube, steps: &mut Vec<RowRef>) -> bool
    requires below { AreBelow (parts_of known.now) }
    requires there { IsTrue (has_row (parts_of known.now) r) }
    requires room { HasRoom (parts_of known.now) cube.old (vec_len steps.old) (vec_capacity steps.old) }
    ensures room { HasRoom (parts_of known.now) cube.new (vec_len steps.new) (vec_capacity steps.new) }
    ensures capacity { vec_capacity steps.new ≡ vec_capacity steps.old }
    ensures leads { Leads (parts_of known.now) cube.old steps.old.items cube.new steps.new.items }
    ensures quiet { IsTrue result → IfSome (row_at (parts_of known.now) r) (IsQuietAt cube.new) }
    ensures refuted { result ≡ false → IfSome (row_at (parts_of known.now) r) (λ row. IsRefuted row cube.new) }
{
    let count = match fix_forced(known, r, cube) {
        Some(count) => count,
        None => return false,
    };
    push_times(steps, r, count);
    true
}

// Looks at each row that is known once, and answers the first that is refuted.
pub(crate) fn pass(known: &Known, cube: &mut Cube, steps: &mut Vec<RowRef>) -> Option<RowRef>
    requires known { IsKnown (parts_of known.now) }
    requires room { HasRoom (parts_of known.now) cube.old (vec_len steps.old) (vec_capacity steps.old) }
    ensures room { HasRoom (parts_of known.now) cube.new (vec_len steps.new) (vec_capacity steps.new) }
    ensures capacity { vec_capacity steps.new ≡ vec_capacity steps.old }
    ensures leads { Leads (parts_of known.now) cube.old steps.old.items cube.new steps.new.items }
    ensures quiet { IfNone result
        (length steps.new.items ≡ length steps.old.items → IsQuiet (parts_of known.now) cube.new) }
    ensures there { IfSome result (λ r. IsTrue (has_row (parts_of known.now) r)) }
    ensures refuted { IfSome result
        (λ r. IfSome (row_at (parts_of known.now) r) (λ row. IsRefuted row cube.new)) }
{
    for k in 0..known.row_count() {
        let r = known.row_name(k);
        if !apply(known, r, cube, steps) {
            return Some(r);
        }
    }
    None
}
