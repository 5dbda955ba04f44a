// What a known row says of a cube: how great its sum gets, whether it is refuted or unmet, and what
// it forces.
ghost use Rattle.std.specs.Prelude.{◌≡◌, ℕ, ◌≤◌, ◌^◌, ◌↔◌, Some, IsTrue, IfSome};
ghost use Rattle.std.specs.Prelude.{IfNone, option_map, replicate, unsigned_abs};
ghost use Rattle.rows.specs.Activity.{greatest_activity, is_refuted, IsRefuted, is_unmet, IsUnmet, least_forced};
ghost use Rattle.rows.specs.Activity.{number_of, IsLeastForced, ForcesNothing, IsQuietAt};
ghost use Rattle.rows.specs.Known.{parts_of, has_row, row_at};
ghost use Rattle.rows.specs.Trace.{cube_after};

use crate::activity::End;
use crate::by_name::{activity_of, fix_by, forced_by, least_of, room_in};
use crate::cube::Cube;
use crate::known::{Known, RowRef};
use arch_model::VarId;

/// Whether there is a row of this name: a base row, a cut that is known, or, where there is a
/// bound, the cost row.
pub fn has(known: &Known, r: RowRef) -> bool
    ensures { result ≡ has_row (parts_of known.now) r }
{
    match r {
        RowRef::Base(i) => (i as usize) < known.problem.base().len(),
        RowRef::Cut(j) => j < known.upto && j < known.cuts.len(),
        RowRef::Cost => known.bound.is_some(),
    }
}

/// The greatest value that a row's sum takes in a cube: fixed variables at their values, free ones
/// at the better one.
pub fn greatest(known: &Known, r: RowRef, cube: &Cube) -> i128
    requires { IsTrue (has_row (parts_of known.now) r) }
    ensures value { IfSome (row_at (parts_of known.now) r) (λ row. result ≡ greatest_activity row cube.now) }
    ensures small { unsigned_abs result ≤ 2 ^ 118 }
{
    activity_of(known, r, cube, End::Greatest)
}

/// Whether a row is refuted in a cube: even the greatest value of its sum is below its least.
pub fn refuted(known: &Known, r: RowRef, cube: &Cube) -> bool
    requires { IsTrue (has_row (parts_of known.now) r) }
    ensures test { IfSome (row_at (parts_of known.now) r) (λ row. result ≡ is_refuted row cube.now) }
    ensures refuted { IfSome (row_at (parts_of known.now) r) (λ row. IsTrue result ↔ IsRefuted row cube.now) }
{
    room_in(known, r, cube) < 0
}

/// Whether a row is unmet in a cube: the least value that its sum takes there, free variables at
/// the worse value, is below its least. Where it isn't unmet, each vector of the cube meets it.
pub fn unmet(known: &Known, r: RowRef, cube: &Cube) -> bool
    requires { IsTrue (has_row (parts_of known.now) r) }
    ensures test { IfSome (row_at (parts_of known.now) r) (λ row. result ≡ is_unmet row cube.now) }
    ensures unmet { IfSome (row_at (parts_of known.now) r) (λ row. IsTrue result ↔ IsUnmet row cube.now) }
{
    activity_of(known, r, cube, End::Least) < least_of(known, r)
}

/// The least variable that a row forces in a cube, and the value to which; None where the row is
/// refuted or forces nothing. A row forces a free variable to a value where it isn't refuted, but
/// is once the variable has the other value.
pub fn forces(known: &Known, r: RowRef, cube: &Cube) -> Option<(VarId, bool)>
    requires { IsTrue (has_row (parts_of known.now) r) }
    ensures first { IfSome (row_at (parts_of known.now) r)
        (λ row. option_map number_of result ≡ least_forced row cube.now) }
    ensures least { IfSome (row_at (parts_of known.now) r)
        (λ row. IfSome result (λ p. IsLeastForced row cube.now p.0.0 p.1)) }
    ensures none { IfSome (row_at (parts_of known.now) r) (λ row. IfNone result (ForcesNothing row cube.now)) }
{
    let room = room_in(known, r, cube);
    if room < 0 {
        return None;
    }
    forced_by(known, r, cube, room)
}

/// Fixes all that a row forces in a cube, least variable first, and says how many variables that
/// were. None comes exactly where the row is refuted, and then the cube stays. A trace that names
/// the row once for each of these variables leads from the one cube to the other, where the row is
/// quiet.
pub fn fix_forced(known: &Known, r: RowRef, cube: &mut Cube) -> Option<usize>
    requires { IsTrue (has_row (parts_of known.now) r) }
    ensures refuted { IfNone result (IfSome (row_at (parts_of known.now) r) (λ row. IsRefuted row cube.old)) }
    ensures same { IfNone result (cube.new ≡ cube.old) }
    ensures steps { IfSome result
        (λ k. cube_after (parts_of known.now) cube.old (replicate k r) ≡ Some cube.new) }
    ensures quiet { IfSome result (λ _. IfSome (row_at (parts_of known.now) r) (IsQuietAt cube.new)) }
{
    let room = room_in(known, r, cube);
    if room < 0 {
        return None;
    }
    Some(fix_by(known, r, cube, room))
}
