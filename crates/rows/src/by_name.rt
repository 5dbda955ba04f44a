// What is asked of a row by its name. Here alone are base rows, cuts and the cost row told apart.
ghost use Rattle.std.specs.Prelude.{◌≡◌, ◌≤◌, ◌<◌, ◌^◌, Some, false, length, slice_get};
ghost use Rattle.std.specs.Prelude.{IfSome, IsTrue, option_map, unsigned_abs};
ghost use Rattle.rows.specs.Row.{Ascends, IsRowBelow};
ghost use Rattle.rows.specs.Activity.{is_refuted, least_forced, number_of, IsQuietAt};
ghost use Rattle.rows.specs.Known.{parts_of, has_row, row_at};
ghost use Rattle.rows.specs.Inner.Ends.{activity_at};
ghost use Rattle.rows.specs.Inner.Room.{room_of, after_times};

use crate::activity::{End, activity_of_cost, activity_of_cut, activity_of_row};
use crate::closing::{fix_by_cost, fix_by_cut, fix_by_row};
use crate::cost::variable_count;
use crate::cube::Cube;
use crate::forcing::{forced_by_cost, forced_by_cut, forced_by_row};
use crate::known::{Known, RowRef};
use crate::problem::Problem;
use crate::row::Row;
use arch_model::VarId;
use arch_model::limits::MEMBERS;

// The value of a row's sum at an end.
pub(crate) fn activity_of(known: &Known, r: RowRef, cube: &Cube, end: End) -> i128
    requires { IsTrue (has_row (parts_of known.now) r) }
    ensures value { IfSome (row_at (parts_of known.now) r) (λ row. result ≡ activity_at end row cube.now) }
    ensures small { unsigned_abs result ≤ 2 ^ 118 }
{
    match r {
        RowRef::Base(i) => activity_of_row(&known.problem.base()[i as usize], cube, end),
        RowRef::Cut(j) => activity_of_cut(&known.cuts.get(j), cube, end),
        RowRef::Cost => activity_of_cost(known.problem.library(), cube, end),
    }
}

// What a row's sum must come to at least.
pub(crate) fn least_of(known: &Known, r: RowRef) -> i128
    requires { IsTrue (has_row (parts_of known.now) r) }
    ensures value { IfSome (row_at (parts_of known.now) r) (λ row. result ≡ row.least) }
    ensures small { unsigned_abs result ≤ 2 ^ 65 }
{
    match r {
        RowRef::Base(i) => known.problem.base()[i as usize].least(),
        RowRef::Cut(j) => known.cuts.get(j).least(),
        RowRef::Cost => 1 - known.bound.unwrap() as i128,
    }
}

// How far a row's greatest activity is above its least, below 0 where it is refuted.
pub(crate) fn room_in(known: &Known, r: RowRef, cube: &Cube) -> i128
    requires { IsTrue (has_row (parts_of known.now) r) }
    ensures { IfSome (row_at (parts_of known.now) r) (λ row. result ≡ room_of row cube.now) }
{
    activity_of(known, r, cube, End::Greatest) - least_of(known, r)
}

// The least variable that a row forces, from its room, which isn't negative.
pub(crate) fn forced_by(known: &Known, r: RowRef, cube: &Cube, room: i128) -> Option<(VarId, bool)>
    requires there { IsTrue (has_row (parts_of known.now) r) }
    requires room { IfSome (row_at (parts_of known.now) r) (λ row. room ≡ room_of row cube.now) }
    requires stands { IfSome (row_at (parts_of known.now) r) (λ row. is_refuted row cube.now ≡ false) }
    ensures first { IfSome (row_at (parts_of known.now) r)
        (λ row. option_map number_of result ≡ least_forced row cube.now) }
    ensures ascends { IfSome (row_at (parts_of known.now) r) Ascends }
{
    match r {
        RowRef::Base(i) => forced_by_row(&known.problem.base()[i as usize], cube, room),
        RowRef::Cut(j) => forced_by_cut(&known.cuts.get(j), cube, room),
        RowRef::Cost => {
            forced_by_cost(known.problem.library(), known.bound.unwrap(), cube, room)
        }
    }
}

// Fixes all that a row forces, least variable first, and counts them, from its room, which isn't
// negative.
pub(crate) fn fix_by(known: &Known, r: RowRef, cube: &mut Cube, room: i128) -> usize
    requires there { IsTrue (has_row (parts_of known.now) r) }
    requires room { IfSome (row_at (parts_of known.now) r) (λ row. room ≡ room_of row cube.old) }
    requires stands { IfSome (row_at (parts_of known.now) r) (λ row. is_refuted row cube.old ≡ false) }
    ensures steps { IfSome (row_at (parts_of known.now) r) (λ row. after_times row cube.old result ≡ Some cube.new) }
    ensures quiet { IfSome (row_at (parts_of known.now) r) (IsQuietAt cube.new) }
{
    match r {
        RowRef::Base(i) => fix_by_row(base_row(known.problem, i), cube, room),
        RowRef::Cut(j) => fix_by_cut(&known.cuts.get(j), cube, room),
        RowRef::Cost => fix_by_cost(known.problem.library(), known.bound.unwrap(), cube, room),
    }
}

// The base row of a number.
fn base_row(problem: &Problem, i: u32) -> &Row
    requires { i < length problem.now.base }
    ensures row { slice_get problem.now.base i ≡ Some result.now }
    ensures small { IsRowBelow MEMBERS result.now }
{
    // the limits of a library bound the variables of its rows
    let _few = variable_count(problem.library());
    &problem.base()[i as usize]
}
