// Fixing all that a row forces, in one go.
ghost use Rattle.std.specs.Prelude.{◌≡◌, Some, false};
ghost use Rattle.rows.specs.Row.{IsRowBelow, row_of_cut};
ghost use Rattle.rows.specs.Activity.{is_refuted, IsQuietAt};
ghost use Rattle.rows.specs.Inner.Room.{room_of, after_times};
ghost use Rattle.rows.specs.BaseRows.{cost_row_of};

use crate::cost::{member_cost, variable_count};
use crate::cube::Cube;
use crate::cut::CutRow;
use crate::forcing::forced_to;
use crate::row::Row;
use arch_model::limits::MEMBERS;
use arch_model::{Library, VarId};

// Fixes all that a row forces, least variable first, and counts them, from the row's room, which
// isn't negative. What a row forces is its better value, so the room stays meanwhile.
pub(crate) fn fix_by_row(row: &Row, cube: &mut Cube, room: i128) -> usize
    requires room { room ≡ room_of row.now cube.old }
    requires stands { is_refuted row.now cube.old ≡ false }
    requires small { IsRowBelow MEMBERS row.now }
    ensures steps { after_times row.now cube.old result ≡ Some cube.new }
    ensures quiet { IsQuietAt cube.new row.now }
{
    let mut count = 0;
    for term in row.terms() {
        if let Some(value) = forced_to(cube.fixed().has(term.var), term.coef, room) {
            cube.fix(term.var, value);
            count += 1;
        }
    }
    count
}

// The same for a cut: without room each free variable is forced, with room none is.
pub(crate) fn fix_by_cut(cut: &CutRow, cube: &mut Cube, room: i128) -> usize
    requires room { room ≡ room_of (row_of_cut cut.now) cube.old }
    requires stands { is_refuted (row_of_cut cut.now) cube.old ≡ false }
    ensures steps { after_times (row_of_cut cut.now) cube.old result ≡ Some cube.new }
    ensures quiet { IsQuietAt cube.new (row_of_cut cut.now) }
{
    let fixed = cube.fixed();
    if room > 0 {
        return 0;
    }
    let plus = cut.plus();
    let free = plus.union(&cut.minus()).minus(&fixed);
    let mut count = 0;
    for v in free.members() {
        cube.fix(v, plus.has(v));
        count += 1;
    }
    count
}

// The same for the cost row of a bound.
pub(crate) fn fix_by_cost(lib: &Library, bound: u64, cube: &mut Cube, room: i128) -> usize
    requires room { room ≡ room_of (cost_row_of lib.now bound) cube.old }
    requires stands { is_refuted (cost_row_of lib.now bound) cube.old ≡ false }
    ensures steps { after_times (cost_row_of lib.now bound) cube.old result ≡ Some cube.new }
    ensures quiet { IsQuietAt cube.new (cost_row_of lib.now bound) }
{
    let fixed = cube.fixed();
    let mut count = 0;
    for i in 0..variable_count(lib) {
        let v = VarId(i);
        if let Some(value) = forced_to(fixed.has(v), -(member_cost(lib, v) as i128), room) {
            cube.fix(v, value);
            count += 1;
        }
    }
    count
}
