// Which variable a row forces first, from its room.
ghost use Rattle.std.specs.Prelude.{◌≡◌, false, option_map};
ghost use Rattle.rows.specs.Row.{IsSized, row_of_cut};
ghost use Rattle.rows.specs.Activity.{is_refuted, least_forced, number_of};
ghost use Rattle.rows.specs.Inner.Room.{forced_value, room_of};
ghost use Rattle.rows.specs.BaseRows.{cost_row_of};

use crate::cost::{member_cost, variable_count};
use crate::cube::Cube;
use crate::cut::CutRow;
use crate::row::Row;
use arch_model::{Library, VarId};

// To which value a variable is forced, from whether it is fixed, its coefficient and the room that
// the row has.
pub(crate) fn forced_to(fixed: bool, coef: i128, room: i128) -> Option<bool>
    requires { IsSized coef }
    ensures { result ≡ forced_value fixed coef room }
{
    if fixed {
        None
    } else if room < coef {
        Some(true)
    } else if room < -coef {
        Some(false)
    } else {
        None
    }
}

// The least variable that a row forces, from its room, which isn't negative.
pub(crate) fn forced_by_row(row: &Row, cube: &Cube, room: i128) -> Option<(VarId, bool)>
    requires room { room ≡ room_of row.now cube.now }
    requires stands { is_refuted row.now cube.now ≡ false }
    ensures { option_map number_of result ≡ least_forced row.now cube.now }
{
    let fixed = cube.fixed();
    for term in row.terms() {
        if let Some(value) = forced_to(fixed.has(term.var), term.coef, room) {
            return Some((term.var, value));
        }
    }
    None
}

// The same for a cut: without room each free variable is forced, with room none is.
pub(crate) fn forced_by_cut(cut: &CutRow, cube: &Cube, room: i128) -> Option<(VarId, bool)>
    requires room { room ≡ room_of (row_of_cut cut.now) cube.now }
    requires stands { is_refuted (row_of_cut cut.now) cube.now ≡ false }
    ensures { option_map number_of result ≡ least_forced (row_of_cut cut.now) cube.now }
{
    let fixed = cube.fixed();
    if room > 0 {
        return None;
    }
    let free = cut.plus().union(&cut.minus()).minus(&fixed);
    let v = VarId(free.next_from(0)? as u32);
    Some((v, cut.plus().has(v)))
}

// The same for the cost row of a bound.
pub(crate) fn forced_by_cost(
    lib: &Library,
    bound: u64,
    cube: &Cube,
    room: i128,
) -> Option<(VarId, bool)>
    requires room { room ≡ room_of (cost_row_of lib.now bound) cube.now }
    requires stands { is_refuted (cost_row_of lib.now bound) cube.now ≡ false }
    ensures { option_map number_of result ≡ least_forced (cost_row_of lib.now bound) cube.now }
{
    let fixed = cube.fixed();
    for i in 0..variable_count(lib) {
        let v = VarId(i);
        if let Some(value) = forced_to(fixed.has(v), -(member_cost(lib, v) as i128), room) {
            return Some((v, value));
        }
    }
    None
}
