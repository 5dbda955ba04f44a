// How great the sum of a row can get in a cube, and how small.
ghost use Rattle.std.specs.Prelude.{◌≡◌, ℕ, ◌*◌, ◌≤◌, ◌^◌, unsigned_abs};
ghost use Rattle.arch_model.specs.Set.{len};
ghost use Rattle.rows.specs.Row.{row_of_cut};
ghost use Rattle.rows.specs.Cube.{IsCube};
ghost use Rattle.rows.specs.BaseRows.{cost_row_of};
ghost use Rattle.rows.specs.Inner.Ends.{taken_at, activity_at, ones_among};

use crate::cost::{member_cost, variable_count};
use crate::cube::Cube;
use crate::cut::CutRow;
use crate::row::Row;
use arch_model::{Library, MemberSet, VarId};

// An end of the range of a row's sum in a cube: fixed variables have their values, and free ones
// the better value for the sum, or the worse.
#[derive(Clone, Copy)]
pub(crate) enum End {
    Greatest,
    Least,
}

// What a coefficient adds at an end.
pub(crate) fn taken(end: End, value: Option<bool>, coef: i128) -> i128
    ensures { result ≡ taken_at end value coef }
{
    match value {
        Some(true) => coef,
        Some(false) => 0,
        None => match end {
            End::Greatest => coef.max(0),
            End::Least => coef.min(0),
        },
    }
}

// The value of a row's sum at an end.
pub(crate) fn activity_of_row(row: &Row, cube: &Cube, end: End) -> i128
    ensures value { result ≡ activity_at end row.now cube.now }
    ensures small { unsigned_abs result ≤ 2 ^ 118 }
{
    let mut total: i128 = 0;
    for term in row.terms() {
        total += taken(end, cube.value(term.var), term.coef);
    }
    total
}

// How many variables of a set are at 1 where the free ones all have this value.
fn count_ones(set: &MemberSet, cube: &Cube, free: bool) -> u32
    ensures value { result ≡ len (ones_among set.now cube.now free) }
    ensures cube { IsCube cube.now }
{
    if free {
        set.minus(&cube.fixed().minus(&cube.ones())).len()
    } else {
        set.intersection(&cube.ones()).len()
    }
}

// The same for a cut: the free variables of one of its sets are at 1, those of the other at 0.
pub(crate) fn activity_of_cut(cut: &CutRow, cube: &Cube, end: End) -> i128
    ensures value { result ≡ activity_at end (row_of_cut cut.now) cube.now }
    ensures small { unsigned_abs result ≤ 2 ^ 118 }
{
    let rises = match end {
        End::Greatest => true,
        End::Least => false,
    };
    let plus = count_ones(&cut.plus(), cube, rises);
    let minus = count_ones(&cut.minus(), cube, !rises);
    plus as i128 - minus as i128
}

// The same for the cost row of any bound.
pub(crate) fn activity_of_cost(lib: &Library, cube: &Cube, end: End) -> i128
    ensures value { (bound : ℕ) → result ≡ activity_at end (cost_row_of lib.now bound) cube.now }
    ensures small { unsigned_abs result ≤ 2 ^ 118 }
{
    let mut total: i128 = 0;
    for i in 0..variable_count(lib) {
        let v = VarId(i);
        total += taken(end, cube.value(v), -(member_cost(lib, v) as i128));
    }
    total
}
