// What a row takes of the residues: how often it may be added, and what it leaves then.
ghost use Rattle.std.specs.Prelude.{◌≡◌, ℕ, pos, ◌+◌, ◌*◌, ◌-◌, ◌/◌, ◌≤◌, ◌<◌, ◌^◌, if◌then◌else◌};
ghost use Rattle.std.specs.Prelude.{slice_index, slice_get, length, Some};
ghost use Rattle.arch_model.specs.Set.{has, minus};
ghost use Rattle.rows.specs.Row.{IsSized, IsRowBelow, coef_at, cut_coef, row_of_cut};
ghost use Rattle.rows.specs.Cut.{IsCut};
ghost use Rattle.rows.specs.Ascent.{times_of, left_of};
ghost use Rattle.row_bounds.specs.Inner.Climb.{quotient_by, is_wanting};

use arch_model::limits::MEMBERS;
use arch_model::{Library, MemberSet, VarId};
use rows::{Cube, CutRow, Problem, Row, variable_count};

// The greatest multiplier of a reason.
pub(crate) const MOST: u128 = 1_000_000_000_000;

// The base row of a number.
pub(crate) fn base_row(problem: &Problem, i: u32) -> &Row
    requires { i < length problem.now.base }
    ensures row { slice_get problem.now.base i ≡ Some result.now }
    ensures small { IsRowBelow MEMBERS result.now }
{
    // the limits of a library bound the variables of its rows
    let _few = variable_count(problem.library());
    &problem.base()[i as usize]
}

// How often a number goes into another. Most coefficients are 1, and wide numbers divide slowly.
pub(crate) fn goes_into(coef: u128, residue: u128) -> u128
    requires { 1 ≤ coef }
    ensures { result ≡ residue / coef }
{
    if coef == 1 { residue } else { residue / coef }
}

// How often a coefficient goes into what is left of its variable's cost, where it can at all.
pub(crate) fn quotient(fixed: bool, coef: i128, residue: u128) -> Option<u128>
    ensures { result ≡ quotient_by fixed coef residue }
{
    if fixed {
        return None;
    }
    if coef <= 0 {
        return None;
    }
    Some(goes_into(coef.unsigned_abs(), residue))
}

// What is left of a residue once a coefficient was taken a number of times.
fn left(residue: u128, coef: i128, times: u64) -> u128
    requires few { times ≤ 10 ^ 12 }
    requires sized { IsSized coef }
    requires low { residue ≤ 2 ^ 120 }
    ensures value { result ≡ left_of times coef residue }
{
    let all = times as u128 * coef.unsigned_abs();
    if coef > 0 {
        residue.saturating_sub(all)
    } else {
        residue + all
    }
}

// The free variables of a cut that would help to meet it.
pub(crate) fn free_of_cut(cut: &CutRow, cube: &Cube) -> MemberSet
    ensures { result ≡ minus cut.now.plus cube.now.fixed }
{
    cut.plus().minus(&cube.fixed())
}

// What a variable that is at 1, or isn't, adds to a sum.
fn at_one(one: bool, coef: i128) -> i128
    ensures { result ≡ (if one then coef else pos 0) }
{
    if one { coef } else { 0 }
}

// Whether the variables at 1 don't meet a row by themselves. Only then is more asked of it.
pub(crate) fn is_row_wanting(row: &Row, cube: &Cube) -> bool
    ensures { result ≡ is_wanting cube.now row.now }
{
    let ones = cube.ones();
    let mut total: i128 = 0;
    for term in row.terms() {
        total += at_one(ones.has(term.var), term.coef);
    }
    total < row.least()
}

// What the ascent asks of a row that the variables at 1 don't meet.
#[derive(Clone, Copy)]
pub(crate) struct Look {
    // how many free variables would help to meet it
    pub(crate) helpers: usize,
    // how often it may be added
    pub(crate) times: u64,
}

// That in one pass over the row's terms.
pub(crate) fn look_at_row(row: &Row, cube: &Cube, residue: &[u128; MEMBERS]) -> Look
    requires { IsRowBelow MEMBERS row.now }
    ensures times { result.times ≡ times_of cube.now (slice_index residue.now) row.now }
    ensures few { result.times ≤ 10 ^ 12 }
{
    let fixed = cube.fixed();
    let mut helpers = 0;
    let mut times = MOST;
    for term in row.terms() {
        let left = residue[term.var.0 as usize];
        if let Some(most) = quotient(fixed.has(term.var), term.coef, left) {
            times = times.min(most);
            helpers += 1;
        }
    }
    Look {
        helpers,
        times: times as u64,
    }
}

// Whether the variables at 1 don't meet a cut by themselves.
pub(crate) fn is_cut_wanting(cut: &CutRow, cube: &Cube) -> bool
    ensures wanting { result ≡ is_wanting cube.now (row_of_cut cut.now) }
    ensures cut { IsCut cut.now }
{
    let ones = cube.ones();
    let plus = cut.plus().intersection(&ones).len();
    let minus = cut.minus().intersection(&ones).len();
    (plus as i128 - minus as i128) < cut.least()
}

// How often a cut may be added.
pub(crate) fn times_of_cut(cut: &CutRow, cube: &Cube, residue: &[u128; MEMBERS]) -> u64
    ensures value { result ≡ times_of cube.now (slice_index residue.now) (row_of_cut cut.now) }
    ensures few { result ≤ 10 ^ 12 }
{
    let free = free_of_cut(cut, cube);
    let mut times = MOST;
    for v in free.members() {
        times = times.min(residue[v.0 as usize]);
    }
    times as u64
}

// The variables of whose cost nothing is left.
pub(crate) fn spent_variables(lib: &Library, residue: &[u128; MEMBERS]) -> MemberSet {
    let mut spent = MemberSet::new();
    for i in 0..variable_count(lib) {
        if residue[i as usize] == 0 {
            spent.put(VarId(i));
        }
    }
    spent
}

// Takes a row's coefficients, a number of times, from the residues.
pub(crate) fn spend_row(residue: &mut [u128; MEMBERS], row: &Row, times: u64)
    requires below { IsRowBelow MEMBERS row.now }
    requires few { times ≤ 10 ^ 12 }
    requires low { (v : ℕ) → v < MEMBERS → slice_index residue.old v ≤ 2 ^ 120 }
    ensures left { (v : ℕ) → v < MEMBERS
        → slice_index residue.new v ≡ left_of times (coef_at row.now.terms v) (slice_index residue.old v) }
    ensures low { (v : ℕ) → v < MEMBERS → slice_index residue.new v ≤ slice_index residue.old v + 10 ^ 28 }
{
    for term in row.terms() {
        let v = term.var.0 as usize;
        residue[v] = left(residue[v], term.coef, times);
    }
}

// Lowers the residues of some variables.
fn lower(residue: &mut [u128; MEMBERS], members: &MemberSet, by: u64)
    ensures { (v : ℕ) → v < MEMBERS
        → slice_index residue.new v
        ≡ (if has members.now v then slice_index residue.old v - by else slice_index residue.old v) }
{
    for v in members.members() {
        residue[v.0 as usize] = residue[v.0 as usize].saturating_sub(by as u128);
    }
}

// Raises the residues of some variables.
fn raise(residue: &mut [u128; MEMBERS], members: &MemberSet, by: u64)
    requires few { by ≤ 10 ^ 12 }
    requires low { (v : ℕ) → v < MEMBERS → slice_index residue.old v ≤ 2 ^ 120 }
    ensures { (v : ℕ) → v < MEMBERS
        → slice_index residue.new v
        ≡ (if has members.now v then slice_index residue.old v + by else slice_index residue.old v) }
{
    for v in members.members() {
        residue[v.0 as usize] += by as u128;
    }
}

// Takes a cut's coefficients, a number of times, from the residues.
pub(crate) fn spend_cut(residue: &mut [u128; MEMBERS], cut: &CutRow, times: u64)
    requires few { times ≤ 10 ^ 12 }
    requires low { (v : ℕ) → v < MEMBERS → slice_index residue.old v ≤ 2 ^ 120 }
    ensures left { (v : ℕ) → v < MEMBERS
        → slice_index residue.new v
        ≡ left_of times (coef_at (row_of_cut cut.now).terms v) (slice_index residue.old v) }
    ensures low { (v : ℕ) → v < MEMBERS → slice_index residue.new v ≤ slice_index residue.old v + 10 ^ 28 }
{
    lower(residue, &cut.plus(), times);
    raise(residue, &cut.minus(), times);
}
