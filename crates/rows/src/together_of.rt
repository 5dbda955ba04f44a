// Whether the rows of a reason together are refuted.
ghost use Rattle.std.specs.Prelude.{◌≡◌, ℕ, ◌+◌, ◌*◌, ◌≤◌, ◌<◌, ◌^◌, pos, ◌*ℤ◌, unsigned_abs};
ghost use Rattle.std.specs.Prelude.{IfSome, IsTrue, flat_map, slice_index_or};
ghost use Rattle.arch_model.specs.Member.{member_count};
ghost use Rattle.rows.specs.Row.{int_sum_by, coef_at, row_of_cut};
ghost use Rattle.rows.specs.Known.{parts_of, has_row, row_at, variables};
ghost use Rattle.rows.specs.BaseRows.{cost_row_of};
ghost use Rattle.rows.specs.Inner.Sums.{AreWithin, AreAdded};
ghost use Rattle.rows.specs.Reason.{IsReason, AllThere, row_of_pair, terms_times, is_together};

use crate::activity::{End, taken};
use crate::by_name::least_of;
use crate::cost::{member_cost, variable_count};
use crate::cube::Cube;
use crate::cut::CutRow;
use crate::known::{Known, Pair, Reason, RowRef};
use crate::row::Row;
use arch_model::limits::MEMBERS;
use arch_model::{Library, VarId};

// A number taken a number of times.
fn scaled(times: u64, a: i128) -> i128
    requires times { times ≤ 10 ^ 12 }
    requires small { unsigned_abs a ≤ 2 ^ 65 }
    ensures value { result ≡ pos times *ℤ a }
    ensures small { unsigned_abs result ≤ 10 ^ 12 * unsigned_abs a }
{
    times as i128 * a
}

// Adds a row's coefficients, taken a number of times, to those of the variables below n.
fn add_row(sums: &mut [i128; MEMBERS], n: u32, row: &Row, times: u64)
    requires members { n ≤ MEMBERS }
    requires times { times ≤ 10 ^ 12 }
    requires room { AreWithin n (63 * 10 ^ 28) sums.old }
    ensures value { AreAdded n times row.now.terms sums.old sums.new }
    ensures small { (m : ℕ) → AreWithin n m sums.old → AreWithin n (m + 10 ^ 28) sums.new }
{
    for term in row.terms() {
        if term.var.0 < n {
            sums[term.var.0 as usize] += scaled(times, term.coef);
        }
    }
}

// The same for a cut.
fn add_cut(sums: &mut [i128; MEMBERS], n: u32, cut: &CutRow, times: u64)
    requires members { n ≤ MEMBERS }
    requires times { times ≤ 10 ^ 12 }
    requires room { AreWithin n (63 * 10 ^ 28) sums.old }
    ensures value { AreAdded n times (row_of_cut cut.now).terms sums.old sums.new }
    ensures small { (m : ℕ) → AreWithin n m sums.old → AreWithin n (m + 10 ^ 28) sums.new }
{
    for v in cut.plus().union(&cut.minus()).members() {
        if v.0 < n {
            sums[v.0 as usize] += scaled(times, cut.coef(v));
        }
    }
}

// The same for the cost row.
fn add_cost(sums: &mut [i128; MEMBERS], lib: &Library, times: u64)
    requires times { times ≤ 10 ^ 12 }
    requires room { AreWithin (member_count lib.now) (63 * 10 ^ 28) sums.old }
    ensures value { (bound : ℕ)
        → AreAdded (member_count lib.now) times (cost_row_of lib.now bound).terms sums.old sums.new }
    ensures small { (m : ℕ) → AreWithin (member_count lib.now) m sums.old
        → AreWithin (member_count lib.now) (m + 10 ^ 28) sums.new }
{
    for i in 0..variable_count(lib) {
        sums[i as usize] += scaled(times, -(member_cost(lib, VarId(i)) as i128));
    }
}

// The same for the row of this name.
fn add_pair(sums: &mut [i128; MEMBERS], known: &Known, pair: Pair)
    requires there { IsTrue (has_row (parts_of known.now) pair.row) }
    requires times { pair.times ≤ 10 ^ 12 }
    requires room { AreWithin (variables (parts_of known.now)) (63 * 10 ^ 28) sums.old }
    ensures value { IfSome (row_at (parts_of known.now) pair.row)
        (λ row. AreAdded (variables (parts_of known.now)) pair.times row.terms sums.old sums.new) }
    ensures small { (m : ℕ) → AreWithin (variables (parts_of known.now)) m sums.old
        → AreWithin (variables (parts_of known.now)) (m + 10 ^ 28) sums.new }
{
    let lib = known.problem.library();
    let n = variable_count(lib);
    match pair.row {
        RowRef::Base(i) => add_row(sums, n, &known.problem.base()[i as usize], pair.times),
        RowRef::Cut(j) => add_cut(sums, n, &known.cuts.get(j), pair.times),
        RowRef::Cost => add_cost(sums, lib, pair.times),
    }
}

// The coefficient of each variable when the rows of a reason are added up.
fn combined_coefs(known: &Known, reason: &[Pair]) -> [i128; MEMBERS]
    requires reason { IsReason reason.now }
    requires there { AllThere (parts_of known.now) reason.now }
    ensures value { (v : ℕ) → v < variables (parts_of known.now) → slice_index_or result v (pos 0)
        ≡ coef_at (flat_map (λ p. terms_times p.times (row_of_pair (parts_of known.now) p)) reason.now) v }
    ensures small { AreWithin (variables (parts_of known.now)) (64 * 10 ^ 28) result }
{
    let mut sums = [0i128; MEMBERS];
    for pair in reason {
        add_pair(&mut sums, known, *pair);
    }
    sums
}

// What the sum of the rows of a reason must come to at least.
fn combined_least(known: &Known, reason: &[Pair]) -> i128
    requires reason { IsReason reason.now }
    requires there { AllThere (parts_of known.now) reason.now }
    ensures { result ≡ int_sum_by (λ p. pos p.times *ℤ (row_of_pair (parts_of known.now) p).least) reason.now }
{
    let mut total: i128 = 0;
    for pair in reason {
        total += scaled(pair.times, least_of(known, pair.row));
    }
    total
}

/// Whether the combination of a reason, the sum of its rows with their multipliers, is refuted in a
/// cube.
pub fn together(known: &Known, reason: &Reason, cube: &Cube) -> bool
    requires { AllThere (parts_of known.now) reason.now }
    ensures { result ≡ is_together (parts_of known.now) reason.now cube.now }
{
    pairs_together(known, reason.pairs(), cube)
}

/// The same for the pairs of a reason that isn't made yet.
pub fn pairs_together(known: &Known, pairs: &[Pair], cube: &Cube) -> bool
    requires reason { IsReason pairs.now }
    requires there { AllThere (parts_of known.now) pairs.now }
    ensures { result ≡ is_together (parts_of known.now) pairs.now cube.now }
{
    let coefs = combined_coefs(known, pairs);
    let mut total: i128 = 0;
    for i in 0..variable_count(known.problem.library()) {
        total += taken(End::Greatest, cube.value(VarId(i)), coefs[i as usize]);
    }
    total < combined_least(known, pairs)
}
