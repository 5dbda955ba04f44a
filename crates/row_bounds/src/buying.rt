// A second candidate for a reason, often stronger than the ascent. Nothing is promised of it but
// that it is a reason: whether its combination is refuted is asked afterwards.
//
// It differs from the ascent in three ways. The cost row is taken many times, so that quotients of
// small residues aren't rounded away. The rows with the fewest free helpers come first. And where a
// row could be added more often but for an edge of which too little is left, the edge buys that out
// of what is left of its ends, through its own two rows: so a bound sees what the components behind
// an edge cost.
ghost use Rattle.std.specs.Prelude.{◌≡◌, ℕ, ◌≤◌, ◌<◌, ◌^◌, length, slice_index};
ghost use Rattle.rows.specs.Known.{parts_of, IsKnown};
ghost use Rattle.row_bounds.specs.Inner.Climb.{IsRising};

use crate::ascent::Rising;
use crate::pair_list::PairList;
use crate::shortlist::{MANY, Shortlist};
use crate::spending::{
    MOST, base_row, free_of_cut, goes_into, look_at_row, spend_cut, spend_row, times_of_cut,
};
use arch_model::limits::MEMBERS;
use arch_model::{CompId, Edge, Library, MemberSet, VarId};
use rows::{Cube, Known, Pair, Row, RowRef, Term, member_cost, variable_count};

// How often the cost row is taken.
const SCALE: u64 = 1000;

// What each member costs, scaled.
fn scaled_costs(lib: &Library) -> [u128; MEMBERS]
    ensures { (v : ℕ) → v < MEMBERS → slice_index result v ≤ 10 ^ 28 }
{
    let mut costs = [0u128; MEMBERS];
    for i in 0..variable_count(lib) {
        costs[i as usize] = (member_cost(lib, VarId(i)) * SCALE) as u128;
    }
    costs
}

// The first pair is the cost row.
fn begin_scaled(known: &Known) -> Rising
    ensures { IsRising (parts_of known.now) result.pairs result.residue }
{
    Rising {
        pairs: PairList::of(Pair {
            row: RowRef::Cost,
            times: SCALE,
        }),
        residue: scaled_costs(known.problem.library()),
    }
}

// The edge that a variable is, with its number.
fn edge_at(lib: &Library, v: VarId) -> Option<(u32, Edge)> {
    let k = (v.0 as usize).checked_sub(lib.components().len())?;
    let edge = lib.edges().get(k)?;
    Some((k as u32, *edge))
}

// What is left of a component's cost where it is free.
fn left_at(cube: &Cube, end: CompId, residue: &[u128; MEMBERS]) -> u128 {
    if cube.value(VarId(end.0)).is_some() {
        return 0;
    }
    residue.get(end.0 as usize).copied().unwrap_or(0)
}

// What is left of a variable's cost, and for an edge of those of its ends.
fn within_reach(lib: &Library, cube: &Cube, v: VarId, residue: &[u128; MEMBERS]) -> u128 {
    let own = residue.get(v.0 as usize).copied().unwrap_or(0);
    match edge_at(lib, v) {
        Some((_, edge)) => own
            .saturating_add(left_at(cube, edge.tail, residue))
            .saturating_add(left_at(cube, edge.head, residue)),
        None => own,
    }
}

// How often a row could be added if each edge bought from its ends.
fn reach_of_row(lib: &Library, row: &Row, cube: &Cube, residue: &[u128; MEMBERS]) -> u128 {
    let fixed = cube.fixed();
    let mut most = MOST;
    for term in row.terms() {
        if term.coef > 0 && !fixed.has(term.var) {
            let reach = within_reach(lib, cube, term.var, residue);
            most = most.min(goes_into(term.coef.unsigned_abs(), reach));
        }
    }
    most
}

// How often a row could be added whose coefficients at some free variables are 1, if each edge
// among them bought from its ends.
fn reach_of_all(lib: &Library, free: &MemberSet, cube: &Cube, residue: &[u128; MEMBERS]) -> u128 {
    let mut most = MOST;
    for v in free.members() {
        most = most.min(within_reach(lib, cube, v, residue));
    }
    most
}

// Adds a base row a number of times, where there is room for a pair.
fn add_base(known: &Known, i: u32, times: u64, rising: &mut Rising)
    requires few { times ≤ 10 ^ 12 }
    requires rising { IsRising (parts_of known.now) rising.old.pairs rising.old.residue }
    ensures rising { IsRising (parts_of known.now) rising.new.pairs rising.new.residue }
{
    if times == 0 || rising.pairs.is_full() || i as usize >= known.problem.base().len() {
        return;
    }
    spend_row(&mut rising.residue, base_row(known.problem, i), times);
    rising.pairs.push(Pair {
        row: RowRef::Base(i),
        times,
    });
}

// The same for a cut.
fn add_cut(known: &Known, j: u32, times: u64, rising: &mut Rising)
    requires known { IsKnown (parts_of known.now) }
    requires short { j < known.now.upto }
    requires few { times ≤ 10 ^ 12 }
    requires rising { IsRising (parts_of known.now) rising.old.pairs rising.old.residue }
    ensures rising { IsRising (parts_of known.now) rising.new.pairs rising.new.residue }
{
    if times == 0 || rising.pairs.is_full() {
        return;
    }
    spend_cut(&mut rising.residue, &known.cuts.get(j), times);
    rising.pairs.push(Pair {
        row: RowRef::Cut(j),
        times,
    });
}

// Buys for an edge, out of one end, at most what it needs, and says how much that was.
fn buy_from(
    known: &Known,
    i: u32,
    end: CompId,
    need: u128,
    cube: &Cube,
    rising: &mut Rising,
) -> u128
    requires rising { IsRising (parts_of known.now) rising.old.pairs rising.old.residue }
    ensures rising { IsRising (parts_of known.now) rising.new.pairs rising.new.residue }
{
    let times = left_at(cube, end, &rising.residue).min(need).min(MOST);
    add_base(known, i, times as u64, rising);
    times
}

// Buys for an edge, out of its ends, what it lacks to have this much left.
fn supply(known: &Known, v: VarId, want: u128, cube: &Cube, rising: &mut Rising)
    requires rising { IsRising (parts_of known.now) rising.old.pairs rising.old.residue }
    ensures rising { IsRising (parts_of known.now) rising.new.pairs rising.new.residue }
{
    let has = rising.residue.get(v.0 as usize).copied().unwrap_or(want);
    let need = want.saturating_sub(has);
    if need == 0 {
        return;
    }
    if let Some((k, edge)) = edge_at(known.problem.library(), v) {
        let tail_row = k.saturating_mul(2);
        let bought = buy_from(known, tail_row, edge.tail, need, cube, rising);
        let rest = need.saturating_sub(bought);
        buy_from(
            known,
            tail_row.saturating_add(1),
            edge.head,
            rest,
            cube,
            rising,
        );
    }
}

// Buys for the edge of a term what it lacks for its row to be added this often.
fn supply_term(known: &Known, term: Term, most: u128, cube: &Cube, rising: &mut Rising)
    requires rising { IsRising (parts_of known.now) rising.old.pairs rising.old.residue }
    ensures rising { IsRising (parts_of known.now) rising.new.pairs rising.new.residue }
{
    if term.coef > 0 && cube.value(term.var).is_none() {
        let want = most.saturating_mul(term.coef.unsigned_abs());
        supply(known, term.var, want, cube, rising);
    }
}

// Buys for each edge among some variables what it lacks to have this much left.
fn supply_all(known: &Known, free: &MemberSet, want: u128, cube: &Cube, rising: &mut Rising)
    requires rising { IsRising (parts_of known.now) rising.old.pairs rising.old.residue }
    ensures rising { IsRising (parts_of known.now) rising.new.pairs rising.new.residue }
{
    for v in free.members() {
        supply(known, v, want, cube, rising);
    }
}

// Adds a base row as often as it may be once its edges have bought what they lack.
fn raise_base(known: &Known, i: u32, cube: &Cube, rising: &mut Rising)
    requires short { i < length known.now.problem.now.base }
    requires rising { IsRising (parts_of known.now) rising.old.pairs rising.old.residue }
    ensures rising { IsRising (parts_of known.now) rising.new.pairs rising.new.residue }
{
    let row = base_row(known.problem, i);
    let most = reach_of_row(known.problem.library(), row, cube, &rising.residue);
    if most == 0 {
        return;
    }
    for term in row.terms() {
        supply_term(known, *term, most, cube, rising);
    }
    let times = look_at_row(row, cube, &rising.residue).times;
    add_base(known, i, times, rising);
}

// The same for a cut.
fn raise_cut(known: &Known, j: u32, cube: &Cube, rising: &mut Rising)
    requires known { IsKnown (parts_of known.now) }
    requires short { j < known.now.upto }
    requires rising { IsRising (parts_of known.now) rising.old.pairs rising.old.residue }
    ensures rising { IsRising (parts_of known.now) rising.new.pairs rising.new.residue }
{
    let cut = known.cuts.get(j);
    let free = free_of_cut(&cut, cube);
    let most = reach_of_all(known.problem.library(), &free, cube, &rising.residue);
    if most == 0 {
        return;
    }
    supply_all(known, &free, most, cube, rising);
    let times = times_of_cut(&cut, cube, &rising.residue);
    add_cut(known, j, times, rising);
}

// The same for the row of this name, while there is room for a pair. The cost row is in already.
fn raise(known: &Known, name: RowRef, cube: &Cube, rising: &mut Rising)
    requires known { IsKnown (parts_of known.now) }
    requires rising { IsRising (parts_of known.now) rising.old.pairs rising.old.residue }
    ensures rising { IsRising (parts_of known.now) rising.new.pairs rising.new.residue }
{
    if rising.pairs.is_full() {
        return;
    }
    match name {
        RowRef::Base(i) => {
            if (i as usize) < known.problem.base().len() {
                raise_base(known, i, cube, rising);
            }
        }
        RowRef::Cut(j) => {
            if j < known.upto {
                raise_cut(known, j, cube, rising);
            }
        }
        RowRef::Cost => {}
    }
}

// Raises the rows that have this many free helpers.
fn pass(known: &Known, list: &Shortlist, helpers: usize, cube: &Cube, rising: &mut Rising)
    requires known { IsKnown (parts_of known.now) }
    requires rising { IsRising (parts_of known.now) rising.old.pairs rising.old.residue }
    ensures rising { IsRising (parts_of known.now) rising.new.pairs rising.new.residue }
{
    for place in 0..list.len() {
        if let Some(name) = list.at(place, helpers) {
            raise(known, name, cube, rising);
        }
    }
}

// The second candidate, over the rows that an ascent noted: those with the fewest free helpers
// first.
pub(crate) fn climb_scaled(known: &Known, list: &Shortlist, cube: &Cube) -> Rising
    requires { IsKnown (parts_of known.now) }
    ensures { IsRising (parts_of known.now) result.pairs result.residue }
{
    let mut rising = begin_scaled(known);
    for helpers in 1..MANY + 1 {
        pass(known, list, helpers, cube, &mut rising);
    }
    rising
}
