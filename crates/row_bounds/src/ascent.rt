// The ascent, row after row, which notes on its way the rows that a second candidate looks at.
ghost use Rattle.std.specs.Prelude.{◌≡◌, ℕ, ◌≤◌, ◌<◌, ◌^◌, length, fold};
ghost use Rattle.std.specs.Prelude.{slice_get, slice_index, IfSome};
ghost use Rattle.rows.specs.Row.{row_of_cut};
ghost use Rattle.rows.specs.Known.{parts_of, known_cuts, IsKnown};
ghost use Rattle.rows.specs.declared.known.RowRef.TheVariants as names;
ghost use Rattle.rows.specs.BaseRows.{member_cost_of};
ghost use Rattle.rows.specs.Ascent as formal;
ghost use Rattle.row_bounds.specs.Inner.Climb.{Follows, IsRising, base_named, cuts_named};

use crate::pair_list::PairList;
use crate::shortlist::Shortlist;
use crate::spending::{
    base_row, free_of_cut, is_cut_wanting, is_row_wanting, look_at_row, spend_cut, spend_row,
    times_of_cut,
};
use arch_model::limits::MEMBERS;
use arch_model::{Library, VarId};
use rows::{Cube, Known, Pair, RowRef, member_cost, variable_count};

// The pairs so far, and what is left of each variable's cost.
#[derive(Drop)]
pub(crate) struct Rising {
    pub(crate) pairs: PairList,
    pub(crate) residue: [u128; MEMBERS],
}

// What each member costs.
fn costs(lib: &Library) -> [u128; MEMBERS]
    ensures value { (v : ℕ) → v < MEMBERS → slice_index result v ≡ member_cost_of lib.now v }
    ensures low { (v : ℕ) → v < MEMBERS → slice_index result v ≤ 10 ^ 12 }
{
    let mut costs = [0u128; MEMBERS];
    for i in 0..variable_count(lib) {
        costs[i as usize] = member_cost(lib, VarId(i)) as u128;
    }
    costs
}

// Looks at a base row. Where the variables that are fixed to 1 don't meet it by themselves, it is
// noted, and added as often as it may be while there is room for a pair.
fn look_at_base(known: &Known, i: u32, cube: &Cube, list: &mut Shortlist, rising: &mut Rising)
    requires short { i < length known.now.problem.now.base }
    requires rising { IsRising (parts_of known.now) rising.old.pairs rising.old.residue }
    ensures rising { IsRising (parts_of known.now) rising.new.pairs rising.new.residue }
    ensures follows { (a : formal.Ascent) → Follows rising.old.pairs rising.old.residue a
        → IfSome (slice_get known.now.problem.now.base i)
        (λ row. Follows rising.new.pairs rising.new.residue
        (formal.looked_at cube.now a (names.Base i, row))) }
{
    let row = base_row(known.problem, i);
    if !is_row_wanting(row, cube) {
        return;
    }
    let look = look_at_row(row, cube, &rising.residue);
    list.note(RowRef::Base(i), look.helpers);
    if look.times == 0 {
        return;
    }
    if rising.pairs.is_full() {
        return;
    }
    spend_row(&mut rising.residue, row, look.times);
    rising.pairs.push(Pair {
        row: RowRef::Base(i),
        times: look.times,
    });
}

// The same for a cut.
fn look_at_cut(known: &Known, j: u32, cube: &Cube, list: &mut Shortlist, rising: &mut Rising)
    requires known { IsKnown (parts_of known.now) }
    requires short { j < known.now.upto }
    requires rising { IsRising (parts_of known.now) rising.old.pairs rising.old.residue }
    ensures rising { IsRising (parts_of known.now) rising.new.pairs rising.new.residue }
    ensures follows { (a : formal.Ascent) → Follows rising.old.pairs rising.old.residue a
        → IfSome (slice_get (known_cuts (parts_of known.now)) j)
        (λ cut. Follows rising.new.pairs rising.new.residue
        (formal.looked_at cube.now a (names.Cut j, row_of_cut cut))) }
{
    let cut = known.cuts.get(j);
    if !is_cut_wanting(&cut, cube) {
        return;
    }
    list.note(RowRef::Cut(j), free_of_cut(&cut, cube).len() as usize);
    if rising.pairs.is_full() {
        return;
    }
    let times = times_of_cut(&cut, cube, &rising.residue);
    if times == 0 {
        return;
    }
    spend_cut(&mut rising.residue, &cut, times);
    rising.pairs.push(Pair {
        row: RowRef::Cut(j),
        times,
    });
}

// Looks at all base rows, by number.
fn climb_base(known: &Known, cube: &Cube, list: &mut Shortlist, rising: &mut Rising)
    requires rising { IsRising (parts_of known.now) rising.old.pairs rising.old.residue }
    ensures rising { IsRising (parts_of known.now) rising.new.pairs rising.new.residue }
    ensures follows { (a : formal.Ascent) → Follows rising.old.pairs rising.old.residue a
        → Follows rising.new.pairs rising.new.residue
        (fold (formal.looked_at cube.now) a (base_named (parts_of known.now))) }
{
    for i in 0..known.problem.base().len() as u32 {
        look_at_base(known, i, cube, list, rising);
    }
}

// Looks at all cuts that are known, by number.
fn climb_cuts(known: &Known, cube: &Cube, list: &mut Shortlist, rising: &mut Rising)
    requires known { IsKnown (parts_of known.now) }
    requires rising { IsRising (parts_of known.now) rising.old.pairs rising.old.residue }
    ensures rising { IsRising (parts_of known.now) rising.new.pairs rising.new.residue }
    ensures follows { (a : formal.Ascent) → Follows rising.old.pairs rising.old.residue a
        → Follows rising.new.pairs rising.new.residue
        (fold (formal.looked_at cube.now) a (cuts_named (parts_of known.now))) }
{
    for j in 0..known.upto {
        look_at_cut(known, j, cube, list, rising);
    }
}

// The first pair is the cost row once.
fn begin(known: &Known) -> Rising
    ensures rising { IsRising (parts_of known.now) result.pairs result.residue }
    ensures follows { Follows result.pairs result.residue (formal.ascent_start (parts_of known.now)) }
{
    Rising {
        pairs: PairList::of(Pair {
            row: RowRef::Cost,
            times: 1,
        }),
        residue: costs(known.problem.library()),
    }
}

// The ascent, whether there is a bound or not.
pub(crate) fn climb(known: &Known, cube: &Cube, list: &mut Shortlist) -> Rising
    requires { IsKnown (parts_of known.now) }
    ensures rising { IsRising (parts_of known.now) result.pairs result.residue }
    ensures follows { Follows result.pairs result.residue (formal.whole_ascent (parts_of known.now) cube.now) }
{
    let mut rising = begin(known);
    climb_base(known, cube, list, &mut rising);
    climb_cuts(known, cube, list, &mut rising);
    rising
}
