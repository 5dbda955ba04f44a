// Where to branch.
ghost use Rattle.std.specs.Prelude.{◌≡◌, ℕ, ◌<◌, true, IfSome, IfNone};
ghost use Rattle.arch_model.specs.Member.{member_count};
ghost use Rattle.rows.specs.Cube.{is_free, IsFull};
ghost use Rattle.rows.specs.Row.{IsRowBelow};
ghost use Rattle.rows.specs.Known.{parts_of, variables, IsKnown};

use crate::spending::base_row;
use arch_model::limits::MEMBERS;
use arch_model::{Library, MemberSet, VarId};
use rows::{Cube, Known, Row, RowRef, member_cost, unmet, variable_count};

// What speaks for branching on a variable, the strongest first.
#[derive(Clone, Copy)]
struct Merit {
    // it would help to meet a row
    useful: bool,
    // nothing is left of its cost: rows that are wanted took all of it
    spent: bool,
    // its cost
    cost: u64,
}

impl Merit {
    // That of a variable.
    fn of(lib: &Library, useful: &MemberSet, spent: &MemberSet, v: VarId) -> Merit
        requires { v.0 < member_count lib.now }
    {
        Merit {
            useful: useful.has(v),
            spent: spent.has(v),
            cost: member_cost(lib, v),
        }
    }

    // Whether this speaks louder than another.
    fn is_above(&self, other: &Merit) -> bool {
        if self.useful != other.useful {
            return self.useful;
        }
        if self.spent != other.spent {
            return self.spent;
        }
        self.cost > other.cost
    }
}

// Makes the variables with positive coefficients in a row members of a set.
fn put_helpers(set: &mut MemberSet, row: &Row)
    requires { IsRowBelow MEMBERS row.now }
{
    for term in row.terms() {
        if term.coef > 0 {
            set.put(term.var);
        }
    }
}

// The variables with a positive coefficient in some base row or known cut that isn't met by every
// vector of a cube.
fn useful_variables(known: &Known, cube: &Cube) -> MemberSet
    requires { IsKnown (parts_of known.now) }
{
    let mut useful = MemberSet::new();
    for i in 0..known.problem.base().len() as u32 {
        if unmet(known, RowRef::Base(i), cube) {
            put_helpers(&mut useful, base_row(known.problem, i));
        }
    }
    for j in 0..known.upto {
        if unmet(known, RowRef::Cut(j), cube) {
            useful = useful.union(&known.cuts.get(j).plus());
        }
    }
    useful
}

// Whether more speaks for a variable than for the best so far. With no best yet, it does.
fn beats(
    lib: &Library,
    useful: &MemberSet,
    spent: &MemberSet,
    v: VarId,
    best: Option<VarId>,
) -> bool
    requires variable { v.0 < member_count lib.now }
    requires best { IfSome best (λ w. w.0 < member_count lib.now) }
    ensures { IfNone best (result ≡ true) }
{
    match best {
        Some(w) => {
            let merit = Merit::of(lib, useful, spent, v);
            merit.is_above(&Merit::of(lib, useful, spent, w))
        }
        None => true,
    }
}

/// The variable to branch on: a free one that would help to meet a known row, a spent one (one of
/// whose cost a bound leaves nothing) before others, then the one of the highest cost, then the one
/// of the least number. Where no free variable would help, all are looked at. None comes exactly
/// where nothing is free.
pub fn branching_variable(known: &Known, cube: &Cube, spent: &MemberSet) -> Option<VarId>
    requires { IsKnown (parts_of known.now) }
    ensures free { IfSome result (λ v. is_free cube.now v.0 ≡ true) }
    ensures variable { IfSome result (λ v. v.0 < variables (parts_of known.now)) }
    ensures none { IfNone result (IsFull (variables (parts_of known.now)) cube.now) }
{
    let lib = known.problem.library();
    let useful = useful_variables(known, cube);
    let mut best = None;
    for i in 0..variable_count(lib) {
        let v = VarId(i);
        if cube.value(v).is_none() {
            if beats(lib, &useful, spent, v, best) {
                best = Some(v);
            }
        }
    }
    best
}
