ghost use Rattle.std.specs.Prelude.{◌≡◌, ◌<◌, ◌≤◌, [], IfOk};
ghost use Rattle.rows.specs.Row.{IsSized};

use crate::activity::{End, activity_of_row};
use crate::cube::Cube;
use crate::cut::{CutList, CutRow};
use crate::known::{Known, Pair, Reason, RowRef, Trace};
use crate::problem::Problem;
use crate::row::{Row, Term};
use crate::{fix_forced, forces, greatest, has, quiet, refuted, together, unmet};
use arch_model::limits::MEMBERS;
use arch_model::{Library, Memory, Template, VarId};
use std::alloc::Global;
use std::process::Abort;
use std::test::Fail;

// A network without types, and no rows: each vector is that of the empty architecture.
fn empty_problem(alloc: Global) -> Problem {
    let template = Template::new(Vec::new(alloc), Vec::new(alloc));
    let library = Library::new(
        Vec::new(alloc),
        Vec::new(alloc),
        template,
        Vec::new(alloc),
        Vec::new(alloc),
    );
    Problem::new(library, Vec::new(alloc))
}

// 3 x_0 - 2 x_1 >= least
fn row(alloc: Global, least: i128) -> Result<Row, Memory>
    requires { IsSized least }
{
    let terms = [
        Term {
            var: VarId(0),
            coef: 3,
        },
        Term {
            var: VarId(1),
            coef: -2,
        },
    ]
    .to_vec(alloc)?;
    Ok(Row::new(terms, least))
}

fn with(mut cube: Cube, v: VarId, value: bool) -> Cube
    requires { v.0 < MEMBERS }
{
    if !cube.fixed().has(v) {
        cube.fix(v, value);
    }
    cube
}

fn put(rt: &impl Abort, cut: &mut CutRow, v: VarId, plus: bool)
    requires { v.0 < MEMBERS }
{
    assert_eq!(rt; cut.coef(v), 0);
    cut.put(v, plus);
}

// x_1 + x_2 - x_3 >= 1
fn cut(rt: &impl Abort) -> CutRow {
    let mut cut = CutRow::new(1);
    put(rt, &mut cut, VarId(1), true);
    put(rt, &mut cut, VarId(2), true);
    put(rt, &mut cut, VarId(3), false);
    cut
}

#[test]
fn a_cube_has_the_values_that_were_fixed(rt: HostRuntime) -> Result<(), Fail> {
    let cube = with(with(Cube::whole(), VarId(5), true), VarId(575), false);
    assert_eq!(rt; cube.value(VarId(5)), Some(true));
    assert_eq!(rt; cube.value(VarId(575)), Some(false));
    assert_eq!(rt; cube.value(VarId(6)), None);
    assert!(rt; cube.ones().has(VarId(5)));
    assert!(rt; !cube.ones().has(VarId(575)));
    assert!(rt; cube == with(with(Cube::whole(), VarId(575), false), VarId(5), true));
    assert!(rt; cube != with(Cube::whole(), VarId(5), true));
    Ok(())
}

#[test]
fn a_row_has_two_activities(rt: HostRuntime) -> Result<(), Fail> {
    let row = row(rt.alloc(), 2)?;
    assert_eq!(rt; row.least(), 2);
    assert_eq!(rt; row.terms().len(), 2);
    let whole = Cube::whole();
    assert_eq!(rt; activity_of_row(&row, &whole, End::Greatest), 3);
    assert_eq!(rt; activity_of_row(&row, &whole, End::Least), -2);
    let one = with(whole, VarId(0), true);
    assert_eq!(rt; activity_of_row(&row, &one, End::Greatest), 3);
    assert_eq!(rt; activity_of_row(&row, &one, End::Least), 1);
    let both = with(one, VarId(1), true);
    assert_eq!(rt; activity_of_row(&row, &both, End::Greatest), 1);
    assert_eq!(rt; activity_of_row(&row, &both, End::Least), 1);
    let copy = row.clone()?;
    assert_eq!(rt; copy.terms(), row.terms());
    Ok(())
}

#[test]
fn cuts_are_listed_by_number(rt: HostRuntime) -> Result<(), Fail> {
    let mut cuts = CutList::new(rt.alloc());
    assert_eq!(rt; cuts.len(), 0);
    cuts.push(cut(&rt))?;
    cuts.reserve()?;
    assert_eq!(rt; cuts.len(), 1);
    cuts.push_spare(CutRow::new(-4));
    assert_eq!(rt; cuts.len(), 2);
    assert_eq!(rt; cuts.get(0).coef(VarId(2)), 1);
    assert_eq!(rt; cuts.get(0).coef(VarId(3)), -1);
    assert_eq!(rt; cuts.get(0).coef(VarId(4)), 0);
    assert_eq!(rt; cuts.get(1).least(), -4);
    assert!(rt; cuts.get(0) == cut(&rt));
    assert!(rt; cuts.get(0) != cuts.get(1));
    Ok(())
}

#[test]
fn a_cut_forces_its_least_free_variable(rt: HostRuntime) -> Result<(), Fail> {
    let problem = empty_problem(rt.alloc());
    let mut cuts = CutList::new(rt.alloc());
    cuts.push(cut(&rt))?;
    let known = Known {
        problem: &problem,
        cuts: &cuts,
        upto: 1,
        bound: None,
    };
    let r = RowRef::Cut(0);
    assert!(rt; has(&known, r));
    let whole = Cube::whole();
    assert_eq!(rt; greatest(&known, r, &whole), 2);
    assert_eq!(rt; forces(&known, r, &whole), None);
    assert!(rt; quiet(&known, &whole));
    let one = with(whole, VarId(1), false);
    assert_eq!(rt; greatest(&known, r, &one), 1);
    assert_eq!(rt; forces(&known, r, &one), Some((VarId(2), true)));
    assert!(rt; !quiet(&known, &one));
    let two = with(one, VarId(2), true);
    assert_eq!(rt; forces(&known, r, &two), Some((VarId(3), false)));
    assert!(rt; unmet(&known, r, &two));
    let mut closed = one;
    assert_eq!(rt; fix_forced(&known, r, &mut closed), Some(2));
    assert!(rt; closed == with(two, VarId(3), false));
    assert!(rt; !unmet(&known, r, &closed));
    let mut three = with(two, VarId(3), true);
    assert!(rt; refuted(&known, r, &three));
    assert_eq!(rt; forces(&known, r, &three), None);
    assert_eq!(rt; fix_forced(&known, r, &mut three), None);
    assert!(rt; !quiet(&known, &three));
    Ok(())
}

#[test]
fn only_what_is_known_has_a_row(rt: HostRuntime) -> Result<(), Fail> {
    let problem = empty_problem(rt.alloc()).copy()?;
    let mut cuts = CutList::new(rt.alloc());
    cuts.push(cut(&rt))?;
    let known = Known {
        problem: &problem,
        cuts: &cuts,
        upto: 0,
        bound: Some(0),
    };
    assert_eq!(rt; known.row_count(), 1);
    assert_eq!(rt; known.row_name(0), RowRef::Cost);
    assert!(rt; !has(&known, RowRef::Base(0)));
    assert!(rt; !has(&known, RowRef::Cut(0)));
    assert!(rt; has(&known, RowRef::Cost));
    let whole = Cube::whole();
    assert_eq!(rt; greatest(&known, RowRef::Cost, &whole), 0);
    assert!(rt; refuted(&known, RowRef::Cost, &whole));
    assert!(rt; !quiet(&known, &whole));
    let looser = Known {
        bound: Some(1),
        ..known
    };
    assert!(rt; !refuted(&looser, RowRef::Cost, &whole));
    assert!(rt; quiet(&looser, &whole));
    Ok(())
}

#[test]
fn traces_and_reasons_lend_what_they_hold(rt: HostRuntime) -> Result<(), Fail> {
    let trace = Trace::new([RowRef::Base(1), RowRef::Cost].to_vec(rt.alloc())?);
    assert_eq!(rt; trace.steps(), [RowRef::Base(1), RowRef::Cost].as_slice());
    let pair = Pair {
        row: RowRef::Cut(3),
        times: 7,
    };
    let reason = Reason::new([pair].to_vec(rt.alloc())?);
    assert_eq!(rt; reason.pairs(), [pair].as_slice());
    Ok(())
}

#[test]
fn a_reason_is_refuted_where_its_combination_is(rt: HostRuntime) -> Result<(), Fail> {
    let problem = empty_problem(rt.alloc());
    let mut cuts = CutList::new(rt.alloc());
    cuts.push(CutRow::new(1))?;
    let known = Known {
        problem: &problem,
        cuts: &cuts,
        upto: 1,
        bound: None,
    };
    let pair = Pair {
        row: RowRef::Cut(0),
        times: 3,
    };
    assert!(rt; has(&known, pair.row));
    let reason = Reason::new([pair].to_vec(rt.alloc())?);
    assert!(rt; together(&known, &reason, &Cube::whole()));
    Ok(())
}
