// Cubes of problems without base rows, closed by cuts and the cost row.
ghost use Rattle.std.specs.Prelude.{◌≡◌, ◌<◌, IfOk, OnOk};
ghost use Rattle.std.specs.List.{All};
ghost use Rattle.arch_model.specs.Member.{member_count};
ghost use Rattle.rows.specs.Known.{IsCutBelow};

use crate::{Closed, close};
use arch_model::limits::MEMBERS;
use arch_model::{Component, Library, Memory, Name, Role, Template, TypeRow, VarId, is_library};
use rows::{CUTS, Cube, CutList, CutRow, Known, Problem, RowRef, variable_count};
use std::process::Abort;
use std::test::Fail;

// The problem of so many sources of one type, each of this cost, with no edge and no pattern.
fn sources(rt: &(impl Abort + AllocGlobal), max: u32, cost: u64) -> Result<Problem, Memory> {
    let alloc = rt.alloc();
    let role = Role::Source;
    let types = [TypeRow {
        name: Name::new("p"),
        role,
        max,
        cost,
        supply: 0,
        demand: 0,
        fail: 0,
    }]
    .to_vec(alloc)?;
    let mut components = Vec::new(alloc);
    for i in 0..max {
        components.push(Component {
            of: 0,
            index: i + 1,
            role,
            cost,
            supply: 0,
            demand: 0,
            fail: 0,
        })?;
    }
    let template = Template::new(components, Vec::new(alloc));
    let links = Vec::new(alloc);
    let patterns = Vec::new(alloc);
    let requirements = Vec::new(alloc);
    assert!(rt; is_library(&types, &links, &template, &patterns, &requirements));
    let library = Library::new(types, links, template, patterns, requirements);
    assert_eq!(rt; variable_count(&library), max);
    Ok(Problem::new(library, Vec::new(alloc)))
}

// Gives a variable the coefficient 1 or -1.
fn put(rt: &impl Abort, cut: &mut CutRow, v: u32, plus: bool) {
    assert!(rt; (v as usize) < MEMBERS);
    assert_eq!(rt; cut.coef(VarId(v)), 0);
    cut.put(VarId(v), plus);
}

// The cut x_v + x_w >= 1, or x_v >= 1 where both are one.
fn either(rt: &impl Abort, v: u32, w: u32) -> CutRow {
    let mut cut = CutRow::new(1);
    put(rt, &mut cut, v, true);
    if v != w {
        put(rt, &mut cut, w, true);
    }
    cut
}

// The cut that x_v asks for x_w: x_w - x_v >= 0.
fn asks(rt: &impl Abort, v: u32, w: u32) -> CutRow {
    let mut cut = CutRow::new(0);
    put(rt, &mut cut, w, true);
    put(rt, &mut cut, v, false);
    cut
}

// Adds a cut over a problem's variables.
fn learn(rt: &impl Abort, problem: &Problem, cuts: &mut CutList, cut: CutRow) -> Result<(), Memory>
    requires { All (IsCutBelow (member_count problem.now.library)) cuts.old.cuts }
    ensures { OnOk result (All (IsCutBelow (member_count problem.now.library)) cuts.new.cuts) }
{
    let n = variable_count(problem.library()) as usize;
    assert!(rt; cut.plus().is_below(n));
    assert!(rt; cut.minus().is_below(n));
    assert!(rt; (cuts.len() as usize) < CUTS);
    cuts.push(cut)
}

// That a cube is closed to this answer by this trace.
fn expect(
    rt: &(impl Abort + AllocGlobal),
    known: &Known,
    cube: Cube,
    answer: &str,
    steps: &[RowRef],
) -> Result<(), Fail>
    requires { All (IsCutBelow (member_count known.now.problem.now.library)) known.now.cuts.now.cuts }
{
    assert!(rt; known.upto <= known.cuts.len());
    let n = variable_count(known.problem.library());
    assert!(rt; cube.fixed().is_below(n as usize));
    match close(rt.alloc(), known, cube)? {
        Closed::Quiet { trace, .. } => {
            assert_eq!(rt; answer, "quiet");
            assert_eq!(rt; trace.steps(), steps);
        }
        Closed::Full { trace, .. } => {
            assert_eq!(rt; answer, "full");
            assert_eq!(rt; trace.steps(), steps);
        }
        Closed::Refuted { trace, .. } => {
            assert_eq!(rt; answer, "refuted");
            assert_eq!(rt; trace.steps(), steps);
        }
    }
    Ok(())
}

// The cube with variable 0 at 0.
fn without_first(rt: &impl Abort) -> Cube {
    let mut cube = Cube::whole();
    assert_eq!(rt; cube.value(VarId(0)), None);
    cube.fix(VarId(0), false);
    cube
}

#[test]
fn a_pair_of_which_one_is_asked_for(rt: HostRuntime) -> Result<(), Fail> {
    let problem = sources(&rt, 2, 3)?;
    let mut cuts = CutList::new(rt.alloc());
    learn(&rt, &problem, &mut cuts, either(&rt, 0, 1))?;
    let mut two = CutRow::new(2);
    put(&rt, &mut two, 0, true);
    put(&rt, &mut two, 1, true);
    learn(&rt, &problem, &mut cuts, two)?;
    let one = Known {
        problem: &problem,
        cuts: &cuts,
        upto: 1,
        bound: None,
    };
    let whole = Cube::whole();
    let half = without_first(&rt);
    expect(&rt, &one, whole, "quiet", &[])?;
    expect(&rt, &one, half, "full", &[RowRef::Cut(0)])?;
    let cheap = Known {
        bound: Some(3),
        ..one
    };
    expect(&rt, &cheap, whole, "refuted", &[RowRef::Cost, RowRef::Cost])?;
    let none = Known { upto: 0, ..one };
    expect(&rt, &none, half, "quiet", &[])?;
    let both = Known { upto: 2, ..one };
    expect(&rt, &both, whole, "full", &[RowRef::Cut(1), RowRef::Cut(1)])
}

#[test]
fn a_chain_in_the_worse_order_takes_a_pass_a_link(rt: HostRuntime) -> Result<(), Fail> {
    let problem = sources(&rt, 4, 1)?;
    let mut cuts = CutList::new(rt.alloc());
    learn(&rt, &problem, &mut cuts, asks(&rt, 2, 3))?;
    learn(&rt, &problem, &mut cuts, asks(&rt, 1, 2))?;
    learn(&rt, &problem, &mut cuts, asks(&rt, 0, 1))?;
    learn(&rt, &problem, &mut cuts, either(&rt, 0, 0))?;
    let known = Known {
        problem: &problem,
        cuts: &cuts,
        upto: 4,
        bound: None,
    };
    let steps = [
        RowRef::Cut(3),
        RowRef::Cut(2),
        RowRef::Cut(1),
        RowRef::Cut(0),
    ];
    expect(&rt, &known, Cube::whole(), "full", &steps)
}

#[test]
fn a_cost_row_forces_many_at_once(rt: HostRuntime) -> Result<(), Fail> {
    let problem = sources(&rt, 24, 10)?;
    let cuts = CutList::new(rt.alloc());
    let known = Known {
        problem: &problem,
        cuts: &cuts,
        upto: 0,
        bound: Some(10),
    };
    expect(&rt, &known, Cube::whole(), "full", &[RowRef::Cost; 24])
}
