// Jobs at the whole cube of sources that nothing but cuts asks for. Searches of networks, where the
// jobs of a run are judged entry by entry, are tested where problems are made from libraries.
ghost use Rattle.std.specs.Prelude.{IfOk, OnOk};
ghost use Rattle.std.specs.List.{All};
ghost use Rattle.arch_model.specs.Member.{member_count};
ghost use Rattle.rows.specs.Known.{IsCutBelow};
ghost use Rattle.rows.specs.Row.{IsSized};

use crate::{Outcome, job};
use arch_model::limits::MEMBERS;
use arch_model::{Component, Library, Memory, Name, Role, Template, TypeRow, VarId, is_library};
use rows::{CUTS, Cube, CutList, CutRow, Known, Problem, RowRef, variable_count};
use std::alloc::Global;
use std::process::Abort;
use std::test::Fail;

// What a test sees of an outcome: how long the trace is, and of a reason its first row, with its
// multiplier, and how many rows there are.
#[derive(Clone, Copy, Debug, PartialEq, Eq)]
enum Seen {
    Split {
        steps: usize,
    },
    Dropped {
        row: RowRef,
        times: u64,
        rows: usize,
    },
    Offered {
        steps: usize,
    },
}

fn view_of(rt: &impl Abort, outcome: &Outcome) -> Seen {
    match outcome {
        Outcome::Branch { trace, .. } => Seen::Split {
            steps: trace.steps().len(),
        },
        Outcome::Prune { reason, .. } => {
            let pairs = reason.pairs();
            assert!(rt; !pairs.is_empty());
            Seen::Dropped {
                row: pairs[0].row,
                times: pairs[0].times,
                rows: pairs.len(),
            }
        }
        Outcome::Offer { trace } => Seen::Offered {
            steps: trace.steps().len(),
        },
    }
}

// The problem of so many sources of one type, each of this cost, with no edge and no pattern.
fn sources(rt: &(impl Abort + AllocGlobal), max: u32, cost: u64) -> Result<Problem, Memory> {
    let alloc = rt.alloc();
    let role = Role::Source;
    let types = [TypeRow {
        name: Name::new("p"),
        role,
        max,
        cost,
        supply: 0,
        demand: 0,
        fail: 0,
    }]
    .to_vec(alloc)?;
    let mut components = Vec::new(alloc);
    for i in 0..max {
        components.push(Component {
            of: 0,
            index: i + 1,
            role,
            cost,
            supply: 0,
            demand: 0,
            fail: 0,
        })?;
    }
    let template = Template::new(components, Vec::new(alloc));
    let links = Vec::new(alloc);
    let patterns = Vec::new(alloc);
    let requirements = Vec::new(alloc);
    assert!(rt; is_library(&types, &links, &template, &patterns, &requirements));
    let library = Library::new(types, links, template, patterns, requirements);
    assert_eq!(rt; variable_count(&library), max);
    Ok(Problem::new(library, Vec::new(alloc)))
}

// The cut that asks for at least so many of some variables.
fn asks(rt: &impl Abort, least: i128, variables: &[u32]) -> CutRow
    requires { IsSized least }
{
    let mut cut = CutRow::new(least);
    for v in variables {
        assert!(rt; (*v as usize) < MEMBERS);
        assert_eq!(rt; cut.coef(VarId(*v)), 0);
        cut.put(VarId(*v), true);
    }
    cut
}

// Adds a cut over a problem's variables.
fn learn(rt: &impl Abort, problem: &Problem, cuts: &mut CutList, cut: CutRow) -> Result<(), Memory>
    requires { All (IsCutBelow (member_count problem.now.library)) cuts.old.cuts }
    ensures { OnOk result (All (IsCutBelow (member_count problem.now.library)) cuts.new.cuts) }
{
    let n = variable_count(problem.library()) as usize;
    assert!(rt; cut.plus().is_below(n));
    assert!(rt; cut.minus().is_below(n));
    assert!(rt; (cuts.len() as usize) < CUTS);
    cuts.push(cut)
}

// What a test sees of the job at the whole cube, by all cuts.
fn seen_at_whole(
    rt: &(impl Abort + AllocGlobal),
    problem: &Problem,
    cuts: &CutList,
    bound: Option<u64>,
) -> Result<Seen, Memory>
    requires { All (IsCutBelow (member_count problem.now.library)) cuts.now.cuts }
{
    let known = Known {
        problem,
        cuts,
        upto: cuts.len(),
        bound,
    };
    let outcome = job(rt.alloc(), &known, Cube::whole())?;
    Ok(view_of(rt, &outcome))
}

// That of sources of cost 10, of which one cut asks for so many of the first ones.
fn seen_by_one_cut(
    rt: &(impl Abort + AllocGlobal),
    max: u32,
    least: i128,
    variables: &[u32],
    bound: Option<u64>,
) -> Result<Seen, Memory>
    requires { IsSized least }
{
    let problem = sources(rt, max, 10)?;
    let mut cuts = CutList::new(rt.alloc());
    learn(rt, &problem, &mut cuts, asks(rt, least, variables))?;
    seen_at_whole(rt, &problem, &cuts, bound)
}

// A row that is refuted is the reason, taken once; where all is fixed the vector is offered; and
// where something is free the cube is split.
#[test]
fn each_outcome_comes_where_it_should(rt: HostRuntime) -> Result<(), Fail> {
    let refuted = Seen::Dropped {
        row: RowRef::Cut(0),
        times: 1,
        rows: 1,
    };
    let only_two = seen_by_one_cut(&rt, 2, 3, &[0, 1], None)?;
    assert_eq!(rt; only_two, refuted);
    let forced = seen_by_one_cut(&rt, 1, 1, &[0], None)?;
    assert_eq!(rt; forced, Seen::Offered { steps: 1 });
    let one_forced = seen_by_one_cut(&rt, 3, 1, &[0], None)?;
    assert_eq!(rt; one_forced, Seen::Split { steps: 1 });
    let no_second = seen_by_one_cut(&rt, 2, 1, &[0], Some(11))?;
    assert_eq!(rt; no_second, Seen::Offered { steps: 2 });
    Ok(())
}

// The greatest numbers that a cut may have.
#[test]
fn the_greatest_row_is_refuted(rt: HostRuntime) -> Result<(), Fail> {
    let refuted = Seen::Dropped {
        row: RowRef::Cut(0),
        times: 1,
        rows: 1,
    };
    let greatest = seen_by_one_cut(&rt, 64, 10_000_000_000_000_000, &[0], Some(u64::MAX))?;
    assert_eq!(rt; greatest, refuted);
    Ok(())
}

// The cuts that ask for one of each pair of sources.
fn pair_cuts(rt: &(impl Abort + AllocGlobal), problem: &Problem) -> Result<CutList, Memory>
    ensures { IfOk result (λ list. All (IsCutBelow (member_count problem.now.library)) list.cuts) }
{
    let mut cuts = CutList::new(rt.alloc());
    for pair in 0..12 {
        learn(
            rt,
            problem,
            &mut cuts,
            asks(rt, 1, &[2 * pair, 2 * pair + 1]),
        )?;
    }
    Ok(cuts)
}

// Of twelve pairs of sources of cost 10 each pair has one: none of them is cheaper than 120, for a
// reason of all twelve cuts and the bound, and where 120 is allowed the cube is split.
#[test]
fn twelve_pairs_cost_120(rt: HostRuntime) -> Result<(), Fail> {
    let problem = sources(&rt, 24, 10)?;
    let cuts = pair_cuts(&rt, &problem)?;
    match seen_at_whole(&rt, &problem, &cuts, Some(120))? {
        Seen::Dropped { rows, .. } => assert_eq!(rt; rows, 13),
        _ => assert!(rt; false),
    }
    let allowed = seen_at_whole(&rt, &problem, &cuts, Some(121))?;
    assert_eq!(rt; allowed, Seen::Split { steps: 0 });
    Ok(())
}
