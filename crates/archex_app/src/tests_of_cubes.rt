// Cubes of small libraries: what rows force there, and which bounds hold.
ghost use Rattle.std.specs.Prelude.{◌≡◌, []};
ghost use Rattle.rows.specs.Known.{parts_of, IsKnown};

use arch_model::VarId;
use arch_model::limits::MEMBERS;
use binary_program::problem_of;
use lib_read::read_library;
use propagate::{Closed, close};
use row_bounds::{Bounded, ascend, branching_variable, lift};
use rows::{Cube, CutList, Known, Problem, RowRef, Trace, variable_count};
use std::process::Abort;
use std::test::Fail;

const X: &[u8] = b"type = [{name = \"x\", role = \"middle\", cost = 7}]
pattern = [{kind = \"count\", type = \"x\", min = 1}]
";

const P: &[u8] = b"type = [{name = \"p\", role = \"source\", max = 2, cost = 3}]
pattern = [{kind = \"count\", type = \"p\", min = 1}]
";

const BOTH_OF_P: &[u8] = b"type = [{name = \"p\", role = \"source\", max = 2, cost = 3}]
pattern = [{kind = \"count\", type = \"p\", min = 2}]
";

// Four types of one instance each: a is asked for and asks for b, b for c, and c for d, in the order
// of rows in which a pass learns one of them.
const CHAIN: &[u8] = b"type = [
  {name = \"a\", role = \"middle\"}, {name = \"b\", role = \"middle\"},
  {name = \"c\", role = \"middle\"}, {name = \"d\", role = \"middle\"},
]
pattern = [
  {kind = \"implies\", a = \"c\", b = \"d\"}, {kind = \"implies\", a = \"b\", b = \"c\"},
  {kind = \"implies\", a = \"a\", b = \"b\"}, {kind = \"count\", type = \"a\", min = 1},
]
";

// Twelve pairs of components of cost 10, of which one each has to be present.
const TWELVE_PAIRS: &[u8] = b"type = [
  {name = \"a\", role = \"source\", max = 2, cost = 10}, {name = \"b\", role = \"source\", max = 2, cost = 10},
  {name = \"c\", role = \"source\", max = 2, cost = 10}, {name = \"d\", role = \"source\", max = 2, cost = 10},
  {name = \"e\", role = \"source\", max = 2, cost = 10}, {name = \"f\", role = \"source\", max = 2, cost = 10},
  {name = \"g\", role = \"source\", max = 2, cost = 10}, {name = \"h\", role = \"source\", max = 2, cost = 10},
  {name = \"i\", role = \"source\", max = 2, cost = 10}, {name = \"j\", role = \"source\", max = 2, cost = 10},
  {name = \"k\", role = \"source\", max = 2, cost = 10}, {name = \"l\", role = \"source\", max = 2, cost = 10},
]
pattern = [
  {kind = \"count\", type = \"a\", min = 1}, {kind = \"count\", type = \"b\", min = 1},
  {kind = \"count\", type = \"c\", min = 1}, {kind = \"count\", type = \"d\", min = 1},
  {kind = \"count\", type = \"e\", min = 1}, {kind = \"count\", type = \"f\", min = 1},
  {kind = \"count\", type = \"g\", min = 1}, {kind = \"count\", type = \"h\", min = 1},
  {kind = \"count\", type = \"i\", min = 1}, {kind = \"count\", type = \"j\", min = 1},
  {kind = \"count\", type = \"k\", min = 1}, {kind = \"count\", type = \"l\", min = 1},
]
";

// Two sources of cost 10 and a sink that needs a free edge from one of them. Variables 0 to 2 are
// s.1, s.2 and t.1, and 3 and 4 the edges.
const EITHER_SOURCE: &[u8] = b"type = [
  {name = \"s\", role = \"source\", max = 2, cost = 10},
  {name = \"t\", role = \"sink\"},
]
link = [{from = \"s\", to = \"t\"}]
pattern = [{kind = \"indegree\", type = \"t\", from = \"s\", min = 1}]
";

// The problem of a library's text.
fn problem(rt: &(impl Abort + AllocGlobal), text: &[u8]) -> Result<Problem, Fail> {
    Ok(problem_of(rt.alloc(), read_library(rt.alloc(), text)?)?)
}

// What is known of a problem with a bound: no cut.
fn known<'a>(problem: &'a Problem, cuts: &'a CutList, bound: Option<u64>) -> Known<'a>
    requires { cuts.now.cuts ≡ [] }
    ensures { IsKnown (parts_of result) }
{
    Known {
        problem,
        cuts,
        upto: 0,
        bound,
    }
}

// Fixes a free variable.
fn fix(rt: &impl Abort, cube: &mut Cube, v: u32, value: bool) {
    assert!(rt; (v as usize) < MEMBERS);
    assert_eq!(rt; cube.value(VarId(v)), None);
    cube.fix(VarId(v), value);
}

// The word of an answer, and its trace.
fn parts(closed: Closed) -> (&'static str, Trace) {
    match closed {
        Closed::Quiet { trace, .. } => ("quiet", trace),
        Closed::Full { trace, .. } => ("full", trace),
        Closed::Refuted { trace, .. } => ("refuted", trace),
    }
}

// What the whole cube is closed to, or that with its first variable at 0.
fn closed(
    rt: &(impl Abort + AllocGlobal),
    known: &Known,
    without_first: bool,
) -> Result<(&'static str, Trace), Fail>
    requires { IsKnown (parts_of known.now) }
{
    let mut cube = Cube::whole();
    if without_first {
        fix(rt, &mut cube, 0, false);
    }
    let n = variable_count(known.problem.library());
    assert!(rt; cube.fixed().is_below(n as usize));
    Ok(parts(close(rt.alloc(), known, cube)?))
}

// Rows that force one after another, in several passes where they stand in the worse order; a cost
// row that forces both; and pairs of which no single row says anything.
#[test]
fn cubes_are_closed(rt: HostRuntime) -> Result<(), Fail> {
    let b = RowRef::Base(0);
    let chain = [
        RowRef::Base(3),
        RowRef::Base(2),
        RowRef::Base(1),
        RowRef::Base(0),
    ];
    let cases: [(&[u8], Option<u64>, bool, &str, &[RowRef]); 7] = [
        (X, None, false, "full", &[b]),
        (P, None, false, "quiet", &[]),
        (P, None, true, "full", &[b]),
        (P, Some(3), false, "refuted", &[RowRef::Cost, RowRef::Cost]),
        (BOTH_OF_P, None, false, "full", &[b, b]),
        (CHAIN, None, false, "full", &chain),
        (TWELVE_PAIRS, Some(120), false, "quiet", &[]),
    ];
    let cuts = CutList::new(rt.alloc());
    for (library, bound, without_first, answer, steps) in cases {
        let problem = problem(&rt, library)?;
        let (word, trace) = closed(&rt, &known(&problem, &cuts, bound), without_first)?;
        assert_eq!(rt; word, answer);
        assert_eq!(rt; trace.steps(), steps);
    }
    Ok(())
}

// Bounds in the whole cube, or in that with the sink at 1: whether there is a reason. An edge that
// costs nothing is bought from its ends.
#[test]
fn bounds_that_nothing_is_below_have_reasons(rt: HostRuntime) -> Result<(), Fail> {
    let cases: [(&[u8], bool, Option<u64>, bool); 6] = [
        (TWELVE_PAIRS, false, None, false),
        (TWELVE_PAIRS, false, Some(121), false),
        (TWELVE_PAIRS, false, Some(120), true),
        (EITHER_SOURCE, false, Some(10), false),
        (EITHER_SOURCE, true, Some(10), true),
        (EITHER_SOURCE, true, Some(11), false),
    ];
    let cuts = CutList::new(rt.alloc());
    for (library, with_sink, bound, has_reason) in cases {
        let problem = problem(&rt, library)?;
        let mut cube = Cube::whole();
        if with_sink {
            fix(&rt, &mut cube, 2, true);
        }
        let found = lift(rt.alloc(), &known(&problem, &cuts, bound), &cube)?;
        assert_eq!(rt; found.is_some(), has_reason);
    }
    Ok(())
}

// The sink needs an edge from one of the sources: both edges are bought from their sources, so the
// first source is branched on, then, though the sink is met, the other, which its edge still wants.
#[test]
fn the_dearest_useful_variable_is_branched_on(rt: HostRuntime) -> Result<(), Fail> {
    let problem = problem(&rt, EITHER_SOURCE)?;
    let cuts = CutList::new(rt.alloc());
    let known = known(&problem, &cuts, None);
    let mut cube = Cube::whole();
    fix(&rt, &mut cube, 2, true);
    let ascent = ascend(&known, &cube);
    assert_eq!(rt; ascent.pairs().len(), 1);
    match ascent.settle(rt.alloc(), &known, &cube)? {
        Bounded::Refuted(_reason) => assert!(rt; false),
        Bounded::Open(spent) => {
            assert!(rt; spent.has(VarId(0)));
            assert_eq!(rt; branching_variable(&known, &cube, &spent), Some(VarId(0)));
            fix(&rt, &mut cube, 0, true);
            fix(&rt, &mut cube, 3, true);
            assert_eq!(rt; branching_variable(&known, &cube, &spent), Some(VarId(1)));
            fix(&rt, &mut cube, 1, false);
            assert_eq!(rt; branching_variable(&known, &cube, &spent), Some(VarId(4)));
            fix(&rt, &mut cube, 4, false);
            assert_eq!(rt; branching_variable(&known, &cube, &spent), None);
        }
    }
    Ok(())
}
