// Verdicts on candidates of small networks, and the rows that their cuts say, to the letter.
ghost use Rattle.std.specs.Prelude.{IsTrue};
ghost use Rattle.std.specs.List.{All};
ghost use Rattle.arch_model.specs.Architecture.{IsArchitecture};
ghost use Rattle.arch_model.specs.Set.{has};
ghost use Rattle.rows.specs.Problem.{IsCandidate};

use analyst::{Verdict, study};
use arch_model::limits::{COMPONENTS, EDGES, MEMBERS};
use arch_model::{Architecture, CompId, CompSet, EdgeId, EdgeSet, Library, Memory, VarId, fits};
use binary_program::problem_of;
use lib_read::read_library;
use patterns::first_broken;
use redundancy_cut::{Cut, is_right, row_of};
use rows::{CutRow, Problem};
use sink_weight::weight;
use std::alloc::Global;
use std::process::Abort;
use std::test::Fail;

// A source that may feed a load: components 0 and 1, and 2 is the edge.
const ONE_LINK: &str = "type = [
  {name = \"s\", role = \"source\", cost = 1, fail = 1000},
  {name = \"t\", role = \"sink\"},
]
link = [{from = \"s\", to = \"t\"}]
";

// The same with a load that fails more often than the source.
const FAILING_LOAD: &str = "type = [
  {name = \"s\", role = \"source\", fail = 1000},
  {name = \"t\", role = \"sink\", fail = 2000},
]
link = [{from = \"s\", to = \"t\"}]
";

// A source, a bus that fails as often, and a load: components 0 to 2, and 3 and 4 are the edges.
const ALIKE: &str = "type = [
  {name = \"s\", role = \"source\", fail = 1000},
  {name = \"m\", role = \"middle\", fail = 1000},
  {name = \"t\", role = \"sink\"},
]
link = [{from = \"s\", to = \"m\"}, {from = \"m\", to = \"t\"}]
";

// Two generators, two buses and a load: components 0 to 4. 5 to 8 are the edges from a generator to
// a bus, 9 and 10 those from a bus to the load.
const TWO_BUSES: &str = "type = [
  {name = \"gen\", role = \"source\", max = 2, cost = 100, fail = 1000},
  {name = \"bus\", role = \"middle\", max = 2, cost = 20, fail = 100},
  {name = \"load\", role = \"sink\"},
]
link = [
  {from = \"gen\", to = \"bus\", cost = 5},
  {from = \"bus\", to = \"load\", cost = 5},
]
";

// A load t that a source a feeds, and a source c by way of b1 and b2: components a, c, b1, b2, t
// are 0 to 4, and the edges a-t, c-b1, b1-b2, b2-t are 5 to 8.
const LONG_WAY: &str = "type = [
  {name = \"a\", role = \"source\", cost = 10, fail = 200000},
  {name = \"c\", role = \"source\", cost = 1},
  {name = \"b1\", role = \"middle\", cost = 1, fail = 600000},
  {name = \"b2\", role = \"middle\", cost = 1, fail = 600000},
  {name = \"t\", role = \"sink\"},
]
link = [
  {from = \"a\", to = \"t\"},
  {from = \"c\", to = \"b1\"},
  {from = \"b1\", to = \"b2\"},
  {from = \"b2\", to = \"t\"},
]
";

// The problem of such a library, with a bound on the weight of a sink.
fn problem(
    rt: &(impl Abort + AllocGlobal),
    library: &str,
    sink: &str,
    bound: u64,
) -> Result<Problem, Memory> {
    let mut text = library.to_string(rt.alloc())?;
    write!(text, "require = [{{sink = \"{sink}\", bound = {bound}}}]\n")?;
    let lib = read_library(rt.alloc(), text.as_bytes())
        .ok()
        .expect(rt, "a library");
    problem_of(rt.alloc(), lib)
}

// The architecture of some components and edges, the edges numbered from 0.
fn arch(rt: &impl Abort, components: &[u32], edges: &[u32]) -> Architecture {
    let mut comps = CompSet::new();
    for c in components {
        assert!(rt; (*c as usize) < COMPONENTS);
        comps.put(CompId(*c));
    }
    let mut set = EdgeSet::new();
    for e in edges {
        assert!(rt; (*e as usize) < EDGES);
        set.put(EdgeId(*e));
    }
    Architecture::new(comps, set)
}

// Whether an architecture has every required sink.
fn has_sinks(lib: &Library, arch: &Architecture) -> bool
    ensures { IsTrue result → All (λ r. IsTrue (has arch.now.comps r.sink.0)) lib.now.requirements }
{
    let comps = arch.comps();
    let requirements = lib.requirements();
    for r in requirements {
        if !comps.has(r.sink) {
            return false;
        }
    }
    true
}

// Whether an architecture meets every pattern and has every required sink.
fn is_candidate(lib: &Library, arch: &Architecture) -> bool
    ensures { IsTrue result → IsCandidate lib.now arch.now }
{
    if !fits(lib, arch) {
        return false;
    }
    if first_broken(lib, arch).is_some() {
        return false;
    }
    has_sinks(lib, arch)
}

fn push_components(text: &mut String, set: &CompSet) -> Result<(), Memory> {
    for c in set.members() {
        let number = c.0;
        write!(text, " {number}")?;
    }
    Ok(())
}

// A cut as text: its kind, its requirement, its members and its components.
fn push_cut(text: &mut String, cut: &Cut) -> Result<(), Memory> {
    match cut {
        Cut::Redundancy {
            requirement,
            set,
            far,
        } => {
            write!(text, "redundancy {requirement}")?;
            for v in set.members() {
                let number = v.0;
                write!(text, " {number}")?;
            }
            text.push_str(" far")?;
            push_components(text, far)
        }
        Cut::NoGood { requirement, cone } => {
            write!(text, "nogood {requirement}")?;
            push_components(text, cone)
        }
    }
}

// A row as text, as in `+1*0 -1*2 >= 0`.
fn push_row(text: &mut String, row: &CutRow) -> Result<(), Memory> {
    for v in 0..MEMBERS as u32 {
        let coef = row.coef(VarId(v));
        if coef != 0 {
            write!(text, "{coef:+}*{v} ")?;
        }
    }
    let least = row.least();
    write!(text, ">= {least}")
}

// What the study of a candidate says: its cut with the row of it, or that it meets every bound.
fn study_text(alloc: Global, problem: &Problem, of: &Architecture) -> Result<String, Memory>
    requires { IsCandidate problem.now.library of.now }
{
    let mut text = String::new(alloc);
    match study(alloc, problem, of) {
        Verdict::Meets => text.push_str("meets")?,
        Verdict::Breaks(cut) => {
            push_cut(&mut text, &cut)?;
            text.push_str(": ")?;
            push_row(&mut text, &row_of(problem, &cut, of))?;
        }
    }
    Ok(text)
}

// Candidates by their components and edges, under a bound, with the cut and its row. A load that is a
// member of the heaviest set, and a bus that is one as heavy as the source's, leave rows without terms.
#[test]
fn candidates_are_studied(rt: HostRuntime) -> Result<(), Fail> {
    let cases: [(&str, &str, u64, &[u32], &[u32], &str); 10] = [
        (
            ONE_LINK,
            "t.1",
            0,
            &[1],
            &[],
            "redundancy 0 far 0: +1*2 >= 1",
        ),
        (
            ONE_LINK,
            "t.1",
            0,
            &[0, 1],
            &[0],
            "redundancy 0 0 far: >= 1",
        ),
        (
            ONE_LINK,
            "t.1",
            1_000_000_000_000_000,
            &[0, 1],
            &[0],
            "meets",
        ),
        (
            FAILING_LOAD,
            "t.1",
            1_500_000_000_000_000,
            &[0, 1],
            &[0],
            "redundancy 0 1 far 0: >= 1",
        ),
        (
            ALIKE,
            "t.1",
            500_000_000_000_000,
            &[0, 1, 2],
            &[0, 1],
            "redundancy 0 0 far: >= 1",
        ),
        (
            TWO_BUSES,
            "load.1",
            1_099_999_999_999_999,
            &[0, 2, 4],
            &[0, 4],
            "nogood 0 0 2 4: -1*0 -1*5 +1*7 -1*9 +1*10 >= -2",
        ),
        (
            TWO_BUSES,
            "load.1",
            500_000_000_000_000,
            &[0, 2, 4],
            &[0, 4],
            "redundancy 0 0 far 1 3: +1*7 +1*10 >= 1",
        ),
        (
            TWO_BUSES,
            "load.1",
            1_000_000_000_000,
            &[0, 1, 2, 3, 4],
            &[0, 1, 2, 3, 4, 5],
            "nogood 0 0 1 2 3 4: -1*0 -1*1 -1*5 -1*6 -1*7 -1*8 -1*9 -1*10 >= -7",
        ),
        (
            LONG_WAY,
            "t.1",
            220_000_000_000_000_000,
            &[0, 4],
            &[0],
            "meets",
        ),
        (
            LONG_WAY,
            "t.1",
            220_000_000_000_000_000,
            &[0, 1, 2, 3, 4],
            &[0, 1, 2, 3],
            "nogood 0 0 1 2 3 4: -1*0 -1*1 -1*5 -1*6 -1*7 -1*8 >= -5",
        ),
    ];
    for (library, sink, bound, components, edges, expected) in cases {
        let problem = problem(&rt, library, sink, bound)?;
        let of = arch(&rt, components, edges);
        assert!(rt; is_candidate(problem.library(), &of));
        assert_eq!(rt; study_text(rt.alloc(), &problem, &of)?.as_str(), expected);
    }
    Ok(())
}

// Whether a no-good is right for a candidate, with what the candidate's sink weighs where there is such
// a requirement.
fn is_right_no_good(
    alloc: Global,
    problem: &Problem,
    requirement: u32,
    cone: CompSet,
    of: &Architecture,
) -> bool
    requires { IsArchitecture problem.now.library of.now }
{
    let lib = problem.library();
    let cut = Cut::NoGood { requirement, cone };
    match lib.requirements().get(requirement as usize) {
        Some(r) => is_right(problem, &cut, of, weight(alloc, lib, of, r.sink)),
        None => is_right(problem, &cut, of, 0),
    }
}

// A no-good is right where its candidate weighs more than the bound, and not for another cone.
#[test]
fn no_goods_are_right_or_not(rt: HostRuntime) -> Result<(), Fail> {
    let cases: [(u64, u32, &[u32], bool); 6] = [
        (1_099_999_999_999_999, 0, &[0, 2, 4], true),
        (1_100_000_000_000_000, 0, &[0, 2, 4], false),
        (1_099_999_999_999_999, 0, &[0, 1, 2, 4], true),
        // No such requirement; the sink is left out; an edge leads into the cone from outside.
        (1_099_999_999_999_999, 1, &[0, 2, 4], false),
        (1_099_999_999_999_999, 0, &[0, 2], false),
        (1_099_999_999_999_999, 0, &[2, 4], false),
    ];
    for (bound, requirement, cone, right) in cases {
        let problem = problem(&rt, TWO_BUSES, "load.1", bound)?;
        let of = arch(&rt, &[0, 2, 4], &[0, 4]);
        assert!(rt; fits(problem.library(), &of));
        let cone = arch(&rt, cone, &[]).comps();
        assert_eq!(rt;
            is_right_no_good(rt.alloc(), &problem, requirement, cone, &of),
            right
        );
    }
    Ok(())
}
