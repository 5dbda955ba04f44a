// Base rows of small libraries, worked out by hand, and cubes of architectures.
ghost use Rattle.std.specs.Prelude.{◌<◌};
ghost use Rattle.arch_model.specs.Name.{IsTypeName};

use crate::adding::row_from;
use crate::{architecture_of, cube_of, problem_of};
use arch_model::limits::MEMBERS;
use arch_model::{
    Architecture, CompId, CompSet, EdgeId, EdgeSet, Library, LinkRow, Memory, Name, Pattern,
    Requirement, Role, TypeRow, VarId, fits, is_library,
};
use rows::{
    Cube, CutList, Known, Pair, Reason, Row, RowRef, Term, forces, greatest, has, quiet, refuted,
    together,
};
use std::alloc::Global;
use std::process::Abort;
use std::test::Fail;
use template::{expand, has_few_components};

// A row of a type that never fails.
fn row(name: &str, role: Role, max: u32, cost: u64, supply: u64, demand: u64) -> TypeRow
    requires { IsTypeName name.now }
{
    TypeRow {
        name: Name::new(name),
        role,
        max,
        cost,
        supply,
        demand,
        fail: 0,
    }
}

// A link whose edges cost this much each.
fn link(from: u32, to: u32, cost: u64) -> LinkRow {
    LinkRow {
        from,
        to,
        cost,
        fail: 0,
    }
}

// The library of some types, links and patterns, with a requirement for each of some sinks.
fn library(
    rt: &(impl Abort + AllocGlobal),
    types: &[TypeRow],
    links: &[LinkRow],
    patterns: &[Pattern],
    sinks: &[CompId],
) -> Result<Library, Memory> {
    let alloc = rt.alloc();
    let types = types.to_vec(alloc)?;
    let links = links.to_vec(alloc)?;
    assert!(rt; types.len() <= 64);
    assert!(rt; has_few_components(&types));
    let template = expand(alloc, &types, &links)?;
    let patterns = patterns.to_vec(alloc)?;
    let mut requirements = Vec::new(alloc);
    for sink in sinks {
        requirements.push(Requirement {
            sink: *sink,
            bound: 0,
        })?;
    }
    assert!(rt; is_library(&types, &links, &template, &patterns, &requirements));
    Ok(Library::new(types, links, template, patterns, requirements))
}

// A source a of supply 3 and cost 2, two of b of cost 1, and a sink c of demand 5. Components 0 to
// 3 are a.1, b.1, b.2 and c.1, and edges 4 to 7, of cost 1 each, a.1-b.1, a.1-b.2, b.1-c.1 and
// b.2-c.1.
fn two_ways(
    rt: &(impl Abort + AllocGlobal),
    patterns: &[Pattern],
    sinks: &[CompId],
) -> Result<Library, Memory> {
    let types = [
        row("a", Role::Source, 1, 2, 3, 0),
        row("b", Role::Middle, 2, 1, 0, 0),
        row("c", Role::Sink, 1, 0, 0, 5),
    ];
    library(rt, &types, &[link(0, 1, 1), link(1, 2, 1)], patterns, sinks)
}

// Three of m, each linked to each other, and a source s that is linked to each of them. Components
// 0 to 3 are m.1, m.2, m.3 and s.1. Edges 4 to 9 are m.1-m.2, m.1-m.3, m.2-m.1, m.2-m.3, m.3-m.1
// and m.3-m.2, and edges 10 to 12 go from s.1 to m.1, m.2 and m.3.
fn ring(rt: &(impl Abort + AllocGlobal), patterns: &[Pattern]) -> Result<Library, Memory> {
    let types = [
        row("m", Role::Middle, 3, 1, 0, 0),
        row("s", Role::Source, 1, 1, 0, 0),
    ];
    library(rt, &types, &[link(0, 0, 1), link(1, 0, 1)], patterns, &[])
}

// A row as text, as in `+3*0 -5*3 >= 0`.
fn text_of(alloc: Global, row: &Row) -> Result<String, Memory> {
    let mut text = String::new(alloc);
    for term in row.terms() {
        let coef = term.coef;
        let var = term.var.0;
        write!(text, "{coef:+}*{var} ")?;
    }
    let least = row.least();
    write!(text, ">= {least}")?;
    Ok(text)
}

// That the base rows of a library are as expected, from the row numbered `first` on.
fn expect_rows(
    rt: &(impl Abort + AllocGlobal),
    library: Library,
    first: usize,
    expected: &[&str],
) -> Result<(), Fail> {
    let problem = problem_of(rt.alloc(), library)?;
    let rows = problem.base();
    assert!(rt; rows.len() >= first);
    let rows = &rows[first..];
    assert_eq!(rt; rows.len(), expected.len());
    for (row, text) in rows.iter().zip(expected) {
        assert_eq!(rt; text_of(rt.alloc(), row)?.as_str(), *text);
    }
    Ok(())
}

#[test]
fn edges_ask_for_their_ends(rt: HostRuntime) -> Result<(), Fail> {
    let expected = [
        "+1*0 -1*4 >= 0",
        "+1*1 -1*4 >= 0",
        "+1*0 -1*5 >= 0",
        "+1*2 -1*5 >= 0",
        "+1*1 -1*6 >= 0",
        "+1*3 -1*6 >= 0",
        "+1*2 -1*7 >= 0",
        "+1*3 -1*7 >= 0",
    ];
    expect_rows(&rt, two_ways(&rt, &[], &[])?, 0, &expected)
}

// What one pattern adds to the eight rows of the edges.
#[test]
fn each_kind_of_pattern_has_its_rows(rt: HostRuntime) -> Result<(), Fail> {
    let cases: [(Pattern, &[&str]); 15] = [
        (
            Pattern::Count {
                of: 1,
                min: 1,
                max: Some(1),
            },
            &["+1*1 +1*2 >= 1", "-1*1 -1*2 >= -1"],
        ),
        (
            Pattern::InDegree {
                of: 2,
                from: 1,
                min: 2,
                max: None,
            },
            &["-2*3 +1*6 +1*7 >= 0"],
        ),
        (
            Pattern::OutDegree {
                of: 0,
                to: 1,
                min: 0,
                max: Some(1),
            },
            &["-1*4 -1*5 >= -1"],
        ),
        (
            Pattern::InNeedsOut {
                of: 1,
                from: 0,
                to: 2,
            },
            &["-1*4 +1*6 >= 0", "-1*5 +1*7 >= 0"],
        ),
        (Pattern::Exclusive { of: 2, a: 1, b: 0 }, &[]),
        (Pattern::Exclusive { of: 2, a: 0, b: 1 }, &[]),
        (Pattern::Implies { a: 0, b: 1 }, &["-1*0 +1*1 +1*2 >= 0"]),
        (Pattern::Implies { a: 0, b: 0 }, &[">= 0"]),
        (Pattern::Implies { a: 1, b: 1 }, &["+1*2 >= 0", "+1*1 >= 0"]),
        (
            Pattern::Forbid {
                tail: CompId(0),
                head: CompId(2),
            },
            &["-1*5 >= 0"],
        ),
        (
            Pattern::Forbid {
                tail: CompId(3),
                head: CompId(0),
            },
            &[],
        ),
        (Pattern::TotalSupply, &["+3*0 -5*3 >= 0"]),
        (
            Pattern::LocalSupply { of: 1 },
            &["+3*4 -5*6 >= 0", "+3*5 -5*7 >= 0"],
        ),
        (
            Pattern::CostCap { max: 4 },
            &["-2*0 -1*1 -1*2 -1*4 -1*5 -1*6 -1*7 >= -4"],
        ),
        (
            Pattern::Count {
                of: 0,
                min: 0,
                max: None,
            },
            &[],
        ),
    ];
    for (pattern, expected) in cases {
        expect_rows(&rt, two_ways(&rt, &[pattern], &[])?, 8, expected)?;
    }
    Ok(())
}

// Requirements come before patterns, each in the order of the library.
#[test]
fn requirements_and_patterns_stand_in_order(rt: HostRuntime) -> Result<(), Fail> {
    let patterns = [
        Pattern::TotalSupply,
        Pattern::Forbid {
            tail: CompId(1),
            head: CompId(3),
        },
    ];
    let expected = ["+1*3 >= 1", "+3*0 -5*3 >= 0", "-1*6 >= 0"];
    expect_rows(&rt, two_ways(&rt, &patterns, &[CompId(3)])?, 8, &expected)?;
    let types = [
        row("s", Role::Source, 1, 1, 1, 0),
        row("t", Role::Sink, 2, 0, 0, 1),
    ];
    let sinks = [CompId(2), CompId(1), CompId(2)];
    let lib = library(&rt, &types, &[], &[Pattern::TotalSupply], &sinks)?;
    let expected = ["+1*2 >= 1", "+1*1 >= 1", "+1*2 >= 1", "+1*0 -1*1 -1*2 >= 0"];
    expect_rows(&rt, lib, 0, &expected)
}

#[test]
fn a_type_may_be_linked_to_itself(rt: HostRuntime) -> Result<(), Fail> {
    let cases: [(Pattern, &[&str]); 4] = [
        (
            Pattern::InNeedsOut {
                of: 0,
                from: 0,
                to: 0,
            },
            &[
                "+1*4 +1*5 -1*6 >= 0",
                "+1*4 +1*5 -1*8 >= 0",
                "-1*4 +1*6 +1*7 >= 0",
                "+1*6 +1*7 -1*9 >= 0",
                "-1*5 +1*8 +1*9 >= 0",
                "-1*7 +1*8 +1*9 >= 0",
            ],
        ),
        (
            Pattern::Exclusive { of: 0, a: 0, b: 1 },
            &[
                "-1*6 -1*10 >= -1",
                "-1*8 -1*10 >= -1",
                "-1*4 -1*11 >= -1",
                "-1*9 -1*11 >= -1",
                "-1*5 -1*12 >= -1",
                "-1*7 -1*12 >= -1",
            ],
        ),
        (
            Pattern::Exclusive { of: 0, a: 1, b: 0 },
            &[
                "-1*6 -1*8 -2*10 >= -2",
                "-1*4 -1*9 -2*11 >= -2",
                "-1*5 -1*7 -2*12 >= -2",
            ],
        ),
        (
            Pattern::InDegree {
                of: 0,
                from: 0,
                min: 1,
                max: Some(1),
            },
            &[
                "-1*0 +1*6 +1*8 >= 0",
                "-1*6 -1*8 >= -1",
                "-1*1 +1*4 +1*9 >= 0",
                "-1*4 -1*9 >= -1",
                "-1*2 +1*5 +1*7 >= 0",
                "-1*5 -1*7 >= -1",
            ],
        ),
    ];
    for (pattern, expected) in cases {
        expect_rows(&rt, ring(&rt, &[pattern])?, 18, expected)?;
    }
    Ok(())
}

// A source that demands what it supplies has no term.
#[test]
fn terms_that_vanish_are_dropped(rt: HostRuntime) -> Result<(), Fail> {
    let types = [
        row("s", Role::Source, 1, 0, 3, 3),
        row("t", Role::Sink, 1, 0, 0, 2),
    ];
    let lib = library(&rt, &types, &[link(0, 1, 0)], &[Pattern::TotalSupply], &[])?;
    expect_rows(&rt, lib, 2, &["-2*1 >= 0"])
}

// Terms of one variable are added up, and the sums ascend by variable.
#[test]
fn a_row_has_one_term_a_variable(rt: HostRuntime) -> Result<(), Fail> {
    let terms = [
        Term {
            var: VarId(4),
            coef: -7,
        },
        Term {
            var: VarId(1),
            coef: 2,
        },
        Term {
            var: VarId(3),
            coef: 5,
        },
        Term {
            var: VarId(1),
            coef: 4,
        },
        Term {
            var: VarId(3),
            coef: -5,
        },
    ];
    let row = row_from(rt.alloc(), 5, &terms, -9)?;
    assert_eq!(rt; text_of(rt.alloc(), &row)?.as_str(), "+6*1 -7*4 >= -9");
    Ok(())
}

// Whether all terms have this coefficient.
fn have_coef(terms: &[Term], coef: i128) -> bool {
    terms.iter().all(|t| t.coef == coef)
}

// 64 components and 512 edges, with the greatest supplies, demands and costs. After the rows of the
// edges come that of the total supply, those of the local supply at 32 of b and then at 16 of a,
// and that of the cost.
#[test]
fn the_largest_coefficients_fit(rt: HostRuntime) -> Result<(), Fail> {
    let most = 1_000_000_000_000;
    let types = [
        row("a", Role::Source, 16, most, most, 0),
        row("b", Role::Sink, 32, most, 0, most),
        row("c", Role::Middle, 16, most, most, 0),
    ];
    let patterns = [
        Pattern::TotalSupply,
        Pattern::LocalSupply { of: 1 },
        Pattern::LocalSupply { of: 0 },
        Pattern::CostCap {
            max: 1_000_000_000_000_000,
        },
    ];
    let lib = library(&rt, &types, &[link(0, 1, most)], &patterns, &[])?;
    assert_eq!(rt; lib.components().len(), 64);
    assert_eq!(rt; lib.edges().len(), 512);
    let problem = problem_of(rt.alloc(), lib)?;
    let rows = problem.base();
    assert_eq!(rt; rows.len(), 1074);
    let total = rows[1024].terms();
    assert_eq!(rt; total.len(), 64);
    assert!(rt; have_coef(&total[..16], 1_000_000_000_000));
    assert!(rt; have_coef(&total[16..48], -1_000_000_000_000));
    assert!(rt; have_coef(&total[48..], 1_000_000_000_000));
    assert_eq!(rt; rows[1025].terms().len(), 16);
    assert!(rt; have_coef(rows[1025].terms(), 1_000_000_000_000));
    assert_eq!(rt; rows[1057].terms().len(), 32);
    assert!(rt; have_coef(rows[1057].terms(), -1_000_000_000_000));
    assert_eq!(rt; rows[1073].terms().len(), 576);
    assert!(rt; have_coef(rows[1073].terms(), -1_000_000_000_000));
    assert_eq!(rt; rows[1073].least(), -1_000_000_000_000_000);
    Ok(())
}

// At least one of a type.
fn one_of(of: u32) -> Pattern {
    Pattern::Count {
        of,
        min: 1,
        max: None,
    }
}

// A cube with one more variable at 0.
fn without(mut cube: Cube, v: VarId) -> Cube
    requires { v.0 < MEMBERS }
{
    if !cube.fixed().has(v) {
        cube.fix(v, false);
    }
    cube
}

// Of two sources at least one is present: x_0 + x_1 >= 1.
#[test]
fn a_base_row_is_judged(rt: HostRuntime) -> Result<(), Fail> {
    let types = [row("p", Role::Source, 2, 3, 0, 0)];
    let problem = problem_of(rt.alloc(), library(&rt, &types, &[], &[one_of(0)], &[])?)?;
    let cuts = CutList::new(rt.alloc());
    let known = Known {
        problem: &problem,
        cuts: &cuts,
        upto: 0,
        bound: None,
    };
    let r = RowRef::Base(0);
    assert!(rt; has(&known, r));
    assert!(rt; !has(&known, RowRef::Base(1)));
    assert!(rt; !has(&known, RowRef::Cost));
    let one = without(Cube::whole(), VarId(0));
    let cases = [
        (Cube::whole(), 2, false, None, true),
        (one, 1, false, Some((VarId(1), true)), false),
        (without(one, VarId(1)), 0, true, None, false),
    ];
    for (cube, most, fails, forced, still) in cases {
        assert_eq!(rt; greatest(&known, r, &cube), most);
        assert_eq!(rt; refuted(&known, r, &cube), fails);
        assert_eq!(rt; forces(&known, r, &cube), forced);
        assert_eq!(rt; quiet(&known, &cube), still);
    }
    Ok(())
}

// Two sources of cost 3 and a cost below 3: -3 x_0 - 3 x_1 >= -2.
#[test]
fn the_cost_row_is_judged(rt: HostRuntime) -> Result<(), Fail> {
    let types = [row("p", Role::Source, 2, 3, 0, 0)];
    let problem = problem_of(rt.alloc(), library(&rt, &types, &[], &[one_of(0)], &[])?)?;
    let cuts = CutList::new(rt.alloc());
    let known = Known {
        problem: &problem,
        cuts: &cuts,
        upto: 0,
        bound: Some(3),
    };
    let r = RowRef::Cost;
    let whole = Cube::whole();
    assert!(rt; has(&known, r));
    assert_eq!(rt; greatest(&known, r, &whole), 0);
    assert!(rt; !refuted(&known, r, &whole));
    assert_eq!(rt; forces(&known, r, &whole), Some((VarId(0), false)));
    assert!(rt; !quiet(&known, &whole));
    Ok(())
}

// Twelve types of two sources of cost 10, of each type at least one.
fn twelve_types(rt: &(impl Abort + AllocGlobal)) -> Result<Library, Memory> {
    let types = [
        row("a", Role::Source, 2, 10, 0, 0),
        row("b", Role::Source, 2, 10, 0, 0),
        row("c", Role::Source, 2, 10, 0, 0),
        row("d", Role::Source, 2, 10, 0, 0),
        row("e", Role::Source, 2, 10, 0, 0),
        row("f", Role::Source, 2, 10, 0, 0),
        row("g", Role::Source, 2, 10, 0, 0),
        row("h", Role::Source, 2, 10, 0, 0),
        row("i", Role::Source, 2, 10, 0, 0),
        row("j", Role::Source, 2, 10, 0, 0),
        row("k", Role::Source, 2, 10, 0, 0),
        row("l", Role::Source, 2, 10, 0, 0),
    ];
    let mut patterns = Vec::new(rt.alloc());
    for of in 0..12 {
        patterns.push(one_of(of))?;
    }
    library(rt, &types, &[], &patterns, &[])
}

// The reason of some pairs.
fn reason_of(rt: &impl Abort, pairs: Vec<Pair>) -> Reason {
    assert!(rt; pairs.len() >= 1);
    assert!(rt; pairs.len() <= 64);
    assert!(rt; pairs.iter().all(|p| p.times >= 1));
    assert!(rt; pairs.iter().all(|p| p.times <= 1_000_000_000_000));
    Reason::new(pairs)
}

// Whether the rows of a reason together are refuted in the whole cube.
fn whole_is_refuted(rt: &impl Abort, known: &Known, reason: &Reason) -> bool {
    let pairs = reason.pairs();
    assert!(rt; pairs.iter().all(|p| has(known, p.row)));
    together(known, reason, &Cube::whole())
}

// Ten times each of the twelve rows x_a + x_b >= 1, and once that the cost is below the bound: the
// coefficients cancel, and 0 >= 121 - bound is left.
#[test]
fn rows_are_refuted_together(rt: HostRuntime) -> Result<(), Fail> {
    let problem = problem_of(rt.alloc(), twelve_types(&rt)?)?;
    let cuts = CutList::new(rt.alloc());
    let mut pairs = Vec::new(rt.alloc());
    for i in 0..12 {
        pairs.push(Pair {
            row: RowRef::Base(i),
            times: 10,
        })?;
    }
    pairs.push(Pair {
        row: RowRef::Cost,
        times: 1,
    })?;
    let reason = reason_of(&rt, pairs);
    for (bound, fails) in [(120, true), (121, false)] {
        let known = Known {
            problem: &problem,
            cuts: &cuts,
            upto: 0,
            bound: Some(bound),
        };
        assert_eq!(rt; whole_is_refuted(&rt, &known, &reason), fails);
    }
    Ok(())
}

// a.1, b.1 and c.1 with the edges between them.
fn one_way() -> Architecture {
    let mut comps = CompSet::new();
    comps.put(CompId(0));
    comps.put(CompId(1));
    comps.put(CompId(3));
    let mut edges = EdgeSet::new();
    edges.put(EdgeId(0));
    edges.put(EdgeId(2));
    Architecture::new(comps, edges)
}

#[test]
fn an_architecture_is_a_full_cube(rt: HostRuntime) -> Result<(), Fail> {
    let lib = two_ways(&rt, &[], &[])?;
    assert_eq!(rt; lib.components().len(), 4);
    let arch = one_way();
    assert!(rt; fits(&lib, &arch));
    let cube = cube_of(&lib, &arch);
    let ones = [true, true, false, true, true, false, true, false];
    for (v, one) in ones.iter().enumerate() {
        assert_eq!(rt; cube.value(VarId(v as u32)), Some(*one));
    }
    assert_eq!(rt; cube.value(VarId(8)), None);
    let back = architecture_of(&lib, &cube);
    assert!(rt; back.comps() == arch.comps());
    assert!(rt; back.edges() == arch.edges());
    Ok(())
}
