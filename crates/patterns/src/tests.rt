// Patterns judged by hand over a small network.
ghost use Rattle.std.specs.Prelude.{◌≡◌, ◌≤◌, IfOk, length};
ghost use Rattle.std.specs.List.{All};
ghost use Rattle.arch_model.specs.Name.{IsTypeName};
ghost use Rattle.arch_model.specs.Library.{IsPatternRow};

use crate::{first_broken, meets_pattern};
use arch_model::{
    Architecture, CompId, CompSet, Component, Edge, EdgeId, EdgeSet, Library, LinkRow, Name,
    Pattern, Role, Template, TypeRow, fits,
};
use std::process::Abort;
use std::test::Fail;

// A row of a type that never fails.
fn row(name: &str, role: Role, max: u32, cost: u64, supply: u64, demand: u64) -> TypeRow
    requires { IsTypeName name.now }
    ensures { result
        ≡ record { name = name.now; role = role; max = max; cost = cost; supply = supply; demand = demand; fail = 0 } }
{
    TypeRow {
        name: Name::new(name),
        role,
        max,
        cost,
        supply,
        demand,
        fail: 0,
    }
}

// A source a of supply 3 and cost 2, two of b of cost 1, and a sink c of demand 5. Components 0 to
// 3 are a.1, b.1, b.2 and c.1. Edges 0 to 4, of cost 1 each, are a.1-b.1, a.1-b.2, b.1-c.1,
// b.2-c.1 and a.1-c.1, the last so that a pattern of kind exclusive can be broken.
fn library(rt: &(impl Abort + AllocGlobal), patterns: Vec<Pattern>) -> Result<Library, Fail>
    requires rows { All (IsPatternRow 3 4) patterns.items }
    requires few { length patterns.items ≤ 200 }
    ensures { IfOk result (λ lib. lib.patterns ≡ patterns.items) }
{
    let a = row("a", Role::Source, 1, 2, 3, 0);
    let b = row("b", Role::Middle, 2, 1, 0, 0);
    let c = row("c", Role::Sink, 1, 0, 0, 5);
    let types = Vec::from_array(rt.alloc(), [a, b, c])?;
    let links = Vec::from_array(rt.alloc(), [link(0, 1), link(1, 2), link(0, 2)])?;
    let components = Vec::from_array(
        rt.alloc(),
        [
            instance(&a, 0, 1),
            instance(&b, 1, 1),
            instance(&b, 1, 2),
            instance(&c, 2, 1),
        ],
    )?;
    let edges = Vec::from_array(
        rt.alloc(),
        [edge(0, 1), edge(0, 2), edge(1, 3), edge(2, 3), edge(0, 3)],
    )?;
    let template = Template::new(components, edges);
    let requirements = Vec::new(rt.alloc());
    Ok(Library::new(types, links, template, patterns, requirements))
}

// An instance of type number t.
fn instance(row: &TypeRow, t: u32, index: u32) -> Component
    ensures { result
        ≡ record {
          of = t;
          index = index;
          role = row.now.role;
          cost = row.now.cost;
          supply = row.now.supply;
          demand = row.now.demand;
          fail = row.now.fail;
        } }
{
    Component {
        of: t,
        index,
        role: row.role,
        cost: row.cost,
        supply: row.supply,
        demand: row.demand,
        fail: row.fail,
    }
}

fn link(from: u32, to: u32) -> LinkRow
    ensures { result ≡ record { from = from; to = to; cost = 1; fail = 0 } }
{
    LinkRow {
        from,
        to,
        cost: 1,
        fail: 0,
    }
}

fn edge(tail: u32, head: u32) -> Edge
    ensures { result ≡ record { tail = record { 0 = tail }; head = record { 0 = head }; cost = 1; fail = 0 } }
{
    Edge {
        tail: CompId(tail),
        head: CompId(head),
        cost: 1,
        fail: 0,
    }
}

// The architecture of some components and edges.
fn architecture(rt: &impl Abort, comps: &[u32], edges: &[u32]) -> Architecture {
    let mut comp_set = CompSet::new();
    for c in comps {
        assert!(rt; *c < 64);
        comp_set.put(CompId(*c));
    }
    let mut edge_set = EdgeSet::new();
    for e in edges {
        assert!(rt; *e < 512);
        edge_set.put(EdgeId(*e));
    }
    Architecture::new(comp_set, edge_set)
}

// That some components and edges meet a pattern, or that they break it.
fn expect(rt: &impl Abort, lib: &Library, p: &Pattern, comps: &[u32], edges: &[u32], met: bool) {
    let arch = architecture(rt, comps, edges);
    assert!(rt; fits(lib, &arch));
    assert_eq!(rt; meets_pattern(lib, &arch, p), met);
}

#[test]
fn counts_and_costs_are_judged(rt: HostRuntime) -> Result<(), Fail> {
    let lib = library(&rt, Vec::new(rt.alloc()))?;
    let one_b = Pattern::Count {
        of: 1,
        min: 1,
        max: Some(1),
    };
    expect(&rt, &lib, &one_b, &[2], &[], true);
    expect(&rt, &lib, &one_b, &[0], &[], false);
    expect(&rt, &lib, &one_b, &[1, 2], &[], false);
    let b_with_a = Pattern::Implies { a: 0, b: 1 };
    expect(&rt, &lib, &b_with_a, &[0, 2], &[], true);
    expect(&rt, &lib, &b_with_a, &[1], &[], true);
    expect(&rt, &lib, &b_with_a, &[0, 3], &[], false);
    let cheap = Pattern::CostCap { max: 4 };
    expect(&rt, &lib, &cheap, &[0, 1], &[0], true);
    expect(&rt, &lib, &cheap, &[0, 1, 3], &[0, 2], false);
    Ok(())
}

#[test]
fn degrees_are_judged(rt: HostRuntime) -> Result<(), Fail> {
    let lib = library(&rt, Vec::new(rt.alloc()))?;
    let two_into_c = Pattern::InDegree {
        of: 2,
        from: 1,
        min: 2,
        max: None,
    };
    expect(&rt, &lib, &two_into_c, &[1, 2, 3], &[2, 3], true);
    expect(&rt, &lib, &two_into_c, &[], &[], true);
    expect(&rt, &lib, &two_into_c, &[1, 3], &[2], false);
    expect(&rt, &lib, &two_into_c, &[0, 1, 3], &[2, 4], false);
    let one_from_a = Pattern::OutDegree {
        of: 0,
        to: 1,
        min: 0,
        max: Some(1),
    };
    expect(&rt, &lib, &one_from_a, &[0, 1], &[0], true);
    expect(&rt, &lib, &one_from_a, &[0, 1, 3], &[0, 4], true);
    expect(&rt, &lib, &one_from_a, &[0, 1, 2], &[0, 1], false);
    let b_goes_on = Pattern::InNeedsOut {
        of: 1,
        from: 0,
        to: 2,
    };
    expect(&rt, &lib, &b_goes_on, &[0, 1, 2, 3], &[0, 2], true);
    expect(&rt, &lib, &b_goes_on, &[0, 1, 2, 3], &[0, 3], false);
    let one_kind_into_c = Pattern::Exclusive { of: 2, a: 0, b: 1 };
    expect(&rt, &lib, &one_kind_into_c, &[0, 1, 2, 3], &[2, 3], true);
    expect(&rt, &lib, &one_kind_into_c, &[0, 1, 3], &[4], true);
    expect(&rt, &lib, &one_kind_into_c, &[0, 1, 3], &[2, 4], false);
    let not_to_b_2 = Pattern::Forbid {
        tail: CompId(0),
        head: CompId(2),
    };
    expect(&rt, &lib, &not_to_b_2, &[0, 1, 2], &[0], true);
    expect(&rt, &lib, &not_to_b_2, &[0, 2], &[1], false);
    Ok(())
}

#[test]
fn supplies_are_judged(rt: HostRuntime) -> Result<(), Fail> {
    let lib = library(&rt, Vec::new(rt.alloc()))?;
    let supplied = Pattern::TotalSupply;
    expect(&rt, &lib, &supplied, &[0, 1], &[], true);
    expect(&rt, &lib, &supplied, &[0, 3], &[], false);
    let b_supplied = Pattern::LocalSupply { of: 1 };
    expect(&rt, &lib, &b_supplied, &[0, 1], &[0], true);
    expect(&rt, &lib, &b_supplied, &[0, 1, 3], &[0, 4], true);
    expect(&rt, &lib, &b_supplied, &[0, 1, 3], &[0, 2], false);
    Ok(())
}

// At least one b, a cost of at most 4, and enough supply.
#[test]
fn the_first_broken_pattern_is_found(rt: HostRuntime) -> Result<(), Fail> {
    let some_b = Pattern::Count {
        of: 1,
        min: 1,
        max: None,
    };
    let cheap = Pattern::CostCap { max: 4 };
    let patterns = Vec::from_array(rt.alloc(), [some_b, cheap, Pattern::TotalSupply])?;
    let lib = library(&rt, patterns)?;
    let only_b = architecture(&rt, &[1], &[]);
    assert!(rt; fits(&lib, &only_b));
    assert_eq!(rt; first_broken(&lib, &only_b), None);
    let path = architecture(&rt, &[0, 1, 3], &[0, 2]);
    assert!(rt; fits(&lib, &path));
    assert_eq!(rt; first_broken(&lib, &path), Some(1));
    let only_c = architecture(&rt, &[3], &[]);
    assert!(rt; fits(&lib, &only_c));
    assert_eq!(rt; first_broken(&lib, &only_c), Some(0));
    Ok(())
}
