// Masses of small networks, worked out by hand.
ghost use Rattle.arch_model.specs.Name.{IsTypeName};

use crate::enclose;
use arch_model::{
    Architecture, CompId, CompSet, EdgeId, EdgeSet, Library, LinkRow, Name, Role, TypeRow, fits,
    is_library,
};
use std::process::Abort;
use std::test::Fail;
use template::{expand, has_few_components};

// A type of at most `max` instances, each of which fails `fail` times in a million.
fn row(name: &str, role: Role, max: u32, fail: u32) -> TypeRow
    requires { IsTypeName name.now }
{
    TypeRow {
        name: Name::new(name),
        role,
        max,
        cost: 0,
        supply: 0,
        demand: 0,
        fail,
    }
}

// The library of some types, and of links that are given by the numbers of their types and how
// often an edge fails.
fn library(
    rt: &(impl Abort + AllocGlobal),
    types: &[TypeRow],
    ends: &[(u32, u32, u32)],
) -> Result<Library, Fail> {
    let alloc = rt.alloc();
    let mut links = Vec::new(alloc);
    for (from, to, fail) in ends {
        links.push(LinkRow {
            from: *from,
            to: *to,
            cost: 0,
            fail: *fail,
        })?;
    }
    let types = types.to_vec(alloc)?;
    assert!(rt; types.len() <= 64);
    assert!(rt; has_few_components(&types));
    let template = expand(alloc, &types, &links)?;
    let patterns = Vec::new(alloc);
    let requirements = Vec::new(alloc);
    assert!(rt; is_library(&types, &links, &template, &patterns, &requirements));
    Ok(Library::new(types, links, template, patterns, requirements))
}

// Some components.
fn comps(numbers: &[u32]) -> CompSet {
    let mut set = CompSet::new();
    for c in numbers {
        if *c < 64 {
            set.put(CompId(*c));
        }
    }
    set
}

// Some components and edges.
fn architecture(components: &[u32], edges: &[u32]) -> Architecture {
    let mut set = EdgeSet::new();
    for e in edges {
        if *e < 512 {
            set.put(EdgeId(*e));
        }
    }
    Architecture::new(comps(components), set)
}

// The components and edges of an architecture, a sink of it, and what encloses its failure mass.
type Case = (&'static [u32], &'static [u32], u32, (u64, u64));

fn expect(rt: &impl Abort, lib: &Library, cases: &[Case]) {
    for (components, edges, sink, enclosure) in cases {
        let arch = architecture(components, edges);
        assert!(rt; fits(lib, &arch));
        assert_eq!(rt; enclose(lib, &arch, CompId(*sink)), *enclosure);
    }
}

// What stands for 1.
const ONE: u64 = 1_000_000_000_000_000_000;

// Two generators, two buses and a load. Components 0 to 4 are gen.1, gen.2, bus.1, bus.2 and
// load.1. Edges 0 to 3 are from gen.1 to each bus and from gen.2 to each bus, and edges 4 and 5
// from each bus to the load. The architectures: one chain, the same beside a generator that feeds
// nothing, two chains, the load alone, and a chain without the load.
#[test]
fn chains_fail_with_each_member(rt: HostRuntime) -> Result<(), Fail> {
    let types = [
        row("gen", Role::Source, 2, 1000),
        row("bus", Role::Middle, 2, 100),
        row("load", Role::Sink, 1, 0),
    ];
    let lib = library(&rt, &types, &[(0, 1, 0), (1, 2, 0)])?;
    let chain = (1_099_900_000_000_000, 1_099_900_000_000_000);
    let cases: [Case; 5] = [
        (&[0, 2, 4], &[0, 4], 4, chain),
        (&[0, 1, 2, 4], &[0, 4], 4, chain),
        (
            &[0, 1, 2, 3, 4],
            &[0, 3, 4, 5],
            4,
            (1_209_780_010_000, 1_209_780_010_000),
        ),
        (&[4], &[], 4, (ONE, ONE)),
        (&[0, 2], &[0], 4, (ONE, ONE)),
    ];
    expect(&rt, &lib, &cases);
    Ok(())
}

// Four sources of 1 ppm that each feed the sink fail together once in 10^24, which is less than the
// unit. A source of 1000 ppm feeds its sink over an edge of 500 ppm.
#[test]
fn small_rates_are_rounded_and_edges_fail(rt: HostRuntime) -> Result<(), Fail> {
    let four = [
        row("source", Role::Source, 4, 1),
        row("sink", Role::Sink, 1, 0),
    ];
    let lib = library(&rt, &four, &[(0, 1, 0)])?;
    let cases: [Case; 1] = [(&[0, 1, 2, 3, 4], &[0, 1, 2, 3], 4, (0, 1))];
    expect(&rt, &lib, &cases);

    let two = [row("s", Role::Source, 1, 1000), row("t", Role::Sink, 1, 0)];
    let lib = library(&rt, &two, &[(0, 1, 500)])?;
    let cases: [Case; 1] = [(
        &[0, 1],
        &[0],
        1,
        (1_499_500_000_000_000, 1_499_500_000_000_000),
    )];
    expect(&rt, &lib, &cases);
    Ok(())
}

// A source that always fails stands alone, beside one that fails once in two, and with a third that
// never fails. In the second network each component has a rate of its own, and the order of the
// members tells in the last digit.
#[test]
fn rates_may_be_nothing_and_everything(rt: HostRuntime) -> Result<(), Fail> {
    let sources = [
        row("a", Role::Source, 1, 1_000_000),
        row("b", Role::Source, 1, 500_000),
        row("c", Role::Source, 1, 0),
        row("t", Role::Sink, 1, 0),
    ];
    let lib = library(&rt, &sources, &[(0, 3, 0), (1, 3, 0), (2, 3, 0)])?;
    let cases: [Case; 3] = [
        (&[0, 3], &[0], 3, (ONE, ONE)),
        (&[0, 1, 3], &[0, 1], 3, (ONE / 2, ONE / 2)),
        (&[0, 1, 2, 3], &[0, 1, 2], 3, (0, 0)),
    ];
    expect(&rt, &lib, &cases);

    let chains = [
        row("g1", Role::Source, 1, 7),
        row("g2", Role::Source, 1, 100),
        row("b1", Role::Middle, 1, 100),
        row("b2", Role::Middle, 1, 11),
        row("t", Role::Sink, 1, 3),
    ];
    let lib = library(&rt, &chains, &[(0, 2, 0), (1, 3, 0), (2, 4, 0), (3, 4, 0)])?;
    let cases: [Case; 1] = [(
        &[0, 1, 2, 3, 4],
        &[0, 1, 2, 3],
        4,
        (3_011_876_768_970, 3_011_876_768_972),
    )];
    expect(&rt, &lib, &cases);
    Ok(())
}

// The types of an aircraft's power network with a left, right, auxiliary and emergency side:
// generators 0 to 3, then buses 4 to 7, converters 8 to 11, buses 12 to 15 behind them, and the
// loads flight, avionics and cabin 16 to 18.
fn aircraft_types() -> [TypeRow; 19] {
    [
        row("lgen", Role::Source, 1, 100),
        row("rgen", Role::Source, 1, 100),
        row("apu", Role::Source, 1, 500),
        row("rat", Role::Source, 1, 2000),
        row("lac", Role::Middle, 1, 10),
        row("rac", Role::Middle, 1, 10),
        row("sac", Role::Middle, 1, 10),
        row("eac", Role::Middle, 1, 10),
        row("ltru", Role::Middle, 1, 50),
        row("rtru", Role::Middle, 1, 50),
        row("stru", Role::Middle, 1, 50),
        row("etru", Role::Middle, 1, 50),
        row("ldc", Role::Middle, 1, 10),
        row("rdc", Role::Middle, 1, 10),
        row("sdc", Role::Middle, 1, 10),
        row("edc", Role::Middle, 1, 10),
        row("flight", Role::Sink, 1, 0),
        row("avionics", Role::Sink, 1, 0),
        row("cabin", Role::Sink, 1, 0),
    ]
}

// The left, right and emergency sides stand. Edges 0 to 11 lead down the four sides, 12 to 15 from
// them to flight, 16 and 17 from left and right to avionics, 18 and 19 from left and auxiliary to
// cabin. The numbers are those of all 2^12 cases of the members that may fail, worked out by a
// script of its own.
#[test]
fn an_aircraft_loses_its_loads(rt: HostRuntime) -> Result<(), Fail> {
    let links = [
        (0, 4, 0),
        (1, 5, 0),
        (2, 6, 0),
        (3, 7, 0),
        (4, 8, 0),
        (5, 9, 0),
        (6, 10, 0),
        (7, 11, 0),
        (8, 12, 0),
        (9, 13, 0),
        (10, 14, 0),
        (11, 15, 0),
        (12, 16, 0),
        (13, 16, 0),
        (14, 16, 0),
        (15, 16, 0),
        (12, 17, 0),
        (13, 17, 0),
        (12, 18, 0),
        (14, 18, 0),
    ];
    let lib = library(&rt, &aircraft_types(), &links)?;
    let components: &'static [u32] = &[0, 1, 3, 4, 5, 7, 8, 9, 11, 12, 13, 15, 16, 17, 18];
    let edges: &'static [u32] = &[0, 1, 3, 4, 5, 7, 8, 9, 11, 12, 13, 15, 16, 17, 18];
    let cases: [Case; 3] = [
        (components, edges, 16, (59_813_218, 59_813_227)),
        (components, edges, 17, (28_897_246_102, 28_897_246_107)),
        (
            components,
            edges,
            18,
            (169_991_900_114_999, 169_991_900_115_000),
        ),
    ];
    expect(&rt, &lib, &cases);
    Ok(())
}
