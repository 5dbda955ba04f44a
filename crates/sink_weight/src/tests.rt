// Weights and heaviest sets of small networks, worked out by hand.
ghost use Rattle.arch_model.specs.Name.{IsTypeName};

use crate::{heaviest, weigh, weight};
use arch_model::{
    Architecture, CompId, CompSet, EdgeId, EdgeSet, Library, LinkRow, Name, Role, TypeRow, VarId,
    fits, is_library,
};
use cut_sets::Members;
use std::process::Abort;
use std::test::Fail;
use template::{expand, has_few_components};

// A type of at most `max` instances, each of which fails `fail` times in a million.
fn row(name: &str, role: Role, max: u32, fail: u32) -> TypeRow
    requires { IsTypeName name.now }
{
    TypeRow {
        name: Name::new(name),
        role,
        max,
        cost: 0,
        supply: 0,
        demand: 0,
        fail,
    }
}

// A link by the numbers of its types, whose edges fail `fail` times in a million.
fn link(from: u32, to: u32, fail: u32) -> LinkRow {
    LinkRow {
        from,
        to,
        cost: 0,
        fail,
    }
}

// The library of some types and links.
fn library(
    rt: &(impl Abort + AllocGlobal),
    types: &[TypeRow],
    links: &[LinkRow],
) -> Result<Library, Fail> {
    let alloc = rt.alloc();
    let types = types.to_vec(alloc)?;
    let links = links.to_vec(alloc)?;
    assert!(rt; types.len() <= 64);
    assert!(rt; has_few_components(&types));
    let template = expand(alloc, &types, &links)?;
    let patterns = Vec::new(alloc);
    let requirements = Vec::new(alloc);
    assert!(rt; is_library(&types, &links, &template, &patterns, &requirements));
    Ok(Library::new(types, links, template, patterns, requirements))
}

// Some components.
fn comps(numbers: &[u32]) -> CompSet {
    let mut set = CompSet::new();
    for c in numbers {
        if *c < 64 {
            set.put(CompId(*c));
        }
    }
    set
}

// Some components and edges.
fn architecture(components: &[u32], edges: &[u32]) -> Architecture {
    let mut set = EdgeSet::new();
    for e in edges {
        if *e < 512 {
            set.put(EdgeId(*e));
        }
    }
    Architecture::new(comps(components), set)
}

// Whether members have these numbers.
fn are(members: &[VarId], numbers: &[u32]) -> bool {
    members.len() == numbers.len() && members.iter().zip(numbers).all(|(v, n)| v.0 == *n)
}

// Two generators, two buses and a load. Components 0 to 4 are gen.1, gen.2, bus.1, bus.2 and
// load.1. Edges 0 to 3 are from gen.1 to each bus and from gen.2 to each bus, and edges 4 and 5
// from each bus to the load; edge e is member 5 + e.
fn buses(rt: &(impl Abort + AllocGlobal)) -> Result<Library, Fail> {
    let types = [
        row("gen", Role::Source, 2, 1000),
        row("bus", Role::Middle, 2, 100),
        row("load", Role::Sink, 1, 0),
    ];
    library(rt, &types, &[link(0, 1, 0), link(1, 2, 0)])
}

// A source a that feeds the sink t, and a source c that feeds it through b1 and b2. Components 0 to
// 4 are a, c, b1, b2 and t. Edges are a to t, c to b1, b1 to b2 and b2 to t.
fn bypass(rt: &(impl Abort + AllocGlobal)) -> Result<Library, Fail> {
    let types = [
        row("a", Role::Source, 1, 200_000),
        row("c", Role::Source, 1, 0),
        row("b1", Role::Middle, 1, 600_000),
        row("b2", Role::Middle, 1, 600_000),
        row("t", Role::Sink, 1, 0),
    ];
    library(
        rt,
        &types,
        &[link(0, 4, 0), link(1, 2, 0), link(2, 3, 0), link(3, 4, 0)],
    )
}

// A source that feeds a sink.
fn pair(
    rt: &(impl Abort + AllocGlobal),
    source: u32,
    joined: u32,
    sink: u32,
) -> Result<Library, Fail> {
    let types = [
        row("s", Role::Source, 1, source),
        row("t", Role::Sink, 1, sink),
    ];
    library(rt, &types, &[link(0, 1, joined)])
}

// The components and edges of an architecture, and what a sink weighs in it, with its heaviest set.
#[derive(Drop)]
struct Case {
    comps: &'static [u32],
    edges: &'static [u32],
    weighs: u128,
    set: Option<&'static [u32]>,
}

// Whether a set, if any, has these numbers.
fn is_set(found: &Option<Members>, set: Option<&'static [u32]>) -> bool {
    match (found, set) {
        (Some(members), Some(numbers)) => are(members.as_slice(), numbers),
        (None, None) => true,
        _ => false,
    }
}

// That a sink weighs this much, and has this heaviest set, or none.
fn expect_one(
    rt: &(impl Abort + AllocGlobal),
    lib: &Library,
    arch: &Architecture,
    sink: u32,
    weighs: u128,
    set: Option<&'static [u32]>,
) {
    assert!(rt; fits(lib, arch));
    assert_eq!(rt; weight(rt.alloc(), lib, arch, CompId(sink)), weighs);
    let found = heaviest(rt.alloc(), lib, arch, CompId(sink));
    assert!(rt; is_set(&found, set));
    let both = weigh(rt.alloc(), lib, arch, CompId(sink));
    assert_eq!(rt; both.weight, weighs);
    assert!(rt; is_set(&both.heaviest, set));
}

fn expect(rt: &(impl Abort + AllocGlobal), lib: &Library, sink: u32, cases: &[Case]) {
    for case in cases {
        let arch = architecture(case.comps, case.edges);
        expect_one(rt, lib, &arch, sink, case.weighs, case.set);
    }
}

#[test]
fn buses_weigh_by_their_links(rt: HostRuntime) -> Result<(), Fail> {
    let cases = [
        Case {
            comps: &[0, 2, 4],
            edges: &[0, 4],
            weighs: 1_100_000_000_000_000,
            set: Some(&[0]),
        },
        Case {
            comps: &[0, 2, 3, 4],
            edges: &[0, 1, 4, 5],
            weighs: 1_000_010_000_000_000,
            set: Some(&[0]),
        },
        Case {
            comps: &[0, 1, 2, 4],
            edges: &[0, 2, 4],
            weighs: 101_000_000_000_000,
            set: Some(&[2]),
        },
        Case {
            comps: &[0, 1, 2, 3, 4],
            edges: &[0, 3, 4, 5],
            weighs: 1_210_000_000_000,
            set: Some(&[0, 1]),
        },
        Case {
            comps: &[0, 1, 2, 3, 4],
            edges: &[0, 1, 3, 4, 5],
            weighs: 1_110_000_000_000,
            set: Some(&[0, 1]),
        },
        Case {
            comps: &[0, 1, 2, 3, 4],
            edges: &[0, 1, 2, 3, 4, 5],
            weighs: 1_010_000_000_000,
            set: Some(&[0, 1]),
        },
        // a load that nothing reaches, and one that is absent
        Case {
            comps: &[4],
            edges: &[],
            weighs: 1_000_000_000_000_000_000,
            set: Some(&[]),
        },
        Case {
            comps: &[0, 2],
            edges: &[0],
            weighs: 1_000_000_000_000_000_000,
            set: Some(&[]),
        },
    ];
    expect(&rt, &buses(&rt)?, 4, &cases);
    Ok(())
}

#[test]
fn more_edges_may_weigh_more(rt: HostRuntime) -> Result<(), Fail> {
    let cases = [
        Case {
            comps: &[0, 4],
            edges: &[0],
            weighs: 200_000_000_000_000_000,
            set: Some(&[0]),
        },
        Case {
            comps: &[0, 1, 2, 3, 4],
            edges: &[0, 1, 2, 3],
            weighs: 240_000_000_000_000_000,
            set: Some(&[0, 2]),
        },
        Case {
            comps: &[1, 2, 3, 4],
            edges: &[1, 2, 3],
            weighs: 1_200_000_000_000_000_000,
            set: Some(&[2]),
        },
    ];
    expect(&rt, &bypass(&rt)?, 4, &cases);
    Ok(())
}

#[test]
fn products_are_rounded_up_at_each_member(rt: HostRuntime) -> Result<(), Fail> {
    let types = [row("s", Role::Source, 4, 1), row("t", Role::Sink, 1, 0)];
    let lib = library(&rt, &types, &[link(0, 1, 0)])?;
    let cases = [
        Case {
            comps: &[0, 1, 2, 3, 4],
            edges: &[0, 1, 2, 3],
            weighs: 1,
            set: Some(&[0, 1, 2, 3]),
        },
        Case {
            comps: &[0, 1, 2, 4],
            edges: &[0, 1, 2],
            weighs: 1,
            set: Some(&[0, 1, 2]),
        },
    ];
    expect(&rt, &lib, 4, &cases);
    Ok(())
}

// That a source and the sink that it feeds weigh this much.
fn expect_pair(
    rt: &(impl Abort + AllocGlobal),
    fails: (u32, u32, u32),
    weighs: u128,
    set: Option<&'static [u32]>,
) -> Result<(), Fail> {
    let lib = pair(rt, fails.0, fails.1, fails.2)?;
    expect_one(rt, &lib, &architecture(&[0, 1], &[0]), 1, weighs, set);
    Ok(())
}

#[test]
fn of_equal_products_the_least_list_is_the_heaviest(rt: HostRuntime) -> Result<(), Fail> {
    expect_pair(&rt, (500, 500, 500), 1_500_000_000_000_000, Some(&[0]))?;
    expect_pair(&rt, (0, 500, 0), 500_000_000_000_000, Some(&[2]))?;
    expect_pair(
        &rt,
        (1_000_000, 0, 0),
        1_000_000_000_000_000_000,
        Some(&[0]),
    )?;
    expect_pair(&rt, (0, 0, 0), 0, None)
}

// Two buses that feed each other, of which the generator feeds one and the load is fed by the
// other. Edges 4 and 5 join the buses.
#[test]
fn a_circle_is_no_way_around(rt: HostRuntime) -> Result<(), Fail> {
    let types = [
        row("gen", Role::Source, 1, 1000),
        row("bus", Role::Middle, 2, 100),
        row("load", Role::Sink, 1, 0),
    ];
    let lib = library(&rt, &types, &[link(0, 1, 0), link(1, 2, 0), link(1, 1, 0)])?;
    let circle = [Case {
        comps: &[0, 1, 2, 3],
        edges: &[0, 3, 4, 5],
        weighs: 1_200_000_000_000_000,
        set: Some(&[0]),
    }];
    expect(&rt, &lib, 3, &circle);
    Ok(())
}

// The types of an aircraft's power network with a left, right, auxiliary and emergency side:
// generators 0 to 3, then buses 4 to 7, converters 8 to 11, buses 12 to 15 behind them, and the
// loads flight, avionics and cabin 16 to 18.
fn aircraft_types() -> [TypeRow; 19] {
    [
        row("lgen", Role::Source, 1, 100),
        row("rgen", Role::Source, 1, 100),
        row("apu", Role::Source, 1, 500),
        row("rat", Role::Source, 1, 2000),
        row("lac", Role::Middle, 1, 10),
        row("rac", Role::Middle, 1, 10),
        row("sac", Role::Middle, 1, 10),
        row("eac", Role::Middle, 1, 10),
        row("ltru", Role::Middle, 1, 50),
        row("rtru", Role::Middle, 1, 50),
        row("stru", Role::Middle, 1, 50),
        row("etru", Role::Middle, 1, 50),
        row("ldc", Role::Middle, 1, 10),
        row("rdc", Role::Middle, 1, 10),
        row("sdc", Role::Middle, 1, 10),
        row("edc", Role::Middle, 1, 10),
        row("flight", Role::Sink, 1, 0),
        row("avionics", Role::Sink, 1, 0),
        row("cabin", Role::Sink, 1, 0),
    ]
}

// The aircraft's links: down the four sides, then from all sides to flight, from left and right to
// avionics, and from left and auxiliary to cabin.
fn aircraft(rt: &(impl Abort + AllocGlobal)) -> Result<Library, Fail> {
    let ends = [
        (0, 4),
        (1, 5),
        (2, 6),
        (3, 7),
        (4, 8),
        (5, 9),
        (6, 10),
        (7, 11),
        (8, 12),
        (9, 13),
        (10, 14),
        (11, 15),
        (12, 16),
        (13, 16),
        (14, 16),
        (15, 16),
        (12, 17),
        (13, 17),
        (12, 18),
        (14, 18),
    ];
    let mut links = Vec::new(rt.alloc());
    for (from, to) in ends {
        links.push(link(from, to, 0))?;
    }
    library(rt, &aircraft_types(), &links)
}

// What a load weighs where the left, right and emergency sides stand.
fn expect_load(
    rt: &(impl Abort + AllocGlobal),
    sink: u32,
    weighs: u128,
    set: &'static [u32],
) -> Result<(), Fail> {
    let case = [Case {
        comps: &[0, 1, 3, 4, 5, 7, 8, 9, 11, 12, 13, 15, 16, 17, 18],
        edges: &[0, 1, 3, 4, 5, 7, 8, 9, 11, 12, 13, 15, 16, 17, 18],
        weighs,
        set: Some(set),
    }];
    expect(rt, &aircraft(rt)?, sink, &case);
    Ok(())
}

#[test]
fn an_aircraft_flies_on_three_sides(rt: HostRuntime) -> Result<(), Fail> {
    expect_load(&rt, 16, 59_823_000, &[0, 1, 3])?;
    expect_load(&rt, 17, 28_900_000_000, &[0, 1])?;
    expect_load(&rt, 18, 170_000_000_000_000, &[0])
}
