// Searches over three networks, worked out by hand.
ghost use Rattle.arch_model.specs.Name.{IsTypeName};

use crate::{ancestors, ancestors_over, links_of, parted, reach, reach_over};
use arch_model::{
    Architecture, CompId, CompSet, EdgeId, EdgeSet, Library, LinkRow, MemberSet, Name, Role,
    TypeRow, VarId, fits, is_library,
};
use std::process::Abort;
use std::test::Fail;
use template::{expand, has_few_components};

// A type of at most `max` instances, each of which fails `fail` times in a million.
fn row(name: &str, role: Role, max: u32, fail: u32) -> TypeRow
    requires { IsTypeName name.now }
{
    TypeRow {
        name: Name::new(name),
        role,
        max,
        cost: 0,
        supply: 0,
        demand: 0,
        fail,
    }
}

// The library of some types, and of links that are given by the numbers of their types.
fn library(
    rt: &(impl Abort + AllocGlobal),
    types: &[TypeRow],
    ends: &[(u32, u32)],
) -> Result<Library, Fail> {
    let alloc = rt.alloc();
    let mut links = Vec::new(alloc);
    for (from, to) in ends {
        links.push(LinkRow {
            from: *from,
            to: *to,
            cost: 0,
            fail: 0,
        })?;
    }
    let types = types.to_vec(alloc)?;
    assert!(rt; types.len() <= 64);
    assert!(rt; has_few_components(&types));
    let template = expand(alloc, &types, &links)?;
    let patterns = Vec::new(alloc);
    let requirements = Vec::new(alloc);
    assert!(rt; is_library(&types, &links, &template, &patterns, &requirements));
    Ok(Library::new(types, links, template, patterns, requirements))
}

// Some components.
fn comps(numbers: &[u32]) -> CompSet {
    let mut set = CompSet::new();
    for c in numbers {
        if *c < 64 {
            set.put(CompId(*c));
        }
    }
    set
}

// Some components and edges.
fn architecture(components: &[u32], edges: &[u32]) -> Architecture {
    let mut set = EdgeSet::new();
    for e in edges {
        if *e < 512 {
            set.put(EdgeId(*e));
        }
    }
    Architecture::new(comps(components), set)
}

// Failed members, and what is found then: the components that are reached, whether the sink is
// parted, and its ancestors.
#[derive(Drop)]
struct Case {
    failed: &'static [u32],
    reached: &'static [u32],
    parted: bool,
    above: &'static [u32],
}

// That searches find what they must, over the edges and over a table of them.
fn expect(rt: &impl Abort, lib: &Library, arch: &Architecture, sink: u32, cases: &[Case]) {
    assert!(rt; fits(lib, arch));
    assert!(rt; (sink as usize) < lib.components().len());
    for case in cases {
        let mut failed = MemberSet::new();
        for v in case.failed {
            if *v < 576 {
                failed.put(VarId(*v));
            }
        }
        assert!(rt; reach(lib, arch, failed) == comps(case.reached));
        assert_eq!(rt; parted(lib, arch, CompId(sink), failed), case.parted);
        assert!(rt; ancestors(lib, arch, CompId(sink), failed) == comps(case.above));
        let links = links_of(lib, arch, &failed);
        assert!(rt; reach_over(lib, arch, &links, &failed) == comps(case.reached));
        assert!(rt; ancestors_over(lib, arch, CompId(sink), &links, &failed) == comps(case.above));
        let left = links_of(lib, arch, &MemberSet::new()).without(lib, arch, &failed);
        assert!(rt; reach_over(lib, arch, &left, &failed) == comps(case.reached));
    }
}

// Two generators, two buses and a load. Components 0 to 4 are gen.1, gen.2, bus.1, bus.2 and
// load.1. Edges 0 to 3 are from gen.1 to each bus and from gen.2 to each bus, and edges 4 and 5
// from each bus to the load; as members they are 5 to 10. Here gen.1 feeds bus.1, and gen.2 feeds
// bus.2.
#[test]
fn two_chains_fail_one_by_one(rt: HostRuntime) -> Result<(), Fail> {
    let types = [
        row("gen", Role::Source, 2, 1000),
        row("bus", Role::Middle, 2, 100),
        row("load", Role::Sink, 1, 0),
    ];
    let lib = library(&rt, &types, &[(0, 1), (1, 2)])?;
    let arch = architecture(&[0, 1, 2, 3, 4], &[0, 3, 4, 5]);
    let cases = [
        Case {
            failed: &[],
            reached: &[0, 1, 2, 3, 4],
            parted: false,
            above: &[0, 1, 2, 3, 4],
        },
        Case {
            failed: &[0, 3],
            reached: &[1],
            parted: true,
            above: &[2, 4],
        },
        Case {
            failed: &[9],
            reached: &[0, 1, 2, 3, 4],
            parted: false,
            above: &[1, 3, 4],
        },
        Case {
            failed: &[0, 10],
            reached: &[1, 3],
            parted: true,
            above: &[2, 4],
        },
        Case {
            failed: &[4],
            reached: &[0, 1, 2, 3],
            parted: true,
            above: &[],
        },
    ];
    expect(&rt, &lib, &arch, 4, &cases);
    step(&rt, &lib, &arch);
    Ok(())
}

// One step down and up the two chains, over a table of their edges.
fn step(rt: &impl Abort, lib: &Library, arch: &Architecture) {
    assert!(rt; fits(lib, arch));
    let links = links_of(lib, arch, &MemberSet::new());
    assert!(rt; links.heads(arch, &comps(&[0, 3])) == comps(&[2, 4]));
    assert!(rt; links.tails(arch, &comps(&[2, 4])) == comps(&[0, 2, 3]));
}

// A source a that feeds the sink t, and a source c that feeds it through b1 and b2. Components 0 to
// 4 are a, c, b1, b2 and t. Edges are a to t, c to b1, b1 to b2 and b2 to t, as members 5 to 8.
#[test]
fn a_long_chain_is_walked_to_its_end(rt: HostRuntime) -> Result<(), Fail> {
    let types = [
        row("a", Role::Source, 1, 200_000),
        row("c", Role::Source, 1, 0),
        row("b1", Role::Middle, 1, 600_000),
        row("b2", Role::Middle, 1, 600_000),
        row("t", Role::Sink, 1, 0),
    ];
    let lib = library(&rt, &types, &[(0, 4), (1, 2), (2, 3), (3, 4)])?;
    let arch = architecture(&[0, 1, 2, 3, 4], &[0, 1, 2, 3]);
    let cases = [
        Case {
            failed: &[0],
            reached: &[1, 2, 3, 4],
            parted: false,
            above: &[1, 2, 3, 4],
        },
        Case {
            failed: &[0, 3],
            reached: &[1, 2],
            parted: true,
            above: &[4],
        },
        Case {
            failed: &[5],
            reached: &[0, 1, 2, 3, 4],
            parted: false,
            above: &[1, 2, 3, 4],
        },
        Case {
            failed: &[7],
            reached: &[0, 1, 2, 4],
            parted: false,
            above: &[0, 3, 4],
        },
        Case {
            failed: &[5, 7],
            reached: &[0, 1, 2],
            parted: true,
            above: &[3, 4],
        },
    ];
    expect(&rt, &lib, &arch, 4, &cases);
    let alone = architecture(&[1, 2, 3], &[1, 2]);
    let absent = [Case {
        failed: &[],
        reached: &[1, 2, 3],
        parted: true,
        above: &[4],
    }];
    expect(&rt, &lib, &alone, 4, &absent);
    Ok(())
}

// The types of an aircraft's power network with a left, right, auxiliary and emergency side:
// generators 0 to 3, then buses 4 to 7, converters 8 to 11, buses 12 to 15 behind them, and the
// loads flight, avionics and cabin 16 to 18.
fn aircraft_types() -> [TypeRow; 19] {
    [
        row("lgen", Role::Source, 1, 100),
        row("rgen", Role::Source, 1, 100),
        row("apu", Role::Source, 1, 500),
        row("rat", Role::Source, 1, 2000),
        row("lac", Role::Middle, 1, 10),
        row("rac", Role::Middle, 1, 10),
        row("sac", Role::Middle, 1, 10),
        row("eac", Role::Middle, 1, 10),
        row("ltru", Role::Middle, 1, 50),
        row("rtru", Role::Middle, 1, 50),
        row("stru", Role::Middle, 1, 50),
        row("etru", Role::Middle, 1, 50),
        row("ldc", Role::Middle, 1, 10),
        row("rdc", Role::Middle, 1, 10),
        row("sdc", Role::Middle, 1, 10),
        row("edc", Role::Middle, 1, 10),
        row("flight", Role::Sink, 1, 0),
        row("avionics", Role::Sink, 1, 0),
        row("cabin", Role::Sink, 1, 0),
    ]
}

// The left, right and emergency sides stand. Edge e is member 19 + e: edges 0 to 11 lead down the
// four sides, 12 to 15 from them to flight, 16 and 17 from left and right to avionics, 18 and 19
// from left and auxiliary to cabin.
#[test]
fn an_aircraft_flies_on_its_emergency_side(rt: HostRuntime) -> Result<(), Fail> {
    let links = [
        (0, 4),
        (1, 5),
        (2, 6),
        (3, 7),
        (4, 8),
        (5, 9),
        (6, 10),
        (7, 11),
        (8, 12),
        (9, 13),
        (10, 14),
        (11, 15),
        (12, 16),
        (13, 16),
        (14, 16),
        (15, 16),
        (12, 17),
        (13, 17),
        (12, 18),
        (14, 18),
    ];
    let lib = library(&rt, &aircraft_types(), &links)?;
    let arch = architecture(
        &[0, 1, 3, 4, 5, 7, 8, 9, 11, 12, 13, 15, 16, 17, 18],
        &[0, 1, 3, 4, 5, 7, 8, 9, 11, 12, 13, 15, 16, 17, 18],
    );
    let flight = [
        Case {
            failed: &[],
            reached: &[0, 1, 3, 4, 5, 7, 8, 9, 11, 12, 13, 15, 16, 17, 18],
            parted: false,
            above: &[0, 1, 3, 4, 5, 7, 8, 9, 11, 12, 13, 15, 16],
        },
        Case {
            failed: &[0, 9],
            reached: &[1, 3, 5, 7, 11, 15, 16],
            parted: false,
            above: &[3, 4, 7, 8, 11, 12, 13, 15, 16],
        },
        Case {
            failed: &[5, 8, 34],
            reached: &[0, 1, 3, 4, 7, 11, 15],
            parted: true,
            above: &[9, 12, 13, 16],
        },
    ];
    expect(&rt, &lib, &arch, 16, &flight);
    let cabin = [
        Case {
            failed: &[3, 13],
            reached: &[0, 1, 4, 5, 8, 9, 12, 16, 17, 18],
            parted: false,
            above: &[0, 4, 8, 12, 18],
        },
        Case {
            failed: &[37],
            reached: &[0, 1, 3, 4, 5, 7, 8, 9, 11, 12, 13, 15, 16, 17],
            parted: true,
            above: &[18],
        },
    ];
    expect(&rt, &lib, &arch, 18, &cabin);
    Ok(())
}
