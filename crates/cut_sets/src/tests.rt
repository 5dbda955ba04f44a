// The sets of small networks, worked out by hand.
ghost use Rattle.arch_model.specs.Name.{IsTypeName};

use crate::CutSets;
use arch_model::{
    Architecture, CompId, CompSet, EdgeId, EdgeSet, Library, LinkRow, Name, Role, TypeRow, VarId,
    fits, is_library,
};
use std::process::Abort;
use std::test::Fail;
use template::{expand, has_few_components};

// A type of at most `max` instances, each of which fails `fail` times in a million.
fn row(name: &str, role: Role, max: u32, fail: u32) -> TypeRow
    requires { IsTypeName name.now }
{
    TypeRow {
        name: Name::new(name),
        role,
        max,
        cost: 0,
        supply: 0,
        demand: 0,
        fail,
    }
}

// A link by the numbers of its types, whose edges fail `fail` times in a million.
fn link(from: u32, to: u32, fail: u32) -> LinkRow {
    LinkRow {
        from,
        to,
        cost: 0,
        fail,
    }
}

// The library of some types and links.
fn library(
    rt: &(impl Abort + AllocGlobal),
    types: &[TypeRow],
    links: &[LinkRow],
) -> Result<Library, Fail> {
    let alloc = rt.alloc();
    let types = types.to_vec(alloc)?;
    let links = links.to_vec(alloc)?;
    assert!(rt; types.len() <= 64);
    assert!(rt; has_few_components(&types));
    let template = expand(alloc, &types, &links)?;
    let patterns = Vec::new(alloc);
    let requirements = Vec::new(alloc);
    assert!(rt; is_library(&types, &links, &template, &patterns, &requirements));
    Ok(Library::new(types, links, template, patterns, requirements))
}

// Some components.
fn comps(numbers: &[u32]) -> CompSet {
    let mut set = CompSet::new();
    for c in numbers {
        if *c < 64 {
            set.put(CompId(*c));
        }
    }
    set
}

// Some components and edges.
fn architecture(components: &[u32], edges: &[u32]) -> Architecture {
    let mut set = EdgeSet::new();
    for e in edges {
        if *e < 512 {
            set.put(EdgeId(*e));
        }
    }
    Architecture::new(comps(components), set)
}

// Whether members have these numbers.
fn are(members: &[VarId], numbers: &[u32]) -> bool {
    members.len() == numbers.len() && members.iter().zip(numbers).all(|(v, n)| v.0 == *n)
}

// Two generators, two buses and a load. Components 0 to 4 are gen.1, gen.2, bus.1, bus.2 and
// load.1. Edges 0 to 3 are from gen.1 to each bus and from gen.2 to each bus, and edges 4 and 5
// from each bus to the load; edge e is member 5 + e.
fn buses(rt: &(impl Abort + AllocGlobal)) -> Result<Library, Fail> {
    let types = [
        row("gen", Role::Source, 2, 1000),
        row("bus", Role::Middle, 2, 100),
        row("load", Role::Sink, 1, 0),
    ];
    library(rt, &types, &[link(0, 1, 0), link(1, 2, 0)])
}

// A source a that feeds the sink t, and a source c that feeds it through b1 and b2. Components 0 to
// 4 are a, c, b1, b2 and t. Edges are a to t, c to b1, b1 to b2 and b2 to t.
fn bypass(rt: &(impl Abort + AllocGlobal)) -> Result<Library, Fail> {
    let types = [
        row("a", Role::Source, 1, 200_000),
        row("c", Role::Source, 1, 0),
        row("b1", Role::Middle, 1, 600_000),
        row("b2", Role::Middle, 1, 600_000),
        row("t", Role::Sink, 1, 0),
    ];
    library(
        rt,
        &types,
        &[link(0, 4, 0), link(1, 2, 0), link(2, 3, 0), link(3, 4, 0)],
    )
}

// A source that feeds a sink.
fn pair(
    rt: &(impl Abort + AllocGlobal),
    source: u32,
    joined: u32,
    sink: u32,
) -> Result<Library, Fail> {
    let types = [
        row("s", Role::Source, 1, source),
        row("t", Role::Sink, 1, sink),
    ];
    library(rt, &types, &[link(0, 1, joined)])
}

// The components and edges of an architecture, and the sets of a sink in it.
#[derive(Drop)]
struct Case {
    comps: &'static [u32],
    edges: &'static [u32],
    sets: &'static [&'static [u32]],
}

// That exactly these sets come, in this order.
fn expect_sets(
    rt: &(impl Abort + AllocGlobal),
    lib: &Library,
    arch: &Architecture,
    sink: u32,
    sets: &[&'static [u32]],
) {
    assert!(rt; fits(lib, arch));
    let mut count = 0;
    for members in CutSets::new(rt.alloc(), lib, arch, CompId(sink)) {
        assert!(rt; count < sets.len());
        assert!(rt; are(members.as_slice(), sets[count]));
        count += 1;
    }
    assert_eq!(rt; count, sets.len());
}

fn expect(rt: &(impl Abort + AllocGlobal), lib: &Library, sink: u32, cases: &[Case]) {
    for case in cases {
        let arch = architecture(case.comps, case.edges);
        expect_sets(rt, lib, &arch, sink, case.sets);
    }
}

// That this is the only set.
fn expect_one(
    rt: &(impl Abort + AllocGlobal),
    lib: &Library,
    arch: &Architecture,
    sink: u32,
    set: &[u32],
) {
    assert!(rt; fits(lib, arch));
    let mut sets = CutSets::new(rt.alloc(), lib, arch, CompId(sink));
    match sets.next() {
        Some(members) => assert!(rt; are(members.as_slice(), set)),
        None => assert!(rt; false),
    }
    assert!(rt; sets.next().is_none());
}

#[test]
fn buses_have_sets_by_their_links(rt: HostRuntime) -> Result<(), Fail> {
    let cases = [
        Case {
            comps: &[0, 2, 4],
            edges: &[0, 4],
            sets: &[&[0], &[2]],
        },
        Case {
            comps: &[0, 2, 3, 4],
            edges: &[0, 1, 4, 5],
            sets: &[&[0], &[2, 3]],
        },
        Case {
            comps: &[0, 1, 2, 4],
            edges: &[0, 2, 4],
            sets: &[&[0, 1], &[2]],
        },
        Case {
            comps: &[0, 1, 2, 3, 4],
            edges: &[0, 3, 4, 5],
            sets: &[&[0, 1], &[0, 3], &[1, 2], &[2, 3]],
        },
        Case {
            comps: &[0, 1, 2, 3, 4],
            edges: &[0, 1, 3, 4, 5],
            sets: &[&[0, 1], &[0, 3], &[2, 3]],
        },
        Case {
            comps: &[0, 1, 2, 3, 4],
            edges: &[0, 1, 2, 3, 4, 5],
            sets: &[&[0, 1], &[2, 3]],
        },
        // a load that nothing reaches, and one that is absent
        Case {
            comps: &[4],
            edges: &[],
            sets: &[&[]],
        },
        Case {
            comps: &[0, 2],
            edges: &[0],
            sets: &[&[]],
        },
    ];
    expect(&rt, &buses(&rt)?, 4, &cases);
    Ok(())
}

#[test]
fn a_number_that_no_component_has_is_an_absent_sink(rt: HostRuntime) -> Result<(), Fail> {
    let none = [Case {
        comps: &[0, 2],
        edges: &[0],
        sets: &[&[]],
    }];
    expect(&rt, &buses(&rt)?, 63, &none);
    Ok(())
}

// That a source and the sink that it feeds have these sets.
fn expect_pair(
    rt: &(impl Abort + AllocGlobal),
    source: u32,
    joined: u32,
    sink: u32,
    sets: &'static [&'static [u32]],
) -> Result<(), Fail> {
    let lib = pair(rt, source, joined, sink)?;
    expect_sets(rt, &lib, &architecture(&[0, 1], &[0]), 1, sets);
    Ok(())
}

#[test]
fn whatever_may_fail_is_a_member(rt: HostRuntime) -> Result<(), Fail> {
    expect_pair(&rt, 1000, 0, 10, &[&[0], &[1]])?;
    expect_pair(&rt, 1000, 500, 0, &[&[0], &[2]])?;
    expect_pair(&rt, 1_000_000, 0, 0, &[&[0]])?;
    expect_pair(&rt, 0, 0, 0, &[])
}

// A source feeds eight buses, each of which feeds eight others, and these feed the sink. Only the
// 64 edges between the buses fail: as members they are 26 to 89.
#[test]
fn sixty_four_members_are_one_set(rt: HostRuntime) -> Result<(), Fail> {
    let types = [
        row("s", Role::Source, 1, 0),
        row("a", Role::Middle, 8, 0),
        row("b", Role::Middle, 8, 0),
        row("t", Role::Sink, 1, 0),
    ];
    let links = [link(0, 1, 0), link(1, 2, 1_000_000), link(2, 3, 0)];
    let lib = library(&rt, &types, &links)?;
    let mut comps = CompSet::new();
    for c in 0..18 {
        comps.put(CompId(c));
    }
    let mut edges = EdgeSet::new();
    for e in 0..80 {
        edges.put(EdgeId(e));
    }
    let mut between = [0; 64];
    for (i, v) in between.iter_mut().enumerate() {
        *v = 26 + i as u32;
    }
    expect_one(&rt, &lib, &Architecture::new(comps, edges), 17, &between);
    Ok(())
}

#[test]
fn sets_with_a_member_that_never_fails_are_left_out(rt: HostRuntime) -> Result<(), Fail> {
    let cases = [
        Case {
            comps: &[0, 4],
            edges: &[0],
            sets: &[&[0]],
        },
        Case {
            comps: &[1, 2, 3, 4],
            edges: &[1, 2, 3],
            sets: &[&[2], &[3]],
        },
        Case {
            comps: &[0, 1, 2, 3, 4],
            edges: &[0, 1, 2, 3],
            sets: &[&[0, 2], &[0, 3]],
        },
    ];
    expect(&rt, &bypass(&rt)?, 4, &cases);
    Ok(())
}

// Four sources that each feed a sink that never fails: all that stand are one set.
#[test]
fn sources_side_by_side_are_one_set(rt: HostRuntime) -> Result<(), Fail> {
    let types = [row("s", Role::Source, 4, 1), row("t", Role::Sink, 1, 0)];
    let cases = [
        Case {
            comps: &[0, 1, 2, 3, 4],
            edges: &[0, 1, 2, 3],
            sets: &[&[0, 1, 2, 3]],
        },
        Case {
            comps: &[0, 1, 2, 4],
            edges: &[0, 1, 2],
            sets: &[&[0, 1, 2]],
        },
    ];
    expect(&rt, &library(&rt, &types, &[link(0, 1, 0)])?, 4, &cases);
    Ok(())
}

// Two buses that feed each other, of which the generator feeds one and the load is fed by the
// other. Edges 4 and 5 join the buses.
#[test]
fn buses_in_a_circle_are_one_chain(rt: HostRuntime) -> Result<(), Fail> {
    let types = [
        row("gen", Role::Source, 1, 1000),
        row("bus", Role::Middle, 2, 100),
        row("load", Role::Sink, 1, 0),
    ];
    let lib = library(&rt, &types, &[link(0, 1, 0), link(1, 2, 0), link(1, 1, 0)])?;
    let circle = [Case {
        comps: &[0, 1, 2, 3],
        edges: &[0, 3, 4, 5],
        sets: &[&[0], &[1], &[2]],
    }];
    expect(&rt, &lib, 3, &circle);
    Ok(())
}

// Three layers of six, each linked to all of the next.
#[test]
fn dense_layers_are_their_own_sets(rt: HostRuntime) -> Result<(), Fail> {
    let types = [
        row("a", Role::Source, 6, 1000),
        row("b", Role::Middle, 6, 1000),
        row("c", Role::Middle, 6, 1000),
        row("t", Role::Sink, 1, 1),
    ];
    let lib = library(&rt, &types, &[link(0, 1, 0), link(1, 2, 0), link(2, 3, 0)])?;
    let mut comps = CompSet::new();
    for c in 0..19 {
        comps.put(CompId(c));
    }
    let mut edges = EdgeSet::new();
    for e in 0..78 {
        edges.put(EdgeId(e));
    }
    let layers: [&'static [u32]; 4] = [
        &[0, 1, 2, 3, 4, 5],
        &[6, 7, 8, 9, 10, 11],
        &[12, 13, 14, 15, 16, 17],
        &[18],
    ];
    expect_sets(&rt, &lib, &Architecture::new(comps, edges), 18, &layers);
    Ok(())
}
