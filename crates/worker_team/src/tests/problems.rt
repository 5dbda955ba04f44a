// Problems of small libraries.
ghost use Rattle.arch_model.specs.Name.{IsTypeName};

use arch_model::{
    CompId, Library, LinkRow, Memory, Name, Pattern, Requirement, Role, TypeRow, is_library,
};
use binary_program::problem_of;
use rows::Problem;
use std::process::Abort;
use template::{expand, has_few_components};

// The problem of a library.
fn problem(
    rt: &(impl Abort + AllocGlobal),
    types: &[TypeRow],
    links: &[LinkRow],
    patterns: &[Pattern],
    requirements: &[Requirement],
) -> Result<Problem, Memory> {
    let alloc = rt.alloc();
    let types = types.to_vec(alloc)?;
    let links = links.to_vec(alloc)?;
    assert!(rt; types.len() <= 64);
    assert!(rt; has_few_components(&types));
    let template = expand(alloc, &types, &links)?;
    let patterns = patterns.to_vec(alloc)?;
    let requirements = requirements.to_vec(alloc)?;
    assert!(rt; is_library(&types, &links, &template, &patterns, &requirements));
    problem_of(
        alloc,
        Library::new(types, links, template, patterns, requirements),
    )
}

// A type that fails this often, in parts per million.
fn row(name: &str, role: Role, max: u32, cost: u64, fail: u32) -> TypeRow
    requires { IsTypeName name.now }
{
    TypeRow {
        name: Name::new(name),
        role,
        max,
        cost,
        supply: 0,
        demand: 0,
        fail,
    }
}

// A link whose edges have this cost and never fail.
fn link(from: u32, to: u32, cost: u64) -> LinkRow {
    LinkRow {
        from,
        to,
        cost,
        fail: 0,
    }
}

// This many instances of a type at least.
fn count(of: u32, min: u32) -> Pattern {
    Pattern::Count { of, min, max: None }
}

// An edge from an instance of the one type into each of the other.
fn fed(of: u32, from: u32) -> Pattern {
    Pattern::InDegree {
        of,
        from,
        min: 1,
        max: None,
    }
}

// A component of cost 7 that must be present.
pub(crate) fn one_alone(rt: &(impl Abort + AllocGlobal)) -> Result<Problem, Memory> {
    let types = [row("x", Role::Middle, 1, 7, 0)];
    problem(rt, &types, &[], &[count(0, 1)], &[])
}

// Two sources of cost 3, of which one at least is present.
pub(crate) fn one_of_two(rt: &(impl Abort + AllocGlobal)) -> Result<Problem, Memory> {
    let types = [row("p", Role::Source, 2, 3, 0)];
    problem(rt, &types, &[], &[count(0, 1)], &[])
}

// Twelve types of two sources of cost 10, of each type at least one.
pub(crate) fn twelve_types(rt: &(impl Abort + AllocGlobal)) -> Result<Problem, Memory> {
    let types = [
        row("a", Role::Source, 2, 10, 0),
        row("b", Role::Source, 2, 10, 0),
        row("c", Role::Source, 2, 10, 0),
        row("d", Role::Source, 2, 10, 0),
        row("e", Role::Source, 2, 10, 0),
        row("f", Role::Source, 2, 10, 0),
        row("g", Role::Source, 2, 10, 0),
        row("h", Role::Source, 2, 10, 0),
        row("i", Role::Source, 2, 10, 0),
        row("j", Role::Source, 2, 10, 0),
        row("k", Role::Source, 2, 10, 0),
        row("l", Role::Source, 2, 10, 0),
    ];
    let mut patterns = Vec::new(rt.alloc());
    for of in 0..12 {
        patterns.push(count(of, 1))?;
    }
    problem(rt, &types, &[], &patterns, &[])
}

// Two sources of cost 10 that fail once in a thousand times, and twelve sinks, each of which may be
// cut off from both once in a million times. An edge costs 1.
pub(crate) fn twelve_sinks(rt: &(impl Abort + AllocGlobal)) -> Result<Problem, Memory> {
    let types = [
        row("s", Role::Source, 2, 10, 1000),
        row("t", Role::Sink, 12, 0, 0),
    ];
    let mut requirements = Vec::new(rt.alloc());
    for sink in 2..14 {
        requirements.push(Requirement {
            sink: CompId(sink),
            bound: 1_000_000_000_000,
        })?;
    }
    problem(rt, &types, &[link(0, 1, 1)], &[], &requirements)
}

// Generators, buses and a load, whose weight is bounded, in units of 10^-18.
pub(crate) fn chains(rt: &(impl Abort + AllocGlobal), bound: u64) -> Result<Problem, Memory> {
    let types = [
        row("gen", Role::Source, 2, 100, 1000),
        row("bus", Role::Middle, 2, 20, 100),
        row("load", Role::Sink, 1, 0, 0),
    ];
    let requirements = [Requirement {
        sink: CompId(4),
        bound,
    }];
    problem(
        rt,
        &types,
        &[link(0, 1, 5), link(1, 2, 5)],
        &[],
        &requirements,
    )
}

// A source on its own beside one that needs two more components. With all of them the sink weighs
// more than with the first alone, and more than it may.
pub(crate) fn side_way(rt: &(impl Abort + AllocGlobal)) -> Result<Problem, Memory> {
    let types = [
        row("a", Role::Source, 1, 10, 200_000),
        row("c", Role::Source, 1, 1, 0),
        row("b1", Role::Middle, 1, 1, 600_000),
        row("b2", Role::Middle, 1, 1, 600_000),
        row("t", Role::Sink, 1, 0, 0),
    ];
    let links = [link(0, 4, 0), link(1, 2, 0), link(2, 3, 0), link(3, 4, 0)];
    let requirements = [Requirement {
        sink: CompId(4),
        bound: 220_000_000_000_000_000,
    }];
    problem(rt, &types, &links, &[], &requirements)
}

// A component of a network of two buses, with what it supplies and what it demands.
fn powered(name: &str, role: Role, max: u32, supply: u64, demand: u64) -> TypeRow
    requires { IsTypeName name.now }
{
    let mut powered = row(name, role, max, 0, 0);
    powered.supply = supply;
    powered.demand = demand;
    powered
}

// Three generators that supply 2 each, and two buses that each serve a load of 3. An edge from a
// generator to a bus costs 10, and all else nothing: each bus needs two of its three.
pub(crate) fn two_buses(rt: &(impl Abort + AllocGlobal)) -> Result<Problem, Memory> {
    let types = [
        powered("gen", Role::Source, 3, 2, 0),
        powered("bus1", Role::Middle, 1, 0, 0),
        powered("bus2", Role::Middle, 1, 0, 0),
        powered("load1", Role::Sink, 1, 0, 3),
        powered("load2", Role::Sink, 1, 0, 3),
    ];
    let links = [link(0, 1, 10), link(0, 2, 10), link(1, 3, 0), link(2, 4, 0)];
    let patterns = [
        count(0, 3),
        count(3, 1),
        count(4, 1),
        fed(3, 1),
        fed(4, 2),
        Pattern::LocalSupply { of: 1 },
        Pattern::LocalSupply { of: 2 },
    ];
    problem(rt, &types, &links, &patterns, &[])
}

// A type of one instance, of a network that is fed from four sides.
fn part(name: &str, role: Role, cost: u64, supply: u64, fail: u32) -> TypeRow
    requires { IsTypeName name.now }
{
    let mut part = row(name, role, 1, cost, fail);
    part.supply = supply;
    part
}

// A sink that demands 30.
fn consumer(name: &str) -> TypeRow
    requires { IsTypeName name.now }
{
    let mut consumer = row(name, Role::Sink, 1, 0, 0);
    consumer.demand = 30;
    consumer
}

fn aircraft_types() -> [TypeRow; 19] {
    [
        part("lgen", Role::Source, 100, 100, 100),
        part("rgen", Role::Source, 100, 100, 100),
        part("apu", Role::Source, 60, 60, 500),
        part("rat", Role::Source, 30, 10, 2000),
        part("lac", Role::Middle, 10, 0, 10),
        part("rac", Role::Middle, 10, 0, 10),
        part("sac", Role::Middle, 10, 0, 10),
        part("eac", Role::Middle, 10, 0, 10),
        part("ltru", Role::Middle, 20, 0, 50),
        part("rtru", Role::Middle, 20, 0, 50),
        part("stru", Role::Middle, 20, 0, 50),
        part("etru", Role::Middle, 20, 0, 50),
        part("ldc", Role::Middle, 10, 0, 10),
        part("rdc", Role::Middle, 10, 0, 10),
        part("sdc", Role::Middle, 10, 0, 10),
        part("edc", Role::Middle, 10, 0, 10),
        consumer("flight"),
        consumer("avionics"),
        consumer("cabin"),
    ]
}

// The four sides, on each of them a source, an AC bus, a rectifier and a DC bus, and what these feed.
fn aircraft_links() -> [LinkRow; 20] {
    [
        link(0, 4, 1),
        link(1, 5, 1),
        link(2, 6, 1),
        link(3, 7, 1),
        link(4, 8, 1),
        link(5, 9, 1),
        link(6, 10, 1),
        link(7, 11, 1),
        link(8, 12, 1),
        link(9, 13, 1),
        link(10, 14, 1),
        link(11, 15, 1),
        link(12, 16, 1),
        link(13, 16, 1),
        link(14, 16, 1),
        link(15, 16, 1),
        link(12, 17, 1),
        link(13, 17, 1),
        link(12, 18, 1),
        link(14, 18, 1),
    ]
}

// The power supply of an aircraft with a left, a right, an auxiliary and an emergency side, whose
// flight controls, avionics and cabin have bounds.
pub(crate) fn aircraft(rt: &(impl Abort + AllocGlobal)) -> Result<Problem, Memory> {
    let mut patterns = Vec::new(rt.alloc());
    for of in 4..16 {
        patterns.push(fed(of, of - 4))?;
    }
    patterns.push(Pattern::TotalSupply)?;
    let requirements = [
        Requirement {
            sink: CompId(16),
            bound: 100_000_000,
        },
        Requirement {
            sink: CompId(17),
            bound: 50_000_000_000_000,
        },
        Requirement {
            sink: CompId(18),
            bound: 1_000_000_000_000_000,
        },
    ];
    problem(
        rt,
        &aircraft_types(),
        &aircraft_links(),
        &patterns,
        &requirements,
    )
}
