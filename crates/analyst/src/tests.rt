// Cuts that candidates of one small network are given, worked out by hand.
ghost use Rattle.std.specs.Prelude.{◌<◌};
ghost use Rattle.arch_model.specs.Name.{IsTypeName};

use crate::choosing::chosen_cut;
use arch_model::limits::{COMPONENTS, EDGES};
use arch_model::{
    Architecture, CompId, CompSet, EdgeId, EdgeSet, Library, LinkRow, Memory, Name, Requirement,
    Role, TypeRow, fits, is_library,
};
use redundancy_cut::Cut;
use std::alloc::Global;
use std::process::Abort;
use std::test::Fail;
use template::{expand, has_few_components};

// A type of two instances that fail this often, in parts per million.
fn row(name: &str, role: Role, fail: u32) -> TypeRow
    requires { IsTypeName name.now }
{
    TypeRow {
        name: Name::new(name),
        role,
        max: 2,
        cost: 0,
        supply: 0,
        demand: 0,
        fail,
    }
}

fn link(from: u32, to: u32) -> LinkRow {
    LinkRow {
        from,
        to,
        cost: 0,
        fail: 0,
    }
}

// The requirement that a load weighs at most a bound.
fn at_most(load: u32, bound: u64) -> Requirement {
    Requirement {
        sink: CompId(load),
        bound,
    }
}

// Two generators, 0 and 1, two buses, 2 and 3, and two loads, 4 and 5. The edges 0 to 3 lead from a
// generator to a bus, and 4 to 7 from a bus to a load. Generators fail with 1000 ppm, edges never.
fn network(
    rt: &(impl Abort + AllocGlobal),
    bus_fail: u32,
    load_fail: u32,
    bounds: (u64, u64),
) -> Result<Library, Memory> {
    let alloc = rt.alloc();
    let types = [
        row("gen", Role::Source, 1000),
        row("bus", Role::Middle, bus_fail),
        row("load", Role::Sink, load_fail),
    ]
    .to_vec(alloc)?;
    let links = [link(0, 1), link(1, 2)].to_vec(alloc)?;
    assert!(rt; has_few_components(&types));
    let template = expand(alloc, &types, &links)?;
    let patterns = Vec::new(alloc);
    let requirements = [at_most(4, bounds.0), at_most(5, bounds.1)].to_vec(alloc)?;
    assert!(rt; is_library(&types, &links, &template, &patterns, &requirements));
    Ok(Library::new(types, links, template, patterns, requirements))
}

// The architecture of some components and edges.
fn arch(rt: &impl Abort, components: &[u32], edges: &[u32]) -> Architecture {
    let mut comps = CompSet::new();
    for c in components {
        assert!(rt; (*c as usize) < COMPONENTS);
        comps.put(CompId(*c));
    }
    let mut set = EdgeSet::new();
    for e in edges {
        assert!(rt; (*e as usize) < EDGES);
        set.put(EdgeId(*e));
    }
    Architecture::new(comps, set)
}

fn push_components(text: &mut String, set: &CompSet) -> Result<(), Memory> {
    for c in set.members() {
        let number = c.0;
        write!(text, " {number}")?;
    }
    Ok(())
}

// A cut as text: its kind, its requirement, its members and its components.
fn text_of(alloc: Global, cut: &Option<Cut>) -> Result<String, Memory> {
    let mut text = String::new(alloc);
    match cut {
        None => text.push_str("none")?,
        Some(
            Cut::Redundancy {
                requirement,
                set,
                far,
            },
        ) => {
            write!(text, "redundancy {requirement}")?;
            for v in set.members() {
                let number = v.0;
                write!(text, " {number}")?;
            }
            text.push_str(" far")?;
            push_components(&mut text, far)?;
        }
        Some(Cut::NoGood { requirement, cone }) => {
            write!(text, "nogood {requirement}")?;
            push_components(&mut text, cone)?;
        }
    }
    Ok(text)
}

const WHOLE: u64 = 1_000_000_000_000_000_000;

const CHAIN: u64 = 1_100_000_000_000_000;

// One chain of gen.1 and bus.1 to both loads, where a set alone is above a bound, and where none is.
#[test]
fn cuts_of_one_chain(rt: HostRuntime) -> Result<(), Fail> {
    let cases: [(u32, u32, (u64, u64), &str); 8] = [
        // Equality is admitted.
        (100, 0, (CHAIN, CHAIN), "none"),
        // Generator and bus are above the bound together.
        (100, 0, (CHAIN - 1, CHAIN - 1), "nogood 0 0 2 4"),
        (100, 0, (CHAIN, CHAIN - 1), "nogood 1 0 2 5"),
        // The generator alone is; what doesn't reach the load past it is far.
        (
            100,
            0,
            (500_000_000_000_000, WHOLE),
            "redundancy 0 0 far 1 3 5",
        ),
        // The first requirement is broken by its sum alone, the second by one set.
        (
            100,
            0,
            (CHAIN - 1, 500_000_000_000_000),
            "redundancy 1 0 far 1 3 4",
        ),
        // Of sets of one product the least is the heaviest.
        (
            1000,
            0,
            (500_000_000_000_000, WHOLE),
            "redundancy 0 0 far 1 3 5",
        ),
        // The load itself is the heaviest set: nothing outside it reaches it.
        (
            100,
            2000,
            (1_500_000_000_000_000, WHOLE),
            "redundancy 0 4 far 0 1 2 3 5",
        ),
        (
            100,
            2000,
            (WHOLE, 1_500_000_000_000_000),
            "redundancy 1 5 far 0 1 2 3 4",
        ),
    ];
    let chain = arch(&rt, &[0, 2, 4, 5], &[0, 4, 5]);
    for (bus_fail, load_fail, bounds, expected) in cases {
        let lib = network(&rt, bus_fail, load_fail, bounds)?;
        assert!(rt; fits(&lib, &chain));
        let cut = chosen_cut(rt.alloc(), &lib, &chain);
        assert_eq!(rt; text_of(rt.alloc(), &cut)?.as_str(), expected);
    }
    Ok(())
}

// Loads that nothing feeds: the empty set parts them, and all that doesn't reach them is far.
#[test]
fn the_cut_of_an_unconnected_load(rt: HostRuntime) -> Result<(), Fail> {
    let lib = network(&rt, 100, 0, (WHOLE - 1, WHOLE))?;
    let loads = arch(&rt, &[4, 5], &[]);
    assert!(rt; fits(&lib, &loads));
    let cut = chosen_cut(rt.alloc(), &lib, &loads);
    assert_eq!(rt;
        text_of(rt.alloc(), &cut)?.as_str(),
        "redundancy 0 far 0 1 2 3 5"
    );
    Ok(())
}
