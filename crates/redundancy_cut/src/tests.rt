// Rows and tests of cuts of one small network, worked out by hand.
ghost use Rattle.std.specs.Prelude.{◌<◌};
ghost use Rattle.arch_model.specs.Name.{IsTypeName};

use crate::cut_row::{no_good_row, redundancy_row};
use crate::right::is_right_redundancy;
use arch_model::limits::{COMPONENTS, EDGES, MEMBERS};
use arch_model::{
    Architecture, CompId, CompSet, EdgeId, EdgeSet, Library, LinkRow, MemberSet, Memory, Name,
    Requirement, Role, TypeRow, VarId, is_library,
};
use rows::CutRow;
use std::alloc::Global;
use std::process::Abort;
use std::test::Fail;
use template::{expand, has_few_components};

// A type whose instances fail this often, in parts per million.
fn row(name: &str, role: Role, max: u32, fail: u32) -> TypeRow
    requires { IsTypeName name.now }
{
    TypeRow {
        name: Name::new(name),
        role,
        max,
        cost: 0,
        supply: 0,
        demand: 0,
        fail,
    }
}

fn link(from: u32, to: u32) -> LinkRow {
    LinkRow {
        from,
        to,
        cost: 0,
        fail: 0,
    }
}

// Two generators, two buses and a load: components 0 to 4. 5 to 8 are the edges from a generator to
// a bus, 9 and 10 those from a bus to the load. Edges never fail.
fn two_buses(rt: &(impl Abort + AllocGlobal)) -> Result<Library, Memory> {
    let alloc = rt.alloc();
    let types = [
        row("gen", Role::Source, 2, 1000),
        row("bus", Role::Middle, 2, 100),
        row("load", Role::Sink, 1, 100),
    ]
    .to_vec(alloc)?;
    let links = [link(0, 1), link(1, 2)].to_vec(alloc)?;
    assert!(rt; has_few_components(&types));
    let template = expand(alloc, &types, &links)?;
    let patterns = Vec::new(alloc);
    let requirements = Vec::new(alloc);
    assert!(rt; is_library(&types, &links, &template, &patterns, &requirements));
    Ok(Library::new(types, links, template, patterns, requirements))
}

fn comps(rt: &impl Abort, numbers: &[u32]) -> CompSet {
    let mut set = CompSet::new();
    for c in numbers {
        assert!(rt; (*c as usize) < COMPONENTS);
        set.put(CompId(*c));
    }
    set
}

fn edges(rt: &impl Abort, numbers: &[u32]) -> EdgeSet {
    let mut set = EdgeSet::new();
    for e in numbers {
        assert!(rt; (*e as usize) < EDGES);
        set.put(EdgeId(*e));
    }
    set
}

fn members(rt: &impl Abort, numbers: &[u32]) -> MemberSet {
    let mut set = MemberSet::new();
    for v in numbers {
        assert!(rt; (*v as usize) < MEMBERS);
        set.put(VarId(*v));
    }
    set
}

// A row as text, as in `+1*0 -1*2 >= 0`.
fn text_of(alloc: Global, row: &CutRow) -> Result<String, Memory> {
    let mut text = String::new(alloc);
    for v in 0..MEMBERS as u32 {
        let coef = row.coef(VarId(v));
        if coef != 0 {
            write!(text, "{coef:+}*{v} ")?;
        }
    }
    let least = row.least();
    write!(text, ">= {least}")?;
    Ok(text)
}

// The sources outside both, and the edges outside the set from a far component to one outside both.
#[test]
fn rows_of_redundancy_cuts(rt: HostRuntime) -> Result<(), Fail> {
    let lib = two_buses(&rt)?;
    let cases: [(&[u32], &[u32], &str); 4] = [
        (&[2], &[0, 1], "+1*6 +1*8 >= 1"),
        (&[2, 6], &[0, 1], "+1*8 >= 1"),
        (&[0], &[2, 3], "+1*1 +1*9 +1*10 >= 1"),
        // The sink is a member of the set, so nothing leads past it.
        (&[4], &[0, 1, 2, 3], ">= 1"),
    ];
    for (set, far, expected) in cases {
        let row = redundancy_row(&lib, &members(&rt, set), &comps(&rt, far));
        assert_eq!(rt; text_of(rt.alloc(), &row)?.as_str(), expected);
    }
    Ok(())
}

// The sources in the cone and the edges into it, with -1 where the candidate has them.
#[test]
fn rows_of_no_goods(rt: HostRuntime) -> Result<(), Fail> {
    let lib = two_buses(&rt)?;
    let cases: [(&[u32], &[u32], &[u32], &str); 2] = [
        (
            &[0, 2, 4],
            &[0, 2, 4],
            &[0, 4],
            "-1*0 -1*5 +1*7 -1*9 +1*10 >= -2",
        ),
        (&[4], &[4], &[], "+1*9 +1*10 >= 1"),
    ];
    for (cone, components, present, expected) in cases {
        let of = Architecture::new(comps(&rt, components), edges(&rt, present));
        let row = no_good_row(&lib, &comps(&rt, cone), &of);
        assert_eq!(rt; text_of(rt.alloc(), &row)?.as_str(), expected);
    }
    Ok(())
}

#[test]
fn a_redundancy_cut_is_right_or_not(rt: HostRuntime) -> Result<(), Fail> {
    let lib = two_buses(&rt)?;
    let cases: [(&[u32], &[u32], u64, bool); 8] = [
        (&[], &[0, 1, 2, 3], 999_999_999_999_999_999, true),
        (&[0], &[1, 3], 999_999_999_999_999, true),
        // A product that equals the bound isn't above it.
        (&[0], &[1, 3], 1_000_000_000_000_000, false),
        // An edge that never fails has the product 0.
        (&[5], &[0], 0, false),
        // The sink is far; a member of the set is.
        (&[], &[4], 0, false),
        (&[0], &[0], 0, false),
        // No member, and no component, has this number.
        (&[11], &[], 0, false),
        (&[], &[5], 0, false),
    ];
    for (set, far, bound, right) in cases {
        let r = Requirement {
            sink: CompId(4),
            bound,
        };
        let is = is_right_redundancy(&lib, &r, &members(&rt, set), &comps(&rt, far));
        assert_eq!(rt; is, right);
    }
    Ok(())
}
