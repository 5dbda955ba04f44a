// Templates and names worked out by hand.
ghost use Rattle.std.specs.Prelude.{◌≡◌, ◌≢◌, ◌≤◌, length};
ghost use Rattle.std.specs.List.{All, AllPairs};
ghost use Rattle.arch_model.specs.Name.{IsTypeName};
ghost use Rattle.arch_model.specs.Library.{IsTypeRow, IsLinkRow};

use crate::{
    expand, find_component, find_edge, has_few_components, has_few_edges, index_in, instance_name,
    name_of, push_name,
};
use arch_model::limits::FAILING;
use arch_model::{CompId, EdgeId, Library, LinkRow, Name, Role, Template, TypeRow};
use std::process::Abort;
use std::test::Fail;

// A type that costs, supplies and demands nothing and never fails.
fn row(name: &str, max: u32) -> TypeRow
    requires name { IsTypeName name.now }
    requires some { 1 ≤ max }
    requires few { max ≤ 64 }
    ensures range { IsTypeRow result }
    ensures name { result.name ≡ name.now }
{
    TypeRow {
        name: Name::new(name),
        role: Role::Middle,
        max,
        cost: 0,
        supply: 0,
        demand: 0,
        fail: 0,
    }
}

// A free link between two types.
fn link(from: u32, to: u32) -> LinkRow
    ensures from { result.from ≡ from }
    ensures to { result.to ≡ to }
    ensures cost { result.cost ≡ 0 }
    ensures fail { result.fail ≡ 0 }
{
    LinkRow {
        from,
        to,
        cost: 0,
        fail: 0,
    }
}

// That a template has some edges, each as tail and head.
fn expect_edges(rt: &impl Abort, template: &Template, want: &[(u32, u32)]) {
    assert_eq!(rt; template.edges().len(), want.len());
    for (edge, ends) in template.edges().iter().zip(want) {
        assert_eq!(rt; edge.tail, CompId(ends.0));
        assert_eq!(rt; edge.head, CompId(ends.1));
    }
}

// Two generators, two buses and a load. Components 0 to 4 are gen.1, gen.2, bus.1, bus.2 and
// load.1: each generator may feed each bus, and each bus the load.
#[test]
fn types_come_in_order_and_edges_by_link_tail_and_head(rt: HostRuntime) -> Result<(), Fail> {
    let types = [row("gen", 2), row("bus", 2), row("load", 1)];
    let links = [link(0, 1), link(1, 2)];
    assert!(rt; has_few_components(&types));
    assert!(rt; has_few_edges(&types, &links));
    let template = expand(rt.alloc(), &types, &links)?;
    assert_eq!(rt; template.components().len(), 5);
    let places = [(0, 1), (0, 2), (1, 1), (1, 2), (2, 1)];
    for (component, place) in template.components().iter().zip(&places) {
        assert_eq!(rt; component.of, place.0);
        assert_eq!(rt; component.index, place.1);
    }
    expect_edges(
        &rt,
        &template,
        &[(0, 2), (0, 3), (1, 2), (1, 3), (2, 4), (3, 4)],
    );
    Ok(())
}

#[test]
fn no_component_is_linked_to_itself(rt: HostRuntime) -> Result<(), Fail> {
    let types = [row("node", 3)];
    assert!(rt; has_few_components(&types));
    let template = expand(rt.alloc(), &types, &[link(0, 0)])?;
    expect_edges(
        &rt,
        &template,
        &[(0, 1), (0, 2), (1, 0), (1, 2), (2, 0), (2, 1)],
    );
    Ok(())
}

#[test]
fn edges_come_in_the_order_of_their_links(rt: HostRuntime) -> Result<(), Fail> {
    let types = [row("a", 1), row("b", 2)];
    assert!(rt; has_few_components(&types));
    let template = expand(rt.alloc(), &types, &[link(1, 0), link(0, 1)])?;
    expect_edges(&rt, &template, &[(1, 0), (2, 0), (0, 1), (0, 2)]);
    Ok(())
}

// 32 and 32 are 64 components. 16 times 32 are 512 edges, 27 times 19 are 513, and 23 instances
// linked among themselves have 23 times 22, 506.
#[test]
fn limits_are_met_exactly(rt: HostRuntime) {
    assert!(rt; has_few_components(&[row("a", 32), row("b", 32)]));
    assert!(rt; !has_few_components(&[row("a", 33), row("b", 32)]));
    assert!(rt; has_few_edges(&[row("a", 16), row("b", 32)], &[link(0, 1)]));
    assert!(rt; !has_few_edges(&[row("a", 27), row("b", 19)], &[link(0, 1)]));
    let types = [row("a", 23), row("b", 1), row("c", 6), row("d", 7)];
    assert!(rt; has_few_edges(&types, &[link(0, 0), link(1, 2)]));
    assert!(rt; !has_few_edges(&types, &[link(0, 0), link(1, 3)]));
}

// A library of types and links alone.
fn library(
    rt: &(impl Abort + AllocGlobal),
    types: Vec<TypeRow>,
    links: Vec<LinkRow>,
) -> Result<Library, Fail>
    requires types { All IsTypeRow types.items }
    requires names { AllPairs (λ a b. a.name ≢ b.name) types.items }
    requires links { All (IsLinkRow (length types.items)) links.items }
    requires pairs { AllPairs (λ a b. a.from ≡ b.from → a.to ≢ b.to) links.items }
{
    assert!(rt; types.len() <= 64);
    assert!(rt; has_few_components(&types));
    assert!(rt; has_few_edges(&types, &links));
    let template = expand(rt.alloc(), &types, &links)?;
    assert!(rt; template.components().len() + template.edges().len() <= FAILING);
    let patterns = Vec::new(rt.alloc());
    let requirements = Vec::new(rt.alloc());
    Ok(Library::new(types, links, template, patterns, requirements))
}

// Two of gen and twelve of bus, each linked to each.
fn two_types(rt: &(impl Abort + AllocGlobal)) -> Result<Library, Fail> {
    let types = Vec::from_array(rt.alloc(), [row("gen", 2), row("bus", 12)])?;
    let links = Vec::from_array(rt.alloc(), [link(0, 1)])?;
    library(rt, types, links)
}

// That a component has a name, alone and in a line.
fn expect_name(
    rt: &(impl Abort + AllocGlobal),
    lib: &Library,
    c: CompId,
    name: &str,
) -> Result<(), Fail> {
    assert!(rt; (c.0 as usize) < lib.components().len());
    assert_eq!(rt; name_of(rt.alloc(), lib, c)?.as_str(), name);
    let mut line = String::from_str(rt.alloc(), "")?;
    push_name(&mut line, lib, c)?;
    assert_eq!(rt; line.as_str(), name);
    Ok(())
}

#[test]
fn a_name_is_its_types_name_a_dot_and_an_index_from_1(rt: HostRuntime) -> Result<(), Fail> {
    let lib = two_types(&rt)?;
    expect_name(&rt, &lib, CompId(0), "gen.1")?;
    expect_name(&rt, &lib, CompId(13), "bus.12")
}

#[test]
fn a_component_is_found_by_its_name(rt: HostRuntime) -> Result<(), Fail> {
    let lib = two_types(&rt)?;
    let names = [
        ("bus.12", Some(CompId(13))),
        ("gen.0", None),
        ("gen.3", None),
        ("gen", None),
        ("gen.", None),
        ("gen.01", None),
        ("gen.+1", None),
        ("bus.012", None),
        ("bus.1.", None),
        ("us.1", None),
    ];
    for (name, place) in names {
        assert_eq!(rt; find_component(&lib, name), place, "{name}");
    }
    Ok(())
}

#[test]
fn an_index_may_be_past_the_types_max(rt: HostRuntime) -> Result<(), Fail> {
    assert_eq!(rt; index_in("bus.65", "bus"), Some(65));
    assert_eq!(rt; instance_name(rt.alloc(), "gen", 65)?.as_str(), "gen.65");
    Ok(())
}

#[test]
fn an_edge_is_found_by_its_ends_in_their_order(rt: HostRuntime) -> Result<(), Fail> {
    let types = Vec::from_array(rt.alloc(), [row("gen", 2), row("bus", 2)])?;
    let links = Vec::from_array(rt.alloc(), [link(0, 1)])?;
    let lib = library(&rt, types, links)?;
    assert_eq!(rt; find_edge(&lib, CompId(0), CompId(3)), Some(EdgeId(1)));
    assert_eq!(rt; find_edge(&lib, CompId(3), CompId(0)), None);
    assert_eq!(rt; find_edge(&lib, CompId(0), CompId(1)), None);
    Ok(())
}
