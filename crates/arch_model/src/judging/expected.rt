// Whether components and edges are those of types and links: each walk takes from a list what it
// must begin with.
ghost use Rattle.std.specs.Prelude.{◌≡◌, ◌↔◌, ◌++◌, List, ◌∷◌, IsTrue, IsSome, IfSome};
ghost use Rattle.arch_model.specs.Template.{components_of, instances_of_type, instances_of, edges_of, edges_of_link};
ghost use Rattle.arch_model.specs.Template.{instance_of_type, edge_of, edges_to};

use crate::library::{LinkRow, TypeRow};
use crate::template::{Component, Edge};

// Whether a component is instance `index` of type number t.
fn is_expected(component: &Component, t: usize, index: u32, row: &TypeRow) -> bool
    ensures { IsTrue result ↔ (component.now ≡ instance_of_type t row.now index) }
{
    if component.of as usize != t || component.index != index || component.role != row.role {
        return false;
    }
    if component.cost != row.cost || component.supply != row.supply {
        return false;
    }
    component.demand == row.demand && component.fail == row.fail
}

// What follows instance `index` of type number t, if a list begins with it.
fn after_instance<'a>(
    list: &'a [Component],
    t: usize,
    index: u32,
    row: &TypeRow,
) -> Option<&'a [Component]>
    ensures some { IfSome result (λ rest. list.now ≡ instance_of_type t row.now index ∷ rest.now) }
    ensures none { (rest : List Component) → list.now ≡ instance_of_type t row.now index ∷ rest → IsSome result }
{
    let (first, rest) = list.split_first()?;
    if is_expected(first, t, index, row) {
        Some(rest)
    } else {
        None
    }
}

// What follows the instances of type number t, if a list begins with them.
fn after_instances<'a>(list: &'a [Component], t: usize, row: &TypeRow) -> Option<&'a [Component]>
    ensures some { IfSome result (λ rest. list.now ≡ instances_of_type t row.now ++ rest.now) }
    ensures none { (rest : List Component) → list.now ≡ instances_of_type t row.now ++ rest → IsSome result }
{
    let mut rest = list;
    for i in 0..row.max {
        rest = after_instance(rest, t, i + 1, row)?;
    }
    Some(rest)
}

// What follows the instances of all types, if a list begins with them.
fn after_all<'a>(list: &'a [Component], types: &[TypeRow]) -> Option<&'a [Component]>
    ensures some { IfSome result (λ rest. list.now ≡ components_of types.now ++ rest.now) }
    ensures none { (rest : List Component) → list.now ≡ components_of types.now ++ rest → IsSome result }
{
    let mut rest = list;
    for (t, row) in types.iter().enumerate() {
        rest = after_instances(rest, t, row)?;
    }
    Some(rest)
}

// Whether some components are those of some types.
pub(super) fn are_components(components: &[Component], types: &[TypeRow]) -> bool
    ensures { IsTrue result ↔ (components.now ≡ components_of types.now) }
{
    match after_all(components, types) {
        Some(rest) => rest.is_empty(),
        None => false,
    }
}

// Whether an edge is that of a link between two components.
fn is_edge(edge: &Edge, link: &LinkRow, tail: usize, head: usize) -> bool
    ensures { IsTrue result ↔ (edge.now ≡ edge_of link.now tail head) }
{
    if edge.tail.0 as usize != tail || edge.head.0 as usize != head {
        return false;
    }
    edge.cost == link.cost && edge.fail == link.fail
}

// What follows the edge of a link between two components, if a list begins with it.
fn after_edge<'a>(list: &'a [Edge], link: &LinkRow, tail: usize, head: usize) -> Option<&'a [Edge]>
    ensures some { IfSome result (λ rest. list.now ≡ edge_of link.now tail head ∷ rest.now) }
    ensures none { (rest : List Edge) → list.now ≡ edge_of link.now tail head ∷ rest → IsSome result }
{
    let (first, rest) = list.split_first()?;
    if is_edge(first, link, tail, head) {
        Some(rest)
    } else {
        None
    }
}

// What follows the edges of a link that leave one component, if a list begins with them.
fn after_heads<'a>(
    list: &'a [Edge],
    components: &[Component],
    link: &LinkRow,
    tail: usize,
) -> Option<&'a [Edge]>
    ensures some { IfSome result (λ rest.
        list.now ≡ edges_to link.now tail (instances_of components.now link.now.to) ++ rest.now) }
    ensures none { (rest : List Edge)
        → list.now ≡ edges_to link.now tail (instances_of components.now link.now.to) ++ rest → IsSome result }
{
    let mut rest = list;
    for (head, component) in components.iter().enumerate() {
        if component.of == link.to && head != tail {
            rest = after_edge(rest, link, tail, head)?;
        }
    }
    Some(rest)
}

// What follows the edges of one link, if a list begins with them.
fn after_link<'a>(list: &'a [Edge], components: &[Component], link: &LinkRow) -> Option<&'a [Edge]>
    ensures some { IfSome result (λ rest. list.now ≡ edges_of_link components.now link.now ++ rest.now) }
    ensures none { (rest : List Edge) → list.now ≡ edges_of_link components.now link.now ++ rest → IsSome result }
{
    let mut rest = list;
    for (tail, component) in components.iter().enumerate() {
        if component.of == link.from {
            rest = after_heads(rest, components, link, tail)?;
        }
    }
    Some(rest)
}

// What follows the edges of all links, if a list begins with them.
fn after_links<'a>(
    list: &'a [Edge],
    components: &[Component],
    links: &[LinkRow],
) -> Option<&'a [Edge]>
    ensures some { IfSome result (λ rest. list.now ≡ edges_of components.now links.now ++ rest.now) }
    ensures none { (rest : List Edge) → list.now ≡ edges_of components.now links.now ++ rest → IsSome result }
{
    let mut rest = list;
    for link in links {
        rest = after_link(rest, components, link)?;
    }
    Some(rest)
}

// Whether some edges are those of some links between some components.
pub(super) fn are_edges(edges: &[Edge], components: &[Component], links: &[LinkRow]) -> bool
    ensures { IsTrue result ↔ (edges.now ≡ edges_of components.now links.now) }
{
    match after_links(edges, components, links) {
        Some(rest) => rest.is_empty(),
        None => false,
    }
}
