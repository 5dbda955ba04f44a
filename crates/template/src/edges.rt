// The edges of a library's links, and the template.
ghost use Rattle.std.specs.Prelude.{◌≡◌, ◌≤◌, ◌<◌, ◌++◌, ◌↔◌, IsTrue, IfOk, OnOk};
ghost use Rattle.std.specs.Prelude.{length};
ghost use Rattle.std.specs.List.{All, flat_map};
ghost use Rattle.arch_model.specs.Library.{IsTypeRow, IsLinkRow};
ghost use Rattle.arch_model.specs.Template.{template_of, components_of, instances_of, edges_to};
ghost use Rattle.arch_model.specs.Template.{edges_of_link, edges_of};

use crate::instances::{TYPES, components};
use arch_model::limits::{COMPONENTS, EDGES};
use arch_model::{CompId, Component, Edge, LinkRow, Memory, Template, TypeRow};
use std::alloc::Global;

// Appends the edges of a link that leave one component.
fn push_edges_from(
    edges: &mut Vec<Edge>,
    components: &[Component],
    link: &LinkRow,
    tail: u32,
) -> Result<(), Memory>
    requires { length components.now ≤ 64 }
    ensures { OnOk result (edges.new.items
        ≡ edges.old.items ++ edges_to link.now tail (instances_of components.now link.now.to)) }
{
    for (head, component) in components.iter().enumerate() {
        let head = head as u32;
        if component.of == link.to && head != tail {
            edges.push(Edge {
                tail: CompId(tail),
                head: CompId(head),
                cost: link.cost,
                fail: link.fail,
            })?;
        }
    }
    Ok(())
}

// Appends the edges of one link.
fn push_edges(edges: &mut Vec<Edge>, components: &[Component], link: &LinkRow) -> Result<(), Memory>
    requires { length components.now ≤ 64 }
    ensures { OnOk result (edges.new.items ≡ edges.old.items ++ edges_of_link components.now link.now) }
{
    for (tail, component) in components.iter().enumerate() {
        if component.of == link.from {
            push_edges_from(edges, components, link, tail as u32)?;
        }
    }
    Ok(())
}

// The edges of all links.
fn edges(alloc: Global, components: &[Component], links: &[LinkRow]) -> Result<Vec<Edge>, Memory>
    requires { length components.now ≤ 64 }
    ensures { IfOk result (λ v. v.items ≡ edges_of components.now links.now) }
{
    let mut edges = Vec::new(alloc);
    for link in links {
        push_edges(&mut edges, components, link)?;
    }
    Ok(edges)
}

/// The template of some types and links: types in order, then by index; links in order, then by
/// tail, then by head. `Memory` is want of memory alone.
pub fn expand(alloc: Global, types: &[TypeRow], links: &[LinkRow]) -> Result<Template, Memory>
    requires numbered { length types.now ≤ TYPES }
    requires few_components { length (components_of types.now) ≤ COMPONENTS }
    ensures { IfOk result (λ t. t ≡ template_of types.now links.now) }
{
    let components = components(alloc, types)?;
    let edges = edges(alloc, &components, links)?;
    Ok(Template::new(components, edges))
}

// The number of edges of one link.
fn edge_count(types: &[TypeRow], link: &LinkRow) -> usize
    requires rows { All IsTypeRow types.now }
    requires numbers { IsLinkRow (length types.now) link.now }
    ensures { result ≡ length (edges_of_link (components_of types.now) link.now) }
{
    let tails = types[link.from as usize].max as usize;
    let heads = types[link.to as usize].max as usize;
    if link.from == link.to {
        tails * (heads - 1)
    } else {
        tails * heads
    }
}

/// Whether some links have at most as many edges as a library may have.
pub fn has_few_edges(types: &[TypeRow], links: &[LinkRow]) -> bool
    requires rows { All IsTypeRow types.now }
    requires numbers { All (IsLinkRow (length types.now)) links.now }
    ensures { IsTrue result ↔ (length (edges_of (components_of types.now) links.now) ≤ EDGES) }
{
    let mut total = 0;
    for link in links {
        let count = edge_count(types, link);
        if count > EDGES - total {
            return false;
        }
        total += count;
    }
    true
}
