// Components and edges by what people write of them.
ghost use Rattle.std.specs.Prelude.{◌≡◌, ◌≢◌, ◌<◌, ℕ, IfSome, IfNone, length, slice_get};
ghost use Rattle.std.specs.List.{All};
ghost use Rattle.std.specs.Option.{IsSomeAnd};
ghost use Rattle.template.specs.Names.{component_name};

use crate::names::index_in;
use arch_model::{CompId, EdgeId, Library};

/// The component of that name; none where no component has it.
pub fn find_component(lib: &Library, name: &str) -> Option<CompId>
    ensures found { IfSome result (λ c. (c.0 < length lib.now.components) × (component_name lib.now c.0 ≡ name.now)) }
    ensures none { IfNone result ((c : ℕ) → c < length lib.now.components → component_name lib.now c ≢ name.now) }
{
    let components = lib.components();
    let types = lib.types();
    for (c, component) in components.iter().enumerate() {
        let row = &types[component.of as usize];
        if index_in(name, row.name.text()) == Some(component.index as u64) {
            return Some(CompId(c as u32));
        }
    }
    None
}

/// The edge from one component to another; none where the template has no such edge.
pub fn find_edge(lib: &Library, tail: CompId, head: CompId) -> Option<EdgeId>
    ensures found { IfSome result
        (λ e. IsSomeAnd (slice_get lib.now.edges e.0) (λ edge. (edge.tail ≡ tail) × (edge.head ≡ head))) }
    ensures none { IfNone result (All (λ edge. edge.tail ≡ tail → edge.head ≢ head) lib.now.edges) }
{
    let edges = lib.edges();
    for (e, edge) in edges.iter().enumerate() {
        if edge.tail == tail && edge.head == head {
            return Some(EdgeId(e as u32));
        }
    }
    None
}
