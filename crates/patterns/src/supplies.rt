// Supplies and demands, and the kinds of pattern that rest on them.
ghost use Rattle.std.specs.Prelude.{◌≡◌, ◌≤◌, ◌↔◌, IsTrue, nat_eq, sum_by, if◌then◌else◌};
ghost use Rattle.arch_model.specs.Architecture.{present_components};
ghost use Rattle.arch_model.specs.Pattern as spec;
ghost use Rattle.patterns.specs.Inner.Sides as sides;

use crate::counts::is_present;
use crate::sides::Side;
use arch_model::{Architecture, CompId, Edge, EdgeId, Library};

// What an edge brings to component i, or asks of it, on its side.
fn flow(lib: &Library, edge: &Edge, side: Side, i: CompId) -> u64
    ensures { result ≡ (if nat_eq (sides.near side edge.now).0 i.0
        then sides.rated side lib.now (sides.far side edge.now).0 else 0) }
{
    if side.near(edge) == i {
        side.rating(lib, side.far(edge))
    } else {
        0
    }
}

// What the present edges on a side of component i bring to it, or ask of it.
fn flow_at(lib: &Library, arch: &Architecture, side: Side, i: CompId) -> u64
    ensures { result ≡ sides.flow_of side lib.now arch.now i.0 }
{
    let edges = lib.edges();
    let chosen = arch.edges();
    let mut total = 0;
    for (e, edge) in edges.iter().enumerate() {
        if chosen.has(EdgeId(e as u32)) {
            total += flow(lib, edge, side, i);
        }
    }
    total
}

// Whether at each present instance of a type what its in-edges bring is at least what its
// out-edges ask.
pub(crate) fn each_is_supplied(lib: &Library, arch: &Architecture, of: u32) -> bool
    ensures { IsTrue result ↔ spec.EachPresent lib.now arch.now of (λ i.
        sum_by (λ e. spec.at_component lib.now (λ c. c.demand) e.head.0) (spec.edges_out_of lib.now arch.now i)
        ≤ sum_by (λ e. spec.at_component lib.now (λ c. c.supply) e.tail.0) (spec.edges_into lib.now arch.now i)) }
{
    for i in 0..lib.components().len() as u32 {
        let i = CompId(i);
        if is_present(lib, arch, of, i)
            && flow_at(lib, arch, Side::Out, i) > flow_at(lib, arch, Side::In, i)
        {
            return false;
        }
    }
    true
}

// Whether the supply of all present components is at least their demand.
pub(crate) fn is_supplied(lib: &Library, arch: &Architecture) -> bool
    ensures { IsTrue result
        ↔ (sum_by (λ c. c.demand) (present_components lib.now arch.now) ≤ sum_by
        (λ c. c.supply) (present_components lib.now arch.now)) }
{
    let components = lib.components();
    let chosen = arch.comps();
    let mut supply = 0;
    let mut demand = 0;
    for (i, component) in components.iter().enumerate() {
        if chosen.has(CompId(i as u32)) {
            supply += component.supply;
            demand += component.demand;
        }
    }
    demand <= supply
}
