// Degrees of components over the present edges, and the kinds of pattern that rest on them.
ghost use Rattle.std.specs.Prelude.{◌≡◌, ◌≢◌, ◌<◌, ◌≤◌, ◌&&◌, ◌||◌, not, ◌↔◌, IsTrue, nat_eq, length};
ghost use Rattle.std.specs.List.{All};
ghost use Rattle.arch_model.specs.Architecture.{present_edges};
ghost use Rattle.arch_model.specs.Pattern as spec;
ghost use Rattle.arch_model.specs.Set as set;
ghost use Rattle.patterns.specs.Inner.Sides as sides;

use crate::counts::{is_between, is_present};
use crate::sides::Side;
use arch_model::{Architecture, CompId, Edge, EdgeId, EdgeSet, Library, is_instance};

// Whether an edge joins component i on its side to an instance of type t.
fn joins(lib: &Library, edge: &Edge, side: Side, t: u32, i: CompId) -> bool
    ensures { result
        ≡ (nat_eq (sides.near side edge.now).0 i.0 && spec.is_instance lib.now t (sides.far side edge.now).0) }
{
    side.near(edge) == i && is_instance(lib, t, side.far(edge))
}

// How many present edges join component i on its side to instances of type t.
fn degree(lib: &Library, arch: &Architecture, side: Side, t: u32, i: CompId) -> usize
    ensures { result ≡ sides.degree_of side lib.now arch.now t i.0 }
{
    let edges = lib.edges();
    let chosen = arch.edges();
    let mut total = 0;
    for (e, edge) in edges.iter().enumerate() {
        if chosen.has(EdgeId(e as u32)) {
            total += usize::from(joins(lib, edge, side, t, i));
        }
    }
    total
}

// Whether each present instance of a type has a number in range of present edges that join it on
// that side to instances of another.
pub(crate) fn degrees_fit(
    lib: &Library,
    arch: &Architecture,
    side: Side,
    of: u32,
    other: u32,
    min: u32,
    max: Option<u32>,
) -> bool
    ensures { IsTrue result ↔ spec.EachPresent lib.now arch.now of
        (λ i. spec.IsBetween min max (sides.degree_of side lib.now arch.now other i)) }
{
    for i in 0..lib.components().len() as u32 {
        let i = CompId(i);
        if is_present(lib, arch, of, i)
            && !is_between(min, max, degree(lib, arch, side, other, i))
        {
            return false;
        }
    }
    true
}

// Whether each instance with a present edge from one type has one to another.
pub(crate) fn inputs_have_outputs(
    lib: &Library,
    arch: &Architecture,
    of: u32,
    from: u32,
    to: u32,
) -> bool
    ensures { IsTrue result ↔ spec.EachInstance lib.now of
        (λ i. 0 < spec.in_degree lib.now arch.now from i → 0 < spec.out_degree lib.now arch.now to i) }
{
    for i in 0..lib.components().len() as u32 {
        let i = CompId(i);
        if is_instance(lib, of, i)
            && degree(lib, arch, Side::In, from, i) > 0
            && degree(lib, arch, Side::Out, to, i) == 0
        {
            return false;
        }
    }
    true
}

// Whether no instance has present edges both from an instance of a and from one of b.
pub(crate) fn inputs_exclude(lib: &Library, arch: &Architecture, of: u32, a: u32, b: u32) -> bool
    ensures { IsTrue result ↔ spec.EachInstance lib.now of
        (λ i. 0 < spec.in_degree lib.now arch.now a i → spec.in_degree lib.now arch.now b i ≡ 0) }
{
    for i in 0..lib.components().len() as u32 {
        let i = CompId(i);
        if is_instance(lib, of, i)
            && degree(lib, arch, Side::In, a, i) > 0
            && degree(lib, arch, Side::In, b, i) > 0
        {
            return false;
        }
    }
    true
}

// Whether an edge is absent, or goes elsewhere than from one component to another.
fn is_allowed(edge: &Edge, chosen: &EdgeSet, e: u32, tail: CompId, head: CompId) -> bool
    ensures { result
        ≡ (not (set.has chosen.now e) || not (nat_eq edge.now.tail.0 tail.0 && nat_eq edge.now.head.0 head.0)) }
{
    !chosen.has(EdgeId(e)) || !(edge.tail == tail && edge.head == head)
}

// Whether no present edge goes from one component to another.
pub(crate) fn none_goes(lib: &Library, arch: &Architecture, tail: CompId, head: CompId) -> bool
    ensures { IsTrue result ↔ All (λ e. (e.tail ≡ tail) → (e.head ≢ head)) (present_edges lib.now arch.now) }
{
    let edges = lib.edges();
    let chosen = arch.edges();
    let mut none = true;
    for (e, edge) in edges.iter().enumerate() {
        if !is_allowed(edge, &chosen, e as u32, tail, head) {
            none = false;
        }
    }
    none
}
