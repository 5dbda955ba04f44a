// The architecture of a cube in which nothing is free. A state has the numbers of the template's
// components and edges, and no library, from which `binary_program` would read it.
ghost use Rattle.std.specs.Prelude.{◌≡◌, ℕ, ◌+◌, ◌≤◌};
ghost use Rattle.arch_model.specs.Set.{has};
ghost use Rattle.search_core.specs.Candidate as spec;

use arch_model::limits::{COMPONENTS, EDGES};
use arch_model::{Architecture, CompId, CompSet, EdgeId, EdgeSet, MemberSet, VarId};
use rows::Cube;

// The components among some members.
fn components_among(members: &MemberSet, components: u32) -> CompSet
    requires { components ≤ COMPONENTS }
    ensures { result ≡ spec.set_where components (has members.now) }
{
    let mut comps = CompSet::new();
    for c in 0..components {
        if members.has(VarId(c)) {
            comps.put(CompId(c));
        }
    }
    comps
}

// The edges among some members, which follow this many components.
fn edges_among(members: &MemberSet, components: u32, edges: u32) -> EdgeSet
    requires few_components { components ≤ COMPONENTS }
    requires few_edges { edges ≤ EDGES }
    ensures { result ≡ spec.set_where edges (λ e. has members.now (components + e)) }
{
    let mut chosen = EdgeSet::new();
    for e in 0..edges {
        if members.has(VarId(components + e)) {
            chosen.put(EdgeId(e));
        }
    }
    chosen
}

// The candidate of a cube, where a template has this many components and edges: those whose
// variables are at 1.
pub(crate) fn candidate_in(components: u32, edges: u32, cube: &Cube) -> Architecture
    requires few_components { components ≤ COMPONENTS }
    requires few_edges { edges ≤ EDGES }
    ensures { result ≡ spec.candidate_in components edges cube.now }
{
    let ones = cube.ones();
    Architecture::new(
        components_among(&ones, components),
        edges_among(&ones, components, edges),
    )
}
