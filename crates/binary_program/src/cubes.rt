// Architectures as cubes in which nothing is free, and back.
ghost use Rattle.std.specs.Prelude.{◌≡◌, ℕ, ◌+◌, ◌≤◌, ◌<◌, ◌&&◌, nat_lt};
ghost use Rattle.arch_model.specs.Architecture.{IsArchitecture};
ghost use Rattle.arch_model.specs.Member as member;
ghost use Rattle.arch_model.specs.Parts.{ArchitectureParts};
ghost use Rattle.arch_model.specs.Set.{has};
ghost use Rattle.rows.specs.Cube.{IsCube};
ghost use Rattle.rows.specs.Parts.{CubeParts};
ghost use Rattle.binary_program.specs.CubeOf.{FixesAll, IsCubeOf};

use arch_model::limits::{COMPONENTS, EDGES};
use arch_model::{
    Architecture, CompId, CompSet, EdgeId, EdgeSet, Library, MemberSet, VarId, is_present,
};
use rows::{Cube, variable_count};

/// The cube of an architecture: each member is fixed, to 1 where it is present and to 0 where it
/// isn't. No other architecture of the library has this cube, so that `architecture_of` leads back.
pub fn cube_of(lib: &Library, arch: &Architecture) -> Cube
    requires { IsArchitecture lib.now arch.now }
    ensures cube { IsCubeOf lib.now arch.now result }
    ensures only { (other : ArchitectureParts) → IsArchitecture lib.now other → IsCubeOf lib.now other result
        → other ≡ arch.now }
{
    let mut cube = Cube::whole();
    for i in 0..variable_count(lib) {
        let v = VarId(i);
        cube.fix(v, is_present(lib, arch, v));
    }
    cube
}

// The components among some members: those below the number of components.
fn components_among(members: &MemberSet, components: u32) -> CompSet
    requires { components ≤ COMPONENTS }
    ensures { (c : ℕ) → has result c ≡ (nat_lt c components && has members.now c) }
{
    let mut comps = CompSet::new();
    for c in 0..components {
        if members.has(VarId(c)) {
            comps.put(CompId(c));
        }
    }
    comps
}

// The edges among some members: those from the number of components on.
fn edges_among(members: &MemberSet, components: u32, edges: u32) -> EdgeSet
    requires few_components { components ≤ COMPONENTS }
    requires few_edges { edges ≤ EDGES }
    ensures { (e : ℕ) → has result e ≡ (nat_lt e edges && has members.now (components + e)) }
{
    let mut chosen = EdgeSet::new();
    for e in 0..edges {
        if members.has(VarId(components + e)) {
            chosen.put(EdgeId(e));
        }
    }
    chosen
}

/// The architecture of a cube in which nothing is free: the members that are fixed to 1, which are
/// to keep the ends of each edge. It has no other cube, so that `cube_of` leads back.
pub fn architecture_of(lib: &Library, cube: &Cube) -> Architecture
    requires full { FixesAll lib.now cube.now }
    requires ends { member.KeepsEnds lib.now (has cube.now.ones) }
    ensures architecture { IsArchitecture lib.now result }
    ensures cube { IsCubeOf lib.now result cube.now }
    ensures only { (other : CubeParts) → IsCube other → IsCubeOf lib.now result other → other ≡ cube.now }
{
    let ones = cube.ones();
    let components = lib.components().len() as u32;
    let edges = lib.edges().len() as u32;
    Architecture::new(
        components_among(&ones, components),
        edges_among(&ones, components, edges),
    )
}
