// The two searches over rows of edges.
ghost use Rattle.std.specs.Prelude.{◌≡◌, ℕ, ◌<◌, ◌↔◌, ◌∷◌, IsTrue, List, length};
ghost use Rattle.arch_model.specs.Set as set;
ghost use Rattle.arch_model.specs.Architecture.{IsArchitecture};
ghost use Rattle.arch_model.specs.Path.{IsPath, LeadsTo, is_source, live_edges, joins};
ghost use Rattle.paths.specs.Links.{is_next};

use crate::spreading::closure;
use crate::standing::outside;
use arch_model::limits::COMPONENTS;
use arch_model::{Architecture, CompId, CompSet, Library, MemberSet};

// The components to which a path leads that avoids the failed members, over rows of successors.
pub(crate) fn reached_from_sources(
    lib: &Library,
    arch: &Architecture,
    sources: &CompSet,
    down: &[CompSet; COMPONENTS],
    failed: &MemberSet,
) -> CompSet
    requires architecture { IsArchitecture lib.now arch.now }
    requires sources { (c : ℕ) → set.has sources.now c ≡ is_source lib.now c }
    requires rows { (a : ℕ) (c : ℕ) → is_next down.now a c
        ≡ joins (live_edges lib.now arch.now (set.has failed.now)) a c }
    ensures { (c : ℕ) → IsTrue (set.has result c)
        ↔ ((path : List ℕ) × IsPath lib.now arch.now c (set.has failed.now) path) }
{
    let standing = outside(&arch.comps(), lib.components().len() as u32, failed);
    closure(down, &standing, sources)
}

// The components that lead to the sink past the failed members, over rows of predecessors.
pub(crate) fn leading_to(
    lib: &Library,
    arch: &Architecture,
    sink: CompId,
    up: &[CompSet; COMPONENTS],
    failed: &MemberSet,
) -> CompSet
    requires architecture { IsArchitecture lib.now arch.now }
    requires in_range { sink.0 < length lib.now.components }
    requires rows { (a : ℕ) (c : ℕ) → is_next up.now a c
        ≡ joins (live_edges lib.now arch.now (set.has failed.now)) c a }
    ensures { (c : ℕ) → IsTrue (set.has result c)
        ↔ ((rest : List ℕ) × LeadsTo lib.now arch.now sink.0 (set.has failed.now) (c ∷ rest)) }
{
    let n = lib.components().len() as u32;
    let mut first = CompSet::new();
    first.put(sink);
    let standing = outside(&arch.comps().union(&first), n, failed);
    closure(up, &standing, &first)
}
