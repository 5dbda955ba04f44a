// The edges of an architecture as a table, ready for many searches.
ghost use Rattle.std.specs.Prelude.{◌≡◌, ℕ, ◌<◌, ◌&&◌, ◌↔◌, ◌∷◌, IsTrue, List, length};
ghost use Rattle.std.specs.List.{list_any};
ghost use Rattle.arch_model.specs.Set as set;
ghost use Rattle.arch_model.specs.Architecture.{IsArchitecture};
ghost use Rattle.arch_model.specs.Path.{IsPath, LeadsTo};
ghost use Rattle.arch_model.specs.declared.limits.TheConstants.{COMPONENTS};
ghost use Rattle.paths.specs.Links.{is_linked, AreLinks};

use crate::adjacency::{Way, failed_edges, live_rows, rows_without};
use crate::searching::{leading_to, reached_from_sources};
use crate::spreading::entered;
use crate::standing::sources_of;
use arch_model::limits::COMPONENTS;
use arch_model::{Architecture, CompId, CompSet, EdgeSet, Library, MemberSet};
use std::marker::Model;

/// The sources of a library, and the edges of an architecture as rows: for each component those to
/// which an edge leads from it, and those from which one leads to it. One pass over the edges makes
/// the table, and a search over it looks at no edge again. Contracts see which components its edges
/// join.
#[derive(Drop)]
pub struct Links {
    sources: CompSet,
    down: [CompSet; COMPONENTS],
    up: [CompSet; COMPONENTS],
}

impl Model for Links {
    ghost use Rattle.std.specs.Prelude.{◌≡◌, ℕ};
    ghost use Rattle.paths.specs.Links.{LinksParts, is_next};

    ghost Value = { LinksParts };

    ghost view = { λ a. record { sources = a.sources; rows = a.down } };

    ghost invariant = { λ a. (b c : ℕ) → is_next a.up b c ≡ is_next a.down c b };
}

/// The table of the present edges outside `failed`.
pub fn links_of(lib: &Library, arch: &Architecture, failed: &MemberSet) -> Links
    requires { IsArchitecture lib.now arch.now }
    ensures { AreLinks lib.now arch.now (set.has failed.now) result }
{
    Links {
        sources: sources_of(lib),
        down: live_rows(lib, arch, Way::Down, failed),
        up: live_rows(lib, arch, Way::Up, failed),
    }
}

/// What `reach` answers, over a table of the edges outside `failed`. A table where the same edges
/// have failed serves every set of failed components.
pub fn reach_over(lib: &Library, arch: &Architecture, links: &Links, failed: &MemberSet) -> CompSet
    requires architecture { IsArchitecture lib.now arch.now }
    requires links { AreLinks lib.now arch.now (set.has failed.now) links.now }
    ensures { (c : ℕ) → IsTrue (set.has result c)
        ↔ ((path : List ℕ) × IsPath lib.now arch.now c (set.has failed.now) path) }
{
    reached_from_sources(lib, arch, &links.sources, &links.down, failed)
}

/// What `ancestors` answers, over a table of the edges outside `failed`.
pub fn ancestors_over(
    lib: &Library,
    arch: &Architecture,
    sink: CompId,
    links: &Links,
    failed: &MemberSet,
) -> CompSet
    requires architecture { IsArchitecture lib.now arch.now }
    requires in_range { sink.0 < length lib.now.components }
    requires links { AreLinks lib.now arch.now (set.has failed.now) links.now }
    ensures { (c : ℕ) → IsTrue (set.has result c)
        ↔ ((rest : List ℕ) × LeadsTo lib.now arch.now sink.0 (set.has failed.now) (c ∷ rest)) }
{
    leading_to(lib, arch, sink, &links.up, failed)
}

impl Links {
    /// A table of all edges, without those in `failed`. It costs a look at each of these and at each
    /// row.
    pub fn without(&self, lib: &Library, arch: &Architecture, failed: &MemberSet) -> Links
        requires architecture { IsArchitecture lib.now arch.now }
        requires all { AreLinks lib.now arch.now (set.has set.empty) self.now }
        ensures { AreLinks lib.now arch.now (set.has failed.now) result }
    {
        let gone = failed_edges(lib, arch, failed);
        if gone == EdgeSet::new() {
            return Links {
                sources: self.sources,
                down: self.down,
                up: self.up,
            };
        }
        Links {
            sources: self.sources,
            down: rows_without(&self.down, lib, Way::Down, &gone),
            up: rows_without(&self.up, lib, Way::Up, &gone),
        }
    }

    /// The present components to which one of the edges leads from one of some components.
    pub fn heads(&self, arch: &Architecture, of: &CompSet) -> CompSet
        ensures { (c : ℕ) → set.has result c
            ≡ (set.has arch.now.comps c
            && list_any (λ a. is_linked self.now a c) (set.members_below of.now COMPONENTS)) }
    {
        entered(&self.down, &arch.comps(), of)
    }

    /// The present components from which one of the edges leads to one of some components.
    pub fn tails(&self, arch: &Architecture, of: &CompSet) -> CompSet
        ensures { (c : ℕ) → set.has result c
            ≡ (set.has arch.now.comps c
            && list_any (λ a. is_linked self.now c a) (set.members_below of.now COMPONENTS)) }
    {
        entered(&self.up, &arch.comps(), of)
    }
}
