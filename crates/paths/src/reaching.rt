// The searches of one set of failed members: down from the sources, and up from a sink.
ghost use Rattle.std.specs.Prelude.{◌≡◌, ℕ, ◌<◌, ◌↔◌, ◌∷◌, IsTrue, List, length};
ghost use Rattle.arch_model.specs.Set as set;
ghost use Rattle.arch_model.specs.Architecture.{IsArchitecture};
ghost use Rattle.arch_model.specs.Path.{IsPath, LeadsTo, Parts};

use crate::adjacency::{Way, live_rows};
use crate::searching::{leading_to, reached_from_sources};
use crate::standing::sources_of;
use arch_model::{Architecture, CompId, CompSet, Library, MemberSet};

/// The components to which a path leads: a list of present components from a source on, each joined
/// to the next by a present edge, with no component or joining edge of it in `failed`. A source
/// that is present and outside `failed` is reached.
pub fn reach(lib: &Library, arch: &Architecture, failed: MemberSet) -> CompSet
    requires { IsArchitecture lib.now arch.now }
    ensures { (c : ℕ) → IsTrue (set.has result c)
        ↔ ((path : List ℕ) × IsPath lib.now arch.now c (set.has failed) path) }
{
    let down = live_rows(lib, arch, Way::Down, &failed);
    reached_from_sources(lib, arch, &sources_of(lib), &down, &failed)
}

/// Whether no path to the sink avoids the failed members. No path leads to a sink that is absent or
/// failed, so it is parted.
pub fn parted(lib: &Library, arch: &Architecture, sink: CompId, failed: MemberSet) -> bool
    requires { IsArchitecture lib.now arch.now }
    ensures { IsTrue result ↔ Parts lib.now arch.now sink.0 (set.has failed) }
{
    !reach(lib, arch, failed).has(sink)
}

/// The components outside `failed` from which the sink is reached over present edges outside
/// `failed` and components outside `failed`; the sink itself, also an absent one, where it is
/// outside. A sink in `failed` has none. The sink's number must be in range.
pub fn ancestors(lib: &Library, arch: &Architecture, sink: CompId, failed: MemberSet) -> CompSet
    requires architecture { IsArchitecture lib.now arch.now }
    requires in_range { sink.0 < length lib.now.components }
    ensures { (c : ℕ) → IsTrue (set.has result c)
        ↔ ((rest : List ℕ) × LeadsTo lib.now arch.now sink.0 (set.has failed) (c ∷ rest)) }
{
    let up = live_rows(lib, arch, Way::Up, &failed);
    leading_to(lib, arch, sink, &up, &failed)
}
