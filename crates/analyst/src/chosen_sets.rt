// The sets of a chosen cut.
ghost use Rattle.std.specs.Prelude.{◌≡◌, ◌<◌, ◌&&◌, not, length, map};
ghost use Rattle.std.specs.List.{All};
ghost use Rattle.arch_model.specs.Library.{IsLibrary};
ghost use Rattle.arch_model.specs.Architecture.{IsArchitecture};
ghost use Rattle.arch_model.specs.Set.{has};
ghost use Rattle.redundancy_cut.specs.CutRow.{set_of_numbers};
ghost use Rattle.redundancy_cut.specs.ChosenCut.{far_of, cone_of};

use arch_model::limits::MEMBERS;
use arch_model::{Architecture, CompId, CompSet, Library, MemberSet, VarId};
use paths::ancestors;

// The set of some members.
pub(crate) fn set_of(members: &[VarId]) -> MemberSet
    requires { All (λ v. v.0 < MEMBERS) members.now }
    ensures { result ≡ set_of_numbers (map (λ v. v.0) members.now) }
{
    let mut set = MemberSet::new();
    for v in members {
        set.put(*v);
    }
    set
}

// Whether a component is in neither of two sets.
fn is_far(set: &MemberSet, near: &CompSet, c: u32) -> bool
    ensures { result ≡ (not (has set.now c) && not (has near.now c)) }
{
    !set.has(VarId(c)) && !near.has(CompId(c))
}

// The components from which the sink isn't reached past a set of members, of which they are none.
pub(crate) fn far_from(lib: &Library, arch: &Architecture, sink: CompId, set: &MemberSet) -> CompSet
    requires architecture { IsArchitecture lib.now arch.now }
    requires in_range { sink.0 < length lib.now.components }
    ensures { result ≡ far_of lib.now arch.now sink.0 set.now }
{
    let near = ancestors(lib, arch, sink, *set);
    let mut far = CompSet::new();
    for c in 0..lib.components().len() as u32 {
        if is_far(set, &near, c) {
            far.put(CompId(c));
        }
    }
    far
}

// The sink and the components from which it is reached.
pub(crate) fn cone_to(lib: &Library, arch: &Architecture, sink: CompId) -> CompSet
    requires library { IsLibrary lib.now }
    requires architecture { IsArchitecture lib.now arch.now }
    requires in_range { sink.0 < length lib.now.components }
    ensures { result ≡ cone_of lib.now arch.now sink.0 }
{
    ancestors(lib, arch, sink, MemberSet::new())
}
