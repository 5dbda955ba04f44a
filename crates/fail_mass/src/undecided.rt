// The members on which conditioning has to look: those that are present and may fail.
ghost use Rattle.std.specs.Prelude.{◌≡◌, ℕ, ◌<◌, IsTrue};
ghost use Rattle.arch_model.specs.Architecture.{IsArchitecture};
ghost use Rattle.arch_model.specs.Library.{IsLibrary};
ghost use Rattle.arch_model.specs.Member as member;
ghost use Rattle.arch_model.specs.Set as set;
ghost use Rattle.fail_mass.specs.Inner.Cases as cases;

use arch_model::{Architecture, Library, MemberSet, VarId, fail, is_present};

// Whether a member is present and may fail.
fn may_fail(lib: &Library, arch: &Architecture, v: VarId) -> bool
    requires { v.0 < member.member_count lib.now }
    ensures { result ≡ cases.may_fail lib.now arch.now v.0 }
{
    is_present(lib, arch, v) && 0 < fail(lib, v)
}

/// The members that are present and may fail.
pub(crate) fn undecided(lib: &Library, arch: &Architecture) -> MemberSet
    requires { IsArchitecture lib.now arch.now }
    ensures members { (v : ℕ) → set.has result v ≡ cases.may_fail lib.now arch.now v }
    ensures in_range { (v : ℕ) → IsTrue (set.has result v) → v < member.member_count lib.now }
    ensures library { IsLibrary lib.now }
{
    let n = (lib.components().len() + lib.edges().len()) as u32;
    let mut open = MemberSet::new();
    for v in 0..n {
        if may_fail(lib, arch, VarId(v)) {
            open.put(VarId(v));
        }
    }
    open
}
