// Which members a set can have.
ghost use Rattle.std.specs.Prelude.{◌≡◌, ℕ, ◌<◌, ◌≤◌, ◌&&◌, nat_lt, length};
ghost use Rattle.arch_model.specs.Inner.Sets.{members_from};
ghost use Rattle.arch_model.specs.Set as set;
ghost use Rattle.arch_model.specs.Library.{IsLibrary};
ghost use Rattle.arch_model.specs.declared.limits.TheConstants.{MEMBERS, FAILING};
ghost use Rattle.arch_model.specs.Member as member;
ghost use Rattle.cut_sets.specs.Inner.Upcoming.{is_candidate};

use arch_model::{Architecture, Library, MemberSet, VarId, fail, is_present};

// Whether member v is present and may fail.
fn may_fail(lib: &Library, arch: &Architecture, v: VarId) -> bool
    requires { v.0 < member.member_count lib.now }
    ensures { result ≡ (member.is_present lib.now arch.now v.0 && nat_lt 0 (member.fail_of lib.now v.0)) }
{
    is_present(lib, arch, v) && 0 < fail(lib, v)
}

// The members that are present and may fail.
pub(crate) fn candidates(lib: &Library, arch: &Architecture) -> MemberSet
    ensures each { (v : ℕ) → set.has result v ≡ is_candidate lib.now arch.now v }
    ensures few { length (members_from result 0 MEMBERS) ≤ FAILING }
    ensures small { member.member_count lib.now ≤ MEMBERS }
    ensures library { IsLibrary lib.now }
{
    let mut found = MemberSet::new();
    let count = lib.components().len() + lib.edges().len();
    for v in 0..count as u32 {
        if may_fail(lib, arch, VarId(v)) {
            found.put(VarId(v));
        }
    }
    found
}
