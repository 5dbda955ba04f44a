// Which components stand, and which of them are sources.
ghost use Rattle.std.specs.Prelude.{◌≡◌, ℕ, ◌<◌, ◌≤◌, ◌&&◌, nat_lt, not, length, IsTrue};
ghost use Rattle.arch_model.specs.Set as set;
ghost use Rattle.arch_model.specs.Member.{is_in};
ghost use Rattle.arch_model.specs.Path as path;
ghost use Rattle.arch_model.specs.declared.limits.TheConstants.{COMPONENTS, MEMBERS};

use arch_model::{CompId, CompSet, Library, MemberSet, is_source};

// The sources of a library.
pub(crate) fn sources_of(lib: &Library) -> CompSet
    ensures { (c : ℕ) → set.has result c ≡ path.is_source lib.now c }
{
    let mut found = CompSet::new();
    for i in 0..lib.components().len() as u32 {
        if is_source(lib, CompId(i)) {
            found.put(CompId(i));
        }
    }
    found
}

// The components among some members, where n is above each component's number.
fn components_among(members: &MemberSet, n: u32) -> CompSet
    requires { n ≤ COMPONENTS }
    ensures { (c : ℕ) → set.has result c ≡ (is_in (set.members_below members.now MEMBERS) c && nat_lt c n) }
{
    let mut found = CompSet::new();
    for v in members.members() {
        if v.0 < n {
            found.put(CompId(v.0));
        }
    }
    found
}

// The components of a set that are not failed. Only the failed members are looked at one by one.
pub(crate) fn outside(comps: &CompSet, n: u32, failed: &MemberSet) -> CompSet
    requires few { n ≤ COMPONENTS }
    requires small { (c : ℕ) → IsTrue (set.has comps.now c) → c < n }
    ensures { (c : ℕ) → set.has result c ≡ (set.has comps.now c && not (set.has failed.now c)) }
{
    comps.minus(&components_among(failed, n))
}
