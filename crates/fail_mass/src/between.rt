// Which members lie between the sources and the sink.
ghost use Rattle.std.specs.Prelude.{◌≡◌, ℕ, ◌<◌, ◌&&◌, IsTrue};
ghost use Rattle.arch_model.specs.Library.{IsLibrary};
ghost use Rattle.arch_model.specs.Member.{member_count};
ghost use Rattle.arch_model.specs.Set as set;
ghost use Rattle.fail_mass.specs.Inner.Cases as cases;

use arch_model::{CompId, CompSet, Edge, Library, MemberSet, VarId};

// Whether an edge goes from a component of one set to one of another.
fn joins(edge: &Edge, reached: &CompSet, above: &CompSet) -> bool
    ensures { result ≡ (set.has reached.now edge.now.tail.0 && set.has above.now edge.now.head.0) }
{
    reached.has(edge.tail) && above.has(edge.head)
}

// Whether a member lies between: a component that is in both sets, or an edge from the one to the
// other.
fn is_between(lib: &Library, reached: &CompSet, above: &CompSet, v: VarId) -> bool
    requires { v.0 < member_count lib.now }
    ensures { result ≡ cases.is_between lib.now reached.now above.now v.0 }
{
    let n = lib.components().len() as u32;
    if v.0 < n {
        reached.has(CompId(v.0)) && above.has(CompId(v.0))
    } else {
        joins(&lib.edges()[(v.0 - n) as usize], reached, above)
    }
}

/// Those of some members that lie between.
pub(crate) fn between(
    lib: &Library,
    members: &MemberSet,
    reached: &CompSet,
    above: &CompSet,
) -> MemberSet
    requires library { IsLibrary lib.now }
    requires in_range { (v : ℕ) → IsTrue (set.has members.now v) → v < member_count lib.now }
    ensures { (v : ℕ) → set.has result v
        ≡ (set.has members.now v && cases.is_between lib.now reached.now above.now v) }
{
    let mut found = MemberSet::new();
    for v in members.members() {
        if is_between(lib, reached, above, v) {
            found.put(v);
        }
    }
    found
}
