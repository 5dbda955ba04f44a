// Which members can still be needed, where some are chosen and others may be chosen too.
ghost use Rattle.std.specs.Prelude.{◌≡◌, ℕ, ◌<◌, ◌&&◌, ◌||◌, ◌↔◌, IsTrue, List, length};
ghost use Rattle.arch_model.specs.Set as set;
ghost use Rattle.arch_model.specs.Architecture.{IsArchitecture};
ghost use Rattle.arch_model.specs.declared.limits.TheConstants.{COMPONENTS, MEMBERS};
ghost use Rattle.arch_model.specs.Member.{is_in, member_count};
ghost use Rattle.arch_model.specs.Path.{IsPath};
ghost use Rattle.paths.specs.Links.{AreLinks};
ghost use Rattle.cut_sets.specs.Inner.Useful as useful;
ghost use Rattle.cut_sets.specs.Inner.Useful.{AreSides};

use arch_model::{Architecture, CompId, CompSet, Library, MemberSet, VarId, is_source};
use paths::{Links, ancestors_over, reach_over};

// Where the paths run on which a chosen member can be the only failed one: what leads to it begins
// among `before` or is a source, and what it leads to is among `after` or is the sink.
#[derive(Drop)]
pub(crate) struct Sides {
    before: CompSet,
    entered: CompSet,
    after: CompSet,
    left: CompSet,
}

// Some members and some components.
fn with_components(members: &MemberSet, comps: &CompSet) -> MemberSet
    ensures { (v : ℕ) → set.has result v ≡ (set.has members.now v || is_in (set.members_below comps.now COMPONENTS) v) }
{
    let mut both = *members;
    for c in comps.members() {
        both.put(VarId(c.0));
    }
    both
}

// Some failed members, and a table of the edges that haven't failed.
#[derive(Clone, Copy)]
pub(crate) struct Failing<'a> {
    pub(crate) members: MemberSet,
    pub(crate) links: &'a Links,
}

// What is surely reached, with its successors, can't stand after a needed member; what surely
// reaches the sink, with its predecessors, can't stand before one.
pub(crate) fn sides_of(
    lib: &Library,
    arch: &Architecture,
    sink: CompId,
    chosen: &Failing,
    wide: &Failing,
    reached: &CompSet,
) -> Sides
    requires fits { IsArchitecture lib.now arch.now }
    requires in_range { sink.0 < length lib.now.components }
    requires chosen { AreLinks lib.now arch.now (set.has chosen.now.members) chosen.now.links.now }
    requires wide { AreLinks lib.now arch.now (set.has wide.now.members) wide.now.links.now }
    requires reached { (c : ℕ) → IsTrue (set.has reached.now c)
        ↔ ((path : List ℕ) × IsPath lib.now arch.now c (set.has wide.now.members) path) }
    ensures { AreSides lib.now arch.now sink.0
        (set.has chosen.now.members) (set.has wide.now.members) result }
{
    // a library's components are few
    let _ = lib.components();
    let far = reached.union(&wide.links.heads(arch, reached));
    let above = ancestors_over(lib, arch, sink, wide.links, &wide.members);
    let near = above.union(&wide.links.tails(arch, &above));
    let past_near = with_components(&chosen.members, &near);
    let before = reach_over(lib, arch, chosen.links, &past_near);
    let past_far = with_components(&chosen.members, &far);
    let after = ancestors_over(lib, arch, sink, chosen.links, &past_far);
    Sides {
        before,
        entered: chosen.links.heads(arch, &before),
        after,
        left: chosen.links.tails(arch, &after),
    }
}

// Whether member v can be the only failed one on some path.
fn is_passed(lib: &Library, sink: CompId, sides: &Sides, v: VarId) -> bool
    requires { v.0 < member_count lib.now }
    ensures { result ≡ useful.is_passed lib.now sink.0 sides.now v.0 }
{
    let components = lib.components();
    let i = v.0 as usize;
    if i < components.len() {
        let c = CompId(v.0);
        (is_source(lib, c) || sides.entered.has(c)) && (c == sink || sides.left.has(c))
    } else {
        let edge = &lib.edges()[i - components.len()];
        sides.before.has(edge.tail) && sides.after.has(edge.head)
    }
}

// Those of some members that can be the only failed one on some path.
pub(crate) fn passed(lib: &Library, sink: CompId, sides: &Sides, among: &MemberSet) -> MemberSet
    requires { (v : ℕ) → IsTrue (set.has among.now v) → v < member_count lib.now }
    ensures { (v : ℕ) → set.has result v
        ≡ (is_in (set.members_below among.now MEMBERS) v && useful.is_passed lib.now sink.0 sides.now v) }
{
    let mut found = MemberSet::new();
    for v in among.members() {
        if is_passed(lib, sink, sides, v) {
            found.put(v);
        }
    }
    found
}
