// When a cut is right.
ghost use Rattle.std.specs.Prelude.{◌≡◌, ◌↔◌, ℕ, ◌<◌, ◌&&◌, not, false, IsTrue};
ghost use Rattle.std.specs.List.{All};
ghost use Rattle.arch_model.specs.Architecture.{IsArchitecture, present_edges};
ghost use Rattle.arch_model.specs.Member.{member_count};
ghost use Rattle.arch_model.specs.Set.{has, members_below};
ghost use Rattle.arch_model.specs.Weight as spec;
ghost use Rattle.redundancy_cut.specs.RightCut.{IsRightRedundancy, IsRightNoGood, IsRightCut, HasWeight};

use crate::cut::Cut;
use arch_model::limits::{COMPONENTS, MEMBERS};
use arch_model::{Architecture, CompSet, Edge, Library, MemberSet, Requirement, VarId, product};
use rows::{Problem, variable_count};

// Whether a set of members and a set of components have no member in common.
fn are_apart(set: &MemberSet, far: &CompSet) -> bool
    requires { (c : ℕ) → IsTrue (has far.now c) → c < COMPONENTS }
    ensures { IsTrue result ↔ ((c : ℕ) → IsTrue (has far.now c) → has set.now c ≡ false) }
{
    for c in far.members() {
        if set.has(VarId(c.0)) {
            return false;
        }
    }
    true
}

// The product of a set of members, in units of 10^-18: that of the list of them.
fn product_of(lib: &Library, set: &MemberSet) -> u64
    requires { (v : ℕ) → IsTrue (has set.now v) → v < member_count lib.now }
    ensures { result ≡ spec.product_of lib.now (members_below set.now MEMBERS) }
{
    let mut members = [VarId(0); MEMBERS];
    let mut count = 0;
    for v in set.members() {
        members[count] = v;
        count += 1;
    }
    product(lib, &members[..count])
}

// Whether a product or a weight is above a bound, all in units of 10^-18.
fn is_above(value: u128, bound: u64) -> bool
    ensures { IsTrue result ↔ bound < value }
{
    value > bound as u128
}

// Whether a redundancy cut is right for a requirement.
pub(crate) fn is_right_redundancy(
    lib: &Library,
    r: &Requirement,
    set: &MemberSet,
    far: &CompSet,
) -> bool
    ensures { IsTrue result ↔ IsRightRedundancy lib.now r.now set.now far.now }
{
    if !set.is_below(variable_count(lib) as usize) {
        return false;
    }
    if !far.is_below(lib.components().len()) {
        return false;
    }
    if !are_apart(set, far) {
        return false;
    }
    if far.has(r.sink) {
        return false;
    }
    is_above(product_of(lib, set) as u128, r.bound)
}

// Whether an edge leads from outside into a set of components.
fn leads_in(cone: &CompSet, edge: &Edge) -> bool
    ensures { result ≡ (has cone.now edge.now.head.0 && not (has cone.now edge.now.tail.0)) }
{
    cone.has(edge.head) && !cone.has(edge.tail)
}

// Whether no edge of an architecture leads from outside into a set of components.
fn is_closed(lib: &Library, of: &Architecture, cone: &CompSet) -> bool
    requires { IsArchitecture lib.now of.now }
    ensures { IsTrue result
        ↔ All (λ e. IsTrue (has cone.now e.head.0) → IsTrue (has cone.now e.tail.0))
        (present_edges lib.now of.now) }
{
    let edges = lib.edges();
    for e in of.edges().members() {
        if leads_in(cone, &edges[e.0 as usize]) {
            return false;
        }
    }
    true
}

// Whether a no-good is right for a requirement whose sink has this weight.
fn is_right_no_good(
    lib: &Library,
    r: &Requirement,
    cone: &CompSet,
    of: &Architecture,
    weight: u128,
) -> bool
    requires architecture { IsArchitecture lib.now of.now }
    requires weight { weight ≡ spec.weight_of lib.now of.now r.now.sink.0 }
    ensures { IsTrue result ↔ IsRightNoGood lib.now of.now r.now cone.now }
{
    if !cone.is_below(lib.components().len()) {
        return false;
    }
    if !is_above(weight, r.bound) {
        return false;
    }
    if !cone.has(r.sink) {
        return false;
    }
    is_closed(lib, of, cone)
}

/// Whether a cut is right for a candidate. For a no-good whose requirement exists, `weight` is that
/// sink's weight in the candidate, in units of 10^-18; else it is anything.
pub fn is_right(problem: &Problem, cut: &Cut, of: &Architecture, weight: u128) -> bool
    requires architecture { IsArchitecture problem.now.library of.now }
    requires weight { HasWeight problem.now.library cut.now of.now weight }
    ensures { IsTrue result ↔ IsRightCut problem.now.library cut.now of.now }
{
    let lib = problem.library();
    match cut {
        Cut::Redundancy {
            requirement,
            set,
            far,
        } => match lib.requirements().get(*requirement as usize) {
            Some(r) => is_right_redundancy(lib, r, set, far),
            None => false,
        },
        Cut::NoGood { requirement, cone } => match lib.requirements().get(*requirement as usize) {
            Some(r) => is_right_no_good(lib, r, cone, of, weight),
            None => false,
        },
    }
}
