// The rows of cuts.
ghost use Rattle.std.specs.Prelude.{◌≡◌, ◌<◌, ◌≤◌, pos, ◌-ℤ◌, ◌&&◌, length, not, false, IsTrue};
ghost use Rattle.arch_model.specs.Member as member;
ghost use Rattle.rows.specs.Known.{IsCutBelow};
ghost use Rattle.rows.specs.Cut.{cut_put};
ghost use Rattle.rows.specs.Row.{IsSized, cut_coef};
ghost use Rattle.redundancy_cut.specs.CutRow as spec;

use crate::counted::{feeds, leads_out};
use crate::cut::Cut;
use arch_model::limits::MEMBERS;
use arch_model::{Architecture, CompSet, Library, MemberSet, VarId, is_present};
use rows::{CutRow, Problem, variable_count};

// The row that some member leads out of the far components past the set.
pub(crate) fn redundancy_row(lib: &Library, set: &MemberSet, far: &CompSet) -> CutRow
    ensures { result
        ≡ spec.one_of (spec.members_where lib.now (spec.leads_out lib.now set.now far.now)) }
{
    let mut row = CutRow::new(1);
    for i in 0..variable_count(lib) {
        let v = VarId(i);
        if leads_out(lib, set, far, v) {
            row.put(v, true);
        }
    }
    row
}

// Whether member v feeds the cone and is present in an architecture.
fn is_kept(lib: &Library, cone: &CompSet, of: &Architecture, v: VarId) -> bool
    requires { v.0 < member.member_count lib.now }
    ensures { result ≡ (spec.feeds lib.now cone.now v.0 && member.is_present lib.now of.now v.0) }
{
    feeds(lib, cone, v) && is_present(lib, of, v)
}

// How many members that feed the cone an architecture has.
fn kept_count(lib: &Library, cone: &CompSet, of: &Architecture) -> u32
    ensures count { result ≡ length (spec.members_where lib.now
        (λ v. spec.feeds lib.now cone.now v && member.is_present lib.now of.now v)) }
    ensures few { result ≤ MEMBERS }
{
    let mut kept = 0;
    for i in 0..variable_count(lib) {
        if is_kept(lib, cone, of, VarId(i)) {
            kept += 1;
        }
    }
    kept
}

// What the row of a no-good asks for at least: 1, less the number of those that the architecture has.
fn no_good_least(lib: &Library, cone: &CompSet, of: &Architecture) -> i128
    ensures least { result ≡ pos 1 -ℤ pos (length (spec.members_where lib.now
        (λ v. spec.feeds lib.now cone.now v && member.is_present lib.now of.now v))) }
    ensures sized { IsSized result }
{
    1 - kept_count(lib, cone, of) as i128
}

// Puts member v into the row of a no-good where it feeds the cone: it counts for the row by its
// presence where an architecture lacks it, and by its absence where the architecture has it.
fn put_differing(row: &mut CutRow, lib: &Library, cone: &CompSet, of: &Architecture, v: VarId)
    requires known { v.0 < member.member_count lib.now }
    requires small { v.0 < MEMBERS }
    requires apart { cut_coef row.old v.0 ≡ pos 0 }
    ensures feeds { IsTrue (spec.feeds lib.now cone.now v.0)
        → row.new ≡ cut_put row.old v.0 (not (member.is_present lib.now of.now v.0)) }
    ensures other { spec.feeds lib.now cone.now v.0 ≡ false → row.new ≡ row.old }
{
    if feeds(lib, cone, v) {
        row.put(v, !is_present(lib, of, v));
    }
}

// The row that some member that feeds the cone is absent where an architecture has it, or present
// where it hasn't.
pub(crate) fn no_good_row(lib: &Library, cone: &CompSet, of: &Architecture) -> CutRow
    ensures { result ≡ spec.one_differs lib.now of.now (spec.feeds lib.now cone.now) }
{
    let mut row = CutRow::new(no_good_least(lib, cone, of));
    for i in 0..variable_count(lib) {
        put_differing(&mut row, lib, cone, of, VarId(i));
    }
    row
}

/// The row of a cut beside its candidate, over the problem's variables. It holds in every
/// admissible architecture where the cut is right for the candidate (`laws::right_cuts_hold`).
///
/// A redundancy cut says that some member leads out of `far` past `set`: a source outside both, or
/// an edge outside `set` from `far` to a component outside both. A no-good says that some source in
/// `cone`, or some edge into it, is present where the candidate lacks it or absent where it has it.
pub fn row_of(problem: &Problem, cut: &Cut, of: &Architecture) -> CutRow
    ensures row { result ≡ spec.cut_row_of problem.now.library cut.now of.now }
    ensures variables { IsCutBelow (member.member_count problem.now.library) result }
{
    let lib = problem.library();
    match cut {
        Cut::Redundancy { set, far, .. } => redundancy_row(lib, set, far),
        Cut::NoGood { cone, .. } => no_good_row(lib, cone, of),
    }
}
