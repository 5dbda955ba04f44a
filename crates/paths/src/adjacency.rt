// Rows of successors: for each component, those to which an edge that is not failed leads.
ghost use Rattle.std.specs.Prelude.{◌≡◌, ◌≢◌, ℕ, ◌+◌, ◌<◌, ◌≤◌, ◌&&◌, not, IsTrue, length};
ghost use Rattle.std.specs.List.{All};
ghost use Rattle.std.specs.Option.{MatchOption};
ghost use Rattle.arch_model.specs.Set as set;
ghost use Rattle.arch_model.specs.Architecture.{IsArchitecture};
ghost use Rattle.arch_model.specs.Library.{IsLibrary};
ghost use Rattle.arch_model.specs.Member.{is_in};
ghost use Rattle.arch_model.specs.Path.{live_edges};
ghost use Rattle.arch_model.specs.declared.limits.TheConstants.{MEMBERS};
ghost use Rattle.paths.specs.Inner.Spread.{from_of, to_of, leads, live};
ghost use Rattle.paths.specs.Links.{is_next};

use arch_model::limits::{COMPONENTS, EDGES};
use arch_model::{Architecture, CompId, CompSet, Edge, EdgeId, EdgeSet, Library, MemberSet, VarId};

// Whether edges are walked from tail to head or from head to tail.
#[derive(Clone, Copy)]
pub(crate) enum Way {
    Down,
    Up,
}

// The end at which an edge is entered, and the other.
fn ends(edge: &Edge, way: Way) -> (CompId, CompId)
    ensures from { result.0.0 ≡ from_of way edge.now }
    ensures to { result.1.0 ≡ to_of way edge.now }
{
    match way {
        Way::Down => (edge.tail, edge.head),
        Way::Up => (edge.head, edge.tail),
    }
}

// For each component the set of those to which an edge leads from it that is chosen and not failed;
// edge e is member n + e. Only the chosen edges are looked at.
fn rows_of(
    edges: &[Edge],
    way: Way,
    chosen: &EdgeSet,
    failed: &MemberSet,
    n: u32,
) -> [CompSet; COMPONENTS]
    requires small { n ≤ COMPONENTS }
    requires few { length edges.now ≤ EDGES }
    requires chosen { (e : ℕ) → IsTrue (set.has chosen.now e) → e < length edges.now }
    requires froms { All (λ e. from_of way e < COMPONENTS) edges.now }
    requires tos { All (λ e. to_of way e < COMPONENTS) edges.now }
    ensures { (a : ℕ) (c : ℕ) → is_next result a c ≡ leads way (live chosen.now failed.now n edges.now) a c }
{
    let mut rows = [CompSet::new(); COMPONENTS];
    for e in chosen.members() {
        if !failed.has(VarId(n + e.0)) {
            let (from, to) = ends(&edges[e.0 as usize], way);
            let mut row = rows[from.0 as usize];
            row.put(to);
            rows[from.0 as usize] = row;
        }
    }
    rows
}

// The edge that is member v, where the first edge is member n.
fn edge_of(v: VarId, n: u32) -> Option<EdgeId>
    ensures { MatchOption result ((e : ℕ) → e < EDGES → v.0 ≢ n + e) (λ e. (e.0 < EDGES) × (v.0 ≡ n + e.0)) }
{
    if v.0 < n {
        return None;
    }
    let e = v.0 - n;
    if e < EDGES as u32 {
        Some(EdgeId(e))
    } else {
        None
    }
}

// The edges among some members, where the first edge is member n.
fn edges_among(members: &MemberSet, n: u32) -> EdgeSet
    ensures { (e : ℕ) → e < EDGES
        → set.has result e ≡ is_in (set.members_below members.now MEMBERS) (n + e) }
{
    let mut found = EdgeSet::new();
    for v in members.members() {
        if let Some(e) = edge_of(v, n) {
            found.put(e);
        }
    }
    found
}

// The edges of an architecture that are in `failed`. Only the members of `failed` are looked at.
pub(crate) fn failed_edges(lib: &Library, arch: &Architecture, failed: &MemberSet) -> EdgeSet
    requires { IsArchitecture lib.now arch.now }
    ensures library { IsLibrary lib.now }
    ensures edges { (e : ℕ) → set.has result e
        ≡ (set.has arch.now.edges e && set.has failed.now (length lib.now.components + e)) }
{
    edges_among(failed, lib.components().len() as u32).intersection(&arch.edges())
}

// Some rows of successors without some edges. Only these edges are looked at.
fn rows_less(
    rows: &[CompSet; COMPONENTS],
    edges: &[Edge],
    way: Way,
    gone: &EdgeSet,
) -> [CompSet; COMPONENTS]
    requires few { length edges.now ≤ EDGES }
    requires gone { (e : ℕ) → IsTrue (set.has gone.now e) → e < length edges.now }
    requires froms { All (λ e. from_of way e < COMPONENTS) edges.now }
    requires tos { All (λ e. to_of way e < COMPONENTS) edges.now }
    ensures { (a : ℕ) (c : ℕ) → is_next result a c
        ≡ (is_next rows.now a c && not (leads way (live gone.now set.empty 0 edges.now) a c)) }
{
    let mut left = *rows;
    for e in gone.members() {
        let (from, to) = ends(&edges[e.0 as usize], way);
        let row = left[from.0 as usize];
        let mut one = CompSet::new();
        one.put(to);
        left[from.0 as usize] = row.minus(&one);
    }
    left
}

// Some rows of a library's edges without some of these.
pub(crate) fn rows_without(
    rows: &[CompSet; COMPONENTS],
    lib: &Library,
    way: Way,
    gone: &EdgeSet,
) -> [CompSet; COMPONENTS]
    requires { (e : ℕ) → IsTrue (set.has gone.now e) → e < length lib.now.edges }
    ensures { (a : ℕ) (c : ℕ) → is_next result a c
        ≡ (is_next rows.now a c && not (leads way (live gone.now set.empty 0 lib.now.edges) a c)) }
{
    rows_less(rows, lib.edges(), way, gone)
}

// The rows of an architecture's edges outside `failed`.
pub(crate) fn live_rows(
    lib: &Library,
    arch: &Architecture,
    way: Way,
    failed: &MemberSet,
) -> [CompSet; COMPONENTS]
    requires { IsArchitecture lib.now arch.now }
    ensures { (a : ℕ) (c : ℕ) → is_next result a c ≡ leads way (live_edges lib.now arch.now (set.has failed.now)) a c }
{
    let n = lib.components().len() as u32;
    rows_of(lib.edges(), way, &arch.edges(), failed, n)
}
