// Rows in their ranges.
ghost use Rattle.std.specs.Prelude.{◌≡◌, ◌≢◌, ◌≤◌, ◌<◌, ◌^◌, ◌↔◌, ◌++◌, IsTrue, length, map, slice_get};
ghost use Rattle.std.specs.Prelude.{count_by, nat_lt};
ghost use Rattle.std.specs.List.{All, AllPairs};
ghost use Rattle.std.specs.Option.{IsSomeAnd};
ghost use Rattle.arch_model.specs.Library.{IsTypeRow, IsLinkRow, IsPatternRow, AreBounds};

use crate::library::{LinkRow, Pattern, Requirement, TypeRow};
use crate::limits::{COMPONENTS, EDGES, FAILING};
use crate::sets::CompId;
use crate::template::{Component, Edge, Role};

// The greatest cost of one thing, and the greatest supply and demand.
const MOST: u64 = 1_000_000_000_000;

// Parts per million of what always fails.
const ALWAYS: u32 = 1_000_000;

// The greatest least or greatest number of a pattern.
const GREATEST_BOUND: u32 = 512;

// Whether a type's numbers are in range.
fn is_type_row(row: &TypeRow) -> bool
    ensures { IsTrue result ↔ IsTypeRow row.now }
{
    let _text = row.name.text();
    if row.max < 1 || row.max > 64 {
        return false;
    }
    if row.cost > MOST || row.supply > MOST || row.demand > MOST {
        return false;
    }
    row.fail <= ALWAYS
}

// Whether the numbers of all types are in range.
pub(super) fn are_type_rows(types: &[TypeRow]) -> bool
    ensures { IsTrue result ↔ All IsTypeRow types.now }
{
    types.iter().all(is_type_row)
}

// Whether no type of some earlier ones has a type's name.
fn is_new_name(earlier: &[TypeRow], row: &TypeRow) -> bool
    ensures { IsTrue result ↔ All (λ a. a.name ≢ row.now.name) earlier.now }
{
    earlier
        .iter()
        .all(|other| other.name.text() != row.name.text())
}

// Whether no two types have one name.
pub(super) fn names_differ(types: &[TypeRow]) -> bool
    ensures { IsTrue result ↔ AllPairs (λ a b. a.name ≢ b.name) types.now }
{
    for (i, row) in types.iter().enumerate() {
        if !is_new_name(&types[..i], row) {
            return false;
        }
    }
    true
}

// Whether a link's numbers are in range, for n types.
fn is_link_row(row: &LinkRow, n: usize) -> bool
    ensures { IsTrue result ↔ IsLinkRow n row.now }
{
    (row.from as usize) < n && (row.to as usize) < n && row.cost <= MOST && row.fail <= ALWAYS
}

// Whether the numbers of all links are in range, for n types.
pub(super) fn are_link_rows(links: &[LinkRow], n: usize) -> bool
    ensures { IsTrue result ↔ All (IsLinkRow n) links.now }
{
    links.iter().all(|row| is_link_row(row, n))
}

// Whether no link of some earlier ones has a link's two ends.
fn has_new_ends(earlier: &[LinkRow], row: &LinkRow) -> bool
    ensures { IsTrue result ↔ All (λ a. a.from ≡ row.now.from → a.to ≢ row.now.to) earlier.now }
{
    earlier
        .iter()
        .all(|other| other.from != row.from || other.to != row.to)
}

// Whether no two links have the same two ends.
pub(super) fn ends_differ(links: &[LinkRow]) -> bool
    ensures { IsTrue result ↔ AllPairs (λ a b. a.from ≡ b.from → a.to ≢ b.to) links.now }
{
    for (i, row) in links.iter().enumerate() {
        if !has_new_ends(&links[..i], row) {
            return false;
        }
    }
    true
}

// Whether the least and greatest numbers of a pattern are in range.
fn are_bounds(min: u32, max: Option<u32>) -> bool
    ensures { IsTrue result ↔ AreBounds min max }
{
    match max {
        Some(max) => min <= GREATEST_BOUND && max <= GREATEST_BOUND,
        None => min <= GREATEST_BOUND,
    }
}

// Whether a type's number is in range.
fn is_type(of: u32, n: usize) -> bool
    ensures { IsTrue result ↔ (of < n) }
{
    (of as usize) < n
}

// Whether a pattern's numbers are in range, for n types and k components.
fn is_pattern_row(pattern: &Pattern, n: usize, k: usize) -> bool
    ensures { IsTrue result ↔ IsPatternRow n k pattern.now }
{
    match *pattern {
        Pattern::Count { of, min, max } => is_type(of, n) && are_bounds(min, max),
        Pattern::InDegree { of, from, min, max } => {
            is_type(of, n) && is_type(from, n) && are_bounds(min, max)
        }
        Pattern::OutDegree { of, to, min, max } => {
            is_type(of, n) && is_type(to, n) && are_bounds(min, max)
        }
        Pattern::InNeedsOut { of, from, to } => {
            is_type(of, n) && is_type(from, n) && is_type(to, n)
        }
        Pattern::Exclusive { of, a, b } => {
            is_type(of, n) && is_type(a, n) && is_type(b, n) && a != b
        }
        Pattern::Implies { a, b } => is_type(a, n) && is_type(b, n),
        Pattern::Forbid { tail, head } => is_type(tail.0, k) && is_type(head.0, k),
        Pattern::TotalSupply => true,
        Pattern::LocalSupply { of } => is_type(of, n),
        Pattern::CostCap { max } => max <= 1_000_000_000_000_000,
    }
}

// Whether the numbers of all patterns are in range, for n types and k components.
pub(super) fn are_pattern_rows(patterns: &[Pattern], n: usize, k: usize) -> bool
    ensures { IsTrue result ↔ All (IsPatternRow n k) patterns.now }
{
    patterns.iter().all(|pattern| is_pattern_row(pattern, n, k))
}

// Whether component c is a sink.
fn is_sink(components: &[Component], c: CompId) -> bool
    ensures { IsTrue result ↔ IsSomeAnd (slice_get components.now c.0) (λ row. row.role ≡ Role.Sink) }
{
    match components.get(c.0 as usize) {
        Some(row) => row.role == Role::Sink,
        None => false,
    }
}

// Whether each requirement is of a sink.
pub(super) fn are_sinks(requirements: &[Requirement], components: &[Component]) -> bool
    ensures { IsTrue result
        ↔ All (λ r. IsSomeAnd (slice_get components.now r.sink.0) (λ row. row.role ≡ Role.Sink)) requirements.now }
{
    requirements.iter().all(|r| is_sink(components, r.sink))
}

// Whether the bound of each requirement is at most 1.
pub(super) fn have_bounds(requirements: &[Requirement]) -> bool
    ensures { IsTrue result ↔ All (λ r. r.bound ≤ 10 ^ 18) requirements.now }
{
    requirements
        .iter()
        .all(|r| r.bound <= 1_000_000_000_000_000_000)
}

// Whether at most as many members fail at all as may.
pub(super) fn few_may_fail(components: &[Component], edges: &[Edge]) -> bool
    requires few_components { length components.now ≤ COMPONENTS }
    requires few_edges { length edges.now ≤ EDGES }
    ensures { IsTrue result
        ↔ (count_by (λ p. nat_lt 0 p) (map (λ c. c.fail) components.now ++ map (λ e. e.fail) edges.now) ≤ FAILING) }
{
    let components = components.iter().filter(|c| 0 < c.fail).count();
    let edges = edges.iter().filter(|e| 0 < e.fail).count();
    components + edges <= FAILING
}
