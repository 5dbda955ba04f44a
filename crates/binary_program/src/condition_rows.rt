// The rows of patterns that say what follows from what, or what excludes what.
ghost use Rattle.std.specs.Prelude.{◌≡◌, ◌<◌, ◌++◌, ◌∷◌, [], OnOk, map, length, pos, neg_ℤ};
ghost use Rattle.arch_model.specs.Member.{member_count};
ghost use Rattle.rows.specs.Row.{term};
ghost use Rattle.rows.specs.BaseRows as base;
ghost use Rattle.binary_program.specs.Inner.Terms.{numbers_of, AreVariables};

use crate::adding::push_row;
use crate::terms::{EdgeKind, edges, instances, minus, minus_times, push_terms};
use arch_model::limits::EDGES;
use arch_model::{CompId, Library, Memory, VarId};
use rows::Row;
use std::alloc::Global;

// Appends the row that some of `vars` is at 1 where `v` is: their sum - x_v >= 0.
fn push_some_where(
    alloc: Global,
    rows: &mut Vec<Row>,
    lib: &Library,
    vars: &[VarId],
    v: VarId,
) -> Result<(), Memory>
    requires variables { AreVariables (member_count lib.now) EDGES vars.now }
    requires variable { v.0 < member_count lib.now }
    ensures { OnOk result (rows.new.items
        ≡ rows.old.items
        ++ base.member_row lib.now (map base.plus (numbers_of vars.now) ++ base.minus v.0 ∷ []) (pos 0) ∷ []) }
{
    let mut terms = Vec::new(alloc);
    push_terms(&mut terms, vars, 1)?;
    terms.push(minus(v))?;
    push_row(alloc, rows, lib, &terms, 0)
}

// Appends these rows for each of several variables.
fn push_some_where_each(
    alloc: Global,
    rows: &mut Vec<Row>,
    lib: &Library,
    vars: &[VarId],
    each: &[VarId],
) -> Result<(), Memory>
    requires variables { AreVariables (member_count lib.now) EDGES vars.now }
    requires each { AreVariables (member_count lib.now) EDGES each.now }
    ensures { OnOk result (rows.new.items
        ≡ rows.old.items
        ++ map (λ v. base.member_row lib.now (map base.plus (numbers_of vars.now) ++ base.minus v ∷ []) (pos 0))
        (numbers_of each.now)) }
{
    for v in each {
        push_some_where(alloc, rows, lib, vars, *v)?;
    }
    Ok(())
}

/// Appends the rows that where an instance of a is present, some instance of b is.
pub(crate) fn push_implies_rows(
    alloc: Global,
    rows: &mut Vec<Row>,
    lib: &Library,
    a: u32,
    b: u32,
) -> Result<(), Memory>
    ensures { OnOk result (rows.new.items ≡ rows.old.items ++ base.implies_rows lib.now a b) }
{
    let needed = instances(alloc, lib, b)?;
    let needing = instances(alloc, lib, a)?;
    push_some_where_each(alloc, rows, lib, &needed, &needing)
}

/// Appends the rows that component i, where it has a present edge from an instance of one type, has
/// one to an instance of another.
pub(crate) fn push_in_needs_out_rows(
    alloc: Global,
    rows: &mut Vec<Row>,
    lib: &Library,
    i: CompId,
    from: u32,
    to: u32,
) -> Result<(), Memory>
    ensures { OnOk result (rows.new.items ≡ rows.old.items ++ base.in_needs_out_rows lib.now i.0 from to) }
{
    let outgoing = edges(alloc, lib, EdgeKind::OutOf { tail: i, to })?;
    let incoming = edges(alloc, lib, EdgeKind::Into { head: i, from })?;
    push_some_where_each(alloc, rows, lib, &outgoing, &incoming)
}

// Appends the row that none of `vars` is at 1 where `v` is: with as many of them as f,
// -f*x_v - their sum >= -f.
fn push_none_where(
    alloc: Global,
    rows: &mut Vec<Row>,
    lib: &Library,
    vars: &[VarId],
    v: VarId,
) -> Result<(), Memory>
    requires variables { AreVariables (member_count lib.now) EDGES vars.now }
    requires variable { v.0 < member_count lib.now }
    ensures { OnOk result (rows.new.items
        ≡ rows.old.items
        ++ base.member_row lib.now
        (term v.0 (neg_ℤ (pos (length vars.now))) ∷ map base.minus (numbers_of vars.now))
        (neg_ℤ (pos (length vars.now)))
        ∷ []) }
{
    let mut terms = Vec::new(alloc);
    terms.push(minus_times(v, vars.len() as u64))?;
    push_terms(&mut terms, vars, -1)?;
    push_row(alloc, rows, lib, &terms, -(vars.len() as i128))
}

/// Appends the rows that component i has no present edges both from an instance of a and from one
/// of b.
pub(crate) fn push_exclusive_rows(
    alloc: Global,
    rows: &mut Vec<Row>,
    lib: &Library,
    i: CompId,
    a: u32,
    b: u32,
) -> Result<(), Memory>
    ensures { OnOk result (rows.new.items ≡ rows.old.items ++ base.exclusive_rows lib.now i.0 a b) }
{
    let from_b = edges(alloc, lib, EdgeKind::Into { head: i, from: b })?;
    if from_b.is_empty() {
        return Ok(());
    }
    for v in &edges(alloc, lib, EdgeKind::Into { head: i, from: a })? {
        push_none_where(alloc, rows, lib, &from_b, *v)?;
    }
    Ok(())
}

/// Appends the row that no edge from one component to another is present, where the template has
/// the edge: -x_e >= 0.
pub(crate) fn push_forbid_rows(
    alloc: Global,
    rows: &mut Vec<Row>,
    lib: &Library,
    tail: CompId,
    head: CompId,
) -> Result<(), Memory>
    ensures { OnOk result (rows.new.items ≡ rows.old.items ++ base.forbid_rows lib.now tail.0 head.0) }
{
    for e in &edges(alloc, lib, EdgeKind::Between { tail, head })? {
        push_row(alloc, rows, lib, &[minus(*e)], 0)?;
    }
    Ok(())
}
