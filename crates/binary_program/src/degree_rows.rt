// The rows of patterns that bound how many of some members are present.
ghost use Rattle.std.specs.Prelude.{◌≡◌, ◌≤◌, ◌<◌, ◌++◌, ◌∷◌, [], OnOk, map, pos, neg_ℤ};
ghost use Rattle.arch_model.specs.Member.{member_count};
ghost use Rattle.rows.specs.Row.{term};
ghost use Rattle.rows.specs.BaseRows as base;
ghost use Rattle.binary_program.specs.Inner.Terms.{numbers_of, AreVariables};
ghost use Rattle.binary_program.specs.Inner.Asked.{variables_on};

use crate::adding::push_row;
use crate::asked::Side;
use crate::terms::{edges, instances, minus_times, push_terms};
use arch_model::limits::EDGES;
use arch_model::{CompId, Library, Memory, VarId};
use rows::Row;
use std::alloc::Global;

// Appends the row that at most `max` of some variables are at 1, where there is a greatest number.
fn push_at_most(
    alloc: Global,
    rows: &mut Vec<Row>,
    lib: &Library,
    vars: &[VarId],
    max: Option<u32>,
) -> Result<(), Memory>
    requires variables { AreVariables (member_count lib.now) EDGES vars.now }
    ensures { OnOk result (rows.new.items ≡ rows.old.items ++ base.at_most lib.now max (numbers_of vars.now)) }
{
    let Some(max) = max else {
        return Ok(());
    };
    let mut terms = Vec::new(alloc);
    push_terms(&mut terms, vars, -1)?;
    push_row(alloc, rows, lib, &terms, -(max as i128))
}

// Appends the row that at least `min` of some variables are at 1, unless `min` is 0.
fn push_at_least(
    alloc: Global,
    rows: &mut Vec<Row>,
    lib: &Library,
    vars: &[VarId],
    min: u32,
) -> Result<(), Memory>
    requires variables { AreVariables (member_count lib.now) EDGES vars.now }
    ensures { OnOk result (rows.new.items
        ≡ rows.old.items
        ++ base.at_least min (base.member_row lib.now (map base.plus (numbers_of vars.now)) (pos min))) }
{
    if min == 0 {
        return Ok(());
    }
    let mut terms = Vec::new(alloc);
    push_terms(&mut terms, vars, 1)?;
    push_row(alloc, rows, lib, &terms, min as i128)
}

/// Appends the rows that the number of present instances of a type is in range.
pub(crate) fn push_count_rows(
    alloc: Global,
    rows: &mut Vec<Row>,
    lib: &Library,
    of: u32,
    min: u32,
    max: Option<u32>,
) -> Result<(), Memory>
    ensures { OnOk result (rows.new.items ≡ rows.old.items ++ base.count_rows lib.now of min max) }
{
    let vars = instances(alloc, lib, of)?;
    push_at_least(alloc, rows, lib, &vars, min)?;
    push_at_most(alloc, rows, lib, &vars, max)
}

// Appends the row that at least `min` of some edges of instance i are present where i is, unless
// `min` is 0.
fn push_at_least_where(
    alloc: Global,
    rows: &mut Vec<Row>,
    lib: &Library,
    i: VarId,
    vars: &[VarId],
    min: u32,
) -> Result<(), Memory>
    requires instance { i.0 < member_count lib.now }
    requires variables { AreVariables (member_count lib.now) EDGES vars.now }
    requires few { min ≤ 512 }
    ensures { OnOk result (rows.new.items
        ≡ rows.old.items
        ++ base.at_least min
        (base.member_row lib.now (map base.plus (numbers_of vars.now) ++ term i.0 (neg_ℤ (pos min)) ∷ []) (pos 0))) }
{
    if min == 0 {
        return Ok(());
    }
    let mut terms = Vec::new(alloc);
    push_terms(&mut terms, vars, 1)?;
    terms.push(minus_times(i, min as u64))?;
    push_row(alloc, rows, lib, &terms, 0)
}

// Appends the rows of a degree of instance i, over the edges that count for it.
fn push_degree_rows(
    alloc: Global,
    rows: &mut Vec<Row>,
    lib: &Library,
    i: VarId,
    vars: &[VarId],
    min: u32,
    max: Option<u32>,
) -> Result<(), Memory>
    requires instance { i.0 < member_count lib.now }
    requires variables { AreVariables (member_count lib.now) EDGES vars.now }
    requires few { min ≤ 512 }
    ensures { OnOk result
        (rows.new.items ≡ rows.old.items ++ base.degree_rows lib.now i.0 (numbers_of vars.now) min max) }
{
    push_at_least_where(alloc, rows, lib, i, vars, min)?;
    push_at_most(alloc, rows, lib, vars, max)
}

/// Appends the rows of a degree of component i: on a side, over the edges that join it to instances
/// of a type.
pub(crate) fn push_degree_rows_on(
    alloc: Global,
    rows: &mut Vec<Row>,
    lib: &Library,
    i: CompId,
    side: Side,
    other: u32,
    min: u32,
    max: Option<u32>,
) -> Result<(), Memory>
    requires instance { i.0 < member_count lib.now }
    requires few { min ≤ 512 }
    ensures { OnOk result (rows.new.items
        ≡ rows.old.items ++ base.degree_rows lib.now i.0 (variables_on side lib.now other i.0) min max) }
{
    let vars = edges(alloc, lib, side.edges(i, other))?;
    push_degree_rows(alloc, rows, lib, VarId(i.0), &vars, min, max)
}
