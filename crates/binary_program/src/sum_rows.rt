// The rows of patterns that add up supplies, demands and costs.
ghost use Rattle.std.specs.Prelude.{◌≡◌, ◌≤◌, ◌<◌, ◌^◌, ◌++◌, ◌∷◌, [], OnOk, map, pos, neg_ℤ};
ghost use Rattle.arch_model.specs.Template.{instances_of};
ghost use Rattle.rows.specs.BaseRows as base;

use crate::adding::push_row;
use crate::terms::{balance_terms, cost_terms, instances, push_demands, push_supplies};
use arch_model::{CompId, Library, Memory};
use rows::Row;
use std::alloc::Global;

/// Appends the row that the supply of all present components sums to at least their demand.
pub(crate) fn push_total_supply_rows(
    alloc: Global,
    rows: &mut Vec<Row>,
    lib: &Library,
) -> Result<(), Memory>
    ensures { OnOk result (rows.new.items ≡ rows.old.items ++ base.total_supply_rows lib.now) }
{
    let terms = balance_terms(alloc, lib)?;
    push_row(alloc, rows, lib, &terms, 0)
}

// Appends the row that what the present edges bring to component i is at least what they ask of it.
fn push_local_supply_row(
    alloc: Global,
    rows: &mut Vec<Row>,
    lib: &Library,
    i: CompId,
) -> Result<(), Memory>
    ensures { OnOk result (rows.new.items ≡ rows.old.items ++ base.local_supply_row lib.now i.0 ∷ []) }
{
    let mut terms = Vec::new(alloc);
    push_supplies(&mut terms, lib, i)?;
    push_demands(&mut terms, lib, i)?;
    push_row(alloc, rows, lib, &terms, 0)
}

/// Appends these rows for each instance of a type.
pub(crate) fn push_local_supply_rows(
    alloc: Global,
    rows: &mut Vec<Row>,
    lib: &Library,
    of: u32,
) -> Result<(), Memory>
    ensures { OnOk result (rows.new.items
        ≡ rows.old.items ++ map (base.local_supply_row lib.now) (instances_of lib.now.components of)) }
{
    for i in &instances(alloc, lib, of)? {
        push_local_supply_row(alloc, rows, lib, CompId(i.0))?;
    }
    Ok(())
}

/// Appends the row that the cost is at most `max`.
pub(crate) fn push_cost_cap_rows(
    alloc: Global,
    rows: &mut Vec<Row>,
    lib: &Library,
    max: u64,
) -> Result<(), Memory>
    requires { max ≤ 10 ^ 15 }
    ensures { OnOk result (rows.new.items
        ≡ rows.old.items ++ base.member_row lib.now (base.cost_terms lib.now) (neg_ℤ (pos max)) ∷ []) }
{
    let terms = cost_terms(alloc, lib)?;
    push_row(alloc, rows, lib, &terms, -(max as i128))
}
