// The rows that ask for the ends of edges, and those of requirements.
ghost use Rattle.std.specs.Prelude.{◌≡◌, ◌<◌, ◌++◌, ◌∷◌, [], OnOk, pos, length};
ghost use Rattle.arch_model.specs.Member.{member_count};
ghost use Rattle.rows.specs.BaseRows as base;

use crate::adding::push_row;
use crate::terms::{edge_variable, minus, plus};
use arch_model::{CompId, Library, Memory, VarId};
use rows::Row;
use std::alloc::Global;

// Appends the row that asks for an end of an edge: x_end - x_e >= 0.
fn push_end_row(
    alloc: Global,
    rows: &mut Vec<Row>,
    lib: &Library,
    end: CompId,
    e: VarId,
) -> Result<(), Memory>
    requires end { end.0 < length lib.now.components }
    requires edge { e.0 < member_count lib.now }
    ensures { OnOk result (rows.new.items
        ≡ rows.old.items ++ base.member_row lib.now (base.plus end.0 ∷ base.minus e.0 ∷ []) (pos 0) ∷ []) }
{
    push_row(alloc, rows, lib, &[plus(VarId(end.0)), minus(e)], 0)
}

/// Appends two rows for each edge, which ask for its tail and its head.
pub(crate) fn push_edge_rows(
    alloc: Global,
    rows: &mut Vec<Row>,
    lib: &Library,
) -> Result<(), Memory>
    ensures { OnOk result (rows.new.items ≡ rows.old.items ++ base.edge_rows lib.now) }
{
    for (e, edge) in lib.edges().iter().enumerate() {
        let var = edge_variable(lib, e);
        push_end_row(alloc, rows, lib, edge.tail, var)?;
        push_end_row(alloc, rows, lib, edge.head, var)?;
    }
    Ok(())
}

/// Appends one row for each requirement, which asks for its sink: x_sink >= 1.
pub(crate) fn push_requirement_rows(
    alloc: Global,
    rows: &mut Vec<Row>,
    lib: &Library,
) -> Result<(), Memory>
    ensures { OnOk result (rows.new.items ≡ rows.old.items ++ base.requirement_rows lib.now) }
{
    for requirement in lib.requirements() {
        let sink = VarId(requirement.sink.0);
        push_row(alloc, rows, lib, &[plus(sink)], 1)?;
    }
    Ok(())
}
