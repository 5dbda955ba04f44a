// The problem of a library: the rows of all patterns after those of edges and requirements.
ghost use Rattle.std.specs.Prelude.{◌≡◌, ◌++◌, IfOk, OnOk, length};
ghost use Rattle.arch_model.specs.Library.{IsPatternRow};
ghost use Rattle.rows.specs.BaseRows.{base_rows_of, pattern_rows};
ghost use Rattle.rows.specs.Problem.{DecidePatterns, problem_parts};

use crate::asked::{Asked, Side, push_asked_rows};
use crate::condition_rows::{push_forbid_rows, push_implies_rows};
use crate::degree_rows::push_count_rows;
use crate::edge_rows::{push_edge_rows, push_requirement_rows};
use crate::sum_rows::{push_cost_cap_rows, push_local_supply_rows, push_total_supply_rows};
use arch_model::{Library, Memory, Pattern};
use rows::{Problem, Row};
use std::alloc::Global;

// Appends the rows of a pattern.
fn push_pattern_rows(
    alloc: Global,
    rows: &mut Vec<Row>,
    lib: &Library,
    pattern: &Pattern,
) -> Result<(), Memory>
    requires { IsPatternRow (length lib.now.types) (length lib.now.components) pattern.now }
    ensures { OnOk result (rows.new.items ≡ rows.old.items ++ pattern_rows lib.now pattern.now) }
{
    match *pattern {
        Pattern::Count { of, min, max } => push_count_rows(alloc, rows, lib, of, min, max),
        Pattern::InDegree { of, from, min, max } => {
            let asked = Asked::Degree {
                side: Side::In,
                other: from,
                min,
                max,
            };
            push_asked_rows(alloc, rows, lib, of, asked)
        }
        Pattern::OutDegree { of, to, min, max } => {
            let asked = Asked::Degree {
                side: Side::Out,
                other: to,
                min,
                max,
            };
            push_asked_rows(alloc, rows, lib, of, asked)
        }
        Pattern::InNeedsOut { of, from, to } => {
            push_asked_rows(alloc, rows, lib, of, Asked::InNeedsOut { from, to })
        }
        Pattern::Exclusive { of, a, b } => {
            push_asked_rows(alloc, rows, lib, of, Asked::Exclusive { a, b })
        }
        Pattern::Implies { a, b } => push_implies_rows(alloc, rows, lib, a, b),
        Pattern::Forbid { tail, head } => push_forbid_rows(alloc, rows, lib, tail, head),
        Pattern::TotalSupply => push_total_supply_rows(alloc, rows, lib),
        Pattern::LocalSupply { of } => push_local_supply_rows(alloc, rows, lib, of),
        Pattern::CostCap { max } => push_cost_cap_rows(alloc, rows, lib, max),
    }
}

// The base rows of a library, in the order of their numbers.
fn base_rows(alloc: Global, lib: &Library) -> Result<Vec<Row>, Memory>
    ensures rows { IfOk result (λ rows. rows.items ≡ base_rows_of lib.now) }
    ensures decides { IfOk result (λ rows. DecidePatterns lib.now rows.items) }
{
    let mut rows = Vec::new(alloc);
    push_edge_rows(alloc, &mut rows, lib)?;
    push_requirement_rows(alloc, &mut rows, lib)?;
    for pattern in lib.patterns() {
        push_pattern_rows(alloc, &mut rows, lib, pattern)?;
    }
    Ok(rows)
}

/// The problem of a library: its base rows, which decide its patterns. The only error is want of
/// memory; the library is dropped with it.
pub fn problem_of(alloc: Global, library: Library) -> Result<Problem, Memory>
    ensures rows { IfOk result (λ problem. problem ≡ problem_parts library (base_rows_of library)) }
    ensures decides { IfOk result (λ problem. DecidePatterns problem.library problem.base) }
{
    let rows = base_rows(alloc, &library)?;
    Ok(Problem::new(library, rows))
}
