// The rows of patterns that ask something of each instance of a type.
ghost use Rattle.std.specs.Prelude.{◌≡◌, ◌<◌, ◌++◌, OnOk};
ghost use Rattle.std.specs.List.{flat_map};
ghost use Rattle.arch_model.specs.Member.{member_count};
ghost use Rattle.arch_model.specs.Template.{instances_of};
ghost use Rattle.binary_program.specs.Inner.Asked as spec;

use crate::condition_rows::{push_exclusive_rows, push_in_needs_out_rows};
use crate::degree_rows::push_degree_rows_on;
use crate::terms::{EdgeKind, instances};
use arch_model::{CompId, Library, Memory};
use rows::Row;
use std::alloc::Global;

/// A side of a component.
#[derive(Clone, Copy)]
pub(crate) enum Side {
    /// The edges into it.
    In,
    /// The edges out of it.
    Out,
}

impl Side {
    // The edges that join component i on this side to instances of a type.
    pub(crate) fn edges(self, i: CompId, other: u32) -> EdgeKind
        ensures { result ≡ spec.edges_on self i other }
    {
        match self {
            Side::In => EdgeKind::Into {
                head: i,
                from: other,
            },
            Side::Out => EdgeKind::OutOf { tail: i, to: other },
        }
    }
}

/// What a pattern asks of each instance of a type.
#[derive(Clone, Copy)]
pub(crate) enum Asked {
    /// Where it is present, a number in range of present edges that join it on a side to instances
    /// of a type.
    Degree {
        side: Side,
        other: u32,
        min: u32,
        max: Option<u32>,
    },
    /// A present edge to an instance of `to`, where it has one from an instance of `from`.
    InNeedsOut {
        from: u32,
        to: u32,
    },
    /// No present edges both from an instance of `a` and from one of `b`.
    Exclusive {
        a: u32,
        b: u32,
    },
}

// Appends the rows of what is asked of component i.
fn push_rows_at(
    alloc: Global,
    rows: &mut Vec<Row>,
    lib: &Library,
    i: CompId,
    asked: Asked,
) -> Result<(), Memory>
    requires instance { i.0 < member_count lib.now }
    requires asked { spec.IsAsked asked }
    ensures { OnOk result (rows.new.items ≡ rows.old.items ++ spec.asked_rows lib.now asked i.0) }
{
    match asked {
        Asked::Degree {
            side,
            other,
            min,
            max,
        } => push_degree_rows_on(alloc, rows, lib, i, side, other, min, max),
        Asked::InNeedsOut { from, to } => push_in_needs_out_rows(alloc, rows, lib, i, from, to),
        Asked::Exclusive { a, b } => push_exclusive_rows(alloc, rows, lib, i, a, b),
    }
}

/// Appends the rows of what is asked of each instance of a type.
pub(crate) fn push_asked_rows(
    alloc: Global,
    rows: &mut Vec<Row>,
    lib: &Library,
    of: u32,
    asked: Asked,
) -> Result<(), Memory>
    requires { spec.IsAsked asked }
    ensures { OnOk result (rows.new.items
        ≡ rows.old.items ++ flat_map (spec.asked_rows lib.now asked) (instances_of lib.now.components of)) }
{
    for i in &instances(alloc, lib, of)? {
        push_rows_at(alloc, rows, lib, CompId(i.0), asked)?;
    }
    Ok(())
}
