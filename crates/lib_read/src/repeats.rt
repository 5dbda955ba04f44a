// Rows that repeat what an earlier row has.
ghost use Rattle.std.specs.Prelude.{◌≡◌, [], option_map, IfOk, IfErr};
ghost use Rattle.toml.specs.View.{view};
ghost use Rattle.lib_read.specs.Fault.{least};
ghost use Rattle.lib_read.specs.Faults as faults;
ghost use Rattle.lib_read.specs.Rows as rows;
ghost use Rattle.lib_read.specs.Inner.Keys.{StopsAt};

use crate::fault::{Fault, LibClass, Stop, TableName};
use crate::names::{Names, Pairs};
use crate::values::{rows_of, text_at};
use std::alloc::Global;
use toml::Value;

// A row that repeats an earlier one.
fn repeat(table: TableName, position: usize, key: &str) -> Fault<'_>
    ensures { result ≡ record { class = LibClass.Duplicate; table = table; position = position; key = key.entry } }
{
    Fault {
        class: LibClass::Duplicate,
        table,
        position,
        key,
    }
}

// The types' names, unless one stands twice.
pub(crate) fn type_names<'a>(alloc: Global, top: &'a Value) -> Result<Names<'a>, Stop<'a>>
    ensures names { IfOk result (λ names. names ≡ rows.type_names (view top.now)) }
    ensures clear { IfOk result (λ _. faults.repeated_names (view top.now) ≡ []) }
    ensures stops { IfErr result (StopsAt (least (faults.repeated_names (view top.now)))) }
{
    let mut names = Names::new(alloc);
    let rows = rows_of(top, TableName::Types);
    for (i, row) in rows.iter().enumerate() {
        if let Some(name) = text_at(row, "name") {
            if !names.add(name)? {
                return Err(Stop::Fault(repeat(TableName::Types, i + 1, "name")));
            }
        }
    }
    Ok(names)
}

// The two types' names of a link.
fn link_ends(row: &Value) -> Option<(&str, &str)>
    ensures { option_map (λ p. (p.0.now, p.1.now)) result ≡ faults.link_ends (view row.now) }
{
    Some((text_at(row, "from")?, text_at(row, "to")?))
}

// Whether no two links have the same pair of types.
pub(crate) fn check_links<'a>(alloc: Global, top: &'a Value) -> Result<(), Stop<'a>>
    ensures clear { IfOk result (λ _. faults.repeated_links (view top.now) ≡ []) }
    ensures stops { IfErr result (StopsAt (least (faults.repeated_links (view top.now)))) }
{
    let mut pairs = Pairs::new(alloc);
    let rows = rows_of(top, TableName::Links);
    for (i, row) in rows.iter().enumerate() {
        if let Some((from, to)) = link_ends(row) {
            if !pairs.add(from, to)? {
                return Err(Stop::Fault(repeat(TableName::Links, i + 1, "to")));
            }
        }
    }
    Ok(())
}
