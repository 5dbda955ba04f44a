// The passes over a document, one class of faults at a time: each answers the first of its list.
ghost use Rattle.std.specs.Prelude.{◌≡◌, [], option_map, map, IfOk, IfErr};
ghost use Rattle.std.specs.List.{filter};
ghost use Rattle.std.specs.List.Sorted.{IsStrictlySortedBy};
ghost use Rattle.std.specs.Option.{option_copied};
ghost use Rattle.toml.specs.Data.{table};
ghost use Rattle.toml.specs.View.{view, table_view};
ghost use Rattle.lib_read.specs.Fault.{least, text_cmp};
ghost use Rattle.lib_read.specs.Inner.Passes.{first};
ghost use Rattle.lib_read.specs.Tree as tree;
ghost use Rattle.lib_read.specs.Schema as spec;
ghost use Rattle.lib_read.specs.Inner.Keys.{key_view, fault_view, StopsAt};
ghost use Rattle.lib_read.specs.Rows as rows;
ghost use Rattle.lib_read.specs.Faults as faults;

use crate::checks::is_faulty;
use crate::fault::{Fault, LibClass, Stop, TableName};
use crate::names::Names;
use crate::repeats::{check_links, type_names};
use crate::schema::{Key, table_keys};
use crate::values::rows_of;
use std::alloc::Global;
use toml::{Table, Value};

// Whether a key is one of some.
fn is_known(keys: &[Key], name: &str) -> bool
    ensures { result ≡ faults.is_known (map key_view keys.now) name.now }
{
    for key in keys {
        if key.name == name {
            return true;
        }
    }
    false
}

// The first key of a table that isn't one of some.
fn unknown_key<'a>(keys: &[Key], row: &'a Table) -> Option<&'a str>
    ensures first { option_copied result ≡
        first (faults.unknown_keys (map key_view keys.now) (table (table_view row.now))) }
    ensures ascend { IsStrictlySortedBy text_cmp
        (faults.unknown_keys (map key_view keys.now) (table (table_view row.now))) }
{
    for (name, _) in row {
        if !is_known(keys, name.as_str()) {
            return Some(name.as_str());
        }
    }
    None
}

// The first of some keys with a fault of a class.
fn faulty_key(
    class: LibClass,
    keys: &'static [Key],
    row: &Value,
    names: &Names,
    top: &Value,
) -> Option<&'static str>
    requires { IsStrictlySortedBy text_cmp (map (λ key. key.name) (map key_view keys.now)) }
    ensures first { option_copied result ≡
        first (map (λ key. key.name)
        (filter (spec.is_faulty (view top.now) names.now class (view row.now)) (map key_view keys.now))) }
    ensures ascend { IsStrictlySortedBy text_cmp
        (map (λ key. key.name)
        (filter (spec.is_faulty (view top.now) names.now class (view row.now)) (map key_view keys.now))) }
{
    for key in keys {
        if is_faulty(class, key, row, names, top) {
            return Some(key.name);
        }
    }
    None
}

// The first key at which a row has a fault of a class.
fn row_key<'a>(
    class: LibClass,
    keys: &'static [Key],
    row: &'a Value,
    names: &Names,
    top: &Value,
) -> Option<&'a str>
    requires { IsStrictlySortedBy text_cmp (map (λ key. key.name) (map key_view keys.now)) }
    ensures first { option_copied result ≡
        first (faults.faulty_keys (view top.now) names.now class (map key_view keys.now) (view row.now)) }
    ensures ascend { IsStrictlySortedBy text_cmp
        (faults.faulty_keys (view top.now) names.now class (map key_view keys.now) (view row.now)) }
{
    match row.as_table() {
        Some(table) => match class {
            LibClass::UnknownKey => unknown_key(keys, table),
            _ => faulty_key(class, keys, row, names, top),
        },
        None => match class {
            LibClass::WrongKind => Some("-"),
            _ => None,
        },
    }
}

// The first fault of a class in the row of a table at a position.
pub(crate) fn row_fault<'a>(
    class: LibClass,
    table: TableName,
    position: usize,
    row: &'a Value,
    names: &Names,
    top: &Value,
) -> Option<Fault<'a>>
    ensures { option_map fault_view result
        ≡ least (faults.row_faults (view top.now) names.now class table position (view row.now)) }
{
    let key = row_key(class, table_keys(table, row), row, names, top)?;
    Some(Fault {
        class,
        table,
        position,
        key,
    })
}

// The first fault of a class in a table's rows.
fn table_fault<'a>(
    class: LibClass,
    table: TableName,
    top: &'a Value,
    names: &Names,
) -> Option<Fault<'a>>
    ensures { option_map fault_view result ≡ least (faults.table_faults names.now class table (view top.now)) }
{
    let rows = rows_of(top, table);
    for (i, row) in rows.iter().enumerate() {
        if let Some(fault) = row_fault(class, table, i + 1, row, names, top) {
            return Some(fault);
        }
    }
    None
}

// The first fault of a class in the document and its tables.
pub(crate) fn class_fault<'a>(class: LibClass, top: &'a Value, names: &Names) -> Option<Fault<'a>>
    ensures { option_map fault_view result ≡ least (faults.class_faults names.now class (view top.now)) }
{
    if let Some(fault) = row_fault(class, TableName::Library, 0, top, names, top) {
        return Some(fault);
    }
    if let Some(fault) = table_fault(class, TableName::Types, top, names) {
        return Some(fault);
    }
    if let Some(fault) = table_fault(class, TableName::Links, top, names) {
        return Some(fault);
    }
    if let Some(fault) = table_fault(class, TableName::Patterns, top, names) {
        return Some(fault);
    }
    table_fault(class, TableName::Requires, top, names)
}

// Whether the document and its tables have no fault of a class.
fn check_class<'a>(class: LibClass, top: &'a Value, names: &Names) -> Result<(), Stop<'a>>
    ensures clear { IfOk result (λ _. faults.class_faults names.now class (view top.now) ≡ []) }
    ensures stops { IfErr result (StopsAt (least (faults.class_faults names.now class (view top.now)))) }
{
    match class_fault(class, top, names) {
        Some(fault) => Err(Stop::Fault(fault)),
        None => Ok(()),
    }
}

// Whether the document has no fault of the classes that are judged row by row.
fn check_rows<'a>(alloc: Global, top: &'a Value) -> Result<(), Stop<'a>>
    ensures clear { IfOk result (λ _. faults.plain_faults (view top.now) ≡ []) }
    ensures stops { IfErr result (StopsAt (least (faults.plain_faults (view top.now)))) }
{
    let none = Names::new(alloc);
    check_class(LibClass::UnknownKey, top, &none)?;
    check_class(LibClass::MissingKey, top, &none)?;
    check_class(LibClass::WrongKind, top, &none)?;
    check_class(LibClass::BadName, top, &none)
}

// The types' names, where the document has no fault but one of its limits.
pub(crate) fn judge<'a>(alloc: Global, top: &'a Value) -> Result<Names<'a>, Stop<'a>>
    ensures names { IfOk result (λ names. names ≡ rows.type_names (view top.now)) }
    ensures clear { IfOk result (λ _. faults.judged_faults (view top.now) ≡ []) }
    ensures stops { IfErr result (StopsAt (least (faults.judged_faults (view top.now)))) }
{
    check_rows(alloc, top)?;
    let names = type_names(alloc, top)?;
    check_links(alloc, top)?;
    check_class(LibClass::UnknownName, top, &names)?;
    check_class(LibClass::Range, top, &names)?;
    Ok(names)
}
