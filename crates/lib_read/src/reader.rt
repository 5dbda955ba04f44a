// The library of bytes.
ghost use Rattle.std.specs.Prelude.{◌≡◌, ◌<◌, ◌^◌, [], Some, None, Ok, Err, IfOk, IfErr, option_map};
ghost use Rattle.toml.specs.View.{view};
ghost use Rattle.lib_read.specs.Fault.{least};
ghost use Rattle.lib_read.specs.Tree.{tree_of};
ghost use Rattle.lib_read.specs.Faults as faults;
ghost use Rattle.lib_read.specs.Rows as rows;
ghost use Rattle.lib_read.specs.Inner.Keys.{StopsAt, Tells, fault_view};
ghost use Rattle.lib_read.specs.LibraryOf.{judged, library_of, FaultOf};

use crate::components::component_names;
use crate::fault::{Fault, LibClass, LibError, LibFault, Stop, TableName};
use crate::names::Names;
use crate::passes::judge;
use crate::rows::{link_rows, pattern_rows, requirement_rows, type_rows};
use crate::values::rows_of;
use arch_model::limits::{PATTERNS, REQUIREMENTS};
use arch_model::{KeyText, Library, Memory};
use std::alloc::{AllocError, Global};
use template::{expand, has_few_components, has_few_edges};
use toml::Value;

/// The greatest number of bytes of a library file.
pub const LARGEST: usize = 1_048_576;

// A fault as an answer, with a key of its own.
fn told(alloc: Global, fault: Fault) -> LibError
    requires { fault.position < 2 ^ 32 }
    ensures { Tells (fault_view fault.entry) result }
{
    match Vec::from_slice(alloc, fault.key.as_bytes()) {
        Ok(key) => LibError::Fault(LibFault {
            class: fault.class,
            table: fault.table,
            position: fault.position as u32,
            key: KeyText::new(key),
        }),
        Err(_) => LibError::Memory,
    }
}

// A fault of the file as a whole.
fn whole_file(class: LibClass, key: &str) -> Fault<'_>
    ensures { result ≡ record { class = class; table = TableName.Library; position = 0; key = key.entry } }
{
    Fault {
        class,
        table: TableName::Library,
        position: 0,
        key,
    }
}

// The library of a document that has no fault but, perhaps, one of its limits.
fn build<'a>(alloc: Global, top: &'a Value, names: &Names) -> Result<Library, Stop<'a>>
    requires judged { faults.judged_faults (view top.now) ≡ [] }
    requires names { names.now ≡ rows.type_names (view top.now) }
    ensures clear { IfOk result (λ _. faults.limit_faults (view top.now) ≡ []) }
    ensures library { IfOk result (λ lib. lib ≡ rows.library_of_tree (view top.now)) }
    ensures stops { IfErr result (StopsAt (least (faults.limit_faults (view top.now)))) }
{
    let types = type_rows(alloc, top)?;
    if !has_few_components(&types) {
        return Err(Stop::Fault(whole_file(LibClass::TooMany, "type")));
    }
    let links = link_rows(alloc, top, names)?;
    if !has_few_edges(&types, &links) {
        return Err(Stop::Fault(whole_file(LibClass::TooMany, "link")));
    }
    if rows_of(top, TableName::Patterns).len() > PATTERNS {
        return Err(Stop::Fault(whole_file(LibClass::TooMany, "pattern")));
    }
    if rows_of(top, TableName::Requires).len() > REQUIREMENTS {
        return Err(Stop::Fault(whole_file(LibClass::TooMany, "require")));
    }
    let components = component_names(alloc, &types)?;
    let patterns = pattern_rows(alloc, top, names, &components)?;
    let requirements = requirement_rows(alloc, top, &components)?;
    let template = expand(alloc, &types, &links)?;
    Ok(Library::new(types, links, template, patterns, requirements))
}

// The library of a document.
fn library_in<'a>(alloc: Global, top: &'a Value) -> Result<Library, Stop<'a>>
    ensures library { IfOk result (λ lib. judged (view top.now) (least (faults.faults_of (view top.now))) ≡ Ok lib) }
    ensures stops { IfErr result (StopsAt (least (faults.faults_of (view top.now)))) }
{
    let names = judge(alloc, top)?;
    build(alloc, top, &names)
}

// The document that bytes are: none where they are no TOML document.
fn tree(alloc: Global, bytes: &[u8]) -> Result<Option<Value>, Memory>
    ensures { IfOk result (λ top. tree_of bytes.now ≡ option_map view top) }
{
    match toml::table_from_slice(alloc, bytes) {
        Ok(table) => Ok(Some(Value::Table(table))),
        Err(e) => {
            if e.is_memory() {
                Err(AllocError)
            } else {
                Ok(None)
            }
        }
    }
}

/// Reads the bytes of a library file.
///
/// Answers the library that the bytes are by `library_of`, or their fault by `library_of`: the
/// first in the order of the classes, and within a class by table, position and key. `Memory` may
/// always come, and says nothing of the bytes.
pub fn read_library(alloc: Global, bytes: &[u8]) -> Result<Library, LibError>
    ensures library { IfOk result (λ lib. library_of bytes.now ≡ Ok lib) }
    ensures fault { IfErr result (FaultOf bytes.now) }
{
    if bytes.len() > LARGEST {
        return Err(told(alloc, whole_file(LibClass::TooLarge, "-")));
    }
    let Some(top) = tree(alloc, bytes)? else {
        return Err(told(alloc, whole_file(LibClass::NotToml, "-")));
    };
    match library_in(alloc, &top) {
        Ok(library) => Ok(library),
        Err(Stop::Memory) => Err(LibError::Memory),
        Err(Stop::Fault(fault)) => Err(told(alloc, fault)),
    }
}
