// The names of components, as a document's types give them.
ghost use Rattle.std.specs.Prelude.{codes, [], unwrap_or, ◌≡◌, ◌<◌, ◌++◌, map, position, length, string_bytes};
ghost use Rattle.std.specs.Prelude.{IfOk, IfSome, OnOk, option_map};
ghost use Rattle.std.specs.List.{flat_map};
ghost use Rattle.std.specs.Str.{bytes_eq};
ghost use Rattle.toml.specs.View.{view};
ghost use Rattle.lib_read.specs.Tree as tree;
ghost use Rattle.lib_read.specs.Components as comps;
ghost use Rattle.lib_read.specs.Inner.Building.{names_of_type};
ghost use Rattle.lib_read.specs.Schema.{is_named, type_of_component};
ghost use Rattle.lib_read.specs.Schema as spec;

use crate::fault::TableName;
use crate::rows::number_or;
use crate::values::{rows_of, text_at};
use arch_model::{Memory, TypeRow};
use std::alloc::Global;
use template::{index_in, instance_name};
use toml::Value;

// The name of a type's row.
fn name_in(row: &Value) -> &str
    ensures { result.now ≡ unwrap_or (tree.text_at (codes "name") (view row.now)) [] }
{
    text_at(row, "name").unwrap_or("")
}

// Whether a text is the name of an instance of a type.
fn is_instance(row: &Value, text: &str) -> bool
    ensures { result ≡ is_named (comps.instance_names (view row.now)) text.now }
{
    let name = name_in(row);
    let max = number_or(1, row, "max");
    index_in(text, name).is_some_and(|index| index <= max)
}

// The row of the type whose component has a name, by the types' `max` as they are written.
fn type_of<'a>(top: &'a Value, text: &str) -> Option<&'a Value>
    ensures { option_map (λ row. view row.now) result ≡ type_of_component (view top.now) text.now }
{
    let rows = rows_of(top, TableName::Types);
    for row in rows {
        if is_instance(row, text) {
            return Some(row);
        }
    }
    None
}

// Whether a text is the name of a component.
pub(crate) fn is_component(top: &Value, text: &str) -> bool
    ensures { result ≡ is_named (comps.component_names (view top.now)) text.now }
{
    type_of(top, text).is_some()
}

// Whether a type's role is sink.
fn is_sink_type(row: &Value) -> bool
    ensures { result ≡ spec.is_sink_type (view row.now) }
{
    text_at(row, "role").is_some_and(|role| role == "sink")
}

// Whether a text is the name of a component of role sink.
pub(crate) fn is_sink(top: &Value, text: &str) -> bool
    ensures { result ≡ spec.is_sink (view top.now) text.now }
{
    type_of(top, text).is_some_and(is_sink_type)
}

// Appends the names of a type's instances.
fn push_names(alloc: Global, names: &mut Vec<String>, row: &TypeRow) -> Result<(), Memory>
    ensures { OnOk result (map string_bytes names.new.items ≡
        map string_bytes names.old.items ++ names_of_type row.now) }
{
    for i in 0..row.max {
        names.push(instance_name(alloc, row.name.text(), i + 1)?)?;
    }
    Ok(())
}

// The names of all components.
pub(crate) fn component_names(alloc: Global, types: &[TypeRow]) -> Result<Vec<String>, Memory>
    ensures { IfOk result (λ names. map string_bytes names.items ≡ flat_map names_of_type types.now) }
{
    let mut names = Vec::new(alloc);
    for row in types {
        push_names(alloc, &mut names, row)?;
    }
    Ok(names)
}

// The number of the component of a name.
pub(crate) fn place_of(text: &str, names: &[String]) -> Option<usize>
    ensures place { result ≡ position (λ name. bytes_eq text.now (string_bytes name)) names.now }
    ensures below { IfSome result (λ i. i < length names.now) }
{
    names.iter().position(|name| text == name.as_str())
}
