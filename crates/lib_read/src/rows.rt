// The rows of a document without a fault.
ghost use Rattle.std.specs.Prelude.{◌≡◌, ◌≤◌, ◌<◌, length, map, position, string_bytes, IfOk, IfSome};
ghost use Rattle.std.specs.Option.{option_and_then};
ghost use Rattle.std.specs.Str.{bytes_eq};
ghost use Rattle.std.specs.List.{All};
ghost use Rattle.toml.specs.View.{view};
ghost use Rattle.arch_model.specs.Library.{IsTypeRow};
ghost use Rattle.lib_read.specs.Rows as rows;
ghost use Rattle.lib_read.specs.Inner.Building.{KindFits, PatternFits};
ghost use Rattle.lib_read.specs.Components as comps;
ghost use Rattle.lib_read.specs.Tree as tree;

use crate::components::place_of;
use crate::fault::TableName;
use crate::names::Names;
use crate::schema::{Kind, role_of, row_kind};
use crate::values::{integer_at, rows_of, text_at};
use arch_model::{CompId, LinkRow, Memory, Name, Pattern, Requirement, Role, TypeRow};
use std::alloc::Global;
use toml::Value;

// The number at a key.
fn number_at(row: &Value, key: &str) -> Option<u64>
    ensures { result ≡ comps.number_at key.now (view row.now) }
{
    Some(u64::try_from(integer_at(row, key)?).unwrap_or(0))
}

// The number at a key, and the one that stands for an absent one.
pub(crate) fn number_or(absent: u64, row: &Value, key: &str) -> u64
    ensures { result ≡ comps.number_or absent key.now (view row.now) }
{
    number_at(row, key).unwrap_or(absent)
}

// The role of a type's row.
fn role(row: &Value) -> Role
    ensures { result ≡ (rows.type_row (view row.now)).role }
{
    text_at(row, "role")
        .and_then(role_of)
        .unwrap_or(Role::Middle)
}

fn type_row(row: &Value) -> TypeRow
    requires { IsTypeRow (rows.type_row (view row.now)) }
    ensures { result ≡ rows.type_row (view row.now) }
{
    TypeRow {
        name: Name::new(text_at(row, "name").unwrap_or("")),
        role: role(row),
        max: number_or(1, row, "max") as u32,
        cost: number_or(0, row, "cost"),
        supply: number_or(0, row, "supply"),
        demand: number_or(0, row, "demand"),
        fail: number_or(0, row, "fail") as u32,
    }
}

// The types of a document.
pub(crate) fn type_rows(alloc: Global, top: &Value) -> Result<Vec<TypeRow>, Memory>
    requires { All IsTypeRow (rows.types_of (view top.now)) }
    ensures { IfOk result (λ types. types.items ≡ rows.types_of (view top.now)) }
{
    let mut types = Vec::new(alloc);
    let rows = rows_of(top, TableName::Types);
    for row in rows {
        types.push(type_row(row))?;
    }
    Ok(types)
}

// The number of the type that the text at a key names, where it names one.
fn type_number(row: &Value, key: &str, names: &Names) -> Option<usize>
    ensures place { result ≡ option_and_then (λ text. position (bytes_eq text) names.now)
        (tree.text_at key.now (view row.now)) }
    ensures below { IfSome result (λ i. i < length names.now) }
{
    names.number(text_at(row, key)?)
}

// The number of the type that the text at a key names.
fn type_at(row: &Value, key: &str, names: &Names) -> u32
    requires { length names.now ≤ 64 }
    ensures { result ≡ rows.type_at names.now key.now (view row.now) }
{
    type_number(row, key, names).unwrap_or(0) as u32
}

fn link_row(row: &Value, names: &Names) -> LinkRow
    requires { length names.now ≤ 64 }
    ensures { result ≡ rows.link_row names.now (view row.now) }
{
    LinkRow {
        from: type_at(row, "from", names),
        to: type_at(row, "to", names),
        cost: number_or(0, row, "cost"),
        fail: 0,
    }
}

// The links of a document, whose types have these names.
pub(crate) fn link_rows(alloc: Global, top: &Value, names: &Names) -> Result<Vec<LinkRow>, Memory>
    requires { length names.now ≤ 64 }
    ensures { IfOk result (λ links. links.items ≡ rows.links_by names.now (view top.now)) }
{
    let mut links = Vec::new(alloc);
    let rows = rows_of(top, TableName::Links);
    for row in rows {
        links.push(link_row(row, names))?;
    }
    Ok(links)
}

// The number of the component that the text at a key names, where it names one.
fn component_number(row: &Value, key: &str, components: &[String]) -> Option<usize>
    ensures place { result ≡ option_and_then
        (λ text. position (λ name. bytes_eq text (string_bytes name)) components.now)
        (tree.text_at key.now (view row.now)) }
    ensures below { IfSome result (λ i. i < length components.now) }
{
    place_of(text_at(row, key)?, components)
}

// The component that the text at a key names.
fn component_at(row: &Value, key: &str, components: &[String]) -> CompId
    requires { length components.now ≤ 64 }
    ensures { result ≡ rows.component_at (map string_bytes components.now) key.now (view row.now) }
{
    CompId(component_number(row, key, components).unwrap_or(0) as u32)
}

// The least number of a pattern's row.
fn least_of(row: &Value) -> u32
    requires { rows.least_of (view row.now) ≤ 512 }
    ensures { result ≡ rows.least_of (view row.now) }
{
    number_or(0, row, "min") as u32
}

// The greatest number of a pattern's row, where it has one.
fn most_of(row: &Value) -> Option<u32>
    requires { IfSome (rows.most_of (view row.now)) (λ m. m ≤ 512) }
    ensures { result ≡ rows.most_of (view row.now) }
{
    Some(number_at(row, "max")? as u32)
}

// The pattern of a kind that a row is.
fn kind_row(row: &Value, kind: Kind, names: &Names, components: &[String]) -> Pattern
    requires names { length names.now ≤ 64 }
    requires components { length components.now ≤ 64 }
    requires fits { KindFits (view row.now) kind }
    ensures { result ≡ rows.kind_row names.now (map string_bytes components.now) (view row.now) kind }
{
    let of = type_at(row, "type", names);
    let (from, to) = (type_at(row, "from", names), type_at(row, "to", names));
    let (a, b) = (type_at(row, "a", names), type_at(row, "b", names));
    match kind {
        Kind::Count => Pattern::Count {
            of,
            min: least_of(row),
            max: most_of(row),
        },
        Kind::InDegree => Pattern::InDegree {
            of,
            from,
            min: least_of(row),
            max: most_of(row),
        },
        Kind::OutDegree => Pattern::OutDegree {
            of,
            to,
            min: least_of(row),
            max: most_of(row),
        },
        Kind::InNeedsOut => Pattern::InNeedsOut { of, from, to },
        Kind::Exclusive => Pattern::Exclusive { of, a, b },
        Kind::Implies => Pattern::Implies { a, b },
        Kind::Forbid => Pattern::Forbid {
            tail: component_at(row, "from", components),
            head: component_at(row, "to", components),
        },
        Kind::TotalSupply => Pattern::TotalSupply,
        Kind::LocalSupply => Pattern::LocalSupply { of },
        Kind::CostCap => Pattern::CostCap {
            max: number_or(0, row, "max"),
        },
    }
}

fn pattern_row(row: &Value, names: &Names, components: &[String]) -> Option<Pattern>
    requires names { length names.now ≤ 64 }
    requires components { length components.now ≤ 64 }
    requires fits { PatternFits (view row.now) }
    ensures { result ≡ rows.pattern_row names.now (map string_bytes components.now) (view row.now) }
{
    Some(kind_row(row, row_kind(row)?, names, components))
}

// The patterns of a document, whose types have these names.
pub(crate) fn pattern_rows(
    alloc: Global,
    top: &Value,
    names: &Names,
    components: &[String],
) -> Result<Vec<Pattern>, Memory>
    requires names { length names.now ≤ 64 }
    requires components { length components.now ≤ 64 }
    requires fit { All PatternFits (tree.rows_of TableName.Patterns (view top.now)) }
    ensures { IfOk result
        (λ patterns. patterns.items ≡ rows.patterns_by names.now (map string_bytes components.now) (view top.now)) }
{
    let mut patterns = Vec::new(alloc);
    let rows = rows_of(top, TableName::Patterns);
    for row in rows {
        if let Some(pattern) = pattern_row(row, names, components) {
            patterns.push(pattern)?;
        }
    }
    Ok(patterns)
}

fn requirement_row(row: &Value, components: &[String]) -> Requirement
    requires { length components.now ≤ 64 }
    ensures { result ≡ rows.requirement_row (map string_bytes components.now) (view row.now) }
{
    Requirement {
        sink: component_at(row, "sink", components),
        bound: number_or(0, row, "bound"),
    }
}

// The requirements of a document, whose components have these names.
pub(crate) fn requirement_rows(
    alloc: Global,
    top: &Value,
    components: &[String],
) -> Result<Vec<Requirement>, Memory>
    requires { length components.now ≤ 64 }
    ensures { IfOk result (λ requirements.
        requirements.items ≡ rows.requirements_by (map string_bytes components.now) (view top.now)) }
{
    let mut requirements = Vec::new(alloc);
    let rows = rows_of(top, TableName::Requires);
    for row in rows {
        requirements.push(requirement_row(row, components))?;
    }
    Ok(requirements)
}
