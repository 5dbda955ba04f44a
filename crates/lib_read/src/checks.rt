// Whether one key of a row has a fault.
ghost use Rattle.std.specs.Prelude.{◌≡◌, false, is_some, []};
ghost use Rattle.toml.specs.View.{view};
ghost use Rattle.lib_read.specs.Schema as spec;
ghost use Rattle.lib_read.specs.Inner.Keys.{key_view};
ghost use Rattle.std.specs.List.{list_all};
ghost use Rattle.std.specs.Option.{option_copied, option_map_or};
ghost use Rattle.std.specs.Str.{bytes_eq};
ghost use Rattle.arch_model.specs.Name as name;

use crate::components::{is_component, is_sink};
use crate::fault::LibClass;
use crate::names::Names;
use crate::schema::{Key, Meaning, kind_of, role_of};
use crate::values::{integer_at, text_at};
use toml::Value;

// Whether a value is of the kind that its key wants.
fn fits_meaning(meaning: Meaning, value: &Value) -> bool
    ensures { result ≡ spec.fits_meaning meaning (view value.now) }
{
    match meaning {
        Meaning::Rows => value.is_array(),
        Meaning::Number { .. } | Meaning::Integer => value.is_integer(),
        _ => value.is_str(),
    }
}

// A lower-case letter, then up to 23 lower-case letters, digits or _.
fn is_type_name(text: &str) -> bool
    ensures { result ≡ spec.is_type_name text.now }
{
    let bytes = text.as_bytes();
    begins_lower(bytes) && all_name_bytes(bytes) && bytes.len() <= 24
}

fn all_name_bytes(bytes: &[u8]) -> bool
    ensures { result ≡ list_all name.is_name_byte bytes.now }
{
    bytes.iter().all(|c| is_name_byte(*c))
}

// A lower-case letter, a digit or _.
fn is_name_byte(c: u8) -> bool
    ensures { result ≡ name.is_name_byte c }
{
    (b'a' <= c && c <= b'z') || (b'0' <= c && c <= b'9') || c == b'_'
}

// Whether the first byte is a lower-case letter.
fn begins_lower(bytes: &[u8]) -> bool
    ensures { result ≡ name.begins_lower bytes.now }
{
    bytes.first().is_some_and(|c| b'a' <= *c && *c <= b'z')
}

// Whether the key's value is a text that can't name a new type.
fn is_bad_name(key: &Key, row: &Value) -> bool
    ensures { result ≡ spec.is_bad_name key.now.meaning key.now.name.now (view row.now) }
{
    match (key.meaning, text_at(row, key.name)) {
        (Meaning::NewName, Some(text)) => !is_type_name(text),
        _ => false,
    }
}

// Whether the key's value is a text that should name a type or a component, and names none.
fn is_unknown_name(key: &Key, row: &Value, names: &Names, top: &Value) -> bool
    ensures { result ≡ spec.is_unknown_name (view top.now) names.now key.now.meaning key.now.name.now (view row.now) }
{
    match (key.meaning, text_at(row, key.name)) {
        (Meaning::TypeName | Meaning::OtherName, Some(text)) => !names.has(text),
        (Meaning::ComponentName | Meaning::SinkName, Some(text)) => !is_component(top, text),
        _ => false,
    }
}

// Whether an integer is from low to high.
fn is_between(low: u64, high: u64, z: i64) -> bool
    ensures { result ≡ spec.is_between low high z }
{
    u64::try_from(z).is_ok_and(|n| low <= n && n <= high)
}

// Whether two texts are there and equal.
fn are_equal(a: Option<&str>, b: Option<&str>) -> bool
    ensures { result ≡ option_map_or (λ x. option_map_or (bytes_eq x) (option_copied b.entry) false)
        (option_copied a.entry) false }
{
    match (a, b) {
        (Some(a), Some(b)) => a == b,
        _ => false,
    }
}

// Whether the key's value is a text that should be one of some words, another type's name or a
// sink's, or a number, and is out of its range.
fn is_out_of_range(key: &Key, row: &Value, top: &Value) -> bool
    ensures { result ≡ spec.is_out_of_range (view top.now) key.now.meaning key.now.name.now (view row.now) }
{
    match key.meaning {
        Meaning::RoleWord => text_at(row, key.name).is_some_and(|text| role_of(text).is_none()),
        Meaning::KindWord => text_at(row, key.name).is_some_and(|text| kind_of(text).is_none()),
        Meaning::OtherName => are_equal(text_at(row, "a"), text_at(row, key.name)),
        Meaning::SinkName => text_at(row, key.name).is_some_and(|text| !is_sink(top, text)),
        Meaning::Number { low, high } => {
            integer_at(row, key.name).is_some_and(|z| !is_between(low, high, z))
        }
        _ => false,
    }
}

// Whether the key's value is there and of another kind than the key wants.
fn is_wrong_kind(key: &Key, row: &Value) -> bool
    ensures { result ≡ spec.is_wrong_kind key.now.meaning key.now.name.now (view row.now) }
{
    row.get(key.name)
        .is_some_and(|value| !fits_meaning(key.meaning, value))
}

// Whether a key of a row has a fault of a class.
pub(crate) fn is_faulty(class: LibClass, key: &Key, row: &Value, names: &Names, top: &Value) -> bool
    ensures { result ≡ spec.is_faulty (view top.now) names.now class (view row.now) (key_view key.now) }
{
    match class {
        LibClass::MissingKey => key.required && row.get(key.name).is_none(),
        LibClass::WrongKind => is_wrong_kind(key, row),
        LibClass::BadName => is_bad_name(key, row),
        LibClass::UnknownName => is_unknown_name(key, row, names, top),
        LibClass::Range => is_out_of_range(key, row, top),
        _ => false,
    }
}
