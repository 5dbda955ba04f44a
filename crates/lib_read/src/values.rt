// Look-ups in a row.
ghost use Rattle.std.specs.Prelude.{◌≡◌, option_map, map, length};
ghost use Rattle.std.specs.Option.{option_copied};
ghost use Rattle.toml.specs.View.{view};
ghost use Rattle.lib_read.specs.Tree as tree;

use crate::fault::TableName;
use toml::Value;

// The text at a key.
pub(crate) fn text_at<'a>(row: &'a Value, key: &str) -> Option<&'a str>
    ensures { option_copied result ≡ tree.text_at key.now (view row.now) }
{
    row.get(key)?.as_str()
}

// The integer at a key.
pub(crate) fn integer_at(row: &Value, key: &str) -> Option<i64>
    ensures { result ≡ tree.integer_at key.now (view row.now) }
{
    row.get(key)?.as_integer()
}

// The key under which a table's rows stand.
fn table_key(table: TableName) -> &'static str
    ensures { result.now ≡ tree.table_key table }
{
    match table {
        TableName::Library => "",
        TableName::Types => "type",
        TableName::Links => "link",
        TableName::Patterns => "pattern",
        TableName::Requires => "require",
    }
}

// The rows of a table, in file order.
pub(crate) fn rows_of(top: &Value, table: TableName) -> &[Value]
    ensures { map view result.now ≡ tree.rows_of table (view top.now) }
{
    match top.get(table_key(table)) {
        Some(value) => elements(value),
        None => &[],
    }
}

// The elements of an array, and none of another value.
fn elements(value: &Value) -> &[Value]
    ensures { map view result.now ≡ tree.elements (view value.now) }
{
    match value.as_array() {
        Some(rows) => rows.as_slice(),
        None => &[],
    }
}
