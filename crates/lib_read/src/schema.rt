// The keys of each table, with what is expected of their values.
ghost use Rattle.std.specs.Prelude.{◌≡◌, map};
ghost use Rattle.toml.specs.View.{view};
ghost use Rattle.lib_read.specs.Schema as spec;
ghost use Rattle.lib_read.specs.Inner.Keys.{key_view};

use crate::fault::TableName;
use crate::values::text_at;
use arch_model::Role;
use toml::Value;

/// What the value of a key means.
#[derive(Clone, Copy)]
pub(crate) enum Meaning {
    /// An array of rows.
    Rows,
    /// The name that a type gets.
    NewName,
    /// One of the words for a role.
    RoleWord,
    /// One of the words for a kind of pattern.
    KindWord,
    /// The name of a type.
    TypeName,
    /// The name of a type, other than the one that the key `a` names.
    OtherName,
    /// The name of a component.
    ComponentName,
    /// The name of a component of role sink.
    SinkName,
    /// An integer from `low` to `high`.
    Number { low: u64, high: u64 },
    /// Any text.
    Text,
    /// Any integer.
    Integer,
}

/// A kind of pattern.
#[derive(Clone, Copy)]
pub(crate) enum Kind {
    Count,
    InDegree,
    OutDegree,
    InNeedsOut,
    Exclusive,
    Implies,
    Forbid,
    TotalSupply,
    LocalSupply,
    CostCap,
}

/// A key of a table.
#[derive(Clone, Copy)]
pub(crate) struct Key {
    pub(crate) name: &'static str,
    pub(crate) required: bool,
    pub(crate) meaning: Meaning,
}

// A cost, a supply or a demand.
const COST: Meaning = Meaning::Number {
    low: 0,
    high: 1_000_000_000_000,
};

// A failure rate in parts per million.
const RATE: Meaning = Meaning::Number {
    low: 0,
    high: 1_000_000,
};

// How many instances a type may have.
const INSTANCES: Meaning = Meaning::Number { low: 1, high: 64 };

// A least or greatest number of a pattern.
const BOUND: Meaning = Meaning::Number { low: 0, high: 512 };

// A cost of all.
const TOTAL: Meaning = Meaning::Number {
    low: 0,
    high: 1_000_000_000_000_000,
};

// A weight, in units of 10^-18.
const WEIGHT: Meaning = Meaning::Number {
    low: 0,
    high: 1_000_000_000_000_000_000,
};

// A key that is required. A macro, since no static may call a function.
macro_rules! needs {
    ($name:literal, $meaning:expr) => {
        Key {
            name: $name,
            required: true,
            meaning: $meaning,
        }
    };
}

// A key that may be absent.
macro_rules! takes {
    ($name:literal, $meaning:expr) => {
        Key {
            name: $name,
            required: false,
            meaning: $meaning,
        }
    };
}

static LIBRARY_KEYS: [Key; 4] = [
    takes!("link", Meaning::Rows),
    takes!("pattern", Meaning::Rows),
    takes!("require", Meaning::Rows),
    takes!("type", Meaning::Rows),
];

static TYPE_KEYS: [Key; 7] = [
    takes!("cost", COST),
    takes!("demand", COST),
    takes!("fail", RATE),
    takes!("max", INSTANCES),
    needs!("name", Meaning::NewName),
    needs!("role", Meaning::RoleWord),
    takes!("supply", COST),
];

static LINK_KEYS: [Key; 3] = [
    takes!("cost", COST),
    needs!("from", Meaning::TypeName),
    needs!("to", Meaning::TypeName),
];

static COUNT_KEYS: [Key; 4] = [
    needs!("kind", Meaning::KindWord),
    takes!("max", BOUND),
    takes!("min", BOUND),
    needs!("type", Meaning::TypeName),
];

static INDEGREE_KEYS: [Key; 5] = [
    needs!("from", Meaning::TypeName),
    needs!("kind", Meaning::KindWord),
    takes!("max", BOUND),
    takes!("min", BOUND),
    needs!("type", Meaning::TypeName),
];

static OUTDEGREE_KEYS: [Key; 5] = [
    needs!("kind", Meaning::KindWord),
    takes!("max", BOUND),
    takes!("min", BOUND),
    needs!("to", Meaning::TypeName),
    needs!("type", Meaning::TypeName),
];

static IN_NEEDS_OUT_KEYS: [Key; 4] = [
    needs!("from", Meaning::TypeName),
    needs!("kind", Meaning::KindWord),
    needs!("to", Meaning::TypeName),
    needs!("type", Meaning::TypeName),
];

static EXCLUSIVE_KEYS: [Key; 4] = [
    needs!("a", Meaning::TypeName),
    needs!("b", Meaning::OtherName),
    needs!("kind", Meaning::KindWord),
    needs!("type", Meaning::TypeName),
];

static IMPLIES_KEYS: [Key; 3] = [
    needs!("a", Meaning::TypeName),
    needs!("b", Meaning::TypeName),
    needs!("kind", Meaning::KindWord),
];

static FORBID_KEYS: [Key; 3] = [
    needs!("from", Meaning::ComponentName),
    needs!("kind", Meaning::KindWord),
    needs!("to", Meaning::ComponentName),
];

static TOTAL_SUPPLY_KEYS: [Key; 1] = [needs!("kind", Meaning::KindWord)];

static LOCAL_SUPPLY_KEYS: [Key; 2] = [
    needs!("kind", Meaning::KindWord),
    needs!("type", Meaning::TypeName),
];

static COST_CAP_KEYS: [Key; 2] = [needs!("kind", Meaning::KindWord), needs!("max", TOTAL)];

// The keys of a pattern whose kind isn't one of the words: those of any kind.
static ANY_KEYS: [Key; 8] = [
    takes!("a", Meaning::Text),
    takes!("b", Meaning::Text),
    takes!("from", Meaning::Text),
    needs!("kind", Meaning::KindWord),
    takes!("max", Meaning::Integer),
    takes!("min", Meaning::Integer),
    takes!("to", Meaning::Text),
    takes!("type", Meaning::Text),
];

static REQUIRE_KEYS: [Key; 2] = [needs!("bound", WEIGHT), needs!("sink", Meaning::SinkName)];

// The role that a text is.
pub(crate) fn role_of(text: &str) -> Option<Role>
    ensures { result ≡ spec.role_of text.now }
{
    match text {
        "source" => Some(Role::Source),
        "middle" => Some(Role::Middle),
        "sink" => Some(Role::Sink),
        _ => None,
    }
}

// The kind of pattern that a text is.
pub(crate) fn kind_of(text: &str) -> Option<Kind>
    ensures { result ≡ spec.kind_of text.now }
{
    match text {
        "count" => Some(Kind::Count),
        "indegree" => Some(Kind::InDegree),
        "outdegree" => Some(Kind::OutDegree),
        "in_needs_out" => Some(Kind::InNeedsOut),
        "exclusive" => Some(Kind::Exclusive),
        "implies" => Some(Kind::Implies),
        "forbid" => Some(Kind::Forbid),
        "total_supply" => Some(Kind::TotalSupply),
        "local_supply" => Some(Kind::LocalSupply),
        "cost_cap" => Some(Kind::CostCap),
        _ => None,
    }
}

// The kind of a pattern's row.
pub(crate) fn row_kind(row: &Value) -> Option<Kind>
    ensures { result ≡ spec.row_kind (view row.now) }
{
    kind_of(text_at(row, "kind")?)
}

// The keys of a pattern of a kind.
fn kind_keys(kind: Kind) -> &'static [Key]
    ensures { map key_view result.now ≡ spec.kind_keys kind }
{
    match kind {
        Kind::Count => &COUNT_KEYS,
        Kind::InDegree => &INDEGREE_KEYS,
        Kind::OutDegree => &OUTDEGREE_KEYS,
        Kind::InNeedsOut => &IN_NEEDS_OUT_KEYS,
        Kind::Exclusive => &EXCLUSIVE_KEYS,
        Kind::Implies => &IMPLIES_KEYS,
        Kind::Forbid => &FORBID_KEYS,
        Kind::TotalSupply => &TOTAL_SUPPLY_KEYS,
        Kind::LocalSupply => &LOCAL_SUPPLY_KEYS,
        Kind::CostCap => &COST_CAP_KEYS,
    }
}

// The keys of a row of a table.
pub(crate) fn table_keys(table: TableName, row: &Value) -> &'static [Key]
    ensures { map key_view result.now ≡ spec.table_keys table (view row.now) }
{
    match table {
        TableName::Library => &LIBRARY_KEYS,
        TableName::Types => &TYPE_KEYS,
        TableName::Links => &LINK_KEYS,
        TableName::Patterns => match row_kind(row) {
            Some(kind) => kind_keys(kind),
            None => &ANY_KEYS,
        },
        TableName::Requires => &REQUIRE_KEYS,
    }
}
