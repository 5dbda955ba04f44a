use crate::{LibError, read_library};
use arch_model::{Pattern, Role};
use std::alloc::Global;
use std::test::Fail;

// What a file is: `a library`, or its fault's class, table, position and key.
fn reading(alloc: Global, bytes: &[u8]) -> Result<String, Fail> {
    match read_library(alloc, bytes) {
        Ok(_) => Ok(String::from_str(alloc, "a library")?),
        Err(LibError::Memory) => Ok(String::from_str(alloc, "out of memory")?),
        Err(LibError::Fault(fault)) => {
            let (class, table, position) = (fault.class, fault.table, fault.position);
            let key = str::from_utf8(fault.key.bytes()).unwrap_or("?");
            Ok(format!(in alloc; "{class:?} {table:?} {position} {key}")?)
        }
    }
}

const CHAIN: &str = r#"type = [
  {name = "gen", role = "source", max = 2, cost = 100, fail = 1000},
  {name = "bus", role = "middle", max = 2, cost = 20, fail = 100},
  {name = "load", role = "sink"},
]
link = [
  {from = "gen", to = "bus", cost = 5},
  {from = "bus", to = "load"},
]
pattern = [
  {kind = "count", type = "load", min = 1, max = 4},
  {kind = "count", type = "gen"},
]
"#;

#[test]
fn a_chain_is_read_row_by_row(rt: HostRuntime) -> Result<(), Fail> {
    let library = read_library(rt.alloc(), CHAIN.as_bytes())?;
    let types = library.types();
    assert_eq!(rt; types.len(), 3);
    assert_eq!(rt; types[0].name.text(), "gen");
    assert_eq!(rt; types[0].role, Role::Source);
    assert_eq!(rt; types[0].max, 2);
    assert_eq!(rt; types[0].cost, 100);
    assert_eq!(rt; types[0].fail, 1000);
    assert_eq!(rt; types[2].role, Role::Sink);
    assert_eq!(rt; types[2].max, 1);
    assert_eq!(rt; types[2].cost, 0);
    let links = library.links();
    assert_eq!(rt; links.len(), 2);
    assert_eq!(rt; (links[0].from, links[0].to, links[0].cost), (0, 1, 5));
    assert_eq!(rt; (links[1].from, links[1].to, links[1].cost), (1, 2, 0));
    // gen.1, gen.2, bus.1, bus.2, load.1, and 4 and 2 edges
    assert_eq!(rt; library.components().len(), 5);
    assert_eq!(rt; library.edges().len(), 6);
    assert_eq!(rt; library.patterns().len(), 2);
    let first = match library.patterns()[0] {
        Pattern::Count { of, min, max } => Some((of, min, max)),
        _ => None,
    };
    assert_eq!(rt; first, Some((2, 1, Some(4))));
    let second = match library.patterns()[1] {
        Pattern::Count { of, min, max } => Some((of, min, max)),
        _ => None,
    };
    assert_eq!(rt; second, Some((0, 0, None)));
    assert_eq!(rt; library.requirements().len(), 0);
    Ok(())
}

#[test]
fn supply_and_demand_are_told_apart(rt: HostRuntime) -> Result<(), Fail> {
    let text = r#"[[type]]
name = "b1"
role = "middle"
supply = 3
demand = 1000000000000
"#;
    let library = read_library(rt.alloc(), text.as_bytes())?;
    assert_eq!(rt; library.types().len(), 1);
    assert_eq!(rt; library.types()[0].supply, 3);
    assert_eq!(rt; library.types()[0].demand, 1_000_000_000_000);
    assert_eq!(rt; library.types()[0].role, Role::Middle);
    Ok(())
}

#[test]
fn good_files_are_read(rt: HostRuntime) -> Result<(), Fail> {
    for text in [
        "",
        "# nothing\n",
        "\u{feff}type = []",
        r#"type = [{name = "x", role = "middle", cost = 7}]
pattern = [{kind = "count", type = "x", min = 1}]"#,
        r#"type = [{name = "p", role = "source", max = 2, cost = 3}]
pattern = [{kind = "count", type = "p", min = 1}]"#,
        r#"type = [{name = "s", role = "source", cost = 1, fail = 1000},
  {name = "t", role = "sink"}]
link = [{from = "s", to = "t"}]"#,
        r#"type = [{name = "abcdefghijklmnopqrstuvw_", role = "sink", max = 64,
  cost = 1000000000000, fail = 1000000}]"#,
        r#"type = [{name = "a", role = "sink", max = 32}, {name = "b", role = "sink", max = 32}]"#,
        r#"type = [{name = "a", role = "sink", max = 32}, {name = "b", role = "sink", max = 16}]
link = [{from = "a", to = "b"}]"#,
        r#"type = [{name = "a", role = "sink"}]
pattern = [{kind = "count", type = "a", min = 512, max = 0}]"#,
        r#"type = [{name = "a", role = "sink"}, {name = "b", role = "sink"}]
link = [{from = "a", to = "b"}, {from = "b", to = "a"}, {from = "a", to = "a"}]"#,
        "require = []",
    ] {
        let read = reading(rt.alloc(), text.as_bytes())?;
        assert_eq!(rt; read.as_str(), "a library", "{text}");
    }
    Ok(())
}

#[test]
fn a_self_link_joins_each_instance_to_each_other(rt: HostRuntime) -> Result<(), Fail> {
    let text = r#"type = [{name = "a", role = "middle", max = 3}]
link = [{from = "a", to = "a"}]"#;
    let library = read_library(rt.alloc(), text.as_bytes())?;
    assert_eq!(rt; library.edges().len(), 6);
    Ok(())
}

#[test]
fn faulty_files_are_refused(rt: HostRuntime) -> Result<(), Fail> {
    for (text, fault) in [
        // no TOML
        ("type = [", "NotToml Library 0 -"),
        ("a = 1\na = 2", "NotToml Library 0 -"),
        (
            r#"type = [{name = "a", role = "sink", cost = 9223372036854775808}]"#,
            "NotToml Library 0 -",
        ),
        // keys and kinds
        ("zz = 1", "UnknownKey Library 0 zz"),
        ("zz = 1\nab.c = 1\nzzz = 1", "UnknownKey Library 0 ab"),
        ("type = [{}]", "MissingKey Types 1 name"),
        ("type = 1", "WrongKind Library 0 type"),
        ("type = [1]", "WrongKind Types 1 -"),
        ("type.a = 1", "WrongKind Library 0 type"),
        ("require = 1", "WrongKind Library 0 require"),
        ("require = [1]", "WrongKind Requires 1 -"),
        (
            r#"type = [{name = "a", role = "sink", zz = 1, "\u00e4" = 1, "" = 1}]"#,
            "UnknownKey Types 1 ",
        ),
        (
            r#"type = [{name = "a", role = "sink", "\u00e4" = 1, zz = 1}]"#,
            "UnknownKey Types 1 zz",
        ),
        (
            r#"type = [{name = "a", role = "sink", "\u00e4" = 1}]"#,
            "UnknownKey Types 1 ä",
        ),
        (
            r#"type = [{name = "a", role = "sink", cost.a = 1}]"#,
            "WrongKind Types 1 cost",
        ),
        (
            r#"type = [{name = "a", role = "sink", cost = 1.5}]"#,
            "WrongKind Types 1 cost",
        ),
        (
            r#"type = [{name = 1, role = "sink"}]"#,
            "WrongKind Types 1 name",
        ),
        (
            r#"type = [{name = "a", role = "sink", cost = 1979-05-27}]"#,
            "WrongKind Types 1 cost",
        ),
        // names
        (
            r#"type = [{name = "A", role = "sink"}]"#,
            "BadName Types 1 name",
        ),
        (
            r#"type = [{name = "", role = "sink"}]"#,
            "BadName Types 1 name",
        ),
        (
            r#"type = [{name = "a", role = "sink"}, {name = "1a", role = "sink"}]"#,
            "BadName Types 2 name",
        ),
        (
            r#"type = [{name = "abcdefghijklmnopqrstuvwxy", role = "sink"}]"#,
            "BadName Types 1 name",
        ),
        (
            r#"type = [{name = "a", role = "sink"}, {name = "a", role = "source"}]"#,
            "Duplicate Types 2 name",
        ),
        // ranges
        (r#"type = [{name = "a", role = "x"}]"#, "Range Types 1 role"),
        (
            r#"type = [{name = "a", role = "sink", fail = 1000001}]"#,
            "Range Types 1 fail",
        ),
        (
            r#"type = [{name = "a", role = "sink", cost = 1000000000001}]"#,
            "Range Types 1 cost",
        ),
        (
            r#"type = [{name = "a", role = "sink", cost = -1}]"#,
            "Range Types 1 cost",
        ),
        (
            r#"type = [{name = "a", role = "sink", max = 0}]"#,
            "Range Types 1 max",
        ),
        (
            r#"type = [{name = "a", role = "sink", max = 65}]"#,
            "Range Types 1 max",
        ),
        // links
        (
            r#"link = [{from = "a", to = "b"}]"#,
            "UnknownName Links 1 from",
        ),
        (
            r#"type = [{name = "a", role = "sink"}]
link = [{from = "a"}]"#,
            "MissingKey Links 1 to",
        ),
        (
            r#"type = [{name = "a", role = "sink"}]
link = [{from = "a", to = "a", fail = 0}]"#,
            "UnknownKey Links 1 fail",
        ),
        (
            r#"type = [{name = "a", role = "sink"}]
link = [{from = "a", to = "b"}]"#,
            "UnknownName Links 1 to",
        ),
        (
            r#"type = [{name = "a", role = "sink"}]
link = [{from = "a", to = "a"}, {from = "a", to = "a"}]"#,
            "Duplicate Links 2 to",
        ),
        // patterns
        (
            r#"type = [{name = "a", role = "sink"}]
pattern = [{type = "a"}]"#,
            "MissingKey Patterns 1 kind",
        ),
        (
            r#"type = [{name = "a", role = "sink"}]
pattern = [{kind = "count"}]"#,
            "MissingKey Patterns 1 type",
        ),
        (
            r#"type = [{name = "a", role = "sink"}]
pattern = [{kind = 1, type = "a"}]"#,
            "WrongKind Patterns 1 kind",
        ),
        (
            r#"type = [{name = "a", role = "sink"}]
pattern = [{kind = "in", type = "a"}]"#,
            "Range Patterns 1 kind",
        ),
        (
            r#"type = [{name = "a", role = "sink"}]
pattern = [{kind = "count", type = "b"}]"#,
            "UnknownName Patterns 1 type",
        ),
        (
            r#"type = [{name = "a", role = "sink"}]
pattern = [{kind = "count", type = "a", min = 513}]"#,
            "Range Patterns 1 min",
        ),
        (
            r#"type = [{name = "a", role = "sink"}]
pattern = [{kind = "count", type = "a", from = "a"}]"#,
            "UnknownKey Patterns 1 from",
        ),
        // requirements
        (
            r#"require = [{bound = 0, sink = "a.1", sum = 1}]"#,
            "UnknownKey Requires 1 sum",
        ),
        ("require = [{bound = 0}]", "MissingKey Requires 1 sink"),
        ("require = [{}]", "MissingKey Requires 1 bound"),
        (
            r#"require = [{bound = 0, sink = 1}]"#,
            "WrongKind Requires 1 sink",
        ),
        (
            r#"require = [{bound = "0", sink = "a.1"}]"#,
            "WrongKind Requires 1 bound",
        ),
        (
            r#"type = [{name = "a", role = "sink"}]
require = [{bound = 0, sink = "a.1"}, {bound = -1, sink = "a.2"}]"#,
            "UnknownName Requires 2 sink",
        ),
        (
            r#"type = [{name = "a", role = "sink"}]
require = [{bound = 0, sink = "a"}]"#,
            "UnknownName Requires 1 sink",
        ),
        (
            r#"type = [{name = "a", role = "sink"}, {name = "b", role = "source"}]
require = [{bound = 0, sink = "a.1"}, {bound = 0, sink = "b.1"}]"#,
            "Range Requires 2 sink",
        ),
        (
            r#"type = [{name = "b", role = "middle", max = 2}]
require = [{bound = -1, sink = "b.2"}]"#,
            "Range Requires 1 bound",
        ),
        (
            r#"type = [{name = "a", role = "sink"}]
require = [{bound = 1000000000000000001, sink = "a.1"}]"#,
            "Range Requires 1 bound",
        ),
        // 65 components, 513 edges
        (
            r#"type = [{name = "a", role = "sink", max = 33}, {name = "b", role = "sink", max = 32}]"#,
            "TooMany Library 0 type",
        ),
        (
            r#"type = [{name = "a", role = "sink", max = 27}, {name = "b", role = "sink", max = 19}]
link = [{from = "a", to = "b"}]"#,
            "TooMany Library 0 link",
        ),
    ] {
        let read = reading(rt.alloc(), text.as_bytes())?;
        assert_eq!(rt; read.as_str(), fault, "{text}");
    }
    Ok(())
}

// What a pattern is, in a line.
fn shown(alloc: Global, pattern: Pattern) -> Result<String, Fail> {
    Ok(match pattern {
        Pattern::Count { of, min, max } => format!(in alloc; "count {of} {min} {max:?}")?,
        Pattern::InDegree { of, from, min, max } => {
            format!(in alloc; "indegree {of} {from} {min} {max:?}")?
        }
        Pattern::OutDegree { of, to, min, max } => {
            format!(in alloc; "outdegree {of} {to} {min} {max:?}")?
        }
        Pattern::InNeedsOut { of, from, to } => {
            format!(in alloc; "in_needs_out {of} {from} {to}")?
        }
        Pattern::Exclusive { of, a, b } => format!(in alloc; "exclusive {of} {a} {b}")?,
        Pattern::Implies { a, b } => format!(in alloc; "implies {a} {b}")?,
        Pattern::Forbid { tail, head } => {
            let (tail, head) = (tail.0, head.0);
            format!(in alloc; "forbid {tail} {head}")?
        }
        Pattern::TotalSupply => String::from_str(alloc, "total_supply")?,
        Pattern::LocalSupply { of } => format!(in alloc; "local_supply {of}")?,
        Pattern::CostCap { max } => format!(in alloc; "cost_cap {max}")?,
    })
}

const THREE_TYPES: &str = r#"type = [
  {name = "a", role = "source", max = 2},
  {name = "b", role = "middle"},
  {name = "c", role = "sink", max = 3},
]
"#;

// A pattern over three types, `a` with two instances, `b` with one and `c` with three.
fn with_pattern(alloc: Global, row: &str) -> Result<String, Fail> {
    Ok(format!(in alloc; "{THREE_TYPES}[[pattern]]\n{row}\n")?)
}

#[test]
fn patterns_of_each_kind_are_read(rt: HostRuntime) -> Result<(), Fail> {
    for (row, said) in [
        (
            r#"kind = "count"
type = "c""#,
            "count 2 0 None",
        ),
        (
            r#"kind = "indegree"
type = "c"
from = "b""#,
            "indegree 2 1 0 None",
        ),
        (
            r#"kind = "indegree"
type = "b"
from = "a"
min = 1
max = 2"#,
            "indegree 1 0 1 Some(2)",
        ),
        (
            r#"kind = "outdegree"
type = "a"
to = "b"
max = 512"#,
            "outdegree 0 1 0 Some(512)",
        ),
        (
            r#"kind = "in_needs_out"
type = "b"
from = "a"
to = "c""#,
            "in_needs_out 1 0 2",
        ),
        (
            r#"kind = "exclusive"
type = "c"
a = "a"
b = "b""#,
            "exclusive 2 0 1",
        ),
        (
            r#"kind = "implies"
a = "c"
b = "a""#,
            "implies 2 0",
        ),
        (
            r#"kind = "forbid"
from = "a.2"
to = "c.3""#,
            "forbid 1 5",
        ),
        (
            r#"kind = "forbid"
from = "b.1"
to = "b.1""#,
            "forbid 2 2",
        ),
        (r#"kind = "total_supply""#, "total_supply"),
        (
            r#"kind = "local_supply"
type = "b""#,
            "local_supply 1",
        ),
        (
            r#"kind = "cost_cap"
max = 1000000000000000"#,
            "cost_cap 1000000000000000",
        ),
    ] {
        let text = with_pattern(rt.alloc(), row)?;
        let library = read_library(rt.alloc(), text.as_bytes())?;
        assert_eq!(rt; library.patterns().len(), 1, "{row}");
        let read = shown(rt.alloc(), library.patterns()[0])?;
        assert_eq!(rt; read.as_str(), said, "{row}");
    }
    Ok(())
}

#[test]
fn faulty_patterns_are_refused(rt: HostRuntime) -> Result<(), Fail> {
    for (row, fault) in [
        // keys of other kinds
        (
            r#"kind = "total_supply"
max = 1"#,
            "UnknownKey Patterns 1 max",
        ),
        (
            r#"kind = "implies"
a = "a"
b = "b"
type = "c""#,
            "UnknownKey Patterns 1 type",
        ),
        // keys that are required
        (r#"kind = "exclusive""#, "MissingKey Patterns 1 a"),
        (r#"kind = "cost_cap""#, "MissingKey Patterns 1 max"),
        (
            r#"kind = "indegree"
type = "c""#,
            "MissingKey Patterns 1 from",
        ),
        // values
        (
            r#"kind = "cost_cap"
max = "1""#,
            "WrongKind Patterns 1 max",
        ),
        (
            r#"kind = "outdegree"
type = "a"
to = "d""#,
            "UnknownName Patterns 1 to",
        ),
        (
            r#"kind = "exclusive"
type = "c"
a = "d"
b = "d""#,
            "UnknownName Patterns 1 a",
        ),
        (
            r#"kind = "exclusive"
type = "c"
a = "b"
b = "b""#,
            "Range Patterns 1 b",
        ),
        (
            r#"kind = "cost_cap"
max = 1000000000000001"#,
            "Range Patterns 1 max",
        ),
        (
            r#"kind = "indegree"
type = "c"
from = "a"
max = -1
min = 513"#,
            "Range Patterns 1 max",
        ),
        (
            r#"kind = "forbid"
from = "a.1""#,
            "MissingKey Patterns 1 to",
        ),
        (
            r#"kind = "forbid"
from = "a.1"
to = 1"#,
            "WrongKind Patterns 1 to",
        ),
        (
            r#"kind = "forbid"
from = "a"
to = "d.1""#,
            "UnknownName Patterns 1 from",
        ),
        // a kind that isn't one of the words: the keys of any kind, texts but for min and max
        (r#"kind = "some""#, "Range Patterns 1 kind"),
        (
            r#"kind = "some"
colour = 1"#,
            "UnknownKey Patterns 1 colour",
        ),
        (
            r#"kind = "some"
from = "nothing"
min = 9999"#,
            "Range Patterns 1 kind",
        ),
        (
            r#"kind = "some"
to = 1
type = 1"#,
            "WrongKind Patterns 1 to",
        ),
        (r#"min = 1.5"#, "MissingKey Patterns 1 kind"),
    ] {
        let text = with_pattern(rt.alloc(), row)?;
        let read = reading(rt.alloc(), text.as_bytes())?;
        assert_eq!(rt; read.as_str(), fault, "{row}");
    }
    Ok(())
}

// What a file is whose first type, `a`, has a `max`, and that forbids an edge of a component.
fn forbidding(alloc: Global, max: &str, name: &str) -> Result<String, Fail> {
    let text = format!(in alloc;
        r#"type = [{{name = "a", role = "sink"{max}}}, {{name = "b", role = "sink", max = 12}}]
pattern = [{{kind = "forbid", from = "b.12", to = "{name}"}}]"#
    )?;
    reading(alloc, text.as_bytes())
}

#[test]
fn components_exist_up_to_the_max_as_written(rt: HostRuntime) -> Result<(), Fail> {
    for (max, name, said) in [
        ("", "a.1", "a library"),
        ("", "a.2", "UnknownName Patterns 1 to"),
        (", max = 3", "a.3", "a library"),
        (", max = 3", "a.4", "UnknownName Patterns 1 to"),
        (", max = 3", "a.0", "UnknownName Patterns 1 to"),
        (", max = 3", "a.01", "UnknownName Patterns 1 to"),
        (", max = 3", "a.+1", "UnknownName Patterns 1 to"),
        (", max = 3", "a.", "UnknownName Patterns 1 to"),
        (", max = 3", "a", "UnknownName Patterns 1 to"),
        (", max = 3", "a.1 ", "UnknownName Patterns 1 to"),
        (
            ", max = 3",
            "a.18446744073709551617",
            "UnknownName Patterns 1 to",
        ),
        (", max = 3", "b.10", "a library"),
        (", max = 3", "b.13", "UnknownName Patterns 1 to"),
        (", max = 3", "c.1", "UnknownName Patterns 1 to"),
        (", max = 0", "a.1", "UnknownName Patterns 1 to"),
        (", max = -3", "a.1", "UnknownName Patterns 1 to"),
        (", max = 1000", "a.65", "Range Types 1 max"),
        (", max = 1000", "a.1001", "UnknownName Patterns 1 to"),
        (
            ", max = 9223372036854775807",
            "a.9223372036854775807",
            "Range Types 1 max",
        ),
    ] {
        let read = forbidding(rt.alloc(), max, name)?;
        assert_eq!(rt; read.as_str(), said, "{max} {name}");
    }
    Ok(())
}

// A library's lines up to its first pattern, with faults of the classes from UnknownKey on.
const FAULTY: &str = r#"type = [
  {name = "a", role = "source", cost = -1, max = 65, supply = 0.5},
  {name = "B", role = "middle", max = 60},
  {name = "a", role = "end", zz = 1, aa = 1},
]
link = [{from = "a", to = "c", y = 1}, {from = "a"}, {from = "a", to = "c"}]
require = [{sink = "c.1", bound = 0, z = 1}, {sink = "a.1"}, {sink = "e.1", bound = "0"}]
pattern = [
  {kind = "count", type = "d", min = 600, x = 1},
"#;

// A file that is too large, no TOML and faulty in each class below, and what mends it: each step
// mends its first fault. At the end three limits are passed, and what mends one just meets it:
// 31 + 32 + 1 components, 8 * 32 + 32 * 8 edges, 200 patterns.
#[test]
fn faults_come_by_class_then_table_then_place_then_key(rt: HostRuntime) -> Result<(), Fail> {
    let padding = "#".repeat(rt.alloc(), 1_048_576)?;
    let counts = "  {kind = \"count\", type = \"a\"},\n".repeat(rt.alloc(), 200)?;
    let mut text = format!(in rt.alloc(); "{FAULTY}{counts}]\nw = 1\nv = [\n")?;
    let padded = format!(in rt.alloc(); "{text}{padding}")?;
    let read = reading(rt.alloc(), padded.as_bytes())?;
    assert_eq!(rt; read.as_str(), "TooLarge Library 0 -");
    for (fault, old, new) in [
        ("NotToml Library 0 -", "v = [\n", ""),
        ("UnknownKey Library 0 w", "w = 1\n", ""),
        ("UnknownKey Types 3 aa", ", aa = 1", ""),
        ("UnknownKey Types 3 zz", ", zz = 1", ""),
        ("UnknownKey Links 1 y", ", y = 1", ""),
        ("UnknownKey Patterns 1 x", ", x = 1", ""),
        ("UnknownKey Requires 1 z", ", z = 1", ""),
        (
            "MissingKey Links 2 to",
            r#"{from = "a"}"#,
            r#"{from = "c", to = "a"}"#,
        ),
        (
            "MissingKey Requires 2 bound",
            r#"{sink = "a.1"}"#,
            r#"{sink = "a.1", bound = 1000000000000000001}"#,
        ),
        ("WrongKind Types 1 supply", "supply = 0.5", "supply = 5"),
        (
            "WrongKind Requires 3 bound",
            r#"bound = "0""#,
            "bound = 1000000000000000000",
        ),
        ("BadName Types 2 name", r#""B""#, r#""b""#),
        (
            "Duplicate Types 3 name",
            r#""a", role = "end""#,
            r#""e", role = "end""#,
        ),
        ("Duplicate Links 3 to", r#", {from = "a", to = "c"}]"#, "]"),
        ("UnknownName Links 1 to", r#"to = "c""#, r#"to = "b""#),
        ("UnknownName Links 2 from", r#"from = "c""#, r#"from = "b""#),
        ("UnknownName Patterns 1 type", r#""d""#, r#""e""#),
        ("UnknownName Requires 1 sink", r#""c.1""#, r#""e.1""#),
        ("Range Types 1 cost", "cost = -1", "cost = 1"),
        ("Range Types 1 max", "max = 65", "max = 31"),
        ("Range Types 3 role", r#""end""#, r#""sink""#),
        ("Range Patterns 1 min", "min = 600", "min = 0"),
        ("Range Requires 2 bound", "1000000000000000001", "0"),
        ("Range Requires 2 sink", r#""a.1""#, r#""e.1""#),
        ("TooMany Library 0 type", "max = 60", "max = 32"),
        ("TooMany Library 0 link", "max = 31", "max = 8"),
        (
            "TooMany Library 0 pattern",
            r#"  {kind = "count", type = "e", min = 0},"#,
            "",
        ),
    ] {
        let read = reading(rt.alloc(), text.as_bytes())?;
        assert_eq!(rt; read.as_str(), fault);
        text = text.replace(rt.alloc(), old, new)?;
    }
    let read = reading(rt.alloc(), text.as_bytes())?;
    assert_eq!(rt; read.as_str(), "a library");
    Ok(())
}

// A second type with the key `colour`, and a second link that repeats the first.
const COLOURED: &str = r#"type = [
  {name = "a", role = "source"},
  {name = "b", role = "sink", colour = 1},
]
link = [{from = "a", to = "b"}, {from = "a", to = "b"}]
"#;

#[test]
fn an_unknown_key_comes_before_a_repeated_link(rt: HostRuntime) -> Result<(), Fail> {
    let read = reading(rt.alloc(), COLOURED.as_bytes())?;
    assert_eq!(rt; read.as_str(), "UnknownKey Types 2 colour");
    let plain = COLOURED.replace(rt.alloc(), ", colour = 1", "")?;
    let read = reading(rt.alloc(), plain.as_bytes())?;
    assert_eq!(rt; read.as_str(), "Duplicate Links 2 to");
    Ok(())
}

const ONE_SINK: &str = r#"[[type]]
name = "a"
role = "sink"
"#;

#[test]
fn at_most_200_patterns_and_16_requirements_are_read(rt: HostRuntime) -> Result<(), Fail> {
    let pattern = "[[pattern]]\nkind = \"count\"\ntype = \"a\"\n";
    let requirement = "[[require]]\nsink = \"a.1\"\nbound = 0\n";
    for (patterns, requirements, said) in [
        (200, 16, "a library"),
        (200, 17, "TooMany Library 0 require"),
        (201, 17, "TooMany Library 0 pattern"),
    ] {
        let patterns = pattern.repeat(rt.alloc(), patterns)?;
        let requirements = requirement.repeat(rt.alloc(), requirements)?;
        let text = format!(in rt.alloc(); "{ONE_SINK}{requirements}{patterns}")?;
        let read = reading(rt.alloc(), text.as_bytes())?;
        assert_eq!(rt; read.as_str(), said);
    }
    Ok(())
}

#[test]
fn requirements_are_read_in_order(rt: HostRuntime) -> Result<(), Fail> {
    let text =
        r#"type = [{name = "s", role = "source", max = 2}, {name = "t", role = "sink", max = 2}]
require = [
  {sink = "t.2", bound = 1000000000000000000},
  {sink = "t.1", bound = 7},
  {sink = "t.2", bound = 0},
]"#;
    let library = read_library(rt.alloc(), text.as_bytes())?;
    let read = library.requirements();
    assert_eq!(rt; read.len(), 3);
    assert_eq!(rt;
        (read[0].sink.0, read[0].bound),
        (3, 1_000_000_000_000_000_000)
    );
    assert_eq!(rt; (read[1].sink.0, read[1].bound), (2, 7));
    assert_eq!(rt; (read[2].sink.0, read[2].bound), (3, 0));
    Ok(())
}

#[test]
fn bytes_are_refused(rt: HostRuntime) -> Result<(), Fail> {
    let read = reading(rt.alloc(), &[255])?;
    assert_eq!(rt; read.as_str(), "NotToml Library 0 -");
    for (n, said) in [
        (1_048_576, "a library"),
        (1_048_577, "TooLarge Library 0 -"),
    ] {
        let blank = vec![in rt.alloc(); b'\n'; n]?;
        let read = reading(rt.alloc(), &blank)?;
        assert_eq!(rt; read.as_str(), said);
    }
    Ok(())
}
