// What one record names.
ghost use Rattle.std.specs.Prelude.{◌≡◌, ◌≢◌, [], ◌∷◌, length, IfSome, IfNone, option_map};
ghost use Rattle.arch_model.specs.Library.{IsLibrary};
ghost use Rattle.csv.specs.Records.{fields_of};
ghost use Rattle.arch_csv.specs.Records as spec;
ghost use Rattle.arch_csv.specs.Records.{component_named, edge_named};

use crate::fault::ArchClass;
use arch_model::{CompId, EdgeId, Library};
use csv::ByteRecord;
use template::{find_component, find_edge};

const KIND: &[u8] = b"kind";

const FROM: &[u8] = b"from";

const TO: &[u8] = b"to";

const COMPONENT: &[u8] = b"component";

const EDGE: &[u8] = b"edge";

/// What a record after the header names.
#[derive(Clone, Copy)]
pub enum Item {
    /// A component of the library.
    Component(CompId),
    /// An edge of the library's template.
    Edge(EdgeId),
}

/// The three fields of a record.
#[derive(Clone, Copy)]
pub(crate) struct Line<'a> {
    pub(crate) kind: &'a [u8],
    pub(crate) from: &'a [u8],
    pub(crate) to: &'a [u8],
}

/// The fields of a record; none where there aren't three.
pub(crate) fn line_of(row: &ByteRecord) -> Option<Line<'_>>
    ensures some { IfSome result
        (λ line. fields_of row.now ≡ line.kind.now ∷ line.from.now ∷ line.to.now ∷ []) }
    ensures none { IfNone result (length (fields_of row.now) ≢ 3) }
{
    if row.len() != 3 {
        return None;
    }
    let kind = row.get(0)?;
    let from = row.get(1)?;
    let to = row.get(2)?;
    Some(Line { kind, from, to })
}

/// The first fault of a header; none where its fields are as they should be.
pub(crate) fn header_fault(row: &ByteRecord) -> Option<ArchClass>
    ensures { result ≡ spec.header_fault (fields_of row.now) }
{
    let Some(line) = line_of(row) else {
        return Some(ArchClass::Fields);
    };
    if line.kind == KIND && line.from == FROM && line.to == TO {
        None
    } else {
        Some(ArchClass::Header)
    }
}

// The component of a name that is given as bytes; none where no component has it.
fn component_of(lib: &Library, name: &[u8]) -> Option<CompId>
    requires { IsLibrary lib.now }
    ensures { option_map (λ c. c.0) result ≡ component_named lib.now name.now }
{
    let Ok(name) = str::from_utf8(name) else {
        return None;
    };
    find_component(lib, name)
}

// The edge between the components of two names; none where there isn't one.
fn edge_of(lib: &Library, tail: &[u8], head: &[u8]) -> Option<EdgeId>
    requires { IsLibrary lib.now }
    ensures { option_map (λ e. e.0) result ≡ edge_named lib.now tail.now head.now }
{
    let tail = component_of(lib, tail)?;
    let head = component_of(lib, head)?;
    find_edge(lib, tail, head)
}

// The component or edge that three fields name.
#[tactic(auto, unfolding(crate::specs::Records::item_named))]
fn item_named(lib: &Library, line: &Line) -> Result<Item, ArchClass>
    requires { IsLibrary lib.now }
    ensures { result ≡ spec.item_named lib.now line.now.kind.now line.now.from.now line.now.to.now }
{
    if line.kind == COMPONENT {
        if !line.to.is_empty() {
            return Err(ArchClass::UnknownName);
        }
        return match component_of(lib, line.from) {
            Some(component) => Ok(Item::Component(component)),
            None => Err(ArchClass::UnknownName),
        };
    }
    if line.kind == EDGE {
        return match edge_of(lib, line.from, line.to) {
            Some(edge) => Ok(Item::Edge(edge)),
            None => Err(ArchClass::UnknownName),
        };
    }
    Err(ArchClass::Kind)
}

/// The component or edge that a record names, or the record's first fault by itself.
pub(crate) fn item_of(lib: &Library, row: &ByteRecord) -> Result<Item, ArchClass>
    requires { IsLibrary lib.now }
    ensures { result ≡ spec.item_of lib.now (fields_of row.now) }
{
    let Some(line) = line_of(row) else {
        return Err(ArchClass::Fields);
    };
    item_named(lib, &line)
}
