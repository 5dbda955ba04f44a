// What is wrong with a library file, and where.
ghost use Rattle.std.specs.Prelude.{◌≡◌};

use arch_model::{KeyText, Memory};
use std::fmt;
use std::fmt::{Debug, Formatter, Write};
use thiserror::Error;

/// The classes of faults, in the order in which they are judged over the whole file.
#[derive(Clone, Copy, Debug, PartialEq, Eq)]
pub enum LibClass {
    /// The file has more than 1048576 bytes.
    TooLarge,
    /// The bytes are no TOML document.
    NotToml,
    /// A key isn't one of its table's.
    UnknownKey,
    /// A required key is absent.
    MissingKey,
    /// A value is of another kind than its key wants.
    WrongKind,
    /// A type's name isn't of the form.
    BadName,
    /// A type's name, or a link's pair of types, stands in an earlier row.
    Duplicate,
    /// A type or a component is named that doesn't exist.
    UnknownName,
    /// A number is out of its range, a role or kind isn't one of the words, `exclusive` names one
    /// type as both `a` and `b`, or a required component isn't of role sink.
    Range,
    /// There are too many components, edges, patterns or requirements.
    TooMany,
}

/// The tables of a library file, and the file itself.
#[derive(Clone, Copy, Debug, PartialEq, Eq)]
pub enum TableName {
    /// The file as a whole, whose keys are the names of the tables.
    Library,
    /// The types of components, `type`.
    Types,
    /// The links between types, `link`.
    Links,
    /// The patterns, `pattern`.
    Patterns,
    /// The requirements on sinks, `require`.
    Requires,
}

/// A fault of a document: its class, its table, the row's position there counted from 1 (0 for the
/// library), and a key.
#[derive(Clone, Copy)]
pub(crate) struct Fault<'a> {
    pub(crate) class: LibClass,
    pub(crate) table: TableName,
    pub(crate) position: usize,
    pub(crate) key: &'a str,
}

/// What is wrong with a library file, and where: the first fault in the order of the classes, then
/// of the tables, the positions and the keys.
#[derive(Drop)]
pub struct LibFault {
    /// What is wrong.
    pub class: LibClass,
    /// The table that it is in.
    pub table: TableName,
    /// The row's place in its table, counted from 1. It is 0 where the fault is the file's.
    pub position: u32,
    /// The key, as it is written, or `-` where it is at none.
    pub key: KeyText,
}

impl Debug for LibFault {
    fn fmt<W: Write>(&self, f: &mut Formatter<W>) -> fmt::Result {
        let (class, table) = (self.class, self.table);
        let (position, key) = (self.position, self.key.bytes());
        write!(f, "{class:?} {table:?} {position} {key:?}")
    }
}

/// Why there is no library.
#[derive(Debug, Drop, Error)]
pub enum LibError {
    /// Want of memory, which says nothing of the file.
    #[error("out of memory")]
    Memory,
    /// The bytes aren't a library: this is their fault by `library_of`.
    #[error("not a library")]
    Fault(LibFault),
}

impl From<Memory> for LibError {
    ghost use Rattle.lib_read.specs.declared.fault.LibError.TheVariants as error;

    ghost from_gives = { λ _ e. e ≡ error.Memory };

    fn from(_memory: Memory) -> Self {
        LibError::Memory
    }
}

/// What ends a reading before it has a library.
#[derive(Drop)]
pub(crate) enum Stop<'a> {
    Memory,
    Fault(Fault<'a>),
}

impl From<Memory> for Stop<'_> {
    ghost use Rattle.lib_read.specs.declared.fault.Stop.TheVariants as stop;

    ghost from_gives = { λ _ e. e ≡ stop.Memory };

    fn from(_memory: Memory) -> Self {
        Stop::Memory
    }
}
