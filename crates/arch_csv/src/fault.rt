// What is wrong with an architecture file, and where.
ghost use Rattle.std.specs.Prelude.{◌≡◌};

use arch_model::Memory;
use std::fmt::Debug;
use thiserror::Error;

/// The classes of faults, in the order in which those of one record are judged.
#[derive(Clone, Copy, Debug, PartialEq, Eq)]
pub enum ArchClass {
    /// The file has more than 1048576 bytes.
    TooLarge,
    /// The record hasn't three fields, or there is no record.
    Fields,
    /// The first record's fields aren't `kind`, `from` and `to`.
    Header,
    /// The first field is neither `component` nor `edge`.
    Kind,
    /// A name isn't a component's, a component's third field isn't empty, or the template has no
    /// such edge.
    UnknownName,
    /// The component or the edge stands in an earlier record.
    Duplicate,
    /// An end of the edge isn't a component of the file.
    MissingEnd,
}

/// What is wrong with an architecture file, and where: the first fault by
/// `architecture_of_bytes`.
#[derive(Clone, Copy, Debug, PartialEq, Eq)]
pub struct ArchFault {
    /// What is wrong.
    pub class: ArchClass,
    /// The record's number, counted from 1, which is the header's. It is 0 where the fault is the
    /// file's.
    pub place: u64,
}

/// Why there is no architecture.
#[derive(Debug, Drop, Error)]
pub enum ArchError {
    /// Want of memory, which says nothing of the file.
    #[error("out of memory")]
    Memory,
    /// The bytes aren't an architecture: this is their fault by `architecture_of_bytes`.
    #[error("not an architecture")]
    Fault(ArchFault),
}

impl ArchError {
    // The fault of a class at a record.
    pub(crate) fn at(class: ArchClass, place: u64) -> ArchError
        ensures { result ≡ ArchError.Fault (record { class = class; place = place }) }
    {
        ArchError::Fault(ArchFault { class, place })
    }
}

impl From<Memory> for ArchError {
    ghost use Rattle.arch_csv.specs.declared.fault.ArchError.TheVariants as error;

    ghost from_gives = { λ _ e. e ≡ error.Memory };

    fn from(_memory: Memory) -> Self {
        ArchError::Memory
    }
}
