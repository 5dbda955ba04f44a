// The architecture of bytes.
ghost use Rattle.std.specs.Prelude.{◌≡◌, ◌≤◌, true, false, Ok, IfOk, IfErr, length};
ghost use Rattle.arch_model.specs.Architecture.{IsArchitecture};
ghost use Rattle.csv.specs.Reading.{error_kind, stops_reader};
ghost use Rattle.arch_csv.specs.ArchitectureOf.{architecture_of_bytes, records_of, FaultOf};
ghost use Rattle.arch_csv.specs.Inner.Draft.{IsDraft};

use crate::draft::Draft;
use crate::fault::{ArchClass, ArchError};
use arch_model::{Architecture, Library};
use csv::{Error, ErrorKind, ReaderBuilder};
use std::alloc::Global;

/// The greatest number of bytes of an architecture file.
pub const LARGEST: usize = 1_048_576;

// What an error of `csv` at a record is here. A slice of bytes has no fault of its own, so an
// error of reading it is want of memory too.
fn refusal(error: &Error, place: u64) -> ArchError
    ensures memory { stops_reader (error_kind error.now) ≡ true → result ≡ ArchError.Memory }
    ensures fields { stops_reader (error_kind error.now) ≡ false
        → result ≡ ArchError.Fault (record { class = ArchClass.Fields; place = place }) }
{
    match error.kind() {
        ErrorKind::OutOfMemory => ArchError::Memory,
        ErrorKind::Io(_) => ArchError::Memory,
        _ => ArchError::at(ArchClass::Fields, place),
    }
}

// Reads all records, up to the first that is at fault.
fn read_records(alloc: Global, lib: &Library, bytes: &[u8]) -> Result<Draft, ArchError>
    requires { length bytes.now ≤ 1048576 }
    ensures draft { IfOk result (IsDraft lib.now (records_of bytes.now)) }
    ensures fault { IfErr result (FaultOf lib.now bytes.now) }
{
    let rows = ReaderBuilder::new()
        .has_headers(false)
        .flexible(true)
        .from_reader(alloc, bytes)
        .into_byte_records();
    let mut draft = Draft::new(alloc, lib)?;
    for row in rows {
        match row {
            Ok(row) => draft.take(lib, &row)?,
            Err(error) => return Err(refusal(&error, draft.records + 1)),
        }
    }
    Ok(draft)
}

/// Reads the bytes of an architecture file.
///
/// Answers the architecture that the bytes are by `architecture_of_bytes`, or their fault by
/// `architecture_of_bytes`. `Memory` may always come, and says nothing of the bytes.
pub fn read_architecture(
    alloc: Global,
    lib: &Library,
    bytes: &[u8],
) -> Result<Architecture, ArchError>
    ensures architecture { IfOk result (λ arch. architecture_of_bytes lib.now bytes.now ≡ Ok arch) }
    ensures fits { IfOk result (λ arch. IsArchitecture lib.now arch) }
    ensures fault { IfErr result (FaultOf lib.now bytes.now) }
{
    if bytes.len() > LARGEST {
        return Err(ArchError::at(ArchClass::TooLarge, 0));
    }
    read_records(alloc, lib, bytes)?.finish(lib)
}
