// An architecture from the shelf.
ghost use Rattle.std.specs.Prelude.{◌≡◌, ℕ, ◌≤◌, List, Ok, IfOk, OnOk, IfErr};
ghost use Rattle.outside.specs.Faults.{Stay};
ghost use Rattle.arch_model.specs.Architecture.{IsArchitecture};
ghost use Rattle.arch_csv.specs.ArchitectureOf.{architecture_of_bytes};
ghost use Rattle.report.specs.Refusal as spec;
ghost use Rattle.archex_app.specs.Status.{architecture_refused};
ghost use Rattle.archex_app.specs.Inner.Outcome.{IsRead, StopsAt};

use crate::outcome::{Outcome, Stop};
use crate::reading::read_file;
use crate::status::Status;
use arch_csv::{ArchError, ArchFault, read_architecture};
use arch_model::{Architecture, Library, Memory};
use outside::Shelf;
use report::refused_architecture_text;
use std::alloc::Global;
use std::borrow::CowSlice;

// The text that refuses an architecture file for a fault.
fn refusal(alloc: Global, fault: &ArchFault) -> Result<Vec<u8>, Memory>
    ensures { IfOk result (λ text. text.items ≡ spec.refused_architecture_text fault.now) }
{
    let mut text = Vec::new(alloc);
    refused_architecture_text(fault, &mut text)?;
    Ok(text)
}

/// The architecture of a library under a name. Bytes that are none are refused for their first
/// fault.
pub fn architecture_under<F: Shelf>(
    alloc: Global,
    shelf: &mut F,
    lib: &Library,
    name: &str,
) -> Result<Architecture, Stop>
    ensures architecture { IfOk result (λ arch.
        IsRead (architecture_of_bytes lib.now) (F.told shelf.old name.now) (Ok arch)) }
    ensures fits { IfOk result (λ arch. IsArchitecture lib.now arch) }
    ensures reads_stay { OnOk result (Stay (F.read_faults shelf.old) (F.read_faults shelf.new)) }
    ensures stop { IfErr result (λ stop.
        StopsAt (architecture_of_bytes lib.now) architecture_refused spec.refused_architecture_text
        (F.told shelf.old name.now) name.now stop (F.read_faults shelf.old) (F.read_faults shelf.new)) }

    ensures told_stays { (other : List ℕ) → F.told shelf.new other ≡ F.told shelf.old other }
    ensures reads_never_fall { (other : List ℕ) → F.read_faults shelf.old other ≤ F.read_faults shelf.new other }
    ensures writes_stay { Stay (F.write_faults shelf.old) (F.write_faults shelf.new) }
{
    let bytes = read_file(alloc, shelf, name)?;
    match read_architecture(alloc, lib, bytes.as_slice()) {
        Ok(arch) => Ok(arch),
        Err(ArchError::Fault(fault)) => {
            let text = refusal(alloc, &fault)?;
            Err(Stop::Refused(Outcome {
                status: Status::ARCHITECTURE_REFUSED,
                text: CowSlice::Owned(text),
            }))
        }
        Err(ArchError::Memory) => Err(Stop::NoMemory),
    }
}
