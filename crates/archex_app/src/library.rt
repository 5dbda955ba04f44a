// A library from the shelf.
ghost use Rattle.std.specs.Prelude.{◌≡◌, ℕ, ◌≤◌, List, [], ◌∷◌, Ok, IfOk, OnOk, IfErr};
ghost use Rattle.outside.specs.Faults.{Stay, ChangesOnly};
ghost use Rattle.lib_read.specs.LibraryOf.{library_of};
ghost use Rattle.report.specs.Refusal as spec;
ghost use Rattle.archex_app.specs.Status.{library_refused};
ghost use Rattle.archex_app.specs.Inner.Outcome.{IsRead, StopsAt};

use crate::outcome::{Outcome, Stop};
use crate::reading::read_file;
use crate::status::Status;
use arch_model::{Library, Memory};
use lib_read::{LibError, LibFault, read_library};
use outside::Shelf;
use report::refused_library_text;
use std::alloc::Global;
use std::borrow::CowSlice;

// The text that refuses a library for a fault.
fn refusal(alloc: Global, fault: &LibFault) -> Result<Vec<u8>, Memory>
    ensures { IfOk result (λ text. text.items ≡ spec.refused_library_text fault.now) }
{
    let mut text = Vec::new(alloc);
    refused_library_text(fault, &mut text)?;
    Ok(text)
}

/// The library under a name. Bytes that are none are refused for their first fault.
pub fn library_under<F: Shelf>(alloc: Global, shelf: &mut F, name: &str) -> Result<Library, Stop>
    ensures library { IfOk result (λ lib. IsRead library_of (F.told shelf.old name.now) (Ok lib)) }
    ensures reads_stay { OnOk result (Stay (F.read_faults shelf.old) (F.read_faults shelf.new)) }
    ensures stop { IfErr result (λ stop. StopsAt library_of library_refused spec.refused_library_text
        (F.told shelf.old name.now) name.now stop (F.read_faults shelf.old) (F.read_faults shelf.new)) }

    ensures told_stays { (other : List ℕ) → F.told shelf.new other ≡ F.told shelf.old other }
    ensures reads_never_fall { (other : List ℕ) → F.read_faults shelf.old other ≤ F.read_faults shelf.new other }
    ensures writes_stay { Stay (F.write_faults shelf.old) (F.write_faults shelf.new) }
{
    let bytes = read_file(alloc, shelf, name)?;
    match read_library(alloc, bytes.as_slice()) {
        Ok(lib) => Ok(lib),
        Err(LibError::Fault(fault)) => {
            let text = refusal(alloc, &fault)?;
            Err(Stop::Refused(Outcome {
                status: Status::LIBRARY_REFUSED,
                text: CowSlice::Owned(text),
            }))
        }
        Err(LibError::Memory) => Err(Stop::NoMemory),
    }
}
