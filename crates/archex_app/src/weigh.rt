// What `weigh` does.
ghost use Rattle.std.specs.Prelude.{◌≡◌, ℕ, ◌≤◌, List, Ok, IfOk};
ghost use Rattle.outside.specs.Faults.{Stay};
ghost use Rattle.arch_model.specs.Architecture.{IsArchitecture};
ghost use Rattle.archex_app.specs.Words.{weigh};
ghost use Rattle.archex_app.specs.ComesTo.{CommandComesTo};
ghost use Rattle.archex_app.specs.Run.{Runs, seen};
ghost use Rattle.archex_app.specs.Inner.Outcome.{Settles, IsWeighing};

use crate::architecture::architecture_under;
use crate::library::library_under;
use crate::outcome::{Outcome, Stop, finish};
use crate::status::Status;
use crate::weights::weights;
use arch_model::{Architecture, Library, Memory};
use outside::{Shelf, Sink};
use patterns::first_broken;
use report::weigh_text;
use std::alloc::Global;
use std::borrow::CowSlice;

// What an architecture comes to.
fn weighing(alloc: Global, lib: &Library, arch: &Architecture) -> Result<Vec<u8>, Memory>
    requires { IsArchitecture lib.now arch.now }
    ensures { IfOk result (λ text. IsWeighing lib.now arch.now text.items) }
{
    let weights = weights(alloc, lib, arch)?;
    let mut text = Vec::new(alloc);
    weigh_text(lib, arch, &weights, first_broken(lib, arch), &mut text)?;
    Ok(text)
}

// What `weigh` comes to.
fn come_to<F: Shelf>(alloc: Global, shelf: &mut F, lib: &str, arch: &str) -> Result<Outcome, Stop>
    ensures settles { Settles (CommandComesTo (F.told shelf.old) (weigh lib.now arch.now)) result
        (F.read_faults shelf.old) (F.read_faults shelf.new) }

    ensures told_stays { (other : List ℕ) → F.told shelf.new other ≡ F.told shelf.old other }
    ensures reads_never_fall { (other : List ℕ) → F.read_faults shelf.old other ≤ F.read_faults shelf.new other }
    ensures writes_stay { Stay (F.write_faults shelf.old) (F.write_faults shelf.new) }
{
    let library = library_under(alloc, shelf, lib)?;
    let architecture = architecture_under(alloc, shelf, &library, arch)?;
    let text = weighing(alloc, &library, &architecture)?;
    Ok(Outcome {
        status: Status::DONE,
        text: CowSlice::Owned(text),
    })
}

/// Does what `weigh LIB ARCH` asks: reads the library and the architecture, and prints what this
/// comes to: its cost, its patterns, what its required sinks weigh, and whether it is admissible.
pub fn weigh_architecture<F: Shelf, O: Sink>(
    alloc: Global,
    lib: &str,
    arch: &str,
    shelf: &mut F,
    out: &mut O,
) -> Status
    ensures run { Runs (Ok (weigh lib.now arch.now)) result
        (seen (F.told shelf.old) (F.read_faults shelf.old) (F.write_faults shelf.old)
        (O.told out.old) (O.faults out.old))
        (seen (F.told shelf.new) (F.read_faults shelf.new) (F.write_faults shelf.new)
        (O.told out.new) (O.faults out.new)) }
{
    let outcome = come_to(alloc, shelf, lib, arch);
    finish(out, outcome)
}
