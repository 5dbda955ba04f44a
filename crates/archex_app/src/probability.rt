// What `probability` does.
ghost use Rattle.std.specs.Prelude.{◌≡◌, ℕ, ◌≤◌, List, Ok, IfOk};
ghost use Rattle.outside.specs.Faults.{Stay};
ghost use Rattle.report.specs.Mass as spec;
ghost use Rattle.archex_app.specs.Words.{probability};
ghost use Rattle.archex_app.specs.ComesTo.{CommandComesTo};
ghost use Rattle.archex_app.specs.Run.{Runs, seen};
ghost use Rattle.archex_app.specs.Inner.Outcome.{Settles};

use crate::architecture::architecture_under;
use crate::library::library_under;
use crate::outcome::{Outcome, Stop, finish};
use crate::sink::{SINK_PLACE, sink_named};
use crate::status::Status;
use arch_model::Memory;
use fail_mass::enclose;
use outside::{Shelf, Sink};
use report::mass_text;
use std::alloc::Global;
use std::borrow::CowSlice;

// The line with the two bounds.
fn mass_line(alloc: Global, bounds: (u64, u64)) -> Result<Vec<u8>, Memory>
    ensures { IfOk result (λ text. text.items ≡ spec.mass_text bounds) }
{
    let (low, high) = bounds;
    let mut text = Vec::new(alloc);
    mass_text(low, high, &mut text)?;
    Ok(text)
}

// What `probability` comes to.
fn come_to<F: Shelf>(
    alloc: Global,
    shelf: &mut F,
    lib: &str,
    arch: &str,
    sink: &str,
) -> Result<Outcome, Stop>
    ensures settles { Settles (CommandComesTo (F.told shelf.old) (probability lib.now arch.now sink.now)) result
        (F.read_faults shelf.old) (F.read_faults shelf.new) }

    ensures told_stays { (other : List ℕ) → F.told shelf.new other ≡ F.told shelf.old other }
    ensures reads_never_fall { (other : List ℕ) → F.read_faults shelf.old other ≤ F.read_faults shelf.new other }
    ensures writes_stay { Stay (F.write_faults shelf.old) (F.write_faults shelf.new) }
{
    let library = library_under(alloc, shelf, lib)?;
    let architecture = architecture_under(alloc, shelf, &library, arch)?;
    let component = sink_named(alloc, &library, sink, SINK_PLACE)?;
    let text = mass_line(alloc, enclose(&library, &architecture, component))?;
    Ok(Outcome {
        status: Status::DONE,
        text: CowSlice::Owned(text),
    })
}

/// Does what `probability LIB ARCH SINK` asks: reads the library and the architecture, and prints two
/// bounds of the failure mass of the sink.
pub fn enclose_mass<F: Shelf, O: Sink>(
    alloc: Global,
    lib: &str,
    arch: &str,
    sink: &str,
    shelf: &mut F,
    out: &mut O,
) -> Status
    ensures run { Runs (Ok (probability lib.now arch.now sink.now)) result
        (seen (F.told shelf.old) (F.read_faults shelf.old) (F.write_faults shelf.old)
        (O.told out.old) (O.faults out.old))
        (seen (F.told shelf.new) (F.read_faults shelf.new) (F.write_faults shelf.new)
        (O.told out.new) (O.faults out.new)) }
{
    let outcome = come_to(alloc, shelf, lib, arch, sink);
    finish(out, outcome)
}
