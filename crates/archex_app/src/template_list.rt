// What `template` does.
ghost use Rattle.std.specs.Prelude.{◌≡◌, ℕ, ◌≤◌, List, Ok, IfOk};
ghost use Rattle.outside.specs.Faults.{Stay};
ghost use Rattle.report.specs.Template as spec;
ghost use Rattle.archex_app.specs.Words.{template};
ghost use Rattle.archex_app.specs.ComesTo.{CommandComesTo};
ghost use Rattle.archex_app.specs.Run.{Runs, seen};
ghost use Rattle.archex_app.specs.Inner.Outcome.{Settles};

use crate::library::library_under;
use crate::outcome::{Outcome, Stop, finish};
use crate::status::Status;
use arch_model::{Library, Memory};
use outside::{Shelf, Sink};
use report::template_text;
use std::alloc::Global;
use std::borrow::CowSlice;

// The components and edges of a library.
fn listed(alloc: Global, lib: &Library) -> Result<Vec<u8>, Memory>
    ensures { IfOk result (λ text. text.items ≡ spec.template_text lib.now) }
{
    let mut text = Vec::new(alloc);
    template_text(lib, &mut text)?;
    Ok(text)
}

// What `template` comes to.
fn come_to<F: Shelf>(alloc: Global, shelf: &mut F, lib: &str) -> Result<Outcome, Stop>
    ensures settles { Settles (CommandComesTo (F.told shelf.old) (template lib.now)) result
        (F.read_faults shelf.old) (F.read_faults shelf.new) }

    ensures told_stays { (other : List ℕ) → F.told shelf.new other ≡ F.told shelf.old other }
    ensures reads_never_fall { (other : List ℕ) → F.read_faults shelf.old other ≤ F.read_faults shelf.new other }
    ensures writes_stay { Stay (F.write_faults shelf.old) (F.write_faults shelf.new) }
{
    let library = library_under(alloc, shelf, lib)?;
    let text = listed(alloc, &library)?;
    Ok(Outcome {
        status: Status::DONE,
        text: CowSlice::Owned(text),
    })
}

/// Does what `template LIB` asks: reads the library, and prints its numbered components and edges.
pub fn list_template<F: Shelf, O: Sink>(
    alloc: Global,
    lib: &str,
    shelf: &mut F,
    out: &mut O,
) -> Status
    ensures run { Runs (Ok (template lib.now)) result
        (seen (F.told shelf.old) (F.read_faults shelf.old) (F.write_faults shelf.old)
        (O.told out.old) (O.faults out.old))
        (seen (F.told shelf.new) (F.read_faults shelf.new) (F.write_faults shelf.new)
        (O.told out.new) (O.faults out.new)) }
{
    let outcome = come_to(alloc, shelf, lib);
    finish(out, outcome)
}
