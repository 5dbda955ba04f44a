//! What follows from the clauses of shelves and sinks alone: no count of a shelf or sink that
//! never fails can rise, so whoever knows that an answer comes only where a count rose knows that
//! it doesn't come there.
ghost use Rattle.std.specs.Prelude.{ℕ, List};
ghost use Rattle.outside.specs.Faults.{Rose};
ghost use Rattle.outside.specs.Sure.{SureFiles};
ghost use Rattle.outside.specs.declared.sure_sink.SureSink.{SureSink};

use crate::shelf::Shelf;
use crate::sink::Sink;
use crate::sure_shelf::SureShelf;
use crate::sure_sink::SureSink;

/// No count of a [`SureShelf`] rises from any of its states to any other.
pub fn sure_shelf_never_fails()
    ensures reads { (before now : SureFiles) (name : List ℕ) → ¬ Rose
        (⟦<SureShelf as Shelf>⟧.read_faults before name)
        (⟦<SureShelf as Shelf>⟧.read_faults now name) }
    ensures writes { (before now : SureFiles) (name : List ℕ) → ¬ Rose
        (⟦<SureShelf as Shelf>⟧.write_faults before name)
        (⟦<SureShelf as Shelf>⟧.write_faults now name) }
{}

/// The count of a [`SureSink`] never rises.
pub fn sure_sink_never_fails()
    ensures { (before now : SureSink) → ¬ Rose
        (⟦<SureSink as Sink>⟧.faults before)
        (⟦<SureSink as Sink>⟧.faults now) }
{}
