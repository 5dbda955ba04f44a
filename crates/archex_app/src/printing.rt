// Printing a text whole.
ghost use Rattle.std.specs.Prelude.{◌≡◌, ℕ, ◌≤◌, List, ◌++◌, OnOk, OnErr};
ghost use Rattle.outside.specs.Faults.{Rose};
ghost use Rattle.outside.specs.Told.{Appends};

use outside::{Failed, Sink};

/// Prints all of a text, piece by piece.
pub fn print_all<O: Sink>(out: &mut O, text: &[u8]) -> Result<(), Failed>
    ensures printed { OnOk result (Appends (O.told out.old) (O.told out.new) text.now) }
    ensures cut { OnErr result ((front rest : List ℕ) × (text.now ≡ front ++ rest)
        × Appends (O.told out.old) (O.told out.new) front) }
    ensures failed { OnErr result (Rose (O.faults out.old) (O.faults out.new)) }
    ensures never_falls { O.faults out.old ≤ O.faults out.new }
    ensures stays { OnOk result (O.faults out.new ≡ O.faults out.old) }
{
    let mut printed = 0;
    while printed < text.len() {
        printed += out.write(&text[printed..])?;
    }
    Ok(())
}
