// Writing a file from its start.
ghost use Rattle.std.specs.Prelude.{◌≡◌, ◌≢◌, ℕ, ◌≤◌, List, [], ◌∷◌, OnOk, OnErr, IfSome};
ghost use Rattle.outside.specs.Faults.{Rose, Stay, ChangesOnly};
ghost use Rattle.outside.specs.Told.{Appends};
ghost use Rattle.archex_app.specs.Files.{IsFrontOf};
ghost use Rattle.archex_app.specs.Inner.Log.{IsAppendedSome};

use outside::{Failed, Shelf};
use std::alloc::AllocError;

/// Why a file couldn't be written.
#[derive(Clone, Copy)]
pub enum WriteError {
    Memory,
    Failed,
}

impl From<AllocError> for WriteError {
    ghost use Rattle.archex_app.specs.declared.writing.WriteError.TheVariants.{Memory};

    ghost from_gives = { λ _ e. e ≡ Memory };

    fn from(_error: AllocError) -> WriteError {
        WriteError::Memory
    }
}

impl From<Failed> for WriteError {
    ghost use Rattle.archex_app.specs.declared.writing.WriteError.TheVariants.{Failed};

    ghost from_gives = { λ _ e. e ≡ Failed };

    fn from(_error: Failed) -> WriteError {
        WriteError::Failed
    }
}

/// Appends all of a text to a file.
pub fn append_all<F: Shelf>(shelf: &mut F, name: &str, text: &[u8]) -> Result<(), Failed>
    ensures whole { OnOk result (Appends (F.told shelf.old name.now) (F.told shelf.new name.now) text.now) }
    ensures part { OnErr result (IsAppendedSome (F.told shelf.old name.now) (F.told shelf.new name.now) text.now) }
    ensures failed { OnErr result (Rose (F.write_faults shelf.old name.now) (F.write_faults shelf.new name.now)) }

    ensures told_stays { (other : List ℕ) → other ≢ name.now → F.told shelf.new other ≡ F.told shelf.old other }
    ensures reads_stay { Stay (F.read_faults shelf.old) (F.read_faults shelf.new) }
    ensures writes_never_fall { (other : List ℕ) → F.write_faults shelf.old other ≤ F.write_faults shelf.new other }
    ensures writes_stay { OnOk result (Stay (F.write_faults shelf.old) (F.write_faults shelf.new)) }
    ensures writes_alone { ChangesOnly (name.now ∷ []) (F.write_faults shelf.old) (F.write_faults shelf.new) }
{
    let mut done = 0;
    while done < text.len() {
        done += shelf.append(name, &text[done..])?;
    }
    Ok(())
}

/// Writes a text under a name, whatever stood there. Where a write fails, there stays what stood
/// there, or a front of the text.
pub fn write_text<F: Shelf>(shelf: &mut F, name: &str, text: &[u8]) -> Result<(), Failed>
    ensures whole { OnOk result (IfSome (F.told shelf.new name.now) (λ bytes. bytes ≡ text.now)) }
    ensures part { OnErr result (IsFrontOf (F.told shelf.old name.now) (F.told shelf.new name.now) text.now) }
    ensures failed { OnErr result (Rose (F.write_faults shelf.old name.now) (F.write_faults shelf.new name.now)) }

    ensures told_stays { (other : List ℕ) → other ≢ name.now → F.told shelf.new other ≡ F.told shelf.old other }
    ensures reads_stay { Stay (F.read_faults shelf.old) (F.read_faults shelf.new) }
    ensures writes_never_fall { (other : List ℕ) → F.write_faults shelf.old other ≤ F.write_faults shelf.new other }
    ensures writes_stay { OnOk result (Stay (F.write_faults shelf.old) (F.write_faults shelf.new)) }
    ensures writes_alone { ChangesOnly (name.now ∷ []) (F.write_faults shelf.old) (F.write_faults shelf.new) }
{
    shelf.fresh(name)?;
    append_all(shelf, name, text)
}
