// The log of a search, as a file that is written from its start, in pieces.
ghost use Rattle.std.specs.Prelude.{◌≡◌, ◌≢◌, ℕ, ◌≤◌, List, [], ◌∷◌, ◌++◌};
ghost use Rattle.std.specs.Prelude.{OnOk, OnErr, IsErrOf, IfSome, IfOk};
ghost use Rattle.outside.specs.Faults.{Rose, Stay, ChangesOnly};
ghost use Rattle.outside.specs.Told.{Appends};
ghost use Rattle.proof_log.specs.Value.{ended, entry_text, header_text, closing_text};
ghost use Rattle.proof_log.specs.Log.{log_text_of};
ghost use Rattle.archex_app.specs.Files.{IsFrontOf};
ghost use Rattle.archex_app.specs.Inner.Log.{IsAppended, IsAppendedSome, entry_lines};

use crate::writing::{WriteError, append_all};
use outside::{Failed, Shelf};
use proof_log::{closing, header, write_entry};
use rows::Problem;
use search_core::Entry;
use std::alloc::{AllocError, Global};
use worker_team::Solved;

/// A piece is appended to the file once it has at least this many bytes.
const PIECE: usize = 65536;

// Appends what a buffer has to a file, once it is a piece.
fn flush<F: Shelf>(shelf: &mut F, name: &str, buffer: &mut Vec<u8>) -> Result<(), Failed>
    ensures whole { OnOk result (IsAppended (F.told shelf.old name.now) (F.told shelf.new name.now)
        buffer.old.items buffer.new.items) }
    ensures part { OnErr result (IsAppendedSome (F.told shelf.old name.now) (F.told shelf.new name.now)
        buffer.old.items) }
    ensures failed { OnErr result (Rose (F.write_faults shelf.old name.now) (F.write_faults shelf.new name.now)) }

    ensures told_stays { (other : List ℕ) → other ≢ name.now → F.told shelf.new other ≡ F.told shelf.old other }
    ensures reads_stay { Stay (F.read_faults shelf.old) (F.read_faults shelf.new) }
    ensures writes_never_fall { (other : List ℕ) → F.write_faults shelf.old other ≤ F.write_faults shelf.new other }
    ensures writes_stay { OnOk result (Stay (F.write_faults shelf.old) (F.write_faults shelf.new)) }
    ensures writes_alone { ChangesOnly (name.now ∷ []) (F.write_faults shelf.old) (F.write_faults shelf.new) }
{
    if buffer.len() < PIECE {
        return Ok(());
    }
    append_all(shelf, name, buffer.as_slice())?;
    buffer.clear();
    Ok(())
}

// Writes the line of an entry by way of a buffer.
fn push_entry<F: Shelf>(
    shelf: &mut F,
    name: &str,
    entry: &Entry,
    buffer: &mut Vec<u8>,
) -> Result<(), WriteError>
    ensures whole { OnOk result (IsAppended (F.told shelf.old name.now) (F.told shelf.new name.now)
        (buffer.old.items ++ ended (entry_text entry.now)) buffer.new.items) }
    ensures part { OnErr result (IsAppendedSome (F.told shelf.old name.now) (F.told shelf.new name.now)
        (buffer.old.items ++ ended (entry_text entry.now))) }
    ensures failed { IsErrOf result WriteError.Failed
        → Rose (F.write_faults shelf.old name.now) (F.write_faults shelf.new name.now) }

    ensures told_stays { (other : List ℕ) → other ≢ name.now → F.told shelf.new other ≡ F.told shelf.old other }
    ensures reads_stay { Stay (F.read_faults shelf.old) (F.read_faults shelf.new) }
    ensures writes_never_fall { (other : List ℕ) → F.write_faults shelf.old other ≤ F.write_faults shelf.new other }
    ensures writes_stay { OnOk result (Stay (F.write_faults shelf.old) (F.write_faults shelf.new)) }
    ensures writes_stay_for_memory { IsErrOf result WriteError.Memory
        → Stay (F.write_faults shelf.old) (F.write_faults shelf.new) }
    ensures writes_alone { ChangesOnly (name.now ∷ []) (F.write_faults shelf.old) (F.write_faults shelf.new) }
{
    write_entry(entry, buffer)?;
    flush(shelf, name, buffer)?;
    Ok(())
}

// Writes the lines of entries by way of a buffer.
fn push_entries<F: Shelf>(
    shelf: &mut F,
    name: &str,
    entries: &[Entry],
    buffer: &mut Vec<u8>,
) -> Result<(), WriteError>
    ensures whole { OnOk result (IsAppended (F.told shelf.old name.now) (F.told shelf.new name.now)
        (buffer.old.items ++ entry_lines entries.now) buffer.new.items) }
    ensures part { OnErr result (IsAppendedSome (F.told shelf.old name.now) (F.told shelf.new name.now)
        (buffer.old.items ++ entry_lines entries.now)) }
    ensures failed { IsErrOf result WriteError.Failed
        → Rose (F.write_faults shelf.old name.now) (F.write_faults shelf.new name.now) }

    ensures told_stays { (other : List ℕ) → other ≢ name.now → F.told shelf.new other ≡ F.told shelf.old other }
    ensures reads_stay { Stay (F.read_faults shelf.old) (F.read_faults shelf.new) }
    ensures writes_never_fall { (other : List ℕ) → F.write_faults shelf.old other ≤ F.write_faults shelf.new other }
    ensures writes_stay { OnOk result (Stay (F.write_faults shelf.old) (F.write_faults shelf.new)) }
    ensures writes_stay_for_memory { IsErrOf result WriteError.Memory
        → Stay (F.write_faults shelf.old) (F.write_faults shelf.new) }
    ensures writes_alone { ChangesOnly (name.now ∷ []) (F.write_faults shelf.old) (F.write_faults shelf.new) }
{
    for entry in entries {
        push_entry(shelf, name, entry, buffer)?;
    }
    Ok(())
}

// Writes all that follows what a buffer has: the lines of a search's entries, and its closing line.
fn write_lines<F: Shelf>(
    shelf: &mut F,
    name: &str,
    solved: &Solved,
    buffer: &mut Vec<u8>,
) -> Result<(), WriteError>
    ensures whole { OnOk result (Appends (F.told shelf.old name.now) (F.told shelf.new name.now)
        (buffer.old.items ++ (entry_lines solved.now.history.entries
        ++ ended (closing_text solved.now.answer solved.now.branchings solved.now.cuts)))) }
    ensures part { OnErr result (IsAppendedSome (F.told shelf.old name.now) (F.told shelf.new name.now)
        (buffer.old.items ++ (entry_lines solved.now.history.entries
        ++ ended (closing_text solved.now.answer solved.now.branchings solved.now.cuts)))) }
    ensures failed { IsErrOf result WriteError.Failed
        → Rose (F.write_faults shelf.old name.now) (F.write_faults shelf.new name.now) }

    ensures told_stays { (other : List ℕ) → other ≢ name.now → F.told shelf.new other ≡ F.told shelf.old other }
    ensures reads_stay { Stay (F.read_faults shelf.old) (F.read_faults shelf.new) }
    ensures writes_never_fall { (other : List ℕ) → F.write_faults shelf.old other ≤ F.write_faults shelf.new other }
    ensures writes_stay { OnOk result (Stay (F.write_faults shelf.old) (F.write_faults shelf.new)) }
    ensures writes_stay_for_memory { IsErrOf result WriteError.Memory
        → Stay (F.write_faults shelf.old) (F.write_faults shelf.new) }
    ensures writes_alone { ChangesOnly (name.now ∷ []) (F.write_faults shelf.old) (F.write_faults shelf.new) }
{
    push_entries(shelf, name, solved.history.entries(), buffer)?;
    closing(&solved.answer, solved.branchings, solved.cuts, buffer)?;
    append_all(shelf, name, buffer.as_slice())?;
    Ok(())
}

// The first lines of a log.
fn first_lines(alloc: Global, problem: &Problem, limit: u32) -> Result<Vec<u8>, AllocError>
    ensures { IfOk result (λ bytes. bytes.items ≡ header_text problem.now limit) }
{
    let mut bytes = Vec::new(alloc);
    header(problem, limit, &mut bytes)?;
    Ok(bytes)
}

/// Writes the log of a search under a name, whatever stood there. Where a write fails or memory is
/// wanting, there stays what stood there, or a front of the log.
pub fn write_log<F: Shelf>(
    alloc: Global,
    shelf: &mut F,
    name: &str,
    problem: &Problem,
    limit: u32,
    solved: &Solved,
) -> Result<(), WriteError>
    ensures whole { OnOk result (IfSome (F.told shelf.new name.now) (λ bytes. bytes
        ≡ log_text_of problem.now limit solved.now.history.entries solved.now.answer
        solved.now.branchings solved.now.cuts)) }
    ensures part { OnErr result (IsFrontOf (F.told shelf.old name.now) (F.told shelf.new name.now)
        (log_text_of problem.now limit solved.now.history.entries solved.now.answer
        solved.now.branchings solved.now.cuts)) }
    ensures failed { IsErrOf result WriteError.Failed
        → Rose (F.write_faults shelf.old name.now) (F.write_faults shelf.new name.now) }

    ensures told_stays { (other : List ℕ) → other ≢ name.now → F.told shelf.new other ≡ F.told shelf.old other }
    ensures reads_stay { Stay (F.read_faults shelf.old) (F.read_faults shelf.new) }
    ensures writes_never_fall { (other : List ℕ) → F.write_faults shelf.old other ≤ F.write_faults shelf.new other }
    ensures writes_stay { OnOk result (Stay (F.write_faults shelf.old) (F.write_faults shelf.new)) }
    ensures writes_stay_for_memory { IsErrOf result WriteError.Memory
        → Stay (F.write_faults shelf.old) (F.write_faults shelf.new) }
    ensures writes_alone { ChangesOnly (name.now ∷ []) (F.write_faults shelf.old) (F.write_faults shelf.new) }
{
    let mut buffer = first_lines(alloc, problem, limit)?;
    shelf.fresh(name)?;
    write_lines(shelf, name, solved, &mut buffer)
}
