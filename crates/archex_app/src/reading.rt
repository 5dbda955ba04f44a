// Reading a file whole, up to a limit.
ghost use Rattle.std.specs.Prelude.{◌≡◌, ℕ, ◌+◌, ◌≤◌, ◌<◌, List, [], ◌∷◌, take, length, IfSome, IfOk, OnOk, IsErrOf};
ghost use Rattle.outside.specs.Faults.{Rose, Stay, ChangesOnly};
ghost use Rattle.archex_app.specs.Inner.Reading.{IsFront, IsWhole};

use lib_read::LARGEST;
use outside::{Failed, Shelf};
use std::alloc::{AllocError, Global};

/// The greatest number of bytes that are read of a library or of an architecture file: one more than
/// it may have.
pub const READ_LIMIT: usize = LARGEST + 1;

/// How many bytes are asked for at once.
const PIECE: usize = 16384;

/// Why a file couldn't be read.
#[derive(Clone, Copy)]
pub enum ReadError {
    Memory,
    Failed,
}

impl From<AllocError> for ReadError {
    ghost use Rattle.archex_app.specs.declared.reading.ReadError.TheVariants.{Memory};

    ghost from_gives = { λ _ e. e ≡ Memory };

    fn from(_error: AllocError) -> ReadError {
        ReadError::Memory
    }
}

impl From<Failed> for ReadError {
    ghost use Rattle.archex_app.specs.declared.reading.ReadError.TheVariants.{Failed};

    ghost from_gives = { λ _ e. e ≡ Failed };

    fn from(_error: Failed) -> ReadError {
        ReadError::Failed
    }
}

// Reads one more piece of a file, and answers how many bytes came: 0 at the end.
fn read_piece<F: Shelf>(shelf: &mut F, name: &str, bytes: &mut Vec<u8>) -> Result<usize, ReadError>
    requires { length bytes.old.items < READ_LIMIT }
    ensures front { IsFront (F.told shelf.old name.now) bytes.old.items
        → OnOk result (IsFront (F.told shelf.old name.now) bytes.new.items) }
    ensures end { IfOk result (λ n. n ≡ 0 → IsWhole (F.told shelf.old name.now) bytes.new.items) }
    ensures count { IfOk result (λ n. length bytes.new.items ≡ length bytes.old.items + n) }
    ensures within { OnOk result (length bytes.new.items ≤ READ_LIMIT) }
    ensures failed { IsErrOf result ReadError.Failed
        → Rose (F.read_faults shelf.old name.now) (F.read_faults shelf.new name.now) }

    ensures told_stays { (other : List ℕ) → F.told shelf.new other ≡ F.told shelf.old other }
    ensures reads_never_fall { (other : List ℕ) → F.read_faults shelf.old other ≤ F.read_faults shelf.new other }
    ensures reads_stay { OnOk result (Stay (F.read_faults shelf.old) (F.read_faults shelf.new)) }
    ensures reads_stay_for_memory { IsErrOf result ReadError.Memory
        → Stay (F.read_faults shelf.old) (F.read_faults shelf.new) }
    ensures reads_alone { ChangesOnly (name.now ∷ []) (F.read_faults shelf.old) (F.read_faults shelf.new) }
    ensures writes_stay { Stay (F.write_faults shelf.old) (F.write_faults shelf.new) }
{
    let mut piece = [0; PIECE];
    let room = PIECE.min(READ_LIMIT - bytes.len());
    let into = &mut piece[..room];
    let count = shelf.read_at(name, bytes.len() as u64, into)?;
    bytes.extend_from_slice(&into[..count])?;
    Ok(count)
}

/// The first bytes of a file, up to the limit.
pub fn read_file<F: Shelf>(alloc: Global, shelf: &mut F, name: &str) -> Result<Vec<u8>, ReadError>
    ensures bytes { IfOk result (λ v. IfSome (F.told shelf.old name.now) (λ all. v.items ≡ take READ_LIMIT all)) }
    ensures failed { IsErrOf result ReadError.Failed
        → Rose (F.read_faults shelf.old name.now) (F.read_faults shelf.new name.now) }

    ensures told_stays { (other : List ℕ) → F.told shelf.new other ≡ F.told shelf.old other }
    ensures reads_never_fall { (other : List ℕ) → F.read_faults shelf.old other ≤ F.read_faults shelf.new other }
    ensures reads_stay { OnOk result (Stay (F.read_faults shelf.old) (F.read_faults shelf.new)) }
    ensures reads_stay_for_memory { IsErrOf result ReadError.Memory
        → Stay (F.read_faults shelf.old) (F.read_faults shelf.new) }
    ensures reads_alone { ChangesOnly (name.now ∷ []) (F.read_faults shelf.old) (F.read_faults shelf.new) }
    ensures writes_stay { Stay (F.write_faults shelf.old) (F.write_faults shelf.new) }
{
    let mut bytes = Vec::new(alloc);
    while bytes.len() < READ_LIMIT {
        if read_piece(shelf, name, &mut bytes)? == 0 {
            return Ok(bytes);
        }
    }
    Ok(bytes)
}
