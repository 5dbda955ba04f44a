// A file that a shelf in memory keeps.
ghost use Rattle.std.specs.Prelude.{◌≡◌, true, [], length, IfOk};
ghost use Rattle.std.specs.Str.{bytes_eq};
ghost use Rattle.outside.specs.Counts.{after_failed_read, after_failed_write};
ghost use Rattle.outside.specs.Inner.Kept.{has_room, with_bytes, with_counts, with_piece, new_file};

use crate::counts::Counts;
use crate::faults::Memory;
use std::alloc::Global;
use std::marker::Model;

/// A file with its name, its bytes, the bytes that it has room for, and its own counts of faults.
#[derive(Drop)]
pub struct MemFile {
    name: String,
    bytes: Vec<u8>,
    room: usize,
    counts: Counts,
}

impl Model for MemFile {
    ghost use Rattle.std.specs.Prelude.{ℕ, ◌≤◌, List, string_bytes, vec_len, vec_capacity};
    ghost use Rattle.outside.specs.Inner.Kept.{KeptFile};

    ghost Value = { List ℕ × KeptFile };

    ghost view = { λ f. (string_bytes f.name, record { bytes = f.bytes.items; room = f.room; counts = f.counts }) };

    ghost invariant = { λ f. (vec_len f.bytes ≤ f.room) × (f.room ≤ vec_capacity f.bytes) };
}

impl MemFile {
    /// A file with room for `room` bytes, or for its own length where that is more.
    pub fn new(
        alloc: Global,
        name: &str,
        bytes: &[u8],
        room: usize,
        counts: Counts,
    ) -> Result<MemFile, Memory>
        ensures { IfOk result (λ f. f ≡ (name.now, new_file room counts bytes.now)) }
    {
        let name = String::from_str(alloc, name)?;
        let room = room.max(bytes.len());
        let mut kept = Vec::with_capacity(alloc, room)?;
        kept.extend_from_slice(bytes)?;
        Ok(MemFile {
            name,
            bytes: kept,
            room,
            counts,
        })
    }

    pub fn is_of(&self, name: &str) -> bool
        ensures { result ≡ bytes_eq self.now.0 name.now }
    {
        self.name.as_str() == name
    }

    pub fn bytes(&self) -> &[u8]
        ensures { result.now ≡ self.now.1.bytes }
    {
        self.bytes.as_slice()
    }

    pub fn clear(&mut self)
        ensures { self.new ≡ (self.old.0, with_bytes [] self.old.1) }
    {
        self.bytes.clear();
    }

    pub fn has_room(&self, piece: &[u8]) -> bool
        ensures { result ≡ has_room self.now.1 piece.now }
    {
        piece.len() <= self.room - self.bytes.len()
    }

    /// Adds a piece at the end, in the room that was made for the file: so it takes no memory and
    /// can't fail.
    pub fn append(&mut self, piece: &[u8])
        requires { has_room self.old.1 piece.now ≡ true }
        ensures { self.new ≡ (self.old.0, with_piece piece.now self.old.1) }
    {
        let _ = self.bytes.extend_from_slice(piece);
    }

    pub fn raise_reads(&mut self)
        ensures { self.new ≡ (self.old.0, with_counts after_failed_read self.old.1) }
    {
        self.counts.raise_reads();
    }

    pub fn raise_writes(&mut self)
        ensures { self.new ≡ (self.old.0, with_counts after_failed_write self.old.1) }
    {
        self.counts.raise_writes();
    }
}
