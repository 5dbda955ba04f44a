// A shelf in memory, for tests.
ghost use Rattle.std.specs.Prelude.{◌≡◌, ℕ, ◌<◌, ◌≤◌, List, [], ◌∷◌, length, take, position, is_ok, None, Some, IfSome};
ghost use Rattle.std.specs.Prelude.{IfOk, OnOk, OnErr, MatchResult, option_map};
ghost use Rattle.std.specs.Str.{bytes_eq};
ghost use Rattle.outside.specs.Faults.{Rose, NeverFall, Stay, ChangesOnly};
ghost use Rattle.outside.specs.Told.{Finds, Appends, KeptOrEmpty, OthersStay};
ghost use Rattle.outside.specs.Inner.Kept.{new_shelf, told_of, read_faults_of, write_faults_of};
ghost use Rattle.outside.specs.Inner.Kept.{call_passes, append_passes};
ghost use Rattle.outside.specs.Inner.Kept.{after_put, after_read, after_fresh, after_append};

use crate::copies::copy_from;
use crate::counts::Counts;
use crate::failing::FailingCalls;
use crate::faults::{Failed, Memory};
use crate::mem_file::MemFile;
use crate::shelf::{LAST_PLACE, Shelf};
use std::alloc::Global;
use std::marker::Model;

/// A shelf of files in memory, for tests. A call of the trait's three methods fails where its
/// number, counted from 0 over all three, was named, on a name that wasn't put, and where an
/// appended piece doesn't fit in the room that the file has left; else it succeeds, and an append
/// takes its whole piece. None of the three takes memory.
#[derive(Drop)]
pub struct MemShelf {
    files: Vec<MemFile>,
    others: Counts,
    failing: FailingCalls,
    room: usize,
    alloc: Global,
}

impl Model for MemShelf {
    ghost use Rattle.outside.specs.Inner.Kept.{Kept};

    ghost Value = { Kept };

    ghost view = { λ s. record { files = s.files.items; others = s.others; failing = s.failing; room = s.room } };
}

// The place of a name's file.
fn place_of(files: &[MemFile], name: &str) -> Option<usize>
    ensures { result ≡ position (λ file. bytes_eq file.0 name.now) files.now }
{
    files.iter().position(|file| file.is_of(name))
}

impl MemShelf {
    /// A shelf without files, whose calls with the numbers `failing` fail, and whose files have
    /// room for `room` bytes.
    pub fn new(alloc: Global, room: usize, failing: &[u64]) -> Result<MemShelf, Memory>
        ensures { IfOk result (λ s. s ≡ new_shelf room failing.now) }
    {
        let failing = FailingCalls::new(alloc, failing)?;
        Ok(MemShelf {
            files: Vec::new(alloc),
            others: Counts::new(),
            failing,
            room,
            alloc,
        })
    }

    /// Adds a file under a name that wasn't put before, with room for the shelf's bytes, or for
    /// its own length where that is more. Its counts start at those that all other names share, so
    /// that none falls.
    pub fn put(&mut self, name: &str, bytes: &[u8]) -> Result<(), Memory>
        requires { told_of self.old name.now ≡ None }
        ensures put { OnOk result (self.new ≡ after_put self.old name.now bytes.now) }
        ensures told { OnOk result (told_of self.new name.now ≡ Some bytes.now) }
        ensures others_stay { OthersStay name.now (told_of self.old) (told_of self.new) }
        ensures reads_stay { (other : List ℕ) → read_faults_of self.new other ≡ read_faults_of self.old other }
        ensures writes_stay { (other : List ℕ) → write_faults_of self.new other ≡ write_faults_of self.old other }
        ensures err { OnErr result (self.new ≡ self.old) }
    {
        let file = MemFile::new(self.alloc, name, bytes, self.room, self.others)?;
        self.files.push(file)?;
        Ok(())
    }

    /// The bytes of a file; none where the name wasn't put.
    pub fn file(&self, name: &str) -> Option<&[u8]>
        ensures { option_map (λ bytes. bytes.now) result ≡ told_of self.now name.now }
    {
        let place = place_of(&self.files, name)?;
        Some(self.files[place].bytes())
    }

    fn try_read(&mut self, name: &str, place: u64, into: &mut [u8]) -> Result<usize, Failed>
        ensures found { IfOk result (Finds (told_of self.old name.now) place into.new) }
        ensures within { IfOk result (λ n. n ≤ length into.new) }
        ensures answers { is_ok result ≡ call_passes self.old name.now }
        ensures after { self.new ≡ after_read self.old name.now }
    {
        let passes = self.failing.pass();
        match place_of(&self.files, name) {
            Some(at) if passes => Ok(copy_from(self.files[at].bytes(), place, into)),
            Some(at) => {
                self.files[at].raise_reads();
                Err(Failed)
            }
            None => {
                self.others.raise_reads();
                Err(Failed)
            }
        }
    }

    fn try_fresh(&mut self, name: &str) -> Result<(), Failed>
        ensures answers { is_ok result ≡ call_passes self.old name.now }
        ensures after { self.new ≡ after_fresh self.old name.now }
    {
        let passes = self.failing.pass();
        match place_of(&self.files, name) {
            Some(at) if passes => {
                self.files[at].clear();
                Ok(())
            }
            Some(at) => {
                self.files[at].raise_writes();
                Err(Failed)
            }
            None => {
                self.others.raise_writes();
                Err(Failed)
            }
        }
    }

    fn try_append(&mut self, name: &str, piece: &[u8]) -> Result<usize, Failed>
        ensures whole { IfOk result (λ n. n ≡ length piece.now) }
        ensures answers { is_ok result ≡ append_passes self.old name.now piece.now }
        ensures after { self.new ≡ after_append self.old name.now piece.now }
    {
        let passes = self.failing.pass();
        match place_of(&self.files, name) {
            Some(at) if passes && self.files[at].has_room(piece) => {
                self.files[at].append(piece);
                Ok(piece.len())
            }
            Some(at) => {
                self.files[at].raise_writes();
                Err(Failed)
            }
            None => {
                self.others.raise_writes();
                Err(Failed)
            }
        }
    }
}

impl Shelf for MemShelf {
    ghost told = { told_of };

    ghost read_faults = { read_faults_of };

    ghost write_faults = { write_faults_of };

    fn read_at(&mut self, name: &str, place: u64, into: &mut [u8]) -> Result<usize, Failed>
        requires { place ≤ LAST_PLACE }
        ensures within { IfOk result (λ n. n ≤ length into.new) }
        ensures found { IfOk result (Finds (told_of self.old name.now) place into.new) }
        ensures failed { OnErr result (Rose (read_faults_of self.old name.now) (read_faults_of self.new name.now)) }

        ensures told_stays { (other : List ℕ) → told_of self.new other ≡ told_of self.old other }
        ensures reads_never_fall { NeverFall (read_faults_of self.old) (read_faults_of self.new) }
        ensures reads_stay { OnOk result (Stay (read_faults_of self.old) (read_faults_of self.new)) }
        ensures reads_alone { ChangesOnly (name.now ∷ []) (read_faults_of self.old) (read_faults_of self.new) }
        ensures writes_stay { Stay (write_faults_of self.old) (write_faults_of self.new) }

        // A read fails for one of two causes.
        ensures answers { is_ok result ≡ call_passes self.old name.now }
        ensures after { self.new ≡ after_read self.old name.now }
    {
        self.try_read(name, place, into)
    }

    fn fresh(&mut self, name: &str) -> Result<(), Failed>
        ensures empty { OnOk result (IfSome (told_of self.new name.now) (λ bytes. bytes ≡ [])) }
        ensures left { OnErr result (KeptOrEmpty (told_of self.old name.now) (told_of self.new name.now)) }
        ensures failed { OnErr result (Rose (write_faults_of self.old name.now) (write_faults_of self.new name.now)) }

        ensures told_stays { OthersStay name.now (told_of self.old) (told_of self.new) }
        ensures reads_stay { Stay (read_faults_of self.old) (read_faults_of self.new) }
        ensures writes_never_fall { NeverFall (write_faults_of self.old) (write_faults_of self.new) }
        ensures writes_stay { OnOk result (Stay (write_faults_of self.old) (write_faults_of self.new)) }
        ensures writes_alone { ChangesOnly (name.now ∷ []) (write_faults_of self.old) (write_faults_of self.new) }

        // It fails for one of two causes.
        ensures answers { is_ok result ≡ call_passes self.old name.now }
        ensures after { self.new ≡ after_fresh self.old name.now }
    {
        self.try_fresh(name)
    }

    fn append(&mut self, name: &str, piece: &[u8]) -> Result<usize, Failed>
        requires { 0 < length piece.now }
        ensures some { IfOk result (λ n. 0 < n) }
        ensures within { IfOk result (λ n. n ≤ length piece.now) }
        ensures added { MatchResult result
            (λ n. Appends (told_of self.old name.now) (told_of self.new name.now) (take n piece.now))
            (λ _. Appends (told_of self.old name.now) (told_of self.new name.now) []) }
        ensures failed { OnErr result (Rose (write_faults_of self.old name.now) (write_faults_of self.new name.now)) }

        ensures told_stays { OthersStay name.now (told_of self.old) (told_of self.new) }
        ensures reads_stay { Stay (read_faults_of self.old) (read_faults_of self.new) }
        ensures writes_never_fall { NeverFall (write_faults_of self.old) (write_faults_of self.new) }
        ensures writes_stay { OnOk result (Stay (write_faults_of self.old) (write_faults_of self.new)) }
        ensures writes_alone { ChangesOnly (name.now ∷ []) (write_faults_of self.old) (write_faults_of self.new) }

        // An append takes its whole piece, or fails for one of three causes.
        ensures whole { IfOk result (λ n. n ≡ length piece.now) }
        ensures answers { is_ok result ≡ append_passes self.old name.now piece.now }
        ensures after { self.new ≡ after_append self.old name.now piece.now }
    {
        self.try_append(name, piece)
    }
}
