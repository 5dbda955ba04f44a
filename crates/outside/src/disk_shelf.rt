// Real files.
ghost use Rattle.std.specs.Prelude.{◌≡◌, ◌≢◌, ℕ, ◌<◌, ◌≤◌, List, [], ◌∷◌, length};
ghost use Rattle.std.specs.Prelude.{map, take, string_bytes, IfSome, IfOk};
ghost use Rattle.std.specs.Prelude.{OnOk, OnErr, MatchResult};
ghost use Rattle.outside.specs.Faults.{Rose, NeverFall, Stay, ChangesOnly};
ghost use Rattle.outside.specs.Told.{Finds, Appends, KeptOrEmpty, untold};
ghost use Rattle.outside.specs.Counts.{no_faults, counts_after, after_failed_read, after_failed_write, reads_of};
ghost use Rattle.outside.specs.Counts.{writes_of};

use crate::fault_counts::FaultCounts;
use crate::faults::{Failed, Memory};
use crate::shelf::{LAST_PLACE, Shelf};
use std::alloc::Global;
use std::fs::OpenOptions;
use std::io::{Read, Seek, SeekFrom, Write};
use std::marker::Model;
use std::rt::Files;
use std::{fs, io};

/// Real files, by their paths. Nothing is told of their bytes. Each call opens its file anew, and
/// each that fails raises a count of its name.
#[derive(Drop)]
pub struct DiskShelf<'a, R> {
    rt: &'a R,
    counts: FaultCounts,
}

impl<'a, R> Model for DiskShelf<'a, R> {
    ghost use Rattle.outside.specs.Counts.{FaultCounts};

    ghost Value = { FaultCounts };

    ghost view = { λ s. s.counts };
}

// Reads once, from a place on.
fn read_from<R: Files>(rt: &R, name: &str, place: u64, into: &mut [u8]) -> io::Result<usize>
    ensures { IfOk result (λ n. n ≤ length into.new) }
{
    let mut file = fs::open(rt, name)?;
    file.seek(SeekFrom::Start(place))?;
    file.read(into)
}

// Leaves an empty file.
fn make_empty<R: Files>(rt: &R, name: &str) -> io::Result<()> {
    let _file = fs::create(rt, name)?;
    Ok(())
}

// Writes once, at the end.
fn write_to<R: Files>(rt: &R, name: &str, piece: &[u8]) -> io::Result<usize>
    ensures { IfOk result (λ n. n ≤ length piece.now) }
{
    let mut options = OpenOptions::new();
    options.append(true).create(true);
    let mut file = options.open(rt, name)?;
    file.write(piece)
}

impl<'a, R: Files> DiskShelf<'a, R> {
    /// A shelf over the real files, with two counts of faults for each of `names`, and two for all
    /// other names.
    pub fn new(rt: &'a R, alloc: Global, names: &[String]) -> Result<DiskShelf<'a, R>, Memory>
        ensures { IfOk result (λ s. s ≡ no_faults (map string_bytes names.now)) }
    {
        let mut counts = FaultCounts::new(alloc);
        for name in names {
            counts.add(alloc, name.as_str())?;
        }
        Ok(DiskShelf { rt, counts })
    }
}

impl<R: Files> Shelf for DiskShelf<'_, R> {
    ghost told = { λ s name. untold };

    ghost read_faults = { reads_of };

    ghost write_faults = { writes_of };

    fn read_at(&mut self, name: &str, place: u64, into: &mut [u8]) -> Result<usize, Failed>
        requires { place ≤ LAST_PLACE }
        ensures within { IfOk result (λ n. n ≤ length into.new) }
        ensures found { IfOk result (Finds untold place into.new) }
        ensures failed { OnErr result (Rose (reads_of self.old name.now) (reads_of self.new name.now)) }
        ensures told_stays { (other : List ℕ) → untold ≡ untold }
        ensures reads_never_fall { NeverFall (reads_of self.old) (reads_of self.new) }
        ensures reads_stay { OnOk result (Stay (reads_of self.old) (reads_of self.new)) }
        ensures reads_alone { ChangesOnly (name.now ∷ []) (reads_of self.old) (reads_of self.new) }
        ensures writes_stay { Stay (writes_of self.old) (writes_of self.new) }

        // A success leaves all counts; a failure raises this one alone.
        ensures ok { OnOk result (self.new ≡ self.old) }
        ensures err { OnErr result (self.new ≡ counts_after after_failed_read self.old name.now) }
    {
        match read_from(self.rt, name, place, into) {
            Ok(count) => Ok(count),
            Err(_) => {
                self.counts.raise_reads(name);
                Err(Failed)
            }
        }
    }

    fn fresh(&mut self, name: &str) -> Result<(), Failed>
        ensures empty { OnOk result (IfSome untold (λ bytes. bytes ≡ [])) }
        ensures left { OnErr result (KeptOrEmpty untold untold) }
        ensures failed { OnErr result (Rose (writes_of self.old name.now) (writes_of self.new name.now)) }
        ensures told_stays { (other : List ℕ) → other ≢ name.now → untold ≡ untold }
        ensures reads_stay { Stay (reads_of self.old) (reads_of self.new) }
        ensures writes_never_fall { NeverFall (writes_of self.old) (writes_of self.new) }
        ensures writes_stay { OnOk result (Stay (writes_of self.old) (writes_of self.new)) }
        ensures writes_alone { ChangesOnly (name.now ∷ []) (writes_of self.old) (writes_of self.new) }

        // A success leaves all counts; a failure raises this one alone.
        ensures ok { OnOk result (self.new ≡ self.old) }
        ensures err { OnErr result (self.new ≡ counts_after after_failed_write self.old name.now) }
    {
        match make_empty(self.rt, name) {
            Ok(()) => Ok(()),
            Err(_) => {
                self.counts.raise_writes(name);
                Err(Failed)
            }
        }
    }

    fn append(&mut self, name: &str, piece: &[u8]) -> Result<usize, Failed>
        requires { 0 < length piece.now }
        ensures some { IfOk result (λ n. 0 < n) }
        ensures within { IfOk result (λ n. n ≤ length piece.now) }
        ensures added { MatchResult result
            (λ n. Appends untold untold (take n piece.now))
            (λ _. Appends untold untold []) }
        ensures failed { OnErr result (Rose (writes_of self.old name.now) (writes_of self.new name.now)) }
        ensures told_stays { (other : List ℕ) → other ≢ name.now → untold ≡ untold }
        ensures reads_stay { Stay (reads_of self.old) (reads_of self.new) }
        ensures writes_never_fall { NeverFall (writes_of self.old) (writes_of self.new) }
        ensures writes_stay { OnOk result (Stay (writes_of self.old) (writes_of self.new)) }
        ensures writes_alone { ChangesOnly (name.now ∷ []) (writes_of self.old) (writes_of self.new) }

        // A success leaves all counts; a failure raises this one alone.
        ensures ok { OnOk result (self.new ≡ self.old) }
        ensures err { OnErr result (self.new ≡ counts_after after_failed_write self.old name.now) }
    {
        match write_to(self.rt, name, piece) {
            Ok(count) if 0 < count => Ok(count),
            _ => {
                self.counts.raise_writes(name);
                Err(Failed)
            }
        }
    }
}
