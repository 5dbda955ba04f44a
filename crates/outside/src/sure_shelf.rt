// A shelf whose calls never fail.
ghost use Rattle.std.specs.Prelude.{◌≡◌, ℕ, ◌<◌, ◌≤◌, List, [], ◌∷◌, length, take};
ghost use Rattle.std.specs.Prelude.{position, unwrap_or, false, None, Some};
ghost use Rattle.std.specs.Prelude.{Ok, IfSome, IfOk, OnOk, OnErr, MatchResult};
ghost use Rattle.std.specs.Str.{bytes_eq};
ghost use Rattle.outside.specs.Faults.{Rose, Stay, ChangesOnly};
ghost use Rattle.outside.specs.Told.{Finds, Appends, KeptOrEmpty, OthersStay};
ghost use Rattle.outside.specs.Sure.{was_put, sure_put, sure_told, written_to};

use crate::copies::copy_from;
use crate::faults::{Failed, Memory};
use crate::shelf::{LAST_PLACE, Shelf};
use std::alloc::Global;
use std::marker::Model;

// A file that was put: its bytes, until it is written to.
#[derive(Drop)]
struct SureFile {
    name: String,
    bytes: Option<Vec<u8>>,
}

impl Model for SureFile {
    ghost use Rattle.std.specs.Prelude.{ℕ, List, Option, option_map, string_bytes};

    ghost Value = { List ℕ × Option (List ℕ) };

    ghost view = { λ f. (string_bytes f.name, option_map (λ v. v.items) f.bytes) };
}

impl SureFile {
    fn new(alloc: Global, name: &str, bytes: &[u8]) -> Result<SureFile, Memory>
        ensures { IfOk result (λ f. f ≡ (name.now, Some bytes.now)) }
    {
        let name = String::from_str(alloc, name)?;
        let bytes = bytes.to_vec(alloc)?;
        Ok(SureFile {
            name,
            bytes: Some(bytes),
        })
    }

    fn is_of(&self, name: &str) -> bool
        ensures { result ≡ bytes_eq self.now.0 name.now }
    {
        self.name.as_str() == name
    }

    // A file that was written to reads as empty.
    fn bytes(&self) -> &[u8]
        ensures { result.now ≡ unwrap_or self.now.1 [] }
    {
        match &self.bytes {
            Some(bytes) => bytes.as_slice(),
            None => &[],
        }
    }

    fn forget(&mut self)
        ensures { self.new ≡ (self.old.0, None) }
    {
        self.bytes = None;
    }
}

/// A shelf whose calls never fail, so that its counts are always 0. It tells the files that were
/// put, until they are made fresh or appended to. All other names read as empty, and appended
/// bytes aren't kept.
#[derive(Drop)]
pub struct SureShelf {
    files: Vec<SureFile>,
    alloc: Global,
}

impl Model for SureShelf {
    ghost use Rattle.outside.specs.Sure.{SureFiles};

    ghost Value = { SureFiles };

    ghost view = { λ s. s.files.items };
}

// The place of a name's file.
fn place_of(files: &[SureFile], name: &str) -> Option<usize>
    ensures { result ≡ position (λ file. bytes_eq file.0 name.now) files.now }
{
    files.iter().position(|file| file.is_of(name))
}

impl SureShelf {
    /// A shelf without files.
    pub fn new(alloc: Global) -> SureShelf
        ensures { result ≡ [] }
    {
        SureShelf {
            files: Vec::new(alloc),
            alloc,
        }
    }

    /// Adds a file under a name that wasn't put before.
    pub fn put(&mut self, name: &str, bytes: &[u8]) -> Result<(), Memory>
        requires { was_put self.old name.now ≡ false }
        ensures put { OnOk result (self.new ≡ sure_put self.old name.now bytes.now) }
        ensures told { OnOk result (sure_told self.new name.now ≡ Some bytes.now) }
        ensures others_stay { OthersStay name.now (sure_told self.old) (sure_told self.new) }
        ensures err { OnErr result (self.new ≡ self.old) }
    {
        let file = SureFile::new(self.alloc, name, bytes)?;
        self.files.push(file)?;
        Ok(())
    }

    // What is read under a name.
    fn bytes_of(&self, name: &str) -> &[u8]
        ensures { result.now ≡ unwrap_or (sure_told self.now name.now) [] }
    {
        match place_of(&self.files, name) {
            Some(at) => self.files[at].bytes(),
            None => &[],
        }
    }

    // From now on nothing is told under a name.
    fn write_to(&mut self, name: &str)
        ensures after { self.new ≡ written_to self.old name.now }
        ensures untold { sure_told self.new name.now ≡ None }
        ensures others_stay { OthersStay name.now (sure_told self.old) (sure_told self.new) }
    {
        if let Some(at) = place_of(&self.files, name) {
            self.files[at].forget();
        }
    }
}

impl Shelf for SureShelf {
    ghost told = { sure_told };

    ghost read_faults = { λ s name. 0 };

    ghost write_faults = { λ s name. 0 };

    fn read_at(&mut self, name: &str, place: u64, into: &mut [u8]) -> Result<usize, Failed>
        requires { place ≤ LAST_PLACE }
        ensures within { IfOk result (λ n. n ≤ length into.new) }
        ensures found { IfOk result (Finds (sure_told self.old name.now) place into.new) }
        ensures failed { OnErr result (Rose 0 0) }
        ensures told_stays { (other : List ℕ) → sure_told self.new other ≡ sure_told self.old other }
        ensures reads_never_fall { (other : List ℕ) → 0 ≤ 0 }
        ensures reads_stay { OnOk result (Stay (λ _. 0) (λ _. 0)) }
        ensures reads_alone { ChangesOnly (name.now ∷ []) (λ _. 0) (λ _. 0) }
        ensures writes_stay { Stay (λ _. 0) (λ _. 0) }

        // A name that isn't told reads as empty, and a read changes nothing.
        ensures empty { sure_told self.old name.now ≡ None → result ≡ Ok 0 }
        ensures after { self.new ≡ self.old }
    {
        Ok(copy_from(self.bytes_of(name), place, into))
    }

    fn fresh(&mut self, name: &str) -> Result<(), Failed>
        ensures empty { OnOk result (IfSome (sure_told self.new name.now) (λ bytes. bytes ≡ [])) }
        ensures left { OnErr result (KeptOrEmpty (sure_told self.old name.now) (sure_told self.new name.now)) }
        ensures failed { OnErr result (Rose 0 0) }
        ensures told_stays { OthersStay name.now (sure_told self.old) (sure_told self.new) }
        ensures reads_stay { Stay (λ _. 0) (λ _. 0) }
        ensures writes_never_fall { (other : List ℕ) → 0 ≤ 0 }
        ensures writes_stay { OnOk result (Stay (λ _. 0) (λ _. 0)) }
        ensures writes_alone { ChangesOnly (name.now ∷ []) (λ _. 0) (λ _. 0) }

        // The name is told no longer.
        ensures after { self.new ≡ written_to self.old name.now }
    {
        self.write_to(name);
        Ok(())
    }

    fn append(&mut self, name: &str, piece: &[u8]) -> Result<usize, Failed>
        requires { 0 < length piece.now }
        ensures some { IfOk result (λ n. 0 < n) }
        ensures within { IfOk result (λ n. n ≤ length piece.now) }
        ensures added { MatchResult result
            (λ n. Appends (sure_told self.old name.now) (sure_told self.new name.now) (take n piece.now))
            (λ _. Appends (sure_told self.old name.now) (sure_told self.new name.now) []) }
        ensures failed { OnErr result (Rose 0 0) }
        ensures told_stays { OthersStay name.now (sure_told self.old) (sure_told self.new) }
        ensures reads_stay { Stay (λ _. 0) (λ _. 0) }
        ensures writes_never_fall { (other : List ℕ) → 0 ≤ 0 }
        ensures writes_stay { OnOk result (Stay (λ _. 0) (λ _. 0)) }
        ensures writes_alone { ChangesOnly (name.now ∷ []) (λ _. 0) (λ _. 0) }

        // The whole piece is taken and not kept, and the name is told no longer.
        ensures whole { IfOk result (λ n. n ≡ length piece.now) }
        ensures after { self.new ≡ written_to self.old name.now }
    {
        self.write_to(name);
        Ok(piece.len())
    }
}
