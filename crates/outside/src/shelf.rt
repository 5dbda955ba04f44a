// Shelves: files by name.
ghost use Rattle.std.specs.Prelude.{◌≡◌, ◌≢◌, ℕ, ◌<◌, ◌≤◌, Option, List, [], ◌∷◌, length};
ghost use Rattle.std.specs.Prelude.{take, IfSome, IfOk, OnOk, OnErr};
ghost use Rattle.std.specs.Prelude.{MatchResult};
ghost use Rattle.outside.specs.Faults.{Rose, Stay, ChangesOnly};
ghost use Rattle.outside.specs.Told.{Finds, Appends, KeptOrEmpty};

use crate::faults::Failed;

/// The last place from which a shelf is read: the number of bytes of the longest log that is read,
/// and one.
pub const LAST_PLACE: u64 = 4294967297;

/// Files by name, read from any place and written from the start.
pub trait Shelf {
    /// The bytes of each file, where they are told.
    ghost told: { Self → List ℕ → Option (List ℕ) };

    /// How many reads of each name failed, up to 2^64 - 1.
    ghost read_faults: { Self → List ℕ → ℕ };

    /// How many writes of each name failed, up to 2^64 - 1.
    ghost write_faults: { Self → List ℕ → ℕ };

    /// Reads bytes from `place` on, and answers how many. With a non-empty `into`, 0 means the end
    /// of the file. A name without a file is a fault.
    fn read_at(&mut self, name: &str, place: u64, into: &mut [u8]) -> Result<usize, Failed>
        requires { place ≤ LAST_PLACE }
        ensures within { IfOk result (λ n. n ≤ length into.new) }
        ensures found { IfOk result (Finds (told self.old name.now) place into.new) }
        ensures failed { OnErr result (Rose (read_faults self.old name.now) (read_faults self.new name.now)) }

        ensures told_stays { (other : List ℕ) → told self.new other ≡ told self.old other }
        ensures reads_never_fall { (other : List ℕ) → read_faults self.old other ≤ read_faults self.new other }
        ensures reads_stay { OnOk result (Stay (read_faults self.old) (read_faults self.new)) }
        ensures reads_alone { ChangesOnly (name.now ∷ []) (read_faults self.old) (read_faults self.new) }
        ensures writes_stay { Stay (write_faults self.old) (write_faults self.new) };

    /// Leaves an empty file under the name, whatever was there. A failed call leaves what was there,
    /// or an empty file.
    fn fresh(&mut self, name: &str) -> Result<(), Failed>
        ensures empty { OnOk result (IfSome (told self.new name.now) (λ bytes. bytes ≡ [])) }
        ensures left { OnErr result (KeptOrEmpty (told self.old name.now) (told self.new name.now)) }
        ensures failed { OnErr result (Rose (write_faults self.old name.now) (write_faults self.new name.now)) }

        ensures told_stays { (other : List ℕ) → other ≢ name.now → told self.new other ≡ told self.old other }
        ensures reads_stay { Stay (read_faults self.old) (read_faults self.new) }
        ensures writes_never_fall { (other : List ℕ) → write_faults self.old other ≤ write_faults self.new other }
        ensures writes_stay { OnOk result (Stay (write_faults self.old) (write_faults self.new)) }
        ensures writes_alone { ChangesOnly (name.now ∷ []) (write_faults self.old) (write_faults self.new) };

    /// Adds the first bytes of a piece at the end of the file, and answers how many, at least one.
    /// A failed call has added nothing.
    fn append(&mut self, name: &str, piece: &[u8]) -> Result<usize, Failed>
        requires { 0 < length piece.now }
        ensures some { IfOk result (λ n. 0 < n) }
        ensures within { IfOk result (λ n. n ≤ length piece.now) }
        ensures added { MatchResult result
            (λ n. Appends (told self.old name.now) (told self.new name.now) (take n piece.now))
            (λ _. Appends (told self.old name.now) (told self.new name.now) []) }
        ensures failed { OnErr result (Rose (write_faults self.old name.now) (write_faults self.new name.now)) }

        ensures told_stays { (other : List ℕ) → other ≢ name.now → told self.new other ≡ told self.old other }
        ensures reads_stay { Stay (read_faults self.old) (read_faults self.new) }
        ensures writes_never_fall { (other : List ℕ) → write_faults self.old other ≤ write_faults self.new other }
        ensures writes_stay { OnOk result (Stay (write_faults self.old) (write_faults self.new)) }
        ensures writes_alone { ChangesOnly (name.now ∷ []) (write_faults self.old) (write_faults self.new) };
}
