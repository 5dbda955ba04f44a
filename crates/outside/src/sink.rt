// Sinks: where a text is printed.
ghost use Rattle.std.specs.Prelude.{◌≡◌, ℕ, ◌<◌, ◌≤◌, Option, List, [], length, take, IfOk, OnOk, OnErr, MatchResult};
ghost use Rattle.outside.specs.Faults.{Rose};
ghost use Rattle.outside.specs.Told.{Appends};

use crate::faults::Failed;

/// Takes bytes, one piece after another.
pub trait Sink {
    /// The bytes so far, where they are told.
    ghost told: { Self → Option (List ℕ) };

    /// How many writes failed, up to 2^64 - 1.
    ghost faults: { Self → ℕ };

    /// Adds the first bytes of a piece at the end, and answers how many, at least one. A failed
    /// call has added nothing.
    fn write(&mut self, piece: &[u8]) -> Result<usize, Failed>
        requires { 0 < length piece.now }
        ensures some { IfOk result (λ n. 0 < n) }
        ensures within { IfOk result (λ n. n ≤ length piece.now) }
        ensures added { MatchResult result
            (λ n. Appends (told self.old) (told self.new) (take n piece.now))
            (λ _. Appends (told self.old) (told self.new) []) }
        ensures failed { OnErr result (Rose (faults self.old) (faults self.new)) }

        ensures never_falls { faults self.old ≤ faults self.new }
        ensures stays { OnOk result (faults self.new ≡ faults self.old) };
}
