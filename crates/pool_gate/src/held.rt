// What may lie behind a gate.
ghost use Rattle.std.specs.Prelude.{◌≡◌, ℕ, ◌<◌};

/// Every count is below this, 2^62, so that the word that has twice of it and one more fits.
pub const COUNTS: u64 = 4611686018427387904;

/// A value that may lie behind a gate. It has two meanings: what it is about, and its count. Its
/// one function reads the count, so a gate can neither make, copy nor change such a value.
pub trait Held: Drop {
    /// What a value can be about.
    type About;

    /// What the value is about, which no call of it changes.
    ghost about: { Self → Self.About };

    /// Its count, which a turn may raise by one.
    ghost count: { Self → ℕ };

    /// Reads the count.
    fn count(&self) -> u64
        ensures exact { result ≡ count self.now }
        ensures small { result < COUNTS };
}
