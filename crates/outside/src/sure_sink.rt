// A sink whose writes never fail.
ghost use Rattle.std.specs.Prelude.{◌≡◌, ℕ, ◌<◌, ◌≤◌, [], length, take, IfOk, OnOk, OnErr, MatchResult};
ghost use Rattle.outside.specs.Faults.{Rose};
ghost use Rattle.outside.specs.Told.{Appends, untold};

use crate::faults::Failed;
use crate::sink::Sink;

/// A sink whose writes never fail, so that its count is always 0. It takes each piece whole, keeps
/// nothing, and nothing is told of its bytes.
#[derive(Drop)]
pub struct SureSink;

impl Sink for SureSink {
    ghost told = { λ s. untold };

    ghost faults = { λ s. 0 };

    fn write(&mut self, piece: &[u8]) -> Result<usize, Failed>
        requires { 0 < length piece.now }
        ensures some { IfOk result (λ n. 0 < n) }
        ensures within { IfOk result (λ n. n ≤ length piece.now) }
        ensures added { MatchResult result
            (λ n. Appends untold untold (take n piece.now))
            (λ _. Appends untold untold []) }
        ensures failed { OnErr result (Rose 0 0) }
        ensures never_falls { 0 ≤ 0 }
        ensures stays { OnOk result (◌≡◌ {A = ℕ} 0 0) }

        // The whole piece is taken.
        ensures whole { IfOk result (λ n. n ≡ length piece.now) }
    {
        Ok(piece.len())
    }
}
