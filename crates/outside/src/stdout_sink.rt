// The standard output.
ghost use Rattle.std.specs.Prelude.{◌≡◌, ◌<◌, ◌≤◌, [], length, take, IfOk, OnOk, OnErr, MatchResult};
ghost use Rattle.outside.specs.Faults.{Rose};
ghost use Rattle.outside.specs.Told.{Appends, untold};
ghost use Rattle.outside.specs.Counts.{one_more};

use crate::faults::Failed;
use crate::sink::Sink;
use std::marker::Model;

/// The standard output. Nothing is told of its bytes. Each write goes straight to the system, and
/// each that fails, or takes no byte, raises the count.
#[derive(Drop)]
pub struct StdoutSink<'a, R> {
    rt: &'a R,
    faults: u64,
}

impl<'a, R> Model for StdoutSink<'a, R> {
    ghost use Rattle.std.specs.Prelude.{ℕ};

    ghost Value = { ℕ };

    ghost view = { λ s. s.faults };
}

impl<'a, R: Print> StdoutSink<'a, R> {
    /// The standard output, with no fault so far.
    pub fn new(rt: &'a R) -> StdoutSink<'a, R>
        ensures { result ≡ 0 }
    {
        StdoutSink { rt, faults: 0 }
    }
}

impl<R: Print> Sink for StdoutSink<'_, R> {
    ghost told = { λ s. untold };

    ghost faults = { λ s. s };

    fn write(&mut self, piece: &[u8]) -> Result<usize, Failed>
        requires { 0 < length piece.now }
        ensures some { IfOk result (λ n. 0 < n) }
        ensures within { IfOk result (λ n. n ≤ length piece.now) }
        ensures added { MatchResult result
            (λ n. Appends untold untold (take n piece.now))
            (λ _. Appends untold untold []) }
        ensures failed { OnErr result (Rose self.old self.new) }
        ensures never_falls { self.old ≤ self.new }
        ensures stays { OnOk result (self.new ≡ self.old) }

        // A failure raises the count.
        ensures err { OnErr result (self.new ≡ one_more self.old) }
    {
        match self.rt.write_some(piece) {
            Ok(count) if 0 < count => Ok(count),
            _ => {
                self.faults = self.faults.saturating_add(1);
                Err(Failed)
            }
        }
    }
}
