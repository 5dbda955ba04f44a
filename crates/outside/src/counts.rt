// The two counts of faults of one name.
ghost use Rattle.std.specs.Prelude.{◌≡◌};
ghost use Rattle.outside.specs.Counts.{after_failed_read, after_failed_write};

/// How many reads and writes failed. Each count stops at 2^64 - 1.
#[derive(Clone, Copy)]
pub struct Counts {
    /// How many reads failed, 0 to 2^64 - 1.
    pub reads: u64,
    /// How many writes failed, 0 to 2^64 - 1.
    pub writes: u64,
}

impl Counts {
    pub fn new() -> Counts
        ensures { result ≡ record { reads = 0; writes = 0 } }
    {
        Counts {
            reads: 0,
            writes: 0,
        }
    }

    pub fn raise_reads(&mut self)
        ensures { self.new ≡ after_failed_read self.old }
    {
        self.reads = self.reads.saturating_add(1);
    }

    pub fn raise_writes(&mut self)
        ensures { self.new ≡ after_failed_write self.old }
    {
        self.writes = self.writes.saturating_add(1);
    }
}
