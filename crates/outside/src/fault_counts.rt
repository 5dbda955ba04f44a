// Counts of faults by name.
ghost use Rattle.std.specs.Prelude.{◌≡◌, ℕ, List, [], ◌∷◌, position, IfOk, OnOk, OnErr};
ghost use Rattle.std.specs.Str.{bytes_eq};
ghost use Rattle.outside.specs.Counts.{after_failed_read, after_failed_write, counts_after};
ghost use Rattle.outside.specs.Counts.{counts_with, reads_of};
ghost use Rattle.outside.specs.Counts.{writes_of};
ghost use Rattle.outside.specs.Faults.{Rose, NeverFall, Stay, ChangesOnly};

use crate::counts::Counts;
use crate::faults::Memory;
use std::alloc::Global;
use std::marker::Model;

// A name with counts of its own.
#[derive(Drop)]
struct Row {
    name: String,
    counts: Counts,
}

impl Model for Row {
    ghost use Rattle.std.specs.Prelude.{ℕ, List, string_bytes};
    ghost use Rattle.outside.specs.declared.counts.Counts.{Counts};

    ghost Value = { List ℕ × Counts };

    ghost view = { λ row. (string_bytes row.name, row.counts) };
}

impl Row {
    fn new(alloc: Global, name: &str, counts: Counts) -> Result<Row, Memory>
        ensures { IfOk result (λ row. row ≡ (name.now, counts)) }
    {
        let name = String::from_str(alloc, name)?;
        Ok(Row { name, counts })
    }

    fn is_of(&self, name: &str) -> bool
        ensures { result ≡ bytes_eq self.now.0 name.now }
    {
        self.name.as_str() == name
    }

    fn raise_reads(&mut self)
        ensures { self.new ≡ (self.old.0, after_failed_read self.old.1) }
    {
        self.counts.raise_reads();
    }

    fn raise_writes(&mut self)
        ensures { self.new ≡ (self.old.0, after_failed_write self.old.1) }
    {
        self.counts.raise_writes();
    }
}

/// Counts of faults: two for each name that was added, and two that all other names share.
#[derive(Drop)]
pub struct FaultCounts {
    rows: Vec<Row>,
    others: Counts,
}

impl Model for FaultCounts {
    ghost use Rattle.outside.specs.Counts.{FaultCounts};

    ghost Value = { FaultCounts };

    ghost view = { λ c. record { named = c.rows.items; others = c.others } };
}

impl FaultCounts {
    pub fn new(alloc: Global) -> FaultCounts
        ensures { result ≡ record { named = []; others = record { reads = 0; writes = 0 } } }
    {
        FaultCounts {
            rows: Vec::new(alloc),
            others: Counts::new(),
        }
    }

    /// Gives a name its own counts, which start at the shared ones: so no count falls.
    pub fn add(&mut self, alloc: Global, name: &str) -> Result<(), Memory>
        ensures ok { OnOk result (self.new ≡ counts_with self.old name.now) }
        ensures err { OnErr result (self.new ≡ self.old) }
    {
        let row = Row::new(alloc, name, self.others)?;
        self.rows.push(row)?;
        Ok(())
    }

    fn place_of(&self, name: &str) -> Option<usize>
        ensures { result ≡ position (λ row. bytes_eq row.0 name.now) self.now.named }
    {
        self.rows.iter().position(|row| row.is_of(name))
    }

    pub fn raise_reads(&mut self, name: &str)
        ensures after { self.new ≡ counts_after after_failed_read self.old name.now }
        ensures rose { Rose (reads_of self.old name.now) (reads_of self.new name.now) }
        ensures reads_never_fall { NeverFall (reads_of self.old) (reads_of self.new) }
        ensures reads_alone { ChangesOnly (name.now ∷ []) (reads_of self.old) (reads_of self.new) }
        ensures writes_stay { Stay (writes_of self.old) (writes_of self.new) }
    {
        match self.place_of(name) {
            Some(place) => self.rows[place].raise_reads(),
            None => self.others.raise_reads(),
        }
    }

    pub fn raise_writes(&mut self, name: &str)
        ensures after { self.new ≡ counts_after after_failed_write self.old name.now }
        ensures rose { Rose (writes_of self.old name.now) (writes_of self.new name.now) }
        ensures reads_stay { Stay (reads_of self.old) (reads_of self.new) }
        ensures writes_never_fall { NeverFall (writes_of self.old) (writes_of self.new) }
        ensures writes_alone { ChangesOnly (name.now ∷ []) (writes_of self.old) (writes_of self.new) }
    {
        match self.place_of(name) {
            Some(place) => self.rows[place].raise_writes(),
            None => self.others.raise_writes(),
        }
    }
}
