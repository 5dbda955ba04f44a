// Names of rows, traces, reasons, and what a node of the search knows.
ghost use Rattle.std.specs.Prelude.{◌≡◌};
ghost use Rattle.rows.specs.Reason.{IsReason};

use crate::cut::CutList;
use crate::problem::Problem;
use std::marker::Model;

/// The name of a row.
#[derive(Clone, Copy, Debug, PartialEq, Eq)]
pub enum RowRef {
    /// A base row, by number.
    Base(u32),
    /// A learned cut, by number.
    Cut(u32),
    /// The row that asks for a cost below the bound.
    Cost,
}

/// A row, and how often a reason takes it.
#[derive(Clone, Copy, Debug, PartialEq, Eq)]
pub struct Pair {
    /// The row.
    pub row: RowRef,
    /// Its multiplier, 1 to 10^12 in a reason.
    pub times: u64,
}

/// Rows one after another, each of which fixes the least variable that it forces.
#[derive(Drop)]
pub struct Trace {
    steps: Vec<RowRef>,
}

impl Model for Trace {
    ghost use Rattle.std.specs.Prelude.{List};
    ghost use Rattle.rows.specs.declared.known.RowRef.{RowRef};

    ghost Value = { List RowRef };

    ghost view = { λ a. a.steps.items };
}

impl Trace {
    /// The trace of these steps.
    pub fn new(steps: Vec<RowRef>) -> Trace
        ensures { result ≡ steps.items }
    {
        Trace { steps }
    }

    /// Its steps, in order.
    pub fn steps(&self) -> &[RowRef]
        ensures { result.now ≡ self.now }
    {
        self.steps.as_slice()
    }
}

/// Rows with multipliers, which are added up. Each value of the type has 1 to 64 pairs, each with a
/// multiplier of 1 to 10^12 (`IsReason`).
#[derive(Drop)]
pub struct Reason {
    pairs: Vec<Pair>,
}

impl Model for Reason {
    ghost use Rattle.std.specs.Prelude.{List};
    ghost use Rattle.rows.specs.declared.known.Pair.{Pair};

    ghost Value = { List Pair };

    ghost view = { λ a. a.pairs.items };

    ghost use Rattle.rows.specs.Reason.{IsReason};

    ghost invariant = { λ a. IsReason a.pairs.items };
}

impl Reason {
    /// The reason of these pairs.
    pub fn new(pairs: Vec<Pair>) -> Reason
        requires { IsReason pairs.items }
        ensures { result ≡ pairs.items }
    {
        Reason { pairs }
    }

    /// Its pairs, in order.
    pub fn pairs(&self) -> &[Pair]
        ensures pairs { result.now ≡ self.now }
        ensures reason { IsReason self.now }
    {
        self.pairs.as_slice()
    }
}

/// What a node of the search knows: the problem's base rows, the cuts numbered below `upto`, and,
/// where there is a bound, that the cost is below it, in cost units. There have to be at least
/// `upto` cuts over the problem's variables (`IsKnown`) for a combination to be the sum of its
/// rows.
#[derive(Clone, Copy)]
pub struct Known<'a> {
    /// The problem.
    pub problem: &'a Problem,
    /// The cuts, by number.
    pub cuts: &'a CutList,
    /// How many of them are known.
    pub upto: u32,
    /// The bound, or None where nothing is known of the cost.
    pub bound: Option<u64>,
}
