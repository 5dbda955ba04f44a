// Terms and rows.
ghost use Rattle.std.specs.Prelude.{◌≡◌};
ghost use Rattle.rows.specs.Row.{IsRow, row_parts};

use arch_model::{Memory, VarId};
use std::marker::Model;

/// A coefficient at a variable.
#[derive(Clone, Copy, Debug, PartialEq, Eq)]
pub struct Term {
    /// The variable, which is a member of the template.
    pub var: VarId,
    /// Its coefficient, never 0 in a row, and at most 10^16 in absolute value.
    pub coef: i128,
}

/// A row of the 0-1 program: the sum of its terms is at least its least. Each value of the type has
/// terms that ascend by variable, no coefficient 0, and numbers of at most 10^16 in absolute value
/// (`IsRow`).
#[derive(Drop)]
pub struct Row {
    terms: Vec<Term>,
    least: i128,
}

impl Model for Row {
    ghost use Rattle.rows.specs.Parts.{RowParts};
    ghost use Rattle.rows.specs.Row.{IsRow};

    ghost Value = { RowParts };

    ghost view = { λ a. record { terms = a.terms.items; least = a.least } };

    ghost invariant = { λ a. IsRow (record { terms = a.terms.items; least = a.least }) };
}

impl Row {
    /// The row of these terms and this least.
    pub fn new(terms: Vec<Term>, least: i128) -> Row
        requires { IsRow (row_parts terms.items least) }
        ensures { result ≡ row_parts terms.items least }
    {
        Row { terms, least }
    }

    /// Its terms, ascending by variable.
    pub fn terms(&self) -> &[Term]
        ensures terms { result.now ≡ self.now.terms }
        ensures row { IsRow self.now }
    {
        self.terms.as_slice()
    }

    /// What its sum must come to at least.
    pub fn least(&self) -> i128
        ensures least { result ≡ self.now.least }
        ensures row { IsRow self.now }
    {
        self.least
    }
}

impl Clone for Row {
    ghost is_clone = { λ a b. b ≡ a };

    fn clone(&self) -> Result<Row, Memory> {
        Ok(Row {
            terms: self.terms.clone()?,
            least: self.least,
        })
    }
}
