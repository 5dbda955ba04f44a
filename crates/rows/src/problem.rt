// Problems: a library and its base rows.
ghost use Rattle.std.specs.Prelude.{◌≡◌, IfOk};
ghost use Rattle.std.specs.List.{All};
ghost use Rattle.rows.specs.Parts.{ProblemParts};
ghost use Rattle.rows.specs.Row.{IsRow};
ghost use Rattle.rows.specs.Problem.{DecidePatterns, IsProblem, problem_parts};

use crate::row::Row;
use arch_model::{Library, Memory};
use std::marker::Model;

/// A library and its base rows. Each value of the type has rows in the form of a `Row`, with terms
/// that ascend, which decide the library's patterns: there are fewer than 2^32 of them over the
/// library's variables, and a vector meets all of them exactly where it is that of an architecture
/// that meets every pattern and has every required sink (`IsProblem`).
#[derive(Drop)]
pub struct Problem {
    library: Library,
    base: Vec<Row>,
}

impl Model for Problem {
    ghost use Rattle.rows.specs.Parts.{ProblemParts};
    ghost use Rattle.rows.specs.Problem.{IsProblem};

    ghost Value = { ProblemParts };

    ghost view = { λ a. record { library = a.library; base = a.base.items } };

    ghost invariant = { λ a. IsProblem (record { library = a.library; base = a.base.items }) };
}

// Tells of each row of a slice what a `Row` keeps.
fn are_rows(rows: &[Row])
    ensures { All IsRow rows.now }
{
    for row in rows {
        let _least = row.least();
    }
}

impl Problem {
    /// The problem of a library and rows that decide its patterns.
    pub fn new(library: Library, rows: Vec<Row>) -> Problem
        requires { DecidePatterns library rows.items }
        ensures { result ≡ problem_parts library rows.items }
    {
        are_rows(&rows);
        Problem {
            library,
            base: rows,
        }
    }

    /// The library.
    pub fn library(&self) -> &Library
        ensures library { result.now ≡ self.now.library }
        ensures problem { IsProblem self.now }
    {
        &self.library
    }

    /// The base rows, by number.
    pub fn base(&self) -> &[Row]
        ensures rows { result.now ≡ self.now.base }
        ensures problem { IsProblem self.now }
    {
        self.base.as_slice()
    }

    /// A copy in its own memory. The only error is want of memory.
    pub fn copy(&self) -> Result<Problem, Memory>
        ensures { IfOk result (λ problem. problem ≡ self.now) }
    {
        Ok(Problem {
            library: self.library.copy()?,
            base: self.base.clone()?,
        })
    }
}
