// One row of raw terms: the coefficients of each variable are added up.
ghost use Rattle.std.specs.Prelude.{◌≡◌, ℕ, ◌*◌, ◌≤◌, ◌<◌, ◌^◌, ◌++◌, ◌∷◌, [], IfOk, OnOk, length, map, filter};
ghost use Rattle.std.specs.Prelude.{pos, unsigned_abs, slice_index_or};
ghost use Rattle.std.specs.List.{All, enumerate_from};
ghost use Rattle.arch_model.specs.Member.{member_count};
ghost use Rattle.rows.specs.Row.{IsSized, coef_at, is_nonzero, row_of, term};
ghost use Rattle.rows.specs.BaseRows.{member_row};
ghost use Rattle.binary_program.specs.Inner.Terms.{AreTerms};

use arch_model::limits::MEMBERS;
use arch_model::{Library, Memory, VarId};
use rows::{Row, Term, variable_count};
use std::alloc::Global;

// The coefficient at each variable below n, the terms of one variable added up.
fn coefficients(alloc: Global, n: u32, terms: &[Term]) -> Result<Vec<i128>, Memory>
    requires few { length terms.now ≤ 2048 }
    requires small { All (λ t. unsigned_abs t.coef ≤ 10 ^ 12) terms.now }
    requires variables { All (λ t. t.var.0 < n) terms.now }
    ensures len { IfOk result (λ v. length v.items ≡ n) }
    ensures value { IfOk result (λ v. (k : ℕ) → k < n → slice_index_or v.items k (pos 0) ≡ coef_at terms.now k) }
    ensures small { IfOk result (λ v. All (λ a. unsigned_abs a ≤ 2048 * 10 ^ 12) v.items) }
{
    let mut sums = vec![in alloc; 0i128; n as usize]?;
    for term in terms {
        sums[term.var.0 as usize] += term.coef;
    }
    Ok(sums)
}

// The coefficients that aren't 0, each at the variable of its place.
fn nonzero_terms(alloc: Global, coefs: &[i128]) -> Result<Vec<Term>, Memory>
    requires few { length coefs.now ≤ MEMBERS }
    requires small { All (λ a. unsigned_abs a ≤ 2048 * 10 ^ 12) coefs.now }
    ensures { IfOk result
        (λ v. v.items ≡ filter (λ t. is_nonzero t.coef) (map (λ p. term p.0 p.1) (enumerate_from 0 coefs.now))) }
{
    let mut terms = Vec::new(alloc);
    for (v, coef) in coefs.iter().enumerate() {
        if *coef != 0 {
            terms.push(Term {
                var: VarId(v as u32),
                coef: *coef,
            })?;
        }
    }
    Ok(terms)
}

/// The row of some terms over the variables below n: those of one variable added up, zero terms
/// dropped, ascending. No sum wraps: there are few terms with small coefficients.
pub(crate) fn row_from(alloc: Global, n: u32, terms: &[Term], least: i128) -> Result<Row, Memory>
    requires few { length terms.now ≤ 2048 }
    requires small { All (λ t. unsigned_abs t.coef ≤ 10 ^ 12) terms.now }
    requires variables { All (λ t. t.var.0 < n) terms.now }
    requires members { n ≤ MEMBERS }
    requires least { IsSized least }
    ensures { IfOk result (λ row. row ≡ row_of n terms.now least) }
{
    let coefs = coefficients(alloc, n, terms)?;
    let terms = nonzero_terms(alloc, &coefs)?;
    Ok(Row::new(terms, least))
}

/// Appends the row of some terms over a library's members.
pub(crate) fn push_row(
    alloc: Global,
    rows: &mut Vec<Row>,
    lib: &Library,
    terms: &[Term],
    least: i128,
) -> Result<(), Memory>
    requires terms { AreTerms (member_count lib.now) 2048 terms.now }
    requires least { IsSized least }
    ensures { OnOk result (rows.new.items ≡ rows.old.items ++ member_row lib.now terms.now least ∷ []) }
{
    rows.push(row_from(alloc, variable_count(lib), terms, least)?)?;
    Ok(())
}
