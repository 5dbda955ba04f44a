// The base rows of a library.
ghost use Rattle.std.specs.Prelude.{◌≡◌, ◌++◌, unsigned_abs, OnOk, OnErr, string_bytes};
ghost use Rattle.std.specs.Fmt.{signed_decimal};
ghost use Rattle.std.specs.List.{flat_map, enumerate_from};
ghost use Rattle.report.specs.Rows.{sign_text, term_text, row_line, rows_text};

use arch_model::Memory;
use itoa::Buffer;
use rows::{Problem, Row, Term};

// The sign of a term's coefficient, behind a space.
fn sign_text(term: &Term) -> &'static str
    ensures { result.now ≡ sign_text term.now.coef }
{
    if term.coef < 0 { " -" } else { " +" }
}

// A term's coefficient without its sign.
fn size(term: &Term) -> u128
    ensures { result ≡ unsigned_abs term.now.coef }
{
    term.coef.unsigned_abs()
}

// Appends a term.
fn push_term(text: &mut String, term: &Term) -> Result<(), Memory>
    ensures { OnOk result (string_bytes text.new ≡ string_bytes text.old ++ term_text term.now) }
{
    let (size, variable) = (size(term), term.var.0);
    text.push_str(sign_text(term))?;
    write!(text, "{size}*{variable}")?;
    Ok(())
}

// Appends all terms, in order.
fn push_terms(text: &mut String, terms: &[Term]) -> Result<(), Memory>
    ensures { OnOk result
        (string_bytes text.new ≡ string_bytes text.old ++ flat_map term_text terms.now) }
{
    for term in terms {
        push_term(text, term)?;
    }
    Ok(())
}

// Appends what a row has to come to at least.
fn push_least(text: &mut String, row: &Row) -> Result<(), Memory>
    ensures { OnOk result
        (string_bytes text.new ≡ string_bytes text.old ++ signed_decimal row.now.least) }
{
    let mut buffer = Buffer::new();
    text.push_str(buffer.format(row.least()))
}

// Appends the line of a row.
fn push_row(text: &mut String, number: usize, row: &Row) -> Result<(), Memory>
    ensures { OnOk result
        (string_bytes text.new ≡ string_bytes text.old ++ row_line number row.now) }
{
    write!(text, "b{number}")?;
    push_terms(text, row.terms())?;
    text.push_str(" >= ")?;
    push_least(text, row)?;
    text.push_str("\n")?;
    Ok(())
}

// Appends the lines of some rows, numbered from 0.
fn push_rows(text: &mut String, base: &[Row]) -> Result<(), Memory>
    ensures { OnOk result (string_bytes text.new ≡ string_bytes text.old
        ++ flat_map (λ p. row_line p.0 p.1) (enumerate_from 0 base.now)) }
{
    for (number, row) in base.iter().enumerate() {
        push_row(text, number, row)?;
    }
    Ok(())
}

/// Appends the line of a row under a number: its terms, and what they have to come to at least.
/// Where memory is wanting, nothing is appended.
pub fn row_line(number: usize, row: &Row, out: &mut Vec<u8>) -> Result<(), Memory>
    ensures text { OnOk result (out.new.items ≡ out.old.items ++ row_line number row.now) }
    ensures err { OnErr result (out.new.items ≡ out.old.items) }
{
    let mut text = String::new(*out.allocator());
    push_row(&mut text, number, row)?;
    out.extend_from_slice(text.as_bytes())
}

/// Appends the base rows of a problem, a line each, by number. Where memory is wanting, nothing is
/// appended.
pub fn rows_text(problem: &Problem, out: &mut Vec<u8>) -> Result<(), Memory>
    ensures text { OnOk result (out.new.items ≡ out.old.items ++ rows_text problem.now) }
    ensures err { OnErr result (out.new.items ≡ out.old.items) }
{
    let mut text = String::new(*out.allocator());
    push_rows(&mut text, problem.base())?;
    out.extend_from_slice(text.as_bytes())
}
