// The fields of a line.
ghost use Rattle.std.specs.Prelude.{◌≡◌, ℕ, ◌+◌, ◌^◌, ◌<◌, ◌≤◌, List, map, length, option_map};
ghost use Rattle.std.specs.Prelude.{Option, IfOk, IfSome, OnErr, Err};
ghost use Rattle.std.specs.Option.{ForSome};
ghost use Rattle.rows.specs.Reason.{IsReason};
ghost use Rattle.proof_log.specs.declared.log_line.LineError.TheVariants as errors;
ghost use Rattle.proof_log.specs.Field.{AMOUNTS, TIMES};
ghost use Rattle.proof_log.specs.Value.{row_name, named_pair, IsSmall};
ghost use Rattle.proof_log.specs.Inner.Reading.{Gives, number_at, optional_at, row_at, pair_at};
ghost use Rattle.proof_log.specs.Inner.Reading.{items_at, field_at, a_number, an_optional};
ghost use Rattle.proof_log.specs.Inner.Reading.{a_trace, a_reason, a_list, a_small, an_amount};
ghost use Rattle.proof_log.specs.Inner.Reading.{both, pushed, with_number, seen_by, set_by};
ghost use Rattle.proof_log.specs.Inner.Reading.{folded_at, set_read};

use crate::log_line::{LineError, LineFault};
use crate::number_set::NumberSet;
use crate::scan::{Read, expect, number, small, strip};
use rows::{Pair, Reason, RowRef, Trace};
use std::alloc::Global;

/// What a cost stays below.
const AMOUNT: u64 = 1 << 63;

/// What a multiplier stays below.
const TIMES_END: u64 = 1_000_000_000_001;

/// The most pairs that a reason has.
const PAIRS: usize = 64;

/// A number that fits 32 bits, behind a space.
pub fn small_field(bytes: &[u8]) -> Read<'_, Option<u32>>
    ensures { Gives (λ x. (x.0, x.1.now)) result (field_at a_small bytes.now) }
{
    small(expect(bytes, b" ")?)
}

/// A cost, behind a space.
pub fn amount_field(bytes: &[u8]) -> Read<'_, Option<u64>>
    ensures { Gives (λ x. (x.0, x.1.now)) result (field_at an_amount bytes.now) }
{
    number(expect(bytes, b" ")?, 0, AMOUNT)
}

// A cost, or none.
#[tactic(auto, unfolding(crate::specs::Inner::Reading::optional_at))]
fn optional(bytes: &[u8]) -> Read<'_, Option<Option<u64>>>
    ensures { Gives (λ x. (x.0, x.1.now)) result (optional_at bytes.now) }
{
    if let Some(rest) = strip(bytes, b"none") {
        return Ok((Some(None), rest));
    }
    let (n, rest) = number(bytes, 0, AMOUNT)?;
    Ok((n.map(Some), rest))
}

/// A cost or none, behind a space.
pub fn optional_field(bytes: &[u8]) -> Read<'_, Option<Option<u64>>>
    ensures { Gives (λ x. (x.0, x.1.now)) result (field_at an_optional bytes.now) }
{
    optional(expect(bytes, b" ")?)
}

// The name of a row.
#[tactic(auto, unfolding(crate::specs::Inner::Reading::row_at))]
fn row(bytes: &[u8]) -> Read<'_, Option<RowRef>>
    ensures { Gives (λ x. (option_map row_name x.0, x.1.now)) result (row_at bytes.now) }
{
    if let Some(rest) = strip(bytes, b"b") {
        let (n, rest) = small(rest)?;
        return Ok((n.map(RowRef::Base), rest));
    }
    if let Some(rest) = strip(bytes, b"c") {
        let (n, rest) = small(rest)?;
        return Ok((n.map(RowRef::Cut), rest));
    }
    Ok((Some(RowRef::Cost), expect(bytes, b"u")?))
}

// A row's name and its multiplier, where both are in their ranges.
fn paired(row: Option<RowRef>, times: Option<u64>) -> Option<Pair>
    ensures { option_map named_pair result ≡ both (option_map row_name row) times }
{
    match (row, times) {
        (Some(row), Some(times)) => Some(Pair { row, times }),
        _ => None,
    }
}

// A pair of a reason.
#[tactic(auto, unfolding(crate::specs::Inner::Reading::pair_at))]
fn pair(bytes: &[u8]) -> Read<'_, Option<Pair>>
    ensures { Gives (λ x. (option_map named_pair x.0, x.1.now)) result (pair_at bytes.now) }
{
    let (row, rest) = row(bytes)?;
    let rest = expect(rest, b"*")?;
    let (times, rest) = number(rest, 1, TIMES_END)?;
    Ok((paired(row, times), rest))
}

// One item more, where there are both.
fn push_both<T: Drop>(items: Option<Vec<T>>, item: Option<T>) -> Result<Option<Vec<T>>, LineError>
    ensures items { IfOk result (λ r. option_map (λ v. v.items) r
        ≡ pushed (option_map (λ v. v.items) items) item) }
    ensures memory { OnErr result (result ≡ Err errors.Memory) }
{
    let (Some(mut items), Some(item)) = (items, item) else {
        return Ok(None);
    };
    items.push(item)?;
    Ok(Some(items))
}

// Rows parted by commas.
fn rows(alloc: Global, bytes: &[u8]) -> Read<'_, Option<Vec<RowRef>>>
    ensures { Gives (λ x. (option_map (λ v. map row_name v.items) x.0, x.1.now)) result
        (items_at row_at (length bytes.now) bytes.now) }
{
    let mut steps = Some(Vec::new(alloc));
    let mut rest = bytes;
    for _ in 0..bytes.len() {
        let (row, after) = row(rest)?;
        steps = push_both(steps, row)?;
        match strip(after, b",") {
            Some(next) => rest = next,
            None => return Ok((steps, after)),
        }
    }
    Err(LineError::Fault(LineFault::Form))
}

// Pairs parted by commas.
fn pairs(alloc: Global, bytes: &[u8]) -> Read<'_, Option<Vec<Pair>>>
    ensures { Gives (λ x. (option_map (λ v. map named_pair v.items) x.0, x.1.now)) result
        (items_at pair_at 64 bytes.now) }
{
    let mut pairs = Some(Vec::new(alloc));
    let mut rest = bytes;
    for _ in 0..PAIRS {
        let (pair, after) = pair(rest)?;
        pairs = push_both(pairs, pair)?;
        match strip(after, b",") {
            Some(next) => rest = next,
            None => return Ok((pairs, after)),
        }
    }
    Err(LineError::Fault(LineFault::Form))
}

/// The rows of a trace, behind a space.
pub fn trace_field(alloc: Global, bytes: &[u8]) -> Read<'_, Option<Trace>>
    ensures { Gives (λ x. (option_map (map row_name) x.0, x.1.now)) result
        (field_at a_trace bytes.now) }
{
    let bytes = expect(bytes, b" ")?;
    if let Some(rest) = strip(bytes, b"-") {
        return Ok((Some(Trace::new(Vec::new(alloc))), rest));
    }
    let (steps, rest) = rows(alloc, bytes)?;
    Ok((steps.map(Trace::new), rest))
}

// A reason of pairs that were read.
fn reason(pairs: Option<Vec<Pair>>) -> Option<Reason>
    requires { ForSome pairs (λ v. IsReason v.items) }
    ensures { option_map (map named_pair) result
        ≡ option_map (λ v. map named_pair v.items) pairs }
{
    match pairs {
        Some(pairs) => Some(Reason::new(pairs)),
        None => None,
    }
}

/// The pairs of a reason, behind a space.
pub fn reason_field(alloc: Global, bytes: &[u8]) -> Read<'_, Option<Reason>>
    ensures { Gives (λ x. (option_map (map named_pair) x.0, x.1.now)) result
        (field_at a_reason bytes.now) }
{
    let bytes = expect(bytes, b" ")?;
    let (pairs, rest) = pairs(alloc, bytes)?;
    Ok((reason(pairs), rest))
}

// One number more of a set that is read, with what the next has to be at least and whether all
// ascend.
fn add_number<S: NumberSet>(
    so_far: Option<(S, u64, bool)>,
    n: Option<u64>,
) -> Option<(S, u64, bool)>
    requires { IfSome n (λ n. (n < S.room) × (n < 2 ^ 32)) }
    ensures set { seen_by S.numbers result ≡ with_number (seen_by S.numbers so_far) n }
    ensures small { IfSome so_far (λ p. IsSmall S.room (S.numbers p.0))
        → IfSome result (λ p. IsSmall S.room (S.numbers p.0)) }
{
    let (Some((mut set, next, ascend)), Some(n)) = (so_far, n) else {
        return None;
    };
    set.put_number(n as u32);
    Some((set, n + 1, ascend && next <= n))
}

// The set that was read, and whether all its numbers ascend.
fn read_set<S: NumberSet>(so_far: Option<(S, u64, bool)>) -> Option<(S, bool)>
    ensures { result ≡ option_map (λ p. (p.0, p.2)) so_far }
{
    match so_far {
        Some((set, _, ascend)) => Some((set, ascend)),
        None => None,
    }
}

// Numbers below a limit, parted by commas: the set of them, and whether they ascend.
fn numbers<S: NumberSet>(bytes: &[u8], limit: u64) -> Read<'_, Option<(S, bool)>>
    requires { (limit ≤ S.room) × (limit ≤ 2 ^ 32) }
    ensures read { Gives (λ x. (set_by S.numbers x.0, x.1.now)) result
        (folded_at (number_at 0 limit) (option_map set_read) (length bytes.now) bytes.now) }
    ensures small { IfOk result (λ x. IfSome x.0 (λ p. IsSmall S.room (S.numbers p.0))) }
{
    let mut so_far = Some((S::empty(), 0, true));
    let mut rest = bytes;
    for _ in 0..bytes.len() {
        let (n, after) = number(rest, 0, limit)?;
        so_far = add_number(so_far, n);
        match strip(after, b",") {
            Some(next) => rest = next,
            None => return Ok((read_set(so_far), after)),
        }
    }
    Err(LineError::Fault(LineFault::Form))
}

/// A list of numbers below a limit, behind a space: the set of them, and whether they ascend.
pub fn list_field<S: NumberSet>(bytes: &[u8], limit: u64) -> Read<'_, Option<(S, bool)>>
    requires { (limit ≤ S.room) × (limit ≤ 2 ^ 32) }
    ensures read { Gives (λ x. (set_by S.numbers x.0, x.1.now)) result
        (field_at (a_list limit) bytes.now) }
    ensures small { IfOk result (λ x. IfSome x.0 (λ p. IsSmall S.room (S.numbers p.0))) }
{
    let bytes = expect(bytes, b" ")?;
    if let Some(rest) = strip(bytes, b"-") {
        return Ok((Some((S::empty(), true)), rest));
    }
    numbers(bytes, limit)
}
