// What stands in front of some bytes, and what stands behind it.
ghost use Rattle.std.specs.Prelude.{◌≡◌, ℕ, ◌-◌, ◌^◌, ◌<◌, min, length, option_map, IfOk, IfSome};
ghost use Rattle.std.specs.Prelude.{Some, None, not, nat_lt, nat_le, slice_index, ◌&&◌, ◌==◌};
ghost use Rattle.std.specs.Prelude.{◌≤◌, if◌then◌else◌};
ghost use Rattle.std.specs.Str.Parse.{digits_value};
ghost use Rattle.proof_log.specs.Inner.Reading.{after, behind, end_at, fits, digits_front};
ghost use Rattle.proof_log.specs.Inner.Reading.{number_at, Gives};

use crate::log_line::{LineError, LineFault};

/// What a reader of bytes gives: a value, and the bytes behind it.
pub type Read<'a, T> = Result<(T, &'a [u8]), LineError>;

/// The bytes behind a word that stands in front.
pub fn strip<'a>(bytes: &'a [u8], word: &[u8]) -> Option<&'a [u8]>
    ensures { option_map (λ x. x.now) result ≡ after word.now bytes.now }
{
    bytes.strip_prefix(word)
}

/// The bytes behind a word that has to stand in front.
pub fn expect<'a>(bytes: &'a [u8], word: &[u8]) -> Result<&'a [u8], LineError>
    ensures { Gives (λ x. x.now) result (behind word.now bytes.now) }
{
    match strip(bytes, word) {
        Some(rest) => Ok(rest),
        None => Err(LineError::Fault(LineFault::Form)),
    }
}

/// Nothing may be left.
pub fn finish(bytes: &[u8]) -> Result<(), LineError>
    ensures { Gives (λ x. x) result (end_at bytes.now) }
{
    match bytes {
        [] => Ok(()),
        [_, ..] => Err(LineError::Fault(LineFault::Form)),
    }
}

/// A number isn't in its range where there is none.
pub fn fitting<T>(value: Option<T>) -> Result<T, LineError>
    ensures { Gives (λ x. x) result (fits value) }
{
    match value {
        Some(value) => Ok(value),
        None => Err(LineError::Fault(LineFault::Number)),
    }
}

// The number that the digits in front stand for, or 2^64 - 1 where that is less, and how many there
// are.
fn digits(bytes: &[u8]) -> (u64, usize)
    ensures value { result.0 ≡ min (digits_value 10 (digits_front bytes.now)) (2 ^ 64 - 1) }
    ensures len { result.1 ≡ length (digits_front bytes.now) }
    ensures within { result.1 ≤ length bytes.now }
{
    let mut value: u64 = 0;
    for (len, byte) in bytes.iter().enumerate() {
        if !byte.is_ascii_digit() {
            return (value, len);
        }
        value = value
            .saturating_mul(10)
            .saturating_add(u64::from(*byte - b'0'));
    }
    (value, bytes.len())
}

// Whether a zero leads a run of more than one digit.
fn leads_zero(bytes: &[u8], len: usize) -> bool
    requires { len ≤ length bytes.now }
    ensures { result ≡ (nat_lt 1 len && (slice_index bytes.now 0 == 48)) }
{
    len > 1 && bytes[0] == b'0'
}

// A value that no zero leads, where it is in a range.
fn ranged(value: u64, led: bool, low: u64, limit: u64) -> Option<u64>
    ensures value { result ≡ (if not led && nat_le low value && nat_lt value limit
        then Some value else None) }
    ensures range { IfSome result (λ n. n < limit) }
{
    if !led && low <= value && value < limit {
        return Some(value);
    }
    None
}

/// A run of digits, as a number from `low` to below `limit`.
pub fn number(bytes: &[u8], low: u64, limit: u64) -> Read<'_, Option<u64>>
    ensures number { Gives (λ x. (x.0, x.1.now)) result (number_at low limit bytes.now) }
    ensures range { IfOk result (λ x. IfSome x.0 (λ n. n < limit)) }
{
    let (value, len) = digits(bytes);
    if len == 0 {
        return Err(LineError::Fault(LineFault::Form));
    }
    let led = leads_zero(bytes, len);
    Ok((ranged(value, led, low, limit), &bytes[len..]))
}

/// A run of digits, as a number that fits 32 bits.
pub fn small(bytes: &[u8]) -> Read<'_, Option<u32>>
    ensures { Gives (λ x. (x.0, x.1.now)) result (number_at 0 (2 ^ 32) bytes.now) }
{
    let (n, rest) = number(bytes, 0, 1 << 32)?;
    Ok((n.map(|n| n as u32), rest))
}
