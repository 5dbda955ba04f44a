// The names of components, written and read.
ghost use Rattle.std.specs.Prelude.{◌≡◌, ◌≢◌, ℕ, ◌<◌, ◌≤◌, ◌^◌, ◌++◌, IfOk, IfSome, IfNone, OnOk, OnErr};
ghost use Rattle.std.specs.Prelude.{length, slice_index, string_bytes};
ghost use Rattle.std.specs.Fmt.{decimal};
ghost use Rattle.template.specs.Names as names;

use arch_model::{CompId, Library, Memory};
use std::alloc::Global;

/// The name of an instance: its type's name, a dot and its index, as in `bus.2`. The only error is
/// want of memory.
pub fn instance_name(alloc: Global, type_name: &str, index: u32) -> Result<String, Memory>
    ensures { IfOk result (λ s. string_bytes s ≡ names.instance_name type_name.now index) }
{
    format!(in alloc; "{type_name}.{index}")
}

/// A component's name. The only error is want of memory.
pub fn name_of(alloc: Global, lib: &Library, c: CompId) -> Result<String, Memory>
    requires { c.0 < length lib.now.components }
    ensures { IfOk result (λ s. string_bytes s ≡ names.component_name lib.now c.0) }
{
    let component = &lib.components()[c.0 as usize];
    let row = &lib.types()[component.of as usize];
    instance_name(alloc, row.name.text(), component.index)
}

/// Appends a component's name. Where memory is wanting, nothing is appended.
pub fn push_name(out: &mut String, lib: &Library, c: CompId) -> Result<(), Memory>
    requires { c.0 < length lib.now.components }
    ensures bytes { OnOk result (string_bytes out.new ≡ string_bytes out.old ++ names.component_name lib.now c.0) }
    ensures kept { OnErr result (string_bytes out.new ≡ string_bytes out.old) }
{
    // The name is made apart first: no clause says what write! leaves where memory is wanting.
    let name = name_of(*out.allocator(), lib, c)?;
    out.push_str(&name)
}

// The first digits that an index may have.
const LOWEST: u8 = b'1';

const HIGHEST: u8 = b'9';

// The first byte of a text, and 0 of an empty one.
fn first_byte(text: &str) -> u8
    ensures { result ≡ slice_index text.now 0 }
{
    match text.as_bytes().first() {
        Some(c) => *c,
        None => 0,
    }
}

// The number that a text is in decimal, from 1 on and without a leading zero.
fn index_of(text: &str) -> Option<u64>
    ensures is { IfSome result (λ n. (text.now ≡ decimal n) × (1 ≤ n) × (n < 2 ^ 64)) }
    ensures none { IfNone result ((n : ℕ) → 1 ≤ n → n < 2 ^ 64 → text.now ≢ decimal n) }
{
    let first = first_byte(text);
    if first < LOWEST {
        return None;
    }
    if first > HIGHEST {
        return None;
    }
    text.parse::<u64>().ok()
}

/// The index of the instance that a text names, where the text is the name of one of a type, as 2
/// in `bus.2` for `bus`; none where it isn't. Indices are 1 to 2^64 - 1, in decimal and without a
/// leading zero.
pub fn index_in(text: &str, type_name: &str) -> Option<u64>
    ensures is { IfSome result
        (λ i. (text.now ≡ names.instance_name type_name.now i) × (1 ≤ i) × (i < 2 ^ 64)) }
    ensures none { IfNone result
        ((i : ℕ) → 1 ≤ i → i < 2 ^ 64 → text.now ≢ names.instance_name type_name.now i) }
{
    let rest = text.strip_prefix(type_name)?;
    index_of(rest.strip_prefix('.')?)
}
