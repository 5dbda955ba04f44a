// The parts of a line, and how they are written at the end of a text.
ghost use Rattle.std.specs.Prelude.{◌≡◌, ℕ, ◌++◌, ◌∷◌, [], List, codes, map, length, OnOk, OnErr};
ghost use Rattle.std.specs.List.{flat_map};
ghost use Rattle.std.specs.Fmt.{decimal};
ghost use Rattle.arch_model.specs.Set.{members_below};
ghost use Rattle.arch_model.specs.declared.limits.TheConstants.{COMPONENTS, MEMBERS};
ghost use Rattle.proof_log.specs.Field.{row_text, pair_text, list_text};
ghost use Rattle.proof_log.specs.Value.{row_name, named_pair};
ghost use Rattle.proof_log.specs.Inner.Writing.{part_text, parts_text, StaysInFront};

use arch_model::{CompSet, MemberSet, Memory};
use itoa::Buffer;
use rows::{Pair, RowRef};

/// A part of a line behind its first word.
#[derive(Clone, Copy)]
pub enum Part<'a> {
    /// A word.
    Word(&'a [u8]),
    /// A number.
    Number(u64),
    /// A number, or none.
    Optional(Option<u64>),
    /// The rows of a trace.
    Trace(&'a [RowRef]),
    /// The pairs of a reason.
    Reason(&'a [Pair]),
    /// The members of a set.
    Members(&'a MemberSet),
    /// The components of a set.
    Components(&'a CompSet),
}

// Appends a number in decimal.
fn push_number(n: u64, out: &mut Vec<u8>) -> Result<(), Memory>
    ensures ok { OnOk result (out.new.items ≡ out.old.items ++ decimal n) }
    ensures err { OnErr result (StaysInFront out.old.items out.new.items) }
{
    out.extend_from_slice(Buffer::new().format(n).as_bytes())
}

// Appends the name of a row.
fn push_row(row: RowRef, out: &mut Vec<u8>) -> Result<(), Memory>
    ensures ok { OnOk result (out.new.items ≡ out.old.items ++ row_text decimal (row_name row)) }
    ensures err { OnErr result (StaysInFront out.old.items out.new.items) }
{
    match row {
        RowRef::Base(n) => {
            out.push(b'b')?;
            push_number(u64::from(n), out)
        }
        RowRef::Cut(n) => {
            out.push(b'c')?;
            push_number(u64::from(n), out)
        }
        RowRef::Cost => out.extend_from_slice(b"u"),
    }
}

// Appends a pair of a reason.
fn push_pair(pair: Pair, out: &mut Vec<u8>) -> Result<(), Memory>
    ensures ok { OnOk result (out.new.items ≡ out.old.items
        ++ pair_text decimal (named_pair pair)) }
    ensures err { OnErr result (StaysInFront out.old.items out.new.items) }
{
    push_row(pair.row, out)?;
    out.push(b'*')?;
    push_number(pair.times, out)
}

// Appends the rows of a trace.
fn push_trace(steps: &[RowRef], out: &mut Vec<u8>) -> Result<(), Memory>
    ensures ok { OnOk result (out.new.items ≡ out.old.items
        ++ list_text (row_text decimal) (map row_name steps.now)) }
    ensures err { OnErr result (StaysInFront out.old.items out.new.items) }
{
    let Some((first, others)) = steps.split_first() else {
        return out.extend_from_slice(b"-");
    };
    push_row(*first, out)?;
    for row in others {
        out.push(b',')?;
        push_row(*row, out)?;
    }
    Ok(())
}

// Appends the pairs of a reason.
fn push_reason(pairs: &[Pair], out: &mut Vec<u8>) -> Result<(), Memory>
    ensures ok { OnOk result (out.new.items ≡ out.old.items
        ++ list_text (pair_text decimal) (map named_pair pairs.now)) }
    ensures err { OnErr result (StaysInFront out.old.items out.new.items) }
{
    let Some((first, others)) = pairs.split_first() else {
        return out.extend_from_slice(b"-");
    };
    push_pair(*first, out)?;
    for pair in others {
        out.push(b',')?;
        push_pair(*pair, out)?;
    }
    Ok(())
}

// Appends the members of a set.
fn push_members(set: &MemberSet, out: &mut Vec<u8>) -> Result<(), Memory>
    ensures ok { OnOk result (out.new.items ≡ out.old.items
        ++ list_text decimal (members_below set.now MEMBERS)) }
    ensures err { OnErr result (StaysInFront out.old.items out.new.items) }
{
    let mut members = set.members();
    let Some(first) = members.next() else {
        return out.extend_from_slice(b"-");
    };
    push_number(u64::from(first.0), out)?;
    for member in members {
        out.push(b',')?;
        push_number(u64::from(member.0), out)?;
    }
    Ok(())
}

// Appends the components of a set.
fn push_components(set: &CompSet, out: &mut Vec<u8>) -> Result<(), Memory>
    ensures ok { OnOk result (out.new.items ≡ out.old.items
        ++ list_text decimal (members_below set.now COMPONENTS)) }
    ensures err { OnErr result (StaysInFront out.old.items out.new.items) }
{
    let mut components = set.members();
    let Some(first) = components.next() else {
        return out.extend_from_slice(b"-");
    };
    push_number(u64::from(first.0), out)?;
    for component in components {
        out.push(b',')?;
        push_number(u64::from(component.0), out)?;
    }
    Ok(())
}

// Appends a part.
fn push_part(part: &Part, out: &mut Vec<u8>) -> Result<(), Memory>
    ensures ok { OnOk result (out.new.items ≡ out.old.items ++ part_text part.now) }
    ensures err { OnErr result (StaysInFront out.old.items out.new.items) }
{
    match part {
        Part::Word(word) => out.extend_from_slice(word),
        Part::Number(n) => push_number(*n, out),
        Part::Optional(None) => out.extend_from_slice(b"none"),
        Part::Optional(Some(n)) => push_number(*n, out),
        Part::Trace(steps) => push_trace(steps, out),
        Part::Reason(pairs) => push_reason(pairs, out),
        Part::Members(set) => push_members(set, out),
        Part::Components(set) => push_components(set, out),
    }
}

// Appends a line: its first word, its other parts, and a line feed.
fn push_line(word: &[u8], parts: &[Part], out: &mut Vec<u8>) -> Result<(), Memory>
    ensures ok { OnOk result (out.new.items ≡ out.old.items ++ (word.now
        ++ parts_text parts.now ++ codes "\n")) }
    ensures err { OnErr result (StaysInFront out.old.items out.new.items) }
{
    out.extend_from_slice(word)?;
    for part in parts {
        out.push(b' ')?;
        push_part(part, out)?;
    }
    out.extend_from_slice(b"\n")
}

// Appends a line; where memory is wanting, nothing is appended.
pub fn write_line(word: &[u8], parts: &[Part], out: &mut Vec<u8>) -> Result<(), Memory>
    ensures ok { OnOk result (out.new.items ≡ out.old.items ++ (word.now
        ++ parts_text parts.now ++ codes "\n")) }
    ensures err { OnErr result (out.new.items ≡ out.old.items) }
{
    let before = out.len();
    let written = push_line(word, parts, out);
    if written.is_err() {
        out.truncate(before);
    }
    written
}
