// The minimal cut sets of a sink.
ghost use Rattle.std.specs.Prelude.{◌≡◌, ◌<◌, ◌++◌, length, map, OnOk, OnErr, string_bytes};
ghost use Rattle.std.specs.List.{flat_map, All};
ghost use Rattle.std.specs.List.Sorted.{IsStrictlyIncreasing};
ghost use Rattle.arch_model.specs.Member.{member_count};
ghost use Rattle.report.specs.Sets.{edge_name, member_name, spaced_name, set_line, sets_end};

use arch_model::{CompId, EdgeId, Library, Memory, VarId, product};
use template::push_name;

// Appends the name of an edge, from those of its ends.
fn push_edge_name(text: &mut String, lib: &Library, e: EdgeId) -> Result<(), Memory>
    requires { e.0 < length lib.now.edges }
    ensures { OnOk result (string_bytes text.new ≡ string_bytes text.old ++ edge_name lib.now e.0) }
{
    let edge = lib.edges()[e.0 as usize];
    push_name(text, lib, edge.tail)?;
    text.push_str("-")?;
    push_name(text, lib, edge.head)?;
    Ok(())
}

// Appends the name of a member, a component or an edge.
fn push_member(text: &mut String, lib: &Library, member: VarId) -> Result<(), Memory>
    requires { member.0 < member_count lib.now }
    ensures { OnOk result
        (string_bytes text.new ≡ string_bytes text.old ++ member_name lib.now member.0) }
{
    let components = lib.components().len() as u32;
    if member.0 < components {
        push_name(text, lib, CompId(member.0))
    } else {
        push_edge_name(text, lib, EdgeId(member.0 - components))
    }
}

// Appends a member within a line.
fn push_spaced(text: &mut String, lib: &Library, member: VarId) -> Result<(), Memory>
    requires { member.0 < member_count lib.now }
    ensures { OnOk result
        (string_bytes text.new ≡ string_bytes text.old ++ spaced_name lib.now member.0) }
{
    text.push_str(" ")?;
    push_member(text, lib, member)?;
    Ok(())
}

// Appends some members within a line, in order.
fn push_members(text: &mut String, lib: &Library, members: &[VarId]) -> Result<(), Memory>
    requires { All (λ m. m.0 < member_count lib.now) members.now }
    ensures { OnOk result (string_bytes text.new ≡ string_bytes text.old
        ++ flat_map (spaced_name lib.now) (map (λ m. m.0) members.now)) }
{
    for member in members {
        push_spaced(text, lib, *member)?;
    }
    Ok(())
}

// Appends the line of a set.
pub fn push_set(text: &mut String, lib: &Library, members: &[VarId]) -> Result<(), Memory>
    requires ascending { IsStrictlyIncreasing (map (λ m. m.0) members.now) }
    requires in_range { All (λ m. m.0 < member_count lib.now) members.now }
    ensures { OnOk result (string_bytes text.new ≡ string_bytes text.old
        ++ set_line lib.now (map (λ m. m.0) members.now)) }
{
    let product = product(lib, members);
    write!(text, "{product}")?;
    push_members(text, lib, members)?;
    text.push_str("\n")?;
    Ok(())
}

/// Appends the line of a set of members: its product, in units of 10^-18, and their names. The
/// empty set has its product alone. Where memory is wanting, nothing is appended.
pub fn set_line(lib: &Library, members: &[VarId], out: &mut Vec<u8>) -> Result<(), Memory>
    requires ascending { IsStrictlyIncreasing (map (λ m. m.0) members.now) }
    requires in_range { All (λ m. m.0 < member_count lib.now) members.now }
    ensures text { OnOk result
        (out.new.items ≡ out.old.items ++ set_line lib.now (map (λ m. m.0) members.now)) }
    ensures err { OnErr result (out.new.items ≡ out.old.items) }
{
    let mut text = String::new(*out.allocator());
    push_set(&mut text, lib, members)?;
    out.extend_from_slice(text.as_bytes())
}

// Appends the last two lines.
pub fn push_end(text: &mut String, sets: u128, sum: u128) -> Result<(), Memory>
    ensures { OnOk result (string_bytes text.new ≡ string_bytes text.old ++ sets_end sets sum) }
{
    write!(text, "sets {sets}\nsum {sum}\n")?;
    Ok(())
}

/// Appends the last two lines of a list of cut sets: how many there are, and the sum of their
/// products, in units of 10^-18. Where memory is wanting, nothing is appended.
pub fn sets_end(sets: u128, sum: u128, out: &mut Vec<u8>) -> Result<(), Memory>
    ensures text { OnOk result (out.new.items ≡ out.old.items ++ sets_end sets sum) }
    ensures err { OnErr result (out.new.items ≡ out.old.items) }
{
    let mut text = String::new(*out.allocator());
    push_end(&mut text, sets, sum)?;
    out.extend_from_slice(text.as_bytes())
}
