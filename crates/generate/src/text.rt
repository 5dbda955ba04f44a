// The text of a number's library.
ghost use Rattle.std.specs.Prelude.{◌≡◌, ◌≤◌, ◌++◌, IfOk, OnOk, string_bytes};
ghost use Rattle.std.specs.List.{flat_map};
ghost use Rattle.generate.specs.Generated.{types_text, link_text, requirement_text, library_text};

use crate::group::{Group, groups_of};
use arch_model::Memory;
use std::alloc::Global;

/// The greatest size of a generated library.
pub const LARGEST_SIZE: u32 = 16;

// Appends the two types of a group.
fn push_group_types(text: &mut String, group: &Group) -> Result<(), Memory>
    ensures { OnOk result (string_bytes text.new ≡ string_bytes text.old ++ types_text group.now) }
{
    let (number, cost) = (group.number, group.cost);
    write!(
        text,
        "[[type]]\nname = \"s{number}\"\nrole = \"source\"\nmax = 2\ncost = {cost}\nfail = 1000\n\
        [[type]]\nname = \"l{number}\"\nrole = \"sink\"\n"
    )?;
    Ok(())
}

// Appends the link of a group.
fn push_group_link(text: &mut String, group: &Group) -> Result<(), Memory>
    ensures { OnOk result (string_bytes text.new ≡ string_bytes text.old ++ link_text group.now) }
{
    let number = group.number;
    write!(
        text,
        "[[link]]\nfrom = \"s{number}\"\nto = \"l{number}\"\ncost = 1\n"
    )?;
    Ok(())
}

// Appends the requirement of a group.
fn push_group_requirement(text: &mut String, group: &Group) -> Result<(), Memory>
    ensures { OnOk result
        (string_bytes text.new ≡ string_bytes text.old ++ requirement_text group.now) }
{
    let (number, bound) = (group.number, group.bound);
    write!(
        text,
        "[[require]]\nsink = \"l{number}.1\"\nbound = {bound}\n"
    )?;
    Ok(())
}

// Appends the types of all groups.
fn push_types(text: &mut String, groups: &[Group]) -> Result<(), Memory>
    ensures { OnOk result
        (string_bytes text.new ≡ string_bytes text.old ++ flat_map types_text groups.now) }
{
    for group in groups {
        push_group_types(text, group)?;
    }
    Ok(())
}

// Appends the links of all groups.
fn push_links(text: &mut String, groups: &[Group]) -> Result<(), Memory>
    ensures { OnOk result
        (string_bytes text.new ≡ string_bytes text.old ++ flat_map link_text groups.now) }
{
    for group in groups {
        push_group_link(text, group)?;
    }
    Ok(())
}

// Appends the requirements of all groups.
fn push_requirements(text: &mut String, groups: &[Group]) -> Result<(), Memory>
    ensures { OnOk result
        (string_bytes text.new ≡ string_bytes text.old ++ flat_map requirement_text groups.now) }
{
    for group in groups {
        push_group_requirement(text, group)?;
    }
    Ok(())
}

/// The library of a number, as a file's text: `size` groups. The only error is want of memory.
pub fn library_of(alloc: Global, number: u64, size: u32) -> Result<Vec<u8>, Memory>
    requires some { 1 ≤ size }
    requires few { size ≤ LARGEST_SIZE }
    ensures { IfOk result (λ text. text.items ≡ library_text number size) }
{
    let groups = groups_of(alloc, number, size)?;
    let mut text = String::new(alloc);
    push_types(&mut text, &groups)?;
    push_links(&mut text, &groups)?;
    push_requirements(&mut text, &groups)?;
    Ok(text.into_bytes())
}
