// The texts of some numbers.
use crate::{LARGEST_SIZE, library_of};
use std::alloc::Global;
use std::test::Fail;

const ONE_OF_0: &str = "[[type]]
name = \"s0\"
role = \"source\"
max = 2
cost = 45
fail = 1000
[[type]]
name = \"l0\"
role = \"sink\"
[[link]]
from = \"s0\"
to = \"l0\"
cost = 1
[[require]]
sink = \"l0.1\"
bound = 1000000000000
";

// Whether the library of a number has a text.
fn is_text(alloc: Global, number: u64, size: u32, text: &[u8]) -> Result<bool, Fail> {
    if size < 1 || size > LARGEST_SIZE {
        return Ok(false);
    }
    let made = library_of(alloc, number, size)?;
    Ok(made.as_slice() == text)
}

// The text of groups with these costs and bounds, line by line.
fn text_with(alloc: Global, groups: &[(u64, u64)]) -> Result<String, Fail> {
    let mut text = String::new(alloc);
    for (i, (cost, _)) in groups.iter().enumerate() {
        write!(
            text,
            "[[type]]\nname = \"s{i}\"\nrole = \"source\"\nmax = 2\n"
        )?;
        write!(text, "cost = {cost}\nfail = 1000\n")?;
        write!(text, "[[type]]\nname = \"l{i}\"\nrole = \"sink\"\n")?;
    }
    for (i, _) in groups.iter().enumerate() {
        write!(text, "[[link]]\nfrom = \"s{i}\"\nto = \"l{i}\"\ncost = 1\n")?;
    }
    for (i, (_, bound)) in groups.iter().enumerate() {
        write!(text, "[[require]]\nsink = \"l{i}.1\"\nbound = {bound}\n")?;
    }
    Ok(text)
}

// Whether the library of a number is that of groups with these costs and bounds.
fn has_groups(alloc: Global, number: u64, groups: &[(u64, u64)]) -> Result<bool, Fail> {
    let text = text_with(alloc, groups)?;
    if groups.len() > LARGEST_SIZE as usize {
        return Ok(false);
    }
    is_text(alloc, number, groups.len() as u32, text.as_bytes())
}

#[test]
fn one_group_of_the_number_0_is_this_text(rt: HostRuntime) -> Result<(), Fail> {
    assert!(rt; is_text(rt.alloc(), 0, 1, ONE_OF_0.as_bytes())?);
    Ok(())
}

// The words of the number 0 are the first of the generator's published sequence. Those of the others
// were worked out by another program of the same generator.
#[test]
fn costs_and_bounds_are_those_of_the_words(rt: HostRuntime) -> Result<(), Fail> {
    let (both, one) = (1_000_000_000_000, 1_000_000_000_000_000);
    let two_of_0 = [(45, both), (10, both)];
    let five_of_0 = [(45, both), (10, both), (89, one), (54, one), (57, both)];
    let of_last = [(46, both), (79, both), (11, one)];
    assert!(rt; has_groups(rt.alloc(), 0, &two_of_0)?);
    assert!(rt; has_groups(rt.alloc(), 0, &five_of_0)?);
    assert!(rt; has_groups(rt.alloc(), 1, &[(75, one), (29, both)])?);
    assert!(rt; has_groups(rt.alloc(), u64::MAX, &of_last)?);
    Ok(())
}
