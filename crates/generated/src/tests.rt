// How large some generated libraries are.
use crate::text_and_library;
use generate::LARGEST_SIZE;
use std::alloc::Global;
use std::test::Fail;

// How many types, components, edges and requirements the library of a number has.
fn counts(alloc: Global, number: u64, size: u32) -> Result<(usize, usize, usize, usize), Fail> {
    if size < 1 || size > LARGEST_SIZE {
        return Ok((0, 0, 0, 0));
    }
    let made = text_and_library(alloc, number, size)?;
    let library = &made.library;
    Ok((
        library.types().len(),
        library.components().len(),
        library.edges().len(),
        library.requirements().len(),
    ))
}

#[test]
fn a_group_has_three_components_and_two_edges(rt: HostRuntime) -> Result<(), Fail> {
    assert!(rt; counts(rt.alloc(), 0, 1)? == (2, 3, 2, 1));
    assert!(rt; counts(rt.alloc(), 0, 5)? == (10, 15, 10, 5));
    assert!(rt; counts(rt.alloc(), u64::MAX, 16)? == (32, 48, 32, 16));
    Ok(())
}
