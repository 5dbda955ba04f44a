// Histories as lists.
use crate::{Entry, History};
use std::test::Fail;

// A history keeps its entries in order.
#[test]
fn a_history_keeps_its_entries(rt: HostRuntime) -> Result<(), Fail> {
    let mut history = History::new(rt.alloc());
    assert_eq!(rt; history.entries().len(), 0);
    for limit in 0..2 {
        history.reserve()?;
        history.push_spare(Entry::Reopen { limit });
    }
    assert_eq!(rt; limit_at(&history, 0), Some(0));
    assert_eq!(rt; limit_at(&history, 1), Some(1));
    assert_eq!(rt; limit_at(&history, 2), None);
    Ok(())
}

// The limit that an entry of a history sets, None where there is no such entry.
fn limit_at(history: &History, i: usize) -> Option<u32> {
    match history.entries().get(i) {
        Some(Entry::Reopen { limit }) => Some(*limit),
        _ => None,
    }
}
