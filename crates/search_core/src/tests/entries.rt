// Entries as the tables of the tests have them.
use crate::Entry;
use arch_model::{CompId, CompSet, MemberSet, Memory, VarId};
use redundancy_cut::Cut;
use rows::{Pair, Reason, RowRef, Trace};
use std::alloc::Global;

pub(crate) const B0: RowRef = RowRef::Base(0);

pub(crate) const B1: RowRef = RowRef::Base(1);

pub(crate) const B2: RowRef = RowRef::Base(2);

pub(crate) const C0: RowRef = RowRef::Cut(0);

// What an entry of the tables is, where a trace has at most one step, a reason one row, and a cut
// at most member 0 and far component 0.
#[derive(Clone, Copy)]
enum Kind {
    Take {
        cuts: u32,
        bound: Option<u64>,
    },
    Branch {
        step: Option<RowRef>,
        var: u32,
    },
    Prune {
        row: RowRef,
    },
    Offer {
        step: Option<RowRef>,
    },
    Study,
    Publish {
        requirement: u32,
        member: bool,
        far: bool,
    },
    Accept {
        cost: u64,
    },
    Park,
    Reopen {
        limit: u32,
    },
}

// An entry of the tables, by a worker on a node.
#[derive(Clone, Copy)]
pub(crate) struct TableEntry {
    worker: u32,
    node: u32,
    kind: Kind,
}

impl TableEntry {
    // The same entry by another worker.
    pub(crate) fn by(self, worker: u32) -> TableEntry {
        TableEntry {
            worker,
            node: self.node,
            kind: self.kind,
        }
    }
}

// An entry by worker 0.
fn line(node: u32, kind: Kind) -> TableEntry {
    TableEntry {
        worker: 0,
        node,
        kind,
    }
}

pub(crate) fn take(node: u32, cuts: u32, bound: Option<u64>) -> TableEntry {
    line(node, Kind::Take { cuts, bound })
}

pub(crate) fn branch(node: u32, step: Option<RowRef>, var: u32) -> TableEntry {
    line(node, Kind::Branch { step, var })
}

pub(crate) fn prune(node: u32, row: RowRef) -> TableEntry {
    line(node, Kind::Prune { row })
}

pub(crate) fn offer(node: u32, step: Option<RowRef>) -> TableEntry {
    line(node, Kind::Offer { step })
}

pub(crate) fn study(node: u32) -> TableEntry {
    line(node, Kind::Study)
}

pub(crate) fn publish(node: u32, requirement: u32, member: bool, far: bool) -> TableEntry {
    line(
        node,
        Kind::Publish {
            requirement,
            member,
            far,
        },
    )
}

pub(crate) fn accept(node: u32, cost: u64) -> TableEntry {
    line(node, Kind::Accept { cost })
}

pub(crate) fn park(node: u32) -> TableEntry {
    line(node, Kind::Park)
}

pub(crate) fn reopen(limit: u32) -> TableEntry {
    line(0, Kind::Reopen { limit })
}

// A trace of one step or none.
fn trace(alloc: Global, step: Option<RowRef>) -> Result<Trace, Memory> {
    let steps = match step {
        Some(row) => [row].to_vec(alloc)?,
        None => Vec::new(alloc),
    };
    Ok(Trace::new(steps))
}

// A reason of one row, taken once.
fn reason(alloc: Global, row: RowRef) -> Result<Reason, Memory> {
    Ok(Reason::new([Pair { row, times: 1 }].to_vec(alloc)?))
}

// A redundancy cut with member 0 or none, and far component 0 or none.
fn cut(requirement: u32, member: bool, far: bool) -> Cut {
    let mut set = MemberSet::new();
    if member {
        set.put(VarId(0));
    }
    let mut comps = CompSet::new();
    if far {
        comps.put(CompId(0));
    }
    Cut::Redundancy {
        requirement,
        set,
        far: comps,
    }
}

// The entry that a table's stands for.
pub(crate) fn entry_of(alloc: Global, line: TableEntry) -> Result<Entry, Memory> {
    let worker = line.worker;
    let node = line.node;
    match line.kind {
        Kind::Take { cuts, bound } => Ok(Entry::Take {
            worker,
            node,
            cuts,
            bound,
        }),
        Kind::Branch { step, var } => Ok(Entry::Branch {
            worker,
            node,
            trace: trace(alloc, step)?,
            var: VarId(var),
        }),
        Kind::Prune { row } => Ok(Entry::Prune {
            worker,
            node,
            trace: trace(alloc, None)?,
            reason: reason(alloc, row)?,
        }),
        Kind::Offer { step } => Ok(Entry::Offer {
            worker,
            node,
            trace: trace(alloc, step)?,
        }),
        Kind::Study => Ok(Entry::Study { worker, node }),
        Kind::Publish {
            requirement,
            member,
            far,
        } => Ok(Entry::Publish {
            worker,
            node,
            cut: cut(requirement, member, far),
        }),
        Kind::Accept { cost } => Ok(Entry::Accept { worker, node, cost }),
        Kind::Park => Ok(Entry::Park { worker, node }),
        Kind::Reopen { limit } => Ok(Entry::Reopen { limit }),
    }
}
