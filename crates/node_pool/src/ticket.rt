// Tickets: what a worker takes with it, and the entries that it brings back.
ghost use Rattle.std.specs.Prelude.{◌≡◌};
ghost use Rattle.search_core.specs.declared.entry.Entry.TheVariants.{Take, Branch, Prune, Offer};
ghost use Rattle.search_core.specs.declared.entry.Entry.TheVariants.{Study, Publish, Accept, Park};

use arch_model::{Architecture, VarId};
use redundancy_cut::Cut;
use rows::{Cube, Reason, Trace};
use search_core::Entry;

/// A node that a worker holds: what it takes with it.
#[derive(Clone, Copy)]
pub struct SearchTicket {
    /// The worker.
    pub worker: u32,
    /// The node.
    pub node: u32,
    /// Its cube.
    pub cube: Cube,
    /// The number of cuts that are known there.
    pub cuts: u32,
    /// The bound that is known there, in cost units, or None.
    pub bound: Option<u64>,
}

/// A candidate that a worker studies: what it takes with it.
#[derive(Clone, Copy)]
pub struct StudyTicket {
    /// The worker.
    pub worker: u32,
    /// The node.
    pub node: u32,
    /// The candidate.
    pub candidate: Architecture,
}

/// What a worker is handed.
#[derive(Clone, Copy)]
pub enum Work {
    /// A node to search.
    Node(SearchTicket),
    /// A candidate to study.
    Candidate(StudyTicket),
    /// There is nothing at the moment, but a worker still holds or studies something.
    Nothing,
    /// Nothing is left to do.
    Done,
}

/// A node can't be split, since the branchings are at their limit.
#[derive(Clone, Copy)]
pub struct AtLimit {
    /// The ticket, handed back.
    pub ticket: SearchTicket,
    /// The branchings.
    pub branchings: u32,
    /// Their limit.
    pub limit: u32,
}

impl SearchTicket {
    // The entry that hands it out.
    pub(crate) fn taken(&self) -> Entry
        ensures { result ≡ Take self.now.worker self.now.node self.now.cuts self.now.bound }
    {
        Entry::Take {
            worker: self.worker,
            node: self.node,
            cuts: self.cuts,
            bound: self.bound,
        }
    }

    // The entry that splits its node, after a trace.
    pub(crate) fn branched(&self, trace: Trace, var: VarId) -> Entry
        ensures { result ≡ Branch self.now.worker self.now.node trace var }
    {
        Entry::Branch {
            worker: self.worker,
            node: self.node,
            trace,
            var,
        }
    }

    // The entry that drops its node for a reason, after a trace.
    pub(crate) fn pruned(&self, trace: Trace, reason: Reason) -> Entry
        ensures { result ≡ Prune self.now.worker self.now.node trace reason }
    {
        Entry::Prune {
            worker: self.worker,
            node: self.node,
            trace,
            reason,
        }
    }

    // The entry that offers its node's cube, after a trace.
    pub(crate) fn offered(&self, trace: Trace) -> Entry
        ensures { result ≡ Offer self.now.worker self.now.node trace }
    {
        Entry::Offer {
            worker: self.worker,
            node: self.node,
            trace,
        }
    }

    // The entry that parks its node.
    pub(crate) fn parked(&self) -> Entry
        ensures { result ≡ Park self.now.worker self.now.node }
    {
        Entry::Park {
            worker: self.worker,
            node: self.node,
        }
    }
}

impl StudyTicket {
    // The entry that hands it out.
    pub(crate) fn taken(&self) -> Entry
        ensures { result ≡ Study self.now.worker self.now.node }
    {
        Entry::Study {
            worker: self.worker,
            node: self.node,
        }
    }

    // The entry that rejects its candidate with a cut.
    pub(crate) fn published(&self, cut: Cut) -> Entry
        ensures { result ≡ Publish self.now.worker self.now.node cut }
    {
        Entry::Publish {
            worker: self.worker,
            node: self.node,
            cut,
        }
    }

    // The entry that accepts its candidate, of a cost in cost units.
    pub(crate) fn accepted(&self, cost: u64) -> Entry
        ensures { result ≡ Accept self.now.worker self.now.node cost }
    {
        Entry::Accept {
            worker: self.worker,
            node: self.node,
            cost,
        }
    }
}
