// Tickets in a later turn, and copying the cuts.
ghost use Rattle.std.specs.Prelude.{◌≡◌, ◌↔◌, IsTrue, IsNone, IfSome, IfNone, OnOk, OnErr};
ghost use Rattle.search_core.specs.Step.{IsHeldBy, IsStudied};
ghost use Rattle.node_pool.specs.Tickets.{IsHeldFor, IsStudiedFor, BeginAlike, Fits};
ghost use Rattle.node_pool.specs.Holding.{IsIdle, HasWork};

use crate::pool::Pool;
use crate::ticket::{SearchTicket, StudyTicket, Work};
use arch_model::Memory;
use rows::{CutList, CutRow};
use search_core::Sought;

// Whether two cuts are the same.
fn are_same(one: &CutRow, other: &CutRow) -> bool
    ensures { IsTrue result ↔ (one.now ≡ other.now) }
{
    one == other
}

// Whether two lists both begin with the same cuts, this many.
fn begin_alike(count: u32, some: &CutList, others: &CutList) -> bool
    ensures { IsTrue result ↔ BeginAlike count some.now.cuts others.now.cuts }
{
    if some.len() < count {
        return false;
    }
    if others.len() < count {
        return false;
    }
    for i in 0..count {
        if !are_same(&some.get(i), &others.get(i)) {
            return false;
        }
    }
    true
}

impl Pool {
    // The ticket of a node that a worker holds, None where it doesn't hold it.
    fn search_ticket(&self, worker: u32, node: u32) -> Option<SearchTicket>
        ensures some { IfSome result (λ t. (t.worker ≡ worker) × (t.node ≡ node)
            × IsHeldFor self.now t) }
        ensures none { IfNone result (IsHeldBy self.now.state worker node → ⊥) }
    {
        match self.state.held(node, worker) {
            Some(held) => Some(SearchTicket {
                worker,
                node,
                cube: held.cube,
                cuts: held.cuts,
                bound: held.bound,
            }),
            None => None,
        }
    }

    // The ticket of a candidate that a worker studies, None where it doesn't study it.
    fn study_ticket(&self, worker: u32, node: u32) -> Option<StudyTicket>
        ensures some { IfSome result (λ t. (t.worker ≡ worker) × (t.node ≡ node)
            × IsStudiedFor self.now t) }
        ensures none { IfNone result (IsStudied self.now.state worker node → ⊥) }
    {
        match self.state.studied(node, worker) {
            Some(candidate) => Some(StudyTicket {
                worker,
                node,
                candidate,
            }),
            None => None,
        }
    }

    // Whether the pool holds a ticket's node for its worker, with its cube, cuts and bound.
    fn is_held_for(&self, ticket: &SearchTicket) -> bool
        ensures { IsTrue result ↔ IsHeldFor self.now ticket.now }
    {
        let Some(held) = self.search_ticket(ticket.worker, ticket.node) else {
            return false;
        };
        if held.cube != ticket.cube {
            return false;
        }
        if held.cuts != ticket.cuts {
            return false;
        }
        held.bound == ticket.bound
    }

    // Whether a list and the pool's cuts both begin with the same cuts, this many.
    fn begins_like(&self, cuts: &CutList, count: u32) -> bool
        ensures { IsTrue result ↔ BeginAlike count cuts.now.cuts self.now.state.cuts }
    {
        begin_alike(count, cuts, self.state.cuts())
    }

    /// Whether the pool still holds a ticket's node for its worker, with the ticket's cube, number
    /// of cuts and bound, and `cuts` and the pool's cuts both begin with the same cuts, as many as
    /// the ticket knows.
    pub fn fits(&self, ticket: &SearchTicket, cuts: &CutList) -> bool
        ensures fits { IsTrue result ↔ Fits self.now ticket.now cuts.now.cuts }
    {
        if !self.is_held_for(ticket) {
            return false;
        }
        self.begins_like(cuts, ticket.cuts)
    }

    /// Whether a ticket's node is still under study by its worker, with the ticket's candidate.
    pub fn fits_study(&self, ticket: &StudyTicket) -> bool
        ensures fits { IsTrue result ↔ IsStudiedFor self.now ticket.now }
    {
        let Some(studied) = self.study_ticket(ticket.worker, ticket.node) else {
            return false;
        };
        if studied.candidate.comps() != ticket.candidate.comps() {
            return false;
        }
        studied.candidate.edges() == ticket.candidate.edges()
    }

    /// The ticket of the node of the greatest number that a worker holds or studies, None exactly
    /// where it holds and studies nothing.
    pub fn held(&self, worker: u32) -> Option<Work>
        ensures some { IfSome result (HasWork self.now worker) }
        ensures none { IsNone result ↔ IsIdle self.now worker }
    {
        let Some(node) = self.last(Sought::Of(worker)) else {
            return None;
        };
        match self.search_ticket(worker, node) {
            Some(ticket) => Some(Work::Node(ticket)),
            None => Some(Work::Candidate(self.study_ticket(worker, node).unwrap())),
        }
    }

    /// Makes a list, whatever it was, that of the pool's cuts. The only error is want of memory,
    /// and then the list stays.
    pub fn copy_cuts(&self, into: &mut CutList) -> Result<(), Memory>
        ensures ok { OnOk result (into.new.cuts ≡ self.now.state.cuts) }
        ensures err { OnErr result (into.new ≡ into.old) }
    {
        let copy = self.cuts().copy()?;
        *into = copy;
        Ok(())
    }
}
