// Outcomes: what a worker brings back to the pool, one entry each. Each call needs room for an
// entry (`reserve`) and takes no memory.
ghost use Rattle.std.specs.Prelude.{◌≡◌, ◌↔◌, ◌<◌, ◌≤◌, IsTrue, OnOk, OnErr, IfErr};
ghost use Rattle.arch_model.specs.Library.{IsLibrary};
ghost use Rattle.arch_model.specs.Architecture.{cost_of};
ghost use Rattle.arch_model.specs.Admissible.{IsAdmissible};
ghost use Rattle.rows.specs.Problem.{IsProblem};
ghost use Rattle.rows.specs.Outcome.{MayBranch, MayPrune, MayOffer};
ghost use Rattle.search_core.specs.declared.entry.Entry.TheVariants.{Branch, Prune, Offer};
ghost use Rattle.search_core.specs.declared.entry.Entry.TheVariants.{Publish, Accept, Park};
ghost use Rattle.node_pool.specs.Pool.{IsPool, Appends};
ghost use Rattle.node_pool.specs.Tickets.{IsHeldFor, IsStudiedFor, MustPublish, IsAtLimit};
ghost use Rattle.node_pool.specs.Tickets.{known_for};

use crate::pool::Pool;
use crate::ticket::{AtLimit, SearchTicket, StudyTicket};
use arch_model::{Library, VarId, cost};
use redundancy_cut::Cut;
use rows::{Reason, Trace};

impl Pool {
    // The library, and what the type of a pool keeps.
    pub(crate) fn library(&self) -> &Library
        ensures library { result.now ≡ self.now.problem.library }
        ensures pool { IsPool self.now }
        ensures right { IsLibrary self.now.problem.library }
        ensures problem { IsProblem self.now.problem }
    {
        self.problem().library()
    }

    // The limit on branchings.
    fn limit(&self) -> u32
        ensures { result ≡ self.now.state.limit }
    {
        self.state.limit()
    }

    // Whether the branchings are at their limit.
    fn is_at_limit(&self) -> bool
        ensures { IsTrue result ↔ (self.now.state.branchings ≡ self.now.state.limit) }
    {
        self.branchings() == self.limit()
    }

    /// A worker splits the node of a ticket that fits, at a free variable of the cube to which a
    /// legal trace leads. That is quiet, and its ascent isn't refuted. The error comes exactly
    /// where the branchings are at their limit: it hands the ticket back, and all stays.
    pub fn branch(&mut self, ticket: SearchTicket, trace: Trace, var: VarId) -> Result<(), AtLimit>
        requires room { 1 ≤ self.old.spare }
        requires ticket { IsHeldFor self.old ticket }
        requires branch { MayBranch (known_for self.old ticket) ticket.cube trace var.0 }
        ensures ok { OnOk result
            (Appends self.old (Branch ticket.worker ticket.node trace var) self.new) }
        ensures below { OnOk result (self.old.state.branchings < self.old.state.limit) }
        ensures at_limit { IfErr result (IsAtLimit self.old ticket) }
        ensures err { OnErr result (self.new ≡ self.old) }
    {
        let _library = self.library();
        if self.is_at_limit() {
            return Err(AtLimit {
                ticket,
                branchings: self.branchings(),
                limit: self.limit(),
            });
        }
        self.append(ticket.branched(trace, var));
        Ok(())
    }

    /// A worker drops the node of a ticket that fits, for a reason of rows that are known there,
    /// whose combination is refuted in the cube to which a legal trace leads.
    pub fn prune(&mut self, ticket: SearchTicket, trace: Trace, reason: Reason)
        requires room { 1 ≤ self.old.spare }
        requires ticket { IsHeldFor self.old ticket }
        requires prune { MayPrune (known_for self.old ticket) ticket.cube trace reason }
        ensures { Appends self.old (Prune ticket.worker ticket.node trace reason) self.new }
    {
        let _library = self.library();
        let _pairs = reason.pairs();
        self.append(ticket.pruned(trace, reason));
    }

    /// A worker offers the cube to which a legal trace leads from that of a ticket that fits, as a
    /// complete candidate: nothing is free there, and no base row is refuted.
    pub fn offer(&mut self, ticket: SearchTicket, trace: Trace)
        requires room { 1 ≤ self.old.spare }
        requires ticket { IsHeldFor self.old ticket }
        requires offer { MayOffer (known_for self.old ticket) ticket.cube trace }
        ensures { Appends self.old (Offer ticket.worker ticket.node trace) self.new }
    {
        let _library = self.library();
        self.append(ticket.offered(trace));
    }

    /// A worker rejects the candidate of a ticket that fits, and publishes the cut that must be
    /// published for it.
    pub fn publish(&mut self, ticket: StudyTicket, cut: Cut)
        requires room { 1 ≤ self.old.spare }
        requires ticket { IsStudiedFor self.old ticket }
        requires cut { MustPublish self.old ticket cut }
        ensures { Appends self.old (Publish ticket.worker ticket.node cut) self.new }
    {
        let _library = self.library();
        self.append(ticket.published(cut));
    }

    /// A worker accepts the candidate of a ticket that fits, which is admissible. The entry names
    /// its cost, in cost units.
    pub fn accept(&mut self, ticket: StudyTicket)
        requires room { 1 ≤ self.old.spare }
        requires ticket { IsStudiedFor self.old ticket }
        requires admissible { IsAdmissible self.old.problem.library ticket.candidate }
        ensures { Appends self.old (Accept ticket.worker ticket.node
            (cost_of self.old.problem.library ticket.candidate)) self.new }
    {
        let cost = cost(self.library(), &ticket.candidate);
        self.append(ticket.accepted(cost));
    }

    /// A worker parks the node of a ticket that fits, since the branchings are at their limit.
    pub fn park(&mut self, ticket: SearchTicket)
        requires room { 1 ≤ self.old.spare }
        requires ticket { IsHeldFor self.old ticket }
        requires limit { self.old.state.branchings ≡ self.old.state.limit }
        ensures { Appends self.old (Park ticket.worker ticket.node) self.new }
    {
        let _library = self.library();
        self.append(ticket.parked());
    }
}
