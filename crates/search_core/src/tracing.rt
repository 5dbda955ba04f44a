// Judging what stands after a trace: Branch, Prune and Offer.
ghost use Rattle.std.specs.Prelude.{◌≡◌, ℕ, ◌<◌, ◌&&◌, nat_lt, ◌↔◌, false, IsTrue, OnOk, IfOk};
ghost use Rattle.std.specs.Prelude.{IfErr};
ghost use Rattle.std.specs.List.{All, list_all};
ghost use Rattle.arch_model.specs.Member.{member_count};
ghost use Rattle.rows.specs.Cube.{is_free, IsFull};
ghost use Rattle.rows.specs.Activity.{is_refuted};
ghost use Rattle.rows.specs.Known.{parts_of, has_row};
ghost use Rattle.rows.specs.Reason.{IsReason};
ghost use Rattle.search_core.specs.declared.limits.TheConstants as limits;
ghost use Rattle.search_core.specs.State.{known_at};
ghost use Rattle.search_core.specs.Step.{IsTraced, Branches, Prunes, Offers};
ghost use Rattle.search_core.specs.Parts.{IsStateOf};
ghost use Rattle.search_core.specs.Rules.{BranchBreaks, PruneBreaks, OfferBreaks, HeldFails};
ghost use Rattle.search_core.specs.Inner.Change.{CanMake, changed};
ghost use Rattle.search_core.specs.Inner.Judging.{reason_rule, IsTracedTo};
ghost use Rattle.search_core.specs.Inner.Nodes.{IsSpotOf};

use crate::change::Change;
use crate::follow::follow;
use crate::limits::WORKERS;
use crate::nodes::{Found, NodeState, Spot};
use crate::rule::Rule;
use crate::state::State;
use arch_model::VarId;
use rows::{Cube, Known, Problem, Reason, RowRef, Trace, has, refuted, together, variable_count};

// Whether a variable is one of the problem's and free in a cube.
fn is_free_variable(problem: &Problem, cube: &Cube, var: VarId) -> bool
    ensures { result ≡ (nat_lt var.0 (member_count problem.now.library) && is_free cube.now var.0) }
{
    var.0 < variable_count(problem.library()) && cube.value(var).is_none()
}

// Whether nothing is free in a cube.
fn is_full(problem: &Problem, cube: &Cube) -> bool
    ensures { IsTrue result ↔ IsFull (member_count problem.now.library) cube.now }
{
    for i in 0..variable_count(problem.library()) {
        if cube.value(VarId(i)).is_none() {
            return false;
        }
    }
    true
}

// Whether no base row is refuted in a cube.
fn base_stands(known: &Known, cube: &Cube) -> bool
    ensures { IsTrue result
        ↔ All (λ row. is_refuted row cube.now ≡ false) (parts_of known.now).problem.base }
{
    for i in 0..known.problem.base().len() as u32 {
        if refuted(known, RowRef::Base(i), cube) {
            return false;
        }
    }
    true
}

// Whether each row of a reason is known.
fn are_known(known: &Known, reason: &Reason) -> bool
    ensures all { result ≡ list_all (λ p. has_row (parts_of known.now) p.row) reason.now }
    ensures reason { IsReason reason.now }
{
    reason.pairs().iter().all(|p| has(known, p.row))
}

// The rule that a reason breaks first in a cube, or None where it stands.
fn judge_reason(known: &Known, reason: &Reason, cube: &Cube) -> Option<Rule>
    ensures rule { result ≡ reason_rule (parts_of known.now) reason.now cube.now }
    ensures reason { IsReason reason.now }
{
    if !are_known(known, reason) {
        return Some(Rule::Row);
    }
    if !together(known, reason, cube) {
        return Some(Rule::Reason);
    }
    None
}

// Where a trace led from a node that a worker holds: the node's spot, the cube after the trace, and
// what is known there.
#[derive(Clone, Copy)]
pub(crate) struct Traced {
    spot: Spot,
    after: Cube,
    cuts: u32,
    bound: Option<u64>,
}

impl State {
    // Where a trace leads from the cube of a node that the worker holds, or the first rule that is
    // broken on the way.
    fn judge_trace(
        &self,
        problem: &Problem,
        worker: u32,
        node: u32,
        trace: &Trace,
    ) -> Result<Traced, Rule>
        requires { IsStateOf problem.now self.now }
        ensures worker { OnOk result (worker < limits.WORKERS) }
        ensures traced { IfOk result
            (IsTracedTo problem.now self.now.search worker node trace.now) }
        ensures broken { IfErr result
            (λ rule. HeldFails problem.now self.now.search worker node trace.now rule) }
    {
        // Tells the prover that the library keeps its rules, and the bounds on its members.
        let _count = variable_count(problem.library());
        if worker >= WORKERS {
            return Err(Rule::Worker);
        }
        let Some((spot, held)) = self.held_at(node, worker) else {
            return Err(Rule::Node);
        };
        let known = Known {
            problem,
            cuts: &self.cuts,
            upto: held.cuts,
            bound: held.bound,
        };
        let after = follow(&known, held.cube, trace)?;
        Ok(Traced {
            spot,
            after,
            cuts: held.cuts,
            bound: held.bound,
        })
    }

    // What a Branch changes, or the first rule that it breaks.
    pub(crate) fn judge_branch(
        &self,
        problem: &Problem,
        worker: u32,
        node: u32,
        trace: &Trace,
        var: VarId,
    ) -> Result<Change, Rule>
        requires { IsStateOf problem.now self.now }
        ensures worker { OnOk result (worker < limits.WORKERS) }
        ensures can { IfOk result (CanMake self.now.search) }
        ensures fits { IfOk result (λ change. Branches problem.now self.now.search worker node
            trace.now var.0 (changed self.now.search change)) }
        ensures broken { IfErr result (λ rule.
            BranchBreaks problem.now self.now.search worker node trace.now var.0 rule) }
    {
        // Tells the prover that the library keeps its rules, and the bounds on its members.
        let _count = variable_count(problem.library());
        let traced = self.judge_trace(problem, worker, node, trace)?;
        if !is_free_variable(problem, &traced.after, var) {
            return Err(Rule::Free);
        }
        if self.branchings() >= self.limit() {
            return Err(Rule::Limit);
        }
        Ok(Change::Split(traced.spot, traced.after, var))
    }

    // What a Prune changes, or the first rule that it breaks.
    pub(crate) fn judge_prune(
        &self,
        problem: &Problem,
        worker: u32,
        node: u32,
        trace: &Trace,
        reason: &Reason,
    ) -> Result<Change, Rule>
        requires { IsStateOf problem.now self.now }
        ensures worker { OnOk result (worker < limits.WORKERS) }
        ensures can { IfOk result (CanMake self.now.search) }
        ensures fits { IfOk result (λ change. Prunes problem.now self.now.search worker node
            trace.now reason.now (changed self.now.search change)) }
        ensures broken { IfErr result (λ rule.
            PruneBreaks problem.now self.now.search worker node trace.now reason.now rule) }
    {
        let traced = self.judge_trace(problem, worker, node, trace)?;
        match self.reason_breaks(problem, &traced, reason) {
            Some(rule) => Err(rule),
            None => Ok(Change::Forget(traced.spot)),
        }
    }

    // The rule that a reason breaks first after a trace, by what is known there.
    fn reason_breaks(&self, problem: &Problem, traced: &Traced, reason: &Reason) -> Option<Rule>
        ensures rule { result ≡ reason_rule
            (known_at problem.now self.now.search traced.now.cuts traced.now.bound) reason.now
            traced.now.after }
        ensures reason { IsReason reason.now }
    {
        let known = Known {
            problem,
            cuts: &self.cuts,
            upto: traced.cuts,
            bound: traced.bound,
        };
        judge_reason(&known, reason, &traced.after)
    }

    // What an Offer changes, or the first rule that it breaks.
    pub(crate) fn judge_offer(
        &self,
        problem: &Problem,
        worker: u32,
        node: u32,
        trace: &Trace,
    ) -> Result<Change, Rule>
        requires { IsStateOf problem.now self.now }
        ensures worker { OnOk result (worker < limits.WORKERS) }
        ensures can { IfOk result (CanMake self.now.search) }
        ensures fits { IfOk result (λ change. Offers problem.now self.now.search worker node
            trace.now (changed self.now.search change)) }
        ensures broken { IfErr result (λ rule.
            OfferBreaks problem.now self.now.search worker node trace.now rule) }
    {
        let traced = self.judge_trace(problem, worker, node, trace)?;
        if !is_full(problem, &traced.after) {
            return Err(Rule::Full);
        }
        if !self.base_stands(problem, &traced.after) {
            return Err(Rule::Broken);
        }
        Ok(Change::Put(traced.spot, NodeState::Pending(traced.after)))
    }

    // Whether no base row is refuted in a cube.
    fn base_stands(&self, problem: &Problem, cube: &Cube) -> bool
        ensures { IsTrue result ↔ All (λ row. is_refuted row cube.now ≡ false) problem.now.base }
    {
        let known = Known {
            problem,
            cuts: &self.cuts,
            upto: 0,
            bound: None,
        };
        base_stands(&known, cube)
    }

    // A node that the worker holds, with the cube to which a legal trace leads from its own.
    pub(crate) fn traced(&self, problem: &Problem, worker: u32, node: u32, trace: &Trace) -> Found
        requires of { IsStateOf problem.now self.now }
        requires held { IsTraced problem.now self.now.search worker node trace.now }
        ensures spot { IsSpotOf self.now.search.nodes node result.spot }
        ensures cube { (t : IsTraced problem.now self.now.search worker node trace.now)
            → result.cube ≡ t.after }
    {
        // Tells the prover that the library keeps its rules, and the bounds on its members.
        let _count = variable_count(problem.library());
        let (spot, held) = self.held_at(node, worker).unwrap();
        let known = Known {
            problem,
            cuts: &self.cuts,
            upto: held.cuts,
            bound: held.bound,
        };
        Found {
            spot,
            cube: follow(&known, held.cube, trace).unwrap(),
        }
    }
}
