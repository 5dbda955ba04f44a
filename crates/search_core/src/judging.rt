// The first rule that an entry breaks.
ghost use Rattle.std.specs.Prelude.{◌≡◌, ◌<◌, List, OnOk, IfOk, IfErr};
ghost use Rattle.incumbent.specs.Best.{best_cost};
ghost use Rattle.search_core.specs.declared.limits.TheConstants as limits;
ghost use Rattle.search_core.specs.Step.{Step, Takes, Studies, Parks, Reopens};
ghost use Rattle.search_core.specs.Parts.{IsStateOf};
ghost use Rattle.search_core.specs.Rules.{TakeBreaks, StudyBreaks, ParkBreaks, ReopenBreaks};
ghost use Rattle.search_core.specs.Rules.{FirstBroken, HasWeights};
ghost use Rattle.search_core.specs.Inner.Change.{CanMake, changed};

use crate::change::Change;
use crate::entry::Entry;
use crate::limits::{BRANCHINGS, WORKERS};
use crate::nodes::NodeState;
use crate::rule::Rule;
use crate::state::State;
use rows::Problem;

impl State {
    // The cost of the best, in cost units, or None where there is none.
    fn best_cost(&self) -> Option<u64>
        ensures { result ≡ best_cost self.now.search.best }
    {
        self.best.map(|best| best.cost)
    }

    // What a Take changes, or the first rule that it breaks.
    pub(crate) fn judge_take(
        &self,
        worker: u32,
        node: u32,
        cuts: u32,
        bound: Option<u64>,
    ) -> Result<Change, Rule>
        ensures worker { OnOk result (worker < limits.WORKERS) }
        ensures can { IfOk result (CanMake self.now.search) }
        ensures fits { IfOk result (λ change.
            Takes self.now.search worker node cuts bound (changed self.now.search change)) }
        ensures broken { IfErr result
            (λ rule. TakeBreaks self.now.search worker node cuts bound rule) }
    {
        if worker >= WORKERS {
            return Err(Rule::Worker);
        }
        let Some(found) = self.open_at(node) else {
            return Err(Rule::Node);
        };
        if cuts != self.cuts().len() {
            return Err(Rule::Cuts);
        }
        if bound != self.best_cost() {
            return Err(Rule::Bound);
        }
        let held = NodeState::Held {
            cube: found.cube,
            worker,
            cuts,
            bound,
        };
        Ok(Change::Put(found.spot, held))
    }

    // The same of a Study.
    pub(crate) fn judge_study(&self, worker: u32, node: u32) -> Result<Change, Rule>
        ensures worker { OnOk result (worker < limits.WORKERS) }
        ensures can { IfOk result (CanMake self.now.search) }
        ensures fits { IfOk result (λ change.
            Studies self.now.search worker node (changed self.now.search change)) }
        ensures broken { IfErr result (λ rule. StudyBreaks self.now.search worker node rule) }
    {
        if worker >= WORKERS {
            return Err(Rule::Worker);
        }
        let Some(found) = self.pending_at(node) else {
            return Err(Rule::Node);
        };
        let studied = NodeState::Studied {
            cube: found.cube,
            worker,
        };
        Ok(Change::Put(found.spot, studied))
    }

    // The same of a Park.
    pub(crate) fn judge_park(&self, worker: u32, node: u32) -> Result<Change, Rule>
        ensures worker { OnOk result (worker < limits.WORKERS) }
        ensures can { IfOk result (CanMake self.now.search) }
        ensures fits { IfOk result (λ change.
            Parks self.now.search worker node (changed self.now.search change)) }
        ensures broken { IfErr result (λ rule. ParkBreaks self.now.search worker node rule) }
    {
        if worker >= WORKERS {
            return Err(Rule::Worker);
        }
        let Some((spot, held)) = self.held_at(node, worker) else {
            return Err(Rule::Node);
        };
        if self.branchings() != self.limit() {
            return Err(Rule::Limit);
        }
        Ok(Change::Put(spot, NodeState::Parked(held.cube)))
    }

    // The same of a Reopen.
    pub(crate) fn judge_reopen(&self, limit: u32) -> Result<Change, Rule>
        ensures can { IfOk result (CanMake self.now.search) }
        ensures fits { IfOk result (λ change.
            Reopens self.now.search limit (changed self.now.search change)) }
        ensures broken { IfErr result (λ rule. ReopenBreaks self.now.search limit rule) }
    {
        if limit < self.limit() || limit > BRANCHINGS {
            return Err(Rule::Limit);
        }
        Ok(Change::Reopen(limit))
    }

    // What an entry changes, or the first rule that it breaks.
    pub(crate) fn judge(
        &self,
        problem: &Problem,
        entry: &Entry,
        weights: &[u128],
    ) -> Result<Change, Rule>
        requires of { IsStateOf problem.now self.now }
        requires weights { HasWeights problem.now self.now.search entry.now weights.now }
        ensures can { IfOk result (CanMake self.now.search) }
        ensures fits { IfOk result (λ change.
            Step problem.now self.now.search entry.now (changed self.now.search change)) }
        ensures broken { IfErr result
            (λ rule. FirstBroken problem.now self.now.search entry.now rule) }
    {
        match entry {
            Entry::Take {
                worker,
                node,
                cuts,
                bound,
            } => self.judge_take(*worker, *node, *cuts, *bound),
            Entry::Branch {
                worker,
                node,
                trace,
                var,
            } => self.judge_branch(problem, *worker, *node, trace, *var),
            Entry::Prune {
                worker,
                node,
                trace,
                reason,
            } => self.judge_prune(problem, *worker, *node, trace, reason),
            Entry::Offer {
                worker,
                node,
                trace,
            } => self.judge_offer(problem, *worker, *node, trace),
            Entry::Study { worker, node } => self.judge_study(*worker, *node),
            Entry::Publish { worker, node, cut } => {
                self.judge_publish(problem, *worker, *node, cut, weights)
            }
            Entry::Accept { worker, node, cost } => {
                self.judge_accept(problem, *worker, *node, *cost, weights)
            }
            Entry::Park { worker, node } => self.judge_park(*worker, *node),
            Entry::Reopen { limit } => self.judge_reopen(*limit),
        }
    }
}
