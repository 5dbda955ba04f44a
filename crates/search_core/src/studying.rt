// Judging what stands on a candidate under study: Accept and Publish.
ghost use Rattle.std.specs.Prelude.{◌≡◌, ℕ, ◌<◌, ◌≤◌, ◌^◌, unsigned_abs, ◌↔◌, slice_index, length};
ghost use Rattle.std.specs.Prelude.{IsTrue, OnOk, IfOk, IfErr, IfSome, IfNone};
ghost use Rattle.arch_model.specs.Member.{member_count};
ghost use Rattle.rows.specs.Row.{row_of_cut};
ghost use Rattle.rows.specs.Cube.{IsFull};
ghost use Rattle.rows.specs.Activity.{greatest_activity, is_refuted};
ghost use Rattle.rows.specs.Known.{IsCutBelow};
ghost use Rattle.search_core.specs.declared.limits.TheConstants as limits;
ghost use Rattle.search_core.specs.Step.{IsStudied, Accepts, Publishes};
ghost use Rattle.search_core.specs.Parts.{IsStateOf};
ghost use Rattle.search_core.specs.Rules.{AcceptBreaks, PublishBreaks, AreItsWeights};
ghost use Rattle.search_core.specs.Inner.Change.{CanMake, changed};
ghost use Rattle.search_core.specs.Inner.Judging.{AreWithin, IsStudyAt, requirement_of};

use crate::candidate::candidate_in;
use crate::change::Change;
use crate::limits::WORKERS;
use crate::nodes::Spot;
use crate::rule::Rule;
use crate::state::State;
use arch_model::{Architecture, Requirement, cost};
use redundancy_cut::{Cut, is_right, row_of};
use rows::{Cube, CutRow, Problem, variable_count};

// What a cut's sum comes to in a cube in which nothing is free: the variables with coefficient 1
// that are at 1, less those with -1.
fn value_of_cut(problem: &Problem, cut: &CutRow, cube: &Cube) -> i128
    requires full { IsFull (member_count problem.now.library) cube.now }
    requires below { IsCutBelow (member_count problem.now.library) cut.now }
    ensures value { result ≡ greatest_activity (row_of_cut cut.now) cube.now }
    ensures small { unsigned_abs result ≤ 2 ^ 118 }
{
    // Tells the prover that the library keeps its rules, and the bounds on its members.
    let _count = variable_count(problem.library());
    let ones = cube.ones();
    let plus = cut.plus().intersection(&ones).len();
    let minus = cut.minus().intersection(&ones).len();
    plus as i128 - minus as i128
}

// Whether a cut's row is refuted in a cube in which nothing is free.
fn is_cut_refuted(problem: &Problem, cut: &CutRow, cube: &Cube) -> bool
    requires full { IsFull (member_count problem.now.library) cube.now }
    requires below { IsCutBelow (member_count problem.now.library) cut.now }
    ensures { result ≡ is_refuted (row_of_cut cut.now) cube.now }
{
    value_of_cut(problem, cut, cube) < cut.least()
}

// Whether each weight is at most the bound of the requirement at its place.
fn are_within(requirements: &[Requirement], weights: &[u128]) -> bool
    requires { length weights.now ≡ length requirements.now }
    ensures { IsTrue result ↔ AreWithin requirements.now weights.now }
{
    for (i, r) in requirements.iter().enumerate() {
        if weights[i] > r.bound as u128 {
            return false;
        }
    }
    true
}

// The weight of a cut's requirement, 0 where there is no such requirement.
fn weight_for(cut: &Cut, weights: &[u128]) -> u128
    ensures { result ≡ slice_index weights.now (requirement_of cut.now) }
{
    let number = match cut {
        Cut::Redundancy { requirement, .. } => *requirement,
        Cut::NoGood { requirement, .. } => *requirement,
    };
    match weights.get(number as usize) {
        Some(weight) => *weight,
        None => 0,
    }
}

// A candidate that a worker studies, with its node's spot and cube.
#[derive(Clone, Copy)]
pub(crate) struct Study {
    pub(crate) spot: Spot,
    pub(crate) cube: Cube,
    pub(crate) candidate: Architecture,
}

impl State {
    // What a worker studies in a node, None where it doesn't study it.
    pub(crate) fn study_of(&self, node: u32, worker: u32) -> Option<Study>
        ensures some { IfSome result (IsStudyAt self.now worker node) }
        ensures none { IfNone result (IsStudied self.now.search worker node → ⊥) }
    {
        match self.studied_at(node, worker) {
            Some(found) => Some(Study {
                spot: found.spot,
                cube: found.cube,
                candidate: candidate_in(self.components, self.edges, &found.cube),
            }),
            None => None,
        }
    }

    // What an Accept changes, or the first rule that it breaks.
    pub(crate) fn judge_accept(
        &self,
        problem: &Problem,
        worker: u32,
        node: u32,
        price: u64,
        weights: &[u128],
    ) -> Result<Change, Rule>
        requires of { IsStateOf problem.now self.now }
        requires weights { AreItsWeights problem.now self.now.search worker node weights.now }
        ensures worker { OnOk result (worker < limits.WORKERS) }
        ensures can { IfOk result (CanMake self.now.search) }
        ensures fits { IfOk result (λ change. Accepts problem.now self.now.search worker node price
            (changed self.now.search change)) }
        ensures broken { IfErr result (λ rule.
            AcceptBreaks problem.now self.now.search worker node price rule) }
    {
        let lib = problem.library();
        // Tells the prover that the library keeps its rules, and the bounds on its members.
        let _count = variable_count(lib);
        if worker >= WORKERS {
            return Err(Rule::Worker);
        }
        let Some(study) = self.study_of(node, worker) else {
            return Err(Rule::Node);
        };
        if !are_within(lib.requirements(), weights) {
            return Err(Rule::Weight);
        }
        if price != cost(lib, &study.candidate) {
            return Err(Rule::Cost);
        }
        Ok(Change::Accept(study.spot, price, study.candidate))
    }

    // What a Publish changes, or the first rule that it breaks.
    pub(crate) fn judge_publish(
        &self,
        problem: &Problem,
        worker: u32,
        node: u32,
        cut: &Cut,
        weights: &[u128],
    ) -> Result<Change, Rule>
        requires of { IsStateOf problem.now self.now }
        requires weights { AreItsWeights problem.now self.now.search worker node weights.now }
        ensures worker { OnOk result (worker < limits.WORKERS) }
        ensures can { IfOk result (CanMake self.now.search) }
        ensures fits { IfOk result (λ change. Publishes problem.now self.now.search worker node
            cut.now (changed self.now.search change)) }
        ensures broken { IfErr result (λ rule.
            PublishBreaks problem.now self.now.search worker node cut.now rule) }
    {
        // Tells the prover that the library keeps its rules, and the bounds on its members.
        let _count = variable_count(problem.library());
        if worker >= WORKERS {
            return Err(Rule::Worker);
        }
        let Some(study) = self.study_of(node, worker) else {
            return Err(Rule::Node);
        };
        if !is_right(problem, cut, &study.candidate, weight_for(cut, weights)) {
            return Err(Rule::Cut);
        }
        let row = row_of(problem, cut, &study.candidate);
        if !is_cut_refuted(problem, &row, &study.cube) {
            return Err(Rule::Refute);
        }
        Ok(Change::Learn(study.spot, row))
    }
}
