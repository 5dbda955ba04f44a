// The lines of a log, behind their first words.
ghost use Rattle.std.specs.Prelude.{◌≡◌, ℕ, List, map, length, Option, option_map};
ghost use Rattle.proof_log.specs.Inner.Reading.{Gives, Says, vars_at, limit_at, take_at};
ghost use Rattle.proof_log.specs.Inner.Reading.{branch_at, prune_at, offer_at, study_at};
ghost use Rattle.proof_log.specs.Inner.Reading.{accept_at, park_at, reopen_at, redundancy_at};
ghost use Rattle.proof_log.specs.Inner.Reading.{no_good_at, publish_at, optimal_at};
ghost use Rattle.proof_log.specs.Inner.Reading.{infeasible_at, node_limit_at, answer_at};
ghost use Rattle.proof_log.specs.Inner.Reading.{version_at, ascends_at};

use crate::fields::{
    amount_field, list_field, optional_field, reason_field, small_field, trace_field,
};
use crate::log_line::{LineError, LineFault, LogLine};
use crate::scan::{expect, finish, fitting, strip};
use arch_model::limits::COMPONENTS;
use arch_model::{CompSet, MemberSet, VarId};
use redundancy_cut::Cut;
use search_core::{Answer, Entry};
use std::alloc::Global;

/// What the number of a member in a redundancy cut's set stays below: a log lists components alone
/// there, and where no edge can fail the set of a right cut has no other members.
const SET_NUMBERS: u64 = COMPONENTS as u64;

/// The first line: the version, which has one text.
pub fn version(bytes: &[u8]) -> Result<LogLine, LineError>
    ensures { Says result (version_at bytes.now) }
{
    finish(expect(bytes, b" 1")?)?;
    Ok(LogLine::Version)
}

/// The numbers of components and edges.
pub fn vars(bytes: &[u8]) -> Result<LogLine, LineError>
    ensures { Says result (vars_at bytes.now) }
{
    let (components, rest) = small_field(bytes)?;
    let (edges, rest) = small_field(rest)?;
    finish(rest)?;
    let components = fitting(components)?;
    let edges = fitting(edges)?;
    Ok(LogLine::Vars(components, edges))
}

/// The limit on branchings.
pub fn limit(bytes: &[u8]) -> Result<LogLine, LineError>
    ensures { Says result (limit_at bytes.now) }
{
    let (limit, rest) = small_field(bytes)?;
    finish(rest)?;
    Ok(LogLine::Limit(fitting(limit)?))
}

/// A worker takes a node.
pub fn take(bytes: &[u8]) -> Result<LogLine, LineError>
    ensures { Says result (take_at bytes.now) }
{
    let (worker, rest) = small_field(bytes)?;
    let (node, rest) = small_field(rest)?;
    let (cuts, rest) = small_field(rest)?;
    let (bound, rest) = optional_field(rest)?;
    finish(rest)?;
    let worker = fitting(worker)?;
    let node = fitting(node)?;
    let cuts = fitting(cuts)?;
    let bound = fitting(bound)?;
    Ok(LogLine::Entry(Entry::Take {
        worker,
        node,
        cuts,
        bound,
    }))
}

/// A node is split.
pub fn branch(alloc: Global, bytes: &[u8]) -> Result<LogLine, LineError>
    ensures { Says result (branch_at bytes.now) }
{
    let (worker, rest) = small_field(bytes)?;
    let (node, rest) = small_field(rest)?;
    let (trace, rest) = trace_field(alloc, rest)?;
    let (var, rest) = small_field(rest)?;
    finish(rest)?;
    let worker = fitting(worker)?;
    let node = fitting(node)?;
    let trace = fitting(trace)?;
    let var = VarId(fitting(var)?);
    Ok(LogLine::Entry(Entry::Branch {
        worker,
        node,
        trace,
        var,
    }))
}

/// A node is dropped.
pub fn prune(alloc: Global, bytes: &[u8]) -> Result<LogLine, LineError>
    ensures { Says result (prune_at bytes.now) }
{
    let (worker, rest) = small_field(bytes)?;
    let (node, rest) = small_field(rest)?;
    let (trace, rest) = trace_field(alloc, rest)?;
    let (reason, rest) = reason_field(alloc, rest)?;
    finish(rest)?;
    let worker = fitting(worker)?;
    let node = fitting(node)?;
    let trace = fitting(trace)?;
    let reason = fitting(reason)?;
    Ok(LogLine::Entry(Entry::Prune {
        worker,
        node,
        trace,
        reason,
    }))
}

/// A node becomes a candidate.
pub fn offer(alloc: Global, bytes: &[u8]) -> Result<LogLine, LineError>
    ensures { Says result (offer_at bytes.now) }
{
    let (worker, rest) = small_field(bytes)?;
    let (node, rest) = small_field(rest)?;
    let (trace, rest) = trace_field(alloc, rest)?;
    finish(rest)?;
    let worker = fitting(worker)?;
    let node = fitting(node)?;
    let trace = fitting(trace)?;
    Ok(LogLine::Entry(Entry::Offer {
        worker,
        node,
        trace,
    }))
}

/// A worker studies a candidate.
pub fn study(bytes: &[u8]) -> Result<LogLine, LineError>
    ensures { Says result (study_at bytes.now) }
{
    let (worker, rest) = small_field(bytes)?;
    let (node, rest) = small_field(rest)?;
    finish(rest)?;
    let worker = fitting(worker)?;
    let node = fitting(node)?;
    Ok(LogLine::Entry(Entry::Study { worker, node }))
}

/// A candidate is accepted.
pub fn accept(bytes: &[u8]) -> Result<LogLine, LineError>
    ensures { Says result (accept_at bytes.now) }
{
    let (worker, rest) = small_field(bytes)?;
    let (node, rest) = small_field(rest)?;
    let (cost, rest) = amount_field(rest)?;
    finish(rest)?;
    let worker = fitting(worker)?;
    let node = fitting(node)?;
    let cost = fitting(cost)?;
    Ok(LogLine::Entry(Entry::Accept { worker, node, cost }))
}

/// A node is put aside.
pub fn park(bytes: &[u8]) -> Result<LogLine, LineError>
    ensures { Says result (park_at bytes.now) }
{
    let (worker, rest) = small_field(bytes)?;
    let (node, rest) = small_field(rest)?;
    finish(rest)?;
    let worker = fitting(worker)?;
    let node = fitting(node)?;
    Ok(LogLine::Entry(Entry::Park { worker, node }))
}

/// The search goes on.
pub fn reopen(bytes: &[u8]) -> Result<LogLine, LineError>
    ensures { Says result (reopen_at bytes.now) }
{
    let (limit, rest) = small_field(bytes)?;
    finish(rest)?;
    let limit = fitting(limit)?;
    Ok(LogLine::Entry(Entry::Reopen { limit }))
}

// A list has to ascend.
fn ascending(ascends: bool) -> Result<(), LineError>
    ensures { Gives (λ x. x) result (ascends_at ascends) }
{
    if ascends {
        return Ok(());
    }
    Err(LineError::Fault(LineFault::Order))
}

// The rest of a line that publishes a redundancy cut.
fn redundancy(worker: Option<u32>, node: Option<u32>, bytes: &[u8]) -> Result<LogLine, LineError>
    ensures { Says result (redundancy_at worker node bytes.now) }
{
    let (requirement, rest) = small_field(bytes)?;
    let (set, rest) = match list_field::<MemberSet>(rest, SET_NUMBERS) {
        Ok(read) => read,
        Err(e) => return Err(e),
    };
    let (far, rest) = match list_field::<CompSet>(rest, COMPONENTS as u64) {
        Ok(read) => read,
        Err(e) => return Err(e),
    };
    finish(rest)?;
    let worker = fitting(worker)?;
    let node = fitting(node)?;
    let requirement = fitting(requirement)?;
    let (set, set_ascends) = fitting(set)?;
    let (far, far_ascends) = fitting(far)?;
    ascending(set_ascends && far_ascends)?;
    let cut = Cut::Redundancy {
        requirement,
        set,
        far,
    };
    Ok(LogLine::Entry(Entry::Publish { worker, node, cut }))
}

// The rest of a line that publishes a no-good.
fn no_good(worker: Option<u32>, node: Option<u32>, bytes: &[u8]) -> Result<LogLine, LineError>
    ensures { Says result (no_good_at worker node bytes.now) }
{
    let (requirement, rest) = small_field(bytes)?;
    let (cone, rest) = match list_field::<CompSet>(rest, COMPONENTS as u64) {
        Ok(read) => read,
        Err(e) => return Err(e),
    };
    finish(rest)?;
    let worker = fitting(worker)?;
    let node = fitting(node)?;
    let requirement = fitting(requirement)?;
    let (cone, ascends) = fitting(cone)?;
    ascending(ascends)?;
    let cut = Cut::NoGood { requirement, cone };
    Ok(LogLine::Entry(Entry::Publish { worker, node, cut }))
}

/// A candidate teaches a cut.
pub fn publish(bytes: &[u8]) -> Result<LogLine, LineError>
    ensures { Says result (publish_at bytes.now) }
{
    let (worker, rest) = small_field(bytes)?;
    let (node, rest) = small_field(rest)?;
    if let Some(rest) = strip(rest, b" redundancy") {
        return redundancy(worker, node, rest);
    }
    no_good(worker, node, expect(rest, b" nogood")?)
}

// The numbers of an optimal answer.
fn optimal(bytes: &[u8]) -> Result<LogLine, LineError>
    ensures { Says result (optimal_at bytes.now) }
{
    let (cost, rest) = amount_field(bytes)?;
    let (branchings, rest) = small_field(rest)?;
    let (cuts, rest) = small_field(rest)?;
    finish(rest)?;
    let cost = fitting(cost)?;
    let branchings = fitting(branchings)?;
    let cuts = fitting(cuts)?;
    Ok(LogLine::Closing(Answer::Optimal { cost }, branchings, cuts))
}

// The numbers of an answer that nothing is admissible.
fn infeasible(bytes: &[u8]) -> Result<LogLine, LineError>
    ensures { Says result (infeasible_at bytes.now) }
{
    let (branchings, rest) = small_field(bytes)?;
    let (cuts, rest) = small_field(rest)?;
    finish(rest)?;
    let branchings = fitting(branchings)?;
    let cuts = fitting(cuts)?;
    Ok(LogLine::Closing(Answer::Infeasible, branchings, cuts))
}

// The numbers of an answer that the limit was met.
fn node_limit(bytes: &[u8]) -> Result<LogLine, LineError>
    ensures { Says result (node_limit_at bytes.now) }
{
    let (incumbent, rest) = optional_field(bytes)?;
    let (branchings, rest) = small_field(rest)?;
    let (cuts, rest) = small_field(rest)?;
    finish(rest)?;
    let incumbent = fitting(incumbent)?;
    let branchings = fitting(branchings)?;
    let cuts = fitting(cuts)?;
    Ok(LogLine::Closing(Answer::NodeLimit { incumbent }, branchings, cuts))
}

/// The closing line.
pub fn answer(bytes: &[u8]) -> Result<LogLine, LineError>
    ensures { Says result (answer_at bytes.now) }
{
    if let Some(rest) = strip(bytes, b" optimal") {
        return optimal(rest);
    }
    if let Some(rest) = strip(bytes, b" infeasible none") {
        return infeasible(rest);
    }
    node_limit(expect(bytes, b" nodelimit")?)
}
