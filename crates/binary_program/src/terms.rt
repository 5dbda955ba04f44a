// Which variables a row is over, and its terms before they are added up.
ghost use Rattle.std.specs.Prelude.{◌≡◌, ℕ, ◌+◌, ◌≤◌, ◌<◌, ◌^◌, ◌++◌, IfOk, OnOk, length, map};
ghost use Rattle.std.specs.Prelude.{pos, neg_ℤ, ◌-ℤ◌, unsigned_abs, nat_eq};
ghost use Rattle.std.specs.List.{enumerate_from};
ghost use Rattle.arch_model.specs.Member.{member_count};
ghost use Rattle.arch_model.specs.Pattern as pattern;
ghost use Rattle.arch_model.specs.Template.{instances_of};
ghost use Rattle.rows.specs.Row.{term};
ghost use Rattle.rows.specs.BaseRows as base;
ghost use Rattle.binary_program.specs.Inner.Terms as spec;

use arch_model::limits::{COMPONENTS, EDGES, MEMBERS};
use arch_model::{CompId, Edge, Library, Memory, VarId, demand, is_instance, supply};
use rows::{Term, member_cost, variable_count};
use std::alloc::Global;

/// Which edges of a template are meant.
#[derive(Clone, Copy)]
pub(crate) enum EdgeKind {
    /// Those into a component from instances of a type.
    Into { head: CompId, from: u32 },
    /// Those out of a component to instances of a type.
    OutOf { tail: CompId, to: u32 },
    /// Those from one component to another.
    Between { tail: CompId, head: CompId },
}

/// A term with coefficient 1.
pub(crate) fn plus(var: VarId) -> Term
    ensures { result ≡ base.plus var.0 }
{
    Term { var, coef: 1 }
}

/// A term with coefficient -1.
pub(crate) fn minus(var: VarId) -> Term
    ensures { result ≡ base.minus var.0 }
{
    Term { var, coef: -1 }
}

/// A term whose coefficient is minus a number.
pub(crate) fn minus_times(var: VarId, n: u64) -> Term
    requires { n ≤ 10 ^ 12 }
    ensures value { result ≡ term var.0 (neg_ℤ (pos n)) }
    ensures small { unsigned_abs result.coef ≤ 10 ^ 12 }
{
    Term {
        var,
        coef: -(n as i128),
    }
}

// Whether an edge is of a kind.
fn is_of_kind(lib: &Library, kind: EdgeKind, edge: &Edge) -> bool
    ensures { result ≡ spec.is_of_kind lib.now kind edge.now }
{
    match kind {
        EdgeKind::Into { head, from } => edge.head == head && is_instance(lib, from, edge.tail),
        EdgeKind::OutOf { tail, to } => edge.tail == tail && is_instance(lib, to, edge.head),
        EdgeKind::Between { tail, head } => edge.tail == tail && edge.head == head,
    }
}

/// The variable of edge number e.
pub(crate) fn edge_variable(lib: &Library, e: usize) -> VarId
    requires { e < length lib.now.edges }
    ensures { result.0 ≡ length lib.now.components + e }
{
    VarId((lib.components().len() + e) as u32)
}

/// The variables of the instances of a type, ascending.
pub(crate) fn instances(alloc: Global, lib: &Library, t: u32) -> Result<Vec<VarId>, Memory>
    ensures value { IfOk result (λ vars. spec.numbers_of vars.items ≡ instances_of lib.now.components t) }
    ensures variables { IfOk result (λ vars. spec.AreVariables (length lib.now.components) COMPONENTS vars.items) }
{
    let mut vars = Vec::new(alloc);
    for (c, component) in lib.components().iter().enumerate() {
        if component.of == t {
            vars.push(VarId(c as u32))?;
        }
    }
    Ok(vars)
}

/// The variables of the edges of a kind, ascending.
pub(crate) fn edges(alloc: Global, lib: &Library, kind: EdgeKind) -> Result<Vec<VarId>, Memory>
    ensures value { IfOk result
        (λ vars. spec.numbers_of vars.items ≡ base.edge_variables lib.now (spec.is_of_kind lib.now kind)) }
    ensures variables { IfOk result (λ vars. spec.AreVariables (member_count lib.now) EDGES vars.items) }
{
    let mut vars = Vec::new(alloc);
    for (e, edge) in lib.edges().iter().enumerate() {
        if is_of_kind(lib, kind, edge) {
            vars.push(edge_variable(lib, e))?;
        }
    }
    Ok(vars)
}

/// Appends a term with this coefficient for each of some variables.
pub(crate) fn push_terms(terms: &mut Vec<Term>, vars: &[VarId], coef: i128) -> Result<(), Memory>
    ensures { OnOk result
        (terms.new.items ≡ terms.old.items ++ map (λ v. term v coef) (spec.numbers_of vars.now)) }
{
    for var in vars {
        terms.push(Term { var: *var, coef })?;
    }
    Ok(())
}

/// Minus the cost of all present members.
pub(crate) fn cost_terms(alloc: Global, lib: &Library) -> Result<Vec<Term>, Memory>
    ensures value { IfOk result (λ terms. terms.items ≡ base.cost_terms lib.now) }
    ensures terms { IfOk result (λ terms. spec.AreTerms (member_count lib.now) MEMBERS terms.items) }
{
    let mut terms = Vec::new(alloc);
    for v in 0..variable_count(lib) {
        let var = VarId(v);
        terms.push(minus_times(var, member_cost(lib, var)))?;
    }
    Ok(terms)
}

/// The supply of all present components less their demand.
pub(crate) fn balance_terms(alloc: Global, lib: &Library) -> Result<Vec<Term>, Memory>
    ensures value { IfOk result (λ terms. terms.items
        ≡ map (λ p. term p.0 (pos p.1.supply -ℤ pos p.1.demand)) (enumerate_from 0 lib.now.components)) }
    ensures terms { IfOk result (λ terms. spec.AreTerms (member_count lib.now) COMPONENTS terms.items) }
{
    let mut terms = Vec::new(alloc);
    for (c, component) in lib.components().iter().enumerate() {
        terms.push(Term {
            var: VarId(c as u32),
            coef: component.supply as i128 - component.demand as i128,
        })?;
    }
    Ok(terms)
}

/// Appends what the edges into component i bring to it: the supplies of their tails.
pub(crate) fn push_supplies(terms: &mut Vec<Term>, lib: &Library, i: CompId) -> Result<(), Memory>
    ensures value { OnOk result (terms.new.items
        ≡ terms.old.items
        ++ map (λ p. term p.0 (pos (pattern.at_component lib.now (λ c. c.supply) p.1.tail.0)))
        (base.chosen_edges lib.now (λ e. nat_eq e.head.0 i.0))) }
    ensures terms { OnOk result ((k : ℕ) → spec.AreTerms (member_count lib.now) k terms.old.items
        → spec.AreTerms (member_count lib.now) (k + EDGES) terms.new.items) }
{
    for (e, edge) in lib.edges().iter().enumerate() {
        if edge.head == i {
            terms.push(Term {
                var: edge_variable(lib, e),
                coef: supply(lib, edge.tail) as i128,
            })?;
        }
    }
    Ok(())
}

/// Appends what the edges out of component i ask of it: minus the demands of their heads.
pub(crate) fn push_demands(terms: &mut Vec<Term>, lib: &Library, i: CompId) -> Result<(), Memory>
    ensures value { OnOk result (terms.new.items
        ≡ terms.old.items
        ++ map (λ p. term p.0 (neg_ℤ (pos (pattern.at_component lib.now (λ c. c.demand) p.1.head.0))))
        (base.chosen_edges lib.now (λ e. nat_eq e.tail.0 i.0))) }
    ensures terms { OnOk result ((k : ℕ) → spec.AreTerms (member_count lib.now) k terms.old.items
        → spec.AreTerms (member_count lib.now) (k + EDGES) terms.new.items) }
{
    for (e, edge) in lib.edges().iter().enumerate() {
        if edge.tail == i {
            terms.push(minus_times(edge_variable(lib, e), demand(lib, edge.head)))?;
        }
    }
    Ok(())
}
