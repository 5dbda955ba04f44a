// Bounds of problems without base rows: of a network without types, whose cuts have no terms, so
// that each says 0 >= 1 and a reason may take it as often as any reason may take a row, and of
// sources that nothing but cuts asks for. Bounds of networks with edges are tested where problems
// are made from libraries.
ghost use Rattle.std.specs.Prelude.{◌≡◌, ◌<◌, ◌≤◌, ℕ, IfOk, OnOk, length};
ghost use Rattle.std.specs.List.{All};
ghost use Rattle.arch_model.specs.Member.{member_count};
ghost use Rattle.rows.specs.Known.{IsCutBelow, IsKnown, parts_of};
ghost use Rattle.rows.specs.Row.{IsSized};

use crate::{Bounded, ascend, branching_variable, lift};
use arch_model::limits::MEMBERS;
use arch_model::{
    Component, Library, MemberSet, Memory, Name, Role, Template, TypeRow, VarId, is_library,
};
use rows::{CUTS, Cube, CutList, CutRow, Known, Pair, Problem, RowRef, variable_count};
use std::alloc::Global;
use std::process::Abort;
use std::test::Fail;

// No rows: each vector is that of the empty architecture.
fn empty_problem(alloc: Global) -> Problem {
    let template = Template::new(Vec::new(alloc), Vec::new(alloc));
    let library = Library::new(
        Vec::new(alloc),
        Vec::new(alloc),
        template,
        Vec::new(alloc),
        Vec::new(alloc),
    );
    Problem::new(library, Vec::new(alloc))
}

// A number of cuts without terms, 0 >= 1 each.
fn broken_cuts(alloc: Global, count: u32) -> Result<CutList, Memory>
    requires { count < 1000 }
    ensures long { IfOk result (λ list. length list.cuts ≡ count) }
    ensures below { (n : ℕ) → IfOk result (λ list. All (IsCutBelow n) list.cuts) }
{
    let mut cuts = CutList::new(alloc);
    for _ in 0..count {
        cuts.push(CutRow::new(1))?;
    }
    Ok(cuts)
}

// What is known of a problem with the first of some cuts.
fn known<'a>(problem: &'a Problem, cuts: &'a CutList, upto: u32, bound: Option<u64>) -> Known<'a>
    requires upto { upto ≤ length cuts.now.cuts }
    requires below { (n : ℕ) → All (IsCutBelow n) cuts.now.cuts }
    ensures { IsKnown (parts_of result) }
{
    Known {
        problem,
        cuts,
        upto,
        bound,
    }
}

#[test]
fn a_reason_takes_what_is_known_and_no_more(rt: HostRuntime) -> Result<(), Fail> {
    let alloc = rt.alloc();
    let problem = empty_problem(alloc);
    let cuts = broken_cuts(alloc, 70)?;
    let whole = Cube::whole();
    // how many cuts are known, the bound, and how many pairs the reason has, 0 for none
    let table = [
        (0, None, 0),
        (0, Some(0), 1),
        (0, Some(1), 0),
        (2, Some(2_000_000_000_000), 3),
        (2, Some(2_000_000_000_001), 0),
        (70, None, 0),
        (70, Some(63_000_000_000_000), 64),
        (70, Some(63_000_000_000_001), 0),
        (70, Some(u64::MAX), 0),
    ];
    for (upto, bound, pairs) in table {
        match lift(alloc, &known(&problem, &cuts, upto, bound), &whole)? {
            Some(reason) => {
                assert_eq!(rt; reason.pairs().len(), pairs);
            }
            None => assert_eq!(rt; pairs, 0),
        }
    }
    Ok(())
}

#[test]
fn an_ascent_is_settled(rt: HostRuntime) -> Result<(), Fail> {
    let alloc = rt.alloc();
    let problem = empty_problem(alloc);
    let cuts = broken_cuts(alloc, 1)?;
    let whole = Cube::whole();
    let known = known(&problem, &cuts, 1, Some(1_000_000_000_000));
    let ascent = ascend(&known, &whole);
    assert_eq!(rt; ascent.pairs().len(), 2);
    assert_eq!(rt; ascent.residue(VarId(575)), 0);
    match ascent.settle(alloc, &known, &whole)? {
        Bounded::Refuted(reason) => {
            let last = Pair {
                row: RowRef::Cut(0),
                times: 1_000_000_000_000,
            };
            assert_eq!(rt; reason.pairs().last().copied(), Some(last));
        }
        Bounded::Open(_) => assert!(rt; false),
    }
    Ok(())
}

#[test]
fn there_is_nothing_to_branch_on(rt: HostRuntime) -> Result<(), Fail> {
    let alloc = rt.alloc();
    let problem = empty_problem(alloc);
    let cuts = broken_cuts(alloc, 0)?;
    let whole = Cube::whole();
    let known = known(&problem, &cuts, 0, None);
    let ascent = ascend(&known, &whole);
    assert_eq!(rt; branching_variable(&known, &whole, &MemberSet::new()), None);
    match ascent.settle(alloc, &known, &whole)? {
        Bounded::Refuted(_reason) => assert!(rt; false),
        Bounded::Open(spent) => assert_eq!(rt; spent.len(), 0),
    }
    Ok(())
}

// The problem of so many sources of one type, each of this cost, with no edge and no pattern.
fn sources(rt: &(impl Abort + AllocGlobal), max: u32, cost: u64) -> Result<Problem, Memory> {
    let alloc = rt.alloc();
    let role = Role::Source;
    let types = [TypeRow {
        name: Name::new("p"),
        role,
        max,
        cost,
        supply: 0,
        demand: 0,
        fail: 0,
    }]
    .to_vec(alloc)?;
    let mut components = Vec::new(alloc);
    for i in 0..max {
        components.push(Component {
            of: 0,
            index: i + 1,
            role,
            cost,
            supply: 0,
            demand: 0,
            fail: 0,
        })?;
    }
    let template = Template::new(components, Vec::new(alloc));
    let links = Vec::new(alloc);
    let patterns = Vec::new(alloc);
    let requirements = Vec::new(alloc);
    assert!(rt; is_library(&types, &links, &template, &patterns, &requirements));
    let library = Library::new(types, links, template, patterns, requirements);
    assert_eq!(rt; variable_count(&library), max);
    Ok(Problem::new(library, Vec::new(alloc)))
}

// The cut that asks for at least so many of some variables.
fn asks(rt: &impl Abort, least: i128, variables: &[u32]) -> CutRow
    requires { IsSized least }
{
    let mut cut = CutRow::new(least);
    for v in variables {
        assert!(rt; (*v as usize) < MEMBERS);
        assert_eq!(rt; cut.coef(VarId(*v)), 0);
        cut.put(VarId(*v), true);
    }
    cut
}

// Adds a cut over a problem's variables.
fn learn(rt: &impl Abort, problem: &Problem, cuts: &mut CutList, cut: CutRow) -> Result<(), Memory>
    requires { All (IsCutBelow (member_count problem.now.library)) cuts.old.cuts }
    ensures { OnOk result (All (IsCutBelow (member_count problem.now.library)) cuts.new.cuts) }
{
    let n = variable_count(problem.library()) as usize;
    assert!(rt; cut.plus().is_below(n));
    assert!(rt; cut.minus().is_below(n));
    assert!(rt; (cuts.len() as usize) < CUTS);
    cuts.push(cut)
}

// The pairs of the reason that no vector is cheaper than a bound, none where there is no reason.
fn reason_pairs(
    rt: &(impl Abort + AllocGlobal),
    problem: &Problem,
    cuts: &CutList,
    bound: u64,
) -> Result<Vec<Pair>, Memory>
    requires { All (IsCutBelow (member_count problem.now.library)) cuts.now.cuts }
{
    let known = Known {
        problem,
        cuts,
        upto: cuts.len(),
        bound: Some(bound),
    };
    match lift(rt.alloc(), &known, &Cube::whole())? {
        Some(reason) => reason.pairs().to_vec(rt.alloc()),
        None => Ok(Vec::new(rt.alloc())),
    }
}

// That of five sources of a cost each, of which cuts ask for one of 0, 1 and 2, for one of 0 and 3,
// and for one of 1 and 4: the cheapest have two.
fn two_of_five(
    rt: &(impl Abort + AllocGlobal),
    cost: u64,
    bound: u64,
) -> Result<Vec<Pair>, Memory> {
    let problem = sources(rt, 5, cost)?;
    let mut cuts = CutList::new(rt.alloc());
    learn(rt, &problem, &mut cuts, asks(rt, 1, &[0, 1, 2]))?;
    learn(rt, &problem, &mut cuts, asks(rt, 1, &[0, 3]))?;
    learn(rt, &problem, &mut cuts, asks(rt, 1, &[1, 4]))?;
    reason_pairs(rt, &problem, &cuts, bound)
}

// The ascent takes the first cut, which leaves nothing of 0 and 1 for the others, so it reaches the
// cost of one source. The second candidate takes the cuts of two helpers first, and reaches that of
// two, but no multiplier passes 10^12.
#[test]
fn rows_of_the_fewest_helpers_come_first(rt: HostRuntime) -> Result<(), Fail> {
    // the cost, the bound, how many pairs the reason has, and its last multiplier
    let table = [
        (10, 10, 2, 10),
        (10, 11, 3, 10_000),
        (10, 20, 3, 10_000),
        (10, 21, 0, 0),
        (1_000_000_000, 2_000_000_000, 3, 1_000_000_000_000),
        (1_000_000_000, 2_000_000_001, 0, 0),
        (10_000_000_000, 10_000_000_000, 2, 10_000_000_000),
        (10_000_000_000, 10_000_000_001, 0, 0),
        (1_000_000_000_000, 1_000_000_000_000, 2, 1_000_000_000_000),
        (1_000_000_000_000, 1_000_000_000_001, 0, 0),
    ];
    for (cost, bound, count, times) in table {
        let pairs = two_of_five(&rt, cost, bound)?;
        assert_eq!(rt; pairs.len(), count);
        assert_eq!(rt; pairs.last().map_or(0, |pair| pair.times), times);
    }
    Ok(())
}

// The cuts that ask for so much of each source.
fn each_asked(
    rt: &(impl Abort + AllocGlobal),
    problem: &Problem,
    least: i128,
) -> Result<CutList, Memory>
    requires { IsSized least }
    ensures { IfOk result (λ list. All (IsCutBelow (member_count problem.now.library)) list.cuts) }
{
    let mut cuts = CutList::new(rt.alloc());
    for v in 0..variable_count(problem.library()) {
        learn(rt, problem, &mut cuts, asks(rt, least, &[v]))?;
    }
    Ok(cuts)
}

// Each of 64 sources of cost 1 is asked for. A reason has room for 63 of the cuts.
#[test]
fn a_reason_has_no_more_than_64_pairs(rt: HostRuntime) -> Result<(), Fail> {
    let problem = sources(&rt, 64, 1)?;
    let cuts = each_asked(&rt, &problem, 1)?;
    assert_eq!(rt; reason_pairs(&rt, &problem, &cuts, 63)?.len(), 64);
    assert_eq!(rt; reason_pairs(&rt, &problem, &cuts, 64)?.len(), 0);
    Ok(())
}

// The greatest numbers that a cut, a cost, a multiplier and a bound may have.
#[test]
fn no_sum_of_the_greatest_numbers_wraps(rt: HostRuntime) -> Result<(), Fail> {
    let problem = sources(&rt, 64, 1_000_000_000_000)?;
    let cuts = each_asked(&rt, &problem, 10_000_000_000_000_000)?;
    assert_eq!(rt; reason_pairs(&rt, &problem, &cuts, u64::MAX)?.len(), 64);
    Ok(())
}
