// Runs of small libraries, compared with their logs as worked out by hand; tickets in a later turn;
// and a pool behind a gate.
ghost use Rattle.std.specs.Prelude.{◌≡◌, ◌+◌, ◌≤◌, ◌<◌, true, length, OnOk, IfOk};
ghost use Rattle.arch_model.specs.Name.{IsTypeName};
ghost use Rattle.rows.specs.Known.{parts_of};
ghost use Rattle.rows.specs.Reason.{AllThere, is_together};
ghost use Rattle.rows.specs.Outcome.{MayBranch};
ghost use Rattle.propagate.specs.Closed.{Closes};
ghost use Rattle.node_pool.specs.Tickets.{IsHeldFor, IsStudiedFor, known_for};
ghost use Rattle.node_pool.specs.Topic.{topic_of};

use crate::{Pool, SearchTicket, StudyTicket, Work, laws};
use analyst::{Verdict, study};
use arch_model::{
    CompId, Library, LinkRow, Memory, Name, Pattern, Requirement, Role, TypeRow, VarId, is_library,
};
use binary_program::problem_of;
use pool_gate::{Turn, open_gate};
use proof_log::{closing, header, write_entry};
use propagate::{Closed, close};
use rows::{
    Cube, CutList, Known, Pair, Problem, Reason, RowRef, Trace, has, together, variable_count,
};
use search_core::limits::BRANCHINGS;
use search_core::{Entry, start};
use std::alloc::Global;
use std::process::Abort;
use std::sync::Wait;
use std::test::Fail;
use template::{expand, has_few_components};

// The problem of a library.
fn problem(
    rt: &(impl Abort + AllocGlobal),
    types: &[TypeRow],
    links: &[LinkRow],
    patterns: &[Pattern],
    requirements: &[Requirement],
) -> Result<Problem, Memory> {
    let alloc = rt.alloc();
    assert!(rt; types.len() <= 64);
    assert!(rt; has_few_components(types));
    let template = expand(alloc, types, links)?;
    assert!(rt; is_library(types, links, &template, patterns, requirements));
    let types = types.to_vec(alloc)?;
    let links = links.to_vec(alloc)?;
    let patterns = patterns.to_vec(alloc)?;
    let requirements = requirements.to_vec(alloc)?;
    let library = Library::new(types, links, template, patterns, requirements);
    problem_of(alloc, library)
}

// Some of these many instances of one type, each of this cost, of which one at least is present.
// Components are variables 0 and so on; row 0 asks for one.
fn one_of(
    rt: &(impl Abort + AllocGlobal),
    role: Role,
    max: u32,
    cost: u64,
) -> Result<Problem, Memory> {
    let types = [TypeRow {
        name: Name::new("p"),
        role,
        max,
        cost,
        supply: 0,
        demand: 0,
        fail: 0,
    }];
    let patterns = [Pattern::Count {
        of: 0,
        min: 1,
        max: None,
    }];
    problem(rt, &types, &[], &patterns, &[])
}

// A component of cost 7, which has to be there.
fn single(rt: &(impl Abort + AllocGlobal)) -> Result<Problem, Memory> {
    one_of(rt, Role::Middle, 1, 7)
}

// Two sources of cost 3, of which one has to be there.
fn pair(rt: &(impl Abort + AllocGlobal)) -> Result<Problem, Memory> {
    one_of(rt, Role::Source, 2, 3)
}

// A type of which there is one instance, of this cost, which fails this often, in parts per million.
fn row(name: &str, role: Role, cost: u64, fail: u32) -> TypeRow
    requires { IsTypeName name.now }
{
    TypeRow {
        name: Name::new(name),
        role,
        max: 1,
        cost,
        supply: 0,
        demand: 0,
        fail,
    }
}

fn source_and_sink() -> [TypeRow; 2] {
    [row("s", Role::Source, 1, 1000), row("t", Role::Sink, 0, 0)]
}

// A source of cost 1 that fails with 1000 ppm, and a sink that it is linked to, whose weight is to
// be 0. Variables are s.1, t.1 and their edge; rows 0 and 1 ask for the edge's ends, row 2 for the
// sink.
fn one_way(rt: &(impl Abort + AllocGlobal)) -> Result<Problem, Memory> {
    let types = source_and_sink();
    let links = [LinkRow {
        from: 0,
        to: 1,
        cost: 0,
        fail: 0,
    }];
    let requirements = [Requirement {
        sink: CompId(1),
        bound: 0,
    }];
    problem(rt, &types, &links, &[], &requirements)
}

// Appends the lines of entries.
fn write_all(entries: &[Entry], out: &mut Vec<u8>) -> Result<(), Memory> {
    for entry in entries {
        write_entry(entry, out)?;
    }
    Ok(())
}

// The log of a pool with this limit. It has a closing line where there is an answer.
fn log_of(alloc: Global, pool: Pool, limit: u32) -> Result<Vec<u8>, Memory> {
    let mut out = Vec::new(alloc);
    header(pool.problem(), limit, &mut out)?;
    let answer = pool.answer();
    let (branchings, cuts) = (pool.branchings(), pool.cut_count());
    let (history, _) = pool.into_history();
    write_all(history.entries(), &mut out)?;
    if let Some(answer) = answer {
        closing(&answer, branchings, cuts, &mut out)?;
    }
    Ok(out)
}

// What is known at a ticket's node.
fn known<'a>(pool: &'a Pool, ticket: &SearchTicket) -> Known<'a>
    ensures { parts_of result ≡ known_for pool.now ticket.now }
{
    Known {
        problem: pool.problem(),
        cuts: pool.cuts(),
        upto: ticket.cuts,
        bound: ticket.bound,
    }
}

// Closes a ticket's cube.
fn closed(alloc: Global, pool: &Pool, ticket: &SearchTicket) -> Result<Closed, Memory>
    requires { IsHeldFor pool.now ticket.now }
    ensures { IfOk result (Closes (known_for pool.now ticket.now) ticket.now.cube) }
{
    laws::tickets_are_ready();
    let _count = variable_count(pool.problem().library());
    close(alloc, &known(pool, ticket), ticket.cube)
}

// One row that is refuted in a cube, as a reason.
fn reason(
    rt: &(impl Abort + AllocGlobal),
    known: &Known,
    cube: &Cube,
    row: RowRef,
) -> Result<Reason, Memory>
    ensures there { IfOk result (AllThere (parts_of known.now)) }
    ensures refuted { IfOk result (λ reason. is_together (parts_of known.now) reason cube.now ≡ true) }
{
    let reason = Reason::new([Pair { row, times: 1 }].to_vec(rt.alloc())?);
    assert!(rt; has(known, row));
    assert!(rt; together(known, &reason, cube));
    Ok(reason)
}

// Splits a ticket's node at variable 0, or parks it where the branchings are at their limit.
fn branch_or_park(pool: &mut Pool, ticket: SearchTicket, trace: Trace)
    requires room { 1 ≤ pool.old.spare }
    requires ticket { IsHeldFor pool.old ticket }
    requires branch { MayBranch (known_for pool.old ticket) ticket.cube trace 0 }
    ensures workers { pool.new.workers ≡ pool.old.workers }
    ensures topic { topic_of pool.new ≡ topic_of pool.old }
    ensures count { length pool.new.history ≡ length pool.old.history + 1 }
{
    if let Err(at_limit) = pool.branch(ticket, trace, VarId(0)) {
        pool.park(at_limit.ticket);
    }
}

// A search of a ticket's node by propagation: its one entry. Variable 0 is split, where no bound is
// known.
fn search(
    rt: &(impl Abort + AllocGlobal),
    pool: &mut Pool,
    ticket: SearchTicket,
) -> Result<(), Fail>
    requires { IsHeldFor pool.old ticket }
    ensures workers { pool.new.workers ≡ pool.old.workers }
    ensures topic { topic_of pool.new ≡ topic_of pool.old }
    ensures count { OnOk result (length pool.new.history ≡ length pool.old.history + 1) }
{
    pool.reserve()?;
    match closed(rt.alloc(), pool, &ticket)? {
        Closed::Quiet { cube, trace } => {
            assert!(rt; ticket.bound.is_none());
            assert!(rt; 0 < variable_count(pool.problem().library()));
            assert!(rt; cube.value(VarId(0)).is_none());
            branch_or_park(pool, ticket, trace);
        }
        Closed::Full { trace, .. } => pool.offer(ticket, trace),
        Closed::Refuted { cube, trace, row } => {
            let reason = reason(rt, &known(pool, &ticket), &cube, row)?;
            pool.prune(ticket, trace, reason);
        }
    }
    Ok(())
}

// A study of a ticket's candidate: its one entry.
fn judge(alloc: Global, pool: &mut Pool, ticket: StudyTicket) -> Result<(), Memory>
    requires { IsStudiedFor pool.old ticket }
    ensures { pool.new.workers ≡ pool.old.workers }
{
    pool.reserve()?;
    laws::tickets_are_ready();
    let _count = variable_count(pool.problem().library());
    match study(alloc, pool.problem(), &ticket.candidate) {
        Verdict::Meets => pool.accept(ticket),
        Verdict::Breaks(cut) => pool.publish(ticket, cut),
    }
    Ok(())
}

// A worker takes work, if there is any, and does it. Whether it did any.
fn work(rt: &(impl Abort + AllocGlobal), pool: &mut Pool, worker: u32) -> Result<bool, Fail>
    requires { worker < pool.old.workers }
    ensures { pool.new.workers ≡ pool.old.workers }
{
    pool.reserve()?;
    match pool.take(worker) {
        Work::Node(ticket) => search(rt, pool, ticket)?,
        Work::Candidate(ticket) => judge(rt.alloc(), pool, ticket)?,
        _ => return Ok(false),
    }
    Ok(true)
}

// A worker takes a node.
fn take_node(
    rt: &(impl Abort + AllocGlobal),
    pool: &mut Pool,
    worker: u32,
) -> Result<SearchTicket, Memory>
    requires { worker < pool.old.workers }
    ensures topic { topic_of pool.new ≡ topic_of pool.old }
    ensures count { OnOk result (length pool.new.history ≡ length pool.old.history + 1) }
    ensures ticket { IfOk result (IsHeldFor pool.new) }
{
    pool.reserve()?;
    match pool.take(worker) {
        Work::Node(ticket) => Ok(ticket),
        _ => panic!(rt; "a node is open"),
    }
}

// A worker takes a candidate.
fn take_candidate(
    rt: &(impl Abort + AllocGlobal),
    pool: &mut Pool,
    worker: u32,
) -> Result<StudyTicket, Memory>
    requires { worker < pool.old.workers }
    ensures topic { topic_of pool.new ≡ topic_of pool.old }
    ensures ticket { IfOk result (IsStudiedFor pool.new) }
{
    pool.reserve()?;
    match pool.take(worker) {
        Work::Candidate(ticket) => Ok(ticket),
        _ => panic!(rt; "a candidate is pending"),
    }
}

// The first worker goes on to the end.
fn finish(rt: &(impl Abort + AllocGlobal), pool: &mut Pool) -> Result<(), Fail>
    requires { 1 ≤ pool.old.workers }
{
    for _ in 0..16 {
        if !work(rt, pool, 0)? {
            break;
        }
    }
    Ok(())
}

// Compares one worker's log with the one that was worked out by hand.
fn expect_log(
    rt: &(impl Abort + AllocGlobal),
    problem: &Problem,
    limit: u32,
    words: &str,
) -> Result<(), Fail>
    requires { limit ≤ BRANCHINGS }
{
    let mut pool = Pool::new(rt.alloc(), problem, limit, 1, 1)?;
    finish(rt, &mut pool)?;
    let log = log_of(rt.alloc(), pool, limit)?;
    assert_eq!(rt; log.as_slice(), words.as_bytes());
    Ok(())
}

// One component of cost 7 with limit 0: the root is a candidate at once.
const SINGLE: &str = "archex-log 1\nvars 1 0\nlimit 0\n\
    take 0 0 0 none\noffer 0 0 b0\nstudy 0 0\naccept 0 0 7\n\
    answer optimal 7 0 0\n";

#[test]
fn a_single_component_is_optimal(rt: HostRuntime) -> Result<(), Fail> {
    let problem = single(&rt)?;
    expect_log(&rt, &problem, 0, SINGLE)
}

// Two components of cost 3: one side has the best, and the other is pruned by its cost.
#[test]
fn one_of_two_components_is_optimal(rt: HostRuntime) -> Result<(), Fail> {
    let problem = pair(&rt)?;
    let words = "archex-log 1\nvars 2 0\nlimit 4\n\
        take 0 0 0 none\nbranch 0 0 - 0\n\
        take 0 2 0 none\noffer 0 2 b0\nstudy 0 2\naccept 0 2 3\n\
        take 0 1 0 3\nprune 0 1 - u*1\n\
        answer optimal 3 1 0\n";
    expect_log(&rt, &problem, 4, words)
}

// The same with limit 0: the branching is refused, and the node parked.
#[test]
fn a_spent_limit_parks_the_node(rt: HostRuntime) -> Result<(), Fail> {
    let problem = pair(&rt)?;
    let words = "archex-log 1\nvars 2 0\nlimit 0\n\
        take 0 0 0 none\npark 0 0\n\
        answer nodelimit none 0 0\n";
    expect_log(&rt, &problem, 0, words)
}

// A sink whose bound is 0: both candidates are rejected by the cuts that must be published.
#[test]
fn rejected_candidates_publish_their_cuts(rt: HostRuntime) -> Result<(), Fail> {
    let problem = one_way(&rt)?;
    let words = "archex-log 1\nvars 2 1\nlimit 8\n\
        take 0 0 0 none\nbranch 0 0 b2 0\n\
        take 0 2 0 none\noffer 0 2 b0\nstudy 0 2\npublish 0 2 redundancy 0 - 0\n\
        take 0 1 1 none\noffer 0 1 c0\nstudy 0 1\npublish 0 1 redundancy 0 0 -\n\
        answer infeasible none 1 2\n";
    expect_log(&rt, &problem, 8, words)
}

// A pool over a base that is the start.
fn based(alloc: Global, problem: Problem, limit: u32) -> Result<Pool, Memory>
    requires { limit ≤ BRANCHINGS }
    ensures { IfOk result (λ pool. pool.workers ≡ 1) }
{
    let base = start(alloc, &problem, limit)?;
    let state = start(alloc, &problem, limit)?;
    Ok(Pool::from_base(alloc, problem, base, state, 1, 1))
}

// A search that goes on from the start is one from the start.
#[test]
fn a_search_goes_on_from_a_base(rt: HostRuntime) -> Result<(), Fail> {
    let problem = single(&rt)?;
    let mut pool = based(rt.alloc(), problem, 0)?;
    finish(&rt, &mut pool)?;
    let log = log_of(rt.alloc(), pool, 0)?;
    assert_eq!(rt; log.as_slice(), SINGLE.as_bytes());
    Ok(())
}

// The best that was accepted comes with the history.
#[test]
fn the_best_comes_with_the_history(rt: HostRuntime) -> Result<(), Fail> {
    let problem = single(&rt)?;
    let mut pool = Pool::new(rt.alloc(), &problem, 0, 1, 1)?;
    finish(&rt, &mut pool)?;
    let (history, best) = pool.into_history();
    assert_eq!(rt; history.entries().len(), 4);
    assert_eq!(rt; best.map(|best| best.cost), Some(7));
    Ok(())
}

// What a worker holds or studies, by number.
fn node_in_hand(pool: &Pool, worker: u32) -> Option<u32> {
    match pool.held(worker) {
        Some(Work::Node(ticket)) => Some(ticket.node),
        Some(Work::Candidate(ticket)) => Some(ticket.node),
        _ => None,
    }
}

// A pool of two workers, of which the first is an analyst.
fn two_workers(alloc: Global, problem: &Problem) -> Result<Pool, Memory>
    ensures { IfOk result (λ pool. pool.workers ≡ 2) }
{
    Pool::new(alloc, problem, 8, 2, 1)
}

// The same after worker 1 branched.
fn branched_pool(rt: &(impl Abort + AllocGlobal), problem: &Problem) -> Result<Pool, Fail>
    ensures { IfOk result (λ pool. pool.workers ≡ 2) }
{
    let mut pool = two_workers(rt.alloc(), problem)?;
    work(rt, &mut pool, 1)?;
    Ok(pool)
}

// The same after worker 1 has offered node 2.
fn offered_pool(rt: &(impl Abort + AllocGlobal), problem: &Problem) -> Result<Pool, Fail>
    ensures { IfOk result (λ pool. pool.workers ≡ 2) }
{
    let mut pool = branched_pool(rt, problem)?;
    work(rt, &mut pool, 1)?;
    Ok(pool)
}

// The same after worker 0 has studied it.
fn studied_pool(rt: &(impl Abort + AllocGlobal), problem: &Problem) -> Result<Pool, Fail>
    ensures { IfOk result (λ pool. pool.workers ≡ 2) }
{
    let mut pool = offered_pool(rt, problem)?;
    work(rt, &mut pool, 0)?;
    Ok(pool)
}

// A pool for one of two components, of which worker 0 holds both sides.
fn both_held(rt: &(impl Abort + AllocGlobal)) -> Result<Pool, Fail> {
    let mut pool = branched_pool(rt, &pair(rt)?)?;
    take_node(rt, &mut pool, 0)?;
    take_node(rt, &mut pool, 0)?;
    Ok(pool)
}

// Worker 0 searches the node that it has in hand.
fn search_in_hand(rt: &(impl Abort + AllocGlobal), pool: &mut Pool) -> Result<(), Fail> {
    match pool.held(0) {
        Some(Work::Node(ticket)) => search(rt, pool, ticket),
        _ => panic!(rt; "a node is in hand"),
    }
}

// Who took nothing has nothing.
#[test]
fn an_idle_worker_has_nothing_in_hand(rt: HostRuntime) -> Result<(), Fail> {
    let pool = branched_pool(&rt, &pair(&rt)?)?;
    assert!(rt; node_in_hand(&pool, 0).is_none());
    Ok(())
}

// The last node that a worker holds or studies is in hand, whatever else it holds.
#[test]
fn the_last_node_is_in_hand(rt: HostRuntime) -> Result<(), Fail> {
    let pool = both_held(&rt)?;
    assert_eq!(rt; node_in_hand(&pool, 0), Some(2));
    Ok(())
}

// The one before it is in hand next.
#[test]
fn the_node_before_is_in_hand_next(rt: HostRuntime) -> Result<(), Fail> {
    let mut pool = both_held(&rt)?;
    search_in_hand(&rt, &mut pool)?;
    assert_eq!(rt; node_in_hand(&pool, 0), Some(1));
    Ok(())
}

// So is a candidate that a worker studies beside a node of a lower number, and not another worker's.
#[test]
fn a_candidate_is_in_hand(rt: HostRuntime) -> Result<(), Fail> {
    let mut pool = offered_pool(&rt, &pair(&rt)?)?;
    take_candidate(&rt, &mut pool, 0)?;
    take_node(&rt, &mut pool, 0)?;
    assert_eq!(rt; node_in_hand(&pool, 0), Some(2));
    assert!(rt; node_in_hand(&pool, 1).is_none());
    Ok(())
}

// After one worker's publish its ticket fits no more, and another worker's still does.
#[test]
fn a_ticket_fits_while_its_node_is_in_hand(rt: HostRuntime) -> Result<(), Fail> {
    let mut pool = offered_pool(&rt, &one_way(&rt)?)?;
    let search = take_node(&rt, &mut pool, 1)?;
    let study = take_candidate(&rt, &mut pool, 0)?;
    assert!(rt; pool.fits_study(&study));
    judge(rt.alloc(), &mut pool, study)?;
    assert!(rt; !pool.fits_study(&study));
    assert!(rt; pool.fits(&search, &CutList::new(rt.alloc())));
    Ok(())
}

// A ticket that was taken after another worker's publish knows its cut, and fits only with a list
// that has it.
#[test]
fn a_ticket_fits_with_its_cuts(rt: HostRuntime) -> Result<(), Fail> {
    let mut pool = studied_pool(&rt, &one_way(&rt)?)?;
    let ticket = take_node(&rt, &mut pool, 1)?;
    let mut cuts = CutList::new(rt.alloc());
    assert!(rt; !pool.fits(&ticket, &cuts));
    pool.copy_cuts(&mut cuts)?;
    assert_eq!(rt; cuts.len(), 1);
    assert!(rt; pool.fits(&ticket, &cuts));
    Ok(())
}

// A pool for one of two components, of which worker 1 holds the root.
fn root_held(rt: &(impl Abort + AllocGlobal)) -> Result<Pool, Fail>
    ensures { IfOk result (λ pool. pool.workers ≡ 2) }
{
    let mut pool = two_workers(rt.alloc(), &pair(rt)?)?;
    take_node(rt, &mut pool, 1)?;
    Ok(pool)
}

// Nothing is there for a worker while another one holds the root.
#[test]
fn a_worker_waits_for_another(rt: HostRuntime) -> Result<(), Fail> {
    let mut pool = root_held(&rt)?;
    pool.reserve()?;
    assert!(rt; matches!(pool.take(0), Work::Nothing));
    Ok(())
}

// The flag of want of memory is down until it is set.
#[test]
fn the_flag_stays_where_it_is_set(rt: HostRuntime) -> Result<(), Fail> {
    let mut pool = root_held(&rt)?;
    assert!(rt; !pool.short());
    pool.set_short();
    assert!(rt; pool.short());
    Ok(())
}

// A pool behind a gate: a node is taken in one turn, and offered in the next.
fn two_turns(rt: &(impl Abort + AllocGlobal + Wait), problem: &Problem) -> Result<Pool, Fail> {
    let pool = Pool::new(rt.alloc(), problem, 0, 1, 1)?;
    let Ok((gate, seat)) = open_gate(rt.alloc(), pool, 1) else {
        panic!(rt; "there is memory")
    };
    let Turn {
        value: mut pool,
        seat,
    } = gate.turn(rt, seat);
    assert_eq!(rt; pool.workers(), 1);
    let ticket = take_node(rt, &mut pool, 0)?;
    let seat = gate.give(Turn { value: pool, seat });
    let Turn {
        value: mut pool,
        seat,
    } = gate.turn(rt, seat);
    assert!(rt; pool.fits(&ticket, &CutList::new(rt.alloc())));
    search(rt, &mut pool, ticket)?;
    let seat = gate.give(Turn { value: pool, seat });
    Ok(gate.close(seat))
}

#[test]
fn a_pool_goes_through_a_gate(rt: HostRuntime) -> Result<(), Fail> {
    let problem = single(&rt)?;
    let pool = two_turns(&rt, &problem)?;
    let log = log_of(rt.alloc(), pool, 0)?;
    let words = "archex-log 1\nvars 1 0\nlimit 0\ntake 0 0 0 none\noffer 0 0 b0\n";
    assert_eq!(rt; log.as_slice(), words.as_bytes());
    Ok(())
}
