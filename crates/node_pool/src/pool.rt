// Pools.
ghost use Rattle.std.specs.Prelude.{◌≡◌, ℕ, ◌<◌, ◌≤◌, length, true, false, IfOk, OnOk, OnErr};
ghost use Rattle.arch_model.specs.Library.{IsLibrary};
ghost use Rattle.rows.specs.Problem.{IsProblem};
ghost use Rattle.search_core.specs.declared.limits.TheConstants as limits;
ghost use Rattle.search_core.specs.State.{start_of};
ghost use Rattle.search_core.specs.History.{IsAllOpen};
ghost use Rattle.search_core.specs.Parts.{IsStateOf};
ghost use Rattle.search_core.specs.Answers.{answer_of};
ghost use Rattle.node_pool.specs.Pool.{IsPool, IsTeam, IsNewPool, Appends};
ghost use Rattle.node_pool.specs.Inner.Appending.{MayAppend};

use arch_model::Memory;
use incumbent::Best;
use rows::{CutList, Problem, variable_count};
use search_core::{Answer, Entry, History, State, start};
use std::alloc::Global;
use std::marker::Model;

/// The pool of a search: its state, and the history that leads to it from a base. Each value of the
/// type has a history of steps that are diligent for its number of analysts, change no limit, name
/// only workers of its team, and are at most 4 * (2b + 1), b the branchings (`IsPool`).
#[derive(Drop)]
pub struct Pool {
    pub(crate) problem: Problem,
    pub(crate) base: State,
    pub(crate) state: State,
    pub(crate) history: History,
    pub(crate) workers: u32,
    pub(crate) analysts: u32,
    pub(crate) short: bool,
}

impl Model for Pool {
    ghost use Rattle.rows.specs.contracts.problem.Problem.{the_row as the_problem};
    ghost use Rattle.search_core.specs.contracts.entry.Entry.{the_row as the_entry};
    ghost use Rattle.search_core.specs.Parts.{IsStateOf};
    ghost use Rattle.node_pool.specs.Parts.{PoolParts, pool_of};
    ghost use Rattle.node_pool.specs.Inner.Codes.{pool_code};

    ghost Value = { PoolParts };

    ghost coded = { pool_code the_problem.coded the_entry.coded };

    ghost use Rattle.node_pool.specs.Pool.{IsPool};

    ghost view = { λ a. pool_of a.problem a.base a.state a.history a.workers a.analysts a.short };

    ghost invariant = { λ a. IsStateOf a.problem a.state
        × IsPool (pool_of a.problem a.base a.state a.history a.workers a.analysts a.short) };
}

impl Pool {
    /// The pool of a search that begins at node 0 with nothing fixed, with a limit on branchings of
    /// at most 100000, 1 to 64 workers, and at most as many analysts. The only error is want of
    /// memory.
    pub fn new(
        alloc: Global,
        problem: &Problem,
        limit: u32,
        workers: u32,
        analysts: u32,
    ) -> Result<Pool, Memory>
        requires limit { limit ≤ limits.BRANCHINGS }
        requires team { IsTeam workers analysts }
        ensures { IfOk result
            (λ pool. IsNewPool problem.now (start_of limit) workers analysts pool) }
    {
        let base = start(alloc, problem, limit)?;
        let state = start(alloc, problem, limit)?;
        let problem = problem.copy()?;
        Ok(Pool {
            problem,
            base,
            state,
            history: History::new(alloc),
            workers,
            analysts,
            short: false,
        })
    }

    /// The pool of a search that goes on from a base, with an empty history. A legal history of the
    /// problem leads to the base, nothing in it is held, pending, under study or parked, and the
    /// state equals it. It takes no memory.
    pub fn from_base(
        alloc: Global,
        problem: Problem,
        base: State,
        state: State,
        workers: u32,
        analysts: u32,
    ) -> Pool
        requires state { IsStateOf problem state }
        requires base { base.search ≡ state.search }
        requires open { IsAllOpen base.search }
        requires team { IsTeam workers analysts }
        ensures { IsNewPool problem base.search workers analysts result }
    {
        Pool {
            problem,
            base,
            state,
            history: History::new(alloc),
            workers,
            analysts,
            short: false,
        }
    }

    /// Makes room for at least one more entry. All else stays. The only error is want of memory,
    /// and then all stays.
    pub fn reserve(&mut self) -> Result<(), Memory>
        ensures stays { self.new ≡ record self.old { spare = self.new.spare } }
        ensures ok { OnOk result (1 ≤ self.new.spare) }
        ensures err { OnErr result (self.new ≡ self.old) }
        ensures pool { IsPool self.new }
    {
        self.state.reserve()?;
        self.history.reserve()
    }

    // Appends an entry where there is room for it, and takes no memory.
    pub(crate) fn append(&mut self, entry: Entry)
        requires room { 1 ≤ self.old.spare }
        requires entry { MayAppend self.old entry }
        ensures { Appends self.old entry self.new }
    {
        let _count = variable_count(self.problem.library());
        self.state.apply(&self.problem, &entry);
        self.history.push_spare(entry);
    }

    /// The problem.
    pub fn problem(&self) -> &Problem
        ensures problem { result.now ≡ self.now.problem }
        ensures pool { IsPool self.now }
        ensures right { IsLibrary self.now.problem.library }
        ensures rows { IsProblem self.now.problem }
    {
        // Tells the prover that the library keeps its rules.
        let _count = variable_count(self.problem.library());
        &self.problem
    }

    /// The cuts, in the order in which they were learned.
    pub fn cuts(&self) -> &CutList
        ensures cuts { result.now.cuts ≡ self.now.state.cuts }
        ensures pool { IsPool self.now }
    {
        self.state.cuts()
    }

    /// How many workers there are.
    pub fn workers(&self) -> u32
        ensures workers { result ≡ self.now.workers }
        ensures pool { IsPool self.now }
    {
        self.workers
    }

    /// The answer, None where something is open, pending, held or under study.
    pub fn answer(&self) -> Option<Answer>
        ensures answer { result ≡ answer_of self.now.state }
        ensures pool { IsPool self.now }
    {
        self.state.answer()
    }

    /// How many branchings there were.
    pub fn branchings(&self) -> u32
        ensures branchings { result ≡ self.now.state.branchings }
        ensures pool { IsPool self.now }
    {
        self.state.branchings()
    }

    /// How many cuts there are.
    pub fn cut_count(&self) -> u32
        ensures cuts { result ≡ length self.now.state.cuts }
        ensures pool { IsPool self.now }
    {
        self.state.cuts().len()
    }

    /// Whether a worker met want of memory.
    pub fn short(&self) -> bool
        ensures short { result ≡ self.now.short }
        ensures pool { IsPool self.now }
    {
        self.short
    }

    /// A worker met want of memory. All else stays.
    pub fn set_short(&mut self)
        ensures { self.new ≡ record self.old { short = true } }
    {
        self.short = true;
    }

    /// The history, and the best architecture that was accepted, None where none was.
    pub fn into_history(self) -> (History, Option<Best>)
        ensures history { result.0.entries ≡ self.history }
        ensures best { result.1 ≡ self.state.best }
        ensures pool { IsPool self }
    {
        let best = self.state.best();
        (self.history, best)
    }
}
