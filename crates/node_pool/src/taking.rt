// Handing out work.
ghost use Rattle.std.specs.Prelude.{◌≡◌, ◌↔◌, ℕ, ◌<◌, ◌≤◌, false, Some, IsSome, IfSome, IfNone};
ghost use Rattle.std.specs.FinMap as finmap;
ghost use Rattle.rows.specs.Parts.{CubeParts};
ghost use Rattle.incumbent.specs.Best.{best_cost};
ghost use Rattle.search_core.specs.Node as node_is;
ghost use Rattle.search_core.specs.Node.{IsCandidateCube};
ghost use Rattle.search_core.specs.Candidate.{candidate_of};
ghost use Rattle.search_core.specs.declared.sought.Sought.TheVariants as kind;
ghost use Rattle.search_core.specs.History.{IsAtRest};
ghost use Rattle.search_core.specs.Sought.{sought_by, IsLastSought};
ghost use Rattle.search_core.specs.Diligent.{NothingOpen, NothingPending};
ghost use Rattle.node_pool.specs.Taking.{HandsNode, HandsCandidate, HandsOut, IsWaiting};
ghost use Rattle.node_pool.specs.declared.ticket.Work.TheVariants as handed;

use crate::pool::Pool;
use crate::ticket::{SearchTicket, StudyTicket, Work};
use arch_model::Architecture;
use rows::Cube;
use search_core::Sought;

impl Pool {
    // The cost of the best, in cost units, or None where there is none.
    fn best_cost(&self) -> Option<u64>
        ensures { result ≡ best_cost self.now.state.best }
    {
        self.state.best().map(|best| best.cost)
    }

    // The cube of a live node.
    fn cube(&self, node: u32) -> Cube
        requires { IsSome (finmap.get self.now.state.nodes node) }
        ensures { (n : node_is.Node) → finmap.get self.now.state.nodes node ≡ Some n
            → result ≡ node_is.node_cube n }
    {
        self.state.cube(node).unwrap()
    }

    // The candidate of a node that is pending or under study.
    fn candidate(&self, node: u32) -> Architecture
        requires { (n : node_is.Node) × (cube : CubeParts)
            × (finmap.get self.now.state.nodes node ≡ Some n) × IsCandidateCube n cube }
        ensures { (n : node_is.Node) (cube : CubeParts)
            → finmap.get self.now.state.nodes node ≡ Some n
            → IsCandidateCube n cube → result ≡ candidate_of self.now.problem.library cube }
    {
        self.state.candidate(node).unwrap()
    }

    // The greatest number of a live node of a kind, or None where there is none.
    pub(crate) fn last(&self, sought: Sought) -> Option<u32>
        ensures some { IfSome result (IsLastSought (sought_by sought) self.now.state.nodes) }
        ensures none { IfNone result (node_is.EachNode (λ i node. sought_by sought node
            ≡ false) self.now.state.nodes) }
    {
        self.state.last(sought)
    }

    // Hands out the last open node.
    fn hand_node(&mut self, worker: u32, node: u32) -> SearchTicket
        requires room { 1 ≤ self.old.spare }
        requires worker { worker < self.old.workers }
        requires last { IsLastSought (sought_by kind.Open) self.old.state.nodes node }
        requires analyst { worker < self.old.analysts → NothingPending self.old.state }
        ensures { HandsNode self.old worker result self.new }
    {
        let _library = self.library();
        let ticket = SearchTicket {
            worker,
            node,
            cube: self.cube(node),
            cuts: self.cut_count(),
            bound: self.best_cost(),
        };
        let entry = ticket.taken();
        self.append(entry);
        ticket
    }

    // Hands out the last pending candidate.
    fn hand_candidate(&mut self, worker: u32, node: u32) -> StudyTicket
        requires room { 1 ≤ self.old.spare }
        requires worker { worker < self.old.workers }
        requires last { IsLastSought (sought_by kind.Pending) self.old.state.nodes node }
        requires other { self.old.analysts ≤ worker → NothingOpen self.old.state }
        ensures { HandsCandidate self.old worker result self.new }
    {
        let _library = self.library();
        let ticket = StudyTicket {
            worker,
            node,
            candidate: self.candidate(node),
        };
        let entry = ticket.taken();
        self.append(entry);
        ticket
    }

    // What a worker finds where nothing is open or pending.
    fn nothing_left(&self, worker: u32) -> Work
        requires open { NothingOpen self.now.state }
        requires pending { NothingPending self.now.state }
        ensures { HandsOut self.now worker result self.now }
    {
        match self.state.answer() {
            Some(_) => Work::Done,
            None => Work::Nothing,
        }
    }

    // Work for an analyst: candidates go first.
    fn take_candidate_first(&mut self, worker: u32) -> Work
        requires room { 1 ≤ self.old.spare }
        requires worker { worker < self.old.workers }
        requires analyst { worker < self.old.analysts }
        ensures { HandsOut self.old worker result self.new }
    {
        match self.last(Sought::Pending) {
            Some(node) => Work::Candidate(self.hand_candidate(worker, node)),
            None => match self.last(Sought::Open) {
                Some(node) => Work::Node(self.hand_node(worker, node)),
                None => self.nothing_left(worker),
            },
        }
    }

    // Work for another worker: nodes go first.
    fn take_node_first(&mut self, worker: u32) -> Work
        requires room { 1 ≤ self.old.spare }
        requires worker { worker < self.old.workers }
        requires other { self.old.analysts ≤ worker }
        ensures { HandsOut self.old worker result self.new }
    {
        match self.last(Sought::Open) {
            Some(node) => Work::Node(self.hand_node(worker, node)),
            None => match self.last(Sought::Pending) {
                Some(node) => Work::Candidate(self.hand_candidate(worker, node)),
                None => self.nothing_left(worker),
            },
        }
    }

    // Work for a worker, by whether it is an analyst.
    fn hand_out(&mut self, worker: u32) -> Work
        requires room { 1 ≤ self.old.spare }
        requires worker { worker < self.old.workers }
        ensures work { HandsOut self.old worker result self.new }
    {
        if worker < self.analysts {
            self.take_candidate_first(worker)
        } else {
            self.take_node_first(worker)
        }
    }

    /// Hands a worker the open node or the pending candidate of the greatest number, with its
    /// ticket: an analyst a candidate where there is one, and every other worker a node where there
    /// is one. Nothing comes exactly where nothing is open or pending but something is held or
    /// under study, and Done exactly where nothing is open, pending, held or under study; both
    /// append no entry. It takes no memory.
    pub fn take(&mut self, worker: u32) -> Work
        requires room { 1 ≤ self.old.spare }
        requires worker { worker < self.old.workers }
        ensures work { HandsOut self.old worker result self.new }
        ensures nothing { (result ≡ handed.Nothing) ↔ IsWaiting self.old.state }
        ensures done { (result ≡ handed.Done) ↔ IsAtRest self.old.state }
    {
        self.hand_out(worker)
    }
}
