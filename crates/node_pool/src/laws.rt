//! Laws of pools, each the contract of a function without a body.
ghost use Rattle.std.specs.Prelude.{◌≡◌, ◌⊎◌, ℕ, ◌+◌, ◌<◌, ◌^◌, List, Option, length};
ghost use Rattle.arch_model.specs.Library.{IsLibrary};
ghost use Rattle.arch_model.specs.Member.{member_count};
ghost use Rattle.rows.specs.Parts.{CutParts, ProblemParts};
ghost use Rattle.rows.specs.Problem.{IsProblem, IsCandidate};
ghost use Rattle.rows.specs.Cube.{IsCubeBelow};
ghost use Rattle.rows.specs.Known.{IsKnown, known_from};
ghost use Rattle.rows.specs.Outcome.{MayBranch, MayPrune, MayOffer};
ghost use Rattle.rows.specs.declared.known.RowRef.{RowRef};
ghost use Rattle.rows.specs.declared.known.Pair.{Pair};
ghost use Rattle.search_core.specs.State.{start_of};
ghost use Rattle.search_core.specs.History.{Reaches, IsReached};
ghost use Rattle.search_core.specs.Invariant.{SearchInvariant};
ghost use Rattle.search_core.specs.declared.entry.Entry.{Entry};
ghost use Rattle.node_pool.specs.Parts.{PoolParts};
ghost use Rattle.node_pool.specs.Pool.{IsPool, Appends};
ghost use Rattle.node_pool.specs.Topic.{topic_of};
ghost use Rattle.node_pool.specs.Taking.{HandsOut};
ghost use Rattle.node_pool.specs.Tickets.{IsHeldFor, IsStudiedFor, BeginAlike, Fits};
ghost use Rattle.node_pool.specs.Tickets.{known_for};
ghost use Rattle.node_pool.specs.Alike.{KnowAlike};
ghost use Rattle.node_pool.specs.declared.ticket.SearchTicket.{SearchTicket};
ghost use Rattle.node_pool.specs.declared.ticket.StudyTicket.{StudyTicket};
ghost use Rattle.node_pool.specs.declared.ticket.Work.{Work};

/// A legal history of its problem leads to a pool's state, so that what every step of a search
/// keeps holds there. Where its base is a start, its own history is legal and leads there.
pub fn pools_are_reached()
    ensures reached { (pool : PoolParts) → IsPool pool → IsReached pool.problem pool.state }
    ensures start { (pool : PoolParts) (limit : ℕ) → IsPool pool → pool.base ≡ start_of limit
        → Reaches pool.problem limit pool.history pool.state }
    ensures invariant { (pool : PoolParts) → IsLibrary pool.problem.library → IsProblem pool.problem
        → IsPool pool → SearchInvariant pool.problem pool.state }
    ensures few { (pool : PoolParts) → IsLibrary pool.problem.library → IsProblem pool.problem
        → IsPool pool → length pool.history < 2 ^ 62 }
{}

/// An entry that is appended leaves what the pool is about, and raises its count by one, as a gate
/// asks of the value that is given back.
pub fn an_entry_counts_one()
    ensures topic { (old new : PoolParts) (entry : Entry) → Appends old entry new
        → topic_of new ≡ topic_of old }
    ensures count { (old new : PoolParts) (entry : Entry) → Appends old entry new
        → length new.history ≡ length old.history + 1 }
{}

/// What hands out work leaves what the pool is about, too, and its count stays or rises by one, as
/// a gate asks.
pub fn work_counts_at_most_one()
    ensures topic { (old new : PoolParts) (worker : ℕ) (work : Work) → HandsOut old worker work new
        → topic_of new ≡ topic_of old }
    ensures count { (old new : PoolParts) (worker : ℕ) (work : Work) → HandsOut old worker work new
        → (length new.history ≡ length old.history)
        ⊎ (length new.history ≡ length old.history + 1) }
{}

/// What a worker needs of its tickets: what a held ticket knows may be passed as known, its cube is
/// one over the problem's variables, and the candidate of a studied ticket meets every pattern and
/// has every required sink.
pub fn tickets_are_ready()
    ensures known { (pool : PoolParts) (ticket : SearchTicket)
        → IsLibrary pool.problem.library → IsProblem pool.problem → IsPool pool
        → IsHeldFor pool ticket → IsKnown (known_for pool ticket) }
    ensures cube { (pool : PoolParts) (ticket : SearchTicket)
        → IsLibrary pool.problem.library → IsProblem pool.problem → IsPool pool
        → IsHeldFor pool ticket → IsCubeBelow (member_count pool.problem.library) ticket.cube }
    ensures candidate { (pool : PoolParts) (ticket : StudyTicket)
        → IsLibrary pool.problem.library → IsProblem pool.problem → IsPool pool
        → IsStudiedFor pool ticket → IsCandidate pool.problem.library ticket.candidate }
{}

/// Where two lists of cuts begin alike, a ticket that knows no more than these cuts knows the same
/// by either. So what a worker finds out by its own list holds of a pool that the ticket fits: the
/// node may be split, dropped or offered there where it may be by what the worker knows.
pub fn equal_fronts_teach_the_same()
    ensures alike { (problem : ProblemParts) (upto : ℕ) (bound : Option ℕ)
        (some others : List CutParts) → BeginAlike upto some others
        → KnowAlike (known_from problem upto bound some) (known_from problem upto bound others) }
    ensures branch { (pool : PoolParts) (ticket : SearchTicket) (cuts : List CutParts)
        (trace : List RowRef) (v : ℕ) → Fits pool ticket cuts
        → MayBranch (known_from pool.problem ticket.cuts ticket.bound cuts) ticket.cube trace v
        → MayBranch (known_for pool ticket) ticket.cube trace v }
    ensures prune { (pool : PoolParts) (ticket : SearchTicket) (cuts : List CutParts)
        (trace : List RowRef) (reason : List Pair) → Fits pool ticket cuts
        → MayPrune (known_from pool.problem ticket.cuts ticket.bound cuts) ticket.cube trace reason
        → MayPrune (known_for pool ticket) ticket.cube trace reason }
    ensures offer { (pool : PoolParts) (ticket : SearchTicket) (cuts : List CutParts)
        (trace : List RowRef) → Fits pool ticket cuts
        → MayOffer (known_from pool.problem ticket.cuts ticket.bound cuts) ticket.cube trace
        → MayOffer (known_for pool ticket) ticket.cube trace }
{}
