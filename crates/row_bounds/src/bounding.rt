// Reasons for a cube: the ascent's own, or else one of a stronger candidate.
ghost use Rattle.std.specs.Prelude.{◌≡◌, ℕ, ◌<◌, false, IsTrue, IsSome, IfOk, IfSome, IfNone, slice_index};
ghost use Rattle.rows.specs.Known.{parts_of, IsKnown};
ghost use Rattle.rows.specs.Reason.{AllThere, IsReason, is_together};
ghost use Rattle.rows.specs.Ascent.{is_ascent_refuted, whole_ascent, residue_of};
ghost use Rattle.row_bounds.specs.Bounded.{reason_in};

use crate::ascent::{Rising, climb};
use crate::bounded::Bounded;
use crate::buying::climb_scaled;
use crate::shortlist::Shortlist;
use crate::spending::spent_variables;
use arch_model::limits::MEMBERS;
use arch_model::{Memory, VarId};
use rows::{Cube, Known, Pair, Reason, pairs_together};
use std::alloc::Global;
use std::marker::Model;

/// An ascent: the cost row once and the rows that were added, each with its multiplier, and what
/// they leave of each variable's cost. Each value of the type has the pairs of a reason
/// (`IsReason`).
#[derive(Drop)]
pub struct Ascent {
    rising: Rising,
    list: Shortlist,
}

impl Model for Ascent {
    ghost use Rattle.row_bounds.specs.Residue.{AscentParts};
    ghost use Rattle.rows.specs.Reason.{IsReason};

    ghost Value = { AscentParts };

    ghost view = { λ a. record { pairs = a.rising.pairs; residues = a.rising.residue } };

    ghost invariant = { λ a. IsReason a.rising.pairs };
}

impl Ascent {
    /// The cost row once, and each row that was added with its multiplier.
    pub fn pairs(&self) -> &[Pair]
        ensures pairs { result.now ≡ self.now.pairs }
        ensures reason { IsReason self.now.pairs }
    {
        self.rising.pairs.as_slice()
    }

    /// What the ascent leaves of a variable's cost, in cost units.
    pub fn residue(&self, v: VarId) -> u128
        requires { v.0 < MEMBERS }
        ensures { result ≡ slice_index self.now.residues v.0 }
    {
        self.rising.residue[v.0 as usize]
    }

    /// Takes an ascent to its end: its own reason where its combination is refuted in the cube, else
    /// that of a stronger candidate, else the variables of whose cost that leaves nothing. `Open`
    /// comes only where there is no bound or the ascent isn't refuted. The only error is want of
    /// memory, which is taken for a reason alone.
    pub fn settle(&self, alloc: Global, known: &Known, cube: &Cube) -> Result<Bounded, Memory>
        requires known { IsKnown (parts_of known.now) }
        requires ascent { self.now.pairs ≡ (whole_ascent (parts_of known.now) cube.now).pairs }
        ensures there { IfOk result (λ b. IfSome (reason_in b) (AllThere (parts_of known.now))) }
        ensures refuted { IfOk result
            (λ b. IfSome (reason_in b) (λ reason. IsTrue (is_together (parts_of known.now) reason cube.now))) }
        ensures open_yet { IfOk result
            (λ b. IfNone (reason_in b) (is_ascent_refuted (parts_of known.now) cube.now ≡ false)) }
    {
        if let Some(reason) = judged(alloc, known, self.pairs(), cube)? {
            return Ok(Bounded::Refuted(reason));
        }
        let second = climb_scaled(known, &self.list, cube);
        if let Some(reason) = judged(alloc, known, second.pairs.as_slice(), cube)? {
            return Ok(Bounded::Refuted(reason));
        }
        Ok(Bounded::Open(spent_variables(known.problem.library(), &second.residue)))
    }
}

// The reason of some pairs, with no more room than they take, where their combination is refuted in
// a cube. None comes exactly where there is no bound or it isn't.
fn judged(
    alloc: Global,
    known: &Known,
    pairs: &[Pair],
    cube: &Cube,
) -> Result<Option<Reason>, Memory>
    requires reason { IsReason pairs.now }
    requires there { IsSome known.now.bound → AllThere (parts_of known.now) pairs.now }
    ensures there { IfOk result (λ found. IfSome found (λ reason. AllThere (parts_of known.now) reason)) }
    ensures refuted { IfOk result
        (λ found. IfSome found (λ reason. IsTrue (is_together (parts_of known.now) reason cube.now))) }
    ensures none { IfOk result (λ found. IfNone found
        (IsSome known.now.bound → is_together (parts_of known.now) pairs.now cube.now ≡ false)) }
{
    if known.bound.is_none() {
        return Ok(None);
    }
    if !pairs_together(known, pairs, cube) {
        return Ok(None);
    }
    Ok(Some(Reason::new(pairs.to_vec(alloc)?)))
}

/// The ascent in a cube, also where there is no bound: then its pairs are no reason, since there is
/// no cost row, and what it leaves is as with a bound. It takes no memory.
pub fn ascend(known: &Known, cube: &Cube) -> Ascent
    requires { IsKnown (parts_of known.now) }
    ensures pairs { result.pairs ≡ (whole_ascent (parts_of known.now) cube.now).pairs }
    ensures residues { (v : ℕ) → v < MEMBERS
        → slice_index result.residues v ≡ residue_of (parts_of known.now) cube.now v }
    ensures there { IsSome known.now.bound → AllThere (parts_of known.now) result.pairs }
{
    let mut list = Shortlist::new();
    let rising = climb(known, cube, &mut list);
    Ascent { rising, list }
}

/// A reason whose combination is refuted in the cube: the ascent's, or else that of a stronger
/// candidate. None comes only where there is no bound or the ascent isn't refuted there. The only
/// error is want of memory. Who branches at the cube where none comes calls `ascend` and `settle`
/// instead, and has the residues for it.
pub fn lift(alloc: Global, known: &Known, cube: &Cube) -> Result<Option<Reason>, Memory>
    requires { IsKnown (parts_of known.now) }
    ensures there { IfOk result (λ found. IfSome found (λ reason. AllThere (parts_of known.now) reason)) }
    ensures refuted { IfOk result
        (λ found. IfSome found (λ reason. IsTrue (is_together (parts_of known.now) reason cube.now))) }
    ensures none { IfOk result
        (λ found. IfNone found (is_ascent_refuted (parts_of known.now) cube.now ≡ false)) }
{
    if known.bound.is_none() {
        return Ok(None);
    }
    match ascend(known, cube).settle(alloc, known, cube)? {
        Bounded::Refuted(reason) => Ok(Some(reason)),
        Bounded::Open(_) => Ok(None),
    }
}
