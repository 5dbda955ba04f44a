// The rows of learned cuts, and lists of them.
ghost use Rattle.std.specs.Prelude.{◌≡◌, ℕ, ◌<◌, ◌≤◌, ◌-◌, pos, ◌∷◌, [], ◌++◌, length};
ghost use Rattle.std.specs.Prelude.{slice_get, IfOk, OnOk, OnErr, Some};
ghost use Rattle.std.specs.Prelude.{false, IsTrue};
ghost use Rattle.rows.specs.Parts.{CutParts, CutListParts};
ghost use Rattle.rows.specs.Row.{IsSized, cut_coef};
ghost use Rattle.rows.specs.Cut.{IsCut, empty_cut, cut_put};
ghost use Rattle.arch_model.specs.Set as set;

use arch_model::limits::MEMBERS;
use arch_model::{MemberSet, Memory, VarId};
use std::alloc::Global;
use std::marker::Model;

/// The row of a cut: coefficients 1 and -1 at two sets of variables, and a least. Each value of the
/// type has no variable in both sets, and a least of at most 10^16 in absolute value (`IsCut`).
#[derive(Clone, Copy, PartialEq, Eq)]
pub struct CutRow {
    plus: MemberSet,
    minus: MemberSet,
    least: i128,
}

impl Model for CutRow {
    ghost use Rattle.rows.specs.Parts.{CutParts};
    ghost use Rattle.rows.specs.Cut.{IsCut};

    ghost Value = { CutParts };

    ghost view = { λ a. record { plus = a.plus; minus = a.minus; least = a.least } };

    ghost invariant = { λ a. IsCut (record { plus = a.plus; minus = a.minus; least = a.least }) };

    ghost inverse = { λ a. record { plus = a.plus; minus = a.minus; least = a.least } };
}

impl CutRow {
    /// The row without terms and with this least.
    pub fn new(least: i128) -> CutRow
        requires { IsSized least }
        ensures { result ≡ empty_cut least }
    {
        CutRow {
            plus: MemberSet::new(),
            minus: MemberSet::new(),
            least,
        }
    }

    /// Gives v, which isn't in the row yet, the coefficient 1 or -1.
    pub fn put(&mut self, v: VarId, plus: bool)
        requires apart { cut_coef self.old v.0 ≡ pos 0 }
        requires small { v.0 < MEMBERS }
        ensures { self.new ≡ cut_put self.old v.0 plus }
    {
        if plus {
            self.plus.put(v);
        } else {
            self.minus.put(v);
        }
    }

    /// The coefficient of v, 0 where it isn't in the row.
    pub fn coef(&self, v: VarId) -> i128
        ensures { result ≡ cut_coef self.now v.0 }
    {
        if self.plus.has(v) {
            1
        } else if self.minus.has(v) {
            -1
        } else {
            0
        }
    }

    /// The variables with coefficient 1.
    pub fn plus(&self) -> MemberSet
        ensures plus { result ≡ self.now.plus }
        ensures cut { IsCut self.now }
    {
        self.plus
    }

    /// The variables with coefficient -1.
    pub fn minus(&self) -> MemberSet
        ensures minus { result ≡ self.now.minus }
        ensures cut { IsCut self.now }
    {
        self.minus
    }

    /// What its sum must come to at least.
    pub fn least(&self) -> i128
        ensures least { result ≡ self.now.least }
        ensures cut { IsCut self.now }
    {
        self.least
    }
}

/// The greatest number of cuts in a list.
pub const CUTS: usize = 100_001;

/// A list of at most 100001 cuts, by number, with room for some more.
#[derive(Drop)]
pub struct CutList {
    cuts: Vec<CutRow>,
}

impl Model for CutList {
    ghost use Rattle.std.specs.Prelude.{◌-◌, ◌≤◌, length, vec_len, vec_capacity};
    ghost use Rattle.rows.specs.Parts.{CutListParts};
    ghost use Rattle.rows.specs.declared.cut.TheConstants.{CUTS};

    ghost Value = { CutListParts };

    ghost view = { λ a. record { cuts = a.cuts.items; spare = vec_capacity a.cuts - vec_len a.cuts } };

    ghost invariant = { λ a. vec_len a.cuts ≤ CUTS };
}

impl CutList {
    /// The list without cuts.
    pub fn new(alloc: Global) -> CutList
        ensures { result.cuts ≡ [] }
    {
        CutList {
            cuts: Vec::new(alloc),
        }
    }

    /// A copy in its own memory. The only error is want of memory.
    pub fn copy(&self) -> Result<CutList, Memory>
        ensures { IfOk result (λ copy. copy.cuts ≡ self.now.cuts) }
    {
        Ok(CutList {
            cuts: self.cuts.clone()?,
        })
    }

    /// How many cuts there are.
    pub fn len(&self) -> u32
        ensures len { result ≡ length self.now.cuts }
        ensures few { result ≤ CUTS }
    {
        self.cuts.len() as u32
    }

    /// The cut of a number.
    pub fn get(&self, number: u32) -> CutRow
        requires { number < length self.now.cuts }
        ensures { slice_get self.now.cuts number ≡ Some result }
    {
        self.cuts[number as usize]
    }

    /// Appends a cut. The only error is want of memory, and then the list stays.
    pub fn push(&mut self, cut: CutRow) -> Result<(), Memory>
        requires { length self.old.cuts < CUTS }
        ensures ok { OnOk result (self.new.cuts ≡ self.old.cuts ++ cut ∷ []) }
        ensures err { OnErr result (self.new ≡ self.old) }
    {
        self.cuts.reserve(1)?;
        self.cuts.push_reserved(cut);
        Ok(())
    }

    /// Makes room for at least one more cut. The list stays. The only error is want of memory.
    pub fn reserve(&mut self) -> Result<(), Memory>
        ensures cuts { self.new.cuts ≡ self.old.cuts }
        ensures ok { OnOk result (1 ≤ self.new.spare) }
        ensures err { OnErr result (self.new ≡ self.old) }
    {
        self.cuts.reserve(1)
    }

    /// Appends a cut where there is room for it, and takes no memory.
    pub fn push_spare(&mut self, cut: CutRow)
        requires room { 1 ≤ self.old.spare }
        requires few { length self.old.cuts < CUTS }
        ensures cuts { self.new.cuts ≡ self.old.cuts ++ cut ∷ [] }
        ensures spare { self.new.spare ≡ self.old.spare - 1 }
    {
        self.cuts.push_reserved(cut);
    }
}
