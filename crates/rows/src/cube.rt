// Cubes.
ghost use Rattle.std.specs.Prelude.{◌≡◌, ℕ, ◌<◌, Some, None, true, IsTrue, nat_eq, ◌&&◌};
ghost use Rattle.std.proofs.Common.{rules};
ghost use Rattle.std.specs.Cmp.Rules.{comparing};
ghost use Rattle.rows.specs.Cube.{IsCube, value_at, is_free, whole, fixed_at};
ghost use Rattle.arch_model.specs.Set as set;

use arch_model::limits::MEMBERS;
use arch_model::{MemberSet, VarId};
use std::marker::Model;

/// A choice of values for some variables; the others are free. Two cubes are equal where they give
/// the same variables the same values: only fixed variables are fixed to 1 (`IsCube`).
#[derive(Clone, Copy)]
pub struct Cube {
    fixed: MemberSet,
    ones: MemberSet,
}

impl Model for Cube {
    ghost use Rattle.rows.specs.Parts.{CubeParts};
    ghost use Rattle.rows.specs.Cube.{IsCube};

    ghost Value = { CubeParts };

    ghost view = { λ a. record { fixed = a.fixed; ones = a.ones } };

    ghost invariant = { λ a. IsCube (record { fixed = a.fixed; ones = a.ones }) };

    ghost inverse = { λ a. record { fixed = a.fixed; ones = a.ones } };
}

impl PartialEq for Cube {
    ghost eq = { λ a b. nat_eq a.fixed.mask b.fixed.mask && nat_eq a.ones.mask b.ones.mask };

    ghost laws = { Prim.search (comparing, rules) };

    fn eq(&self, other: &Self) -> bool {
        self.fixed == other.fixed && self.ones == other.ones
    }
}

impl Eq for Cube {
    ghost laws = { Prim.search (comparing, rules) };
}

impl Cube {
    /// The cube with nothing fixed.
    pub fn whole() -> Cube
        ensures { result ≡ whole }
    {
        Cube {
            fixed: MemberSet::new(),
            ones: MemberSet::new(),
        }
    }

    /// The value of a variable, or None where it is free.
    pub fn value(&self, v: VarId) -> Option<bool>
        ensures { result ≡ value_at self.now v.0 }
    {
        if self.fixed.has(v) {
            Some(self.ones.has(v))
        } else {
            None
        }
    }

    /// Fixes a free variable.
    pub fn fix(&mut self, v: VarId, value: bool)
        requires free { is_free self.old v.0 ≡ true }
        requires small { v.0 < MEMBERS }
        ensures fixed { self.new ≡ fixed_at self.old v.0 value }
        ensures cube { IsCube self.old }
    {
        self.fixed.put(v);
        if value {
            self.ones.put(v);
        }
    }

    /// The variables that are fixed.
    pub fn fixed(&self) -> MemberSet
        ensures fixed { result ≡ self.now.fixed }
        ensures cube { IsCube self.now }
    {
        self.fixed
    }

    /// The variables that are fixed to 1.
    pub fn ones(&self) -> MemberSet
        ensures ones { result ≡ self.now.ones }
        ensures cube { IsCube self.now }
    {
        self.ones
    }
}
