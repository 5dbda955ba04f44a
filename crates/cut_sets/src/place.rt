// Where an enumeration stands: the members chosen so far, and what is decided.
ghost use Rattle.std.specs.Prelude.{◌≡◌, ℕ, ◌+◌, ◌<◌, List, [], ◌∷◌, ◌++◌, map, length, IsTrue};
ghost use Rattle.arch_model.specs.Set as set;
ghost use Rattle.arch_model.specs.Member.{is_in};
ghost use Rattle.arch_model.specs.declared.limits.TheConstants.{FAILING, MEMBERS};
ghost use Rattle.cut_sets.specs.Inner.Upcoming.{WentBack};

use crate::members::Members;
use arch_model::limits::{FAILING, MEMBERS};
use arch_model::{MemberSet, VarId};
use std::alloc::Global;
use std::marker::Model;

// The members chosen so far, ascending, and the least number that is not decided.
#[derive(Drop)]
pub(crate) struct Place {
    chosen: Members,
    at: usize,
}

impl Model for Place {
    ghost use Rattle.std.specs.Prelude.{◌≡◌, ◌≤◌, map, length};
    ghost use Rattle.arch_model.specs.declared.limits.TheConstants.{FAILING};
    ghost use Rattle.cut_sets.specs.Inner.Upcoming.{PlaceParts};

    ghost Value = { PlaceParts };

    ghost view = { λ a. record { chosen = map (λ v. v.0) a.chosen.items; at = a.at } };

    ghost invariant = { λ a. (a.chosen.capacity ≡ FAILING) × (length a.chosen.items ≤ FAILING) };
}

impl Place {
    // Nothing is chosen, and all below `at` is decided.
    pub(crate) fn new(alloc: Global, at: usize) -> Place
        ensures { result ≡ record { chosen = []; at = at } }
    {
        Place {
            chosen: Members::new(alloc),
            at,
        }
    }

    pub(crate) fn at(&self) -> usize
        ensures { result ≡ self.now.at }
    {
        self.at
    }

    // Decides all numbers below `at`.
    pub(crate) fn skip_to(&mut self, at: usize)
        ensures { self.new ≡ record { chosen = self.old.chosen; at = at } }
    {
        self.at = at;
    }

    // Chooses one more member.
    pub(crate) fn choose(&mut self, v: VarId)
        requires { length self.old.chosen < FAILING }
        ensures { self.new ≡ record { chosen = self.old.chosen ++ v.0 ∷ []; at = v.0 + 1 } }
    {
        self.chosen.push_reserved(v);
        self.at = v.0 as usize + 1;
    }

    // Leaves the last of the chosen members out. Answers false where there is none.
    pub(crate) fn back(&mut self) -> bool
        ensures { WentBack self.old self.new result }
    {
        match self.chosen.pop() {
            Some(v) => {
                self.at = v.0 as usize + 1;
                true
            }
            None => false,
        }
    }

    // The chosen members and one more.
    pub(crate) fn with(&self, v: VarId) -> Members
        requires { length self.now.chosen < FAILING }
        ensures { map (λ m. m.0) result.items ≡ self.now.chosen ++ v.0 ∷ [] }
    {
        let alloc = *self.chosen.allocator();
        let mut members = Members::from_slice(alloc, self.chosen.as_slice()).unwrap();
        members.push_reserved(v);
        members
    }

    // The chosen members, as a set.
    pub(crate) fn set(&self) -> MemberSet
        requires { (v : ℕ) → IsTrue (is_in self.now.chosen v) → v < MEMBERS }
        ensures { (v : ℕ) → set.has result v ≡ is_in self.now.chosen v }
    {
        let mut members = MemberSet::new();
        for v in self.chosen.as_slice() {
            members.put(*v);
        }
        members
    }
}
