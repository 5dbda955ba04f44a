// The types' names, numbered in file order.
ghost use Rattle.std.specs.Prelude.{◌≡◌, ◌++◌, [], ◌∷◌, IfOk, OnOk, if◌then◌else◌, not, position, length, IfSome, ◌<◌};
ghost use Rattle.std.specs.List.{list_any};
ghost use Rattle.lib_read.specs.Schema.{is_named};
ghost use Rattle.lib_read.specs.Faults.{same_ends};
ghost use Rattle.std.specs.Str.{bytes_eq};

use arch_model::Memory;
use indexmap::IndexSet;
use std::alloc::Global;
use std::marker::Model;

/// Names in the order in which they were added, each once.
#[derive(Drop)]
pub(crate) struct Names<'a> {
    set: IndexSet<&'a str>,
}

impl<'a> Model for Names<'a> {
    ghost use Rattle.std.specs.Prelude.{ℕ, List, map};

    ghost Value = { List (List ℕ) };

    ghost view = { λ a. map (λ k. k.now) a.set.keys };
}

impl<'a> Names<'a> {
    // No names.
    pub(crate) fn new(alloc: Global) -> Names<'a>
        ensures { result ≡ [] }
    {
        Names {
            set: IndexSet::new(alloc),
        }
    }

    // Adds a name at the end, and says whether it is new: one that is there stays in its place.
    pub(crate) fn add(&mut self, name: &'a str) -> Result<bool, Memory>
        ensures new { IfOk result (λ added. added ≡ not (is_named self.old name.now)) }
        ensures names { IfOk result (λ added. self.new ≡ (if added then self.old ++ name.now ∷ [] else self.old)) }
    {
        Ok(self.set.insert(name)?)
    }

    // Whether a name was added.
    pub(crate) fn has(&self, name: &str) -> bool
        ensures { result ≡ is_named self.now name.now }
    {
        self.set.contains(name)
    }

    // The number of a name, from 0.
    pub(crate) fn number(&self, name: &str) -> Option<usize>
        ensures place { result ≡ position (bytes_eq name.now) self.now }
        ensures below { IfSome result (λ i. i < length self.now) }
    {
        self.set.get_index_of(name)
    }
}

/// Pairs of names, each once.
#[derive(Drop)]
pub(crate) struct Pairs<'a> {
    set: IndexSet<(&'a str, &'a str)>,
}

impl<'a> Model for Pairs<'a> {
    ghost use Rattle.std.specs.Prelude.{ℕ, List, map};

    ghost Value = { List (List ℕ × List ℕ) };

    ghost view = { λ a. map (λ k. (k.0.now, k.1.now)) a.set.keys };
}

impl<'a> Pairs<'a> {
    // No pairs.
    pub(crate) fn new(alloc: Global) -> Pairs<'a>
        ensures { result ≡ [] }
    {
        Pairs {
            set: IndexSet::new(alloc),
        }
    }

    // Adds a pair at the end, and says whether it is new: one that is there stays in its place.
    pub(crate) fn add(&mut self, from: &'a str, to: &'a str) -> Result<bool, Memory>
        ensures new { IfOk result (λ added. added ≡ not (list_any (same_ends (from.now, to.now)) self.old)) }
        ensures pairs { IfOk result
            (λ added. self.new ≡ (if added then self.old ++ (from.now, to.now) ∷ [] else self.old)) }
    {
        Ok(self.set.insert((from, to))?)
    }
}
