// The enumeration of minimal cut sets.
ghost use Rattle.std.specs.Prelude.{◌≡◌, IsTrue, map};
ghost use Rattle.std.specs.Iterator.{YieldsFirstBy, item_count};
ghost use Rattle.arch_model.specs.Library.{IsLibrary};
ghost use Rattle.arch_model.specs.Architecture.{IsArchitecture};
ghost use Rattle.cut_sets.specs.CutSets.{cut_sets_of};

use crate::members::Members;
use crate::network::Network;
use crate::place::Place;
use crate::walking::{Turn, advance};
use arch_model::limits::MEMBERS;
use arch_model::{Architecture, CompId, Library, MemberSet};
use std::alloc::Global;
use std::marker::Model;

/// Goes over the minimal cut sets of positive product of a sink in an architecture, each once, in
/// ascending order of their member lists; seen as the list of those that are still to come. Member
/// lists are compared as slices: by the first number that differs, and a front of a list comes
/// before it.
#[derive(Drop)]
pub struct CutSets<'a> {
    network: Network<'a>,
    place: Place,
    // whether the empty set is still to be given
    first: bool,
    alloc: Global,
}

impl<'a> Model for CutSets<'a> {
    ghost use Rattle.std.specs.Prelude.{ℕ, List};
    ghost use Rattle.cut_sets.specs.Inner.Upcoming.{upcoming, IsNetwork, IsPlace};

    ghost Value = { List (List ℕ) };

    ghost view = { λ a. upcoming a.first a.network a.place };

    ghost invariant = { λ a. IsNetwork a.network × IsPlace a.network a.place };
}

impl<'a> CutSets<'a> {
    /// The enumeration before its first set. An absent sink, and one that no source reaches, has
    /// the empty set as its only minimal cut set. The architecture must fit the library.
    pub fn new(alloc: Global, lib: &'a Library, arch: &Architecture, sink: CompId) -> CutSets<'a>
        requires { IsArchitecture lib.now arch.now }
        ensures sets { result ≡ cut_sets_of lib.now arch.now sink.0 }
        ensures library { IsLibrary lib.now }
    {
        let network = Network::new(lib, arch, sink);
        let first = network.cuts(&MemberSet::new());
        let at = if first { MEMBERS } else { 0 };
        CutSets {
            network,
            place: Place::new(alloc, at),
            first,
            alloc,
        }
    }
}

impl<'a> Iterator for CutSets<'a> {
    type Item = Members;

    ghost next_gives = { YieldsFirstBy (λ m. map (λ v. v.0) m.items) (λ s. s) };

    ghost remaining = { item_count (λ s. s) };

    fn next(&mut self) -> Option<Members> {
        if self.first {
            self.first = false;
            return Some(Members::new(self.alloc));
        }
        loop {
            match advance(&self.network, &mut self.place) {
                Turn::Given(members) => return Some(members),
                Turn::Passed => {}
                Turn::Ended => return None,
            }
        }
    }
}
