// An architecture as an enumeration sees it, and its questions to it.
ghost use Rattle.std.specs.Prelude.{◌≡◌, ℕ, ◌<◌, ◌↔◌, List, length, IsTrue, not};
ghost use Rattle.std.specs.List.{list_all};
ghost use Rattle.std.specs.Option.{MatchOption};
ghost use Rattle.arch_model.specs.Set as set;
ghost use Rattle.arch_model.specs.Library.{IsLibrary};
ghost use Rattle.arch_model.specs.Architecture.{IsArchitecture};
ghost use Rattle.arch_model.specs.Member.{is_in};
ghost use Rattle.arch_model.specs.Path.{IsPath, parts};
ghost use Rattle.arch_model.specs.declared.limits.TheConstants.{MEMBERS};
ghost use Rattle.paths.specs.Links.{AreLinks};
ghost use Rattle.cut_sets.specs.Inner.Upcoming.{IsNetwork, IsPlace, IsWide, IsNextChoice, candidates_from};

use crate::candidates::candidates;
use crate::place::Place;
use crate::useful::{Failing, passed, sides_of};
use arch_model::{Architecture, CompId, CompSet, Library, MemberSet, VarId};
use paths::{Links, links_of, reach_over};
use std::marker::Model;

// A library's architecture, one of its components, and the members that may be in a set.
#[derive(Drop)]
pub(crate) struct Network<'a> {
    lib: &'a Library,
    arch: Architecture,
    sink: CompId,
    candidates: MemberSet,
    // all present edges
    links: Links,
}

impl<'a> Model for Network<'a> {
    ghost use Rattle.arch_model.specs.Set.{has, empty};
    ghost use Rattle.paths.specs.Links.{AreLinks};
    ghost use Rattle.cut_sets.specs.Inner.Upcoming.{NetworkParts, IsNetwork};

    ghost Value = { NetworkParts };

    ghost view = { λ a. record { lib = a.lib.now; arch = a.arch; sink = a.sink.0; candidates = a.candidates } };

    ghost invariant = { λ a. record {
      network : IsNetwork (record { lib = a.lib.now; arch = a.arch; sink = a.sink.0; candidates = a.candidates });
      links : AreLinks a.lib.now a.arch (has empty) a.links;
    } };
}

impl<'a> Network<'a> {
    pub(crate) fn new(lib: &'a Library, arch: &Architecture, sink: CompId) -> Network<'a>
        requires { IsArchitecture lib.now arch.now }
        ensures lib { result.lib ≡ lib.now }
        ensures arch { result.arch ≡ arch.now }
        ensures sink { result.sink ≡ sink.0 }
        ensures network { IsNetwork result }
        ensures library { IsLibrary lib.now }
    {
        let candidates = candidates(lib, arch);
        Network {
            lib,
            arch: *arch,
            sink,
            candidates,
            links: links_of(lib, arch, &MemberSet::new()),
        }
    }

    // Whether all of some members are components. Where no edge has failed, the table of all edges
    // serves.
    fn are_components(&self, members: &MemberSet) -> bool
        ensures { IsTrue result
            ↔ ((v : ℕ) → IsTrue (set.has members.now v) → v < length self.now.lib.components) }
    {
        members.is_below(self.lib.components().len())
    }

    // A table of the edges that are left where some members have failed, made where one of these is
    // an edge.
    fn made_without(&self, failed: &MemberSet) -> Option<Links>
        ensures { MatchOption result
            ((v : ℕ) → IsTrue (set.has failed.now v) → v < length self.now.lib.components)
            (AreLinks self.now.lib self.now.arch (set.has failed.now)) }
    {
        if self.are_components(failed) {
            return None;
        }
        Some(self.links.without(self.lib, &self.arch, failed))
    }

    // The table that was made, or else that of all edges.
    fn table<'t>(&'t self, failed: &MemberSet, made: &'t Option<Links>) -> &'t Links
        requires { MatchOption made.now
            ((v : ℕ) → IsTrue (set.has failed.now v) → v < length self.now.lib.components)
            (AreLinks self.now.lib self.now.arch (set.has failed.now)) }
        ensures { AreLinks self.now.lib self.now.arch (set.has failed.now) result.now }
    {
        match made {
            Some(links) => links,
            None => &self.links,
        }
    }

    // The components to which a path leads where some members have failed.
    fn reached(&self, links: &Links, failed: &MemberSet) -> CompSet
        requires { AreLinks self.now.lib self.now.arch (set.has failed.now) links.now }
        ensures { (c : ℕ) → IsTrue (set.has result c)
            ↔ ((path : List ℕ) × IsPath self.now.lib self.now.arch c (set.has failed.now) path) }
    {
        reach_over(self.lib, &self.arch, links, failed)
    }

    // Whether some failed members part the sink.
    pub(crate) fn cuts(&self, failed: &MemberSet) -> bool
        ensures { result ≡ parts self.now.lib self.now.arch self.now.sink (set.has failed.now) }
    {
        let made = self.made_without(failed);
        let links = (&*self).table(failed, &made);
        let reached = self.reached(links, failed);
        !reached.has(self.sink)
    }

    // Whether some members part the sink no longer without any one of them.
    pub(crate) fn is_minimal(&self, members: &MemberSet) -> bool
        ensures { result ≡ list_all
            (λ c. not (parts self.now.lib self.now.arch self.now.sink
            (set.has (set.minus members.now (set.put set.empty c)))))
            (set.members_below members.now MEMBERS) }
    {
        for v in members.members() {
            let mut one = MemberSet::new();
            one.put(v);
            if self.cuts(&members.minus(&one)) {
                return false;
            }
        }
        true
    }

    // The chosen members and all candidates that are not decided.
    fn undecided(&self, place: &Place) -> MemberSet
        requires network { IsNetwork self.now }
        requires chosen { (v : ℕ) → IsTrue (is_in place.now.chosen v) → IsTrue (set.has self.now.candidates v) }
        ensures chosen { (v : ℕ) → IsTrue (is_in place.now.chosen v) → IsTrue (set.has result v) }
        ensures candidates { (v : ℕ) → IsTrue (is_in (candidates_from self.now place.now.at) v)
            → IsTrue (set.has result v) }
        ensures inside { (v : ℕ) → IsTrue (set.has result v) → IsTrue (set.has self.now.candidates v) }
    {
        let mut wide = place.set();
        for v in self.candidates.members() {
            if place.at() <= v.0 as usize {
                wide.put(v);
            }
        }
        wide
    }

    // Whether the sink is a component at all.
    fn has_sink(&self) -> bool
        ensures { IsTrue result ↔ (self.now.sink < length self.now.lib.components) }
    {
        (self.sink.0 as usize) < self.lib.components().len()
    }

    // What `next_useful` answers, where the chosen members have failed, and all of `wide`.
    fn next_beside(
        &self,
        place: &Place,
        chosen: &Failing,
        wide: &Failing,
        reached: &CompSet,
    ) -> Option<VarId>
        requires network { IsNetwork self.now }
        requires in_range { self.now.sink < length self.now.lib.components }
        requires same { (v : ℕ) → set.has chosen.now.members v ≡ is_in place.now.chosen v }
        requires wide { IsWide self.now place.now wide.now.members }
        requires chosen_links { AreLinks self.now.lib self.now.arch
            (set.has chosen.now.members) chosen.now.links.now }
        requires wide_links { AreLinks self.now.lib self.now.arch
            (set.has wide.now.members) wide.now.links.now }
        requires reached { (c : ℕ) → IsTrue (set.has reached.now c)
            ↔ ((path : List ℕ) × IsPath self.now.lib self.now.arch c (set.has wide.now.members) path) }
        ensures { IsNextChoice self.now place.now result }
    {
        let sides = sides_of(self.lib, &self.arch, self.sink, chosen, wide, reached);
        let useful = passed(self.lib, self.sink, &sides, &wide.members);
        if let Some(_stranded) = chosen.members.minus(&useful).next_from(0) {
            return None;
        }
        let next = useful.next_from(place.at())?;
        Some(VarId(next as u32))
    }

    // The next candidate to choose: the least from a place on that can be needed beside the chosen
    // members. None where no set has these at its front, since they and all candidates that are not
    // decided leave a path, or one that is chosen can't be needed, or no other can.
    pub(crate) fn next_useful(&self, place: &Place) -> Option<VarId>
        requires network { IsNetwork self.now }
        requires place { IsPlace self.now place.now }
        ensures { IsNextChoice self.now place.now result }
    {
        if !self.has_sink() {
            return None;
        }
        let members = self.undecided(place);
        let made = self.made_without(&members);
        let wide = Failing {
            members,
            links: self.table(&members, &made),
        };
        let reached = self.reached(wide.links, &wide.members);
        if reached.has(self.sink) {
            return None;
        }
        let members = place.set();
        let made = self.made_without(&members);
        let chosen = Failing {
            members,
            links: self.table(&members, &made),
        };
        self.next_beside(place, &chosen, &wide, &reached)
    }
}
