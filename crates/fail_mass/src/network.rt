// A network as conditioning asks it: whether the sink is still reached, and which members matter.
ghost use Rattle.std.specs.Prelude.{◌≡◌, ℕ, ◌<◌, ◌↔◌, ◌∷◌, false, true, IfSome, IfNone, IsTrue, List, length};
ghost use Rattle.arch_model.specs.Architecture.{IsArchitecture};
ghost use Rattle.arch_model.specs.Library.{IsLibrary};
ghost use Rattle.arch_model.specs.Path.{IsPath, LeadsTo};
ghost use Rattle.arch_model.specs.Set as set;
ghost use Rattle.fail_mass.specs.Inner.Networks as networks;
ghost use Rattle.fail_mass.specs.Inner.Networks.{IsNetwork, AreMembers};

use crate::between::between;
use arch_model::{Architecture, CompId, CompSet, Library, MemberSet};
use paths::{Links, ancestors, ancestors_over, links_of, reach, reach_over};

/// An architecture of a library, and the component whose failures are counted.
#[derive(Drop)]
pub(crate) struct Network<'a> {
    pub(crate) lib: &'a Library,
    arch: &'a Architecture,
    sink: CompId,
    // all present edges
    links: Links,
}

impl<'a> Network<'a> {
    pub(crate) fn new(lib: &'a Library, arch: &'a Architecture, sink: CompId) -> Network<'a>
        requires library { IsLibrary lib.now }
        requires architecture { IsArchitecture lib.now arch.now }
        ensures lib { result.lib.now ≡ lib.now }
        ensures arch { result.arch.now ≡ arch.now }
        ensures sink { result.sink.0 ≡ sink.0 }
        ensures network { IsNetwork result }
    {
        let links = links_of(lib, arch, &MemberSet::new());
        Network {
            lib,
            arch,
            sink,
            links,
        }
    }

    // Whether all of some members are components. Where no edge has failed, the table serves.
    fn are_components(&self, members: &MemberSet) -> bool
        ensures { IsTrue result ↔ ((v : ℕ) → IsTrue (set.has members.now v) → v < length self.now.lib.now.components) }
    {
        members.is_below(self.lib.components().len())
    }

    // The components to which a path is left.
    fn reached(&self, failed: &MemberSet) -> CompSet
        requires { IsNetwork self.now }
        ensures { (c : ℕ) → IsTrue (set.has result c)
            ↔ ((path : List ℕ) × IsPath self.now.lib.now self.now.arch.now c (set.has failed.now) path) }
    {
        if self.are_components(failed) {
            reach_over(self.lib, self.arch, &self.links, failed)
        } else {
            reach(self.lib, self.arch, *failed)
        }
    }

    // The components from which the sink is still reached.
    fn above(&self, failed: &MemberSet) -> CompSet
        requires network { IsNetwork self.now }
        requires in_range { self.now.sink.0 < length self.now.lib.now.components }
        ensures { (c : ℕ) → IsTrue (set.has result c) ↔ ((rest : List ℕ)
            × LeadsTo self.now.lib.now self.now.arch.now self.now.sink.0 (set.has failed.now) (c ∷ rest)) }
    {
        if self.are_components(failed) {
            ancestors_over(self.lib, self.arch, self.sink, &self.links, failed)
        } else {
            ancestors(self.lib, self.arch, self.sink, *failed)
        }
    }

    /// Whether some failed members part the sink.
    pub(crate) fn is_parted(&self, failed: &MemberSet) -> bool
        requires { IsNetwork self.now }
        ensures { result ≡ networks.is_parted self.now failed.now }
    {
        !self.reached(failed).has(self.sink)
    }

    /// The undecided members that still matter where those of `failed` have failed, or none where
    /// these part the sink. The others lie on no path that is left, so leaving them out changes
    /// neither value.
    pub(crate) fn mattering(&self, failed: &MemberSet, undecided: &MemberSet) -> Option<MemberSet>
        requires network { IsNetwork self.now }
        requires in_range { AreMembers self.now undecided.now }
        ensures parted { IfNone result (networks.is_parted self.now failed.now ≡ true) }
        ensures reached { IfSome result (λ _. networks.is_parted self.now failed.now ≡ false) }
        ensures same { IfSome result (λ left. (i : ℕ) → networks.enclosure_from self.now failed.now undecided.now i
            ≡ networks.enclosure_from self.now failed.now left i) }
        ensures inside { IfSome result (λ left. AreMembers self.now left) }
    {
        let reached = self.reached(failed);
        if !reached.has(self.sink) {
            return None;
        }
        let above = self.above(failed);
        Some(between(self.lib, undecided, &reached, &above))
    }
}
