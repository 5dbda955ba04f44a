// The cut that must be published for a candidate.
ghost use Rattle.std.specs.Prelude.{◌≡◌, ◌<◌, ℕ, List, map, length, IfSome, IsNone};
ghost use Rattle.arch_model.specs.Library.{IsLibrary};
ghost use Rattle.arch_model.specs.Architecture.{IsArchitecture};
ghost use Rattle.arch_model.specs.CutSet.{IsMinimalCutSet};
ghost use Rattle.arch_model.specs.Weight.{product_of, weight_of, IsHeaviest};
ghost use Rattle.redundancy_cut.specs.ChosenCut as spec;

use crate::chosen_sets::{cone_to, far_from, set_of};
use arch_model::{Architecture, Library, Requirement, product};
use cut_sets::Members;
use redundancy_cut::Cut;
use sink_weight::weigh;
use std::alloc::Global;

// The redundancy cut of a requirement, where its sink's heaviest minimal cut set alone is above the
// bound.
fn redundancy_of(
    lib: &Library,
    arch: &Architecture,
    number: u32,
    r: &Requirement,
    heaviest: Option<Members>,
) -> Option<Cut>
    requires library { IsLibrary lib.now }
    requires architecture { IsArchitecture lib.now arch.now }
    requires in_range { r.now.sink.0 < length lib.now.components }
    requires some { IfSome heaviest (λ m. IsHeaviest lib.now arch.now r.now.sink.0 (map (λ v. v.0) m.items)) }
    requires none { IsNone heaviest
        → (members : List ℕ) → IsMinimalCutSet lib.now arch.now r.now.sink.0 members → product_of lib.now members ≡ 0 }
    ensures { result ≡ spec.redundancy_of lib.now arch.now (number, r.now) }
{
    match heaviest {
        Some(members) => {
            if product(lib, members.as_slice()) <= r.bound {
                return None;
            }
            let set = set_of(members.as_slice());
            Some(Cut::Redundancy {
                requirement: number,
                set,
                far: far_from(lib, arch, r.sink, &set),
            })
        }
        None => None,
    }
}

// The no-good of a requirement, where its sink weighs more than the bound.
fn no_good_of(
    lib: &Library,
    arch: &Architecture,
    number: u32,
    r: &Requirement,
    weight: u128,
) -> Option<Cut>
    requires library { IsLibrary lib.now }
    requires architecture { IsArchitecture lib.now arch.now }
    requires in_range { r.now.sink.0 < length lib.now.components }
    requires weight { weight ≡ weight_of lib.now arch.now r.now.sink.0 }
    ensures { result ≡ spec.no_good_of lib.now arch.now (number, r.now) }
{
    if weight <= r.bound as u128 {
        return None;
    }
    Some(Cut::NoGood {
        requirement: number,
        cone: cone_to(lib, arch, r.sink),
    })
}

// The first redundancy cut in requirement order; where there is none, the first no-good. One pass
// over the minimal cut sets of each sink serves both, so the first no-good is kept until no later
// requirement has a redundancy cut.
pub(crate) fn chosen_cut(alloc: Global, lib: &Library, arch: &Architecture) -> Option<Cut>
    requires { IsArchitecture lib.now arch.now }
    ensures chosen { result ≡ spec.chosen_cut_of lib.now arch.now }
    ensures library { IsLibrary lib.now }
{
    let mut no_good = None;
    for (i, r) in lib.requirements().iter().enumerate() {
        let weighed = weigh(alloc, lib, arch, r.sink);
        let alone = redundancy_of(lib, arch, i as u32, r, weighed.heaviest);
        if alone.is_some() {
            return alone;
        }
        if no_good.is_none() {
            no_good = no_good_of(lib, arch, i as u32, r, weighed.weight);
        }
    }
    no_good
}
