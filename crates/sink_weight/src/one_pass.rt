// The weight of a sink and its heaviest minimal cut set, in one pass.
ghost use Rattle.std.specs.Prelude.{◌≡◌, ℕ, ◌≤◌, ◌*◌, ◌^◌, ◌↔◌, List, map, IfSome, IsNone};
ghost use Rattle.arch_model.specs.Architecture.{IsArchitecture};
ghost use Rattle.arch_model.specs.CutSet.{IsMinimalCutSet};
ghost use Rattle.arch_model.specs.Weight.{product_of, weight_of, IsHeaviest};

use arch_model::{Architecture, CompId, Library, product};
use cut_sets::{CutSets, Members};
use std::alloc::Global;

/// What one pass over the minimal cut sets of a sink finds.
#[derive(Drop)]
pub struct Weighed {
    /// The sum of their products, in units of 10^-18.
    pub weight: u128,
    /// The one of greatest product, of several the least member list; None where every one has
    /// product 0.
    pub heaviest: Option<Members>,
}

/// The weight of a sink and its heaviest minimal cut set, in one pass over its minimal cut sets. The
/// architecture must fit the library.
pub fn weigh(alloc: Global, lib: &Library, arch: &Architecture, sink: CompId) -> Weighed
    requires { IsArchitecture lib.now arch.now }
    ensures weight { result.weight ≡ weight_of lib.now arch.now sink.0 }
    ensures small { result.weight ≤ 2 ^ 64 * 10 ^ 18 }
    ensures some { IfSome result.heaviest (λ m. IsHeaviest lib.now arch.now sink.0 (map (λ v. v.0) m.items)) }
    ensures none { IsNone result.heaviest
        ↔ ((members : List ℕ) → IsMinimalCutSet lib.now arch.now sink.0 members → product_of lib.now members ≡ 0) }
{
    let mut total = 0;
    let mut best = None;
    let mut most = 0;
    for members in CutSets::new(alloc, lib, arch, sink) {
        let value = product(lib, members.as_slice());
        total += value as u128;
        if most < value {
            most = value;
            best = Some(members);
        }
    }
    Weighed {
        weight: total,
        heaviest: best,
    }
}
