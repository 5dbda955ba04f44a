// The heaviest minimal cut set.
ghost use Rattle.std.specs.Prelude.{◌≡◌, ℕ, ◌↔◌, List, map, IfSome, IsNone};
ghost use Rattle.arch_model.specs.Architecture.{IsArchitecture};
ghost use Rattle.arch_model.specs.CutSet.{IsMinimalCutSet};
ghost use Rattle.arch_model.specs.Weight.{product_of, IsHeaviest};

use crate::one_pass::weigh;
use arch_model::{Architecture, CompId, Library};
use cut_sets::Members;
use std::alloc::Global;

/// The minimal cut set of greatest product; of several the least member list. None where every
/// minimal cut set has product 0. The architecture must fit the library.
pub fn heaviest(alloc: Global, lib: &Library, arch: &Architecture, sink: CompId) -> Option<Members>
    requires { IsArchitecture lib.now arch.now }
    ensures some { IfSome result (λ m. IsHeaviest lib.now arch.now sink.0 (map (λ v. v.0) m.items)) }
    ensures none { IsNone result
        ↔ ((members : List ℕ) → IsMinimalCutSet lib.now arch.now sink.0 members → product_of lib.now members ≡ 0) }
{
    weigh(alloc, lib, arch, sink).heaviest
}
