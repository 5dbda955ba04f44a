// The weight of a sink.
ghost use Rattle.std.specs.Prelude.{◌≡◌, ◌≤◌, ◌*◌, ◌^◌};
ghost use Rattle.arch_model.specs.Architecture.{IsArchitecture};
ghost use Rattle.arch_model.specs.Weight.{weight_of};

use crate::one_pass::weigh;
use arch_model::{Architecture, CompId, Library};
use std::alloc::Global;

/// The weight of a sink in units of 10^-18: the sum of the products of its minimal cut sets. An
/// absent sink, and one that no source reaches, weighs 10^18. The architecture must fit the
/// library.
pub fn weight(alloc: Global, lib: &Library, arch: &Architecture, sink: CompId) -> u128
    requires { IsArchitecture lib.now arch.now }
    ensures value { result ≡ weight_of lib.now arch.now sink.0 }
    ensures small { result ≤ 2 ^ 64 * 10 ^ 18 }
{
    weigh(alloc, lib, arch, sink).weight
}
