// The weights of an architecture's required sinks.
ghost use Rattle.std.specs.Prelude.{◌≡◌, IfOk};
ghost use Rattle.arch_model.specs.Architecture.{IsArchitecture};
ghost use Rattle.search_core.specs.Rules.{weights_of};

use arch_model::{Architecture, Library, Memory};
use sink_weight::weight;
use std::alloc::Global;

/// What each required sink weighs in an architecture, in requirement order and in units of 10^-18.
pub fn weights(alloc: Global, lib: &Library, arch: &Architecture) -> Result<Vec<u128>, Memory>
    requires { IsArchitecture lib.now arch.now }
    ensures { IfOk result (λ weights. weights.items ≡ weights_of lib.now arch.now) }
{
    let mut weights = Vec::new(alloc);
    let requirements = lib.requirements();
    for r in requirements {
        weights.push(weight(alloc, lib, arch, r.sink))?;
    }
    Ok(weights)
}
