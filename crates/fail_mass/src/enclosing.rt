// The failure mass of a sink, enclosed.
ghost use Rattle.std.specs.Prelude.{◌≡◌, ◌+◌, ◌*◌, ◌^◌, ◌≤◌};
ghost use Rattle.arch_model.specs.Architecture.{IsArchitecture};
ghost use Rattle.arch_model.specs.Mass.{enclosure_of, mass_of};
ghost use Rattle.arch_model.specs.Member.{member_count};
ghost use Rattle.arch_model.specs.Weight.{weight_of};

use crate::conditioning::where_failed;
use crate::network::Network;
use crate::undecided::undecided;
use arch_model::{Architecture, CompId, Library, MemberSet};

/// A lower and an upper bound of the failure mass of a sink, in units of 10^-18: how likely it is
/// that no path leads to it any more. Each is that of conditioning on every member in turn with
/// each step rounded, down for the first and up for the second. A sink that is absent, or that no
/// path reaches, has 10^18 for both. The architecture must be one of the library, as `fits` tests.
pub fn enclose(lib: &Library, arch: &Architecture, sink: CompId) -> (u64, u64)
    requires { IsArchitecture lib.now arch.now }
    ensures exact { result ≡ enclosure_of lib.now arch.now sink.0 }
    // The mass counts in units of 10^(-6n) for n members.
    ensures low { result.0 * 10 ^ (6 * member_count lib.now)
        ≤ mass_of lib.now arch.now sink.0 * 10 ^ 18 }
    ensures high { mass_of lib.now arch.now sink.0 * 10 ^ 18
        ≤ result.1 * 10 ^ (6 * member_count lib.now) }
    ensures narrow { result.1 ≤ result.0 + 2 * member_count lib.now }
    ensures ordered { result.0 ≤ result.1 }
    ensures small { result.1 ≤ 10 ^ 18 }
    ensures mass_is_within_weight { mass_of lib.now arch.now sink.0 * 10 ^ 18
        ≤ weight_of lib.now arch.now sink.0 * 10 ^ (6 * member_count lib.now) }
    ensures low_is_within_weight { result.0 ≤ weight_of lib.now arch.now sink.0 }
{
    let members = undecided(lib, arch);
    let network = Network::new(lib, arch, sink);
    where_failed(&network, &MemberSet::new(), &members, 0)
}
