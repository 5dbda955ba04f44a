// Whether an architecture meets a pattern, and the first pattern that it breaks.
ghost use Rattle.std.specs.Prelude.{◌≡◌, ◌↔◌, IsTrue, IfSome, IfNone, slice_get, take};
ghost use Rattle.std.specs.List.{All};
ghost use Rattle.std.specs.Option.{IsSomeAnd};
ghost use Rattle.arch_model.specs.Architecture.{IsArchitecture};
ghost use Rattle.arch_model.specs.Pattern.{MeetsPattern};

use crate::counts::{count, implies, is_between};
use crate::degrees::{degrees_fit, inputs_exclude, inputs_have_outputs, none_goes};
use crate::sides::Side;
use crate::supplies::{each_is_supplied, is_supplied};
use arch_model::{Architecture, Library, Pattern, cost};

/// Whether an architecture meets a pattern.
pub fn meets_pattern(lib: &Library, arch: &Architecture, p: &Pattern) -> bool
    requires { IsArchitecture lib.now arch.now }
    ensures { IsTrue result ↔ MeetsPattern lib.now arch.now p.now }
{
    match *p {
        Pattern::Count { of, min, max } => is_between(min, max, count(lib, arch, of)),
        Pattern::InDegree { of, from, min, max } => {
            degrees_fit(lib, arch, Side::In, of, from, min, max)
        }
        Pattern::OutDegree { of, to, min, max } => {
            degrees_fit(lib, arch, Side::Out, of, to, min, max)
        }
        Pattern::InNeedsOut { of, from, to } => inputs_have_outputs(lib, arch, of, from, to),
        Pattern::Exclusive { of, a, b } => inputs_exclude(lib, arch, of, a, b),
        Pattern::Implies { a, b } => implies(lib, arch, a, b),
        Pattern::Forbid { tail, head } => none_goes(lib, arch, tail, head),
        Pattern::TotalSupply => is_supplied(lib, arch),
        Pattern::LocalSupply { of } => each_is_supplied(lib, arch, of),
        Pattern::CostCap { max } => cost(lib, arch) <= max,
    }
}

/// The least number, from 0, of a pattern of a library that an architecture doesn't meet; none
/// where it meets all.
pub fn first_broken(lib: &Library, arch: &Architecture) -> Option<usize>
    requires { IsArchitecture lib.now arch.now }
    ensures none { IfNone result (All (MeetsPattern lib.now arch.now) lib.now.patterns) }
    ensures broken { IfSome result
        (λ k. IsSomeAnd (slice_get lib.now.patterns k) (λ p. ¬ MeetsPattern lib.now arch.now p)) }
    ensures first { IfSome result (λ k. All (MeetsPattern lib.now arch.now) (take k lib.now.patterns)) }
{
    let patterns = lib.patterns();
    for (k, p) in patterns.iter().enumerate() {
        if !meets_pattern(lib, arch, p) {
            return Some(k);
        }
    }
    None
}
