// Counts of present components, and the kinds of pattern that rest on them.
ghost use Rattle.std.specs.Prelude.{◌≡◌, ◌<◌, ◌≤◌, ◌&&◌, ◌↔◌, IsTrue, nat_eq, count_by};
ghost use Rattle.arch_model.specs.Set.{has};
ghost use Rattle.arch_model.specs.Architecture.{present_components};
ghost use Rattle.arch_model.specs.Pattern as spec;

use arch_model::{Architecture, CompId, Library, is_instance};

// Whether component c is a present instance of type t.
pub(crate) fn is_present(lib: &Library, arch: &Architecture, t: u32, c: CompId) -> bool
    ensures { result ≡ (spec.is_instance lib.now t c.0 && has arch.now.comps c.0) }
{
    is_instance(lib, t, c) && arch.comps().has(c)
}

// Whether a number is at least min and, where max is given, at most max.
pub(crate) fn is_between(min: u32, max: Option<u32>, n: usize) -> bool
    ensures { IsTrue result ↔ spec.IsBetween min max n }
{
    let low = min as usize <= n;
    match max {
        Some(max) => low && n <= max as usize,
        None => low,
    }
}

// How many instances of type t are present.
pub(crate) fn count(lib: &Library, arch: &Architecture, t: u32) -> usize
    ensures { result ≡ count_by (λ c. nat_eq c.of t) (present_components lib.now arch.now) }
{
    let components = lib.components();
    let chosen = arch.comps();
    let mut total = 0;
    for (i, component) in components.iter().enumerate() {
        if chosen.has(CompId(i as u32)) {
            total += usize::from(component.of == t);
        }
    }
    total
}

// Whether an instance of b is present where one of a is.
pub(crate) fn implies(lib: &Library, arch: &Architecture, a: u32, b: u32) -> bool
    ensures { IsTrue result
        ↔ (0 < count_by (λ c. nat_eq c.of a) (present_components lib.now arch.now) → 0 < count_by
        (λ c. nat_eq c.of b) (present_components lib.now arch.now)) }
{
    count(lib, arch, a) == 0 || count(lib, arch, b) > 0
}
