// What a component is an instance of, whether it is a source, and what it supplies and demands.
ghost use Rattle.std.specs.Prelude.{◌≡◌, ◌≤◌, ◌^◌};
ghost use Rattle.arch_model.specs.Path as path;
ghost use Rattle.arch_model.specs.Pattern as spec;

use crate::library::Library;
use crate::sets::CompId;
use crate::template::Role;

/// Whether component c is an instance of type t, both by number; no where there is no component c.
pub fn is_instance(lib: &Library, t: u32, c: CompId) -> bool
    ensures { result ≡ spec.is_instance lib.now t c.0 }
{
    lib.components()
        .get(c.0 as usize)
        .is_some_and(|component| component.of == t)
}

/// Whether component c is a source, where paths begin; no where there is no component c.
pub fn is_source(lib: &Library, c: CompId) -> bool
    ensures { result ≡ path.is_source lib.now c.0 }
{
    lib.components()
        .get(c.0 as usize)
        .is_some_and(|component| matches!(component.role, Role::Source))
}

/// What component c supplies, in units of supply; 0 where there is no component c.
pub fn supply(lib: &Library, c: CompId) -> u64
    ensures value { result ≡ spec.at_component lib.now (λ c. c.supply) c.0 }
    ensures small { result ≤ 10 ^ 12 }
{
    match lib.components().get(c.0 as usize) {
        Some(component) => component.supply,
        None => 0,
    }
}

/// What component c demands, in units of supply; 0 where there is no component c.
pub fn demand(lib: &Library, c: CompId) -> u64
    ensures value { result ≡ spec.at_component lib.now (λ c. c.demand) c.0 }
    ensures small { result ≤ 10 ^ 12 }
{
    match lib.components().get(c.0 as usize) {
        Some(component) => component.demand,
        None => 0,
    }
}
