// What members cost.
ghost use Rattle.std.specs.Prelude.{◌≡◌, ◌≤◌, ◌<◌, ◌^◌};
ghost use Rattle.arch_model.specs.Library.{IsLibrary};
ghost use Rattle.arch_model.specs.Member.{member_count};
ghost use Rattle.rows.specs.BaseRows.{member_cost_of};

use arch_model::limits::MEMBERS;
use arch_model::{Library, VarId};

/// The number of members of a library's template, which is that of its variables.
pub fn variable_count(lib: &Library) -> u32
    ensures count { result ≡ member_count lib.now }
    ensures few { result ≤ MEMBERS }
    ensures library { IsLibrary lib.now }
{
    (lib.components().len() + lib.edges().len()) as u32
}

/// What a member costs, in cost units.
pub fn member_cost(lib: &Library, v: VarId) -> u64
    requires { v.0 < member_count lib.now }
    ensures value { result ≡ member_cost_of lib.now v.0 }
    ensures small { result ≤ 10 ^ 12 }
{
    let components = lib.components();
    let i = v.0 as usize;
    if i < components.len() {
        components[i].cost
    } else {
        lib.edges()[i - components.len()].cost
    }
}
