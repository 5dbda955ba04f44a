// The components of a library's types.
ghost use Rattle.std.specs.Prelude.{◌≡◌, ◌≤◌, ◌<◌, ◌++◌, ◌↔◌, IsTrue, IfOk, OnOk, length};
ghost use Rattle.arch_model.specs.Template.{components_of, instances_of_type};

use arch_model::limits::COMPONENTS;
use arch_model::{Component, Memory, TypeRow};
use std::alloc::Global;

/// How many types can be numbered, 2^32: a component has its type's number.
pub const TYPES: u64 = 4294967296;

// Appends the instances of type number t.
fn push_instances(components: &mut Vec<Component>, t: u32, row: &TypeRow) -> Result<(), Memory>
    ensures { OnOk result (components.new.items ≡ components.old.items ++ instances_of_type t row.now) }
{
    for i in 0..row.max {
        components.push(Component {
            of: t,
            index: i + 1,
            role: row.role,
            cost: row.cost,
            supply: row.supply,
            demand: row.demand,
            fail: row.fail,
        })?;
    }
    Ok(())
}

/// The components of some types: types in order, then by index.
pub(crate) fn components(alloc: Global, types: &[TypeRow]) -> Result<Vec<Component>, Memory>
    requires numbered { length types.now ≤ TYPES }
    ensures { IfOk result (λ v. v.items ≡ components_of types.now) }
{
    let mut components = Vec::new(alloc);
    for (t, row) in types.iter().enumerate() {
        push_instances(&mut components, t as u32, row)?;
    }
    Ok(components)
}

/// Whether some types have at most as many instances as a library may have components.
pub fn has_few_components(types: &[TypeRow]) -> bool
    ensures { IsTrue result ↔ (length (components_of types.now) ≤ COMPONENTS) }
{
    let mut total = 0;
    for row in types {
        if row.max as usize > COMPONENTS - total {
            return false;
        }
        total += row.max as usize;
    }
    true
}
