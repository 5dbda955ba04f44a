//! The template of a library's types and links, and the names of its components.
//!
//! `expand` makes all components and edges that an architecture may have: it answers
//! `template_of` of the types and links. `has_few_components` and `has_few_edges` are the tests of
//! the limits, before anything is made. `name_of` and `push_name` give a component's name as
//! people write it, `bus.2`; `find_component` and `find_edge` go the other way. No two components
//! of a library have one name (`laws::names_differ`).
//!
//! Stands on `arch_model`. `expand` looks at each pair of components for each link; a name is
//! found by a look at each component.
#![tactic(auto)]

mod edges;
mod finding;
mod instances;
pub mod laws;
mod names;

pub use edges::{expand, has_few_edges};
pub use finding::{find_component, find_edge};
pub use instances::{TYPES, has_few_components};
pub use names::{index_in, instance_name, name_of, push_name};

#[cfg(test)]
mod tests;
