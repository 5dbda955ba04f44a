// Whether rows make a library.
ghost use Rattle.std.specs.Prelude.{◌↔◌, IsTrue};
ghost use Rattle.arch_model.specs.Library.{IsLibrary, library_parts};

mod expected;
mod rows;

use crate::library::{LinkRow, Pattern, Requirement, TypeRow};
use crate::limits::{COMPONENTS, EDGES, PATTERNS, REQUIREMENTS};
use crate::template::Template;
use expected::{are_components, are_edges};
use rows::{
    are_link_rows, are_pattern_rows, are_sinks, are_type_rows, ends_differ, few_may_fail,
    have_bounds, names_differ,
};

/// Whether rows make a library: each in its range, names and links not repeated, within the limits,
/// and the template that of the types and links. It is the exact test of what `Library::new`
/// requires.
pub fn is_library(
    types: &[TypeRow],
    links: &[LinkRow],
    template: &Template,
    patterns: &[Pattern],
    requirements: &[Requirement],
) -> bool
    ensures { IsTrue result ↔ IsLibrary (library_parts types.now links.now template.now patterns.now requirements.now) }
{
    let components = template.components();
    let edges = template.edges();
    if components.len() > COMPONENTS {
        return false;
    }
    if edges.len() > EDGES {
        return false;
    }
    if patterns.len() > PATTERNS {
        return false;
    }
    if requirements.len() > REQUIREMENTS {
        return false;
    }
    if !are_type_rows(types) {
        return false;
    }
    if !names_differ(types) {
        return false;
    }
    if !are_link_rows(links, types.len()) {
        return false;
    }
    if !ends_differ(links) {
        return false;
    }
    if !are_components(components, types) {
        return false;
    }
    if !are_edges(edges, components, links) {
        return false;
    }
    if !are_pattern_rows(patterns, types.len(), components.len()) {
        return false;
    }
    if !are_sinks(requirements, components) {
        return false;
    }
    have_bounds(requirements) && few_may_fail(components, edges)
}
