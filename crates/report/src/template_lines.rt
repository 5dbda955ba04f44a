// The numbered components and edges of a library.
ghost use Rattle.std.specs.Prelude.{◌≡◌, ℕ, ◌+◌, ◌-◌, ◌<◌, ◌++◌, length, OnOk, OnErr, string_bytes};
ghost use Rattle.std.specs.List.{flat_map, range_with_len};
ghost use Rattle.report.specs.Template.{role_text, component_line, edge_line, template_text};

use arch_model::{CompId, EdgeId, Library, Memory, Role};
use template::push_name;

// A role's word.
fn role_text(role: Role) -> &'static str
    ensures { result.now ≡ role_text role }
{
    match role {
        Role::Source => "source",
        Role::Middle => "middle",
        Role::Sink => "sink",
    }
}

// Appends the line of a component.
fn push_component(text: &mut String, lib: &Library, c: CompId) -> Result<(), Memory>
    requires { c.0 < length lib.now.components }
    ensures { OnOk result
        (string_bytes text.new ≡ string_bytes text.old ++ component_line lib.now c.0) }
{
    let row = lib.components()[c.0 as usize];
    let (variable, role) = (c.0, role_text(row.role));
    let (cost, supply, demand, fail) = (row.cost, row.supply, row.demand, row.fail);
    write!(text, "component {variable} ")?;
    push_name(text, lib, c)?;
    write!(text, " {role} {cost} {supply} {demand} {fail}\n")?;
    Ok(())
}

// Appends the line of an edge.
fn push_edge(text: &mut String, lib: &Library, e: EdgeId) -> Result<(), Memory>
    requires { e.0 < length lib.now.edges }
    ensures { OnOk result (string_bytes text.new ≡ string_bytes text.old ++ edge_line lib.now e.0) }
{
    let row = lib.edges()[e.0 as usize];
    let (variable, cost) = (lib.components().len() + e.0 as usize, row.cost);
    write!(text, "edge {variable} ")?;
    push_name(text, lib, row.tail)?;
    text.push_str(" ")?;
    push_name(text, lib, row.head)?;
    write!(text, " {cost}\n")?;
    Ok(())
}

// Appends the lines of all components.
fn push_components(text: &mut String, lib: &Library) -> Result<(), Memory>
    ensures { OnOk result (string_bytes text.new ≡ string_bytes text.old
        ++ flat_map (component_line lib.now) (range_with_len 0 (length lib.now.components))) }
{
    let count = lib.components().len() as u32;
    for c in 0..count {
        push_component(text, lib, CompId(c))?;
    }
    Ok(())
}

// Appends the lines of all edges.
fn push_edges(text: &mut String, lib: &Library) -> Result<(), Memory>
    ensures { OnOk result (string_bytes text.new ≡ string_bytes text.old
        ++ flat_map (edge_line lib.now) (range_with_len 0 (length lib.now.edges))) }
{
    let count = lib.edges().len() as u32;
    for e in 0..count {
        push_edge(text, lib, EdgeId(e))?;
    }
    Ok(())
}

/// Appends the line of a component: its variable, name, role, cost, supply and demand, and how
/// often it fails, in parts per million. Where memory is wanting, nothing is appended.
pub fn component_line(lib: &Library, c: CompId, out: &mut Vec<u8>) -> Result<(), Memory>
    requires { c.0 < length lib.now.components }
    ensures text { OnOk result (out.new.items ≡ out.old.items ++ component_line lib.now c.0) }
    ensures err { OnErr result (out.new.items ≡ out.old.items) }
{
    let mut text = String::new(*out.allocator());
    push_component(&mut text, lib, c)?;
    out.extend_from_slice(text.as_bytes())
}

/// Appends the line of an edge: its variable, the names of the components that it leads from and
/// to, and its cost. Where memory is wanting, nothing is appended.
pub fn edge_line(lib: &Library, e: EdgeId, out: &mut Vec<u8>) -> Result<(), Memory>
    requires { e.0 < length lib.now.edges }
    ensures text { OnOk result (out.new.items ≡ out.old.items ++ edge_line lib.now e.0) }
    ensures err { OnErr result (out.new.items ≡ out.old.items) }
{
    let mut text = String::new(*out.allocator());
    push_edge(&mut text, lib, e)?;
    out.extend_from_slice(text.as_bytes())
}

/// Appends a library's template: a line for each component, then one for each edge, in order. Where
/// memory is wanting, nothing is appended.
pub fn template_text(lib: &Library, out: &mut Vec<u8>) -> Result<(), Memory>
    ensures text { OnOk result (out.new.items ≡ out.old.items ++ template_text lib.now) }
    ensures err { OnErr result (out.new.items ≡ out.old.items) }
{
    let mut text = String::new(*out.allocator());
    push_components(&mut text, lib)?;
    push_edges(&mut text, lib)?;
    out.extend_from_slice(text.as_bytes())
}
