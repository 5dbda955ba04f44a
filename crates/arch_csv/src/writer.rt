// The text of an architecture.
ghost use Rattle.std.specs.Prelude.{◌≡◌, ℕ, ◌<◌, ◌++◌, length, drop, Ok, OnOk, OnErr, IsTrue, string_bytes};
ghost use Rattle.std.specs.List.{flat_map};
ghost use Rattle.arch_model.specs.declared.limits.TheConstants.{COMPONENTS, EDGES};
ghost use Rattle.arch_model.specs.Set as set;
ghost use Rattle.arch_model.specs.Architecture.{IsArchitecture};
ghost use Rattle.arch_csv.specs.ArchitectureOf.{architecture_of_bytes};
ghost use Rattle.arch_csv.specs.Text.{component_line, edge_line, architecture_text};

use arch_model::{Architecture, CompSet, EdgeId, EdgeSet, Library, Memory};
use template::push_name;

// About how many bytes a line has.
const LINE: usize = 32;

// Appends the lines of some components, in order.
fn push_components(text: &mut String, lib: &Library, comps: &CompSet) -> Result<(), Memory>
    requires { (c : ℕ) → IsTrue (set.has comps.now c) → c < length lib.now.components }
    ensures { OnOk result (string_bytes text.new ≡ string_bytes text.old
        ++ flat_map (component_line lib.now) (set.members_below comps.now COMPONENTS)) }
{
    for component in comps.members() {
        text.push_str("component,")?;
        push_name(text, lib, component)?;
        text.push_str(",\n")?;
    }
    Ok(())
}

// Appends the line of one edge.
fn push_edge(text: &mut String, lib: &Library, edge: EdgeId) -> Result<(), Memory>
    requires { edge.0 < length lib.now.edges }
    ensures { OnOk result (string_bytes text.new ≡ string_bytes text.old ++ edge_line lib.now edge.0) }
{
    let row = lib.edges()[edge.0 as usize];
    text.push_str("edge,")?;
    push_name(text, lib, row.tail)?;
    text.push_str(",")?;
    push_name(text, lib, row.head)?;
    text.push_str("\n")?;
    Ok(())
}

// Appends the lines of some edges, in order.
fn push_edges(text: &mut String, lib: &Library, edges: &EdgeSet) -> Result<(), Memory>
    requires { (e : ℕ) → IsTrue (set.has edges.now e) → e < length lib.now.edges }
    ensures { OnOk result (string_bytes text.new ≡ string_bytes text.old
        ++ flat_map (edge_line lib.now) (set.members_below edges.now EDGES)) }
{
    for edge in edges.members() {
        push_edge(text, lib, edge)?;
    }
    Ok(())
}

// Appends the text of an architecture's file: a header, the components in order, then the edges
// in order. Names need no quotes, so the text is written as it stands.
fn push_architecture(text: &mut String, lib: &Library, arch: &Architecture) -> Result<(), Memory>
    requires { IsArchitecture lib.now arch.now }
    ensures { OnOk result (string_bytes text.new ≡ string_bytes text.old ++ architecture_text lib.now arch.now) }
{
    text.push_str("kind,from,to\n")?;
    push_components(text, lib, &arch.comps())?;
    push_edges(text, lib, &arch.edges())?;
    Ok(())
}

/// Appends an architecture's file, which is its text. What was appended reads back as the same
/// architecture. Where memory is wanting, nothing is appended.
pub fn write_architecture(
    lib: &Library,
    arch: &Architecture,
    out: &mut Vec<u8>,
) -> Result<(), Memory>
    requires { IsArchitecture lib.now arch.now }
    ensures text { OnOk result (out.new.items ≡ out.old.items ++ architecture_text lib.now arch.now) }
    ensures reads_back { OnOk result
        (architecture_of_bytes lib.now (drop (length out.old.items) out.new.items) ≡ Ok arch.now) }
    ensures err { OnErr result (out.new.items ≡ out.old.items) }
{
    let mut text = String::with_capacity(*out.allocator(), LINE * lib.components().len())?;
    push_architecture(&mut text, lib, arch)?;
    out.extend_from_slice(text.as_bytes())?;
    Ok(())
}
