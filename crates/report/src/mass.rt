// The bounds of a failure mass.
ghost use Rattle.std.specs.Prelude.{◌≡◌, ◌++◌, OnOk, OnErr, string_bytes};
ghost use Rattle.report.specs.Mass.{mass_text};

use arch_model::Memory;

// Appends the line of the two bounds.
fn push_mass(text: &mut String, low: u64, high: u64) -> Result<(), Memory>
    ensures { OnOk result (string_bytes text.new ≡ string_bytes text.old ++ mass_text (low, high)) }
{
    write!(text, "mass {low} {high}\n")?;
    Ok(())
}

/// Appends the line of two bounds of a sink's failure mass, in units of 10^-18, the lower one first.
/// Where memory is wanting, nothing is appended.
pub fn mass_text(low: u64, high: u64, out: &mut Vec<u8>) -> Result<(), Memory>
    ensures text { OnOk result (out.new.items ≡ out.old.items ++ mass_text (low, high)) }
    ensures err { OnErr result (out.new.items ≡ out.old.items) }
{
    let mut text = String::new(*out.allocator());
    push_mass(&mut text, low, high)?;
    out.extend_from_slice(text.as_bytes())
}
