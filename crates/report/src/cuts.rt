// All minimal cut sets of a sink.
ghost use Rattle.std.specs.Prelude.{◌≡◌, ◌++◌, OnOk, OnErr, string_bytes};
ghost use Rattle.arch_model.specs.Architecture.{IsArchitecture};
ghost use Rattle.report.specs.Sets.{cuts_text};

use crate::set_lines::{push_end, push_set};
use arch_model::{Architecture, CompId, Library, Memory, product};
use cut_sets::CutSets;

// Appends a line for each set, and the last two lines.
fn push_cuts(
    text: &mut String,
    lib: &Library,
    arch: &Architecture,
    sink: CompId,
) -> Result<(), Memory>
    requires { IsArchitecture lib.now arch.now }
    ensures { OnOk result (string_bytes text.new ≡ string_bytes text.old
        ++ cuts_text lib.now arch.now sink.0) }
{
    let mut sets = 0;
    let mut sum = 0;
    for members in CutSets::new(*text.allocator(), lib, arch, sink) {
        push_set(text, lib, members.as_slice())?;
        sets += 1;
        sum += product(lib, members.as_slice()) as u128;
    }
    push_end(text, sets, sum)?;
    Ok(())
}

/// Appends all minimal cut sets of positive product of a sink, a line each in ascending order, then
/// how many they are and the sum of their products, which is what the sink weighs. The architecture
/// must fit the library. Where memory is wanting, nothing is appended.
pub fn cuts_text(
    lib: &Library,
    arch: &Architecture,
    sink: CompId,
    out: &mut Vec<u8>,
) -> Result<(), Memory>
    requires { IsArchitecture lib.now arch.now }
    ensures text { OnOk result (out.new.items ≡ out.old.items ++ cuts_text lib.now arch.now sink.0) }
    ensures err { OnErr result (out.new.items ≡ out.old.items) }
{
    let mut text = String::new(*out.allocator());
    push_cuts(&mut text, lib, arch, sink)?;
    out.extend_from_slice(text.as_bytes())
}
