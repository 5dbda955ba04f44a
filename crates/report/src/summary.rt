// The search of a generated library.
ghost use Rattle.std.specs.Prelude.{◌≡◌, ◌++◌, OnOk, OnErr, string_bytes};
ghost use Rattle.report.specs.Summary.{sizes_text, least_cost_line, generated_text};

use crate::answers::status_line;
use arch_model::{Library, Memory};
use search_core::Answer;

// Appends how many components and edges a library has.
fn push_sizes(text: &mut String, lib: &Library) -> Result<(), Memory>
    ensures { OnOk result (string_bytes text.new ≡ string_bytes text.old ++ sizes_text lib.now) }
{
    let (components, edges) = (lib.components().len(), lib.edges().len());
    write!(text, "components {components}\nedges {edges}\n")?;
    Ok(())
}

// Appends the least cost, where an answer has one.
fn push_least_cost(text: &mut String, answer: &Answer) -> Result<(), Memory>
    ensures { OnOk result
        (string_bytes text.new ≡ string_bytes text.old ++ least_cost_line answer.now) }
{
    if let Answer::Optimal { cost } = *answer {
        write!(text, "cost {cost}\n")?;
    }
    Ok(())
}

// Appends the summary of a search.
fn push_summary(text: &mut String, lib: &Library, answer: &Answer) -> Result<(), Memory>
    ensures { OnOk result (string_bytes text.new ≡ string_bytes text.old
        ++ generated_text lib.now answer.now) }
{
    push_sizes(text, lib)?;
    text.push_str(status_line(answer))?;
    push_least_cost(text, answer)?;
    Ok(())
}

/// Appends the summary of the search of a generated library: how many components and edges it has,
/// the answer, and the least cost where the answer is Optimal. Where memory is wanting, nothing is
/// appended.
pub fn generated_text(lib: &Library, answer: &Answer, out: &mut Vec<u8>) -> Result<(), Memory>
    ensures text { OnOk result (out.new.items ≡ out.old.items ++ generated_text lib.now answer.now) }
    ensures err { OnErr result (out.new.items ≡ out.old.items) }
{
    let mut text = String::new(*out.allocator());
    push_summary(&mut text, lib, answer)?;
    out.extend_from_slice(text.as_bytes())
}
