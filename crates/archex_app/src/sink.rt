// A sink by its name.
ghost use Rattle.std.specs.Prelude.{◌≡◌, ℕ, ◌<◌, Ok, IfOk, IfErr, IfSome, IfNone, length};
ghost use Rattle.archex_app.specs.Mass.{IsSinkNamed};
ghost use Rattle.archex_app.specs.Inner.Outcome.{StopsAtSink};

use crate::outcome::{Outcome, Stop};
use crate::status::Status;
use arch_model::{CompId, Library, Role};
use report::words_line;
use std::alloc::Global;
use std::borrow::CowSlice;
use template::find_component;

/// The place of a sink's name among the words.
pub const SINK_PLACE: u32 = 4;

// The component of role sink of that name; none where the name isn't a sink's.
fn find_sink(lib: &Library, name: &str) -> Option<CompId>
    ensures found { IfSome result (λ c. IsSinkNamed lib.now name.now c.0) }
    ensures none { IfNone result ((c : ℕ) → ¬ IsSinkNamed lib.now name.now c) }
{
    let c = find_component(lib, name)?;
    match lib.components()[c.0 as usize].role {
        Role::Sink => Some(c),
        _ => None,
    }
}

/// The component of role sink of that name. Where the name isn't a sink's, the words are refused for
/// the place of the name.
pub fn sink_named(alloc: Global, lib: &Library, name: &str, place: u32) -> Result<CompId, Stop>
    ensures sink { IfOk result (λ c. IsSinkNamed lib.now name.now c.0) }
    ensures stop { IfErr result (λ stop. StopsAtSink lib.now name.now place stop) }
{
    match find_sink(lib, name) {
        Some(sink) => Ok(sink),
        None => {
            let text = String::from_str(alloc, words_line(place).as_str())?;
            Err(Stop::Refused(Outcome {
                status: Status::WORDS_REFUSED,
                text: CowSlice::Owned(text.into_bytes()),
            }))
        }
    }
}
