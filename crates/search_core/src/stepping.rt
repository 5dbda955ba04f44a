// One step of a search.
ghost use Rattle.std.specs.Prelude.{◌≡◌, List, OnOk, OnErr, IfErr};
ghost use Rattle.search_core.specs.Step.{Step};
ghost use Rattle.search_core.specs.Parts.{IsStateOf};
ghost use Rattle.search_core.specs.Rules.{HasWeights};
ghost use Rattle.search_core.specs.Refused.{BreaksFirst};

use crate::entry::Entry;
use crate::rule::Rule;
use crate::state::State;
use rows::Problem;

/// Why an entry was refused.
#[derive(Clone, Copy, Debug, PartialEq, Eq)]
pub enum StepError {
    /// Want of memory.
    Memory,
    /// The first rule that the entry breaks.
    Bad(Rule),
}

/// Makes the state that an entry leads to, where it is a step from there. The weights are those of
/// the candidate's required sinks, in requirement order, where the entry accepts or publishes for a
/// node under study. Bad comes exactly where the entry is no step, with the first rule that it
/// breaks, and Memory only where it is one. After an error the state is as it was.
pub fn step(
    state: &mut State,
    problem: &Problem,
    entry: &Entry,
    weights: &[u128],
) -> Result<(), StepError>
    requires of { IsStateOf problem.now state.old }
    requires weights { HasWeights problem.now state.old.search entry.now weights.now }
    ensures ok { OnOk result (Step problem.now state.old.search entry.now state.new.search) }
    ensures of { IsStateOf problem.now state.new }
    ensures bad { IfErr result (λ e. BreaksFirst problem.now state.old.search entry.now e) }
    ensures unchanged { OnErr result (state.new ≡ state.old) }
{
    let change = match state.judge(problem, entry, weights) {
        Ok(change) => change,
        Err(rule) => return Err(StepError::Bad(rule)),
    };
    if state.reserve().is_err() {
        return Err(StepError::Memory);
    }
    state.make(change);
    Ok(())
}
