// What a line does that was read, by its kind.
ghost use Rattle.std.specs.Prelude.{◌≡◌, true, false, length, IfErr, OnOk, OnErr};
ghost use Rattle.search_core.specs.declared.stepping.StepError.TheVariants.{Bad};
ghost use Rattle.proof_log.specs.declared.log_line.LogLine.TheVariants as lines;
ghost use Rattle.log_checker.specs.Feeding.{Leads, IsAnswer};
ghost use Rattle.log_checker.specs.Inner.Refused.{SaidFails, KeepsTheRest, place_rule};

use crate::checker::{Checker, Stage};
use crate::weighing::weighed_step;
use proof_log::LogLine;
use search_core::limits::BRANCHINGS;
use search_core::{Answer, Entry, Rule, State, StepError, start};

// Where a header line comes whose place isn't this one: after the closing line that is the first
// rule that it breaks.
fn out_of_place(stage: Stage) -> StepError
    ensures { result ≡ Bad (place_rule stage) }
{
    match stage {
        Stage::Closed(_) => StepError::Bad(Rule::After),
        _ => StepError::Bad(Rule::Header),
    }
}

// Whether a state's answer and numbers are those of a closing line.
fn is_answer(state: &State, answer: Answer, branchings: u32, cuts: u32) -> bool
    ensures yes { result ≡ true → IsAnswer state.now.search answer branchings cuts }
    ensures not { result ≡ false → IsAnswer state.now.search answer branchings cuts → ⊥ }
{
    if state.branchings() != branchings {
        return false;
    }
    if state.cuts().len() != cuts {
        return false;
    }
    match state.answer() {
        Some(found) => found == answer,
        None => false,
    }
}

impl Checker {
    // Takes the line that states the version.
    fn version(&mut self) -> Result<(), StepError>
        ensures leads { OnOk result
            (Leads self.old.problem self.old.phase lines.Version self.new.phase) }
        ensures rest { KeepsTheRest self.old self.new }
        ensures broken { IfErr result
            (SaidFails self.old.problem self.old.phase lines.Version) }
        ensures unchanged { OnErr result (self.new ≡ self.old) }
    {
        match self.stage {
            Stage::Begun => {
                self.stage = Stage::Versioned;
                Ok(())
            }
            stage => Err(out_of_place(stage)),
        }
    }

    // Whether a template's numbers of components and edges are the problem's.
    fn has_sizes(&self, components: u32, edges: u32) -> bool
        ensures yes { result ≡ true → (components ≡ length self.now.problem.library.components)
            × (edges ≡ length self.now.problem.library.edges) }
        ensures not { result ≡ false → components ≡ length self.now.problem.library.components
            → edges ≡ length self.now.problem.library.edges → ⊥ }
    {
        let library = self.problem.library();
        if library.components().len() as u32 != components {
            return false;
        }
        library.edges().len() as u32 == edges
    }

    // Takes the line that states the numbers of components and edges.
    fn vars(&mut self, components: u32, edges: u32) -> Result<(), StepError>
        ensures leads { OnOk result
            (Leads self.old.problem self.old.phase (lines.Vars components edges) self.new.phase) }
        ensures rest { KeepsTheRest self.old self.new }
        ensures broken { IfErr result
            (SaidFails self.old.problem self.old.phase (lines.Vars components edges)) }
        ensures unchanged { OnErr result (self.new ≡ self.old) }
    {
        match self.stage {
            Stage::Versioned => {
                if !self.has_sizes(components, edges) {
                    return Err(StepError::Bad(Rule::Header));
                }
                self.stage = Stage::Sized;
                Ok(())
            }
            stage => Err(out_of_place(stage)),
        }
    }

    // Takes the line that states the limit, from which on there is a state.
    fn limit(&mut self, limit: u32) -> Result<(), StepError>
        ensures leads { OnOk result
            (Leads self.old.problem self.old.phase (lines.Limit limit) self.new.phase) }
        ensures rest { KeepsTheRest self.old self.new }
        ensures broken { IfErr result
            (SaidFails self.old.problem self.old.phase (lines.Limit limit)) }
        ensures unchanged { OnErr result (self.new ≡ self.old) }
    {
        match self.stage {
            Stage::Sized => {
                if limit > BRANCHINGS {
                    return Err(StepError::Bad(Rule::Header));
                }
                let Ok(state) = start(self.alloc, &self.problem, limit) else {
                    return Err(StepError::Memory);
                };
                self.state = state;
                self.stage = Stage::Running;
                Ok(())
            }
            stage => Err(out_of_place(stage)),
        }
    }

    // Takes an entry, which is a step from the state.
    fn enter(&mut self, entry: &Entry) -> Result<(), StepError>
        ensures leads { OnOk result
            (Leads self.old.problem self.old.phase (lines.Entry entry.now) self.new.phase) }
        ensures rest { KeepsTheRest self.old self.new }
        ensures broken { IfErr result
            (SaidFails self.old.problem self.old.phase (lines.Entry entry.now)) }
        ensures unchanged { OnErr result (self.new ≡ self.old) }
    {
        match self.stage {
            Stage::Running => weighed_step(self.alloc, &mut self.state, &self.problem, entry),
            stage => Err(out_of_place(stage)),
        }
    }

    // Takes the closing line.
    fn close(&mut self, answer: Answer, branchings: u32, cuts: u32) -> Result<(), StepError>
        ensures leads { OnOk result
            (Leads self.old.problem self.old.phase (lines.Closing answer branchings cuts)
            self.new.phase) }
        ensures rest { KeepsTheRest self.old self.new }
        ensures broken { IfErr result
            (SaidFails self.old.problem self.old.phase (lines.Closing answer branchings cuts)) }
        ensures unchanged { OnErr result (self.new ≡ self.old) }
    {
        match self.stage {
            Stage::Running => {
                if !is_answer(&self.state, answer, branchings, cuts) {
                    return Err(StepError::Bad(Rule::Answer));
                }
                self.stage = Stage::Closed(answer);
                Ok(())
            }
            stage => Err(out_of_place(stage)),
        }
    }

    // Takes what a line says.
    pub(crate) fn take(&mut self, said: &LogLine) -> Result<(), StepError>
        ensures leads { OnOk result
            (Leads self.old.problem self.old.phase said.now self.new.phase) }
        ensures rest { KeepsTheRest self.old self.new }
        ensures broken { IfErr result
            (SaidFails self.old.problem self.old.phase said.now) }
        ensures unchanged { OnErr result (self.new ≡ self.old) }
    {
        match said {
            LogLine::Version => self.version(),
            LogLine::Vars(components, edges) => self.vars(*components, *edges),
            LogLine::Limit(limit) => self.limit(*limit),
            LogLine::Entry(entry) => self.enter(entry),
            LogLine::Closing(answer, branchings, cuts) => self.close(*answer, *branchings, *cuts),
        }
    }
}
