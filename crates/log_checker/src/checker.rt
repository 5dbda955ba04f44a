// The checker of a log.
ghost use Rattle.std.specs.Prelude.{◌≡◌, IfOk, IfErr, OnOk, OnErr};
ghost use Rattle.search_core.specs.declared.rule.Rule.TheVariants as rule;
ghost use Rattle.log_checker.specs.Phase as phases;
ghost use Rattle.log_checker.specs.Phase.{next_line, IsPhaseOf, IsClosedWith, IsUnclosed};
ghost use Rattle.log_checker.specs.Feeding.{LineLeads};
ghost use Rattle.log_checker.specs.Refused.{NamesRule, NamesLine};

use crate::error::{CheckError, No, rule_of};
use arch_model::Memory;
use proof_log::{LineError, read_line};
use rows::Problem;
use search_core::{Answer, Rule, State, StepError, start};
use std::alloc::Global;
use std::marker::Model;

// How far the lines of a log have come.
#[derive(Clone, Copy, PartialEq, Eq)]
pub(crate) enum Stage {
    // No line was fed.
    Begun,
    // The version was.
    Versioned,
    // The numbers of components and edges were, too.
    Sized,
    // All header lines were.
    Running,
    // The closing line was, with this answer.
    Closed(Answer),
}

/// What judges a log line by line: its problem, how many lines were fed (up to 2^64 - 1), and how
/// far they have come. From the third line on that is a state to which the entries' steps lead
/// from the start under the limit that the third line states; and from the closing line on that
/// state's answer, too.
#[derive(Drop)]
pub struct Checker {
    pub(crate) alloc: Global,
    pub(crate) problem: Problem,
    pub(crate) lines: u64,
    pub(crate) stage: Stage,
    // Before the third line, the start under limit 0, which nothing reads.
    pub(crate) state: State,
}

impl Model for Checker {
    ghost use Rattle.rows.specs.contracts.problem.Problem.{the_row as the_problem};
    ghost use Rattle.search_core.specs.contracts.answer.Answer.{the_row as the_answer};
    ghost use Rattle.search_core.specs.Parts.{IsStateOf};
    ghost use Rattle.log_checker.specs.Phase.{CheckerParts, IsPhaseOf};
    ghost use Rattle.log_checker.specs.Inner.Codes.{checker_code, phase_of};

    ghost Value = { CheckerParts };

    ghost coded = { checker_code the_problem.coded the_answer.coded };

    ghost view = { λ a. record {
      problem = a.problem;
      lines = a.lines;
      phase = phase_of a.stage a.state.search;
    } };

    ghost invariant = { λ a. IsStateOf a.problem a.state
        × IsPhaseOf a.problem (phase_of a.stage a.state.search) };
}

impl Checker {
    /// The checker of logs for a problem, to which no line was fed. The only error is want of
    /// memory.
    pub fn new(alloc: Global, problem: &Problem) -> Result<Checker, Memory>
        ensures { IfOk result (λ checker.
            checker ≡ record { problem = problem.now; lines = 0; phase = phases.Begun }) }
    {
        let state = start(alloc, problem, 0)?;
        let problem = problem.copy()?;
        Ok(Checker {
            alloc,
            problem,
            lines: 0,
            stage: Stage::Begun,
            state,
        })
    }

    // The number of the line that comes next.
    pub(crate) fn next_line(&self) -> u64
        ensures number { result ≡ next_line self.now.lines }
        ensures keeps { IsPhaseOf self.now.problem self.now.phase }
    {
        self.lines.saturating_add(1)
    }

    /// Judges the next line, given without its line feed. No comes exactly where the line breaks a
    /// rule, with the first; else the line leads on, unless memory ran out. After an error the
    /// checker is as it was.
    pub fn feed(&mut self, line: &[u8]) -> Result<(), CheckError>
        ensures leads { OnOk result
            (LineLeads self.old.problem self.old.phase line.now self.new.phase) }
        ensures counted { OnOk result (self.new.lines ≡ next_line self.old.lines) }
        ensures problem { self.new.problem ≡ self.old.problem }
        ensures keeps { IsPhaseOf self.new.problem self.new.phase }
        ensures no { IfErr result (λ e. NamesRule self.old line.now e) }
        ensures number { IfErr result (λ e. NamesLine self.old e) }
        ensures unchanged { OnErr result (self.new ≡ self.old) }
    {
        let number = self.next_line();
        let said = match read_line(self.alloc, line) {
            Ok(said) => said,
            Err(LineError::Memory) => return Err(CheckError::Memory),
            Err(LineError::Fault(fault)) => {
                return Err(CheckError::No(No {
                    line: number,
                    rule: rule_of(fault),
                }));
            }
        };
        match self.take(&said) {
            Ok(()) => {
                self.lines = number;
                Ok(())
            }
            Err(StepError::Memory) => Err(CheckError::Memory),
            Err(StepError::Bad(rule)) => Err(CheckError::No(No { line: number, rule })),
        }
    }

    /// The answer of the closing line. No, with the rule End and the number of the line that is
    /// missing, comes exactly where no closing line was fed. The checker stays as it is.
    pub fn finish(&mut self) -> Result<Answer, No>
        ensures ok { IfOk result (λ answer. IsClosedWith answer self.old.phase) }
        ensures no { OnErr result (IsUnclosed self.old.phase) }
        ensures end { IfErr result
            (λ no. no ≡ record { line = next_line self.old.lines; rule = rule.End }) }
        ensures keeps { IsPhaseOf self.old.problem self.old.phase }
        ensures unchanged { self.new ≡ self.old }
    {
        match self.stage {
            Stage::Closed(answer) => Ok(answer),
            _ => Err(No {
                line: self.next_line(),
                rule: Rule::End,
            }),
        }
    }
}
