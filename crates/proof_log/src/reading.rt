// Reading a line of a log.
ghost use Rattle.std.specs.Prelude.{◌≡◌, ℕ, ◌<◌, ◌≤◌, length, IfOk, IfErr};
ghost use Rattle.proof_log.specs.Value.{log_line, text_of};
ghost use Rattle.proof_log.specs.Fault.{BreaksNone, FailsFirst, Reads};
ghost use Rattle.proof_log.specs.Log.{IsLoggable};
ghost use Rattle.proof_log.specs.Inner.Reading.{Says, line_of, line_behind, whole_line_at};

use crate::lines::{
    accept, answer, branch, limit, offer, park, prune, publish, reopen, study, take, vars, version,
};
use crate::log_line::{LINE_BYTES, LineError, LineFault, LogLine};
use crate::word::{Word, first_word};
use std::alloc::Global;

// What a line says behind its first word.
fn read_behind(alloc: Global, word: Word, rest: &[u8]) -> Result<LogLine, LineError>
    ensures { Says result (line_behind word rest.now) }
{
    match word {
        Word::Version => version(rest),
        Word::Vars => vars(rest),
        Word::Limit => limit(rest),
        Word::Take => take(rest),
        Word::Branch => branch(alloc, rest),
        Word::Prune => prune(alloc, rest),
        Word::Offer => offer(alloc, rest),
        Word::Study => study(rest),
        Word::Publish => publish(rest),
        Word::Accept => accept(rest),
        Word::Park => park(rest),
        Word::Reopen => reopen(rest),
        Word::Answer => answer(rest),
    }
}

// A line of any length.
#[tactic(auto, unfolding(crate::specs::Inner::Reading::whole_line_at))]
fn read_whole(alloc: Global, line: &[u8]) -> Result<LogLine, LineError>
    ensures { Says result (whole_line_at line.now) }
{
    let (word, rest) = first_word(line);
    match word {
        Some(word) => read_behind(alloc, word, rest),
        None => Err(LineError::Fault(LineFault::Form)),
    }
}

// A line, by the definition that reads from left to right.
#[tactic(auto, unfolding(crate::specs::Inner::Reading::line_of))]
fn read(alloc: Global, line: &[u8]) -> Result<LogLine, LineError>
    ensures { Says result (line_of line.now) }
{
    if line.len() > LINE_BYTES {
        return Err(LineError::Fault(LineFault::TooLong));
    }
    read_whole(alloc, line)
}

/// What a line of a log says, without its line feed. Each rule is judged over the whole line before
/// the next: its length, its form, its numbers, the order of its lists.
pub fn read_line(alloc: Global, line: &[u8]) -> Result<LogLine, LineError>
    // What is read can be logged, the line is its text, and the line breaks no rule.
    ensures value { IfOk result (λ x. IsLoggable x × (line.now ≡ text_of (log_line x))) }
    ensures none_broken { IfOk result (λ x. BreaksNone line.now) }

    // A fault is the first rule that the line breaks.
    ensures fault { IfErr result (λ e. FailsFirst line.now e) }

    // The text of what can be logged is read as that, unless memory runs out.
    ensures exact { (x : LogLine) → IsLoggable x → line.now ≡ text_of (log_line x)
        → length line.now ≤ LINE_BYTES → Reads result x }
{
    read(alloc, line)
}
