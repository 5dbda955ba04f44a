// Judging a log that is read in pieces.
ghost use Rattle.std.specs.Prelude.{◌≡◌, ℕ, ◌+◌, ◌-◌, ◌≤◌, ◌<◌, List, [], ◌∷◌, ◌++◌, true, false};
ghost use Rattle.std.specs.Prelude.{◌==◌, length, position, IfOk, IfErr, OnOk, OnErr};
ghost use Rattle.proof_log.specs.Log.{LOG_BYTES, Accepts};
ghost use Rattle.log_checker.specs.Phase.{next_line};
ghost use Rattle.log_checker.specs.Text.{LINE_FEED, HasNoLineFeed, FirstBrokenLine};
ghost use Rattle.log_checker.specs.Reading.{IsReading, Adds, AddsFront, BreaksBehind};

use crate::checker::Checker;
use crate::error::{CheckError, No};
use arch_model::Memory;
use proof_log::LINE_BYTES;
use rows::Problem;
use search_core::{Answer, Rule};
use std::alloc::Global;
use std::marker::Model;

/// The greatest number of bytes of a log.
pub const LOG_BYTES: u64 = 4_294_967_296;

/// What judges a log that comes in pieces of any length, whatever lines they cut. It holds the
/// checker of its lines and, of a line whose line feed hasn't come, as many bytes as tell what it
/// breaks: up to one more than a line may have.
#[derive(Drop)]
pub struct TextChecker {
    pub(crate) checker: Checker,
    pub(crate) kept: Vec<u8>,
    // How many bytes came, at most `LOG_BYTES`.
    pub(crate) bytes: u64,
}

impl Model for TextChecker {
    ghost use Rattle.std.specs.Prelude.{◌≤◌, ◌+◌, length};
    ghost use Rattle.proof_log.specs.declared.log_line.TheConstants.{LINE_BYTES};
    ghost use Rattle.proof_log.specs.Log.{LOG_BYTES};
    ghost use Rattle.log_checker.specs.contracts.checker.Checker.{the_row as the_checker};
    ghost use Rattle.log_checker.specs.Reading.{TextParts};
    ghost use Rattle.log_checker.specs.Inner.Reading.{text_code};

    ghost Value = { TextParts };

    ghost coded = { text_code the_checker.coded };

    ghost view = { λ a. record { checker = a.checker; kept = a.kept.items; bytes = a.bytes } };

    ghost invariant = { λ a. (length a.kept.items ≤ LINE_BYTES + 1) × (a.bytes ≤ LOG_BYTES) };
}

// The place of the first line feed.
fn line_feed_in(bytes: &[u8]) -> Option<usize>
    ensures { result ≡ position (λ b. b == LINE_FEED) bytes.now }
{
    bytes.iter().position(|b| *b == b'\n')
}

impl TextChecker {
    /// The checker of logs for a problem, of which nothing was read. The only error is want of
    /// memory.
    pub fn new(alloc: Global, problem: &Problem) -> Result<TextChecker, Memory>
        ensures problem { IfOk result (λ reader. reader.checker.problem ≡ problem.now) }
        ensures begun { IfOk result (λ reader. IsReading reader []) }
    {
        let checker = Checker::new(alloc, problem)?;
        Ok(TextChecker {
            checker,
            kept: Vec::new(alloc),
            bytes: 0,
        })
    }

    /// How many bytes of the log were read, at most `LOG_BYTES`.
    pub fn bytes(&self) -> u64
        ensures bytes { result ≡ self.now.bytes }
        ensures few { self.now.bytes ≤ LOG_BYTES }
    {
        self.bytes
    }

    // That the line that is read breaks a rule.
    fn refused(&self, rule: Rule) -> No
        ensures { result ≡ record { line = next_line self.now.checker.lines; rule = rule } }
    {
        No {
            line: self.checker.next_line(),
            rule,
        }
    }

    // Whether the last of so many more bytes stands past the end of the longest log.
    fn is_past(&self, more: usize) -> bool
        ensures past { result ≡ true → LOG_BYTES < self.now.bytes + more }
        ensures fits { result ≡ false → self.now.bytes + more ≤ LOG_BYTES }
    {
        more as u64 > LOG_BYTES - self.bytes
    }

    // Whether no line is unfinished.
    fn is_between_lines(&self) -> bool
        ensures yes { result ≡ true → self.now.kept ≡ [] }
        ensures not { result ≡ false → 0 < length self.now.kept }
    {
        self.kept.is_empty()
    }

    // Whether the unfinished line has more bytes than a line may have.
    fn is_too_long(&self) -> bool
        ensures yes { result ≡ true → LINE_BYTES < length self.now.kept }
        ensures not { result ≡ false → length self.now.kept ≤ LINE_BYTES }
    {
        self.kept.len() > LINE_BYTES
    }

    // How many more bytes of the unfinished line are kept.
    fn room(&self) -> usize
        ensures { result ≡ LINE_BYTES + 1 - length self.now.kept }
    {
        LINE_BYTES + 1 - self.kept.len()
    }

    // Reads more bytes of an unfinished line.
    fn keep(&mut self, part: &[u8]) -> Result<(), CheckError>
        requires free { HasNoLineFeed part.now }
        requires fits { self.old.bytes + length part.now ≤ LOG_BYTES }
        ensures adds { OnOk result (Adds self.old part.now self.new) }
        ensures counted { OnOk result (self.new.bytes ≡ self.old.bytes + length part.now) }
        ensures checker { self.new.checker ≡ self.old.checker }
        ensures memory { IfErr result (λ e. e ≡ CheckError.Memory) }
        ensures unchanged { OnErr result (self.new ≡ self.old) }
    {
        let front = &part[..self.room().min(part.len())];
        if self.kept.extend_from_slice(front).is_err() {
            return Err(CheckError::Memory);
        }
        self.bytes += part.len() as u64;
        Ok(())
    }

    // Reads more bytes, none of which ends a line.
    fn go_on(&mut self, part: &[u8]) -> Result<(), CheckError>
        requires { HasNoLineFeed part.now }
        ensures adds { OnOk result (Adds self.old part.now self.new) }
        ensures no { IfErr result (BreaksBehind self.old part.now) }
        ensures problem { self.new.checker.problem ≡ self.old.checker.problem }
        ensures front { OnErr result (AddsFront self.old part.now self.new) }
    {
        if self.is_past(part.len()) {
            return Err(CheckError::No(self.refused(Rule::TooLarge)));
        }
        self.keep(part)
    }

    // Reads the line feed of a line of which no byte was read before.
    fn end_line(&mut self, line: &[u8]) -> Result<(), CheckError>
        requires free { HasNoLineFeed line.now }
        requires fits { self.old.bytes + (length line.now + 1) ≤ LOG_BYTES }
        requires none { self.old.kept ≡ [] }
        ensures adds { OnOk result (Adds self.old (line.now ++ LINE_FEED ∷ []) self.new) }
        ensures no { IfErr result (BreaksBehind self.old (line.now ++ LINE_FEED ∷ [])) }
        ensures problem { self.new.checker.problem ≡ self.old.checker.problem }
        ensures unchanged { OnErr result (self.new ≡ self.old) }
    {
        self.checker.feed(line)?;
        self.bytes += line.len() as u64 + 1;
        Ok(())
    }

    // Reads the line feed of the line whose front is kept.
    fn end_kept(&mut self) -> Result<(), CheckError>
        requires { self.old.bytes + 1 ≤ LOG_BYTES }
        ensures adds { OnOk result (Adds self.old (LINE_FEED ∷ []) self.new) }
        ensures no { IfErr result (BreaksBehind self.old (LINE_FEED ∷ [])) }
        ensures problem { self.new.checker.problem ≡ self.old.checker.problem }
        ensures unchanged { OnErr result (self.new ≡ self.old) }
    {
        self.checker.feed(&self.kept)?;
        self.kept.clear();
        self.bytes += 1;
        Ok(())
    }

    // Reads the rest of a line and its line feed.
    fn end_with(&mut self, part: &[u8]) -> Result<(), CheckError>
        requires { HasNoLineFeed part.now }
        ensures adds { OnOk result (Adds self.old (part.now ++ LINE_FEED ∷ []) self.new) }
        ensures no { IfErr result (BreaksBehind self.old (part.now ++ LINE_FEED ∷ [])) }
        ensures problem { self.new.checker.problem ≡ self.old.checker.problem }
        ensures front { OnErr result (AddsFront self.old (part.now ++ LINE_FEED ∷ []) self.new) }
    {
        if self.is_past(part.len() + 1) {
            return Err(CheckError::No(self.refused(Rule::TooLarge)));
        }
        if self.is_between_lines() {
            return self.end_line(part);
        }
        self.keep(part)?;
        self.end_kept()
    }

    /// Reads the next bytes of the log. No comes as soon as a line breaks a rule, whatever comes
    /// behind these bytes, with that line and its first broken rule: so it is told of a line that
    /// is too long once its line feed comes, or its byte past the longest log. The only other
    /// error is want of memory. After an error a front of these bytes was read, and `bytes` tells
    /// how many: it rose by so many.
    pub fn push(&mut self, piece: &[u8]) -> Result<(), CheckError>
        ensures adds { OnOk result (Adds self.old piece.now self.new) }
        ensures no { IfErr result (BreaksBehind self.old piece.now) }
        ensures problem { self.new.checker.problem ≡ self.old.checker.problem }
        ensures front { OnErr result (AddsFront self.old piece.now self.new) }
    {
        let mut rest = piece;
        while let Some(at) = line_feed_in(rest) {
            self.end_with(&rest[..at])?;
            rest = &rest[at + 1..];
        }
        self.go_on(rest)
    }

    /// Ends the log: its answer where it passes, or else its first broken line, with the first
    /// rule that it breaks. The checker stays as it is.
    pub fn end(&mut self) -> Result<Answer, No>
        ensures yes { IfOk result (λ answer. (text : List ℕ) → IsReading self.old text
            → Accepts self.old.checker.problem text answer) }
        ensures no { IfErr result (λ refused. (text : List ℕ) → IsReading self.old text
            → FirstBrokenLine self.old.checker.problem text refused.line refused.rule) }
        ensures unchanged { self.new ≡ self.old }
    {
        if self.is_between_lines() {
            return self.checker.finish();
        }
        if self.is_too_long() {
            return Err(self.refused(Rule::TooLong));
        }
        Err(self.refused(Rule::End))
    }
}
