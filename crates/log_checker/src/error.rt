// Why a line or the end of a log is refused.
ghost use Rattle.std.specs.Prelude.{◌≡◌};
ghost use Rattle.log_checker.specs.Breaking.{rule_of as the_rule};

use proof_log::LineFault;
use search_core::Rule;

/// The first rule that a line breaks.
#[derive(Clone, Copy, Debug, PartialEq, Eq)]
pub struct No {
    /// The line's number, counted from 1.
    pub line: u64,
    /// The rule.
    pub rule: Rule,
}

/// Why a line isn't taken.
#[derive(Clone, Copy, Debug, PartialEq, Eq)]
pub enum CheckError {
    /// Want of memory.
    Memory,
    /// The line breaks a rule.
    No(No),
}

// The rule of a fault of a line on its own.
pub(crate) fn rule_of(fault: LineFault) -> Rule
    ensures { result ≡ the_rule fault }
{
    match fault {
        LineFault::Form => Rule::Form,
        LineFault::Number => Rule::Number,
        LineFault::Order => Rule::Order,
        LineFault::TooLong => Rule::TooLong,
    }
}
