// The lines of the checker's verdict on a log.
ghost use Rattle.std.specs.Prelude.{◌≡◌, ◌++◌, OnOk, OnErr, string_bytes};
ghost use Rattle.report.specs.Verdict.{rule_text, answer_text, yes_text, no_text};

use arch_model::Memory;
use search_core::{Answer, Rule};

// A rule's word.
fn rule_text(rule: Rule) -> &'static str
    ensures { result.now ≡ rule_text rule }
{
    match rule {
        Rule::TooLarge => "TooLarge",
        Rule::TooLong => "TooLong",
        Rule::End => "End",
        Rule::Form => "Form",
        Rule::Number => "Number",
        Rule::Order => "Order",
        Rule::After => "After",
        Rule::Header => "Header",
        Rule::Worker => "Worker",
        Rule::Node => "Node",
        Rule::Cuts => "Cuts",
        Rule::Bound => "Bound",
        Rule::Row => "Row",
        Rule::Step => "Step",
        Rule::Free => "Free",
        Rule::Limit => "Limit",
        Rule::Reason => "Reason",
        Rule::Full => "Full",
        Rule::Broken => "Broken",
        Rule::Weight => "Weight",
        Rule::Cost => "Cost",
        Rule::Cut => "Cut",
        Rule::Refute => "Refute",
        Rule::Answer => "Answer",
    }
}

// Appends an answer, and the cost that it names.
fn push_told(text: &mut String, answer: Answer) -> Result<(), Memory>
    ensures { OnOk result (string_bytes text.new ≡ string_bytes text.old ++ answer_text answer) }
{
    match answer {
        Answer::Optimal { cost } => write!(text, "optimal {cost}")?,
        Answer::Infeasible => text.push_str("infeasible")?,
        Answer::NodeLimit {
            incumbent: Some(cost),
        } => write!(text, "nodelimit {cost}")?,
        Answer::NodeLimit { incumbent: None } => text.push_str("nodelimit none")?,
    }
    Ok(())
}

// Appends the line that says yes.
fn push_yes(text: &mut String, answer: Answer) -> Result<(), Memory>
    ensures { OnOk result (string_bytes text.new ≡ string_bytes text.old ++ yes_text answer) }
{
    text.push_str("yes ")?;
    push_told(text, answer)?;
    text.push_str("\n")?;
    Ok(())
}

// Appends the line that says no.
fn push_no(text: &mut String, line: u64, rule: Rule) -> Result<(), Memory>
    ensures { OnOk result (string_bytes text.new ≡ string_bytes text.old ++ no_text line rule) }
{
    let word = rule_text(rule);
    write!(text, "no {line} {word}\n")?;
    Ok(())
}

/// Appends the line that says yes to a log: its answer, and the cost that this names, or that there
/// is none. Where memory is wanting, nothing is appended.
pub fn yes_text(answer: &Answer, out: &mut Vec<u8>) -> Result<(), Memory>
    ensures text { OnOk result (out.new.items ≡ out.old.items ++ yes_text answer.now) }
    ensures err { OnErr result (out.new.items ≡ out.old.items) }
{
    let mut text = String::new(*out.allocator());
    push_yes(&mut text, *answer)?;
    out.extend_from_slice(text.as_bytes())
}

/// Appends the line that says no to a log: the number of its first broken line, counted from 1, and
/// the word of the rule that this breaks. Where memory is wanting, nothing is appended.
pub fn no_text(line: u64, rule: Rule, out: &mut Vec<u8>) -> Result<(), Memory>
    ensures text { OnOk result (out.new.items ≡ out.old.items ++ no_text line rule) }
    ensures err { OnErr result (out.new.items ≡ out.old.items) }
{
    let mut text = String::new(*out.allocator());
    push_no(&mut text, line, rule)?;
    out.extend_from_slice(text.as_bytes())
}
