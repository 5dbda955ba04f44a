// The report of a search: its answer, the best architecture, and what it took.
ghost use Rattle.std.specs.Prelude.{◌≡◌, ◌<◌, ◌++◌, codes, length, OnOk, OnErr, IfOk, IfSome, string_bytes};
ghost use Rattle.std.specs.Fmt.{decimal};
ghost use Rattle.std.specs.List.{flat_map, zip};
ghost use Rattle.arch_model.specs.Architecture.{IsArchitecture};
ghost use Rattle.report.specs.Report.{weighed, told_lines, counts_text, status_line};
ghost use Rattle.report.specs.Report.{solve_text, report_text, IsToldRight};
ghost use Rattle.report.specs.Inner.Answers.{found_lines};

use arch_csv::write_architecture;
use arch_model::{Library, Memory, Requirement};
use incumbent::Best;
use search_core::Answer;
use std::alloc::Global;
use template::push_name;

// Appends what a requirement's sink weighs, and its bound.
pub fn push_weighed(
    text: &mut String,
    lib: &Library,
    requirement: &Requirement,
    weight: u128,
) -> Result<(), Memory>
    requires { requirement.now.sink.0 < length lib.now.components }
    ensures { OnOk result (string_bytes text.new ≡ string_bytes text.old
        ++ weighed lib.now requirement.now weight) }
{
    let bound = requirement.bound;
    text.push_str("weight ")?;
    push_name(text, lib, requirement.sink)?;
    write!(text, " {weight} of {bound}")?;
    Ok(())
}

// Appends the line of one requirement.
fn push_weight_line(
    text: &mut String,
    lib: &Library,
    requirement: &Requirement,
    weight: u128,
) -> Result<(), Memory>
    requires { requirement.now.sink.0 < length lib.now.components }
    ensures { OnOk result (string_bytes text.new ≡ string_bytes text.old
        ++ (weighed lib.now requirement.now weight ++ codes "\n")) }
{
    push_weighed(text, lib, requirement, weight)?;
    text.push_str("\n")?;
    Ok(())
}

// The lines of all requirements, in order.
fn weight_lines(alloc: Global, lib: &Library, weights: &[u128]) -> Result<String, Memory>
    requires { length weights.now ≡ length lib.now.requirements }
    ensures { IfOk result (λ text. string_bytes text
        ≡ flat_map (λ p. weighed lib.now p.0 p.1 ++ codes "\n") (zip lib.now.requirements weights.now)) }
{
    let mut text = String::new(alloc);
    for (i, requirement) in lib.requirements().iter().enumerate() {
        push_weight_line(&mut text, lib, requirement, weights[i])?;
    }
    Ok(text)
}

// The line of a cost.
fn cost_line(alloc: Global, cost: u64) -> Result<String, Memory>
    ensures { IfOk result (λ text. string_bytes text ≡ codes "cost " ++ decimal cost ++ codes "\n") }
{
    let mut text = String::new(alloc);
    write!(text, "cost {cost}\n")?;
    Ok(text)
}

// The lines of how many branchings and cuts there were.
fn counts(alloc: Global, branchings: u32, cuts: u32) -> Result<String, Memory>
    ensures { IfOk result (λ text. string_bytes text ≡ counts_text branchings cuts) }
{
    let mut text = String::new(alloc);
    write!(text, "branchings {branchings}\ncuts {cuts}\n")?;
    Ok(text)
}

// Appends an architecture: its cost, the text of its file, and what its required sinks weigh.
fn push_found(
    text: &mut Vec<u8>,
    lib: &Library,
    found: &Best,
    weights: &[u128],
) -> Result<(), Memory>
    requires architecture { IsArchitecture lib.now found.now.architecture }
    requires weights { length weights.now ≡ length lib.now.requirements }
    ensures { OnOk result (text.new.items ≡ text.old.items
        ++ told_lines lib.now (Some found.now) weights.now) }
{
    let alloc = *text.allocator();
    let cost = cost_line(alloc, found.cost)?;
    text.extend_from_slice(cost.as_bytes())?;
    write_architecture(lib, &found.architecture, text)?;
    let weights = weight_lines(alloc, lib, weights)?;
    text.extend_from_slice(weights.as_bytes())?;
    Ok(())
}

// Appends the best that was found, or that there is none.
fn push_best(
    text: &mut Vec<u8>,
    lib: &Library,
    best: &Option<Best>,
    weights: &[u128],
) -> Result<(), Memory>
    requires architecture { IfSome best.now (λ found. IsArchitecture lib.now found.architecture) }
    requires weights { IfSome best.now (λ _. length weights.now ≡ length lib.now.requirements) }
    ensures { OnOk result (text.new.items ≡ text.old.items
        ++ told_lines lib.now best.now weights.now) }
{
    match best {
        Some(found) => push_found(text, lib, found, weights),
        None => text.extend_from_slice(b"incumbent none\n"),
    }
}

// Appends the best, where an answer shows it.
fn push_answer(
    text: &mut Vec<u8>,
    lib: &Library,
    answer: &Answer,
    best: &Option<Best>,
    weights: &[u128],
) -> Result<(), Memory>
    requires architecture { IfSome best.now (λ found. IsArchitecture lib.now found.architecture) }
    requires weights { IfSome best.now (λ _. length weights.now ≡ length lib.now.requirements) }
    ensures { OnOk result (text.new.items ≡ text.old.items
        ++ found_lines lib.now answer.now best.now weights.now) }
{
    match answer {
        Answer::Optimal { .. } | Answer::NodeLimit { .. } => push_best(text, lib, best, weights),
        Answer::Infeasible => Ok(()),
    }
}

// The first line of an answer's report.
pub fn status_line(answer: &Answer) -> &'static str
    ensures { result.now ≡ status_line answer.now }
{
    match answer {
        Answer::Optimal { .. } => "status optimal\n",
        Answer::Infeasible => "status infeasible\n",
        Answer::NodeLimit { .. } => "status nodelimit\n",
    }
}

// The report of an answer.
fn made(
    alloc: Global,
    lib: &Library,
    answer: &Answer,
    best: &Option<Best>,
    weights: &[u128],
    counts: &str,
) -> Result<Vec<u8>, Memory>
    requires architecture { IfSome best.now (λ found. IsArchitecture lib.now found.architecture) }
    requires weights { IfSome best.now (λ _. length weights.now ≡ length lib.now.requirements) }
    ensures { IfOk result (λ text. text.items
        ≡ status_line answer.now ++ found_lines lib.now answer.now best.now weights.now ++ counts.now) }
{
    let mut text = Vec::from_slice(alloc, status_line(answer).as_bytes())?;
    push_answer(&mut text, lib, answer, best, weights)?;
    text.extend_from_slice(counts.as_bytes())?;
    Ok(text)
}

/// Appends the report of an answer, with the best of its search, what its required sinks weigh, in
/// requirement order and in units of 10^-18, and how many branchings and cuts the search had. The
/// best is shown where the answer isn't Infeasible. Where memory is wanting, nothing is appended.
pub fn solve_text(
    lib: &Library,
    answer: &Answer,
    best: Option<Best>,
    weights: &[u128],
    branchings: u32,
    cuts: u32,
    out: &mut Vec<u8>,
) -> Result<(), Memory>
    requires architecture { IfSome best (λ found. IsArchitecture lib.now found.architecture) }
    requires weights { IfSome best (λ _. length weights.now ≡ length lib.now.requirements) }
    ensures text { OnOk result (out.new.items ≡ out.old.items
        ++ solve_text lib.now answer.now best weights.now branchings cuts) }
    ensures report { IfSome best (IsToldRight lib.now weights.now) → OnOk result
        (out.new.items ≡ out.old.items ++ report_text lib.now answer.now best branchings cuts) }
    ensures err { OnErr result (out.new.items ≡ out.old.items) }
{
    let alloc = *out.allocator();
    let counts = counts(alloc, branchings, cuts)?;
    let text = made(alloc, lib, answer, &best, weights, counts.as_str())?;
    out.extend_from_slice(&text)?;
    Ok(())
}
