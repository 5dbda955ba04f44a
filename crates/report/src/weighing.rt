// What an architecture costs, and whether it is admissible.
ghost use Rattle.std.specs.Prelude.{◌≡◌, ◌<◌, ◌++◌, length, OnOk, OnErr, IfSome, string_bytes};
ghost use Rattle.std.specs.List.{flat_map, zip, list_all};
ghost use Rattle.arch_model.specs.Architecture.{IsArchitecture};
ghost use Rattle.report.specs.Weighing.{pattern_line, is_met, verdict_line, admissible_line, weigh_text};

use crate::answers::push_weighed;
use arch_model::{Architecture, Library, Memory, Requirement, cost};
use template::push_name;

// Appends whether the patterns are met.
fn push_patterns(text: &mut String, lib: &Library, broken: Option<usize>) -> Result<(), Memory>
    requires { IfSome broken (λ k. k < length lib.now.patterns) }
    ensures { OnOk result (string_bytes text.new ≡ string_bytes text.old ++ pattern_line broken) }
{
    match broken {
        None => text.push_str("patterns meet\n"),
        Some(k) => {
            let count = lib.patterns().len();
            prove!(k < count);
            let number = k + 1;
            write!(text, "pattern {number} broken\n")?;
            Ok(())
        }
    }
}

// Appends the line of one requirement.
fn push_verdict(
    text: &mut String,
    lib: &Library,
    arch: &Architecture,
    requirement: &Requirement,
    weight: u128,
) -> Result<(), Memory>
    requires { requirement.now.sink.0 < length lib.now.components }
    ensures { OnOk result (string_bytes text.new ≡ string_bytes text.old
        ++ verdict_line lib.now arch.now (requirement.now, weight)) }
{
    if arch.comps().has(requirement.sink) {
        push_weighed(text, lib, requirement, weight)?;
        let meets = weight <= u128::from(requirement.bound);
        text.push_str(if meets { " meets\n" } else { " breaks\n" })
    } else {
        text.push_str("sink ")?;
        push_name(text, lib, requirement.sink)?;
        text.push_str(" absent\n")
    }
}

// Appends the lines of all requirements, in order.
fn push_verdicts(
    text: &mut String,
    lib: &Library,
    arch: &Architecture,
    weights: &[u128],
) -> Result<(), Memory>
    requires { length weights.now ≡ length lib.now.requirements }
    ensures { OnOk result (string_bytes text.new ≡ string_bytes text.old
        ++ flat_map (verdict_line lib.now arch.now) (zip lib.now.requirements weights.now)) }
{
    for (i, requirement) in lib.requirements().iter().enumerate() {
        push_verdict(text, lib, arch, requirement, weights[i])?;
    }
    Ok(())
}

// Whether a requirement is met by a sink of some weight.
fn is_met(arch: &Architecture, requirement: &Requirement, weight: u128) -> bool
    ensures { result ≡ is_met arch.now (requirement.now, weight) }
{
    arch.comps().has(requirement.sink) && weight <= u128::from(requirement.bound)
}

// Whether all requirements are met by their weights.
fn are_met(lib: &Library, arch: &Architecture, weights: &[u128]) -> bool
    requires { length weights.now ≡ length lib.now.requirements }
    ensures { result ≡ list_all (is_met arch.now) (zip lib.now.requirements weights.now) }
{
    for (i, requirement) in lib.requirements().iter().enumerate() {
        if !is_met(arch, requirement, weights[i]) {
            return false;
        }
    }
    true
}

// The last line.
fn last_line(admissible: bool) -> &'static str
    ensures { result.now ≡ admissible_line admissible }
{
    if admissible {
        "admissible yes\n"
    } else {
        "admissible no\n"
    }
}

// Appends what an architecture comes to.
fn push_weighing(
    text: &mut String,
    lib: &Library,
    arch: &Architecture,
    weights: &[u128],
    broken: Option<usize>,
) -> Result<(), Memory>
    requires architecture { IsArchitecture lib.now arch.now }
    requires weights { length weights.now ≡ length lib.now.requirements }
    requires broken { IfSome broken (λ k. k < length lib.now.patterns) }
    ensures { OnOk result (string_bytes text.new ≡ string_bytes text.old
        ++ weigh_text lib.now arch.now weights.now broken) }
{
    let cost = cost(lib, arch);
    write!(text, "cost {cost}\n")?;
    push_patterns(text, lib, broken)?;
    push_verdicts(text, lib, arch, weights)?;
    let admissible = broken.is_none() && are_met(lib, arch, weights);
    text.push_str(last_line(admissible))?;
    Ok(())
}

/// Appends what an architecture comes to: its cost, whether it meets the patterns or else the first
/// that it breaks, given from 0 and printed from 1, for each requirement what its sink weighs and
/// whether that meets the bound, both in units of 10^-18, and whether all of it makes the
/// architecture admissible. Where memory is wanting, nothing is appended.
pub fn weigh_text(
    lib: &Library,
    arch: &Architecture,
    weights: &[u128],
    broken: Option<usize>,
    out: &mut Vec<u8>,
) -> Result<(), Memory>
    requires architecture { IsArchitecture lib.now arch.now }
    requires weights { length weights.now ≡ length lib.now.requirements }
    requires broken { IfSome broken (λ k. k < length lib.now.patterns) }
    ensures text { OnOk result (out.new.items ≡ out.old.items
        ++ weigh_text lib.now arch.now weights.now broken) }
    ensures err { OnErr result (out.new.items ≡ out.old.items) }
{
    let mut text = String::new(*out.allocator());
    push_weighing(&mut text, lib, arch, weights, broken)?;
    out.extend_from_slice(text.as_bytes())
}
