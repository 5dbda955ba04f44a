// The study of a candidate.
ghost use Rattle.std.specs.Prelude.{◌≡◌, ◌↔◌};
ghost use Rattle.arch_model.specs.Admissible.{IsAdmissible};
ghost use Rattle.rows.specs.Problem.{IsCandidate};
ghost use Rattle.redundancy_cut.specs.ChosenCut.{chosen_cut_of};
ghost use Rattle.analyst.specs.VerdictParts.{cut_of};

use crate::choosing::chosen_cut;
use crate::verdict::Verdict;
use arch_model::Architecture;
use rows::Problem;
use std::alloc::Global;

/// Whether a candidate is admissible, and else the cut to publish: `Meets` exactly where it is, and
/// `Breaks`, with the cut of `chosen_cut_of`, exactly where some required sink weighs more than its
/// bound. The candidate must meet the patterns and have every required sink. It takes no memory.
pub fn study(alloc: Global, problem: &Problem, arch: &Architecture) -> Verdict
    requires { IsCandidate problem.now.library arch.now }
    ensures meets { (result ≡ Verdict.Meets) ↔ IsAdmissible problem.now.library arch.now }
    ensures cut { cut_of result ≡ chosen_cut_of problem.now.library arch.now }
{
    match chosen_cut(alloc, problem.library(), arch) {
        Some(cut) => Verdict::Breaks(cut),
        None => Verdict::Meets,
    }
}
