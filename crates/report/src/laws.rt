//! What a reader may conclude from the texts, each the contract of a function without a body.
ghost use Rattle.std.specs.Prelude.{◌≡◌, ℕ, ◌↔◌, Option, IsTrue, sum_by};
ghost use Rattle.arch_model.specs.Parts.{LibraryParts, ArchitectureParts};
ghost use Rattle.arch_model.specs.Architecture.{IsArchitecture};
ghost use Rattle.arch_model.specs.Admissible.{IsAdmissible};
ghost use Rattle.arch_model.specs.Weight.{product_of, weight_of};
ghost use Rattle.cut_sets.specs.CutSets.{cut_sets_of};
ghost use Rattle.search_core.specs.Rules.{weights_of};
ghost use Rattle.report.specs.Weighing.{says_admissible, IsFirstBroken};

/// With its own weights and the first pattern that it breaks, an architecture is called admissible
/// exactly where it is.
pub fn the_last_line_is_right()
    ensures { (lib : LibraryParts) (arch : ArchitectureParts) (broken : Option ℕ)
        → IsArchitecture lib arch → IsFirstBroken lib arch broken
        → IsTrue (says_admissible lib arch (weights_of lib arch) broken) ↔ IsAdmissible lib arch }
{}

/// The sum below the listed cut sets of a sink is what the sink weighs.
pub fn the_sum_is_the_weight()
    ensures { (lib : LibraryParts) (arch : ArchitectureParts) (sink : ℕ)
        → sum_by (product_of lib) (cut_sets_of lib arch sink) ≡ weight_of lib arch sink }
{}
