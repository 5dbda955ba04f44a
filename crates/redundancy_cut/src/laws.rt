//! Laws of cuts, each the contract of a function without a body.
ghost use Rattle.std.specs.Prelude.{◌≡◌, ◌↔◌, ℕ, ◌<◌, ◌≤◌, Bool, List, ◌∷◌, length, IsTrue, Some, None};
ghost use Rattle.std.specs.List.{All};
ghost use Rattle.arch_model.specs.Set.{has};
ghost use Rattle.arch_model.specs.Parts.{LibraryParts, ArchitectureParts};
ghost use Rattle.arch_model.specs.Library.{IsLibrary};
ghost use Rattle.arch_model.specs.Architecture.{IsArchitecture};
ghost use Rattle.arch_model.specs.Member.{member_count};
ghost use Rattle.arch_model.specs.Path.{LeadsTo};
ghost use Rattle.arch_model.specs.Weight.{weight_of, IsHeaviest};
ghost use Rattle.arch_model.specs.Admissible.{IsAdmissible};
ghost use Rattle.rows.specs.Parts.{CubeParts};
ghost use Rattle.rows.specs.Row.{RowHolds, row_of_cut};
ghost use Rattle.rows.specs.Cut.{IsCut};
ghost use Rattle.rows.specs.Cube.{IsFull};
ghost use Rattle.rows.specs.Activity.{is_refuted};
ghost use Rattle.rows.specs.Known.{IsCutBelow};
ghost use Rattle.rows.specs.Problem.{IsVectorOf};
ghost use Rattle.redundancy_cut.specs.declared.cut.Cut.{Cut};
ghost use Rattle.redundancy_cut.specs.RightCut.{IsRightCut};
ghost use Rattle.redundancy_cut.specs.CutRow.{cut_row_of};
ghost use Rattle.redundancy_cut.specs.Reaching.{reaches};
ghost use Rattle.redundancy_cut.specs.ChosenCut.{heaviest_of, chosen_cut_of};

/// The row of every right cut holds in every admissible architecture.
pub fn right_cuts_hold()
    ensures { (lib : LibraryParts) → IsLibrary lib → (of : ArchitectureParts) → IsArchitecture lib of
        → (cut : Cut) → IsRightCut lib cut of → (arch : ArchitectureParts) → IsAdmissible lib arch
        → (x : ℕ → Bool) → IsVectorOf lib arch x → RowHolds (row_of_cut (cut_row_of lib cut of)) x }
{}

/// The row of every cut is one: coefficients 1 and -1 at variables of the library, none with both.
pub fn cuts_have_rows()
    ensures cut { (lib : LibraryParts) → IsLibrary lib → (cut : Cut) (of : ArchitectureParts)
        → IsCut (cut_row_of lib cut of) }
    ensures variables { (lib : LibraryParts) (cut : Cut) (of : ArchitectureParts)
        → IsCutBelow (member_count lib) (cut_row_of lib cut of) }
{}

/// The cut that must be published for an architecture is right for it, and the architecture breaks
/// its row: its vector doesn't meet it, and in its cube the row is refuted.
pub fn chosen_cuts_are_right()
    ensures right { (lib : LibraryParts) → IsLibrary lib → (arch : ArchitectureParts)
        → IsArchitecture lib arch → (cut : Cut) → chosen_cut_of lib arch ≡ Some cut
        → IsRightCut lib cut arch }
    ensures broken { (lib : LibraryParts) → IsLibrary lib → (arch : ArchitectureParts)
        → IsArchitecture lib arch → (cut : Cut) → chosen_cut_of lib arch ≡ Some cut
        → (x : ℕ → Bool) → IsVectorOf lib arch x → RowHolds (row_of_cut (cut_row_of lib cut arch)) x → ⊥ }
    ensures refuted { (lib : LibraryParts) → IsLibrary lib → (arch : ArchitectureParts)
        → IsArchitecture lib arch → (cut : Cut) → chosen_cut_of lib arch ≡ Some cut
        → (cube : CubeParts) → IsFull (member_count lib) cube → IsVectorOf lib arch (has cube.ones)
        → IsTrue (is_refuted (row_of_cut (cut_row_of lib cut arch)) cube) }
{}

/// There is such a cut exactly where some required sink weighs more than its bound.
pub fn a_cut_is_chosen_where_a_weight_is_above_its_bound()
    ensures { (lib : LibraryParts) → IsLibrary lib → (arch : ArchitectureParts)
        → IsArchitecture lib arch → (chosen_cut_of lib arch ≡ None)
        ↔ All (λ r. weight_of lib arch r.sink.0 ≤ r.bound) lib.requirements }
{}

/// The heaviest minimal cut set of a sink is what the textbook's words say, and there is one.
pub fn the_heaviest_is_found()
    ensures exact { (lib : LibraryParts) (arch : ArchitectureParts) → IsArchitecture lib arch
        → (sink : ℕ) (members : List ℕ)
        → (heaviest_of lib arch sink ≡ Some members) ↔ IsHeaviest lib arch sink members }
    ensures some { (lib : LibraryParts) (arch : ArchitectureParts) → IsArchitecture lib arch
        → (sink : ℕ) → (members : List ℕ) × IsHeaviest lib arch sink members }
{}

/// The test of what a sink is reached from is what `LeadsTo` says.
pub fn reaching_is_tested()
    ensures { (lib : LibraryParts) → IsLibrary lib → (arch : ArchitectureParts) (sink : ℕ)
        → sink < length lib.components → (failed : ℕ → Bool) (c : ℕ)
        → IsTrue (reaches lib arch sink failed c)
        ↔ ((rest : List ℕ) × LeadsTo lib arch sink failed (c ∷ rest)) }
{}
