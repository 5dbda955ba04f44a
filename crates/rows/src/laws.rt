//! Laws of rows, cubes and forcing, each the contract of a function without a body.
ghost use Rattle.std.specs.Prelude.{◌≡◌, ◌↔◌, ℕ, ◌+◌, ◌<◌, Bool, true, false, Some, None, List, ◌++◌, length};
ghost use Rattle.std.specs.List.{All};
ghost use Rattle.arch_model.specs.Set.{has, len};
ghost use Rattle.arch_model.specs.Parts.{LibraryParts, ArchitectureParts};
ghost use Rattle.arch_model.specs.Library.{IsLibrary};
ghost use Rattle.arch_model.specs.Architecture.{IsArchitecture, cost_of};
ghost use Rattle.rows.specs.Parts.{RowParts, CutParts, CubeParts, KnownParts};
ghost use Rattle.rows.specs.Row.{RowHolds, Ascends, IsRowBelow, row_of_cut};
ghost use Rattle.rows.specs.Cube.{IsCube, IsCubeBelow, LiesIn, IsFull};
ghost use Rattle.rows.specs.Activity.{IsRefuted, is_refuted, IsUnmet, Forces};
ghost use Rattle.rows.specs.Activity.{ForcesNothing, least_forced, IsLeastForced};
ghost use Rattle.rows.specs.BaseRows.{edge_rows, cost_row_of};
ghost use Rattle.rows.specs.declared.known.RowRef.{RowRef};
ghost use Rattle.rows.specs.declared.known.Pair.{Pair};
ghost use Rattle.rows.specs.Known.{row_at, known_rows, variables, IsKnown};
ghost use Rattle.rows.specs.Problem.{IsProblem, IsVectorOf};
ghost use Rattle.rows.specs.Reason.{AllThere, is_together};
ghost use Rattle.rows.specs.Trace.{cube_after};

/// A vector that meets a row lies in no cube where the row is refuted.
pub fn refuted_rows_hold_nowhere()
    ensures { (row : RowParts) (cube : CubeParts) (x : ℕ → Bool) → LiesIn x cube → RowHolds row x
        → IsRefuted row cube → ⊥ }
{}

/// A forced variable has its value in each vector of the cube that meets the row.
pub fn forced_values_are_kept()
    ensures { (row : RowParts) (cube : CubeParts) (v : ℕ) (b : Bool) (x : ℕ → Bool) → IsCube cube
        → Forces row cube v b → LiesIn x cube → RowHolds row x → x v ≡ b }
{}

/// A row that isn't unmet in a cube holds for each vector that lies in it.
pub fn met_rows_hold()
    ensures { (row : RowParts) (cube : CubeParts) (x : ℕ → Bool) → LiesIn x cube → (IsUnmet row cube → ⊥)
        → RowHolds row x }
{}

/// The forced variable that comes first in term order is the least of all that the row forces, with
/// the value to which it is forced, where terms ascend, as those of each row that is known for a
/// problem do. There is none exactly where the row forces nothing.
pub fn the_least_is_forced()
    ensures least { (row : RowParts) (cube : CubeParts) → Ascends row → IsCube cube → (v : ℕ) (b : Bool)
        → (least_forced row cube ≡ Some (v, b)) ↔ IsLeastForced row cube v b }
    ensures known { (known : KnownParts) (r : RowRef) (row : RowParts) (cube : CubeParts) → IsProblem known.problem
        → row_at known r ≡ Some row → IsCube cube → (v : ℕ) (b : Bool)
        → (least_forced row cube ≡ Some (v, b)) ↔ IsLeastForced row cube v b }
    ensures none { (row : RowParts) (cube : CubeParts) → (least_forced row cube ≡ None) ↔ ForcesNothing row cube }
{}

/// The terms of a cut's row and of a cost row ascend, and so do those of all rows that are known for
/// a problem, since each problem keeps that its base rows are rows.
pub fn terms_ascend()
    ensures cut { (cut : CutParts) → Ascends (row_of_cut cut) }
    ensures cost { (lib : LibraryParts) (u : ℕ) → Ascends (cost_row_of lib u) }
    ensures known { (known : KnownParts) → IsProblem known.problem → All Ascends (known_rows known) }
{}

/// Where nothing is free, a row is refuted exactly where the one vector of the cube doesn't meet
/// it.
pub fn full_cubes_are_vectors()
    ensures { (n : ℕ) (row : RowParts) (cube : CubeParts) → IsRowBelow n row → IsFull n cube
        → (is_refuted row cube ≡ false) ↔ RowHolds row (has cube.ones) }
{}

/// The edges' rows ask for each present edge's ends: a vector meets all of them exactly where it is
/// that of an architecture.
pub fn edge_rows_ask_for_ends()
    ensures { (lib : LibraryParts) (x : ℕ → Bool) → IsLibrary lib
        → All (λ row. RowHolds row x) (edge_rows lib)
        ↔ ((arch : ArchitectureParts) × IsVectorOf lib arch x × IsArchitecture lib arch) }
{}

/// The cost row for a bound says that the cost is below it.
pub fn the_cost_row_bounds_the_cost()
    ensures { (lib : LibraryParts) (arch : ArchitectureParts) (x : ℕ → Bool) → IsVectorOf lib arch x → (u : ℕ)
        → RowHolds (cost_row_of lib u) x ↔ (cost_of lib arch < u) }
{}

/// A vector that meets every row that is known stays in the cube: a legal trace from a cube in
/// which it lies leads to one in which it lies.
pub fn traces_keep_vectors()
    ensures { (known : KnownParts) (cube next : CubeParts) (trace : List RowRef) (x : ℕ → Bool) → IsCube cube
        → cube_after known cube trace ≡ Some next → All (λ row. RowHolds row x) (known_rows known)
        → LiesIn x cube → LiesIn x next }
{}

/// A legal trace over the program's variables stays among them, and fixes one variable a step.
pub fn traces_fix_one_a_step()
    ensures below { (known : KnownParts) (cube next : CubeParts) (trace : List RowRef) → IsProblem known.problem
        → IsKnown known → cube_after known cube trace ≡ Some next → IsCubeBelow (variables known) cube
        → IsCubeBelow (variables known) next }
    ensures count { (known : KnownParts) (n : ℕ) (cube next : CubeParts) (trace : List RowRef) → IsCubeBelow n next
        → cube_after known cube trace ≡ Some next → len next.fixed ≡ len cube.fixed + length trace }
{}

/// One legal trace after another is a legal trace.
pub fn traces_join()
    ensures { (known : KnownParts) (first second : List RowRef) (a b c : CubeParts)
        → cube_after known a first ≡ Some b → cube_after known b second ≡ Some c
        → cube_after known a (first ++ second) ≡ Some c }
{}

/// No vector that meets every row that is known for a problem lies in a cube where the combination
/// of a reason is refuted: such a cube can be dropped.
pub fn refuted_reasons_drop_cubes()
    ensures { (known : KnownParts) (cube : CubeParts) (pairs : List Pair) (x : ℕ → Bool) → IsProblem known.problem
        → IsKnown known → AllThere known pairs → is_together known pairs cube ≡ true → LiesIn x cube
        → All (λ row. RowHolds row x) (known_rows known) → ⊥ }
{}
