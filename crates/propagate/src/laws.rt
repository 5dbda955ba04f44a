//! The laws of propagation, each the contract of a function without a body.
ghost use Rattle.std.specs.Prelude.{◌≡◌, List, Some};
ghost use Rattle.rows.specs.declared.known.RowRef.{RowRef};
ghost use Rattle.rows.specs.Parts.{RowParts, CubeParts, KnownParts};
ghost use Rattle.rows.specs.Cube.{IsCube};
ghost use Rattle.rows.specs.Activity.{IsRefuted};
ghost use Rattle.rows.specs.Known.{row_at, IsQuiet};
ghost use Rattle.rows.specs.Trace.{cube_after};
ghost use Rattle.propagate.specs.declared.closed.Closed.{Closed};
ghost use Rattle.propagate.specs.Closed.{Closes, Agree};

/// Two legal traces from one cube that end in quiet cubes end in the same cube. Where one legal
/// trace ends in a quiet cube, no legal trace from there ends in a cube where a row that is known
/// is refuted. So two answers that keep the promise of propagation from one cube agree: both say
/// that a row is refuted, or both are quiet or both full, with one cube.
pub fn one_closure()
    ensures same { (known : KnownParts) (cube a b : CubeParts) (first second : List RowRef) → IsCube cube
        → cube_after known cube first ≡ Some a → cube_after known cube second ≡ Some b → IsQuiet known a
        → IsQuiet known b → a ≡ b }
    ensures never { (known : KnownParts) (cube a b : CubeParts) (first second : List RowRef) → IsCube cube
        → cube_after known cube first ≡ Some a → cube_after known cube second ≡ Some b → IsQuiet known a
        → (r : RowRef) (row : RowParts) → row_at known r ≡ Some row → IsRefuted row b → ⊥ }
    ensures agree { (known : KnownParts) (cube : CubeParts) (a b : Closed) → IsCube cube → Closes known cube a
        → Closes known cube b → Agree a b }
{}
