//! Laws of base rows, each the contract of a function without a body.
ghost use Rattle.arch_model.specs.Parts.{LibraryParts};
ghost use Rattle.arch_model.specs.Library.{IsLibrary};
ghost use Rattle.rows.specs.BaseRows.{base_rows_of};
ghost use Rattle.rows.specs.Problem.{DecidePatterns};

/// The base rows of a library decide its patterns: a vector meets all of them exactly where it is
/// that of an architecture that meets every pattern and has every required sink.
pub fn base_rows_decide()
    ensures { (lib : LibraryParts) → IsLibrary lib → DecidePatterns lib (base_rows_of lib) }
{}
