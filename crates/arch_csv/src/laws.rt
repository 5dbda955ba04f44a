//! Laws of architecture files, each the contract of a function without a body.
ghost use Rattle.std.specs.Prelude.{◌≡◌, Ok};
ghost use Rattle.arch_model.specs.Parts.{ArchitectureParts, LibraryParts};
ghost use Rattle.arch_model.specs.Library.{IsLibrary};
ghost use Rattle.arch_model.specs.Architecture.{IsArchitecture};
ghost use Rattle.arch_csv.specs.ArchitectureOf.{architecture_of_bytes};
ghost use Rattle.arch_csv.specs.Text.{architecture_text};

/// The text of an architecture reads back as the same architecture.
pub fn written_text_reads_back()
    ensures { (lib : LibraryParts) → IsLibrary lib → (arch : ArchitectureParts) → IsArchitecture lib arch
        → architecture_of_bytes lib (architecture_text lib arch) ≡ Ok arch }
{}
