//! Laws of names, each the contract of a function without a body.
ghost use Rattle.std.specs.Prelude.{◌≡◌, ℕ, ◌<◌, length};
ghost use Rattle.arch_model.specs.Parts.{LibraryParts};
ghost use Rattle.arch_model.specs.Library.{IsLibrary};
ghost use Rattle.template.specs.Names.{component_name};

/// Two components of a library differ in their names.
pub fn names_differ()
    ensures { (lib : LibraryParts) → IsLibrary lib → (c d : ℕ) → c < length lib.components
        → d < length lib.components → component_name lib c ≡ component_name lib d → c ≡ d }
{}
