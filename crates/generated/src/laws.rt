//! Laws of generated libraries, each the contract of a function without a body.
ghost use Rattle.std.specs.Prelude.{◌≡◌, ℕ, ◌≤◌, ◌*◌, length, Ok};
ghost use Rattle.arch_model.specs.Library.{IsLibrary};
ghost use Rattle.lib_read.specs.LibraryOf.{library_of};
ghost use Rattle.generate.specs.Generated.{library_text};
ghost use Rattle.generated.specs.GeneratedLibrary.{generated_library};

/// The text of a number is the library of the number, whatever the number is: it has no fault.
pub fn the_text_is_the_library()
    ensures { (number size : ℕ) → 1 ≤ size → size ≤ 16
        → library_of (library_text number size) ≡ Ok (generated_library number size) }
{}

/// A generated library is one within all ranges and limits, of three components and two edges for
/// each group.
pub fn generated_libraries_are_within_limits()
    ensures ranges { (number size : ℕ) → size ≤ 16 → IsLibrary (generated_library number size) }
    ensures components { (number size : ℕ)
        → length (generated_library number size).components ≡ 3 * size }
    ensures edges { (number size : ℕ)
        → length (generated_library number size).edges ≡ 2 * size }
{}
