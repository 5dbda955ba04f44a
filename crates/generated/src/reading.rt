// A generated library, with its text.
ghost use Rattle.std.specs.Prelude.{◌≡◌, ◌≤◌, IfOk};
ghost use Rattle.generate.specs.Generated.{library_text};
ghost use Rattle.generated.specs.GeneratedLibrary.{generated_library};

use arch_model::{Library, Memory};
use generate::LARGEST_SIZE;
use lib_read::{LibError, read_library};
use std::alloc::{AllocError, Global};

/// A library that was made from a number.
#[derive(Drop)]
pub struct Generated {
    /// The bytes of its file.
    pub text: Vec<u8>,
    /// What the file says.
    pub library: Library,
}

/// The library of a number with its text, of `size` groups: 1 to 16. The only error is want of
/// memory, since a generated text has no fault.
#[tactic(auto, using(crate::proofs::Whole::generated_text_is))]
pub fn text_and_library(alloc: Global, number: u64, size: u32) -> Result<Generated, Memory>
    requires some { 1 ≤ size }
    requires few { size ≤ LARGEST_SIZE }
    ensures text { IfOk result (λ made. made.text.items ≡ library_text number size) }
    ensures library { IfOk result (λ made. made.library ≡ generated_library number size) }
{
    let text = generate::library_of(alloc, number, size)?;
    match read_library(alloc, &text) {
        Ok(library) => Ok(Generated { text, library }),
        Err(LibError::Memory) => Err(AllocError),
        Err(LibError::Fault(_fault)) => unreachable!(),
    }
}
