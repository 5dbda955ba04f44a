// Keys of a library file, as they were written.
ghost use Rattle.std.specs.Prelude.{◌≡◌};

use std::marker::Model;

/// The text of a key, in bytes: any that a file may have, or `-` where a fault is at no key.
#[derive(Drop)]
pub struct KeyText {
    bytes: Vec<u8>,
}

impl Model for KeyText {
    ghost use Rattle.std.specs.Prelude.{ℕ, List};

    ghost Value = { List ℕ };

    ghost view = { λ a. a.bytes.items };
}

impl KeyText {
    /// The key of these bytes.
    pub fn new(bytes: Vec<u8>) -> KeyText
        ensures { result ≡ bytes.items }
    {
        KeyText { bytes }
    }

    /// The bytes.
    pub fn bytes(&self) -> &[u8]
        ensures { result.now ≡ self.now }
    {
        self.bytes.as_slice()
    }
}
