//! `Words`: a text of a finding.
ghost use Rattle.std.specs.Prelude.{◌≡◌, IfOk};
ghost use Rattle.std.specs.Str.Lossy.{utf8_lossy};

use std::alloc::{AllocError, Global};
use std::marker::Model;

/// A text in characters. A contract sees the list of its bytes.
#[derive(Drop)]
pub struct Words {
    text: String,
}

impl Model for Words {
    ghost use Rattle.std.specs.Prelude.{ℕ, List, string_bytes};

    ghost Value = { List ℕ };

    ghost view = { λ w. string_bytes w.text };
}

impl Words {
    /// The characters of these bytes; U+FFFD where they are none.
    pub fn of_bytes(alloc: Global, bytes: &[u8]) -> Result<Words, AllocError>
        ensures { IfOk result (λ words. words ≡ utf8_lossy bytes.now) }
    {
        Ok(Words {
            text: String::from_utf8_lossy(alloc, bytes)?,
        })
    }

    pub fn as_str(&self) -> &str
        ensures { result.now ≡ self.now }
    {
        self.text.as_str()
    }

    pub fn as_bytes(&self) -> &[u8]
        ensures { result.now ≡ self.now }
    {
        self.text.as_bytes()
    }
}
