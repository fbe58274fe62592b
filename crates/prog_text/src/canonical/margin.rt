//! How far lines are set in.

ghost use Rattle.std.specs.Prelude.{◌≡◌, ◌*◌, suc, IfOk, replicate};

use std::alloc::{AllocError, Global};
use std::marker::Model;

/// The white space before a line, as long as its block is deep. It is a text, so no number bounds
/// how deep a block is.
#[derive(Drop)]
pub struct Margin {
    spaces: String,
}

impl Model for Margin {
    ghost use Rattle.std.specs.Prelude.{ℕ, ◌≡◌, ◌*◌, ◌/◌, length, replicate, string_bytes};

    ghost Value = { ℕ };

    ghost view = { λ m. length (string_bytes m.spaces) / 2 };

    ghost invariant = { λ m. string_bytes m.spaces
        ≡ replicate (2 * (length (string_bytes m.spaces) / 2)) 32 };
}

impl Margin {
    /// Of a line that stands in no block.
    pub fn none(alloc: Global) -> Self
        ensures { result ≡ 0 }
    {
        Margin {
            spaces: String::new(alloc),
        }
    }

    /// Of the lines one block further in.
    pub fn deeper(&self) -> Result<Self, AllocError>
        ensures { IfOk result (λ inner. inner ≡ suc self.now) }
    {
        let mut spaces = self.spaces.clone()?;
        spaces.push_str("  ")?;
        Ok(Margin { spaces })
    }

    pub fn as_str(&self) -> &str
        ensures { result.now ≡ replicate (2 * self.now) 32 }
    {
        &self.spaces
    }
}
