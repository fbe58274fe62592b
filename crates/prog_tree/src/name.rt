//! Names, as bytes.

ghost use Rattle.std.specs.Prelude.{◌≡◌, ◌↔◌, bytes_eq, IfOk, IsTrue};
ghost use Rattle.prog_tree.specs.Value.{same_name};

use std::alloc::{AllocError, Global};
use std::fmt;
use std::marker::Model;

/// The name of a table, a program, a parameter or a value. Contracts see its bytes.
#[derive(Debug, Drop)]
pub struct Name {
    text: String,
}

impl Model for Name {
    ghost use Rattle.std.specs.Prelude.{List, ℕ, string_bytes};

    ghost Value = { List ℕ };

    ghost view = { λ n. string_bytes n.text };
}

/// Whether both are the same bytes. It goes through them: for names and words that is faster than a
/// comparison made for long texts.
#[inline]
pub fn same_bytes(bytes: &[u8], others: &[u8]) -> bool
    ensures { result ≡ bytes_eq bytes.now others.now }
{
    bytes.len() == others.len() && bytes.iter().eq(others)
}

impl Name {
    pub fn new(alloc: Global, text: &str) -> Result<Self, AllocError>
        ensures { IfOk result (λ name. name ≡ text.now) }
    {
        Ok(Name {
            text: String::from_str(alloc, text)?,
        })
    }

    pub fn as_str(&self) -> &str
        ensures { result.now ≡ self.now }
    {
        self.text.as_str()
    }

    pub fn copy(&self) -> Result<Self, AllocError>
        ensures { IfOk result (λ name. name ≡ self.now) }
    {
        Ok(Name {
            text: self.text.clone()?,
        })
    }

    /// Whether both are the same.
    pub fn is_same(&self, other: &Name) -> bool
        ensures same { IsTrue result ↔ (self.now ≡ other.now) }
        ensures test { result ≡ same_name self.now other.now }
    {
        same_bytes(self.text.as_bytes(), other.text.as_bytes())
    }
}

impl fmt::Display for Name {
    ghost use Rattle.std.specs.Prelude.{Some};

    ghost output = { λ name. Some name };

    fn fmt<W: fmt::Write>(&self, f: &mut fmt::Formatter<W>) -> fmt::Result {
        f.write_str(self.as_str())
    }
}

/// Copies of names, in their order.
pub fn copy_names(alloc: Global, names: &[Name]) -> Result<Vec<Name>, AllocError>
    ensures { IfOk result (λ copies. copies.items ≡ names.now) }
{
    let mut copies = Vec::with_capacity(alloc, names.len())?;
    for name in names {
        copies.push(name.copy()?)?;
    }
    Ok(copies)
}

/// Whether both lists have the same names, in the same order.
pub fn same_names(names: &[Name], others: &[Name]) -> bool
    ensures { IsTrue result ↔ (names.now ≡ others.now) }
{
    if names.len() != others.len() {
        return false;
    }
    for (name, other) in names.iter().zip(others) {
        if !name.is_same(other) {
            return false;
        }
    }
    true
}
