//! Names, each once.

ghost use Rattle.std.specs.List.{position};
ghost use Rattle.std.specs.Prelude.{◌≡◌, [], ◌∷◌, ◌++◌, not, length, take, string_bytes, IfOk};
ghost use Rattle.std.specs.Prelude.{if◌then◌else◌};
ghost use Rattle.prog_tree.specs.Value.{same_name};
ghost use Rattle.prog_check.specs.Names.{is_among, place_among};

use indexmap::IndexSet;
use prog_tree::{Name, same_bytes};
use std::alloc::{AllocError, Global};
use std::marker::Model;

// How many names are gone through one by one. Of more a name's hash finds the one sooner.
const FEW_NAMES: usize = 8;

/// Names in the order in which they came, each once. Contracts see the list of them.
#[derive(Debug, Drop)]
pub struct Names {
    texts: IndexSet<String>,
}

impl Model for Names {
    ghost use Rattle.std.specs.Prelude.{List, ℕ, map, string_bytes};

    ghost Value = { List (List ℕ) };

    ghost view = { λ n. map string_bytes n.texts.keys };
}

// The place of the first text that is a name.
fn first_place(texts: &[String], name: &str) -> Option<usize>
    ensures { result ≡ position (λ text. same_name name.now (string_bytes text)) texts.now }
{
    texts
        .iter()
        .position(|text| same_bytes(name.as_bytes(), text.as_bytes()))
}

impl Names {
    pub fn new(alloc: Global) -> Self
        ensures { result ≡ [] }
    {
        Names {
            texts: IndexSet::new(alloc),
        }
    }

    pub fn len(&self) -> usize
        ensures { result ≡ length self.now }
    {
        self.texts.len()
    }

    pub fn contains(&self, name: &Name) -> bool
        ensures { result ≡ is_among self.now name.now }
    {
        self.texts.contains(name.as_str())
    }

    /// The place of a name in the list, from 0.
    pub fn number(&self, name: &str) -> Option<usize>
        ensures { result ≡ place_among self.now name.now }
    {
        if self.are_few() {
            return first_place(self.texts.as_slice(), name);
        }
        self.texts.get_index_of(name)
    }

    // Whether they are gone through one by one.
    fn are_few(&self) -> bool {
        self.texts.len() <= FEW_NAMES
    }

    /// Adds a name behind the others, and tells whether it is new.
    pub fn insert(&mut self, name: &Name) -> Result<bool, AllocError>
        ensures new { IfOk result (λ new. new ≡ not (is_among self.old name.now)) }
        ensures names { IfOk result
            (λ new. self.new ≡ (if new then self.old ++ name.now ∷ [] else self.old)) }
    {
        let text = String::from_str(*self.texts.allocator(), name.as_str())?;
        Ok(self.texts.insert(text)?)
    }

    /// Keeps the first `len` names.
    pub fn truncate(&mut self, len: usize)
        ensures { self.new ≡ take len self.old }
    {
        self.texts.truncate(len);
    }

    pub fn copy(&self) -> Result<Self, AllocError>
        ensures { IfOk result (λ copy. copy ≡ self.now) }
    {
        Ok(Names {
            texts: self.texts.clone()?,
        })
    }
}
