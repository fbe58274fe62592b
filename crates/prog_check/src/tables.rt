//! Declared tables, found by their names.

ghost use Rattle.std.specs.Prelude.{◌≡◌, option_copied, IfOk, map};
ghost use Rattle.prog_check.specs.Tables.{declaration};

use crate::names::Names;
use prog_tree::{Name, TableDecl};
use std::marker::Model;

/// The declared tables, with an index of their names. Contracts see the declarations.
#[derive(Drop)]
pub struct Tables<'a> {
    declared: &'a [TableDecl],
    names: &'a Names,
}

impl<'a> Model for Tables<'a> {
    ghost use Rattle.std.specs.Prelude.{◌≡◌, List, map};
    ghost use Rattle.prog_tree.specs.declared.table.TableDecl.{TableDecl};

    ghost Value = { List TableDecl };

    ghost view = { λ t. t.declared.now };

    ghost invariant = { λ t. t.names.now ≡ map (λ d. d.name) t.declared.now };
}

impl<'a> Tables<'a> {
    pub fn new(declared: &'a [TableDecl], names: &'a Names) -> Self
        requires { names.now ≡ map (λ d. d.name) declared.now }
        ensures { result ≡ declared.now }
    {
        Tables { declared, names }
    }

    /// The declaration of the table of a name.
    pub fn find(&self, name: &Name) -> Option<&'a TableDecl>
        ensures { option_copied result ≡ declaration self.now name.now }
    {
        let number = self.names.number(name.as_str())?;
        self.declared.get(number)
    }
}
