//! A set with its text and its paths.
ghost use Rattle.std.specs.Prelude.{◌≡◌, IfOk};
ghost use Rattle.analysis_words.specs.Nodes.{seen, sight_of};

use crate::shown::Shown;
use prog_check::{Path, ProgramSet};
use prog_paths::paths;
use std::alloc::{AllocError, Global};
use std::marker::Model;
use text_places::SetText;

/// A set whose statements have been found in its text, with its paths.
#[derive(Drop)]
pub struct ShownSet<'a> {
    text: SetText<'a>,
    set: &'a ProgramSet,
    paths: Vec<Path>,
}

impl<'a> Model for ShownSet<'a> {
    ghost use Rattle.prog_tree.specs.contracts.stmt.Stmt as stmt;
    ghost use Rattle.analysis_words.specs.Nodes.{Sight};
    ghost use Rattle.std.specs.Coded.{codes};

    ghost Value = { Sight };

    ghost coded = { Prim.hlevel (codes, stmt.the_row.coded) };

    ghost view = { λ s. record {
      text = s.text;
      set = s.set.now;
      paths = s.paths.items;
    } };
}

impl<'a> ShownSet<'a> {
    pub fn new(
        alloc: Global,
        text: &'a [u8],
        set: &'a ProgramSet,
    ) -> Result<ShownSet<'a>, AllocError>
        ensures { IfOk result (λ whole. whole ≡ sight_of text.now set.now) }
    {
        let paths = paths(alloc, set)?;
        let text = SetText::new(alloc, text)?;
        Ok(ShownSet { text, set, paths })
    }

    pub fn shown(&self) -> Shown<'_>
        ensures { seen result ≡ self.now }
    {
        Shown {
            text: &self.text,
            set: self.set,
            paths: &self.paths,
        }
    }
}
