//! Lists of items behind rows.
ghost use Rattle.std.specs.Prelude.{◌≡◌, ◌++◌, None, OnOk, IfErr};
ghost use Rattle.si_engine.specs.ListLines.{with_row_in, item_in, item_fault};
ghost use Rattle.si_engine.specs.LineFaults.{IsFault};

use crate::input::from_lines::FromLines;
use crate::input::line_fault::LineFault;
use crate::input::list_item::ListItem;
use crate::input::list_line::{ListLine, list_line};
use crate::input::row_line::add_row;
use prog_check::ProgramSet;
use prog_tree::{Rows, Sequence};
use std::alloc::Global;

/// The opening rows and the items of a list.
#[derive(Drop)]
pub struct ItemList<T> {
    pub rows: Rows,
    pub items: Sequence<T>,
}

impl<T: ListItem> ItemList<T> {
    // Behind an error the list is of no use.
    fn add_line(&mut self, line: usize, said: ListLine<T>) -> Result<(), LineFault>
        ensures placed { OnOk result (item_fault line self.old.rows self.old.items said ≡ None) }
        ensures rows { OnOk result (self.new.rows ≡ with_row_in self.old.rows said) }
        ensures items { OnOk result (self.new.items ≡ self.old.items ++ item_in said) }
        ensures fault { IfErr result (λ fault.
            IsFault fault (item_fault line self.old.rows self.old.items said)) }
    {
        match said {
            ListLine::Skip => {}
            ListLine::Row(row) => add_row(&mut self.rows, line, !self.items.is_empty(), row)?,
            ListLine::Item(item) => self.items.push(item)?,
        }
        Ok(())
    }
}

impl<T: ListItem> FromLines for ItemList<T> {
    ghost use Rattle.si_engine.specs.ListLines.{list_line, item_fault_behind, list_with};

    type Saying = ListLine<T>;

    ghost says = { list_line T.keyword T.item_of };

    ghost wrong = { item_fault_behind };

    ghost whole = { list_with };

    fn none(alloc: Global) -> Self {
        ItemList {
            rows: Rows::new(alloc),
            items: Sequence::new(alloc),
        }
    }

    fn read_line(
        alloc: Global,
        set: &ProgramSet,
        line: usize,
        bytes: &[u8],
    ) -> Result<ListLine<T>, LineFault> {
        list_line(alloc, set, line, bytes)
    }

    fn add(&mut self, line: usize, said: ListLine<T>) -> Result<(), LineFault> {
        self.add_line(line, said)
    }
}
