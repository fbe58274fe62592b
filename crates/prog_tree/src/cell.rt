//! Cells, and regions of them.

ghost use Rattle.std.specs.Prelude.{◌≡◌, ◌↔◌, IsTrue};
ghost use Rattle.prog_tree.specs.Table.{is_in, lies_between};
ghost use Rattle.prog_tree.specs.Corners.{AreCorners};

/// A cell of a table. In a table of one key column the second is 0.
#[derive(Clone, Copy, Debug, PartialEq, Eq, PartialOrd, Ord)]
pub struct Cell {
    pub table: usize,
    pub first: i64,
    pub second: i64,
}

/// The cells of a table between two ends of each key column. With a low end above the high end
/// there are none.
#[derive(Clone, Copy, Debug, PartialEq, Eq)]
pub struct Region {
    pub table: usize,
    pub first_low: i64,
    pub first_high: i64,
    pub second_low: i64,
    pub second_high: i64,
}

/// Whether a number lies between two ends, or is one of them.
pub fn lies_between(low: i64, x: i64, high: i64) -> bool
    ensures { result ≡ lies_between low x high }
{
    low <= x && x <= high
}

impl Region {
    /// Whether both are of one table and have the same ends.
    pub fn is_same(&self, other: &Region) -> bool
        ensures { IsTrue result ↔ (self.now ≡ other.now) }
    {
        self == other
    }

    pub fn contains(&self, cell: &Cell) -> bool
        ensures { result ≡ is_in self.now cell.now }
    {
        if self.table != cell.table {
            return false;
        }
        let first = lies_between(self.first_low, cell.first, self.first_high);
        let second = lies_between(self.second_low, cell.second, self.second_high);
        first && second
    }

    /// The least and the greatest cell, or none where there is no cell. Between them stand cells
    /// beside the region too.
    pub fn corners(&self) -> Option<(Cell, Cell)>
        ensures { AreCorners self.now result }
    {
        let Region {
            table,
            first_low,
            first_high,
            second_low,
            second_high,
        } = *self;
        if first_low > first_high || second_low > second_high {
            return None;
        }
        let low = Cell {
            table,
            first: first_low,
            second: second_low,
        };
        let high = Cell {
            table,
            first: first_high,
            second: second_high,
        };
        Some((low, high))
    }
}
