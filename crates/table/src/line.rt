//! One row of numbers, so that a row that was gathered is multiplied as any table's.
ghost use Rattle.table.specs.Lines.{line_grid};

use crate::interface::Table;
use crate::limits::{SIZE_LIMIT, limit_number};

/// A single row of numbers as a table.
#[derive(Clone, Copy)]
pub(crate) struct Line<'a> {
    pub(crate) numbers: &'a [i64],
}

impl<'a> Table for Line<'a> {
    ghost meant = { λ l. line_grid l.numbers.now };

    fn height(&self) -> usize {
        1
    }

    fn width(&self) -> usize {
        self.numbers.len().min(SIZE_LIMIT)
    }

    fn place(&self, i: usize, j: usize) -> Option<i64> {
        if i >= 1 || j >= self.width() {
            return None;
        }
        limit_number(self.numbers[j])
    }
}
