//! What a table is asked, and what its answers are.
ghost use Rattle.std.specs.Prelude.{◌≡◌, ◌^◌, ◌≤◌};
ghost use Rattle.table.specs.Grid.{Grid, height_of, place_of, product_of, width_of};
ghost use Rattle.table.specs.Laws.{Bounded, Exactly, Multiplies};

use terms::{ROUNDED_LIMIT, within};

/// A kind of table of whole numbers. Rows and columns count from 0.
///
/// Each kind says by `meant` which grid one of its values stands for, and its answers are those of that grid.
/// So the same question to the same table gets the same answer; and a question alters no table, since it only borrows it.
pub trait Table {
    ghost meant: { Self → Grid };

    /// How many rows the table has, at most 64.
    fn height(&self) -> usize
        ensures value { result ≡ height_of (meant self.now) }
        ensures bound { result ≤ 64 };

    /// How many columns the table has, at most 64.
    fn width(&self) -> usize
        ensures value { result ≡ width_of (meant self.now) }
        ensures bound { result ≤ 64 };

    /// The number in row `i` and column `j`, within ±1,048,576; nothing where the place is blank or outside.
    fn place(&self, i: usize, j: usize) -> Option<i64>
        ensures value { result ≡ place_of (meant self.now) i j }
        ensures bound { Bounded 1048576 result };

    /// The sum of number times list number along row `i`, within ±2^56. It is nothing where the row is outside or holds a blank,
    /// where the list's length isn't the width, and where a list number lies beyond ±1,073,741,824.
    ///
    /// A kind that knows a faster way than place by place gives its own.
    fn product(&self, i: usize, xs: &[i64]) -> Option<i64>
        ensures value { result ≡ product_of (meant self.now) i xs.now }
        ensures bound { Bounded (2 ^ 56) result }
        ensures exactly { Exactly (Multiplies (meant self.now) i xs.now) result }
    {
        if i >= self.height() || xs.len() != self.width() {
            return None;
        }
        let mut sum = 0;
        for (j, x) in xs.iter().enumerate() {
            if !within(ROUNDED_LIMIT, *x) {
                return None;
            }
            let number = self.place(i, j)?;
            sum += number * *x;
        }
        Some(sum)
    }
}
