//! What multipliers of the rows make of a column.
ghost use Rattle.std.specs.Prelude.{◌≡◌, ◌≤◌, true, length};
ghost use Rattle.duality.specs.Lists.{places};
ghost use Rattle.duality.specs.Sums.{column};
ghost use Rattle.duality.specs.Tests.{all_within};
ghost use Rattle.table.specs.Grid.{matrix_of};

use crate::sums::sum_of_places;
use table::{Flip, Table};

/// Multipliers times column j, place by place.
pub(crate) fn column_of<T: Table>(table: &T, j: usize, y: &[i64]) -> i64
    requires few { length y.now ≤ 32 }
    requires near { all_within 16777216 y.now ≡ true }
    ensures { result ≡ column (length y.now) (matrix_of (T.Table.meant table.now)) (places y.now) j }
{
    sum_of_places(&Flip::over(table), j, y)
}
