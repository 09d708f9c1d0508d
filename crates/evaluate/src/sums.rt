//! Sums of products of 64-bit numbers.
ghost use Rattle.std.specs.Prelude.{◌≡◌, length};
ghost use Rattle.duality.specs.Lists.{places};
ghost use Rattle.duality.specs.Sums.{row};
ghost use Rattle.table.specs.Grid.{matrix_of};
ghost use Rattle.evaluate.specs.Sums.{Summable};

use table::Table;

/// Row i times z, place by place, with 0 for a blank.
pub(crate) fn sum_of_places<T: Table>(table: &T, i: usize, z: &[i64]) -> i64
    requires { Summable z.now }
    ensures { result ≡ row (length z.now) (matrix_of (T.Table.meant table.now)) (places z.now) i }
{
    let mut sum = 0;
    for (j, x) in z.iter().enumerate() {
        sum += table.place(i, j).unwrap_or(0) * *x;
    }
    sum
}

/// Row i times z: the table's own product where it has one, since that may be faster than place by place.
pub(crate) fn row_of<T: Table>(table: &T, i: usize, z: &[i64]) -> i64
    requires { Summable z.now }
    ensures { result ≡ row (length z.now) (matrix_of (T.Table.meant table.now)) (places z.now) i }
{
    table
        .product(i, z)
        .unwrap_or_else(|| sum_of_places(table, i, z))
}
