//! Layers over tables of any kind.
ghost use Rattle.std.specs.Prelude.{◌≡◌, ◌^◌};
ghost use Rattle.table.specs.Grid.{limited, product_of};
ghost use Rattle.table.specs.Laws.{Alike, Bounded, Exactly};
ghost use Rattle.table.specs.LayerLaws.{AddedUp, MultipliesDown, Swapped};
ghost use Rattle.table.specs.Layers.{added, flipped, summed};

use crate::interface::Table;
use crate::limits::limit_number;

/// A table with its rows and columns swapped.
#[derive(Clone, PartialEq, Eq, Debug, Drop)]
pub struct Flip<T> {
    pub below: T,
}

impl<T: Table> Flip<T> {
    /// The table with its rows and columns swapped. Each of its rows is multiplied as a column of the table below,
    /// and flipped twice a table answers as before.
    pub fn over(below: T) -> Flip<T>
        ensures holds { result.below ≡ below }
        ensures swapped { Swapped (T.Table.meant below) (flipped (T.Table.meant result.below)) }
        ensures twice { Alike (flipped (flipped (T.Table.meant result.below))) (T.Table.meant below) }
    {
        Flip { below }
    }
}

impl<T: Table> Table for Flip<T> {
    ghost meant = { λ f. flipped (T.Table.meant f.below) };

    fn height(&self) -> usize {
        self.below.width()
    }

    fn width(&self) -> usize {
        self.below.height()
    }

    fn place(&self, i: usize, j: usize) -> Option<i64> {
        self.below.place(j, i)
    }
}

/// Two tables added up, place by place, as far as both reach.
#[derive(Clone, PartialEq, Eq, Debug, Drop)]
pub struct Sum<T, U> {
    pub left: T,
    pub right: U,
}

impl<T: Table, U: Table> Sum<T, U> {
    /// The sum of the two tables. It answers the same whichever of them comes first.
    pub fn of(left: T, right: U) -> Sum<T, U>
        ensures holds { (result.left ≡ left) × (result.right ≡ right) }
        ensures added { AddedUp (T.Table.meant left) (U.Table.meant right) (summed (T.Table.meant result.left) (U.Table.meant result.right)) }
        ensures order { Alike (summed (T.Table.meant result.left) (U.Table.meant result.right)) (summed (U.Table.meant right) (T.Table.meant left)) }
    {
        Sum { left, right }
    }
}

/// The sum of two numbers; a blank where one of them is, and where the sum lies beyond the limit of a place.
fn add_numbers(a: Option<i64>, b: Option<i64>) -> Option<i64>
    requires near { (Bounded 1048576 a) × (Bounded 1048576 b) }
    ensures { result ≡ limited (added a b) }
{
    limit_number(a? + b?)
}

impl<T: Table, U: Table> Table for Sum<T, U> {
    ghost meant = { λ s. summed (T.Table.meant s.left) (U.Table.meant s.right) };

    fn height(&self) -> usize {
        self.left.height().min(self.right.height())
    }

    fn width(&self) -> usize {
        self.left.width().min(self.right.width())
    }

    fn place(&self, i: usize, j: usize) -> Option<i64> {
        add_numbers(self.left.place(i, j), self.right.place(i, j))
    }
}

/// The sum of number times list number down column `j`. It is nothing where the column is outside or holds a blank,
/// where the list's length isn't the height, and where a list number lies beyond ±1,073,741,824.
pub fn column_product<T: Table>(table: &T, j: usize, xs: &[i64]) -> Option<i64>
    ensures value { result ≡ product_of (flipped (T.Table.meant table.now)) j xs.now }
    ensures bound { Bounded (2 ^ 56) result }
    ensures exactly { Exactly (MultipliesDown (T.Table.meant table.now) j xs.now) result }
{
    let flip = Flip { below: table };
    flip.product(j, xs)
}
