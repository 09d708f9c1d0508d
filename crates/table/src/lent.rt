//! A table that is lent answers as the table itself, so that a layer can be laid over it for one question.
use crate::interface::Table;

impl<'a, T: Table> Table for &'a T {
    ghost meant = { λ t. T.Table.meant t.now };

    fn height(&self) -> usize {
        T::height(*self)
    }

    fn width(&self) -> usize {
        T::width(*self)
    }

    fn place(&self, i: usize, j: usize) -> Option<i64> {
        T::place(*self, i, j)
    }

    fn product(&self, i: usize, xs: &[i64]) -> Option<i64> {
        T::product(*self, i, xs)
    }
}
