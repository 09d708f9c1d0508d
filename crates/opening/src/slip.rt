//! Whether the slip holds: what LᵀL leaves of 1,048,576·G has each place of its diagonal at least as large as the others of that row together.
ghost use Rattle.std.specs.Prelude.{◌≡◌, ◌<◌};
ghost use Rattle.duality.specs.Convex.{remainder, beside, around as around_of};
ghost use Rattle.duality.specs.Lists.{by_rows};
ghost use Rattle.table.specs.Grid.{matrix_of};
ghost use Rattle.opening.specs.Firsts.{unless};
ghost use Rattle.opening.specs.Opening.{gram_of, SlipNumbers, dominates as dominates_at, slip_fault};

use crate::refusal::Refusal;
use crate::tables::number_at;
use table::Table;

const SCALE: i64 = 1_048_576;

/// A slip L row by row, with its numbers in their limit, and the table G that it is for.
#[derive(Drop)]
pub(crate) struct Slip<'a, G> {
    g: &'a G,
    ropes: usize,
    numbers: &'a [i64],
    ghost fit: { SlipNumbers ropes numbers.now },
}

impl<'a, G: Table> Slip<'a, G> {
    pub(crate) fn new(g: &'a G, ropes: usize, numbers: &'a [i64]) -> Slip<'a, G>
        requires { SlipNumbers ropes numbers.now }
        ensures { (result.g.now ≡ g.now) × (result.ropes ≡ ropes) × (result.numbers.now ≡ numbers.now) }
    {
        Slip { g, ropes, numbers }
    }

    /// Row i and column j of LᵀL.
    fn gram(&self, i: usize, j: usize) -> i64
        requires row { i < self.now.ropes }
        requires column { j < self.now.ropes }
        ensures { result ≡ gram_of self.now.ropes (by_rows self.now.ropes self.now.numbers.now) i j }
    {
        let mut sum = 0i64;
        for row in self.numbers.chunks_exact(self.ropes) {
            sum += row[i] * row[j];
        }
        sum
    }

    /// Row i and column j of 1,048,576·G - LᵀL.
    fn remainder(&self, i: usize, j: usize) -> i64
        requires row { i < self.now.ropes }
        requires column { j < self.now.ropes }
        ensures { result ≡ remainder self.now.ropes (matrix_of (G.Table.meant self.now.g.now)) (by_rows self.now.ropes self.now.numbers.now) i j }
    {
        SCALE * number_at(self.g, i, j) - self.gram(i, j)
    }

    /// The size of a number of the remainder beside the diagonal, 0 on it.
    fn beside(&self, i: usize, j: usize) -> i64
        requires row { i < self.now.ropes }
        requires column { j < self.now.ropes }
        ensures { result ≡ beside (remainder self.now.ropes (matrix_of (G.Table.meant self.now.g.now)) (by_rows self.now.ropes self.now.numbers.now)) i j }
    {
        if i == j {
            0
        } else {
            self.remainder(i, j).abs()
        }
    }

    fn around(&self, i: usize) -> i64
        requires row { i < self.now.ropes }
        ensures { result ≡ around_of self.now.ropes (remainder self.now.ropes (matrix_of (G.Table.meant self.now.g.now)) (by_rows self.now.ropes self.now.numbers.now)) i }
    {
        // No chain: of a `sum` of signed numbers no bound is known.
        let mut sum = 0i64;
        for j in 0..self.ropes {
            sum += self.beside(i, j);
        }
        sum
    }

    fn dominates(&self, i: usize) -> bool
        requires row { i < self.now.ropes }
        ensures { result ≡ dominates_at self.now.ropes (remainder self.now.ropes (matrix_of (G.Table.meant self.now.g.now)) (by_rows self.now.ropes self.now.numbers.now)) i }
    {
        self.around(i) <= self.remainder(i, i)
    }

    /// That the slip holds; a refusal names the first row that shows that it doesn't.
    pub(crate) fn check(&self) -> Result<(), Refusal>
        ensures { result ≡ unless (slip_fault self.now.ropes (matrix_of (G.Table.meant self.now.g.now)) self.now.numbers.now) tt }
    {
        for row in 0..self.ropes {
            if !self.dominates(row) {
                return Err(Refusal::Slip { row });
            }
        }
        Ok(())
    }
}
