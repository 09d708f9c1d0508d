//! The matrices of a job as tables, so that what is computed over tables can be computed over numbers that were read.
ghost use Rattle.std.specs.Prelude.{◌≡◌, ◌<◌, true};
ghost use Rattle.duality.specs.Lists.{places, by_rows};
ghost use Rattle.duality.specs.Sums.{row};
ghost use Rattle.duality.specs.Tests.{many_within};
ghost use Rattle.table.specs.Layers.{flipped};
ghost use Rattle.job.specs.Numbers.{numbers_of, problem_of};
ghost use Rattle.reading.specs.Listings.{listing_grid, grid_of, ShowsG, ShowsA};

use crate::listing::Listing;
use job::Job;
use table::{FACTOR_LIMIT, Flip, Table};
use terms::many_within;

impl<'a> Listing<'a> {
    /// The sum of number times list number along row i.
    fn sum_along(&self, i: usize, xs: &[i64]) -> i64
        requires row { i < self.now.height }
        requires list { many_within self.now.width 1073741824 xs.now ≡ true }
        ensures { result ≡ row self.now.width (by_rows self.now.width self.now.numbers.now) (places xs.now) i }
    {
        let start = i * self.width;
        let mut sum = 0;
        for (j, x) in xs.iter().enumerate() {
            sum += self.numbers[start + j] * *x;
        }
        sum
    }
}

impl<'a> Table for Listing<'a> {
    ghost meant = { grid_of };

    fn height(&self) -> usize {
        self.height
    }

    fn width(&self) -> usize {
        self.width
    }

    fn place(&self, i: usize, j: usize) -> Option<i64> {
        if i >= self.height || j >= self.width {
            return None;
        }
        Some(self.numbers[i * self.width + j])
    }

    fn product(&self, i: usize, xs: &[i64]) -> Option<i64> {
        if i >= self.height || !many_within(self.width, FACTOR_LIMIT, xs) {
            return None;
        }
        Some(self.sum_along(i, xs))
    }
}

/// The table G of a job: the number of its problem for each two ropes.
pub fn curvature(job: &Job) -> Listing
    ensures value { grid_of result ≡ listing_grid (problem_of job.now).ropes (problem_of job.now).ropes (numbers_of job.now).g }
    ensures law { ShowsG (problem_of job.now) (grid_of result) }
{
    Listing {
        height: job.ropes(),
        width: job.ropes(),
        numbers: &job.g,
    }
}

/// The table A of a job: the number of its problem for each row and rope.
pub fn rows(job: &Job) -> Flip<Listing>
    ensures value { grid_of result.below ≡ listing_grid (problem_of job.now).ropes (problem_of job.now).rows (numbers_of job.now).a }
    ensures law { ShowsA (problem_of job.now) (flipped (grid_of result.below)) }
{
    Flip {
        below: Listing {
            height: job.ropes(),
            width: job.rows(),
            numbers: &job.a,
        },
    }
}
